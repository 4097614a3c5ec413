//! A sequence of pieces, which is a text: searched, split and joined at offsets in bytes of the text.

ghost use Rattle.std.specs.Prelude.{◌≡◌, [], ◌++◌, ◌+◌, ◌/◌, ◌<◌, ◌≤◌, ◌^◌, IfOk, IsTrue, drop, length, take};
ghost use Rattle.bx_text.specs.pieces.Bytes.{AreWithin, buffers, bytes_of};
ghost use Rattle.bx_text.specs.pieces.Pieces.{total, front, back, holding, pushed, IsAddressable};

use crate::pieces::copying::copy;
use crate::pieces::cutting;
use crate::pieces::joining::{join, join_links};
use crate::pieces::piece::Piece;
use crate::pieces::spares::Spares;
use crate::pieces::tree::{self, Link};
use std::alloc::{AllocError, Global};
use std::marker::Model;

/// Pieces in order, each of at least one byte. A search, a split or a join takes time logarithmic in the
/// number of pieces.
#[derive(Drop)]
pub struct Pieces {
    tree: Link,
}

impl Model for Pieces {
    ghost use Rattle.std.specs.Prelude.{List};
    ghost use Rattle.bx_text.specs.declared.pieces.piece.Piece.{Piece};
    ghost use Rattle.bx_text.specs.pieces.Tree.{sequence};

    ghost Value = { List Piece };

    ghost view = { λ p. sequence p.tree };
}

impl Pieces {
    /// No piece. Allocates nothing.
    pub fn new() -> Pieces
        ensures { result ≡ [] }
    {
        Pieces { tree: None }
    }

    /// One piece, in a spare node; no piece if it is empty. Allocates nothing.
    pub fn of(piece: Piece, spares: &mut Spares) -> Pieces
        requires { 0 < spares.old }
        ensures pieces { result ≡ pushed [] piece }
        ensures spares { spares.old ≤ spares.new + 1 }
    {
        let mut pieces = Pieces::new();
        pieces.push(piece, spares);
        pieces
    }

    /// A copy.
    ///
    /// Errors: `AllocError`.
    pub fn copy(&self, alloc: Global) -> Result<Pieces, AllocError>
        ensures { IfOk result (λ p. p ≡ self.now) }
    {
        let tree = copy(alloc, &self.tree)?;
        Ok(Pieces { tree })
    }

    /// Length of all pieces in bytes. Allocates nothing.
    pub fn len(&self) -> usize
        ensures { result ≡ total self.now }
    {
        tree::len(&self.tree)
    }

    /// Height of the tree, the depth in contracts, which bounds the recursion of each search, split, join and drop. It is at most
    /// about twice the binary logarithm of the number of pieces, and so below 130, since there are fewer than 2^64 of them.
    /// Allocates nothing.
    pub fn depth(&self) -> u8
        ensures logarithmic { 2 ^ (result / 2) ≤ length self.now + 1 }
        ensures no_more_than_bytes { length self.now ≤ total self.now }
        ensures small { result < 130 }
    {
        tree::height(&self.tree)
    }

    /// Appends other pieces. Allocates nothing.
    pub fn join(self, others: Pieces) -> Pieces
        requires { total self + total others < 2 ^ 64 }
        ensures { result ≡ self ++ others }
    {
        Pieces {
            tree: join_links(self.tree, others.tree),
        }
    }

    /// Appends a piece, or lengthens the last one if the piece begins where that one ends. Ignores an empty
    /// piece. Allocates nothing.
    pub fn push(&mut self, piece: Piece, spares: &mut Spares)
        requires spare { 0 < spares.old }
        requires fits { total self.old + piece.len < 2 ^ 64 }
        ensures pieces { self.new ≡ pushed self.old piece }
        ensures spares { spares.old ≤ spares.new + 1 }
    {
        if piece.len == 0 {
            return;
        }
        if let Some(last) = tree::last(&self.tree)
            && last.goes_on(&piece)
            && let Some(tree) = &mut self.tree
        {
            tree::lengthen(&mut **tree, piece.len);
            return;
        }
        self.tree = Some(join(spares.node(), self.tree.take(), piece, None));
    }

    /// The piece with the byte at an offset, and the offset of that byte in the piece; none at or past the
    /// end. Allocates nothing.
    pub fn holding(&self, at: usize) -> Option<(Piece, usize)>
        ensures { result ≡ holding self.now at }
    {
        tree::holding(&self.tree, at)
    }

    /// Whether the text, whose pieces lie in these two buffers, has these bytes at an offset. Allocates nothing.
    pub fn has(&self, opened: &[u8], added: &[u8], at: usize, bytes: &[u8]) -> bool
        requires { AreWithin (buffers opened.now added.now) self.now }
        ensures { IsTrue result → take (length bytes.now) (drop at (bytes_of (buffers opened.now added.now) self.now)) ≡ bytes.now }
    {
        tree::has(&self.tree, opened, added, at, bytes)
    }

    /// The pieces before an offset in bytes, and those after it. A piece with bytes on both sides is split,
    /// which takes a spare node. Allocates nothing.
    pub fn cut(self, at: usize, spares: &mut Spares) -> (Pieces, Pieces)
        requires spare { 0 < spares.old }
        requires fits { IsAddressable self }
        ensures front { result.0 ≡ front self at }
        ensures back { result.1 ≡ back self at }
        ensures spares { spares.old ≤ spares.new + 1 }
    {
        // The length is a `usize`, so that of each part is one too.
        let _len = self.len();
        let (before, after) = cutting::cut(self.tree, at, spares);
        (Pieces { tree: before }, Pieces { tree: after })
    }
}
