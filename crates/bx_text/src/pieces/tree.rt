//! An AVL tree of pieces in order: the depths of the two sides of each node differ by at most one.

ghost use Rattle.std.specs.Prelude.{◌≡◌, ◌∷◌, ◌++◌, ◌+◌, ◌<◌, ◌≤◌, ◌^◌, IsTrue, drop, length, take};
ghost use Rattle.bx_text.specs.pieces.Bytes.{AreWithin, buffers, bytes_of};
ghost use Rattle.bx_text.specs.pieces.Pieces.{total, holding, last_of, longer};
ghost use Rattle.bx_text.specs.pieces.Tree.{sequence, depth_of, fork, DifferByAtMost, IsShallow};

use crate::pieces::comparing::piece_has;
use crate::pieces::piece::{Buffer, Piece};
use std::marker::Model;
use std::mem;

/// A tree, or `None` for the tree without pieces.
pub type Link = Option<Box<Tree>>;

/// Pieces in order. Contracts see the pieces and the height, as `depth`.
#[cycle(tree)]
#[derive(Drop)]
pub struct Tree {
    left: Option<Box<Tree>>,
    piece: Piece,
    right: Option<Box<Tree>>,
    // length of all its pieces, in bytes
    len: usize,
    // number of pieces on the longest path down
    height: u8,
}

impl Model for Tree {
    ghost use Rattle.std.specs.Prelude.{ℕ};
    ghost use Rattle.bx_text.specs.pieces.Tree.{Shape, fork, IsBalanced};

    ghost Value = { Shape };

    ghost view = { λ t. fork t.left t.piece t.right };

    ghost invariant = { λ t. IsBalanced t.left t.piece t.right t.len t.height };

    ghost size = { λ s. s.depth };

    ghost use Rattle.std.proofs.Common.{arith};

    ghost size_decreases = { λ a h. Prim.grind arith };
}

impl Tree {
    /// A tree of a piece and two sides whose depths differ by at most one.
    #[tactic(auto, using(crate::proofs::pieces_lemmas::Cuts::total_append))]
    pub fn new(left: Link, piece: Piece, right: Link) -> Tree
        requires balanced { DifferByAtMost 1 (depth_of left) (depth_of right) }
        requires some { 0 < piece.len }
        requires fits { total (sequence left) + (piece.len + total (sequence right)) < 2 ^ 64 }
        ensures { result ≡ fork left piece right }
    {
        let len = len(&left) + piece.len + len(&right);
        let height = height(&left).max(height(&right)) + 1;
        Tree {
            left,
            piece,
            right,
            len,
            height,
        }
    }

    /// The left side, the piece and the right side. Allocates nothing.
    #[tactic(auto, using(crate::proofs::pieces_lemmas::Cuts::total_append))]
    pub fn parts(&self) -> (&Link, Piece, &Link)
        ensures shape { self.now ≡ fork result.0.now result.1 result.2.now }
        ensures balanced { DifferByAtMost 1 (depth_of result.0.now) (depth_of result.2.now) }
        ensures some { 0 < result.1.len }
        ensures fits { total (sequence result.0.now) + (result.1.len + total (sequence result.2.now)) < 2 ^ 64 }
        ensures shallower { (depth_of result.0.now < self.now.depth) × (depth_of result.2.now < self.now.depth) }
    {
        // The length is a `usize`, so that of each side is one too.
        let _len = self.len;
        (&self.left, self.piece, &self.right)
    }

    /// A placeholder, whose piece is never read; it has one byte, as the invariant wants.
    pub fn unused() -> Tree {
        let piece = Piece {
            buffer: Buffer::Opened,
            start: 0,
            len: 1,
        };
        Tree::new(None, piece, None)
    }
}

/// Length of all pieces of a tree, in bytes.
pub fn len(tree: &Link) -> usize
    ensures { result ≡ total (sequence tree.now) }
{
    match tree {
        None => 0,
        Some(tree) => tree.len,
    }
}

/// Number of pieces on the longest path down in a tree; `Pieces::depth` says why it is below 130.
pub fn height(tree: &Link) -> u8
    ensures depth { result ≡ depth_of tree.now }
    ensures shallow { IsShallow (depth_of tree.now) (sequence tree.now) }
    ensures small { depth_of tree.now < 130 }
{
    // The length is a `usize`, so the tree is shallow.
    let _len = len(tree);
    match tree {
        None => 0,
        Some(tree) => tree.height,
    }
}

/// Moves the root's left side, piece and right side out of a tree, and leaves a placeholder.
pub fn take_apart(tree: &mut Tree) -> (Link, Piece, Link)
    ensures shape { tree.old ≡ fork result.0 result.1 result.2 }
    ensures balanced { DifferByAtMost 1 (depth_of result.0) (depth_of result.2) }
    ensures some { 0 < result.1.len }
{
    let Tree {
        left,
        piece,
        right,
        ..
    } = mem::replace(tree, Tree::unused());
    (left, piece, right)
}

/// `Tree::new` in a node that is already allocated, whose content it replaces.
pub fn hang(mut node: Box<Tree>, left: Link, piece: Piece, right: Link) -> Box<Tree>
    requires balanced { DifferByAtMost 1 (depth_of left) (depth_of right) }
    requires some { 0 < piece.len }
    requires fits { total (sequence left) + (piece.len + total (sequence right)) < 2 ^ 64 }
    ensures { result.value ≡ fork left piece right }
{
    *node = Tree::new(left, piece, right);
    node
}

/// The last piece of a tree, if it has one. Allocates nothing.
#[cycle(ending)]
pub fn last(tree: &Link) -> Option<Piece>
    ensures { result ≡ last_of (sequence tree.now) }
{
    match tree {
        None => None,
        Some(tree) => last_in(&**tree),
    }
}

/// `last` of a tree with a piece.
#[cycle(ending)]
#[tactic(auto, using(crate::proofs::pieces_lemmas::Ends::last_of_append))]
fn last_in(tree: &Tree) -> Option<Piece>
    ensures { result ≡ last_of tree.now.pieces }
{
    last(&tree.right).or(Some(tree.piece))
}

/// Lengthens the last piece by `by` bytes. Allocates nothing.
#[tactic(auto, using(crate::proofs::pieces_lemmas::Cuts::total_append, crate::proofs::pieces_lemmas::Ends::longer_here, crate::proofs::pieces_lemmas::Ends::longer_later, crate::proofs::pieces_lemmas::Ends::total_longer, crate::proofs::pieces_lemmas::Ends::length_longer))]
pub fn lengthen(tree: &mut Tree, by: usize)
    requires { total tree.old.pieces + by < 2 ^ 64 }
    ensures longer { tree.new.pieces ≡ longer tree.old.pieces by }
    ensures depth { tree.new.depth ≡ tree.old.depth }
    ensures some { 0 < length tree.old.pieces }
{
    tree.len += by;
    match &mut tree.right {
        None => tree.piece.len += by,
        Some(right) => lengthen(&mut **right, by),
    }
}

/// The piece with the byte at an offset, and the offset of that byte in the piece; none at or past the
/// end. Allocates nothing.
#[cycle(finding)]
pub fn holding(tree: &Link, at: usize) -> Option<(Piece, usize)>
    ensures { result ≡ holding (sequence tree.now) at }
{
    match tree {
        None => None,
        Some(tree) => holding_in(&**tree, at),
    }
}

/// `holding` of a tree with a piece.
#[cycle(finding)]
#[tactic(auto, using(crate::proofs::pieces_lemmas::Cuts::holding_first, crate::proofs::pieces_lemmas::Cuts::holding_past))]
fn holding_in(tree: &Tree, at: usize) -> Option<(Piece, usize)>
    ensures { result ≡ holding tree.now.pieces at }
{
    let left = len(&tree.left);
    if at < left {
        return holding(&tree.left, at);
    }
    let past = at - left;
    if past < tree.piece.len {
        return Some((tree.piece, past));
    }
    holding(&tree.right, past - tree.piece.len)
}

/// Whether the text of a tree, whose pieces lie in these two buffers, has these bytes at an offset. Visits each of its pieces
/// once, and searches for none. Allocates nothing.
#[cycle(comparing)]
pub fn has(tree: &Link, opened: &[u8], added: &[u8], at: usize, bytes: &[u8]) -> bool
    requires within { AreWithin (buffers opened.now added.now) (sequence tree.now) }
    ensures { IsTrue result → take (length bytes.now) (drop at (bytes_of (buffers opened.now added.now) (sequence tree.now))) ≡ bytes.now }
{
    if bytes.is_empty() {
        return true;
    }
    match tree {
        None => false,
        Some(tree) => has_in(&**tree, opened, added, at, bytes),
    }
}

/// `has` of a tree with a piece.
#[cycle(comparing)]
fn has_in(tree: &Tree, opened: &[u8], added: &[u8], at: usize, bytes: &[u8]) -> bool
    requires within { AreWithin (buffers opened.now added.now) tree.now.pieces }
    ensures { IsTrue result → take (length bytes.now) (drop at (bytes_of (buffers opened.now added.now) tree.now.pieces)) ≡ bytes.now }
{
    let before = len(&tree.left);
    if before <= at && tree.piece.len <= at - before {
        return has(
            &tree.right,
            opened,
            added,
            at - before - tree.piece.len,
            bytes,
        );
    }
    let on_left = bytes.len().min(before.saturating_sub(at));
    let skipped = at.saturating_sub(before);
    let rest = &bytes[on_left..];
    let own = rest.len().min(tree.piece.len - skipped);
    if !has(&tree.left, opened, added, at, &bytes[..on_left]) {
        return false;
    }
    if !piece_has(opened, added, tree.piece, skipped, &rest[..own]) {
        return false;
    }
    has(&tree.right, opened, added, 0, &rest[own..])
}
