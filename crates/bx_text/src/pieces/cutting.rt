//! Splits trees at an offset in bytes of the text.

ghost use Rattle.std.specs.Prelude.{◌≡◌, ◌∷◌, ◌++◌, ◌+◌, ◌<◌, ◌≤◌, ◌^◌};
ghost use Rattle.bx_text.specs.pieces.Pieces.{total, front, back, first_of, rest_of, IsAddressable};
ghost use Rattle.bx_text.specs.pieces.Tree.{sequence};

use crate::pieces::joining::join;
use crate::pieces::piece::Piece;
use crate::pieces::spares::Spares;
use crate::pieces::tree::{Link, Tree, len, take_apart};

/// Splits a piece after `count` bytes.
fn split_piece(piece: Piece, count: usize) -> (Piece, Piece)
    requires inside { count ≤ piece.len }
    requires fits { piece.start + piece.len < 2 ^ 64 }
    ensures { result ≡ (first_of piece count, rest_of piece count) }
{
    let first = Piece {
        len: count,
        ..piece
    };
    let rest = Piece {
        start: piece.start + count,
        len: piece.len - count,
        ..piece
    };
    (first, rest)
}

/// Splits a tree at an offset in bytes. Takes at most one spare node, where the offset is inside a piece. Allocates nothing.
#[cycle(cutting)]
pub fn cut(tree: Link, at: usize, spares: &mut Spares) -> (Link, Link)
    requires spare { 0 < spares.old }
    requires fits { total (sequence tree) < 2 ^ 64 }
    requires addressable { IsAddressable (sequence tree) }
    ensures front { sequence result.0 ≡ front (sequence tree) at }
    ensures back { sequence result.1 ≡ back (sequence tree) at }
    ensures spares { spares.old ≤ spares.new + 1 }
{
    match tree {
        None => (None, None),
        Some(mut tree) => {
            let (left, piece, right) = take_apart(&mut *tree);
            cut_fork(tree, left, piece, right, at, spares)
        }
    }
}

/// Splits the tree of a piece and its two sides at an offset in bytes. Reuses `node`, which held the piece.
#[cycle(cutting)]
fn cut_fork(
    node: Box<Tree>,
    left: Link,
    piece: Piece,
    right: Link,
    at: usize,
    spares: &mut Spares,
) -> (Link, Link)
    requires spare { 0 < spares.old }
    requires some { 0 < piece.len }
    requires fits { total (sequence left) + (piece.len + total (sequence right)) < 2 ^ 64 }
    requires addressable { IsAddressable (sequence left ++ piece ∷ sequence right) }
    ensures front { sequence result.0 ≡ front (sequence left ++ piece ∷ sequence right) at }
    ensures back { sequence result.1 ≡ back (sequence left ++ piece ∷ sequence right) at }
    ensures spares { spares.old ≤ spares.new + 1 }
{
    let first = len(&left);
    if at < first {
        let (before, after) = cut(left, at, spares);
        return (before, Some(join(node, after, piece, right)));
    }
    let past = at - first;
    if past >= piece.len {
        let (before, after) = cut(right, past - piece.len, spares);
        return (Some(join(node, left, piece, before)), after);
    }
    if past == 0 {
        return (left, Some(join(node, None, piece, right)));
    }
    let (head, tail) = split_piece(piece, past);
    let before = join(node, left, head, None);
    let after = join(spares.node(), None, tail, right);
    (Some(before), Some(after))
}
