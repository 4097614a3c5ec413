//! Joins trees: the shallower one goes into the deeper one, at a subtree of about its depth. `inner` is the side of the deeper tree
//! that faces the shallower one, `outer` its other side, and `up` the piece between them.

ghost use Rattle.std.specs.Prelude.{◌≡◌, [], ◌∷◌, ◌++◌, ◌+◌, ◌<◌, ◌≤◌, ◌^◌};
ghost use Rattle.bx_text.specs.pieces.Pieces.{total};
ghost use Rattle.bx_text.specs.pieces.Tree.{sequence, depth_of, DifferByAtMost, IsJoined};

use crate::pieces::piece::Piece;
use crate::pieces::tree::{Link, Tree, hang, height, take_apart};

/// Builds a tree in `node` where the right side is deeper by two, and rotates it left: once, or twice if the inner side is the
/// deeper one.
#[tactic(auto, using(crate::proofs::pieces_lemmas::Cuts::total_append))]
fn lean_left(node: Box<Tree>, left: Link, piece: Piece, mut right: Box<Tree>) -> Box<Tree>
    requires some { 0 < piece.len }
    requires two_deeper { right.value.depth ≡ depth_of left + 2 }
    requires fits { total (sequence left) + (piece.len + total right.value.pieces) < 2 ^ 64 }
    ensures pieces { result.value.pieces ≡ sequence left ++ piece ∷ right.value.pieces }
    ensures not_less { right.value.depth ≤ result.value.depth }
    ensures one_more { result.value.depth ≤ right.value.depth + 1 }
{
    let (inner, up, outer) = take_apart(&mut *right);
    if height(&inner) <= height(&outer) {
        let first = hang(node, left, piece, inner);
        return hang(right, Some(first), up, outer);
    }
    let mut top = inner.unwrap();
    let (before, highest, after) = take_apart(&mut *top);
    let first = hang(node, left, piece, before);
    let rest = hang(right, after, up, outer);
    hang(top, Some(first), highest, Some(rest))
}

/// Builds a tree in `node` where the left side is deeper by two, and rotates it right: once, or twice if the inner side is the
/// deeper one.
#[tactic(auto, using(crate::proofs::pieces_lemmas::Cuts::total_append))]
fn lean_right(node: Box<Tree>, mut left: Box<Tree>, piece: Piece, right: Link) -> Box<Tree>
    requires some { 0 < piece.len }
    requires two_deeper { left.value.depth ≡ depth_of right + 2 }
    requires fits { total left.value.pieces + (piece.len + total (sequence right)) < 2 ^ 64 }
    ensures pieces { result.value.pieces ≡ left.value.pieces ++ piece ∷ sequence right }
    ensures not_less { left.value.depth ≤ result.value.depth }
    ensures one_more { result.value.depth ≤ left.value.depth + 1 }
{
    let (outer, up, inner) = take_apart(&mut *left);
    if height(&inner) <= height(&outer) {
        let rest = hang(node, inner, piece, right);
        return hang(left, outer, up, Some(rest));
    }
    let mut top = inner.unwrap();
    let (before, highest, after) = take_apart(&mut *top);
    let first = hang(left, outer, up, before);
    let rest = hang(node, after, piece, right);
    hang(top, Some(first), highest, Some(rest))
}

/// Builds a tree in `node` of a piece and two sides, one of which may be deeper by two.
fn balance(node: Box<Tree>, left: Link, piece: Piece, right: Link) -> Box<Tree>
    requires some { 0 < piece.len }
    requires differ { DifferByAtMost 2 (depth_of left) (depth_of right) }
    requires fits { total (sequence left) + (piece.len + total (sequence right)) < 2 ^ 64 }
    ensures pieces { result.value.pieces ≡ sequence left ++ piece ∷ sequence right }
    ensures depth { IsJoined (depth_of left) (depth_of right) result.value.depth }
{
    let (first, second) = (height(&left), height(&right));
    if second > first + 1 {
        return lean_left(node, left, piece, right.unwrap());
    }
    if first > second + 1 {
        return lean_right(node, left.unwrap(), piece, right);
    }
    hang(node, left, piece, right)
}

/// Builds a tree of a piece and any two sides in `node`. Goes down the deeper side while that is deeper by
/// more than one. Allocates nothing.
#[cycle(joining)]
pub fn join(node: Box<Tree>, left: Link, piece: Piece, right: Link) -> Box<Tree>
    requires some { 0 < piece.len }
    requires fits { total (sequence left) + (piece.len + total (sequence right)) < 2 ^ 64 }
    ensures pieces { result.value.pieces ≡ sequence left ++ piece ∷ sequence right }
    ensures depth { IsJoined (depth_of left) (depth_of right) result.value.depth }
{
    let (first, second) = (height(&left), height(&right));
    if second > first + 1 {
        return join_into_right(node, left, piece, right.unwrap());
    }
    if first > second + 1 {
        return join_into_left(node, left.unwrap(), piece, right);
    }
    hang(node, left, piece, right)
}

/// `join` where the right side is deeper: joins the left side to its inner side, then balances.
#[cycle(joining)]
#[tactic(auto, using(crate::proofs::pieces_lemmas::Cuts::total_append))]
fn join_into_right(node: Box<Tree>, left: Link, piece: Piece, mut right: Box<Tree>) -> Box<Tree>
    requires some { 0 < piece.len }
    requires deeper { depth_of left + 1 < right.value.depth }
    requires fits { total (sequence left) + (piece.len + total right.value.pieces) < 2 ^ 64 }
    ensures pieces { result.value.pieces ≡ sequence left ++ piece ∷ right.value.pieces }
    ensures not_less { right.value.depth ≤ result.value.depth }
    ensures one_more { result.value.depth ≤ right.value.depth + 1 }
{
    let (inner, up, outer) = take_apart(&mut *right);
    let inner = join(node, left, piece, inner);
    balance(right, Some(inner), up, outer)
}

/// `join` where the left side is deeper: joins the right side to its inner side, then balances.
#[cycle(joining)]
#[tactic(auto, using(crate::proofs::pieces_lemmas::Cuts::total_append))]
fn join_into_left(node: Box<Tree>, mut left: Box<Tree>, piece: Piece, right: Link) -> Box<Tree>
    requires some { 0 < piece.len }
    requires deeper { depth_of right + 1 < left.value.depth }
    requires fits { total left.value.pieces + (piece.len + total (sequence right)) < 2 ^ 64 }
    ensures pieces { result.value.pieces ≡ left.value.pieces ++ piece ∷ sequence right }
    ensures not_less { left.value.depth ≤ result.value.depth }
    ensures one_more { result.value.depth ≤ left.value.depth + 1 }
{
    let (outer, up, inner) = take_apart(&mut *left);
    let inner = join(node, inner, piece, right);
    balance(left, outer, up, Some(inner))
}

/// A sequence without its last piece, that piece, and the node that held it, for reuse.
struct Last {
    before: Link,
    piece: Piece,
    node: Box<Tree>,
}

/// Takes the last piece off a tree.
#[cycle(ending)]
#[tactic(auto, using(crate::proofs::pieces_lemmas::Cuts::total_append))]
fn split_last(mut tree: Box<Tree>) -> Last
    requires { total tree.value.pieces < 2 ^ 64 }
    ensures pieces { tree.value.pieces ≡ sequence result.before ++ result.piece ∷ [] }
    ensures some { 0 < result.piece.len }
{
    let (left, piece, right) = take_apart(&mut *tree);
    match right {
        None => Last {
            before: left,
            piece,
            node: tree,
        },
        Some(right) => {
            let Last {
                before,
                piece: last,
                node,
            } = split_last(right);
            Last {
                before: Some(join(tree, left, piece, before)),
                piece: last,
                node,
            }
        }
    }
}

/// Concatenates two sequences. Allocates nothing.
#[tactic(auto, using(crate::proofs::pieces_lemmas::Cuts::total_append))]
pub fn join_links(first: Link, second: Link) -> Link
    requires { total (sequence first) + total (sequence second) < 2 ^ 64 }
    ensures { sequence result ≡ sequence first ++ sequence second }
{
    match first {
        None => second,
        Some(first) => {
            let Last {
                before,
                piece,
                node,
            } = split_last(first);
            Some(join(node, before, piece, second))
        }
    }
}
