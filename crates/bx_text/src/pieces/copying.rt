//! Copies of a tree of pieces.

ghost use Rattle.std.specs.Prelude.{◌≡◌, IfOk};
ghost use Rattle.bx_text.specs.pieces.Tree.{depth_of, sequence};

use crate::pieces::tree::{Link, Tree};
use std::alloc::{AllocError, Global};

/// A copy of a tree. The recursion is as deep as the tree is high (`Pieces::depth`).
///
/// Errors: `AllocError`.
#[cycle(copying)]
pub fn copy(alloc: Global, tree: &Link) -> Result<Link, AllocError>
    ensures pieces { IfOk result (λ t. sequence t ≡ sequence tree.now) }
    ensures depth { IfOk result (λ t. depth_of t ≡ depth_of tree.now) }
{
    match tree {
        None => Ok(None),
        Some(tree) => {
            let copied = copy_of(alloc, &**tree)?;
            let node = Box::new(alloc, copied)?;
            Ok(Some(node))
        }
    }
}

/// `copy` of a tree with a piece.
#[cycle(copying)]
fn copy_of(alloc: Global, tree: &Tree) -> Result<Tree, AllocError>
    ensures { IfOk result (λ t. t ≡ tree.now) }
{
    let (left, piece, right) = tree.parts();
    let left = copy(alloc, left)?;
    let right = copy(alloc, right)?;
    let copied = Tree::new(left, piece, right);
    Ok(copied)
}
