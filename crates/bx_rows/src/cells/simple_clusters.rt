//! One cluster of simple characters.
ghost use Rattle.std.specs.Prelude.{◌≡◌, IfSome};
ghost use Rattle.std.specs.Str.{IsCharBoundary};
ghost use Rattle.bx_rows.specs.cells.SimpleAt.{IsSimpleAt};

use crate::cells::simple::{Simple, simple_kind};
use bx_common::first_char;

/// A cluster of simple characters: its first character and columns, whether combining marks follow, and the byte offset in the
/// body where the cluster ends.
#[derive(Clone, Copy)]
pub struct SimpleCluster {
    pub first: char,
    pub columns: u8,
    pub is_marked: bool,
    pub stop: usize,
}

/// The cluster that begins at byte offset `at`, if it is simple. `None` leaves it to the rules on breaks.
#[inline(always)]
pub fn simple_cluster(body: &str, at: usize) -> Option<SimpleCluster>
    requires { IsCharBoundary body.now at }
    ensures { IfSome result (λ s. IsSimpleAt body.now at s) }
{
    let (first, behind) = first_char(&body[at..])?;
    let Simple::Begins(columns) = simple_kind(first) else {
        return None;
    };
    let mut is_marked = false;
    let mut rest = behind;
    while let Some((c, behind)) = first_char(rest) {
        match simple_kind(c) {
            Simple::Begins(_) => {
                return Some(SimpleCluster {
                    first,
                    columns,
                    is_marked,
                    stop: body.len() - rest.len(),
                });
            }
            Simple::Extends => is_marked = true,
            Simple::Other => return None,
        }
        rest = behind;
    }
    Some(SimpleCluster {
        first,
        columns,
        is_marked,
        stop: body.len(),
    })
}
