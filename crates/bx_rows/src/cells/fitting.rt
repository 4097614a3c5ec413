//! Quick tests of whether a text fits in a row, character by character.
ghost use Rattle.std.specs.Prelude.{◌≡◌, ◌≤◌, ◌+◌, ◌<◌, ◌⊎◌, true, chars, sum_by, IfSome};
ghost use Rattle.bx_common.specs.Characters.{are_ascii_printable};
ghost use Rattle.std.specs.List.{list_all};
ghost use Rattle.bx_rows.specs.cells.Simple.{begins, is_simple, simple_columns, is_simple_text};

use crate::cells::simple::{Simple, is_common, simple_kind};
use bx_common::is_ascii_printable;

/// The columns left after a character, of `left` columns in a row of `w`. `None` if the character does not fit, is not
/// simple, or is a combining mark while `left` is still `w`, that is, before any other character.
#[inline]
#[tactic(auto, using(crate::proofs::cells_lemmas::RangeFacts::of_common))]
fn left_after(left: u16, w: u16, c: char) -> Option<u16>
    ensures simple { IfSome result (λ rest. is_simple c ≡ true) }
    ensures columns { IfSome result (λ rest. simple_columns c + rest ≡ left) }
    ensures starts { IfSome result (λ rest. (begins c ≡ true) ⊎ (left < w)) }
{
    // Most characters are common and take one column. None above U+3000, the ideographic space, is common, so the first test
    // spares wide text the second.
    if c <= '\u{3000}' && is_common(c) {
        return left.checked_sub(1);
    }
    match simple_kind(c) {
        Simple::Begins(columns) => left.checked_sub(u16::from(columns)),
        Simple::Extends => { if left < w { Some(left) } else { None } }
        Simple::Other => None,
    }
}

/// Whether a text is simple and takes at most `w` columns, if that is quick to tell; else false.
pub fn is_simple_within(body: &str, w: u16) -> bool
    ensures { result ≡ true → (is_simple_text (chars body.now) ≡ true) × (sum_by simple_columns (chars body.now) ≤ w) }
{
    let mut left = w;
    for c in body.chars() {
        match left_after(left, w, c) {
            Some(rest) => left = rest,
            None => return false,
        }
    }
    true
}

/// Whether all bytes are printable ASCII. Unlike the loop of `bx_common::are_ascii_printable`, this one does not stop at the first
/// other byte, so that the compiler tests several bytes at once.
#[inline(always)]
#[tactic(auto, using(std::proofs::lemmas::List::Folds::list_all_more))]
pub(crate) fn are_ascii_printable(bytes: &[u8]) -> bool
    ensures { result ≡ are_ascii_printable bytes.now }
{
    let mut is_so = true;
    for byte in bytes {
        is_so &= is_ascii_printable(*byte);
    }
    is_so
}

/// Whether a text is printable ASCII.
pub fn is_printable(body: &str) -> bool
    ensures { result ≡ are_ascii_printable body.now }
{
    are_ascii_printable(body.as_bytes())
}
