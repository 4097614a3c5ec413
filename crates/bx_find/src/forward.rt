//! Reading a text from piece to piece up to the first match.
ghost use Rattle.std.specs.Prelude.{◌≡◌, ℕ, ◌+◌, ◌<◌, ◌^◌, ◌++◌, ◌∷◌, List, Some, length, chars, encode_utf8, slice_get, MatchOption};
ghost use Rattle.bx_find.specs.Prefix.{Placed, placed_first, matches_after, to_come};

use crate::prefix::{begins_nothing, read_letter};
use crate::query::Query;
use crate::ring::Ring;
use crate::sought::Sought;
use bx_common::first_char;
use bx_ucd::BidiData;

/// Reads the letters of a character at an offset, up to the first match.
fn first_of(query: &Query, prefix: &mut Ring, letters: &[char], at: usize) -> Option<usize>
    requires { length prefix.old < length query.now }
    ensures fewer { length prefix.new < length query.now }
    ensures found { (ps : List Placed) → MatchOption result
        (matches_after query.now prefix.old (placed_first (Some at) letters.now ++ ps) ≡ matches_after query.now prefix.new ps)
        (λ o. slice_get (matches_after query.now prefix.old (placed_first (Some at) letters.now ++ ps)) 0 ≡ Some o) }
{
    let mut place = Some(at);
    for letter in letters {
        if let Some(found) = read_letter(query, prefix, *letter, place) {
            return Some(found);
        }
        place = None;
    }
    None
}

/// Reads a character at an offset, up to the first match.
#[inline(always)]
fn first_at<D: BidiData>(
    sought: &Sought<'_, D>,
    prefix: &mut Ring,
    c: char,
    at: usize,
) -> Option<usize>
    requires { length prefix.old < length sought.now.query.now }
    ensures fewer { length prefix.new < length sought.now.query.now }
    ensures found { let come = to_come (D.data sought.now.tables.now) sought.now.reading sought.now.query.now in
        (cs : List ℕ) → MatchOption result
        (come prefix.old at (c ∷ cs) ≡ come prefix.new (at + length (encode_utf8 c)) cs)
        (λ o. slice_get (come prefix.old at (c ∷ cs)) 0 ≡ Some o) }
{
    // Most characters begin no match; their class need not be looked up.
    if begins_nothing(sought, prefix, c) {
        return None;
    }
    let letters = sought.letters_of(c);
    first_of(sought.query, prefix, &letters, at)
}

/// Reads a piece that begins at the offset `start`, up to the first match.
pub fn first_in<D: BidiData>(
    sought: &Sought<'_, D>,
    prefix: &mut Ring,
    piece: &str,
    start: usize,
) -> Option<usize>
    requires fewer { length prefix.old < length sought.now.query.now }
    requires short { start + length piece.now < 2 ^ 64 }
    ensures fewer { length prefix.new < length sought.now.query.now }
    ensures found { let come = to_come (D.data sought.now.tables.now) sought.now.reading sought.now.query.now in
        (cs : List ℕ) → MatchOption result
        (come prefix.old start (chars piece.now ++ cs) ≡ come prefix.new (start + length piece.now) cs)
        (λ at. slice_get (come prefix.old start (chars piece.now ++ cs)) 0 ≡ Some at) }
{
    let mut at = start;
    let mut rest = piece;
    while let Some((c, behind)) = first_char(rest) {
        if let Some(found) = first_at(sought, prefix, c, at) {
            return Some(found);
        }
        at += c.len_utf8();
        rest = behind;
    }
    None
}
