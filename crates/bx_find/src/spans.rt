//! Where a match ends, and the matches that follow one another with no part in common.
ghost use Rattle.std.specs.Prelude.{◌≡◌, ℕ, ◌+◌, ◌≤◌, ◌<◌, ◌^◌, ◌++◌, ◌∷◌, [], List, length, chars, IfSome, MatchOption, IsCharBoundary};
ghost use Rattle.bx_find.specs.Matches.{behind_letters, is_attached, match_end, spans_from};

use crate::haystack::Haystack;
use crate::letters::Reading;
use crate::query::Query;
use crate::search::first_match;
use crate::sought::Sought;
use bx_common::{Range, first_char};
use bx_ucd::BidiData;
use bx_ucd::class::Class;

/// Whether a character goes with the letter before it: a mark of class NSM, or the tatweel.
#[inline(always)]
fn is_attached<D: BidiData>(tables: &D, c: char) -> bool
    ensures { result ≡ is_attached (D.data tables.now) c }
{
    tables.class(c) == Class::NSM || c == '\u{640}'
}

/// Reads a piece that begins at the offset `start`, up to the end of a match of which `left` letters are still to come.
fn end_in<D: BidiData>(
    sought: &Sought<'_, D>,
    left: &mut usize,
    piece: &str,
    start: usize,
) -> Option<usize>
    requires { start + length piece.now < 2 ^ 64 }
    ensures { (cs : List ℕ) → MatchOption result
        (behind_letters (D.data sought.now.tables.now) sought.now.reading left.old start (chars piece.now ++ cs)
        ≡ behind_letters (D.data sought.now.tables.now) sought.now.reading left.new (start + length piece.now) cs)
        (λ end. behind_letters (D.data sought.now.tables.now) sought.now.reading left.old start (chars piece.now ++ cs) ≡ end) }
{
    let mut at = start;
    let mut rest = piece;
    while let Some((c, behind)) = first_char(rest) {
        if *left == 0 && !is_attached(sought.tables, c) {
            return Some(at);
        }
        *left = left.saturating_sub(sought.letters_of(c).len());
        at += c.len_utf8();
        rest = behind;
    }
    None
}

/// The offset behind a query's match at the offset `at`, and behind what is attached to its last letter.
pub fn match_end<H: Haystack, D: BidiData>(
    haystack: &H,
    tables: &D,
    reading: Reading,
    query: &Query,
    at: usize,
) -> usize
    requires { IsCharBoundary (H.text haystack.now) at }
    ensures value { result ≡ match_end (D.data tables.now) reading query.now (H.text haystack.now) at }
    ensures boundary { IsCharBoundary (H.text haystack.now) result }
    ensures order { at ≤ result }
{
    let len = haystack.len();
    let sought = Sought {
        query,
        tables,
        reading,
    };
    let mut left = query.len();
    let mut next = at;
    while next < len {
        let piece = haystack.piece_at(next);
        if let Some(end) = end_in(&sought, &mut left, piece, next) {
            return end;
        }
        next += piece.len();
    }
    next
}

/// The range of the first match at or after `x`. From its end on, the next call finds the next of the matches that follow one
/// another.
pub fn first_span<H: Haystack, D: BidiData>(
    haystack: &H,
    tables: &D,
    reading: Reading,
    query: &Query,
    x: usize,
) -> Option<Range>
    requires { IsCharBoundary (H.text haystack.now) x }
    ensures spans { MatchOption result
        (spans_from (D.data tables.now) reading query.now (H.text haystack.now) x ≡ [])
        (λ s. spans_from (D.data tables.now) reading query.now (H.text haystack.now) x
        ≡ (s.start, s.stop) ∷ spans_from (D.data tables.now) reading query.now (H.text haystack.now) s.stop) }
    ensures bounds { IfSome result (λ s. IsCharBoundary (H.text haystack.now) s.start × IsCharBoundary (H.text haystack.now) s.stop) }
    ensures onward { IfSome result (λ s. (x ≤ s.start) × (s.start < s.stop)) }
{
    let sought = Sought {
        query,
        tables,
        reading,
    };
    match first_match(haystack, &sought, x) {
        None => None,
        Some(at) => Some(Range {
            start: at,
            stop: match_end(haystack, tables, reading, query, at),
        }),
    }
}
