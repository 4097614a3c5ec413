//! Reading a text from piece to piece for the last match before an offset.
ghost use Rattle.std.specs.Prelude.{◌≡◌, ℕ, ◌+◌, ◌<◌, ◌^◌, ◌++◌, ◌∷◌, List, Some, length, chars, encode_utf8, option_to_list};
ghost use Rattle.bx_find.specs.Prefix.{Placed, placed_first, matches_after, to_come};
ghost use Rattle.bx_find.specs.Matches.{last_below};

use crate::prefix::{begins_nothing, read_letter};
use crate::query::Query;
use crate::ring::Ring;
use crate::sought::Sought;
use bx_common::first_char;
use bx_ucd::BidiData;

/// The last match before an offset, of those found so far.
#[derive(Drop)]
pub struct Latest {
    /// The offset: only matches that begin before it count.
    pub before: usize,
    /// The offset at which the match begins; None if none is found yet.
    pub found: Option<usize>,
}

impl Latest {
    /// Takes the next match, if there is one.
    #[inline(always)]
    fn take(&mut self, next: Option<usize>)
        ensures before { self.new.before ≡ self.old.before }
        ensures found { (ats : List ℕ) → last_below self.old.before self.old.found (option_to_list next ++ ats)
            ≡ last_below self.old.before self.new.found ats }
    {
        if let Some(at) = next {
            if at < self.before {
                self.found = next;
            }
        }
    }
}

/// Reads the letters of a character at an offset, and takes each match.
fn last_of(query: &Query, prefix: &mut Ring, latest: &mut Latest, letters: &[char], at: usize)
    requires { length prefix.old < length query.now }
    ensures fewer { length prefix.new < length query.now }
    ensures before { latest.new.before ≡ latest.old.before }
    ensures found { (ps : List Placed)
        → last_below latest.old.before latest.old.found
        (matches_after query.now prefix.old (placed_first (Some at) letters.now ++ ps))
        ≡ last_below latest.old.before latest.new.found (matches_after query.now prefix.new ps) }
{
    let mut place = Some(at);
    for letter in letters {
        latest.take(read_letter(query, prefix, *letter, place));
        place = None;
    }
}

/// Reads a character at an offset, and takes each match.
#[inline(always)]
fn last_at<D: BidiData>(
    sought: &Sought<'_, D>,
    prefix: &mut Ring,
    latest: &mut Latest,
    c: char,
    at: usize,
)
    requires { length prefix.old < length sought.now.query.now }
    ensures fewer { length prefix.new < length sought.now.query.now }
    ensures before { latest.new.before ≡ latest.old.before }
    ensures found { let come = to_come (D.data sought.now.tables.now) sought.now.reading sought.now.query.now in
        (cs : List ℕ) → last_below latest.old.before latest.old.found (come prefix.old at (c ∷ cs))
        ≡ last_below latest.old.before latest.new.found (come prefix.new (at + length (encode_utf8 c)) cs) }
{
    // Most characters begin no match; their class need not be looked up.
    if begins_nothing(sought, prefix, c) {
        return;
    }
    let letters = sought.letters_of(c);
    last_of(sought.query, prefix, latest, &letters, at);
}

/// Reads a piece that begins at the offset `start`, and takes each match. Stops once no later match begins before
/// `latest.before`.
pub fn last_in<D: BidiData>(
    sought: &Sought<'_, D>,
    prefix: &mut Ring,
    latest: &mut Latest,
    piece: &str,
    start: usize,
)
    requires fewer { length prefix.old < length sought.now.query.now }
    requires short { start + length piece.now < 2 ^ 64 }
    ensures fewer { length prefix.new < length sought.now.query.now }
    ensures before { latest.new.before ≡ latest.old.before }
    ensures found { let come = to_come (D.data sought.now.tables.now) sought.now.reading sought.now.query.now in
        (cs : List ℕ) → last_below latest.old.before latest.old.found (come prefix.old start (chars piece.now ++ cs))
        ≡ last_below latest.old.before latest.new.found (come prefix.new (start + length piece.now) cs) }
{
    let mut at = start;
    let mut rest = piece;
    while let Some((c, behind)) = first_char(rest) {
        if at >= latest.before && prefix.len() == 0 {
            return;
        }
        last_at(sought, prefix, latest, c, at);
        at += c.len_utf8();
        rest = behind;
    }
}
