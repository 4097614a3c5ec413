//! The prefix of a query that a search has read: the longest end of the letters read that begins the query, kept as a ring of
//! the places of its letters. The search reads each letter once (the algorithm of Knuth, Morris and Pratt).
ghost use Rattle.std.specs.Prelude.{◌≡◌, ◌≢◌, true, ℕ, ◌<◌, ◌++◌, List, ◌∷◌, Option, get_or, length, option_to_list};
ghost use Rattle.bx_find.specs.Prefix.{Placed, matches_after};
ghost use Rattle.bx_find.specs.Short.{is_simple, simple_letter};

use crate::letters::{is_simple, simple_letter};
use crate::query::Query;
use crate::ring::Ring;
use crate::sought::Sought;
use bx_ucd::BidiData;

/// Shortens the prefix, from its oldest letter on, until `letter`, the next, continues it, or it is empty.
fn fall_back(query: &Query, prefix: &mut Ring, letter: char)
    requires { length prefix.old < length query.now }
    ensures fewer { length prefix.new < length query.now }
    ensures fits { 0 < length prefix.new → get_or query.now (length prefix.new) 0 ≡ letter }
    ensures found { (place : Option ℕ) (ps : List Placed)
        → matches_after query.now prefix.old ((place, letter) ∷ ps) ≡ matches_after query.now prefix.new ((place, letter) ∷ ps) }
{
    while prefix.len() > 0 && query.letter(prefix.len()) != letter {
        prefix.keep_newest(query.border(prefix.len()));
    }
}

/// Lengthens the prefix by the query's next letter, which was read at `place`. Returns the match's offset if this letter is the
/// query's last and the match begins with a character's first letter.
fn lengthen(query: &Query, prefix: &mut Ring, place: Option<usize>) -> Option<usize>
    requires { length prefix.old < length query.now }
    ensures fewer { length prefix.new < length query.now }
    ensures found { (ps : List Placed) → matches_after query.now prefix.old ((place, get_or query.now (length prefix.old) 0) ∷ ps)
        ≡ option_to_list result ++ matches_after query.now prefix.new ps }
{
    let all = query.len();
    prefix.push(place);
    if prefix.len() < all {
        return None;
    }
    let found = prefix.oldest();
    prefix.keep_newest(query.border(all));
    found
}

/// Reads a letter with its place: the offset of its character, None if this is not the character's first letter. Returns the
/// match's offset if the letter ends a match that begins with a character's first letter.
#[inline(always)]
pub fn read_letter(
    query: &Query,
    prefix: &mut Ring,
    letter: char,
    place: Option<usize>,
) -> Option<usize>
    requires { length prefix.old < length query.now }
    ensures fewer { length prefix.new < length query.now }
    ensures found { (ps : List Placed) → matches_after query.now prefix.old ((place, letter) ∷ ps)
        ≡ option_to_list result ++ matches_after query.now prefix.new ps }
{
    if prefix.len() > 0 {
        fall_back(query, prefix, letter);
    }
    if query.letter(prefix.len()) != letter {
        return None;
    }
    lengthen(query, prefix, place)
}

/// Whether the prefix is empty, and the query does not begin with the letter of a character that has one at most.
#[inline(always)]
pub fn begins_nothing<D: BidiData>(sought: &Sought<'_, D>, prefix: &Ring, c: char) -> bool
    requires { length prefix.now < length sought.now.query.now }
    ensures none { result ≡ true → length prefix.now ≡ 0 }
    ensures simple { result ≡ true → is_simple sought.now.reading c ≡ true }
    ensures other { result ≡ true → get_or sought.now.query.now 0 0 ≢ simple_letter sought.now.reading c }
{
    let reading = sought.reading;
    prefix.len() == 0
        && is_simple(reading, c)
        && sought.query.letter(0) != simple_letter(reading, c)
}
