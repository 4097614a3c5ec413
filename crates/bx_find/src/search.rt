//! The search of a text for a query: the nearest matches of offsets.
ghost use Rattle.std.specs.Prelude.{◌≡◌, None, length, IfSome, IsCharBoundary, IsUtf8};
ghost use Rattle.bx_find.specs.Matches.{first_from, last_before};
ghost use Rattle.bx_find.specs.Parts.{first_between, last_from};

use crate::backward::{Latest, last_in};
use crate::forward::first_in;
use crate::haystack::{Haystack, upto};
use crate::letters::Reading;
use crate::query::Query;
use crate::sought::Sought;
use bx_ucd::BidiData;

/// The byte offset of the first match at or after `x`. Reads the text from `x` on.
pub fn first_from<H: Haystack, D: BidiData>(
    haystack: &H,
    tables: &D,
    reading: Reading,
    query: &Query,
    x: usize,
) -> Option<usize>
    requires { IsCharBoundary (H.text haystack.now) x }
    ensures found { result ≡ first_from (D.data tables.now) reading query.now (H.text haystack.now) x }
    ensures boundary { IfSome result (IsCharBoundary (H.text haystack.now)) }
{
    let sought = Sought {
        query,
        tables,
        reading,
    };
    first_match(haystack, &sought, x)
}

/// `first_from`, with the query, the tables and the reading in one value.
pub(crate) fn first_match<H: Haystack, D: BidiData>(
    haystack: &H,
    sought: &Sought<'_, D>,
    x: usize,
) -> Option<usize>
    requires { IsCharBoundary (H.text haystack.now) x }
    ensures found { result
        ≡ first_from (D.data sought.now.tables.now) sought.now.reading sought.now.query.now (H.text haystack.now) x }
    ensures utf8 { IsUtf8 (H.text haystack.now) }
{
    let len = haystack.len();
    let mut prefix = sought.query.empty_prefix();
    let mut at = x;
    while at < len {
        let piece = haystack.piece_at(at);
        if let Some(found) = first_in(sought, &mut prefix, piece, at) {
            return Some(found);
        }
        at += piece.len();
    }
    None
}

/// The byte offset of the first match at or after `start`, if it is before `stop`. Reads the text from `start` to `stop`, and beyond
/// while a match that begins before `stop` may go on.
pub fn first_between<H: Haystack, D: BidiData>(
    haystack: &H,
    tables: &D,
    reading: Reading,
    query: &Query,
    start: usize,
    stop: usize,
) -> Option<usize>
    requires start { IsCharBoundary (H.text haystack.now) start }
    requires stop { IsCharBoundary (H.text haystack.now) stop }
    ensures found { result ≡ first_between (D.data tables.now) reading query.now (H.text haystack.now) start stop }
    ensures boundary { IfSome result (IsCharBoundary (H.text haystack.now)) }
{
    let sought = Sought {
        query,
        tables,
        reading,
    };
    let len = haystack.len();
    let mut prefix = query.empty_prefix();
    let mut at = start;
    while at < len {
        if at >= stop && prefix.len() == 0 {
            return None;
        }
        let piece = upto(haystack.piece_at(at), at, stop);
        if let Some(found) = first_in(&sought, &mut prefix, piece, at) {
            return if found < stop { Some(found) } else { None };
        }
        at += piece.len();
    }
    None
}

/// The byte offset of the last match before `x`. Reads the text from its start to `x`, and on to the end of a match that
/// begins before `x`.
pub fn last_before<H: Haystack, D: BidiData>(
    haystack: &H,
    tables: &D,
    reading: Reading,
    query: &Query,
    x: usize,
) -> Option<usize>
    ensures found { result ≡ last_before (D.data tables.now) reading query.now (H.text haystack.now) x }
    ensures boundary { IfSome result (IsCharBoundary (H.text haystack.now)) }
{
    let sought = Sought {
        query,
        tables,
        reading,
    };
    let len = haystack.len();
    let mut prefix = query.empty_prefix();
    let mut latest = Latest {
        before: x,
        found: None,
    };
    let mut at = 0;
    while at < len {
        if at >= x && prefix.len() == 0 {
            return latest.found;
        }
        let piece = haystack.piece_at(at);
        last_in(&sought, &mut prefix, &mut latest, piece, at);
        at += piece.len();
    }
    latest.found
}

/// The byte offset of the last match at or after `x`. Reads the text from `x` on.
pub fn last_from<H: Haystack, D: BidiData>(
    haystack: &H,
    tables: &D,
    reading: Reading,
    query: &Query,
    x: usize,
) -> Option<usize>
    requires { IsCharBoundary (H.text haystack.now) x }
    ensures found { result ≡ last_from (D.data tables.now) reading query.now (H.text haystack.now) x }
    ensures boundary { IfSome result (IsCharBoundary (H.text haystack.now)) }
    ensures around { last_before (D.data tables.now) reading query.now (H.text haystack.now) x ≡ None
        → result ≡ last_before (D.data tables.now) reading query.now (H.text haystack.now) (length (H.text haystack.now)) }
{
    let sought = Sought {
        query,
        tables,
        reading,
    };
    let len = haystack.len();
    let mut prefix = query.empty_prefix();
    let mut latest = Latest {
        before: len,
        found: None,
    };
    let mut at = x;
    while at < len {
        let piece = haystack.piece_at(at);
        last_in(&sought, &mut prefix, &mut latest, piece, at);
        at += piece.len();
    }
    latest.found
}
