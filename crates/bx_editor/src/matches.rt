//! The next and previous match of a query, and the cursor's place there.
ghost use Rattle.std.specs.Prelude.{◌≡◌, ◌≤◌, ◌==◌, not, None, Some, IfOk, IsCharBoundary, IfSome, chars, length};
ghost use Rattle.bx_find.specs.Letters.{letters};
ghost use Rattle.bx_find.specs.Matches.{first_from, last_before};
ghost use Rattle.bx_view.specs.Places.{IsTextPlace};
ghost use Rattle.bx_document.specs.Document.{rows};
ghost use Rattle.bx_editor.specs.Search.{backward, forward, match_or, not_found, nothing_sought};

use crate::message::Message;
use bx_common::OutOfMemory;
use bx_document::Document;
use bx_find::{Query, Reading};
use bx_ucd::BidiData;

/// Where a search leads.
#[derive(Clone, Copy)]
pub struct Landing {
    /// The cursor's new place; none if it stays.
    pub place: Option<usize>,
    pub message: Option<Message>,
}

/// Where a query without letters leads: nowhere. That it has none is told, unless it is empty.
pub(crate) fn nothing_sought(query: &str) -> Landing
    ensures { result ≡ nothing_sought query.now }
{
    Landing {
        place: None,
        message: if query.is_empty() {
            None
        } else {
            Some(Message::NoLetter)
        },
    }
}

/// The query is nowhere in the text.
const NOT_FOUND: Landing = Landing {
    place: None,
    message: Some(Message::NotFound),
};

/// Whether a query of at most 64 characters has letters to be sought. Allocates nothing.
pub(crate) fn has_letters<D: BidiData + Drop>(
    document: &Document<D>,
    reading: Reading,
    query: &str,
) -> bool
    requires few { length (chars query.now) ≤ 64 }
    ensures { result ≡ not (length (letters (D.data document.now.tables) reading (chars query.now)) == 0) }
{
    document.query(reading, query).is_some()
}

/// Leads to the place of the match at `offset`, with this message.
fn at_match<D: BidiData + Drop>(
    document: &mut Document<D>,
    offset: usize,
    message: Option<Message>,
) -> Result<Landing, OutOfMemory>
    ensures same { document.new ≡ document.old }
    ensures landing { IfOk result (λ l. l ≡ match_or (rows (D.data document.old.tables) document.old.document) message not_found (Some offset)) }
    ensures text_place { IfOk result (λ l. IfSome l.place (IsTextPlace (D.data document.old.tables) document.old.document.content.text)) }
{
    let place = document.place_at(offset)?;
    Ok(Landing {
        place: Some(place),
        message,
    })
}

/// Leads to the first match of the text, if there is one; none is at or after `place`.
fn from_start<D: BidiData + Drop>(
    document: &mut Document<D>,
    reading: Reading,
    sought: &Query,
    place: usize,
) -> Result<Landing, OutOfMemory>
    requires bounds { IsCharBoundary document.old.document.content.text place }
    requires none_from { first_from (D.data document.old.tables) reading sought.now document.old.document.content.text place ≡ None }
    ensures same { document.new ≡ document.old }
    ensures landing { IfOk result (λ l. l ≡ match_or (rows (D.data document.old.tables) document.old.document) (Some Message.FromStart) not_found
        (first_from (D.data document.old.tables) reading sought.now document.old.document.content.text 0)) }
    ensures text_place { IfOk result (λ l. IfSome l.place (IsTextPlace (D.data document.old.tables) document.old.document.content.text)) }
{
    match document.first_before(reading, sought, place) {
        Some(offset) => at_match(document, offset, Some(Message::FromStart)),
        None => Ok(NOT_FOUND),
    }
}

/// Leads to the last match of the text, if there is one; none is before `place`.
fn from_end<D: BidiData + Drop>(
    document: &mut Document<D>,
    reading: Reading,
    sought: &Query,
    place: usize,
) -> Result<Landing, OutOfMemory>
    requires bounds { IsCharBoundary document.old.document.content.text place }
    requires none_before { last_before (D.data document.old.tables) reading sought.now document.old.document.content.text place ≡ None }
    ensures same { document.new ≡ document.old }
    ensures landing { IfOk result (λ l. l ≡ match_or (rows (D.data document.old.tables) document.old.document) (Some Message.FromEnd) not_found
        (last_before (D.data document.old.tables) reading sought.now document.old.document.content.text (length document.old.document.content.text))) }
    ensures text_place { IfOk result (λ l. IfSome l.place (IsTextPlace (D.data document.old.tables) document.old.document.content.text)) }
{
    match document.last_from(reading, sought, place) {
        Some(offset) => at_match(document, offset, Some(Message::FromEnd)),
        None => Ok(NOT_FOUND),
    }
}

/// Seeks a query of at most 64 characters from a place on, and then from the text's start. A query without letters leads
/// nowhere.
pub(crate) fn forward<D: BidiData + Drop>(
    document: &mut Document<D>,
    reading: Reading,
    query: &str,
    place: usize,
) -> Result<Landing, OutOfMemory>
    requires few { length (chars query.now) ≤ 64 }
    requires text_place { IsTextPlace (D.data document.old.tables) document.old.document.content.text place }
    ensures same { document.new ≡ document.old }
    ensures landing { IfOk result (λ l. l ≡ forward (D.data document.old.tables) reading (rows (D.data document.old.tables) document.old.document)
        document.old.document.content.text place query.now (letters (D.data document.old.tables) reading (chars query.now))) }
    ensures text_place { IfOk result (λ l. IfSome l.place (IsTextPlace (D.data document.old.tables) document.old.document.content.text)) }
{
    let Some(sought) = document.query(reading, query) else {
        return Ok(nothing_sought(query));
    };
    match document.first_from(reading, &sought, place) {
        Some(offset) => at_match(document, offset, None),
        None => from_start(document, reading, &sought, place),
    }
}

/// Seeks a query of at most 64 characters before a place, and then before the text's end. A query without letters leads
/// nowhere.
pub(crate) fn backward<D: BidiData + Drop>(
    document: &mut Document<D>,
    reading: Reading,
    query: &str,
    place: usize,
) -> Result<Landing, OutOfMemory>
    requires few { length (chars query.now) ≤ 64 }
    requires text_place { IsTextPlace (D.data document.old.tables) document.old.document.content.text place }
    ensures same { document.new ≡ document.old }
    ensures landing { IfOk result (λ l. l ≡ backward (D.data document.old.tables) reading (rows (D.data document.old.tables) document.old.document)
        document.old.document.content.text place query.now (letters (D.data document.old.tables) reading (chars query.now))) }
    ensures text_place { IfOk result (λ l. IfSome l.place (IsTextPlace (D.data document.old.tables) document.old.document.content.text)) }
{
    let Some(sought) = document.query(reading, query) else {
        return Ok(nothing_sought(query));
    };
    match document.last_before(reading, &sought, place) {
        Some(offset) => at_match(document, offset, None),
        None => from_end(document, reading, &sought, place),
    }
}
