//! Where a query stands in a text.

use crate::lent::Lent;
use bx_common::Base;
use bx_document::{Document, DocumentError};
use bx_find::{Query, Reading};
use bx_rows::char_count;
use bx_ucd::Tables;
use player_lines::{WordFault, add_blank, add_number, bytes_of, count_of, field};
use std::alloc::Global;

/// Parses a text from its bytes.
fn text_of(alloc: Global, field: &str) -> Result<String, WordFault> {
    match String::from_utf8(bytes_of(alloc, field)?) {
        Ok(text) => Ok(text),
        Err(_) => Err(WordFault::Bad("UTF-8 is wanted")),
    }
}

/// Why a line is refused whose text makes no document.
fn fault_of(error: DocumentError) -> WordFault {
    match error {
        DocumentError::TooLong => WordFault::Bad("a shorter text is wanted"),
        DocumentError::OutOfMemory => WordFault::OutOfMemory,
    }
}

/// What a word of a `find` line finds from an offset; None for nothing.
fn found(
    document: &mut Document<Lent<'_, Tables>>,
    reading: Reading,
    query: &Query,
    word: &str,
    x: usize,
) -> Result<Option<usize>, WordFault> {
    let from = document.place_from(if word == "first" { 0 } else { x })?;
    match word {
        "next" => Ok(document.first_from(reading, query, from)),
        "last" => Ok(document.last_before(reading, query, from)),
        "first" => match document.first_from(reading, query, from) {
            Some(at) if at < x => Ok(Some(at)),
            _ => Ok(None),
        },
        "final" => match document.last_before(reading, query, usize::MAX) {
            Some(at) if at >= x => Ok(Some(at)),
            _ => Ok(None),
        },
        "end" => match document.first_from(reading, query, from) {
            Some(start) => Ok(Some(document.match_end(reading, query, start))),
            None => Ok(None),
        },
        _ => Err(WordFault::Bad("next, last, first, final or end is wanted")),
    }
}

/// Appends, for each of the words, the offset at which the query is found, or `-`. The words are separated by blanks.
fn add_found(
    line: &mut String,
    document: &mut Document<Lent<'_, Tables>>,
    reading: Reading,
    sought: &str,
    words: &str,
    x: usize,
) -> Result<(), WordFault> {
    // the most characters of a query
    if char_count(sought) > 64 {
        return Err(WordFault::Bad("the query is too long"));
    }
    let Some(query) = document.query(reading, sought) else {
        line.push_str("no letters")?;
        return Ok(());
    };
    for word in words.split(' ') {
        add_blank(line)?;
        match found(document, reading, &query, word, x)? {
            Some(offset) => add_number(line, offset)?,
            None => {
                line.push('-')?;
            }
        }
    }
    Ok(())
}

/// Parses the reading of a query.
fn reading_of(field: &str) -> Result<Reading, WordFault> {
    match field {
        "close" => Ok(Reading::Close),
        "wide" => Ok(Reading::Wide),
        _ => Err(WordFault::Bad("close or wide is wanted")),
    }
}

/// Appends what a query finds in a text. It holds the document, so that `find_line` drops few values: a function proves the drop of
/// all that it holds on each way out.
fn add_found_in(
    line: &mut String,
    alloc: Global,
    tables: &Tables,
    text: String,
    fields: &[&str],
    sought: &str,
) -> Result<(), WordFault> {
    let reading = reading_of(field(fields, 0)?)?;
    let x = count_of(field(fields, 3)?)?;
    let words = field(fields, 4)?;
    // the number of columns does not affect what is found
    let mut document = Document::open(alloc, text, Lent { tables }, 80, Base::Auto).map_err(
        fault_of,
    )?;
    add_found(line, &mut document, reading, sought, words, x)
}

/// Answers a `find` line.
pub fn find_line(alloc: Global, tables: &Tables, fields: &[&str]) -> Result<String, WordFault> {
    let text = text_of(alloc, field(fields, 1)?)?;
    let sought = text_of(alloc, field(fields, 2)?)?;
    let mut line = String::new(alloc);
    add_found_in(&mut line, alloc, tables, text, fields, sought.as_str())?;
    Ok(line)
}
