//! Reads the lines of UnicodeData.txt, the file of characters, from which only the forms of letters are taken.

ghost use Rattle.std.specs.Prelude.{◌≡◌, ◌≢◌, length, slice_index_or, MatchOption, [], ◌∷◌};
ghost use Rattle.std.specs.List.{slice_split};
ghost use Rattle.bx_ucd.specs.Lines.{fields};
ghost use Rattle.bx_ucd.specs.CharactersFile.{character_entry, character_line, form_tagged, semicolon_parts};

use crate::codes::character_of;
use crate::error::Cause;
use crate::file::Entry;
use crate::joining::Form;
use crate::lines::{before_comment, is_all_blank, trimmed};
use crate::parts::{separators, skip_parts, split_once};
use crate::words::two_words;
use bx_common::is_control;

/// A line of the file that gives a form: the letter, the form, and the character that is this form of the letter.
#[derive(Clone, Copy)]
pub struct FormEntry {
    pub letter: char,
    pub form: Form,
    pub shown: char,
}

/// The form that the tag of a decomposition names, if it names one.
fn form_tagged(tag: &[u8]) -> Option<Form>
    ensures { result ≡ form_tagged tag.now }
{
    if tag == b"<isolated>".as_slice() {
        Some(Form::Isolated)
    } else if tag == b"<initial>".as_slice() {
        Some(Form::Initial)
    } else if tag == b"<medial>".as_slice() {
        Some(Form::Medial)
    } else if tag == b"<final>".as_slice() {
        Some(Form::Final)
    } else {
        None
    }
}

/// The first and the sixth of fifteen fields, with their blanks: the code and the decomposition (UAX #44). Four fields are between
/// the two, and nine after the sixth, with eight separators; `None` for another number of fields.
fn first_and_sixth(text: &[u8]) -> Option<(&[u8], &[u8])>
    ensures { MatchOption result (length (semicolon_parts text.now) ≢ 15) (λ p. (length (semicolon_parts text.now) ≡ 15)
        × (slice_index_or (semicolon_parts text.now) 0 [] ≡ p.0.now) × (slice_index_or (semicolon_parts text.now) 5 [] ≡ p.1.now)) }
{
    let (first, rest) = split_once(text, b';')?;
    let (sixth, rest) = split_once(skip_parts(rest, b';', 4)?, b';')?;
    if separators(rest, b';') != 8 {
        return None;
    }
    Some((first, sixth))
}

/// Reads the form in the sixth of fifteen fields, if there is one.
fn character_entry(text: &[u8]) -> Result<Option<FormEntry>, Cause>
    ensures { result ≡ character_entry (fields text.now) }
{
    let Some((character, decomposition)) = first_and_sixth(text) else {
        return Err(Cause::BadLine);
    };
    let Some((tag, letter)) = two_words(trimmed(decomposition)) else {
        return Ok(None);
    };
    let Some(form) = form_tagged(tag) else {
        return Ok(None);
    };
    let shown = character_of(trimmed(character))?;
    let letter = character_of(letter)?;
    if is_control(shown) || is_control(letter) {
        return Err(Cause::ControlInMirror);
    }
    Ok(Some(FormEntry {
        letter,
        form,
        shown,
    }))
}

impl Entry for FormEntry {
    ghost line_of = { character_line };

    fn read(line: &[u8]) -> Result<Option<FormEntry>, Cause> {
        let text = before_comment(line);
        if is_all_blank(text) {
            return Ok(None);
        }
        character_entry(text)
    }
}
