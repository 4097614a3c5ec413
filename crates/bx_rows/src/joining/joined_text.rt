//! A text shown in the forms of its letters.
ghost use Rattle.std.specs.Prelude.{◌≡◌, IfOk, chars, length, string_bytes};
ghost use Rattle.bx_rows.specs.joining.JoinedText.{joined_image};
ghost use Rattle.bx_rows.specs.joining.Joining.{text_forms};
ghost use Rattle.bx_rows.specs.joining.Places.{StandsAt};

use crate::joining::forms::{LeveledBody, TextAt, shown_form};
use bx_common::first_char;
use bx_ucd::BidiData;
use std::alloc::{AllocError, Global};

/// The text `shown` with the forms of the letters of `text`, which is the part of the body at `at`. `shown` has one character for
/// each of `text` (its mirror, mostly itself), which stays where the letter has no such form.
pub fn joined_image<D: BidiData>(
    alloc: Global,
    text: &str,
    shown: &str,
    at: TextAt<'_, '_>,
    tables: &D,
) -> Result<String, AllocError>
    requires stands { StandsAt at.body.text.now text.now at.offset at.number }
    requires count { length (chars shown.now) ≡ length (chars text.now) }
    ensures { IfOk result (λ t. string_bytes t ≡ joined_image (D.data tables.now)
        (text_forms (D.data tables.now) at.entry.body.text.now at.entry.body.each.now at.entry.number text.now) text.now shown.now) }
{
    let body = LeveledBody {
        text: at.body.text(),
        each: at.body.each,
    };
    let mut other = String::new(alloc);
    let mut rest = text;
    let mut left = shown;
    let mut offset = at.offset;
    let mut number = at.number;
    while let Some((letter, after)) = first_char(rest) {
        let Some((c, behind)) = first_char(left) else {
            return Ok(other);
        };
        let place = TextAt {
            body,
            offset,
            number,
        };
        other.push(shown_form(letter, place, tables).unwrap_or(c))?;
        rest = after;
        left = behind;
        offset += letter.len_utf8();
        number += 1;
    }
    Ok(other)
}
