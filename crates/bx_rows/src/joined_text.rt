//! Texts in the forms of their letters, so that letters at odd levels are shown joined.
ghost use Rattle.std.specs.Prelude.{◌≡◌, ◌∷◌, ◌++◌, [], ℕ, IfOk, IsUtf8, List, MatchOption, None, OnOk, chars, drop, encode_utf8, false, length, map, slice_index_or, string_bytes, take};
ghost use Rattle.std.specs.Prelude.{encode_utf8_all};
ghost use Rattle.std.specs.Cow.{cow_str_bytes};
ghost use Rattle.std.specs.Str.{IsCharBoundary};
ghost use Rattle.bx_rows.specs.joining.JoinedText.{joined_image};
ghost use Rattle.bx_rows.specs.joining.Joining.{body_forms, text_forms};
ghost use Rattle.bx_rows.specs.joining.Places.{StandsAt};
ghost use Rattle.bx_rows.specs.PlainRows.{char_forms, joined_glyph, leveled_glyphs, mirrored_glyphs};
ghost use Rattle.bx_rows.specs.RowPicture.{joined_image_within, mirror_image_within, mirrored_chars};
ghost use Rattle.bx_rows.specs.RowStarts.{StartsRow};
ghost use Rattle.bx_rows.specs.Shown.{glyph_of};
ghost use Rattle.bx_ucd.specs.declared.joining.Form.{Form};

use crate::cells::face;
use crate::drawn::Drawn;
use crate::glyphs::is_own;
use crate::joining::{TextAt, joined_image, shown_form};
use crate::lines::Lines;
use crate::mirrors::fixed_text;
use crate::start_search::RowStart;
use bx_common::first_char;
use bx_ucd::{BidiData, Form};
use std::alloc::{AllocError, Global};
use std::borrow::CowStr;

/// A text in the forms of its letters; None if that is not shown as itself in `columns` columns. `shown`: the text mirrored, or
/// itself; `at`: where the text stands in its body.
pub(crate) fn joined<D: BidiData>(
    alloc: Global,
    text: &str,
    shown: &str,
    at: TextAt<'_, '_>,
    columns: u16,
    lines: &Lines<'_, '_, D>,
) -> Result<Option<String>, AllocError>
    requires stands { StandsAt at.body.text.now text.now at.offset at.number }
    requires mirrored { chars shown.now ≡ mirrored_chars (D.data lines.now.tables.now) lines.now.w columns (chars text.now) }
    ensures { IfOk result (λ o. MatchOption o
        (joined_image_within (D.data lines.now.tables.now) lines.now.w columns
        (text_forms (D.data lines.now.tables.now) at.entry.body.text.now at.entry.body.each.now at.entry.number text.now)
        text.now ≡ mirror_image_within (D.data lines.now.tables.now) lines.now.w columns text.now)
        (λ t. string_bytes t ≡ joined_image_within (D.data lines.now.tables.now) lines.now.w columns
        (text_forms (D.data lines.now.tables.now) at.entry.body.text.now at.entry.body.each.now at.entry.number text.now) text.now)) }
{
    let other = joined_image(alloc, text, shown, at, lines.tables)?;
    let found = face(other.as_str(), lines.tables, lines.w);
    if !is_own(found, columns) {
        return Ok(None);
    }
    Ok(Some(other))
}

/// Shows the glyph of a letter at an odd level in the letter's form, if that is shown as itself in one column. `at`: where the
/// letter stands in its body.
fn join_at<D: BidiData>(
    drawn: &mut Drawn<'_>,
    alloc: Global,
    lines: &Lines<'_, '_, D>,
    letter: char,
    level: u8,
    at: TextAt<'_, '_>,
) -> Result<(), AllocError>
    requires boundary { IsCharBoundary at.body.text.now at.offset }
    requires number { at.number ≡ length (chars (take at.offset at.body.text.now)) }
    ensures { OnOk result (glyph_of drawn.new ≡ joined_glyph (D.data lines.now.tables.now) lines.now.w (glyph_of drawn.old) (
      level,
      (letter, slice_index_or (body_forms (D.data lines.now.tables.now) at.entry.body.text.now at.entry.body.each.now) at.entry.number Form.Isolated),
    )) }
{
    if level % 2 == 0 {
        return Ok(());
    }
    let Some(shown) = shown_form(letter, at, lines.tables) else {
        return Ok(());
    };
    if let Some(text) = fixed_text(shown, lines.tables, lines.w) {
        drawn.text = CowStr::Borrowed(text);
        return Ok(());
    }
    let mut other = String::new(alloc);
    other.push(shown)?;
    if is_own(face(other.as_str(), lines.tables, lines.w), 1) {
        drawn.text = CowStr::Owned(other);
    }
    Ok(())
}

/// Shows the glyphs at odd levels, each of a single letter of the row that starts at `start`, in their forms.
pub(crate) fn join_odd<D: BidiData>(
    glyphs: &mut [Drawn<'_>],
    alloc: Global,
    levels: &[u8],
    start: RowStart,
    lines: &Lines<'_, '_, D>,
) -> Result<(), AllocError>
    requires count { length glyphs.old ≡ length levels.now }
    requires start { StartsRow lines.now.body.now start }
    ensures count { length glyphs.new ≡ length glyphs.old }
    ensures joined { (cs rest : List ℕ) → drop start.offset lines.now.body.now ≡ encode_utf8_all cs ++ rest
        → length cs ≡ length levels.now → map glyph_of glyphs.old ≡ mirrored_glyphs (D.data lines.now.tables.now) lines.now.w cs levels.now
        → OnOk result (map glyph_of glyphs.new ≡ leveled_glyphs (D.data lines.now.tables.now) lines.now.w cs levels.now
        (char_forms (D.data lines.now.tables.now) lines.now.body.now lines.now.levels.now.each.items start.chars cs)) }
{
    let first = lines.place(start);
    let mut rest = &lines.body[start.offset..];
    let mut offset = start.offset;
    let mut number = start.chars;
    for i in 0..glyphs.len() {
        let Some((letter, behind)) = first_char(rest) else {
            return Ok(());
        };
        let at = TextAt {
            body: first.body,
            offset,
            number,
        };
        join_at(&mut glyphs[i], alloc, lines, letter, levels[i], at)?;
        rest = behind;
        offset += letter.len_utf8();
        number += 1;
    }
    Ok(())
}
