//! The glyphs of a unit by its face and level, and the blanks of a row.
ghost use Rattle.std.specs.Prelude.{◌≡◌, ◌<◌, ◌++◌, ◌∷◌, [], All, IfOk, OnOk, length, map, replicate, slice_index_or, false, true};
ghost use Rattle.std.specs.List.{range_with_len};
ghost use Rattle.std.specs.Cow.{cow_str_bytes};
ghost use Rattle.bx_common.specs.Characters.{are_ascii_printable, is_ascii_printable};
ghost use Rattle.bx_common.specs.Glyphs.{is_one_glyph, run_width};
ghost use Rattle.bx_rows.specs.declared.cells.unit.Unit.{Unit};
ghost use Rattle.bx_rows.specs.joining.Joining.{text_forms};
ghost use Rattle.bx_rows.specs.joining.Places.{StandsAt};
ghost use Rattle.bx_rows.specs.RowPicture.{blank, glyph, is_own, letter_glyphs, mirror_image_within, shown_text, text_glyphs, unit_glyphs, with_blanks};
ghost use Rattle.bx_rows.specs.UnitPlaces.{IsNear};
ghost use Rattle.bx_rows.specs.Shown.{glyph_of};

use crate::cells::Face;
use crate::drawn::{Drawn, RowPicture};
use crate::joined_text::joined;
use crate::joining::{TextAt, has_forms};
use crate::lines::Lines;
use crate::mirrors::{has_mirror, mirrored};
use crate::row_layout::RowLayout;
use bx_common::are_ascii_printable;
use bx_ucd::BidiData;
use std::alloc::{AllocError, Global};
use std::borrow::CowStr;

/// The characters from SPACE to TILDE.
const LETTERS: &str =
    " !\"#$%&'()*+,-./0123456789:;<=>?@ABCDEFGHIJKLMNOPQRSTUVWXYZ[\\]^_`abcdefghijklmnopqrstuvwxyz{|}~";

/// The text of one character of `letters`, which are those from SPACE to TILDE.
fn letter_of<'a>(letters: &'a str, byte: u8) -> &'a str
    requires letters { letters.now ≡ range_with_len 32 95 }
    requires byte { is_ascii_printable byte ≡ true }
    ensures { result.now ≡ byte ∷ [] }
{
    let index = (byte - b' ') as usize;
    &letters[index..index + 1]
}

/// The fixed text of a character from SPACE to TILDE.
pub(crate) fn letter<'a>(byte: u8) -> &'a str
    requires { is_ascii_printable byte ≡ true }
    ensures { result.now ≡ byte ∷ [] }
{
    letter_of(LETTERS, byte)
}

/// Appends the glyph of a character from SPACE to TILDE.
fn push_letter<'a>(glyphs: &mut Vec<Drawn<'a>>, byte: u8, negative: bool) -> Result<(), AllocError>
    requires { is_ascii_printable byte ≡ true }
    ensures { OnOk result (map glyph_of glyphs.new.items ≡ map glyph_of glyphs.old.items ++ glyph (byte ∷ []) 1 negative ∷ []) }
{
    glyphs.push(Drawn {
        text: CowStr::Borrowed(letter(byte)),
        columns: 1,
        negative,
    })?;
    Ok(())
}

/// Appends `count` blanks of one column.
fn push_blanks<'a>(glyphs: &mut Vec<Drawn<'a>>, count: u16) -> Result<(), AllocError>
    ensures { OnOk result (map glyph_of glyphs.new.items ≡ map glyph_of glyphs.old.items ++ replicate count blank) }
{
    for _ in 0..count {
        push_letter(glyphs, b' ', false)?;
    }
    Ok(())
}

/// Adds a row's blanks to its glyphs: at the right in a paragraph of even level, else at the left.
pub(crate) fn with_blanks<'a>(
    alloc: Global,
    glyphs: Vec<Drawn<'a>>,
    blanks: u16,
    paragraph: u8,
) -> Result<Vec<Drawn<'a>>, AllocError>
    ensures { IfOk result (λ v. map glyph_of v.items ≡ with_blanks paragraph blanks (map glyph_of glyphs.entry.items)) }
{
    let mut glyphs = glyphs;
    if paragraph % 2 == 0 {
        push_blanks(&mut glyphs, blanks)?;
        return Ok(glyphs);
    }
    let room = glyphs.len().saturating_add(blanks as usize);
    let mut all = Vec::with_capacity(alloc, room)?;
    push_blanks(&mut all, blanks)?;
    all.append(&mut glyphs)?;
    Ok(all)
}

/// Appends a glyph for each character of a text of characters from SPACE to TILDE.
fn push_letters<'a>(glyphs: &mut Vec<Drawn<'a>>, text: &[u8]) -> Result<(), AllocError>
    requires { are_ascii_printable text.now ≡ true }
    ensures { OnOk result (map glyph_of glyphs.new.items ≡ map glyph_of glyphs.old.items ++ map (λ b. glyph (b ∷ []) 1 false) text.now) }
{
    for byte in text {
        push_letter(glyphs, *byte, false)?;
    }
    Ok(())
}

/// The glyphs of a text of characters from SPACE to TILDE.
fn letters<'a>(alloc: Global, text: &str) -> Result<Vec<Drawn<'a>>, AllocError>
    requires { are_ascii_printable text.now ≡ true }
    ensures { IfOk result (λ v. map glyph_of v.items ≡ letter_glyphs text.now) }
{
    let mut glyphs = Vec::with_capacity(alloc, text.len())?;
    push_letters(&mut glyphs, text.as_bytes())?;
    Ok(glyphs)
}

impl<'a> RowPicture<'a> {
    /// The picture of a text of characters from SPACE to TILDE: a glyph for each.
    pub fn of_letters(alloc: Global, text: &str) -> Result<RowPicture<'a>, AllocError>
        requires { are_ascii_printable text.now ≡ true }
        ensures picture { IfOk result (λ p. map glyph_of p.glyphs.items ≡ letter_glyphs text.now) }
        ensures glyphs { IfOk result (λ p. All (λ g. is_one_glyph (cow_str_bytes g.text) ≡ true) p.glyphs.items) }
        ensures widths { IfOk result (λ p. All (λ g. run_width (cow_str_bytes g.text) ≡ g.columns) p.glyphs.items) }
    {
        let glyphs = letters(alloc, text)?;
        Ok(RowPicture { glyphs })
    }
}

/// Appends the glyphs of a text shown as itself in `columns` columns.
fn push_text<'a>(
    glyphs: &mut Vec<Drawn<'a>>,
    text: CowStr<'a, Global>,
    columns: u16,
) -> Result<(), AllocError>
    ensures { OnOk result (map glyph_of glyphs.new.items ≡ map glyph_of glyphs.old.items ++ text_glyphs columns (cow_str_bytes text.entry)) }
{
    if are_ascii_printable(text.as_str()) {
        return push_letters(glyphs, text.as_str().as_bytes());
    }
    glyphs.push(Drawn {
        text,
        columns,
        negative: false,
    })?;
    Ok(())
}

/// Whether a face is the unit's own text in `n` columns.
pub(crate) fn is_own(face: Face, n: u16) -> bool
    ensures { result ≡ is_own n face }
{
    match face {
        Face::Own(m) => m == n,
        _ => false,
    }
}

/// A text mirrored, or itself where its mirror image is not shown as itself in `columns` columns, those of the text.
fn mirrored_or_own<'a, D: BidiData>(
    alloc: Global,
    text: &'a str,
    columns: u16,
    lines: &Lines<'_, '_, D>,
) -> Result<CowStr<'a, Global>, AllocError>
    ensures { IfOk result (λ t. cow_str_bytes t ≡ mirror_image_within (D.data lines.now.tables.now) lines.now.w columns text.entry.now) }
{
    if !has_mirror(text, lines.tables) {
        return Ok(CowStr::Borrowed(text));
    }
    match mirrored(alloc, text, columns, lines.tables, lines.w)? {
        Some(other) => Ok(other),
        None => Ok(CowStr::Borrowed(text)),
    }
}

/// The text shown at a level: mirrored and then joined if the level is odd. `at`: where the text stands in its body; `columns`:
/// those of its face, which what is shown takes too.
fn shown_text<'a, D: BidiData>(
    alloc: Global,
    text: &'a str,
    at: TextAt<'_, '_>,
    level: u8,
    columns: u16,
    lines: &Lines<'_, '_, D>,
) -> Result<CowStr<'a, Global>, AllocError>
    requires { StandsAt at.body.text.now text.now at.offset at.number }
    ensures { IfOk result (λ t. cow_str_bytes t ≡ shown_text (D.data lines.now.tables.now) lines.now.w columns level
        (text_forms (D.data lines.now.tables.now) at.entry.body.text.now at.entry.body.each.now at.entry.number text.entry.now) text.entry.now) }
{
    if level % 2 == 0 {
        return Ok(CowStr::Borrowed(text));
    }
    let mirrored = mirrored_or_own(alloc, text, columns, lines)?;
    let shown = mirrored.as_str();
    if !has_forms(text, lines.tables) {
        return Ok(mirrored);
    }
    match joined(alloc, text, shown, at, columns, lines)? {
        Some(other) => Ok(CowStr::Owned(other)),
        None => Ok(mirrored),
    }
}

/// Appends the glyphs of unit `number` of a row, from 0, which stands at `at` in the body. `columns`: those of each unit.
pub(crate) fn push_unit<'a, D: BidiData>(
    glyphs: &mut Vec<Drawn<'a>>,
    alloc: Global,
    row: &RowLayout<'a, '_, D>,
    columns: &[u16],
    number: usize,
    at: TextAt<'_, '_>,
) -> Result<(), AllocError>
    requires number { number < length row.now.units.items }
    requires columns { length columns.now ≡ length row.now.units.items }
    requires near { IsNear row.now.lines.body.now row.now.lines.levels.now.each.items at }
    requires at { (d : Unit) → at.offset ≡ (slice_index_or row.now.units.items number d).start }
    ensures { OnOk result (map glyph_of glyphs.new.items ≡ map glyph_of glyphs.old.items
        ++ slice_index_or (unit_glyphs (D.data row.now.lines.tables.now) row.now.lines.w row.now.lines.body.now
        row.now.lines.levels.now.each.items row.now.units.items columns.now row.now.levels.items) number []) }
{
    let units = row.units.as_slice();
    let levels = row.levels.as_slice();
    let unit = units[number];
    match unit.face {
        Face::Tab => push_blanks(glyphs, columns[number]),
        Face::Placeholder(byte) => push_letter(glyphs, byte, true),
        Face::Own(own) => {
            let text = &row.lines.body[unit.start..unit.stop];
            let shown = shown_text(alloc, text, at, levels[number], own, &row.lines)?;
            push_text(glyphs, shown, own)
        }
    }
}
