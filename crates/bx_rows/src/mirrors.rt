//! Mirror images of texts at odd levels, L4.
ghost use Rattle.std.specs.Prelude.{◌≡◌, ◌∷◌, [], ℕ, IfOk, IfSome, List, MatchOption, OnOk, chars, encode_utf8, false, length, map, string_bytes};
ghost use Rattle.std.specs.Cow.{cow_str_bytes};
ghost use Rattle.bx_ucd.specs.declared.joining.Form.{Form};
ghost use Rattle.bx_rows.specs.declared.cells.unit.Face.TheVariants.{Own};
ghost use Rattle.bx_rows.specs.cells.Units.{face};
ghost use Rattle.bx_rows.specs.PlainRows.{IsFormless, leveled_glyphs, mirrored_glyphs, mirrored_text, single_glyph};
ghost use Rattle.bx_rows.specs.RowPicture.{glyph, mirror_image, mirror_image_within};
ghost use Rattle.bx_rows.specs.Shown.{glyph_of};

use crate::cells::face;
use crate::drawn::Drawn;
use crate::form_texts::form_text;
use crate::glyphs::{is_own, letter};
use crate::joining::has_forms;
use crate::plain_row::is_narrow;
use bx_common::first_char;
use bx_ucd::BidiData;
use std::alloc::{AllocError, Global};
use std::borrow::CowStr;

/// The character of a text of exactly one; None for any other text.
#[inline(always)]
fn single_char(text: &str) -> Option<char>
    ensures { IfSome result (λ c. chars text.now ≡ c ∷ []) }
{
    let (c, behind) = first_char(text)?;
    if !behind.is_empty() {
        return None;
    }
    Some(c)
}

/// Whether a character of a text has a mirror, for a text of any length.
fn any_mirror<D: BidiData>(text: &str, tables: &D) -> bool
    ensures { result ≡ false → mirror_image (D.data tables.now) text.now ≡ text.now }
{
    for c in text.chars() {
        if tables.mirror(c).is_some() {
            return true;
        }
    }
    false
}

/// Whether a character of a text has a mirror.
#[inline(always)]
pub(crate) fn has_mirror<D: BidiData>(text: &str, tables: &D) -> bool
    ensures { result ≡ false → mirror_image (D.data tables.now) text.now ≡ text.now }
{
    match single_char(text) {
        Some(c) => tables.mirror(c).is_some(),
        None => any_mirror(text, tables),
    }
}

/// A text with its characters mirrored. Characters without a mirror stay.
fn mirror_image<D: BidiData>(alloc: Global, text: &str, tables: &D) -> Result<String, AllocError>
    ensures { IfOk result (λ t. string_bytes t ≡ mirror_image (D.data tables.now) text.now) }
{
    let mut other = String::new(alloc);
    for c in text.chars() {
        other.push(tables.mirror(c).unwrap_or(c))?;
    }
    Ok(other)
}

/// The fixed text of a character from SPACE to TILDE, or of an Arabic letter in a form (`form_text`); None for any other.
fn text_of<'a>(c: char) -> Option<&'a str>
    ensures { IfSome result (λ t. t.now ≡ encode_utf8 c) }
{
    if c < ' ' || c > '~' {
        return form_text(c);
    }
    Some(letter(c as u8))
}

/// The text of `text_of`, if the character is shown as itself in one column of a window of `w` columns.
pub(crate) fn fixed_text<'a, D: BidiData>(c: char, tables: &D, w: u16) -> Option<&'a str>
    ensures bytes { IfSome result (λ t. t.now ≡ encode_utf8 c) }
    ensures face { IfSome result (λ t. face (D.data tables.now) w t.now ≡ Own 1) }
{
    if !is_narrow(c, tables, w) {
        return None;
    }
    text_of(c)
}

/// The mirror image of a text of one character, if that has a fixed text, so that nothing is allocated.
fn fixed_mirror<'a, D: BidiData>(text: &str, tables: &D, w: u16) -> Option<&'a str>
    ensures { IfSome result (λ t. t.now ≡ mirror_image_within (D.data tables.now) w 1 text.now) }
{
    let c = single_char(text)?;
    let mirror = tables.mirror(c)?;
    fixed_text(mirror, tables, w)
}

/// The mirror image of a text; None if that is not shown as itself in `columns` columns, so that the text stays.
pub(crate) fn mirrored<'a, D: BidiData>(
    alloc: Global,
    text: &str,
    columns: u16,
    tables: &D,
    w: u16,
) -> Result<Option<CowStr<'a, Global>>, AllocError>
    ensures { IfOk result (λ o. MatchOption o (mirror_image_within (D.data tables.now) w columns text.now ≡ text.now)
        (λ t. cow_str_bytes t ≡ mirror_image_within (D.data tables.now) w columns text.now)) }
{
    if columns == 1 {
        if let Some(other) = fixed_mirror(text, tables, w) {
            return Ok(Some(CowStr::Borrowed(other)));
        }
    }
    let other = mirror_image(alloc, text, tables)?;
    let found = face(other.as_str(), tables, w);
    if !is_own(found, columns) {
        return Ok(None);
    }
    Ok(Some(CowStr::Owned(other)))
}

/// Replaces a glyph's text by its mirror image, if that is shown as itself in one column.
// Not inlined: few glyphs are mirrored, and the loop over all stays short.
#[inline(never)]
fn mirror_text<D: BidiData>(
    drawn: &mut Drawn<'_>,
    alloc: Global,
    tables: &D,
    w: u16,
) -> Result<(), AllocError>
    ensures { OnOk result (glyph_of drawn.new
        ≡ glyph (mirror_image_within (D.data tables.now) w 1 (cow_str_bytes drawn.old.text))
        drawn.old.columns drawn.old.negative) }
{
    let Some(other) = mirrored(alloc, drawn.text.as_str(), 1, tables, w)? else {
        return Ok(());
    };
    drawn.text = other;
    Ok(())
}

/// Mirrors a glyph at an odd level, and returns whether it may join; leaves one at an even level. The slow path is out of line,
/// since a function's locals cost on each call.
#[inline(always)]
fn mirror_at<D: BidiData>(
    drawn: &mut Drawn<'_>,
    alloc: Global,
    level: u8,
    tables: &D,
    w: u16,
) -> Result<bool, AllocError>
    ensures mirrored { OnOk result (glyph_of drawn.new
        ≡ glyph (mirrored_text (D.data tables.now) w 1 level (cow_str_bytes drawn.old.text))
        drawn.old.columns drawn.old.negative) }
    ensures formless { IfOk result (λ joins. joins ≡ false → IsFormless (D.data tables.now) w level (cow_str_bytes drawn.old.text)) }
{
    if level % 2 == 0 {
        return Ok(false);
    }
    let text = drawn.text.as_str();
    let joins = has_forms(text, tables);
    if has_mirror(text, tables) {
        mirror_text(drawn, alloc, tables, w)?;
    }
    Ok(joins)
}

/// Mirrors odd-level glyphs, each a single character of one column, if the mirror takes one column too; returns whether one of
/// them may join.
pub(crate) fn mirror_and_may_join<D: BidiData>(
    glyphs: &mut [Drawn<'_>],
    alloc: Global,
    levels: &[u8],
    tables: &D,
    w: u16,
) -> Result<bool, AllocError>
    requires { length glyphs.old ≡ length levels.now }
    ensures count { length glyphs.new ≡ length glyphs.old }
    ensures mirrored { (cs : List ℕ) → map glyph_of glyphs.old ≡ map single_glyph cs
        → OnOk result (map glyph_of glyphs.new ≡ mirrored_glyphs (D.data tables.now) w cs levels.now) }
    ensures formless { (cs : List ℕ) → map glyph_of glyphs.old ≡ map single_glyph cs
        → IfOk result (λ joins. joins ≡ false → (forms : List Form) → length forms ≡ length cs
        → map glyph_of glyphs.new ≡ leveled_glyphs (D.data tables.now) w cs levels.now forms) }
{
    let mut joins = false;
    for i in 0..glyphs.len() {
        joins |= mirror_at(&mut glyphs[i], alloc, levels[i], tables, w)?;
    }
    Ok(joins)
}
