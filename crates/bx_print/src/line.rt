//! The printed line of a row: its glyphs from left to right as plain bytes, without blanks at the end.
ghost use Rattle.std.specs.Prelude.{◌≡◌, ◌≤◌, ◌++◌, OnOk, flat_map, length, map, take};
ghost use Rattle.bx_rows.specs.Shown.{glyph_of};
ghost use Rattle.bx_print.specs.Page.{glyph_bytes, line, trimmed};

use crate::style::Placeholders;
use bx_rows::{Drawn, RowPicture};
use std::alloc::AllocError;

/// Appends the printed bytes of a glyph.
fn push_glyph(
    page: &mut Vec<u8>,
    glyph: &Drawn<'_>,
    placeholders: Placeholders,
) -> Result<(), AllocError>
    ensures { OnOk result (page.new.items ≡ page.old.items ++ glyph_bytes placeholders (glyph_of glyph.now)) }
{
    let text = glyph.text.as_str().as_bytes();
    if !glyph.negative {
        page.extend_from_slice(text)?;
        return Ok(());
    }
    match placeholders {
        Placeholders::LeftOut => Ok(()),
        Placeholders::Bracketed => {
            page.push(b'[')?;
            page.extend_from_slice(text)?;
            page.push(b']')?;
            Ok(())
        }
    }
}

/// The length of `bytes` without the blanks at their end.
fn trimmed_len(bytes: &[u8]) -> usize
    ensures within { result ≤ length bytes.now }
    ensures trimmed { take result bytes.now ≡ trimmed bytes.now }
{
    let mut len = bytes.len();
    while len > 0 {
        if bytes[len - 1] != b' ' {
            return len;
        }
        len -= 1;
    }
    len
}

/// Appends the printed bytes of a row's glyphs.
fn push_glyphs(
    page: &mut Vec<u8>,
    glyphs: &[Drawn<'_>],
    placeholders: Placeholders,
) -> Result<(), AllocError>
    ensures { OnOk result (page.new.items ≡ page.old.items ++ flat_map (glyph_bytes placeholders) (map glyph_of glyphs.now)) }
{
    for glyph in glyphs {
        push_glyph(page, glyph, placeholders)?;
    }
    Ok(())
}

/// Appends the line of a row with this picture.
pub(crate) fn push_line(
    page: &mut Vec<u8>,
    picture: &RowPicture<'_>,
    placeholders: Placeholders,
) -> Result<(), AllocError>
    ensures { OnOk result (page.new.items ≡ page.old.items ++ line placeholders (map glyph_of picture.now.glyphs.items)) }
{
    let start = page.len();
    push_glyphs(page, &picture.glyphs, placeholders)?;
    let len = trimmed_len(&page[start..]);
    page.truncate(start + len);
    Ok(())
}
