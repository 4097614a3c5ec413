//! Moves to the ends of a row in text order, the keys Home and End.
ghost use Rattle.std.specs.Prelude.{◌≡◌, IfOk};
ghost use Rattle.bx_view.specs.Moves.{row_end, row_home};
ghost use Rattle.bx_view.specs.TextRef.{IsViewBy, Keeps, rows};

use crate::{TextRef, View, last_place};
use bx_common::OutOfMemory;
use bx_ucd::BidiData;

/// The first place of the row that a place falls in.
pub(crate) fn row_home<D: BidiData>(
    view: &mut View,
    text_ref: &TextRef<'_, D>,
    place: usize,
) -> Result<usize, OutOfMemory>
    requires data { IsViewBy text_ref.now view.old }
    ensures keeps { Keeps text_ref.now view.old view.new }
    ensures home { IfOk result (λ home. home ≡ row_home (rows text_ref.now view.old) place) }
{
    let at = view.row_at(text_ref, place)?;
    let paragraph = view.paragraph(text_ref, at.paragraph, at.cached);
    Ok(at.start + paragraph.first(at.row))
}

/// The last place of the row that a place falls in: the paragraph's end in its last row, else the start of the row's last unit.
pub(crate) fn row_end<D: BidiData>(
    view: &mut View,
    text_ref: &TextRef<'_, D>,
    place: usize,
) -> Result<usize, OutOfMemory>
    requires data { IsViewBy text_ref.now view.old }
    ensures keeps { Keeps text_ref.now view.old view.new }
    ensures end { IfOk result (λ o. o ≡ row_end (rows text_ref.now view.old) place) }
{
    let at = view.row_at(text_ref, place)?;
    // The proof refers to the place by this name.
    let end = last_place(&view.row(text_ref, at))?;
    Ok(end)
}
