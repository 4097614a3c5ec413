//! Moves to the left and to the right, from slot to slot, and past a row's last slot into the next or the previous row.
ghost use Rattle.std.specs.Prelude.{◌≡◌, ℕ, IfOk};
ghost use Rattle.bx_view.specs.Moves.{end_of, past, row_after, row_before, start_of, step_visual};
ghost use Rattle.bx_view.specs.TextRef.{IsViewBy, Keeps, Stands, StandsOn, rows};

use crate::moves::placed::{place_beside, reading_end, reading_start, reads_on};
use crate::{RowAt, TextRef, View};
use bx_common::OutOfMemory;
use bx_paragraph::Visual;
use bx_ucd::BidiData;

/// The place at the reading start of the next row, if there is one.
fn start_after<D: BidiData>(
    view: &mut View,
    text_ref: &TextRef<'_, D>,
    at: RowAt,
) -> Result<Option<usize>, OutOfMemory>
    requires row { Stands text_ref.now view.old at }
    ensures keeps { Keeps text_ref.now view.old view.new }
    ensures place { (n : ℕ) → StandsOn text_ref.now view.old at n
        → IfOk result (λ o. o ≡ start_of view.old.w (row_after (rows text_ref.now view.old) n)) }
{
    let Some(there) = view.next_row(text_ref, at)? else {
        return Ok(None);
    };
    // The proof refers to the place by this name.
    let place = reading_start(&view.row(text_ref, there))?;
    Ok(place)
}

/// The place at the reading end of the previous row, if there is one.
fn end_before<D: BidiData>(
    view: &mut View,
    text_ref: &TextRef<'_, D>,
    at: RowAt,
) -> Result<Option<usize>, OutOfMemory>
    requires row { Stands text_ref.now view.old at }
    ensures keeps { Keeps text_ref.now view.old view.new }
    ensures place { (n : ℕ) → StandsOn text_ref.now view.old at n
        → IfOk result (λ o. o ≡ end_of view.old.w (row_before (rows text_ref.now view.old) n)) }
{
    let Some(there) = view.row_before(text_ref, at)? else {
        return Ok(None);
    };
    // The proof refers to the place by this name.
    let place = reading_end(&view.row(text_ref, there))?;
    Ok(place)
}

/// The place after a move past a row's last slot on a side: the reading start of the next row if the paragraph is read toward
/// that side, else the reading end of the previous row. None if there is no such row.
fn past<D: BidiData>(
    view: &mut View,
    text_ref: &TextRef<'_, D>,
    at: RowAt,
    side: Visual,
) -> Result<Option<usize>, OutOfMemory>
    requires row { Stands text_ref.now view.old at }
    ensures keeps { Keeps text_ref.now view.old view.new }
    ensures place { (n : ℕ) → StandsOn text_ref.now view.old at n
        → IfOk result (λ o. o ≡ past view.old.w (rows text_ref.now view.old) side n) }
{
    // The proof refers to the place by this name.
    if reads_on(&view.row(text_ref, at), side) {
        let place = start_after(view, text_ref, at)?;
        return Ok(place);
    }
    let place = end_before(view, text_ref, at)?;
    Ok(place)
}

/// The place after a step to a side: that of the row's next slot on the side, else the one `past` the row's last slot, else
/// `place` itself.
pub(crate) fn step_visual<D: BidiData>(
    view: &mut View,
    text_ref: &TextRef<'_, D>,
    side: Visual,
    place: usize,
) -> Result<usize, OutOfMemory>
    requires data { IsViewBy text_ref.now view.old }
    ensures keeps { Keeps text_ref.now view.old view.new }
    ensures step { IfOk result (λ o. o ≡ step_visual view.old.w (rows text_ref.now view.old) side place) }
{
    let at = view.row_at(text_ref, place)?;
    if let Some(next) = place_beside(&view.row(text_ref, at), side, place)? {
        return Ok(next);
    }
    let past = past(view, text_ref, at, side)?;
    Ok(past.unwrap_or(place))
}
