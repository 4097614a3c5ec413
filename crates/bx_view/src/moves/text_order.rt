//! Moves in text order.
ghost use Rattle.std.specs.Prelude.{◌≡◌, IfOk, find, nat_lt, reverse, unwrap_or};
ghost use Rattle.bx_view.specs.Moves.{step_logical};
ghost use Rattle.bx_view.specs.TextRef.{IsViewBy, Keeps, rows};
ghost use Rattle.bx_view.specs.TextRows.{places};

use crate::moves::placed::{first_place_after, last_place_before};
use crate::{Logical, TextRef, View, last_place};
use bx_common::OutOfMemory;
use bx_ucd::BidiData;

/// The next place after a place; at the text's end the place itself.
fn step_forward<D: BidiData>(
    view: &mut View,
    text_ref: &TextRef<'_, D>,
    place: usize,
) -> Result<usize, OutOfMemory>
    requires data { IsViewBy text_ref.now view.old }
    ensures keeps { Keeps text_ref.now view.old view.new }
    ensures place { IfOk result (λ o. o ≡ unwrap_or (find (nat_lt place) (places (rows text_ref.now view.old))) place) }
{
    let at = view.row_at(text_ref, place)?;
    if let Some(after) = first_place_after(&view.row(text_ref, at), place)? {
        return Ok(after);
    }
    let Some(next) = view.next_row(text_ref, at)? else {
        return Ok(place);
    };
    Ok(view.first_in(text_ref, next))
}

/// The last place before a place; at the text's start the place itself.
fn step_back<D: BidiData>(
    view: &mut View,
    text_ref: &TextRef<'_, D>,
    place: usize,
) -> Result<usize, OutOfMemory>
    requires data { IsViewBy text_ref.now view.old }
    ensures keeps { Keeps text_ref.now view.old view.new }
    ensures place { IfOk result (λ o. o ≡ unwrap_or (find (λ p. nat_lt p place)
        (reverse (places (rows text_ref.now view.old)))) place) }
{
    let at = view.row_at(text_ref, place)?;
    if let Some(before) = last_place_before(&view.row(text_ref, at), place)? {
        return Ok(before);
    }
    let Some(above) = view.row_before(text_ref, at)? else {
        return Ok(place);
    };
    // The proof refers to the place by this name.
    let last = last_place(&view.row(text_ref, above))?;
    Ok(last)
}

/// The next or the previous place in text order; at either end of the text the place itself.
pub(crate) fn step_logical<D: BidiData>(
    view: &mut View,
    text_ref: &TextRef<'_, D>,
    way: Logical,
    place: usize,
) -> Result<usize, OutOfMemory>
    requires data { IsViewBy text_ref.now view.old }
    ensures keeps { Keeps text_ref.now view.old view.new }
    ensures step { IfOk result (λ o. o ≡ step_logical (rows text_ref.now view.old) way place) }
{
    // The proof refers to the place by the name in each arm.
    match way {
        Logical::Forward => {
            let place = step_forward(view, text_ref, place)?;
            Ok(place)
        }
        Logical::Back => {
            let place = step_back(view, text_ref, place)?;
            Ok(place)
        }
    }
}
