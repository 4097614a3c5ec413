//! A place that keeps to the visible rows, and the goal that moves from row to row keep.
ghost use Rattle.std.specs.Prelude.{◌≡◌, ◌≤◌, ◌<◌, IfOk};
ghost use Rattle.std.specs.Str.{IsCharBoundary};
ghost use Rattle.bx_view.specs.Moves.{goal_of};
ghost use Rattle.bx_view.specs.Places.{IsTextPlace};
ghost use Rattle.bx_view.specs.TextRef.{IsViewBy, Keeps, bytes, rows};
ghost use Rattle.bx_view.specs.Top.{to_shown};

use crate::moves::by_rows::{rows_down, to_row};
use crate::{Goal, TextRef, View};
use bx_common::OutOfMemory;
use bx_ucd::BidiData;

/// The goal that moves from row to row keep from a place on: the row's start if the place is the row's first one, else the column of
/// its cell.
pub fn kept_goal<D: BidiData>(
    view: &mut View,
    text_ref: &TextRef<'_, D>,
    place: usize,
) -> Result<Goal, OutOfMemory>
    requires data { IsViewBy text_ref.now view.old }
    ensures keeps { Keeps text_ref.now view.old view.new }
    ensures goal { IfOk result (λ goal. goal ≡ goal_of view.old.w (rows text_ref.now view.old) place) }
{
    let at = view.row_at(text_ref, place)?;
    if view.first_in(text_ref, at) == place {
        return Ok(Goal::Start);
    }
    let position = view.position(text_ref, at, place)?;
    Ok(Goal::Column(position.column))
}

/// The place itself, if its row is one of the `count` visible rows that begin with the row of the offset `top`; else the place of the
/// nearest visible row, which is entered by a goal.
pub fn to_shown<D: BidiData>(
    view: &mut View,
    text_ref: &TextRef<'_, D>,
    top: usize,
    count: usize,
    goal: Goal,
    place: usize,
) -> Result<usize, OutOfMemory>
    requires data { IsViewBy text_ref.now view.old }
    requires some { 0 < count }
    ensures keeps { Keeps text_ref.now view.old view.new }
    ensures place { IfOk result (λ o. o ≡ to_shown view.old.w (rows text_ref.now view.old) top count goal place) }
    ensures text_place { IsTextPlace (D.data text_ref.now.tables.now) (bytes text_ref.now) place
        → IfOk result (IsTextPlace (D.data text_ref.now.tables.now) (bytes text_ref.now)) }
    ensures boundary { IsCharBoundary (bytes text_ref.now) place → IfOk result (λ o. IsCharBoundary (bytes text_ref.now) o) }
{
    // `width` promises that the width is from 1 to 500.
    let _side = view.width();
    let at = view.row_at(text_ref, place)?;
    let own = view.first_in(text_ref, at);
    let first = view.row_at(text_ref, top)?;
    if own < view.first_in(text_ref, first) {
        // The proof refers to the place by this name.
        let place = to_row(view, text_ref, goal, place, own, first)?;
        return Ok(place);
    }
    let last = rows_down(view, text_ref, first, count - 1)?;
    if own <= view.first_in(text_ref, last) {
        return Ok(place);
    }
    let place = to_row(view, text_ref, goal, place, own, last)?;
    Ok(place)
}
