//! Moves from row to row.
ghost use Rattle.std.specs.Prelude.{◌≡◌, ℕ, ◌+◌, ◌-◌, IfOk, length, min};
ghost use Rattle.bx_view.specs.Moves.{goal_in, row_away, row_home, rows_away, rows_straight, to_row};
ghost use Rattle.bx_view.specs.Placed.{columns, placed};
ghost use Rattle.bx_view.specs.TextRef.{IsViewBy, Keeps, Stands, StandsOn, rows};
ghost use Rattle.bx_view.specs.TextRows.{first as first_of};

use crate::moves::placed::entry;
use crate::{Goal, RowAt, TextRef, Vertical, View, last_place};
use bx_common::OutOfMemory;
use bx_paragraph::LayoutRowRef;
use bx_ucd::BidiData;

/// The row `count` rows above `at`, or the text's first row if there are fewer.
pub(crate) fn rows_up<D: BidiData>(
    view: &mut View,
    text_ref: &TextRef<'_, D>,
    at: RowAt,
    count: usize,
) -> Result<RowAt, OutOfMemory>
    requires row { Stands text_ref.now view.old at }
    ensures keeps { Keeps text_ref.now view.old view.new }
    ensures row { (n : ℕ) → StandsOn text_ref.now view.old at n → IfOk result (λ b. StandsOn text_ref.now view.new b (n - count)) }
{
    let mut walk = view.walk_from(text_ref, at);
    let mut here = at;
    let mut done = 0;
    while done < count {
        let Some(before) = view.row_before_along(text_ref, &mut walk, here)? else {
            return Ok(here);
        };
        here = before;
        done += 1;
    }
    Ok(here)
}

/// The row `count` rows below `at`, or the text's last row if there are fewer.
pub(crate) fn rows_down<D: BidiData>(
    view: &mut View,
    text_ref: &TextRef<'_, D>,
    at: RowAt,
    count: usize,
) -> Result<RowAt, OutOfMemory>
    requires row { Stands text_ref.now view.old at }
    ensures keeps { Keeps text_ref.now view.old view.new }
    ensures row { (n : ℕ) → StandsOn text_ref.now view.old at n
        → IfOk result (λ b. StandsOn text_ref.now view.new b (min (n + count) (length (rows text_ref.now view.old) - 1))) }
{
    let mut walk = view.walk_from(text_ref, at);
    let mut here = at;
    let mut done = 0;
    while done < count {
        let Some(next) = view.next_row_along(text_ref, &mut walk, here)? else {
            return Ok(here);
        };
        here = next;
        done += 1;
    }
    Ok(here)
}

/// The row `count` rows above or below `at`, or the text's first or last row if there are fewer.
fn row_away<D: BidiData>(
    view: &mut View,
    text_ref: &TextRef<'_, D>,
    way: Vertical,
    count: usize,
    at: RowAt,
) -> Result<RowAt, OutOfMemory>
    requires row { Stands text_ref.now view.old at }
    ensures keeps { Keeps text_ref.now view.old view.new }
    ensures row { (n : ℕ) → StandsOn text_ref.now view.old at n
        → IfOk result (λ b. StandsOn text_ref.now view.new b (row_away (length (rows text_ref.now view.old)) way count n)) }
{
    // The proof refers to the row by the name in each arm.
    match way {
        Vertical::Up => {
            let there = rows_up(view, text_ref, at, count)?;
            Ok(there)
        }
        Vertical::Down => {
            let there = rows_down(view, text_ref, at, count)?;
            Ok(there)
        }
    }
}

/// The place at which a row is entered by a goal, if it has one.
fn goal_in<D: BidiData>(
    row: &LayoutRowRef<'_, '_, D>,
    first: usize,
    goal: Goal,
) -> Result<Option<usize>, OutOfMemory>
    requires { first ≡ first_of (placed row.now) }
    ensures { IfOk result (λ o. o ≡ goal_in (columns row.now) (placed row.now) goal) }
{
    match goal {
        Goal::Column(column) => {
            // The proof refers to the place by this name.
            let entry = entry(row, column)?;
            Ok(entry)
        }
        Goal::Start => Ok(Some(first)),
        Goal::End => {
            let last = last_place(row)?;
            Ok(Some(last))
        }
    }
}

/// From a place to the row `there`, which is entered by a goal; if it is the place's own, whose first offset is `own`, the place
/// stays.
pub(crate) fn to_row<D: BidiData>(
    view: &View,
    text_ref: &TextRef<'_, D>,
    goal: Goal,
    place: usize,
    own: usize,
    there: RowAt,
) -> Result<usize, OutOfMemory>
    requires row { Stands text_ref.now view.now there }
    requires own { own ≡ row_home (rows text_ref.now view.now) place }
    ensures place { (n : ℕ) → StandsOn text_ref.now view.now there n
        → IfOk result (λ o. o ≡ to_row view.now.w (rows text_ref.now view.now) goal place n) }
{
    // A row is known by its first offset: no other begins there.
    let first = view.first_in(text_ref, there);
    if first == own {
        return Ok(place);
    }
    let entry = goal_in(&view.row(text_ref, there), first, goal)?;
    Ok(entry.unwrap_or(place))
}

/// The place after a move of `count` rows up or down, at most to the text's first or last row. The row is entered by a goal; if it
/// is the place's own, the place stays.
pub(crate) fn rows_away<D: BidiData>(
    view: &mut View,
    text_ref: &TextRef<'_, D>,
    way: Vertical,
    count: usize,
    goal: Goal,
    place: usize,
) -> Result<usize, OutOfMemory>
    requires data { IsViewBy text_ref.now view.old }
    ensures keeps { Keeps text_ref.now view.old view.new }
    ensures place { IfOk result (λ o. o ≡ rows_away view.old.w (rows text_ref.now view.old) way count goal place) }
{
    let at = view.row_at(text_ref, place)?;
    let own = view.first_in(text_ref, at);
    let there = row_away(view, text_ref, way, count, at)?;
    // The proof refers to the place by this name.
    let place = to_row(view, text_ref, goal, place, own, there)?;
    Ok(place)
}

/// The place after a move of `count` rows up or down into the column of the place's cell.
pub(crate) fn rows_straight<D: BidiData>(
    view: &mut View,
    text_ref: &TextRef<'_, D>,
    way: Vertical,
    count: usize,
    place: usize,
) -> Result<usize, OutOfMemory>
    requires data { IsViewBy text_ref.now view.old }
    ensures keeps { Keeps text_ref.now view.old view.new }
    ensures place { IfOk result (λ o. o ≡ rows_straight view.old.w (rows text_ref.now view.old) way count place) }
{
    let column = view.cell_of(text_ref, place)?;
    // The proof refers to the place by this name.
    let place = rows_away(view, text_ref, way, count, Goal::Column(column), place)?;
    Ok(place)
}
