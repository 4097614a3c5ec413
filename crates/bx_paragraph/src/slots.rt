//! The slots of a row, which are the positions of the cursor in it, from its units.
ghost use Rattle.std.specs.Prelude.{◌≡◌, ◌≤◌, ◌<◌, ◌+◌, ◌++◌, ◌∷◌, [], true, false, All, IfOk, OnOk, length, map};
ghost use Rattle.bx_common.specs.Characters.{is_side, largest_side};
ghost use Rattle.bx_paragraph.specs.RowLayouts.{body_row};
ghost use Rattle.bx_paragraph.specs.OrderedColumns.{ordered_columns};
ghost use Rattle.bx_paragraph.specs.Slots.{extent_of, row_slots, side_by_side};

use bx_common::OutOfMemory;
use bx_rows::{RowLayout, Unit, unit_columns, visual};
use bx_ucd::BidiData;
use std::alloc::{AllocError, Global};

/// A slot of a row: a position for the cursor.
#[derive(Clone, Copy)]
pub struct Slot {
    /// The offset, in bytes of the paragraph's body, of its unit's start or of the body's end.
    pub offset: usize,
    /// The leftmost column that it covers, from 1.
    pub column: u16,
    /// The number of columns that it covers: those of its unit, or 0 for the body's end.
    pub columns: u16,
}

/// Appends the slots of units side by side, from column `at` on: `order` has the indexes of the units from left to right, and
/// `columns` the number of columns of each unit.
fn push_units(
    slots: &mut Vec<Slot>,
    units: &[Unit],
    columns: &[u16],
    order: &[usize],
    at: u16,
) -> Result<(), AllocError>
    requires counts { length columns.now ≡ length units.now }
    requires order { All (λ k. k < length units.now) order.now }
    requires room { at + ordered_columns columns.now order.now ≤ largest_side + 1 }
    ensures { OnOk result (slots.new.items ≡ slots.old.items
        ++ side_by_side at (map (extent_of units.now columns.now) order.now)) }
{
    let mut column = at;
    for number in order {
        let columns = columns[*number];
        slots.push(Slot {
            offset: units[*number].start,
            column,
            columns,
        })?;
        column += columns;
    }
    Ok(())
}

/// Appends the slot of the paragraph's end, which covers no column, if the row is the paragraph's last.
fn push_end(
    slots: &mut Vec<Slot>,
    is_last: bool,
    offset: usize,
    column: u16,
) -> Result<(), AllocError>
    ensures { OnOk result (slots.new.items ≡ slots.old.items
        ++ elim is_last [ true ↦ record { offset = offset; column = column; columns = 0 } ∷ [] | false ↦ [] ]) }
{
    if is_last {
        slots.push(Slot {
            offset,
            column,
            columns: 0,
        })?;
    }
    Ok(())
}

/// A row's slots from left to right. `is_last`: it is the paragraph's last row.
pub(crate) fn row_slots<D: BidiData>(
    alloc: Global,
    row: &RowLayout<'_, '_, D>,
    is_last: bool,
) -> Result<Vec<Slot>, OutOfMemory>
    requires { is_side row.now.lines.w ≡ true }
    ensures { IfOk result (λ v. v.items ≡ row_slots row.now.lines.w (body_row row.now is_last)) }
{
    let w = row.lines.w;
    let len = row.lines.body.len();
    let paragraph = row.lines.levels.paragraph;
    let (columns, used) = unit_columns(alloc, &row.units, w)?;
    let order = visual(alloc, &row.levels)?;
    let mut slots = Vec::with_capacity(alloc, row.units.len() + 1)?;
    if paragraph % 2 == 0 {
        push_units(&mut slots, &row.units, &columns, &order, 1)?;
        push_end(&mut slots, is_last, len, (used + 1).min(w))?;
        return Ok(slots);
    }
    push_end(&mut slots, is_last, len, (w - used).max(1))?;
    push_units(&mut slots, &row.units, &columns, &order, w - used + 1)?;
    Ok(slots)
}
