//! Shows a region in a drawn row: turns the columns of its units to the other rendition.
ghost use Rattle.std.specs.Prelude.{◌≡◌, ◌<◌, All, OnOk};
ghost use Rattle.bx_view.specs.TextRef.{OfRow, Stands};
ghost use Rattle.bx_document.specs.Drawing.{region_columns, row_columns};
ghost use Rattle.bx_document.specs.Shown.{with_rows};
ghost use Rattle.bx_document.specs.RegionSlots.{IsSpan, row_in, turned_slots};

use bx_common::{OutOfMemory, Range};
use bx_grid::Grid;
use bx_paragraph::Slot;
use bx_ucd::BidiData;
use bx_view::{RowAt, TextRef, View};

/// Turns the columns of slots in row `row` of a grid to the other rendition. Rows count from 0.
fn turn_slots(grid: &mut Grid, row: u16, slots: &[Slot])
    requires inside { row < grid.old.height }
    requires spans { All (IsSpan (row_in grid.old row)) slots.now }
    ensures { grid.new ≡ with_rows grid.old row (turned_slots slots.now (row_in grid.old row)) }
{
    for slot in slots {
        // A slot counts columns from 1, `turn` from 0.
        grid.turn(row, slot.column - 1, slot.columns);
    }
}

/// Shows the columns of the region's units in the other rendition, in row `row` of a grid, which shows row `at` of the text.
/// Rows of the grid count from 0.
pub(crate) fn turn_row<D: BidiData>(
    view: &View,
    text_ref: &TextRef<'_, D>,
    at: RowAt,
    grid: &mut Grid,
    row: u16,
    region: Range,
) -> Result<(), OutOfMemory>
    requires at { Stands text_ref.now view.now at }
    requires inside { row < grid.old.height }
    requires drawn { OfRow text_ref.now view.now at (λ r. row_in grid.old row ≡ row_columns (D.data text_ref.now.tables.now) view.now.w r) }
    ensures { OfRow text_ref.now view.now at (λ r.
        OnOk result (grid.new ≡ with_rows grid.old row (region_columns (D.data text_ref.now.tables.now) view.now.w (region.start, region.stop) r))) }
{
    let slots = view.slots_in(text_ref, at, region)?;
    turn_slots(grid, row, &slots);
    Ok(())
}
