//! Draws rows of a text, one below another, into a grid, and shows a region in them.
ghost use Rattle.std.specs.Prelude.{◌≡◌, ℕ, ◌<◌, ◌≤◌, ◌++◌, ◌*◌, OnOk, drop, take};
ghost use Rattle.bx_view.specs.TextRef.{Keeps, Stands, StandsOn, rows};
ghost use Rattle.bx_document.specs.Cache.{AreDrawnBy};
ghost use Rattle.bx_document.specs.Drawing.{region_rows};

use crate::region::turn_row;
use crate::row_cache::RowCache;
use bx_common::{OutOfMemory, Range};
use bx_grid::Grid;
use bx_ucd::BidiData;
use bx_view::{RowAt, TextRef, View};

/// What `draw_rows` draws.
#[derive(Clone, Copy)]
pub(crate) struct Page {
    /// The number of the grid's rows to fill, from its first.
    pub(crate) count: u16,
    /// The region, a range of the text's bytes.
    pub(crate) region: Range,
}

/// Fills a page, the first rows of a grid, with the text's rows from `at` on, and with blank rows past the text's end. Shows in
/// the other rendition the columns of units that begin in the region.
///
/// Errors: `OutOfMemory`; some of the rows may be drawn.
pub(crate) fn draw_rows<D: BidiData>(
    view: &mut View,
    text_ref: &TextRef<'_, D>,
    at: RowAt,
    grid: &mut Grid,
    page: Page,
    cache: &mut RowCache,
) -> Result<(), OutOfMemory>
    requires row { Stands text_ref.now view.old at }
    requires some { 0 < page.count }
    requires inside { page.count ≤ grid.old.height }
    requires width { grid.old.width ≡ view.old.w }
    requires cache { AreDrawnBy (D.data text_ref.now.tables.now) cache.old }
    ensures keeps { Keeps text_ref.now view.old view.new }
    ensures drawn { (k : ℕ) → StandsOn text_ref.now view.old at k → OnOk result
        (grid.new ≡ record grid.old {
          columns = region_rows (D.data text_ref.now.tables.now) view.old.w (page.region.start, page.region.stop) page.count
              (take page.count (drop k (rows text_ref.now view.old)))
              ++ drop (page.count * grid.old.width) grid.old.columns;
        }) }
    ensures cache { AreDrawnBy (D.data text_ref.now.tables.now) cache.new }
{
    cache.begin(page.count);
    let mut walk = view.walk_from(text_ref, at);
    let mut here = at;
    let mut row = 0;
    // The label names the loop in its proof.
    'rows: loop {
        cache.put_row(view, text_ref, here, grid, row)?;
        turn_row(view, text_ref, here, grid, row, page.region)?;
        row += 1;
        if row == page.count {
            return Ok(());
        }
        let Some(next) = view.next_row_along(text_ref, &mut walk, here)? else {
            grid.blank_rows(row, page.count);
            return Ok(());
        };
        here = next;
    }
}
