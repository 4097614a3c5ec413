//! A cache of drawn rows, from which rows that are shown again are copied.
ghost use Rattle.std.specs.Prelude.{◌≡◌, ◌*◌, ◌<◌, [], length, HoldsAt, IfSome, IsTrue, OnOk};
ghost use Rattle.bx_ucd.specs.Data.{Data};
ghost use Rattle.bx_view.specs.TextRef.{OfRow, Stands};
ghost use Rattle.bx_document.specs.Cache.{AreDrawnBy, HoldsRow, IsDrawnBy, IsRowOf};
ghost use Rattle.bx_document.specs.Drawing.{row_columns};
ghost use Rattle.bx_document.specs.Shown.{with_rows};

use crate::drawing::draw_row;
use bx_common::{Base, OutOfMemory};
use bx_grid::Grid;
use bx_ucd::BidiData;
use bx_view::{RowAt, TextRef, View};
use std::alloc::{AllocError, Global};
use std::marker::Model;

// The greatest length, in bytes, of a body whose rows are cached. Each entry has a copy of the body, and there are at most two
// for each row of the window, 1,000 in the largest: 16 MB.
const LARGEST_BODY: usize = 16_384;

/// An entry of the cache: a drawn row, and all that determines its columns except Unicode's tables.
#[derive(Drop)]
struct Entry {
    /// The body of the row's paragraph.
    body: String,
    /// The base direction under which the body is laid out.
    base: Base,
    /// The number of the row in the body, from 0.
    number: usize,
    /// The row, alone in a grid of the window's width.
    grid: Grid,
}

impl Model for Entry {
    ghost use Rattle.std.specs.Prelude.{string_bytes};
    ghost use Rattle.bx_document.specs.Cache.{EntryState};

    ghost Value = { EntryState };

    ghost view = { λ e. record { body = string_bytes e.body; base = e.base; number = e.number; grid = e.grid } };
}

/// A cache of drawn rows. A row's columns depend only on the rest of its entry and Unicode's tables, so no edit invalidates an
/// entry. The rows of the latest page, those that `draw_rows` fills, come first, each at its number in the page, from 0, if all
/// before it could be cached. After them come rows of earlier pages, at most as many again.
#[derive(Drop)]
pub(crate) struct RowCache {
    entries: Vec<Entry>,
    // the number of rows of the latest page
    page: usize,
}

impl Model for RowCache {
    ghost use Rattle.std.specs.Prelude.{List};
    ghost use Rattle.bx_document.specs.Cache.{EntryState};

    ghost Value = { List EntryState };

    ghost view = { λ c. c.entries.items };
}

impl Entry {
    /// Whether the entry is for row `number` of the body, under this base direction, in `width` columns. Allocates nothing.
    fn is_of(&self, body: &str, base: Base, number: usize, width: u16) -> bool
        ensures { IsTrue result → IsRowOf body.now base number width self.now }
    {
        self.number == number
            && self.base == base
            && self.grid.width() == width
            && self.body.as_str() == body
    }
}

/// Whether there is an entry at index `i` and it is for this row. Allocates nothing.
fn is_kept(entries: &[Entry], i: usize, body: &str, base: Base, number: usize, width: u16) -> bool
    ensures { IsTrue result → HoldsRow body.now base number width entries.now i }
{
    i < entries.len() && entries[i].is_of(body, base, number, width)
}

/// The index of the first entry for this row, from index `start` on. Allocates nothing.
fn position(
    entries: &[Entry],
    start: usize,
    body: &str,
    base: Base,
    number: usize,
    width: u16,
) -> Option<usize>
    ensures { IfSome result (HoldsRow body.now base number width entries.now) }
{
    for i in start..entries.len() {
        if is_kept(entries, i, body, base, number, width) {
            return Some(i);
        }
    }
    None
}

/// Swaps the entries at the indexes `i` and `at` if `at` is lower and there is an entry at `i`.
fn bring(entries: &mut Vec<Entry>, i: usize, at: usize)
    ensures { (d : Data) → AreDrawnBy d entries.old.items → AreDrawnBy d entries.new.items }
{
    if at < i && i < entries.len() {
        entries.swap(at, i);
    }
}

/// Stores an entry at index `at`, or at the end if the cache is shorter. The one that it displaces moves to index `after`, past
/// the page, and replaces the one there, or to the end if there is none.
fn put_in(entries: &mut Vec<Entry>, at: usize, after: usize, new: Entry) -> Result<(), AllocError>
    ensures { (d : Data) → AreDrawnBy d entries.old.items → IsDrawnBy d new → AreDrawnBy d entries.new.items }
{
    if after < entries.len() {
        entries[after] = new;
        bring(entries, after, at);
        return Ok(());
    }
    entries.push(new)?;
    let last = entries.len() - 1;
    bring(entries, last, at);
    Ok(())
}

impl RowCache {
    /// An empty cache. Allocates nothing.
    pub(crate) fn new(alloc: Global) -> RowCache
        ensures { result ≡ [] }
    {
        RowCache {
            entries: Vec::new(alloc),
            page: 0,
        }
    }

    /// Begins a page of `count` rows, and evicts entries beyond twice that number. Allocates nothing.
    pub(crate) fn begin(&mut self, count: u16)
        ensures { (d : Data) → AreDrawnBy d self.old → AreDrawnBy d self.new }
    {
        self.page = usize::from(count);
        self.entries.truncate(2 * usize::from(count));
    }

    /// The allocator of the entries and of what they own.
    fn allocator(&self) -> Global {
        *self.entries.allocator()
    }

    /// The index of the entry for a row, searched from `at`, the row's number in the page, on: entries before it are of rows
    /// above. Allocates nothing.
    fn find(&self, at: u16, body: &str, base: Base, number: usize, width: u16) -> Option<usize>
        ensures { IfSome result (HoldsRow body.now base number width self.now) }
    {
        position(&self.entries, at as usize, body, base, number, width)
    }

    /// The grid of the cached row at index `i`.
    fn grid(&self, i: usize) -> &Grid
        requires { i < length self.now }
        ensures { HoldsAt (λ e. result.now ≡ e.grid) self.now i }
    {
        let entry = &self.entries[i];
        &entry.grid
    }

    /// Moves the cached row at index `i` to index `at`, its number in the page. Allocates nothing.
    fn bring(&mut self, i: usize, at: u16)
        ensures { (d : Data) → AreDrawnBy d self.old → AreDrawnBy d self.new }
    {
        bring(&mut self.entries, i, at as usize);
    }

    /// Caches a drawn row at index `at`, its number in the page, unless its body is too long or memory runs out.
    fn keep(&mut self, body: &str, base: Base, number: usize, grid: Grid, at: u16)
        ensures { (d : Data) → AreDrawnBy d self.old
            → IsDrawnBy d (record { body = body.now; base = base; number = number; grid = grid }) → AreDrawnBy d self.new }
    {
        if body.len() > LARGEST_BODY {
            return;
        }
        let Ok(body) = String::from_str(self.allocator(), body) else {
            return;
        };
        let new = Entry {
            body,
            base,
            number,
            grid,
        };
        let at = usize::from(at);
        let after = at.saturating_add(self.page);
        let _kept = put_in(&mut self.entries, at, after, new);
    }

    /// Puts the row `at` of the text into row `row`, from 0, of a grid and of the page. A cached row is copied; any other is
    /// drawn and cached.
    pub(crate) fn put_row<D: BidiData>(
        &mut self,
        view: &View,
        text_ref: &TextRef<'_, D>,
        at: RowAt,
        grid: &mut Grid,
        row: u16,
    ) -> Result<(), OutOfMemory>
        requires row { Stands text_ref.now view.now at }
        requires inside { row < grid.old.height }
        requires width { grid.old.width ≡ view.now.w }
        requires cache { AreDrawnBy (D.data text_ref.now.tables.now) self.old }
        ensures drawn { OfRow text_ref.now view.now at (λ r.
            OnOk result (grid.new ≡ with_rows grid.old row (row_columns (D.data text_ref.now.tables.now) view.now.w r))) }
        ensures filled { OfRow text_ref.now view.now at (λ r.
            OnOk result (length (row_columns (D.data text_ref.now.tables.now) view.now.w r) ≡ view.now.w)) }
        ensures sized { OnOk result (length grid.old.columns ≡ grid.old.height * grid.old.width) }
        ensures cache { AreDrawnBy (D.data text_ref.now.tables.now) self.new }
    {
        let (body, number) = view.row_in_body(text_ref, at);
        let base = view.base();
        let width = view.width();
        if let Some(i) = self.find(row, body, base, number, width) {
            grid.put_row(row, self.grid(i))?;
            self.bring(i, row);
            return Ok(());
        }
        let new = draw_row(self.allocator(), view, text_ref, at)?;
        grid.put_row(row, &new)?;
        self.keep(body, base, number, new, row);
        Ok(())
    }
}
