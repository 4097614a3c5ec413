//! Whole rows of a grid: puts one from another grid, and blanks some, where a new picture is made on the page of an older
//! one.

ghost use Rattle.std.specs.Prelude.{List, ◌≡◌, ◌+◌, ◌-◌, ◌*◌, ◌≤◌, ◌<◌, ◌++◌, length, take, drop, replicate, OnOk, OnErr};
ghost use Rattle.bx_grid.specs.Columns.{Col, blank};
ghost use Rattle.bx_grid.specs.Grid.{AreSameAround, paste};
ghost use Rattle.bx_grid.specs.Seen.{all_seen};

use crate::codes::note_codes;
use crate::column::Column;
use crate::columns::fill_blank;
use crate::grid::Grid;
use crate::grid_row_ref::GridRowRef;
use bx_common::OutOfMemory;
use std::alloc::{AllocError, Global};

impl Grid {
    /// The row of a grid that has no other.
    fn only_row(&self) -> GridRowRef<'_>
        requires one { self.now.height ≡ 1 }
        ensures row { result ≡ self.now.columns }
        ensures filled { length self.now.columns ≡ self.now.width }
    {
        self.row(0)
    }

    /// Replaces a row, counted from 0, by the only row of a grid of the same width. A row that looks the same already is not
    /// written.
    ///
    /// Errors: `OutOfMemory`, and the row is blank.
    pub fn put_row(&mut self, row: u16, new: &Grid) -> Result<(), OutOfMemory>
        requires inside { row < self.old.height }
        requires one { new.now.height ≡ 1 }
        requires width { new.now.width ≡ self.old.width }
        ensures ok { OnOk result (self.new ≡ record self.old { columns = paste self.old.columns (row * self.old.width) new.now.columns }) }
        ensures err { OnErr result (self.new ≡ record self.old {
          columns = paste self.old.columns (row * self.old.width) (replicate self.old.width blank);
        }) }
        ensures filled { length new.now.columns ≡ self.old.width }
        ensures sized { length self.old.columns ≡ self.old.height * self.old.width }
    {
        if self.row(row).is_same(&new.only_row()) {
            return Ok(());
        }
        let alloc = *self.columns.allocator();
        let start = row as usize * self.width as usize;
        let stop = start + self.width as usize;
        match put_copies(alloc, self.columns.as_mut_slice(), start, &new.columns) {
            Ok(()) => {
                put_codes(self.codes.as_mut_slice(), start, &new.codes);
                Ok(())
            }
            Err(_) => {
                note_codes(self.codes.as_mut_slice(), &self.columns, start, stop);
                Err(OutOfMemory)
            }
        }
    }

    /// Blanks the rows `from..to`, counted from 0. Allocates nothing.
    pub fn blank_rows(&mut self, from: u16, to: u16)
        requires order { from ≤ to }
        requires inside { to ≤ self.old.height }
        ensures { self.new ≡ record self.old {
          columns = paste self.old.columns (from * self.old.width) (replicate ((to - from) * self.old.width) blank);
        } }
    {
        let start = from as usize * self.width as usize;
        let stop = to as usize * self.width as usize;
        fill_blank(self.columns.as_mut_slice(), start, stop);
        note_codes(self.codes.as_mut_slice(), &self.columns, start, stop);
    }
}

/// Copies the columns `others[at..]` over `columns`, where `others[0]` belongs at the index `from`, up to the first where
/// the old or the new one has a text on the heap or is unknown. Returns that one's index in `others`.
// Not inlined, so that this loop stays apart from the code that allocates.
#[inline(never)]
fn copy_short(columns: &mut [Column], from: usize, others: &[Column], at: usize) -> usize
    requires inside { from + length others.now ≤ length columns.old }
    requires order { at ≤ length others.now }
    ensures least { at ≤ result }
    ensures most { result ≤ length others.now }
    ensures put { (start : List Col) → from + length others.now ≤ length start
        → all_seen columns.old ≡ paste start from (all_seen (take at others.now))
        → all_seen columns.new ≡ paste start from (all_seen (take result others.now)) }
{
    for i in at..others.len() {
        if !columns[from + i].set_short(&others[i]) {
            return i;
        }
    }
    others.len()
}

/// Copies `others` over the columns from the index `from` on. If memory runs out, some of these are written, and nothing else.
fn copy_over(
    alloc: Global,
    columns: &mut [Column],
    from: usize,
    others: &[Column],
) -> Result<(), AllocError>
    requires inside { from + length others.now ≤ length columns.old }
    ensures ok { OnOk result (all_seen columns.new ≡ paste (all_seen columns.old) from (all_seen others.now)) }
    ensures err { OnErr result (AreSameAround from (length others.now) (all_seen columns.old) (all_seen columns.new)) }
{
    let mut next = copy_short(columns, from, others, 0);
    while next < others.len() {
        columns[from + next] = others[next].copy(alloc)?;
        next = copy_short(columns, from, others, next + 1);
    }
    Ok(())
}

/// Copies `others` over the columns from the index `from` on. If memory runs out, all of these are blanks.
fn put_copies(
    alloc: Global,
    columns: &mut [Column],
    from: usize,
    others: &[Column],
) -> Result<(), AllocError>
    requires inside { from + length others.now ≤ length columns.old }
    ensures ok { OnOk result (all_seen columns.new ≡ paste (all_seen columns.old) from (all_seen others.now)) }
    ensures err { OnErr result (all_seen columns.new ≡ paste (all_seen columns.old) from (replicate (length others.now) blank)) }
{
    let copied = copy_over(alloc, columns, from, others);
    if copied.is_err() {
        fill_blank(columns, from, from + others.len());
    }
    copied
}

/// Copies the codes `others` over those from the index `from` on.
fn put_codes(codes: &mut [u64], from: usize, others: &[u64])
    requires { from + length others.now ≤ length codes.old }
    ensures { codes.new ≡ take from codes.old ++ others.now ++ drop (from + length others.now) codes.old }
{
    codes[from..from + others.len()].copy_from_slice(others);
}
