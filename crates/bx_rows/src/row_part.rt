//! The units of one row, read from its start, with no other row read.
ghost use Rattle.std.specs.Prelude.{◌≡◌, ◌≤◌, ◌<◌, All, IfOk, IfSome, length, slice_get};
ghost use Rattle.bx_rows.specs.cells.UnitFacts.{StandsIn};
ghost use Rattle.bx_rows.specs.Lines.{ShowsFace, units_at};
ghost use Rattle.bx_rows.specs.RowStarts.{most_units};
ghost use Rattle.bx_rows.specs.Shown.{IsRowOf};

use crate::cells::{Unit, UnitRange, units_from};
use crate::lines::Lines;
use crate::start_search::RowStart;
use bx_common::OutOfMemory;
use bx_ucd::BidiData;
use std::alloc::Global;

/// The start of row `number`, if there is one.
pub(crate) fn start_of(starts: &[RowStart], number: usize) -> Option<RowStart>
    ensures { result ≡ slice_get starts.now number }
{
    starts.get(number).copied()
}

/// An upper bound of the unit count of the row from `start` to `next`, which is None for the last row.
pub(crate) fn most_units(start: RowStart, next: Option<RowStart>, body: &str, w: u16) -> usize
    requires { IfSome next (λ n. start.units ≤ n.units) }
    ensures { result ≡ most_units w body.now start next }
{
    if w == 0 {
        return 0;
    }
    match next {
        Some(next) => next.units - start.units,
        None => body.len(),
    }
}

impl<'a, 't, D: BidiData> Lines<'a, 't, D> {
    /// The units of row `number`, from 0. Offsets are bytes of the body. Reads no other row.
    pub fn units(&self, alloc: Global, number: usize) -> Result<Vec<Unit>, OutOfMemory>
        requires { number < length self.now.starts.now }
        ensures units { IfOk result (λ v. v.items ≡ units_at self.now number) }
        ensures stand { IfOk result (λ v. All (StandsIn self.now.body.now) v.items) }
        ensures faces { IfOk result (λ v. All (ShowsFace self.now) v.items) }
        ensures row { IfOk result (λ v. IsRowOf self.now.w v.items (record { start = 0; stop = length v.items })) }
    {
        let start = self.starts[number];
        let count = most_units(start, start_of(self.starts, number + 1), self.body, self.w);
        let range = UnitRange {
            start: start.offset,
            count,
        };
        // The proof compares the units, so they have a name.
        let units = units_from(alloc, self.body, range, self.tables, self.w)?;
        Ok(units)
    }
}
