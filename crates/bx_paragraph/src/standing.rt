//! The position of a place in its row, for the cursor and the status row.
ghost use Rattle.std.specs.Prelude.{◌≡◌, IfOk, count_by, nat_lt};
ghost use Rattle.bx_paragraph.specs.LayoutRowRef.{row};
ghost use Rattle.bx_paragraph.specs.Slots.{column_of};

use crate::layout_row_ref::LayoutRowRef;
use crate::reading::column_in;
use bx_common::OutOfMemory;
use bx_rows::Unit;
use bx_ucd::BidiData;

/// The position of a place in its row.
#[derive(Clone, Copy)]
pub struct Standing {
    /// The leftmost column, from 1, of the slot at the place; 1 if there is none.
    pub column: u16,
    /// The number of the row's units that begin before the place.
    pub units_before: usize,
}

/// The number of units that begin before an offset.
fn count_before(units: &[Unit], offset: usize) -> usize
    ensures { result ≡ count_by (λ u. nat_lt u.start offset) units.now }
{
    units.iter().filter(|u| u.start < offset).count()
}

impl<'a, 't, D: BidiData> LayoutRowRef<'a, 't, D> {
    /// The position in the row of the place at an offset of the body, in bytes.
    pub fn standing(&self, offset: usize) -> Result<Standing, OutOfMemory>
        ensures column { IfOk result (λ s. s.column ≡ column_of self.now.paragraph.now.w (row self.now) offset) }
        ensures units { IfOk result (λ s. s.units_before ≡ count_by (λ u. nat_lt u.start offset) (row self.now).units) }
    {
        let (row, slots) = self.laid_slots()?;
        Ok(Standing {
            column: column_in(&slots, offset),
            units_before: count_before(&row.units, offset),
        })
    }
}
