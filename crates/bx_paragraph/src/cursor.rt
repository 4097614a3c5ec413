//! The cursor's places in a row, and the moves among them.
ghost use Rattle.std.specs.Prelude.{◌≡◌, ◌++◌, ◌∷◌, [], true, false, IfOk, map};
ghost use Rattle.bx_paragraph.specs.BodyRows.{last_of, offsets_of};
ghost use Rattle.bx_paragraph.specs.LayoutRowRef.{row};
ghost use Rattle.bx_paragraph.specs.Slots.{beside, covering, entry, or_else};
ghost use Rattle.bx_paragraph.specs.Slots.{reading_end, reading_start, slot_offsets, toward};

use crate::layout_row_ref::LayoutRowRef;
use crate::moves::{Visual, opposite, reading_side};
use crate::reading::{covering_in, first_in, last_offset, next_in, offsets_toward};
use bx_common::OutOfMemory;
use bx_rows::Unit;
use bx_ucd::BidiData;
use std::alloc::{AllocError, Global};

/// The start of each unit.
fn unit_offsets(alloc: Global, units: &[Unit]) -> Result<Vec<usize>, AllocError>
    ensures { IfOk result (λ v. v.items ≡ map (λ u. u.start) units.now) }
{
    units.iter().map(|u| u.start).collect(alloc)
}

/// The offsets of a row's places, from its units. The body has `len` bytes.
fn place_offsets(
    alloc: Global,
    units: &[Unit],
    is_last: bool,
    len: usize,
) -> Result<Vec<usize>, AllocError>
    ensures { IfOk result (λ v. v.items ≡ map (λ u. u.start) units.now ++ elim is_last [ true ↦ len ∷ [] | false ↦ [] ]) }
{
    let mut offsets = unit_offsets(alloc, units)?;
    if is_last {
        offsets.push(len)?;
    }
    Ok(offsets)
}

impl<'a, 't, D: BidiData> LayoutRowRef<'a, 't, D> {
    /// The offsets of the row's places in text order, in bytes of the body: the start of each unit, and in the last row the
    /// body's end.
    #[tactic(auto, using(crate::proofs::LayoutRowRefs::lent_offsets))]
    pub fn offsets(&self) -> Result<Vec<usize>, OutOfMemory>
        ensures { IfOk result (λ v. v.items ≡ offsets_of (row self.now)) }
    {
        // The places of a row do not depend on its levels, so its units are enough.
        let alloc = self.paragraph.allocator();
        let len = self.paragraph.body().len();
        let units = self.paragraph.lines(self.tables).units(alloc, self.number)?;
        Ok(place_offsets(alloc, &units, self.is_last(), len)?)
    }

    /// The offset of the row's last place: the body's end in the last row, else the start of the row's last unit.
    pub fn last(&self) -> Result<usize, OutOfMemory>
        ensures { IfOk result (λ o. o ≡ last_of (row self.now)) }
    {
        let offsets = self.offsets()?;
        Ok(last_offset(&offsets))
    }

    /// The offsets of the row's slots in the order of a move to a side.
    fn toward(&self, side: Visual) -> Result<Vec<usize>, OutOfMemory>
        ensures { IfOk result (λ v. v.items ≡ toward side (slot_offsets self.now.paragraph.now.w (row self.now))) }
    {
        let slots = self.slots()?;
        Ok(offsets_toward(*slots.allocator(), &slots, side)?)
    }

    /// The offset of the row's slot next to the slot at `offset` on a side, if there is one.
    pub fn beside(&self, side: Visual, offset: usize) -> Result<Option<usize>, OutOfMemory>
        ensures { IfOk result (λ o. o ≡ beside self.now.paragraph.now.w (row self.now) side offset) }
    {
        let offsets = self.toward(side)?;
        Ok(next_in(&offsets, offset))
    }

    /// The offset of the slot at the row's reading start: the leftmost at level 0, the rightmost at level 1.
    #[tactic(auto, using(crate::proofs::LayoutRows::row_level))]
    pub fn reading_start(&self) -> Result<Option<usize>, OutOfMemory>
        ensures { IfOk result (λ o. o ≡ reading_start self.now.paragraph.now.w (row self.now)) }
    {
        let offsets = self.toward(reading_side(self.paragraph.level()))?;
        Ok(first_in(&offsets))
    }

    /// The offset of the slot at the row's reading end: the rightmost at level 0, the leftmost at level 1.
    #[tactic(auto, using(crate::proofs::LayoutRows::row_level))]
    pub fn reading_end(&self) -> Result<Option<usize>, OutOfMemory>
        ensures { IfOk result (λ o. o ≡ reading_end self.now.paragraph.now.w (row self.now)) }
    {
        let side = opposite(reading_side(self.paragraph.level()));
        let offsets = self.toward(side)?;
        Ok(first_in(&offsets))
    }

    /// The offset at which the row is entered in a column, from 1: the unit that covers it, else the row's reading end.
    #[tactic(auto, using(crate::proofs::LayoutRows::row_level))]
    pub fn entry(&self, column: u16) -> Result<Option<usize>, OutOfMemory>
        ensures { IfOk result (λ o. o ≡ entry self.now.paragraph.now.w (row self.now) column) }
    {
        let slots = self.slots()?;
        if let Some(offset) = covering_in(&slots, column) {
            return Ok(Some(offset));
        }
        let side = opposite(reading_side(self.paragraph.level()));
        let offsets = offsets_toward(*slots.allocator(), &slots, side)?;
        Ok(first_in(&offsets))
    }
}
