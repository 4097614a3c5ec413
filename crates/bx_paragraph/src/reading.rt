//! Look-ups in the slots of a row and in their offsets, which count bytes of the body.
ghost use Rattle.std.specs.Prelude.{◌≡◌, IfOk, map};
ghost use Rattle.bx_paragraph.specs.BodyRows.{last_offset};
ghost use Rattle.bx_paragraph.specs.Slots.{column_in, covering_in, covers, first_in, next_in, toward};

use crate::moves::Visual;
use crate::slots::Slot;
use std::alloc::{AllocError, Global};

/// The offsets of slots.
fn offsets_of_slots(alloc: Global, slots: &[Slot]) -> Result<Vec<usize>, AllocError>
    ensures { IfOk result (λ v. v.items ≡ map (λ s. s.offset) slots.now) }
{
    slots.iter().map(|s| s.offset).collect(alloc)
}

/// The offsets of slots, given from left to right, in the order of a move to a side.
pub(crate) fn offsets_toward(
    alloc: Global,
    slots: &[Slot],
    side: Visual,
) -> Result<Vec<usize>, AllocError>
    ensures { IfOk result (λ v. v.items ≡ toward side (map (λ s. s.offset) slots.now)) }
{
    let mut offsets = offsets_of_slots(alloc, slots)?;
    match side {
        Visual::Right => Ok(offsets),
        Visual::Left => {
            offsets.reverse();
            Ok(offsets)
        }
    }
}

/// The first offset, if there is one.
pub(crate) fn first_in(offsets: &[usize]) -> Option<usize>
    ensures { result ≡ first_in offsets.now }
{
    offsets.first().copied()
}

/// The last offset, or 0 if there is none.
#[tactic(auto, using(crate::proofs::Offsets::last_is, crate::proofs::Offsets::last_none))]
pub(crate) fn last_offset(offsets: &[usize]) -> usize
    ensures { result ≡ last_offset offsets.now }
{
    if offsets.is_empty() {
        return 0;
    }
    offsets[offsets.len() - 1]
}

/// The offset that follows a given one in a list; `None` after the last.
#[tactic(auto, using(crate::proofs::Offsets::next_here, crate::proofs::Offsets::next_behind, crate::proofs::Offsets::next_none))]
pub(crate) fn next_in(offsets: &[usize], offset: usize) -> Option<usize>
    ensures { result ≡ next_in offset offsets.now }
{
    let mut i = 0;
    while i < offsets.len() {
        if offsets[i] == offset {
            return first_in(&offsets[i + 1..]);
        }
        i += 1;
    }
    None
}

/// The leftmost column, from 1, of the slot at an offset, or 1 if there is none.
pub(crate) fn column_in(slots: &[Slot], offset: usize) -> u16
    ensures { result ≡ column_in slots.now offset }
{
    slots
        .iter()
        .find(|s| s.offset == offset)
        .map_or(1, |s| s.column)
}

/// Whether a slot covers a column.
fn covers(slot: Slot, column: u16) -> bool
    ensures { result ≡ covers column slot }
{
    slot.column <= column && column - slot.column < slot.columns
}

/// The offset of the slot that covers a column.
pub(crate) fn covering_in(slots: &[Slot], column: u16) -> Option<usize>
    ensures { result ≡ covering_in slots.now column }
{
    slots.iter().find(|s| covers(**s, column)).map(|s| s.offset)
}
