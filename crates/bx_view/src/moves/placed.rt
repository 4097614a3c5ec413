//! The places of one row to which moves lead: beside a place, after or before it, at the row's ends, under a column. Places count
//! bytes of the text, offsets bytes of the paragraph's body.
ghost use Rattle.std.specs.Prelude.{◌≡◌, ◌-◌, ◌<◌, ◌≤◌, IfOk, find, nat_lt, reverse};
ghost use Rattle.bx_paragraph.specs.Slots.{beside, reading_end, reading_start, reads_on};
ghost use Rattle.bx_view.specs.Moves.{entry_in, place_in};
ghost use Rattle.bx_view.specs.Placed.{columns, placed};
ghost use Rattle.bx_view.specs.TextRows.{places_of};

use crate::place_of;
use bx_common::OutOfMemory;
use bx_paragraph::{LayoutRowRef, Visual, reading_side};
use bx_ucd::BidiData;

/// The first of `offsets`, which are in order, after an offset.
fn first_after(offsets: &[usize], offset: usize) -> Option<usize>
    ensures { result ≡ find (nat_lt offset) offsets.now }
{
    offsets.iter().copied().find(|o| offset < *o)
}

/// The last of `offsets`, which are in order, before an offset.
fn last_before(offsets: &[usize], offset: usize) -> Option<usize>
    ensures { result ≡ find (λ o. nat_lt o offset) (reverse offsets.now) }
{
    offsets.iter().rev().copied().find(|o| *o < offset)
}

/// The place of the slot next to a place's slot on a side; None if the place has the row's last slot on that side.
pub(crate) fn place_beside<D: BidiData>(
    row: &LayoutRowRef<'_, '_, D>,
    side: Visual,
    place: usize,
) -> Result<Option<usize>, OutOfMemory>
    requires { row.now.start ≤ place }
    ensures { IfOk result (λ o. o ≡ place_in (placed row.now)
        (beside (columns row.now) (placed row.now).row side (place - row.now.start))) }
{
    let offset = row.beside(side, place - row.start)?;
    Ok(place_of(row, offset))
}

/// The place at the reading start of the row.
pub(crate) fn reading_start<D: BidiData>(
    row: &LayoutRowRef<'_, '_, D>,
) -> Result<Option<usize>, OutOfMemory>
    ensures { IfOk result (λ o. o ≡ place_in (placed row.now) (reading_start (columns row.now) (placed row.now).row)) }
{
    let offset = row.reading_start()?;
    Ok(place_of(row, offset))
}

/// The place at the reading end of the row.
pub(crate) fn reading_end<D: BidiData>(
    row: &LayoutRowRef<'_, '_, D>,
) -> Result<Option<usize>, OutOfMemory>
    ensures { IfOk result (λ o. o ≡ place_in (placed row.now) (reading_end (columns row.now) (placed row.now).row)) }
{
    let offset = row.reading_end()?;
    Ok(place_of(row, offset))
}

/// The place at which a vertical move enters the row in a column, from 1: that of the unit that covers it, else the reading end.
pub(crate) fn entry<D: BidiData>(
    row: &LayoutRowRef<'_, '_, D>,
    column: u16,
) -> Result<Option<usize>, OutOfMemory>
    ensures { IfOk result (λ o. o ≡ entry_in (columns row.now) (placed row.now) column) }
{
    let offset = row.entry(column)?;
    Ok(place_of(row, offset))
}

/// Whether the row's paragraph is read toward a side.
#[tactic(auto, using(bx_paragraph::proofs::LayoutRows::row_level))]
pub(crate) fn reads_on<D: BidiData>(row: &LayoutRowRef<'_, '_, D>, side: Visual) -> bool
    ensures { result ≡ reads_on side (placed row.now).row }
{
    side == reading_side(row.paragraph.level())
}

/// The first place of the row after a place; None if the place is the row's last.
pub(crate) fn first_place_after<D: BidiData>(
    row: &LayoutRowRef<'_, '_, D>,
    place: usize,
) -> Result<Option<usize>, OutOfMemory>
    requires { row.now.start ≤ place }
    ensures { IfOk result (λ o. o ≡ find (nat_lt place) (places_of (placed row.now))) }
{
    let offsets = row.offsets()?;
    let found = first_after(&offsets, place - row.start);
    Ok(place_of(row, found))
}

/// The last place of the row before a place; None if the place is the row's first.
pub(crate) fn last_place_before<D: BidiData>(
    row: &LayoutRowRef<'_, '_, D>,
    place: usize,
) -> Result<Option<usize>, OutOfMemory>
    requires { row.now.start ≤ place }
    ensures { IfOk result (λ o. o ≡ find (λ p. nat_lt p place) (reverse (places_of (placed row.now)))) }
{
    let offsets = row.offsets()?;
    let found = last_before(&offsets, place - row.start);
    Ok(place_of(row, found))
}
