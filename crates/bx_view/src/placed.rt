//! The places of a row of the text.
ghost use Rattle.std.specs.Prelude.{◌≡◌, ◌+◌, ◌-◌, ◌^◌, ◌<◌, ◌≤◌, IfOk, IfSome, find, nat_le, reverse};
ghost use Rattle.bx_paragraph.specs.BodyRows.{last_of};
ghost use Rattle.bx_view.specs.Moves.{place_in};
ghost use Rattle.bx_view.specs.Placed.{placed};
ghost use Rattle.bx_view.specs.TextRows.{places_of};

use bx_common::OutOfMemory;
use bx_paragraph::LayoutRowRef;
use bx_ucd::BidiData;

/// The first of `offsets` at or after an offset.
pub(crate) fn first_from(offsets: &[usize], offset: usize) -> Option<usize>
    ensures { result ≡ find (nat_le offset) offsets.now }
{
    offsets.iter().copied().find(|o| offset <= *o)
}

/// The last of `offsets` at or before an offset.
fn last_at(offsets: &[usize], offset: usize) -> Option<usize>
    ensures { result ≡ find (λ o. nat_le o offset) (reverse offsets.now) }
{
    offsets.iter().rev().copied().find(|o| *o <= offset)
}

/// The place at an offset of the paragraph's body, if there is an offset.
pub fn place_of<D: BidiData>(row: &LayoutRowRef<'_, '_, D>, offset: Option<usize>) -> Option<usize>
    requires { IfSome offset (λ o. row.now.start + o < 2 ^ 64) }
    ensures { result ≡ place_in (placed row.now) offset }
{
    match offset {
        Some(offset) => Some(row.start + offset),
        None => None,
    }
}

/// The last place of the row.
pub fn last_place<D: BidiData>(row: &LayoutRowRef<'_, '_, D>) -> Result<usize, OutOfMemory>
    ensures { IfOk result (λ o. o ≡ row.now.start + last_of (placed row.now).row) }
{
    let offset = row.last()?;
    Ok(row.start + offset)
}

/// The first place of the row at or after an offset.
pub(crate) fn first_place_from<D: BidiData>(
    row: &LayoutRowRef<'_, '_, D>,
    offset: usize,
) -> Result<Option<usize>, OutOfMemory>
    requires { row.now.start ≤ offset }
    ensures { IfOk result (λ o. o ≡ find (nat_le offset) (places_of (placed row.now))) }
{
    let offsets = row.offsets()?;
    let found = first_from(&offsets, offset - row.start);
    Ok(place_of(row, found))
}

/// The last place of the row at or before an offset.
pub(crate) fn last_place_at<D: BidiData>(
    row: &LayoutRowRef<'_, '_, D>,
    offset: usize,
) -> Result<Option<usize>, OutOfMemory>
    requires { row.now.start ≤ offset }
    ensures { IfOk result (λ o. o ≡ find (λ p. nat_le p offset) (reverse (places_of (placed row.now)))) }
{
    let offsets = row.offsets()?;
    let found = last_at(&offsets, offset - row.start);
    Ok(place_of(row, found))
}
