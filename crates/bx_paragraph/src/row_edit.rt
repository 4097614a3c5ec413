//! Rows before an edit that stay, and rows after it that meet the old ones: a row found in the edited text begins where an old row
//! began, as seen from the edit's end, and from there on all rows are the old ones.
ghost use Rattle.std.specs.Prelude.{◌≡◌, ◌≤◌, ◌<◌, ◌+◌, ◌++◌, All, IfSome, OnOk, length, map, true};
ghost use Rattle.bx_rows.specs.LaterRows.{behind, moved};
ghost use Rattle.bx_paragraph.specs.RowEdits.{DoMeet, HasRoom, IsSamePlace, IsWellBefore};

use bx_rows::RowStart;
use std::alloc::AllocError;

/// Whether the row `first` begins more than `w` units before the row `row`.
fn is_ahead(first: RowStart, row: RowStart, w: u16) -> bool
    ensures { result ≡ true → first.units + w < row.units }
{
    row.units.saturating_sub(first.units) > usize::from(w)
}

/// The number of rows that begin before an offset, in bytes.
fn count_before(starts: &[RowStart], offset: usize) -> usize
    ensures { result ≤ length starts.now }
{
    starts.partition_point(|s| s.offset < offset)
}

/// The index of a row well before an offset: the text from the offset on cannot change the starts of the rows up to it.
pub(crate) fn well_before(starts: &[RowStart], offset: usize, w: u16) -> Option<usize>
    ensures { IfSome result (IsWellBefore w offset starts.now) }
{
    let row = count_before(starts, offset).saturating_sub(1);
    if row >= starts.len() || starts[row].offset >= offset {
        return None;
    }
    let mut k = row;
    while k > 0 {
        k -= 1;
        if is_ahead(starts[k], starts[row], w) {
            return Some(k);
        }
    }
    None
}

/// Whether the row `new` begins as many bytes after the offset `shift`, where the edit ends in its text, as the row `old` after
/// `stop`, where it ends in the old body.
fn is_same_place(new: RowStart, old: RowStart, shift: usize, stop: usize) -> bool
    ensures { result ≡ true → IsSamePlace shift stop new old }
{
    if new.offset < shift {
        return false;
    }
    if old.offset < stop {
        return false;
    }
    new.offset - shift == old.offset - stop
}

/// The indexes of a found row, at most `last`, and of an old row (of `starts`) that begin at the same place after an edit, if any
/// do. The edit ends at the byte offset `shift` in the text of the found rows, and at `stop` in the old body.
pub(crate) fn meeting(
    found: &[RowStart],
    starts: &[RowStart],
    last: usize,
    shift: usize,
    stop: usize,
) -> Option<(usize, usize)>
    requires { last < length found.now }
    ensures { IfSome result (λ r. DoMeet shift stop found.now starts.now last r.0 r.1) }
{
    let mut i = count_before(found, shift);
    let mut k = count_before(starts, stop);
    while i <= last {
        if k >= starts.len() {
            return None;
        }
        if is_same_place(found[i], starts[k], shift, stop) {
            return Some((i, k));
        }
        if found[i].offset.saturating_sub(shift) < starts[k].offset.saturating_sub(stop) {
            i += 1;
        } else {
            k += 1;
        }
    }
    None
}

/// The start in a body of a row whose `start` is relative to the start `first`.
pub(crate) fn behind(first: RowStart, start: RowStart) -> RowStart
    requires { HasRoom (behind first start) }
    ensures { result ≡ behind first start }
{
    RowStart {
        offset: first.offset + start.offset,
        units: first.units + start.units,
        chars: first.chars + start.chars,
    }
}

/// The start of the row that is as far after `new` as `start` is after `old`.
fn moved(old: RowStart, new: RowStart, start: RowStart) -> RowStart
    requires { HasRoom (moved old new start) }
    ensures { result ≡ moved old new start }
{
    RowStart {
        offset: new.offset + start.offset.saturating_sub(old.offset),
        units: new.units + start.units.saturating_sub(old.units),
        chars: new.chars + start.chars.saturating_sub(old.chars),
    }
}

/// Appends rows whose starts are relative to `first`.
pub(crate) fn push_behind(
    starts: &mut Vec<RowStart>,
    first: RowStart,
    rest: &[RowStart],
) -> Result<(), AllocError>
    requires { All (λ s. HasRoom (behind first s)) rest.now }
    ensures { OnOk result (starts.new.items ≡ starts.old.items ++ map (behind first) rest.now) }
{
    starts.reserve(rest.len())?;
    for start in rest {
        starts.push_reserved(behind(first, *start));
    }
    Ok(())
}

/// Appends the rows `rest`, moved so that they begin as far after `new` as they did after `old`.
pub(crate) fn push_moved(
    starts: &mut Vec<RowStart>,
    old: RowStart,
    new: RowStart,
    rest: &[RowStart],
) -> Result<(), AllocError>
    requires { All (λ s. HasRoom (moved old new s)) rest.now }
    ensures { OnOk result (starts.new.items ≡ starts.old.items ++ map (moved old new) rest.now) }
{
    starts.reserve(rest.len())?;
    for start in rest {
        starts.push_reserved(moved(old, new, *start));
    }
    Ok(())
}
