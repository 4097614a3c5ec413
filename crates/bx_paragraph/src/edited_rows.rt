//! The row starts of an edited body, found from a row well before the edit until they meet the old ones.
ghost use Rattle.std.specs.Prelude.{◌≡◌, ◌≤◌, ◌<◌, ◌+◌, ◌^◌, ◌++◌, All, IfSome, OnOk, drop, length, map, take, true};
ghost use Rattle.std.specs.Str.{IsCharBoundary};
ghost use Rattle.bx_common.specs.Characters.{is_side};
ghost use Rattle.bx_rows.specs.LaterRows.{behind};
ghost use Rattle.bx_rows.specs.RowStarts.{row_starts};
ghost use Rattle.bx_paragraph.specs.BodyEdits.{IsEdit, changed};
ghost use Rattle.bx_paragraph.specs.RowEdits.{DoMeetNear, HasRoom};

use crate::body_edit::{BodyEdit, changed_from};
use crate::row_edit::{behind, meeting, push_behind, push_moved, well_before};
use crate::text_edit::joined;
use bx_common::OutOfMemory;
use bx_rows::{RowStart, row_starts};
use bx_ucd::BidiData;

/// The bytes after an edit that a first search covers, per column of the window: four rows of characters of 4 bytes and one
/// column.
const REACH: usize = 16;

/// The start of a text: `REACH` bytes per column of the window, extended to a character boundary.
fn near_text(text: &str, w: u16) -> &str
    ensures near { result.now ≡ take (length result.now) text.now }
    ensures boundary { IsCharBoundary text.now (length result.now) }
{
    let mut at = REACH * usize::from(w);
    while at < text.len() && !text.is_char_boundary(at) {
        at += 1;
    }
    if !text.is_char_boundary(at) {
        return text;
    }
    &text[..at]
}

/// The indexes of a found row and an old row that begin at the same place after the edit, if any meet. `found` are the row starts
/// of a text of `len` bytes in which the edit ends at `shift`; those that the bytes after it could change do not count.
fn meeting_near(
    found: &[RowStart],
    len: usize,
    shift: usize,
    edit: &BodyEdit<'_>,
) -> Option<(usize, usize)>
    ensures { IfSome result (λ r. DoMeetNear edit.now.w len shift edit.now.stop found.now edit.now.starts.now r.0 r.1) }
{
    let last = well_before(found, len, edit.w)?;
    meeting(found, edit.starts, last, shift, edit.stop)
}

/// Appends the row starts of the edited body from `first` on, which is a row start before the edit.
fn push_rest<D: BidiData>(
    starts: &mut Vec<RowStart>,
    first: RowStart,
    edit: &BodyEdit<'_>,
    tables: &D,
) -> Result<(), OutOfMemory>
    requires side { is_side edit.now.w ≡ true }
    requires starts { edit.now.starts.now ≡ row_starts (D.data tables.now) edit.now.w edit.now.body.now }
    requires edit { IsEdit edit.now }
    requires first { IsCharBoundary edit.now.body.now first.offset }
    requires before { first.offset ≤ edit.now.start }
    requires room { All (λ s. HasRoom (behind first s)) (row_starts (D.data tables.now) edit.now.w (drop first.offset (changed edit.now))) }
    ensures { OnOk result (starts.new.items ≡ starts.old.items
        ++ map (behind first) (row_starts (D.data tables.now) edit.now.w (drop first.offset (changed edit.now)))) }
{
    let alloc = *starts.allocator();
    let before = &edit.body[first.offset..edit.start];
    let rest = &edit.body[edit.stop..];
    let near = near_text(rest, edit.w);
    if near.len() < rest.len() {
        let piece = joined(alloc, before, edit.inserted, near)?;
        let text = piece.as_str();
        let found = row_starts(alloc, text, tables, edit.w)?;
        let shift = text.len() - near.len();
        if let Some((i, k)) = meeting_near(&found, text.len(), shift, edit) {
            push_behind(starts, first, &found[..i])?;
            push_moved(
                starts,
                edit.starts[k],
                behind(first, found[i]),
                &edit.starts[k..],
            )?;
            return Ok(());
        }
    }
    let changed = changed_from(alloc, edit, first.offset)?;
    let found = row_starts(alloc, changed.as_str(), tables, edit.w)?;
    push_behind(starts, first, &found)?;
    Ok(())
}

/// Finds the row starts of the edited body and puts them in `starts`, in place of what it had.
pub(crate) fn edited_starts<D: BidiData>(
    starts: &mut Vec<RowStart>,
    edit: &BodyEdit<'_>,
    tables: &D,
) -> Result<(), OutOfMemory>
    requires side { is_side edit.now.w ≡ true }
    requires starts { edit.now.starts.now ≡ row_starts (D.data tables.now) edit.now.w edit.now.body.now }
    requires edit { IsEdit edit.now }
    requires short { length edit.now.body.now + length edit.now.inserted.now < 2 ^ 64 }
    ensures { OnOk result (starts.new.items ≡ row_starts (D.data tables.now) edit.now.w (changed edit.now)) }
{
    starts.clear();
    if let Some(row) = well_before(edit.starts, edit.start, edit.w) {
        let first = edit.starts[row];
        // This always holds; it is tested, so that it needs no proof.
        if first.offset <= edit.start && edit.body.is_char_boundary(first.offset) {
            starts.extend_from_slice(&edit.starts[..row])?;
            push_rest(starts, first, edit, tables)?;
            return Ok(());
        }
    }
    let first = RowStart {
        offset: 0,
        units: 0,
        chars: 0,
    };
    push_rest(starts, first, edit, tables)?;
    Ok(())
}
