//! The rows of a text by their numbers, the slots of a row, and the top: with these calls `bx_view` serves by itself as a
//! library. The editor does not run them: it goes from row to row by `RowAt`, and asks `locate` once for each picture.
ghost use Rattle.std.specs.Prelude.{◌≡◌, ℕ, ◌+◌, ◌^◌, ◌<◌, ◌≤◌, true, All, IfOk, IsUtf8, length, map, option_map, slice_get, slice_range};
ghost use Rattle.std.specs.Str.{IsCharBoundary};
ghost use Rattle.bx_common.specs.Characters.{is_side};
ghost use Rattle.bx_common.specs.declared.base.Base.{Base};
ghost use Rattle.bx_text.specs.Edits.{largest_text};
ghost use Rattle.bx_text.specs.Changes.{IsRange};
ghost use Rattle.bx_text.specs.index.Paragraphs.{lengths};
ghost use Rattle.bx_rows.specs.RowStarts.{row_starts};
ghost use Rattle.bx_view.specs.Places.{IsTextPlace};
ghost use Rattle.bx_view.specs.TextRef.{IsViewBy, Keeps, body_at, bytes, count, rows, start_at};
ghost use Rattle.bx_view.specs.Standing.{rows_ahead};
ghost use Rattle.bx_view.specs.TextRows.{first, row_at, row_of, slots};
ghost use Rattle.bx_view.specs.Top.{follow};

use bx_common::OutOfMemory;
use bx_paragraph::Slot;
use bx_rows::{RowStart, row_starts};
use bx_text::ParagraphWalk;
use bx_ucd::BidiData;
use bx_view::{TextRef, View, current_span};
use std::alloc::{AllocError, Global};

/// The row starts of the walk's current paragraph in a window of `w` columns, as offsets of its body.
fn starts_in<D: BidiData>(
    alloc: Global,
    text_ref: &TextRef<'_, D>,
    walk: &ParagraphWalk<'_>,
    w: u16,
) -> Result<Vec<RowStart>, OutOfMemory>
    requires walk { walk.now.paragraphs ≡ lengths (D.data text_ref.now.tables.now) (bytes text_ref.now) }
    requires number { walk.now.number < count text_ref.now }
    ensures { IfOk result (λ v. v.items ≡ row_starts (D.data text_ref.now.tables.now) w (body_at text_ref.now walk.now.number)) }
{
    let span = current_span(text_ref, walk);
    let Ok(body) = text_ref.text.copy_range(span.start, span.stop) else {
        return Err(OutOfMemory);
    };
    // The proof refers to the row starts by this name.
    let starts = row_starts(alloc, body.as_str(), text_ref.tables, w)?;
    Ok(starts)
}

/// The number of rows of the paragraphs before paragraph `number`, from 0, in a window of `w` columns.
fn rows_before<D: BidiData>(
    alloc: Global,
    text_ref: &TextRef<'_, D>,
    w: u16,
    number: usize,
) -> Result<usize, OutOfMemory>
    requires side { is_side w ≡ true }
    requires number { number ≤ count text_ref.now }
    ensures { IfOk result (λ n. (base : Base) → n ≡ rows_ahead (D.data text_ref.now.tables.now) base w (bytes text_ref.now) number) }
{
    let mut walk = text_ref.index.walk_at(0, 0);
    let mut ahead = 0;
    let mut done = 0;
    while done < number {
        let starts = starts_in(alloc, text_ref, &walk, w)?;
        ahead += starts.len();
        let _more = walk.to_next();
        done += 1;
    }
    Ok(ahead)
}

/// The offsets of slots in the text, in which their body begins at the offset `start`.
fn in_text(alloc: Global, start: usize, slots: &[Slot]) -> Result<Vec<usize>, AllocError>
    requires { All (λ s. start + s.offset < 2 ^ 64) slots.now }
    ensures { IfOk result (λ v. v.items ≡ map (λ o. start + o) (map (λ s. s.offset) slots.now)) }
{
    let mut offsets = Vec::with_capacity(alloc, slots.len())?;
    for slot in slots {
        offsets.push(start + slot.offset)?;
    }
    Ok(offsets)
}

/// The number of the text's rows. Wraps the whole text and caches none of it.
pub fn row_count<D: BidiData>(
    alloc: Global,
    view: &View,
    text_ref: &TextRef<'_, D>,
) -> Result<usize, OutOfMemory>
    ensures { IfOk result (λ n. n ≡ length (rows text_ref.now view.now)) }
{
    let count = text_ref.index.count();
    // The proof refers to the number by this name.
    let rows = rows_before(alloc, text_ref, view.width(), count)?;
    Ok(rows)
}

/// The number, from 0, of the row that an offset of the text falls in. Wraps the paragraphs before it.
pub fn row_of<D: BidiData>(
    alloc: Global,
    view: &mut View,
    text_ref: &TextRef<'_, D>,
    offset: usize,
) -> Result<usize, OutOfMemory>
    requires data { IsViewBy text_ref.now view.old }
    ensures keeps { Keeps text_ref.now view.old view.new }
    ensures row { IfOk result (λ n. n ≡ row_of (rows text_ref.now view.old) offset) }
{
    let at = view.row_at(text_ref, offset)?;
    let w = view.width();
    let ahead = rows_before(alloc, text_ref, w, at.paragraph)?;
    Ok(ahead + at.row)
}

/// The first offset of row `row`, from 0; None if the text has fewer rows. Wraps the paragraphs up to it.
pub fn first<D: BidiData>(
    alloc: Global,
    view: &View,
    text_ref: &TextRef<'_, D>,
    row: usize,
) -> Result<Option<usize>, OutOfMemory>
    ensures { IfOk result (λ o. o ≡ option_map first (slice_get (rows text_ref.now view.now) row)) }
{
    let w = view.width();
    let count = text_ref.index.count();
    let mut walk = text_ref.index.walk_at(0, 0);
    let mut left = row;
    let mut done = 0;
    while done < count {
        let starts = starts_in(alloc, text_ref, &walk, w)?;
        if left < starts.len() {
            let span = current_span(text_ref, &walk);
            return Ok(Some(span.start + starts[left].offset));
        }
        left -= starts.len();
        let _more = walk.to_next();
        done += 1;
    }
    Ok(None)
}

/// The places of the row that a place falls in, in visual order from left to right.
pub fn slots<D: BidiData>(
    view: &mut View,
    text_ref: &TextRef<'_, D>,
    place: usize,
) -> Result<Vec<usize>, OutOfMemory>
    requires data { IsViewBy text_ref.now view.old }
    ensures keeps { Keeps text_ref.now view.old view.new }
    ensures slots { IfOk result (λ v. v.items
        ≡ slots view.old.w (row_at (rows text_ref.now view.old) (row_of (rows text_ref.now view.old) place))) }
{
    let at = view.row_at(text_ref, place)?;
    let row = view.row(text_ref, at);
    let slots = row.slots()?;
    Ok(in_text(*slots.allocator(), row.start, &slots)?)
}

/// The offset of the top row after scrolling `t` visible rows, from the row of the offset `top`, by the fewest rows that
/// make the row of `place` visible.
pub fn follow<D: BidiData>(
    view: &mut View,
    text_ref: &TextRef<'_, D>,
    top: usize,
    place: usize,
    t: usize,
) -> Result<usize, OutOfMemory>
    requires data { IsViewBy text_ref.now view.old }
    requires some { 0 < t }
    ensures keeps { Keeps text_ref.now view.old view.new }
    ensures top { IfOk result (λ o. o ≡ follow (rows text_ref.now view.old) top place t) }
    ensures text_place { IfOk result (IsTextPlace (D.data text_ref.now.tables.now) (bytes text_ref.now)) }
    ensures boundary { IfOk result (λ o. IsCharBoundary (bytes text_ref.now) o) }
{
    let located = view.locate(text_ref, top, place, t)?;
    Ok(view.first_in(text_ref, located.top))
}
