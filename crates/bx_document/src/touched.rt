//! The place after an edit, found in the cached paragraph or in a copy of the paragraphs that the edit touches.
ghost use Rattle.std.specs.Prelude.{◌≡◌, ◌≤◌, ◌<◌, ◌+◌, true, IfOk, IsCharBoundary, OnOk, length, string_bytes};
ghost use Rattle.bx_common.specs.Characters.{is_side};
ghost use Rattle.bx_text.specs.index.Paragraphs.{lengths};
ghost use Rattle.bx_text.specs.Edits.{fits, splice};
ghost use Rattle.bx_text.specs.Changes.{IsRange};
ghost use Rattle.bx_view.specs.FoundRow.{rows_by};
ghost use Rattle.bx_view.specs.Caching.{IsViewBy, Keeps};
ghost use Rattle.bx_view.specs.Moves.{place_at, place_from};
ghost use Rattle.bx_view.specs.Places.{IsTextPlace};
ghost use Rattle.bx_view.specs.TextRef.{bytes};
ghost use Rattle.bx_document.specs.Touched.{touched, touched_start, touched_stop};

use bx_common::OutOfMemory;
use bx_text::{Index, Text};
use bx_ucd::BidiData;
use bx_view::{TextRef, View};
use std::alloc::Global;
use std::ops::Range;

/// The start of the paragraph that contains the byte before an offset; 0 for offset 0. Allocates nothing.
fn start_before<D: BidiData>(text_ref: &TextRef<'_, D>, start: usize) -> usize
    requires bounds { IsCharBoundary (bytes text_ref.now) start }
    ensures start { result ≡ touched_start (D.data text_ref.now.tables.now) (bytes text_ref.now) start }
    ensures range { IsRange (bytes text_ref.now) result start }
{
    text_ref.index.span_at(start.saturating_sub(1)).start
}

/// The end of the paragraph that an offset falls in, its separator included. Allocates nothing.
pub(crate) fn stop_after<D: BidiData>(text_ref: &TextRef<'_, D>, stop: usize) -> usize
    requires bounds { IsCharBoundary (bytes text_ref.now) stop }
    ensures stop { result ≡ touched_stop (D.data text_ref.now.tables.now) (bytes text_ref.now) stop }
    ensures range { IsRange (bytes text_ref.now) stop result }
{
    let walk = text_ref.index.walk_at_offset(stop);
    walk.span().stop + walk.separator()
}

/// The offset at which the paragraphs begin that an edit touches, and a copy of their text as it is after the edit, which
/// replaces the bytes from `start` to `stop` with `new`.
fn touched<D: BidiData>(
    text_ref: &TextRef<'_, D>,
    start: usize,
    stop: usize,
    new: &str,
) -> Result<(usize, String), OutOfMemory>
    requires range { IsRange (bytes text_ref.now) start stop }
    ensures start { IfOk result (λ w. w.0 ≡ touched_start (D.data text_ref.now.tables.now) (bytes text_ref.now) start) }
    ensures order { IfOk result (λ w. w.0 ≤ start) }
    ensures text { IfOk result (λ w. string_bytes w.1 ≡ touched (D.data text_ref.now.tables.now) (bytes text_ref.now) start stop new.now) }
{
    let first = start_before(text_ref, start);
    let last = stop_after(text_ref, stop);
    // All four ends are between characters, so only memory can run out.
    let Ok(mut characters) = text_ref.text.copy_range(first, start) else {
        return Err(OutOfMemory);
    };
    let Ok(rest) = text_ref.text.copy_range(stop, last) else {
        return Err(OutOfMemory);
    };
    characters.push_str(new)?;
    characters.push_str(rest.as_str())?;
    Ok((first, characters))
}

/// A text by itself, and the index of it.
fn opened<D: BidiData>(
    alloc: Global,
    characters: String,
    tables: &D,
) -> Result<(Text, Index), OutOfMemory>
    ensures text { IfOk result (λ o. o.0.edited.text ≡ string_bytes characters) }
    ensures paragraphs { IfOk result (λ o. o.1.paragraphs ≡ lengths (D.data tables.now) o.0.edited.text) }
{
    let Ok(text) = Text::open(alloc, characters) else {
        return Err(OutOfMemory);
    };
    let index = Index::build(alloc, &text, tables)?;
    Ok((text, index))
}

/// The first place at or after an offset of the text in which `new` has replaced a range of bytes. The offset is in `new`, or at
/// its start or end. A copy of the touched paragraphs is laid out.
pub(crate) fn place_inside<D: BidiData>(
    alloc: Global,
    text_ref: &TextRef<'_, D>,
    view: &mut View,
    range: Range<usize>,
    new: &str,
    offset: usize,
) -> Result<usize, OutOfMemory>
    requires data { IsViewBy (D.data text_ref.now.tables.now) view.old }
    requires range { IsRange (bytes text_ref.now) range.start range.end }
    requires fits { fits (bytes text_ref.now) range.start range.end new.now ≡ true }
    requires inside { (range.start ≤ offset) × (offset ≤ range.start + length new.now) }
    ensures keeps { Keeps (D.data text_ref.now.tables.now) view.old view.new }
    ensures place { IfOk result (λ o. o ≡ place_from
        (rows_by (D.data text_ref.now.tables.now) view.old
        (splice (bytes text_ref.now) range.start range.end new.now)) offset) }
    ensures text_place { IfOk result (IsTextPlace (D.data text_ref.now.tables.now)
        (splice (bytes text_ref.now) range.start range.end new.now)) }
    ensures side { OnOk result (is_side view.old.w ≡ true) }
{
    let (first, characters) = touched(text_ref, range.start, range.end, new)?;
    // The copy is no longer than the text after the edit, so it is not too long.
    let (text, index) = opened(alloc, characters, text_ref.tables)?;
    let copy = TextRef::of(&text, &index, text_ref.tables);
    let place = view.place_from(&copy, offset - first)?;
    Ok(first + place)
}

/// The last place at or before an offset of the text in which `new` has replaced a range of bytes. The offset is at or after
/// the end of `new`, before the end of the touched paragraphs, of which a copy is laid out.
pub(crate) fn place_at_inside<D: BidiData>(
    alloc: Global,
    text_ref: &TextRef<'_, D>,
    view: &mut View,
    range: Range<usize>,
    new: &str,
    offset: usize,
) -> Result<usize, OutOfMemory>
    requires data { IsViewBy (D.data text_ref.now.tables.now) view.old }
    requires range { IsRange (bytes text_ref.now) range.start range.end }
    requires fits { fits (bytes text_ref.now) range.start range.end new.now ≡ true }
    requires behind { range.start + length new.now ≤ offset }
    requires inside { offset + range.end < touched_stop (D.data text_ref.now.tables.now) (bytes text_ref.now) range.end + range.start + length new.now }
    ensures keeps { Keeps (D.data text_ref.now.tables.now) view.old view.new }
    ensures place { IfOk result (λ o. o ≡ place_at
        (rows_by (D.data text_ref.now.tables.now) view.old
        (splice (bytes text_ref.now) range.start range.end new.now)) offset) }
    ensures text_place { IfOk result (IsTextPlace (D.data text_ref.now.tables.now)
        (splice (bytes text_ref.now) range.start range.end new.now)) }
{
    let (first, characters) = touched(text_ref, range.start, range.end, new)?;
    // The copy is no longer than the text after the edit, so it is not too long.
    let (text, index) = opened(alloc, characters, text_ref.tables)?;
    let copy = TextRef::of(&text, &index, text_ref.tables);
    let place = view.place_at(&copy, offset - first)?;
    Ok(first + place)
}

/// The place after a pending edit that replaces the bytes of a range with `new`. If one cached paragraph contains the range,
/// the edit is made in it; otherwise a copy of the touched paragraphs is laid out.
pub(crate) fn place_after<D: BidiData>(
    alloc: Global,
    text_ref: &TextRef<'_, D>,
    view: &mut View,
    range: Range<usize>,
    new: &str,
) -> Result<usize, OutOfMemory>
    requires data { IsViewBy (D.data text_ref.now.tables.now) view.old }
    requires range { IsRange (bytes text_ref.now) range.start range.end }
    requires fits { fits (bytes text_ref.now) range.start range.end new.now ≡ true }
    ensures keeps { Keeps (D.data text_ref.now.tables.now) view.old view.new }
    ensures place { IfOk result (λ o. o ≡ place_from
        (rows_by (D.data text_ref.now.tables.now) view.old
        (splice (bytes text_ref.now) range.start range.end new.now)) (range.start + length new.now)) }
    ensures text_place { IfOk result (IsTextPlace (D.data text_ref.now.tables.now)
        (splice (bytes text_ref.now) range.start range.end new.now)) }
    ensures order { IfOk result (λ o. range.start + length new.now ≤ o) }
{
    if let Some(place) = view.edit(text_ref, range.start, range.end, new)? {
        return Ok(place);
    }
    let offset = range.start + new.len();
    // The proof refers to the place by this name.
    let place = place_inside(alloc, text_ref, view, range, new, offset)?;
    Ok(place)
}
