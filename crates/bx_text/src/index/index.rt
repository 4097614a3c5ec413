//! The index of a text's paragraphs, which follows edits.

ghost use Rattle.std.specs.Prelude.{◌≡◌, ℕ, ◌+◌, ◌-◌, ◌<◌, ◌≤◌, ◌++◌, ◌∷◌, List, [], None, Some, length};
ghost use Rattle.std.specs.Prelude.{take, drop, slice_get, min, IsUtf8, IfOk, OnOk, OnErr, MatchOption};
ghost use Rattle.bx_text.specs.Edits.{largest_text};
ghost use Rattle.bx_text.specs.Changes.{IsChange};
ghost use Rattle.bx_text.specs.Text.{HasRoomFor};
ghost use Rattle.bx_text.specs.index.Paragraphs.{lengths, paragraph_of, spans, total};
ghost use Rattle.bx_text.specs.index.Index.{CoversBytes, IndexState, separator_count};
ghost use Rattle.bx_text.specs.index.Flat.{flat};
ghost use Rattle.bx_text.specs.index.Spots.{closed};
ghost use Rattle.bx_text.specs.index.Touched.{IsTouched};
ghost use Rattle.bx_text.specs.index.ScanRanges.{IsScanRange};

use crate::index::block::BLOCK_CAPACITY;
use crate::index::blocks::Blocks;
use crate::index::lead_bytes::lead_bytes_of;
use crate::index::paragraph_span::ParagraphSpan;
use crate::index::rescan::replace;
use crate::index::scan::paragraph_from;
use crate::index::scan_range::{ScanRange, range_to_end};
use crate::index::scanned_text::ScannedText;
use crate::index::text_span::TextSpan;
use crate::index::walk::ParagraphWalk;
use crate::{Change, Text};
use bx_common::{LARGEST_TEXT, OutOfMemory};
use bx_ucd::BidiData;
use std::alloc::Global;
use std::marker::Model;

/// The length in bytes of each paragraph of a text: of its body, and of the separator that ends it. It stores lengths in
/// blocks, and no offsets, so an edit changes only the paragraphs that it touches.
#[derive(Drop)]
pub struct Index {
    // the paragraphs that end with a separator
    front: Blocks,
    // length in bytes of the last paragraph, which has no separator
    last: u32,
    // the separators that the next edit can add with no allocation; None: no room was made
    room: Option<usize>,
}

impl Model for Index {
    ghost use Rattle.bx_text.specs.index.Index.{IndexState, IsIndex, index_of};

    ghost Value = { IndexState };

    ghost view = { index_of };

    ghost invariant = { IsIndex };
}

/// The old paragraphs at the edges of a change: the one with the byte before it, and the one that the text after it begins in.
/// `front` has the old text's paragraphs but the last, which has `last` bytes; `text` is the new text.
fn touched<D: BidiData>(
    front: &Blocks,
    last: u32,
    text: &Text,
    tables: &D,
    change: &Change,
) -> (ParagraphSpan, ParagraphSpan)
    requires was { (old : List ℕ)
        × IsUtf8 old
        × (closed front.now.blocks last ≡ lengths (D.data tables.now) old)
        × IsChange old change.now text.now.edited.text }
    requires short { total (closed front.now.blocks last) ≤ largest_text }
    ensures { (old : List ℕ)
        × IsTouched (D.data tables.now) old change.now text.now.edited.text (flat front.now.blocks)
        (record { body = last; separator = 0 }) result.0 result.1 }
{
    // `len` promises that the text is UTF-8. Only the contract names the tables.
    let _utf8 = text.len();
    let _ = tables;
    let first = front.find(change.start.saturating_sub(1));
    let last = front.find(change.start + change.removed);
    (first, last)
}

/// The offset up to which the paragraph `first`, the one with the byte before a change, has no separator, at most the start of
/// the change.
fn quiet_until(first: ParagraphSpan, change: &Change) -> usize
    ensures { MatchOption first.end (result ≡ change.now.start) (λ e. result ≡ min change.now.start (e - first.separator)) }
{
    match first.end {
        None => change.start,
        Some(end) => change.start.min(end.saturating_sub(first.separator)),
    }
}

/// Lengths of the rest of the paragraph `last`, in which the text after a change begins: of its body, and of its separator.
/// The change ended at `offset` in the old text, and `left` bytes follow it.
fn rest_behind(last: ParagraphSpan, offset: usize, left: usize) -> (usize, usize)
    ensures { MatchOption last.end (result ≡ (left, 0)) (λ e. result ≡ (e - last.separator - offset, min last.separator (e - offset))) }
{
    match last.end {
        None => (left, 0),
        Some(end) => {
            let stop = end.saturating_sub(last.separator);
            let separator = last.separator.min(end.saturating_sub(offset));
            (stop.saturating_sub(offset), separator)
        }
    }
}

/// The range to scan after a change; `reached` is what `touched` gives for the other arguments.
fn range_after<D: BidiData>(
    front: &Blocks,
    last: u32,
    text: &Text,
    tables: &D,
    change: &Change,
    reached: (ParagraphSpan, ParagraphSpan),
) -> ScanRange
    requires touched { (old : List ℕ)
        × IsTouched (D.data tables.now) old change.now text.now.edited.text (flat front.now.blocks)
        (record { body = last; separator = 0 }) reached.0 reached.1 }
    requires short { total (closed front.now.blocks last) ≤ largest_text }
    ensures { IsScanRange (D.data tables.now) text.now.edited.text reached.0.start result }
{
    // Only the contract names the old paragraphs and the tables.
    let _ = front;
    let _ = tables;
    let _last = last;
    let len = text.len();
    let stop = change.start + change.added;
    let (body, separator) = rest_behind(reached.1, change.start + change.removed, len - stop);
    ScanRange {
        start: quiet_until(reached.0, change),
        stop,
        body,
        separator,
    }
}

impl Index {
    /// Builds the index of a text.
    pub fn build<D: BidiData>(alloc: Global, text: &Text, tables: &D) -> Result<Index, OutOfMemory>
        ensures { IfOk result (λ i. i ≡ record { paragraphs = lengths (D.data tables.now) text.now.edited.text; room = None }) }
    {
        let len = text.len();
        let mut front = Blocks::new(alloc);
        // The position among the blocks after the last paragraph, and the offset of the next.
        let mut position = 0;
        let mut at = 0;
        let mut range = range_to_end(text, at);
        let lead_bytes = lead_bytes_of(tables, len);
        while at < len {
            let paragraph = paragraph_from(text, tables, &lead_bytes, at, range);
            if paragraph.separator == 0 {
                return Ok(Index {
                    front,
                    last: paragraph.body,
                    room: None,
                });
            }
            front.make_spares(1)?;
            position = front.push(position, paragraph);
            at += paragraph.bytes();
            range.start = at;
        }
        Ok(Index {
            front,
            last: 0,
            room: None,
        })
    }

    /// Makes room: after Ok the index follows an edit without an allocation if the added text has at most this number of
    /// separators. [`separating`] counts them, and no text has more of them than bytes, so a count of bytes suffices too. The
    /// edit frees the rest of the room.
    ///
    /// Errors: `OutOfMemory`, and the index and the room made before are unchanged.
    pub fn ready(&mut self, separators: usize) -> Result<(), OutOfMemory>
        ensures paragraphs { self.new.paragraphs ≡ self.old.paragraphs }
        ensures ok { OnOk result (self.new.room ≡ Some separators) }
        ensures bytes { OnOk result (CoversBytes self.new.room separators) }
        ensures err { OnErr result (self.new ≡ self.old) }
    {
        // Four more: two for the blocks that an edit splits, two for what the quotient drops and for two more paragraphs.
        let blocks = separators.min(LARGEST_TEXT) / BLOCK_CAPACITY + 4;
        self.front.make_spares(blocks)?;
        self.room = Some(separators);
        Ok(())
    }

    /// Updates the index after an edit of the text. Reads only the added text and the bytes next to it. Allocates nothing and
    /// always succeeds: the caller has the index of the text before the change, by the same tables, and `ready` made room for
    /// the added separators.
    pub fn edited<D: BidiData>(&mut self, text: &Text, tables: &D, change: &Change)
        requires was { (old : List ℕ)
            × IsUtf8 old
            × (self.old.paragraphs ≡ lengths (D.data tables.now) old)
            × IsChange old change.now text.now.edited.text }
        requires room { HasRoomFor self.old.room
            (separator_count (D.data tables.now) (take change.now.added (drop change.now.start text.now.edited.text))) }
        ensures { self.new ≡ record { paragraphs = lengths (D.data tables.now) text.now.edited.text; room = None } }
    {
        let len = text.len();
        let reached = touched(&self.front, self.last, text, tables, change);
        let range = range_after(&self.front, self.last, text, tables, change, reached);
        let lead_bytes = lead_bytes_of(tables, range.stop.saturating_sub(range.start));
        let scanned = ScannedText {
            text,
            tables,
            lead_bytes: &lead_bytes,
        };
        let (first, last) = reached;
        if let Some(end) = last.end {
            // The end of the last touched paragraph in the new text.
            let behind = end - change.removed + change.added;
            replace(
                &mut self.front,
                &scanned,
                first,
                last.number + 1,
                behind,
                range,
            );
            self.room = None;
            return;
        }
        // The text's last paragraph is touched: what follows the last separator is the new last one.
        let at = replace(&mut self.front, &scanned, first, last.number, len, range);
        self.last = (len - at) as u32;
        self.room = None;
    }

    /// Number of paragraphs of the text, at least one.
    pub fn count(&self) -> usize
        ensures count { result ≡ length self.now.paragraphs }
        ensures some { 0 < result }
    {
        self.front.size().0 + 1
    }

    /// The body of the paragraph that an offset in bytes falls in, which is the last that begins at or before it. Takes one search.
    pub fn span_at(&self, offset: usize) -> TextSpan
        ensures number { result.number ≡ paragraph_of self.now.paragraphs offset }
        ensures span { slice_get (spans self.now.paragraphs) result.number ≡ Some (result.start, result.stop) }
    {
        let span = self.front.find(offset);
        let Some(end) = span.end else {
            return TextSpan {
                number: span.number,
                start: span.start,
                stop: span.start + self.last as usize,
            };
        };
        TextSpan {
            number: span.number,
            start: span.start,
            stop: end - span.separator,
        }
    }

    /// The body of paragraph `number`, from 0.
    pub fn span(&self, number: usize) -> TextSpan
        requires { number < length self.now.paragraphs }
        ensures number { result.number ≡ number }
        ensures span { slice_get (spans self.now.paragraphs) number ≡ Some (result.start, result.stop) }
    {
        match self.front.get(number) {
            Some((start, paragraph)) => TextSpan {
                number,
                start,
                stop: start + paragraph.body as usize,
            },
            None => {
                let start = self.front.size().1;
                TextSpan {
                    number,
                    start,
                    stop: start + self.last as usize,
                }
            }
        }
    }

    /// A walk at the paragraph `number`, from 0, which begins at the offset `start`.
    pub fn walk_at(&self, number: usize, start: usize) -> ParagraphWalk<'_>
        requires inside { number < length self.now.paragraphs }
        requires begins { start ≡ total (take number self.now.paragraphs) }
        ensures { result ≡ record { paragraphs = self.now.paragraphs; number = number } }
    {
        ParagraphWalk::new(&self.front, self.last, number, start)
    }

    /// A walk at the paragraph that an offset in bytes falls in.
    pub fn walk_at_offset(&self, offset: usize) -> ParagraphWalk<'_>
        ensures { result ≡ record { paragraphs = self.now.paragraphs; number = paragraph_of self.now.paragraphs offset } }
    {
        let span = self.front.find(offset);
        ParagraphWalk::new(&self.front, self.last, span.number, span.start)
    }
}
