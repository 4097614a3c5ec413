//! Replaces the paragraphs that an edit touched by those scanned from the new text.

ghost use Rattle.std.specs.Prelude.{◌≡◌, ◌++◌, ◌+◌, ◌*◌, ◌<◌, ◌≤◌, ◌^◌, length, take, drop, IsCharBoundary};
ghost use Rattle.bx_text.specs.index.Capacity.{block_capacity};
ghost use Rattle.bx_text.specs.index.Paragraphs.{total};
ghost use Rattle.bx_text.specs.index.Ended.{ended_between};
ghost use Rattle.bx_text.specs.index.Flat.{flat, room_at};
ghost use Rattle.bx_text.specs.index.ScanRanges.{IsScanRange};

use crate::index::blocks::Blocks;
use crate::index::paragraph_span::ParagraphSpan;
use crate::index::scan::paragraph_from;
use crate::index::scan_range::ScanRange;
use crate::index::scanned_text::ScannedText;
use bx_ucd::BidiData;

/// Scans paragraphs from `start` and inserts at a position among the blocks those that end with a separator at or before
/// `stop`. Reads no text outside the range. Returns the position after them and the offset where the last of them ends.
fn insert_scanned<D: BidiData>(
    blocks: &mut Blocks,
    position: usize,
    scanned: &ScannedText<'_, D>,
    start: usize,
    stop: usize,
    range: ScanRange,
) -> (usize, usize)
    requires bounds { IsCharBoundary scanned.now.text.now.edited.text start }
    requires range { IsScanRange (D.data scanned.now.tables.now) scanned.now.text.now.edited.text start range }
    requires position { position ≤ length blocks.old.blocks }
    requires room { length (ended_between (D.data scanned.now.tables.now) scanned.now.text.now.edited.text start stop) ≤ room_at blocks.old position }
    requires short { total (flat blocks.old.blocks) + total (ended_between (D.data scanned.now.tables.now) scanned.now.text.now.edited.text start stop) < 2 ^ 64 }
    requires few { length (flat blocks.old.blocks) + length (ended_between (D.data scanned.now.tables.now) scanned.now.text.now.edited.text start stop) < 2 ^ 64 }
    ensures position { result.0 ≤ length blocks.new.blocks }
    ensures front { flat (take result.0 blocks.new.blocks)
        ≡ flat (take position blocks.old.blocks) ++ ended_between (D.data scanned.now.tables.now) scanned.now.text.now.edited.text start stop }
    ensures back { flat (drop result.0 blocks.new.blocks) ≡ flat (drop position blocks.old.blocks) }
    ensures stop { result.1 ≡ start + total (ended_between (D.data scanned.now.tables.now) scanned.now.text.now.edited.text start stop) }
{
    let mut position = position;
    let mut at = start;
    let mut range = range;
    while at < stop {
        let paragraph = paragraph_from(scanned.text, scanned.tables, scanned.lead_bytes, at, range);
        if paragraph.separator == 0 || paragraph.bytes() > stop - at {
            return (position, at);
        }
        position = blocks.push(position, paragraph);
        at += paragraph.bytes();
        range.start = at;
    }
    (position, at)
}

/// Replaces the paragraphs from `from` up to the one with the number `to`, which stays, by those scanned from the text: the ones
/// that begin at `from.start` or later and end with a separator at or before `stop`. Returns the offset where the last of them
/// ends. Frees spare blocks.
pub(crate) fn replace<D: BidiData>(
    blocks: &mut Blocks,
    scanned: &ScannedText<'_, D>,
    from: ParagraphSpan,
    to: usize,
    stop: usize,
    range: ScanRange,
) -> usize
    requires bounds { IsCharBoundary scanned.now.text.now.edited.text from.start }
    requires range { IsScanRange (D.data scanned.now.tables.now) scanned.now.text.now.edited.text from.start range }
    requires order { from.number ≤ to }
    requires inside { to ≤ length (flat blocks.old.blocks) }
    requires room { 2 * block_capacity + length (ended_between (D.data scanned.now.tables.now) scanned.now.text.now.edited.text from.start stop)
        ≤ block_capacity * blocks.old.spares }
    requires short { total (flat blocks.old.blocks) + total (ended_between (D.data scanned.now.tables.now) scanned.now.text.now.edited.text from.start stop) < 2 ^ 64 }
    requires few { length (flat blocks.old.blocks) + length (ended_between (D.data scanned.now.tables.now) scanned.now.text.now.edited.text from.start stop) < 2 ^ 64 }
    ensures paragraphs { flat blocks.new.blocks
        ≡ take from.number (flat blocks.old.blocks)
        ++ (ended_between (D.data scanned.now.tables.now) scanned.now.text.now.edited.text from.start stop ++ drop to (flat blocks.old.blocks)) }
    ensures stop { result ≡ from.start + total (ended_between (D.data scanned.now.tables.now) scanned.now.text.now.edited.text from.start stop) }
{
    let position = blocks.take_out(from.number, to);
    let (position, at) = insert_scanned(blocks, position, scanned, from.start, stop, range);
    blocks.join(position);
    blocks.release();
    at
}
