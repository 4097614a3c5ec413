//! A walk over the paragraphs of a text, from one to its neighbours, with no search.

ghost use Rattle.std.specs.Prelude.{◌≡◌, ℕ, ◌+◌, ◌-◌, ◌<◌, ◌≤◌, Some, length, nat_lt, slice_get, take, if◌then◌else◌};
ghost use Rattle.bx_text.specs.Edits.{largest_text};
ghost use Rattle.bx_text.specs.index.Flat.{flat};
ghost use Rattle.bx_text.specs.index.Paragraphs.{spans, total};
ghost use Rattle.bx_text.specs.index.Walk.{separators};
ghost use Rattle.bx_text.specs.index.Spots.{closed};

use crate::index::blocks::Blocks;
use crate::index::lengths::Lengths;
use crate::index::spot::{Spot, next_spot, paragraph_at, previous_spot, spot_of};
use crate::index::text_span::TextSpan;
use std::marker::Model;

/// A walk over the paragraphs of a text. It goes from one to the next or the previous one, at a cost that does not grow
/// with the text, and allocates nothing.
#[derive(Drop)]
pub struct ParagraphWalk<'a> {
    blocks: &'a Blocks,
    // length in bytes of the text's last paragraph
    last: u32,
    // where the paragraph is stored that the walk is at
    spot: Spot,
    // offset of the paragraph's start
    start: usize,
    // the paragraph's lengths
    here: Lengths,
}

impl<'a> Model for ParagraphWalk<'a> {
    ghost use Rattle.bx_text.specs.index.Walk.{IsWalk, WalkState, walk_of};

    ghost Value = { WalkState };

    ghost view = { walk_of };

    ghost invariant = { IsWalk };
}

impl<'a> ParagraphWalk<'a> {
    /// A walk at the paragraph `number`, which begins at the offset `start`. The last paragraph has `last` bytes.
    pub(crate) fn new(
        blocks: &'a Blocks,
        last: u32,
        number: usize,
        start: usize,
    ) -> ParagraphWalk<'a>
        requires inside { number ≤ length (flat blocks.now.blocks) }
        requires begins { start ≡ total (take number (closed blocks.now.blocks last)) }
        requires short { total (closed blocks.now.blocks last) ≤ largest_text }
        ensures { result ≡ record { paragraphs = closed blocks.now.blocks last; number = number } }
    {
        let spot = spot_of(blocks, number);
        ParagraphWalk {
            blocks,
            last,
            spot,
            start,
            here: paragraph_at(blocks, last, spot),
        }
    }

    /// The number of the paragraph, from 0.
    pub fn number(&self) -> usize
        ensures number { result ≡ self.now.number }
        ensures inside { self.now.number < length self.now.paragraphs }
    {
        self.spot.number
    }

    /// The body of the paragraph.
    pub fn span(&self) -> TextSpan
        ensures number { result.number ≡ self.now.number }
        ensures span { slice_get (spans self.now.paragraphs) self.now.number ≡ Some (result.start, result.stop) }
    {
        TextSpan {
            number: self.spot.number,
            start: self.start,
            stop: self.start + self.here.body as usize,
        }
    }

    /// Length in bytes of the separator that ends the paragraph, 0 for the text's last.
    pub fn separator(&self) -> usize
        ensures { slice_get (separators self.now.paragraphs) self.now.number ≡ Some result }
    {
        self.here.separator as usize
    }

    /// Goes to the next paragraph, and returns whether there is one. Stays at the last one.
    pub fn to_next(&mut self) -> bool
        ensures paragraphs { self.new.paragraphs ≡ self.old.paragraphs }
        ensures there { result ≡ nat_lt (self.old.number + 1) (length self.old.paragraphs) }
        ensures number { self.new.number ≡ (if result then self.old.number + 1 else self.old.number) }
    {
        match next_spot(self.blocks, self.spot) {
            None => false,
            Some(spot) => {
                self.start += self.here.bytes();
                self.here = paragraph_at(self.blocks, self.last, spot);
                self.spot = spot;
                true
            }
        }
    }

    /// Goes to the previous paragraph, and returns whether there is one. Stays at the first one.
    pub fn to_previous(&mut self) -> bool
        ensures paragraphs { self.new.paragraphs ≡ self.old.paragraphs }
        ensures there { result ≡ nat_lt 0 self.old.number }
        ensures number { self.new.number ≡ self.old.number - 1 }
    {
        match previous_spot(self.blocks, self.spot) {
            None => false,
            Some(spot) => {
                // First the lengths: the start goes back by the new paragraph's.
                self.here = paragraph_at(self.blocks, self.last, spot);
                self.start -= self.here.bytes();
                self.spot = spot;
                true
            }
        }
    }
}
