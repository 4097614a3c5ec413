//! Copies of parts of the text, and the line of a place.
ghost use Rattle.std.specs.Prelude.{◌≡◌, IfOk, IsCharBoundary, slice_range, string_bytes};
ghost use Rattle.bx_text.specs.Changes.{IsRange};
ghost use Rattle.bx_view.specs.Places.{IsTextPlace};
ghost use Rattle.bx_view.specs.TextRef.{bytes};
ghost use Rattle.bx_document.specs.Line.{line_of};

use crate::document::Document;
use bx_common::{OutOfMemory, Range};
use bx_ucd::BidiData;
use bx_view::TextRef;

/// The line, the paragraph with its separator, that an offset falls in. Allocates nothing.
fn line_at<D: BidiData>(text_ref: &TextRef<'_, D>, offset: usize) -> Range
    requires bounds { IsCharBoundary (bytes text_ref.now) offset }
    ensures start { result.start ≡ (line_of (D.data text_ref.now.tables.now) (bytes text_ref.now) offset).0 }
    ensures stop { result.stop ≡ (line_of (D.data text_ref.now.tables.now) (bytes text_ref.now) offset).1 }
    ensures range { IsRange (bytes text_ref.now) result.start result.stop }
{
    let walk = text_ref.index.walk_at_offset(offset);
    let span = walk.span();
    Range {
        start: span.start,
        stop: span.stop + walk.separator(),
    }
}

impl<D: BidiData + Drop> Document<D> {
    /// A place's paragraph, its separator included. Allocates nothing.
    pub fn line_of(&self, place: usize) -> Range
        requires text_place { IsTextPlace (D.data self.now.tables) self.now.document.content.text place }
        ensures start { result.start ≡ (line_of (D.data self.now.tables) self.now.document.content.text place).0 }
        ensures stop { result.stop ≡ (line_of (D.data self.now.tables) self.now.document.content.text place).1 }
        ensures range { IsRange self.now.document.content.text result.start result.stop }
    {
        let text_ref = self.indexed.text_ref();
        line_at(&text_ref, place)
    }

    /// A copy of the bytes from `start` to `stop`.
    pub fn copy(&self, start: usize, stop: usize) -> Result<String, OutOfMemory>
        requires range { IsRange self.now.document.content.text start stop }
        ensures { IfOk result (λ copy. string_bytes copy ≡ slice_range self.now.document.content.text start stop) }
    {
        self.indexed.copy(start, stop)
    }
}
