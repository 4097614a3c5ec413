//! The spans of paragraph bodies in a text.
ghost use Rattle.std.specs.Prelude.{◌≡◌, ◌<◌, ◌≤◌};
ghost use Rattle.bx_text.specs.index.Paragraphs.{lengths, paragraph_of};
ghost use Rattle.bx_view.specs.TextRef.{IsSpan, bytes, count};

use crate::text_ref::TextRef;
use bx_text::{ParagraphWalk, TextSpan};
use bx_ucd::BidiData;

/// The body of the walk's current paragraph.
pub fn current_span<D: BidiData>(text_ref: &TextRef<'_, D>, walk: &ParagraphWalk<'_>) -> TextSpan
    requires walk { walk.now.paragraphs ≡ lengths (D.data text_ref.now.tables.now) (bytes text_ref.now) }
    requires number { walk.now.number < count text_ref.now }
    ensures number { result.number ≡ walk.now.number }
    ensures is { IsSpan text_ref.now result }
{
    // Only the contract names the text.
    let _ = text_ref;
    walk.span()
}

/// The body of paragraph `number`, from 0.
pub(crate) fn span_of<D: BidiData>(text_ref: &TextRef<'_, D>, number: usize) -> TextSpan
    requires { number < count text_ref.now }
    ensures number { result.number ≡ number }
    ensures is { IsSpan text_ref.now result }
{
    text_ref.index.span(number)
}

/// The body of the paragraph that an offset falls in.
pub(crate) fn paragraph_under<D: BidiData>(text_ref: &TextRef<'_, D>, offset: usize) -> TextSpan
    ensures number { result.number ≡ paragraph_of (lengths (D.data text_ref.now.tables.now) (bytes text_ref.now)) offset }
    ensures is { IsSpan text_ref.now result }
    ensures order { result.start ≤ offset }
{
    text_ref.index.span_at(offset)
}
