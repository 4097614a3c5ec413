//! The place with given numbers of its paragraph and its unit.
ghost use Rattle.std.specs.Prelude.{◌≡◌, ◌-◌, ◌<◌, ◌≤◌, ◌∷◌, IfOk, drop, length, min, true};
ghost use Rattle.std.specs.Str.{IsCharBoundary};
ghost use Rattle.unicode_segmentation.specs.Grapheme.{graphemes};
ghost use Rattle.bx_view.specs.Numbers.{boundaries, place_of, unit_place};
ghost use Rattle.bx_view.specs.Places.{IsTextPlace};
ghost use Rattle.bx_view.specs.TextRef.{IsViewBy, Keeps, bytes, count};

use crate::span::span_of;
use crate::text_ref::TextRef;
use crate::view::View;
use bx_common::OutOfMemory;
use bx_ucd::BidiData;
use unicode_segmentation::UnicodeSegmentation;

/// The offset at which the unit at an offset of a body ends.
pub(crate) fn unit_end(body: &str, at: usize) -> usize
    requires start { IsCharBoundary body.now at }
    requires some { at < length body.now }
    ensures later { at < result }
    ensures boundary { IsCharBoundary body.now result }
    ensures places { boundaries at (graphemes true (drop at body.now)) ≡ at ∷ boundaries result (graphemes true (drop result body.now)) }
{
    match body[at..].graphemes(true).next() {
        Some(unit) => at + unit.len(),
        None => unreachable!(),
    }
}

/// The offset at which a unit of a body begins, by its number from 0; the body's end, if the body has fewer.
fn unit_start(body: &str, number: usize) -> usize
    ensures place { result ≡ unit_place 0 body.now number }
    ensures within { result ≤ length body.now }
{
    let mut at = 0;
    let mut left = number;
    while left > 0 && at < body.len() {
        at = unit_end(body, at);
        left -= 1;
    }
    at
}

/// The number, from 0, of a paragraph by its number from 1, where 0 means 1; the last one, if there are fewer.
fn paragraph_number<D: BidiData>(text_ref: &TextRef<'_, D>, paragraph: usize) -> usize
    ensures number { result ≡ min (paragraph - 1) (count text_ref.now - 1) }
    ensures there { result < count text_ref.now }
{
    let last = text_ref.index.count() - 1;
    paragraph.saturating_sub(1).min(last)
}

impl View {
    /// The place of a unit by the numbers of its paragraph and of the unit in it, both from 1, where 0 means 1. For a
    /// paragraph too large it is in the last one, for a unit too large it is the paragraph's end.
    pub fn place_of<D: BidiData>(
        &mut self,
        text_ref: &TextRef<'_, D>,
        paragraph: usize,
        unit: usize,
    ) -> Result<usize, OutOfMemory>
        requires data { IsViewBy text_ref.now self.old }
        ensures keeps { Keeps text_ref.now self.old self.new }
        ensures place { IfOk result (λ o. o ≡ place_of (D.data text_ref.now.tables.now) (bytes text_ref.now) paragraph unit) }
        ensures text_place { IfOk result (IsTextPlace (D.data text_ref.now.tables.now) (bytes text_ref.now)) }
    {
        let number = paragraph_number(text_ref, paragraph);
        let span = span_of(text_ref, number);
        let cached = self.find(text_ref, span)?;
        let body = self.paragraph(text_ref, span.number, cached).body();
        Ok(span.start + unit_start(body, unit.saturating_sub(1)))
    }
}
