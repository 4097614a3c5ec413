//! All matches of a query from an offset on, with another text in place of each: the text that replaces them at once.
ghost use Rattle.std.specs.Prelude.{◌≡◌, ◌-◌, ◌^◌, ◌++◌, ℕ, List, length, min, IfOk, IfSome, MatchOption, IsCharBoundary, slice_range, string_bytes, false, true};
ghost use Rattle.bx_find.specs.Matches.{spans_from};
ghost use Rattle.bx_text.specs.Edits.{fits};
ghost use Rattle.bx_text.specs.Changes.{IsRange};
ghost use Rattle.bx_document.specs.Swapped.{last_stop, swapped};

use crate::document::Document;
use bx_common::{LARGEST_TEXT, OutOfMemory};
use bx_find::{Query, Reading};
use bx_ucd::BidiData;

/// What replaces the text from the offset at which a search starts to the end of the last match.
#[derive(Drop)]
pub struct Swap {
    /// The offset, in bytes of the text, at which the last match ends; the one at which the search starts if there is no match.
    pub stop: usize,
    /// The number of matches.
    pub count: usize,
    /// The text from the start to `stop`, with the replacement in place of each match.
    pub text: String,
}

/// What is found of a `Swap` before its text is made.
#[derive(Clone, Copy)]
struct Measure {
    /// The `stop` of the `Swap`.
    stop: usize,
    /// The `count` of the `Swap`.
    count: usize,
    /// The length of the `text` of the `Swap` in bytes, at most 2^64 - 1.
    len: usize,
}

impl<D: BidiData + Drop> Document<D> {
    /// Finds the matches from `start` on, each the first one at or after the end of the one before, and measures their text with
    /// `other` in place of each. A length above 2^64 - 1 counts as 2^64 - 1. Allocates nothing.
    fn measure(&self, reading: Reading, query: &Query, start: usize, other: &str) -> Measure
        requires bounds { IsCharBoundary self.now.document.content.text start }
        ensures stop { result.stop ≡ last_stop start (spans_from (D.data self.now.tables) reading query.now self.now.document.content.text start) }
        ensures count { result.count ≡ length (spans_from (D.data self.now.tables) reading query.now self.now.document.content.text start) }
        ensures len { result.len ≡ min (2 ^ 64 - 1) (length (swapped start self.now.document.content.text other.now
            (spans_from (D.data self.now.tables) reading query.now self.now.document.content.text start))) }
        ensures range { IsRange self.now.document.content.text start result.stop }
    {
        let mut measure = Measure {
            stop: start,
            count: 0,
            len: 0,
        };
        while let Some(found) = self.first_span(reading, query, measure.stop) {
            let between = found.start - measure.stop;
            measure.len = measure
                .len
                .saturating_add(between)
                .saturating_add(other.len());
            measure.count += 1;
            measure.stop = found.stop;
        }
        measure
    }

    /// Appends the bytes of the text from `start` to `stop` to `copy`.
    fn push_range(&self, copy: &mut String, start: usize, stop: usize) -> Result<(), OutOfMemory>
        requires range { IsRange self.now.document.content.text start stop }
        ensures { IfOk result (λ _. string_bytes copy.new ≡ string_bytes copy.old ++ slice_range self.now.document.content.text start stop) }
    {
        let mut at = start;
        while at < stop {
            let part = self.indexed.part_at(at, stop);
            copy.push_str(part)?;
            at += part.len();
        }
        Ok(())
    }

    /// The text from `start` to the end of the last match, with `other` in place of each match: `len` bytes, as measured.
    fn swapped(
        &self,
        reading: Reading,
        query: &Query,
        start: usize,
        other: &str,
        len: usize,
    ) -> Result<String, OutOfMemory>
        requires bounds { IsCharBoundary self.now.document.content.text start }
        ensures { IfOk result (λ s. string_bytes s ≡ swapped start self.now.document.content.text other.now
            (spans_from (D.data self.now.tables) reading query.now self.now.document.content.text start)) }
    {
        let mut copy = String::with_capacity(self.alloc, len)?;
        let mut from = start;
        while let Some(found) = self.first_span(reading, query, from) {
            self.push_range(&mut copy, from, found.start)?;
            copy.push_str(other)?;
            from = found.stop;
        }
        Ok(copy)
    }

    /// The matches of a query from `start` on, with `other` in place of each; None, before any text is made, if the whole text
    /// would exceed 16,777,216 bytes.
    pub fn swap(
        &self,
        reading: Reading,
        query: &Query,
        start: usize,
        other: &str,
    ) -> Result<Option<Swap>, OutOfMemory>
        requires bounds { IsCharBoundary self.now.document.content.text start }
        ensures swap { IfOk result (λ swap. (spans : List (ℕ × ℕ)) → spans ≡ spans_from (D.data self.now.tables) reading query.now self.now.document.content.text start
            → MatchOption swap
            (fits self.now.document.content.text start (last_stop start spans) (swapped start self.now.document.content.text other.now spans) ≡ false)
            (λ s. (fits self.now.document.content.text start (last_stop start spans) (swapped start self.now.document.content.text other.now spans) ≡ true)
            × (s.stop ≡ last_stop start spans)
            × (s.count ≡ length spans)
            × (string_bytes s.text ≡ swapped start self.now.document.content.text other.now spans))) }
        ensures range { IfOk result (λ swap. IfSome swap (λ s. IsRange self.now.document.content.text start s.stop)) }
    {
        let Measure { stop, count, len } = self.measure(reading, query, start, other);
        let kept = self.indexed.len() - (stop - start);
        if len > LARGEST_TEXT - kept {
            return Ok(None);
        }
        let text = self.swapped(reading, query, start, other, len)?;
        Ok(Some(Swap { stop, count, text }))
    }
}
