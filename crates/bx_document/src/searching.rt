//! The search of the text for a query, and the place of an offset.
ghost use Rattle.std.specs.Prelude.{◌≡◌, ◌≤◌, ◌<◌, ◌↔◌, ◌∷◌, [], None, chars, length, IfOk, IfSome, IsCharBoundary, IsNone, IsUtf8, MatchOption};
ghost use Rattle.bx_find.specs.Letters.{letters};
ghost use Rattle.bx_find.specs.Matches.{first_from, last_before, match_end, spans_from};
ghost use Rattle.bx_find.specs.Parts.{first_between};
ghost use Rattle.bx_text.specs.Edits.{largest_text};
ghost use Rattle.bx_text.specs.Changes.{IsRange};
ghost use Rattle.bx_view.specs.Moves.{place_at};
ghost use Rattle.bx_view.specs.Places.{IsTextPlace};
ghost use Rattle.bx_document.specs.Document.{rows};
ghost use Rattle.bx_document.specs.Swapped.{behind_character};

use crate::document::Document;
use bx_common::{OutOfMemory, Range, first_char};
use bx_find::{Query, Reading};
use bx_ucd::BidiData;

impl<D: BidiData + Drop> Document<D> {
    /// The query with a text's letters; None if the text has no letter. The text has at most 64 characters. Allocates nothing.
    pub fn query(&self, reading: Reading, text: &str) -> Option<Query>
        requires few { length (chars text.now) ≤ 64 }
        ensures letters { IfSome result (λ q. q ≡ letters (D.data self.now.tables) reading (chars text.now)) }
        ensures none { IsNone result ↔ (letters (D.data self.now.tables) reading (chars text.now) ≡ []) }
        ensures short { length self.now.document.content.text ≤ largest_text }
        ensures utf8 { IsUtf8 self.now.document.content.text }
    {
        let text_ref = self.indexed.text_ref();
        Query::new(text_ref.tables, reading, text)
    }

    /// The byte offset of a query's first match at or after `x`. Allocates nothing.
    pub fn first_from(&self, reading: Reading, query: &Query, x: usize) -> Option<usize>
        requires bounds { IsCharBoundary self.now.document.content.text x }
        ensures found { result ≡ first_from (D.data self.now.tables) reading query.now self.now.document.content.text x }
        ensures boundary { IfSome result (IsCharBoundary self.now.document.content.text) }
        ensures short { length self.now.document.content.text ≤ largest_text }
        ensures utf8 { IsUtf8 self.now.document.content.text }
    {
        let text_ref = self.indexed.text_ref();
        bx_find::first_from(&self.indexed, text_ref.tables, reading, query, x)
    }

    /// The byte offset of a query's first match in the text, for a caller that has found none at or after `x`. Allocates nothing.
    pub fn first_before(&self, reading: Reading, query: &Query, x: usize) -> Option<usize>
        requires bounds { IsCharBoundary self.now.document.content.text x }
        requires none_from { first_from (D.data self.now.tables) reading query.now self.now.document.content.text x ≡ None }
        ensures found { result ≡ first_from (D.data self.now.tables) reading query.now self.now.document.content.text 0 }
        ensures boundary { IfSome result (IsCharBoundary self.now.document.content.text) }
    {
        // It promises that the text is UTF-8, in which the search begins.
        let text_ref = self.indexed.text_ref();
        bx_find::first_between(&self.indexed, text_ref.tables, reading, query, 0, x)
    }

    /// The byte offset of a query's first match at or after `start`, if it is before `stop`. Allocates nothing.
    pub fn first_between(
        &self,
        reading: Reading,
        query: &Query,
        start: usize,
        stop: usize,
    ) -> Option<usize>
        requires start { IsCharBoundary self.now.document.content.text start }
        requires stop { IsCharBoundary self.now.document.content.text stop }
        ensures found { result ≡ first_between (D.data self.now.tables) reading query.now self.now.document.content.text start stop }
        ensures boundary { IfSome result (IsCharBoundary self.now.document.content.text) }
    {
        bx_find::first_between(
            &self.indexed,
            self.indexed.tables(),
            reading,
            query,
            start,
            stop,
        )
    }

    /// The byte offset of a query's last match before `x`. Allocates nothing.
    pub fn last_before(&self, reading: Reading, query: &Query, x: usize) -> Option<usize>
        ensures found { result ≡ last_before (D.data self.now.tables) reading query.now self.now.document.content.text x }
        ensures boundary { IfSome result (IsCharBoundary self.now.document.content.text) }
    {
        bx_find::last_before(&self.indexed, self.indexed.tables(), reading, query, x)
    }

    /// The byte offset of a query's last match in the text, for a caller that has found none before `x`. Allocates nothing.
    pub fn last_from(&self, reading: Reading, query: &Query, x: usize) -> Option<usize>
        requires bounds { IsCharBoundary self.now.document.content.text x }
        requires none_before { last_before (D.data self.now.tables) reading query.now self.now.document.content.text x ≡ None }
        ensures found { result ≡ last_before (D.data self.now.tables) reading query.now self.now.document.content.text
            (length self.now.document.content.text) }
        ensures boundary { IfSome result (IsCharBoundary self.now.document.content.text) }
    {
        bx_find::last_from(&self.indexed, self.indexed.tables(), reading, query, x)
    }

    /// The end of a query's match at the offset `at`. Allocates nothing.
    pub fn match_end(&self, reading: Reading, query: &Query, at: usize) -> usize
        requires bounds { IsCharBoundary self.now.document.content.text at }
        ensures end { result ≡ match_end (D.data self.now.tables) reading query.now self.now.document.content.text at }
        ensures boundary { IsCharBoundary self.now.document.content.text result }
        ensures order { at ≤ result }
    {
        bx_find::match_end(&self.indexed, self.indexed.tables(), reading, query, at)
    }

    /// The range of a query's first match at or after `x`. Allocates nothing.
    pub(crate) fn first_span(&self, reading: Reading, query: &Query, x: usize) -> Option<Range>
        requires bounds { IsCharBoundary self.now.document.content.text x }
        ensures spans { MatchOption result
            (spans_from (D.data self.now.tables) reading query.now self.now.document.content.text x ≡ [])
            (λ s. spans_from (D.data self.now.tables) reading query.now self.now.document.content.text x
            ≡ (s.start, s.stop) ∷ spans_from (D.data self.now.tables) reading query.now self.now.document.content.text s.stop) }
        ensures range { IfSome result (λ s. IsRange self.now.document.content.text s.start s.stop) }
        ensures onward { IfSome result (λ s. (x ≤ s.start) × (s.start < s.stop)) }
    {
        bx_find::first_span(&self.indexed, self.indexed.tables(), reading, query, x)
    }

    /// The offset behind the character at an offset; at the text's end the end. Allocates nothing.
    pub fn behind_character(&self, offset: usize) -> usize
        requires bounds { IsCharBoundary self.now.document.content.text offset }
        ensures behind { result ≡ behind_character self.now.document.content.text offset }
        ensures boundary { IsCharBoundary self.now.document.content.text result }
        ensures short { length self.now.document.content.text ≤ largest_text }
        ensures utf8 { IsUtf8 self.now.document.content.text }
    {
        let stop = self.indexed.len();
        if offset == stop {
            return offset;
        }
        match first_char(self.indexed.part_at(offset, stop)) {
            Some((c, _)) => offset + c.len_utf8(),
            None => offset,
        }
    }

    /// The place of an offset in bytes: the last place at or before it.
    pub fn place_at(&mut self, offset: usize) -> Result<usize, OutOfMemory>
        ensures same { self.new ≡ self.old }
        ensures place { IfOk result (λ o. o ≡ place_at (rows (D.data self.old.tables) self.old.document) offset) }
        ensures text_place { IfOk result (IsTextPlace (D.data self.old.tables) self.old.document.content.text) }
        ensures boundary { IfOk result (λ o. IsCharBoundary self.old.document.content.text o) }
    {
        let text_ref = self.indexed.text_ref();
        // The proof refers to the place by this name.
        let place = self.view.place_at(&text_ref, offset)?;
        Ok(place)
    }
}
