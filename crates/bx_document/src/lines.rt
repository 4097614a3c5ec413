//! Whole lines, their indents, and texts that are put over them.
ghost use Rattle.std.specs.Prelude.{◌≡◌, ◌-◌, ◌<◌, ◌≤◌, true, false, IfOk, IfSome, IsCharBoundary, MatchOption, OnErr, slice_range, string_bytes};
ghost use Rattle.std.specs.List.{prefix_len};
ghost use Rattle.bx_text.specs.Changes.{IsRange};
ghost use Rattle.bx_text.specs.Edits.{fits};
ghost use Rattle.bx_view.specs.Numbers.{unit_number};
ghost use Rattle.bx_view.specs.Places.{IsTextPlace};
ghost use Rattle.bx_document.specs.Document.{after_insertion_before, place_behind_insertion};
ghost use Rattle.bx_document.specs.Line.{ends_with_separator, indent, is_indent, is_line_empty, line_of};

use crate::document::Document;
use crate::edits::wrapped;
use crate::points::last_character;
use bx_common::{LARGEST_TEXT, OutOfMemory};
use bx_text::separates;
use bx_ucd::BidiData;
use bx_view::current_span;

/// Whether a byte is a blank or a tab.
fn is_indent(byte: u8) -> bool
    ensures { result ≡ is_indent byte }
{
    byte == b' ' || byte == b'\t'
}

/// How many blanks and tabs a text begins with.
fn indent_len(text: &str) -> usize
    ensures len { result ≡ prefix_len is_indent text.now }
    ensures boundary { IsCharBoundary text.now result }
{
    let bytes = text.as_bytes();
    let mut len = 0;
    while len < bytes.len() {
        if !is_indent(bytes[len]) {
            return len;
        }
        len += 1;
    }
    len
}

impl<D: BidiData + Drop> Document<D> {
    /// The blanks and tabs with which a place's paragraph begins, those that stand before the place.
    pub fn indent(&self, place: usize) -> Result<String, OutOfMemory>
        requires text_place { IsTextPlace (D.data self.now.tables) self.now.document.content.text place }
        ensures { IfOk result (λ s. string_bytes s ≡ indent (D.data self.now.tables) self.now.document.content.text place) }
    {
        // `len` promises that the text is UTF-8.
        let _utf8 = self.len();
        let line = self.line_of(place);
        let mut indent = self.copy(line.start, place)?;
        let len = indent_len(indent.as_str());
        indent.truncate(len);
        Ok(indent)
    }

    /// Whether a place's paragraph has nothing but its separator. Allocates nothing.
    pub fn is_line_empty(&self, place: usize) -> bool
        requires text_place { IsTextPlace (D.data self.now.tables) self.now.document.content.text place }
        ensures { result ≡ is_line_empty (D.data self.now.tables) self.now.document.content.text place }
    {
        let text_ref = self.indexed.text_ref();
        let walk = text_ref.index.walk_at_offset(place);
        let span = current_span(&text_ref, &walk);
        span.start == span.stop
    }

    /// Whether a text ends with a separator of paragraphs. Allocates nothing.
    pub fn ends_with_separator(&self, text: &str) -> bool
        ensures { result ≡ ends_with_separator (D.data self.now.tables) text.now }
    {
        match last_character(text) {
            Some((c, _)) => separates(self.indexed.tables(), c),
            None => false,
        }
    }

    /// How many units of its paragraph stand before a place.
    pub fn units_in_line(&mut self, place: usize) -> Result<usize, OutOfMemory>
        ensures same { self.new ≡ self.old }
        ensures units { IfOk result (λ n. n ≡ unit_number (D.data self.old.tables) self.old.document.content.text place - 1) }
    {
        let text_ref = self.indexed.text_ref();
        // The proof refers to the number by this name.
        let units = self.view.units_in_line(&text_ref, place)?;
        Ok(units)
    }

    /// Inserts characters at an offset at or before the cursor's place, and returns the cursor's place after that: where it stood, moved
    /// on; None, and no change, if the text would exceed 16,777,216 bytes.
    ///
    /// Errors: `OutOfMemory`, and nothing has changed.
    pub fn insert_before(
        &mut self,
        at: usize,
        new: &str,
        place: usize,
    ) -> Result<Option<usize>, OutOfMemory>
        requires range { IsRange self.old.document.content.text at place }
        requires text_place { IsTextPlace (D.data self.old.tables) self.old.document.content.text place }
        ensures ok { IfOk result (λ after. MatchOption after
            ((fits self.old.document.content.text at at new.now ≡ false) × (self.new ≡ self.old))
            (λ o. (fits self.old.document.content.text at at new.now ≡ true)
            × (self.new ≡ record self.old {
              document = after_insertion_before (D.data self.old.tables) self.old.document at new.now place;
            })
            × (o ≡ place_behind_insertion (D.data self.old.tables) self.old.document at new.now place))) }
        ensures text_place { IfOk result (λ after. IfSome after (IsTextPlace (D.data self.new.tables) self.new.document.content.text)) }
        ensures err { OnErr result (self.new ≡ self.old) }
    {
        if new.len() > LARGEST_TEXT - self.indexed.len() {
            return Ok(None);
        }
        // The place is after the bytes between, which stay behind the new ones.
        let text_ref = self.indexed.text_ref();
        let whole = wrapped(self.alloc, text_ref.text, at, place, new, "")?;
        let after = self.place_after(at, place, whole.as_str())?;
        self.indexed.insert(at, new, place, after)?;
        Ok(Some(after))
    }
}
