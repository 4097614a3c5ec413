//! A text with its index: no edit of the one leaves the other behind.
ghost use Rattle.std.specs.Borrow.{Bor};
ghost use Rattle.std.specs.Iterator.{Drains};
ghost use Rattle.std.specs.Prelude.{◌≡◌, ◌+◌, ◌-◌, ◌<◌, ◌≤◌, ◌↔◌, ℕ, List, Some, true, drop, length, slice_range, string_bytes, take};
ghost use Rattle.std.specs.Prelude.{IfOk, IsErrOf, IsUtf8, OnErr, OnOk};
ghost use Rattle.bx_text.specs.index.Paragraphs.{lengths};
ghost use Rattle.bx_text.specs.Edits.{fits_both, inserted, largest_text, opened, removed, wrapped};
ghost use Rattle.bx_text.specs.Changes.{IsChange, IsRange, exchanged};
ghost use Rattle.bx_text.specs.Slices.{joined, lends};
ghost use Rattle.bx_document.specs.History.{next_changes, stepped_times};

use crate::backup::Backup;
use crate::error::DocumentError;
use crate::history::{HistoryStep, next_changes, step_in};
use bx_common::OutOfMemory;
use bx_find::Haystack;
use bx_text::{Change, EditPlaces, Index, Slices, Text, TextError, separating};
use bx_ucd::BidiData;
use bx_view::TextRef;
use std::alloc::Global;
use std::marker::Model;
use std::ops::Range;

/// A text with its undo history, its paragraph index, and the tables of both.
#[derive(Drop)]
pub(crate) struct IndexedText<D: BidiData + Drop> {
    text: Text,
    index: Index,
    tables: D,
}

impl<D: BidiData + Drop> Model for IndexedText<D> {
    ghost use Rattle.std.specs.Prelude.{◌≡◌, IsUtf8};
    ghost use Rattle.bx_text.specs.index.Paragraphs.{lengths};
    ghost use Rattle.bx_document.specs.IndexedText.{IndexedTextState};

    ghost Value = { IndexedTextState D };

    ghost view = { λ o. record { tables = o.tables; content = o.text.edited } };

    ghost invariant = { λ o. (o.index.paragraphs ≡ lengths (D.data o.tables) o.text.edited.text) × IsUtf8 o.text.edited.text };
}

impl<D: BidiData + Drop> Haystack for IndexedText<D> {
    ghost text = { λ o. o.content.text };

    fn len(&self) -> usize {
        self.text.len()
    }

    fn piece_at(&self, offset: usize) -> &str {
        self.text.part_at(offset, self.text.len())
    }
}

/// Updates the index after an edit, in the room that `ready` reserved for one separator per added byte. Allocates nothing.
fn follow<D: BidiData>(index: &mut Index, text: &Text, tables: &D, change: &Change)
    requires was { (old : List ℕ)
        × IsUtf8 old
        × (index.old.paragraphs ≡ lengths (D.data tables.now) old)
        × IsChange old change.now text.now.edited.text }
    requires room { index.old.room ≡ Some change.now.added }
    ensures paragraphs { index.new.paragraphs ≡ lengths (D.data tables.now) text.now.edited.text }
    ensures utf8 { IsUtf8 text.now.edited.text }
{
    // `len` promises that the text is UTF-8.
    let _utf8 = text.len();
    index.edited(text, tables, change);
}

impl<D: BidiData + Drop> IndexedText<D> {
    /// Opens a text with an empty undo history. An error drops the text and the tables.
    ///
    /// Errors: `TooLong` above 16,777,216 bytes; `OutOfMemory`.
    pub(crate) fn open(
        alloc: Global,
        text: String,
        tables: D,
    ) -> Result<IndexedText<D>, DocumentError>
        ensures ok { IfOk result (λ o. o ≡ record { tables = tables; content = opened (string_bytes text) }) }
        ensures too_long { IsErrOf result DocumentError.TooLong ↔ (largest_text < length (string_bytes text)) }
    {
        let text = match Text::open(alloc, text) {
            Ok(text) => text,
            Err(TextError::TooLong) => return Err(DocumentError::TooLong),
            Err(_) => return Err(DocumentError::OutOfMemory),
        };
        let index = Index::build(alloc, &text, &tables)?;
        Ok(IndexedText {
            text,
            index,
            tables,
        })
    }

    /// A copy of the text with its past and its future, and the index of it.
    pub(crate) fn backup(&self, alloc: Global) -> Result<Backup, OutOfMemory>
        ensures text { IfOk result (λ b. b.text.edited ≡ self.now.content) }
        ensures paragraphs { IfOk result (λ b. b.index.paragraphs ≡ lengths (D.data self.now.tables) self.now.content.text) }
        ensures utf8 { IsUtf8 self.now.content.text }
    {
        // `len` promises that the text is UTF-8.
        let _utf8 = self.text.len();
        let text = self.text.copy()?;
        let index = Index::build(alloc, &text, &self.tables)?;
        Ok(Backup { text, index })
    }

    /// Takes a copy of a text, with its history and its index, in place of this one. Allocates nothing.
    pub(crate) fn restore(&mut self, backup: Backup)
        requires paragraphs { backup.index.paragraphs ≡ lengths (D.data self.old.tables) backup.text.edited.text }
        requires utf8 { IsUtf8 backup.text.edited.text }
        ensures { self.new ≡ record self.old { content = backup.text.edited } }
    {
        self.text = backup.text;
        self.index = backup.index;
    }

    /// The text with its index and the tables, lent. Allocates nothing.
    pub(crate) fn text_ref(&self) -> TextRef<'_, D>
        ensures text { result.text.now.edited ≡ self.now.content }
        ensures tables { result.tables.now ≡ self.now.tables }
    {
        TextRef::of(&self.text, &self.index, &self.tables)
    }

    /// The tables. Allocates nothing.
    pub(crate) fn tables(&self) -> &D
        ensures { result.now ≡ self.now.tables }
    {
        &self.tables
    }

    /// The text's length in bytes. Allocates nothing.
    pub(crate) fn len(&self) -> usize
        ensures len { result ≡ length self.now.content.text }
        ensures short { length self.now.content.text ≤ largest_text }
        ensures utf8 { IsUtf8 self.now.content.text }
    {
        self.text.len()
    }

    /// The text in consecutive pieces. Allocates nothing.
    pub(crate) fn pieces(&self) -> Slices<'_>
        ensures text { result ≡ self.now.content.text }
        ensures joined { (slices : List (Bor (List ℕ))) → Drains lends result slices → joined slices ≡ self.now.content.text }
    {
        self.text.pieces()
    }

    /// The text from one offset to a later one, or to the end of the first piece if that comes before. Allocates nothing.
    pub(crate) fn part_at(&self, at: usize, stop: usize) -> &str
        requires range { IsRange self.now.content.text at stop }
        requires before { at < stop }
        ensures bytes { take (length result.now) (drop at self.now.content.text) ≡ result.now }
        ensures not_empty { 0 < length result.now }
        ensures range { IsRange self.now.content.text (at + length result.now) stop }
    {
        self.text.part_at(at, stop)
    }

    /// Copies the bytes from `start` to `stop`.
    pub(crate) fn copy(&self, start: usize, stop: usize) -> Result<String, OutOfMemory>
        requires range { IsRange self.now.content.text start stop }
        ensures { IfOk result (λ copy. string_bytes copy ≡ slice_range self.now.content.text start stop) }
    {
        // Both ends are between characters, so only memory can run out.
        let Ok(copy) = self.text.copy_range(start, stop) else {
            return Err(OutOfMemory);
        };
        Ok(copy)
    }

    /// The number of edits that can be undone. Allocates nothing.
    pub(crate) fn past_len(&self) -> usize
        ensures { result ≡ length self.now.content.past }
    {
        self.text.past_len()
    }

    /// The number of edits that can be redone. Allocates nothing.
    pub(crate) fn future_len(&self) -> usize
        ensures { result ≡ length self.now.content.future }
    {
        self.text.future_len()
    }

    /// The one change that `n` steps make; None if `n` is 0 or there is nothing to undo or redo. Allocates nothing.
    pub(crate) fn next_changes(&self, step: HistoryStep, n: usize) -> Option<Change>
        ensures { result ≡ next_changes step n self.now.content }
    {
        next_changes(&self.text, step, n)
    }

    /// Inserts characters at an offset; the places of the cursor before and after are recorded.
    ///
    /// Errors: `OutOfMemory`, and nothing has changed. The same for an offset within a character and for a text that gets too
    /// long, which callers rule out.
    pub(crate) fn insert(
        &mut self,
        at: usize,
        new: &str,
        before: usize,
        after: usize,
    ) -> Result<(), OutOfMemory>
        ensures ok { OnOk result (self.new ≡ record self.old { content = inserted self.old.content at new.now before after }) }
        ensures err { OnErr result (self.new ≡ self.old) }
    {
        // A long text needs no room for as many separators as it has bytes.
        self.index.ready(separating(&self.tables, new))?;
        let Ok(change) = self.text.insert(at, new, before, after) else {
            return Err(OutOfMemory);
        };
        // `len` promises that the text is UTF-8.
        let _utf8 = self.text.len();
        self.index.edited(&self.text, &self.tables, &change);
        Ok(())
    }

    /// Removes the bytes of a range; the places of the cursor before and after are recorded.
    ///
    /// Errors: `OutOfMemory`, and nothing has changed. The same for a range that cuts a character, which callers rule out.
    pub(crate) fn remove(
        &mut self,
        range: Range<usize>,
        before: usize,
        after: usize,
    ) -> Result<(), OutOfMemory>
        ensures ok { OnOk result (self.new ≡ record self.old { content = removed self.old.content range.start range.end before after }) }
        ensures err { OnErr result (self.new ≡ self.old) }
    {
        self.index.ready(0)?;
        let Ok(change) = self.text.remove(range.start, range.end, before, after) else {
            return Err(OutOfMemory);
        };
        follow(&mut self.index, &self.text, &self.tables, &change);
        Ok(())
    }

    /// Removes the bytes of a range, and inserts `new` at an offset `at` of the text without them: two edits, for which `places`
    /// are recorded.
    ///
    /// Errors: `OutOfMemory`, and nothing has changed. The same for offsets within a character and for a text that gets too
    /// long, which callers rule out.
    pub(crate) fn exchange(
        &mut self,
        range: Range<usize>,
        at: usize,
        new: &str,
        places: EditPlaces,
    ) -> Result<(), OutOfMemory>
        requires order { range.start ≤ at }
        requires fits { at + length new.now ≤ largest_text }
        ensures ok { OnOk result (self.new ≡ record self.old {
          content = exchanged self.old.content range.start range.end at new.now places.before places.between places.after;
        }) }
        ensures err { OnErr result (self.new ≡ self.old) }
    {
        self.index.ready(at - range.start + new.len())?;
        let Ok(change) = self.text.exchange(range.start, range.end, at, new, places) else {
            return Err(OutOfMemory);
        };
        follow(&mut self.index, &self.text, &self.tables, &change);
        Ok(())
    }

    /// Inserts `back` after the bytes of a range, and `front` before them: two edits, for which `places` are recorded.
    ///
    /// Errors: `OutOfMemory`, and nothing has changed.
    pub(crate) fn insert_pair(
        &mut self,
        range: Range<usize>,
        front: &str,
        back: &str,
        places: EditPlaces,
    ) -> Result<(), OutOfMemory>
        requires range { IsRange self.old.content.text range.start range.end }
        requires fits { fits_both self.old.content.text front.now back.now ≡ true }
        ensures ok { OnOk result (self.new ≡ record self.old {
          content = wrapped self.old.content range.start range.end front.now back.now places.before places.between places.after;
        }) }
        ensures err { OnErr result (self.new ≡ self.old) }
    {
        self.index
            .ready(front.len() + (range.end - range.start) + back.len())?;
        let Ok(change) = self.text.wrap(range.start, range.end, front, back, places) else {
            return Err(OutOfMemory);
        };
        follow(&mut self.index, &self.text, &self.tables, &change);
        Ok(())
    }

    /// Undoes or redoes `n` edits, or all if there are fewer, which make the change `next`.
    ///
    /// Errors: `OutOfMemory`, and nothing has changed.
    pub(crate) fn step(
        &mut self,
        step: HistoryStep,
        n: usize,
        next: &Change,
    ) -> Result<(), OutOfMemory>
        requires next { Some next.now ≡ next_changes step n self.old.content }
        ensures ok { OnOk result (self.new ≡ record self.old { content = stepped_times step n self.old.content }) }
        ensures err { OnErr result (self.new ≡ self.old) }
    {
        self.index.ready(next.added)?;
        let Ok(Some(change)) = step_in(&mut self.text, step, n) else {
            return Err(OutOfMemory);
        };
        follow(&mut self.index, &self.text, &self.tables, &change);
        Ok(())
    }
}
