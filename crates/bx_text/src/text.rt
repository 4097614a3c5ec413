//! The text, its edits, undo and redo: a table of pieces of two buffers.

ghost use Rattle.std.specs.Prelude.{◌≡◌, ℕ, List, slice_range, ◌+◌, ◌-◌, IsSome, ◌<◌, ◌≤◌, ◌^◌, ◌↔◌, [], None, Some, true, false, IfSome, take, drop, length};
ghost use Rattle.std.specs.Prelude.{IsOk, string_bytes, IsTrue, IsCharBoundary, IfOk, OnOk, OnErr, IsErrOf};
ghost use Rattle.std.specs.Str.{IsUtf8};
ghost use Rattle.bx_text.specs.Edits.{fits, inserted, largest_text, opened, redone, removed, replaced, undone};
ghost use Rattle.bx_text.specs.Changes.{IsChange, IsRange, next_redo, next_undo};
ghost use Rattle.bx_text.specs.Text.{TextState, HasRoomFor};
ghost use Rattle.bx_text.specs.Slices.{lends, joined};
ghost use Rattle.std.specs.Iterator.{Drains};
ghost use Rattle.std.specs.Borrow.{Bor};

use crate::buffers::{has_in, rest_in};
use crate::change::Change;
use crate::error::TextError;
use crate::pieces::{Buffer, Piece, Pieces, Spares};
use crate::slices::Slices;
use crate::step::Step;
use crate::swap::put;
use bx_common::LARGEST_TEXT;
use std::alloc::{AllocError, Global};
use std::marker::Model;

/// A text under edits, with its past and its future.
#[derive(Drop)]
pub struct Text {
    // the text as opened, which never changes
    pub(crate) opened: String,
    // all text inserted since
    pub(crate) added: String,
    // the parts of both that are the text, in order
    pub(crate) pieces: Pieces,
    // the steps to undo, the latest edit last
    pub(crate) past: Vec<Step>,
    // the steps to redo, the next edit last
    pub(crate) future: Vec<Step>,
    // nodes of the pieces' tree for the next edits
    pub(crate) spares: Spares,
    // the bytes that the next edit can insert with no allocation; None: no room was made
    pub(crate) room: Option<usize>,
}

impl Model for Text {
    ghost use Rattle.bx_text.specs.Text.{TextState};

    ghost Value = { TextState };

    ghost use Rattle.bx_text.specs.Text.{text_of, IsText};

    ghost view = { text_of };

    ghost invariant = { IsText };
}

impl Text {
    /// Opens a text, with no past and no future. An error drops the string.
    ///
    /// Errors: `TooLong` above 16,777,216 bytes; `OutOfMemory`.
    pub fn open(alloc: Global, text: String) -> Result<Text, TextError>
        ensures ok { IfOk result (λ t. t ≡ record { edited = opened (string_bytes text); room = None }) }
        ensures short { OnOk result (length (string_bytes text) ≤ largest_text) }
        ensures too_long { IsErrOf result TextError.TooLong ↔ (largest_text < length (string_bytes text)) }
        ensures always_a_boundary { IsErrOf result TextError.NotABoundary → ⊥ }
    {
        let len = text.len();
        if len > LARGEST_TEXT {
            return Err(TextError::TooLong);
        }
        let mut spares = Spares::new(alloc);
        spares.fill(1)?;
        let piece = Piece {
            buffer: Buffer::Opened,
            start: 0,
            len,
        };
        let pieces = Pieces::of(piece, &mut spares);
        Ok(Text {
            opened: text,
            added: String::new(alloc),
            pieces,
            past: Vec::new(alloc),
            future: Vec::new(alloc),
            spares,
            room: None,
        })
    }

    /// Length in bytes.
    pub fn len(&self) -> usize
        ensures len { result ≡ length self.now.edited.text }
        ensures short { length self.now.edited.text ≤ largest_text }
        ensures utf8 { IsUtf8 self.now.edited.text }
    {
        self.pieces.len()
    }

    /// The change that `undo` would make next; none if the past is empty.
    #[tactic(auto, using(crate::proofs::OneStep::undo_one))]
    pub fn next_undo(&self) -> Option<Change>
        ensures { result ≡ next_undo self.now.edited }
    {
        self.next_undos(1)
    }

    /// Reserves memory for an edit that inserts `bytes` bytes, with three nodes (`put`). The text is unchanged.
    fn grow(&mut self, bytes: usize) -> Result<(), AllocError>
        ensures edited { self.new.edited ≡ self.old.edited }
        ensures ok { OnOk result (self.new.room ≡ Some bytes) }
        ensures err { OnErr result (self.new.room ≡ self.old.room) }
    {
        self.added.reserve(bytes)?;
        self.past.reserve(1)?;
        self.spares.fill(3)?;
        self.room = Some(bytes);
        Ok(())
    }

    /// Makes room: after Ok the next edit that inserts at most `bytes` bytes allocates nothing.
    ///
    /// Errors: `OutOfMemory`, and the text and the room made before are unchanged.
    pub fn ready(&mut self, bytes: usize) -> Result<(), TextError>
        ensures edited { self.new.edited ≡ self.old.edited }
        ensures ok { OnOk result (self.new.room ≡ Some bytes) }
        ensures err { OnErr result ((self.new ≡ self.old) × (result ≡ Err TextError.OutOfMemory)) }
    {
        match self.grow(bytes) {
            Ok(()) => Ok(()),
            Err(_) => Err(TextError::OutOfMemory),
        }
    }

    /// Whether room was made for `bytes` bytes.
    fn has_room_for(&self, bytes: usize) -> bool
        ensures { IsTrue result ↔ HasRoomFor self.now.room bytes }
    {
        match self.room {
            None => false,
            Some(room) => bytes <= room,
        }
    }

    /// Replaces `len` bytes from the offset `start` on by text, as one edit. `before` and `after` are the cursor's places before and
    /// after it.
    fn replace(
        &mut self,
        start: usize,
        len: usize,
        text: &str,
        before: usize,
        after: usize,
    ) -> Change
        requires room { HasRoomFor self.old.room (length text.now) }
        requires range { IsRange self.old.edited.text start (start + len) }
        requires short { length self.old.edited.text + length text.now ≤ largest_text + len }
        ensures text { self.new ≡ record { edited = replaced self.old.edited start (start + len) text.now before after; room = None } }
        ensures change { result ≡ record { start = start; removed = len; added = length text.now; place = after } }
        ensures is_change { IsChange self.old.edited.text result self.new.edited.text }
    {
        let old = put(
            &mut self.pieces,
            start,
            len,
            &mut self.added,
            text,
            &mut self.spares,
        );
        let step = Step {
            start,
            span: old,
            len: text.len(),
            before,
            after,
        };
        self.past.push(step).unwrap();
        self.future.clear();
        self.room = None;
        Change {
            start,
            removed: len,
            added: text.len(),
            place: after,
        }
    }

    /// The text of the piece at an offset, from that offset on; none if the offset is inside a character, or
    /// at or past the text's end.
    pub fn piece_at(&self, offset: usize) -> Option<&str>
        ensures there { IsSome result ↔ (IsCharBoundary self.now.edited.text offset × (offset < length self.now.edited.text)) }
        ensures bytes { IfSome result (λ s. take (length s.now) (drop offset self.now.edited.text) ≡ s.now) }
        ensures not_empty { IfSome result (λ s. 0 < length s.now) }
        ensures next { IfSome result (λ s. IsCharBoundary self.now.edited.text (offset + length s.now)) }
        ensures utf8 { IsUtf8 self.now.edited.text }
    {
        let (opened, added) = (self.opened.as_str(), self.added.as_str());
        rest_in(opened, added, &self.pieces, offset)
    }

    /// Whether the text has these bytes at an offset. Allocates nothing.
    pub fn has_at(&self, start: usize, bytes: &[u8]) -> bool
        ensures { IsTrue result → take (length bytes.now) (drop start self.now.edited.text) ≡ bytes.now }
    {
        let (opened, added) = (self.opened.as_str(), self.added.as_str());
        has_in(opened, added, &self.pieces, start, bytes)
    }

    /// Whether an offset is the text's end or the first byte of a character.
    pub(crate) fn is_boundary(&self, at: usize) -> bool
        ensures { IsTrue result ↔ IsCharBoundary self.now.edited.text at }
    {
        at == self.len() || self.piece_at(at).is_some()
    }

    /// Whether two offsets are character boundaries, in order.
    pub(crate) fn is_range(&self, start: usize, stop: usize) -> bool
        ensures range { IsTrue result ↔ IsRange self.now.edited.text start stop }
        ensures short { length self.now.edited.text ≤ largest_text }
    {
        // `stop <= len` comes first, so that no piece is looked for past the end.
        let len = self.len();
        start <= stop && stop <= len && self.is_boundary(start) && self.is_boundary(stop)
    }

    /// The text from one offset to a later one, or to the end of the first piece if that comes before.
    pub fn part_at(&self, at: usize, stop: usize) -> &str
        requires range { IsRange self.now.edited.text at stop }
        requires before { at < stop }
        ensures bytes { take (length result.now) (drop at self.now.edited.text) ≡ result.now }
        ensures not_empty { 0 < length result.now }
        ensures range { IsRange self.now.edited.text (at + length result.now) stop }
    {
        let rest = self.piece_at(at).unwrap();
        let len = rest.len().min(stop - at);
        &rest[..len]
    }

    /// The text's pieces in order, which joined are the text.
    pub fn pieces(&self) -> Slices<'_>
        ensures text { result ≡ self.now.edited.text }
        ensures joined { (slices : List (Bor (List ℕ))) → Drains lends result slices → joined slices ≡ self.now.edited.text }
    {
        Slices::new(self, 0, self.len())
    }

    /// Copies the text between two character boundaries.
    ///
    /// Errors: `NotABoundary`, also where `start > stop`; `OutOfMemory`.
    pub fn copy_range(&self, start: usize, stop: usize) -> Result<String, TextError>
        ensures bytes { IfOk result (λ copy. string_bytes copy ≡ slice_range self.now.edited.text start stop) }
        ensures range { OnOk result (IsRange self.now.edited.text start stop) }
        ensures not_a_boundary { IsErrOf result TextError.NotABoundary → ¬ (IsRange self.now.edited.text start stop) }
        ensures boundary { ¬ (IsRange self.now.edited.text start stop) → IsErrOf result TextError.NotABoundary }
        ensures never_too_long { IsErrOf result TextError.TooLong → ⊥ }
    {
        if !self.is_range(start, stop) {
            return Err(TextError::NotABoundary);
        }
        let mut copy = String::with_capacity(*self.added.allocator(), stop - start)?;
        for slice in Slices::new(self, start, stop) {
            copy.push_str(slice)?;
        }
        Ok(copy)
    }

    /// Makes room for `bytes` bytes, unless it was made before.
    fn make_room(&mut self, bytes: usize) -> Result<(), TextError>
        ensures ok { OnOk result ((self.new.edited ≡ self.old.edited) × HasRoomFor self.new.room bytes) }
        ensures err { OnErr result ((self.new ≡ self.old) × (result ≡ Err TextError.OutOfMemory)) }
        ensures made { HasRoomFor self.old.room bytes → IsOk result }
    {
        if self.has_room_for(bytes) {
            return Ok(());
        }
        self.ready(bytes)
    }

    /// Inserts text at the offset `pos`, a character boundary, as one edit even if it has no bytes. Empties the future. `before`
    /// and `after` are the cursor's places before and after the edit.
    ///
    /// Errors, in this order, each leaving all unchanged: `NotABoundary`; `TooLong` where the text would
    /// exceed 16,777,216 bytes; `OutOfMemory`, unless `ready` made room.
    pub fn insert(
        &mut self,
        pos: usize,
        text: &str,
        before: usize,
        after: usize,
    ) -> Result<Change, TextError>
        ensures ok { OnOk result (self.new ≡ record { edited = inserted self.old.edited pos text.now before after; room = None }) }
        ensures change { IfOk result (λ c. c ≡ record { start = pos; removed = 0; added = length text.now; place = after }) }
        ensures is_change { IfOk result (λ c. IsChange self.old.edited.text c self.new.edited.text) }
        ensures err { OnErr result (self.new ≡ self.old) }

        // Each error comes for its own cause alone.
        ensures not_a_boundary { IsErrOf result TextError.NotABoundary → ¬ (IsCharBoundary self.old.edited.text pos) }
        ensures boundary { ¬ (IsCharBoundary self.old.edited.text pos) → IsErrOf result TextError.NotABoundary }
        ensures too_long { IsErrOf result TextError.TooLong → fits self.old.edited.text pos pos text.now ≡ false }
        ensures short { IsCharBoundary self.old.edited.text pos → fits self.old.edited.text pos pos text.now ≡ false → IsErrOf result TextError.TooLong }
        ensures memory { HasRoomFor self.old.room (length text.now) → IsErrOf result TextError.OutOfMemory → ⊥ }
    {
        if !self.is_boundary(pos) {
            return Err(TextError::NotABoundary);
        }
        if text.len() > LARGEST_TEXT - self.len() {
            return Err(TextError::TooLong);
        }
        self.make_room(text.len())?;
        Ok(self.replace(pos, 0, text, before, after))
    }

    /// Removes the text between two character boundaries, as one edit even if it has no bytes. Empties the
    /// future. `before` and `after` are the places before and after the edit.
    ///
    /// Errors, each leaving all unchanged: `NotABoundary`, also where `start > stop`; `OutOfMemory`, unless
    /// `ready` made room.
    pub fn remove(
        &mut self,
        start: usize,
        stop: usize,
        before: usize,
        after: usize,
    ) -> Result<Change, TextError>
        ensures ok { OnOk result (self.new ≡ record { edited = removed self.old.edited start stop before after; room = None }) }
        ensures change { IfOk result (λ c. c ≡ record { start = start; removed = stop - start; added = 0; place = after }) }
        ensures is_change { IfOk result (λ c. IsChange self.old.edited.text c self.new.edited.text) }
        ensures err { OnErr result (self.new ≡ self.old) }

        // Each error comes for its own cause alone.
        ensures range { OnOk result (IsRange self.old.edited.text start stop) }
        ensures not_a_boundary { IsErrOf result TextError.NotABoundary → ¬ (IsRange self.old.edited.text start stop) }
        ensures boundary { ¬ (IsRange self.old.edited.text start stop) → IsErrOf result TextError.NotABoundary }
        ensures never_too_long { IsErrOf result TextError.TooLong → ⊥ }
        ensures memory { IsSome self.old.room → IsErrOf result TextError.OutOfMemory → ⊥ }
    {
        if !self.is_range(start, stop) {
            return Err(TextError::NotABoundary);
        }
        self.make_room(0)?;
        Ok(self.replace(start, stop - start, "", before, after))
    }

    /// Undoes the latest edit; none if the past is empty.
    ///
    /// Errors: `OutOfMemory`, leaving all unchanged.
    #[tactic(auto, using(crate::proofs::OneStep::undo_one))]
    pub fn undo(&mut self) -> Result<Option<Change>, TextError>
        ensures ok { OnOk result (self.new.edited ≡ undone self.old.edited) }
        ensures change { IfOk result (λ c. c ≡ next_undo self.old.edited) }
        ensures is_change { IfOk result (λ change. IfSome change (λ c. IsChange self.old.edited.text c self.new.edited.text)) }
        ensures nothing { next_undo self.old.edited ≡ None → IsOk result }
        ensures err { OnErr result ((self.new ≡ self.old) × (result ≡ Err TextError.OutOfMemory)) }
    {
        self.undo_times(1)
    }

    /// Redoes the next edit; none if the future is empty.
    ///
    /// Errors: `OutOfMemory`, leaving all unchanged.
    #[tactic(auto, using(crate::proofs::OneStep::redo_one))]
    pub fn redo(&mut self) -> Result<Option<Change>, TextError>
        ensures ok { OnOk result (self.new.edited ≡ redone self.old.edited) }
        ensures change { IfOk result (λ c. c ≡ next_redo self.old.edited) }
        ensures is_change { IfOk result (λ change. IfSome change (λ c. IsChange self.old.edited.text c self.new.edited.text)) }
        ensures nothing { next_redo self.old.edited ≡ None → IsOk result }
        ensures err { OnErr result ((self.new ≡ self.old) × (result ≡ Err TextError.OutOfMemory)) }
    {
        self.redo_times(1)
    }
}
