//! Insertions and removals, each with the cursor's place after it. Each allocates first and then changes the text.
ghost use Rattle.std.specs.Prelude.{◌≡◌, ℕ, List, [], ◌++◌, ◌+◌, ◌-◌, ◌≤◌, IsCharBoundary, length, slice_range, string_bytes, Some, true, false};
ghost use Rattle.std.specs.Prelude.{IfOk, IfSome, IsErrOf, IsUtf8, MatchOption, OnErr, OnOk};
ghost use Rattle.bx_text.specs.Edits.{fits, fits_both, largest_text, splice};
ghost use Rattle.bx_text.specs.Changes.{IsRange};
ghost use Rattle.bx_view.specs.Moves.{place_at};
ghost use Rattle.bx_view.specs.Places.{IsTextPlace};
ghost use Rattle.bx_document.specs.Document.{after_exchange, after_insertion, after_removal, after_replacement, after_wrap, place_after};
ghost use Rattle.bx_document.specs.Document.{place_after_removal, place_after_replacement, place_after_wrap, replaced_text, rows_of};
ghost use Rattle.bx_document.specs.Swapped.{wrapped_end, wrapped_text};

use crate::document::Document;
use crate::touched::{place_after, place_at_inside, place_inside, stop_after};
use bx_common::{LARGEST_TEXT, OutOfMemory};
use bx_text::{EditPlaces, Text};
use bx_ucd::BidiData;
use std::alloc::Global;

/// The end of a region at which the cursor stands.
#[derive(Clone, Copy)]
pub enum RegionEnd {
    /// The lower offset, before the region's first unit.
    Start,
    /// The higher offset, after the region's last unit.
    Stop,
}

/// The offset of an end of the bytes from `start` to `stop` once `front` stands before them.
fn wrapped_end(end: RegionEnd, start: usize, stop: usize, front: &str) -> usize
    requires { (start ≤ largest_text) × (stop ≤ largest_text) × (length front.now ≤ largest_text) }
    ensures { result ≡ wrapped_end end start stop front.now }
{
    match end {
        RegionEnd::Start => start + front.len(),
        RegionEnd::Stop => stop + front.len(),
    }
}

/// A copy of the bytes from `start` to `stop` of the text, with `front` before and `back` after them.
pub(crate) fn wrapped(
    alloc: Global,
    text: &Text,
    start: usize,
    stop: usize,
    front: &str,
    back: &str,
) -> Result<String, OutOfMemory>
    requires { IsRange text.now.edited.text start stop }
    ensures { IfOk result (λ s. string_bytes s ≡ front.now ++ slice_range text.now.edited.text start stop ++ back.now) }
{
    let Ok(region) = text.copy_range(start, stop) else {
        return Err(OutOfMemory);
    };
    let mut whole = String::new(alloc);
    whole.push_str(front)?;
    whole.push_str(region.as_str())?;
    whole.push_str(back)?;
    Ok(whole)
}

impl<D: BidiData + Drop> Document<D> {
    /// The place after a pending edit that replaces the bytes from `start` to `stop` with `new`.
    pub(crate) fn place_after(
        &mut self,
        start: usize,
        stop: usize,
        new: &str,
    ) -> Result<usize, OutOfMemory>
        requires range { IsRange self.old.document.content.text start stop }
        requires fits { fits self.old.document.content.text start stop new.now ≡ true }
        ensures same { self.new ≡ self.old }
        ensures place { IfOk result (λ o. o ≡ place_after (D.data self.old.tables) self.old.document start stop new.now) }
        ensures text_place { IfOk result (IsTextPlace (D.data self.old.tables) (splice self.old.document.content.text start stop new.now)) }
        ensures order { IfOk result (λ o. start + length new.now ≤ o) }
    {
        let text_ref = self.indexed.text_ref();
        // The proof refers to the place by this name.
        let place = place_after(self.alloc, &text_ref, &mut self.view, start..stop, new)?;
        Ok(place)
    }

    /// The place after a pending removal of the bytes from `start` to `stop`.
    fn place_after_removal(&mut self, start: usize, stop: usize) -> Result<usize, OutOfMemory>
        requires range { IsRange self.old.document.content.text start stop }
        ensures same { self.new ≡ self.old }
        ensures place { IfOk result (λ o. o ≡ place_after_removal (D.data self.old.tables) self.old.document start stop) }
        ensures text_place { IfOk result (IsTextPlace (D.data self.old.tables) (splice self.old.document.content.text start stop [])) }
        ensures order { IfOk result (λ o. start ≤ o) }
    {
        let text_ref = self.indexed.text_ref();
        // The proof refers to the place by this name.
        let place = place_after(self.alloc, &text_ref, &mut self.view, start..stop, "")?;
        Ok(place)
    }

    /// Inserts characters at a place and returns the place after them; None, and no change, if the text would exceed
    /// 16,777,216 bytes.
    ///
    /// Errors: `OutOfMemory`, and nothing has changed.
    pub fn insert(&mut self, place: usize, new: &str) -> Result<Option<usize>, OutOfMemory>
        requires text_place { IsTextPlace (D.data self.old.tables) self.old.document.content.text place }
        ensures ok { IfOk result (λ after. MatchOption after
            ((fits self.old.document.content.text place place new.now ≡ false) × (self.new ≡ self.old))
            (λ o. (fits self.old.document.content.text place place new.now ≡ true)
            × (self.new ≡ record self.old {
              document = after_insertion (D.data self.old.tables) self.old.document place new.now;
            })
            × (o ≡ place_after (D.data self.old.tables) self.old.document place place new.now))) }
        ensures text_place { IfOk result (λ after. IfSome after (IsTextPlace (D.data self.new.tables) self.new.document.content.text)) }
        ensures err { OnErr result (self.new ≡ self.old) }
    {
        if new.len() > LARGEST_TEXT - self.indexed.len() {
            return Ok(None);
        }
        let after = self.place_after(place, place, new)?;
        self.indexed.insert(place, new, place, after)?;
        Ok(Some(after))
    }

    /// Removes the bytes from `start` to `stop` and returns the new place. The cursor was at `place`, to which undo returns it.
    ///
    /// Errors: `OutOfMemory`, and nothing has changed.
    pub fn remove(&mut self, start: usize, stop: usize, place: usize) -> Result<usize, OutOfMemory>
        requires range { IsRange self.old.document.content.text start stop }
        requires text_place { IsTextPlace (D.data self.old.tables) self.old.document.content.text place }
        ensures ok { OnOk result (self.new ≡ record self.old {
          document = after_removal (D.data self.old.tables) self.old.document start stop place;
        }) }
        ensures place { IfOk result (λ o. o ≡ place_after_removal (D.data self.old.tables) self.old.document start stop) }
        ensures text_place { IfOk result (IsTextPlace (D.data self.new.tables) self.new.document.content.text) }
        ensures err { OnErr result (self.new ≡ self.old) }
    {
        let after = self.place_after_removal(start, stop)?;
        self.indexed.remove(start..stop, place, after)?;
        Ok(after)
    }

    /// The place after a pending replacement of the bytes from `start` to `stop` by `new`. Their removal alone leads to the place
    /// `between`, at which `new` is inserted.
    fn place_after_both(
        &mut self,
        start: usize,
        stop: usize,
        between: usize,
        new: &str,
    ) -> Result<usize, OutOfMemory>
        requires range { IsRange self.old.document.content.text start stop }
        requires fits { fits self.old.document.content.text start stop new.now ≡ true }
        requires between { between ≡ place_after_removal (D.data self.old.tables) self.old.document start stop }
        requires order { start ≤ between }
        requires place { IsTextPlace (D.data self.old.tables) (splice self.old.document.content.text start stop []) between }
        ensures same { self.new ≡ self.old }
        ensures place { IfOk result (λ o. o ≡ place_after_replacement (D.data self.old.tables) self.old.document start stop new.now) }
        ensures text_place { IfOk result (IsTextPlace (D.data self.old.tables) (replaced_text (D.data self.old.tables) self.old.document start stop new.now)) }
    {
        let text_ref = self.indexed.text_ref();
        // The bytes after the removed ones, up to the place between, stay in front of the new text.
        let behind = stop + (between - start);
        let whole = wrapped(self.alloc, text_ref.text, stop, behind, "", new)?;
        // The proof refers to the place by this name.
        let place = self.place_after(start, behind, whole.as_str())?;
        Ok(place)
    }

    /// Removes the bytes from `start` to `stop`, then inserts `new` at the place after that, and returns the place after both;
    /// None, and no change, if the text would exceed 16,777,216 bytes. The cursor was at `place`. These are two edits: a first
    /// undo takes back the insertion, a second one the removal, and returns the cursor to `place`.
    ///
    /// Errors: `OutOfMemory`, and nothing has changed.
    pub fn replace(
        &mut self,
        start: usize,
        stop: usize,
        new: &str,
        place: usize,
    ) -> Result<Option<usize>, OutOfMemory>
        requires range { IsRange self.old.document.content.text start stop }
        requires text_place { IsTextPlace (D.data self.old.tables) self.old.document.content.text place }
        ensures ok { IfOk result (λ after. MatchOption after
            ((fits self.old.document.content.text start stop new.now ≡ false) × (self.new ≡ self.old))
            (λ o. (fits self.old.document.content.text start stop new.now ≡ true)
            × (self.new ≡ record self.old {
              document = after_replacement (D.data self.old.tables) self.old.document start stop new.now place;
            })
            × (o ≡ place_after_replacement (D.data self.old.tables) self.old.document start stop new.now))) }
        ensures text_place { IfOk result (λ after. IfSome after (IsTextPlace (D.data self.new.tables) self.new.document.content.text)) }
        ensures err { OnErr result (self.new ≡ self.old) }
    {
        let kept = self.indexed.len() - (stop - start);
        if new.len() > LARGEST_TEXT - kept {
            return Ok(None);
        }
        let between = self.place_after_removal(start, stop)?;
        let after = self.place_after_both(start, stop, between, new)?;
        let places = EditPlaces {
            before: place,
            between,
            after,
        };
        self.indexed.exchange(start..stop, between, new, places)?;
        Ok(Some(after))
    }

    /// Whether the text would be within 16,777,216 bytes with `new` in place of the bytes from `start` to `stop`. Allocates
    /// nothing.
    pub fn has_room(&self, start: usize, stop: usize, new: &str) -> bool
        requires range { IsRange self.now.document.content.text start stop }
        ensures { result ≡ fits self.now.document.content.text start stop new.now }
    {
        let kept = self.indexed.len() - (stop - start);
        new.len() <= LARGEST_TEXT - kept
    }

    /// Removes the bytes from `start` to `stop`, then inserts `new`, if it is not empty, at `start`, and returns the new place;
    /// None, and no change, if the text would exceed 16,777,216 bytes. The cursor was at `place`. These are at most two edits:
    /// undo takes back the insertion first, then the removal, and returns the cursor to `place`.
    ///
    /// Errors: `OutOfMemory`, and nothing has changed.
    pub fn exchange(
        &mut self,
        start: usize,
        stop: usize,
        new: &str,
        place: usize,
    ) -> Result<Option<usize>, OutOfMemory>
        requires range { IsRange self.old.document.content.text start stop }
        requires text_place { IsTextPlace (D.data self.old.tables) self.old.document.content.text place }
        ensures ok { IfOk result (λ after. MatchOption after
            ((fits self.old.document.content.text start stop new.now ≡ false) × (self.new ≡ self.old))
            (λ o. (fits self.old.document.content.text start stop new.now ≡ true)
            × (self.new ≡ record self.old {
              document = after_exchange (D.data self.old.tables) self.old.document start stop new.now place;
            })
            × (o ≡ place_after (D.data self.old.tables) self.old.document start stop new.now))) }
        ensures text_place { IfOk result (λ after. IfSome after (IsTextPlace (D.data self.new.tables) self.new.document.content.text)) }
        ensures err { OnErr result (self.new ≡ self.old) }
    {
        let kept = self.indexed.len() - (stop - start);
        if new.is_empty() {
            let after = self.remove(start, stop, place)?;
            return Ok(Some(after));
        }
        if new.len() > LARGEST_TEXT - kept {
            return Ok(None);
        }
        let between = self.place_after_removal(start, stop)?;
        let after = self.place_after(start, stop, new)?;
        let places = EditPlaces {
            before: place,
            between,
            after,
        };
        self.indexed.exchange(start..stop, start, new, places)?;
        Ok(Some(after))
    }

    /// The place to which an offset of the text, at or after `stop`, leads once the bytes from `start` to `stop` have given way
    /// to `new`: the last place of the new text at or before the offset, moved as the bytes after `stop` are.
    pub fn place_behind(
        &mut self,
        start: usize,
        stop: usize,
        new: &str,
        offset: usize,
    ) -> Result<usize, OutOfMemory>
        requires range { IsRange self.old.document.content.text start stop }
        requires fits { fits self.old.document.content.text start stop new.now ≡ true }
        requires bounds { IsCharBoundary self.old.document.content.text offset }
        requires behind { stop ≤ offset }
        ensures same { self.new ≡ self.old }
        ensures place { IfOk result (λ o. o ≡ place_at (rows_of (D.data self.old.tables) self.old.document
            (splice self.old.document.content.text start stop new.now)) (offset - stop + start + length new.now)) }
        ensures text_place { IfOk result (IsTextPlace (D.data self.old.tables) (splice self.old.document.content.text start stop new.now)) }
    {
        let text_ref = self.indexed.text_ref();
        // Paragraphs behind the touched ones only move.
        if stop_after(&text_ref, stop) <= offset {
            let place = self.view.place_at(&text_ref, offset)?;
            return Ok(place - stop + start + new.len());
        }
        // The proof refers to the place by this name.
        let place = place_at_inside(
            self.alloc,
            &text_ref,
            &mut self.view,
            start..stop,
            new,
            offset - stop + start + new.len(),
        )?;
        Ok(place)
    }

    /// The place after a pending `wrap`, for a cursor at the end `end` of the bytes from `start` to `stop`.
    fn place_after_wrap(
        &mut self,
        start: usize,
        stop: usize,
        front: &str,
        back: &str,
        end: RegionEnd,
    ) -> Result<usize, OutOfMemory>
        requires range { IsRange self.old.document.content.text start stop }
        requires fits { fits_both self.old.document.content.text front.now back.now ≡ true }
        ensures same { self.new ≡ self.old }
        ensures place { IfOk result (λ o. o ≡ place_after_wrap (D.data self.old.tables) self.old.document start stop front.now back.now end) }
        ensures text_place { IfOk result (IsTextPlace (D.data self.old.tables)
            (wrapped_text self.old.document.content.text start stop front.now back.now)) }
    {
        let text_ref = self.indexed.text_ref();
        let whole = wrapped(self.alloc, text_ref.text, start, stop, front, back)?;
        let offset = wrapped_end(end, start, stop, front);
        // The proof refers to the place by this name.
        let place = place_inside(
            self.alloc,
            &text_ref,
            &mut self.view,
            start..stop,
            whole.as_str(),
            offset,
        )?;
        Ok(place)
    }

    /// Inserts `back` after the bytes from `start` to `stop`, then `front` before them, and returns the new place; None, and
    /// no change, if the text would exceed 16,777,216 bytes after both. The cursor was at `place`, which was the end `end` of
    /// those bytes, and stays at that end. These are two edits: undo takes back the insertion of `front` first.
    ///
    /// Errors: `OutOfMemory`, and nothing has changed.
    pub fn wrap(
        &mut self,
        start: usize,
        stop: usize,
        front: &str,
        back: &str,
        place: usize,
        end: RegionEnd,
    ) -> Result<Option<usize>, OutOfMemory>
        requires range { IsRange self.old.document.content.text start stop }
        requires text_place { IsTextPlace (D.data self.old.tables) self.old.document.content.text place }
        ensures ok { IfOk result (λ after. MatchOption after
            ((fits_both self.old.document.content.text front.now back.now ≡ false) × (self.new ≡ self.old))
            (λ o. (fits_both self.old.document.content.text front.now back.now ≡ true)
            × (self.new ≡ record self.old {
              document = after_wrap (D.data self.old.tables) self.old.document start stop front.now back.now place end;
            })
            × (o ≡ place_after_wrap (D.data self.old.tables) self.old.document start stop front.now back.now end))) }
        ensures text_place { IfOk result (λ after. IfSome after (IsTextPlace (D.data self.new.tables) self.new.document.content.text)) }
        ensures err { OnErr result (self.new ≡ self.old) }
    {
        if front.len() + back.len() > LARGEST_TEXT - self.indexed.len() {
            return Ok(None);
        }
        let between = self.place_after(stop, stop, back)?;
        let after = self.place_after_wrap(start, stop, front, back, end)?;
        let places = EditPlaces {
            before: place,
            between,
            after,
        };
        self.indexed.insert_pair(start..stop, front, back, places)?;
        Ok(Some(after))
    }
}
