//! Two edits made together, both or neither, which are two entries of the past.

ghost use Rattle.std.specs.Prelude.{◌≡◌, [], ◌∷◌, ◌++◌, ◌+◌, ◌-◌, ◌≤◌, ◌<◌, ◌^◌, ◌↔◌, false, IfOk, IsErrOf, IsTrue, OnErr, OnOk, length, vec_len, vec_capacity, string_len, string_capacity, string_bytes};
ghost use Rattle.std.specs.Str.{IsCharBoundary, IsUtf8};
ghost use Rattle.bx_text.specs.pieces.Pieces.{total, front, back, IsAddressable};
ghost use Rattle.bx_text.specs.Buffers.{with_added};
ghost use Rattle.bx_text.specs.Edits.{fits, fits_both, largest_text, merged, splice, wrapped};
ghost use Rattle.bx_text.specs.Changes.{IsChange, IsRange, exchanged};
ghost use Rattle.bx_text.specs.Replacements.{change_inserted, change_made, change_removed, made, text_after};

use crate::change::Change;
use crate::error::TextError;
use crate::pieces::{Pieces, Spares};
use crate::step::Step;
use crate::swap::put;
use crate::text::Text;
use crate::turns::merge;
use bx_common::LARGEST_TEXT;
use std::alloc::AllocError;

/// The cursor's places before two edits, between them and after them, in bytes.
#[derive(Clone, Copy)]
pub struct EditPlaces {
    pub before: usize,
    pub between: usize,
    pub after: usize,
}

/// An edit to make: `text` replaces `len` bytes from `start` on. `before` and `after` are the cursor's places, in bytes.
#[derive(Clone, Copy)]
pub struct Replacement<'a> {
    pub start: usize,
    pub len: usize,
    pub text: &'a str,
    pub before: usize,
    pub after: usize,
}

impl<'a> Replacement<'a> {
    /// The change that the edit makes.
    fn change(&self) -> Change
        ensures { result ≡ change_made self.now }
    {
        Change {
            start: self.start,
            removed: self.len,
            added: self.text.len(),
            place: self.after,
        }
    }
}

/// Makes an edit in room made before: appends its text to the buffer `added`, changes `pieces`, and pushes the step that undoes it
/// to `past`. Allocates nothing.
fn make(
    pieces: &mut Pieces,
    added: &mut String,
    past: &mut Vec<Step>,
    spares: &mut Spares,
    edit: &Replacement<'_>,
)
    requires room { string_len added.old + length edit.now.text.now ≤ string_capacity added.old }
    requires step { vec_len past.old + 1 ≤ vec_capacity past.old }
    requires spare { 3 ≤ spares.old }
    requires fits { IsAddressable pieces.old }
    requires small { total pieces.old + length edit.now.text.now < 2 ^ 64 }
    ensures buffer { string_bytes added.new ≡ string_bytes added.old ++ edit.now.text.now }
    ensures capacity { string_capacity added.old ≤ string_capacity added.new }
    ensures pieces { pieces.new ≡ with_added (front pieces.old edit.now.start) (string_len added.old) (length edit.now.text.now)
        ++ back (back pieces.old edit.now.start) edit.now.len }
    ensures past { past.new.items ≡ past.old.items ++ (record {
      start = edit.now.start;
      span = front (back pieces.old edit.now.start) edit.now.len;
      len = length edit.now.text.now;
      before = edit.now.before;
      after = edit.now.after;
    }) ∷ [] }
    ensures one_more { vec_len past.new ≡ vec_len past.old + 1 }
    ensures past_capacity { vec_capacity past.old ≤ vec_capacity past.new }
    ensures spares { spares.old ≤ spares.new + 3 }
{
    let old = put(pieces, edit.start, edit.len, added, edit.text, spares);
    let step = Step {
        start: edit.start,
        span: old,
        len: edit.text.len(),
        before: edit.before,
        after: edit.after,
    };
    past.push(step).unwrap();
}

/// Makes room for two edits that put in `bytes` bytes together, each with at most three nodes (`put`). If memory runs out, only
/// room is gained.
fn make_room(
    added: &mut String,
    past: &mut Vec<Step>,
    spares: &mut Spares,
    bytes: usize,
) -> Result<(), AllocError>
    ensures buffer { string_bytes added.new ≡ string_bytes added.old }
    ensures len { string_len added.new ≡ string_len added.old }
    ensures capacity { string_capacity added.old ≤ string_capacity added.new }
    ensures items { past.new.items ≡ past.old.items }
    ensures past_len { vec_len past.new ≡ vec_len past.old }
    ensures past_capacity { vec_capacity past.old ≤ vec_capacity past.new }
    ensures spares { spares.old ≤ spares.new }
    ensures room { OnOk result (string_len added.new + bytes ≤ string_capacity added.new) }
    ensures steps { OnOk result (vec_len past.new + 2 ≤ vec_capacity past.new) }
    ensures nodes { OnOk result (6 ≤ spares.new) }
{
    added.reserve(bytes)?;
    past.reserve(2)?;
    spares.fill(6)?;
    Ok(())
}

impl Text {
    /// Makes two edits, one after the other; the offsets of `second` are those of the text after `first`.
    fn replace_twice(
        &mut self,
        first: &Replacement<'_>,
        second: &Replacement<'_>,
    ) -> Result<Change, TextError>
        requires utf8 { IsUtf8 first.now.text.now × IsUtf8 second.now.text.now }
        requires first { IsRange self.old.edited.text first.now.start (first.now.start + first.now.len) }
        requires second { IsRange (text_after self.old.edited.text first.now) second.now.start (second.now.start + second.now.len) }
        requires short { length self.old.edited.text + length first.now.text.now ≤ largest_text + first.now.len }
        requires both_short { length self.old.edited.text + length first.now.text.now + length second.now.text.now
            ≤ largest_text + first.now.len + second.now.len }
        ensures ok { OnOk result (self.new ≡ record { edited = made (made self.old.edited first.now) second.now; room = None }) }
        ensures change { IfOk result (λ c. c ≡ merged (change_made first.now) (change_made second.now)) }
        ensures is_change { IfOk result (λ c. IsChange self.old.edited.text c self.new.edited.text) }
        ensures err { OnErr result ((self.new ≡ self.old) × (result ≡ Err TextError.OutOfMemory)) }
    {
        let bytes = first.text.len() + second.text.len();
        make_room(&mut self.added, &mut self.past, &mut self.spares, bytes)?;
        make(
            &mut self.pieces,
            &mut self.added,
            &mut self.past,
            &mut self.spares,
            first,
        );
        make(
            &mut self.pieces,
            &mut self.added,
            &mut self.past,
            &mut self.spares,
            second,
        );
        self.future.clear();
        self.room = None;
        Ok(merge(first.change(), second.change()))
    }

    /// Whether `at` is a character boundary of the text without the bytes from `start` to `stop`; `at` counts without them.
    fn is_boundary_without(&self, start: usize, stop: usize, at: usize) -> bool
        requires range { IsRange self.now.edited.text start stop }
        ensures { IsTrue result ↔ IsCharBoundary (splice self.now.edited.text start stop []) at }
    {
        if at <= start {
            return self.is_boundary(at);
        }
        if at > self.len() - (stop - start) {
            return false;
        }
        self.is_boundary(at + (stop - start))
    }

    /// Removes the text between two character boundaries, and inserts `new` at an offset `at` of the text without it: two
    /// edits, of which the second is undone first. Empties the future.
    ///
    /// Errors, in this order, each leaving all unchanged: `NotABoundary`, also where `start > stop`; `TooLong` where the
    /// text would exceed 16,777,216 bytes after both; `OutOfMemory`.
    pub fn exchange(
        &mut self,
        start: usize,
        stop: usize,
        at: usize,
        new: &str,
        places: EditPlaces,
    ) -> Result<Change, TextError>
        ensures ok { OnOk result (self.new ≡ record {
          edited = exchanged self.old.edited start stop at new.now places.before places.between places.after;
          room = None;
        }) }
        ensures change { IfOk result (λ c. c ≡ merged (change_removed start stop places.between) (change_inserted at (length new.now) places.after)) }
        ensures is_change { IfOk result (λ c. IsChange self.old.edited.text c self.new.edited.text) }
        ensures err { OnErr result (self.new ≡ self.old) }

        // Each error comes for its own cause alone.
        ensures range { OnOk result (IsRange self.old.edited.text start stop × IsCharBoundary (splice self.old.edited.text start stop []) at) }
        ensures not_a_boundary { IsErrOf result TextError.NotABoundary
            → ¬ (IsRange self.old.edited.text start stop × IsCharBoundary (splice self.old.edited.text start stop []) at) }
        ensures boundary { ¬ (IsRange self.old.edited.text start stop × IsCharBoundary (splice self.old.edited.text start stop []) at)
            → IsErrOf result TextError.NotABoundary }
        ensures too_long { IsErrOf result TextError.TooLong → fits self.old.edited.text start stop new.now ≡ false }
        ensures short { IsRange self.old.edited.text start stop → IsCharBoundary (splice self.old.edited.text start stop []) at
            → fits self.old.edited.text start stop new.now ≡ false → IsErrOf result TextError.TooLong }
    {
        if !self.is_range(start, stop) {
            return Err(TextError::NotABoundary);
        }
        if !self.is_boundary_without(start, stop, at) {
            return Err(TextError::NotABoundary);
        }
        let kept = self.len() - (stop - start);
        if new.len() > LARGEST_TEXT - kept {
            return Err(TextError::TooLong);
        }
        let removal = Replacement {
            start,
            len: stop - start,
            text: "",
            before: places.before,
            after: places.between,
        };
        let insertion = Replacement {
            start: at,
            len: 0,
            text: new,
            before: places.between,
            after: places.after,
        };
        self.replace_twice(&removal, &insertion)
    }

    /// Inserts `back` after the text between two character boundaries, and `front` before it: two edits, of which the
    /// second is undone first. Empties the future.
    ///
    /// Errors, in this order, each leaving all unchanged: `NotABoundary`, also where `start > stop`; `TooLong` where the
    /// text would exceed 16,777,216 bytes after both; `OutOfMemory`.
    pub fn wrap(
        &mut self,
        start: usize,
        stop: usize,
        front: &str,
        back: &str,
        places: EditPlaces,
    ) -> Result<Change, TextError>
        ensures ok { OnOk result (self.new ≡ record {
          edited = wrapped self.old.edited start stop front.now back.now places.before places.between places.after;
          room = None;
        }) }
        ensures change { IfOk result (λ c. c ≡ record {
          start = start;
          removed = stop - start;
          added = length front.now + (stop - start) + length back.now;
          place = places.after;
        }) }
        ensures is_change { IfOk result (λ c. IsChange self.old.edited.text c self.new.edited.text) }
        ensures err { OnErr result (self.new ≡ self.old) }

        // Each error comes for its own cause alone.
        ensures range { OnOk result (IsRange self.old.edited.text start stop) }
        ensures not_a_boundary { IsErrOf result TextError.NotABoundary → ¬ (IsRange self.old.edited.text start stop) }
        ensures boundary { ¬ (IsRange self.old.edited.text start stop) → IsErrOf result TextError.NotABoundary }
        ensures too_long { IsErrOf result TextError.TooLong → fits_both self.old.edited.text front.now back.now ≡ false }
        ensures short { IsRange self.old.edited.text start stop → fits_both self.old.edited.text front.now back.now ≡ false → IsErrOf result TextError.TooLong }
    {
        if !self.is_range(start, stop) {
            return Err(TextError::NotABoundary);
        }
        if front.len() + back.len() > LARGEST_TEXT - self.len() {
            return Err(TextError::TooLong);
        }
        let behind = Replacement {
            start: stop,
            len: 0,
            text: back,
            before: places.before,
            after: places.between,
        };
        let ahead = Replacement {
            start,
            len: 0,
            text: front,
            before: places.between,
            after: places.after,
        };
        self.replace_twice(&behind, &ahead)
    }
}
