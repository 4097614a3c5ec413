//! Many edits undone or redone at once.

ghost use Rattle.std.specs.Prelude.{◌≡◌, None, IfOk, IfSome, IsOk, OnErr, OnOk, length};
ghost use Rattle.bx_text.specs.Edits.{next_redos, next_undos, redone_times, undone_times};
ghost use Rattle.bx_text.specs.Changes.{IsChange};

use crate::change::Change;
use crate::error::TextError;
use crate::step::Way;
use crate::text::Text;
use crate::turns::{change_of_last, make_room_to_turn, turn_times};

impl Text {
    /// The one change that `undo_times` would make next; none if `n` is 0 or the past is empty. Allocates nothing.
    pub fn next_undos(&self, n: usize) -> Option<Change>
        ensures { result ≡ next_undos n self.now.edited }
    {
        change_of_last(&self.past, n, Way::Back)
    }

    /// The one change that `redo_times` would make next; none if `n` is 0 or the future is empty. Allocates nothing.
    pub fn next_redos(&self, n: usize) -> Option<Change>
        ensures { result ≡ next_redos n self.now.edited }
    {
        change_of_last(&self.future, n, Way::Again)
    }

    /// Undoes the latest `n` edits, or all if there are fewer, and returns the one change from the text before to the text
    /// after; none if `n` is 0 or the past is empty.
    ///
    /// Errors: `OutOfMemory`, leaving all unchanged.
    pub fn undo_times(&mut self, n: usize) -> Result<Option<Change>, TextError>
        ensures ok { OnOk result (self.new.edited ≡ undone_times n self.old.edited) }
        ensures change { IfOk result (λ c. c ≡ next_undos n self.old.edited) }
        ensures is_change { IfOk result (λ change. IfSome change (λ c. IsChange self.old.edited.text c self.new.edited.text)) }
        ensures nothing { next_undos n self.old.edited ≡ None → IsOk result }
        ensures err { OnErr result ((self.new ≡ self.old) × (result ≡ Err TextError.OutOfMemory)) }
    {
        let change = self.next_undos(n);
        if change.is_none() {
            return Ok(change);
        }
        let count = n.min(self.past.len());
        make_room_to_turn(&mut self.future, &mut self.spares, count)?;
        turn_times(
            &mut self.pieces,
            &mut self.past,
            &mut self.future,
            &mut self.spares,
            count,
        );
        self.room = None;
        Ok(change)
    }

    /// Redoes the next `n` edits, or all if there are fewer, and returns the one change from the text before to the text
    /// after; none if `n` is 0 or the future is empty.
    ///
    /// Errors: `OutOfMemory`, leaving all unchanged.
    pub fn redo_times(&mut self, n: usize) -> Result<Option<Change>, TextError>
        ensures ok { OnOk result (self.new.edited ≡ redone_times n self.old.edited) }
        ensures change { IfOk result (λ c. c ≡ next_redos n self.old.edited) }
        ensures is_change { IfOk result (λ change. IfSome change (λ c. IsChange self.old.edited.text c self.new.edited.text)) }
        ensures nothing { next_redos n self.old.edited ≡ None → IsOk result }
        ensures err { OnErr result ((self.new ≡ self.old) × (result ≡ Err TextError.OutOfMemory)) }
    {
        let change = self.next_redos(n);
        if change.is_none() {
            return Ok(change);
        }
        let count = n.min(self.future.len());
        make_room_to_turn(&mut self.past, &mut self.spares, count)?;
        turn_times(
            &mut self.pieces,
            &mut self.future,
            &mut self.past,
            &mut self.spares,
            count,
        );
        self.room = None;
        Ok(change)
    }
    /// The number of edits in the past. Allocates nothing.
    pub fn past_len(&self) -> usize
        ensures { result ≡ length self.now.edited.past }
    {
        self.past.len()
    }

    /// The number of edits in the future. Allocates nothing.
    pub fn future_len(&self) -> usize
        ensures { result ≡ length self.now.edited.future }
    {
        self.future.len()
    }
}
