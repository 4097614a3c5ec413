//! What the editor keeps of the past of edits.
ghost use Rattle.std.specs.Prelude.{◌≡◌, true};
ghost use Rattle.bx_editor.specs.undo_groups.Groups.{edited};
ghost use Rattle.bx_editor.specs.Editor.{stored_behind};

use crate::undo_groups::UndoGroups;

/// The length of the past at which the text is the stored one, once an edit was made at the length `n`, which drops what could be
/// redone; None if no undo or redo leads to that text any more.
fn stored_behind(n: usize, stored: Option<usize>) -> Option<usize>
    ensures { result ≡ stored_behind n stored }
{
    match stored {
        Some(stored) if n < stored => None,
        stored => stored,
    }
}

/// The lengths of the past at which undo groups begin, and the one at which the text is the stored one, if there is one. A
/// length counts edits.
#[derive(Drop)]
pub(crate) struct Past {
    pub(crate) undo_groups: UndoGroups,
    pub(crate) stored: Option<usize>,
    /// The text counts as changed since it was stored.
    pub(crate) changed: bool,
}

impl Past {
    /// Takes in an edit that was made at the length `n`, and goes on with the undo group before or begins one. Allocates nothing.
    pub(crate) fn edited(&mut self, n: usize, goes_on: bool)
        requires room { self.old.undo_groups.room ≡ true }
        ensures runs { self.new.undo_groups.numbers ≡ edited self.old.undo_groups.numbers n goes_on }
        ensures stored { self.new.stored ≡ stored_behind n self.old.stored }
        ensures changed { self.new.changed ≡ true }
    {
        self.undo_groups.edited(n, goes_on);
        self.stored = stored_behind(n, self.stored);
        self.changed = true;
    }
}
