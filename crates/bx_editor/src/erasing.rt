//! The keys that remove a unit, a word or a point, or the selection.
ghost use Rattle.std.specs.Prelude.{◌≡◌, ◌==◌, true, false, IfOk, OnErr, OnOk};
ghost use Rattle.std.specs.List.{list_all};
ghost use Rattle.bx_text.specs.Changes.{IsRange};
ghost use Rattle.bx_view.specs.Moves.{step_logical};
ghost use Rattle.bx_view.specs.Moved.{moved};
ghost use Rattle.bx_view.specs.Words.{step_word};
ghost use Rattle.bx_editor.specs.Editor.{cleared, rows, with_removal};
ghost use Rattle.bx_editor.specs.Erasing.{after_erasing, after_erasing_word, after_removing, erased_from, is_behind_spaces, removed_on};
ghost use Rattle.bx_editor.specs.Functions.{goes_back, goes_on};
ghost use Rattle.bx_editor.specs.Region.{line, region};
ghost use Rattle.bx_editor.specs.declared.undo_groups.typing.Removal.{Removal};

use crate::editor::Editor;
use crate::undo_groups::Removal;
use bx_common::{OutOfMemory, Range};
use bx_ucd::BidiData;
use bx_view::{Logical, Move};

/// Whether a text has nothing but spaces.
fn are_spaces(text: &str) -> bool
    ensures { result ≡ list_all (λ b. b == 0x20) text.now }
{
    text.bytes().all(|byte| byte == b' ')
}

impl<D: BidiData + Drop> Editor<D> {
    /// Removes the bytes from `start` to `stop`, as an edit that goes on with the undo group before or begins one.
    pub(crate) fn remove(
        &mut self,
        start: usize,
        stop: usize,
        goes_on: bool,
    ) -> Result<(), OutOfMemory>
        requires range { IsRange self.old.editor.content.text start stop }
        ensures ok { OnOk result (self.new ≡ record self.old {
          editor = with_removal (D.data self.old.tables) (cleared self.old.editor) start stop goes_on;
        }) }
        ensures err { OnErr result (self.new ≡ self.old) }
    {
        self.past.undo_groups.reserve()?;
        let n = self.document.past_len();
        let place = self.document.remove(start, stop, self.cursor.place)?;
        self.past.edited(n, goes_on);
        self.cursor.move_after_edit(place);
        self.reset_after_key();
        Ok(())
    }

    /// Removes the bytes from `start` to `stop` as a removal that goes on with removals of its like. If there are none, only
    /// clears the message.
    fn remove_on(&mut self, how: Removal, start: usize, stop: usize) -> Result<(), OutOfMemory>
        requires range { IsRange self.old.editor.content.text start stop }
        ensures ok { OnOk result (self.new ≡ record self.old {
          editor = removed_on (D.data self.old.tables) self.old.editor.typing how (cleared self.old.editor) start stop;
        }) }
        ensures err { OnErr result (self.new ≡ self.old) }
    {
        if start == stop {
            self.reset_after_key();
            return Ok(());
        }
        let goes_on = self.typing.goes_on_removing(how);
        self.remove(start, stop, goes_on)?;
        self.typing = how.typing();
        Ok(())
    }

    /// Removes the bytes from `start` to `stop` by themselves. If there are none, only clears the message.
    fn remove_alone(&mut self, start: usize, stop: usize) -> Result<(), OutOfMemory>
        requires range { IsRange self.old.editor.content.text start stop }
        ensures ok { OnOk result (self.new ≡ record self.old {
          editor = after_removing (D.data self.old.tables) (cleared self.old.editor) start stop false;
        }) }
        ensures err { OnErr result (self.new ≡ self.old) }
    {
        if start == stop {
            self.reset_after_key();
            return Ok(());
        }
        self.remove(start, stop, false)
    }

    /// Removes the selection.
    fn remove_selection(&mut self) -> Result<(), OutOfMemory>
        ensures ok { OnOk result (self.new ≡ record self.old {
          editor = with_removal (D.data self.old.tables) (cleared self.old.editor) ((region self.old.editor).0) ((region self.old.editor).1) false;
        }) }
        ensures err { OnErr result (self.new ≡ self.old) }
    {
        let Range { start, stop } = self.region();
        self.remove(start, stop, false)
    }

    /// Where a move back from the place leads.
    fn back_by(&mut self, back: Move) -> Result<usize, OutOfMemory>
        requires back { goes_back back ≡ true }
        ensures same { self.new ≡ self.old }
        ensures place { IfOk result (λ p. p ≡ moved (D.data self.old.tables) self.old.editor.content.text self.old.editor.width
            (rows (D.data self.old.tables) self.old.editor) back self.old.editor.place) }
        ensures range { IfOk result (λ p. IsRange self.old.editor.content.text p self.old.editor.place) }
    {
        // The proof refers to the place by this name.
        let place = self.document.moved(back, self.cursor.place)?;
        Ok(place)
    }

    /// Where a move forward from the place leads.
    pub(crate) fn on_by(&mut self, on: Move) -> Result<usize, OutOfMemory>
        requires on { goes_on on ≡ true }
        ensures same { self.new ≡ self.old }
        ensures place { IfOk result (λ p. p ≡ moved (D.data self.old.tables) self.old.editor.content.text self.old.editor.width
            (rows (D.data self.old.tables) self.old.editor) on self.old.editor.place) }
        ensures range { IfOk result (λ p. IsRange self.old.editor.content.text self.old.editor.place p) }
    {
        // The proof refers to the place by this name.
        let place = self.document.moved(on, self.cursor.place)?;
        Ok(place)
    }

    /// Removes the unit before the place, or the selection.
    pub(crate) fn erase(&mut self) -> Result<(), OutOfMemory>
        ensures ok { OnOk result (self.new ≡ record self.old {
          editor = after_erasing (D.data self.old.tables) self.old.editor.typing Removal.Erase (cleared self.old.editor)
              (step_logical (rows (D.data self.old.tables) self.old.editor) Logical.Back self.old.editor.place) self.old.editor.place;
        }) }
        ensures err { OnErr result (self.new ≡ self.old) }
    {
        if self.is_selection() {
            return self.remove_selection();
        }
        let start = self.back_by(Move::Logical(Logical::Back))?;
        self.remove_on(Removal::Erase, start, self.cursor.place)
    }

    /// Whether there is a tab's width, and only spaces stand before the place in its line, one at least.
    fn is_behind_spaces(&self, start: usize) -> Result<bool, OutOfMemory>
        requires start { start ≡ (line (D.data self.now.tables) self.now.editor).0 }
        requires range { IsRange self.now.editor.content.text start self.now.editor.place }
        ensures { IfOk result (λ is. is ≡ is_behind_spaces (D.data self.now.tables) self.now.editor) }
    {
        if self.tab_width == 0 || start >= self.cursor.place {
            return Ok(false);
        }
        let before = self.document.copy(start, self.cursor.place)?;
        Ok(are_spaces(before.as_str()))
    }

    /// Where what ErasePoint removes begins: at the multiple of the tab's width before the place where only spaces stand before it in its
    /// line, else at the last point of the unit before it, or at that unit.
    fn erased_from(&mut self) -> Result<usize, OutOfMemory>
        ensures same { self.new ≡ self.old }
        ensures start { IfOk result (λ o. o ≡ erased_from (D.data self.old.tables) self.old.editor) }
        ensures range { IfOk result (λ o. IsRange self.old.editor.content.text o self.old.editor.place) }
    {
        let place = self.cursor.place;
        let start = self.line_start();
        if self.is_behind_spaces(start)? {
            let width = usize::from(self.tab_width);
            return Ok(place - ((place - start - 1) % width + 1));
        }
        let unit = self.back_by(Move::Logical(Logical::Back))?;
        self.document.start_of_point(unit, place)
    }

    /// Removes the last point of the unit before the place; if its last character is no point, the unit. With a tab's width removes
    /// spaces back to its multiple, where only spaces stand before the place. A selection is removed in its place.
    pub(crate) fn erase_point(&mut self) -> Result<(), OutOfMemory>
        ensures ok { OnOk result (self.new ≡ record self.old {
          editor = after_erasing (D.data self.old.tables) self.old.editor.typing Removal.Erase (cleared self.old.editor)
              (erased_from (D.data self.old.tables) self.old.editor) self.old.editor.place;
        }) }
        ensures err { OnErr result (self.new ≡ self.old) }
    {
        if self.is_selection() {
            return self.remove_selection();
        }
        let start = self.erased_from()?;
        self.remove_on(Removal::Erase, start, self.cursor.place)
    }

    /// Removes the unit after the place, or the selection.
    pub(crate) fn delete(&mut self) -> Result<(), OutOfMemory>
        ensures ok { OnOk result (self.new ≡ record self.old {
          editor = after_erasing (D.data self.old.tables) self.old.editor.typing Removal.Delete (cleared self.old.editor) self.old.editor.place
              (step_logical (rows (D.data self.old.tables) self.old.editor) Logical.Forward self.old.editor.place);
        }) }
        ensures err { OnErr result (self.new ≡ self.old) }
    {
        if self.is_selection() {
            return self.remove_selection();
        }
        let stop = self.on_by(Move::Logical(Logical::Forward))?;
        self.remove_on(Removal::Delete, self.cursor.place, stop)
    }

    /// Removes all from the word stop before the place, or the selection.
    pub(crate) fn erase_word(&mut self) -> Result<(), OutOfMemory>
        ensures ok { OnOk result (self.new ≡ record self.old {
          editor = after_erasing_word (D.data self.old.tables) (cleared self.old.editor)
              (step_word (D.data self.old.tables) self.old.editor.content.text Logical.Back self.old.editor.place) self.old.editor.place;
        }) }
        ensures err { OnErr result (self.new ≡ self.old) }
    {
        if self.is_selection() {
            return self.remove_selection();
        }
        let start = self.back_by(Move::Word(Logical::Back))?;
        self.remove_alone(start, self.cursor.place)
    }

    /// Removes all up to the word stop after the place, or the selection.
    pub(crate) fn delete_word(&mut self) -> Result<(), OutOfMemory>
        ensures ok { OnOk result (self.new ≡ record self.old {
          editor = after_erasing_word (D.data self.old.tables) (cleared self.old.editor) self.old.editor.place
              (step_word (D.data self.old.tables) self.old.editor.content.text Logical.Forward self.old.editor.place);
        }) }
        ensures err { OnErr result (self.new ≡ self.old) }
    {
        if self.is_selection() {
            return self.remove_selection();
        }
        let stop = self.on_by(Move::Word(Logical::Forward))?;
        self.remove_alone(self.cursor.place, stop)
    }
}
