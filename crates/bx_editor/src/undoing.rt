//! The keys that undo and redo: one edit, or an undo group.
ghost use Rattle.std.specs.Prelude.{◌≡◌, true, OnErr, OnOk};
ghost use Rattle.bx_editor.specs.Editor.{after_group_step, after_step, cleared, is_changed_at, nothing_left, group_length};

use crate::editor::Editor;
use crate::message::Message;
use bx_common::OutOfMemory;
use bx_document::HistoryStep;
use bx_ucd::BidiData;

/// The message where there is nothing to undo, or to redo.
fn nothing_left(step: HistoryStep) -> Message
    ensures { result ≡ nothing_left step }
{
    match step {
        HistoryStep::Undo => Message::NothingToUndo,
        HistoryStep::Redo => Message::NothingToRedo,
    }
}

/// Whether the text with a past of `n` edits is not the one that was stored.
fn is_changed_at(n: usize, stored: Option<usize>) -> bool
    ensures { result ≡ is_changed_at n stored }
{
    stored != Some(n)
}

impl<D: BidiData + Drop> Editor<D> {
    /// Undoes or redoes an edit, and counts the text as changed even where it is the stored one again; if there is none, sets a
    /// message.
    pub(crate) fn step(&mut self, step: HistoryStep) -> Result<(), OutOfMemory>
        ensures ok { OnOk result (self.new ≡ record self.old { editor = after_step step (cleared self.old.editor) }) }
        ensures err { OnErr result (self.new ≡ self.old) }
    {
        let Some(place) = self.document.step(step)? else {
            self.tell(nothing_left(step));
            return Ok(());
        };
        self.cursor.move_after_edit(place);
        self.past.changed = true;
        self.reset_after_key();
        Ok(())
    }

    /// How many edits are undone, back to where an undo group began, or redone, up to where the next begins.
    fn group_length(&self, step: HistoryStep) -> usize
        ensures { result ≡ group_length step self.now.editor }
    {
        let n = self.document.past_len();
        match step {
            HistoryStep::Undo => n - self.past.undo_groups.start_before(n),
            HistoryStep::Redo => self
                .past
                .undo_groups
                .redo_count(n, self.document.future_len()),
        }
    }

    /// Undoes the edits since an undo group began, or redoes those up to the next undo group; if there is none, sets a message.
    pub(crate) fn step_group(&mut self, step: HistoryStep) -> Result<(), OutOfMemory>
        ensures ok { OnOk result (self.new ≡ record self.old { editor = after_group_step step (cleared self.old.editor) }) }
        ensures err { OnErr result (self.new ≡ self.old) }
    {
        let count = self.group_length(step);
        let Some(place) = self.document.step_times(step, count)? else {
            self.tell(nothing_left(step));
            return Ok(());
        };
        self.cursor.move_after_edit(place);
        self.past.changed = is_changed_at(self.document.past_len(), self.past.stored);
        self.reset_after_key();
        Ok(())
    }
}
