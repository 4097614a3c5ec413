//! The keys that move the cursor, and the call that moves it to an offset.
ghost use Rattle.std.specs.Prelude.{◌≡◌, IfOk, OnErr, OnOk};
ghost use Rattle.bx_view.specs.Moves.{place_from, row_end};
ghost use Rattle.bx_view.specs.Moved.{moved};
ghost use Rattle.bx_view.specs.Places.{IsTextPlace};
ghost use Rattle.bx_editor.specs.Editor.{rows, text_height, with_place, cleared};
ghost use Rattle.bx_editor.specs.RowMoves.{after_row_end, after_row_move, goal_behind, kept_goal};
ghost use Rattle.bx_editor.specs.Scrolling.{page_rows};
ghost use Rattle.bx_editor.specs.Region.{unselected};

use crate::editor::Editor;
use crate::picture::text_height;
use bx_common::OutOfMemory;
use bx_keys::Key;
use bx_ucd::BidiData;
use bx_view::{Goal, Move, Vertical};

/// The kept column behind a key that the user pressed; None if that forgets it.
pub(crate) fn goal_behind(key: Key, goal: Option<Goal>) -> Option<Goal>
    ensures { result ≡ goal_behind key goal }
{
    match key {
        Key::LineUp | Key::LineDown | Key::PageBack | Key::PageOn => goal,
        Key::RowEnd | Key::ScrollBack | Key::ScrollOn => goal,
        Key::Select | Key::Repaint => goal,
        _ => None,
    }
}

impl<D: BidiData + Drop> Editor<D> {
    /// Moves the cursor to a place, and clears the message.
    pub(crate) fn set_place(&mut self, place: usize)
        requires text_place { IsTextPlace (D.data self.old.tables) self.old.editor.content.text place }
        ensures { self.new ≡ record self.old { editor = with_place (cleared self.old.editor) place } }
    {
        self.cursor.place = place;
        self.reset_after_key();
    }

    /// Moves the cursor to the first place at or after an offset, in bytes from 0, or to the text's end for an offset past
    /// it. Clears the message, as a key that moves does.
    ///
    /// Errors: `OutOfMemory`, and nothing has changed.
    pub fn go_to(&mut self, offset: usize) -> Result<(), OutOfMemory>
        ensures ok { OnOk result (self.new ≡ record self.old {
          editor = with_place (cleared self.old.editor)
              (place_from (rows (D.data self.old.tables) self.old.editor) offset);
        }) }
        ensures err { OnErr result (self.new ≡ self.old) }
    {
        let place = self.document.place_from(offset)?;
        self.set_place(place);
        Ok(())
    }

    /// The number of rows that PageUp and PageDown move by: the window's text rows.
    pub(crate) fn page(&self) -> usize
        ensures { result ≡ text_height self.now.editor.height }
    {
        usize::from(text_height(self.height))
    }

    /// The number of rows that PageBack and PageOn move by: one row of the page before stays.
    pub(crate) fn page_rows(&self) -> usize
        ensures { result ≡ page_rows (text_height self.now.editor.height) }
    {
        (self.page() - 1).max(1)
    }

    /// Applies a move to the cursor, which takes an old selection off.
    pub(crate) fn moved(&mut self, m: Move) -> Result<(), OutOfMemory>
        ensures ok { OnOk result (self.new ≡ record self.old {
          editor = with_place (unselected (cleared self.old.editor))
              (moved (D.data self.old.tables) self.old.editor.content.text self.old.editor.width (rows (D.data self.old.tables) self.old.editor) m self.old.editor.place);
        }) }
        ensures err { OnErr result (self.new ≡ self.old) }
    {
        let place = self.document.moved(m, self.cursor.place)?;
        self.set_place(place);
        self.unselect();
        Ok(())
    }

    /// The column or the edge of a row that moves from row to row keep: the kept one, else the row's start where the cursor is there,
    /// else its column.
    pub(crate) fn kept_goal(&mut self) -> Result<Goal, OutOfMemory>
        ensures same { self.new ≡ self.old }
        ensures goal { IfOk result (λ goal. goal ≡ kept_goal (D.data self.old.tables) self.old.editor) }
    {
        match self.goal {
            Some(goal) => Ok(goal),
            None => self.document.kept_goal(self.cursor.place),
        }
    }

    /// Goes up or down by `n` rows in the kept column; if none is kept, in the cursor's, which is kept then.
    pub(crate) fn move_by_rows(&mut self, way: Vertical, n: usize) -> Result<(), OutOfMemory>
        ensures ok { OnOk result (self.new ≡ record self.old {
          editor = after_row_move (D.data self.old.tables) (unselected (cleared self.old.editor)) way n;
        }) }
        ensures err { OnErr result (self.new ≡ self.old) }
    {
        let goal = self.kept_goal()?;
        self.moved(Move::RowsIn(way, n, goal))?;
        self.goal = Some(goal);
        Ok(())
    }

    /// Goes to the row's end, which moves from row to row then keep.
    pub(crate) fn move_to_row_end(&mut self) -> Result<(), OutOfMemory>
        ensures ok { OnOk result (self.new ≡ record self.old {
          editor = after_row_end (unselected (cleared self.old.editor))
              (row_end (rows (D.data self.old.tables) self.old.editor) self.old.editor.place);
        }) }
        ensures err { OnErr result (self.new ≡ self.old) }
    {
        self.moved(Move::RowEnd)?;
        self.goal = Some(Goal::End);
        Ok(())
    }
}
