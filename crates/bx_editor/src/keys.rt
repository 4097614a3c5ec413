//! The effect of each key.
ghost use Rattle.std.specs.Prelude.{◌≡◌, None, Some, true, IsOk, OnErr, OnOk, is_some};
ghost use Rattle.bx_editor.specs.Asking.{without_prompt};
ghost use Rattle.bx_editor.specs.Editor.{after_help, after_quit, cleared, next_base, with_base, with_typing};
ghost use Rattle.bx_editor.specs.Before.{before};
ghost use Rattle.bx_editor.specs.declared.questions.answers.Prompt.{Prompt};
ghost use Rattle.bx_editor.specs.Answering.{answer_of, without_line};
ghost use Rattle.bx_editor.specs.InputLines.{takes_line};
ghost use Rattle.bx_editor.specs.Keys.{after_any, after_key, after_pressing, after_user, answered_name, answered_overwrite, answered_question};
ghost use Rattle.bx_editor.specs.Keys.{changes_text, is_edit_or_move, may_refuse, refuses_replacing, saving_of};
ghost use Rattle.bx_editor.specs.Functions.{has_size, move_of};

use crate::answer::{Answer, answer_of};
use crate::clicks::{clicks_behind, pressed_behind};
use crate::editor::Editor;
use crate::message::Message;
use crate::moving::goal_behind;
use crate::questions::Prompt;
use crate::search_state::{SearchPurpose, SearchState};
use crate::selecting::soft_behind;
use crate::undo_groups::Typing;
use bx_common::{Base, OutOfMemory};
use bx_document::HistoryStep;
use bx_keys::Key;
use bx_store::StoreFault;
use bx_ucd::BidiData;
use bx_view::{Logical, Move, Vertical, Visual};

/// The move that a key makes, if it makes one that keeps no column and points at no cell. A page has `page` rows.
fn move_of(key: Key, page: usize) -> Option<Move>
    ensures { result ≡ move_of page key }
{
    match key {
        Key::Back => Some(Move::Logical(Logical::Back)),
        Key::Forward => Some(Move::Logical(Logical::Forward)),
        Key::Up => Some(Move::Rows(Vertical::Up, 1)),
        Key::Down => Some(Move::Rows(Vertical::Down, 1)),
        Key::Right => Some(Move::Visual(Visual::Right)),
        Key::Left => Some(Move::Visual(Visual::Left)),
        Key::RowHome => Some(Move::RowHome),
        Key::PageUp => Some(Move::Rows(Vertical::Up, page)),
        Key::PageDown => Some(Move::Rows(Vertical::Down, page)),
        Key::WordLeft => Some(Move::WordTowards(Visual::Left)),
        Key::WordRight => Some(Move::WordTowards(Visual::Right)),
        Key::TextStart => Some(Move::TextStart),
        Key::TextEnd => Some(Move::TextEnd),
        _ => None,
    }
}

/// Whether a key changes the text, or begins to, outside a search and a question.
fn changes_text(key: Key) -> bool
    ensures { result ≡ changes_text key }
{
    match key {
        Key::Insert(_) | Key::NewLine | Key::Put | Key::Cut => true,
        Key::Erase | Key::ErasePoint | Key::Delete | Key::EraseWord | Key::DeleteWord => true,
        Key::UndoEdit | Key::RedoEdit | Key::Undo | Key::Redo => true,
        Key::Replace | Key::Name | Key::Save => true,
        _ => false,
    }
}

/// The next direction in the cycle Auto, Ltr, Rtl.
fn next_base(base: Base) -> Base
    ensures { result ≡ next_base base }
{
    match base {
        Base::Auto => Base::Ltr,
        Base::Ltr => Base::Rtl,
        Base::Rtl => Base::Auto,
    }
}

impl<D: BidiData + Drop> Editor<D> {
    /// Clears the message and forgets an earlier Quit, but what is typed goes on.
    pub(crate) fn clear_message(&mut self)
        ensures { self.new ≡ record self.old { editor = with_typing (cleared self.old.editor) self.old.editor.typing } }
    {
        self.message = None;
        self.quit_before = false;
    }

    /// Clears the message, forgets an earlier Quit, and ends what is typed.
    pub(crate) fn reset_after_key(&mut self)
        ensures { self.new ≡ record self.old { editor = cleared self.old.editor } }
    {
        self.clear_message();
        self.typing = Typing::Off;
    }

    /// Sets the message of a key other than Quit, and forgets an earlier Quit.
    pub(crate) fn tell(&mut self, message: Message)
        ensures { self.new ≡ record self.old { editor = record (cleared self.old.editor) { message = Some message } } }
    {
        self.reset_after_key();
        self.message = Some(message);
    }

    /// Ends the editor if there are no unsaved changes or the key before was Quit too; otherwise sets a message.
    fn quit(&mut self)
        ensures { self.new ≡ record self.old { editor = after_quit (cleared self.old.editor) self.old.editor.quit_before } }
    {
        let again = self.quit_before;
        self.reset_after_key();
        self.quit_before = true;
        if self.past.changed && !again {
            self.message = Some(Message::Unsaved);
            return;
        }
        self.ended = true;
    }

    /// Shows the first list of keys, or the second one if the first is the message.
    fn help(&mut self)
        ensures { self.new ≡ record self.old { editor = after_help (cleared self.old.editor) self.old.editor.message } }
    {
        let message = match self.message {
            Some(Message::Help) => Message::MoreHelp,
            _ => Message::Help,
        };
        self.tell(message);
    }

    /// Switches the paragraphs to the next base direction.
    fn turn_direction(&mut self)
        ensures { self.new ≡ record self.old { editor = with_base (cleared self.old.editor) (next_base self.old.editor.base) } }
    {
        let base = next_base(self.document.base());
        self.document.set_base(base);
        self.tell(Message::Direction(base));
    }

    /// Applies a key. At a key that stores the text ([`Editor::saving_of`]), `fault` says why it could not be stored; None if it was
    /// stored. The caller stores it first, and before that ends a paste ([`Editor::end_paste`]). At any other key `fault` has no meaning. While a paste is under way, a character
    /// goes into it, Repaint leaves it, and any other key that the user presses first ends it.
    ///
    /// Errors: `OutOfMemory`, only for a key that edits, undoes, redoes, moves, copies or finds, or ends a paste, and nothing has
    /// changed.
    pub fn apply(&mut self, key: Key, fault: Option<StoreFault>) -> Result<(), OutOfMemory>
        requires sized { has_size key ≡ true }
        ensures ok { OnOk result (self.new.editor ≡ after_key (D.data self.old.tables) fault self.old.editor key) }
        ensures tables { self.new.tables ≡ self.old.tables }
        ensures err { OnErr result (self.new ≡ self.old) }
        ensures edits { OnErr result (may_refuse self.old.editor key ≡ true) }
        ensures stores { is_some (saving_of self.old.editor key) ≡ true → self.old.editor.pasted ≡ None → IsOk result }
    {
        match key {
            Key::Size(height, width) => self.resize(height, width),
            Key::Notice(notice) => self.message = Some(Message::Notice(notice)),
            Key::PasteStart => self.start_paste(),
            Key::PasteEnd => self.finish_paste()?,
            Key::Fill => {}
            Key::Insert(c) if self.is_pasting() => self.paste_letter(c)?,
            Key::Repaint => self.press_key(key, fault)?,
            _ if self.is_pasting() => self.press_behind_paste(key, fault)?,
            _ => self.press_key(key, fault)?,
        }
        Ok(())
    }

    /// Applies a key that the user presses where no paste is under way.
    pub(crate) fn press_key(
        &mut self,
        key: Key,
        fault: Option<StoreFault>,
    ) -> Result<(), OutOfMemory>
        ensures ok { OnOk result (self.new.editor ≡ after_user (D.data self.old.tables) fault self.old.editor key) }
        ensures tables { self.new.tables ≡ self.old.tables }
        ensures err { OnErr result (self.new ≡ self.old) }
        ensures edits { OnErr result (is_edit_or_move key ≡ true) }
        ensures saved { self.old.editor.prompt ≡ Prompt.File → answer_of key ≡ Answer.Letter 0xA → IsOk result }
        ensures decided { self.old.editor.prompt ≡ Prompt.Overwrite → IsOk result }
    {
        if self.refuses_replacing(key) {
            self.tell(Message::ViewOnly);
        } else {
            self.press_any(key, fault)?;
        }
        self.goal = goal_behind(key, self.goal);
        self.cursor.soft = soft_behind(key, self.cursor.soft);
        self.cursor.clicks = clicks_behind(key, self.cursor.clicks);
        self.cursor.pressed = pressed_behind(key, self.cursor.pressed);
        Ok(())
    }

    /// Whether a key would begin to replace in a text that is only looked at: it neither begins nor ends anything.
    fn refuses_replacing(&self, key: Key) -> bool
        ensures { result ≡ refuses_replacing self.now.editor key }
    {
        match (key, self.prompt) {
            (_, Prompt::Overwrite) => false,
            (Key::Replace, _) => self.read_only,
            _ => false,
        }
    }

    /// Applies a key that the user presses: in a question, in a search, or outside both.
    fn press_any(&mut self, key: Key, fault: Option<StoreFault>) -> Result<(), OutOfMemory>
        ensures ok { OnOk result (self.new.editor
            ≡ after_any (D.data self.old.tables) fault (before self.old.editor) self.old.editor.prompt self.old.editor.search_state (cleared self.old.editor) key) }
        ensures tables { self.new.tables ≡ self.old.tables }
        ensures err { OnErr result (self.new ≡ self.old) }
        ensures edits { OnErr result (is_edit_or_move key ≡ true) }
        ensures saved { self.old.editor.prompt ≡ Prompt.File → answer_of key ≡ Answer.Letter 0xA → IsOk result }
        ensures decided { self.old.editor.prompt ≡ Prompt.Overwrite → IsOk result }
    {
        match (self.prompt, self.cursor.search_state) {
            (Prompt::Line | Prompt::Code | Prompt::File, _) => self.press_in_question(key, fault),
            (Prompt::Name, _) => self.press_for_name(key, fault),
            (Prompt::Overwrite, _) => {
                self.press_for_overwriting(key, fault);
                Ok(())
            }
            (Prompt::Off, SearchState::Off) => self.press(key, fault),
            (Prompt::Off, SearchState::Begun | SearchState::Typed) => {
                self.press_in_search(key, fault)
            }
            (Prompt::Off, SearchState::WithBegun | SearchState::WithTyped) => {
                self.press_for_replacement(key, fault)
            }
            (Prompt::Off, SearchState::Replacing) => self.press_at_match(key, fault),
        }
    }

    /// Applies a key outside a search and a question.
    pub(crate) fn press(&mut self, key: Key, fault: Option<StoreFault>) -> Result<(), OutOfMemory>
        requires prompt { self.old.editor.prompt ≡ Prompt.Off }
        ensures ok { OnOk result (self.new.editor
            ≡ after_pressing (D.data self.old.tables) fault (before self.old.editor) (cleared self.old.editor) key) }
        ensures tables { self.new.tables ≡ self.old.tables }
        ensures err { OnErr result (self.new ≡ self.old) }
        ensures edits { OnErr result (is_edit_or_move key ≡ true) }
    {
        if changes_text(key) && self.read_only {
            self.tell(Message::ViewOnly);
            return Ok(());
        }
        let page = self.page();
        if let Some(m) = move_of(key, page) {
            return self.moved(m);
        }
        match key {
            Key::Insert(c) => self.insert(c)?,
            Key::Erase => self.erase()?,
            Key::Delete => self.delete()?,
            Key::EraseWord => self.erase_word()?,
            Key::DeleteWord => self.delete_word()?,
            Key::ErasePoint => self.erase_point()?,
            Key::NewLine => self.new_line()?,
            Key::LineUp => self.move_by_rows(Vertical::Up, 1)?,
            Key::LineDown => self.move_by_rows(Vertical::Down, 1)?,
            Key::PageBack => self.move_by_rows(Vertical::Up, self.page_rows())?,
            Key::PageOn => self.move_by_rows(Vertical::Down, self.page_rows())?,
            Key::RowEnd => self.move_to_row_end()?,
            Key::Point(row, column) => self.point(row, column)?,
            Key::Drag(row, column) => self.drag(row, column)?,
            Key::ScrollBack => self.wheel(Vertical::Up)?,
            Key::ScrollOn => self.wheel(Vertical::Down)?,
            Key::FindNext => self.go_to_next()?,
            Key::FindPrevious => self.go_to_previous()?,
            Key::UndoEdit => self.step(HistoryStep::Undo)?,
            Key::RedoEdit => self.step(HistoryStep::Redo)?,
            Key::Undo => self.step_group(HistoryStep::Undo)?,
            Key::Redo => self.step_group(HistoryStep::Redo)?,
            Key::Copy => self.copy()?,
            Key::Cut => self.cut()?,
            Key::Put => self.put()?,
            Key::Find | Key::FindBack => self.begin_search(SearchPurpose::Find),
            Key::Replace => self.begin_search(SearchPurpose::Replace),
            Key::Mark => self.turn_mark(),
            Key::Select => self.select(),
            Key::SelectAll => self.select_all(),
            Key::Cancel => self.remove_mark(),
            Key::GoTo => {
                self.unselect();
                self.begin_question(Prompt::Line);
            }
            Key::Name => self.begin_question(Prompt::Name),
            Key::SaveAs => self.begin_question(Prompt::File),
            Key::AskOverwrite => self.ask_overwrite(),
            Key::Tell => self.tell(Message::Told),
            Key::Help => self.help(),
            Key::Direction => self.turn_direction(),
            Key::Save => self.note_save(fault),
            Key::Quit => self.quit(),
            _ => self.clear_message(),
        }
        Ok(())
    }

    /// Applies a key in a question with an input line.
    #[tactic(auto, using(crate::proofs::Stores::edits_answered))]
    fn press_in_question(&mut self, key: Key, fault: Option<StoreFault>) -> Result<(), OutOfMemory>
        requires line { takes_line self.old.editor.prompt ≡ true }
        ensures ok { OnOk result (self.new.editor
            ≡ answered_question (D.data self.old.tables) fault (before self.old.editor) (cleared self.old.editor) key (answer_of key)) }
        ensures tables { self.new.tables ≡ self.old.tables }
        ensures err { OnErr result (self.new ≡ self.old) }
        ensures edits { OnErr result (is_edit_or_move key ≡ true) }
        ensures saved { self.old.editor.prompt ≡ Prompt.File → answer_of key ≡ Answer.Letter 0xA → IsOk result }
    {
        match answer_of(key) {
            Answer::Letter(c) => self.answer_question(c, fault)?,
            Answer::Erases(how) => self.erase_in_answer(how)?,
            Answer::Moves(m) => self.move_in_answer(m)?,
            Answer::PutsIn => self.put_in_line()?,
            Answer::Passes => self.reset_after_key(),
            Answer::GoesBack => {
                self.leave_question();
                self.reset_after_key();
            }
            Answer::Scrolls(way) => self.wheel(way)?,
            Answer::Stays => self.clear_message(),
            _ => self.press_without_question(key, fault)?,
        }
        Ok(())
    }

    /// Applies a key in the question for a character's name.
    #[tactic(auto, using(crate::proofs::Stores::edits_alone))]
    fn press_for_name(&mut self, key: Key, fault: Option<StoreFault>) -> Result<(), OutOfMemory>
        requires prompt { self.old.editor.prompt ≡ Prompt.Name }
        ensures ok { OnOk result (self.new.editor
            ≡ answered_name (D.data self.old.tables) fault (before self.old.editor) (cleared self.old.editor) key (without_line (answer_of key))) }
        ensures tables { self.new.tables ≡ self.old.tables }
        ensures err { OnErr result (self.new ≡ self.old) }
        ensures edits { OnErr result (is_edit_or_move key ≡ true) }
    {
        match answer_of(key).without_line() {
            Answer::Letter(c) => self.answer_name_key(c)?,
            Answer::Erases(_) => self.reset_after_key(),
            Answer::GoesBack => {
                self.leave_question();
                self.reset_after_key();
            }
            Answer::Scrolls(way) => self.wheel(way)?,
            Answer::Stays => self.clear_message(),
            _ => self.press_without_question(key, fault)?,
        }
        Ok(())
    }

    /// Applies a key in the question whether to overwrite: a letter confirms it, and any other key only declines. Allocates nothing.
    fn press_for_overwriting(&mut self, key: Key, fault: Option<StoreFault>)
        requires prompt { self.old.editor.prompt ≡ Prompt.Overwrite }
        ensures { self.new ≡ record self.old {
          editor = answered_overwrite fault (before self.old.editor) (cleared self.old.editor) (answer_of key);
        } }
    {
        match answer_of(key) {
            Answer::Letter(c) => self.answer_overwrite(c, fault),
            Answer::Stays => self.clear_message(),
            _ => {
                self.leave_question();
                self.reset_after_key();
            }
        }
    }

    /// Ends the question, and applies a key with its usual effect. A refused key leaves the question.
    fn press_without_question(
        &mut self,
        key: Key,
        fault: Option<StoreFault>,
    ) -> Result<(), OutOfMemory>
        ensures ok { OnOk result (self.new.editor
            ≡ after_pressing (D.data self.old.tables) fault (before self.old.editor) (without_prompt (cleared self.old.editor)) key) }
        ensures tables { self.new.tables ≡ self.old.tables }
        ensures err { OnErr result (self.new ≡ self.old) }
        ensures edits { OnErr result (is_edit_or_move key ≡ true) }
    {
        let (prompt, search_state) = (self.prompt, self.cursor.search_state);
        self.leave_question();
        match self.press(key, fault) {
            Ok(()) => Ok(()),
            Err(refused) => {
                self.prompt = prompt;
                self.cursor.search_state = search_state;
                Err(refused)
            }
        }
    }
}
