//! The keys of a search: while the query is asked for, while the replacement is, and while a match is shown.
ghost use Rattle.std.specs.Prelude.{◌≡◌, true, OnErr, OnOk};
ghost use Rattle.bx_view.specs.Places.{IsTextPlace};
ghost use Rattle.bx_editor.specs.declared.questions.answers.Prompt.{Prompt};
ghost use Rattle.bx_editor.specs.declared.search_state.SearchState.{SearchState};
ghost use Rattle.bx_editor.specs.Answering.{answer_of, without_line};
ghost use Rattle.bx_editor.specs.Before.{before};
ghost use Rattle.bx_editor.specs.Editor.{cleared, with_typing};
ghost use Rattle.bx_editor.specs.InputLines.{after_taking, ends_line, is_taken, paste_behind, with_paste_behind};
ghost use Rattle.bx_editor.specs.Keys.{after_pressing, answered, answered_match, answered_replacement, is_edit_or_move};
ghost use Rattle.bx_editor.specs.Origin.{asks_replacement, is_queried};
ghost use Rattle.bx_editor.specs.Putting.{only_paste};
ghost use Rattle.bx_editor.specs.Replacing.{after_match_letter, after_replacement_letter, after_sought_end, after_sought_letter};
ghost use Rattle.bx_editor.specs.Search.{without_search};

use crate::answer::{Answer, answer_of};
use crate::editor::Editor;
use crate::putting::{is_paste, only_paste};
use crate::search_state::SearchPurpose;
use crate::undo_groups::Typing;
use bx_common::OutOfMemory;
use bx_document::Document;
use bx_keys::Key;
use bx_store::StoreFault;
use bx_ucd::BidiData;

/// Whether a pasted character ends what a paste brings into an input line.
fn ends_line<D: BidiData + Drop>(document: &Document<D>, c: char) -> bool
    ensures { result ≡ ends_line (D.data document.now.tables) c }
{
    c == '\n' || document.separates(c)
}

impl<D: BidiData + Drop> Editor<D> {
    /// Whether a character that is typed or pasted in an input line does something.
    pub(crate) fn is_taken(&self, c: char) -> bool
        ensures { result ≡ is_taken (D.data self.now.tables) self.now.editor.typing c }
    {
        match self.typing {
            Typing::Paste => !ends_line(&self.document, c),
            Typing::Spent => false,
            _ => true,
        }
    }

    /// The paste that goes on behind a character in an input line; none if it is typed.
    pub(crate) fn paste_behind(&self, c: char) -> Option<Typing>
        ensures { result ≡ paste_behind (D.data self.now.tables) self.now.editor.typing c }
    {
        match self.typing {
            Typing::Paste if !ends_line(&self.document, c) => Some(Typing::Paste),
            Typing::Paste | Typing::Spent => Some(Typing::Spent),
            _ => None,
        }
    }

    /// Goes on with a paste.
    pub(crate) fn go_on_with(&mut self, paste: Option<Typing>)
        ensures { self.new ≡ record self.old { editor = with_paste_behind paste self.old.editor } }
    {
        if let Some(typing) = paste {
            self.typing = typing;
        }
    }

    /// Applies a line end in a search: in one for replacing it asks for the replacement, in one for finding it ends the search.
    fn end_query(&mut self) -> Result<(), OutOfMemory>
        requires origin { IsTextPlace (D.data self.old.tables) self.old.editor.content.text self.old.editor.origin }
        requires queried { is_queried self.old.editor.search_state ≡ true }
        requires prompt { self.old.editor.prompt ≡ Prompt.Off }
        ensures ok { OnOk result (self.new ≡ record self.old {
          editor = after_sought_end (D.data self.old.tables) (cleared self.old.editor);
        }) }
        ensures err { OnErr result (self.new ≡ self.old) }
    {
        if self.purpose == SearchPurpose::Replace {
            return self.ask_replacement();
        }
        self.end_search();
        Ok(())
    }

    /// Applies a character that is typed while the query is asked for.
    fn seek_letter(&mut self, c: char) -> Result<(), OutOfMemory>
        requires origin { IsTextPlace (D.data self.old.tables) self.old.editor.content.text self.old.editor.origin }
        requires queried { is_queried self.old.editor.search_state ≡ true }
        requires prompt { self.old.editor.prompt ≡ Prompt.Off }
        ensures ok { OnOk result (self.new ≡ record self.old {
          editor = after_sought_letter (D.data self.old.tables) (cleared self.old.editor) c;
        }) }
        ensures err { OnErr result (self.new ≡ self.old) }
    {
        if c == '\n' {
            return self.end_query();
        }
        self.type_letter(c)
    }

    /// Applies a character that is typed or pasted while the query is asked for.
    fn answer(&mut self, c: char) -> Result<(), OutOfMemory>
        requires origin { IsTextPlace (D.data self.old.tables) self.old.editor.content.text self.old.editor.origin }
        requires queried { is_queried self.old.editor.search_state ≡ true }
        requires prompt { self.old.editor.prompt ≡ Prompt.Off }
        ensures ok { OnOk result (self.new ≡ record self.old {
          editor = after_taking (D.data self.old.tables) self.old.editor.typing c (cleared self.old.editor)
              (after_sought_letter (D.data self.old.tables) (cleared self.old.editor) c);
        }) }
        ensures err { OnErr result (self.new ≡ self.old) }
    {
        let paste = self.paste_behind(c);
        if self.is_taken(c) {
            self.seek_letter(c)?;
        } else {
            self.reset_after_key();
        }
        self.go_on_with(paste);
        Ok(())
    }

    /// Applies a key while the query is asked for.
    pub(crate) fn press_in_search(
        &mut self,
        key: Key,
        fault: Option<StoreFault>,
    ) -> Result<(), OutOfMemory>
        requires origin { IsTextPlace (D.data self.old.tables) self.old.editor.content.text self.old.editor.origin }
        requires queried { is_queried self.old.editor.search_state ≡ true }
        requires prompt { self.old.editor.prompt ≡ Prompt.Off }
        ensures ok { OnOk result (self.new.editor
            ≡ answered (D.data self.old.tables) fault (before self.old.editor) (cleared self.old.editor) key (answer_of key)) }
        ensures tables { self.new.tables ≡ self.old.tables }
        ensures err { OnErr result (self.new ≡ self.old) }
        ensures edits { OnErr result (is_edit_or_move key ≡ true) }
    {
        match answer_of(key) {
            Answer::Letter(c) => self.answer(c)?,
            Answer::Erases(how) => self.erase_in_query(how)?,
            Answer::Moves(m) => self.move_in_query(m)?,
            Answer::PutsIn => self.put_in_line()?,
            Answer::Passes => self.reset_after_key(),
            Answer::GoesBack => self.give_up(),
            Answer::Next => self.find_next()?,
            Answer::Previous => self.find_previous()?,
            Answer::Replaces => self.ask_replacement()?,
            Answer::Scrolls(way) => self.wheel(way)?,
            Answer::Stays => self.clear_message(),
            Answer::Ends => self.press_behind(key, fault)?,
        }
        Ok(())
    }

    /// Applies a character that is typed while the replacement is asked for.
    fn take_letter(&mut self, c: char) -> Result<(), OutOfMemory>
        requires asked { asks_replacement self.old.editor.search_state ≡ true }
        requires prompt { self.old.editor.prompt ≡ Prompt.Off }
        ensures ok { OnOk result (self.new ≡ record self.old {
          editor = after_replacement_letter (D.data self.old.tables) (cleared self.old.editor) c;
        }) }
        ensures err { OnErr result (self.new ≡ self.old) }
    {
        if c == '\n' {
            self.show_match();
            return Ok(());
        }
        self.type_replacement(c)
    }

    /// Applies a character that is typed or pasted while the replacement is asked for.
    fn answer_replacement(&mut self, c: char) -> Result<(), OutOfMemory>
        requires asked { asks_replacement self.old.editor.search_state ≡ true }
        requires prompt { self.old.editor.prompt ≡ Prompt.Off }
        ensures ok { OnOk result (self.new ≡ record self.old {
          editor = after_taking (D.data self.old.tables) self.old.editor.typing c (cleared self.old.editor)
              (after_replacement_letter (D.data self.old.tables) (cleared self.old.editor) c);
        }) }
        ensures err { OnErr result (self.new ≡ self.old) }
    {
        let paste = self.paste_behind(c);
        if self.is_taken(c) {
            self.take_letter(c)?;
        } else {
            self.reset_after_key();
        }
        self.go_on_with(paste);
        Ok(())
    }

    /// Applies a key while the replacement is asked for.
    pub(crate) fn press_for_replacement(
        &mut self,
        key: Key,
        fault: Option<StoreFault>,
    ) -> Result<(), OutOfMemory>
        requires origin { IsTextPlace (D.data self.old.tables) self.old.editor.content.text self.old.editor.origin }
        requires asked { asks_replacement self.old.editor.search_state ≡ true }
        requires prompt { self.old.editor.prompt ≡ Prompt.Off }
        ensures ok { OnOk result (self.new.editor
            ≡ answered_replacement (D.data self.old.tables) fault (before self.old.editor) (cleared self.old.editor) key (answer_of key)) }
        ensures tables { self.new.tables ≡ self.old.tables }
        ensures err { OnErr result (self.new ≡ self.old) }
        ensures edits { OnErr result (is_edit_or_move key ≡ true) }
    {
        match answer_of(key) {
            Answer::Letter(c) => self.answer_replacement(c)?,
            Answer::Erases(how) => self.erase_in_replacement(how)?,
            Answer::Moves(m) => self.move_in_replacement(m)?,
            Answer::PutsIn => self.put_in_line()?,
            Answer::Passes => self.reset_after_key(),
            Answer::GoesBack => self.give_up(),
            Answer::Next | Answer::Previous => self.begin_search(SearchPurpose::Find),
            Answer::Replaces => self.show_match(),
            Answer::Scrolls(way) => self.wheel(way)?,
            Answer::Stays => self.clear_message(),
            Answer::Ends => self.press_behind(key, fault)?,
        }
        Ok(())
    }

    /// Applies a character that is typed while a match is shown.
    fn answer_match(&mut self, c: char) -> Result<(), OutOfMemory>
        requires shown { self.old.editor.search_state ≡ SearchState.Replacing }
        ensures ok { OnOk result (self.new ≡ record self.old {
          editor = with_typing (after_match_letter (D.data self.old.tables) self.old.editor.typing (cleared self.old.editor) c)
              (only_paste self.old.editor.typing);
        }) }
        ensures err { OnErr result (self.new ≡ self.old) }
    {
        let typing = self.typing;
        if c == '\n' && !is_paste(typing) {
            return self.replace_match();
        }
        self.reset_after_key();
        self.typing = only_paste(typing);
        Ok(())
    }

    /// Applies a key while a match is shown.
    pub(crate) fn press_at_match(
        &mut self,
        key: Key,
        fault: Option<StoreFault>,
    ) -> Result<(), OutOfMemory>
        requires shown { self.old.editor.search_state ≡ SearchState.Replacing }
        requires prompt { self.old.editor.prompt ≡ Prompt.Off }
        ensures ok { OnOk result (self.new.editor
            ≡ answered_match (D.data self.old.tables) fault (before self.old.editor) (cleared self.old.editor) key (without_line (answer_of key))) }
        ensures tables { self.new.tables ≡ self.old.tables }
        ensures err { OnErr result (self.new ≡ self.old) }
        ensures edits { OnErr result (is_edit_or_move key ≡ true) }
    {
        match answer_of(key).without_line() {
            Answer::Letter(c) => self.answer_match(c)?,
            Answer::Erases(_) => self.reset_after_key(),
            Answer::GoesBack => self.end_replacing(),
            Answer::Next => self.pass_over()?,
            Answer::Previous => self.begin_search(SearchPurpose::Find),
            Answer::Replaces => self.replace_all()?,
            Answer::Scrolls(way) => self.wheel(way)?,
            Answer::Stays => self.clear_message(),
            _ => self.press_behind(key, fault)?,
        }
        Ok(())
    }

    /// Ends the search, and applies a key with its usual effect. A refused key leaves the search.
    fn press_behind(&mut self, key: Key, fault: Option<StoreFault>) -> Result<(), OutOfMemory>
        requires prompt { self.old.editor.prompt ≡ Prompt.Off }
        ensures ok { OnOk result (self.new.editor
            ≡ after_pressing (D.data self.old.tables) fault (before self.old.editor) (without_search (cleared self.old.editor)) key) }
        ensures tables { self.new.tables ≡ self.old.tables }
        ensures err { OnErr result (self.new ≡ self.old) }
        ensures edits { OnErr result (is_edit_or_move key ≡ true) }
    {
        let search_state = self.cursor.search_state;
        self.leave_search();
        match self.press(key, fault) {
            Ok(()) => Ok(()),
            Err(refused) => {
                self.cursor.search_state = search_state;
                Err(refused)
            }
        }
    }
}
