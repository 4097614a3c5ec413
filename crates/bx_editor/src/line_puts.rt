//! The held text put into an input line, character by character.
ghost use Rattle.std.specs.Prelude.{◌≡◌, true, OnErr, OnOk, chars, fold};
ghost use Rattle.std.specs.List.{list_all};
ghost use Rattle.bx_editor.specs.Editor.{cleared};
ghost use Rattle.bx_editor.specs.LinePuts.{after_line_put, is_in_line, typed_alone, with_typed_of};

use crate::editor::Editor;
use crate::input_line::first_line;
use crate::message::Message;
use crate::questions::Prompt;
use crate::search_state::SearchState;
use bx_common::{OutOfMemory, first_char};
use bx_ucd::BidiData;

impl<D: BidiData + Drop> Editor<D> {
    /// Types a character other than a line end in the input line that the prompt shows.
    fn type_alone(&mut self, c: char) -> Result<(), OutOfMemory>
        ensures ok { OnOk result (self.new ≡ record self.old { editor = typed_alone (D.data self.old.tables) self.old.editor c }) }
        ensures err { OnErr result (self.new ≡ self.old) }
    {
        match (self.prompt, self.cursor.search_state) {
            (Prompt::Off, SearchState::Begun | SearchState::Typed) => self.type_letter(c),
            (Prompt::Off, SearchState::WithBegun | SearchState::WithTyped) => self.type_replacement(
                c,
            ),
            (Prompt::Line | Prompt::Code | Prompt::File, _) => self.type_answer(c, None),
            _ => {
                self.reset_after_key();
                Ok(())
            }
        }
    }

    /// Types characters other than line ends, one after the other, in the input line that the prompt shows. An error leaves what was
    /// typed.
    fn type_one_by_one(&mut self, letters: &str) -> Result<(), OutOfMemory>
        requires letters { list_all is_in_line (chars letters.now) ≡ true }
        ensures ok { OnOk result (self.new ≡ record self.old {
          editor = fold (typed_alone (D.data self.old.tables)) self.old.editor (chars letters.now);
        }) }
        ensures tables { self.new.tables ≡ self.old.tables }
        ensures err { OnErr result (with_typed_of self.old.editor self.new.editor ≡ self.old.editor) }
    {
        let mut rest = letters;
        while let Some((c, behind)) = first_char(rest) {
            self.type_alone(c)?;
            rest = behind;
        }
        Ok(())
    }

    /// Types the held text, up to its first line end or tab, in the input line that the prompt shows; if that is nothing, sets a
    /// message.
    pub(crate) fn put_in_line(&mut self) -> Result<(), OutOfMemory>
        ensures ok { OnOk result (self.new ≡ record self.old {
          editor = after_line_put (D.data self.old.tables) (cleared self.old.editor);
        }) }
        ensures err { OnErr result (self.new ≡ self.old) }
    {
        let letters = first_line(&self.document, *self.held.allocator(), self.held.as_str())?;
        if letters.is_empty() {
            self.tell(Message::NothingToPut);
            return Ok(());
        }
        let (query, replacement) = (self.query.clone()?, self.replacement.clone()?);
        let answer = self.answer.clone()?;
        let (input_cursor, cursor) = (self.input_cursor, self.cursor);
        let (message, quit_before, typing) = (self.message, self.quit_before, self.typing);
        match self.type_one_by_one(letters.as_str()) {
            Ok(()) => Ok(()),
            Err(refused) => {
                self.query = query;
                self.replacement = replacement;
                self.answer = answer;
                self.input_cursor = input_cursor;
                self.cursor = cursor;
                self.message = message;
                self.quit_before = quit_before;
                self.typing = typing;
                Err(refused)
            }
        }
    }
}
