//! The keys that ask, and what answers a question: a line, a character by name or by code, a name to save under, and whether to overwrite.
ghost use Rattle.std.specs.Prelude.{◌≡◌, ◌≤◌, true, if◌then◌else◌, IfOk, IsOk, OnErr, OnOk, chars, length};
ghost use Rattle.bx_view.specs.Places.{IsTextPlace};
ghost use Rattle.bx_editor.specs.questions.Names.{closing, coded, named};
ghost use Rattle.bx_editor.specs.Answers.{limit_of};
ghost use Rattle.bx_editor.specs.Asking.{after_answer_letter, after_code, after_code_letter, after_erasing_answer, after_file_letter, after_going, after_line_letter};
ghost use Rattle.bx_editor.specs.Asking.{after_name_key, after_name_letter, after_named, answer_lengthened, asking, target_place, with_answer, with_character, without_prompt};
ghost use Rattle.bx_editor.specs.Editor.{cleared, with_typing};
ghost use Rattle.bx_editor.specs.InputLines.{after_taking, takes_line};
ghost use Rattle.bx_editor.specs.Putting.{is_paste};
ghost use Rattle.bx_editor.specs.Saving.{after_deciding};
ghost use Rattle.bx_editor.specs.Search.{after_moving_in};

use crate::editor::Editor;
use crate::input_line::{Erasure, InputLine};
use crate::message::Message;
use crate::putting::is_paste;
use crate::query::as_typed;
use crate::questions::{
    Prompt, Target, asked, asks_code, closing, code_letter, coded, is_code_letter, is_line_letter,
    name_letter, named,
};
use crate::saving::confirms;
use crate::search_state::SearchState;
use crate::undo_groups::Kind;
use bx_common::{OutOfMemory, Range};
use bx_store::StoreFault;
use bx_ucd::BidiData;
use bx_view::Move;

/// The most characters of the answer to a question: `longest_line`, `longest_code` and `longest_name` of the specs, where their reasons
/// are. A name of a character has none, since its one letter answers; without a question the answer is the latest one.
fn limit_of(prompt: Prompt) -> usize
    ensures { result ≡ limit_of prompt }
{
    match prompt {
        Prompt::Line => 16,
        Prompt::Name => 0,
        Prompt::Code => 6,
        Prompt::Off | Prompt::File | Prompt::Overwrite => 255,
    }
}

impl<D: BidiData + Drop> Editor<D> {
    /// Asks, with an empty answer. Allocates nothing.
    pub(crate) fn begin_question(&mut self, prompt: Prompt)
        ensures { self.new ≡ record self.old { editor = asking (cleared self.old.editor) prompt } }
    {
        self.prompt = prompt;
        self.answer = String::new(*self.answer.allocator());
        self.input_cursor = 0;
        self.reset_after_key();
    }

    /// Ends the question, if there is one. No search is on while something is asked, so that none is left. Allocates nothing.
    pub(crate) fn leave_question(&mut self)
        ensures { self.new ≡ record self.old { editor = without_prompt self.old.editor } }
    {
        self.prompt = Prompt::Off;
        self.cursor.search_state = SearchState::Off;
    }

    /// Puts a character into the answer, unless it has as many as it may.
    fn lengthen(&mut self, c: char) -> Result<(), OutOfMemory>
        requires line { takes_line self.old.editor.prompt ≡ true }
        ensures ok { OnOk result (self.new ≡ record self.old {
          editor = answer_lengthened (D.data self.old.tables) (limit_of self.old.editor.prompt) (cleared self.old.editor) c;
        }) }
        ensures err { OnErr result (self.new ≡ self.old) }
    {
        let limit = limit_of(self.prompt);
        let mut line = InputLine::of(
            *self.answer.allocator(),
            self.answer.as_str(),
            self.input_cursor,
        )?;
        line.insert(&self.document, c, limit)?;
        self.take_answer(line);
        Ok(())
    }

    /// Makes a line the answer, and clears the message.
    fn take_answer(&mut self, line: InputLine)
        requires asked { takes_line self.old.editor.prompt ≡ true }
        requires few { length (chars line.text) ≤ limit_of self.old.editor.prompt }
        requires place { IsTextPlace (D.data self.old.tables) line.text line.cursor }
        ensures { self.new ≡ record self.old { editor = with_answer (cleared self.old.editor) line } }
    {
        self.answer = line.text;
        self.input_cursor = line.cursor;
        self.reset_after_key();
    }

    /// The place of a paragraph and a unit in it; without a paragraph, of that unit of the paragraph where the cursor is.
    fn place_of(&mut self, target: Target) -> Result<usize, OutOfMemory>
        ensures same { self.new ≡ self.old }
        ensures place { IfOk result (λ o. o ≡ target_place (D.data self.old.tables) self.old.editor target) }
        ensures text_place { IfOk result (IsTextPlace (D.data self.old.tables) self.old.editor.content.text) }
    {
        let own = self.document.paragraph_at(self.cursor.place);
        let paragraph = target.paragraph.unwrap_or(own);
        self.document.place_of(paragraph, target.unit)
    }

    /// Goes to the line and unit that the answer names.
    fn go(&mut self) -> Result<(), OutOfMemory>
        requires prompt { self.old.editor.prompt ≡ Prompt.Line }
        ensures ok { OnOk result (self.new ≡ record self.old { editor = after_going (D.data self.old.tables) (cleared self.old.editor) }) }
        ensures err { OnErr result (self.new ≡ self.old) }
    {
        match asked(self.answer.as_str()) {
            None => self.reset_after_key(),
            Some(target) => {
                let place = self.place_of(target)?;
                self.set_place(place);
            }
        }
        self.leave_question();
        Ok(())
    }

    /// Takes a character of the answer to the question for a line; LF goes there.
    fn answer_line(&mut self, c: char) -> Result<(), OutOfMemory>
        requires prompt { self.old.editor.prompt ≡ Prompt.Line }
        ensures ok { OnOk result (self.new ≡ record self.old {
          editor = after_line_letter (D.data self.old.tables) (cleared self.old.editor) c;
        }) }
        ensures err { OnErr result (self.new ≡ self.old) }
    {
        if c == '\n' {
            return self.go();
        }
        if is_line_letter(c) {
            return self.lengthen(c);
        }
        self.reset_after_key();
        Ok(())
    }

    /// Puts a character in at the place, as the beginning of an undo group; a selection's text stays.
    fn put_character(&mut self, c: char) -> Result<(), OutOfMemory>
        ensures ok { OnOk result (self.new ≡ record self.old {
          editor = with_character (D.data self.old.tables) (cleared self.old.editor) c;
        }) }
        ensures err { OnErr result (self.new ≡ self.old) }
    {
        // a character has at most four bytes
        let mut buffer = [0; 4];
        let new = c.encode_utf8(&mut buffer);
        let kind = Kind::of(self.document.class(c));
        let room = self.insert_text(new, false)?;
        self.reset_after_key();
        if room {
            self.typing = kind.typing();
        } else {
            self.message = Some(Message::TextFull);
        }
        Ok(())
    }

    /// Puts in `c`, which a letter names; if it begins what another character ends, puts both around the region, if there is one.
    fn put_named(&mut self, letter: char, c: char) -> Result<(), OutOfMemory>
        ensures ok { OnOk result (self.new ≡ record self.old {
          editor = after_named (D.data self.old.tables) (cleared self.old.editor) c (closing letter);
        }) }
        ensures err { OnErr result (self.new ≡ self.old) }
    {
        let Range { start, stop } = self.region();
        match closing(letter) {
            Some(closer) if start != stop => self.wrap(c, closer),
            _ => self.put_character(c),
        }
    }

    /// Takes a letter that names a character.
    fn answer_name(&mut self, letter: char) -> Result<(), OutOfMemory>
        requires prompt { self.old.editor.prompt ≡ Prompt.Name }
        ensures ok { OnOk result (self.new ≡ record self.old {
          editor = after_name_letter (D.data self.old.tables) (cleared self.old.editor) letter (named letter);
        }) }
        ensures err { OnErr result (self.new ≡ self.old) }
    {
        if let Some(c) = named(letter) {
            self.put_named(letter, c)?;
            self.leave_question();
            return Ok(());
        }
        if asks_code(letter) {
            self.begin_question(Prompt::Code);
            return Ok(());
        }
        self.reset_after_key();
        if letter == '\n' {
            self.leave_question();
        }
        Ok(())
    }

    /// Takes a character that is typed or pasted while a name of a character is asked for. What is pasted names nothing.
    pub(crate) fn answer_name_key(&mut self, c: char) -> Result<(), OutOfMemory>
        requires prompt { self.old.editor.prompt ≡ Prompt.Name }
        ensures ok { OnOk result (self.new ≡ record self.old {
          editor = if is_paste self.old.editor.typing
              then with_typing (cleared self.old.editor) self.old.editor.typing
              else after_name_key (D.data self.old.tables) (cleared self.old.editor) c;
        }) }
        ensures err { OnErr result (self.new ≡ self.old) }
    {
        if is_paste(self.typing) {
            self.clear_message();
            return Ok(());
        }
        self.answer_name(name_letter(c))
    }

    /// Puts in the character whose code the answer writes; if there is none, sets a message.
    fn put_coded(&mut self) -> Result<(), OutOfMemory>
        ensures ok { OnOk result (self.new ≡ record self.old {
          editor = after_code (D.data self.old.tables) (cleared self.old.editor) (coded self.old.editor.answer);
        }) }
        ensures err { OnErr result (self.new ≡ self.old) }
    {
        match coded(self.answer.as_str()) {
            Some(c) => self.put_character(c),
            None => {
                self.tell(Message::NoSuchCharacter);
                Ok(())
            }
        }
    }

    /// Takes a digit of a code, or LF, which ends it.
    fn answer_code(&mut self, letter: char) -> Result<(), OutOfMemory>
        requires prompt { self.old.editor.prompt ≡ Prompt.Code }
        ensures ok { OnOk result (self.new ≡ record self.old {
          editor = after_code_letter (D.data self.old.tables) (cleared self.old.editor) letter;
        }) }
        ensures err { OnErr result (self.new ≡ self.old) }
    {
        if letter == '\n' {
            self.put_coded()?;
            self.leave_question();
            return Ok(());
        }
        if is_code_letter(letter) {
            return self.lengthen(letter);
        }
        self.reset_after_key();
        Ok(())
    }

    /// Takes a character of the name to save under; LF saves, with the fault of the store, if there was one. It takes no memory then.
    fn answer_file(&mut self, c: char, fault: Option<StoreFault>) -> Result<(), OutOfMemory>
        requires prompt { self.old.editor.prompt ≡ Prompt.File }
        ensures ok { OnOk result (self.new ≡ record self.old {
          editor = after_file_letter (D.data self.old.tables) fault (cleared self.old.editor) c;
        }) }
        ensures err { OnErr result (self.new ≡ self.old) }
        ensures saved { c ≡ 0xA → IsOk result }
    {
        if c == '\n' {
            self.leave_question();
            self.name_answered(fault);
            return Ok(());
        }
        if c == '\t' || self.document.separates(c) {
            self.reset_after_key();
            return Ok(());
        }
        self.lengthen(c)
    }

    /// Takes a character that is typed as part of the answer to a question with an input line.
    pub(crate) fn type_answer(
        &mut self,
        c: char,
        fault: Option<StoreFault>,
    ) -> Result<(), OutOfMemory>
        ensures ok { OnOk result (self.new ≡ record self.old {
          editor = after_answer_letter (D.data self.old.tables) fault self.old.editor.prompt (cleared self.old.editor) c;
        }) }
        ensures err { OnErr result (self.new ≡ self.old) }
        ensures saved { self.old.editor.prompt ≡ Prompt.File → c ≡ 0xA → IsOk result }
    {
        match self.prompt {
            Prompt::Line => self.answer_line(c),
            Prompt::Code => self.answer_code(code_letter(c)),
            Prompt::File => self.answer_file(c, fault),
            Prompt::Off | Prompt::Name | Prompt::Overwrite => {
                self.reset_after_key();
                Ok(())
            }
        }
    }

    /// Takes a character that is typed or pasted as part of the answer to a question with an input line.
    pub(crate) fn answer_question(
        &mut self,
        c: char,
        fault: Option<StoreFault>,
    ) -> Result<(), OutOfMemory>
        ensures ok { OnOk result (self.new ≡ record self.old {
          editor = after_taking (D.data self.old.tables) self.old.editor.typing c (cleared self.old.editor)
              (after_answer_letter (D.data self.old.tables) fault self.old.editor.prompt (cleared self.old.editor) c);
        }) }
        ensures err { OnErr result (self.new ≡ self.old) }
        ensures saved { self.old.editor.prompt ≡ Prompt.File → c ≡ 0xA → IsOk result }
    {
        let paste = self.paste_behind(c);
        if self.is_taken(c) {
            self.type_answer(c, fault)?;
        } else {
            self.reset_after_key();
        }
        self.go_on_with(paste);
        Ok(())
    }

    /// Removes what an erasure removes from the answer. At an empty code the question is that for a name again, if the last character was
    /// to be removed.
    pub(crate) fn erase_in_answer(&mut self, how: Erasure) -> Result<(), OutOfMemory>
        requires line { takes_line self.old.editor.prompt ≡ true }
        ensures ok { OnOk result (self.new ≡ record self.old {
          editor = after_erasing_answer (D.data self.old.tables) self.old.editor.prompt (cleared self.old.editor) how;
        }) }
        ensures err { OnErr result (self.new ≡ self.old) }
    {
        if let (Prompt::Code, Erasure::LastCharacter, true) = (
            self.prompt,
            how,
            self.answer.is_empty(),
        ) {
            self.prompt = Prompt::Name;
            self.reset_after_key();
            return Ok(());
        }
        let mut line = InputLine::of(
            *self.answer.allocator(),
            self.answer.as_str(),
            self.input_cursor,
        )?;
        if line.erase(&self.document, how)? {
            self.take_answer(line);
        } else {
            self.reset_after_key();
        }
        Ok(())
    }

    /// Moves the cursor in the answer.
    pub(crate) fn move_in_answer(&mut self, m: Move) -> Result<(), OutOfMemory>
        requires line { takes_line self.old.editor.prompt ≡ true }
        ensures ok { OnOk result (self.new ≡ record self.old {
          editor = after_moving_in (D.data self.old.tables) (cleared self.old.editor) self.old.editor.answer m;
        }) }
        ensures err { OnErr result (self.new ≡ self.old) }
    {
        let cursor = self
            .document
            .moved_in_line(self.answer.as_str(), m, self.input_cursor)?;
        let search_state = as_typed(self.cursor.search_state);
        self.input_cursor = cursor;
        self.cursor.search_state = search_state;
        self.reset_after_key();
        Ok(())
    }

    /// Takes a letter that is typed or pasted in the question whether to overwrite: one confirms, any other declines. What is pasted does
    /// neither. Allocates nothing.
    pub(crate) fn answer_overwrite(&mut self, c: char, fault: Option<StoreFault>)
        requires prompt { self.old.editor.prompt ≡ Prompt.Overwrite }
        ensures { self.new ≡ record self.old {
          editor = if is_paste self.old.editor.typing
              then with_typing (cleared self.old.editor) self.old.editor.typing
              else after_deciding fault (without_prompt (cleared self.old.editor)) c;
        } }
    {
        if is_paste(self.typing) {
            self.clear_message();
            return;
        }
        self.leave_question();
        if !confirms(c) {
            self.reset_after_key();
        } else if self.read_only {
            self.tell(Message::ViewOnly);
        } else {
            self.note_save(fault);
        }
    }
}
