//! The question for the replacement, which replaces matches.
ghost use Rattle.std.specs.Prelude.{◌≡◌, ◌≤◌, ◌↔◌, [], true, chars, length, IfSome, IsNone, IsSome, IsUtf8, OnErr, OnOk};
ghost use Rattle.bx_view.specs.Places.{IsTextPlace};
ghost use Rattle.bx_editor.specs.declared.questions.answers.Prompt.{Prompt};
ghost use Rattle.bx_editor.specs.Editor.{cleared};
ghost use Rattle.bx_editor.specs.Origin.{asks_replacement, is_queried};
ghost use Rattle.bx_editor.specs.Replacing.{after_asking_replacement, after_erasing_replacement, after_showing, replacement_typed, with_replacement};
ghost use Rattle.bx_editor.specs.Search.{after_moving_in, sought};

use crate::editor::Editor;
use crate::input_line::{Erasure, InputLine};
use crate::matches::{forward, has_letters, nothing_sought};
use crate::query::{LONGEST_QUERY, as_typed, kept, reading_of};
use crate::search_state::{SearchPurpose, SearchState};
use bx_common::OutOfMemory;
use bx_find::{Query, Reading};
use bx_ucd::BidiData;
use bx_view::Move;

impl<D: BidiData + Drop> Editor<D> {
    /// The query as the search reads it; none if it has no letters. Allocates nothing.
    pub(crate) fn sought(&self) -> Option<Query>
        ensures letters { IfSome result (λ q. q ≡ sought (D.data self.now.tables) self.now.editor) }
        ensures none { IsNone result ↔ (sought (D.data self.now.tables) self.now.editor ≡ []) }
        ensures some { self.now.editor.search_state ≡ SearchState.Replacing → IsSome result }
        ensures utf8 { IsUtf8 self.now.editor.content.text }
    {
        self.document
            .query(reading_of(self.purpose), self.query.as_str())
    }

    /// Makes the search one for replacing, which seeks the query from the place on; at a match it asks for the replacement.
    pub(crate) fn ask_replacement(&mut self) -> Result<(), OutOfMemory>
        requires origin { IsTextPlace (D.data self.old.tables) self.old.editor.content.text self.old.editor.origin }
        requires queried { is_queried self.old.editor.search_state ≡ true }
        requires prompt { self.old.editor.prompt ≡ Prompt.Off }
        ensures ok { OnOk result (self.new ≡ record self.old {
          editor = after_asking_replacement (D.data self.old.tables) (cleared self.old.editor);
        }) }
        ensures err { OnErr result (self.new ≡ self.old) }
    {
        let query = self.query.as_str();
        if !has_letters(&self.document, Reading::Close, query) {
            let landing = nothing_sought(query);
            self.purpose = SearchPurpose::Replace;
            self.settle_at(landing);
            return Ok(());
        }
        let landing = forward(&mut self.document, Reading::Close, query, self.cursor.place)?;
        self.purpose = SearchPurpose::Replace;
        self.settle_at(landing);
        match landing.place {
            Some(_) => {
                self.cursor.search_state = SearchState::WithBegun;
                self.count = 0;
                self.input_cursor = self.replacement.as_str().len();
            }
            None => self.cursor.search_state = SearchState::Typed,
        }
        Ok(())
    }

    /// Makes a line the replacement, and clears the message.
    fn take_replacement(&mut self, line: InputLine)
        requires asked { asks_replacement self.old.editor.search_state ≡ true }
        requires few { length (chars line.text) ≤ 64 }
        requires place { IsTextPlace (D.data self.old.tables) line.text line.cursor }
        requires prompt { self.old.editor.prompt ≡ Prompt.Off }
        ensures { self.new ≡ record self.old { editor = with_replacement (cleared self.old.editor) line } }
    {
        self.replacement = line.text;
        self.input_cursor = line.cursor;
        self.cursor.search_state = SearchState::WithTyped;
        self.reset_after_key();
    }

    /// Puts a character other than a line feed into the replacement. A tab or another character that separates paragraphs only clears
    /// the message.
    pub(crate) fn type_replacement(&mut self, c: char) -> Result<(), OutOfMemory>
        requires asked { asks_replacement self.old.editor.search_state ≡ true }
        requires prompt { self.old.editor.prompt ≡ Prompt.Off }
        ensures ok { OnOk result (self.new ≡ record self.old {
          editor = replacement_typed (D.data self.old.tables) (cleared self.old.editor) c;
        }) }
        ensures err { OnErr result (self.new ≡ self.old) }
    {
        if c == '\t' || self.document.separates(c) {
            self.reset_after_key();
            return Ok(());
        }
        let replacement = self.replacement.as_str();
        let (replacement, cursor) = kept(self.cursor.search_state, replacement, self.input_cursor);
        let mut line = InputLine::of(*self.replacement.allocator(), replacement, cursor)?;
        line.insert(&self.document, c, LONGEST_QUERY)?;
        self.take_replacement(line);
        Ok(())
    }

    /// Removes what an erasure removes from the replacement. Where that is nothing, only clears the message.
    pub(crate) fn erase_in_replacement(&mut self, how: Erasure) -> Result<(), OutOfMemory>
        requires asked { asks_replacement self.old.editor.search_state ≡ true }
        requires prompt { self.old.editor.prompt ≡ Prompt.Off }
        ensures ok { OnOk result (self.new ≡ record self.old {
          editor = after_erasing_replacement (D.data self.old.tables) (cleared self.old.editor) how;
        }) }
        ensures err { OnErr result (self.new ≡ self.old) }
    {
        let mut line = InputLine::of(
            *self.replacement.allocator(),
            self.replacement.as_str(),
            self.input_cursor,
        )?;
        if line.erase(&self.document, how)? {
            self.take_replacement(line);
        } else {
            self.reset_after_key();
        }
        Ok(())
    }

    /// Moves the cursor in the replacement.
    pub(crate) fn move_in_replacement(&mut self, m: Move) -> Result<(), OutOfMemory>
        requires asked { asks_replacement self.old.editor.search_state ≡ true }
        requires prompt { self.old.editor.prompt ≡ Prompt.Off }
        ensures ok { OnOk result (self.new ≡ record self.old {
          editor = after_moving_in (D.data self.old.tables) (cleared self.old.editor) self.old.editor.replacement m;
        }) }
        ensures err { OnErr result (self.new ≡ self.old) }
    {
        let cursor = self
            .document
            .moved_in_line(self.replacement.as_str(), m, self.input_cursor)?;
        self.input_cursor = cursor;
        self.cursor.search_state = as_typed(self.cursor.search_state);
        self.reset_after_key();
        Ok(())
    }

    /// Shows the first match from the place on, to which the search led. Allocates nothing.
    pub(crate) fn show_match(&mut self)
        requires asked { asks_replacement self.old.editor.search_state ≡ true }
        ensures { self.new ≡ record self.old { editor = after_showing (D.data self.old.tables) (cleared self.old.editor) } }
    {
        self.reset_after_key();
        let Some(query) = self.sought() else {
            return;
        };
        let reading = reading_of(self.purpose);
        if let Some(at) = self.document.first_from(reading, &query, self.cursor.place) {
            self.at = at;
            self.cursor.search_state = SearchState::Replacing;
        }
    }
}
