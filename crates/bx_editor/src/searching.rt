//! The calls by which a search begins, goes on and is given up, and FindNext outside a search. `keys.rt` and `search_keys.rt` say
//! which key makes which call.
ghost use Rattle.std.specs.Prelude.{◌≡◌, ◌≤◌, ◌==◌, if◌then◌else◌, not, true, chars, length, IfOk, IfSome, OnErr, OnOk};
ghost use Rattle.bx_view.specs.Places.{IsTextPlace};
ghost use Rattle.bx_editor.specs.declared.questions.answers.Prompt.{Prompt};
ghost use Rattle.bx_editor.specs.Editor.{cleared};
ghost use Rattle.bx_editor.specs.Origin.{is_queried};
ghost use Rattle.bx_editor.specs.Search.{after_beginning, after_erasing_query, after_find, after_find_back, after_find_next, after_find_previous, after_giving_up, after_letter};
ghost use Rattle.bx_editor.specs.Search.{after_moving_in, landed, next_or_start, search_on, sought, sought_alone, with_query, without_search};
ghost use Rattle.bx_editor.specs.Region.{unselected};

use crate::editor::Editor;
use crate::input_line::{Erasure, InputLine};
use crate::matches::{Landing, backward, forward, has_letters};
use crate::query::{LONGEST_QUERY, as_typed, kept, reading_of};
use crate::search_state::{SearchPurpose, SearchState};
use crate::undo_groups::Typing;
use bx_common::OutOfMemory;
use bx_find::Reading;
use bx_ucd::BidiData;
use bx_view::{Logical, Move};

impl<D: BidiData + Drop> Editor<D> {
    /// Begins a search at the place, with the query of the latest one and the cursor at its end. An old selection is taken off.
    pub(crate) fn begin_search(&mut self, purpose: SearchPurpose)
        requires prompt { self.old.editor.prompt ≡ Prompt.Off }
        ensures { self.new ≡ record self.old { editor = after_beginning purpose (unselected (cleared self.old.editor)) } }
    {
        self.unselect();
        self.origin = self.cursor.place;
        self.cursor.search_state = SearchState::Begun;
        self.purpose = purpose;
        self.input_cursor = self.query.as_str().len();
        self.reset_after_key();
    }

    /// Ends the search.
    pub(crate) fn end_search(&mut self)
        ensures { self.new ≡ record self.old { editor = without_search (cleared self.old.editor) } }
    {
        self.leave_search();
        self.reset_after_key();
    }

    /// Ends the search, and returns to where it began.
    pub(crate) fn give_up(&mut self)
        requires origin { IsTextPlace (D.data self.old.tables) self.old.editor.content.text self.old.editor.origin }
        ensures { self.new ≡ record self.old { editor = after_giving_up (cleared self.old.editor) } }
    {
        self.cursor.place = self.origin;
        self.end_search();
    }

    /// Moves the cursor to where a search led, if anywhere, and sets its message. How far the search is stays. Allocates nothing.
    pub(crate) fn settle_at(&mut self, landing: Landing)
        requires place { IfSome landing.place (IsTextPlace (D.data self.old.tables) self.old.editor.content.text) }
        ensures { self.new ≡ record self.old { editor = landed (cleared self.old.editor) landing } }
    {
        self.cursor.place = landing.place.unwrap_or(self.cursor.place);
        self.message = landing.message;
        self.quit_before = false;
        self.typing = Typing::Off;
    }

    /// Moves the cursor to where a search led, if anywhere, and sets its message. The query counts as typed: the next letter is
    /// appended to it.
    fn land(&mut self, landing: Landing)
        requires queried { is_queried self.old.editor.search_state ≡ true }
        requires origin { IsTextPlace (D.data self.old.tables) self.old.editor.content.text self.old.editor.origin }
        requires place { IfSome landing.place (IsTextPlace (D.data self.old.tables) self.old.editor.content.text) }
        ensures { self.new ≡ record self.old { editor = landed (record (cleared self.old.editor) { search_state = SearchState.Typed }) landing } }
    {
        self.settle_at(landing);
        self.cursor.search_state = SearchState::Typed;
    }

    /// Where a query is sought from: from the place on if it grew at its end, else from where the search began.
    fn search_start(&self, grows: bool) -> usize
        requires origin { IsTextPlace (D.data self.now.tables) self.now.editor.content.text self.now.editor.origin }
        ensures start { result ≡ (if grows then self.now.editor.place else self.now.editor.origin) }
        ensures text_place { IsTextPlace (D.data self.now.tables) self.now.editor.content.text result }
    {
        if grows {
            self.cursor.place
        } else {
            self.origin
        }
    }

    /// Makes a line the query, and seeks it: from the place on, or, if it did not grow at its end, from where the search began.
    fn search_with(&mut self, line: InputLine, grows: bool) -> Result<(), OutOfMemory>
        requires origin { IsTextPlace (D.data self.old.tables) self.old.editor.content.text self.old.editor.origin }
        requires few { length (chars line.text) ≤ 64 }
        requires place { IsTextPlace (D.data self.old.tables) line.text line.cursor }
        requires prompt { self.old.editor.prompt ≡ Prompt.Off }
        ensures ok { OnOk result (self.new ≡ record self.old {
          editor = search_on (D.data self.old.tables) grows (with_query (cleared self.old.editor) line);
        }) }
        ensures err { OnErr result (self.new ≡ self.old) }
    {
        let from = self.search_start(grows);
        let landing = forward(
            &mut self.document,
            reading_of(self.purpose),
            line.text.as_str(),
            from,
        )?;
        self.cursor.search_state = SearchState::Typed;
        self.query = line.text;
        self.input_cursor = line.cursor;
        self.cursor.place = from;
        self.land(landing);
        Ok(())
    }

    /// Puts a character into the query, and seeks it. A tab, or a character that separates paragraphs, only clears the message.
    pub(crate) fn type_letter(&mut self, c: char) -> Result<(), OutOfMemory>
        requires origin { IsTextPlace (D.data self.old.tables) self.old.editor.content.text self.old.editor.origin }
        requires queried { is_queried self.old.editor.search_state ≡ true }
        requires prompt { self.old.editor.prompt ≡ Prompt.Off }
        ensures ok { OnOk result (self.new ≡ record self.old {
          editor = after_letter (D.data self.old.tables) (cleared self.old.editor) c;
        }) }
        ensures err { OnErr result (self.new ≡ self.old) }
    {
        if c == '\t' || self.document.separates(c) {
            self.reset_after_key();
            return Ok(());
        }
        let (query, cursor) = kept(
            self.cursor.search_state,
            self.query.as_str(),
            self.input_cursor,
        );
        let grows = cursor == query.len();
        let mut line = InputLine::of(*self.query.allocator(), query, cursor)?;
        line.insert(&self.document, c, LONGEST_QUERY)?;
        self.search_with(line, grows)
    }

    /// Removes what an erasure removes from the query, and seeks the rest from where the search began. Where that is nothing, only
    /// clears the message.
    pub(crate) fn erase_in_query(&mut self, how: Erasure) -> Result<(), OutOfMemory>
        requires origin { IsTextPlace (D.data self.old.tables) self.old.editor.content.text self.old.editor.origin }
        requires queried { is_queried self.old.editor.search_state ≡ true }
        requires prompt { self.old.editor.prompt ≡ Prompt.Off }
        ensures ok { OnOk result (self.new ≡ record self.old {
          editor = after_erasing_query (D.data self.old.tables) (cleared self.old.editor) how;
        }) }
        ensures err { OnErr result (self.new ≡ self.old) }
    {
        let mut line = InputLine::of(
            *self.query.allocator(),
            self.query.as_str(),
            self.input_cursor,
        )?;
        if !line.erase(&self.document, how)? {
            self.reset_after_key();
            return Ok(());
        }
        self.search_with(line, false)
    }

    /// Moves the cursor in the query.
    pub(crate) fn move_in_query(&mut self, m: Move) -> Result<(), OutOfMemory>
        requires queried { is_queried self.old.editor.search_state ≡ true }
        requires prompt { self.old.editor.prompt ≡ Prompt.Off }
        ensures ok { OnOk result (self.new ≡ record self.old {
          editor = after_moving_in (D.data self.old.tables) (cleared self.old.editor) self.old.editor.query m;
        }) }
        ensures err { OnErr result (self.new ≡ self.old) }
    {
        let cursor = self
            .document
            .moved_in_line(self.query.as_str(), m, self.input_cursor)?;
        self.input_cursor = cursor;
        self.cursor.search_state = as_typed(self.cursor.search_state);
        self.reset_after_key();
        Ok(())
    }

    /// The place after the cursor's, or the text's start if there is none.
    fn next_or_start(&mut self) -> Result<usize, OutOfMemory>
        ensures same { self.new ≡ self.old }
        ensures next { IfOk result (λ x. x ≡ next_or_start (D.data self.old.tables) self.old.editor) }
        ensures text_place { IfOk result (IsTextPlace (D.data self.old.tables) self.old.editor.content.text) }
    {
        let next = self
            .document
            .moved(Move::Logical(Logical::Forward), self.cursor.place)?;
        if self.cursor.place < next {
            return Ok(next);
        }
        Ok(0)
    }

    /// Goes to the next match.
    pub(crate) fn find_next(&mut self) -> Result<(), OutOfMemory>
        requires queried { is_queried self.old.editor.search_state ≡ true }
        requires origin { IsTextPlace (D.data self.old.tables) self.old.editor.content.text self.old.editor.origin }
        ensures ok { OnOk result (self.new ≡ record self.old {
          editor = after_find (D.data self.old.tables) (cleared self.old.editor);
        }) }
        ensures err { OnErr result (self.new ≡ self.old) }
    {
        let next = self.next_or_start()?;
        let landing = forward(
            &mut self.document,
            reading_of(self.purpose),
            self.query.as_str(),
            next,
        )?;
        self.land(landing);
        Ok(())
    }

    /// Moves the cursor to where a search led, if anywhere, and sets its message; no search is on, and an old selection is taken off.
    /// Allocates nothing.
    fn settle_alone(&mut self, landing: Landing)
        requires place { IfSome landing.place (IsTextPlace (D.data self.old.tables) self.old.editor.content.text) }
        ensures { self.new ≡ record self.old { editor = landed (sought_alone (unselected (cleared self.old.editor))) landing } }
    {
        self.cursor.search_state = SearchState::Off;
        self.purpose = SearchPurpose::Find;
        self.origin = self.cursor.place;
        self.settle_at(landing);
        self.unselect();
    }

    /// Whether the query has letters, as the latest search read it.
    fn has_query(&self) -> bool
        ensures { result ≡ not (length (sought (D.data self.now.tables) self.now.editor) == 0) }
    {
        has_letters(
            &self.document,
            reading_of(self.purpose),
            self.query.as_str(),
        )
    }

    /// Goes to the next match, and no search is on. If the query has no letters, begins a search. An old selection is taken off.
    pub(crate) fn go_to_next(&mut self) -> Result<(), OutOfMemory>
        requires prompt { self.old.editor.prompt ≡ Prompt.Off }
        ensures ok { OnOk result (self.new ≡ record self.old {
          editor = after_find_next (D.data self.old.tables) (unselected (cleared self.old.editor));
        }) }
        ensures err { OnErr result (self.new ≡ self.old) }
    {
        if !self.has_query() {
            self.begin_search(SearchPurpose::Find);
            return Ok(());
        }
        let next = self.next_or_start()?;
        let query = self.query.as_str();
        let landing = forward(&mut self.document, Reading::Wide, query, next)?;
        self.settle_alone(landing);
        Ok(())
    }

    /// Goes to the previous match, and no search is on. If the query has no letters, begins a search. An old selection is taken off.
    pub(crate) fn go_to_previous(&mut self) -> Result<(), OutOfMemory>
        requires prompt { self.old.editor.prompt ≡ Prompt.Off }
        ensures ok { OnOk result (self.new ≡ record self.old {
          editor = after_find_previous (D.data self.old.tables) (unselected (cleared self.old.editor));
        }) }
        ensures err { OnErr result (self.new ≡ self.old) }
    {
        if !self.has_query() {
            self.begin_search(SearchPurpose::Find);
            return Ok(());
        }
        let query = self.query.as_str();
        let landing = backward(&mut self.document, Reading::Wide, query, self.cursor.place)?;
        self.settle_alone(landing);
        Ok(())
    }

    /// Goes to the previous match.
    pub(crate) fn find_previous(&mut self) -> Result<(), OutOfMemory>
        requires queried { is_queried self.old.editor.search_state ≡ true }
        requires origin { IsTextPlace (D.data self.old.tables) self.old.editor.content.text self.old.editor.origin }
        ensures ok { OnOk result (self.new ≡ record self.old {
          editor = after_find_back (D.data self.old.tables) (cleared self.old.editor);
        }) }
        ensures err { OnErr result (self.new ≡ self.old) }
    {
        let landing = backward(
            &mut self.document,
            reading_of(self.purpose),
            self.query.as_str(),
            self.cursor.place,
        )?;
        self.land(landing);
        Ok(())
    }
}
