//! The status row.
ghost use Rattle.std.specs.Prelude.{◌≡◌, ◌++◌, ◌≤◌, true, Bool, IfOk, IfSome, List, length, option_map, string_bytes};
ghost use Rattle.bx_common.specs.Characters.{are_ascii_printable};
ghost use Rattle.bx_rows.specs.RowPicture.{Glyph};
ghost use Rattle.bx_editor.specs.InputLines.{input_line_of, search_line};
ghost use Rattle.bx_editor.specs.Status.{glyph_row, left_side, name_glyphs, prompt_text, prompt_words, query_prompt, row_glyphs, search_prompt};
ghost use Rattle.bx_editor.specs.Status.{status_line, typed_column, with_some_end};

use crate::editor::Editor;
use crate::questions::Prompt;
use crate::search_state::{SearchPurpose, SearchState};
use bx_common::OutOfMemory;
use bx_document::{DrawnName, RowEnd, StatusRow};
use bx_ucd::BidiData;
use itoa::Buffer;
use std::alloc::{AllocError, Global};

/// Writes the text that `status_line` returns.
fn write_line(
    alloc: Global,
    changed: bool,
    paragraph: usize,
    unit: usize,
) -> Result<String, AllocError>
    ensures { IfOk result (λ t. string_bytes t ≡ status_line changed paragraph unit) }
{
    let mut line = String::from_str(alloc, if changed { "* " } else { "- " })?;
    let mut number = Buffer::new();
    line.push_str(number.format(paragraph))?;
    line.push_str(":")?;
    let mut number = Buffer::new();
    line.push_str(number.format(unit))?;
    Ok(line)
}

/// The text of the status row without a message: a star if there are unsaved changes, else a hyphen; the numbers of the
/// cursor's paragraph and of its unit in the paragraph, both from 1.
///
/// Errors: `AllocError`.
pub(crate) fn status_line(
    alloc: Global,
    changed: bool,
    paragraph: usize,
    unit: usize,
) -> Result<String, AllocError>
    ensures line { IfOk result (λ t. string_bytes t ≡ status_line changed paragraph unit) }
    ensures printable { IfOk result (λ t. are_ascii_printable (string_bytes t) ≡ true) }
{
    // The proof refers to the text by this name.
    let line = write_line(alloc, changed, paragraph, unit)?;
    Ok(line)
}

/// The prompt before the query.
fn query_prompt(purpose: SearchPurpose) -> &'static str
    ensures text { result.now ≡ query_prompt purpose }
    ensures printable { are_ascii_printable result.now ≡ true }
{
    match purpose {
        SearchPurpose::Find => " find: ",
        SearchPurpose::Replace => " replace: ",
    }
}

/// The prompt of a search, empty if none is on.
fn search_prompt(purpose: SearchPurpose, search_state: SearchState) -> &'static str
    ensures text { result.now ≡ search_prompt purpose search_state }
    ensures printable { are_ascii_printable result.now ≡ true }
{
    match search_state {
        SearchState::Off => "",
        SearchState::Begun | SearchState::Typed => query_prompt(purpose),
        SearchState::WithBegun | SearchState::WithTyped => " with: ",
        SearchState::Replacing => " Enter replace F3 next F4 rest ^C end",
    }
}

/// The prompt of a question, empty if nothing is asked.
fn prompt_text(prompt: Prompt) -> &'static str
    ensures text { result.now ≡ prompt_text prompt }
    ensures printable { are_ascii_printable result.now ≡ true }
{
    match prompt {
        Prompt::Off => "",
        Prompt::Line => " line: ",
        Prompt::Name => { " insert: i I f isolate P end l r a mark n j joiner e E o O p u code" }
        Prompt::Code => " insert: U+",
        Prompt::File => " save as: ",
        Prompt::Overwrite => " overwrite it? y or n",
    }
}

/// What stands at the row's end, in a session with a name: the name's glyphs, and a direction.
fn row_end(drawn: &Option<DrawnName>, is_rtl: bool) -> Option<RowEnd<'_>>
    ensures { option_map {U = List Glyph × Bool} (λ e. (e.name.now, e.is_rtl)) result ≡ option_map (λ glyphs. (glyphs, is_rtl)) drawn.now }
{
    match drawn {
        None => None,
        Some(name) => Some(RowEnd { name, is_rtl }),
    }
}

impl<D: BidiData + Drop> Editor<D> {
    /// The words of the prompt of a question, or without one of a search.
    fn prompt_words(&self) -> &'static str
        ensures text { result.now ≡ prompt_words self.now.editor self.now.editor.prompt }
        ensures printable { are_ascii_printable result.now ≡ true }
    {
        match self.prompt {
            Prompt::Off => search_prompt(self.purpose, self.cursor.search_state),
            _ => prompt_text(self.prompt),
        }
    }

    /// The query or the replacement, if one is asked for.
    fn search_line(&self) -> Option<&str>
        ensures { option_map (λ line. line.now) result ≡ search_line self.now.editor.search_state self.now.editor.query self.now.editor.replacement }
    {
        match self.cursor.search_state {
            SearchState::Begun | SearchState::Typed => Some(self.query.as_str()),
            SearchState::WithBegun | SearchState::WithTyped => Some(self.replacement.as_str()),
            SearchState::Off | SearchState::Replacing => None,
        }
    }

    /// The input line that the prompt shows, if it shows one.
    fn input_line(&self) -> Option<&str>
        ensures { option_map (λ line. line.now) result ≡ input_line_of self.now.editor }
    {
        match self.prompt {
            Prompt::Off => self.search_line(),
            Prompt::Line | Prompt::Code | Prompt::File => Some(self.answer.as_str()),
            Prompt::Name | Prompt::Overwrite => None,
        }
    }

    /// Lays out the glyphs of the name; none in a session without a name.
    fn draw_name(&self) -> Result<Option<DrawnName>, OutOfMemory>
        ensures { IfOk result (λ drawn. drawn ≡ option_map (name_glyphs (D.data self.now.tables)) self.now.editor.name) }
    {
        let Some(name) = &self.name else {
            return Ok(None);
        };
        let drawn = self.document.draw_name(name.as_str())?;
        Ok(Some(drawn))
    }

    /// Takes the glyphs of the name out, laid out if they are not yet; none in a session without a name.
    fn take_drawn(&mut self) -> Result<Option<DrawnName>, OutOfMemory>
        ensures same { self.new ≡ self.old }
        ensures drawn { IfOk result (λ drawn. drawn ≡ option_map (name_glyphs (D.data self.old.tables)) self.old.editor.name) }
    {
        if let Some(drawn) = self.drawn_name.take() {
            return Ok(Some(drawn));
        }
        self.draw_name()
    }

    /// Draws a text, then the prompt of a question or a search, with what is typed there, and what stands at the row's end.
    fn draw_prompt(&self, text: String, end: Option<RowEnd<'_>>) -> Result<StatusRow, OutOfMemory>
        requires printable { are_ascii_printable (string_bytes text) ≡ true }
        requires some { 1 ≤ length (string_bytes text) }
        ensures row { IfOk result (λ r. r.row.columns ≡ glyph_row self.now.editor.width (with_some_end self.now.editor.width
            (left_side (D.data self.now.tables) self.now.editor (string_bytes text ++ prompt_words self.now.editor self.now.editor.prompt))
            (option_map (λ e. (e.name.now, e.is_rtl)) end.entry))) }
        ensures column { IfOk result (λ r. r.column ≡ typed_column (D.data self.now.tables) self.now.editor
            (string_bytes text ++ prompt_words self.now.editor self.now.editor.prompt) (input_line_of self.now.editor)) }
        ensures inside { IfOk result (λ r. IfSome r.column (λ c. (1 ≤ c) × (c ≤ self.now.editor.width))) }
        ensures filled { IfOk result (λ r. length r.row.columns ≡ self.now.editor.width) }
        ensures one { IfOk result (λ r. r.row.height ≡ 1) }
        ensures wide { IfOk result (λ r. r.row.width ≡ self.now.editor.width) }
    {
        let mut text = text;
        text.push_str(self.prompt_words())?;
        let Some(line) = self.input_line() else {
            let row = self.document.draw_text(text.as_str(), end)?;
            return Ok(StatusRow { row, column: None });
        };
        // The proof refers to the row by this name.
        let row = self
            .document
            .draw_input(text.as_str(), line, self.input_cursor, end)?;
        Ok(row)
    }

    /// Draws the status row: a text, then the prompt of a question or a search, with what is typed there, and at its end the name.
    /// `is_rtl`: the paragraph is read from right to left.
    pub(crate) fn draw_status(
        &mut self,
        text: String,
        is_rtl: bool,
    ) -> Result<StatusRow, OutOfMemory>
        requires printable { are_ascii_printable (string_bytes text) ≡ true }
        requires some { 1 ≤ length (string_bytes text) }
        ensures same { self.new ≡ self.old }
        ensures row { IfOk result (λ r. r.row.columns ≡ glyph_row self.old.editor.width (row_glyphs (D.data self.old.tables) self.old.editor
            (string_bytes text ++ prompt_words self.old.editor self.old.editor.prompt) is_rtl)) }
        ensures column { IfOk result (λ r. r.column ≡ typed_column (D.data self.old.tables) self.old.editor
            (string_bytes text ++ prompt_words self.old.editor self.old.editor.prompt) (input_line_of self.old.editor)) }
        ensures inside { IfOk result (λ r. IfSome r.column (λ c. (1 ≤ c) × (c ≤ self.old.editor.width))) }
        ensures filled { IfOk result (λ r. length r.row.columns ≡ self.old.editor.width) }
        ensures one { IfOk result (λ r. r.row.height ≡ 1) }
        ensures wide { IfOk result (λ r. r.row.width ≡ self.old.editor.width) }
    {
        let drawn = self.take_drawn()?;
        let end = row_end(&drawn, is_rtl);
        let row = self.draw_prompt(text, end);
        self.drawn_name = drawn;
        row
    }
}
