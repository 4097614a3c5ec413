//! The editor's state, which each key changes, and the calls that read it and set the window's size and its first row.
ghost use Rattle.std.specs.Prelude.{◌≡◌, ℕ, List, true, None};
ghost use Rattle.std.specs.Borrow.{Bor};
ghost use Rattle.std.specs.Iterator.{Drains};
ghost use Rattle.bx_common.specs.Characters.{is_side};
ghost use Rattle.bx_text.specs.Slices.{joined, lends};
ghost use Rattle.bx_grid.specs.Picture.{is_size};
ghost use Rattle.bx_editor.specs.Editor.{with_size, with_top};
ghost use Rattle.bx_editor.specs.Search.{without_search};

use crate::cursor::{Cursor, Soft};
use crate::message::Message;
use crate::past::Past;
use crate::questions::Prompt;
use crate::search_state::{SearchPurpose, SearchState};
use crate::undo_groups::Typing;
use bx_document::{Document, DrawnName};
use bx_text::Slices;
use bx_ucd::BidiData;
use bx_view::Goal;
use std::marker::Model;

/// A text under edit, the cursor's place in it, the mark, the text copied or cut last, the query of a search, and the message
/// of the last key, in a window of rows and columns. `specs/Editor.antt` says what each field means and counts; `view` says which
/// of its fields are in `document`, `cursor` and `past`. `invariant` says what holds of them between any two calls: whoever sets a field
/// has to keep it. 64: `LONGEST_QUERY`.
#[derive(Drop)]
pub struct Editor<D: BidiData + Drop> {
    pub(crate) document: Document<D>,
    pub(crate) cursor: Cursor,
    pub(crate) past: Past,
    pub(crate) held: String,
    pub(crate) whole_line: bool,
    pub(crate) query: String,
    pub(crate) purpose: SearchPurpose,
    pub(crate) origin: usize,
    pub(crate) replacement: String,
    pub(crate) at: usize,
    pub(crate) count: usize,
    pub(crate) prompt: Prompt,
    pub(crate) answer: String,
    pub(crate) input_cursor: usize,
    pub(crate) pasted: Option<String>,
    pub(crate) typing: Typing,
    pub(crate) message: Option<Message>,
    pub(crate) quit_before: bool,
    pub(crate) ended: bool,
    pub(crate) goal: Option<Goal>,
    pub(crate) height: u16,
    pub(crate) top: usize,
    pub(crate) clipboard: bool,
    pub(crate) read_only: bool,
    pub(crate) auto_indent: bool,
    pub(crate) tab_width: u8,
    pub(crate) name: Option<String>,
    pub(crate) home: bool,
    /// The name's glyphs, once they were drawn.
    pub(crate) drawn_name: Option<DrawnName>,
}

impl<D: BidiData + Drop> Model for Editor<D> {
    ghost use Rattle.std.specs.Prelude.{◌≡◌, ◌≤◌, true, IfSome, chars, length, option_map, string_bytes};
    ghost use Rattle.bx_common.specs.Characters.{is_side};
    ghost use Rattle.bx_view.specs.Places.{IsTextPlace};
    ghost use Rattle.bx_editor.specs.Answers.{IsAnswer};
    ghost use Rattle.bx_editor.specs.Clicks.{IsPressed};
    ghost use Rattle.bx_editor.specs.Functions.{EditorState};
    ghost use Rattle.bx_editor.specs.InputLines.{StandsInLine};
    ghost use Rattle.bx_editor.specs.Origin.{BeganAt, StandsAt};
    ghost use Rattle.bx_editor.specs.Status.{IsDrawn};

    ghost Value = { EditorState D };

    ghost view = { λ e. record {
      tables = e.document.tables;
      editor = record {
        content = e.document.document.content;
        place = e.cursor.place;
        mark = e.cursor.mark;
        soft = e.cursor.soft;
        clicks = e.cursor.clicks;
        pressed = e.cursor.pressed;
        held = string_bytes e.held;
        whole_line = e.whole_line;
        query = string_bytes e.query;
        search_state = e.cursor.search_state;
        purpose = e.purpose;
        origin = e.origin;
        replacement = string_bytes e.replacement;
        at = e.at;
        count = e.count;
        prompt = e.prompt;
        answer = string_bytes e.answer;
        input_cursor = e.input_cursor;
        pasted = option_map string_bytes e.pasted;
        undo_groups = e.past.undo_groups.numbers;
        typing = e.typing;
        stored = e.past.stored;
        changed = e.past.changed;
        message = e.message;
        quit_before = e.quit_before;
        ended = e.ended;
        base = e.document.document.base;
        goal = e.goal;
        height = e.height;
        width = e.document.document.w;
        top = e.top;
        clipboard = e.clipboard;
        read_only = e.read_only;
        auto_indent = e.auto_indent;
        tab_width = e.tab_width;
        name = option_map string_bytes e.name;
        home = e.home;
      };
    } };

    ghost invariant = { λ e. IsTextPlace (D.data e.document.tables) e.document.document.content.text e.cursor.place
        × (is_side e.height ≡ true)
        × IfSome e.cursor.mark (IsTextPlace (D.data e.document.tables) e.document.document.content.text)
        × IfSome e.cursor.pressed (IsPressed (D.data e.document.tables) e.document.document.content.text)
        × (length (chars (string_bytes e.query)) ≤ 64)
        × (length (chars (string_bytes e.replacement)) ≤ 64)
        × IsAnswer e.prompt (string_bytes e.answer)
        × StandsInLine (D.data e.document.tables) e.prompt e.cursor.search_state (string_bytes e.query) (string_bytes e.replacement) (string_bytes e.answer) e.input_cursor
        × IsDrawn (D.data e.document.tables) (option_map string_bytes e.name) e.drawn_name
        × BeganAt (D.data e.document.tables) e.document.document.content.text e.cursor.search_state e.origin
        × StandsAt (D.data e.document.tables) e.purpose (string_bytes e.query) e.document.document.content.text e.cursor.search_state e.at e.count };
}

impl<D: BidiData + Drop> Editor<D> {
    /// Sets the window's size, in rows and columns. Allocates nothing.
    pub fn resize(&mut self, height: u16, width: u16)
        requires sized { is_size height width ≡ true }
        ensures { self.new ≡ record self.old { editor = with_size self.old.editor height width } }
    {
        self.document.set_width(width);
        self.height = height;
        self.cursor.clicks = None;
    }

    /// Counts the text as changed since the last save, and no undo as leading to the stored text. Allocates nothing.
    pub fn count_as_changed(&mut self)
        ensures { self.new ≡ record self.old { editor = record self.old.editor { stored = None; changed = true } } }
    {
        self.past.stored = None;
        self.past.changed = true;
    }

    /// The text in consecutive pieces. Allocates nothing.
    pub fn pieces(&self) -> Slices<'_>
        ensures text { result ≡ self.now.editor.content.text }
        ensures joined { (slices : List (Bor (List ℕ))) → Drains lends result slices → joined slices ≡ self.now.editor.content.text }
    {
        self.document.pieces()
    }

    /// Whether Quit has ended the editor. Allocates nothing.
    pub fn ended(&self) -> bool
        ensures { result ≡ self.now.editor.ended }
    {
        self.ended
    }

    /// The cursor's place, in bytes from 0. Allocates nothing.
    pub fn place(&self) -> usize
        ensures { result ≡ self.now.editor.place }
    {
        self.cursor.place
    }

    /// The mark's place, if there is a mark. Allocates nothing.
    pub fn mark(&self) -> Option<usize>
        ensures { result ≡ self.now.editor.mark }
    {
        self.cursor.mark
    }

    /// The text that was copied or cut last. Allocates nothing.
    pub fn held(&self) -> &str
        ensures { result.now ≡ self.now.editor.held }
    {
        self.held.as_str()
    }

    /// The query of the search, or of the latest one. Allocates nothing.
    pub fn query(&self) -> &str
        ensures { result.now ≡ self.now.editor.query }
    {
        self.query.as_str()
    }

    /// The text that replaces matches. Allocates nothing.
    pub fn replacement(&self) -> &str
        ensures { result.now ≡ self.now.editor.replacement }
    {
        self.replacement.as_str()
    }

    /// How far the search is. Allocates nothing.
    pub fn search_state(&self) -> SearchState
        ensures { result ≡ self.now.editor.search_state }
    {
        self.cursor.search_state
    }

    /// What the search, or the latest one, is for. Allocates nothing.
    pub fn purpose(&self) -> SearchPurpose
        ensures { result ≡ self.now.editor.purpose }
    {
        self.purpose
    }

    /// What the user is asked. Allocates nothing.
    pub fn prompt(&self) -> Prompt
        ensures { result ≡ self.now.editor.prompt }
    {
        self.prompt
    }

    /// The answer to the question, or to the latest one. Allocates nothing.
    pub fn typed_answer(&self) -> &str
        ensures { result.now ≡ self.now.editor.answer }
    {
        self.answer.as_str()
    }

    /// The window's rows. Allocates nothing.
    pub fn height(&self) -> u16
        ensures height { result ≡ self.now.editor.height }
        ensures side { is_side self.now.editor.height ≡ true }
    {
        self.height
    }

    /// The window's columns. Allocates nothing.
    pub fn width(&self) -> u16
        ensures width { result ≡ self.now.editor.width }
        ensures side { is_side self.now.editor.width ≡ true }
    {
        self.document.width()
    }

    /// The offset, in bytes, whose row was last shown first. Allocates nothing.
    pub fn top(&self) -> usize
        ensures { result ≡ self.now.editor.top }
    {
        self.top
    }

    /// Notes the offset whose row is shown first. Allocates nothing.
    pub fn set_top(&mut self, top: usize)
        ensures { self.new ≡ record self.old { editor = with_top self.old.editor top } }
    {
        self.top = top;
    }

    /// Ends the search, if one is on. The cursor stays. Allocates nothing.
    pub(crate) fn leave_search(&mut self)
        ensures { self.new ≡ record self.old { editor = without_search self.old.editor } }
    {
        self.cursor.search_state = SearchState::Off;
    }
}
