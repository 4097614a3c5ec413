//! How a key moves the row that is shown first.
ghost use Rattle.std.specs.Prelude.{◌≡◌, IfOk, OnErr, OnOk};
ghost use Rattle.bx_view.specs.Moves.{row_home};
ghost use Rattle.bx_editor.specs.Before.{before};
ghost use Rattle.bx_editor.specs.Editor.{cleared, rows, text_height, with_top};
ghost use Rattle.bx_editor.specs.Picture.{scrolled_by};
ghost use Rattle.bx_editor.specs.RowMoves.{after_wheel, carried, shows_place, wheel_top};
ghost use Rattle.bx_editor.specs.Scrolling.{edits_input, fills_alone, goes_far, has_input_line, is_far, is_line_end, moved_top, scroll_by, scroll_in, scroll_of, seeks_on};

use crate::editor::Editor;
use crate::picture::text_height;
use crate::questions::Prompt;
use crate::search_state::SearchState;
use crate::selecting::aged;
use bx_common::OutOfMemory;
use bx_keys::Key;
use bx_ucd::BidiData;
use bx_view::{Move, Vertical};

/// How a key moves the top where its painting succeeds, before the fewest rows that make the cursor's row visible.
#[derive(Clone, Copy)]
pub enum Scroll {
    /// Not.
    Least,
    /// A row that is not shown is centred.
    Centre,
    /// By a number of rows.
    By(Vertical, usize),
    /// No row is left blank that could show text.
    Fills,
}

/// The rows by which the wheel moves the view.
const WHEEL_ROWS: usize = 3;

/// Whether a key seeks, or undoes or redoes a group.
fn goes_far(key: Key) -> bool
    ensures { result ≡ goes_far key }
{
    match key {
        Key::Find | Key::FindBack | Key::FindNext | Key::FindPrevious => true,
        Key::Replace | Key::Undo | Key::Redo => true,
        _ => false,
    }
}

/// Whether a key is a line end, which goes to the line that was asked for.
fn is_line_end(key: Key) -> bool
    ensures { result ≡ is_line_end key }
{
    match key {
        Key::Insert(c) => c == '\n',
        Key::NewLine => true,
        _ => false,
    }
}

/// Whether a key leads to another match while a search is on, or back to where it began.
fn seeks_on(key: Key) -> bool
    ensures { result ≡ seeks_on key }
{
    match key {
        Key::Insert(_) | Key::NewLine => true,
        Key::Erase | Key::ErasePoint | Key::Delete => true,
        Key::Quit | Key::Copy | Key::Cancel => true,
        _ => false,
    }
}

/// Whether a key changes what is typed in an input line as no other key of [`seeks_on`] does.
fn edits_input(key: Key) -> bool
    ensures { result ≡ edits_input key }
{
    matches!(key, Key::Put | Key::EraseWord | Key::DeleteWord)
}

/// Whether a prompt shows an input line.
fn has_input_line(prompt: Prompt, search_state: SearchState) -> bool
    ensures { result ≡ has_input_line prompt search_state }
{
    match (prompt, search_state) {
        (Prompt::Line | Prompt::Code | Prompt::File, _) => true,
        (Prompt::Off, SearchState::Begun | SearchState::Typed) => true,
        (Prompt::Off, SearchState::WithBegun | SearchState::WithTyped) => true,
        _ => false,
    }
}

/// Whether a key centres a row that is not shown.
fn is_far(prompt: Prompt, search_state: SearchState, key: Key) -> bool
    ensures { result ≡ is_far prompt search_state key }
{
    if goes_far(key) {
        return true;
    }
    if matches!(prompt, Prompt::Line) && is_line_end(key) {
        return true;
    }
    if !matches!(search_state, SearchState::Off) && seeks_on(key) {
        return true;
    }
    has_input_line(prompt, search_state) && edits_input(key)
}

/// How a key moves the top where the question is whether to overwrite.
fn fills_alone(key: Key) -> Scroll
    ensures { result ≡ fills_alone key }
{
    match key {
        Key::Fill => Scroll::Fills,
        _ => Scroll::Least,
    }
}

impl<D: BidiData + Drop> Editor<D> {
    /// How a key moves the top, but in the question whether to overwrite.
    fn scroll_by(&self, key: Key) -> Scroll
        ensures { result ≡ scroll_by (text_height self.now.editor.height) self.now.editor.prompt self.now.editor.search_state key }
    {
        match key {
            Key::PageBack => Scroll::By(Vertical::Up, self.page_rows()),
            Key::PageOn => Scroll::By(Vertical::Down, self.page_rows()),
            Key::ScrollBack => Scroll::By(Vertical::Up, WHEEL_ROWS),
            Key::ScrollOn => Scroll::By(Vertical::Down, WHEEL_ROWS),
            Key::Fill => Scroll::Fills,
            _ if is_far(self.prompt, self.cursor.search_state, key) => Scroll::Centre,
            _ => Scroll::Least,
        }
    }

    /// How a key that comes now moves the top, once it is applied and painted. Allocates nothing.
    pub fn scroll_of(&self, key: Key) -> Scroll
        ensures { result ≡ scroll_of self.now.editor key }
    {
        match self.prompt {
            Prompt::Overwrite => fills_alone(key),
            _ => self.scroll_by(key),
        }
    }

    /// The offset whose row is the new top row, where the old one is that of `top`.
    pub(crate) fn moved_top(&mut self, top: usize, scroll: Scroll) -> Result<usize, OutOfMemory>
        ensures same { self.new ≡ self.old }
        ensures top { IfOk result (λ o. o ≡ moved_top (D.data self.old.tables) self.old.editor top scroll) }
    {
        let count = text_height(self.height);
        match scroll {
            Scroll::Least => Ok(top),
            Scroll::Centre => self.document.centred(top, self.cursor.place, count),
            Scroll::By(way, n) => self.document.top_away(top, way, n, count),
            Scroll::Fills => self.document.filled(top, count),
        }
    }

    /// Moves the top as a key asked for it, without the fewest rows that follow.
    ///
    /// Errors: `OutOfMemory`, and nothing has changed.
    pub fn move_top(&mut self, scroll: Scroll) -> Result<(), OutOfMemory>
        ensures ok { OnOk result (self.new ≡ record self.old {
          editor = with_top self.old.editor (moved_top (D.data self.old.tables) self.old.editor self.old.editor.top scroll);
        }) }
        ensures err { OnErr result (self.new ≡ self.old) }
    {
        self.top = self.moved_top(self.top, scroll)?;
        Ok(())
    }

    /// Notes the row that the next picture shows first behind a key, as its painting does, and draws nothing.
    ///
    /// Errors: `OutOfMemory`, and nothing has changed.
    pub fn scroll(&mut self, scroll: Scroll) -> Result<(), OutOfMemory>
        ensures ok { OnOk result (self.new ≡ record self.old { editor = scrolled_by (D.data self.old.tables) scroll self.old.editor }) }
        ensures err { OnErr result (self.new ≡ self.old) }
    {
        if self.ended {
            return Ok(());
        }
        let count = text_height(self.height);
        let top = self.moved_top(self.top, scroll)?;
        self.top = self.document.follow(top, self.cursor.place, count)?;
        Ok(())
    }

    /// Carries the cursor to the nearest row that is shown where the row of `top` is the first, in the kept column.
    fn carry(&mut self, top: usize) -> Result<(), OutOfMemory>
        ensures ok { OnOk result (self.new ≡ record self.old { editor = carried (D.data self.old.tables) (cleared self.old.editor) top }) }
        ensures err { OnErr result (self.new ≡ self.old) }
    {
        let count = text_height(self.height);
        let goal = self.kept_goal()?;
        let place = self.document.to_shown(top, count, goal, self.cursor.place)?;
        self.set_place(place);
        self.unselect();
        self.goal = Some(goal);
        self.cursor.soft = aged(self.cursor.soft);
        self.leave_question();
        self.leave_search();
        Ok(())
    }

    /// Moves the view by the wheel's rows, and the cursor only where its row is not shown then. Where nothing moves the message stays.
    pub(crate) fn wheel(&mut self, way: Vertical) -> Result<(), OutOfMemory>
        ensures ok { OnOk result (self.new ≡ record self.old {
          editor = after_wheel (D.data self.old.tables) (before self.old.editor) (cleared self.old.editor) way;
        }) }
        ensures err { OnErr result (self.new ≡ self.old) }
    {
        let count = text_height(self.height);
        let top = self.document.top_away(self.top, way, WHEEL_ROWS, count)?;
        if !self.document.is_shown(top, self.cursor.place, count)? {
            return self.carry(top);
        }
        let old = self.document.moved(Move::RowHome, self.top)?;
        let message = self.message;
        self.reset_after_key();
        if top == old {
            self.message = message;
        }
        Ok(())
    }
}
