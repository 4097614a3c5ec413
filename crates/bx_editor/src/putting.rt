//! The keys that type and put in.
ghost use Rattle.std.specs.Prelude.{◌≡◌, ◌<◌, ◌||◌, ◌∷◌, [], if◌then◌else◌, IfOk, OnErr, OnOk, encode_utf8, string_bytes};
ghost use Rattle.bx_text.specs.Edits.{fits};
ghost use Rattle.bx_document.specs.Line.{ends_with_separator, is_line_empty};
ghost use Rattle.bx_editor.specs.Editor.{cleared, with_insertion};
ghost use Rattle.bx_editor.specs.Putting.{after_character, after_new_line, after_put, after_tab, as_line, has_room, is_paste, new_indent, new_line_end, only_paste};
ghost use Rattle.bx_editor.specs.Putting.{put_in, put_line, puts_line, typed, with_selection_replaced, yielding};
ghost use Rattle.bx_editor.specs.undo_groups.Groups.{kind_of};
ghost use Rattle.bx_view.specs.Places.{IsTextPlace};
ghost use Rattle.bx_editor.specs.Region.{region};

use crate::editor::Editor;
use crate::message::Message;
use crate::undo_groups::{Kind, Typing};
use bx_common::{OutOfMemory, Range};
use bx_ucd::BidiData;
use std::mem;

/// Whether a paste is being read.
pub(crate) fn is_paste(typing: Typing) -> bool
    ensures { result ≡ is_paste typing }
{
    matches!(typing, Typing::Paste)
}

/// What goes on where nothing was put into the text: only a paste.
pub(crate) fn only_paste(typing: Typing) -> Typing
    ensures { result ≡ only_paste typing }
{
    match typing {
        Typing::Paste => Typing::Paste,
        _ => Typing::Off,
    }
}

/// A line end: CR LF, or LF.
fn line_end(is_crlf: bool) -> &'static str
    ensures { result.now ≡ (if is_crlf then 0xD ∷ 0xA ∷ [] else 0xA ∷ []) }
{
    if is_crlf { "\r\n" } else { "\n" }
}

impl<D: BidiData + Drop> Editor<D> {
    /// Inserts bytes at the place, as an edit that goes on with the undo group before or begins one. Returns whether there was
    /// room.
    pub(crate) fn insert_text(&mut self, new: &str, goes_on: bool) -> Result<bool, OutOfMemory>
        ensures room { IfOk result (λ room. room ≡ fits self.old.editor.content.text self.old.editor.place self.old.editor.place new.now) }
        ensures ok { IfOk result (λ room. self.new ≡ record self.old {
          editor = if room then with_insertion (D.data self.old.tables) self.old.editor new.now goes_on else self.old.editor;
        }) }
        ensures err { OnErr result (self.new ≡ self.old) }
    {
        self.past.undo_groups.reserve()?;
        let n = self.document.past_len();
        let Some(place) = self.document.insert(self.cursor.place, new)? else {
            return Ok(false);
        };
        self.past.edited(n, goes_on);
        self.cursor.move_after_edit(place);
        Ok(true)
    }

    /// Puts bytes in place of the region, as two edits of one undo group. Returns whether there was room.
    fn replace_region(&mut self, new: &str) -> Result<bool, OutOfMemory>
        ensures room { IfOk result (λ room. room ≡ fits self.old.editor.content.text (region self.old.editor).0 (region self.old.editor).1 new.now) }
        ensures ok { IfOk result (λ room. self.new ≡ record self.old {
          editor = if room then with_selection_replaced (D.data self.old.tables) self.old.editor new.now else self.old.editor;
        }) }
        ensures err { OnErr result (self.new ≡ self.old) }
    {
        let Range { start, stop } = self.region();
        self.past.undo_groups.reserve()?;
        let n = self.document.past_len();
        let Some(place) = self.document.replace(start, stop, new, self.cursor.place)? else {
            return Ok(false);
        };
        // Two edits are noted as one: the second goes on with the first one's undo group, and changes neither `undo_groups` nor
        // `stored`.
        self.past.edited(n, false);
        self.cursor.move_after_edit(place);
        Ok(true)
    }

    /// Puts bytes in, in place of the selection if there is one; without room, sets a message. Returns whether there was room.
    pub(crate) fn put_in(&mut self, new: &str, goes_on: bool) -> Result<bool, OutOfMemory>
        ensures room { IfOk result (λ room. room ≡ has_room self.old.editor new.now) }
        ensures ok { OnOk result (self.new ≡ record self.old {
          editor = put_in (D.data self.old.tables) (cleared self.old.editor) new.now goes_on;
        }) }
        ensures err { OnErr result (self.new ≡ self.old) }
    {
        let room = if self.is_selection() {
            self.replace_region(new)?
        } else {
            self.insert_text(new, goes_on)?
        };
        self.reset_after_key();
        if !room {
            self.message = Some(Message::TextFull);
        }
        Ok(room)
    }

    /// Types `new`, whose characters are of one kind.
    fn type_text(&mut self, new: &str, kind: Kind) -> Result<(), OutOfMemory>
        ensures ok { OnOk result (self.new ≡ record self.old {
          editor = typed (D.data self.old.tables) self.old.editor.typing (cleared self.old.editor) new.now kind;
        }) }
        ensures err { OnErr result (self.new ≡ self.old) }
    {
        let typing = self.typing;
        let room = self.put_in(new, typing.goes_on(kind))?;
        self.typing = if room {
            kind.typing()
        } else {
            only_paste(typing)
        };
        Ok(())
    }

    /// The text's line end, without the selection that gives way to it.
    fn new_line_end(&self) -> &'static str
        ensures { result.now ≡ new_line_end (D.data self.now.tables) self.now.editor }
    {
        let Range { start, stop } = self.region();
        let is_crlf = if self.is_selection() {
            self.document.has_crlf_first_without(start, stop)
        } else {
            self.document.has_crlf_first()
        };
        line_end(is_crlf)
    }

    /// The part of the text that gives way to what is put in: the selection, or nothing.
    fn yielding(&self) -> Range
        ensures start { result.start ≡ (yielding self.now.editor).0 }
        ensures stop { result.stop ≡ (yielding self.now.editor).1 }
        ensures text_place { IsTextPlace (D.data self.now.tables) self.now.editor.content.text result.start }
    {
        if self.is_selection() {
            return self.region();
        }
        Range {
            start: self.cursor.place,
            stop: self.cursor.place,
        }
    }

    /// What indents a new line.
    fn new_indent(&self) -> Result<String, OutOfMemory>
        ensures { IfOk result (λ s. string_bytes s ≡ new_indent (D.data self.now.tables) self.now.editor) }
    {
        if !self.auto_indent {
            return Ok(String::new(*self.held.allocator()));
        }
        self.document.indent(self.yielding().start)
    }

    /// Types a line end and the indent of the line before it.
    pub(crate) fn new_line(&mut self) -> Result<(), OutOfMemory>
        ensures ok { OnOk result (self.new ≡ record self.old {
          editor = after_new_line (D.data self.old.tables) self.old.editor.typing (cleared self.old.editor);
        }) }
        ensures err { OnErr result (self.new ≡ self.old) }
    {
        let indent = self.new_indent()?;
        let mut new = String::from_str(*self.held.allocator(), self.new_line_end())?;
        new.push_str(indent.as_str())?;
        self.type_text(new.as_str(), Kind::Separator)
    }

    /// Types a tab as spaces, up to the next multiple of its width.
    fn type_spaces(&mut self, width: usize) -> Result<(), OutOfMemory>
        requires width { width ≡ self.old.editor.tab_width }
        requires some { 0 < width }
        ensures ok { OnOk result (self.new ≡ record self.old {
          editor = after_tab (D.data self.old.tables) self.old.editor.typing (cleared self.old.editor);
        }) }
        ensures err { OnErr result (self.new ≡ self.old) }
    {
        let start = self.yielding().start;
        let units = self.document.units_in_line(start)?;
        let spaces = " ".repeat(*self.held.allocator(), width - units % width)?;
        self.type_text(spaces.as_str(), Kind::Blank)
    }

    /// Types a character.
    pub(crate) fn insert(&mut self, c: char) -> Result<(), OutOfMemory>
        ensures ok { OnOk result (self.new ≡ record self.old {
          editor = after_character (D.data self.old.tables) self.old.editor.typing (cleared self.old.editor) c;
        }) }
        ensures err { OnErr result (self.new ≡ self.old) }
    {
        if c == '\t' && self.tab_width > 0 {
            return self.type_spaces(usize::from(self.tab_width));
        }
        self.type_character(c)
    }

    /// Types a character as it is.
    fn type_character(&mut self, c: char) -> Result<(), OutOfMemory>
        ensures ok { OnOk result (self.new ≡ record self.old {
          editor = typed (D.data self.old.tables) self.old.editor.typing (cleared self.old.editor) (encode_utf8 c) (kind_of ((D.data self.old.tables).class c));
        }) }
        ensures err { OnErr result (self.new ≡ self.old) }
    {
        let kind = Kind::of(self.document.class(c));
        // a character has at most four bytes
        let mut buffer = [0; 4];
        let new = c.encode_utf8(&mut buffer);
        self.type_text(new, kind)
    }

    /// Whether a whole line is held, and nothing is selected.
    fn puts_line(&self) -> bool
        ensures { result ≡ puts_line self.now.editor }
    {
        self.whole_line && !self.is_selection()
    }

    /// Whether a text that is put over the place's line needs no line end: it has one, or the line is empty.
    fn is_line(&self, text: &str) -> bool
        ensures { result ≡ (ends_with_separator (D.data self.now.tables) text.now
            || is_line_empty (D.data self.now.tables) self.now.editor.content.text self.now.editor.place) }
    {
        self.document.ends_with_separator(text) || self.document.is_line_empty(self.cursor.place)
    }

    /// The held text as a line that is put over the place's: with a line end, but over an empty line as it is.
    fn held_line(&self) -> Result<String, OutOfMemory>
        ensures { IfOk result (λ s. string_bytes s ≡ as_line (D.data self.now.tables) self.now.editor self.now.editor.held) }
    {
        let mut new = self.held.clone()?;
        if self.is_line(new.as_str()) {
            return Ok(new);
        }
        new.push_str(line_end(self.document.has_crlf_first()))?;
        Ok(new)
    }

    /// Puts a whole line over the place's; without room sets a message.
    fn put_line(&mut self) -> Result<(), OutOfMemory>
        ensures ok { OnOk result (self.new ≡ record self.old {
          editor = put_line (D.data self.old.tables) (cleared self.old.editor)
              (as_line (D.data self.old.tables) self.old.editor self.old.editor.held);
        }) }
        ensures err { OnErr result (self.new ≡ self.old) }
    {
        let new = self.held_line()?;
        let start = self.line_start();
        self.past.undo_groups.reserve()?;
        let n = self.document.past_len();
        let place = self.cursor.place;
        let Some(place) = self.document.insert_before(start, new.as_str(), place)? else {
            self.tell(Message::TextFull);
            return Ok(());
        };
        self.past.edited(n, false);
        self.cursor.move_after_edit(place);
        self.reset_after_key();
        Ok(())
    }

    /// Puts the held text in, a whole line over the place's; if nothing is held or the text is full, sets a message instead.
    pub(crate) fn put(&mut self) -> Result<(), OutOfMemory>
        ensures ok { OnOk result (self.new ≡ record self.old {
          editor = after_put (D.data self.old.tables) (cleared self.old.editor);
        }) }
        ensures err { OnErr result (self.new ≡ self.old) }
    {
        if self.held.is_empty() {
            self.tell(Message::NothingToPut);
            return Ok(());
        }
        if self.puts_line() {
            return self.put_line();
        }
        let empty = String::new(*self.held.allocator());
        let held = mem::replace(&mut self.held, empty);
        let put = self.put_in(held.as_str(), false);
        self.held = held;
        put?;
        Ok(())
    }
}
