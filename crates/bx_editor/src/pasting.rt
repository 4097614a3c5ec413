//! A paste: what stands between PasteStart and PasteEnd goes into the text at once.
ghost use Rattle.std.specs.Prelude.{◌≡◌, None, is_some, option_map, string_bytes, IsOk, OnErr, OnOk};
ghost use Rattle.bx_editor.specs.Putting.{after_paste_end, after_paste_start, after_pasted_letter, longer, paste_begun, paste_ended, pasted_with, pastes_crlf, refuses_paste, with_paste, with_pasted, without_paste};
ghost use Rattle.bx_editor.specs.Editor.{unpressed};
ghost use Rattle.bx_editor.specs.Functions.{as_before, has_changes, has_pasted};
ghost use Rattle.bx_editor.specs.Keys.{after_user, is_of_paste, needs_no_painting};

use crate::editor::Editor;
use crate::message::Message;
use crate::past::Past;
use crate::questions::Prompt;
use crate::search_state::SearchState;
use crate::selecting::aged;
use crate::undo_groups::Typing;
use bx_common::{LARGEST_TEXT, OutOfMemory};
use bx_keys::Key;
use bx_store::StoreFault;
use bx_ucd::BidiData;

/// Appends a character to what a paste has brought, or CR LF in its place. A list that is longer than any text stays as it is.
///
/// Errors: `OutOfMemory`, and nothing is appended.
fn lengthen(list: &mut String, c: char, is_crlf: bool) -> Result<(), OutOfMemory>
    ensures ok { OnOk result (string_bytes list.new ≡ longer is_crlf (string_bytes list.old) c) }
    ensures err { OnErr result (string_bytes list.new ≡ string_bytes list.old) }
{
    if list.len() > LARGEST_TEXT {
        return Ok(());
    }
    if is_crlf {
        list.push_str("\r\n")?;
        return Ok(());
    }
    list.push(c)?;
    Ok(())
}

/// Appends a character, or CR LF in its place, to what a paste has brought, if one is under way.
///
/// Errors: `OutOfMemory`, and nothing is appended.
fn lengthen_pasted(pasted: &mut Option<String>, c: char, is_crlf: bool) -> Result<(), OutOfMemory>
    ensures ok { OnOk result (option_map string_bytes pasted.new ≡ pasted_with is_crlf (option_map string_bytes pasted.old) c) }
    ensures err { OnErr result (option_map string_bytes pasted.new ≡ option_map string_bytes pasted.old) }
{
    match pasted {
        Some(list) => lengthen(list, c, is_crlf),
        None => Ok(()),
    }
}

/// Whether a key changes only what a paste has brought, or nothing.
fn is_of_paste(key: Key) -> bool
    ensures { result ≡ is_of_paste key }
{
    matches!(key, Key::Insert(_) | Key::PasteStart)
}

/// Whether something was pasted that is not in the text yet.
fn has_pasted(pasted: &Option<String>) -> bool
    ensures { result ≡ has_pasted (option_map string_bytes pasted.now) }
{
    match pasted {
        Some(list) => !list.is_empty(),
        None => false,
    }
}

impl<D: BidiData + Drop> Editor<D> {
    /// Whether a paste is under way that goes into the text. Allocates nothing.
    pub fn is_pasting(&self) -> bool
        ensures { result ≡ is_some self.now.editor.pasted }
    {
        self.pasted.is_some()
    }

    /// Whether this key leaves the picture as it is, so that it needs no painting unless one is owed. Allocates nothing.
    pub fn needs_no_painting(&self, key: Key) -> bool
        ensures { result ≡ needs_no_painting self.now.editor key }
    {
        self.pasted.is_some() && is_of_paste(key)
    }

    /// Whether there was an edit since the opening or the last save, or the text is not the stored one, or something was pasted that
    /// is not in the text yet. Allocates nothing.
    pub fn changed(&self) -> bool
        ensures { result ≡ has_changes self.now.editor }
    {
        self.past.changed || has_pasted(&self.pasted)
    }

    /// Begins a paste into the text. Allocates nothing.
    pub(crate) fn begin_paste(&mut self)
        ensures { self.new ≡ record self.old { editor = with_paste self.old.editor } }
    {
        self.pasted = Some(String::new(*self.held.allocator()));
        self.message = Some(Message::Pasting);
    }

    /// Begins a paste into the text, unless something is asked or sought, or one is under way. Allocates nothing.
    fn begin_if_free(&mut self)
        ensures { self.new ≡ record self.old { editor = paste_begun self.old.editor.prompt self.old.editor.search_state self.old.editor.pasted self.old.editor } }
    {
        match (self.prompt, self.cursor.search_state, &self.pasted) {
            (Prompt::Off, SearchState::Off, None) => self.begin_paste(),
            _ => {}
        }
    }

    /// Whether nothing can be pasted into the text, which is only looked at. Allocates nothing.
    fn refuses_paste(&self) -> bool
        ensures { result ≡ refuses_paste self.now.editor }
    {
        match (self.prompt, self.cursor.search_state, &self.pasted) {
            (Prompt::Off, SearchState::Off, None) => self.read_only,
            _ => false,
        }
    }

    /// Forgets presses. Allocates nothing.
    pub(crate) fn forget_presses(&mut self)
        ensures { self.new ≡ record self.old { editor = unpressed self.old.editor } }
    {
        self.cursor.clicks = None;
        self.cursor.pressed = None;
    }

    /// Applies PasteStart. Allocates nothing.
    pub(crate) fn start_paste(&mut self)
        ensures { self.new ≡ record self.old { editor = after_paste_start self.old.editor } }
    {
        if self.refuses_paste() {
            self.message = Some(Message::ViewOnly);
            self.forget_presses();
            return;
        }
        self.begin_if_free();
        self.typing = Typing::Paste;
        self.forget_presses();
    }

    /// Whether a character is pasted as CR LF. Allocates nothing.
    fn pastes_crlf(&self, c: char) -> bool
        ensures { result ≡ pastes_crlf (D.data self.now.tables) self.now.editor.content.text c }
    {
        c == '\n' && self.document.has_crlf_first()
    }

    /// Applies a character while a paste is under way. It takes no memory but the list's.
    pub(crate) fn paste_letter(&mut self, c: char) -> Result<(), OutOfMemory>
        ensures ok { OnOk result (self.new ≡ record self.old {
          editor = after_pasted_letter (D.data self.old.tables) self.old.editor c;
        }) }
        ensures err { OnErr result (self.new ≡ self.old) }
    {
        let is_crlf = self.pastes_crlf(c);
        lengthen_pasted(&mut self.pasted, c, is_crlf)?;
        self.quit_before = false;
        self.goal = None;
        self.cursor.soft = aged(self.cursor.soft);
        self.forget_presses();
        Ok(())
    }

    /// Ends a paste without its text, and takes the message away. Allocates nothing.
    fn leave_paste(&mut self)
        ensures { self.new ≡ record self.old { editor = without_paste self.old.editor } }
    {
        self.pasted = None;
        self.typing = Typing::Off;
        self.message = None;
    }

    /// Ends a paste, and puts what it has brought in as Put puts the held text in.
    fn put_pasted(&mut self, list: &str) -> Result<(), OutOfMemory>
        ensures ok { OnOk result (self.new ≡ record self.old {
          editor = with_pasted (D.data self.old.tables) self.old.editor list.now;
        }) }
        ensures err { OnErr result (self.new ≡ self.old) }
    {
        if list.is_empty() {
            self.leave_paste();
            return Ok(());
        }
        let again = self.quit_before;
        self.put_in(list, false)?;
        self.quit_before = again;
        self.pasted = None;
        Ok(())
    }

    /// Applies PasteEnd.
    pub(crate) fn finish_paste(&mut self) -> Result<(), OutOfMemory>
        ensures ok { OnOk result (self.new ≡ record self.old { editor = after_paste_end (D.data self.old.tables) self.old.editor }) }
        ensures err { OnErr result (self.new ≡ self.old) }
        ensures idle { self.old.editor.pasted ≡ None → IsOk result }
    {
        self.end_paste()?;
        self.typing = Typing::Off;
        self.forget_presses();
        Ok(())
    }

    /// Ends the paste, if one is under way: what it has brought goes into the text. A key that ends a paste does this first, before
    /// the session stores the text for a Save too.
    ///
    /// Errors: `OutOfMemory`, and nothing has changed. Never without a paste.
    pub fn end_paste(&mut self) -> Result<(), OutOfMemory>
        ensures ok { OnOk result (self.new ≡ record self.old { editor = paste_ended (D.data self.old.tables) self.old.editor }) }
        ensures none { OnOk result (self.new.editor.pasted ≡ None) }
        ensures err { OnErr result (self.new ≡ self.old) }
        ensures idle { self.old.editor.pasted ≡ None → IsOk result }
    {
        let Some(list) = self.pasted.take() else {
            return Ok(());
        };
        match self.put_pasted(list.as_str()) {
            Ok(()) => Ok(()),
            Err(refused) => {
                self.pasted = Some(list);
                Err(refused)
            }
        }
    }

    /// Puts in what a paste has brought, and applies a key with its usual effect.
    ///
    /// Errors: `OutOfMemory`. The key has changed nothing, but the text may have what was put in.
    fn put_and_press(
        &mut self,
        list: &str,
        key: Key,
        fault: Option<StoreFault>,
    ) -> Result<(), OutOfMemory>
        ensures ok { OnOk result (self.new.editor ≡ after_user (D.data self.old.tables) fault (with_pasted (D.data self.old.tables) self.old.editor list.now) key) }
        ensures tables { self.new.tables ≡ self.old.tables }
        ensures err { OnErr result (as_before self.old.editor self.new.editor ≡ self.old.editor) }
    {
        self.put_pasted(list)?;
        self.press_key(key, fault)
    }

    /// Ends the paste, and applies a key with its usual effect. A refused key leaves the paste as it was: for that the text is copied
    /// first, with its history. Only a paste whose end was lost is ended so.
    pub(crate) fn press_behind_paste(
        &mut self,
        key: Key,
        fault: Option<StoreFault>,
    ) -> Result<(), OutOfMemory>
        ensures ok { OnOk result (self.new.editor ≡ after_user (D.data self.old.tables) fault (paste_ended (D.data self.old.tables) self.old.editor) key) }
        ensures tables { self.new.tables ≡ self.old.tables }
        ensures err { OnErr result (self.new ≡ self.old) }
    {
        let document = self.document.backup()?;
        let runs = self.past.undo_groups.copy()?;
        let (stored, changed) = (self.past.stored, self.past.changed);
        let (cursor, typing, message) = (self.cursor, self.typing, self.message);
        let Some(list) = self.pasted.take() else {
            return self.press_key(key, fault);
        };
        match self.put_and_press(list.as_str(), key, fault) {
            Ok(()) => Ok(()),
            Err(refused) => {
                self.document.restore(document);
                self.past = Past {
                    undo_groups: runs,
                    stored,
                    changed,
                };
                self.cursor = cursor;
                self.typing = typing;
                self.message = message;
                self.pasted = Some(list);
                Err(refused)
            }
        }
    }
}
