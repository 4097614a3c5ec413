//! Replay of a journal's presses in a session that opened the same text: keys are applied again, and nothing is stored.

ghost use Rattle.std.specs.Prelude.{◌≡◌, ◌↔◌, ◌⊎◌, IsErrOf, IsOk, IsTrue, true, None, Some, is_some, IfErr, IfSome, OnErr, OnOk};
ghost use Rattle.bx_session.specs.Session.{counted_key, store_state, with_text};
ghost use Rattle.bx_keys.specs.Decoder.{HasSides};
ghost use Rattle.bx_editor.specs.Keys.{may_refuse};
ghost use Rattle.bx_editor.specs.Putting.{paste_ended};
ghost use Rattle.bx_session.specs.Replaying.{after_passed, after_replayed_key, after_replayed_press, at_replay_end, at_unscrolled_end, session_after_replayed, session_moved_by, session_replayed_on, session_scrolled, unmoved_after_key, unmoved_after_press};
ghost use Rattle.bx_store.specs.Faults.{with_fault};

use crate::saving::{is_text, save_pieces};
use crate::session::Session;
use crate::status::Refused;
use bx_editor::{Prompt, Saving, Scroll, SearchState};
use bx_keys::Key;
use bx_store::{Store, StoreFault};
use bx_ucd::BidiData;

impl<D: BidiData + Drop> Session<D> {
    /// Passes over a key of a journal that stored the text: a Save, or an answer.
    ///
    /// Errors: `Edit` if memory runs out for the end of a paste; nothing has changed.
    fn pass_stored(&mut self, key: Key) -> Result<(), Refused>
        ensures after_key { OnOk result (self.new ≡ record self.old {
          session = record self.old.session {
            editor = after_passed (paste_ended (D.data self.old.tables) self.old.session.editor).prompt key
                (paste_ended (D.data self.old.tables) self.old.session.editor);
          };
        }) }
        ensures err { OnErr result (self.new ≡ self.old) }
        ensures pasting { OnErr result (is_some self.old.session.editor.pasted ≡ true) }
        ensures refused { OnErr result (result ≡ Err Refused.Edit) }
    {
        self.end_paste()?;
        match (self.editor.prompt(), key) {
            (Prompt::File, Key::Save) => self.editor.pass_save(),
            (Prompt::File, _) => self.editor.pass_answer(),
            _ => self.editor.pass_save(),
        }
        Ok(())
    }

    /// Applies a key of a journal. A key that stored the text and a Quit end what any key ends, first a paste, and the former a search
    /// and a question too; a Quit gives up a search or a question. Neither stores a text, nor ends the session.
    ///
    /// Errors: `Edit` if memory runs out, only for a key that edits, moves, copies, finds or ends a paste; nothing has changed.
    fn apply_again(&mut self, key: Key) -> Result<(), Refused>
        requires sides { HasSides key }
        ensures after_key { OnOk result (self.new ≡ record self.old {
          session = session_replayed_on (D.data self.old.tables) self.old.session key;
        }) }
        ensures err { OnErr result (self.new ≡ self.old) }
        ensures edits { OnErr result (may_refuse self.old.session.editor key ≡ true) }
        ensures refused { OnErr result (result ≡ Err Refused.Edit) }
    {
        if matches!(key, Key::Quit) {
            self.end_paste()?;
            return self.pass_quit();
        }
        if self.editor.saving_of(key).is_some() {
            return self.pass_stored(key);
        }
        self.apply(key, None)
    }

    /// Passes over a Quit of a journal, or gives up a search or a question with it, where no paste is under way.
    ///
    /// Errors: never, since no memory is needed.
    fn pass_quit(&mut self) -> Result<(), Refused>
        requires no_paste { self.old.session.editor.pasted ≡ None }
        ensures after_key { self.new ≡ record self.old {
          session = session_after_replayed (D.data self.old.tables) self.old.session.editor.prompt self.old.session.editor.search_state
              self.old.session Key.Quit;
        } }
        ensures ok { IsOk result }
    {
        match (self.editor.prompt(), self.editor.search_state()) {
            (Prompt::Off, SearchState::Off) => {
                self.editor.pass_quit();
                Ok(())
            }
            _ => self.apply(Key::Quit, None),
        }
    }

    /// Ends a paste, if one is under way: what it has brought goes into the text.
    ///
    /// Errors: `Edit` if memory runs out; nothing has changed. Never without a paste.
    pub(crate) fn end_paste(&mut self) -> Result<(), Refused>
        ensures ok { OnOk result (self.new ≡ record self.old {
          session = record self.old.session { editor = paste_ended (D.data self.old.tables) self.old.session.editor };
        }) }
        ensures none { OnOk result (self.new.session.editor.pasted ≡ None) }
        ensures err { OnErr result (self.new ≡ self.old) }
        ensures pasting { OnErr result (is_some self.old.session.editor.pasted ≡ true) }
        ensures refused { OnErr result (result ≡ Err Refused.Edit) }
    {
        match self.editor.end_paste() {
            Ok(()) => Ok(()),
            Err(_) => Err(Refused::Edit),
        }
    }

    /// Scrolls to the cursor, as a painting does, without painting.
    ///
    /// Errors: `Paint` if memory runs out; nothing has changed.
    fn scroll(&mut self) -> Result<(), Refused>
        ensures ok { OnOk result (self.new ≡ record self.old { session = session_scrolled (D.data self.old.tables) self.old.session }) }
        ensures err { OnErr result (self.new ≡ self.old) }
        ensures refused { OnErr result (result ≡ Err Refused.Paint) }
    {
        match self.editor.scroll(Scroll::Least) {
            Ok(()) => Ok(()),
            Err(_) => Err(Refused::Paint),
        }
    }

    /// Moves the top as a key asked for it.
    ///
    /// Errors: `Paint` if memory runs out; nothing has changed.
    fn move_top(&mut self, scroll: Scroll) -> Result<(), Refused>
        ensures ok { OnOk result (self.new ≡ record self.old { session = session_moved_by (D.data self.old.tables) scroll self.old.session }) }
        ensures err { OnErr result (self.new ≡ self.old) }
        ensures refused { OnErr result (result ≡ Err Refused.Paint) }
    {
        match self.editor.move_top(scroll) {
            Ok(()) => Ok(()),
            Err(_) => Err(Refused::Paint),
        }
    }

    /// Scrolls to the cursor, as the painting before this key did in the session, applies the key of a journal, and moves the top as the
    /// key asks for.
    ///
    /// Errors: `Edit` if memory runs out for the key or for scrolling before it; nothing has changed. `Paint` if it runs out for moving
    /// the top: the key is applied, and the top stays.
    fn scroll_and_apply(&mut self, key: Key) -> Result<(), Refused>
        requires sides { HasSides key }
        ensures after_key { OnOk result (self.new ≡ record self.old {
          session = after_replayed_key (D.data self.old.tables) self.old.session (Some key);
        }) }
        ensures unmoved { IsErrOf result Refused.Paint → self.new ≡ record self.old {
          session = unmoved_after_key (D.data self.old.tables) self.old.session (Some key);
        } }
        ensures err { IsErrOf result Refused.Edit → self.new ≡ self.old }
        ensures refused { OnErr result ((result ≡ Err Refused.Edit) ⊎ (result ≡ Err Refused.Paint)) }
    {
        let top = self.editor.top();
        let scroll = self.editor.scroll_of(key);
        if self.scroll().is_err() {
            return Err(Refused::Edit);
        }
        match self.apply_again(key) {
            Ok(()) => self.move_top(scroll),
            Err(refused) => {
                self.editor.set_top(top);
                Err(refused)
            }
        }
    }

    /// Applies the key of a press of a journal, if it has one.
    ///
    /// Errors: `Edit` if memory runs out for the key or for scrolling before it; nothing has changed. `Paint` if it runs out for moving
    /// the top: the key is applied, and the top stays.
    fn apply_counted(&mut self, key: Option<Key>) -> Result<(), Refused>
        requires sides { IfSome key HasSides }
        ensures after_key { OnOk result (self.new ≡ record self.old {
          session = after_replayed_key (D.data self.old.tables) self.old.session key;
        }) }
        ensures unmoved { IsErrOf result Refused.Paint → self.new ≡ record self.old {
          session = unmoved_after_key (D.data self.old.tables) self.old.session key;
        } }
        ensures err { IsErrOf result Refused.Edit → self.new ≡ self.old }
        ensures keys { OnErr result (is_some key ≡ true) }
        ensures refused { OnErr result ((result ≡ Err Refused.Edit) ⊎ (result ≡ Err Refused.Paint)) }
    {
        match key {
            Some(key) => self.scroll_and_apply(key),
            None => Ok(()),
        }
    }

    /// Takes a press of a journal: applies its key, if it has one, without painting. A Save stores nothing, and a Quit does not end the
    /// session. Call [`Session::end_replay`] after the last press.
    ///
    /// Errors: `Edit` if memory runs out for the key or for scrolling before it: nothing has changed. `Paint` if it runs out for moving the
    /// top behind the key: the key is applied, and the top stays. Never without a key.
    pub fn press_again(&mut self, key: Option<Key>) -> Result<(), Refused>
        requires sides { IfSome key HasSides }
        ensures after_press { OnOk result (self.new ≡ record self.old {
          session = after_replayed_press (D.data self.old.tables) self.old.session key;
        }) }
        ensures unmoved { IsErrOf result Refused.Paint → self.new ≡ record self.old {
          session = unmoved_after_press (D.data self.old.tables) self.old.session key;
        } }
        ensures err { IsErrOf result Refused.Edit → self.new ≡ self.old }
        ensures keys { OnErr result (is_some (counted_key self.old.session key) ≡ true) }
        ensures refused { OnErr result ((result ≡ Err Refused.Edit) ⊎ (result ≡ Err Refused.Paint)) }
    {
        let counts = self.counted(key);
        match self.apply_counted(counts) {
            Ok(()) => {
                self.painting_owed = true;
                Ok(())
            }
            Err(Refused::Paint) => {
                self.painting_owed = true;
                Err(Refused::Paint)
            }
            Err(Refused::Edit) => Err(Refused::Edit),
            // never comes
            Err(Refused::Size) => Err(Refused::Size),
        }
    }

    /// Ends a replay: a paste ends, no search is on, nothing is asked, and the next edit begins a run. The text is the stored one unless
    /// it counts as changed. Scrolls to the cursor, and paints nothing; call [`Session::paint`] afterwards.
    ///
    /// Errors: `Edit` if memory runs out for the end of a paste: nothing has changed. `Paint` if it runs out for scrolling: the replay
    /// has ended, and the next painting scrolls.
    pub fn end_replay(&mut self) -> Result<(), Refused>
        ensures tables { self.new.tables ≡ self.old.tables }
        ensures ok { OnOk result (self.new ≡ record self.old { session = at_replay_end (D.data self.old.tables) self.old.session }) }
        ensures err { IsErrOf result Refused.Edit → self.new ≡ self.old }
        ensures pasting { IsErrOf result Refused.Edit → is_some self.old.session.editor.pasted ≡ true }
        ensures unscrolled { IsErrOf result Refused.Paint
            → self.new ≡ record self.old { session = at_unscrolled_end (D.data self.old.tables) self.old.session } }
        ensures refused { OnErr result ((result ≡ Err Refused.Edit) ⊎ (result ≡ Err Refused.Paint)) }
    {
        self.end_paste()?;
        self.editor.end_replay();
        self.painting_owed = true;
        self.scroll()
    }

    /// Whether the text is just these bytes. Allocates nothing.
    pub fn has_text(&self, bytes: &[u8]) -> bool
        ensures { IsTrue result ↔ (self.now.session.editor.content.text ≡ bytes.now) }
    {
        is_text(self.editor.pieces(), bytes)
    }

    /// Stores the text without counting it as saved: unsaved changes stay unsaved.
    ///
    /// Errors: `StoreFault` if a call of the store fails; its content is unchanged.
    pub fn copy_to<S: Store>(&self, store: &mut S) -> Result<(), StoreFault>
        ensures ok { OnOk result (store_state S.contents S.faults store.new
            ≡ with_text self.now.session.editor.content.text (store_state S.contents S.faults store.old)) }
        ensures stored { OnErr result (S.contents store.new ≡ S.contents store.old) }
        ensures failure { IfErr result (λ fault. S.faults store.new ≡ with_fault fault (S.faults store.old)) }
    {
        save_pieces(Saving::Own, self.editor.pieces(), store)
    }
}
