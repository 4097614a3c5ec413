//! What a session is told: presses, and the window's size.

ghost use Rattle.std.specs.Prelude.{◌≡◌, ◌&&◌, ◌||◌, Option, None, Some, true, false, is_ok, is_some, IfOk, IfSome, IsOk, OnErr, OnOk};
ghost use Rattle.bx_grid.specs.Picture.{is_size};
ghost use Rattle.bx_keys.specs.Decoder.{HasSides};
ghost use Rattle.bx_editor.specs.Keys as keys;
ghost use Rattle.bx_store.specs.declared.store.StoreFault.{StoreFault};
ghost use Rattle.bx_session.specs.Painting.{PressAppends, PressPaints, ToldPaints};
ghost use Rattle.bx_session.specs.Session.{StoreAfter, counted_key, is_painted_press, is_save_press, may_refuse_key, needs_painting, ready_to_store, scroll_behind, session_after_key, store_state, stores_by, text_to_save, unpainted_after_press, unpainted_after_told};
ghost use Rattle.bx_session.specs.Feeding.{Presses, ToldBy, is_applied, is_idle_press};

use crate::saving::save_pieces;
use crate::session::Session;
use crate::status::{Refused, Status};
use bx_common::is_side;
use bx_editor::{Editor, Scroll};
use bx_keys::Key;
use bx_store::{Store, StoreFault};
use bx_ucd::BidiData;

/// Whether the screen's content counts as unknown after a key: after Repaint, and after a size, since a resized terminal may show
/// anything.
fn asks_for_whole(key: Key) -> bool
    ensures { result ≡ keys.asks_for_whole key }
{
    matches!(key, Key::Repaint | Key::Size(_, _))
}

/// Whether each side is from 1 to 500.
fn is_size(height: u16, width: u16) -> bool
    ensures { result ≡ is_size height width }
{
    is_side(height) && is_side(width)
}

/// How a key, if one comes, moves the top.
fn scroll_behind<D: BidiData + Drop>(editor: &Editor<D>, key: Option<Key>) -> Scroll
    ensures { result ≡ scroll_behind editor.now.editor key }
{
    match key {
        Some(key) => editor.scroll_of(key),
        None => Scroll::Least,
    }
}

/// Whether a key may change the picture; without a key it stays.
fn needs_painting<D: BidiData + Drop>(editor: &Editor<D>, key: Option<Key>) -> bool
    ensures { result ≡ needs_painting editor.now.editor key }
{
    match key {
        Some(key) => !editor.needs_no_painting(key),
        None => false,
    }
}

impl<D: BidiData + Drop> Session<D> {
    /// The key of a press, as it counts: none after the session's end.
    pub(crate) fn counted(&self, key: Option<Key>) -> Option<Key>
        requires sides { IfSome key HasSides }
        ensures key { result ≡ counted_key self.now.session key }
        ensures sides { IfSome result HasSides }
    {
        if self.editor.ended() { None } else { key }
    }

    /// Applies a key, without painting. `fault` belongs to a key for which the text was stored: why that failed, or None.
    ///
    /// Errors: `Edit` if memory runs out, only for a key that edits, moves, copies, finds or ends a paste; nothing has changed. Never for a
    /// key that stores the text where no paste is under way.
    pub(crate) fn apply(&mut self, key: Key, fault: Option<StoreFault>) -> Result<(), Refused>
        requires sides { HasSides key }
        ensures after_key { OnOk result (self.new ≡ record self.old {
          session = session_after_key (D.data self.old.tables) fault self.old.session key;
        }) }
        ensures err { OnErr result (self.new ≡ self.old) }
        ensures edits { OnErr result (keys.may_refuse self.old.session.editor key ≡ true) }
        ensures stores { stores_by self.old.session.editor (Some key) ≡ true → self.old.session.editor.pasted ≡ None → IsOk result }
        ensures refused { OnErr result (result ≡ Err Refused.Edit) }
    {
        let Ok(()) = self.editor.apply(key, fault) else {
            return Err(Refused::Edit);
        };
        if asks_for_whole(key) || self.editor.ended() {
            self.is_known = false;
        }
        Ok(())
    }

    /// Ends a paste before a Save, which stores what it has brought too.
    ///
    /// Errors: `Edit` if memory runs out, only for a Save while a paste is under way; nothing has changed.
    fn get_ready_for(&mut self, key: Key) -> Result<(), Refused>
        ensures ok { OnOk result (self.new ≡ record self.old {
          session = record self.old.session { editor = ready_to_store (D.data self.old.tables) self.old.session.editor key };
        }) }
        ensures none { OnOk result (keys.is_save key ≡ true → self.new.session.editor.pasted ≡ None) }
        ensures err { OnErr result (self.new ≡ self.old) }
        ensures edits { OnErr result (keys.may_refuse self.old.session.editor key ≡ true) }
        ensures refused { OnErr result (result ≡ Err Refused.Edit) }
    {
        if matches!(key, Key::Save) {
            return self.end_paste();
        }
        Ok(())
    }

    /// Stores the text, if this key does that. Returns why that failed, if it did.
    fn store_for<S: Store>(&self, key: Key, store: &mut S) -> Option<StoreFault>
        ensures stored { StoreAfter (stores_by self.now.session.editor (Some key)) result self.now.session.editor.content.text
            (store_state S.contents S.faults store.old) (store_state S.contents S.faults store.new) }
        ensures none { stores_by self.now.session.editor (Some key) ≡ false → result ≡ None }
        ensures untouched { stores_by self.now.session.editor (Some key) ≡ false → store.new ≡ store.old }
    {
        match self.editor.saving_of(key) {
            Some(saving) => save_pieces(saving, self.editor.pieces(), store).err(),
            None => None,
        }
    }

    /// Applies a key, and before that stores the text, if the key does that; a Save first ends a paste. Paints nothing.
    ///
    /// Errors: `Edit` if memory runs out, only for a key that edits, moves, copies, finds or ends a paste; nothing has changed, and nothing
    /// is stored.
    fn store_and_apply<S: Store>(&mut self, key: Key, store: &mut S) -> Result<(), Refused>
        requires sides { HasSides key }
        ensures pressed { (fault : Option StoreFault)
            × StoreAfter (is_ok result && stores_by self.old.session.editor (Some key)) fault
            (text_to_save (D.data self.old.tables) self.old.session.editor)
            (store_state S.contents S.faults store.old) (store_state S.contents S.faults store.new)
            × OnOk result (self.new ≡ record self.old { session = session_after_key (D.data self.old.tables) fault self.old.session key }) }
        ensures err { OnErr result (self.new ≡ self.old) }
        ensures untouched { stores_by self.old.session.editor (Some key) ≡ false → store.new ≡ store.old }
        ensures edits { OnErr result (keys.may_refuse self.old.session.editor key ≡ true) }
        ensures refused { OnErr result (result ≡ Err Refused.Edit) }
    {
        self.get_ready_for(key)?;
        let fault = self.store_for(key, store);
        self.apply(key, fault)
    }

    /// Whether the picture is painted after this key, before the key is applied: it may change the picture, or a painting is owed.
    fn asks_for_painting(&self, key: Option<Key>) -> bool
        ensures { result ≡ self.now.session.painting_owed || needs_painting self.now.session.editor key }
    {
        self.painting_owed || needs_painting(&self.editor, key)
    }

    /// Applies the key of a press. Returns whether to paint, how the key moves the top, and the key as it counts.
    ///
    /// Errors: `Edit` if memory runs out, only for a key that edits, moves, copies, finds or ends a paste; nothing has changed.
    fn enter<S: Store>(
        &mut self,
        key: Option<Key>,
        store: &mut S,
    ) -> Result<(bool, Scroll, Option<Key>), Refused>
        requires sides { IfSome key HasSides }
        ensures after_press { (fault : Option StoreFault)
            × StoreAfter (is_applied result && is_save_press self.old.session key) fault
            (text_to_save (D.data self.old.tables) self.old.session.editor)
            (store_state S.contents S.faults store.old) (store_state S.contents S.faults store.new)
            × OnOk result (self.new ≡ record self.old { session = unpainted_after_press (D.data self.old.tables) fault self.old.session key }) }
        ensures prompts { IfOk result (λ entered. entered.0 ≡ is_painted_press self.old.session key) }
        ensures scroll { IfOk result (λ entered. entered.1 ≡ scroll_behind self.old.session.editor (counted_key self.old.session key)) }
        ensures key { IfOk result (λ entered. entered.2 ≡ counted_key self.old.session key) }
        ensures untouched { is_save_press self.old.session key ≡ false → store.new ≡ store.old }
        ensures err { OnErr result (self.new ≡ self.old) }
        ensures edits { OnErr result (may_refuse_key self.old.session.editor (counted_key self.old.session key) ≡ true) }
        ensures refused { OnErr result (result ≡ Err Refused.Edit) }
    {
        let counts = self.counted(key);
        let prompts = self.asks_for_painting(counts);
        let scroll = scroll_behind(&self.editor, counts);
        match counts {
            Some(pressed) => {
                self.store_and_apply(pressed, store)?;
                Ok((prompts, scroll, counts))
            }
            None => Ok((prompts, scroll, counts)),
        }
    }

    /// Takes what a step of the input completed: a key, which is applied, or none. A press of no key allocates nothing if no painting is
    /// owed, and a character of a paste nothing but the memory for it. After the session's end no key counts.
    ///
    /// Errors: `Edit` if memory runs out for the key: nothing has changed. `Paint` if it runs out while painting, or for the clip after
    /// that: the key is applied, the queue is unchanged, and the painting is owed.
    pub fn press<S: Store>(&mut self, key: Option<Key>, store: &mut S) -> Result<Status, Refused>
        requires sides { IfSome key HasSides }
        ensures after_press { Presses (D.data self.old.tables) self.old.session (store_state S.contents S.faults store.old) key result
            self.new.session (store_state S.contents S.faults store.new) }
        ensures tables { self.new.tables ≡ self.old.tables }
        ensures paints { is_painted_press self.old.session key ≡ true →
            OnOk result (PressPaints (D.data self.old.tables) self.old.session key self.new.session) }
        ensures appends { is_painted_press self.old.session key ≡ true →
            OnOk result (PressAppends (D.data self.old.tables) self.old.session key self.new.session) }
        ensures quiet { is_painted_press self.old.session key ≡ false → self.new.session.pending ≡ self.old.session.pending }
        ensures refused { OnErr result (self.new.session.pending ≡ self.old.session.pending) }
        ensures untouched { is_save_press self.old.session key ≡ false → store.new ≡ store.old }

        // A press of no key while no painting is owed.
        ensures idle { is_idle_press self.old.session key ≡ true → IsOk result }
        ensures unchanged { is_idle_press self.old.session key ≡ true → self.new.session ≡ self.old.session }
    {
        let (prompts, scroll, counts) = self.enter(key, store)?;
        if !prompts {
            return Ok(self.status());
        }
        self.paint_after(counts, scroll)?;
        Ok(self.status())
    }

    /// Sets the window's size, in rows and columns, and paints the screen whole.
    ///
    /// Errors: `Size` if a side is not from 1 to 500: nothing has changed. `Paint` if memory runs out: the size is set, the queue
    /// is unchanged, and the painting is owed.
    pub fn set_window_size(&mut self, height: u16, width: u16) -> Result<(), Refused>
        ensures resized { ToldBy (D.data self.old.tables) self.old.session height width result self.new.session }
        ensures tables { self.new.tables ≡ self.old.tables }
        ensures paints { OnOk result (ToldPaints (D.data self.old.tables) self.old.session self.new.session) }
        ensures refused { OnErr result (self.new.session.pending ≡ self.old.session.pending) }
    {
        if !is_size(height, width) {
            return Err(Refused::Size);
        }
        self.resize(height, width);
        self.paint()
    }

    /// Sets the window's size without painting.
    fn resize(&mut self, height: u16, width: u16)
        requires sized { is_size height width ≡ true }
        ensures { self.new ≡ record self.old { session = unpainted_after_told self.old.session height width } }
    {
        self.editor.resize(height, width);
        self.is_known = false;
    }
}
