//! The session's state, and what can be read of it.

ghost use Rattle.std.specs.Prelude.{◌≡◌, ◌≤◌, MatchOption, None, Some, length};
ghost use Rattle.bx_editor.specs.Functions.{has_changes};
ghost use Rattle.bx_session.specs.Session.{after_sending, is_save_press};
ghost use Rattle.bx_session.specs.Feeding.{status_of};

use crate::status::Status;
use bx_editor::{Editor, Prompt, SearchPurpose, SearchState};
use bx_grid::{Grid, Picture};
use bx_keys::Key;
use bx_ucd::BidiData;
use std::marker::Model;

/// An editor, its pictures, and the bytes queued for the terminal. What reads the input stands beside it.
#[derive(Drop)]
pub struct Session<D: BidiData + Drop> {
    pub(crate) editor: Editor<D>,
    // the picture last painted; None before the first
    pub(crate) painted: Option<Picture>,
    // the page of the picture before `painted`, on which the next one is made; None if there is none yet
    pub(crate) spare: Option<Grid>,
    // whether the terminal, once it has read all bytes, is taken to show `painted`; if not, the next painting is of the whole
    // screen
    pub(crate) is_known: bool,
    // whether a painting is needed that is not in the queue yet
    pub(crate) painting_owed: bool,
    // the bytes for the terminal, sent ones first
    pub(crate) queue: Vec<u8>,
    // the number of the queue's bytes that are sent already
    pub(crate) taken: usize,
}

impl<D: BidiData + Drop> Model for Session<D> {
    ghost use Rattle.std.specs.Prelude.{◌≤◌, drop, length};
    ghost use Rattle.bx_session.specs.Painting.{FitsEditor};
    ghost use Rattle.bx_session.specs.Feeding.{SessionState, known_if};

    ghost Value = { SessionState D };

    ghost view = { λ s. record {
      tables = s.editor.tables;
      session = record {
        editor = s.editor.editor;
        painted = s.painted;
        known = known_if s.is_known s.painted;
        painting_owed = s.painting_owed;
        pending = drop s.taken s.queue.items;
      };
    } };

    ghost invariant = { λ s. (s.taken ≤ length s.queue.items) × FitsEditor (known_if s.is_known s.painted) s.editor.editor };
}

impl<D: BidiData + Drop> Session<D> {
    /// Whether the session is running or Quit has ended it.
    pub(crate) fn status(&self) -> Status
        ensures { result ≡ status_of self.now.session }
    {
        if self.editor.ended() {
            Status::Ended
        } else {
            Status::Running
        }
    }

    /// The bytes queued for the terminal. Allocates nothing.
    pub fn pending(&self) -> &[u8]
        ensures { result.now ≡ self.now.session.pending }
    {
        &self.queue[self.taken..]
    }

    /// Removes the first `count` pending bytes, which were sent. Allocates nothing.
    pub fn taken(&mut self, count: usize)
        requires { count ≤ length self.old.session.pending }
        ensures { self.new ≡ record self.old { session = after_sending self.old.session count } }
    {
        self.taken += count;
        if self.taken == self.queue.len() {
            self.queue.clear();
            self.taken = 0;
        }
    }

    /// Whether Quit has ended the session. Allocates nothing.
    pub fn ended(&self) -> bool
        ensures { result ≡ self.now.session.editor.ended }
    {
        self.editor.ended()
    }

    /// Whether there are unsaved changes, in the text or in a paste under way. Allocates nothing.
    pub fn changed(&self) -> bool
        ensures { result ≡ has_changes self.now.session.editor }
    {
        self.editor.changed()
    }

    /// The cursor's place, in bytes from 0. Allocates nothing.
    pub fn place(&self) -> usize
        ensures { result ≡ self.now.session.editor.place }
    {
        self.editor.place()
    }

    /// The mark's place, in bytes from 0; None if there is no mark. Allocates nothing.
    pub fn mark(&self) -> Option<usize>
        ensures { result ≡ self.now.session.editor.mark }
    {
        self.editor.mark()
    }

    /// The text that was copied or cut last. Allocates nothing.
    pub fn held(&self) -> &str
        ensures { result.now ≡ self.now.session.editor.held }
    {
        self.editor.held()
    }

    /// The query of the search, or of the latest one. Allocates nothing.
    pub fn query(&self) -> &str
        ensures { result.now ≡ self.now.session.editor.query }
    {
        self.editor.query()
    }

    /// The text that replaces matches. Allocates nothing.
    pub fn replacement(&self) -> &str
        ensures { result.now ≡ self.now.session.editor.replacement }
    {
        self.editor.replacement()
    }

    /// How far the search is, or that none is on. Allocates nothing.
    pub fn search_state(&self) -> SearchState
        ensures { result ≡ self.now.session.editor.search_state }
    {
        self.editor.search_state()
    }

    /// What the search, or the latest one, is for. Allocates nothing.
    pub fn purpose(&self) -> SearchPurpose
        ensures { result ≡ self.now.session.editor.purpose }
    {
        self.editor.purpose()
    }

    /// What the user is asked, or that there is no question. Allocates nothing.
    pub fn prompt(&self) -> Prompt
        ensures { result ≡ self.now.session.editor.prompt }
    {
        self.editor.prompt()
    }

    /// The answer to the question, or to the latest one. Allocates nothing.
    pub fn answer(&self) -> &str
        ensures { result.now ≡ self.now.session.editor.answer }
    {
        self.editor.typed_answer()
    }

    /// Whether a press would store the text now: its key is a Save, or an answer. Allocates nothing.
    pub fn stores(&self, key: Option<Key>) -> bool
        ensures { result ≡ is_save_press self.now.session key }
    {
        match key {
            Some(key) if !self.editor.ended() => self.editor.saving_of(key).is_some(),
            _ => false,
        }
    }

    /// The picture last painted; None before the first. Allocates nothing.
    pub fn painted(&self) -> Option<&Picture>
        ensures { MatchOption result (self.now.session.painted ≡ None) (λ p. self.now.session.painted ≡ Some p.now) }
    {
        match &self.painted {
            Some(picture) => Some(picture),
            None => None,
        }
    }
}
