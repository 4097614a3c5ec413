//! What a scene's looks find in a session, with or without a world.

use crate::answers::{add_flag, add_text};
use crate::scene::{Look, text_of};
use bx_session::{Prompt, SearchPurpose, SearchState, Session};
use bx_store::{MemoryStore, Store};
use bx_ucd::BidiData;
use player_lines::{add_bytes, add_number};
use std::alloc::{AllocError, Global};

/// A session that is looked at, its store, and the file that was opened.
#[derive(Drop)]
pub struct Seen<'a, D: BidiData + Drop> {
    pub alloc: Global,
    pub session: &'a Session<D>,
    pub store: &'a MemoryStore,
    pub file: &'a [u8],
}

/// The word for a search.
fn word_of_search(search_state: SearchState) -> &'static str {
    match search_state {
        SearchState::Off => "off",
        SearchState::Begun => "begun",
        SearchState::Typed => "typed",
        SearchState::WithBegun => "with-begun",
        SearchState::WithTyped => "with-typed",
        SearchState::Replacing => "replacing",
    }
}

/// The word for what a search is for.
fn word_of_aim(purpose: SearchPurpose) -> &'static str {
    match purpose {
        SearchPurpose::Find => "find",
        SearchPurpose::Replace => "replace",
    }
}

/// The word for a question.
fn word_of_question(prompt: Prompt) -> &'static str {
    match prompt {
        Prompt::Off => "off",
        Prompt::Line => "line",
        Prompt::Name => "name",
        Prompt::Code => "code",
        Prompt::File => "file",
        Prompt::Overwrite => "overwrite",
    }
}

/// Appends a mark's place; a hyphen for none.
fn add_mark(looks: &mut String, mark: Option<usize>) -> Result<(), AllocError> {
    match mark {
        Some(place) => add_number(looks, place),
        None => looks.push('-'),
    }
}

impl<D: BidiData + Drop> Seen<'_, D> {
    /// Appends what a look finds; nothing for a look at a world.
    pub fn add(&self, looks: &mut String, look: &Look<'_>) -> Result<(), AllocError> {
        let session = self.session;
        match look {
            Look::Place => add_number(looks, session.place()),
            Look::Mark => add_mark(looks, session.mark()),
            Look::Held => add_bytes(looks, session.held().as_bytes()),
            Look::Query => add_bytes(looks, session.query().as_bytes()),
            Look::SearchState => looks.push_str(word_of_search(session.search_state())),
            Look::SearchPurpose => looks.push_str(word_of_aim(session.purpose())),
            Look::Other => add_bytes(looks, session.replacement().as_bytes()),
            Look::Prompt => looks.push_str(word_of_question(session.prompt())),
            Look::Answer => add_bytes(looks, session.answer().as_bytes()),
            Look::Changed => add_flag(looks, session.changed()),
            Look::Ended => add_flag(looks, session.ended()),
            Look::Stored => add_text(looks, self.store.contents(), self.file),
            Look::StoredAs(name) => self.add_stored_as(looks, name),
            Look::Pending => add_bytes(looks, session.pending()),
            Look::Text => self.add_own_text(looks),
            Look::Told | Look::Line | Look::Shown | Look::Rows { .. } => Ok(()),
        }
    }

    /// Appends what the store has under a name; `none` where it has none.
    fn add_stored_as(&self, looks: &mut String, digits: &str) -> Result<(), AllocError> {
        let name = text_of(self.alloc, digits)?;
        match self.store.kept(Some(name.as_str())) {
            Some(text) => add_text(looks, text, self.file),
            None => looks.push_str("none"),
        }
    }

    /// Appends the text, from a copy in a separate store; `?` if that store runs out of memory.
    fn add_own_text(&self, looks: &mut String) -> Result<(), AllocError> {
        let mut store = MemoryStore::new(self.alloc, None);
        if self.session.copy_to(&mut store).is_err() {
            looks.push('?')?;
            return Ok(());
        }
        add_text(looks, store.contents(), self.file)
    }
}
