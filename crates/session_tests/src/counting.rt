//! Tables that count the questions asked.

use bx_ucd::{BidiData, Class, Form, Joining, Side, Tables, UcdError, sample_tables};
use std::alloc::Global;
use std::cell::Cell;

/// The small tables without mirrors and forms, with a count of the questions for a class.
#[derive(Drop)]
pub(crate) struct Counting {
    /// The tables that answer.
    tables: Tables,
    /// Number of questions since it was last read.
    asked: Cell<u32>,
}

impl Counting {
    /// The tables, with no question asked.
    pub(crate) fn new(alloc: Global) -> Result<Counting, UcdError> {
        Ok(Counting {
            tables: sample_tables(alloc)?,
            asked: Cell::new(0),
        })
    }

    /// Number of questions for a class since the last call.
    pub(crate) fn questions(&self) -> u32 {
        self.asked.replace(0)
    }
}

impl BidiData for Counting {
    ghost use Rattle.std.specs.Prelude.{None};

    ghost data = { λ s. record (⟦<Tables as BidiData>⟧.data s.tables) { mirror = λ _. None; form = λ _ _. None } };

    ghost no_mirror_is_control = { λ _ _. tt };

    ghost no_form_is_control = { λ _ _ _. tt };

    fn class(&self, c: char) -> Class {
        self.asked.set(self.asked.get().wrapping_add(1));
        self.tables.class(c)
    }

    fn bracket(&self, c: char) -> Option<(Side, char)> {
        self.tables.bracket(c)
    }

    fn mirror(&self, c: char) -> Option<char> {
        // No character is mirrored here.
        let _ = c;
        None
    }

    fn joining(&self, c: char) -> Joining {
        self.tables.joining(c)
    }

    fn form(&self, c: char, form: Form) -> Option<char> {
        // No letter has a form here.
        let _ = (c, form);
        None
    }
}
