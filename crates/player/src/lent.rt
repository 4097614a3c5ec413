//! Tables that consecutive worlds share: a world owns its tables, so each gets these, borrowed.

use bx_ucd::{BidiData, Class, Form, Joining, Side};

/// Borrowed tables.
#[derive(Drop)]
pub struct Lent<'a, D: BidiData> {
    pub tables: &'a D,
}

impl<D: BidiData> BidiData for Lent<'_, D> {
    ghost data = { λ s. D.data s.tables.now };

    ghost no_mirror_is_control = { λ s c. D.no_mirror_is_control s.tables.now c };

    ghost no_form_is_control = { λ s c form. D.no_form_is_control s.tables.now c form };

    fn class(&self, c: char) -> Class {
        self.tables.class(c)
    }

    fn bracket(&self, c: char) -> Option<(Side, char)> {
        self.tables.bracket(c)
    }

    fn mirror(&self, c: char) -> Option<char> {
        self.tables.mirror(c)
    }

    fn joining(&self, c: char) -> Joining {
        self.tables.joining(c)
    }

    fn form(&self, c: char, form: Form) -> Option<char> {
        self.tables.form(c, form)
    }
}
