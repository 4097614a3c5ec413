//! Options of printing, such as how placeholders are printed.
ghost use Rattle.std.specs.Prelude.{◌≡◌, true};
ghost use Rattle.bx_common.specs.Characters.{is_side};

use bx_common::Base;

/// How a placeholder is printed: the letter, in negative image on a screen, for a character with no visible form of its own.
#[derive(Clone, Copy)]
pub enum Placeholders {
    /// Omitted.
    LeftOut,
    /// As its letter in brackets.
    Bracketed,
}

/// Options of printing.
#[derive(Clone, Copy)]
pub struct Style {
    /// The base direction.
    pub base: Base,
    /// The columns of a row, from 1 to 500.
    pub columns: u16,
    /// How placeholders are printed.
    pub placeholders: Placeholders,
    ghost has_columns: { is_side columns ≡ true },
}
