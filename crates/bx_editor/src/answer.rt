//! What keys mean where something is asked.
ghost use Rattle.std.specs.Prelude.{◌≡◌};
ghost use Rattle.bx_editor.specs.Answering.{answer_of, without_line};

use crate::input_line::Erasure;
use bx_keys::Key;
use bx_view::{Logical, Move, Vertical, Visual};

/// What a key means where something is asked, in an input line or without one.
#[derive(Clone, Copy)]
pub enum Answer {
    /// A character is typed.
    Letter(char),
    /// Something is erased in the input line.
    Erases(Erasure),
    /// The cursor moves in the input line.
    Moves(Move),
    /// The held text is put into the input line.
    PutsIn,
    /// Nothing is done in an input line.
    Passes,
    /// All is given up.
    GoesBack,
    /// The next match is sought.
    Next,
    /// The previous match is sought.
    Previous,
    /// Matches are replaced.
    Replaces,
    /// The view moves.
    Scrolls(Vertical),
    /// What is typed goes on.
    Stays,
    /// What is asked ends, and the key has its usual effect.
    Ends,
}

/// What each key means where an input line is shown. In a question `Next`, `Previous` and `Replaces` are as `Ends`.
pub fn answer_of(key: Key) -> Answer
    ensures { result ≡ answer_of key }
{
    match key {
        Key::Insert(c) => Answer::Letter(c),
        Key::NewLine => Answer::Letter('\n'),
        Key::Erase | Key::ErasePoint => Answer::Erases(Erasure::LastCharacter),
        Key::Delete => Answer::Erases(Erasure::Unit),
        Key::EraseWord => Answer::Erases(Erasure::WordBack),
        Key::DeleteWord => Answer::Erases(Erasure::WordOn),
        Key::Back => Answer::Moves(Move::Logical(Logical::Back)),
        Key::Forward => Answer::Moves(Move::Logical(Logical::Forward)),
        Key::Left => Answer::Moves(Move::Visual(Visual::Left)),
        Key::Right => Answer::Moves(Move::Visual(Visual::Right)),
        Key::WordLeft => Answer::Moves(Move::WordTowards(Visual::Left)),
        Key::WordRight => Answer::Moves(Move::WordTowards(Visual::Right)),
        Key::RowHome => Answer::Moves(Move::RowHome),
        Key::RowEnd => Answer::Moves(Move::RowEnd),
        Key::Put => Answer::PutsIn,
        Key::Up | Key::Down | Key::LineUp | Key::LineDown => Answer::Passes,
        Key::Select | Key::Mark | Key::Cut => Answer::Passes,
        Key::Quit | Key::Copy | Key::Cancel => Answer::GoesBack,
        Key::Find | Key::FindNext => Answer::Next,
        Key::FindBack | Key::FindPrevious => Answer::Previous,
        Key::Replace => Answer::Replaces,
        Key::ScrollBack => Answer::Scrolls(Vertical::Up),
        Key::ScrollOn => Answer::Scrolls(Vertical::Down),
        Key::Repaint => Answer::Stays,
        _ => Answer::Ends,
    }
}

impl Answer {
    /// What it means without an input line: what edits one has its usual effect there, but a character or a unit is not erased.
    pub fn without_line(self) -> Answer
        ensures { result ≡ without_line self }
    {
        match self {
            Answer::Erases(Erasure::WordBack | Erasure::WordOn) => Answer::Ends,
            Answer::Moves(_) | Answer::PutsIn | Answer::Passes => Answer::Ends,
            answer => answer,
        }
    }
}
