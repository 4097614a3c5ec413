//! The cursor's moves.

mod by_rows;
mod cursor;
mod placed;
mod pointing;
mod row_ends;
mod shown_place;
mod stretch;
mod text_order;
mod unit_kind;
mod visual;
mod word_moves;
mod words;

use bx_paragraph::Visual;
pub(crate) use by_rows::{rows_down, rows_up};
pub use cursor::moved;
pub(crate) use placed::reads_on;
pub use pointing::pointed_at;
pub use shown_place::{kept_goal, to_shown};
pub use stretch::{stretch_at, unit_at};

/// A direction in text order.
#[derive(Clone, Copy)]
pub enum Logical {
    Back,
    Forward,
}

/// A direction from row to row.
#[derive(Clone, Copy)]
pub enum Vertical {
    Up,
    Down,
}

/// Where moves from row to row enter a row.
#[derive(Clone, Copy)]
pub enum Goal {
    /// At the unit that covers this column, from 1, else at the row's reading end.
    Column(u16),
    /// At the row's first place.
    Start,
    /// At the row's end.
    End,
}

/// A move of the cursor. The cursor stays if there is no place to go to.
#[derive(Clone, Copy)]
pub enum Move {
    /// To the previous or the next place.
    Logical(Logical),
    /// To the next slot of the row on a side; past the last slot, into the next or the previous row.
    Visual(Visual),
    /// Up or down by a number of rows, at most to the first or the last row: to the start of the unit that covers the
    /// cursor's column, else to the row's reading end.
    Rows(Vertical, usize),
    /// Up or down as `Rows`, but the row is entered by the goal.
    RowsIn(Vertical, usize, Goal),
    /// To the row's first offset.
    RowHome,
    /// To the paragraph's end in its last row, else to the start of the row's last unit.
    RowEnd,
    /// Forward to the next start of a word or end of a body, back to the previous start of a word or a body. A word is a run
    /// of letters, digits, marks and joiners, with signs that stand between two letters or two digits.
    Word(Logical),
    /// By a word toward a side: forward if the paragraph is read toward it, else back.
    WordTowards(Visual),
    /// To the text's start.
    TextStart,
    /// To the text's end.
    TextEnd,
}
