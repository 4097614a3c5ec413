//! A row of a grid, or a part of one, by reference, for the painter to compare.

ghost use Rattle.std.specs.Prelude.{◌≡◌, ℕ, ◌≤◌, ◌<◌, length, take, drop, true, false};
ghost use Rattle.bx_grid.specs.Columns.{are_equal};
ghost use Rattle.bx_grid.specs.Glyphs.{BeginAlike};
ghost use Rattle.bx_grid.specs.Codes.{codes_of};
ghost use Rattle.bx_grid.specs.Seen.{all_seen};

use crate::codes::{are_same, columns_in, is_same_code, offset_in};
use crate::column::Column;
use std::marker::Model;

/// Columns of one row of a grid, side by side.
#[derive(Drop)]
pub struct GridRowRef<'g> {
    /// The columns, from the left.
    columns: &'g [Column],
    /// The code of each column.
    codes: &'g [u64],
}

// Contracts see the content of the columns.
impl<'g> Model for GridRowRef<'g> {
    ghost use Rattle.std.specs.Prelude.{◌≡◌, List};
    ghost use Rattle.bx_grid.specs.Columns.{Col};
    ghost use Rattle.bx_grid.specs.Codes.{codes_of};
    ghost use Rattle.bx_grid.specs.Seen.{all_seen};

    ghost Value = { List Col };

    ghost view = { λ r. all_seen r.columns.now };

    ghost invariant = { λ r. r.codes.now ≡ codes_of (all_seen r.columns.now) };
}

impl<'g> GridRowRef<'g> {
    /// A row of columns and their codes.
    pub(crate) fn new(columns: &'g [Column], codes: &'g [u64]) -> GridRowRef<'g>
        requires { codes.now ≡ codes_of (all_seen columns.now) }
        ensures { result ≡ all_seen columns.now }
    {
        GridRowRef { columns, codes }
    }

    /// The row's columns, from the left.
    pub fn columns(&self) -> &'g [Column]
        ensures { all_seen result.now ≡ self.now }
    {
        self.columns
    }

    /// The row's first `count` columns, or all if it has fewer.
    pub fn front(&self, count: usize) -> GridRowRef<'g>
        ensures { result ≡ take count self.now }
    {
        let end = self.columns.len().min(count);
        GridRowRef::new(&self.columns[..end], &self.codes[..end])
    }

    /// The row's columns from the index `from`, counted from 0, on.
    pub fn rest(&self, from: usize) -> GridRowRef<'g>
        requires { from ≤ length self.now }
        ensures { result ≡ drop from self.now }
    {
        GridRowRef::new(&self.columns[from..], &self.codes[from..])
    }

    /// Whether codes alone prove that both rows have the same glyph at an index. True where both have the same column of a glyph
    /// that began before; false where the glyph has more than two columns or no code of its own.
    pub fn begins_alike(&self, other: &GridRowRef<'_>, index: usize) -> bool
        requires inside { index < length self.now }
        requires also { index < length other.now }
        ensures { result ≡ true → BeginAlike (drop index self.now) (drop index other.now) }
    {
        let codes = self.codes;
        let others = other.codes;
        let code = codes[index];
        if !is_same_code(code, others[index]) {
            return false;
        }
        if offset_in(code) > 0 {
            return true;
        }
        let count = columns_in(code);
        if count == 1 {
            return true;
        }
        let next = index + 1;
        if count != 2 || next >= codes.len() || next >= others.len() {
            return false;
        }
        is_same_code(codes[next], others[next])
    }

    /// Whether codes alone prove that the first columns differ.
    pub fn begins_otherwise(&self, other: &GridRowRef<'_>) -> bool
        ensures { result ≡ true → (n : ℕ) → 0 < n → are_equal (take n self.now) (take n other.now) ≡ false }
    {
        let codes = self.codes;
        let others = other.codes;
        match (codes, others) {
            ([code, ..], [other, ..]) => *code != *other,
            _ => false,
        }
    }

    /// Whether both rows look the same.
    pub fn is_same(&self, other: &GridRowRef<'_>) -> bool
        ensures { result ≡ are_equal self.now other.now }
    {
        are_same(self.columns, self.codes, other.columns, other.codes)
    }
}
