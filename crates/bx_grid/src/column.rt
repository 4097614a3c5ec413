//! The content of one column of a grid, and its comparison.

ghost use Rattle.std.specs.Prelude.{◌≡◌, ◌↔◌, ◌∷◌, [], IsTrue, ◌≤◌, length, map, IfOk, true, false};
ghost use Rattle.bx_grid.specs.Columns as spec;
ghost use Rattle.bx_grid.specs.Columns.{are_equal, blank, col_eq, is_blank, turned};
ghost use Rattle.bx_grid.specs.Seen.{seen};

use crate::glyph_text::GlyphText;
use std::alloc::{AllocError, Global};

/// The content of one column of a grid.
#[derive(Drop)]
pub enum Column {
    /// What is shown here is not known; only the terminal's model has such columns.
    Unknown,
    /// One column of a glyph: the glyph's text, its number of columns, and the index of this one, from 0.
    Glyph {
        /// The text of the whole glyph.
        text: GlyphText,
        /// Number of columns of the whole glyph.
        columns: u16,
        /// The index of this column in the glyph, from 0.
        offset: u16,
        /// Whether the glyph is in negative image.
        negative: bool,
    },
}

impl Column {
    /// A character of one byte, in one column.
    pub(crate) fn of_byte(byte: u8, negative: bool) -> Column
        ensures { seen result ≡ spec.Glyph (byte ∷ []) 1 0 negative }
    {
        Column::Glyph {
            text: GlyphText::of_byte(byte),
            columns: 1,
            offset: 0,
            negative,
        }
    }

    /// A text of at most seven bytes, in one column.
    #[inline(always)]
    pub(crate) fn narrow(text: &str, negative: bool) -> Column
        requires { length text.now ≤ 7 }
        ensures { seen result ≡ spec.Glyph text.now 1 0 negative }
    {
        Column::Glyph {
            text: GlyphText::short(text),
            columns: 1,
            offset: 0,
            negative,
        }
    }

    /// A copy. A text of at most seven bytes needs no allocation.
    #[inline(always)]
    pub(crate) fn copy(&self, alloc: Global) -> Result<Column, AllocError>
        ensures { IfOk result (λ c. seen c ≡ seen self.now) }
    {
        match self {
            Column::Unknown => Ok(Column::Unknown),
            Column::Glyph {
                text,
                columns,
                offset,
                negative,
            } => Ok(Column::Glyph {
                text: text.copy(alloc)?,
                columns: *columns,
                offset: *offset,
                negative: *negative,
            }),
        }
    }

    /// Becomes a copy of another column if both have short texts, and returns whether it did.
    #[inline(always)]
    pub(crate) fn set_short(&mut self, other: &Column) -> bool
        ensures set { result ≡ true → seen self.new ≡ seen other.now }
        ensures same { result ≡ false → self.new ≡ self.old }
    {
        let Column::Glyph {
            text: other_text,
            columns: other_columns,
            offset: other_offset,
            negative: other_negative,
        } = other
        else {
            return false;
        };
        let Column::Glyph {
            text,
            columns,
            offset,
            negative,
        } = self
        else {
            return false;
        };
        let (count, place, is_negative) = (*other_columns, *other_offset, *other_negative);
        if !text.set_short(other_text) {
            return false;
        }
        *columns = count;
        *offset = place;
        *negative = is_negative;
        true
    }

    /// Turns the rendition of a glyph: negative if it was normal, normal if it was negative.
    pub(crate) fn turn(&mut self)
        ensures { seen self.new ≡ turned (seen self.old) }
    {
        if let Column::Glyph { negative, .. } = self {
            *negative = !*negative;
        }
    }

    /// Whether this is a space, one column wide, in normal rendition.
    pub fn is_blank(&self) -> bool
        ensures { result ≡ is_blank (seen self.now) }
    {
        match self {
            Column::Unknown => false,
            Column::Glyph {
                text,
                columns,
                offset,
                negative,
            } => text.is_byte(b' ') && *columns == 1 && *offset == 0 && !*negative,
        }
    }

    /// Whether both columns look the same.
    pub fn same(&self, other: &Column) -> bool
        ensures same { IsTrue result ↔ (seen self.now ≡ seen other.now) }
        ensures equal { result ≡ col_eq (seen self.now) (seen other.now) }
    {
        match (self, other) {
            (Column::Unknown, Column::Unknown) => true,
            (
                Column::Glyph {
                    text,
                    columns,
                    offset,
                    negative,
                },
                Column::Glyph {
                    text: other_text,
                    columns: other_columns,
                    offset: other_offset,
                    negative: other_negative,
                },
            ) => {
                text.is_same(other_text)
                    && *columns == *other_columns
                    && *offset == *other_offset
                    && *negative == *other_negative
            }
            _ => false,
        }
    }
}

/// Whether both lists look the same.
pub fn all_same(columns: &[Column], others: &[Column]) -> bool
    requires { length columns.now ≡ length others.now }
    ensures same { IsTrue result ↔ (map seen columns.now ≡ map seen others.now) }
    ensures equal { result ≡ are_equal (map seen columns.now) (map seen others.now) }
{
    for (i, column) in columns.iter().enumerate() {
        if !column.same(&others[i]) {
            return false;
        }
    }
    true
}
