//! A body's rows, read by their numbers: units, levels and pictures of a row are calls of `Lines`.
ghost use Rattle.std.specs.Prelude.{◌≡◌, ◌<◌, ⊤, IsUtf8, chars, length, slice_index_or};
ghost use Rattle.bx_levels.specs.resolve.Levels.{levels_under, paragraph_level_under};
ghost use Rattle.bx_rows.specs.declared.start_search.RowStart.{RowStart};
ghost use Rattle.bx_rows.specs.RowStarts.{row_starts};
ghost use Rattle.std.proofs.Props.{props};

use crate::joining::{LeveledBody, TextAt};
use crate::start_search::RowStart;
use bx_common::Base;
use bx_levels::Levels;
use bx_ucd::BidiData;
use std::alloc::AllocError;

/// A paragraph's body with its rows and levels, by reference, so that making one for a single row costs nothing.
pub struct Lines<'a, 't, D: BidiData> {
    pub body: &'a str,
    /// The start of each row in a window of `w` columns.
    pub starts: &'a [RowStart],
    /// The paragraph level and the levels of the characters, before L1.
    pub levels: &'a Levels,
    /// The tables that rows and levels are computed from.
    pub tables: &'t D,
    /// The base direction that the levels are resolved under.
    pub base: Base,
    /// The window's columns.
    pub w: u16,
    pub ghost utf8: { IsUtf8 body.now } by { Prim.hlevel props },
    pub ghost rows: { starts.now ≡ row_starts (D.data tables.now) w body.now },
    pub ghost level: { levels.now.paragraph ≡ paragraph_level_under (D.data tables.now) base (chars body.now) },
    pub ghost each: { levels.now.each.items ≡ levels_under (D.data tables.now) base (chars body.now) },
}

impl<'a, 't, D: BidiData> Copy for Lines<'a, 't, D> {}

impl<'a, 't, D: BidiData> Clone for Lines<'a, 't, D> {
    ghost is_clone = { λ s t. t ≡ s };

    ghost is_infallible = { λ _. ⊤ };

    fn clone(&self) -> Result<Lines<'a, 't, D>, AllocError> {
        Ok(*self)
    }
}

impl<'a, 't, D: BidiData> Lines<'a, 't, D> {
    /// The start of row `number`, from 0.
    pub(crate) fn start(&self, number: usize) -> RowStart
        requires { number < length self.now.starts.now }
        ensures { (d : RowStart) → result ≡ slice_index_or self.now.starts.now number d }
    {
        self.starts[number]
    }

    /// Where a row starts in the body, with the levels of the body's characters.
    pub(crate) fn place(&self, start: RowStart) -> TextAt<'a, 'a>
        ensures offset { result.offset ≡ start.offset }
        ensures number { result.number ≡ start.chars }
        ensures text { result.body.text.now ≡ self.now.body.now }
        ensures each { result.body.each.now ≡ self.now.levels.now.each.items }
    {
        TextAt {
            body: LeveledBody {
                text: self.body,
                each: self.levels.each.as_slice(),
            },
            offset: start.offset,
            number: start.chars,
        }
    }
}
