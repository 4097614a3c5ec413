//! A row laid out, from which its picture and its slots are read.
ghost use Rattle.std.specs.Prelude.{◌≡◌, ◌≤◌, ◌<◌, All, length};
ghost use Rattle.bx_rows.specs.cells.UnitFacts.{StandsIn};
ghost use Rattle.bx_rows.specs.Lines.{ShowsFace, levels_of, units_at};
ghost use Rattle.bx_rows.specs.RowPicture.{columns_used};
ghost use Rattle.std.proofs.Props.{props};

use crate::cells::Unit;
use crate::lines::Lines;
use bx_ucd::BidiData;

/// A row laid out in a body that it borrows: its units, and the level of each by L1.
#[derive(Drop)]
pub struct RowLayout<'a, 't, D: BidiData> {
    /// The body with its row starts, levels and tables.
    pub lines: Lines<'a, 't, D>,
    /// The row's number in the body, from 0.
    pub number: usize,
    /// The row's units in text order.
    pub units: Vec<Unit>,
    /// The level of each of these units.
    pub levels: Vec<u8>,
    pub ghost within: { number < length lines.starts.now },
    pub ghost cut: { units.items ≡ units_at lines number },
    pub ghost leveled: { levels.items ≡ levels_of lines units.items },
    pub ghost stand: { All (StandsIn lines.body.now) units.items } by { Prim.hlevel props },
    pub ghost faces: { All (ShowsFace lines) units.items } by { Prim.hlevel props },
    pub ghost fits: { columns_used lines.w units.items ≤ lines.w },
    pub ghost counted: { length levels.items ≡ length units.items },
}
