//! The columns of a face in its row, and where a row may end: the two questions of wrapping. A row as wrapping defines it, by the
//! numbers of its units in the body; the editor keeps its `RowStart` instead.
ghost use Rattle.std.specs.Prelude.{◌≡◌, ◌≤◌};
ghost use Rattle.bx_rows.specs.cells.UnitFacts.{StandsIn};
ghost use Rattle.bx_rows.specs.Wrapping.{columns_at, is_blank, is_break};

use crate::cells::{Face, Unit, only_char};
use bx_ucd::{BidiData, Class};

/// A row: the units of a body from number `start`, counted from 0, to before number `stop`.
#[derive(Clone, Copy)]
pub struct Row {
    pub start: usize,
    pub stop: usize,
}

/// The columns of a face that begins at column `c`, counted from 0, in a window of `w` columns. A tab goes on to the next
/// multiple of 8, the usual tab stops of terminals, or to the edge.
#[inline]
pub fn columns_at(w: u16, c: u16, face: Face) -> u16
    requires { c ≤ w }
    ensures { result ≡ columns_at w c face }
{
    match face {
        Face::Tab => (8 - c % 8).min(w - c),
        Face::Placeholder(_) => 1,
        Face::Own(n) => n,
    }
}

/// Whether a row may end after a character of a class.
#[inline]
pub(crate) fn is_blank(class: Class) -> bool
    ensures { result ≡ is_blank class }
{
    matches!(class, Class::WS | Class::S)
}

/// Whether a row may end after a unit.
pub fn is_break<D: BidiData>(body: &str, unit: Unit, tables: &D) -> bool
    requires { StandsIn body.now unit }
    ensures { result ≡ is_break (D.data tables.now) body.now unit }
{
    match only_char(&body[unit.start..unit.stop]) {
        Some(c) => is_blank(tables.class(c)),
        None => false,
    }
}
