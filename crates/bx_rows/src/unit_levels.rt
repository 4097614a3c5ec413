//! The levels of a row's units, by L1: the units are read one after another (`level_read.rt`).
ghost use Rattle.std.specs.Prelude.{◌≡◌, ◌<◌, All, IfOk, chars, length};
ghost use Rattle.bx_rows.specs.cells.UnitFacts.{StandsIn};
ghost use Rattle.bx_rows.specs.RowLevels.{chars_before, row_levels};

use crate::cells::Unit;
use crate::level_read::{read_unit, settle};
use bx_levels::Levels;
use bx_ucd::BidiData;
use std::alloc::{AllocError, Global};

/// The number of a text's characters, which are counted one by one.
pub fn char_count(text: &str) -> usize
    ensures { result ≡ length (chars text.now) }
{
    text.chars().count()
}

/// The levels of a row's units, by L1. `chars`: the number of the body's characters before them; `levels`: those of the body's
/// characters. Reads nothing before the row.
pub fn each_level<D: BidiData>(
    alloc: Global,
    body: &str,
    units: &[Unit],
    chars: usize,
    levels: &Levels,
    tables: &D,
) -> Result<Vec<u8>, AllocError>
    requires units { All (StandsIn body.now) units.now }
    requires chars { 0 < length units.now → chars ≡ chars_before body.now units.now }
    ensures { IfOk result (λ v. v.items ≡ row_levels (D.data tables.now) body.now levels.now.paragraph levels.now.each.items units.now) }
{
    let mut found = Vec::with_capacity(alloc, units.len())?;
    if units.is_empty() {
        return Ok(found);
    }
    let each = levels.each.as_slice();
    let mut left = &each[chars.min(each.len())..];
    let mut waiting = 0;
    for unit in units {
        let text = &body[unit.start..unit.stop];
        let (next, behind) = read_unit(&mut found, waiting, text, left, levels.paragraph, tables)?;
        waiting = next;
        left = behind;
    }
    settle(&mut found, waiting, levels.paragraph);
    Ok(found)
}
