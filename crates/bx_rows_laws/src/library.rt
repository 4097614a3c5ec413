//! Calls on units in hand, one step at a time: wrapping them into rows, and finding their levels. With these and `visual` the
//! rows serve as a library. The editor does not run them: it reads rows through `Lines`.
ghost use Rattle.std.specs.Prelude.{◌≡◌, ◌≤◌, ◌∷◌, [], All, IfOk, length, true};
ghost use Rattle.bx_ucd.specs.Data.{Data};
ghost use Rattle.bx_rows.specs.cells.Units.{units};
ghost use Rattle.bx_rows.specs.cells.UnitFacts.{HasFace, StandsIn};
ghost use Rattle.bx_rows_laws.specs.Laws.{CutUnits};
ghost use Rattle.bx_rows.specs.RowLevels.{chars_before, row_levels};
ghost use Rattle.bx_rows.specs.Shown.{IsRowOf};
ghost use Rattle.bx_rows.specs.Wrapping.{fit_count, is_break, row_len, up_to_last, wrap};

use bx_common::OutOfMemory;
use bx_levels::Levels;
use bx_rows::{
    Row, Unit, char_count, columns_at, each_level, is_break, is_printable, is_simple_within,
};
use bx_ucd::BidiData;
use std::alloc::{AllocError, Global};

/// The number of units that fit in one row.
#[tactic(auto, using(crate::proofs::Wraps::fits_more, bx_rows::proofs::Wraps::fits_no_more, bx_rows::proofs::Wraps::fits_full, crate::proofs::Wraps::fits_all))]
fn fit_count(units: &[Unit], w: u16) -> usize
    ensures fit_count { result ≡ fit_count w units.now }
    ensures within { result ≤ length units.now }
{
    let mut c: u16 = 0;
    let mut n = 0;
    for unit in units {
        if c >= w {
            return n;
        }
        let columns = columns_at(w, c, unit.face);
        if columns > w - c {
            return n;
        }
        c += columns;
        n += 1;
    }
    n
}

/// The number of units up to the last break, or 0 if there is none.
#[tactic(auto, using(crate::proofs::Breaks::last_here, crate::proofs::Breaks::last_before))]
fn up_to_last_break<D: BidiData>(body: &str, units: &[Unit], tables: &D) -> usize
    requires { All (StandsIn body.now) units.now }
    ensures last { result ≡ up_to_last (is_break (D.data tables.now) body.now) units.now }
    ensures within { result ≤ length units.now }
{
    let mut n = units.len();
    while n > 0 {
        if is_break(body, units[n - 1], tables) {
            return n;
        }
        n -= 1;
    }
    0
}

/// The number of remaining units that the next row takes.
fn row_len<D: BidiData>(body: &str, units: &[Unit], tables: &D, w: u16) -> usize
    requires { All (StandsIn body.now) units.now }
    ensures row { result ≡ row_len (is_break (D.data tables.now) body.now) w units.now }
    ensures within { result ≤ length units.now }
{
    let n = fit_count(units, w);
    if n == units.len() {
        return n;
    }
    match up_to_last_break(body, &units[..n], tables) {
        0 => n,
        len => len,
    }
}

/// The rows of a body's units in order.
fn all_rows<D: BidiData>(
    alloc: Global,
    body: &str,
    units: &[Unit],
    tables: &D,
    w: u16,
) -> Result<Vec<Row>, AllocError>
    requires { All (StandsIn body.now) units.now }
    ensures { IfOk result (λ v. v.items ≡ wrap (D.data tables.now) w body.now units.now) }
{
    let mut rows = Vec::new(alloc);
    if units.is_empty() {
        rows.push(Row { start: 0, stop: 0 })?;
        return Ok(rows);
    }
    let mut start = 0;
    while start < units.len() {
        let len = row_len(body, &units[start..], tables, w);
        let stop = start + len;
        rows.push(Row { start, stop })?;
        start += len.max(1);
    }
    Ok(rows)
}

/// The rows of a body's units in a window of `w` columns. If not all remaining units fit, the row ends after the last
/// blank or tab among those that do, else after the last one that does. A body without units has one empty row.
pub fn wrap<D: BidiData>(
    alloc: Global,
    body: &str,
    units: &[Unit],
    tables: &D,
    w: u16,
) -> Result<Vec<Row>, OutOfMemory>
    requires stand { All (StandsIn body.now) units.now }
    requires faces { All (HasFace (D.data tables.now) w body.now) units.now }
    ensures rows { IfOk result (λ v. v.items ≡ wrap (D.data tables.now) w body.now units.now) }
    ensures fit { IfOk result (λ v. All (IsRowOf w units.now) v.items) }
    ensures cut { 1 ≤ w → IfOk result (λ v. CutUnits w units.now v.items) }
{
    Ok(all_rows(alloc, body, units, tables, w)?)
}

/// The number of a body's characters before a row's units.
#[tactic(auto, using(crate::proofs::Resets::before_none, crate::proofs::Resets::before_first))]
fn chars_before(body: &str, units: &[Unit]) -> usize
    requires { All (StandsIn body.now) units.now }
    ensures { result ≡ chars_before body.now units.now }
{
    if units.is_empty() {
        return 0;
    }
    char_count(&body[..units[0].start])
}

/// The levels of a row's units. L1 applies at the row's end, not the paragraph's. A unit takes the level of its first character
/// that X9 keeps. If X9 removes them all, it takes the previous unit's level, and the first unit the paragraph level. The call
/// counts the characters before the row.
#[tactic(auto, using(bx_rows::proofs::Resets::one_each))]
pub fn row_levels<D: BidiData>(
    alloc: Global,
    body: &str,
    units: &[Unit],
    levels: &Levels,
    tables: &D,
) -> Result<Vec<u8>, OutOfMemory>
    requires { All (StandsIn body.now) units.now }
    ensures levels { IfOk result (λ v. v.items ≡ row_levels (D.data tables.now) body.now levels.now.paragraph levels.now.each.items units.now) }
    ensures one_each { IfOk result (λ v. length v.items ≡ length units.now) }
{
    let chars = chars_before(body, units);
    Ok(each_level(alloc, body, units, chars, levels, tables)?)
}

/// Whether a body is known to have a single row in a window of `w` columns, from its characters alone: true is sure, false
/// leaves it open. Makes no units.
pub fn has_one_row(body: &str, w: u16) -> bool
    ensures { result ≡ true → (ucd : Data) → wrap ucd w body.now (units ucd w body.now)
        ≡ record { start = 0; stop = length (units ucd w body.now) } ∷ [] }
{
    if is_printable(body) {
        return body.len() <= w as usize;
    }
    is_simple_within(body, w)
}
