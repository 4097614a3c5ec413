//! All units of a body at once. The editor does not run this, it reads the few units that it needs by `units_from`. With it
//! the crate serves by itself as a library.
ghost use Rattle.std.specs.Prelude.{◌≡◌, IfOk, All};
ghost use Rattle.bx_rows.specs.cells.Units.{units};
ghost use Rattle.bx_rows.specs.cells.UnitFacts.{HasFace, StandsIn};

use crate::cells::first_units::units_from;
use crate::cells::unit::{Unit, UnitRange};
use bx_common::OutOfMemory;
use bx_ucd::BidiData;
use std::alloc::Global;

/// The units of a paragraph's body in a window of `w` columns: its extended grapheme clusters, each with its face. The
/// only error is a failed allocation.
#[tactic(auto, using(crate::proofs::cells_lemmas::Rest::all_taken))]
pub fn units<D: BidiData>(
    alloc: Global,
    body: &str,
    tables: &D,
    w: u16,
) -> Result<Vec<Unit>, OutOfMemory>
    ensures units { IfOk result (λ v. v.items ≡ units (D.data tables.now) w body.now) }
    ensures stand { IfOk result (λ v. All (StandsIn body.now) v.items) }
    ensures faces { IfOk result (λ v. All (HasFace (D.data tables.now) w body.now) v.items) }
{
    let all = UnitRange {
        start: 0,
        count: body.len(),
    };
    // The proof compares the units, so they have a name.
    let units = units_from(alloc, body, all, tables, w)?;
    Ok(units)
}
