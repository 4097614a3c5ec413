//! The units of one row: the first ones of a body from an offset on, in a window of `w` columns.
ghost use Rattle.std.specs.Prelude.{◌≡◌, ◌<◌, ◌∷◌, All, IfOk, length, take};
ghost use Rattle.std.specs.Str.{IsCharBoundary};
ghost use Rattle.bx_rows.specs.cells.UnitFacts.{HasFace, StandsIn, units_from};

use crate::cells::by_rules::ruled_unit;
use crate::cells::faces::simple_face;
use crate::cells::simple_clusters::simple_cluster;
use crate::cells::unit::{Unit, UnitRange};
use bx_common::OutOfMemory;
use bx_ucd::BidiData;
use std::alloc::{AllocError, Global};

/// The largest initial capacity, in units, a chosen number; a longer list reallocates while the body is read.
const FIRST_ROOM: usize = 256;

/// The unit that begins at byte offset `at`: by simple characters if possible, else by the rules on breaks.
fn unit_at<D: BidiData>(body: &str, at: usize, tables: &D, w: u16) -> Unit
    requires start { IsCharBoundary body.now at }
    requires some { at < length body.now }
    ensures units { units_from (D.data tables.now) w body.now at ≡ result ∷ units_from (D.data tables.now) w body.now result.stop }
    ensures stop { (at < result.stop) × IsCharBoundary body.now result.stop }
{
    match simple_cluster(body, at) {
        Some(cluster) => Unit {
            start: at,
            stop: cluster.stop,
            face: simple_face(cluster.first, cluster.columns, cluster.is_marked, tables, w),
        },
        None => ruled_unit(body, at, tables, w),
    }
}

/// The units of a range, or all from its start on if the body has fewer.
fn listed_from<D: BidiData>(
    alloc: Global,
    body: &str,
    range: UnitRange,
    tables: &D,
    w: u16,
) -> Result<Vec<Unit>, AllocError>
    requires { IsCharBoundary body.now range.start }
    ensures { IfOk result (λ v. v.items ≡ take range.count (units_from (D.data tables.now) w body.now range.start)) }
{
    let mut units = Vec::with_capacity(alloc, range.count.min(FIRST_ROOM))?;
    let mut next = range.start;
    while units.len() < range.count && next < body.len() {
        let unit = unit_at(body, next, tables, w);
        units.push(unit)?;
        next = unit.stop;
    }
    Ok(units)
}

/// The units of a range in a body, or all from its start on if the body has fewer, in a window of `w` columns. The text from
/// the range's start on is taken as a text of its own and nothing before it is read; if a unit of the body begins there, the
/// result is the body's own units. The only error is a failed allocation.
#[tactic(auto, using(crate::proofs::cells_lemmas::Standing::stand_if_taken, crate::proofs::cells_lemmas::Standing::faces_if_taken))]
pub fn units_from<D: BidiData>(
    alloc: Global,
    body: &str,
    range: UnitRange,
    tables: &D,
    w: u16,
) -> Result<Vec<Unit>, OutOfMemory>
    requires { IsCharBoundary body.now range.start }
    ensures units { IfOk result (λ v. v.items ≡ take range.count (units_from (D.data tables.now) w body.now range.start)) }
    ensures stand { IfOk result (λ v. All (StandsIn body.now) v.items) }
    ensures faces { IfOk result (λ v. All (HasFace (D.data tables.now) w body.now) v.items) }
{
    Ok(listed_from(alloc, body, range, tables, w)?)
}
