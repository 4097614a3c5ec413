//! The row starts of a body, found without a list of its units.
ghost use Rattle.std.specs.Prelude.{◌≡◌, ◌≤◌, ◌<◌, IfOk, List, length, ℕ};
ghost use Rattle.std.specs.Str.{IsCharBoundary};
ghost use Rattle.bx_rows.specs.cells.Simple.{own_columns};
ghost use Rattle.bx_rows.specs.cells.SimpleFace.{simple_face};
ghost use Rattle.bx_rows.specs.cells.UnitFacts.{units_from};
ghost use Rattle.bx_rows.specs.declared.start_search.RowStart.{RowStart};
ghost use Rattle.bx_rows.specs.RowScan.{HasUnit, IsInOrder, IsRead};
ghost use Rattle.bx_rows.specs.RowStarts.{row_starts};
ghost use Rattle.bx_rows.specs.Wrapping.{columns_at};

use crate::cells::simple::{Simple, common_kind};
use crate::cells::{Face, SimpleCluster, ruled_unit, simple_cluster, simple_face};
use crate::narrow_run::{is_blank_cluster, narrow_run};
use crate::row_scan::{Extent, Scan, new_scan, take_run, take_unit};
use crate::wrapping::is_break;
use bx_common::{OutOfMemory, first_char};
use bx_ucd::BidiData;
use std::alloc::{AllocError, Global};

/// The start of a row.
#[derive(Clone, Copy)]
pub struct RowStart {
    /// The offset in the body, in bytes, of the row's first unit.
    pub offset: usize,
    /// The number of units of the body before it.
    pub units: usize,
    /// The number of characters of the body before it.
    pub chars: usize,
}

/// A face with a simple cluster's width. If its characters have one column, the width is one, whatever the class.
#[inline(always)]
fn sized_as<D: BidiData>(cluster: SimpleCluster, tables: &D, w: u16) -> Face
    requires { own_columns cluster.first ≡ cluster.columns }
    ensures { (c : ℕ) → columns_at w c (simple_face (D.data tables.now) w cluster.first cluster.is_marked) ≡ columns_at w c result }
{
    if cluster.columns == 1 {
        return Face::Own(1);
    }
    simple_face(cluster.first, cluster.columns, cluster.is_marked, tables, w)
}

/// The extent of the unit at an offset. A simple cluster needs no rules on breaks.
#[inline(always)]
fn extent<D: BidiData>(body: &str, at: usize, tables: &D, w: u16) -> Extent
    requires start { IsCharBoundary body.now at }
    requires some { at < length body.now }
    ensures start { result.start ≡ at }
    ensures stop { (at < result.stop) × IsCharBoundary body.now result.stop }
    ensures unit { HasUnit (D.data tables.now) w body.now result }
{
    match simple_cluster(body, at) {
        Some(cluster) => Extent {
            start: at,
            stop: cluster.stop,
            face: sized_as(cluster, tables, w),
            is_break: is_blank_cluster(cluster.first, cluster.is_marked, tables),
        },
        None => {
            let unit = ruled_unit(body, at, tables, w);
            Extent {
                start: at,
                stop: unit.stop,
                face: unit.face,
                is_break: is_break(body, unit, tables),
            }
        }
    }
}

/// Whether the character at an offset is common (`common_kind`: printable ASCII, Hebrew and most Arabic letters) and has one
/// column.
#[inline(always)]
fn may_begin_run(body: &str, at: usize) -> bool
    requires { IsCharBoundary body.now at }
{
    match first_char(&body[at..]) {
        Some((c, _)) => common_kind(c) == Simple::Begins(1),
        None => false,
    }
}

/// Adds the run of one-column units at an offset, as many as fit, and returns the offset after it.
#[inline(always)]
fn read_run<D: BidiData>(scan: Scan, body: &str, at: usize, tables: &D, w: u16) -> (Scan, usize)
    requires in_turn { IsInOrder w body.now scan at }
    requires at { IsCharBoundary body.now at }
    ensures in_turn { IsInOrder w body.now result.0 result.1 }
    ensures stop { (at ≤ result.1) × IsCharBoundary body.now result.1 }
    ensures read { (starts : List RowStart) → IsRead (D.data tables.now) w body.now starts scan (units_from (D.data tables.now) w body.now at)
        → IsRead (D.data tables.now) w body.now starts result.0 (units_from (D.data tables.now) w body.now result.1) }
{
    if !may_begin_run(body, at) {
        return (scan, at);
    }
    let run = narrow_run(body, at, w - scan.columns, tables);
    (take_run(scan, run, body, at, w), run.stop)
}

/// Adds the unit at an offset, if one is left, and returns the offset after it.
#[inline(always)]
fn read_unit<D: BidiData>(
    starts: &mut Vec<RowStart>,
    scan: Scan,
    body: &str,
    at: usize,
    tables: &D,
    w: u16,
) -> Result<(Scan, usize), AllocError>
    requires in_turn { IsInOrder w body.now scan at }
    requires at { IsCharBoundary body.now at }
    ensures in_turn { IfOk result (λ r. IsInOrder w body.now r.0 r.1) }
    ensures stop { IfOk result (λ r. (at ≤ r.1) × IsCharBoundary body.now r.1) }
    ensures further { at < length body.now → IfOk result (λ r. at < r.1) }
    ensures read { IsRead (D.data tables.now) w body.now starts.old.items scan (units_from (D.data tables.now) w body.now at)
        → IfOk result (λ r. IsRead (D.data tables.now) w body.now starts.new.items r.0 (units_from (D.data tables.now) w body.now r.1)) }
{
    if at == body.len() {
        return Ok((scan, at));
    }
    let unit = extent(body, at, tables, w);
    let scan = take_unit(starts, scan, unit, body, w)?;
    Ok((scan, unit.stop))
}

/// The starts of a body's rows in a window of `w` columns, the rows of `wrap`. Makes no list of units.
pub fn row_starts<D: BidiData>(
    alloc: Global,
    body: &str,
    tables: &D,
    w: u16,
) -> Result<Vec<RowStart>, OutOfMemory>
    ensures { IfOk result (λ v. v.items ≡ row_starts (D.data tables.now) w body.now) }
{
    let first = RowStart {
        offset: 0,
        units: 0,
        chars: 0,
    };
    let mut starts = Vec::new(alloc);
    if body.is_empty() {
        starts.push(first)?;
        return Ok(starts);
    }
    let mut scan = new_scan(first);
    let mut at = 0;
    while at < body.len() {
        let (narrow, behind) = read_run(scan, body, at, tables, w);
        let (next, stop) = read_unit(&mut starts, narrow, body, behind, tables, w)?;
        scan = next;
        at = stop;
    }
    // The last unit was wider than the window, and its empty row is among the starts: no row begins after it.
    if scan.last + scan.count == 0 {
        return Ok(starts);
    }
    starts.push(scan.start)?;
    Ok(starts)
}
