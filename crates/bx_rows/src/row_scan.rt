//! The current row of a scan over a body's units, which finds the row starts.
ghost use Rattle.std.specs.Prelude.{◌≡◌, ◌≤◌, ◌<◌, ◌&&◌, ◌+◌, IfOk, List, chars, length, nat_le, nat_lt, false, take, true};
ghost use Rattle.std.specs.Str.{IsCharBoundary};
ghost use Rattle.bx_rows.specs.declared.start_search.RowStart.{RowStart};
ghost use Rattle.bx_rows.specs.RowScan.{IsInOrder, Takes, new_scan, with_run};
ghost use Rattle.bx_rows.specs.NarrowRuns.{IsRunIn};
ghost use Rattle.bx_rows.specs.Wrapping.{columns_at};

use crate::cells::Face;
use crate::narrow_run::NarrowRun;
use crate::start_search::RowStart;
use crate::unit_levels::char_count;
use crate::wrapping::columns_at;
use std::alloc::AllocError;

/// The parts of a unit that wrapping needs.
#[derive(Clone, Copy)]
pub(crate) struct Extent {
    /// The offset of the unit, in bytes of the body.
    pub(crate) start: usize,
    /// The offset after it.
    pub(crate) stop: usize,
    /// A face of as many columns as the unit's, at any column.
    pub(crate) face: Face,
    /// Whether a row may end after the unit.
    pub(crate) is_break: bool,
}

/// The current row: the units read since its start. A break follows each unit after which a row may end.
#[derive(Clone, Copy)]
pub(crate) struct Scan {
    /// Where the row starts in the body.
    pub(crate) start: RowStart,
    /// The offset after the last break, or the row's start if it has none.
    pub(crate) next: usize,
    /// The columns of all units of the row.
    pub(crate) columns: u16,
    /// The number of units up to the last break; 0 if there is none.
    pub(crate) last: usize,
    /// The number of units after the last break (in a `NarrowRun`: of all its units).
    pub(crate) count: usize,
    /// The columns that the units after the last break would have in a row of their own.
    pub(crate) since: u16,
}

/// A row with no unit yet.
pub(crate) fn new_scan(start: RowStart) -> Scan
    ensures { result ≡ new_scan start }
{
    Scan {
        start,
        next: start.offset,
        columns: 0,
        last: 0,
        count: 0,
        since: 0,
    }
}

/// Whether a face fits in a row of which `columns` columns are taken.
#[inline(always)]
fn fits(columns: u16, face: Face, w: u16) -> bool
    requires { columns ≤ w }
    ensures { result ≡ (nat_lt columns w && nat_le (columns + columns_at w columns face) w) }
{
    columns < w && columns_at(w, columns, face) <= w - columns
}

/// The start of a row at `offset` with `units` units of the body before it. Its characters are counted from `before`, an
/// earlier start.
fn start_behind(body: &str, before: RowStart, offset: usize, units: usize) -> RowStart
    requires from { IsCharBoundary body.now before.offset }
    requires to { IsCharBoundary body.now offset }
    requires order { before.offset ≤ offset }
    requires chars { before.chars ≡ length (chars (take before.offset body.now)) }
    ensures { result ≡ record { offset = offset; units = units; chars = length (chars (take offset body.now)) } }
{
    RowStart {
        offset,
        units,
        chars: before.chars + char_count(&body[before.offset..offset]),
    }
}

/// Adds a unit, which fits.
#[inline(always)]
fn advance(scan: Scan, unit: Extent, body: &str, w: u16) -> Scan
    requires in_turn { IsInOrder w body.now scan unit.start }
    requires grows { unit.start < unit.stop }
    requires stop { IsCharBoundary body.now unit.stop }
    requires fits { (nat_lt scan.columns w && nat_le (scan.columns + columns_at w scan.columns unit.face) w) ≡ true }
    ensures in_turn { IsInOrder w body.now result unit.stop }
    ensures takes { (starts : List RowStart) → Takes w body.now unit starts scan starts result }
{
    let columns = scan.columns + columns_at(w, scan.columns, unit.face);
    if unit.is_break {
        return Scan {
            start: scan.start,
            next: unit.stop,
            columns,
            last: scan.last + scan.count + 1,
            count: 0,
            since: 0,
        };
    }
    Scan {
        start: scan.start,
        next: scan.next,
        columns,
        last: scan.last,
        count: scan.count + 1,
        since: scan.since + columns_at(w, scan.since, unit.face),
    }
}

/// Adds a run of units at the offset `at`, which all fit.
#[inline(always)]
pub(crate) fn take_run(scan: Scan, run: NarrowRun, body: &str, at: usize, w: u16) -> Scan
    requires in_turn { IsInOrder w body.now scan at }
    requires run { IsRunIn body.now at run }
    requires fits { scan.columns + run.count ≤ w }
    ensures in_turn { IsInOrder w body.now result run.stop }
    ensures run { result ≡ with_run scan run.count run.last run.next }
{
    let columns = scan.columns + run.count;
    if run.last == 0 {
        return Scan {
            start: scan.start,
            next: scan.next,
            columns,
            last: scan.last,
            count: scan.count + usize::from(run.count),
            since: scan.since + run.count,
        };
    }
    let behind = run.count - run.last;
    Scan {
        start: scan.start,
        next: run.next,
        columns,
        last: scan.last + scan.count + usize::from(run.last),
        count: usize::from(behind),
        since: behind,
    }
}

/// Ends a row without units, since the next unit is wider than the window, and starts a row after that unit. No unit is so wide
/// unless the window has no columns.
fn pass(
    starts: &mut Vec<RowStart>,
    scan: Scan,
    unit: Extent,
    body: &str,
    w: u16,
) -> Result<Scan, AllocError>
    requires in_turn { IsInOrder w body.now scan unit.start }
    requires grows { unit.start < unit.stop }
    requires stop { IsCharBoundary body.now unit.stop }
    requires full { (nat_lt scan.columns w && nat_le (scan.columns + columns_at w scan.columns unit.face) w) ≡ false }
    requires unbroken { scan.last ≡ 0 }
    requires empty { scan.count ≡ 0 }
    ensures in_turn { IfOk result (λ t. IsInOrder w body.now t unit.stop) }
    ensures takes { IfOk result (λ t. Takes w body.now unit starts.old.items scan starts.new.items t) }
{
    starts.push(scan.start)?;
    let start = start_behind(body, scan.start, unit.stop, scan.start.units + 1);
    Ok(new_scan(start))
}

/// Adds a unit to a row without a break. A unit that does not fit begins the next row; the start of the row before is pushed.
fn take_unbroken(
    starts: &mut Vec<RowStart>,
    scan: Scan,
    unit: Extent,
    body: &str,
    w: u16,
) -> Result<Scan, AllocError>
    requires in_turn { IsInOrder w body.now scan unit.start }
    requires grows { unit.start < unit.stop }
    requires start { IsCharBoundary body.now unit.start }
    requires stop { IsCharBoundary body.now unit.stop }
    requires unbroken { scan.last ≡ 0 }
    ensures in_turn { IfOk result (λ t. IsInOrder w body.now t unit.stop) }
    ensures takes { IfOk result (λ t. Takes w body.now unit starts.old.items scan starts.new.items t) }
{
    if fits(scan.columns, unit.face, w) {
        return Ok(advance(scan, unit, body, w));
    }
    if scan.count == 0 {
        return pass(starts, scan, unit, body, w);
    }
    starts.push(scan.start)?;
    let start = start_behind(body, scan.start, unit.start, scan.start.units + scan.count);
    let scan = new_scan(start);
    if fits(scan.columns, unit.face, w) {
        return Ok(advance(scan, unit, body, w));
    }
    pass(starts, scan, unit, body, w)
}

/// The next row, which begins after the last break.
fn behind_break(scan: Scan, body: &str) -> Scan
    requires start { IsCharBoundary body.now scan.start.offset }
    requires next { IsCharBoundary body.now scan.next }
    requires order { scan.start.offset ≤ scan.next }
    requires chars { scan.start.chars ≡ length (chars (take scan.start.offset body.now)) }
    requires bound { scan.start.units + scan.last ≤ length body.now }
    ensures { result ≡ record {
      start = record { offset = scan.next; units = scan.start.units + scan.last; chars = length (chars (take scan.next body.now)) };
      next = scan.next;
      columns = scan.since;
      last = 0;
      count = scan.count;
      since = scan.since;
    } }
{
    Scan {
        start: start_behind(body, scan.start, scan.next, scan.start.units + scan.last),
        next: scan.next,
        columns: scan.since,
        last: 0,
        count: scan.count,
        since: scan.since,
    }
}

/// Wraps at a unit that does not fit: the row ends at its last break, else before the unit.
fn turn(
    starts: &mut Vec<RowStart>,
    scan: Scan,
    unit: Extent,
    body: &str,
    w: u16,
) -> Result<Scan, AllocError>
    requires in_turn { IsInOrder w body.now scan unit.start }
    requires grows { unit.start < unit.stop }
    requires start { IsCharBoundary body.now unit.start }
    requires stop { IsCharBoundary body.now unit.stop }
    requires full { (nat_lt scan.columns w && nat_le (scan.columns + columns_at w scan.columns unit.face) w) ≡ false }
    ensures in_turn { IfOk result (λ t. IsInOrder w body.now t unit.stop) }
    ensures takes { IfOk result (λ t. Takes w body.now unit starts.old.items scan starts.new.items t) }
{
    if scan.last == 0 {
        return take_unbroken(starts, scan, unit, body, w);
    }
    starts.push(scan.start)?;
    take_unbroken(starts, behind_break(scan, body), unit, body, w)
}

/// Adds a unit, and wraps if it does not fit.
#[inline(always)]
pub(crate) fn take_unit(
    starts: &mut Vec<RowStart>,
    scan: Scan,
    unit: Extent,
    body: &str,
    w: u16,
) -> Result<Scan, AllocError>
    requires in_turn { IsInOrder w body.now scan unit.start }
    requires grows { unit.start < unit.stop }
    requires start { IsCharBoundary body.now unit.start }
    requires stop { IsCharBoundary body.now unit.stop }
    ensures in_turn { IfOk result (λ t. IsInOrder w body.now t unit.stop) }
    ensures takes { IfOk result (λ t. Takes w body.now unit starts.old.items scan starts.new.items t) }
{
    if fits(scan.columns, unit.face, w) {
        return Ok(advance(scan, unit, body, w));
    }
    turn(starts, scan, unit, body, w)
}
