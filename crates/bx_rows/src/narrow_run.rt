//! Runs of units of one column each, which wrapping adds to a row at once.
ghost use Rattle.std.specs.Prelude.{◌≡◌, ◌≤◌, ◌<◌, ◌+◌, None, Some, cond, ℕ};
ghost use Rattle.std.specs.Str.{IsCharBoundary};
ghost use Rattle.bx_rows.specs.NarrowRuns.{IsNarrowRun, IsRunIn, grown};
ghost use Rattle.bx_rows.specs.Wrapping.{is_one_blank};

use crate::ascii_part::ascii_run;
use crate::cells::simple::{Simple, common_kind, simple_kind};
use crate::wrapping::is_blank;
use bx_common::first_char;
use bx_ucd::BidiData;

/// A run of units of one column each.
#[derive(Clone, Copy)]
pub(crate) struct NarrowRun {
    /// The offset after the run.
    pub(crate) stop: usize,
    /// The number of all its units (in a `Scan`: of those after the last break).
    pub(crate) count: u16,
    /// The number of its units up to its last break, the unit after which a row may end included; 0 if there is none.
    pub(crate) last: u16,
    /// The offset after that break, or the run's start if there is none.
    pub(crate) next: usize,
}

/// Whether a row may end after a cluster of simple characters, of which `first` is the first; `is_marked`: it has others.
#[inline(always)]
pub(crate) fn is_blank_cluster<D: BidiData>(first: char, is_marked: bool, tables: &D) -> bool
    ensures { result ≡ is_one_blank (D.data tables.now) (cond is_marked None (Some first)) }
{
    if is_marked {
        return false;
    }
    is_blank(tables.class(first))
}

/// A run with one more unit, which ends at `stop`; `is_break`: a row may end after it.
#[inline(always)]
fn grown(run: NarrowRun, stop: usize, is_break: bool) -> NarrowRun
    requires { run.count < 65535 }
    ensures { result ≡ grown run stop is_break }
{
    let count = run.count + 1;
    if is_break {
        return NarrowRun {
            stop,
            count,
            last: count,
            next: stop,
        };
    }
    NarrowRun {
        stop,
        count,
        last: run.last,
        next: run.next,
    }
}

/// The run of one-column units at an offset, at most `most`. It ends before the first unit that has more columns or needs
/// the full cluster rules, and is empty if the first character is not common (`common_kind`: printable ASCII, Hebrew and most
/// Arabic letters).
// Not inlined: it has a loop of its own, and runs once a run.
#[inline(never)]
pub(crate) fn narrow_run<D: BidiData>(body: &str, at: usize, most: u16, tables: &D) -> NarrowRun
    requires { IsCharBoundary body.now at }
    ensures most { result.count ≤ most }
    ensures bounds { IsRunIn body.now at result }
    ensures units { (w : ℕ) → IsNarrowRun (D.data tables.now) w body.now at result }
{
    let mut run = ascii_run(body, at, most, tables);
    if run.count == most {
        return run;
    }
    let Some((c, behind)) = first_char(&body[run.stop..]) else {
        return run;
    };
    let Simple::Begins(columns) = common_kind(c) else {
        return run;
    };
    if columns != 1 {
        return run;
    }
    // The unit that begins here joins the run once the next one begins: `is_break` changes if a mark follows.
    let mut is_break = is_blank(tables.class(c));
    let mut rest = behind;
    while let Some((c, behind)) = first_char(rest) {
        match simple_kind(c) {
            Simple::Begins(columns) => {
                let stop = body.len() - rest.len();
                if columns != 1 {
                    return grown(run, stop, is_break);
                }
                run = grown(run, stop, is_break);
                if run.count == most {
                    return run;
                }
                is_break = is_blank(tables.class(c));
            }
            Simple::Extends => is_break = false,
            Simple::Other => return run,
        }
        rest = behind;
    }
    grown(run, body.len(), is_break)
}
