//! Runs of printable ASCII, where each byte is a unit of one column: the fast part of wrapping.
ghost use Rattle.std.specs.Prelude.{◌≡◌, ◌≤◌, ◌<◌, ◌+◌, get_or, length, ℕ, false, true};
ghost use Rattle.std.specs.Str.{IsCharBoundary};
ghost use Rattle.bx_rows.specs.NarrowRuns.{IsNarrowRun, IsRunIn};
ghost use Rattle.bx_rows.specs.Wrapping.{is_blank};

use crate::cells::printable_stop;
use crate::narrow_run::NarrowRun;
use crate::wrapping::is_blank;
use bx_ucd::BidiData;

/// The offset after the last byte of `at..stop` that allows a break; `at` if there is none.
#[inline(always)]
fn break_behind<D: BidiData>(bytes: &[u8], at: usize, stop: usize, tables: &D) -> usize
    requires order { at ≤ stop }
    requires inside { stop ≤ length bytes.now }
    ensures from { at ≤ result }
    ensures to { result ≤ stop }
    ensures last { (i : ℕ) → at ≤ i → i + 1 ≡ result → is_blank ((D.data tables.now).class (get_or bytes.now i 0)) ≡ true }
    ensures none { (i : ℕ) → result ≤ i → i < stop → is_blank ((D.data tables.now).class (get_or bytes.now i 0)) ≡ false }
{
    let mut next = stop;
    while next > at {
        if is_blank(tables.class(char::from(bytes[next - 1]))) {
            return next;
        }
        next -= 1;
    }
    next
}

/// The run of printable ASCII at an offset, one unit a byte: of at most `most` + 1 bytes all but the last, since a combining
/// mark may follow that one. Looks up classes from the end back to the last break only.
#[inline(always)]
pub(crate) fn ascii_run<D: BidiData>(body: &str, at: usize, most: u16, tables: &D) -> NarrowRun
    requires { IsCharBoundary body.now at }
    ensures most { result.count ≤ most }
    ensures bounds { IsRunIn body.now at result }
    ensures units { (w : ℕ) → IsNarrowRun (D.data tables.now) w body.now at result }
{
    let bytes = body.as_bytes();
    let limit = at + (bytes.len() - at).min(most as usize + 1);
    let behind = printable_stop(&bytes[..limit], at);
    if behind - at <= 1 {
        return NarrowRun {
            stop: at,
            count: 0,
            last: 0,
            next: at,
        };
    }
    let stop = behind - 1;
    let next = break_behind(bytes, at, stop, tables);
    NarrowRun {
        stop,
        count: (stop - at) as u16,
        last: (next - at) as u16,
        next,
    }
}
