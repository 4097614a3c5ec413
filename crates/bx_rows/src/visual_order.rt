//! Visual order, L2: runs are reversed in place, from the highest level down to the lowest odd one.
ghost use Rattle.std.specs.Prelude.{◌≡◌, ◌≤◌, ◌<◌, ℕ, All, IfOk, List, [], length, map, slice_index_or, unwrap_or, None};
ghost use Rattle.std.specs.List.{range_with_len};
ghost use Rattle.bx_rows.specs.ReversedRuns.{AgreeUpTo, turned};
ghost use Rattle.bx_rows.specs.RowLevels.{highest, lower_odd, lowest_odd, reverse_runs, visual};

use bx_common::OutOfMemory;
use std::alloc::{AllocError, Global};

/// The highest level, or 0 if there is none.
fn highest(levels: &[u8]) -> u8
    ensures { result ≡ highest levels.now }
{
    let mut top = 0;
    let mut i = levels.len();
    while i > 0 {
        i -= 1;
        top = levels[i].max(top);
    }
    top
}

/// The level if it is odd, else 255, which stands for none.
#[inline(always)]
fn odd_or_last(level: u8) -> u8
    ensures { result ≡ unwrap_or (lower_odd level None) 255 }
{
    if level % 2 == 0 {
        return u8::MAX;
    }
    level
}

/// The lowest odd level, the last at which runs are reversed; 255 if there is none, since all levels are even and lower then.
fn lowest_odd(levels: &[u8]) -> u8
    ensures { result ≡ unwrap_or (lowest_odd levels.now) 255 }
{
    let mut lowest = u8::MAX;
    let mut i = levels.len();
    while i > 0 {
        i -= 1;
        lowest = odd_or_last(levels[i]).min(lowest);
    }
    lowest
}

/// Reverses the items `start..stop`.
fn turn_round<T>(items: &mut [T], start: usize, stop: usize)
    requires order { start ≤ stop }
    requires within { stop ≤ length items.old }
    ensures count { length items.new ≡ length items.old }
    ensures turned { items.new ≡ turned start stop items.old }
{
    items[start..stop].reverse();
}

/// Reverses a run unless it is empty, as most are.
#[inline(always)]
fn turn_run<T>(items: &mut [T], start: usize, stop: usize)
    requires order { start ≤ stop }
    requires within { stop ≤ length items.old }
    ensures count { length items.new ≡ length items.old }
    ensures turned { items.new ≡ turned start stop items.old }
{
    if start == stop {
        return;
    }
    turn_round(items, start, stop);
}

/// Reverses each maximal run of items at `level` or higher. The levels stay in place: all levels of a run are at least
/// `level`, so the runs at lower levels are the same (`AgreeUpTo`). In the clause `us` are the units as the items stand now, each
/// its number and its level, and `f` gives a number's item.
fn reverse_runs<T>(items: &mut [T], levels: &[u8], level: u8)
    requires { length items.old ≡ length levels.now }
    ensures count { length items.new ≡ length items.old }
    ensures runs { (f : ℕ → T) (us : List (ℕ × ℕ)) → AgreeUpTo level levels.now us → items.old ≡ map (λ u. f u.0) us
        → items.new ≡ map (λ u. f u.0) (reverse_runs level [] us) }
{
    let mut start = 0;
    for i in 0..levels.len() {
        if levels[i] >= level {
            continue;
        }
        turn_run(items, start, i);
        start = i + 1;
    }
    turn_run(items, start, levels.len());
}

/// Moves the items of a row's units from text order into visual order, by the units' levels. The lowest odd level is at least
/// 1, so `level` does not pass 0.
pub(crate) fn reorder<T>(items: &mut [T], levels: &[u8])
    requires { length items.old ≡ length levels.now }
    ensures count { length items.new ≡ length items.old }
    ensures order { (d : T) → items.new ≡ map (λ k. slice_index_or items.old k d) (visual levels.now) }
{
    let low = lowest_odd(levels);
    let mut level = highest(levels);
    while level >= low {
        reverse_runs(items, levels, level);
        level -= 1;
    }
}

/// The numbers of units in text order.
fn numbers(alloc: Global, count: usize) -> Result<Vec<usize>, AllocError>
    ensures { IfOk result (λ v. v.items ≡ range_with_len 0 count) }
{
    (0..count).collect(alloc)
}

/// The numbers of a row's units in visual order.
fn numbers_in_order(alloc: Global, levels: &[u8]) -> Result<Vec<usize>, AllocError>
    ensures { IfOk result (λ v. v.items ≡ visual levels.now) }
{
    let mut numbers = numbers(alloc, levels.len())?;
    reorder(&mut numbers, levels);
    Ok(numbers)
}

/// The numbers, from 0, of a row's units from left to right, by L2.
#[tactic(auto, using(crate::proofs::NumbersBelow::below_if_visual))]
pub fn visual(alloc: Global, levels: &[u8]) -> Result<Vec<usize>, OutOfMemory>
    ensures order { IfOk result (λ v. v.items ≡ visual levels.now) }
    ensures below { IfOk result (λ v. All (λ k. k < length levels.now) v.items) }
{
    Ok(numbers_in_order(alloc, levels)?)
}
