//! Measures the visual order of a row with scattered levels: HIGHEST UNITS TIMES. The row has UNITS units. Levels go from 0 to
//! HIGHEST, at most 255, and follow the multiples of the golden ratio.

use crate::edits::turning;
use crate::outcome::{Outcome, number};
use anyhow::{Result, bail};
use bx_rows::visual;
use std::alloc::{AllocError, Global};
use std::time::CpuClock;

/// The index of the leftmost unit, from the levels of a row's units.
pub(crate) fn leftmost(alloc: Global, levels: &[u8]) -> Result<usize> {
    let order = visual(alloc, levels)?;
    Ok(order.first().copied().unwrap_or(0))
}

/// The levels of `count` units.
fn scattered_levels(alloc: Global, highest: usize, count: usize) -> Result<Vec<u8>, AllocError> {
    let mut levels = Vec::with_capacity(alloc, count)?;
    for unit in 0..count {
        levels.push((turning(unit.wrapping_add(1), highest) % 256) as u8)?;
    }
    Ok(levels)
}

/// Finds the order `times` times. Returns the sum of the leftmost indexes.
fn sum(alloc: Global, levels: &[u8], times: usize) -> Result<u64> {
    let mut sum: u64 = 0;
    for _ in 0..times {
        sum = sum.wrapping_add(leftmost(alloc, levels)? as u64);
    }
    Ok(sum)
}

/// Carries out the words.
pub(crate) fn run<R: CpuClock + AllocGlobal>(rt: &R, words: &[String]) -> Result<Outcome> {
    let [highest, count, times] = words else {
        bail!("usage: bench visual HIGHEST UNITS TIMES");
    };
    let times = number(times)?;
    let levels = scattered_levels(rt.alloc(), number(highest)?, number(count)?)?;
    let start = rt.thread_cpu_time()?;
    let sum = sum(rt.alloc(), &levels, times)?;
    Outcome::since(rt, start, sum)
}
