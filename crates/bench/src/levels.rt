//! Levels of a paragraph: PATTERN CHARACTERS TIMES, with the patterns of `texts.rt`. The cost of a character is the difference of
//! two runs that differ in TIMES alone, divided by the difference in characters. The time is linear if that cost does not depend
//! on CHARACTERS.

use crate::outcome::{Outcome, number};
use crate::texts::text;
use anyhow::{Result, bail};
use bx_common::Base;
use bx_levels::{Level, levels};
use bx_ucd::Tables;
use bx_ucd::sample::{BRACKETS, CLASSES, MIRRORING};
use std::alloc::Global;
use std::time::CpuClock;

/// The small tables, with a full stop and a slash of their real classes.
fn tables(alloc: Global) -> Result<Tables> {
    let mut classes = String::from_str(alloc, CLASSES)?;
    classes.push_str("002E..002F ; CS\n")?;
    Ok(Tables::read(
        alloc,
        classes.as_bytes(),
        BRACKETS.as_bytes(),
        MIRRORING.as_bytes(),
        None,
    )?)
}

/// The sum of all levels, so that a result depends on each.
fn sum_of(each: &[Level]) -> u64 {
    let mut sum: u64 = 0;
    for level in each {
        sum = sum.wrapping_add(u64::from(level.get().unwrap_or(0)));
    }
    sum
}

/// Finds the levels of a text `times` times, and sums the last ones only: summing each time would add a seventh to the cost.
fn sum(alloc: Global, tables: &Tables, body: &str, times: usize) -> Result<u64> {
    let mut last = levels(alloc, body, tables, Base::Auto)?;
    for _ in 1..times {
        last = levels(alloc, body, tables, Base::Auto)?;
    }
    Ok(sum_of(&last.each))
}

/// Measures the levels of a text. Reports their sum.
fn outcome_of<R: CpuClock + AllocGlobal>(
    rt: &R,
    tables: &Tables,
    body: &str,
    times: usize,
) -> Result<Outcome> {
    let start = rt.thread_cpu_time()?;
    let sum = sum(rt.alloc(), tables, body, times)?;
    Outcome::since(rt, start, sum)
}

/// Carries out the words. Reports the sum of the levels.
pub(crate) fn run<R: CpuClock + AllocGlobal>(rt: &R, words: &[String]) -> Result<Outcome> {
    let [pattern, count, times] = words else {
        bail!("usage: bench levels PATTERN CHARACTERS TIMES");
    };
    let times = number(times)?;
    let body = text(rt.alloc(), pattern.as_str(), number(count)?)?;
    let tables = tables(rt.alloc())?;
    outcome_of(rt, &tables, body.as_str(), times)
}
