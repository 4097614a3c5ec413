//! The parts of showing a row: PART TEXT BYTES TIMES. PART is `units`, `levels`, `visual` or `draw` (which
//! includes `visual`), and TEXT is a text of `units`. A part runs for each row of the text's lines, in a window of 80 columns.
//! Its inputs are computed once, so they cancel in the difference of two runs.

ghost use Rattle.std.specs.Prelude.{◌<◌, length};

use crate::outcome::{Outcome, number};
use crate::units::text_of;
use crate::visual::leftmost;
use anyhow::{Context, Result, bail};
use bx_common::Base;
use bx_levels::levels;
use bx_rows::{Lines, RowLayout, row_starts};
use bx_ucd::{BidiData, Tables, sample_tables};
use std::alloc::Global;
use std::time::CpuClock;

/// A part of showing a row, as the file's head names it.
#[derive(Clone, Copy)]
enum Part {
    /// `units`
    Units,
    /// `levels`
    Levels,
    /// `visual`
    Order,
    /// `draw`
    Picture,
}

impl Part {
    /// The part with this name.
    fn named(name: &str) -> Option<Part> {
        match name {
            "units" => Some(Part::Units),
            "levels" => Some(Part::Levels),
            "visual" => Some(Part::Order),
            "draw" => Some(Part::Picture),
            _ => None,
        }
    }
}

/// Runs a part of a row once. Returns the number of units, levels or glyphs, or the leftmost unit.
fn once<D: BidiData>(alloc: Global, part: Part, row: &RowLayout<'_, '_, D>) -> Result<usize> {
    match part {
        Part::Units => Ok(row.lines.units(alloc, row.number)?.len()),
        Part::Levels => Ok(row.lines.levels(alloc, row.number, &row.units)?.len()),
        Part::Order => leftmost(alloc, &row.levels),
        Part::Picture => Ok(row.picture(alloc)?.glyphs.len()),
    }
}

/// Runs a part of row `number` `times` times.
fn often<D: BidiData>(
    alloc: Global,
    part: Part,
    lines: &Lines<'_, '_, D>,
    number: usize,
    times: usize,
) -> Result<u64>
    requires { number < length lines.now.starts.now }
{
    let row = lines.row(alloc, number)?;
    let mut sum: u64 = 0;
    for _ in 0..times {
        let count = once(alloc, part, &row)?;
        sum = sum.wrapping_add(count as u64);
    }
    Ok(sum)
}

/// Runs a part of each row of a line `times` times.
fn sum_of_line(
    alloc: Global,
    part: Part,
    line: &str,
    tables: &Tables,
    times: usize,
) -> Result<u64> {
    let levels = levels(alloc, line, tables, Base::Auto)?;
    let starts = row_starts(alloc, line, tables, 80)?;
    let lines = Lines {
        body: line,
        starts: &starts,
        levels: &levels,
        tables,
        base: Base::Auto,
        w: 80,
    };
    let mut sum: u64 = 0;
    for number in 0..lines.starts.len() {
        let more = often(alloc, part, &lines, number, times)?;
        sum = sum.wrapping_add(more);
    }
    Ok(sum)
}

/// Runs a part of each row of a text `times` times.
fn sum(alloc: Global, part: Part, text: &str, tables: &Tables, times: usize) -> Result<u64> {
    let mut sum: u64 = 0;
    for line in text.split('\n') {
        sum = sum.wrapping_add(sum_of_line(alloc, part, line, tables, times)?);
    }
    Ok(sum)
}

/// Measures a part, with the computation of its inputs. Reports the sum of its results.
fn outcome_of<R: CpuClock + AllocGlobal>(
    rt: &R,
    part: Part,
    text: &str,
    tables: &Tables,
    times: usize,
) -> Result<Outcome> {
    let start = rt.thread_cpu_time()?;
    let sum = sum(rt.alloc(), part, text, tables, times)?;
    Outcome::since(rt, start, sum)
}

/// Carries out the words.
pub(crate) fn run<R: CpuClock + AllocGlobal>(rt: &R, words: &[String]) -> Result<Outcome> {
    let [part, text, bytes, times] = words else {
        bail!("usage: bench row PART TEXT BYTES TIMES");
    };
    let part = Part::named(part.as_str()).context("no such part")?;
    let times = number(times)?;
    let text = text_of(rt.alloc(), text.as_str(), number(bytes)?)?;
    let tables = sample_tables(rt.alloc())?;
    outcome_of(rt, part, text.as_str(), &tables, times)
}
