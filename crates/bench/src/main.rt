//! Measures one layer of the editor, or the whole.
//!
//!     bench [--time] text TASK BYTES [EDITS]
//!     bench [--time] paragraphs TASK BYTES LINE [EDITS]
//!     bench [--time] levels PATTERN CHARACTERS TIMES
//!     bench [--time] painting TASK TEXT TIMES
//!     bench [--time] units TASK TEXT BYTES TIMES
//!     bench [--time] row PART TEXT BYTES TIMES
//!     bench [--time] visual HIGHEST UNITS TIMES
//!     bench [--time] rows TASK TEXT LETTERS TIMES
//!     bench [--time] editor [--tables FILES] TASK TEXT BYTES TIMES
//!     bench [--time] tables TIMES FILES
//!     bench each
//!
//! The program prints a line that depends on all work done; with --time also the processor time of the measured part, for the last
//! two that of one of TIMES rounds; editor.rt describes their words. `each` runs every layer and task once with small numbers. To count instructions, subtract two runs under `valgrind --tool=callgrind` that
//! differ in one number.
#![tactic(auto)]

mod editor;
mod edits;
mod glyphs;
mod levels;
mod outcome;
mod painting;
mod paragraphs;
mod row;
mod rows;
mod texts;
mod units;
mod visual;

use anyhow::{Result, bail};
use outcome::Outcome;
use std::env;
use std::rt::{Env, Files};
use std::time::CpuClock;

/// Carries out the words.
fn measure<R: Files + CpuClock + AllocGlobal>(rt: &R, words: &[String]) -> Result<Outcome> {
    match words {
        [layer, rest @ ..] if layer.as_str() == "text" => edits::run(rt, rest),
        [layer, rest @ ..] if layer.as_str() == "paragraphs" => paragraphs::run(rt, rest),
        [layer, rest @ ..] if layer.as_str() == "levels" => levels::run(rt, rest),
        [layer, rest @ ..] if layer.as_str() == "painting" => painting::run(rt, rest),
        [layer, rest @ ..] if layer.as_str() == "units" => units::run(rt, rest),
        [layer, rest @ ..] if layer.as_str() == "row" => row::run(rt, rest),
        [layer, rest @ ..] if layer.as_str() == "visual" => visual::run(rt, rest),
        [layer, rest @ ..] if layer.as_str() == "rows" => rows::run(rt, rest),
        [layer, rest @ ..] if layer.as_str() == "editor" => editor::run(rt, rest),
        [layer, rest @ ..] if layer.as_str() == "tables" => editor::read_tables(rt, rest),
        _ => bail!(
            "usage: bench [--time] text|paragraphs|levels|painting|units|row|visual|rows|editor|tables WORDS"
        ),
    }
}

/// The runs of `each`, small enough to end at once. This crate's `stdout` has their lines.
const EACH: [&str; 19] = [
    "text scattered 100000 2000",
    "paragraphs edit 10000 50 20",
    "levels mixed 80 1",
    "painting changes ascii 1",
    "units row_starts mixed 1000 1",
    "row draw mixed 1000 1",
    "visual 5 50 1",
    "rows page mixed 76 1",
    "editor opening hebrew 20000 2",
    "editor letter hebrew 20000 7",
    "editor letter paragraph 5000 3",
    "editor erasure mixed 20000 3",
    "editor move mixed 20000 5",
    "editor page ascii 20000 2",
    "editor down hebrew 20000 2",
    "editor resize paragraph 5000 1",
    "editor save ascii 20000 2",
    "editor save hebrew 20000 0",
    "editor repaint paragraph 5000 1",
];

/// Runs every layer once.
fn each<R: Print + Files + CpuClock + AllocGlobal>(rt: &R) -> Result<()> {
    for line in EACH {
        let mut words = Vec::new(rt.alloc());
        for word in line.split(' ') {
            words.push(String::from_str(rt.alloc(), word)?)?;
        }
        let outcome = measure(rt, &words)?;
        let line = outcome.line.as_str();
        println!(rt; "{line}")?;
    }
    Ok(())
}

/// Runs the layer that the words name.
fn one<R: Print + Files + CpuClock + AllocGlobal>(
    rt: &R,
    words: &[String],
    is_timed: bool,
) -> Result<()> {
    let outcome = measure(rt, words)?;
    let line = outcome.line.as_str();
    println!(rt; "{line}")?;
    if is_timed {
        let nanos = outcome.nanos_a_round();
        println!(rt; "{nanos} nanoseconds")?;
    }
    Ok(())
}

/// Carries out the command line.
fn run<R: Print + Env + Files + CpuClock + AllocGlobal>(rt: &R) -> Result<()> {
    let mut words = Vec::new(rt.alloc());
    for word in env::args(rt)?.skip(1) {
        words.push(word)?;
    }
    match words.as_slice() {
        [first] if first.as_str() == "each" => each(rt),
        [first, rest @ ..] if first.as_str() == "--time" => one(rt, rest, true),
        all => one(rt, all, false),
    }
}

fn main(rt: HostRuntime) -> Result<()> {
    run(&rt)
}
