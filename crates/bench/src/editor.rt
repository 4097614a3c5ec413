//! The whole editor: from the bytes of keys to the bytes for the terminal, in a window of 24 rows and 80 columns.
//!
//!     editor [--tables CLASSES BRACKETS MIRRORING [--joining JOINING CHARACTERS]] TASK TEXT BYTES TIMES
//!     tables TIMES CLASSES BRACKETS MIRRORING [JOINING CHARACTERS]
//!
//! TASK is `opening`, `letter`, `erasure` (a letter and Backspace), `move` (Right and Left), `page` (PageDown and PageUp),
//! `down` (PageDown, to rows not shown before), `resize` (to 79 columns and back), `save` or `repaint`, and TEXT is `ascii`,
//! `hebrew`, `mixed` or `paragraph`. The text has at least BYTES bytes, and each task but the first begins in its middle. The line
//! has the task and the bytes sent and stored in a round. Without --tables the small tables are used. `tables` reads the tables from
//! the files.
//!
//! With TIMES 0 only the preparation is done. To count instructions, subtract two runs under `valgrind --tool=callgrind` that
//! differ in TIMES alone. For `opening` the difference includes reading the tables and copying the text; the time does not.

mod counting_store;
mod openings;
mod rounds;
mod table_files;
mod task;
mod texts;
mod typist;

use crate::outcome::{Outcome, number};
use anyhow::{Context, Result, bail};
use bx_command::UnicodeFiles;
use std::alloc::{AllocError, Global};
use std::rt::Files;
use std::time::{CpuClock, Duration};
use task::Task;
use texts::Script;

/// The usage of the editor's tasks. An error's text has no room for a longer one.
const USAGE: &str = "usage: bench [--time] editor [--tables CLASSES BRACKETS MIRRORING \
    [--joining JOINING CHARACTERS]] TASK TEXT BYTES TIMES";

/// What is to be measured besides the task.
#[derive(Clone, Copy)]
pub(crate) struct Measurement {
    /// The kind of the text.
    pub(crate) script: Script,
    /// The least length of the text in bytes.
    pub(crate) bytes: usize,
    /// The number of rounds.
    pub(crate) times: usize,
}

/// The numbers of bytes that all rounds together sent to the terminal and to the store.
#[derive(Clone, Copy)]
pub(crate) struct Traffic {
    pub(crate) sent: usize,
    pub(crate) stored: usize,
}

/// The outcome of a task with a text of `length` bytes. The line depends on all work done, so none of the work can be left out.
fn outcome_of(
    alloc: Global,
    name: &str,
    length: usize,
    traffic: Traffic,
    time: Duration,
    rounds: usize,
) -> Result<Outcome, AllocError> {
    let sent = traffic.sent / rounds.max(1);
    let stored = traffic.stored / rounds.max(1);
    let line = format!(in alloc;
        "{name}: {length} bytes, {rounds} rounds, {sent} bytes sent and {stored} stored a round"
    )?;
    Ok(Outcome { line, time, rounds })
}

/// Carries out the last four words: TASK, TEXT, BYTES and TIMES.
fn measure<R: CpuClock + AllocGlobal>(
    rt: &R,
    files: &UnicodeFiles<Vec<u8>>,
    words: &[String],
) -> Result<Outcome> {
    let [task, script, bytes, times] = words else {
        bail!("{USAGE}");
    };
    let wanted = Measurement {
        script: Script::named(script.as_str())
            .context("TEXT is ascii, hebrew, mixed or paragraph")
            .context(USAGE)?,
        bytes: number(bytes)?,
        times: number(times)?,
    };
    let name = format!(in rt.alloc(); "{task} {script}")?;
    if task.as_str() == "opening" {
        return openings::run(rt, files, wanted, name.as_str());
    }
    let task = Task::named(task.as_str())
        .context("TASK is opening, letter, erasure, move, page, down, resize, save or repaint")
        .context(USAGE)?;
    rounds::run(rt, files, task, wanted, name.as_str())
}

/// Carries out the words after --tables and its files.
fn measure_joined<R: Files + CpuClock + AllocGlobal>(
    rt: &R,
    mut files: UnicodeFiles<Vec<u8>>,
    words: &[String],
) -> Result<Outcome> {
    match words {
        [option, joining, characters, rest @ ..] if option.as_str() == "--joining" => {
            files.joining = Some(table_files::read_joining(
                rt,
                joining.as_str(),
                characters.as_str(),
            )?);
            measure(rt, &files, rest)
        }
        all => measure(rt, &files, all),
    }
}

/// Carries out the words after `editor`.
pub(crate) fn run<R: Files + CpuClock + AllocGlobal>(rt: &R, words: &[String]) -> Result<Outcome> {
    match words {
        [option, classes, brackets, mirroring, rest @ ..] if option.as_str() == "--tables" => {
            let files = table_files::read(
                rt,
                classes.as_str(),
                brackets.as_str(),
                mirroring.as_str(),
            )?;
            measure_joined(rt, files, rest)
        }
        all => measure(rt, &table_files::small(rt.alloc())?, all),
    }
}

/// Reads the tables from the files, `words[0]` times.
pub(crate) fn read_tables<R: Files + CpuClock + AllocGlobal>(
    rt: &R,
    words: &[String],
) -> Result<Outcome> {
    let [times, classes, brackets, mirroring, joining @ ..] = words else {
        bail!("usage: bench [--time] tables TIMES CLASSES BRACKETS MIRRORING [JOINING CHARACTERS]");
    };
    let mut files = table_files::read(rt, classes.as_str(), brackets.as_str(), mirroring.as_str())?;
    if let [joining, characters] = joining {
        files.joining = Some(table_files::read_joining(rt, joining.as_str(), characters.as_str())?);
    }
    let rounds = number(times)?;
    let start = rt.thread_cpu_time()?;
    for _ in 0..rounds {
        files.tables(rt.alloc())?;
    }
    let time = rt.thread_cpu_time()?.saturating_sub(start);
    let line = format!(in rt.alloc(); "tables read {rounds} times")?;
    Ok(Outcome { line, time, rounds })
}
