//! The tasks done by keys: rounds in the middle of a text, all in one session.

use crate::editor::task::Task;
use crate::editor::typist::Typist;
use crate::editor::{Measurement, Traffic, outcome_of};
use crate::outcome::Outcome;
use anyhow::Result;
use bx_command::UnicodeFiles;
use std::time::{CpuClock, Duration};

/// Goes to the middle of a text of `length` bytes and runs the task `wanted.times` times. Returns their processor time.
fn rounds<R: CpuClock>(
    rt: &R,
    typist: &mut Typist,
    task: Task,
    wanted: Measurement,
    length: usize,
) -> Result<Duration> {
    typist.go_to_middle(length)?;
    let start = rt.thread_cpu_time()?;
    for round in 0..wanted.times {
        task.press(typist, wanted.script, round)?;
    }
    let end = rt.thread_cpu_time()?;
    Ok(end.saturating_sub(start))
}

/// The traffic and the time of a task's rounds.
fn measure<R: CpuClock + AllocGlobal>(
    rt: &R,
    files: &UnicodeFiles<Vec<u8>>,
    task: Task,
    wanted: Measurement,
    text: String,
) -> Result<(Traffic, Duration)> {
    let length = text.len();
    let tables = files.tables(rt.alloc())?;
    let mut typist = Typist::open(text.into_bytes(), tables)?;
    let time = rounds(rt, &mut typist, task, wanted, length);
    let traffic = typist.traffic();
    time.map(|time| (traffic, time))
}

/// Measures a task, `wanted.times` times.
pub(crate) fn run<R: CpuClock + AllocGlobal>(
    rt: &R,
    files: &UnicodeFiles<Vec<u8>>,
    task: Task,
    wanted: Measurement,
    name: &str,
) -> Result<Outcome> {
    let text = wanted.script.text(rt.alloc(), wanted.bytes)?;
    let length = text.len();
    let (traffic, time) = measure(rt, files, task, wanted, text)?;
    Ok(outcome_of(rt.alloc(), name, length, traffic, time, wanted.times)?)
}
