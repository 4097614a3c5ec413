//! The task `opening`: a text is opened and its first picture is painted.

use crate::editor::typist::Typist;
use crate::editor::{Measurement, Traffic, outcome_of};
use crate::outcome::Outcome;
use anyhow::Result;
use bx_command::UnicodeFiles;
use std::time::{CpuClock, Duration};

/// Opens a copy of a text. Returns the number of bytes sent and the time, without the copy, the tables and the closing.
fn once<R: CpuClock + AllocGlobal>(
    rt: &R,
    files: &UnicodeFiles<Vec<u8>>,
    text: &str,
) -> Result<(usize, Duration)> {
    let copy = String::from_str(rt.alloc(), text)?.into_bytes();
    let tables = files.tables(rt.alloc())?;
    let start = rt.thread_cpu_time()?;
    let typist = Typist::open(copy, tables)?;
    let end = rt.thread_cpu_time();
    let sent = typist.traffic().sent;
    // closed before `?`, so that a single exit closes it
    drop(typist);
    Ok((sent, end?.saturating_sub(start)))
}

/// Measures the opening of a text, `wanted.times` times, each time in a new session.
pub(crate) fn run<R: CpuClock + AllocGlobal>(
    rt: &R,
    files: &UnicodeFiles<Vec<u8>>,
    wanted: Measurement,
    name: &str,
) -> Result<Outcome> {
    let text = wanted.script.text(rt.alloc(), wanted.bytes)?;
    let mut traffic = Traffic { sent: 0, stored: 0 };
    let mut time = Duration::ZERO;
    for _ in 0..wanted.times {
        let (sent, taken) = once(rt, files, text.as_str())?;
        traffic.sent = traffic.sent.wrapping_add(sent);
        time = time.saturating_add(taken);
    }
    Ok(outcome_of(rt.alloc(), name, text.len(), traffic, time, wanted.times)?)
}
