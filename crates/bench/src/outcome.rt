//! The result of a measurement.

use anyhow::{Context, Result};
use std::time::{CpuClock, Duration};

/// A line that depends on all work done, and the processor time of the measured part.
#[derive(Drop)]
pub(crate) struct Outcome {
    pub(crate) line: String,
    pub(crate) time: Duration,
    /// The rounds that took the time; 1 where a layer does all as one.
    pub(crate) rounds: usize,
}

impl Outcome {
    /// The outcome of work that began at `start`: the sum of its results, and its time.
    pub(crate) fn since<R: CpuClock + AllocGlobal>(
        rt: &R,
        start: Duration,
        sum: u64,
    ) -> Result<Outcome> {
        let end = rt.thread_cpu_time()?;
        Ok(Outcome {
            line: format!(in rt.alloc(); "{sum}")?,
            time: end.saturating_sub(start),
            rounds: 1,
        })
    }

    /// The processor time of a round, in nanoseconds.
    pub(crate) fn nanos_a_round(&self) -> u128 {
        self.time.as_nanos() / u128::from(self.rounds.max(1) as u64)
    }
}

/// Parses a number.
pub(crate) fn number(word: &String) -> Result<usize> {
    word.as_str().parse::<usize>().context("a number is wanted")
}
