//! Edits of a text: the processor time of the last thousand, of undoing them, of opening and of copying: TASK BYTES [EDITS],
//! with the tasks of `run` and the offsets of `from_word`. A turn is the number of an edit, from 0.
//!
//! The edits insert or remove one byte at scattered offsets, type letters one after another, or insert each before all others.
//! In `turning`, a letter goes to the next multiple of the golden ratio, as a fraction of the text's length. In `ranked`, its
//! offset is the number of earlier turns with a smaller multiple. Both orders make a tree deep if it is balanced by those
//! multiples.

ghost use Rattle.std.specs.Prelude.{◌≤◌};

use crate::outcome::{Outcome, number};
use anyhow::{Context, Result, bail};
use bx_text::Text;
use std::alloc::Global;
use std::time::{CpuClock, Duration};

/// Number of edits measured.
const MEASURED: usize = 1000;

/// A text of `bytes` bytes, in lines.
fn lines(alloc: Global, bytes: usize) -> Result<String> {
    let line = "0123456789 abcdefghijklmnopqrstuvwxyz and a word or two more.\n";
    let mut text = String::with_capacity(alloc, bytes)?;
    for _ in 0..bytes / line.len() {
        text.push_str(line)?;
    }
    for _ in text.len()..bytes {
        text.push('.')?;
    }
    Ok(text)
}

/// An offset in a text of `len` bytes, far from the one before: the factor is 2^64 divided by the golden ratio.
fn scattered(turn: usize, len: usize) -> usize
    ensures { result ≤ len }
{
    turn.wrapping_mul(0x9E37_79B9_7F4A_7C15) % (len.min(usize::MAX - 1) + 1)
}

/// The fraction of a multiple of the golden ratio, in units of 2^-32: the factor is a prime near 2^32 divided by that ratio.
fn multiple(turn: usize) -> u64 {
    (turn as u64).wrapping_mul(0x9E37_79B1) % 0x1_0000_0000
}

/// The offset of a turn's multiple of the golden ratio, as a fraction of a text of `len` bytes.
pub(crate) fn turning(turn: usize, len: usize) -> usize {
    (multiple(turn).wrapping_mul((len as u64).wrapping_add(1)) >> 32) as usize
}

/// For each turn, the number of earlier turns with a smaller multiple.
fn ranks(alloc: Global, turns: usize) -> Result<Vec<usize>> {
    let mut sorted = Vec::<u64>::with_capacity(alloc, turns)?;
    let mut ranks = Vec::with_capacity(alloc, turns)?;
    for turn in 0..turns {
        let next = multiple(turn.wrapping_add(1));
        let rank = sorted.partition_point(|before| *before < next);
        sorted.insert(rank, next)?;
        ranks.push(rank)?;
    }
    Ok(ranks)
}

/// Makes the edit of a turn at a scattered offset; every third one removes a byte.
fn scatter(text: &mut Text, turn: usize) -> Result<()> {
    let at = scattered(turn, text.len());
    if turn % 3 == 2 && at < text.len() {
        text.remove(at, at + 1, at, at)?;
    } else {
        text.insert(at, "x", at, at)?;
    }
    Ok(())
}

/// Inserts a letter at an offset.
fn write_at(text: &mut Text, at: usize) -> Result<()> {
    text.insert(at, "x", at, at.wrapping_add(1))?;
    Ok(())
}

/// The offsets of the edits.
#[derive(Clone, Copy, PartialEq)]
enum Offsets {
    /// Far from the one before, by `scattered`.
    Scattered,
    /// After the previous edit.
    Typing,
    /// Before all letters.
    Backwards,
    /// At the next multiple of the golden ratio.
    Turning,
    /// At the turn's rank among the multiples.
    Ranked,
}

impl Offsets {
    /// The offsets with this name.
    fn from_word(word: &str) -> Option<Offsets> {
        if word == "scattered" {
            Some(Offsets::Scattered)
        } else if word == "typing" {
            Some(Offsets::Typing)
        } else if word == "backwards" {
            Some(Offsets::Backwards)
        } else if word == "turning" {
            Some(Offsets::Turning)
        } else if word == "ranked" {
            Some(Offsets::Ranked)
        } else {
            None
        }
    }
}

/// The edits to make.
#[derive(Drop)]
struct Edits {
    /// Where they are.
    offsets: Offsets,
    /// The offset at which typing begins.
    middle: usize,
    /// The rank of each turn, for `Ranked`.
    ranks: Vec<usize>,
}

impl Edits {
    /// The edits of `turns` turns, of a text of `bytes` bytes.
    fn new(alloc: Global, offsets: Offsets, bytes: usize, turns: usize) -> Result<Edits> {
        let ranks = match offsets {
            Offsets::Ranked => ranks(alloc, turns)?,
            _ => Vec::new(alloc),
        };
        Ok(Edits {
            offsets,
            middle: bytes / 2,
            ranks,
        })
    }

    /// Makes the edits of the turns `from..to`.
    fn make(&self, text: &mut Text, from: usize, to: usize) -> Result<()> {
        for turn in from..to {
            match self.offsets {
                Offsets::Scattered => scatter(text, turn)?,
                Offsets::Typing => write_at(text, self.middle.wrapping_add(turn))?,
                Offsets::Backwards => write_at(text, 0)?,
                Offsets::Turning => write_at(text, turning(turn, text.len()))?,
                Offsets::Ranked => {
                    let rank = self.ranks.get(turn).context("a turn without a rank")?;
                    write_at(text, *rank)?
                }
            }
        }
        Ok(())
    }
}

/// Opens a text without edits.
fn fresh<R: AllocGlobal>(rt: &R, bytes: usize) -> Result<Text> {
    Ok(Text::open(rt.alloc(), lines(rt.alloc(), bytes)?)?)
}

/// Makes edits and returns the time of the last ones.
fn time_edits<R: CpuClock>(
    rt: &R,
    text: &mut Text,
    edits: &Edits,
    turns: usize,
) -> Result<Duration> {
    let unmeasured = turns.saturating_sub(MEASURED);
    edits.make(text, 0, unmeasured)?;
    let start = rt.thread_cpu_time()?;
    edits.make(text, unmeasured, turns)?;
    let end = rt.thread_cpu_time()?;
    Ok(end.saturating_sub(start))
}

/// Makes edits and returns the time of undoing the last ones.
fn time_undoing<R: CpuClock>(
    rt: &R,
    text: &mut Text,
    edits: &Edits,
    turns: usize,
) -> Result<Duration> {
    edits.make(text, 0, turns)?;
    let start = rt.thread_cpu_time()?;
    for _ in 0..MEASURED {
        text.undo()?;
    }
    let end = rt.thread_cpu_time()?;
    Ok(end.saturating_sub(start))
}

/// Makes edits, undoes all of them, and returns the time of one more edit.
fn time_forgetting<R: CpuClock>(
    rt: &R,
    text: &mut Text,
    edits: &Edits,
    turns: usize,
) -> Result<Duration> {
    edits.make(text, 0, turns)?;
    for _ in 0..turns {
        text.undo()?;
    }
    let start = rt.thread_cpu_time()?;
    write_at(text, 0)?;
    let end = rt.thread_cpu_time()?;
    Ok(end.saturating_sub(start))
}

/// Makes edits and returns the time of copying the whole text.
fn time_copy<R: CpuClock>(
    rt: &R,
    text: &mut Text,
    edits: &Edits,
    turns: usize,
) -> Result<Duration> {
    edits.make(text, 0, turns)?;
    let start = rt.thread_cpu_time()?;
    let _copy = text.copy_range(0, text.len())?;
    let end = rt.thread_cpu_time()?;
    Ok(end.saturating_sub(start))
}

/// The measured work.
#[derive(Clone, Copy)]
enum Task {
    /// The last edits.
    Edit,
    /// Undoing the last edits.
    Undo,
    /// A copy of the whole text.
    Copy,
    /// An edit after all others were undone.
    Forget,
}

/// The task of a word, and the offsets of its edits.
fn task_of(word: &str) -> Result<(Task, Offsets)> {
    if word == "undo" {
        Ok((Task::Undo, Offsets::Scattered))
    } else if word == "unturn" {
        Ok((Task::Undo, Offsets::Turning))
    } else if word == "unrank" {
        Ok((Task::Undo, Offsets::Ranked))
    } else if word == "copy" {
        Ok((Task::Copy, Offsets::Scattered))
    } else if word == "forget" {
        Ok((Task::Forget, Offsets::Scattered))
    } else {
        let offsets = Offsets::from_word(word).context("what to measure")?;
        Ok((Task::Edit, offsets))
    }
}

/// Runs a task and reports the text's final size.
fn outcome_of<R: CpuClock + AllocGlobal>(
    rt: &R,
    task: Task,
    text: &mut Text,
    edits: &Edits,
    turns: usize,
) -> Result<Outcome> {
    let time = match task {
        Task::Edit => time_edits(rt, text, edits, turns)?,
        Task::Undo => time_undoing(rt, text, edits, turns)?,
        Task::Copy => time_copy(rt, text, edits, turns)?,
        Task::Forget => time_forgetting(rt, text, edits, turns)?,
    };
    report(rt, text, time)
}

/// Reports a text's bytes and pieces.
fn report<R: AllocGlobal>(rt: &R, text: &Text, time: Duration) -> Result<Outcome> {
    let bytes = text.len();
    let pieces = text.pieces().count();
    let line = format!(in rt.alloc(); "{bytes} bytes in {pieces} pieces")?;
    Ok(Outcome {
        line,
        time,
        rounds: 1,
    })
}

/// Runs a task with `turns` edits of a text of `bytes` bytes.
fn measure_edits<R: CpuClock + AllocGlobal>(
    rt: &R,
    name: &str,
    bytes: usize,
    turns: usize,
) -> Result<Outcome> {
    let (task, offsets) = task_of(name)?;
    let edits = Edits::new(rt.alloc(), offsets, bytes, turns)?;
    let mut text = fresh(rt, bytes)?;
    outcome_of(rt, task, &mut text, &edits, turns)
}

/// Measures opening a text of `bytes` bytes.
fn measure_opening<R: CpuClock + AllocGlobal>(rt: &R, bytes: usize) -> Result<Outcome> {
    let lines = lines(rt.alloc(), bytes)?;
    let start = rt.thread_cpu_time()?;
    let text = Text::open(rt.alloc(), lines)?;
    report_since(rt, &text, start)
}

/// Reports a text's bytes and pieces, and the time since `start`.
fn report_since<R: CpuClock + AllocGlobal>(
    rt: &R,
    text: &Text,
    start: Duration,
) -> Result<Outcome> {
    let end = rt.thread_cpu_time()?;
    report(rt, text, end.saturating_sub(start))
}

/// Carries out the words: measures opening the text, the last thousand edits, undoing the last thousand (`undo`, `unturn`,
/// `unrank`), copying the whole text after scattered edits, or the first edit after all scattered ones were undone (`forget`).
/// Reports the text's bytes and pieces.
pub(crate) fn run<R: CpuClock + AllocGlobal>(rt: &R, words: &[String]) -> Result<Outcome> {
    match words {
        [open, bytes] if open.as_str() == "open" => measure_opening(rt, number(bytes)?),
        [name, bytes, turns] => measure_edits(rt, name.as_str(), number(bytes)?, number(turns)?),
        _ => bail!("usage: bench text TASK BYTES [EDITS]"),
    }
}
