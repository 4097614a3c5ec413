//! The index of paragraphs: the time of building it, and of following edits.
//!
//! TASK BYTES LINE [EDITS]. The text has BYTES bytes, in lines of LINE bytes. TASK is `build` (of the index), `walk` (over all
//! paragraphs and back), or EDITS times `edit` (a line feed is inserted in the text's middle) or `restore` (the whole text is
//! removed and that undone).

ghost use Rattle.std.specs.Prelude.{◌≡◌, OnOk};
ghost use Rattle.bx_text.specs.index.Paragraphs.{lengths};

use crate::outcome::{Outcome, number};
use anyhow::{Context, Result, bail};
use bx_text::{Index, Text};
use bx_ucd::{BidiData, sample_tables};
use std::alloc::Global;
use std::time::{CpuClock, Duration};

/// A text of `bytes` bytes, in lines of `line` bytes.
fn lines(alloc: Global, bytes: usize, line: usize) -> Result<String> {
    let mut text = String::with_capacity(alloc, bytes)?;
    for at in 0..bytes {
        if line > 0 && at % line == line - 1 {
            text.push('\n')?;
        } else {
            text.push('x')?;
        }
    }
    Ok(text)
}

/// Inserts a line feed in the middle of a text, and updates the index.
fn edit<D: BidiData>(text: &mut Text, index: &mut Index, tables: &D) -> Result<()>
    requires { index.old.paragraphs ≡ lengths (D.data tables.now) text.old.edited.text }
    ensures { OnOk result (index.new.paragraphs ≡ lengths (D.data tables.now) text.new.edited.text) }
{
    let len = text.len();
    let at = len / 2;
    index.ready(1)?;
    let put = text.insert(at, "\n", at, at)?;
    // `len` promises that the text is UTF-8.
    let _still = text.len();
    index.edited(text, tables, &put);
    Ok(())
}

/// Removes the whole text, and updates the index.
fn clear<D: BidiData>(text: &mut Text, index: &mut Index, tables: &D) -> Result<()>
    requires { index.old.paragraphs ≡ lengths (D.data tables.now) text.old.edited.text }
    ensures { OnOk result (index.new.paragraphs ≡ lengths (D.data tables.now) text.new.edited.text) }
{
    let len = text.len();
    index.ready(0)?;
    let change = text.remove(0, len, 0, 0)?;
    // `len` promises that the text is UTF-8.
    let _still = text.len();
    index.edited(text, tables, &change);
    Ok(())
}

/// Undoes the latest edit, and updates the index.
fn take_back<D: BidiData>(text: &mut Text, index: &mut Index, tables: &D) -> Result<()>
    requires { index.old.paragraphs ≡ lengths (D.data tables.now) text.old.edited.text }
    ensures { OnOk result (index.new.paragraphs ≡ lengths (D.data tables.now) text.new.edited.text) }
{
    // reserves before the index does, so that the index frees memory at the heap's end
    text.ready(0)?;
    // `len` promises that the text is UTF-8.
    let _utf8 = text.len();
    let Some(next) = text.next_undo() else {
        return Ok(());
    };
    index.ready(next.added)?;
    if let Some(change) = text.undo()? {
        // `len` promises that the text is UTF-8.
        let _still = text.len();
        index.edited(text, tables, &change);
    }
    Ok(())
}

/// Removes the whole text and undoes that, with the index following.
fn restore<D: BidiData>(text: &mut Text, index: &mut Index, tables: &D) -> Result<()>
    requires { index.old.paragraphs ≡ lengths (D.data tables.now) text.old.edited.text }
    ensures { OnOk result (index.new.paragraphs ≡ lengths (D.data tables.now) text.new.edited.text) }
{
    clear(text, index, tables)?;
    take_back(text, index, tables)
}

/// The work measured after the index is built.
#[derive(Clone, Copy)]
enum Task {
    /// Nothing more: the building itself is measured.
    Build,
    /// A line feed is inserted this number of times.
    Edit(usize),
    /// The text is removed and that undone this number of times.
    Restore(usize),
    /// A walk over all paragraphs and back.
    Walk,
}

/// Walks over all paragraphs and back to the first. Returns their number.
fn walk(index: &Index) -> usize {
    let mut seen: usize = 1;
    let mut walk = index.walk_at_offset(0);
    for _ in 0..index.count() {
        let span = walk.span();
        if span.start <= span.stop && walk.to_next() {
            seen = seen.saturating_add(1);
        }
    }
    for _ in 0..index.count() {
        walk.to_previous();
    }
    seen.saturating_sub(walk.number())
}

/// Runs a task over a built index. Returns the final number of paragraphs, or the number walked over.
fn follow<D: BidiData>(text: &mut Text, index: &mut Index, tables: &D, task: Task) -> Result<usize>
    requires { index.old.paragraphs ≡ lengths (D.data tables.now) text.old.edited.text }
{
    match task {
        Task::Build => {}
        Task::Edit(edits) => {
            for _ in 0..edits {
                edit(text, index, tables)?;
            }
        }
        Task::Restore(edits) => {
            for _ in 0..edits {
                restore(text, index, tables)?;
            }
        }
        Task::Walk => return Ok(walk(index)),
    }
    Ok(index.count())
}

/// The number of paragraphs, and the times after building the index and at the end.
fn time_task<R: CpuClock, D: BidiData>(
    rt: &R,
    text: &mut Text,
    index: &mut Index,
    tables: &D,
    task: Task,
) -> Result<(usize, Duration, Duration)>
    requires { index.old.paragraphs ≡ lengths (D.data tables.now) text.old.edited.text }
{
    let built = rt.thread_cpu_time()?;
    let count = follow(text, index, tables, task)?;
    let end = rt.thread_cpu_time()?;
    Ok((count, built, end))
}

/// The number of paragraphs, and the time of building the index or of the work after that.
fn measure<R: CpuClock + AllocGlobal>(
    rt: &R,
    text: &mut Text,
    task: Task,
) -> Result<(usize, Duration)> {
    let tables = sample_tables(rt.alloc())?;
    let start = rt.thread_cpu_time()?;
    let mut index = Index::build(rt.alloc(), text, &tables)?;
    let timed = time_task(rt, text, &mut index, &tables, task);
    timed.map(|(count, built, end)| match task {
        Task::Build => (count, built.saturating_sub(start)),
        _ => (count, end.saturating_sub(built)),
    })
}

/// The task with this name; some take a number of edits.
fn task_of(name: &str, edits: Option<usize>) -> Option<Task> {
    match edits {
        None if name == "build" => Some(Task::Build),
        None if name == "walk" => Some(Task::Walk),
        Some(edits) if name == "edit" => Some(Task::Edit(edits)),
        Some(edits) if name == "restore" => Some(Task::Restore(edits)),
        _ => None,
    }
}

/// Parses the task, and the text's length and line length.
fn parse(words: &[String]) -> Result<(Task, usize, usize)> {
    let (name, bytes, line, edits) = match words {
        [name, bytes, line] => (name, bytes, line, None),
        [name, bytes, line, edits] => (name, bytes, line, Some(number(edits)?)),
        _ => bail!("usage: bench paragraphs build|edit|restore|walk BYTES LINE [EDITS]"),
    };
    let task = task_of(name.as_str(), edits).context("what to measure")?;
    Ok((task, number(bytes)?, number(line)?))
}

/// Measures a task over a text. Reports the number of paragraphs.
fn outcome_of<R: CpuClock + AllocGlobal>(rt: &R, text: &mut Text, task: Task) -> Result<Outcome> {
    let (count, time) = measure(rt, text, task)?;
    let line = format!(in rt.alloc(); "{count} paragraphs")?;
    Ok(Outcome {
        line,
        time,
        rounds: 1,
    })
}

/// Carries out the words. Reports the number of paragraphs.
pub(crate) fn run<R: CpuClock + AllocGlobal>(rt: &R, words: &[String]) -> Result<Outcome> {
    let (task, bytes, line) = parse(words)?;
    let mut text = Text::open(rt.alloc(), lines(rt.alloc(), bytes, line)?)?;
    outcome_of(rt, &mut text, task)
}
