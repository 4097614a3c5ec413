//! Units and rows of a text in lines: TASK TEXT BYTES TIMES, in a window of 80 columns, with the tasks of `named` and the texts
//! of `words_of`. Each task includes splitting the text into lines.

use crate::outcome::{Outcome, number};
use anyhow::{Context, Result, bail};
use bx_rows::{face, row_starts, units};
use bx_rows_laws::{has_one_row, wrap};
use bx_ucd::{Tables, sample_tables};
use std::alloc::{AllocError, Global};
use std::time::CpuClock;
use unicode_segmentation::UnicodeSegmentation;

/// The window's width in columns.
const WIDTH: u16 = 80;

/// Number of characters by which a line exceeds its minimum length; of `ascii` one line in eight is wider than the window.
const TURNS: [usize; 8] = [0, 4, 1, 5, 3, 20, 2, 6];

/// The words that a text repeats, and one less than the minimum length of its lines, in characters.
fn words_of(name: &str) -> Option<(&'static str, usize)> {
    Some(match name {
        "ascii" => (
            "The old man, who had 12 books (and no more), went to the sea. ",
            70,
        ),
        "emoji" => (
            "The old man, who had 12 books (and no more), went to the sea, and came back in the evening \
            of the third day, which was a Thursday; nobody asked him where he had been, nor did he \
            tell anyone but us. \u{1f600} ",
            70,
        ),
        "mixed" => (
            "שלום לכל the readers, והנה עוד 12 ספרים (books) אשר with a word נקראו היום. ",
            70,
        ),
        "hebrew" => ("שלום לכל הקוראים, והנה עוד מעט ספרים אשר נקראו היום. ", 70),
        "arabic" => (
            "السلام عليكم، هذا كتاب آخر من الكتب التي قرأناها اليوم. ",
            70,
        ),
        "points" => (
            "בְּרֵאשִׁית בָּרָא אֱלֹהִים אֵת הַשָּׁמַיִם וְאֵת הָאָרֶץ׃ ",
            124,
        ),
        "cjk" => ("私は昨日友達と一緒に図書館へ行きました。天地玄黃宇宙洪荒、日月盈昃。", 35),
        "hindi" => (
            "सभी मनुष्यों को गौरव और अधिकारों के मामले में जन्मजात स्वतन्त्रता और समानता प्राप्त है। ",
            100,
        ),
        "hangul" => ("모든 인간은 태어날 때부터 자유로우며 그 존엄과 권리에 있어 동등하다. ", 42),
        "tabs" => ("name\tvalue\tand a third\t12\t", 40),
        _ => return None,
    })
}

/// A text of at least `bytes` bytes, in lines of more than `least` characters.
fn text(alloc: Global, words: &str, least: usize, bytes: usize) -> Result<String, AllocError> {
    let mut text = String::new(alloc);
    let mut line: usize = 0;
    let mut left = least;
    for _ in 0..bytes {
        if text.len() >= bytes {
            break;
        }
        for c in words.chars() {
            text.push(c)?;
            if left == 0 {
                text.push('\n')?;
                line = line.wrapping_add(1);
                left = least.saturating_add(TURNS[line % 8]);
            } else {
                left -= 1;
            }
        }
    }
    Ok(text)
}

/// The text with this name, of at least `bytes` bytes, in lines.
pub(crate) fn text_of(alloc: Global, name: &str, bytes: usize) -> Result<String> {
    let (words, least) = words_of(name).context("no such text")?;
    Ok(text(alloc, words, least, bytes)?)
}

/// The work done with each line.
#[derive(Clone, Copy)]
enum Task {
    /// Nothing.
    Split,
    /// The clusters of `unicode_segmentation`'s iterator, each with its face.
    Iterator,
    /// The units of the line.
    Units,
    /// The units, and the rows that they make.
    Wrap,
    /// Where the rows start.
    RowStarts,
    /// Whether the line has one row.
    HasOneRow,
}

impl Task {
    /// The task with this name.
    fn named(word: &str) -> Option<Task> {
        if word == "split" {
            Some(Task::Split)
        } else if word == "iterator" {
            Some(Task::Iterator)
        } else if word == "units" {
            Some(Task::Units)
        } else if word == "wrap" {
            Some(Task::Wrap)
        } else if word == "row_starts" {
            Some(Task::RowStarts)
        } else if word == "has_one_row" {
            Some(Task::HasOneRow)
        } else {
            None
        }
    }
}

/// Runs a task on a line. Returns the number of bytes, units or rows, or 1 if the line has one row.
fn once(alloc: Global, task: Task, line: &str, tables: &Tables) -> Result<usize> {
    match task {
        Task::Split => Ok(line.len()),
        Task::Iterator => {
            let mut count: usize = 0;
            for cluster in line.graphemes(true) {
                let shown = face(cluster, tables, WIDTH);
                // a tab counts twice, so that the result depends on each face
                count = count.wrapping_add(if shown == bx_rows::Face::Tab { 2 } else { 1 });
            }
            Ok(count)
        }
        Task::Units => Ok(units(alloc, line, tables, WIDTH)?.len()),
        Task::Wrap => {
            let units = units(alloc, line, tables, WIDTH)?;
            Ok(wrap(alloc, line, &units, tables, WIDTH)?.len())
        }
        Task::RowStarts => Ok(row_starts(alloc, line, tables, WIDTH)?.len()),
        Task::HasOneRow => Ok(usize::from(has_one_row(line, WIDTH))),
    }
}

/// Runs a task on all lines of a text, `times` times. Returns the sum of its results.
fn sum(alloc: Global, task: Task, text: &str, tables: &Tables, times: usize) -> Result<u64> {
    let mut sum: u64 = 0;
    for _ in 0..times {
        for line in text.split('\n') {
            sum = sum.wrapping_add(once(alloc, task, line, tables)? as u64);
        }
    }
    Ok(sum)
}

/// Measures a task. Reports the number of bytes, units or rows in all.
fn outcome_of<R: CpuClock + AllocGlobal>(
    rt: &R,
    task: Task,
    text: &str,
    tables: &Tables,
    times: usize,
) -> Result<Outcome> {
    let start = rt.thread_cpu_time()?;
    let sum = sum(rt.alloc(), task, text, tables, times)?;
    Outcome::since(rt, start, sum)
}

/// Carries out the words.
pub(crate) fn run<R: CpuClock + AllocGlobal>(rt: &R, words: &[String]) -> Result<Outcome> {
    let [task, text_name, bytes, times] = words else {
        bail!("usage: bench units TASK TEXT BYTES TIMES");
    };
    let task = Task::named(task.as_str()).context("no such task")?;
    let times = number(times)?;
    let text = text_of(rt.alloc(), text_name.as_str(), number(bytes)?)?;
    let tables = sample_tables(rt.alloc())?;
    outcome_of(rt, task, text.as_str(), &tables, times)
}
