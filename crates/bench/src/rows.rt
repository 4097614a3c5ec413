//! The rows of a paragraph in a window of 80 columns: TASK TEXT LETTERS TIMES. TASK is `resolved` (lays out the paragraph),
//! `page` (draws each row of a laid-out paragraph) or `slots` (finds the slots of each row), and TEXT is `ascii`, `hebrew` or
//! `mixed`.

ghost use Rattle.bx_paragraph.specs.Layout.{IsLayoutBy};

use crate::outcome::{Outcome, number};
use crate::texts::repeated;
use anyhow::{Result, bail};
use bx_common::Base;
use bx_paragraph::{LayoutRowRef, ParagraphLayout};
use bx_ucd::{BidiData, sample_tables};
use std::alloc::Global;
use std::time::CpuClock;

/// The words that the named text repeats. Any other name gives the words of `ascii`.
fn words_of(name: &str) -> &'static str {
    if name == "hebrew" {
        "\u{5e9}\u{5dc}\u{5d5}\u{5dd} \u{5e2}\u{5d5}\u{5dc}\u{5dd} "
    } else if name == "mixed" {
        "\u{5e9}\u{5dc}\u{5d5}\u{5dd} the old (\u{5e2}\u{5d5}\u{5dc}\u{5dd}) 12 "
    } else {
        "the old man and the sea "
    }
}

/// Draws all rows, or finds their slots. Returns the number of glyphs or slots.
fn each_row<D: BidiData>(layout: &ParagraphLayout, tables: &D, are_drawn: bool) -> Result<usize>
    requires { IsLayoutBy (D.data tables.now) layout.now }
{
    let mut count: usize = 0;
    for number in 0..layout.row_count() {
        let row = LayoutRowRef {
            paragraph: layout,
            tables,
            number,
            start: 0,
        };
        count = count.wrapping_add(if are_drawn {
            row.picture()?.glyphs.len()
        } else {
            row.slots()?.len()
        });
    }
    Ok(count)
}

/// Runs a task once; other words than `page` and `slots` count as `resolved`. Returns the number of glyphs, slots or rows.
fn once<D: BidiData>(
    alloc: Global,
    task: &str,
    layout: &ParagraphLayout,
    tables: &D,
) -> Result<usize>
    requires { IsLayoutBy (D.data tables.now) layout.now }
{
    if task == "page" || task == "slots" {
        return each_row(layout, tables, task == "page");
    }
    let body = layout.body().to_owned(alloc)?;
    let again = ParagraphLayout::of(alloc, body, tables, 80, layout.base())?;
    Ok(again.row_count())
}

/// Measures a task run `times` times. Reports the sum of its results.
fn rounds<R: CpuClock + AllocGlobal, D: BidiData>(
    rt: &R,
    task: &str,
    layout: &ParagraphLayout,
    tables: &D,
    times: usize,
) -> Result<Outcome>
    requires { IsLayoutBy (D.data tables.now) layout.now }
{
    let start = rt.thread_cpu_time()?;
    let mut sum: u64 = 0;
    for _ in 0..times {
        sum = sum.wrapping_add(once(rt.alloc(), task, layout, tables)? as u64);
    }
    Outcome::since(rt, start, sum)
}

/// Carries out the words.
pub(crate) fn run<R: CpuClock + AllocGlobal>(rt: &R, words: &[String]) -> Result<Outcome> {
    let [task, text, count, times] = words else {
        bail!("usage: bench rows TASK TEXT LETTERS TIMES");
    };
    let times = number(times)?;
    let body = repeated(rt.alloc(), words_of(text.as_str()), number(count)?)?;
    let tables = sample_tables(rt.alloc())?;
    let layout = ParagraphLayout::of(rt.alloc(), body, &tables, 80, Base::Auto)?;
    rounds(rt, task.as_str(), &layout, &tables, times)
}
