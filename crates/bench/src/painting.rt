//! Painting of pictures of 24 rows and 80 columns: TASK TEXT TIMES. TASK is `changes` (two pictures that differ in one glyph),
//! `same` (two equal ones), `whole`, `read` (a screen reads a whole painting), `picture` (makes a picture) or `blank` (makes a
//! blank grid). TEXT is `ascii`, `hebrew`, `arabic`, `wide` or `marked`.

ghost use Rattle.std.specs.Prelude.{◌≡◌, ◌≤◌, true, IfOk};
ghost use Rattle.bx_common.specs.Glyphs.{is_one_glyph, run_width};

use crate::glyphs::{Glyph, Script};
use crate::outcome::{Outcome, number};
use anyhow::{Context, Result, bail};
use bx_grid::{Cell, Grid, Picture};
use bx_paint::{changes, whole};
use bx_terminal::Screen;
use std::alloc::Global;
use std::time::CpuClock;

/// Puts a glyph at a cell.
///
/// Errors: the cell is outside the grid, or has no room for the glyph; `OutOfMemory`.
fn put_glyph(grid: &mut Grid, cell: Cell, glyph: Glyph, negative: bool) -> Result<()>
    requires glyph { is_one_glyph glyph.text.now ≡ true }
    requires counted { glyph.columns ≡ run_width glyph.text.now }
{
    if cell.line < 1 || cell.line > grid.height() || cell.column < 1 || cell.column > grid.width() {
        bail!("no such cell");
    }
    if !grid.has_room(cell, glyph.columns as usize) {
        bail!("no room for a glyph");
    }
    grid.put_counted(cell, glyph.text, glyph.columns as usize, negative)?;
    Ok(())
}

/// Fills a line of 80 columns with glyphs except for its last six columns, a blank tail. If `marked`, the glyph at column 41,
/// the middle, is another one, and negative.
fn put_line(grid: &mut Grid, script: Script, line: u16, marked: bool) -> Result<()> {
    let mut column = 1;
    while column < 75 {
        let here = marked && column == 41;
        let glyph = Glyph::of(script, here);
        put_glyph(grid, Cell { line, column }, glyph, here)?;
        column += glyph.columns;
    }
    Ok(())
}

/// A picture of 24 rows and 80 columns, full of glyphs except for the last six columns of each row. If `marked`, one glyph, in
/// line 12, the middle, is another one, and negative.
fn full(alloc: Global, script: Script, marked: bool) -> Result<Picture> {
    let mut grid = Grid::blank(alloc, 24, 80)?;
    for line in 1..25 {
        put_line(&mut grid, script, line, marked && line == 12)?;
    }
    if grid.height() < 12 || grid.width() < 41 {
        bail!("no room for the cursor");
    }
    let cursor = Cell {
        line: 12,
        column: 41,
    };
    Ok(Picture::new(grid, cursor))
}

/// Number of bytes that change one picture to another.
fn changes_len(alloc: Global, old: &Picture, new: &Picture) -> Result<usize> {
    let (old_grid, new_grid) = (old.grid(), new.grid());
    if old_grid.height() != new_grid.height() || old_grid.width() != new_grid.width() {
        bail!("the sizes differ");
    }
    Ok(changes(alloc, old, new)?.len())
}

/// The measured work, as the file's head says it.
#[derive(Clone, Copy)]
enum Task {
    Changes,
    Same,
    Whole,
    Read,
    Picture,
    Blank,
}

impl Task {
    /// The task with this name.
    fn named(name: &str) -> Option<Task> {
        if name == "changes" {
            Some(Task::Changes)
        } else if name == "same" {
            Some(Task::Same)
        } else if name == "whole" {
            Some(Task::Whole)
        } else {
            Task::of_grids(name)
        }
    }

    /// The task with this name, among those that paint nothing.
    fn of_grids(name: &str) -> Option<Task> {
        if name == "read" {
            Some(Task::Read)
        } else if name == "picture" {
            Some(Task::Picture)
        } else if name == "blank" {
            Some(Task::Blank)
        } else {
            None
        }
    }
}

/// The values that the tasks work on.
#[derive(Drop)]
struct Work {
    /// What the pictures are filled with.
    script: Script,
    /// The picture without the other glyph.
    old: Picture,
    /// The picture with it.
    new: Picture,
    /// The bytes that paint `new` whole.
    painting: Vec<u8>,
    /// Reads the painting.
    screen: Screen,
}

impl Work {
    /// The pictures of a script, a painting and a screen.
    fn new(alloc: Global, script: Script) -> Result<Work> {
        let old = full(alloc, script, false)?;
        let new = full(alloc, script, true)?;
        let painting = whole(alloc, &new)?;
        let screen = Screen::new(alloc, 24, 80)?;
        Ok(Work {
            script,
            old,
            new,
            painting,
            screen,
        })
    }

    /// Has the screen read the painting. Returns the number of bytes.
    fn read(&mut self) -> Result<usize> {
        self.screen.read(self.painting.as_slice())?;
        Ok(self.painting.len())
    }

    /// Runs a task once. Returns the number of bytes or columns made or read.
    fn once(&mut self, alloc: Global, task: Task) -> Result<usize> {
        match task {
            Task::Changes => changes_len(alloc, &self.old, &self.new),
            Task::Same => changes_len(alloc, &self.new, &self.new),
            Task::Whole => Ok(whole(alloc, &self.new)?.len()),
            Task::Read => self.read(),
            Task::Picture => Ok(full(alloc, self.script, true)?.grid().columns().len()),
            Task::Blank => Ok(Grid::blank(alloc, 24, 80)?.columns().len()),
        }
    }

    /// Runs a task `times` times. Returns the number of bytes or columns made or read in all.
    fn often(&mut self, alloc: Global, task: Task, times: usize) -> Result<u64> {
        let mut sum: u64 = 0;
        for _ in 0..times {
            sum = sum.wrapping_add(self.once(alloc, task)? as u64);
        }
        Ok(sum)
    }
}

/// Runs a task `times` times on new pictures. Returns the number of bytes or columns made or read in all.
fn sum(alloc: Global, task: Task, script: Script, times: usize) -> Result<u64> {
    let mut work = Work::new(alloc, script)?;
    work.often(alloc, task, times)
}

/// Carries out the words. Reports the bytes or columns in all, and the time of making the pictures and of the task.
pub(crate) fn run<R: CpuClock + AllocGlobal>(rt: &R, words: &[String]) -> Result<Outcome> {
    let [task, text, times] = words else {
        bail!("usage: bench painting TASK TEXT TIMES");
    };
    let task = Task::named(task.as_str()).context("no such task")?;
    let script = Script::named(text.as_str()).context("no such text")?;
    let times = number(times)?;
    let start = rt.thread_cpu_time()?;
    let sum = sum(rt.alloc(), task, script, times)?;
    Outcome::since(rt, start, sum)
}
