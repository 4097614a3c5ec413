//! A copy of the world's terminal, to compare its rows.

use crate::answers::add_flag;
use bx_grid::{Cell, GridError};
use bx_terminal::Screen;
use bx_world::Step;
use player_lines::{RowFault, picture_of};
use std::alloc::{AllocError, Global};

/// A terminal that reads the same bytes as the world's, and has the same size.
#[derive(Drop)]
pub struct Terminal {
    alloc: Global,
    screen: Screen,
    /// Number of rows.
    height: u16,
    /// Number of columns.
    width: u16,
}

impl Terminal {
    /// Opens a terminal of this size.
    pub fn open(alloc: Global, height: u16, width: u16) -> Result<Terminal, GridError> {
        Ok(Terminal {
            alloc,
            screen: Screen::new(alloc, height, width)?,
            height,
            width,
        })
    }

    /// Repeats the effect of a step on the world's terminal; `line` is the line before the step.
    pub fn follow(&mut self, step: Step, line: &[u8]) -> Result<(), AllocError> {
        let answer = match step {
            Step::Window(height, width) => self.resize(height, width),
            Step::Read(count) => self.screen.read(&line[..count.min(line.len())]),
            Step::Byte(_) | Step::Told(_, _) | Step::Send(_) => Ok(()),
        };
        match answer {
            Err(GridError::OutOfMemory) => Err(AllocError),
            Ok(()) | Err(GridError::SizeOutOfRange) => Ok(()),
        }
    }

    /// Changes the size, unless it is out of range.
    pub fn resize(&mut self, height: u16, width: u16) -> Result<(), GridError> {
        self.screen.window(height, width)?;
        (self.height, self.width) = (height, width);
        Ok(())
    }

    /// Appends whether the terminal shows rows with the cursor at a cell.
    pub fn add_shown(&self, line: &mut String, rows: &str, cursor: Cell) -> Result<(), AllocError> {
        match picture_of(self.alloc, self.height, self.width, rows, cursor) {
            Ok(picture) => add_flag(line, self.screen.shows(&picture)),
            Err(RowFault::NoPicture) => add_flag(line, false),
            Err(RowFault::OutOfMemory) => Err(AllocError),
        }
    }
}
