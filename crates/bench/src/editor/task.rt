//! The tasks done by keys: which keys a round of each presses, as a terminal sends them.

use crate::editor::texts::Script;
use crate::editor::typist::{PAGE_DOWN, Typist};
use anyhow::Result;

const BACKSPACE: &str = "\u{7f}";

const RIGHT: &str = "\u{1b}[C";

const LEFT: &str = "\u{1b}[D";

const PAGE_UP: &str = "\u{1b}[5~";

/// Ctrl and S.
const SAVE: &str = "\u{13}";

/// Ctrl and L.
const REPAINT: &str = "\u{c}";

/// Tells a window of 79 columns: the rows are `ROWS` of typist.rt.
const NARROWER: &str = "\u{1b}[8;24;79t";

/// Tells a window of 80 columns again.
const AS_BEFORE: &str = "\u{1b}[8;24;80t";

/// A task, by what a round of it does.
#[derive(Clone, Copy)]
pub(crate) enum Task {
    /// Types a letter after the previous round's letter.
    Letter,
    /// Types a letter and erases it.
    Erasure,
    /// One step right and one left.
    Move,
    /// One page down and one up.
    Page,
    /// One page down, to rows not shown before.
    Down,
    /// Narrows the window by a column and widens it again.
    Resize,
    /// Saves the whole text to a store.
    Save,
    /// Paints the picture whole.
    Repaint,
}

impl Task {
    /// The task with this name.
    pub(crate) fn named(name: &str) -> Option<Task> {
        match name {
            "letter" => Some(Task::Letter),
            "erasure" => Some(Task::Erasure),
            "move" => Some(Task::Move),
            "page" => Some(Task::Page),
            "down" => Some(Task::Down),
            "resize" => Some(Task::Resize),
            "save" => Some(Task::Save),
            "repaint" => Some(Task::Repaint),
            _ => None,
        }
    }

    /// Presses the keys of a round, whose number counts from 0.
    pub(crate) fn press(self, typist: &mut Typist, script: Script, round: usize) -> Result<()> {
        match self {
            Task::Letter => typist.press(script.letter(round)),
            Task::Erasure => {
                typist.press(script.letter(round))?;
                typist.press(BACKSPACE)
            }
            Task::Move => {
                typist.press(RIGHT)?;
                typist.press(LEFT)
            }
            Task::Page => {
                typist.press(PAGE_DOWN)?;
                typist.press(PAGE_UP)
            }
            Task::Down => typist.press(PAGE_DOWN),
            Task::Resize => {
                typist.press(NARROWER)?;
                typist.press(AS_BEFORE)
            }
            Task::Save => typist.press(SAVE),
            Task::Repaint => typist.press(REPAINT),
        }
    }
}
