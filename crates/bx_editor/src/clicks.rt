//! Presses at a cell of the window, and where a drag begins.
ghost use Rattle.std.specs.Prelude.{◌≡◌};
ghost use Rattle.bx_editor.specs.Clicks.{clicks_behind, pressed_behind};

use bx_keys::Key;

/// How much a press takes: the first at a cell a unit, the second a word, the third a paragraph.
#[derive(Clone, Copy)]
pub enum Extent {
    Unit,
    Word,
    Paragraph,
}

/// Presses at one cell, one after the other: its row and column, from 1, and how much the latest of them took.
#[derive(Clone, Copy)]
pub struct Clicks {
    pub row: u16,
    pub column: u16,
    pub extent: Extent,
}

/// What was pressed last, from which a drag begins: the places where it starts and stops, and how much a press takes.
#[derive(Clone, Copy)]
pub struct Pressed {
    pub start: usize,
    pub stop: usize,
    pub extent: Extent,
}

/// The presses at one cell behind a key that the user pressed: a click alone leaves some.
pub(crate) fn clicks_behind(key: Key, clicks: Option<Clicks>) -> Option<Clicks>
    ensures { result ≡ clicks_behind key clicks }
{
    match key {
        Key::Point(..) => clicks,
        _ => None,
    }
}

/// What was pressed, behind a key that the user pressed: what goes on from it leaves it.
pub(crate) fn pressed_behind(key: Key, pressed: Option<Pressed>) -> Option<Pressed>
    ensures { result ≡ pressed_behind key pressed }
{
    match key {
        Key::Point(..) | Key::Drag(..) => pressed,
        Key::ScrollBack | Key::ScrollOn => pressed,
        _ => None,
    }
}
