//! What a scene answers, noted while its steps are taken. The buffers are allocated before the scene's world, so that no note takes
//! memory while the world runs.

use bx_grid::GridError;
use bx_session::{Refused, Session};
use bx_store::{MemoryStore, Store};
use bx_ucd::BidiData;
use bx_world::StepFault;
use player_lines::{add_bytes, add_number};
use std::alloc::{AllocError, AllocFailed, Global};

/// A text longer than this, in bytes, that equals the file is abbreviated.
const LONG: usize = 4096;

/// Capacity for each kind of answer, in bytes: more than the scenes need, so that no buffer grows while a world runs.
const CAPACITY: usize = 65_536;

/// Capacity for the bytes sent, in bytes: likewise more than the scenes need.
const QUEUE_CAPACITY: usize = 1_048_576;

/// Notes of a scene played in one mode.
#[derive(Drop)]
pub struct Answers {
    /// A letter for each step.
    pub letters: String,
    /// The letters as `play` gives them, without `e` and `f`.
    pub plain: String,
    /// For each step, whether the terminal shows the picture last painted.
    pub shown: String,
    /// The findings.
    pub looks: String,
    /// The text.
    pub text: String,
    /// The store's content, the place, and whether there are unsaved changes.
    pub ending: String,
    /// The bytes on the line and those pending, and whether the last size was told and the picture is shown.
    pub on_way: String,
    /// All bytes sent, and at the end those pending.
    pub queued: Vec<u8>,
    /// Number of steps before the one that ended the session.
    pub before_end: Option<usize>,
}

/// Appends a text; `=` for a long one that equals the file.
pub fn add_text(line: &mut String, text: &[u8], file: &[u8]) -> Result<(), AllocError> {
    if text.len() > LONG && text == file {
        line.push('=')?;
        return Ok(());
    }
    add_bytes(line, text)
}

/// Appends 1 for true, 0 for false.
pub fn add_flag(line: &mut String, flag: bool) -> Result<(), AllocError> {
    line.push(if flag { '1' } else { '0' })
}

/// The letter of a session's refusal.
pub fn letter_of_refusal(refused: Refused) -> char {
    match refused {
        Refused::Edit => 'E',
        Refused::Paint => 'P',
        Refused::Size => 's',
    }
}

/// The letter of a step's answer.
pub fn letter_of(answer: &Result<(), StepFault>) -> char {
    match answer {
        Ok(()) => 'o',
        Err(StepFault::Session(refused)) => letter_of_refusal(*refused),
        Err(StepFault::Screen(GridError::SizeOutOfRange)) => 'w',
        Err(StepFault::Screen(GridError::OutOfMemory)) => 'M',
        Err(StepFault::Line) => 'L',
    }
}

impl Answers {
    /// Allocates the buffers.
    pub fn with_capacity(alloc: Global) -> Result<Answers, AllocError> {
        Ok(Answers {
            letters: String::with_capacity(alloc, CAPACITY)?,
            plain: String::with_capacity(alloc, CAPACITY)?,
            shown: String::with_capacity(alloc, CAPACITY)?,
            looks: String::with_capacity(alloc, CAPACITY)?,
            text: String::with_capacity(alloc, CAPACITY)?,
            ending: String::with_capacity(alloc, CAPACITY)?,
            on_way: String::with_capacity(alloc, CAPACITY)?,
            queued: Vec::with_capacity(alloc, QUEUE_CAPACITY)?,
            before_end: None,
        })
    }

    /// Clears the notes for the next scene and keeps the buffers.
    pub fn clear(&mut self) {
        self.letters.clear();
        self.plain.clear();
        self.shown.clear();
        self.looks.clear();
        self.text.clear();
        self.ending.clear();
        self.on_way.clear();
        self.queued.clear();
        self.before_end = None;
    }

    /// Notes the final state of a session and its store.
    pub fn note_ending<D: BidiData + Drop>(
        &mut self,
        session: &Session<D>,
        store: &MemoryStore,
        file: &[u8],
    ) -> Result<(), AllocError> {
        add_text(&mut self.ending, store.contents(), file)?;
        self.ending.push('\t')?;
        add_number(&mut self.ending, session.place())?;
        self.ending.push('\t')?;
        add_flag(&mut self.ending, session.changed())
    }

    /// Notes the text that a Save wrote to a separate store.
    pub fn note_text(&mut self, store: &MemoryStore, file: &[u8]) -> Result<(), AllocError> {
        if store.failures() > 0 {
            self.text.push('?')?;
            return Ok(());
        }
        add_text(&mut self.text, store.contents(), file)
    }

    /// Whether `play` gave the same answers and the same final state. `play` finds no text once the session has ended.
    pub fn agrees_with(&self, play: &Answers) -> bool {
        self.plain.as_str() == play.plain.as_str()
            && self.ending.as_str() == play.ending.as_str()
            && self.on_way.as_str() == play.on_way.as_str()
            && (self.before_end.is_some() || self.text.as_str() == play.text.as_str())
    }
}
