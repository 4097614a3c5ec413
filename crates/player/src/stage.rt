//! A scene in the modes `step`, `play` and `both`: a world takes its steps, with the window, the line and the terminal.

use crate::answers::{Answers, add_flag, letter_of};
use crate::looks::Seen;
use crate::scene::{Act, Look, Scene, text_of};
use crate::terminal::Terminal;
use bx_grid::Cell;
use bx_store::{MemoryStore, Store};
use bx_ucd::BidiData;
use bx_world::{Step, World};
use player_lines::add_bytes;
use std::alloc::{AllocError, Global};

/// The byte of the key Save, Ctrl-S.
const SAVE: u8 = 0x13;

/// The first `count` bytes, or all if there are fewer.
fn first_bytes(bytes: &[u8], count: usize) -> &[u8] {
    &bytes[..count.min(bytes.len())]
}

/// Has another program write bytes, given as digits, over the text of a store.
pub fn write_by_another(
    store: &mut MemoryStore,
    alloc: Global,
    digits: &str,
) -> Result<(), AllocError> {
    let text = text_of(alloc, digits)?;
    store.write_by_another(text.as_bytes())
}

/// A world in which a scene is played.
#[derive(Drop)]
pub struct Stage<D: BidiData + Drop> {
    pub alloc: Global,
    pub world: World<D>,
    /// Has the scene's failing call, if it has one.
    pub store: MemoryStore,
    /// A copy of the terminal, to look at rows; None if the scene looks at none.
    pub terminal: Option<Terminal>,
    /// Number of steps taken.
    pub taken: usize,
    /// Whether the scene has a call of the store fail.
    pub may_fail: bool,
}

impl<D: BidiData + Drop> Stage<D> {
    /// Takes the steps of a scene one by one, and notes the answers, the findings and the final state.
    pub fn step_through(
        &mut self,
        scene: &Scene<'_>,
        answers: &mut Answers,
    ) -> Result<(), AllocError> {
        for act in &scene.acts {
            match act {
                Act::Take(step) => self.take(*step, answers)?,
                Act::Look(look) => self.look(look, &scene.file, &mut answers.looks)?,
                Act::Written(digits) => write_by_another(&mut self.store, self.alloc, digits)?,
                // a world replays nothing
                Act::Replay(_) | Act::EndReplay => {}
            }
        }
        self.note_end(&scene.file, answers)
    }

    /// Takes all steps by one call of `play`, and notes the answers and the final state.
    pub fn play_through(
        &mut self,
        steps: &[Step],
        file: &[u8],
        answers: &mut Answers,
    ) -> Result<(), AllocError> {
        match self.world.play(steps, &mut self.store) {
            Ok(found) => {
                for answer in &found {
                    answers.plain.push(letter_of(answer))?;
                }
            }
            Err(_) => answers.plain.push('N')?,
        }
        add_flag(&mut answers.shown, self.world.shows())?;
        answers.queued.extend_from_slice(self.world.line())?;
        if self.world.session().ended() {
            answers.text.push('?')?;
        }
        self.note_end(file, answers)
    }

    /// Takes a step, and notes its answer and whether the terminal shows the picture last painted then.
    fn take(&mut self, step: Step, answers: &mut Answers) -> Result<(), AllocError> {
        if let Some(terminal) = &mut self.terminal {
            terminal.follow(step, self.world.line())?;
        }
        let queued = answers.queued.len();
        if let Step::Send(count) = step {
            let part = first_bytes(self.world.session().pending(), count);
            answers.queued.extend_from_slice(part)?;
        }
        let failures = self.store.failures();
        let answer = self.world.step(step, &mut self.store);
        let letter = letter_of(&answer);
        if letter == 'L' {
            answers.queued.truncate(queued);
        }
        answers.plain.push(letter)?;
        let has_failed = !self.may_fail && self.store.failures() > failures;
        answers.letters.push(self.letter(step, letter, has_failed))?;
        add_flag(&mut answers.shown, self.world.shows())?;
        if self.world.session().ended() && answers.before_end.is_none() {
            answers.before_end = Some(self.taken);
        }
        self.taken = self.taken.saturating_add(1);
        Ok(())
    }

    /// The letter of a step. For a byte it also shows that the session ended, or that a Save ran out of memory.
    fn letter(&self, step: Step, letter: char, has_failed: bool) -> char {
        if letter != 'o' || !matches!(step, Step::Byte(_)) {
            letter
        } else if has_failed {
            'f'
        } else if self.world.session().ended() {
            'e'
        } else {
            'o'
        }
    }

    /// Notes a finding, after a blank if it is not the first.
    fn look(&self, look: &Look<'_>, file: &[u8], looks: &mut String) -> Result<(), AllocError> {
        if !looks.is_empty() {
            looks.push(' ')?;
        }
        match look {
            Look::Told => add_flag(looks, self.world.is_told()),
            Look::Line => add_bytes(looks, self.world.line()),
            Look::Shown => add_flag(looks, self.world.shows()),
            Look::Rows { line, column, rows } => {
                let (line, column) = (*line, *column);
                match &self.terminal {
                    Some(terminal) => terminal.add_shown(looks, rows, Cell { line, column }),
                    None => Ok(()),
                }
            }
            _ => {
                let seen = Seen {
                    alloc: self.alloc,
                    session: self.world.session(),
                    store: &self.store,
                    file,
                };
                seen.add(looks, look)
            }
        }
    }

    /// Notes the final state, and the text unless the session has ended. The stage takes no step afterwards.
    fn note_end(&mut self, file: &[u8], answers: &mut Answers) -> Result<(), AllocError> {
        answers.note_ending(self.world.session(), &self.store, file)?;
        add_flag(&mut answers.on_way, self.world.is_told())?;
        add_flag(&mut answers.on_way, self.world.shows())?;
        add_bytes(&mut answers.on_way, self.world.line())?;
        answers.on_way.push(' ')?;
        add_bytes(&mut answers.on_way, self.world.session().pending())?;
        answers
            .queued
            .extend_from_slice(self.world.session().pending())?;
        if self.world.session().ended() {
            return Ok(());
        }
        self.save_text(file, answers)
    }

    /// Notes the text, by a copy to a separate store. A Save before it ends a paste, and breaks off an unfinished sequence or character;
    /// it need not store the text.
    fn save_text(&mut self, file: &[u8], answers: &mut Answers) -> Result<(), AllocError> {
        let mut store = MemoryStore::new(self.alloc, None);
        // a refusal to paint here is not the scene's
        let _ = self.world.step(Step::Byte(SAVE), &mut store);
        let mut copy = MemoryStore::new(self.alloc, None);
        // the store counts its failures
        let _ = self.world.session().copy_to(&mut copy);
        answers.note_text(&copy, file)
    }

    /// Takes steps without noting them, and notes the text after them.
    pub fn text_behind(
        &mut self,
        steps: &[Step],
        file: &[u8],
        answers: &mut Answers,
    ) -> Result<(), AllocError> {
        for step in steps {
            // the answer is noted already
            let _ = self.world.step(*step, &mut self.store);
        }
        self.save_text(file, answers)
    }
}
