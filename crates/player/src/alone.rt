//! A scene in the mode `alone`: a session takes its steps, without the window, the line and the terminal that a world has.

use crate::answers::{Answers, letter_of_refusal};
use crate::looks::Seen;
use crate::scene::{Act, Look, Scene};
use crate::stage::write_by_another;
use bx_keys::Decoder;
use bx_session::{Refused, Session, Status};
use bx_store::{MemoryStore, Store};
use bx_ucd::BidiData;
use bx_world::Step;
use std::alloc::{AllocError, Global};

/// A session, with the decoder of its input and its store, that plays a scene.
#[derive(Drop)]
pub struct Alone<D: BidiData + Drop> {
    pub alloc: Global,
    pub session: Session<D>,
    pub decoder: Decoder,
    /// Has the scene's failing call, if it has one.
    pub store: MemoryStore,
    /// Whether the scene has a call of the store fail.
    pub may_fail: bool,
}

/// The letter for the answer to a byte, one of those that the head of `main.rt` lists. `has_failed`: the store ran out of memory in a
/// Save.
fn letter_of_byte(answer: Result<Status, Refused>, has_failed: bool) -> char {
    match answer {
        Ok(_) if has_failed => 'f',
        Ok(Status::Running) => 'o',
        Ok(Status::Ended) => 'e',
        Err(refused) => letter_of_refusal(refused),
    }
}

impl<D: BidiData + Drop> Alone<D> {
    /// Takes the steps of a scene, and notes the answers, the findings and the final state.
    pub fn step_through(
        &mut self,
        scene: &Scene<'_>,
        answers: &mut Answers,
    ) -> Result<(), AllocError> {
        for act in &scene.acts {
            match act {
                Act::Take(step) => self.take(*step, answers)?,
                Act::Replay(byte) => self.replay(*byte, answers)?,
                Act::EndReplay => self.end_replay(answers)?,
                Act::Written(digits) => write_by_another(&mut self.store, self.alloc, digits)?,
                Act::Look(look) => self.look(look, &scene.file, &mut answers.looks)?,
            }
        }
        answers.shown.push('-')?;
        answers.note_ending(&self.session, &self.store, &scene.file)?;
        answers.queued.extend_from_slice(self.session.pending())?;
        self.note_text(&scene.file, answers)
    }

    /// Notes the text, by a copy to a separate store.
    fn note_text(&self, file: &[u8], answers: &mut Answers) -> Result<(), AllocError> {
        let mut store = MemoryStore::new(self.alloc, None);
        // the store counts its failures
        let _ = self.session.copy_to(&mut store);
        answers.note_text(&store, file)
    }

    /// Takes a step, and notes its answer.
    fn take(&mut self, step: Step, answers: &mut Answers) -> Result<(), AllocError> {
        let letter = match step {
            Step::Byte(byte) => self.type_byte(byte),
            Step::Told(height, width) => match self.session.set_window_size(height, width) {
                Ok(()) => 'o',
                Err(refused) => letter_of_refusal(refused),
            },
            Step::Send(count) => self.send(count, &mut answers.queued)?,
            // a scene of this mode has no such steps
            Step::Window(_, _) | Step::Read(_) => '?',
        };
        answers.letters.push(letter)
    }

    /// Replays a byte of a journal, and notes the answer.
    fn replay(&mut self, byte: u8, answers: &mut Answers) -> Result<(), AllocError> {
        let key = self.decoder.feed(byte);
        let letter = match self.session.press_again(key) {
            Ok(()) => 'o',
            Err(refused) => letter_of_refusal(refused),
        };
        answers.letters.push(letter)
    }

    /// Ends a replay, and notes an answer only where that is refused.
    fn end_replay(&mut self, answers: &mut Answers) -> Result<(), AllocError> {
        match self.session.end_replay() {
            Ok(()) => {}
            Err(refused) => answers.letters.push(letter_of_refusal(refused))?,
        }
        Ok(())
    }

    /// Has the session take the press of a byte of input. The letter of its answer.
    fn type_byte(&mut self, byte: u8) -> char {
        let failures = self.store.failures();
        let key = self.decoder.feed(byte);
        let answer = self.session.press(key, &mut self.store);
        letter_of_byte(answer, !self.may_fail && self.store.failures() > failures)
    }

    /// Removes bytes from the session's queue, and appends them to `queued`.
    fn send(&mut self, count: usize, queued: &mut Vec<u8>) -> Result<char, AllocError> {
        let sent = count.min(self.session.pending().len());
        queued.extend_from_slice(&self.session.pending()[..sent])?;
        self.session.taken(sent);
        Ok('o')
    }

    /// Notes a finding, after a blank if it is not the first.
    fn look(&self, look: &Look<'_>, file: &[u8], looks: &mut String) -> Result<(), AllocError> {
        if !looks.is_empty() {
            looks.push(' ')?;
        }
        let seen = Seen {
            alloc: self.alloc,
            session: &self.session,
            store: &self.store,
            file,
        };
        seen.add(looks, look)
    }
}
