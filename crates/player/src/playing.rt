//! Playing a scene in its MODE.

use crate::alone::Alone;
use crate::answers::Answers;
use crate::lent::Lent;
use crate::scene::{Mode, Scene};
use crate::stage::Stage;
use crate::terminal::Terminal;
use bx_grid::GridError;
use bx_keys::Decoder;
use bx_session::{OpenError, Session};
use bx_ucd::Tables;
use bx_world::{Step, World};
use player_lines::add_bytes;
use std::alloc::{AllocError, Global};

/// Capacity of a line of answers, in bytes: for all buffers of `Answers`, written in hexadecimal.
const CAPACITY: usize = 4_194_304;

/// The outcome of a scene.
#[derive(Drop)]
pub enum Outcome {
    /// All answers are noted.
    Played,
    /// Its file was not opened.
    Refused(OpenError),
    /// `step` and `play` differ in their answers or final states.
    Differs,
}

/// The program's buffers, allocated before any world.
#[derive(Drop)]
pub struct Player {
    alloc: Global,
    /// The answers of the scene's MODE; of `step` if that is `both`.
    answers: Answers,
    // The answers of `play`, for comparison.
    play: Answers,
    /// The line of answers.
    line: String,
}

/// The terminal for looking at rows, if the scene does that.
fn terminal_of(alloc: Global, scene: &Scene<'_>) -> Result<Option<Terminal>, AllocError> {
    if !scene.looks_at_rows() {
        return Ok(None);
    }
    match Terminal::open(alloc, scene.height, scene.width) {
        Ok(terminal) => Ok(Some(terminal)),
        // opening the world fails for this cause or an earlier one
        Err(GridError::SizeOutOfRange) => Ok(None),
        Err(GridError::OutOfMemory) => Err(AllocError),
    }
}

/// The stage of a scene, or the cause if its file is not opened.
fn stage_of<'a>(
    alloc: Global,
    scene: &Scene<'_>,
    tables: &'a Tables,
) -> Result<Result<Stage<Lent<'a, Tables>>, OpenError>, AllocError> {
    let file = scene.copy_of_file(alloc)?;
    let terminal = terminal_of(alloc, scene)?;
    let (height, width, base) = (scene.height, scene.width, scene.base);
    let settings = scene.options.settings(alloc)?;
    let mut world = match World::open(file, Lent { tables }, height, width, base, settings) {
        Ok(world) => world,
        Err(error) => return Ok(Err(error)),
    };
    if scene.has_clipboard {
        world.use_clipboard();
    }
    Ok(Ok(Stage {
        alloc,
        world,
        store: scene.store(alloc)?,
        terminal,
        taken: 0,
        may_fail: scene.failing.is_some(),
    }))
}

/// Plays a scene step by step.
fn step_through(
    alloc: Global,
    scene: &Scene<'_>,
    tables: &Tables,
    answers: &mut Answers,
) -> Result<Outcome, AllocError> {
    match stage_of(alloc, scene, tables)? {
        Ok(mut stage) => stage.step_through(scene, answers).map(|()| Outcome::Played),
        Err(error) => Ok(Outcome::Refused(error)),
    }
}

/// Plays a scene by one call of `play`.
fn play_through(
    alloc: Global,
    scene: &Scene<'_>,
    tables: &Tables,
    answers: &mut Answers,
) -> Result<Outcome, AllocError> {
    let steps = scene.steps(alloc)?;
    match stage_of(alloc, scene, tables)? {
        Ok(mut stage) => stage
            .play_through(&steps, &scene.file, answers)
            .map(|()| Outcome::Played),
        Err(error) => Ok(Outcome::Refused(error)),
    }
}

/// Plays a scene in a session without a world.
fn play_alone(
    alloc: Global,
    scene: &Scene<'_>,
    tables: &Tables,
    answers: &mut Answers,
) -> Result<Outcome, AllocError> {
    let file = scene.copy_of_file(alloc)?;
    let (height, width, base) = (scene.height, scene.width, scene.base);
    let settings = scene.options.settings(alloc)?;
    match Session::open(file, Lent { tables }, height, width, base) {
        Ok(mut session) => {
            if session.set(settings).is_err() {
                return Ok(Outcome::Refused(OpenError::OutOfMemory));
            }
            if scene.has_clipboard {
                session.use_clipboard();
            }
            let mut alone = Alone {
                alloc,
                session,
                decoder: Decoder::new(),
                store: scene.store(alloc)?,
                may_fail: scene.failing.is_some(),
            };
            alone.step_through(scene, answers).map(|()| Outcome::Played)
        }
        Err(error) => Ok(Outcome::Refused(error)),
    }
}

/// Notes the text of a session that has ended: another world takes the steps before the end, and saves there.
fn note_text_at_end(
    alloc: Global,
    scene: &Scene<'_>,
    tables: &Tables,
    answers: &mut Answers,
) -> Result<(), AllocError> {
    let Some(count) = answers.before_end else {
        return Ok(());
    };
    let steps = scene.steps(alloc)?;
    match stage_of(alloc, scene, tables)? {
        Ok(mut stage) => stage.text_behind(first_steps(&steps, count), &scene.file, answers),
        Err(_) => answers.text.push('?'),
    }
}

/// The first `count` steps, or all if there are fewer.
fn first_steps(steps: &[Step], count: usize) -> &[Step] {
    &steps[..count.min(steps.len())]
}

impl Player {
    /// Allocates the buffers.
    pub fn new(alloc: Global) -> Result<Player, AllocError> {
        Ok(Player {
            alloc,
            answers: Answers::with_capacity(alloc)?,
            play: Answers::with_capacity(alloc)?,
            line: String::with_capacity(alloc, CAPACITY)?,
        })
    }

    /// Plays a scene by `step` and by `play`, and compares the two.
    fn play_both(&mut self, scene: &Scene<'_>, tables: &Tables) -> Result<Outcome, AllocError> {
        let outcome = step_through(self.alloc, scene, tables, &mut self.answers)?;
        if let Outcome::Refused(_) = outcome {
            return Ok(outcome);
        }
        play_through(self.alloc, scene, tables, &mut self.play)?;
        if !self.answers.agrees_with(&self.play) {
            return Ok(Outcome::Differs);
        }
        Ok(Outcome::Played)
    }

    /// Plays a scene in its MODE.
    fn play(&mut self, scene: &Scene<'_>, tables: &Tables) -> Result<Outcome, AllocError> {
        self.answers.clear();
        self.play.clear();
        let (alloc, answers) = (self.alloc, &mut self.answers);
        let outcome = match scene.mode {
            Mode::Both => self.play_both(scene, tables)?,
            Mode::Step => step_through(alloc, scene, tables, answers)?,
            Mode::Play => play_through(alloc, scene, tables, answers)?,
            Mode::Alone => play_alone(alloc, scene, tables, answers)?,
        };
        note_text_at_end(self.alloc, scene, tables, &mut self.answers)?;
        Ok(outcome)
    }

    /// The line of answers of a scene, without a newline, and false if `step` and `play` differ.
    pub fn line_of(
        &mut self,
        scene: &Scene<'_>,
        tables: &Tables,
    ) -> Result<(&str, bool), AllocError> {
        self.line.clear();
        let agrees = match self.play(scene, tables)? {
            Outcome::Played => {
                self.write_answers(scene)?;
                true
            }
            Outcome::Refused(error) => {
                write!(self.line, "refused: {error}")?;
                true
            }
            Outcome::Differs => {
                self.line.push_str("step and play differ")?;
                false
            }
        };
        Ok((self.line.as_str(), agrees))
    }

    /// Writes the fields of the answers.
    fn write_answers(&mut self, scene: &Scene<'_>) -> Result<(), AllocError> {
        let (line, answers) = (&mut self.line, &self.answers);
        line.push_str(match scene.mode {
            Mode::Play => answers.plain.as_str(),
            Mode::Both | Mode::Step | Mode::Alone => answers.letters.as_str(),
        })?;
        line.push('\t')?;
        if scene.looks() {
            write_looks(line, scene, answers)
        } else {
            write_ending(line, answers)
        }
    }
}

/// Writes the findings; `play` looks only at the text.
fn write_looks(line: &mut String, scene: &Scene<'_>, answers: &Answers) -> Result<(), AllocError> {
    match scene.mode {
        Mode::Play => line.push_str(answers.text.as_str()),
        Mode::Both | Mode::Step | Mode::Alone => line.push_str(answers.looks.as_str()),
    }
}

/// Writes the fields of a scene that looks at nothing.
fn write_ending(line: &mut String, answers: &Answers) -> Result<(), AllocError> {
    for field in [&answers.shown, &answers.text, &answers.ending] {
        line.push_str(field.as_str())?;
        line.push('\t')?;
    }
    add_bytes(line, &answers.queued)
}
