//! Parses a scene: a line of input that has a text, a window and steps. The head of `main.rt` describes its fields.

use bx_common::Base;
use bx_session::Settings;
use bx_store::MemoryStore;
use bx_world::Step;
use player_lines::{WordFault, byte_of, bytes_of, call_of, count_of, side_of, two_of};
use std::alloc::{AllocError, Global};

/// The MODE in which the steps of a scene are taken.
#[derive(Clone, Copy)]
pub enum Mode {
    /// By `step` and, in another world, by `play`; the two are compared.
    Both,
    /// One by one, by `step`.
    Step,
    /// All by one call of `play`.
    Play,
    /// By a session without a world, which has no window and no terminal.
    Alone,
}

/// A word that asks for a part of the state, as `main.rt` lists them.
#[derive(Clone, Copy)]
pub enum Look<'a> {
    /// The cursor's place.
    Place,
    /// The mark's place.
    Mark,
    /// What was copied or cut last.
    Held,
    /// The text that is sought.
    Query,
    /// How far a search is.
    SearchState,
    /// What the search is for.
    SearchPurpose,
    /// The text that replaces matches.
    Other,
    /// Which question is asked.
    Prompt,
    /// The answer to it so far.
    Answer,
    /// Whether there are changes that are not saved.
    Changed,
    /// Whether the session has ended.
    Ended,
    /// Whether the session was told the window's last size.
    Told,
    /// The store's content.
    Stored,
    /// What the store has under a name, given as digits.
    StoredAs(&'a str),
    /// The bytes not yet sent.
    Pending,
    /// The bytes sent, but not yet read.
    Line,
    /// Whether the terminal shows the picture last painted.
    Shown,
    /// The session's text.
    Text,
    /// Whether the terminal shows these rows, with the cursor at this cell.
    Rows {
        line: u16,
        column: u16,
        rows: &'a str,
    },
}

/// A step or a look.
#[derive(Clone, Copy)]
pub enum Act<'a> {
    /// A step of the world, or of the session.
    Take(Step),
    /// A byte of a journal, which is replayed.
    Replay(u8),
    /// The end of a journal.
    EndReplay,
    /// Another program writes these bytes, given as digits, over the text of the store.
    Written(&'a str),
    Look(Look<'a>),
}

/// A scene: the fields of a line but its name.
#[derive(Drop)]
pub struct Scene<'a> {
    /// DIRECTION
    pub base: Base,
    /// ROWS
    pub height: u16,
    /// COLUMNS
    pub width: u16,
    /// CALL: the number of the store's call that fails, from 1; None if none does.
    pub failing: Option<u64>,
    /// Whether text that is copied or cut goes out to a clipboard.
    pub has_clipboard: bool,
    /// How the session works, and which name its store has.
    pub options: SceneOptions<'a>,
    /// FILE
    pub file: Vec<u8>,
    /// STEPS
    pub acts: Vec<Act<'a>>,
    pub mode: Mode,
}

/// Parses the rest of `rows=`: the cursor's line and column, a colon, and rows separated by bars.
fn rows_of(word: &str) -> Result<Look<'_>, WordFault> {
    let (cursor, rows) = word
        .split_once(':')
        .ok_or(WordFault::Bad("rows=LINE;COLUMN:ROW|ROW.. is wanted"))?;
    let (line, column) = two_of(cursor, ';')?;
    Ok(Look::Rows { line, column, rows })
}

/// Parses a word of STEPS that only looks, such as `place`: it takes no step, and the line of answers says what it finds.
pub fn look_of(word: &str) -> Result<Look<'_>, WordFault> {
    match word {
        "place" => Ok(Look::Place),
        "mark" => Ok(Look::Mark),
        "held" => Ok(Look::Held),
        "query" => Ok(Look::Query),
        "seek" => Ok(Look::SearchState),
        "aim" => Ok(Look::SearchPurpose),
        "other" => Ok(Look::Other),
        "ask" => Ok(Look::Prompt),
        "answer" => Ok(Look::Answer),
        "changed" => Ok(Look::Changed),
        "ended" => Ok(Look::Ended),
        "told" => Ok(Look::Told),
        "kept" => Ok(Look::Stored),
        "pending" => Ok(Look::Pending),
        "line" => Ok(Look::Line),
        "shown" => Ok(Look::Shown),
        "text" => Ok(Look::Text),
        _ => {
            if let Some(name) = word.strip_prefix("kept=") {
                return Ok(Look::StoredAs(name));
            }
            match word.strip_prefix("rows=") {
                Some(rows) => rows_of(rows),
                None => Err(WordFault::Bad("no step and nothing to look at")),
            }
        }
    }
}

/// Parses a word other than a `B` and a `J`.
fn act_of(word: &str) -> Result<Act<'_>, WordFault> {
    if let Some(size) = word.strip_prefix("W") {
        let (height, width) = two_of(size, ',')?;
        return Ok(Act::Take(Step::Window(height, width)));
    }
    if let Some(size) = word.strip_prefix("T") {
        let (height, width) = two_of(size, ',')?;
        return Ok(Act::Take(Step::Told(height, width)));
    }
    if let Some(count) = word.strip_prefix("S") {
        return Ok(Act::Take(Step::Send(count_of(count)?)));
    }
    if let Some(count) = word.strip_prefix("R") {
        return Ok(Act::Take(Step::Read(count_of(count)?)));
    }
    if let Some(digits) = word.strip_prefix("A") {
        return Ok(Act::Written(digits));
    }
    Ok(Act::Look(look_of(word)?))
}

/// Appends the replay of a journal, given as digits.
fn add_journal(acts: &mut Vec<Act<'_>>, digits: &str) -> Result<(), WordFault> {
    for pair in digits.as_bytes().chunks(2) {
        acts.push(Act::Replay(byte_of(pair)?))?;
    }
    acts.push(Act::EndReplay)?;
    Ok(())
}

/// Appends the acts of a word: a step for each byte of a `B`, a replay for a `J`, or one act.
fn add_acts<'a>(acts: &mut Vec<Act<'a>>, word: &'a str) -> Result<(), WordFault> {
    if let Some(digits) = word.strip_prefix("J") {
        return add_journal(acts, digits);
    }
    let Some(digits) = word.strip_prefix("B") else {
        acts.push(act_of(word)?)?;
        return Ok(());
    };
    for pair in digits.as_bytes().chunks(2) {
        acts.push(Act::Take(Step::Byte(byte_of(pair)?)))?;
    }
    Ok(())
}

/// The word among STEPS that gives the session a clipboard.
const CLIPBOARD: &str = "clipboard";

/// How a scene's session works, as words among STEPS say.
#[derive(Clone, Copy)]
pub struct SceneOptions<'a> {
    pub read_only: bool,
    pub auto_indent: bool,
    pub tab_width: u8,
    /// The digits of the file's name.
    pub name: Option<&'a str>,
    /// The digits of a name that another program has taken.
    pub taken: Option<&'a str>,
}

impl<'a> SceneOptions<'a> {
    /// The options that a field STEPS has.
    fn of(steps: &'a str) -> SceneOptions<'a> {
        let mut options = SceneOptions {
            read_only: false,
            auto_indent: false,
            tab_width: 0,
            name: None,
            taken: None,
        };
        for word in steps.split(' ') {
            options.take(word);
        }
        options
    }

    /// Takes a word that is an option; whether it is one.
    fn take(&mut self, word: &'a str) -> bool {
        match word {
            "view" => self.read_only = true,
            "indent" => self.auto_indent = true,
            _ => {
                if let Some(width) = word.strip_prefix("spaces=") {
                    self.tab_width = width.parse().unwrap_or(0);
                } else if let Some(name) = word.strip_prefix("name=") {
                    self.name = Some(name);
                } else if let Some(name) = word.strip_prefix("taken=") {
                    self.taken = Some(name);
                } else {
                    return word == CLIPBOARD;
                }
            }
        }
        true
    }

    /// The settings of a session.
    pub fn settings(&self, alloc: Global) -> Result<Settings, AllocError> {
        let name = match self.name {
            Some(digits) => Some(text_of(alloc, digits)?),
            None => None,
        };
        Ok(Settings {
            read_only: self.read_only,
            auto_indent: self.auto_indent,
            tab_width: self.tab_width,
            name,
        })
    }
}

/// A text by its digits; the empty one if they are none.
pub fn text_of(alloc: Global, digits: &str) -> Result<String, AllocError> {
    let Ok(bytes) = bytes_of(alloc, digits) else {
        return Ok(String::new(alloc));
    };
    match String::from_utf8(bytes) {
        Ok(text) => Ok(text),
        Err(_) => Ok(String::new(alloc)),
    }
}

/// Parses the field STEPS; a hyphen has no acts.
fn acts_of(alloc: Global, field: &str) -> Result<Vec<Act<'_>>, WordFault> {
    let mut acts = Vec::new(alloc);
    if field != "-" {
        for word in field.split(' ') {
            if !SceneOptions::of("").take(word) {
                add_acts(&mut acts, word)?;
            }
        }
    }
    Ok(acts)
}

/// Whether no act before the last looks at the text, which is all that `play` can look at, and only at its end.
fn is_text_last(acts: &[Act<'_>]) -> bool {
    let count = acts.len();
    let before = &acts[..count.saturating_sub(1)];
    !before
        .iter()
        .any(|act| matches!(act, Act::Look(Look::Text)))
}

/// Parses MODE.
fn mode_of(word: &str) -> Result<Mode, WordFault> {
    match word {
        "both" => Ok(Mode::Both),
        "step" => Ok(Mode::Step),
        "play" => Ok(Mode::Play),
        "alone" => Ok(Mode::Alone),
        _ => Err(WordFault::Bad("both, step, play or alone is wanted")),
    }
}

impl Act<'_> {
    /// Whether the act is possible in a MODE: a world replays nothing, `play` looks only at the text and leaves no time for another
    /// program, and a session without a world has no terminal.
    fn is_of(&self, mode: Mode) -> bool {
        match mode {
            Mode::Both => !matches!(self, Act::Replay(_) | Act::EndReplay | Act::Written(_)),
            Mode::Step => !matches!(self, Act::Replay(_) | Act::EndReplay),
            Mode::Play => matches!(self, Act::Take(_) | Act::Look(Look::Text)),
            Mode::Alone => !matches!(
                self,
                Act::Take(Step::Window(_, _) | Step::Read(_))
                    | Act::Look(Look::Told | Look::Line | Look::Shown | Look::Rows { .. })
            ),
        }
    }
}

impl<'a> Scene<'a> {
    /// Parses a line.
    pub fn of_line(alloc: Global, line: &'a str) -> Result<Scene<'a>, WordFault> {
        let missing = WordFault::Bad("fewer than seven fields");
        let mut fields = line.split('\t');
        let _name = fields.next();
        let base = fields.next().ok_or(missing)?.parse()?;
        let height = side_of(fields.next().ok_or(missing)?)?;
        let width = side_of(fields.next().ok_or(missing)?)?;
        let failing = call_of(fields.next().ok_or(missing)?)?;
        let file = bytes_of(alloc, fields.next().ok_or(missing)?)?;
        let steps = fields.next().ok_or(missing)?;
        let options = SceneOptions::of(steps);
        let has_clipboard = steps.split(' ').any(|word| word == CLIPBOARD);
        let acts = acts_of(alloc, steps)?;
        let mode = mode_of(fields.next().unwrap_or("both"))?;
        if !acts.iter().all(|act| act.is_of(mode)) {
            return Err(WordFault::Bad("a word is none of this mode"));
        }
        if matches!(mode, Mode::Play) && !is_text_last(&acts) {
            return Err(WordFault::Bad("the text is looked at before the end"));
        }
        Ok(Scene {
            base,
            height,
            width,
            failing,
            has_clipboard,
            options,
            file,
            acts,
            mode,
        })
    }

    /// A new store for the scene.
    pub fn store(&self, alloc: Global) -> Result<MemoryStore, AllocError> {
        let mut store = MemoryStore::new(alloc, self.failing);
        if let Some(digits) = self.options.taken {
            let name = text_of(alloc, digits)?;
            store.take_name(&name)?;
        }
        Ok(store)
    }

    /// A copy of the file, to be opened.
    pub fn copy_of_file(&self, alloc: Global) -> Result<Vec<u8>, AllocError> {
        Vec::from_slice(alloc, &self.file)
    }

    /// Whether the scene looks at something.
    pub fn looks(&self) -> bool {
        self.acts.iter().any(|act| matches!(act, Act::Look(_)))
    }

    /// Whether the scene looks at the terminal's rows.
    pub fn looks_at_rows(&self) -> bool {
        self.acts
            .iter()
            .any(|act| matches!(act, Act::Look(Look::Rows { .. })))
    }

    /// The steps, without the looks.
    pub fn steps(&self, alloc: Global) -> Result<Vec<Step>, AllocError> {
        let mut steps = Vec::with_capacity(alloc, self.acts.len())?;
        for act in &self.acts {
            if let Act::Take(step) = act {
                steps.push(*step)?;
            }
        }
        Ok(steps)
    }
}
