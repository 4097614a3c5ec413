//! Plays lines from standard input against the editor's crates, and prints the answer to each.
//!
//!     player CLASSES BRACKETS MIRRORING [JOINING CHARACTERS] < LINES
//!
//! The words are paths of Unicode's files. A line is empty, or begins with `#`, or has fields with tabs between. The first field is
//! its kind, which says what the others are:
//!
//!     scene NAME DIRECTION ROWS COLUMNS CALL FILE STEPS [MODE [TABLES]]
//!     levels CODES DIRECTION [TABLES]
//!     order CODES DIRECTION [TABLES]
//!     clusters CODES [TABLES]
//!     row FILE DIRECTION COLUMNS ROW [TABLES]
//!     class CODE [TABLES]
//!     find READING FILE QUERY OFFSET LOOKS [TABLES]
//!     keys BYTES
//!     paint ROWS COLUMNS PICTURE..
//!     screen ROWS COLUMNS STEPS
//!     command WORD..
//!
//! DIRECTION is `auto`, `ltr` or `rtl`. FILE, QUERY and BYTES are bytes as pairs of lower-case hexadecimal digits, `-` for none; they
//! may be several parts joined by `+`, each with an optional count of repetitions after `*`. CODES are characters by their codes in
//! hexadecimal, with blanks between, `-` for none; `202B.202A*62` is both, 62 times. Bytes are answered as pairs of digits too, `-`
//! for none.
//!
//! TABLES is a word, maybe followed by lines that are added to files: `joined|classes:0041 ; R|joining:0628; BEH; D; BEH`. The other
//! files are `brackets`, `mirroring` and `characters`. The word `plain` takes the first three of the program's files, as no TABLES
//! does, `joined` all five, `new` three files without lines and `new-joined` five. In a line U+2409 stands for a tab, U+240D for a
//! carriage return. If a file is refused, the answer is `refused: ` and the cause.
//!
//! # Levels, rows and characters
//!
//! - `levels` answers the level of the paragraph, and after a tab those of its characters before L1, `x` where X9 removes one, `-`
//!   for no characters.
//! - `order` answers the same after L1, in one row, and after another tab the numbers of the characters that X9 keeps, from left to
//!   right.
//! - `clusters` answers the codes with `÷` where a cluster ends or begins, and `×` inside one.
//! - `row` answers, with tabs between, of the row of a text in a window of this many columns, by its number from 0: the levels of its
//!   units; the numbers of the units from left to right; the glyphs from left to right, each as its bytes, `:` and its columns, with
//!   `n` for a negative one; and the slots from left to right, each as its place, `@` and its column.
//! - `class` answers the code, the class, the bracket, the mirror, the joining type unless it is U, and the forms; for the CODE `-` only
//!   `accepted`.
//! - `find` answers a word for each of LOOKS: the query's `next` offset from the first place at or after OFFSET, its `end`, the
//!   `last` offset before that place, and where a search goes round, the `first` one before OFFSET and the `final` one at or after
//!   it; `-` for none. For a query without letters the answer is `no letters`. READING is `close` or `wide`.
//!
//! # Keys, pictures and command lines
//!
//! - `keys` answers the keys that the bytes make, an insert with the character's code, a size with rows and columns, a point with its
//!   row and column, and after a tab the bytes that wait for more.
//! - `paint` answers the bytes that paint the first PICTURE whole, and those that change each to the next. A PICTURE is as `rows=` in a
//!   scene.
//! - `screen` has steps with blanks between: `R1b5b6d` reads bytes; `W2,5` is a window, answered by `o`, or by `w` if it is refused;
//!   `rows=` is answered as in a scene. A screen that is refused is answered by `w`.
//! - `command` answers the window's rows and columns, the direction, and each option that is given, or `refused: ` and the kind of
//!   clap's error. The WORD `-` alone is no word.
//!
//! # Scenes
//!
//! NAME describes the scene and is ignored. CALL is the number of the store's call that fails, counting all of its calls from 1,
//! or `-` if none fails. FILE is the text that is opened. STEPS are words separated by blanks, `-` for none:
//!
//!     B78           a byte of input; `B1b5b46` is three steps
//!     W2,5          the window gets 2 rows and 5 columns
//!     T4,20         the session is told 4 rows and 20 columns
//!     S38           at most 38 of the pending bytes go to the line
//!     R11           the terminal reads at most 11 bytes of the line
//!     J6178         a journal of these bytes is replayed; each byte is a step
//!     A6162         another program writes these bytes over what the store has; no step, and in the modes `step` and `alone` only
//!
//! words that say how the session works from the beginning, wherever they stand, and are no steps:
//!
//!     clipboard     what is copied or cut also goes out to the clipboard
//!     view          the text can only be looked at
//!     indent        a new line is indented as the last one
//!     spaces=4      Tab puts in blanks up to the next of these stops
//!     name=6e       the file's name, as digits; `name=` is an empty one
//!     taken=6e      something has this name already, so that no text is saved under it
//!
//! and words that only look:
//!
//!     place  mark   the offsets of the cursor and of the mark, `-` for no mark
//!     held          what was copied or cut last
//!     seek          `off`, `begun`, `typed`, `with-begun`, `with-typed` or `replacing`
//!     aim           `find` or `replace`
//!     query  other  the text that is sought, and the one in its place
//!     ask           `off`, `line`, `name`, `code`, `file` or `overwrite`
//!     answer        the answer to that question so far
//!     changed       whether there are changes that are not saved
//!     ended         whether the session has ended
//!     told          whether the session was told the window's last size
//!     shown         whether the terminal shows the picture last painted
//!     text  kept    the text, and what the store has
//!     kept=6e       what the store has under this name, given as digits; `none` for nothing
//!     pending       the bytes that are not sent yet
//!     line          the bytes that are sent and not read yet
//!     rows=1;3:ab|cd
//!                   whether the terminal shows these rows, with the cursor in line 1 and column 3; `_` is a blank, braces enclose
//!                   the characters of one glyph, and a glyph after a backquote is negative
//!
//! MODE is `both` if it is left out: one world takes the steps one by one, another takes them all by `play`, and the line says so
//! if their answers or final states differ. `step` and `play` do one of these alone; `play` looks only at the text, last. `alone`
//! takes the steps in a session without a world: it has no `W` and `R`, and looks only at a session's own state. Only `alone` has
//! `J`.
//!
//! The line of answers begins with a letter for each step:
//!
//!     o    Ok
//!     e    Ok, for a byte after which the session has ended
//!     f    Ok, for a Save that failed without a failing CALL: the store ran out of memory, or another program was in the way
//!     s    a told size is refused
//!     w    a window's size is refused
//!     E    out of memory for a key: nothing has changed
//!     P    out of memory for the painting
//!     L    out of memory for the line: no byte was moved
//!     M    out of memory in the terminal, now or before
//!     N    out of memory for the answers of `play`: no step was taken
//!
//! `play` gives `o` for `e` and `f`. If the scene looks at something, a tab follows, then the findings, separated by blanks.
//! Otherwise these fields follow, with a tab before each: for each step 1 if the terminal shows the picture last painted after
//! it, else 0 (with `play` for the last step alone, with `alone` a hyphen); the text; the store's content; the cursor's place; 1
//! if there are unsaved changes, else 0; and all bytes ever queued for the terminal (with `play` those not yet read). If the file
//! is not opened, the whole line is `refused: ` and the cause.
//!
//! A text of more than 4096 bytes that equals the file is `=`. A look finds the text by a copy to a separate store, and so does
//! `alone` at the end. A world finds the text at the end by a Save to one; if the session has ended, another world takes the
//! steps before the end and saves there. The text is `?` if that store runs out of memory, and if MODE is `play` and the session
//! has ended.
//!
//! The buffers for answers are allocated before the first world is opened, so that the world is the first to run out of memory.
//! If the program itself runs out, it writes `out of memory` to standard error and ends with status 1. It also ends with status 1
//! if files or streams fail, a line of the tables is refused, or `step` and `play` differ in a scene. It ends with status 2 if it
//! is not given three words or five, and at the first line that is none of these, with the line's number and fault.
#![tactic(auto)]

mod alone;
mod answers;
mod fault;
mod find;
mod lent;
mod looks;
mod painting;
mod playing;
mod scene;
mod stage;
mod tables;
mod terminal;

use bx_ucd::Tables;
use fault::Fault;
use player_lines::{
    WordFault, class_line, clusters_line, command_line, keys_line, levels_line, order_line,
    row_line,
};
use playing::Player;
use scene::Scene;
use std::alloc::Global;
use std::process::ExitCode;
use std::rt::{Env, Files};
use std::{env, io};
use tables::TableFiles;

/// The exit status if the command line or a line is refused.
const REFUSED: u8 = 2;

/// The files of the tables, and the tables that many lines take.
#[derive(Drop)]
struct Sources {
    files: TableFiles,
    plain: Tables,
    /// None if the program is given three files.
    joined: Option<Tables>,
}

impl Sources {
    /// The tables of a field TABLES that adds no line, if they are at hand.
    fn kept(&self, field: Option<&str>) -> Option<&Tables> {
        match field {
            None | Some("plain") => Some(&self.plain),
            Some("joined") => self.joined.as_ref(),
            Some(_) => None,
        }
    }
}

/// The number from 0, after the kind, of a line's field TABLES; a number that no line reaches if the kind has none.
fn tables_at(kind: &str) -> usize {
    match kind {
        "class" | "clusters" => 1,
        "levels" | "order" => 2,
        "row" => 4,
        "find" => 5,
        "scene" => 8,
        _ => usize::MAX,
    }
}

/// Answers a line that is no scene.
fn answer(
    alloc: Global,
    tables: &Tables,
    kind: &str,
    fields: &[&str],
) -> Result<String, WordFault> {
    match kind {
        "levels" => levels_line(alloc, tables, fields),
        "order" => order_line(alloc, tables, fields),
        "clusters" => clusters_line(alloc, tables, fields),
        "row" => row_line(alloc, tables, fields),
        "class" => class_line(alloc, tables, fields),
        "find" => find::find_line(alloc, tables, fields),
        "keys" => keys_line(alloc, fields),
        "paint" => painting::paint_line(alloc, fields),
        "screen" => painting::screen_line(alloc, fields),
        "command" => command_line(alloc, fields),
        _ => Err(WordFault::Bad("no kind of line has this name")),
    }
}

/// Plays a line with its tables, and prints the answer. Returns whether `step` and `play` agree in it.
fn play_with<R: Print + AllocGlobal>(
    rt: &R,
    tables: &Tables,
    line: &str,
    fields: &[&str],
    player: &mut Player,
) -> Result<bool, Fault> {
    let (kind, rest) = line.split_once('\t').unwrap_or((line, ""));
    if kind == "scene" {
        let scene = Scene::of_line(rt.alloc(), rest)?;
        let (answers, agrees) = player.line_of(&scene, tables)?;
        println!(rt; "{answers}")?;
        return Ok(agrees);
    }
    let answer = answer(rt.alloc(), tables, kind, fields)?;
    println!(rt; "{answer}")?;
    Ok(true)
}

/// Plays a line. Returns whether `step` and `play` agree in it.
fn play_line<R: Print + AllocGlobal>(
    rt: &R,
    line: &str,
    sources: &Sources,
    player: &mut Player,
) -> Result<bool, Fault> {
    if line.is_empty() || line.starts_with('#') {
        return Ok(true);
    }
    let (kind, rest) = line.split_once('\t').unwrap_or((line, ""));
    let fields = rest.split('\t').collect::<Vec<&str>>(rt.alloc())?;
    let field = fields.get(tables_at(kind)).copied();
    if let Some(tables) = sources.kept(field) {
        return play_with(rt, tables, line, &fields, player);
    }
    match sources
        .files
        .with_lines(rt.alloc(), field.unwrap_or("plain"))?
    {
        Ok(tables) => play_with(rt, &tables, line, &fields, player),
        Err(error) => {
            println!(rt; "refused: {error}")?;
            Ok(true)
        }
    }
}

/// Plays all lines. Returns whether `step` and `play` agree in all of them.
fn play_lines<R: Print + AllocGlobal>(
    rt: &R,
    lines: &str,
    sources: &Sources,
    player: &mut Player,
) -> Result<bool, Fault> {
    let mut agree = true;
    for (index, line) in lines.lines().enumerate() {
        match play_line(rt, line, sources, player) {
            Ok(agrees) => agree = agrees && agree,
            Err(fault) => return Err(fault.at(index.saturating_add(1))),
        }
    }
    Ok(agree)
}

/// Reads the tables and the lines, and plays them. Returns whether `step` and `play` agree in all of them.
fn run<R: Print + Input + Env + Files + AllocGlobal>(rt: &R) -> Result<bool, Fault> {
    let mut paths = Vec::new(rt.alloc());
    for path in env::args(rt)?.skip(1) {
        paths.push(path)?;
    }
    let files = TableFiles::read(rt, &paths)?;
    let plain = files.plain(rt.alloc())?;
    let joined = if paths.len() == 5 {
        Some(files.joined(rt.alloc())?)
    } else {
        None
    };
    let sources = Sources {
        files,
        plain,
        joined,
    };
    let lines = io::read_to_string(rt.alloc(), rt.reader())?;
    let mut player = Player::new(rt.alloc())?;
    play_lines(rt, lines.as_str(), &sources, &mut player)
}

fn main(rt: HostRuntime) -> ExitCode {
    match run(&rt) {
        Ok(true) => ExitCode::SUCCESS,
        Ok(false) => ExitCode::FAILURE,
        Err(fault) => {
            // if standard error fails, nobody can be told
            let _ = eprintln!(rt; "player: {fault}");
            if fault.is_of_input() {
                ExitCode::from(REFUSED)
            } else {
                ExitCode::FAILURE
            }
        }
    }
}
