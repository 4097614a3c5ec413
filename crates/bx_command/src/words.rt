//! The options of the editor's command line, and how they are parsed.

ghost use Rattle.std.specs.Prelude.{◌≡◌, IfOk, IfSome, chars, codes, length, map};
ghost use Rattle.clap.specs.Words.{app_of, rule_of};
ghost use Rattle.bx_command.specs.shared.Arguments.{rows_in, value_in};
ghost use Rattle.bx_command.specs.shared.Rules.{DirectionWords, bound, flag_rule, option_rule, with_rules};
ghost use Rattle.bx_command.specs.Command.{bare_app, bound_rules, editor_app, file_rule, line_rule, plain_rules, spaces_rule};
ghost use Rattle.bx_command.specs.Options.{AreOptionsIn, AreOptionsOf, AreSpaces, IsLine, IsShortName, is_delete, text_in};

use crate::parsed::Options;
use crate::shared::{
    direction, direction_of, flag, is_given, missing_value, option, paths_of, side, side_of,
    value_of, with_tables,
};
use clap::{Arg, ArgMatches, Command, value_parser};
use std::alloc::{AllocError, Global};
use std::convert::AsStr;

/// An option whose value is the path of another file.
fn path<'a>(alloc: Global, name: &'a str) -> Arg<'a>
    ensures { rule_of result ≡ option_rule name.entry.now }
{
    option(alloc, name, "PATH")
}

/// The option for the cursor's first line.
fn line<'a>(alloc: Global) -> Arg<'a>
    ensures { rule_of result ≡ line_rule }
{
    option(alloc, "line", "N").value_parser(value_parser!(u64).range(1..))
}

/// The option for a tab's spaces.
fn spaces<'a>(alloc: Global) -> Arg<'a>
    ensures { rule_of result ≡ spaces_rule }
{
    option(alloc, "spaces", "N").value_parser(value_parser!(u16).range(1..=8))
}

/// The option for a text to write before the first painting.
fn before<'a>(alloc: Global) -> Arg<'a>
    ensures { rule_of result ≡ option_rule (codes "before") }
{
    option(alloc, "before", "TEXT")
}

/// FILE.
fn file<'a>(alloc: Global) -> Arg<'a>
    ensures { rule_of result ≡ file_rule }
{
    Arg::new(alloc, "file").value_name("FILE").required(true)
}

/// The flag for a check of FILE without a session.
fn check<'a>(alloc: Global) -> Result<Arg<'a>, AllocError>
    ensures { IfOk result (λ arg. rule_of arg ≡ bound (flag_rule (codes "check"))) }
{
    flag(alloc, "check")
        .conflicts_with("text")?
        .conflicts_with("journal")?
        .conflicts_with("replay")?
        .conflicts_with("new")?
        .conflicts_with("to")
}

/// The flag for a FILE that does not exist.
fn new<'a>(alloc: Global) -> Result<Arg<'a>, AllocError>
    ensures { IfOk result (λ arg. rule_of arg ≡ bound (flag_rule (codes "new"))) }
{
    flag(alloc, "new").conflicts_with("text")
}

/// The option for the host's pipes for saves.
fn saves<'a>(alloc: Global) -> Result<Arg<'a>, AllocError>
    ensures { IfOk result (λ arg. rule_of arg ≡ bound (option_rule (codes "saves"))) }
{
    option(alloc, "saves", "REQUEST,ANSWER").requires_arg("frames")
}

/// The option for the terminal's own erase character, in hexadecimal.
fn erase<'a>(alloc: Global) -> Result<Arg<'a>, AllocError>
    ensures { IfOk result (λ arg. rule_of arg ≡ bound (option_rule (codes "erase"))) }
{
    option(alloc, "erase", "XX").requires_arg("frames")
}

/// An option whose value is a path, and which requires another option.
fn further_path<'a>(alloc: Global, name: &'a str, other: &'a str) -> Result<Arg<'a>, AllocError>
    ensures { IfOk result (λ arg. rule_of arg ≡ bound (option_rule name.entry.now)) }
{
    path(alloc, name).requires_arg(other)
}

/// The value of --erase for DELETE.
const DELETE: &str = "7f";

/// Whether a value of --erase is DELETE.
fn is_delete(erase: Option<&str>) -> bool
    ensures { result ≡ is_delete (text_in erase.entry) }
{
    match erase {
        Some(code) => code.eq_ignore_ascii_case(DELETE),
        None => false,
    }
}

/// Adds the options that stand alone, and FILE.
fn with_plain<'a>(command: Command<'a>, alloc: Global) -> Result<Command<'a>, AllocError>
    ensures { IfOk result (λ more. (directions : DirectionWords) × (app_of more ≡ with_rules (app_of command.entry) (plain_rules directions))) }
{
    command
        .arg(side(alloc, "rows", "24"))?
        .arg(side(alloc, "cols", "80"))?
        .arg(path(alloc, "text"))?
        .arg(path(alloc, "journal"))?
        .arg(path(alloc, "replay"))?
        .arg(flag(alloc, "unsaved"))?
        .arg(flag(alloc, "frames"))?
        .arg(flag(alloc, "clipboard"))?
        .arg(flag(alloc, "view"))?
        .arg(flag(alloc, "indent"))?
        .arg(spaces(alloc))?
        .arg(option(alloc, "name", "NAME"))?
        .arg(direction(alloc))?
        .arg(line(alloc))?
        .arg(before(alloc))?
        .arg(file(alloc))
}

/// Adds the options that require others or exclude them.
fn with_bound<'a>(command: Command<'a>, alloc: Global) -> Result<Command<'a>, AllocError>
    ensures { IfOk result (λ more. app_of more ≡ with_rules (app_of command.entry) bound_rules) }
{
    command
        .arg(check(alloc)?)?
        .arg(new(alloc)?)?
        .arg(saves(alloc)?)?
        .arg(erase(alloc)?)?
        .arg(further_path(alloc, "to", "replay")?)?
        .arg(further_path(alloc, "against", "to")?)
}

/// The program's command line before its options.
fn bare<'a>(alloc: Global) -> Command<'a>
    ensures { app_of result ≡ bare_app }
{
    Command::new(alloc, "bidi_edit")
        .no_binary_name(true)
        .disable_help_flag(true)
        .disable_version_flag(true)
}

/// The program's command line.
fn command<'a>(alloc: Global) -> Result<Command<'a>, AllocError>
    ensures { IfOk result (λ made. (directions : DirectionWords) × (app_of made ≡ editor_app directions)) }
{
    let command = with_tables(bare(alloc), alloc)?;
    let command = with_plain(command, alloc)?;
    with_bound(command, alloc)
}

/// The cursor's first line, maybe none; None if the value of --line is no number.
fn line_of(matches: &ArgMatches<'_>) -> Option<Option<u64>>
    ensures { IfSome result (IsLine (value_in (rows_in matches.now) (codes "line"))) }
{
    match value_of(matches, "line") {
        Some(text) => text.parse().ok().map(Some),
        None => Some(None),
    }
}

/// A tab's spaces; 0 if none are asked for. None if the value is out of range.
fn spaces_of(matches: &ArgMatches<'_>) -> Option<u8>
    ensures { IfSome result (AreSpaces (value_in (rows_in matches.now) (codes "spaces"))) }
{
    match value_of(matches, "spaces") {
        Some(text) => match text.parse::<u8>() {
            Ok(n) if 1 <= n && n <= 8 => Some(n),
            _ => None,
        },
        None => Some(0),
    }
}

/// The most characters of a file's name.
const LONGEST_NAME: usize = 255;

/// The number of characters of a text.
fn char_count(text: &str) -> usize
    ensures { result ≡ length (chars text.now) }
{
    text.chars().count()
}

/// The file's name, maybe none; None if it is too long.
fn name_of<'a>(matches: &ArgMatches<'a>) -> Option<Option<&'a str>>
    ensures value { IfSome result (λ name. value_in (rows_in matches.now) (codes "name") ≡ text_in name) }
    ensures short { IfSome result (λ name. IsShortName (text_in name)) }
{
    let Some(name) = value_of(matches, "name") else {
        return Some(None);
    };
    if char_count(name) > LONGEST_NAME {
        return None;
    }
    Some(Some(name))
}

/// The options that clap matched; None if a value is missing or out of range.
fn options_of<'a>(matches: &ArgMatches<'a>) -> Option<Options<'a>>
    ensures { IfSome result (AreOptionsIn (rows_in matches.now)) }
{
    Some(Options {
        rows: side_of(matches, "rows")?,
        cols: side_of(matches, "cols")?,
        unicode: paths_of(matches)?,
        file: value_of(matches, "file")?,
        text: value_of(matches, "text"),
        is_new: is_given(matches, "new"),
        check: is_given(matches, "check"),
        unsaved: is_given(matches, "unsaved"),
        clipboard: is_given(matches, "clipboard"),
        view: is_given(matches, "view"),
        indent: is_given(matches, "indent"),
        spaces: spaces_of(matches)?,
        name: name_of(matches)?,
        journal: value_of(matches, "journal"),
        replay: value_of(matches, "replay"),
        to: value_of(matches, "to"),
        against: value_of(matches, "against"),
        line: line_of(matches)?,
        direction: direction_of(matches)?,
        before: value_of(matches, "before"),
        frames: is_given(matches, "frames"),
        saves: value_of(matches, "saves"),
        erases_by_delete: is_delete(value_of(matches, "erase")),
    })
}

/// Parses the words after the program's name.
///
/// Errors: clap's, with a message for the user.
pub fn command_line<'a, S: AsStr>(alloc: Global, words: &'a [S]) -> Result<Options<'a>, clap::Error>
    ensures { IfOk result (AreOptionsOf (map S.text words.entry.now)) }
{
    let mut command = command(alloc)?;
    let matches = command.try_get_matches_from_mut(words)?;
    match options_of(&matches) {
        Some(options) => Ok(options),
        None => Err(missing_value(&mut command)?),
    }
}
