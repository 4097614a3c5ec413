//! The program's command line.

ghost use Rattle.std.specs.Prelude.{◌≡◌, IfOk, IfSome, codes, map};
ghost use Rattle.clap.specs.Words.{app_of, rule_of};
ghost use Rattle.bx_command.specs.Command.{file_rule};
ghost use Rattle.bx_command.specs.shared.Arguments.{is_given, rows_in};
ghost use Rattle.bx_command.specs.shared.Rules.{DirectionWords, with_rules};
ghost use Rattle.bidi_print.specs.Command.{AreOptionsIn, AreOptionsOf, bare_app, own_rules, placeholders_by, printer_app};

use bx_command::{
    UnicodeFiles, direction, direction_of, flag, is_given, missing_value, paths_of, side, side_of,
    value_of, with_tables,
};
use bx_print::{Placeholders, Style};
use clap::{Arg, ArgMatches, Command};
use std::alloc::{AllocError, Global};
use std::convert::AsStr;

/// The parsed command line.
#[derive(Drop)]
pub struct Options<'a> {
    /// The style of printing.
    pub style: Style,
    /// The paths of Unicode's files.
    pub unicode: UnicodeFiles<&'a str>,
    /// The path of the file to print.
    pub file: &'a str,
}

/// FILE.
fn file<'a>(alloc: Global) -> Arg<'a>
    ensures { rule_of result ≡ file_rule }
{
    Arg::new(alloc, "file").value_name("FILE").required(true)
}

/// The program's command line before its options.
fn bare<'a>(alloc: Global) -> Command<'a>
    ensures { app_of result ≡ bare_app }
{
    Command::new(alloc, "bidi_print")
        .no_binary_name(true)
        .disable_help_flag(true)
        .disable_version_flag(true)
}

/// Adds the options but those of Unicode's files, and FILE. Without `--cols` a row has 80 columns, as a usual terminal does.
fn with_own<'a>(command: Command<'a>, alloc: Global) -> Result<Command<'a>, AllocError>
    ensures { IfOk result (λ more. (directions : DirectionWords) × (app_of more ≡ with_rules (app_of command.entry) (own_rules directions))) }
{
    command
        .arg(side(alloc, "cols", "80"))?
        .arg(direction(alloc))?
        .arg(flag(alloc, "marks"))?
        .arg(file(alloc))
}

/// The program's command line.
fn command<'a>(alloc: Global) -> Result<Command<'a>, AllocError>
    ensures { IfOk result (λ made. (directions : DirectionWords) × (app_of made ≡ printer_app directions)) }
{
    let command = with_tables(bare(alloc), alloc)?;
    with_own(command, alloc)
}

/// How placeholders are printed, by the flag `--marks`.
fn placeholders_of(matches: &ArgMatches<'_>) -> Placeholders
    ensures { result ≡ placeholders_by (is_given (rows_in matches.now) (codes "marks")) }
{
    if is_given(matches, "marks") {
        Placeholders::Bracketed
    } else {
        Placeholders::LeftOut
    }
}

/// The options that clap matched; None if a value is missing or out of range.
fn options_of<'a>(matches: &ArgMatches<'a>) -> Option<Options<'a>>
    ensures { IfSome result (AreOptionsIn (rows_in matches.now)) }
{
    let columns = side_of(matches, "cols")?;
    let base = direction_of(matches)?;
    let placeholders = placeholders_of(matches);
    Some(Options {
        style: Style {
            base,
            columns,
            placeholders,
        },
        unicode: paths_of(matches)?,
        file: value_of(matches, "file")?,
    })
}

/// Parses the words after the program's name.
///
/// Errors: clap's, with a message for the user.
pub fn command_line<'a, S: AsStr>(alloc: Global, words: &'a [S]) -> Result<Options<'a>, clap::Error>
    ensures { IfOk result (AreOptionsOf (map S.text words.entry.now)) }
{
    let mut command = command(alloc)?;
    let matches = command.try_get_matches_from_mut(words)?;
    match options_of(&matches) {
        Some(options) => Ok(options),
        None => Err(missing_value(&mut command)?),
    }
}
