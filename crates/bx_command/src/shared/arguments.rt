//! Command-line options that several programs share.

ghost use Rattle.std.specs.Prelude.{◌≡◌, option_map};
ghost use Rattle.clap.specs.Words.{rule_of};
ghost use Rattle.bx_command.specs.shared.Arguments.{GivesDirection, GivesSide, is_given, rows_in, value_in};
ghost use Rattle.bx_command.specs.shared.Rules.{DirectionWords, direction_rule, flag_rule, option_rule, side_rule};

use bx_common::{Base, LARGEST_SIDE, is_side};
use clap::error::ErrorKind;
use clap::{Arg, ArgAction, ArgMatches, Command, value_parser};
use std::alloc::{AllocError, Global};
use std::{env, io};

/// The names of the directions.
static DIRECTIONS: [&str; 3] = ["auto", "ltr", "rtl"];

/// The command line's words after the program's name.
pub fn words_of(rt: &HostRuntime) -> io::Result<Vec<String>> {
    Ok(env::args(rt)?.skip(1).collect(rt.alloc())?)
}

/// The error for a missing value. No program meets it: clap requires or defaults each option, and parses its value.
pub fn missing_value(command: &mut Command<'_>) -> Result<clap::Error, AllocError> {
    command.error(ErrorKind::InvalidValue, "a value is missing")
}

/// The value of an option; None if it has none.
pub fn value_of<'a>(matches: &ArgMatches<'a>, name: &str) -> Option<&'a str>
    ensures { option_map (λ value. value.now) result ≡ value_in (rows_in matches.now) name.now }
{
    matches.get_str(name)
}

/// Whether a flag is given.
pub fn is_given(matches: &ArgMatches<'_>, name: &str) -> bool
    ensures { result ≡ is_given (rows_in matches.now) name.now }
{
    match value_of(matches, name) {
        Some(value) => value == "true",
        None => false,
    }
}

/// An option that has a value.
pub fn option<'a>(alloc: Global, name: &'a str, value: &'a str) -> Arg<'a>
    ensures { rule_of result ≡ option_rule name.entry.now }
{
    Arg::new(alloc, name).long(name).value_name(value)
}

/// An option that has none.
pub fn flag<'a>(alloc: Global, name: &'a str) -> Arg<'a>
    ensures { rule_of result ≡ flag_rule name.entry.now }
{
    Arg::new(alloc, name).long(name).action(ArgAction::SetTrue)
}

/// An option whose value is a side of a window, from 1 to 500.
pub fn side<'a>(alloc: Global, name: &'a str, default: &'a str) -> Arg<'a>
    ensures { rule_of result ≡ side_rule name.entry.now default.entry.now }
{
    option(alloc, name, "N")
        .value_parser(value_parser!(u16).range(1..=i64::from(LARGEST_SIDE)))
        .default_value(default)
}

/// The option that names a direction.
pub fn direction<'a>(alloc: Global) -> Arg<'a>
    ensures { (words : DirectionWords) × (rule_of result ≡ direction_rule words) }
{
    Arg::new(alloc, "direction")
        .long("direction")
        .value_parser(DIRECTIONS.as_slice())
        .default_value("auto")
}

/// The side of a window, from its option.
pub fn side_of(matches: &ArgMatches<'_>, name: &str) -> Option<u16>
    ensures { GivesSide (rows_in matches.now) name.now result }
{
    match value_of(matches, name)?.parse::<u16>() {
        Ok(n) if is_side(n) => Some(n),
        _ => None,
    }
}

/// The direction, from its option.
pub fn direction_of(matches: &ArgMatches<'_>) -> Option<Base>
    ensures { GivesDirection (rows_in matches.now) result }
{
    match value_of(matches, "direction")?.parse() {
        Ok(base) => Some(base),
        Err(_) => None,
    }
}
