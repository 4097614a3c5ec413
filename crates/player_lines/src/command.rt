//! The editor's command line.

use crate::words::WordFault;
use bx_command::{Options, UnicodeFiles};
use bx_common::Base;
use std::alloc::{AllocError, Global};

/// Appends an option's value, if it is given.
fn add_option(line: &mut String, name: &str, value: Option<&str>) -> Result<(), AllocError> {
    match value {
        Some(value) => write!(line, " {name}={value}"),
        None => Ok(()),
    }
}

/// Appends the paths of Unicode's files.
fn add_paths(line: &mut String, paths: &UnicodeFiles<&str>) -> Result<(), AllocError> {
    add_option(line, "classes", Some(paths.classes))?;
    add_option(line, "brackets", Some(paths.brackets))?;
    add_option(line, "mirroring", Some(paths.mirroring))?;
    match &paths.joining {
        Some(paths) => {
            add_option(line, "joining", Some(paths.joining))?;
            add_option(line, "characters", Some(paths.characters))
        }
        None => Ok(()),
    }
}

/// Appends the options that are given, after the window's size and the direction.
fn add_options(line: &mut String, options: &Options<'_>) -> Result<(), AllocError> {
    let (rows, columns) = (options.rows, options.cols);
    let direction = match options.direction {
        Base::Auto => "auto",
        Base::Ltr => "ltr",
        Base::Rtl => "rtl",
    };
    write!(line, "{rows} {columns} {direction}")?;
    add_paths(line, &options.unicode)?;
    for (name, value) in [
        ("file", Some(options.file)),
        ("text", options.text),
        ("journal", options.journal),
        ("replay", options.replay),
        ("to", options.to),
        ("against", options.against),
        ("saves", options.saves),
        ("before", options.before),
        ("name", options.name),
    ] {
        add_option(line, name, value)?;
    }
    for (name, is_given) in [
        ("check", options.check),
        ("unsaved", options.unsaved),
        ("clipboard", options.clipboard),
        ("new", options.is_new),
        ("frames", options.frames),
        ("erases-by-delete", options.erases_by_delete),
        ("view", options.view),
        ("indent", options.indent),
    ] {
        if is_given {
            write!(line, " {name}")?;
        }
    }
    if let Some(number) = options.line {
        write!(line, " line={number}")?;
    }
    if options.spaces > 0 {
        let number = options.spaces;
        write!(line, " spaces={number}")?;
    }
    Ok(())
}

/// Answers the words of a command line.
fn answer(alloc: Global, words: &[&str]) -> Result<String, WordFault> {
    let mut line = String::new(alloc);
    match bx_command::command_line(alloc, words) {
        Ok(options) => add_options(&mut line, &options)?,
        Err(error) => {
            let kind = error.kind();
            write!(line, "refused: {kind:?}")?;
        }
    }
    Ok(line)
}

/// Answers a `command` line.
pub fn command_line(alloc: Global, fields: &[&str]) -> Result<String, WordFault> {
    match fields {
        ["-"] => answer(alloc, &[]),
        words => answer(alloc, words),
    }
}
