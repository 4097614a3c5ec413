//! What the tables answer for a character.

use crate::characters::character_of;
use crate::words::{WordFault, field};
use bx_ucd::class::class_name;
use bx_ucd::{BidiData, Form, Joining, Side, Tables};
use std::alloc::{AllocError, Global};

/// A joining type's name.
fn joining_name(joining: Joining) -> &'static str {
    match joining {
        Joining::R => "R",
        Joining::L => "L",
        Joining::D => "D",
        Joining::C => "C",
        Joining::T => "T",
        Joining::U => "U",
    }
}

/// Appends what a character is in a sentence of the answer, and the other character.
fn add_other(line: &mut String, what: &str, other: Option<char>) -> Result<(), AllocError> {
    match other {
        Some(c) => {
            let code = c as u32;
            write!(line, ", {what} U+{code:04X}")
        }
        None => Ok(()),
    }
}

/// Appends the joining type of a character, if it is not U, and the character's forms.
fn add_joining(line: &mut String, tables: &Tables, c: char) -> Result<(), AllocError> {
    let name = joining_name(tables.joining(c));
    if name != "U" {
        write!(line, ", of joining type {name}")?;
    }
    for (form, name) in [
        (Form::Isolated, "isolated"),
        (Form::Initial, "initial"),
        (Form::Medial, "medial"),
        (Form::Final, "final"),
    ] {
        add_other(line, name, tables.form(c, form))?;
    }
    Ok(())
}

/// Answers a `class` line.
pub fn class_line(alloc: Global, tables: &Tables, fields: &[&str]) -> Result<String, WordFault> {
    let code = field(fields, 0)?;
    if code == "-" {
        return Ok(String::from_str(alloc, "accepted")?);
    }
    let c = character_of(code)?;
    let (code, class) = (c as u32, class_name(tables.class(c)));
    let mut line = format!(in alloc; "U+{code:04X} {class}")?;
    match tables.bracket(c) {
        Some((Side::Opener, other)) => add_other(&mut line, "opener of", Some(other))?,
        Some((Side::Closer, other)) => add_other(&mut line, "closer of", Some(other))?,
        None => {}
    }
    add_other(&mut line, "mirrored as", tables.mirror(c))?;
    add_joining(&mut line, tables, c)?;
    Ok(line)
}
