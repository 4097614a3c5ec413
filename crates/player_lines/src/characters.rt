//! Characters given by their codes, and what is found for a paragraph of them: levels, the order in one row, clusters.
ghost use Rattle.std.specs.Prelude.{All, IfOk};
ghost use Rattle.bx_rows.specs.cells.UnitFacts.{StandsIn};

use crate::words::{WordFault, count_of, field};
use crate::writing::{add_blank, add_none};
use bx_levels::{Levels, levels};
use bx_rows::{Face, Unit, visual};
use bx_rows_laws::row_levels;
use bx_ucd::{BidiData, Class, Tables};
use std::alloc::{AllocError, Global};

/// The columns of the window in which clusters are found, which do not affect them.
const COLUMNS: u16 = 80;

/// Parses a character from its hexadecimal code.
pub fn character_of(code: &str) -> Result<char, WordFault> {
    match u32::from_str_radix(code, 16) {
        Ok(code) => char::from_u32(code).ok_or(WordFault::Bad("no character has this code")),
        Err(_) => Err(WordFault::Bad("a hexadecimal code is wanted")),
    }
}

/// Parses CODES.
fn text_of(alloc: Global, codes: &str) -> Result<String, WordFault> {
    let mut text = String::new(alloc);
    if codes == "-" {
        return Ok(text);
    }
    for word in codes.split(' ') {
        let (codes, count) = word.split_once('*').unwrap_or((word, "1"));
        for _ in 0..count_of(count)? {
            for code in codes.split('.') {
                text.push(character_of(code)?)?;
            }
        }
    }
    Ok(text)
}

/// Appends a level, after a blank unless it is the first of its field; `x` for a character that X9 removes.
fn add_level(line: &mut String, level: Option<u8>) -> Result<(), AllocError> {
    add_blank(line)?;
    match level {
        Some(level) => write!(line, "{level}"),
        None => line.push('x'),
    }
}

/// Answers a `levels` line.
pub fn levels_line(alloc: Global, tables: &Tables, fields: &[&str]) -> Result<String, WordFault> {
    let body = text_of(alloc, field(fields, 0)?)?;
    let found = levels(alloc, body.as_str(), tables, field(fields, 1)?.parse()?)?;
    let paragraph = found.paragraph;
    let mut line = format!(in alloc; "{paragraph}\t")?;
    for level in &found.each {
        add_level(&mut line, level.get())?;
    }
    add_none(&mut line)?;
    Ok(line)
}

/// A paragraph's body: its text without a separator at the end.
fn body_of<'a>(text: &'a str, tables: &Tables) -> &'a str {
    match text.chars().next_back() {
        Some(last) if matches!(tables.class(last), Class::B) => {
            text.strip_suffix(last).unwrap_or(text)
        }
        _ => text,
    }
}

/// A unit for the character `c` of a body at the byte offset `start`.
fn character_unit(body: &str, start: usize, c: char) -> Result<Unit, WordFault>
    ensures { IfOk result (λ unit. StandsIn body.now unit) }
{
    let stop = start.saturating_add(c.len_utf8());
    if start > stop || !body.is_char_boundary(start) || !body.is_char_boundary(stop) {
        return Err(WordFault::Bad("no character stands here"));
    }
    Ok(Unit {
        start,
        stop,
        face: Face::Own(1),
    })
}

/// A unit for each character: Unicode's suites give levels to characters, even to several in one cluster.
fn character_units(alloc: Global, body: &str) -> Result<Vec<Unit>, WordFault>
    ensures { IfOk result (λ units. All (StandsIn body.now) units.items) }
{
    let mut units = Vec::new(alloc);
    for (start, c) in body.char_indices() {
        let unit = character_unit(body, start, c)?;
        units.push(unit)?;
    }
    Ok(units)
}

/// Whether X9 removes the character of this number.
fn is_removed(levels: &Levels, number: usize) -> bool {
    match levels.each.get(number) {
        Some(level) => level.get().is_none(),
        None => false,
    }
}

/// Answers an `order` line.
pub fn order_line(alloc: Global, tables: &Tables, fields: &[&str]) -> Result<String, WordFault> {
    let text = text_of(alloc, field(fields, 0)?)?;
    let body = body_of(text.as_str(), tables);
    let found = levels(alloc, body, tables, field(fields, 1)?.parse()?)?;
    let units = character_units(alloc, body)?;
    let mut each = row_levels(alloc, body, &units, &found, tables)?;
    // L1: a separator gets the paragraph level
    if body.len() < text.len() {
        each.push(found.paragraph)?;
    }
    let paragraph = found.paragraph;
    let mut line = format!(in alloc; "{paragraph}\t")?;
    for (number, level) in each.iter().enumerate() {
        add_level(
            &mut line,
            if is_removed(&found, number) {
                None
            } else {
                Some(*level)
            },
        )?;
    }
    add_none(&mut line)?;
    line.push('\t')?;
    for number in &visual(alloc, &each)? {
        if !is_removed(&found, *number) {
            add_blank(&mut line)?;
            write!(line, "{number}")?;
        }
    }
    add_none(&mut line)?;
    Ok(line)
}

/// Answers a `clusters` line.
pub fn clusters_line(alloc: Global, tables: &Tables, fields: &[&str]) -> Result<String, WordFault> {
    let body = text_of(alloc, field(fields, 0)?)?;
    let mut line = String::from_str(alloc, "÷")?;
    for unit in &bx_rows::units(alloc, body.as_str(), tables, COLUMNS)? {
        let cluster = body.as_str().get(unit.start..unit.stop).unwrap_or("");
        for (number, c) in cluster.chars().enumerate() {
            let (sign, code) = (if number > 0 { " ×" } else { "" }, c as u32);
            write!(line, "{sign} {code:04X}")?;
        }
        line.push_str(" ÷")?;
    }
    Ok(line)
}
