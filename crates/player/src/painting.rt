//! The bytes that paint pictures, and what a terminal shows after bytes.

use crate::scene::{Look, look_of};
use crate::terminal::Terminal;
use bx_grid::{Cell, GridError, Picture};
use bx_paint::{changes, whole};
use bx_world::Step;
use player_lines::{
    RowFault, WordFault, add_blank, add_bytes, bytes_of, field, picture_of, side_of, two_of,
};
use std::alloc::Global;

/// Parses the rows and the columns of a line.
fn size_of(fields: &[&str]) -> Result<(u16, u16), WordFault> {
    Ok((side_of(field(fields, 0)?)?, side_of(field(fields, 1)?)?))
}

/// The picture of a word that looks at rows.
fn picture_in(alloc: Global, size: (u16, u16), word: &str) -> Result<Picture, WordFault> {
    let Look::Rows { line, column, rows } = look_of(word)? else {
        return Err(WordFault::Bad("rows=LINE;COLUMN:ROW|ROW.. is wanted"));
    };
    match picture_of(alloc, size.0, size.1, rows, Cell { line, column }) {
        Ok(picture) => Ok(picture),
        Err(RowFault::NoPicture) => Err(WordFault::Bad("no picture has these rows")),
        Err(RowFault::OutOfMemory) => Err(WordFault::OutOfMemory),
    }
}

/// The bytes that paint a picture: whole, or its changes where the one before is known.
fn painting_of(
    alloc: Global,
    before: Option<&Picture>,
    next: &Picture,
) -> Result<Vec<u8>, WordFault> {
    let Some(before) = before else {
        return Ok(whole(alloc, next)?);
    };
    let (old, new) = (before.grid(), next.grid());
    if old.height() != new.height() || old.width() != new.width() {
        return Err(WordFault::Bad("pictures of one size are wanted"));
    }
    Ok(changes(alloc, before, next)?)
}

/// Answers a `paint` line.
pub fn paint_line(alloc: Global, fields: &[&str]) -> Result<String, WordFault> {
    let size = size_of(fields)?;
    let mut line = String::new(alloc);
    let mut shown: Option<Picture> = None;
    for word in fields.iter().skip(2) {
        let next = picture_in(alloc, size, word)?;
        let bytes = painting_of(alloc, shown.as_ref(), &next)?;
        add_blank(&mut line)?;
        add_bytes(&mut line, &bytes)?;
        shown = Some(next);
    }
    Ok(line)
}

/// Takes a step of a `screen` line, and appends what is found.
fn show(
    line: &mut String,
    alloc: Global,
    terminal: &mut Terminal,
    word: &str,
) -> Result<(), WordFault> {
    if let Some(digits) = word.strip_prefix("R") {
        let bytes = bytes_of(alloc, digits)?;
        terminal.follow(Step::Read(bytes.len()), &bytes)?;
        return Ok(());
    }
    add_blank(line)?;
    if let Some(size) = word.strip_prefix("W") {
        let (height, width) = two_of(size, ',')?;
        match terminal.resize(height, width) {
            Ok(()) => line.push('o')?,
            Err(GridError::SizeOutOfRange) => line.push('w')?,
            Err(GridError::OutOfMemory) => return Err(WordFault::OutOfMemory),
        };
        return Ok(());
    }
    let Look::Rows {
        line: row,
        column,
        rows,
    } = look_of(word)?
    else {
        return Err(WordFault::Bad("R, W or rows= is wanted"));
    };
    let cursor = Cell { line: row, column };
    terminal.add_shown(line, rows, cursor)?;
    Ok(())
}

/// Answers a `screen` line.
pub fn screen_line(alloc: Global, fields: &[&str]) -> Result<String, WordFault> {
    let (height, width) = size_of(fields)?;
    let mut line = String::new(alloc);
    let mut terminal = match Terminal::open(alloc, height, width) {
        Ok(terminal) => terminal,
        Err(GridError::SizeOutOfRange) => return Ok(String::from_str(alloc, "w")?),
        Err(GridError::OutOfMemory) => return Err(WordFault::OutOfMemory),
    };
    for word in field(fields, 2)?.split(' ') {
        show(&mut line, alloc, &mut terminal, word)?;
    }
    Ok(line)
}
