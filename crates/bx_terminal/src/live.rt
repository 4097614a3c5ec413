//! A terminal that has not failed: its state, and what one byte changes. `reading.rt` reads many bytes.

ghost use Rattle.std.specs.Prelude.{◌≡◌, ℕ, ◌*◌, ◌<◌, ◌≤◌, List, [], ◌∷◌, ◌++◌, length, replicate, nat_eq, drop, true, IsTrue, ◌↔◌, IfOk, OnOk};
ghost use Rattle.bx_grid.specs.Columns as spec;
ghost use Rattle.bx_grid.specs.Picture.{Shows};
ghost use Rattle.bx_bytes.specs.Pattern.{fate_in};
ghost use Rattle.bx_bytes.specs.Utf8.{characters};
ghost use Rattle.bx_grid.specs.Columns.{run_columns};
ghost use Rattle.bx_grid.specs.Tokens.{fate};
ghost use Rattle.bx_grid.specs.Terminal.{Terminal, all_unknown, after_move, after_clear, after_erase, after_rendition, after_command, glyphs_put, run_ended};
ghost use Rattle.bx_grid.specs.Terminal.{character_read, token_read, after_first_byte, after_next_byte, byte_read, reads, after_resize};
ghost use Rattle.bx_common.specs.Characters.{largest_side};

use crate::columns::{erase_at, fill_unknown, show_at, unknown_columns};
use crate::strings::escape_command;
use crate::token::{ESCAPE, fate_of};
use crate::width::text_width;
use bx_bytes::{Fate, character};
use bx_common::is_control;
use bx_grid::{Column, Command, GlyphRun, Picture, all_same, fill_blank};
use std::alloc::{AllocError, Global};
use std::marker::Model;
use std::mem;

mod reading;

/// The state of a terminal, as `Terminal` of `bx_grid` says it.
#[derive(Drop)]
pub struct Live {
    /// Number of rows, from 1 to 500.
    height: u16,
    /// Number of columns of a row, from 1 to 500.
    width: u16,
    /// Row by row.
    columns: Vec<Column>,
    /// Row and column of the cursor, from 0; None if they are unknown, as after a glyph in a row's last column.
    position: Option<(u16, u16)>,
    /// Whether the rendition is negative; None if it is unknown.
    negative: Option<bool>,
    /// Printable characters that are not shown yet, since later ones may extend them.
    run: String,
    /// The bytes of a character, a control sequence or a string whose last byte is not read yet.
    half_read: Vec<u8>,
}

impl Model for Live {
    ghost use Rattle.bx_grid.specs.Terminal.{Terminal};

    ghost Value = { Terminal };

    ghost use Rattle.bx_terminal.specs.Live.{terminal_of, IsLive};

    ghost view = { terminal_of };

    ghost invariant = { IsLive };
}

impl Live {
    /// A terminal of this many rows and columns, whose content is unknown.
    pub fn new(alloc: Global, height: u16, width: u16) -> Result<Live, AllocError>
        requires tall { (1 ≤ height) × (height ≤ largest_side) }
        requires wide { (1 ≤ width) × (width ≤ largest_side) }
        ensures { IfOk result (λ t. t ≡ record {
          height = height;
          width = width;
          columns = replicate (height * width) spec.Unknown;
          position = None;
          negative = None;
          run = [];
          half_read = [];
        }) }
    {
        let columns = unknown_columns(alloc, height as usize * width as usize)?;
        Ok(Live {
            height,
            width,
            columns,
            position: None,
            negative: None,
            run: String::new(alloc),
            half_read: Vec::new(alloc),
        })
    }

    /// Makes the whole state unknown, with nothing half read.
    fn forget(&mut self)
        ensures { self.new ≡ all_unknown self.old }
    {
        fill_unknown(self.columns.as_mut_slice());
        self.position = None;
        self.negative = None;
        self.run.clear();
        self.half_read.clear();
    }

    /// Obeys `CSI m`: sets the rendition.
    fn render(&mut self, negative: bool)
        ensures { self.new ≡ after_rendition self.old negative }
    {
        self.negative = Some(negative);
    }

    /// Obeys `CSI H`: moves the cursor, to a line and a column from 1. Outside the window the whole state becomes unknown.
    #[inline(always)]
    fn go_to(&mut self, line: u16, column: u16)
        ensures { self.new ≡ after_move self.old line column }
    {
        if 1 <= line && line <= self.height && 1 <= column && column <= self.width {
            self.position = Some((line - 1, column - 1));
        } else {
            self.forget();
        }
    }

    /// Obeys `CSI 2 J`: if the rendition is normal, blanks all, and the position is then unknown; else the whole state becomes
    /// unknown.
    fn clear(&mut self)
        ensures { self.new ≡ after_clear self.old self.old.negative }
    {
        if self.negative == Some(false) {
            let count = self.columns.len();
            fill_blank(self.columns.as_mut_slice(), 0, count);
            self.position = None;
        } else {
            self.forget();
        }
    }

    /// Obeys `CSI K`: if the position is known and the rendition is normal, blanks the row from the cursor on, and the position
    /// is then unknown; else the whole state becomes unknown.
    fn erase(&mut self)
        ensures { self.new ≡ after_erase self.old self.old.position self.old.negative }
    {
        match (self.position, self.negative) {
            (Some((row, column)), Some(false)) => {
                let width = self.width as usize;
                erase_at(
                    self.columns.as_mut_slice(),
                    width,
                    row as usize,
                    column as usize,
                );
                self.position = None;
            }
            _ => self.forget(),
        }
    }

    /// Obeys the command of a control sequence or a string.
    #[inline(always)]
    fn obey(&mut self, command: Command)
        ensures { self.new ≡ after_command self.old command }
    {
        match command {
            Command::Move(line, column) => self.go_to(line, column),
            Command::Clear => self.clear(),
            Command::Erase => self.erase(),
            Command::Render(negative) => self.render(negative),
            Command::Clip => {}
            Command::Other => self.forget(),
        }
    }

    /// Puts a text's glyphs at a row and a column, from 0, and empties the run. If they do not fit, the whole state becomes
    /// unknown.
    fn put_text(
        &mut self,
        row: u16,
        column: u16,
        negative: bool,
        text: &str,
    ) -> Result<(), AllocError>
        requires { (row < self.old.height) × (column < self.old.width) }
        ensures { OnOk result (self.new ≡ glyphs_put self.old (row, column) (run_columns negative text.now)) }
    {
        let alloc = *self.columns.allocator();
        let count = text_width(text);
        if count < 1 || count > (self.width - column) as usize {
            self.forget();
            return Ok(());
        }
        let run = GlyphRun {
            text,
            width: count as u16,
            negative,
        };
        let width = self.width as usize;
        let columns = self.columns.as_mut_slice();
        show_at(alloc, columns, width, row as usize, column as usize, run)?;
        let end = column + count as u16;
        self.position = if end < self.width {
            Some((row, end))
        } else {
            None
        };
        self.run.clear();
        Ok(())
    }

    /// Puts the run's glyphs at a row and a column, from 0, and empties the run. Keeps the run's buffer for the next run.
    fn put_run(&mut self, row: u16, column: u16, negative: bool) -> Result<(), AllocError>
        requires { (row < self.old.height) × (column < self.old.width) }
        ensures { OnOk result (self.new ≡ glyphs_put self.old (row, column) (run_columns negative self.old.run)) }
    {
        let alloc = *self.columns.allocator();
        let mut run = mem::replace(&mut self.run, String::new(alloc));
        self.put_text(row, column, negative, run.as_str())?;
        run.clear();
        self.run = run;
        Ok(())
    }

    /// Puts the run's glyphs, if it is not empty; where position or rendition is unknown, the whole state becomes unknown.
    #[inline(always)]
    fn end_run(&mut self) -> Result<(), AllocError>
        ensures { OnOk result (self.new ≡ run_ended self.old) }
    {
        if self.run.as_bytes().is_empty() {
            return Ok(());
        }
        match self.position {
            None => {
                self.forget();
                Ok(())
            }
            Some((row, column)) => match self.negative {
                None => {
                    self.forget();
                    Ok(())
                }
                Some(negative) => self.put_run(row, column, negative),
            },
        }
    }

    /// Puts the glyphs of the run and then of a text, if possible without copying the text to the run.
    #[inline(always)]
    fn show(&mut self, text: &str) -> Result<(), AllocError>
        ensures { OnOk result (self.new ≡ run_ended (record self.old { run = self.old.run ++ text.now })) }
    {
        if self.run.as_bytes().is_empty() && !text.as_bytes().is_empty() {
            if let (Some((row, column)), Some(negative)) = (self.position, self.negative) {
                return self.put_text(row, column, negative, text);
            }
        }
        self.run.push_str(text)?;
        self.end_run()
    }

    /// Reads the last byte of a character, which joins the run; a control makes the whole state unknown.
    fn end_character(&mut self, byte: u8) -> Result<(), AllocError>
        requires { fate_in characters (self.old.half_read ++ byte ∷ []) ≡ Fate.Ends }
        ensures { OnOk result (self.new ≡ character_read self.old (self.old.half_read ++ byte ∷ [])) }
    {
        let c = character(self.half_read.as_slice(), byte);
        if is_control(c) {
            self.forget();
        } else {
            self.half_read.clear();
            self.run.push(c)?;
        }
        Ok(())
    }

    /// Reads the last byte of a sequence or a string, and obeys it.
    fn end_sequence(&mut self, byte: u8) -> Result<(), AllocError>
        requires { self.old.half_read ++ byte ∷ [] ≡ 0x1B ∷ drop 1 (self.old.half_read ++ byte ∷ []) }
        ensures { OnOk result (self.new ≡ token_read self.old (self.old.half_read ++ byte ∷ [])) }
    {
        let alloc = *self.columns.allocator();
        self.half_read.push(byte)?;
        let command = escape_command(alloc, &self.half_read[1..]);
        self.half_read.clear();
        self.obey(command?);
        Ok(())
    }

    /// Reads a byte where no token is half read. An ESC ends the run; a byte that begins no token makes the whole state unknown.
    fn begin(&mut self, byte: u8) -> Result<(), AllocError>
        requires { self.old.half_read ≡ [] }
        ensures { OnOk result (self.new ≡ after_first_byte self.old byte) }
    {
        if byte == ESCAPE {
            self.end_run()?;
            self.half_read.push(byte)?;
            return Ok(());
        }
        match fate_of(&[], byte) {
            Fate::Waits => self.half_read.push(byte)?,
            Fate::Ends => self.end_character(byte)?,
            Fate::Breaks => self.forget(),
        }
        Ok(())
    }

    /// Reads a byte after a half-read token. If it breaks the token, the whole state becomes unknown, and the byte is read as a
    /// first one.
    fn go_on(&mut self, byte: u8) -> Result<(), AllocError>
        requires { 0 < length self.old.half_read }
        ensures { OnOk result (self.new ≡ after_next_byte self.old byte (fate (self.old.half_read ++ byte ∷ []))) }
    {
        match fate_of(self.half_read.as_slice(), byte) {
            Fate::Waits => self.half_read.push(byte)?,
            Fate::Ends => {
                if self.half_read[0] == ESCAPE {
                    self.end_sequence(byte)?;
                } else {
                    self.end_character(byte)?;
                }
            }
            Fate::Breaks => {
                self.forget();
                self.begin(byte)?;
            }
        }
        Ok(())
    }

    /// Reads one byte.
    fn read_byte(&mut self, byte: u8) -> Result<(), AllocError>
        ensures { OnOk result (self.new ≡ byte_read self.old byte) }
    {
        if self.half_read.is_empty() {
            self.begin(byte)
        } else {
            self.go_on(byte)
        }
    }

    /// Takes another size, which makes the content unknown. Half-read bytes stay.
    pub fn resize(&mut self, height: u16, width: u16) -> Result<(), AllocError>
        requires tall { (1 ≤ height) × (height ≤ largest_side) }
        requires wide { (1 ≤ width) × (width ≤ largest_side) }
        ensures { OnOk result (self.new ≡ after_resize self.old height width) }
    {
        let alloc = *self.columns.allocator();
        let columns = unknown_columns(alloc, height as usize * width as usize)?;
        self.columns = columns;
        self.height = height;
        self.width = width;
        self.position = None;
        self.negative = None;
        Ok(())
    }

    /// Whether the terminal shows the picture.
    pub fn shows(&self, picture: &Picture) -> bool
        ensures { IsTrue result ↔ Shows self.now picture.now }
    {
        let grid = picture.grid();
        let cursor = picture.cursor();
        if !self.run.is_empty() || !self.half_read.is_empty() {
            return false;
        }
        if self.height != grid.height() || self.width != grid.width() {
            return false;
        }
        if self.negative != Some(false) {
            return false;
        }
        match self.position {
            Some((row, column)) => {
                row == cursor.line - 1
                    && column == cursor.column - 1
                    && all_same(self.columns.as_slice(), grid.columns())
            }
            None => false,
        }
    }
}
