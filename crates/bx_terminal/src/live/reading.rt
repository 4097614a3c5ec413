//! Reading: whole sequences and texts at once, all else byte by byte.

ghost use Rattle.std.specs.Prelude.{◌≡◌, ◌<◌, ◌≤◌, [], length, get_or, drop, IfOk, OnOk};
ghost use Rattle.bx_grid.specs.Terminal.{after_command, run_ended, reads};

use crate::live::Live;
use crate::sequence::{first_sequence, text_len};
use crate::text::text_before_escape;
use crate::token::ESCAPE;
use bx_common::are_printable;
use bx_grid::Command;
use std::alloc::AllocError;

impl Live {
    /// Ends the run and obeys a whole sequence, where no token is half read.
    fn obey_sequence(&mut self, command: Command) -> Result<(), AllocError>
        ensures { OnOk result (self.new ≡ after_command (run_ended self.old) command) }
    {
        self.end_run()?;
        self.obey(command);
        Ok(())
    }

    /// Reads byte by byte.
    fn read_bytes(&mut self, bytes: &[u8]) -> Result<(), AllocError>
        ensures { OnOk result (self.new ≡ reads self.old bytes.now) }
    {
        for byte in bytes {
            self.read_byte(*byte)?;
        }
        Ok(())
    }

    /// Reads bytes where no token is half read, at once if they are a text without controls.
    fn read_text(&mut self, bytes: &[u8]) -> Result<(), AllocError>
        requires { self.old.half_read ≡ [] }
        ensures { OnOk result (self.new ≡ reads self.old bytes.now) }
    {
        match str::from_utf8(bytes) {
            Ok(text) if are_printable(text) => {
                self.run.push_str(text)?;
                Ok(())
            }
            _ => self.read_bytes(bytes),
        }
    }

    /// Reads `count` bytes where no token is half read and an escape follows them. Shows a text without controls at once,
    /// since the escape ends the run.
    fn read_before_escape(&mut self, bytes: &[u8], count: usize) -> Result<(), AllocError>
        requires idle { self.old.half_read ≡ [] }
        requires within { count < length bytes.now }
        requires escape { get_or bytes.now count 0 ≡ 0x1B }
        ensures { OnOk result (reads self.new (drop count bytes.now) ≡ reads self.old bytes.now) }
    {
        match str::from_utf8(&bytes[..count]) {
            Ok(text) if are_printable(text) => self.show(text),
            _ => self.read_bytes(&bytes[..count]),
        }
    }

    /// Reads the first sequence or text, or else one byte, and returns its length in bytes.
    fn read_front(&mut self, bytes: &[u8]) -> Result<usize, AllocError>
        requires { 0 < length bytes.now }
        ensures read { IfOk result (λ count. reads self.new (drop count bytes.now) ≡ reads self.old bytes.now) }
        ensures some { IfOk result (λ count. (1 ≤ count) × (count ≤ length bytes.now)) }
    {
        if self.half_read.is_empty() {
            if let Some(sequence) = first_sequence(bytes) {
                self.obey_sequence(sequence.command)?;
                return Ok(sequence.len);
            }
            if let Some(text) = text_before_escape(bytes) {
                self.show(text)?;
                return Ok(text.len());
            }
            let count = text_len(bytes);
            if count > 0 {
                if count < bytes.len() && bytes[count] == ESCAPE {
                    self.read_before_escape(bytes, count)?;
                    return Ok(count);
                }
                self.read_text(&bytes[..count])?;
                return Ok(count);
            }
        }
        self.read_byte(bytes[0])?;
        Ok(1)
    }

    /// Reads all bytes, in order.
    pub fn read(&mut self, bytes: &[u8]) -> Result<(), AllocError>
        ensures { OnOk result (self.new ≡ reads self.old bytes.now) }
    {
        let mut index = 0;
        while index < bytes.len() {
            index += self.read_front(&bytes[index..])?;
        }
        Ok(())
    }
}
