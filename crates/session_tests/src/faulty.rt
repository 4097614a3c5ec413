//! A reader and a writer that fail.

use std::io::{self, ErrorKind, Read, Write};

/// Gives one letter `x` at each of `left` reads, then fails.
#[derive(Drop)]
pub(crate) struct Letters {
    /// Number of reads until it fails.
    pub(crate) left: usize,
}

impl Read for Letters {
    fn read(&mut self, buf: &mut [u8]) -> io::Result<usize> {
        if self.left == 0 || buf.is_empty() {
            return Err(ErrorKind::Other.into());
        }
        self.left -= 1;
        buf[0] = b'x';
        Ok(1)
    }
}

/// How a write fails.
#[derive(Clone, Copy)]
pub(crate) enum Refusal {
    /// The write fails.
    Error,
    /// The write succeeds with no byte.
    Nothing,
}

/// Takes one byte a write, up to `room` bytes, and flushes `flushes` times; then it fails.
#[derive(Drop)]
pub(crate) struct Narrow {
    /// What was taken.
    pub(crate) written: Vec<u8>,
    /// Number of bytes that it still takes.
    pub(crate) room: usize,
    /// Number of flushes until they fail.
    pub(crate) flushes: usize,
    /// How a write fails.
    pub(crate) refusal: Refusal,
}

impl Write for Narrow {
    fn write(&mut self, buf: &[u8]) -> io::Result<usize> {
        if self.room == 0 || buf.is_empty() {
            return match self.refusal {
                Refusal::Error => Err(ErrorKind::Other.into()),
                Refusal::Nothing => Ok(0),
            };
        }
        self.room -= 1;
        self.written.push(buf[0])?;
        Ok(1)
    }

    fn flush(&mut self) -> io::Result<()> {
        if self.flushes == 0 {
            return Err(ErrorKind::Other.into());
        }
        self.flushes -= 1;
        Ok(())
    }
}
