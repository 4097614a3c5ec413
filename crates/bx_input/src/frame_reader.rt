//! A reader of the host's pipe, which gives what the session reads.

ghost use Rattle.std.specs.Prelude.{◌≡◌, ◌++◌, ℕ, List, [], Ok, true, false, OnOk, option_map};
ghost use Rattle.std.specs.Io.KnownBytes.{IsAtEnd, Keeps};
ghost use Rattle.bx_input.specs.Heard.{left};

use crate::inbox::Inbox;
use std::alloc::Global;
use std::io::{self, ErrorKind, Read};

/// How many bytes of the pipe are read at once.
const CHUNK: usize = 4096;

/// Reads the frames that the host writes to a pipe (`host/frames.h`), and gives the session what they mean. What it gives until its
/// end is exactly the translation of all that the pipe has (`left` of specs/Heard.antt).
#[derive(Drop)]
pub struct FrameReader<R: Read + Drop> {
    inbox: Inbox,
    reader: R,
}

/// Reads once from the pipe. Returns the number of bytes that were read, 0 at its end.
fn hear<R: Read>(inbox: &mut Inbox, reader: &mut R) -> io::Result<usize>
    requires ready { inbox.old.ready ≡ [] }
    requires open { inbox.old.is_over ≡ false }
    ensures left { Keeps (option_map (left inbox.old) (R.remaining reader.old)) (option_map (left inbox.new) (R.remaining reader.new)) }
    ensures ready { inbox.new.ready ≡ [] }
    ensures open { inbox.new.is_over ≡ false }
    ensures end { result ≡ Ok 0 → IsAtEnd (R.remaining reader.new) × (inbox.new ≡ inbox.old) }
{
    let start = inbox.held.len();
    inbox.held.resize(start + CHUNK, 0)?;
    let answer = reader.read(&mut inbox.held[start..]);
    let count = match &answer {
        Ok(count) => *count,
        Err(_) => 0,
    };
    inbox.held.truncate(start + count);
    answer
}

/// Reads the pipe until something is there for the session, or the pipe has ended.
fn fill<R: Read>(inbox: &mut Inbox, reader: &mut R) -> io::Result<()>
    ensures left { Keeps (option_map (left inbox.old) (R.remaining reader.old)) (option_map (left inbox.new) (R.remaining reader.new)) }
    ensures end { OnOk result (inbox.new.ready ≡ [] → inbox.new.is_over ≡ true) }
{
    for _ in 0..u64::MAX {
        if inbox.is_settled() {
            return Ok(());
        }
        if !inbox.take_frame()? && hear(inbox, reader)? == 0 {
            inbox.finish()?;
        }
    }
    Err(ErrorKind::Other.into())
}

impl<R: Read + Drop> FrameReader<R> {
    /// Reads frames from `reader`. `erases_by_delete` says whether the terminal's own erase character is DELETE, 7F.
    pub fn new(alloc: Global, reader: R, erases_by_delete: bool) -> Self {
        FrameReader {
            inbox: Inbox::new(alloc, erases_by_delete),
            reader,
        }
    }
}

impl<R: Read + Drop> Read for FrameReader<R> {
    ghost remaining = { λ s. option_map (left s.inbox) (R.remaining s.reader) };

    fn read(&mut self, buffer: &mut [u8]) -> io::Result<usize> {
        fill(&mut self.inbox, &mut self.reader)?;
        Ok(self.inbox.give(buffer))
    }
}
