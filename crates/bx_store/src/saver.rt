//! What a `HostStore` tells and asks: the saver, which keeps the file (`bidi-saver` of the host), and its two pipes.
ghost use Rattle.std.specs.Prelude.{◌≡◌, ◌≤◌, ◌+◌, ◌++◌, [], true, false, length, IfOk, OnOk, OnErr, IsErr};
ghost use Rattle.std.specs.Io.KnownBytes.{Appends, Consumes, Keeps};
ghost use Rattle.std.specs.Io.Buffered.{writer_buffer, writer_contents};
ghost use Rattle.bx_store.specs.Frames.{answer_bytes, frame};

use std::io::{self, BufWriter, ErrorKind, Read, Write};

const DONE: u8 = b'k';

const FAILED: u8 = b'x';

/// An answer to a frame.
#[derive(Clone, Copy, Debug)]
pub enum Answer {
    /// It was done.
    Done,
    /// It was not, for the cause with this byte.
    Failed(u8),
}

/// The reader of a save's frames, which answers BEGIN and COMMIT.
pub trait Saver {
    ghost use Rattle.std.specs.Prelude.{◌≡◌, ◌≤◌, ◌+◌, ◌++◌, length, Option, option_map, IfOk, OnOk, OnErr};
    ghost use Rattle.bx_store.specs.Talk.{Talk, flushed, heard, lost, sent};

    /// What was told and answered; None if that is not known.
    ghost talk: { Self → Option Talk };

    /// Writes a frame, whose bytes are in two parts.
    fn send(&mut self, letter: u8, first: &[u8], bytes: &[u8]) -> io::Result<()>
        requires { length first.now + length bytes.now ≤ 65535 }
        ensures sent { OnOk result (talk self.new ≡ option_map (sent letter (first.now ++ bytes.now)) (talk self.old)) }
        ensures lost { OnErr result (talk self.new ≡ option_map lost (talk self.old)) };

    /// Sends all that was written.
    fn flush(&mut self) -> io::Result<()>
        ensures flushed { OnOk result (talk self.new ≡ option_map flushed (talk self.old)) }
        ensures lost { OnErr result (talk self.new ≡ option_map lost (talk self.old)) };

    /// Waits for the answer to what was flushed last.
    fn answer(&mut self) -> io::Result<Answer>
        ensures heard { IfOk result (λ answer. talk self.new ≡ option_map (heard answer) (talk self.old)) }
        ensures lost { OnErr result (talk self.new ≡ option_map lost (talk self.old)) };
}

/// A saver at the other end of two pipes. Nothing is known of what it has: the bytes of the pipes are stated.
#[derive(Drop)]
pub struct SaverPipes<R: Read + Drop, W: Write + Drop> {
    answers: R,
    requests: BufWriter<W>,
}

impl<R: Read + Drop, W: Write + Drop> SaverPipes<R, W> {
    /// The saver that reads `requests` and writes `answers`.
    pub fn new(answers: R, requests: BufWriter<W>) -> Self
        ensures answers { result.answers ≡ answers }
        ensures requests { result.requests ≡ requests }
    {
        SaverPipes { answers, requests }
    }
}

impl<R: Read + Drop, W: Write + Drop> Saver for SaverPipes<R, W> {
    ghost use Rattle.bx_store.specs.Asking.{no_talk};

    ghost talk = { λ _. no_talk };

    fn send(&mut self, letter: u8, first: &[u8], bytes: &[u8]) -> io::Result<()>
        requires { length first.now + length bytes.now ≤ 65535 }
        ensures sent { OnOk result (no_talk ≡ no_talk) }
        ensures lost { OnErr result (no_talk ≡ no_talk) }
        ensures bytes { OnOk result (Appends (writer_contents W.contents self.old.requests) (writer_contents W.contents self.new.requests)
            (frame letter (first.now ++ bytes.now))) }
        ensures answers { self.new.answers ≡ self.old.answers }
    {
        let count = first.len() + bytes.len();
        let head = [letter, (count / 256) as u8, (count % 256) as u8];
        self.requests.write_all(&head)?;
        self.requests.write_all(first)?;
        self.requests.write_all(bytes)
    }

    fn flush(&mut self) -> io::Result<()>
        ensures flushed { OnOk result (no_talk ≡ no_talk) }
        ensures lost { OnErr result (no_talk ≡ no_talk) }
        ensures bytes { Keeps (writer_contents W.contents self.old.requests) (writer_contents W.contents self.new.requests) }
        ensures empty { OnOk result (writer_buffer self.new.requests ≡ []) }
        ensures answers { self.new.answers ≡ self.old.answers }
    {
        self.requests.flush()
    }

    fn answer(&mut self) -> io::Result<Answer>
        ensures heard { IfOk result (λ answer. no_talk ≡ no_talk) }
        ensures lost { OnErr result (no_talk ≡ no_talk) }
        ensures bytes { IfOk result (λ answer. Consumes (R.remaining self.old.answers) (R.remaining self.new.answers) (answer_bytes answer)) }
        ensures requests { self.new.requests ≡ self.old.requests }
    {
        let mut head = [0; 3];
        self.answers.read_exact(&mut head)?;
        match head {
            [DONE, 0, 0] => Ok(Answer::Done),
            [FAILED, 0, 1] => {
                let mut cause = [0; 1];
                self.answers.read_exact(&mut cause)?;
                Ok(Answer::Failed(cause[0]))
            }
            _ => Err(io::Error::from(ErrorKind::InvalidData)),
        }
    }
}
