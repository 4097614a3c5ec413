//! A journal of the input, for replay after a crash.

ghost use Rattle.std.specs.Prelude.{◌≡◌, ◌≤◌, ◌++◌, ◌↔◌, ℕ, List, [], IsTrue, IfErr, OnErr, OnOk, length, take, drop, vec_capacity};
ghost use Rattle.std.specs.Io.KnownBytes.{Appends};
ghost use Rattle.bx_session.specs.Journal.{AppendsNew, HasKept, HasTried, Holds};

use bx_bytes::write_all;
use std::alloc::Global;
use std::io::Write;
use std::marker::Model;
use std::mem;
use thiserror::Error;

/// A call of a journal failed.
#[derive(Clone, Copy, Debug, Error)]
#[error("the journal failed after {written} bytes")]
pub struct JournalFault {
    /// The number of the call's bytes that were appended.
    pub written: usize,
}

/// A journal, to which the input's bytes are appended. Each call that returns a fault adds one to the count of failures, up to
/// the largest u64; no other call changes the count.
pub trait Journal {
    ghost use Rattle.std.specs.Prelude.{◌≡◌, ◌≤◌, ℕ, List, Option, IfErr, OnErr, OnOk, length, take};
    ghost use Rattle.std.specs.Io.KnownBytes.{Appends};
    ghost use Rattle.bx_store.specs.Faults.{one_more};

    /// The journal's bytes; None if they are not known.
    ghost contents: { Self → Option (List ℕ) };

    /// The number of calls that returned a fault.
    ghost failure_count: { Self → ℕ };

    /// Appends bytes.
    ///
    /// Errors: `JournalFault`: the first `written` bytes were appended.
    fn append(&mut self, bytes: &[u8]) -> Result<(), JournalFault>
        ensures all { OnOk result (Appends (contents self.old) (contents self.new) bytes.now) }
        ensures count { IfErr result (λ fault. fault.written ≤ length bytes.now) }
        ensures part { IfErr result (λ fault. Appends (contents self.old) (contents self.new) (take fault.written bytes.now)) }
        ensures no_failure { OnOk result (failure_count self.new ≡ failure_count self.old) }
        ensures failure { OnErr result (failure_count self.new ≡ one_more (failure_count self.old)) };
}

/// A journal that keeps nothing.
#[derive(Drop, Clone, Copy)]
pub struct NoJournal;

impl Journal for NoJournal {
    ghost use Rattle.std.specs.Prelude.{None};

    ghost contents = { λ s. None };

    ghost failure_count = { λ s. 0 };

    fn append(&mut self, bytes: &[u8]) -> Result<(), JournalFault> {
        // No byte is kept.
        let _ = bytes;
        Ok(())
    }
}

/// A journal that goes to a writer. Each call flushes.
#[derive(Drop)]
pub struct WrittenJournal<W: Write + Drop> {
    writer: W,
    // the number of calls that returned a fault
    failures: u64,
}

impl<W: Write + Drop> WrittenJournal<W> {
    /// A journal that appends to `writer`.
    pub fn new(writer: W) -> WrittenJournal<W>
        ensures { W.contents result.writer ≡ W.contents writer }
    {
        WrittenJournal {
            writer,
            failures: 0,
        }
    }
}

impl<W: Write + Drop> Journal for WrittenJournal<W> {
    ghost contents = { λ s. W.contents s.writer };

    ghost failure_count = { λ s. s.failures };

    fn append(&mut self, bytes: &[u8]) -> Result<(), JournalFault> {
        let answer = write_out(&mut self.writer, bytes);
        if answer.is_err() {
            self.failures = self.failures.saturating_add(1);
        }
        answer
    }
}

/// Writes all bytes and flushes: `WrittenJournal`'s call, but for its count of failures.
///
/// Errors: `JournalFault` if the writer fails or takes no byte, or if the flush fails: then all bytes count as appended.
fn write_out<W: Write>(writer: &mut W, bytes: &[u8]) -> Result<(), JournalFault>
    ensures all { OnOk result (Appends (W.contents writer.old) (W.contents writer.new) bytes.now) }
    ensures count { IfErr result (λ fault. fault.written ≤ length bytes.now) }
    ensures part { IfErr result (λ fault. Appends (W.contents writer.old) (W.contents writer.new) (take fault.written bytes.now)) }
{
    if let Err(fault) = write_all(writer, bytes) {
        return Err(JournalFault {
            written: fault.written,
        });
    }
    match writer.flush() {
        Ok(()) => Ok(()),
        Err(_) => Err(JournalFault {
            written: bytes.len(),
        }),
    }
}

/// The last bytes of the input so far, which the journal does not have.
#[derive(Drop)]
pub enum Backlog {
    /// All bytes were appended.
    Empty,
    /// These bytes wait in memory to be appended.
    Waiting(Vec<u8>),
    /// These bytes wait too; all bytes after them are lost, since memory ran out. The journal gets no more than these.
    Lost(Vec<u8>),
}

/// Appends the input to a journal. Bytes that the journal refuses wait in memory, and the next call appends them first, so the
/// journal never has a gap. If memory runs out for new bytes, they are lost, with all that come after; those that wait are
/// kept. The session takes the same input in every case.
#[derive(Drop)]
pub struct Recorder<J: Journal + Drop> {
    // the allocator of the waiting bytes
    alloc: Global,
    journal: J,
    backlog: Backlog,
}

impl<J: Journal + Drop> Model for Recorder<J> {
    ghost use Rattle.bx_session.specs.Journal.{RecorderState};

    ghost Value = { RecorderState J };

    ghost view = { λ s. record { journal = s.journal; backlog = s.backlog } };
}

impl<J: Journal + Drop> Recorder<J> {
    ghost use Rattle.std.specs.Prelude.{◌≡◌};
    ghost use Rattle.bx_session.specs.Journal.{HasKept, HasTried};

    /// A recorder that appends to `journal`.
    pub fn new(alloc: Global, journal: J) -> Recorder<J>
        ensures { result ≡ record { journal = journal; backlog = Backlog.Empty } }
    {
        Recorder {
            alloc,
            journal,
            backlog: Backlog::Empty,
        }
    }

    /// Whether the journal has all of the input. Allocates nothing.
    pub fn has_all(&self) -> bool
        ensures { IsTrue result ↔ (self.now.backlog ≡ Backlog.Empty) }
    {
        matches!(&self.backlog, Backlog::Empty)
    }

    /// Appends the waiting bytes, then `bytes`, to the journal. What the journal refuses waits, and what finds no memory is lost.
    pub(crate) fn keep(&mut self, bytes: &[u8])
        ensures keeps { HasKept J.contents J.failure_count self.old self.new bytes.now }
        ensures tries { HasTried J.contents J.failure_count self.old self.new bytes.now }
    {
        let backlog = mem::replace(&mut self.backlog, Backlog::Empty);
        self.backlog = append_to(&mut self.journal, self.alloc, backlog, bytes);
    }
}

/// Appends the bytes that wait, then `bytes`, to a journal. Returns the new backlog.
fn append_to<J: Journal + Drop>(
    journal: &mut J,
    alloc: Global,
    backlog: Backlog,
    bytes: &[u8],
) -> Backlog
    ensures keeps { HasKept J.contents J.failure_count
        (record { journal = journal.old; backlog = backlog })
        (record { journal = journal.new; backlog = result }) bytes.now }
    ensures tries { HasTried J.contents J.failure_count
        (record { journal = journal.old; backlog = backlog })
        (record { journal = journal.new; backlog = result }) bytes.now }
{
    match backlog {
        Backlog::Empty => append_new(journal, Vec::new(alloc), bytes),
        Backlog::Waiting(waiting) => append_waiting(journal, waiting, bytes),
        Backlog::Lost(waiting) => append_last(journal, waiting, bytes),
    }
}

/// Appends bytes where none wait. Those that the journal refuses wait in `room`, an empty vector whose memory is used again.
fn append_new<J: Journal + Drop>(journal: &mut J, room: Vec<u8>, bytes: &[u8]) -> Backlog
    requires { room.items ≡ [] }
    ensures appends { AppendsNew J.contents J.failure_count journal.old journal.new (vec_capacity room) result bytes.now }
{
    match journal.append(bytes) {
        Ok(()) => Backlog::Empty,
        Err(fault) => held(room, &bytes[fault.written..]),
    }
}

/// Appends the waiting bytes, then `bytes`. Those that the journal refuses wait. If it refuses a waiting byte, all of `bytes`
/// wait.
fn append_waiting<J: Journal + Drop>(journal: &mut J, mut waiting: Vec<u8>, bytes: &[u8]) -> Backlog
    ensures keeps { HasKept J.contents J.failure_count
        (record { journal = journal.old; backlog = Backlog.Waiting waiting })
        (record { journal = journal.new; backlog = result }) bytes.now }
    ensures tries { HasTried J.contents J.failure_count
        (record { journal = journal.old; backlog = Backlog.Waiting waiting })
        (record { journal = journal.new; backlog = result }) bytes.now }
{
    match journal.append(waiting.as_slice()) {
        Ok(()) => {
            waiting.clear();
            append_new(journal, waiting, bytes)
        }
        Err(fault) => {
            drop_first(&mut waiting, fault.written);
            held(waiting, bytes)
        }
    }
}

/// Appends the waiting bytes, the last that the journal gets after a loss. `bytes` are lost too.
fn append_last<J: Journal + Drop>(journal: &mut J, mut waiting: Vec<u8>, bytes: &[u8]) -> Backlog
    ensures keeps { HasKept J.contents J.failure_count
        (record { journal = journal.old; backlog = Backlog.Lost waiting })
        (record { journal = journal.new; backlog = result }) bytes.now }
    ensures tries { HasTried J.contents J.failure_count
        (record { journal = journal.old; backlog = Backlog.Lost waiting })
        (record { journal = journal.new; backlog = result }) bytes.now }
{
    // Only the contract names the bytes that are lost.
    let _ = bytes;
    if waiting.is_empty() {
        return Backlog::Lost(waiting);
    }
    match journal.append(waiting.as_slice()) {
        Ok(()) => {
            waiting.clear();
            Backlog::Lost(waiting)
        }
        Err(fault) => {
            drop_first(&mut waiting, fault.written);
            Backlog::Lost(waiting)
        }
    }
}

/// Adds `bytes` to the waiting bytes. If memory runs out, `bytes` are lost.
fn held(mut waiting: Vec<u8>, bytes: &[u8]) -> Backlog
    ensures { Holds (vec_capacity waiting) waiting.items bytes.now result }
{
    match waiting.extend_from_slice(bytes) {
        Ok(()) => Backlog::Waiting(waiting),
        Err(_) => Backlog::Lost(waiting),
    }
}

/// Removes the first `count` waiting bytes.
fn drop_first(waiting: &mut Vec<u8>, count: usize)
    requires { count ≤ length waiting.old.items }
    ensures items { waiting.new.items ≡ drop count waiting.old.items }
    ensures capacity { vec_capacity waiting.new ≡ vec_capacity waiting.old }
{
    waiting.drain(..count);
}
