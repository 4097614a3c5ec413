//! Runs over readers, writers and stores, some of which fail.

use crate::faulty::{Letters, Narrow, Refusal};
use bx_common::Base;
use bx_keys::{Decoder, Key};
use bx_session::{End, RunFault, Session, run};
use bx_store::{MemoryStore, Store};
use bx_ucd::{Tables, sample_tables};
use std::alloc::Global;
use std::test::Fail;

/// The output for `ab` in a row of five columns: at the opening, and then at the end.
const OPENED_AND_ENDED: &[u8] = b"\x1b[0m\x1b[2J\x1b[1;1Hab\x1b[1;1H\x1b[0m\x1b[2J\x1b[1;1H";

/// Number of the bytes of `OPENED_AND_ENDED` that are written before the first read.
const OPENED: usize = 22;

/// More reads than any run here makes.
const READS: u64 = 99;

/// How a run ended, in words.
fn told(found: Result<End, RunFault>) -> &'static str {
    match found {
        Ok(End::Quit) => "quit",
        Ok(End::InputEnded { changed: true }) => "input ended, changed",
        Ok(End::InputEnded { changed: false }) => "input ended",
        Err(RunFault::ReadFault) => "input failed",
        Err(RunFault::WriteFault) => "output failed",
        Err(RunFault::ReadLimit) => "too many reads",
    }
}

/// Opens a text in a window.
fn opened(alloc: Global, text: &str, height: u16, width: u16) -> Result<Session<Tables>, Fail> {
    let bytes = Vec::from_slice(alloc, text.as_bytes())?;
    let tables = sample_tables(alloc)?;
    Ok(Session::open(bytes, tables, height, width, Base::Auto)?)
}

/// Whether a run over keys ends with `end` and writes exactly these bytes.
fn ends(
    alloc: Global,
    text: &str,
    mut keys: &[u8],
    end: &str,
    output: &[u8],
) -> Result<bool, Fail> {
    let mut session = opened(alloc, text, 1, 5)?;
    let mut written = Vec::new(alloc);
    let mut store = MemoryStore::new(alloc, None);
    let found = run(
        READS,
        &mut keys,
        &mut written,
        &mut store,
        &mut Decoder::new(),
        &mut session,
    );
    Ok(told(found) == end && written.as_slice() == output)
}

#[test]
fn a_run_writes_all_and_tells_its_end(rt: HostRuntime) -> Result<(), Fail> {
    let alloc = rt.alloc();
    let (none, some) = ("input ended", "input ended, changed");
    let edited = b"\x1b[0m\x1b[2J\x1b[1;1Hab\x1b[1;1H\x1b[1;1Hxab\x1b[1;2H";
    let dropped = b"\x1b[0m\x1b[2J\x1b[1;1H\x1b[1;1Hx\x1b[1;2H\x1b[0m\x1b[2J\x1b[1;1H";
    assert!(rt; ends(alloc, "ab", b"\x11", "quit", OPENED_AND_ENDED)?);
    assert!(rt; ends(alloc, "ab", b"", none, &OPENED_AND_ENDED[..OPENED])?);
    assert!(rt; ends(alloc, "ab", b"x", some, edited)?);
    assert!(rt;
        ends(alloc, "ab", b"x\x11", some, edited)?,
        "a Quit asks again"
    );
    assert!(rt;
        ends(alloc, "", b"x\x11\x11", "quit", dropped)?,
        "two Quits"
    );
    assert!(rt;
        ends(alloc, "", b"x\x11\x11yy", "quit", dropped)?,
        "bytes after the end"
    );
    Ok(())
}

/// Whether a run ends with the writer's fault, after exactly `count` bytes of the output, and the rest is pending.
fn breaks_at_write(alloc: Global, writer: &mut Narrow, count: usize) -> Result<bool, Fail> {
    let mut session = opened(alloc, "ab", 1, 5)?;
    let mut store = MemoryStore::new(alloc, None);
    let found = run(
        READS,
        &mut b"\x11".as_slice(),
        writer,
        &mut store,
        &mut Decoder::new(),
        &mut session,
    );
    let queued = if session.ended() {
        OPENED_AND_ENDED.len()
    } else {
        OPENED
    };
    Ok(
        told(found) == "output failed"
            && OPENED_AND_ENDED.get(..count) == Some(writer.written.as_slice())
            && OPENED_AND_ENDED.get(count..queued) == Some(session.pending()),
    )
}

#[test]
fn a_write_that_fails_is_a_fault(rt: HostRuntime) -> Result<(), Fail> {
    for refusal in [Refusal::Error, Refusal::Nothing] {
        for room in 0..OPENED_AND_ENDED.len() {
            let mut writer = Narrow {
                written: Vec::new(rt.alloc()),
                room,
                // more than a run makes
                flushes: 9,
                refusal,
            };
            assert!(rt;
                breaks_at_write(rt.alloc(), &mut writer, room)?,
                "after {room} bytes"
            );
        }
    }
    Ok(())
}

#[test]
fn a_flush_that_fails_is_a_fault(rt: HostRuntime) -> Result<(), Fail> {
    for (flushes, count) in [(0, OPENED), (1, OPENED_AND_ENDED.len())] {
        let mut writer = Narrow {
            written: Vec::new(rt.alloc()),
            // more than the output has bytes
            room: 99,
            flushes,
            refusal: Refusal::Error,
        };
        assert!(rt;
            breaks_at_write(rt.alloc(), &mut writer, count)?,
            "after {flushes} flushes"
        );
    }
    Ok(())
}

/// Whether a Save stores this text.
fn saves(alloc: Global, session: &mut Session<Tables>, text: &[u8]) -> bool {
    let mut store = MemoryStore::new(alloc, None);
    session.press(Some(Key::Save), &mut store).is_ok() && store.contents() == text
}

/// Whether a run over `letters` letters, with at most `limit` reads, ends with `fault` after it wrote all of its output,
/// `written` bytes, and leaves `text`.
fn breaks_at_read(
    alloc: Global,
    letters: usize,
    limit: u64,
    fault: &str,
    written: usize,
    text: &[u8],
) -> Result<bool, Fail> {
    let mut session = opened(alloc, "ab", 1, 5)?;
    let mut output = Vec::new(alloc);
    let mut store = MemoryStore::new(alloc, None);
    let reader = &mut Letters { left: letters };
    let found = run(
        limit,
        reader,
        &mut output,
        &mut store,
        &mut Decoder::new(),
        &mut session,
    );
    Ok(
        told(found) == fault
            && output.len() == written
            && output.starts_with(&OPENED_AND_ENDED[..OPENED])
            && session.pending().is_empty()
            && saves(alloc, &mut session, text),
    )
}

#[test]
fn a_read_that_fails_is_a_fault(rt: HostRuntime) -> Result<(), Fail> {
    // each letter is sent with the two after it, between two moves: 15 bytes
    for (left, written, text) in [(0, 22, "ab"), (1, 37, "xab"), (2, 52, "xxab")] {
        assert!(rt;
            breaks_at_read(
                rt.alloc(),
                left,
                // more reads than it makes
                99,
                "input failed",
                written,
                text.as_bytes()
            )?,
            "{left} letters"
        );
    }
    Ok(())
}

/// Whether a run limited to one read ends by a Quit in that read.
fn ends_within_one_read(alloc: Global) -> Result<bool, Fail> {
    let mut session = opened(alloc, "ab", 1, 5)?;
    let mut output = Vec::new(alloc);
    let mut store = MemoryStore::new(alloc, None);
    let found = run(
        1,
        &mut b"\x11".as_slice(),
        &mut output,
        &mut store,
        &mut Decoder::new(),
        &mut session,
    );
    Ok(told(found) == "quit" && output.as_slice() == OPENED_AND_ENDED)
}

#[test]
fn a_run_makes_as_many_reads_as_it_may(rt: HostRuntime) -> Result<(), Fail> {
    let fault = "too many reads";
    assert!(rt; ends_within_one_read(rt.alloc())?);
    assert!(rt; breaks_at_read(rt.alloc(), 9, 0, fault, 22, b"ab")?);
    assert!(rt; breaks_at_read(rt.alloc(), 9, 3, fault, 67, b"xxxab")?);
    Ok(())
}
