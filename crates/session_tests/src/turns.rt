//! The bytes flushed before each read of a run.

use bx_common::Base;
use bx_keys::Decoder;
use bx_session::{Session, run};
use bx_store::MemoryStore;
use bx_ucd::sample_tables;
use std::cell::Cell;
use std::io::{self, Read, Write};
use std::test::Fail;

/// A writer that publishes the number of bytes flushed.
#[derive(Drop)]
struct Flushed<'a> {
    /// Number of bytes written so far.
    written: usize,
    /// Number of bytes written before the last flush.
    flushed: &'a Cell<usize>,
}

impl Write for Flushed<'_> {
    fn write(&mut self, buf: &[u8]) -> io::Result<usize> {
        self.written = self.written.saturating_add(buf.len());
        Ok(buf.len())
    }

    fn flush(&mut self) -> io::Result<()> {
        self.flushed.set(self.written);
        Ok(())
    }
}

/// A reader that gives one byte a read, and notes at each read the number of bytes flushed so far.
#[derive(Drop)]
struct Watcher<'a> {
    /// The bytes to give.
    keys: &'a [u8],
    /// What `Flushed` publishes.
    flushed: &'a Cell<usize>,
    /// The number of bytes flushed, at each read.
    seen: Vec<usize>,
}

impl Read for Watcher<'_> {
    fn read(&mut self, buf: &mut [u8]) -> io::Result<usize> {
        self.seen.push(self.flushed.get())?;
        match (self.keys.split_first(), buf.first_mut()) {
            (Some((key, rest)), Some(place)) => {
                *place = *key;
                self.keys = rest;
                Ok(1)
            }
            _ => Ok(0),
        }
    }
}

/// Painting `ab` whole in a row of five columns takes 22 bytes, and an `x` before it 15 more. A Quit with unsaved changes
/// shows nothing in a window of one row, and the next one ends the run.
#[test]
fn what_a_turn_queued_is_flushed_before_the_next_read(rt: HostRuntime) -> Result<(), Fail> {
    let alloc = rt.alloc();
    let bytes = Vec::from_slice(alloc, b"ab")?;
    let mut session = Session::open(bytes, sample_tables(alloc)?, 1, 5, Base::Auto)?;
    let mut store = MemoryStore::new(alloc, None);
    let flushed = Cell::new(0);
    let mut writer = Flushed {
        written: 0,
        flushed: &flushed,
    };
    let mut reader = Watcher {
        keys: b"x\x11\x11unread".as_slice(),
        flushed: &flushed,
        seen: Vec::new(alloc),
    };
    // 9 reads are more than this run makes
    let mut decoder = Decoder::new();
    let _ = run(
        9,
        &mut reader,
        &mut writer,
        &mut store,
        &mut decoder,
        &mut session,
    );
    assert_eq!(rt; reader.seen.as_slice(), [22, 37, 37].as_slice());
    assert_eq!(rt;
        reader.keys,
        b"unread".as_slice(),
        "nothing is read after the end"
    );
    Ok(())
}
