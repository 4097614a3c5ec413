//! A session to press keys in, with a terminal that takes all bytes at once.

use crate::editor::Traffic;
use crate::editor::counting_store::CountingStore;
use anyhow::{Result, bail};
use bx_common::Base;
use bx_keys::Decoder;
use bx_session::Session;
use bx_ucd::Tables;

/// The rows of the window.
const ROWS: u16 = 24;

/// The columns of the window.
const COLUMNS: u16 = 80;

/// Ctrl and F, the key that moves one place forward in the text.
const FORWARD: &str = "\u{6}";

pub(crate) const PAGE_DOWN: &str = "\u{1b}[6~";

/// The number of characters from the start of a line to its middle: about half of some 84 (`LEAST` of texts.rt).
const HALF_LINE: usize = 40;

/// A session with its store.
#[derive(Drop)]
pub(crate) struct Typist {
    session: Session<Tables>,
    decoder: Decoder,
    store: CountingStore,
    // the number of bytes sent to the terminal; those sent on the way to the text's middle do not count
    sent: usize,
}

/// Takes all pending bytes, as a terminal does. Returns their number.
fn take(session: &mut Session<Tables>) -> usize {
    let count = session.pending().len();
    session.taken(count);
    count
}

impl Typist {
    /// Opens a text and takes the bytes of the first picture.
    pub(crate) fn open(text: Vec<u8>, tables: Tables) -> Result<Typist> {
        let mut session = Session::open(text, tables, ROWS, COLUMNS, Base::Auto)?;
        let sent = take(&mut session);
        Ok(Typist {
            session,
            decoder: Decoder::new(),
            store: CountingStore::new(),
            sent,
        })
    }

    /// Presses a key and takes the bytes that it queues.
    pub(crate) fn press(&mut self, key: &str) -> Result<()> {
        for byte in key.as_bytes() {
            let completed = self.decoder.feed(*byte);
            if self.session.press(completed, &mut self.store).is_err() {
                bail!("there is no memory for a key");
            }
        }
        self.sent = self.sent.wrapping_add(take(&mut self.session));
        Ok(())
    }

    /// Goes to the middle of a line in the middle of a text of `length` bytes. The bytes sent for that are not counted.
    pub(crate) fn go_to_middle(&mut self, length: usize) -> Result<()> {
        for _ in 0..length {
            if self.session.place() >= length / 2 {
                break;
            }
            self.press(PAGE_DOWN)?;
        }
        for _ in 0..HALF_LINE {
            self.press(FORWARD)?;
        }
        self.sent = 0;
        Ok(())
    }

    /// The numbers of bytes sent and stored so far.
    pub(crate) fn traffic(&self) -> Traffic {
        Traffic {
            sent: self.sent,
            stored: self.store.count(),
        }
    }
}
