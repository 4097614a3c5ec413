//! A decoder of keys, byte by byte, for the session that reads the input.

ghost use Rattle.std.specs.Prelude.{◌≡◌, ◌≤◌, ◌↔◌, ℕ, List, [], ◌∷◌, ◌++◌, length, option_to_list, IfOk, IfSome, IsTrue, OnOk, OnErr};
ghost use Rattle.bx_keys.specs.Keys as spec;
ghost use Rattle.bx_keys.specs.Keys.{decoding, key_after, rest_after};
ghost use Rattle.bx_keys.specs.Decoder.{HasSides};
ghost use Rattle.bx_keys.specs.Waiting.{fate, head_of, StandsFor};

use crate::key::Key;
use crate::meaning::key_of;
use crate::sequence::fate_after;
use bx_bytes::Fate;
use std::alloc::{AllocError, Global};
use std::marker::Model;

/// Capacity for waiting bytes. The longest sequences with a key have 12 bytes (as CSI 8;500;500t): 11 of them
/// wait, and a twelfth that waits shows that there is no key.
const HEAD_LEN: usize = 12;

/// The bytes of an unfinished item, or the first 12 of a longer one, which gives no key.
#[derive(Clone, Copy)]
pub struct Decoder {
    /// Those from `len` on are 0.
    bytes: [u8; HEAD_LEN],
    /// Number of bytes held, from 0 to 12.
    len: usize,
}

impl Model for Decoder {
    ghost use Rattle.std.specs.Prelude.{ℕ, List};

    ghost Value = { List ℕ };

    ghost use Rattle.bx_keys.specs.Decoder.{IsDecoder, decoder_of, decoder_of-head_bytes, head_bytes};

    ghost view = { head_bytes };

    ghost invariant = { IsDecoder };

    ghost inverse = { decoder_of };

    ghost inverse_ok = { decoder_of-head_bytes };
}

impl Default for Decoder {
    ghost is_default = { λ decoder. StandsFor decoder [] };

    fn default() -> Decoder {
        Decoder::new()
    }
}

impl Decoder {
    /// A decoder with no byte waiting.
    pub fn new() -> Decoder
        ensures { StandsFor result [] }
    {
        Decoder {
            bytes: [0; HEAD_LEN],
            len: 0,
        }
    }

    /// Whether no byte waits.
    pub fn is_idle(&self) -> bool
        ensures { IsTrue result ↔ (self.now ≡ []) }
    {
        self.len == 0
    }

    /// Reads the next byte and returns the key that it completes.
    pub fn feed(&mut self, byte: u8) -> Option<Key>
        ensures own { StandsFor self.old self.old }
        ensures key { (rest : List ℕ) → StandsFor self.old rest → result ≡ key_after rest byte }
        ensures rest { (rest : List ℕ) → StandsFor self.old rest → StandsFor self.new (rest_after rest byte) }
        ensures sides { IfSome result HasSides }
    {
        match fate_after(self.waiting(), byte) {
            Fate::Waits => {
                self.keep(byte);
                None
            }
            Fate::Ends => {
                let key = key_of(self.waiting(), byte);
                self.forget();
                key
            }
            Fate::Breaks => {
                self.forget();
                self.begin(byte)
            }
        }
    }

    /// Reads the bytes and returns the keys that they complete, in order. Running out of memory is an error and leaves
    /// the decoder as it was.
    pub fn feed_all(&mut self, alloc: Global, bytes: &[u8]) -> Result<Vec<Key>, AllocError>
        ensures keys { IfOk result (λ keys. (rest : List ℕ) → StandsFor self.old rest → keys.items ≡ (decoding (rest ++ bytes.now)).keys) }
        ensures rest { OnOk result ((rest : List ℕ) → StandsFor self.old rest → StandsFor self.new (decoding (rest ++ bytes.now)).rest) }
        ensures err { OnErr result (self.new ≡ self.old) }
    {
        let mut decoder = *self;
        let mut keys = Vec::new(alloc);
        for byte in bytes {
            push_key(&mut keys, decoder.feed(*byte))?;
        }
        *self = decoder;
        Ok(keys)
    }

    /// Reads a byte where none waits.
    fn begin(&mut self, byte: u8) -> Option<Key>
        requires { self.old ≡ [] }
        ensures key { result ≡ key_after [] byte }
        ensures rest { self.new ≡ rest_after [] byte }
        ensures sides { IfSome result HasSides }
    {
        match fate_after(&[], byte) {
            Fate::Waits => {
                self.keep(byte);
                None
            }
            Fate::Ends => key_of(&[], byte),
            Fate::Breaks => None,
        }
    }

    /// The bytes held.
    fn waiting(&self) -> &[u8]
        ensures value { result.now ≡ self.now }
        ensures waits { fate self.now ≡ Fate.Waits }
        ensures short { length self.now ≤ 12 }
    {
        &self.bytes[..self.len]
    }

    /// Holds one more byte, or drops it where 12 are held.
    fn keep(&mut self, byte: u8)
        requires { fate (self.old ++ byte ∷ []) ≡ Fate.Waits }
        ensures { self.new ≡ head_of (self.old ++ byte ∷ []) }
    {
        if self.len < HEAD_LEN {
            self.bytes[self.len] = byte;
            self.len += 1;
        }
    }

    /// Drops the bytes held.
    fn forget(&mut self)
        ensures { self.new ≡ [] }
    {
        *self = Decoder::new();
    }
}

/// Appends a key, if there is one.
fn push_key(keys: &mut Vec<Key>, key: Option<Key>) -> Result<(), AllocError>
    ensures { OnOk result (keys.new.items ≡ keys.old.items ++ option_to_list key) }
{
    match key {
        Some(key) => {
            keys.push(key)?;
            Ok(())
        }
        None => Ok(()),
    }
}
