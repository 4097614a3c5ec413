//! The buffer that a painting is appended to. The bytes before it stay.

ghost use Rattle.std.specs.Prelude.{◌≡◌, ◌∷◌, ◌++◌, [], OnOk};
ghost use Rattle.bx_paint.specs.Output.{OutputState};
ghost use Rattle.bx_paint.specs.Painting.{is_none};

use std::alloc::AllocError;
use std::marker::Model;

/// A painting after other bytes.
#[derive(Drop)]
pub struct Output {
    /// The bytes before, and then the painting.
    bytes: Vec<u8>,
    /// The index in `bytes` at which the painting begins.
    start: usize,
}

impl Model for Output {
    ghost use Rattle.std.specs.Prelude.{◌≤◌, take, drop, length};
    ghost use Rattle.bx_paint.specs.Output.{OutputState};

    ghost Value = { OutputState };

    ghost view = { λ o. record { before = take o.start o.bytes.items; painting = drop o.start o.bytes.items } };

    ghost invariant = { λ o. o.start ≤ length o.bytes.items };
}

impl Output {
    /// An empty painting after these bytes.
    pub fn behind(bytes: Vec<u8>) -> Output
        ensures { result ≡ record { before = bytes.items; painting = [] } }
    {
        let start = bytes.len();
        Output { bytes, start }
    }

    /// Writes a byte.
    pub fn push(&mut self, byte: u8) -> Result<(), AllocError>
        ensures bytes { OnOk result (self.new.painting ≡ self.old.painting ++ byte ∷ []) }
        ensures before { self.new.before ≡ self.old.before }
    {
        self.bytes.push(byte)?;
        Ok(())
    }

    /// Writes bytes.
    pub fn append(&mut self, bytes: &[u8]) -> Result<(), AllocError>
        ensures bytes { OnOk result (self.new.painting ≡ self.old.painting ++ bytes.now) }
        ensures before { self.new.before ≡ self.old.before }
    {
        self.bytes.extend_from_slice(bytes)
    }

    /// Whether the painting has no byte.
    pub fn is_empty(&self) -> bool
        ensures { result ≡ is_none self.now.painting }
    {
        self.bytes.len() == self.start
    }

    /// The bytes before, and then the painting.
    pub fn into_bytes(self) -> Vec<u8>
        ensures { result.items ≡ self.before ++ self.painting }
    {
        self.bytes
    }

    /// The bytes before, without the painting.
    pub fn into_before(self) -> Vec<u8>
        ensures { result.items ≡ self.before }
    {
        let mut bytes = self.bytes;
        bytes.truncate(self.start);
        bytes
    }
}
