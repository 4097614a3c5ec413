//! The state after one more byte: in characters and in escape sequences (ECMA-35, ECMA-48). `specs/Items.antt` has the
//! ranges.

ghost use Rattle.std.specs.Prelude.{◌≡◌, ◌∷◌, [], ◌++◌};
ghost use Rattle.bx_keys.specs.Waiting.{fate};

use bx_bytes::{Fate, character_fate};

/// The byte with which each escape sequence begins.
pub const ESC: u8 = 0x1B;

/// The state after the waiting bytes and `byte`.
pub fn fate_after(waiting: &[u8], byte: u8) -> Fate
    requires { fate waiting.now ≡ Fate.Waits }
    ensures { result ≡ fate (waiting.now ++ byte ∷ []) }
{
    match waiting {
        [] if byte == ESC => Fate::Waits,
        [ESC, sequence @ ..] => fate_in_sequence(sequence, byte),
        _ => character_fate(waiting, byte),
    }
}

/// The state after ESC, `sequence` and `byte`.
fn fate_in_sequence(sequence: &[u8], byte: u8) -> Fate
    requires { fate (0x1B ∷ sequence.now) ≡ Fate.Waits }
    ensures { result ≡ fate (0x1B ∷ (sequence.now ++ byte ∷ [])) }
{
    match sequence {
        [] => fate_after_escape(byte),
        [b'[', ..] => fate_after_csi(byte),
        [b'O', ..] => fate_after_ss3(byte),
        _ => fate_after_intermediate(byte),
    }
}

/// Right after ESC.
fn fate_after_escape(byte: u8) -> Fate
    ensures { result ≡ fate (0x1B ∷ byte ∷ []) }
{
    match byte {
        b'[' | b'O' | 0x20..=0x2F => Fate::Waits,
        0x30..=0x7E => Fate::Ends,
        _ => Fate::Breaks,
    }
}

/// After CSI, and after the parameter and intermediate bytes that follow it.
fn fate_after_csi(byte: u8) -> Fate
    ensures { result ≡ fate (0x1B ∷ 0x5B ∷ byte ∷ []) }
{
    match byte {
        0x20..=0x3F => Fate::Waits,
        0x40..=0x7E => Fate::Ends,
        _ => Fate::Breaks,
    }
}

/// Right after SS3.
fn fate_after_ss3(byte: u8) -> Fate
    ensures { result ≡ fate (0x1B ∷ 0x4F ∷ byte ∷ []) }
{
    match byte {
        0x20..=0x7E => Fate::Ends,
        _ => Fate::Breaks,
    }
}

/// After ESC and any intermediate bytes.
fn fate_after_intermediate(byte: u8) -> Fate
    ensures { result ≡ fate (0x1B ∷ 0x20 ∷ byte ∷ []) }
{
    match byte {
        0x20..=0x2F => Fate::Waits,
        0x30..=0x7E => Fate::Ends,
        _ => Fate::Breaks,
    }
}
