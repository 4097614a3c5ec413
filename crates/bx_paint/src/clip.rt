//! Clips: bytes that a terminal hands to the system's clipboard.

ghost use Rattle.std.specs.Prelude.{◌≡◌, ℕ, List, [], ◌++◌, OnErr, OnOk, Ok};
ghost use Rattle.base64.specs.Engines.{standard};
ghost use Rattle.base64.specs.GeneralPurpose.{decode_of};
ghost use Rattle.base64.specs.GeneralPurpose.{encode_of};
ghost use Rattle.bx_grid.specs.Tokens.{clip_bytes};
ghost use Rattle.bx_grid.specs.Effects.{effects};
ghost use Rattle.bx_grid.specs.Picture.{IsIdle, PictureState, Shows};
ghost use Rattle.bx_grid.specs.Grid.{AreWholeTokens};
ghost use Rattle.bx_grid.specs.Terminal.{Terminal, reads};

use crate::output::Output;
use base64::engine::general_purpose::STANDARD;
use bx_common::OutOfMemory;
use std::alloc::{AllocError, Global};
use std::mem;

/// The byte BEL, which ends a clip.
const BELL: u8 = 0x07;

/// Sends the clip of these bytes.
fn write_clip(alloc: Global, out: &mut Output, held: &[u8]) -> Result<(), AllocError>
    requires { out.old.painting ≡ [] }
    ensures bytes { OnOk result (out.new.painting ≡ clip_bytes held.now) }
    ensures before { out.new.before ≡ out.old.before }
{
    let base64 = STANDARD.encode(alloc, held)?;
    out.append(b"\x1b]52;c;")?;
    out.append(base64.as_bytes())?;
    out.push(BELL)
}

/// Appends the clip of these bytes (xterm: OSC 52;c;, base64, BEL). It changes nothing that a terminal shows, so a terminal
/// that shows a picture after a painting still shows it after the clip.
///
/// Errors: `OutOfMemory`, and nothing is appended.
pub fn clip_into(out: &mut Vec<u8>, held: &[u8]) -> Result<(), OutOfMemory>
    ensures bytes { OnOk result (out.new.items ≡ out.old.items ++ clip_bytes held.now) }
    ensures err { OnErr result (out.new.items ≡ out.old.items) }
    ensures same { (t : Terminal) → IsIdle t → reads t (clip_bytes held.now) ≡ t }
    ensures shows { (t : Terminal) (painting : List ℕ) (p : PictureState) → Shows (reads t painting) p
        → Shows (reads t (painting ++ clip_bytes held.now)) p }
    ensures sends { (t : Terminal) (painting : List ℕ) → IsIdle (reads t painting)
        → effects t (painting ++ clip_bytes held.now) ≡ effects t painting }
    ensures tokens { (painting : List ℕ) → AreWholeTokens painting → AreWholeTokens (painting ++ clip_bytes held.now) }
    ensures gives { decode_of standard (encode_of standard held.now) ≡ Ok held.now }
{
    let alloc = *out.allocator();
    let mut output = Output::behind(mem::replace(out, Vec::new(alloc)));
    match write_clip(alloc, &mut output, held) {
        Ok(()) => {
            *out = output.into_bytes();
            Ok(())
        }
        Err(_) => {
            *out = output.into_before();
            Err(OutOfMemory)
        }
    }
}
