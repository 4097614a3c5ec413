//! The keys of the host's frames, and the bytes that the session reads for them.

ghost use Rattle.std.specs.Prelude.{◌≡◌, ◌++◌, OnOk, map};
ghost use Rattle.bx_input.specs.Heard as heard;
ghost use Rattle.bx_input.specs.Machine as spec;

use crate::frame::{Frame, IDLE, NOTICE, SIZE, TYPED};
use crate::machine::{Event, Machine};
use crate::writing::write_keys;
use bx_keys::Key;
use std::alloc::AllocError;

/// Obeys typed bytes, and appends their keys.
fn obey_typed(machine: &mut Machine, bytes: &[u8], out: &mut Vec<Key>) -> Result<(), AllocError>
    ensures state { OnOk result (machine.new ≡ (spec.after_all (map spec.Typed bytes.now) machine.old).machine) }
    ensures keys { OnOk result (out.new.items ≡ out.old.items ++ (spec.after_all (map spec.Typed bytes.now) machine.old).keys) }
{
    for byte in bytes {
        machine.obey(Event::Typed(*byte), out)?;
    }
    Ok(())
}

/// Obeys a size in four bytes, and appends its keys.
fn obey_size(machine: &mut Machine, bytes: &[u8], out: &mut Vec<Key>) -> Result<(), AllocError>
    ensures state { OnOk result (machine.new ≡ (spec.after_all (spec.size_events bytes.now) machine.old).machine) }
    ensures keys { OnOk result (out.new.items ≡ out.old.items ++ (spec.after_all (spec.size_events bytes.now) machine.old).keys) }
{
    let [a, b, c, d] = bytes else {
        return Ok(());
    };
    let rows = u16::from(*a) * 256 + u16::from(*b);
    let columns = u16::from(*c) * 256 + u16::from(*d);
    machine.obey(Event::Size(rows, columns), out)
}

/// Obeys a notice's number in one byte, and appends its keys.
fn obey_notice(machine: &mut Machine, bytes: &[u8], out: &mut Vec<Key>) -> Result<(), AllocError>
    ensures state { OnOk result (machine.new ≡ (spec.after_all (spec.notice_events bytes.now) machine.old).machine) }
    ensures keys { OnOk result (out.new.items ≡ out.old.items ++ (spec.after_all (spec.notice_events bytes.now) machine.old).keys) }
{
    let [number] = bytes else {
        return Ok(());
    };
    machine.obey(Event::Notice(*number), out)
}

/// Obeys the events of a frame, and appends their keys.
pub fn obey_frame(
    machine: &mut Machine,
    frame: Frame<'_>,
    out: &mut Vec<Key>,
) -> Result<(), AllocError>
    ensures state { OnOk result (machine.new ≡ (spec.after_frame (record { letter = frame.entry.letter; bytes = frame.entry.bytes.now }) machine.old).machine) }
    ensures keys { OnOk result (out.new.items
        ≡ out.old.items ++ (spec.after_frame (record { letter = frame.entry.letter; bytes = frame.entry.bytes.now }) machine.old).keys) }
{
    if frame.letter == TYPED {
        obey_typed(machine, frame.bytes, out)
    } else if frame.letter == SIZE {
        obey_size(machine, frame.bytes, out)
    } else if frame.letter == IDLE {
        machine.obey(Event::Pause, out)
    } else if frame.letter == NOTICE {
        obey_notice(machine, frame.bytes, out)
    } else {
        Ok(())
    }
}

/// Appends the bytes of a frame's keys. A notice without a key has a sequence without one, which has the session try its journal again.
fn write_frame(out: &mut Vec<u8>, letter: u8, keys: &[Key]) -> Result<(), AllocError>
    ensures { OnOk result (out.new.items ≡ out.old.items ++ heard.frame_bytes letter keys.now) }
{
    if !keys.is_empty() {
        return write_keys(out, keys);
    }
    if letter == NOTICE {
        return out.extend_from_slice(b"\x1b[>0~");
    }
    Ok(())
}

/// Appends what the session reads for a frame.
pub fn translate(
    machine: &mut Machine,
    frame: Frame<'_>,
    out: &mut Vec<u8>,
) -> Result<(), AllocError>
    ensures state { OnOk result (machine.new ≡ (heard.written (record { letter = frame.entry.letter; bytes = frame.entry.bytes.now }) machine.old).state) }
    ensures output { OnOk result (out.new.items
        ≡ out.old.items ++ (heard.written (record { letter = frame.entry.letter; bytes = frame.entry.bytes.now }) machine.old).output) }
{
    let letter = frame.letter;
    let mut keys = Vec::new(*out.allocator());
    obey_frame(machine, frame, &mut keys)?;
    write_frame(out, letter, keys.as_slice())
}

/// Appends what the session reads for the input's end.
pub fn finish(machine: &mut Machine, out: &mut Vec<u8>) -> Result<(), AllocError>
    ensures { OnOk result (out.new.items ≡ out.old.items ++ heard.at_end machine.old) }
{
    let mut keys = Vec::new(*out.allocator());
    machine.obey(Event::End, &mut keys)?;
    write_keys(out, keys.as_slice())
}
