//! The log of a run over a device in memory.

use bx_common::Base;
use bx_keys::Decoder;
use bx_session::{Action, MemoryDevice, Session, run_device};
use bx_ucd::sample_tables;
use std::alloc::{AllocError, Global};
use std::fmt::Write;
use std::test::Fail;

/// A letter for each action, with the number of its bytes; `!` for one that failed.
fn write_actions(actions: &[Action], text: &mut String) {
    for action in actions {
        let _ = match action {
            Action::Read(bytes) => write!(text, "r{} ", bytes.as_slice().len()),
            Action::Append(bytes) => write!(text, "a{} ", bytes.as_slice().len()),
            Action::Write(bytes) => write!(text, "w{} ", bytes.as_slice().len()),
            Action::Flush => write!(text, "f "),
            Action::ReadFailed | Action::WriteFailed(_) | Action::FlushFailed => {
                write!(text, "! ")
            }
        };
    }
}

/// The actions, in words, of a run over this input with the text `ab` in a row of five columns; empty if that cannot be opened.
fn actions_of(alloc: Global, input: &[u8]) -> Result<String, AllocError> {
    let mut text = String::new(alloc);
    let bytes = Vec::from_slice(alloc, b"ab")?;
    let Ok(tables) = sample_tables(alloc) else {
        return Ok(text);
    };
    let Ok(mut session) = Session::open(bytes, tables, 1, 5, Base::Auto) else {
        return Ok(text);
    };
    let mut device = MemoryDevice::new(alloc, Vec::from_slice(alloc, input)?);
    // 10 reads are more than this run makes
    let _ = run_device(10, &mut device, &mut Decoder::new(), &mut session);
    if let Some(actions) = device.log() {
        write_actions(actions, &mut text);
    }
    Ok(text)
}

/// Painting `ab` whole in a row of five columns takes 22 bytes, and an `x` before it 15 more.
#[test]
fn a_read_is_appended_before_its_output_is_written(rt: HostRuntime) -> Result<(), Fail> {
    let text = actions_of(rt.alloc(), b"x")?;
    assert_eq!(rt; text.as_str(), "w22 f r1 a1 w15 f r0 a0 ");
    Ok(())
}
