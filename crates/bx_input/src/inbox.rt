//! What was read of the host's pipe, and what the session has still to read of it.

ghost use Rattle.std.specs.Prelude.{◌≡◌, ◌≤◌, ◌<◌, ◌++◌, ℕ, List, [], None, Ok, true, false, IfOk, OnOk, OnErr, length, take};
ghost use Rattle.bx_input.specs.Frames.{first_frame};
ghost use Rattle.bx_input.specs.Heard.{Reading, left};
ghost use Rattle.bx_input.specs.Machine.{begun};

use crate::frame::{FRAME_HEAD, first_frame};
use crate::machine::Machine;
use crate::translate::{finish, translate};
use std::alloc::{AllocError, Global};
use std::marker::Model;

/// What was read of the host's pipe, and what the session has still to read of it.
#[derive(Drop)]
pub(crate) struct Inbox {
    alloc: Global,
    machine: Machine,
    /// The bytes of the pipe that are no whole frame yet.
    pub(crate) held: Vec<u8>,
    /// What the session has still to read of the frames before.
    ready: Vec<u8>,
    /// The pipe has ended.
    is_over: bool,
}

impl Model for Inbox {
    ghost Value = { Reading };

    ghost view = { λ s. record { machine = s.machine; held = s.held.items; ready = s.ready.items; is_over = s.is_over } };
}

impl Inbox {
    /// An inbox before anything was read.
    pub(crate) fn new(alloc: Global, erases_by_delete: bool) -> Inbox
        ensures { result ≡ record { machine = begun erases_by_delete; held = []; ready = []; is_over = false } }
    {
        Inbox {
            alloc,
            machine: Machine::new(alloc, erases_by_delete),
            held: Vec::new(alloc),
            ready: Vec::new(alloc),
            is_over: false,
        }
    }

    /// Whether there is something for the session, or the pipe has ended.
    pub(crate) fn is_settled(&self) -> bool
        ensures open { result ≡ false → (self.now.ready ≡ []) × (self.now.is_over ≡ false) }
        ensures over { result ≡ true → self.now.ready ≡ [] → self.now.is_over ≡ true }
    {
        !self.ready.is_empty() || self.is_over
    }

    /// Takes the first frame. Returns false if none is whole. Running out of memory changes nothing.
    pub(crate) fn take_frame(&mut self) -> Result<bool, AllocError>
        requires ready { self.old.ready ≡ [] }
        requires open { self.old.is_over ≡ false }
        ensures left { (rest : List ℕ) → left self.new rest ≡ left self.old rest }
        ensures open { self.new.is_over ≡ false }
        ensures none { result ≡ Ok false → (first_frame self.new.held ≡ None) × (self.new.ready ≡ []) }
    {
        let Some(frame) = first_frame(self.held.as_slice()) else {
            return Ok(false);
        };
        let count = FRAME_HEAD + frame.bytes.len();
        let mut machine = self.machine.copied()?;
        let mut ready = Vec::new(self.alloc);
        translate(&mut machine, frame, &mut ready)?;
        self.machine = machine;
        self.ready = ready;
        self.held.drain(..count);
        Ok(true)
    }

    /// Ends the input, where nothing is left of it.
    pub(crate) fn finish(&mut self) -> Result<(), AllocError>
        requires ready { self.old.ready ≡ [] }
        requires open { self.old.is_over ≡ false }
        requires none { first_frame self.old.held ≡ None }
        ensures left { left self.new [] ≡ left self.old [] }
        ensures over { OnOk result (self.new.is_over ≡ true) }
    {
        let mut machine = self.machine.copied()?;
        let mut ready = Vec::new(self.alloc);
        finish(&mut machine, &mut ready)?;
        self.machine = machine;
        self.ready = ready;
        self.is_over = true;
        Ok(())
    }

    /// Gives the session what is there for it, as far as the buffer has room, and returns the number of bytes.
    pub(crate) fn give(&mut self, buffer: &mut [u8]) -> usize
        ensures bound { result ≤ length buffer.new }
        ensures left { (rest : List ℕ) → left self.old rest ≡ take result buffer.new ++ left self.new rest }
        ensures none { result ≡ 0 → 0 < length buffer.old → self.old.ready ≡ [] }
        ensures over { self.new.is_over ≡ self.old.is_over }
    {
        let count = self.ready.len().min(buffer.len());
        buffer[..count].copy_from_slice(&self.ready[..count]);
        self.ready.drain(..count);
        count
    }
}
