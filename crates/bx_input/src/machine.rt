//! The machine that turns the host's events into keys, by `specs/Machine.antt`.

ghost use Rattle.std.specs.Prelude.{◌≡◌, ◌&&◌, ◌++◌, ◌∷◌, [], IfOk, OnOk, map, option_map, option_to_list, true};
ghost use Rattle.std.specs.Str.{bytes_eq};
ghost use Rattle.bx_input.specs.Machine as spec;
ghost use Rattle.bx_input.specs.Models.{event_of, keys_in, parts_of, paused, state_of};
ghost use Rattle.bx_input.specs.PasteTail.{tail_bytes};
ghost use Rattle.bx_input.specs.Scan as scan;
ghost use Rattle.bx_input.specs.Strings as strings;

use crate::control_string::{ends_string, is_introducer, is_short};
use crate::known::{ESC, Keys};
use crate::paste_tail::PasteTail;
use crate::pause::Pause;
use crate::scan::{Scanned, start, step};
use crate::scan_state::ScanState;
use bx_common::is_side;
use bx_keys::{Decoder, Key, Notice};
use std::alloc::{AllocError, Global};
use std::marker::Model;
use std::mem;

/// What the host tells.
#[derive(Clone, Copy)]
pub enum Event {
    /// A typed byte.
    Typed(u8),
    /// The window's rows and columns.
    Size(u16, u16),
    /// Time went by after the last typed byte.
    Pause,
    /// The number of a notice.
    Notice(u8),
    /// The input's end.
    End,
}

/// Turns events into keys.
#[derive(Drop)]
pub struct Machine {
    alloc: Global,
    /// Whether the terminal's own erase character is DELETE, 7F.
    erases_by_delete: bool,
    /// What waits, outside a paste or within one.
    state: ScanState,
    /// When there was a pause in typing.
    pause: Pause,
    /// The bytes of a control string behind its ESC, which waits in `state`; none if no string waits.
    string: Vec<u8>,
    /// The bytes of an item that is not read to its end.
    items: Decoder,
    /// A notice that waits for a paste's end.
    notice: Option<Key>,
}

impl Model for Machine {
    ghost use Rattle.bx_input.specs.Machine.{Machine};
    ghost use Rattle.bx_input.specs.Models.{state_of};

    ghost Value = { Machine };

    ghost view = { λ m. record {
      erases_by_delete = m.erases_by_delete;
      state = state_of m.state;
      pause = m.pause;
      string = m.string.items;
      rest = m.items;
      notice = m.notice;
    } };
}

/// The pause that counts after a byte that led to this state: one right before an ESC that waits alone in a paste.
fn pause_after(pause: Pause, state: &ScanState) -> Pause
    ensures { result ≡ scan.pause_after pause (state_of state.now) }
{
    match state {
        ScanState::Within {
            waiting: PasteTail::Escape,
            ..
        } if matches!(pause, Pause::Behind) => Pause::Before,
        _ => Pause::No,
    }
}

/// Whether one ESC waits, or two do, and no more.
fn are_escapes(waiting: &[u8]) -> bool
    ensures { result ≡ scan.are_escapes waiting.now }
{
    waiting == [ESC].as_slice() || waiting == [ESC, ESC].as_slice()
}

/// Whether an ESC waits alone in a paste, right behind a pause.
fn is_end_of_paste(pause: Pause, tail: PasteTail) -> bool
    ensures { result ≡ (bytes_eq (tail_bytes tail) (0x1B ∷ []) && scan.is_before pause) }
{
    match (tail, pause) {
        (PasteTail::Escape, Pause::Before) => true,
        _ => false,
    }
}

/// The key that a pause completes in this state.
fn key_at_pause(pause: Pause, state: &ScanState) -> Option<Key>
    ensures { scan.idle pause (state_of state.now) ≡ paused (state_of state.now) result }
{
    match state {
        ScanState::Outside { waiting } if are_escapes(waiting) => Some(Key::Cancel),
        ScanState::Within { waiting, .. } if is_end_of_paste(pause, *waiting) => {
            Some(Key::PasteEnd)
        }
        _ => None,
    }
}

/// The key of a size, if a window may have it.
fn size_key(rows: u16, columns: u16) -> Option<Key>
    ensures { result ≡ spec.size_key rows columns }
{
    if is_side(rows) && is_side(columns) {
        Some(Key::Size(rows, columns))
    } else {
        None
    }
}

/// The key of a notice, by its number.
fn notice_key(number: u8) -> Option<Key>
    ensures { result ≡ spec.notice_key number }
{
    match number {
        1 => Some(Key::Notice(Notice::NoSpace)),
        2 => Some(Key::Notice(Notice::FolderGone)),
        3 => Some(Key::Notice(Notice::NotPermitted)),
        4 => Some(Key::Notice(Notice::ReadOnly)),
        5 => Some(Key::Notice(Notice::Unkept)),
        6 => Some(Key::Notice(Notice::KeptAgain)),
        7 => Some(Key::Notice(Notice::Recovered)),
        8 => Some(Key::Notice(Notice::RecoveredAside)),
        9 => Some(Key::Notice(Notice::InPlace)),
        _ => None,
    }
}

/// Appends a key, if there is one.
fn push_key(out: &mut Vec<Key>, key: Option<Key>) -> Result<(), AllocError>
    ensures { OnOk result (out.new.items ≡ out.old.items ++ option_to_list key) }
{
    match key {
        Some(key) => {
            out.push(key)?;
            Ok(())
        }
        None => Ok(()),
    }
}

/// Reads bytes by the grammar of items, and appends their keys.
fn pass_all(items: &mut Decoder, bytes: &[u8], out: &mut Vec<Key>) -> Result<(), AllocError>
    ensures rest { OnOk result (items.new ≡ (spec.read items.old (scan.passed bytes.now)).rest) }
    ensures keys { OnOk result (out.new.items ≡ out.old.items ++ (spec.read items.old (scan.passed bytes.now)).keys) }
{
    for byte in bytes {
        push_key(out, items.feed(*byte))?;
    }
    Ok(())
}

/// Reads a byte by the grammar of items, if there is one, and appends its key.
fn pass_one(items: &mut Decoder, byte: Option<u8>, out: &mut Vec<Key>) -> Result<(), AllocError>
    ensures rest { OnOk result (items.new ≡ (spec.read items.old (scan.passed (option_to_list byte))).rest) }
    ensures keys { OnOk result (out.new.items ≡ out.old.items ++ (spec.read items.old (scan.passed (option_to_list byte))).keys) }
{
    match byte {
        Some(byte) => push_key(out, items.feed(byte)),
        None => Ok(()),
    }
}

/// Appends the keys of a known sequence, if there is one, which drops an item that is not read to its end.
fn give(items: &mut Decoder, known: Option<Keys>, out: &mut Vec<Key>) -> Result<(), AllocError>
    ensures rest { OnOk result (items.new ≡ (spec.read items.old (map scan.Known (option_to_list (option_map keys_in known)))).rest) }
    ensures keys { OnOk result (out.new.items ≡ out.old.items ++ (spec.read items.old (map scan.Known (option_to_list (option_map keys_in known)))).keys) }
{
    match known {
        Some(keys) => {
            *items = Decoder::new();
            push_key(out, keys.before)?;
            push_key(out, keys.key)?;
            Ok(())
        }
        None => Ok(()),
    }
}

/// Reads parts, and appends their keys.
fn read_parts(
    items: &mut Decoder,
    waiting: &[u8],
    byte: Option<u8>,
    known: Option<Keys>,
    out: &mut Vec<Key>,
) -> Result<(), AllocError>
    ensures rest { OnOk result (items.new ≡ (spec.read items.old (parts_of waiting.now byte known)).rest) }
    ensures keys { OnOk result (out.new.items ≡ out.old.items ++ (spec.read items.old (parts_of waiting.now byte known)).keys) }
{
    pass_all(items, waiting, out)?;
    pass_one(items, byte, out)?;
    // The proof compares what the three did.
    give(items, known, out)?;
    Ok(())
}

/// Whether no byte is there.
fn is_none(bytes: &[u8]) -> bool
    ensures value { result ≡ spec.is_none bytes.now }
    ensures none { result ≡ true → bytes.now ≡ [] }
{
    match bytes {
        [] => true,
        _ => false,
    }
}

impl Machine {
    /// A machine at the start of its input. `erases_by_delete` says whether the terminal's own erase character is DELETE, 7F.
    pub fn new(alloc: Global, erases_by_delete: bool) -> Machine
        ensures { result ≡ spec.begun erases_by_delete }
    {
        Machine {
            alloc,
            erases_by_delete,
            state: start(alloc),
            pause: Pause::No,
            string: Vec::new(alloc),
            items: Decoder::new(),
            notice: None,
        }
    }

    /// A copy of this machine.
    pub(crate) fn copied(&self) -> Result<Machine, AllocError>
        ensures { IfOk result (λ copy. copy ≡ self.now) }
    {
        let mut string = Vec::new(self.alloc);
        string.extend_from_slice(&self.string)?;
        Ok(Machine {
            alloc: self.alloc,
            erases_by_delete: self.erases_by_delete,
            state: self.state.copied()?,
            pause: self.pause,
            string,
            items: self.items,
            notice: self.notice,
        })
    }

    /// Obeys an event, and appends its keys.
    pub fn obey(&mut self, event: Event, out: &mut Vec<Key>) -> Result<(), AllocError>
        ensures state { OnOk result (self.new ≡ (spec.after (event_of event) self.old).machine) }
        ensures keys { OnOk result (out.new.items ≡ out.old.items ++ (spec.after (event_of event) self.old).keys) }
    {
        match event {
            Event::Typed(byte) => self.type_byte(byte, out),
            Event::Size(rows, columns) => self.take_size(rows, columns, out),
            Event::Pause => self.pause(out),
            Event::Notice(number) => self.take_notice(number, out),
            Event::End => self.finish(out),
        }
    }

    /// Reads parts, and appends their keys.
    fn read(
        &mut self,
        waiting: &[u8],
        byte: Option<u8>,
        known: Option<Keys>,
        out: &mut Vec<Key>,
    ) -> Result<(), AllocError>
        ensures state { OnOk result (self.new ≡ (spec.after_parts (parts_of waiting.now byte known) self.old).machine) }
        ensures keys { OnOk result (out.new.items ≡ out.old.items ++ (spec.after_parts (parts_of waiting.now byte known) self.old).keys) }
    {
        read_parts(&mut self.items, waiting, byte, known, out)
    }

    /// Outside a paste, appends the key of the notice that waits.
    fn settle(&mut self, out: &mut Vec<Key>) -> Result<(), AllocError>
        ensures state { OnOk result (self.new ≡ (spec.settled self.old).machine) }
        ensures keys { OnOk result (out.new.items ≡ out.old.items ++ (spec.settled self.old).keys) }
    {
        match self.state {
            ScanState::Within { .. } => Ok(()),
            ScanState::Outside { .. } => push_key(out, self.notice.take()),
        }
    }

    /// Reads a byte that is in no control string.
    fn scan(&mut self, byte: u8, out: &mut Vec<Key>) -> Result<(), AllocError>
        ensures state { OnOk result (self.new ≡ (spec.after_scanned byte self.old).machine) }
        ensures keys { OnOk result (out.new.items ≡ out.old.items ++ (spec.after_scanned byte self.old).keys) }
    {
        let state = mem::replace(&mut self.state, start(self.alloc));
        let scanned = step(self.alloc, self.erases_by_delete, state, byte)?;
        self.pause = pause_after(self.pause, &scanned.state);
        self.state = scanned.state;
        self.read(&scanned.waiting, scanned.byte, scanned.known, out)?;
        self.settle(out)
    }

    /// Reads bytes that are in no control string.
    fn scan_all(&mut self, bytes: &[u8], out: &mut Vec<Key>) -> Result<(), AllocError>
        ensures state { OnOk result (self.new ≡ (spec.after_all_scanned bytes.now self.old).machine) }
        ensures keys { OnOk result (out.new.items ≡ out.old.items ++ (spec.after_all_scanned bytes.now self.old).keys) }
    {
        for byte in bytes {
            self.scan(*byte, out)?;
        }
        Ok(())
    }

    /// Reads the bytes of a control string that is none after all.
    fn break_string(&mut self, out: &mut Vec<Key>) -> Result<(), AllocError>
        ensures state { OnOk result (self.new ≡ (spec.after_broken self.old.string self.old).machine) }
        ensures keys { OnOk result (out.new.items ≡ out.old.items ++ (spec.after_broken self.old.string self.old).keys) }
    {
        let string = mem::replace(&mut self.string, Vec::new(self.alloc));
        self.scan_all(string.as_slice(), out)
    }

    /// Drops a control string that is whole.
    fn drop_string(&mut self)
        ensures { self.new ≡ (spec.after_whole self.old).machine }
    {
        self.string.clear();
        self.state = start(self.alloc);
        self.pause = Pause::No;
        self.items = Decoder::new();
    }

    /// Whether the byte begins a control string: an ESC waits for its introducer.
    fn begins_string(&self, byte: u8) -> bool
        ensures { result ≡ strings.begins_string self.now.state byte }
    {
        match &self.state {
            ScanState::Outside { waiting } => are_escapes(waiting) && is_introducer(byte),
            ScanState::Within { .. } => false,
        }
    }

    /// Reads a byte where no control string waits.
    fn type_first(&mut self, byte: u8, out: &mut Vec<Key>) -> Result<(), AllocError>
        requires { self.old.string ≡ [] }
        ensures state { OnOk result (self.new ≡ (spec.after_first byte self.old).machine) }
        ensures keys { OnOk result (out.new.items ≡ out.old.items ++ (spec.after_first byte self.old).keys) }
    {
        if self.begins_string(byte) {
            self.string.push(byte)?;
            return Ok(());
        }
        self.scan(byte, out)
    }

    /// Reads a byte in a control string.
    fn type_in_string(&mut self, byte: u8, out: &mut Vec<Key>) -> Result<(), AllocError>
        ensures state { OnOk result (self.new ≡ (spec.after_in_string byte self.old).machine) }
        ensures keys { OnOk result (out.new.items ≡ out.old.items ++ (spec.after_in_string byte self.old).keys) }
    {
        if ends_string(&self.string, byte) {
            self.drop_string();
            return Ok(());
        }
        self.string.push(byte)?;
        if is_short(&self.string) {
            return Ok(());
        }
        self.break_string(out)
    }

    /// Reads a typed byte.
    fn type_byte(&mut self, byte: u8, out: &mut Vec<Key>) -> Result<(), AllocError>
        ensures state { OnOk result (self.new ≡ (spec.after_typed byte self.old).machine) }
        ensures keys { OnOk result (out.new.items ≡ out.old.items ++ (spec.after_typed byte self.old).keys) }
    {
        if is_none(&self.string) {
            self.type_first(byte, out)
        } else {
            self.type_in_string(byte, out)
        }
    }

    /// Takes note that time went by, where no control string waits.
    fn idle(&mut self, out: &mut Vec<Key>) -> Result<(), AllocError>
        ensures state { OnOk result (self.new ≡ (spec.after_idle self.old).machine) }
        ensures keys { OnOk result (out.new.items ≡ out.old.items ++ (spec.after_idle self.old).keys) }
    {
        let pause = self.pause;
        self.pause = Pause::Behind;
        if let Some(key) = key_at_pause(pause, &self.state) {
            self.state = start(self.alloc);
            self.items = Decoder::new();
            out.push(key)?;
        }
        self.settle(out)
    }

    /// Takes note that time went by.
    fn pause(&mut self, out: &mut Vec<Key>) -> Result<(), AllocError>
        ensures state { OnOk result (self.new ≡ (spec.after_pause self.old).machine) }
        ensures keys { OnOk result (out.new.items ≡ out.old.items ++ (spec.after_pause self.old).keys) }
    {
        self.break_string(out)?;
        self.idle(out)
    }

    /// Takes a size.
    fn take_size(&self, rows: u16, columns: u16, out: &mut Vec<Key>) -> Result<(), AllocError>
        ensures { OnOk result (out.new.items ≡ out.old.items ++ (spec.after_size rows columns self.now).keys) }
    {
        push_key(out, size_key(rows, columns))?;
        out.push(Key::Fill)?;
        Ok(())
    }

    /// Takes a notice's number.
    fn take_notice(&mut self, number: u8, out: &mut Vec<Key>) -> Result<(), AllocError>
        ensures state { OnOk result (self.new ≡ (spec.after_notice number self.old).machine) }
        ensures keys { OnOk result (out.new.items ≡ out.old.items ++ (spec.after_notice number self.old).keys) }
    {
        self.notice = notice_key(number);
        self.settle(out)
    }

    /// Reads what waits at the input's end, where no control string waits.
    fn finish_scan(&mut self, out: &mut Vec<Key>) -> Result<(), AllocError>
        ensures state { OnOk result (self.new ≡ (spec.after_last self.old).machine) }
        ensures keys { OnOk result (out.new.items ≡ out.old.items ++ (spec.after_last self.old).keys) }
    {
        self.pause = Pause::No;
        match mem::replace(&mut self.state, start(self.alloc)) {
            ScanState::Outside { waiting } => pass_all(&mut self.items, &waiting, out),
            ScanState::Within { waiting, .. } => pass_all(&mut self.items, waiting.text(), out),
        }
    }

    /// Ends the input.
    fn finish(&mut self, out: &mut Vec<Key>) -> Result<(), AllocError>
        ensures state { OnOk result (self.new ≡ (spec.after_end self.old).machine) }
        ensures keys { OnOk result (out.new.items ≡ out.old.items ++ (spec.after_end self.old).keys) }
    {
        self.break_string(out)?;
        self.finish_scan(out)
    }
}
