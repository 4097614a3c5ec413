//! What typed bytes are, by `specs/Scan.antt`: the next state, and what a byte completes.

ghost use Rattle.std.specs.Prelude.{◌≡◌, ◌∷◌, ◌++◌, [], IfOk, Some, true, false, option_map, option_to_list};
ghost use Rattle.bx_bytes.specs.declared.fate.Fate.TheVariants as fate_is;
ghost use Rattle.bx_input.specs.Known.{fate, known_keys};
ghost use Rattle.bx_input.specs.Models.{keys_in, state_of, Goes};
ghost use Rattle.bx_input.specs.Paste.{pasted_byte, pasted_part, paste_fate};
ghost use Rattle.bx_input.specs.PasteTail.{tail_bytes};
ghost use Rattle.bx_input.specs.Scan as spec;

use crate::in_paste::{AfterInPaste, paste_after};
use crate::known::{ESC, Keys, behind, fate, known_keys};
use crate::paste_tail::PasteTail;
use crate::scan_state::ScanState;
use bx_bytes::Fate;
use bx_keys::Key;
use std::alloc::{AllocError, Global};

/// The state after a byte, and what the bytes are: first those that pass on to the grammar of items, then a known sequence.
#[derive(Drop)]
pub struct Scanned {
    /// The state.
    pub state: ScanState,
    /// The waiting bytes that pass on.
    pub waiting: Vec<u8>,
    /// One more byte that passes on.
    pub byte: Option<u8>,
    /// The keys of a known sequence, if one is whole.
    pub known: Option<Keys>,
}

/// One key, as those of a known sequence.
fn one(key: Key) -> Option<Keys>
    ensures { option_map keys_in result ≡ Some (key ∷ []) }
{
    Some(Keys {
        before: None,
        key: Some(key),
    })
}

/// Outside a paste, with nothing waiting.
pub fn start(alloc: Global) -> ScanState
    ensures { state_of result ≡ spec.start }
{
    ScanState::Outside {
        waiting: Vec::new(alloc),
    }
}

/// Within a paste, with nothing waiting.
fn fresh_paste(after_return: bool) -> ScanState
    ensures { state_of result ≡ spec.Within [] after_return }
{
    ScanState::Within {
        waiting: PasteTail::Nothing,
        after_return,
    }
}

/// Goes to a state, with nothing to tell.
fn quiet(alloc: Global, state: ScanState) -> Scanned
    ensures { Goes result (spec.step_to (state_of state) []) }
{
    Scanned {
        state,
        waiting: Vec::new(alloc),
        byte: None,
        known: None,
    }
}

/// Reads a byte.
pub fn step(
    alloc: Global,
    erases_by_delete: bool,
    state: ScanState,
    byte: u8,
) -> Result<Scanned, AllocError>
    ensures { IfOk result (λ went. Goes went (spec.step erases_by_delete (state_of state) byte)) }
{
    match state {
        ScanState::Outside { waiting } => outside(alloc, erases_by_delete, waiting, byte),
        ScanState::Within {
            waiting,
            after_return,
        } => within(alloc, waiting, after_return, byte),
    }
}

/// Whether no byte waits, and this one is no control character, so that it begins no known sequence.
fn is_plain(waiting: &[u8], byte: u8) -> bool
    ensures none { result ≡ true → waiting.now ≡ [] }
    ensures fate { result ≡ true → fate (byte ∷ []) ≡ fate_is.Breaks }
{
    match waiting {
        [] => 0x20 <= byte && byte != 0x7F,
        _ => false,
    }
}

/// Bytes, and one more.
fn joined(alloc: Global, bytes: &[u8], byte: u8) -> Result<Vec<u8>, AllocError>
    ensures { IfOk result (λ read. read.items ≡ bytes.now ++ byte ∷ []) }
{
    let mut read = Vec::new(alloc);
    read.extend_from_slice(bytes)?;
    read.push(byte)?;
    Ok(read)
}

/// Reads a byte outside a paste.
fn outside(
    alloc: Global,
    erases_by_delete: bool,
    waiting: Vec<u8>,
    byte: u8,
) -> Result<Scanned, AllocError>
    ensures { IfOk result (λ went. Goes went (spec.step erases_by_delete (spec.Outside waiting.items) byte)) }
{
    if is_plain(&waiting, byte) {
        return Ok(passes(alloc, waiting, byte));
    }
    let read = joined(alloc, &waiting, byte)?;
    let fate = fate(&read);
    read_on(alloc, erases_by_delete, fate, waiting, read, byte)
}

/// Reads a byte outside a paste, by what the waiting bytes and it are.
fn read_on(
    alloc: Global,
    erases_by_delete: bool,
    fate: Fate,
    waiting: Vec<u8>,
    read: Vec<u8>,
    byte: u8,
) -> Result<Scanned, AllocError>
    requires { read.items ≡ waiting.items ++ byte ∷ [] }
    ensures { IfOk result (λ went. Goes went (spec.step_by erases_by_delete fate waiting.items byte)) }
{
    match fate {
        Fate::Waits => Ok(quiet(alloc, ScanState::Outside { waiting: read })),
        Fate::Ends => Ok(ended(alloc, Vec::new(alloc), known_keys(erases_by_delete, &read))),
        Fate::Breaks => break_off(alloc, erases_by_delete, waiting, byte),
    }
}

/// A known sequence is whole, behind bytes that pass on. Without keys it is a paste's start.
fn ended(alloc: Global, waiting: Vec<u8>, keys: Option<Keys>) -> Scanned
    ensures { Goes result (spec.with_front (spec.passed waiting.items) (spec.ended (option_map keys_in keys))) }
{
    match keys {
        Some(keys) => Scanned {
            state: start(alloc),
            waiting,
            byte: None,
            known: Some(keys),
        },
        None => Scanned {
            state: fresh_paste(false),
            waiting,
            byte: None,
            known: one(Key::PasteStart),
        },
    }
}

/// Whether two ESC come first.
fn has_two_escapes(waiting: &[u8]) -> bool
    ensures { result ≡ spec.has_two_escapes waiting.now }
{
    match waiting {
        [first, second, ..] => *first == ESC && *second == ESC,
        _ => false,
    }
}

/// Reads a byte that does not continue the waiting bytes' sequence. Of two ESC that wait the second may begin one.
fn break_off(
    alloc: Global,
    erases_by_delete: bool,
    waiting: Vec<u8>,
    byte: u8,
) -> Result<Scanned, AllocError>
    ensures { IfOk result (λ went. Goes went (spec.breaks_off erases_by_delete waiting.items byte)) }
{
    if has_two_escapes(&waiting) {
        behind_escape(alloc, erases_by_delete, behind(&waiting, 1), byte)
    } else {
        pass_on(alloc, erases_by_delete, waiting, byte)
    }
}

/// Passes an ESC on, and reads a byte behind the bytes after it.
fn behind_escape(
    alloc: Global,
    erases_by_delete: bool,
    rest: &[u8],
    byte: u8,
) -> Result<Scanned, AllocError>
    ensures { IfOk result (λ went. Goes went (spec.behind_escape erases_by_delete rest.now byte)) }
{
    let read = joined(alloc, rest, byte)?;
    let escape = joined(alloc, b"", ESC)?;
    let fate = fate(&read);
    read_behind(alloc, erases_by_delete, fate, escape, rest, read, byte)
}

/// Reads a byte behind an ESC that passes on and the bytes after it, by what these bytes and it are.
fn read_behind(
    alloc: Global,
    erases_by_delete: bool,
    fate: Fate,
    mut escape: Vec<u8>,
    rest: &[u8],
    read: Vec<u8>,
    byte: u8,
) -> Result<Scanned, AllocError>
    requires escape { escape.items ≡ 0x1B ∷ [] }
    requires read { read.items ≡ rest.now ++ byte ∷ [] }
    ensures { IfOk result (λ went. Goes went (spec.with_front (spec.Passed 0x1B ∷ []) (spec.plain_step erases_by_delete fate rest.now byte))) }
{
    match fate {
        Fate::Waits => Ok(Scanned {
            state: ScanState::Outside { waiting: read },
            waiting: escape,
            byte: None,
            known: None,
        }),
        Fate::Ends => Ok(ended(alloc, escape, known_keys(erases_by_delete, &read))),
        Fate::Breaks => {
            escape.extend_from_slice(rest)?;
            pass_on(alloc, erases_by_delete, escape, byte)
        }
    }
}

/// A byte waits, behind bytes that pass on.
fn one_waits(alloc: Global, waiting: Vec<u8>, byte: u8) -> Result<Scanned, AllocError>
    ensures { IfOk result (λ went. Goes went (spec.with_front (spec.passed waiting.items) (spec.step_to (spec.Outside (byte ∷ [])) []))) }
{
    let mut read = Vec::new(alloc);
    read.push(byte)?;
    Ok(Scanned {
        state: ScanState::Outside { waiting: read },
        waiting,
        byte: None,
        known: None,
    })
}

/// A byte passes on, behind others.
fn passes(alloc: Global, waiting: Vec<u8>, byte: u8) -> Scanned
    ensures { Goes result (spec.with_front (spec.passed waiting.items) (spec.step_to spec.start (spec.Passed byte ∷ []))) }
{
    Scanned {
        state: start(alloc),
        waiting,
        byte: Some(byte),
        known: None,
    }
}

/// Passes the waiting bytes on, whose sequence the byte does not continue, and reads the byte as if none waited.
fn pass_on(
    alloc: Global,
    erases_by_delete: bool,
    waiting: Vec<u8>,
    byte: u8,
) -> Result<Scanned, AllocError>
    ensures { IfOk result (λ went. Goes went (spec.broken erases_by_delete waiting.items byte)) }
{
    match fate(&[byte]) {
        Fate::Waits => one_waits(alloc, waiting, byte),
        Fate::Ends => Ok(ended(alloc, waiting, known_keys(erases_by_delete, &[byte]))),
        Fate::Breaks => Ok(passes(alloc, waiting, byte)),
    }
}

/// Reads a byte within a paste.
fn within(
    alloc: Global,
    waiting: PasteTail,
    after_return: bool,
    byte: u8,
) -> Result<Scanned, AllocError>
    ensures { IfOk result (λ went. Goes went (spec.paste_step_by (paste_fate (tail_bytes waiting ++ byte ∷ [])) (tail_bytes waiting) after_return byte)) }
{
    match paste_after(waiting, byte) {
        AfterInPaste::Waits(waiting) => Ok(quiet(alloc, tail_waits(waiting))),
        AfterInPaste::Drops => Ok(quiet(alloc, fresh_paste(false))),
        AfterInPaste::EndsPaste => Ok(Scanned {
            state: start(alloc),
            waiting: Vec::new(alloc),
            byte: None,
            known: one(Key::PasteEnd),
        }),
        AfterInPaste::Breaks => broken_off_in_paste(alloc, waiting, after_return, byte),
    }
}

/// Within a paste, with these bytes waiting.
fn tail_waits(waiting: PasteTail) -> ScanState
    ensures { state_of result ≡ spec.Within (tail_bytes waiting) false }
{
    ScanState::Within {
        waiting,
        after_return: false,
    }
}

/// Reads a byte within a paste that does not continue the waiting bytes' sequence.
fn broken_off_in_paste(
    alloc: Global,
    waiting: PasteTail,
    after_return: bool,
    byte: u8,
) -> Result<Scanned, AllocError>
    ensures { IfOk result (λ went. Goes went (spec.with_front (spec.passed (pasted_part (tail_bytes waiting))) (spec.fresh_in_paste (paste_fate (byte ∷ [])) after_return byte))) }
{
    let mut before = Vec::new(alloc);
    before.extend_from_slice(waiting.text())?;
    match paste_after(PasteTail::Nothing, byte) {
        AfterInPaste::Waits(tail) => Ok(Scanned {
            state: tail_waits(tail),
            waiting: before,
            byte: None,
            known: None,
        }),
        _ => Ok(Scanned {
            state: fresh_paste(byte == b'\r'),
            waiting: before,
            byte: pasted(after_return, byte),
            known: None,
        }),
    }
}

/// The output for a byte of a paste: CR and LF are LF, once for CR LF; TAB stays; other control bytes are dropped.
fn pasted(after_return: bool, byte: u8) -> Option<u8>
    ensures { option_to_list result ≡ pasted_byte after_return byte }
{
    match byte {
        b'\r' => Some(b'\n'),
        b'\n' if after_return => None,
        b'\n' | b'\t' => Some(byte),
        0x00..=0x1F | 0x7F => None,
        _ => Some(byte),
    }
}
