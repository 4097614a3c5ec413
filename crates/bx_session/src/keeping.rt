//! What a run does with the bytes of a read: it hands them to the journal and has the session obey their presses, up to its end.

ghost use Rattle.std.specs.Prelude.{◌≡◌, ◌≢◌, ◌≤◌, ◌++◌, ℕ, List, [], All, IfSome, Option, length, map, take, true};
ghost use Rattle.bx_keys.specs.Decoder.{HasSides};
ghost use Rattle.bx_keys.specs.declared.key.Key.{Key as KeyValue};
ghost use Rattle.bx_session.specs.Inputs.{presses_from, rest_from};
ghost use Rattle.bx_session.specs.Log.{ArePartsFrom, AreTaken, Obeys, Part, part_steps, pressed_in_parts, typed_in_parts};
ghost use Rattle.bx_session.specs.Parts.{is_quit, part_length};
ghost use Rattle.bx_session.specs.Running.{PressAnswer, PressesAll, TypedUntilEnd, presses_in};

use crate::device::Device;
use crate::session::Session;
use arrayvec::ArrayVec;
use bx_keys::{Decoder, Key};
use bx_ucd::BidiData;

/// The presses of a part of a read, which has at most 256 bytes.
type Presses = ArrayVec<Option<Key>, 256>;

/// Whether a press is a Quit.
fn is_quit(key: Option<Key>) -> bool
    ensures { result ≡ is_quit key }
{
    matches!(key, Some(Key::Quit))
}

/// Decodes bytes up to the first that completes a Quit, that byte included; all bytes if none does. Returns their number. A session
/// cannot end before the last of these, since only a Quit ends it.
fn decode_part(decoder: &mut Decoder, bytes: &[u8], presses: &mut Presses) -> usize
    requires none { presses.old.items ≡ [] }
    requires few { length bytes.now ≤ 256 }
    ensures count { result ≡ part_length decoder.old bytes.now }
    ensures presses { presses.new.items ≡ presses_from decoder.old (take result bytes.now) }
    ensures waits { decoder.new ≡ rest_from decoder.old (take result bytes.now) }
    ensures sides { All (λ (key : Option KeyValue). IfSome key HasSides) presses.new.items }
{
    let mut count = 0;
    for byte in bytes {
        let key = decoder.feed(*byte);
        presses.push(key);
        count += 1;
        if is_quit(key) {
            return count;
        }
    }
    count
}

/// Has the session obey presses until it ends. A refused press does not stop it.
fn obey_all<D: BidiData + Drop, V: Device>(
    session: &mut Session<D>,
    presses: &[Option<Key>],
    device: &mut V,
)
    requires sides { All (λ (key : Option KeyValue). IfSome key HasSides) presses.now }
    ensures presses { (answered : List PressAnswer) × (left : List (Option KeyValue))
        × (presses.now ≡ presses_in answered ++ left) × (left ≢ [] → session.new.session.editor.ended ≡ true)
        × PressesAll (D.data session.old.tables) session.old.session (V.stored device.old) answered session.new.session (V.stored device.new)
        × AreTaken V.did V.obeyed V.stored (D.data session.old.tables) device.old session.old.session (map Obeys answered)
        device.new session.new.session }
    ensures tables { session.new.tables ≡ session.old.tables }
{
    for key in presses {
        if session.ended() {
            return;
        }
        let _ = device.obey(session, *key);
    }
}

/// Hands bytes to the journal and has the session obey their presses, up to its end, in parts that each end with a Quit or with the
/// bytes: so each byte is handed over before it is obeyed, and no byte after the session's end is handed over.
pub(crate) fn keep_and_obey<D: BidiData + Drop, V: Device>(
    decoder: &mut Decoder,
    session: &mut Session<D>,
    bytes: &[u8],
    device: &mut V,
)
    requires few { length bytes.now ≤ 256 }
    ensures bytes { (typed : List ℕ) × (answered : List PressAnswer) × (dropped : List ℕ) × (parts : List Part)
        × TypedUntilEnd (D.data session.old.tables) decoder.old session.old.session (V.stored device.old) bytes.now
        session.new.session (V.stored device.new) typed answered dropped
        × AreTaken V.did V.obeyed V.stored (D.data session.old.tables) device.old session.old.session (part_steps parts)
        device.new session.new.session
        × ArePartsFrom decoder.old parts × (typed_in_parts parts ≡ typed) × (pressed_in_parts parts ≡ answered)
        × (decoder.new ≡ rest_from decoder.old typed) }
    ensures tables { session.new.tables ≡ session.old.tables }
{
    let mut rest = bytes;
    // The label names the loop in its proof.
    'parts: while !rest.is_empty() {
        if session.ended() {
            return;
        }
        let mut presses = Presses::new();
        let count = decode_part(decoder, rest, &mut presses);
        let (part, behind) = rest.split_at(count);
        device.append(part);
        obey_all(session, presses.as_slice(), device);
        rest = behind;
    }
}
