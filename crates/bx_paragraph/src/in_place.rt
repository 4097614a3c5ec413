//! Changing a body in place, in room that is reserved before anything changes.
ghost use Rattle.std.specs.Prelude.{◌≡◌, ◌≤◌, ◌<◌, ◌+◌, ◌^◌, OnOk, length, string_bytes, string_capacity, string_len};
ghost use Rattle.std.specs.List.{splice};
ghost use Rattle.std.specs.Str.{IsCharBoundary};

use std::alloc::AllocError;

/// Reserves room for `more` bytes. A text grows by at least an eighth, so that consecutive edits rarely reallocate.
pub(crate) fn make_room(text: &mut String, more: usize) -> Result<(), AllocError>
    ensures bytes { string_bytes text.new ≡ string_bytes text.old }
    ensures room { OnOk result (string_len text.new + more ≤ string_capacity text.new) }
    ensures short { OnOk result (length (string_bytes text.new) + more < 2 ^ 64) }
{
    let len = text.len();
    if text.capacity() - len >= more {
        return Ok(());
    }
    text.reserve_exact(more.max(len / 8))?;
    Ok(())
}

/// Replaces the bytes `start..stop` of a text, in room reserved before.
pub(crate) fn replace(text: &mut String, start: usize, stop: usize, inserted: &str)
    requires start { IsCharBoundary (string_bytes text.old) start }
    requires stop { IsCharBoundary (string_bytes text.old) stop }
    requires order { start ≤ stop }
    requires room { string_len text.old + length inserted.now ≤ string_capacity text.old }
    ensures { string_bytes text.new ≡ splice (string_bytes text.old) start stop inserted.now }
{
    // Cannot fail: the room is reserved.
    let _done = text.replace_range(start..stop, inserted);
}
