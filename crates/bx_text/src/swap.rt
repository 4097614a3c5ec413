//! The changes to a text's pieces: a span or new text put in, a step turned. `spares` are nodes of the pieces' tree made before:
//! each cut and each new piece takes at most one.

ghost use Rattle.std.specs.Prelude.{◌≡◌, ◌++◌, ◌+◌, ◌<◌, ◌≤◌, ◌^◌, OnOk, OnErr, length, vec_len, vec_capacity, string_len, string_capacity, string_bytes};
ghost use Rattle.bx_text.specs.Buffers.{with_added};
ghost use Rattle.bx_text.specs.Steps.{IsShort, Turns};
ghost use Rattle.bx_text.specs.pieces.Pieces.{total, front, back, IsAddressable};

use crate::pieces::{Buffer, Piece, Pieces, Spares};
use crate::step::Step;
use std::mem;

/// Replaces `len` bytes from the offset `start` on by a span, and returns the pieces replaced.
pub fn swap(
    pieces: &mut Pieces,
    start: usize,
    len: usize,
    span: Pieces,
    spares: &mut Spares,
) -> Pieces
    requires spare { 2 ≤ spares.old }
    requires fits { IsAddressable pieces.old }
    requires small { total pieces.old + total span < 2 ^ 64 }
    ensures pieces { pieces.new ≡ front pieces.old start ++ (span ++ back (back pieces.old start) len) }
    ensures span { result ≡ front (back pieces.old start) len }
    ensures spares { spares.old ≤ spares.new + 2 }
{
    let (first, rest) = mem::replace(pieces, Pieces::new()).cut(start, spares);
    let (old, last) = rest.cut(len, spares);
    *pieces = first.join(span.join(last));
    old
}

/// Appends text to the buffer `added`, and its piece to `pieces`.
fn add(pieces: &mut Pieces, added: &mut String, text: &str, spares: &mut Spares)
    requires room { string_len added.old + length text.now ≤ string_capacity added.old }
    requires spare { 1 ≤ spares.old }
    requires small { total pieces.old + length text.now < 2 ^ 64 }
    ensures buffer { string_bytes added.new ≡ string_bytes added.old ++ text.now }
    ensures capacity { string_capacity added.old ≤ string_capacity added.new }
    ensures pieces { pieces.new ≡ with_added pieces.old (string_len added.old) (length text.now) }
    ensures spares { spares.old ≤ spares.new + 1 }
{
    let start = added.len();
    added.push_str(text).unwrap();
    let piece = Piece {
        buffer: Buffer::Added,
        start,
        len: text.len(),
    };
    pieces.push(piece, spares);
}

/// Replaces `len` bytes from the offset `start` on by text, which it appends to the buffer `added`, and returns the pieces replaced.
pub fn put(
    pieces: &mut Pieces,
    start: usize,
    len: usize,
    added: &mut String,
    text: &str,
    spares: &mut Spares,
) -> Pieces
    requires room { string_len added.old + length text.now ≤ string_capacity added.old }
    requires spare { 3 ≤ spares.old }
    requires fits { IsAddressable pieces.old }
    requires small { total pieces.old + length text.now < 2 ^ 64 }
    ensures buffer { string_bytes added.new ≡ string_bytes added.old ++ text.now }
    ensures capacity { string_capacity added.old ≤ string_capacity added.new }
    ensures pieces { pieces.new ≡ with_added (front pieces.old start) (string_len added.old) (length text.now) ++ back (back pieces.old start) len }
    ensures span { result ≡ front (back pieces.old start) len }
    ensures spares { spares.old ≤ spares.new + 3 }
{
    let (mut first, rest) = mem::replace(pieces, Pieces::new()).cut(start, spares);
    let (old, last) = rest.cut(len, spares);
    add(&mut first, added, text, spares);
    *pieces = first.join(last);
    old
}

/// Turns a step: applies the last of `from`, and pushes the step that reverses it to `to`, in room made before. Allocates
/// nothing.
pub fn turn(pieces: &mut Pieces, from: &mut Vec<Step>, to: &mut Vec<Step>, spares: &mut Spares)
    requires some { 0 < length from.old.items }
    requires fits { IsAddressable pieces.old }
    requires small { IsShort pieces.old from.old.items }
    requires spare { 2 ≤ spares.old }
    requires room { vec_len to.old + 1 ≤ vec_capacity to.old }
    ensures turned { Turns pieces.old from.old.items to.old.items pieces.new from.new.items to.new.items }
    ensures spares { spares.old ≤ spares.new + 2 }
    ensures one_more { vec_len to.new ≡ vec_len to.old + 1 }
    ensures capacity { vec_capacity to.old ≤ vec_capacity to.new }
{
    let step = from.pop().unwrap();
    let added = step.span.len();
    let span = swap(pieces, step.start, step.len, step.span, spares);
    let back = Step {
        start: step.start,
        span,
        len: added,
        before: step.before,
        after: step.after,
    };
    to.push(back).unwrap();
}
