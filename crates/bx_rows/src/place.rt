//! Where a text stands in its body (`TextAt`): the offset with the number of characters before it, counted from an offset nearby.
ghost use Rattle.std.specs.Prelude.{◌≡◌, chars, length, take};
ghost use Rattle.std.specs.Str.{IsCharBoundary};

use crate::joining::{LeveledBody, TextAt};
use crate::unit_levels::char_count;

/// The number of characters before `offset` in a text, counted from the offset `near`, which has `number` characters before it.
fn number_at(text: &str, near: usize, number: usize, offset: usize) -> usize
    requires near { IsCharBoundary text.now near }
    requires number { number ≡ length (chars (take near text.now)) }
    requires offset { IsCharBoundary text.now offset }
    ensures { result ≡ length (chars (take offset text.now)) }
{
    if near <= offset {
        return number + char_count(&text[near..offset]);
    }
    number - char_count(&text[offset..near])
}

/// Another offset of the body of `near` with the characters before it. Only the text between both is read.
pub(crate) fn moved<'t, 'e>(near: TextAt<'t, 'e>, offset: usize) -> TextAt<'t, 'e>
    requires from { IsCharBoundary near.body.text.now near.offset }
    requires number { near.number ≡ length (chars (take near.offset near.body.text.now)) }
    requires to { IsCharBoundary near.body.text.now offset }
    ensures offset { result.offset ≡ offset }
    ensures number { result.number ≡ length (chars (take offset near.entry.body.text.now)) }
    ensures text { result.body.text.now ≡ near.entry.body.text.now }
    ensures each { result.body.each.now ≡ near.entry.body.each.now }
{
    let text = near.body.text();
    let number = number_at(text, near.offset, near.number, offset);
    TextAt {
        body: LeveledBody {
            text,
            each: near.body.each,
        },
        offset,
        number,
    }
}
