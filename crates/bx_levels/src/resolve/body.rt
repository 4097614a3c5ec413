//! The characters of a paragraph body, and their classes; `Body` reads characters from any index without a list of all.
ghost use Rattle.std.specs.Prelude.{◌≡◌, ℕ, ◌<◌, ◌^◌, IfOk, List, chars, drop, length, map};
ghost use Rattle.bx_levels.specs.resolve.Body.{IsEndOf, AreOffsets};

use bx_common::first_char;
use bx_ucd::{BidiData, Class};
use std::alloc::{AllocError, Global};
use std::marker::Model;

/// The number of characters of a text, as the capacity for them: it counts the bytes that are not UTF-8 continuations (10xxxxxx).
/// Each chunk is counted in one byte, so that the loop vectorizes; 128 fit in it. Sums wrap, as a capacity needs no proof.
fn count_for_room(text: &str) -> usize {
    let mut count: usize = 0;
    for piece in text.as_bytes().chunks(128) {
        let mut begins: u8 = 0;
        for byte in piece {
            begins = begins.wrapping_add(u8::from(*byte & 0xc0 != 0x80));
        }
        count = count.wrapping_add(usize::from(begins));
    }
    count
}

/// The classes of a text's characters.
pub fn classes_of<D: BidiData>(
    alloc: Global,
    text: &str,
    tables: &D,
) -> Result<Vec<Class>, AllocError>
    ensures { IfOk result (λ v. v.items ≡ map (D.data tables.now).class (chars text.now)) }
{
    let mut classes = Vec::with_capacity(alloc, count_for_room(text))?;
    for c in text.chars() {
        classes.push(tables.class(c))?;
    }
    Ok(classes)
}

/// The characters of a text.
pub fn chars_of(alloc: Global, text: &str) -> Result<Vec<char>, AllocError>
    ensures { IfOk result (λ v. v.items ≡ chars text.now) }
{
    let mut found = Vec::with_capacity(alloc, count_for_room(text))?;
    for c in text.chars() {
        found.push(c)?;
    }
    Ok(found)
}

/// The text after `count` characters, or the empty text at its end.
#[tactic(auto, using(crate::proofs::resolve_lemmas::TextEnds::ends_behind))]
fn skip(text: &str, count: usize) -> &str
    ensures chars { chars result.now ≡ drop count (chars text.now) }
    ensures end { IsEndOf text.now result.now }
    ensures shorter { 0 < count → 0 < length text.now → length result.now < length text.now }
{
    let mut rest = text;
    let mut left = count;
    while left > 0 {
        let Some((_, behind)) = first_char(rest) else {
            return rest;
        };
        rest = behind;
        left -= 1;
    }
    rest
}

/// Every 8th character has its offset stored: half a byte per character, and a read from any index skips at most 7.
const STEP: usize = 8;

/// The byte offset of every 8th character of a text.
fn offsets_of(alloc: Global, text: &str) -> Result<Vec<u32>, AllocError>
    requires small { length text.now < 2 ^ 32 }
    ensures { IfOk result (λ v. AreOffsets text.now v.items) }
{
    let mut offsets = Vec::with_capacity(alloc, count_for_room(text) / STEP + 1)?;
    let mut rest = text;
    while !rest.is_empty() {
        offsets.push((text.len() - rest.len()) as u32)?;
        rest = skip(rest, STEP);
    }
    Ok(offsets)
}

/// A paragraph body, with the byte offset of every 8th character once `read` has run.
#[derive(Drop)]
pub struct Body<'t> {
    text: &'t str,
    /// The byte offsets of the characters at indexes 0, `STEP` and so on. Empty before `read`.
    offsets: Vec<u32>,
}

// Contracts see its characters.
impl<'t> Model for Body<'t> {
    ghost Value = { List ℕ };

    ghost view = { λ t. chars t.text.now };

    ghost invariant = { λ t. (length t.text.now < 2 ^ 32) × AreOffsets t.text.now t.offsets.items };
}

impl<'t> Body<'t> {
    /// A body without offsets.
    pub fn new(alloc: Global, text: &'t str) -> Self
        requires small { length text.now < 2 ^ 32 }
        ensures { result ≡ chars text.now }
    {
        Body {
            text,
            offsets: Vec::new(alloc),
        }
    }

    /// Computes the offsets on the first call.
    pub fn read(&mut self) -> Result<(), AllocError>
        ensures { self.new ≡ self.old }
    {
        if self.offsets.is_empty() {
            self.offsets = offsets_of(*self.offsets.allocator(), self.text)?;
        }
        Ok(())
    }

    /// The text from the character at an index on. It walks over fewer than 8 characters after `read`, else over all before
    /// the index.
    pub fn rest_from(&self, index: usize) -> &str
        ensures { chars result.now ≡ drop index self.now }
    {
        let k = index / STEP;
        if k < self.offsets.len() {
            let offset = self.offsets[k] as usize;
            skip(&self.text[offset..], index % STEP)
        } else {
            skip(self.text, index)
        }
    }
}
