//! The first and the last strong character of a text (UAX #9, table 4: L, R and AL).
ghost use Rattle.std.specs.Prelude.{⊤, ◌≡◌, ◌<◌, ◌∷◌, MatchOption, IfSome, true, false, Some, chars, drop, length};
ghost use Rattle.std.specs.Str.{IsCharBoundary};
ghost use Rattle.bx_ucd.specs.Class.{is_strong};
ghost use Rattle.bx_paragraph.specs.Cuts.{IsStrongIn};

use bx_common::first_char;
use bx_ucd::class::is_strong;
use bx_ucd::{BidiData, Class};

/// A strong character of a text.
#[derive(Clone, Copy)]
pub(crate) struct Strong {
    /// The number of characters before it.
    pub(crate) index: usize,
    /// L, R or AL; any class only while a character is tested (`later`).
    pub(crate) class: Class,
    /// The offset of its first byte.
    pub(crate) start: usize,
    /// The offset after its last byte.
    pub(crate) stop: usize,
}

/// The character at a byte offset, and the offset after it; `None` at the text's end.
fn next_char(text: &str, at: usize) -> Option<(char, usize)>
    requires { IsCharBoundary text.now at }
    ensures { MatchOption result (length text.now ≡ at) (λ (c, next). (at < next) × IsCharBoundary text.now next
        × (chars (drop at text.now) ≡ c ∷ chars (drop next text.now))) }
{
    match first_char(&text[at..]) {
        Some((c, rest)) => Some((c, text.len() - rest.len())),
        None => None,
    }
}

/// The character if it is strong, else the one found before it.
fn later(found: Option<Strong>, character: Strong) -> Option<Strong>
    ensures { result ≡ elim (is_strong character.class) [ true ↦ Some character | false ↦ found ] }
{
    if is_strong(character.class) {
        Some(character)
    } else {
        found
    }
}

/// The last strong character of a text, if it has one.
pub(crate) fn last_strong<D: BidiData>(text: &str, tables: &D) -> Option<Strong>
    ensures { IfSome result (IsStrongIn (D.data tables.now) text.now) }
{
    let mut found = None;
    let mut index = 0;
    let mut start = 0;
    while let Some((c, stop)) = next_char(text, start) {
        let character = Strong {
            index,
            class: tables.class(c),
            start,
            stop,
        };
        found = later(found, character);
        index += 1;
        start = stop;
    }
    found
}

/// The first strong character of a text, if it has one.
pub(crate) fn first_strong<D: BidiData>(text: &str, tables: &D) -> Option<Strong>
    ensures { IfSome result (IsStrongIn (D.data tables.now) text.now) }
{
    let mut index = 0;
    let mut start = 0;
    while let Some((c, stop)) = next_char(text, start) {
        let class = tables.class(c);
        if is_strong(class) {
            return Some(Strong {
                index,
                class,
                start,
                stop,
            });
        }
        index += 1;
        start = stop;
    }
    None
}
