//! The words of a field, which blanks separate: the tag and the letter of a decomposition.

ghost use Rattle.std.specs.Prelude.{◌≡◌, ◌≢◌, ◌≤◌, [], ◌∷◌, length, MatchOption};
ghost use Rattle.std.specs.List.{position_or_len};
ghost use Rattle.bx_ucd.specs.CharactersFile.{words};
ghost use Rattle.bx_ucd.specs.Lines.{is_blank};

use crate::lines::{is_blank, without_leading_blanks};

/// The index of the first blank, or the length where none is found.
fn word_len(text: &[u8]) -> usize
    ensures first { result ≡ position_or_len is_blank text.now }
    ensures within { result ≤ length text.now }
{
    for (i, b) in text.iter().enumerate() {
        if is_blank(*b) {
            return i;
        }
    }
    text.len()
}

/// The first word of a text, if it has one, and the text after it.
fn next_word(text: &[u8]) -> Option<(&[u8], &[u8])>
    ensures { MatchOption result (words text.now ≡ []) (λ p. words text.now ≡ p.0.now ∷ words p.1.now) }
{
    let text = without_leading_blanks(text);
    if text.is_empty() {
        return None;
    }
    Some(text.split_at(word_len(text)))
}

/// The words of a text that has exactly two.
pub fn two_words(text: &[u8]) -> Option<(&[u8], &[u8])>
    ensures { MatchOption result (length (words text.now) ≢ 2) (λ p. words text.now ≡ p.0.now ∷ p.1.now ∷ []) }
{
    let (first, rest) = next_word(text)?;
    let (second, rest) = next_word(rest)?;
    match next_word(rest) {
        None => Some((first, second)),
        Some(_) => None,
    }
}
