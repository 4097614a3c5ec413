//! Splits a line into its fields at a separator, without an allocation.

ghost use Rattle.std.specs.Prelude.{◌≡◌, ◌≤◌, ◌==◌, [], ◌∷◌, MatchOption, count_by, drop, length};
ghost use Rattle.std.specs.List.{slice_split};
ghost use Rattle.bx_ucd.specs.Parts.{IsCut};

use crate::lines::position_or_len;

/// The parts of a text between separators, in order; `More` for five or more, which every caller refuses.
#[derive(Clone, Copy)]
pub enum Parts<'a> {
    One(&'a [u8]),
    Two(&'a [u8], &'a [u8]),
    Three(&'a [u8], &'a [u8], &'a [u8]),
    Four(&'a [u8], &'a [u8], &'a [u8], &'a [u8]),
    More,
}

/// The parts before and after the first separator, if the text has one.
pub fn split_once(text: &[u8], separator: u8) -> Option<(&[u8], &[u8])>
    ensures { MatchOption result (slice_split (λ b. b == separator) text.now ≡ text.now ∷ [])
        (λ p. slice_split (λ b. b == separator) text.now ≡ p.0.now ∷ slice_split (λ b. b == separator) p.1.now) }
{
    let end = position_or_len(text, separator);
    if end == text.len() {
        None
    } else {
        Some((&text[..end], &text[end + 1..]))
    }
}

/// Splits the text at each separator.
pub fn cut(text: &[u8], separator: u8) -> Parts<'_>
    ensures { IsCut result (slice_split (λ b. b == separator) text.now) }
{
    let Some((first, rest)) = split_once(text, separator) else {
        return Parts::One(text);
    };
    let Some((second, rest)) = split_once(rest, separator) else {
        return Parts::Two(first, rest);
    };
    let Some((third, rest)) = split_once(rest, separator) else {
        return Parts::Three(first, second, rest);
    };
    match split_once(rest, separator) {
        None => Parts::Four(first, second, third, rest),
        Some(_) => Parts::More,
    }
}

/// The text after its first `count` parts; none if it has no more.
pub fn skip_parts(text: &[u8], separator: u8, count: usize) -> Option<&[u8]>
    ensures { MatchOption result (length (slice_split (λ b. b == separator) text.now) ≤ count)
        (λ rest. drop count (slice_split (λ b. b == separator) text.now) ≡ slice_split (λ b. b == separator) rest.now) }
{
    let mut rest = text;
    for _ in 0..count {
        let Some((_, later)) = split_once(rest, separator) else {
            return None;
        };
        rest = later;
    }
    Some(rest)
}

/// The number of separators in a text.
pub fn separators(text: &[u8], separator: u8) -> usize
    ensures { result ≡ count_by (λ b. b == separator) text.now }
{
    text.iter().filter(|b| **b == separator).count()
}
