//! The texts for measuring levels. 60 and 62 openers are fewer than the 63 that the stack keeps (UAX #9, BD16).

use std::alloc::{AllocError, Global};

/// The characters that each pattern repeats.
const UNITS: [(&str, &str); 15] = [
    ("latin", "The old man, 12. "),
    (
        "hebrew",
        "\u{5e9}\u{5dc}\u{5d5}\u{5dd} (\u{5e2}\u{5d5}\u{5dc}\u{5dd}), ",
    ),
    (
        "arabic",
        "\u{645}\u{631}\u{62d}\u{628}\u{627} \u{628}\u{627}\u{644}, ",
    ),
    (
        "hebrew_numbers",
        "\u{5e9}\u{5dc}\u{5d5}\u{5dd} 123 \u{5e2}\u{5d5}\u{5dc}\u{5dd}, ",
    ),
    ("pairs", "\u{5d0}()"),
    ("nested_pairs", "a\u{5d0}((()())())"),
    ("isolates", "\u{2067}a\u{2069}"),
    ("pairs_in_isolates", "(\u{2067}()\u{2069})"),
    ("empty_isolates", "\u{2067}\u{2069}"),
    ("first_strong", "\u{2068}a\u{2069}"),
    ("rli", "\u{2067}"),
    ("fsi", "\u{2068}"),
    ("terminators", "#######\u{661}"),
    (
        "isolated_brackets",
        "(\u{2067}(\u{2068}(\u{2067}\u{5d0}\u{2069})\u{2069}a)\u{2069})",
    ),
    ("nested", "((((((((!\u{5d0}))))))))"),
];

/// The characters that all other patterns repeat.
const OTHER_UNIT: &str = "\u{5d0}\u{5d1}\u{5d2} abc \u{5d3}\u{5d4}, 12 xy. ";

/// The characters that a pattern repeats.
fn unit_of(pattern: &str) -> &'static str {
    for (name, unit) in UNITS {
        if name == pattern {
            return unit;
        }
    }
    OTHER_UNIT
}

/// A text of `count` characters that repeats these.
pub(crate) fn repeated(alloc: Global, unit: &str, count: usize) -> Result<String, AllocError> {
    let mut text = String::new(alloc);
    let length = unit.chars().count().max(1);
    for i in 0..count {
        if let Some(c) = unit.chars().nth(i % length) {
            text.push(c)?;
        }
    }
    Ok(text)
}

/// A text of `count` characters: `start`, then pairs of brackets.
fn pairs_behind(alloc: Global, start: &str, count: usize) -> Result<String, AllocError> {
    let mut body = String::from_str(alloc, start)?;
    // the number of characters so far
    for k in start.chars().count()..count {
        body.push(if k % 2 == 0 { '(' } else { ')' })?;
    }
    Ok(body)
}

/// A text of `count` characters: a Hebrew letter, then European terminators, and a digit at the end.
fn before_a_number(alloc: Global, count: usize) -> Result<String, AllocError> {
    let mut body = String::new(alloc);
    body.push('\u{5d0}')?;
    for _ in 2..count {
        body.push('#')?;
    }
    body.push('1')?;
    Ok(body)
}

/// A text of `count` characters that repeats 60 opening brackets, a thousand blanks, a Hebrew letter and 60 closing brackets;
/// `k` is the number of characters of this repetition so far.
fn deep_brackets(alloc: Global, count: usize) -> Result<String, AllocError> {
    let mut body = String::new(alloc);
    let mut k: usize = 0;
    for _ in 0..count {
        if k < 60 {
            body.push('(')?;
        } else if k < 1060 {
            body.push(' ')?;
        } else if k == 1060 {
            body.push('\u{5d0}')?;
        } else {
            body.push(')')?;
        }
        k = if k >= 1120 { 0 } else { k.saturating_add(1) };
    }
    Ok(body)
}

/// A text of `count` characters: two letters and 62 opening brackets, then closing brackets of another kind.
fn idle_closers(alloc: Global, count: usize) -> Result<String, AllocError> {
    let mut body = String::new(alloc);
    body.push_str("a\u{5d0}")?;
    for k in 2..count {
        body.push(if k < 64 { '(' } else { ']' })?;
    }
    Ok(body)
}

/// A letter, 60 opening brackets each followed by a pair around a Hebrew letter, blanks, and 60 closing brackets: 301
/// characters without the blanks.
fn blanks_inside(alloc: Global, count: usize) -> Result<String, AllocError> {
    let mut body = String::new(alloc);
    body.push('a')?;
    for _ in 0..60 {
        body.push_str("((\u{5d0})")?;
    }
    for _ in 301..count {
        body.push(' ')?;
    }
    for _ in 0..60 {
        body.push(')')?;
    }
    Ok(body)
}

/// A text of `count` characters that repeats 62 nested isolates: 62 FSI, and 62 PDI; `k` is the number of characters of this
/// repetition so far. 62 FSI of at most two levels each stay below level 125 (UAX #9, BD2), so none is too deep.
fn deep_isolates(alloc: Global, count: usize) -> Result<String, AllocError> {
    let mut body = String::new(alloc);
    let mut k: usize = 0;
    for _ in 0..count {
        body.push(if k < 62 { '\u{2068}' } else { '\u{2069}' })?;
        k = if k >= 123 { 0 } else { k.saturating_add(1) };
    }
    Ok(body)
}

/// A text of `count` characters: an opening bracket, then letters, ends of isolates and openings of isolates in turn.
fn opener_isolates(alloc: Global, count: usize) -> Result<String, AllocError> {
    let mut body = String::from_str(alloc, "(")?;
    body.push_str(repeated(alloc, "a\u{2069}\u{2067}", count.saturating_sub(1))?.as_str())?;
    Ok(body)
}

/// The text of a pattern, of `count` characters.
pub fn text(alloc: Global, pattern: &str, count: usize) -> Result<String, AllocError> {
    match pattern {
        "deep" => deep_brackets(alloc, count),
        "idle_closers" => idle_closers(alloc, count),
        "blanks_inside" => blanks_inside(alloc, count),
        "deep_isolates" => deep_isolates(alloc, count),
        "rli_pairs" => pairs_behind(alloc, "\u{2067}", count),
        "two_letters_pairs" => pairs_behind(alloc, "a\u{5d0}", count),
        "opener_isolates" => opener_isolates(alloc, count),
        "one_number" => before_a_number(alloc, count),
        _ => repeated(alloc, unit_of(pattern), count),
    }
}
