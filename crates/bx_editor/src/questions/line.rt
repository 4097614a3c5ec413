//! To which paragraph and unit the answer to the question for a line goes.
ghost use Rattle.std.specs.Prelude.{◌≡◌, ◌≤◌, ◌<◌, ◌^◌, None, max, chars, fold, length, unwrap_or};
ghost use Rattle.std.specs.List.{after_first, before_first, list_any};
ghost use Rattle.std.specs.Option.{option_map};
ghost use Rattle.bx_editor.specs.questions.Answers.{asked, digit_of, has_digit, is_digit, is_divider, is_line_letter, with_digit};

use bx_common::first_char;

/// A paragraph and a unit in it.
#[derive(Clone, Copy)]
pub struct Target {
    /// The paragraph's number, from 1; none for the paragraph where the cursor is.
    pub paragraph: Option<usize>,
    /// The unit's number in it, from 1.
    pub unit: usize,
}

/// The value of a digit, in ASCII, Arabic-Indic or extended Arabic-Indic.
pub(crate) fn digit_of(c: char) -> Option<usize>
    ensures { result ≡ digit_of c }
{
    let zero = match c {
        '0'..='9' => 0x30,
        '\u{660}'..='\u{669}' => 0x660,
        '\u{6F0}'..='\u{6F9}' => 0x6F0,
        _ => return None,
    };
    Some((u32::from(c) - zero) as usize)
}

/// Whether a character is a digit of these scripts.
fn is_digit(c: char) -> bool
    ensures { result ≡ is_digit c }
{
    digit_of(c).is_some()
}

/// Whether a character ends the number before it: a colon or a comma.
fn is_divider(c: char) -> bool
    ensures { result ≡ is_divider c }
{
    c == ':' || c == ','
}

/// Whether a character may stand in the answer: a digit of three scripts, a colon or a comma.
pub fn is_line_letter(c: char) -> bool
    ensures { result ≡ is_line_letter c }
{
    is_digit(c) || is_divider(c)
}

/// Whether an answer has a digit.
fn has_digit(answer: &str) -> bool
    ensures { result ≡ has_digit (chars answer.now) }
{
    answer.chars().any(is_digit)
}

/// A number, None where no digit was read yet, with one more digit after it; other characters are ignored. With a number below
/// 10^18 the result is below 2^64.
fn with_digit(number: Option<usize>, c: char) -> Option<usize>
    requires small { unwrap_or number 0 < 1000000000000000000 }
    ensures { result ≡ with_digit number c }
{
    match digit_of(c) {
        None => number,
        Some(digit) => Some(number.unwrap_or(0) * 10 + digit),
    }
}

/// The number before the first divider, None if it has no digit, and the text after the divider. An answer of 16 characters
/// writes less than 10^18.
fn read_number(answer: &str) -> (Option<usize>, &str)
    requires few { length (chars answer.now) ≤ 16 }
    ensures number { result.0 ≡ fold with_digit None (before_first is_divider (chars answer.now)) }
    ensures behind { chars result.1.now ≡ after_first is_divider (chars answer.now) }
{
    let mut number = None;
    let mut rest = answer;
    while let Some((c, behind)) = first_char(rest) {
        if is_divider(c) {
            return (number, behind);
        }
        number = with_digit(number, c);
        rest = behind;
    }
    (number, rest)
}

/// A number counted from 1: 0 means 1.
fn from_one(number: Option<usize>) -> Option<usize>
    ensures { result ≡ option_map (max 1) number }
{
    match number {
        None => None,
        Some(n) => Some(n.max(1)),
    }
}

/// Where an answer leads; none if it has no digit. A second divider and all after it are ignored. 16 characters are the most that
/// `bx_editor` takes (`longest_line`), a chosen limit.
pub fn asked(answer: &str) -> Option<Target>
    requires few { length (chars answer.now) ≤ 16 }
    ensures { result ≡ asked (chars answer.now) }
{
    if !has_digit(answer) {
        return None;
    }
    let (paragraph, rest) = read_number(answer);
    let (unit, _) = read_number(rest);
    Some(Target {
        paragraph: from_one(paragraph),
        unit: from_one(unit).unwrap_or(1),
    })
}
