//! What a unit is to a word: a letter, a digit or a mark, which are of words; or a sign, which is of the word of the two letters, or
//! the two digits, that it stands between.
ghost use Rattle.std.specs.Prelude.{◌≡◌};
ghost use Rattle.bx_view.specs.Words.{begins_word, goes_on, is_digit, is_digit_sign, is_letter, is_letter_sign, is_of_word, is_sign, kind_of, kind_of_class, sign_of};

use bx_common::{first_char, is_direction_mark};
use bx_ucd::{BidiData, Class};

/// What a unit is to a word.
#[derive(Clone, Copy)]
pub(crate) enum UnitKind {
    /// Its first character is a letter.
    Letter,
    /// Its first character is a digit.
    Digit,
    /// Its first character is a nonspacing mark or a joiner.
    Mark,
    /// A quotation mark or an apostrophe, alone: of the word of two letters that it stands between.
    LetterSign,
    /// A full stop, a comma or a colon, alone: of the word of two digits that it stands between.
    DigitSign,
    /// Of no word.
    Other,
}

/// Whether a character is a quotation mark or an apostrophe, as in abbreviations and contractions.
fn is_letter_sign(c: char) -> bool
    ensures { result ≡ is_letter_sign c }
{
    c == '"' || c == '\'' || c == '\u{2019}'
}

/// Whether a character is a full stop, a comma or a colon, as in numbers, dates and times.
fn is_digit_sign(c: char) -> bool
    ensures { result ≡ is_digit_sign c }
{
    c == '.' || c == ',' || c == ':'
}

/// Which sign a character is, as a unit alone.
fn sign_of(c: char) -> UnitKind
    ensures { result ≡ sign_of c }
{
    if is_letter_sign(c) {
        return UnitKind::LetterSign;
    }
    if is_digit_sign(c) {
        return UnitKind::DigitSign;
    }
    UnitKind::Other
}

/// What a unit is by the class of its first character; `sign` if words have no characters of the class.
fn kind_of_class(class: Class, sign: UnitKind) -> UnitKind
    ensures { result ≡ kind_of_class class sign }
{
    match class {
        Class::L | Class::R | Class::AL => UnitKind::Letter,
        Class::EN | Class::AN => UnitKind::Digit,
        Class::NSM | Class::BN => UnitKind::Mark,
        _ => sign,
    }
}

/// What a unit is to a word. Direction marks are of none, though Unicode gives them classes of letters.
pub(crate) fn kind_of<D: BidiData>(unit: &str, tables: &D) -> UnitKind
    ensures { result ≡ kind_of (D.data tables.now) unit.now }
{
    let Some((c, rest)) = first_char(unit) else {
        return UnitKind::Other;
    };
    if is_direction_mark(c) {
        return UnitKind::Other;
    }
    match first_char(rest) {
        Some(_) => kind_of_class(tables.class(c), UnitKind::Other),
        None => kind_of_class(tables.class(c), sign_of(c)),
    }
}

/// Whether a unit is of a word wherever it stands.
pub(crate) fn is_of_word(kind: UnitKind) -> bool
    ensures { result ≡ is_of_word kind }
{
    matches!(kind, UnitKind::Letter | UnitKind::Digit | UnitKind::Mark)
}

/// Whether a unit begins with a letter.
fn is_letter(kind: UnitKind) -> bool
    ensures { result ≡ is_letter kind }
{
    matches!(kind, UnitKind::Letter)
}

/// Whether a unit begins with a digit.
fn is_digit(kind: UnitKind) -> bool
    ensures { result ≡ is_digit kind }
{
    matches!(kind, UnitKind::Digit)
}

/// Whether a unit is a sign, which may be of the word of the units around it.
pub(crate) fn is_sign(kind: UnitKind) -> bool
    ensures { result ≡ is_sign kind }
{
    matches!(kind, UnitKind::LetterSign | UnitKind::DigitSign)
}

/// Whether a unit goes on with the word of the two units before it: after a unit of the word, or after a sign that stands between two
/// letters or two digits.
pub(crate) fn goes_on(second: UnitKind, first: UnitKind, unit: UnitKind) -> bool
    ensures { result ≡ goes_on second first unit }
{
    match first {
        UnitKind::LetterSign => is_letter(second) && is_letter(unit),
        UnitKind::DigitSign => is_digit(second) && is_digit(unit),
        _ => is_of_word(first),
    }
}

/// Whether a unit begins a word after the two units before it.
pub(crate) fn begins_word(second: UnitKind, first: UnitKind, unit: UnitKind) -> bool
    ensures { result ≡ begins_word second first unit }
{
    is_of_word(unit) && !goes_on(second, first, unit)
}
