//! The letters that a search compares in place of characters, and the two ways to read them: `letters_of` of specs/Letters.antt
//! says what each makes of a character.
ghost use Rattle.std.specs.Prelude.{◌≡◌, ◌+◌, ◌≤◌, ◌++◌, ◌∷◌, [], length, true};
ghost use Rattle.bx_find.specs.Letters.{is_stroke_or_mark, is_passed_over, main_letter, folded, letters_of_parts, letters_of};
ghost use Rattle.bx_find.specs.Short.{is_short, is_simple, simple_letter};

use arrayvec::ArrayVec;
use bx_common::is_direction_mark;
use bx_ucd::BidiData;
use bx_ucd::class::is_unlettered;
use ucd_case::full_folding;
use ucd_normal::Form;
use unicode_normalization::char::decomposition;

/// How a search reads letters.
#[derive(Clone, Copy)]
pub enum Reading {
    /// For finding: whatever their marks, their case and their form in a word.
    Wide,
    /// For replacing: whatever their marks, and the case of A to Z.
    Close,
}

/// No character has more letters: those of a decomposition, each folded in full, are four at most in Unicode's data.
pub const MOST_LETTERS: usize = 4;

/// Whether a character is the tatweel or a directional mark: ALM, LRM or RLM.
#[inline(always)]
fn is_stroke_or_mark(c: char) -> bool
    ensures { result ≡ is_stroke_or_mark c }
{
    c == '\u{640}' || is_direction_mark(c)
}

/// Whether a search passes over a character: one of a class without a letter of its own (combining marks, as points and accents;
/// joiners, control characters and others of class BN; formatting characters), a directional mark or the tatweel.
#[inline(always)]
pub fn is_passed_over<D: BidiData>(tables: &D, c: char) -> bool
    ensures { result ≡ is_passed_over (D.data tables.now) c }
{
    is_unlettered(tables.class(c)) || is_stroke_or_mark(c)
}

/// Of letters that readers take for one another, the one that is compared; specs/Letters.antt names them.
#[inline(always)]
fn main_letter(c: char) -> char
    ensures { result ≡ main_letter c }
{
    match c {
        '\u{5da}' => '\u{5db}',
        '\u{5dd}' => '\u{5de}',
        '\u{5df}' => '\u{5e0}',
        '\u{5e3}' => '\u{5e4}',
        '\u{5e5}' => '\u{5e6}',
        '\u{671}' => '\u{627}',
        '\u{649}' => '\u{64a}',
        '\u{6cc}' => '\u{64a}',
        '\u{6a9}' => '\u{643}',
        '\u{629}' => '\u{647}',
        '\u{6c1}' => '\u{647}',
        _ => c,
    }
}

/// Whether a character is of ASCII, or of Hebrew or Arabic without a decomposition; specs/Short.antt names the gaps.
#[inline(always)]
fn is_short(c: char) -> bool
    ensures { result ≡ is_short c }
{
    matches!(c, '\0'..='\u{7f}')
        | matches!(c, '\u{590}'..='\u{621}')
        | matches!(c, '\u{627}'..='\u{6bf}')
        | matches!(c, '\u{6c3}'..='\u{6d2}')
}

/// Whether a reading gives a character its simple letter, or none if it is passed over.
#[inline(always)]
pub fn is_simple(reading: Reading, c: char) -> bool
    ensures { result ≡ is_simple reading c }
{
    match reading {
        Reading::Wide => is_short(c),
        Reading::Close => true,
    }
}

/// The letter that a reading gives a simple character that is not passed over.
#[inline(always)]
pub fn simple_letter(reading: Reading, c: char) -> char
    ensures { result ≡ simple_letter reading c }
{
    let small = c.to_ascii_lowercase();
    match reading {
        Reading::Wide => main_letter(small),
        Reading::Close => small,
    }
}

/// Appends the letters of a part of a decomposition that is not passed over.
fn push_folded(letters: &mut ArrayVec<char, MOST_LETTERS>, c: char)
    requires { length letters.old.items + length (folded c) ≤ 4 }
    ensures { letters.new.items ≡ letters.old.items ++ folded c }
{
    let folding = full_folding(c);
    if folding.is_empty() {
        letters.push(main_letter(c));
        return;
    }
    for part in folding {
        letters.push(main_letter(*part));
    }
}

/// Appends the letters of a part of a decomposition, unless it is passed over.
fn push_part<D: BidiData>(tables: &D, letters: &mut ArrayVec<char, MOST_LETTERS>, part: char)
    requires { length letters.old.items + length (letters_of_parts (D.data tables.now) (part ∷ [])) ≤ 4 }
    ensures { letters.new.items ≡ letters.old.items ++ letters_of_parts (D.data tables.now) (part ∷ []) }
{
    if is_passed_over(tables, part) {
        return;
    }
    push_folded(letters, part);
}

/// The letters of a character, widely read.
fn wide_letters<D: BidiData>(tables: &D, c: char) -> ArrayVec<char, MOST_LETTERS>
    ensures { result.items ≡ letters_of (D.data tables.now) Reading.Wide c }
{
    let mut letters = ArrayVec::new();
    // A Hangul syllable's parts, three at most, are written into `room`; other decompositions are lent from a table.
    let mut room = [c; 3];
    for part in decomposition(c, Form::Nfd, &mut room) {
        push_part(tables, &mut letters, *part);
    }
    letters
}

/// The letters of a character, at most one.
#[inline(always)]
fn simple_letters<D: BidiData>(
    tables: &D,
    reading: Reading,
    c: char,
) -> ArrayVec<char, MOST_LETTERS>
    requires { is_simple reading c ≡ true }
    ensures { result.items ≡ letters_of (D.data tables.now) reading c }
{
    let mut letters = ArrayVec::new();
    if !is_passed_over(tables, c) {
        letters.push(simple_letter(reading, c));
    }
    letters
}

/// The letters of a character.
pub fn letters_of<D: BidiData>(
    tables: &D,
    reading: Reading,
    c: char,
) -> ArrayVec<char, MOST_LETTERS>
    ensures { result.items ≡ letters_of (D.data tables.now) reading c }
{
    if is_simple(reading, c) {
        return simple_letters(tables, reading, c);
    }
    wide_letters(tables, c)
}
