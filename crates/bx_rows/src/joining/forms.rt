//! The forms in which a body's letters are shown, by the letters beside them.
ghost use Rattle.std.specs.Prelude.{◌≡◌, ◌<◌, ◌++◌, ◌∷◌, ◌&&◌, ◌||◌, [], IsUtf8, List, MatchOption, None, chars, encode_utf8, false, length, reverse, slice_index_or, take, ℕ};
ghost use Rattle.std.specs.Str.{IsCharBoundary};
ghost use Rattle.bx_rows.specs.joining.JoinedText.{AreFormless};
ghost use Rattle.bx_ucd.specs.declared.joining.Form.{Form};
ghost use Rattle.bx_rows.specs.joining.Joining.{Joiner, are_one_odd, body_forms, form_if, is_lower, is_transparent, join, joiners, joins_after, joins_back, joins_before, joins_on};
ghost use Rattle.bx_rows.specs.joining.Nearest.{lower_of, lowest_level, nearest};

use bx_common::first_char;
use bx_levels::Level;
use bx_ucd::{BidiData, Form, Joining};

/// A character's joining type, and its level, `None` if X9 removes the character.
type Joiner = (Joining, Option<u8>);

/// The text of a body, and the level of each of its characters.
#[derive(Clone, Copy)]
pub struct LeveledBody<'t, 'e> {
    /// The body itself.
    pub text: &'t str,
    /// The level of each character of the text.
    pub each: &'e [Level],
}

impl<'t, 'e> LeveledBody<'t, 'e> {
    /// The text.
    pub fn text(self) -> &'t str
        ensures { result.now ≡ self.entry.text.now }
    {
        self.text
    }
}

/// Where a text is in a body.
#[derive(Clone, Copy)]
pub struct TextAt<'t, 'e> {
    pub body: LeveledBody<'t, 'e>,
    /// Its offset in the body, in bytes.
    pub offset: usize,
    /// The number of the body's characters before it.
    pub number: usize,
}

/// The last character of a text, and the text before it.
fn last_char(text: &str) -> Option<(char, &str)>
    ensures { MatchOption result (length text.now ≡ 0) (λ (c, before).
        (text.now ≡ before.now ++ encode_utf8 c) × (length before.now < length text.now) × (chars text.now ≡ chars before.now ++ c ∷ []) × IsUtf8 before.now) }
{
    let mut chars = text.chars();
    match chars.next_back() {
        Some(c) => Some((c, chars.as_str())),
        None => None,
    }
}

/// Whether letters may join across a character of this type.
fn is_transparent(joining: Joining) -> bool
    ensures { result ≡ is_transparent joining }
{
    matches!(joining, Joining::T)
}

/// Whether a character of this type joins the character before it.
fn joins_back(joining: Joining) -> bool
    ensures { result ≡ joins_back joining }
{
    matches!(joining, Joining::D | Joining::R | Joining::C)
}

/// Whether a character of this type joins the character after it.
fn joins_on(joining: Joining) -> bool
    ensures { result ≡ joins_on joining }
{
    matches!(joining, Joining::D | Joining::L | Joining::C)
}

/// Whether the levels of two characters are odd and equal, as far as they have one.
fn are_one_odd(first: Option<u8>, second: Option<u8>) -> bool
    ensures { result ≡ are_one_odd first second }
{
    match (first, second) {
        (None, None) => true,
        (Some(level), None) => level % 2 == 1,
        (None, Some(level)) => level % 2 == 1,
        (Some(level), Some(other)) => level % 2 == 1 && level == other,
    }
}

/// Whether `level` is lower than `other`; false if one of them is missing.
fn is_lower(level: Option<u8>, other: Option<u8>) -> bool
    ensures { result ≡ is_lower level other }
{
    match (level, other) {
        (Some(level), Some(other)) => level < other,
        _ => false,
    }
}

/// The lower of two levels, or the one that is there; `None` if none is.
fn lower_of(level: Option<u8>, other: Option<u8>) -> Option<u8>
    ensures { result ≡ lower_of level other }
{
    match (level, other) {
        (Some(level), Some(other)) => Some(level.min(other)),
        (Some(level), None) => Some(level),
        (None, other) => other,
    }
}

/// Whether a level is lower than the level of one of two characters.
fn is_lower_than_one(level: Option<u8>, first: Joiner, second: Joiner) -> bool
    ensures { result ≡ (is_lower level first.1 || is_lower level second.1) }
{
    is_lower(level, first.1) || is_lower(level, second.1)
}

/// Whether two neighbours join, the first before the second, if nothing between them has a lower level.
fn could_join(first: Joiner, second: Joiner) -> bool
    ensures { result ≡ ((joins_on first.0 && joins_back second.0) && are_one_odd first.1 second.1) }
{
    joins_on(first.0) && joins_back(second.0) && are_one_odd(first.1, second.1)
}

/// Whether two neighbours join, the first before the second, given the lowest level between them (`None`: there is no level).
fn join(first: Joiner, lowest: Option<u8>, second: Joiner) -> bool
    ensures { (between : List Joiner) → lowest_level between ≡ lowest → result ≡ join first between second }
{
    if is_lower_than_one(lowest, first, second) {
        return false;
    }
    could_join(first, second)
}

/// The form of a letter, given whether it joins the one before it, and whether it joins the one after it.
fn form_if(joins_before: bool, joins_after: bool) -> Form
    ensures { result ≡ form_if joins_before joins_after }
{
    match (joins_before, joins_after) {
        (true, true) => Form::Medial,
        (true, false) => Form::Final,
        (false, true) => Form::Initial,
        (false, false) => Form::Isolated,
    }
}

/// The first character of a text that is not transparent, and the lowest level of the characters before it.
fn first_joiner<D: BidiData>(
    text: &str,
    levels: &[Level],
    tables: &D,
) -> Option<(Joiner, Option<u8>)>
    ensures { result ≡ nearest (joiners (D.data tables.now) text.now levels.now) }
{
    let mut rest = text;
    let mut left = levels;
    let mut lowest = None;
    while let Some((c, behind)) = first_char(rest) {
        let Some((level, after)) = left.split_first() else {
            return None;
        };
        let joining = tables.joining(c);
        if !is_transparent(joining) {
            return Some(((joining, level.get()), lowest));
        }
        lowest = lower_of(lowest, level.get());
        rest = behind;
        left = after;
    }
    None
}

/// The last character of a text that is not transparent, and the lowest level of the characters after it.
fn last_joiner<D: BidiData>(
    text: &str,
    levels: &[Level],
    tables: &D,
) -> Option<(Joiner, Option<u8>)>
    requires { length levels.now ≡ length (chars text.now) }
    ensures { result ≡ nearest (reverse (joiners (D.data tables.now) text.now levels.now)) }
{
    let mut rest = text;
    let mut left = levels;
    let mut lowest = None;
    while let Some((c, before)) = last_char(rest) {
        let Some((level, earlier)) = left.split_last() else {
            return None;
        };
        let joining = tables.joining(c);
        if !is_transparent(joining) {
            return Some(((joining, level.get()), lowest));
        }
        lowest = lower_of(lowest, level.get());
        rest = before;
        left = earlier;
    }
    None
}

/// Whether the character `own` joins the one before it; `text` is the body before `own`, with its characters' levels.
fn joins_before<D: BidiData>(own: Joiner, text: &str, levels: &[Level], tables: &D) -> bool
    requires { length levels.now ≡ length (chars text.now) }
    ensures { result ≡ joins_before (reverse (joiners (D.data tables.now) text.now levels.now)) own }
{
    // A combining mark (type T) joins nothing, so those of a long cluster do not read each other.
    if !joins_back(own.0) {
        return false;
    }
    match last_joiner(text, levels, tables) {
        Some((first, lowest)) => join(first, lowest, own),
        None => false,
    }
}

/// Whether the character `own` joins the one after it; `text` is the body after `own`, with its characters' levels.
fn joins_after<D: BidiData>(own: Joiner, text: &str, levels: &[Level], tables: &D) -> bool
    ensures { result ≡ joins_after own (joiners (D.data tables.now) text.now levels.now) }
{
    if !joins_on(own.0) {
        return false;
    }
    match first_joiner(text, levels, tables) {
        Some((second, lowest)) => join(own, lowest, second),
        None => false,
    }
}

/// The form of the character at an offset of its body; isolated if the body has no character there. On a side where the character
/// may join, reads the transparent characters and the next one that is not.
fn form_at<D: BidiData>(at: TextAt<'_, '_>, tables: &D) -> Form
    requires boundary { IsCharBoundary at.body.text.now at.offset }
    requires number { at.number ≡ length (chars (take at.offset at.body.text.now)) }
    ensures { result ≡ slice_index_or (body_forms (D.data tables.now) at.entry.body.text.now at.entry.body.each.now) at.entry.number Form.Isolated }
{
    let (before, rest) = at.body.text().split_at(at.offset);
    let Some((c, behind)) = first_char(rest) else {
        return Form::Isolated;
    };
    let Some((earlier, later)) = at.body.each.split_at_checked(at.number) else {
        return Form::Isolated;
    };
    let Some((level, after)) = later.split_first() else {
        return Form::Isolated;
    };
    let own = (tables.joining(c), level.get());
    form_if(
        joins_before(own, before, earlier, tables),
        joins_after(own, behind, after, tables),
    )
}

/// Whether a character is a letter with a form.
fn has_form<D: BidiData>(c: char, tables: &D) -> bool
    ensures { result ≡ false → (form : Form) → (D.data tables.now).form c form ≡ None }
{
    tables.form(c, Form::Isolated).is_some()
        || tables.form(c, Form::Initial).is_some()
        || tables.form(c, Form::Medial).is_some()
        || tables.form(c, Form::Final).is_some()
}

/// The character that shows a letter in the form that it has at this offset of its body, if the letter has that form.
pub fn shown_form<D: BidiData>(letter: char, at: TextAt<'_, '_>, tables: &D) -> Option<char>
    requires boundary { IsCharBoundary at.body.text.now at.offset }
    requires number { at.number ≡ length (chars (take at.offset at.body.text.now)) }
    ensures { result ≡ (D.data tables.now).form letter
        (slice_index_or (body_forms (D.data tables.now) at.entry.body.text.now at.entry.body.each.now) at.entry.number Form.Isolated) }
{
    tables.form(letter, form_at(at, tables))
}

/// Whether a text has a letter with a form.
pub fn has_forms<D: BidiData>(text: &str, tables: &D) -> bool
    ensures { result ≡ false → AreFormless (D.data tables.now) (chars text.now) }
{
    for c in text.chars() {
        if has_form(c, tables) {
            return true;
        }
    }
    false
}
