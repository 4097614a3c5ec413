//! The characters allowed between two strong characters that cut off an edit.
ghost use Rattle.std.specs.Prelude.{◌≡◌, chars, not};
ghost use Rattle.bx_levels.specs.resolve.Edited.{is_listed};
ghost use Rattle.bx_paragraph.specs.Cuts.{are_bare, are_unformatted, direction_between, has_no_bracket, is_bare, is_of_direction};
ghost use Rattle.bx_paragraph.specs.declared.direction.Direction.TheVariants.{Either};

use bx_ucd::{BidiData, Class};

/// The characters that a text may have: all but formatting characters and those of class BN, or only those of them that keep a
/// text in one direction.
#[derive(Clone, Copy)]
pub(crate) enum Direction {
    /// All but formatting characters and BN.
    Either,
    /// Of these all but R, AL and AN.
    LeftToRight,
    /// Of the first all but L.
    RightToLeft,
}

/// The direction between two strong characters of these classes: theirs, if they have the same, AL counting as R.
pub(crate) fn direction_between(before: Class, behind: Class) -> Direction
    ensures { result ≡ direction_between before behind }
{
    match before {
        Class::L => match behind {
            Class::L => Direction::LeftToRight,
            _ => Direction::Either,
        },
        _ => match behind {
            Class::L => Direction::Either,
            _ => Direction::RightToLeft,
        },
    }
}

/// Whether a text of a direction may have characters of a class.
fn is_of_direction(direction: Direction, class: Class) -> bool
    ensures { result ≡ is_of_direction direction class }
{
    match class {
        Class::EN | Class::ES | Class::ET | Class::CS | Class::NSM => true,
        Class::B | Class::S | Class::WS | Class::ON => true,
        Class::L => direction != Direction::RightToLeft,
        Class::R | Class::AL | Class::AN => direction != Direction::LeftToRight,
        _ => false,
    }
}

/// Whether a text of a direction may have a character, and it is not a bracket.
fn is_bare<D: BidiData>(c: char, direction: Direction, tables: &D) -> bool
    ensures { result ≡ is_bare (D.data tables.now) direction c }
{
    is_of_direction(direction, tables.class(c)) && tables.bracket(c).is_none()
}

/// Whether a text is of a direction and has no brackets.
pub(crate) fn are_bare<D: BidiData>(text: &str, direction: Direction, tables: &D) -> bool
    ensures { result ≡ are_bare (D.data tables.now) direction text.now }
{
    text.chars().all(|c| is_bare(c, direction, tables))
}

/// Whether a character is not a bracket.
fn is_no_bracket<D: BidiData>(c: char, tables: &D) -> bool
    ensures { result ≡ not (is_listed (D.data tables.now) c) }
{
    tables.bracket(c).is_none()
}

/// Whether a text has no brackets.
pub(crate) fn has_no_bracket<D: BidiData>(text: &str, tables: &D) -> bool
    ensures { result ≡ has_no_bracket (D.data tables.now) text.now }
{
    text.chars().all(|c| is_no_bracket(c, tables))
}

/// Whether a character is neither a formatting character nor of class BN.
fn is_unformatted<D: BidiData>(c: char, tables: &D) -> bool
    ensures { result ≡ is_of_direction Either ((D.data tables.now).class c) }
{
    is_of_direction(Direction::Either, tables.class(c))
}

/// Whether a text has no formatting character and none of class BN.
pub(crate) fn are_unformatted<D: BidiData>(text: &str, tables: &D) -> bool
    ensures { result ≡ are_unformatted (D.data tables.now) text.now }
{
    text.chars().all(|c| is_unformatted(c, tables))
}
