//! The face of a cluster in a window of `w` columns: its own text, a tab, or a placeholder.
ghost use Rattle.std.specs.Prelude.{◌≡◌, chars, false, length, None, ◌≤◌};
ghost use Rattle.std.specs.List.{list_any};
ghost use Rattle.bx_common.specs.Characters.{is_control};
ghost use Rattle.bx_rows.specs.cells.Simple.{own_columns};
ghost use Rattle.bx_rows.specs.cells.SimpleFace.{simple_face};
ghost use Rattle.bx_rows.specs.cells.Units.{face, format_letter, is_tab, letter_of, only_char, sized_face};

use crate::cells::unit::Face;
use bx_common::is_control;
use bx_ucd::{BidiData, Class};
use unicode_width::UnicodeWidthStr;

/// The letter that a placeholder shows for an explicit formatting character: small for left to right, large for right to left, except
/// that `f` is FSI, `p` PDF and `P` PDI.
fn letter_of(class: Class) -> Option<u8>
    ensures { result ≡ letter_of class }
{
    match class {
        Class::LRE => Some(b'e'),
        Class::RLE => Some(b'E'),
        Class::LRO => Some(b'o'),
        Class::RLO => Some(b'O'),
        Class::PDF => Some(b'p'),
        Class::LRI => Some(b'i'),
        Class::RLI => Some(b'I'),
        Class::FSI => Some(b'f'),
        Class::PDI => Some(b'P'),
        _ => None,
    }
}

/// Whether a class may have a letter; false only if it has none.
#[inline(always)]
fn may_have_letter(class: Class) -> bool
    ensures { result ≡ false → letter_of class ≡ None }
{
    matches!(
        class,
        Class::LRE
            | Class::RLE
            | Class::LRO
            | Class::RLO
            | Class::PDF
            | Class::LRI
            | Class::RLI
            | Class::FSI
            | Class::PDI
    )
}

/// `letter_of`, with a short inlined test for the many classes that have no letter.
#[inline(always)]
fn letter_if_any(class: Class) -> Option<u8>
    ensures { result ≡ letter_of class }
{
    if may_have_letter(class) {
        letter_of(class)
    } else {
        None
    }
}

/// `sized_face` for a simple cluster, with a shortcut for one column.
#[inline(always)]
fn small_face(w: u16, columns: u8) -> Face
    ensures { result ≡ sized_face w columns }
{
    if columns == 1 && w > 0 {
        return Face::Own(1);
    }
    sized_face(w, usize::from(columns))
}

/// The face of a text of `columns` columns that is not a tab, control or formatting character: the placeholder `~` for no column, the one
/// `#` for more than the window has.
fn sized_face(w: u16, columns: usize) -> Face
    ensures { result ≡ sized_face w columns }
{
    if columns == 0 {
        Face::Placeholder(b'~')
    } else if (w as usize) < columns {
        Face::Placeholder(b'#')
    } else {
        Face::Own(columns as u16)
    }
}

/// The face of a simple cluster whose first character takes `columns` columns; `is_marked` if combining marks follow it.
#[inline(always)]
pub fn simple_face<D: BidiData>(
    first: char,
    columns: u8,
    is_marked: bool,
    tables: &D,
    w: u16,
) -> Face
    requires { own_columns first ≡ columns }
    ensures { result ≡ simple_face (D.data tables.now) w first is_marked }
{
    if is_marked {
        return small_face(w, columns);
    }
    match letter_if_any(tables.class(first)) {
        Some(letter) => Face::Placeholder(letter),
        None => small_face(w, columns),
    }
}

/// The character of a text that has exactly one.
#[tactic(auto, using(crate::proofs::cells_lemmas::FaceSteps::only_of_none, crate::proofs::cells_lemmas::FaceSteps::only_of_one, crate::proofs::cells_lemmas::FaceSteps::only_of_more))]
pub fn only_char(text: &str) -> Option<char>
    ensures { result ≡ only_char (chars text.now) }
{
    let mut chars = text.chars();
    match chars.next() {
        None => None,
        Some(first) => match chars.next() {
            None => Some(first),
            Some(_) => None,
        },
    }
}

/// Whether a text has a control character.
fn has_control(text: &str) -> bool
    ensures { result ≡ list_any is_control (chars text.now) }
{
    text.chars().any(|c| is_control(c))
}

/// Whether the only character is a tab.
fn is_tab(only: Option<char>) -> bool
    ensures { result ≡ is_tab only }
{
    match only {
        Some(c) => c == '\t',
        None => false,
    }
}

/// The letter of a cluster that is one explicit formatting character.
fn format_letter<D: BidiData>(only: Option<char>, tables: &D) -> Option<u8>
    ensures { result ≡ format_letter (D.data tables.now) only }
{
    match only {
        Some(c) => letter_of(tables.class(c)),
        None => None,
    }
}

/// The face of a cluster in a window of `w` columns.
#[tactic(auto, using(crate::proofs::cells_lemmas::FaceSteps::of_tab, crate::proofs::cells_lemmas::FaceSteps::of_control, crate::proofs::cells_lemmas::FaceSteps::of_format, crate::proofs::cells_lemmas::FaceSteps::of_sized))]
pub fn face<D: BidiData>(cluster: &str, tables: &D, w: u16) -> Face
    ensures { result ≡ face (D.data tables.now) w cluster.now }
{
    let only = only_char(cluster);
    if is_tab(only) {
        return Face::Tab;
    }
    if has_control(cluster) {
        return Face::Placeholder(b'?');
    }
    match format_letter(only, tables) {
        Some(letter) => Face::Placeholder(letter),
        None => sized_face(w, cluster.width()),
    }
}
