//! How letters join: joining types, and the forms that letters have.

ghost use Rattle.std.specs.Prelude.{◌≡◌};
ghost use Rattle.bx_ucd.specs.Joining.{counted, is_joined_across, joining_by_class, needs_form};

use crate::class::{Class, is_unlettered};
use bx_common::{is_control, is_direction_mark};

/// A joining type (the property Joining_Type), under its short name in the data files.
#[derive(Clone, Copy)]
pub enum Joining {
    /// Right_Joining: joins the letter before it alone.
    R,
    /// Left_Joining: joins the letter after it alone.
    L,
    /// Dual_Joining: joins on both sides.
    D,
    /// Join_Causing: joins on both sides, and keeps its own form.
    C,
    /// Non_Joining
    U,
    /// Transparent: letters on its two sides join as if it were not there.
    T,
}

/// The form of a letter, by the sides on which it joins.
#[derive(Clone, Copy)]
pub enum Form {
    /// It joins on no side.
    Isolated,
    /// It joins the letter after it alone.
    Initial,
    /// It joins on both sides.
    Medial,
    /// It joins the letter before it alone.
    Final,
}

/// Whether letters join across a character of this class, where no line gives its joining type.
fn is_joined_across(class: Class, c: char) -> bool
    ensures { result ≡ is_joined_across class c }
{
    match class {
        Class::BN => !is_control(c),
        _ => is_unlettered(class),
    }
}

/// The joining type of a character of this class, where no line gives it.
pub(crate) fn joining_by_class(class: Class, c: char) -> Joining
    ensures { result ≡ joining_by_class class c }
{
    if is_direction_mark(c) || is_joined_across(class, c) {
        Joining::T
    } else {
        Joining::U
    }
}

/// Whether a letter of this type joins only if it has a form.
fn needs_form(joining: Joining) -> bool
    ensures { result ≡ needs_form joining }
{
    matches!(joining, Joining::R | Joining::L | Joining::D)
}

/// The joining type that counts for a character whose own type is `joining`: U, if the type needs a form and it has none.
pub(crate) fn counted(joining: Joining, has_form: bool) -> Joining
    ensures { result ≡ counted joining has_form }
{
    if needs_form(joining) && !has_form {
        Joining::U
    } else {
        joining
    }
}
