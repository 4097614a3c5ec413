//! The forms of letters, as they are stored: for each letter the characters that are its forms.

ghost use Rattle.std.specs.Prelude.{◌≡◌, ℕ, IfOk, OnOk, Some, None, if◌then◌else◌};
ghost use Rattle.bx_ucd.specs.Forms.{form_in, form_in_map};
ghost use Rattle.bx_ucd.specs.Joining.{form_by_lines, has_form, is_for, is_same};
ghost use Rattle.bx_ucd.specs.declared.joining.Form.{Form};

use crate::characters_file::FormEntry;
use crate::code_map::CodeMap;
use crate::joining::Form;
use std::alloc::{AllocError, Global};

/// The character of each form of a letter, where it has one.
#[derive(Clone, Copy)]
pub struct Forms {
    isolated: Option<char>,
    initial: Option<char>,
    medial: Option<char>,
    /// The final form.
    last: Option<char>,
}

impl Forms {
    /// No form.
    fn none() -> Forms
        ensures { (form : Form) → form_in result form ≡ None }
    {
        Forms {
            isolated: None,
            initial: None,
            medial: None,
            last: None,
        }
    }

    /// The character of a form, if there is one.
    fn get(&self, form: Form) -> Option<char>
        ensures { result ≡ form_in self.now form }
    {
        match form {
            Form::Isolated => self.isolated,
            Form::Initial => self.initial,
            Form::Medial => self.medial,
            Form::Final => self.last,
        }
    }

    /// Sets the character of a form.
    fn set(&mut self, form: Form, shown: char)
        ensures { (other : Form) → form_in self.new other ≡ (if is_same form other then Some shown else form_in self.old other) }
    {
        match form {
            Form::Isolated => self.isolated = Some(shown),
            Form::Initial => self.initial = Some(shown),
            Form::Medial => self.medial = Some(shown),
            Form::Final => self.last = Some(shown),
        }
    }

    /// Whether there is any form.
    fn has_any(&self) -> bool
        ensures { result ≡ has_form (form_in self.now) }
    {
        self.isolated.is_some()
            || self.initial.is_some()
            || self.medial.is_some()
            || self.last.is_some()
    }
}

/// The character of a letter's form, if it has one.
pub fn form_of(forms: &CodeMap<Forms>, letter: char, form: Form) -> Option<char>
    ensures { result ≡ form_in_map forms.now letter form }
{
    match forms.get(letter) {
        Some(found) => found.get(form),
        None => None,
    }
}

/// Whether a letter has any form.
pub fn has_form(forms: &CodeMap<Forms>, letter: char) -> bool
    ensures { result ≡ has_form (form_in_map forms.now letter) }
{
    match forms.get(letter) {
        Some(found) => found.has_any(),
        None => false,
    }
}

/// Sets the character of a letter's form, and replaces an earlier one.
fn insert_form(forms: &mut CodeMap<Forms>, entry: FormEntry) -> Result<(), AllocError>
    ensures { OnOk result ((letter : ℕ) (form : Form) → form_in_map forms.new letter form
        ≡ (if is_for letter form entry then Some entry.shown else form_in_map forms.old letter form)) }
{
    let mut known = forms.get(entry.letter).unwrap_or(Forms::none());
    known.set(entry.form, entry.shown);
    forms.insert(entry.letter, known)?;
    Ok(())
}

/// The forms of each letter. The last entry for a letter and a form wins.
pub fn form_map(alloc: Global, entries: &[FormEntry]) -> Result<CodeMap<Forms>, AllocError>
    ensures { IfOk result (λ m. (letter : ℕ) (form : Form) → form_in_map m letter form ≡ form_by_lines entries.now letter form) }
{
    let mut forms = CodeMap::new(alloc)?;
    for entry in entries {
        insert_form(&mut forms, *entry)?;
    }
    Ok(forms)
}
