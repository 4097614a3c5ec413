//! Joining types and forms of letters, read from two files.

ghost use Rattle.std.specs.Prelude.{◌≡◌, ℕ, IfOk, IfErr, None, false};
ghost use Rattle.std.specs.Option.{ForSome};
ghost use Rattle.bx_ucd.specs.CodeMap.{value_in};
ghost use Rattle.bx_ucd.specs.Control.{is_control};
ghost use Rattle.bx_ucd.specs.CharactersFile.{character_lines};
ghost use Rattle.bx_ucd.specs.Forms.{form_in_map};
ghost use Rattle.bx_ucd.specs.Joining.{counted_by_lines};
ghost use Rattle.bx_ucd.specs.Lines.{first_refusal, TellsRefusal};
ghost use Rattle.bx_ucd.specs.Reading.{TellsJoining, form_in_file, joining_in_files, joining_refusal};
ghost use Rattle.bx_ucd.specs.declared.class.Class.{Class};
ghost use Rattle.bx_ucd.specs.declared.joining.Form.{Form};
ghost use Rattle.bx_ucd.specs.declared.joining.Joining.TheVariants.{U};

use crate::characters_file::FormEntry;
use crate::class::Class;
use crate::code_map::CodeMap;
use crate::error::{UcdError, UcdFile};
use crate::file::read_entries;
use crate::forms::{Forms, form_map, form_of, has_form};
use crate::joining::{Form, Joining, counted, joining_by_class};
use crate::joining_file::JoiningEntry;
use std::alloc::{AllocError, Global};

/// The bytes of the two files by which letters are joined.
#[derive(Clone, Copy)]
pub struct JoiningFiles<'a> {
    /// ArabicShaping.txt
    pub joining: &'a [u8],
    /// UnicodeData.txt
    pub characters: &'a [u8],
}

/// The joining types and forms of letters. Without the two files there are neither; `forms` is empty then, so that a look-up
/// of a form asks nothing else first.
#[derive(Drop)]
pub struct JoinedLetters {
    /// The types of the characters with a line, as they count (`counted`); `None` without the two files.
    types: Option<CodeMap<Joining>>,
    forms: CodeMap<Forms>,
    ghost no_control: { (letter : ℕ) (form : Form) → ForSome (form_in_map forms letter form) (λ m. is_control m ≡ false) },
}

/// The type of each character with a line, as it counts. The last entry for a character wins.
fn type_map(
    alloc: Global,
    entries: &[JoiningEntry],
    forms: &CodeMap<Forms>,
) -> Result<CodeMap<Joining>, AllocError>
    ensures { IfOk result (λ m. (c : ℕ) → value_in m c ≡ counted_by_lines entries.now (form_in_map forms.now) c) }
{
    let mut types = CodeMap::new(alloc)?;
    for entry in entries {
        let joining = counted(entry.joining, has_form(forms, entry.character));
        types.insert(entry.character, joining)?;
    }
    Ok(types)
}

/// Reads UnicodeData.txt.
fn read_forms(alloc: Global, bytes: &[u8]) -> Result<CodeMap<Forms>, UcdError>
    ensures accepted { IfOk result (λ _. first_refusal UcdFile.Characters (character_lines bytes.now) ≡ None) }
    ensures answers { IfOk result (λ m. (letter : ℕ) (form : Form) → form_in_map m letter form ≡ form_in_file bytes.now letter form) }
    ensures refused { IfErr result (λ e. TellsRefusal UcdFile.Characters e (first_refusal UcdFile.Characters (character_lines bytes.now))) }
{
    let entries = read_entries::<FormEntry>(alloc, UcdFile::Characters, bytes)?;
    match form_map(alloc, &entries) {
        Ok(forms) => Ok(forms),
        Err(_) => Err(UcdError::out_of_memory(UcdFile::Characters)),
    }
}

impl JoinedLetters {
    ghost use Rattle.bx_ucd.specs.JoinedLetters.{type_in};

    /// No joining types and no forms.
    pub fn none(alloc: Global) -> Result<JoinedLetters, AllocError>
        ensures joining { IfOk result (λ j. (class : Class) (c : ℕ) → type_in j class c ≡ U) }
        ensures forms { IfOk result (λ j. (letter : ℕ) (form : Form) → form_in_map j.forms letter form ≡ None) }
    {
        let forms = CodeMap::new(alloc)?;
        Ok(JoinedLetters { types: None, forms })
    }

    /// Reads the two files, the joining types first.
    pub fn read(alloc: Global, joining: &[u8], characters: &[u8]) -> Result<JoinedLetters, UcdError>
        ensures accepted { IfOk result (λ _. joining_refusal (joining.now, characters.now) ≡ None) }
        ensures joining { IfOk result (λ j. (class : Class) (c : ℕ) → type_in j class c ≡ joining_in_files (joining.now, characters.now) class c) }
        ensures forms { IfOk result (λ j. (letter : ℕ) (form : Form) → form_in_map j.forms letter form ≡ form_in_file characters.now letter form) }
        ensures refused { IfErr result (λ e. TellsJoining (joining.now, characters.now) e) }
    {
        let entries = read_entries::<JoiningEntry>(alloc, UcdFile::Joining, joining)?;
        let forms = read_forms(alloc, characters)?;
        match type_map(alloc, &entries, &forms) {
            Ok(types) => Ok(JoinedLetters {
                types: Some(types),
                forms,
            }),
            Err(_) => Err(UcdError::out_of_memory(UcdFile::Characters)),
        }
    }

    /// The joining type of a character of this class.
    pub fn joining(&self, class: Class, c: char) -> Joining
        ensures { result ≡ type_in self.now class c }
    {
        let Some(types) = &self.types else {
            return Joining::U;
        };
        match types.get(c) {
            Some(joining) => joining,
            None => joining_by_class(class, c),
        }
    }

    /// The character of a letter's form, if it has one.
    pub fn form(&self, letter: char, form: Form) -> Option<char>
        ensures { result ≡ form_in_map self.now.forms letter form }
    {
        form_of(&self.forms, letter, form)
    }
}
