//! The tables built from Unicode's files: what the programs look properties up in.

ghost use Rattle.std.specs.Prelude.{◌≡◌, ℕ, ◌<◌, ◌⊎◌, false, None, Some, IfOk, IfErr, MatchOption};
ghost use Rattle.std.specs.Option.{ForSome};
ghost use Rattle.bx_ucd.specs.Answers.{bracket_by_lines, class_by_lines, mirror_by_lines};
ghost use Rattle.bx_ucd.specs.ClassFile.{class_lines};
ghost use Rattle.bx_ucd.specs.ClassTable.{class_in_table};
ghost use Rattle.bx_ucd.specs.BracketFile.{bracket_lines};
ghost use Rattle.bx_ucd.specs.CodeMap.{value_in};
ghost use Rattle.bx_ucd.specs.Control.{is_control, no_control_if_some};
ghost use Rattle.bx_ucd.specs.Lines.{first_refusal, no_memory_in, TellsRefusal};
ghost use Rattle.bx_ucd.specs.MirroringFile.{mirror_lines};
ghost use Rattle.bx_ucd.specs.Reading.{refusal, NoMemoryAfter, class_in_file, bracket_in_file, mirror_in_file};
ghost use Rattle.bx_ucd.specs.Reading.{TellsJoining, form_if_any, joining_if_any, joining_refusal_if_any, texts_of};
ghost use Rattle.bx_ucd.specs.JoinedLetters.{type_in};
ghost use Rattle.bx_ucd.specs.Forms.{form_in_map};
ghost use Rattle.bx_ucd.specs.declared.class.Class.{Class};
ghost use Rattle.bx_ucd.specs.declared.joining.Form.{Form};

use crate::blocks::painted_blocks;
use crate::bracket_file::BracketEntry;
use crate::class::Class;
use crate::class_file::ClassEntry;
use crate::class_table::ClassTable;
use crate::code_map::CodeMap;
use crate::data::{BidiData, Side};
use crate::error::{UcdError, UcdFile};
use crate::file::read_entries;
use crate::joined_letters::{JoinedLetters, JoiningFiles};
use crate::joining::{Form, Joining};
use crate::mirroring_file::MirrorEntry;
use std::alloc::{AllocError, Global};

/// Unicode's data as its files give it. Lookups do not allocate.
#[derive(Drop)]
pub struct Tables {
    classes: ClassTable,
    /// Of each bracket its side and its counterpart.
    brackets: CodeMap<(Side, char)>,
    /// Of each mirrored character its mirror.
    mirrors: CodeMap<char>,
    joined: JoinedLetters,
    ghost no_control: { (code : ℕ) → ForSome (value_in mirrors code) (λ m. is_control m ≡ false) },
}

/// Builds the table of classes.
fn class_table(alloc: Global, entries: &[ClassEntry]) -> Result<ClassTable, AllocError>
    ensures { IfOk result (λ t. (code : ℕ) → code < 0x110000 → class_in_table t code ≡ class_by_lines entries.now code) }
{
    let blocks = painted_blocks(alloc, entries)?;
    ClassTable::new(alloc, &blocks)
}

/// The side and counterpart of each bracket. The last entry for a bracket wins.
fn bracket_map(alloc: Global, entries: &[BracketEntry]) -> Result<CodeMap<(Side, char)>, AllocError>
    ensures { IfOk result (λ m. (code : ℕ) → value_in m code ≡ bracket_by_lines entries.now code) }
{
    let mut brackets = CodeMap::new(alloc)?;
    for entry in entries {
        brackets.insert(entry.bracket, (entry.side, entry.paired))?;
    }
    Ok(brackets)
}

/// The mirror of each mirrored character. The last entry for a character wins.
fn mirror_map(alloc: Global, entries: &[MirrorEntry]) -> Result<CodeMap<char>, AllocError>
    ensures { IfOk result (λ m. (code : ℕ) → value_in m code ≡ mirror_by_lines entries.now code) }
{
    let mut mirrors = CodeMap::new(alloc)?;
    for entry in entries {
        mirrors.insert(entry.character, entry.mirror)?;
    }
    Ok(mirrors)
}

/// Reads DerivedBidiClass.txt.
fn read_classes(alloc: Global, bytes: &[u8]) -> Result<ClassTable, UcdError>
    ensures accepted { IfOk result (λ _. first_refusal UcdFile.Classes (class_lines bytes.now) ≡ None) }
    ensures answers { IfOk result (λ t. (code : ℕ) → class_in_table t code ≡ class_in_file bytes.now code) }
    ensures refused { IfErr result (λ e. TellsRefusal UcdFile.Classes e (first_refusal UcdFile.Classes (class_lines bytes.now))) }
{
    let entries = read_entries::<ClassEntry>(alloc, UcdFile::Classes, bytes)?;
    match class_table(alloc, &entries) {
        Ok(table) => Ok(table),
        Err(_) => Err(UcdError::out_of_memory(UcdFile::Classes)),
    }
}

/// Reads BidiBrackets.txt.
fn read_brackets(alloc: Global, bytes: &[u8]) -> Result<CodeMap<(Side, char)>, UcdError>
    ensures accepted { IfOk result (λ _. first_refusal UcdFile.Brackets (bracket_lines bytes.now) ≡ None) }
    ensures answers { IfOk result (λ m. (code : ℕ) → value_in m code ≡ bracket_in_file bytes.now code) }
    ensures refused { IfErr result (λ e. TellsRefusal UcdFile.Brackets e (first_refusal UcdFile.Brackets (bracket_lines bytes.now))) }
{
    let entries = read_entries::<BracketEntry>(alloc, UcdFile::Brackets, bytes)?;
    match bracket_map(alloc, &entries) {
        Ok(brackets) => Ok(brackets),
        Err(_) => Err(UcdError::out_of_memory(UcdFile::Brackets)),
    }
}

/// Reads BidiMirroring.txt.
fn read_mirrors(alloc: Global, bytes: &[u8]) -> Result<CodeMap<char>, UcdError>
    ensures accepted { IfOk result (λ _. first_refusal UcdFile.Mirroring (mirror_lines bytes.now) ≡ None) }
    ensures answers { IfOk result (λ m. (code : ℕ) → value_in m code ≡ mirror_in_file bytes.now code) }
    ensures refused { IfErr result (λ e. TellsRefusal UcdFile.Mirroring e (first_refusal UcdFile.Mirroring (mirror_lines bytes.now))) }
{
    let entries = read_entries::<MirrorEntry>(alloc, UcdFile::Mirroring, bytes)?;
    match mirror_map(alloc, &entries) {
        Ok(mirrors) => Ok(mirrors),
        Err(_) => Err(UcdError::out_of_memory(UcdFile::Mirroring)),
    }
}

/// Reads ArabicShaping.txt and UnicodeData.txt, if they are given. If they are not, the error of a failed allocation names the
/// file read before, BidiMirroring.txt.
fn read_joined(alloc: Global, files: Option<JoiningFiles<'_>>) -> Result<JoinedLetters, UcdError>
    ensures accepted { IfOk result (λ _. joining_refusal_if_any (texts_of files.entry) ≡ None) }
    ensures joining { IfOk result (λ j. (class : Class) (c : ℕ) → type_in j class c ≡ joining_if_any (texts_of files.entry) class c) }
    ensures forms { IfOk result (λ j. (letter : ℕ) (form : Form) → form_in_map j.forms letter form ≡ form_if_any (texts_of files.entry) letter form) }
    ensures refused { IfErr result (λ e. MatchOption (texts_of files.entry) (e ≡ no_memory_in UcdFile.Mirroring) (λ texts. TellsJoining texts e)) }
{
    match files {
        Some(files) => JoinedLetters::read(alloc, files.joining, files.characters),
        None => match JoinedLetters::none(alloc) {
            Ok(joined) => Ok(joined),
            Err(_) => Err(UcdError::out_of_memory(UcdFile::Mirroring)),
        },
    }
}

impl Tables {
    /// Reads DerivedBidiClass.txt, BidiBrackets.txt and BidiMirroring.txt, then ArabicShaping.txt and UnicodeData.txt if they
    /// are given. Stops at the first malformed line.
    ///
    /// The error of a failed allocation names the file that was being read; its later lines may be unread.
    pub fn read(
        alloc: Global,
        classes: &[u8],
        brackets: &[u8],
        mirroring: &[u8],
        joining: Option<JoiningFiles<'_>>,
    ) -> Result<Tables, UcdError>
        ensures accepted { IfOk result (λ _. refusal classes.now brackets.now mirroring.now (texts_of joining.entry) ≡ None) }
        ensures classes { IfOk result (λ t. (code : ℕ) → (⟦<Tables as BidiData>⟧.data t).class code ≡ class_in_file classes.now code) }
        ensures brackets { IfOk result (λ t. (code : ℕ) → (⟦<Tables as BidiData>⟧.data t).bracket code ≡ bracket_in_file brackets.now code) }
        ensures mirrors { IfOk result (λ t. (code : ℕ) → (⟦<Tables as BidiData>⟧.data t).mirror code ≡ mirror_in_file mirroring.now code) }
        ensures joining { IfOk result (λ t. (code : ℕ) → (⟦<Tables as BidiData>⟧.data t).joining code
            ≡ joining_if_any (texts_of joining.entry) (class_in_file classes.now code) code) }
        ensures forms { IfOk result (λ t. (code : ℕ) (form : Form) → (⟦<Tables as BidiData>⟧.data t).form code form ≡ form_if_any (texts_of joining.entry) code form) }
        ensures refused { IfErr result (λ e. (refusal classes.now brackets.now mirroring.now (texts_of joining.entry) ≡ Some e)
            ⊎ NoMemoryAfter classes.now brackets.now mirroring.now (texts_of joining.entry) e) }
    {
        Ok(Tables {
            classes: read_classes(alloc, classes)?,
            brackets: read_brackets(alloc, brackets)?,
            mirrors: read_mirrors(alloc, mirroring)?,
            joined: read_joined(alloc, joining)?,
        })
    }
}

impl BidiData for Tables {
    ghost data = { λ t. record {
      class = class_in_table t.classes;
      bracket = value_in t.brackets;
      mirror = value_in t.mirrors;
      joining = λ c. type_in t.joined (class_in_table t.classes c) c;
      form = form_in_map t.joined.forms;
    } };

    ghost no_mirror_is_control = { λ t code. no_control_if_some (value_in t.mirrors code) (t.no_control code) };

    ghost no_form_is_control = { λ t code form. no_control_if_some (form_in_map t.joined.forms code form) (t.joined.no_control code form) };

    fn class(&self, c: char) -> Class {
        self.classes.class(c)
    }

    fn bracket(&self, c: char) -> Option<(Side, char)> {
        self.brackets.get(c)
    }

    fn mirror(&self, c: char) -> Option<char> {
        self.mirrors.get(c)
    }

    fn joining(&self, c: char) -> Joining {
        self.joined.joining(self.classes.class(c), c)
    }

    fn form(&self, c: char, form: Form) -> Option<char> {
        self.joined.form(c, form)
    }
}
