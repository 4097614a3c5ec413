//! Unicode's files: the options that name them, their paths and bytes, and the tables read from them.

ghost use Rattle.std.specs.Prelude.{◌≡◌, ◌⊎◌, Some, IfErr, IfOk};
ghost use Rattle.clap.specs.Words.{app_of, rule_of};
ghost use Rattle.bx_command.specs.shared.Arguments.{GivesJoining, GivesPaths, rows_in};
ghost use Rattle.bx_command.specs.shared.Files.{IsFirstUnread};
ghost use Rattle.bx_command.specs.shared.Reading.{AreJoiningRead, AreRead, AreReadIfAny, joining_paths_in, paths_if_any, paths_in};
ghost use Rattle.bx_command.specs.shared.Rules.{bound, option_rule, required, table_rules, with_rules};
ghost use Rattle.bx_command.specs.shared.Tables.{AreOfFiles, NoMemoryInTables, joining_texts, refused_line};
ghost use Rattle.bx_ucd.specs.Reading.{texts_of};

use crate::shared::arguments::{option, value_of};
use crate::shared::files::{FileFault, InputFiles, bytes_of};
use bx_ucd::{BidiData, Tables, UcdError};
use clap::{Arg, ArgMatches, Command};
use std::alloc::{AllocError, Global};

/// The two files by which letters are joined, each as a `T`: its path or its bytes.
#[derive(Drop)]
pub struct JoiningFiles<T> {
    /// ArabicShaping.txt
    pub joining: T,
    /// UnicodeData.txt
    pub characters: T,
}

/// Unicode's files, each as a `T`: its path or its bytes.
#[derive(Drop)]
pub struct UnicodeFiles<T> {
    /// DerivedBidiClass.txt
    pub classes: T,
    /// BidiBrackets.txt
    pub brackets: T,
    /// BidiMirroring.txt
    pub mirroring: T,
    /// None if letters are not joined.
    pub joining: Option<JoiningFiles<T>>,
}

/// An option that names a file, which must be given.
fn table<'a>(alloc: Global, name: &'a str) -> Arg<'a>
    ensures { rule_of result ≡ required (option_rule name.entry.now) }
{
    option(alloc, name, "F").required(true)
}

/// An option that names a file, and is given together with another.
fn half<'a>(alloc: Global, name: &'a str, other: &'a str) -> Result<Arg<'a>, AllocError>
    ensures { IfOk result (λ arg. rule_of arg ≡ bound (option_rule name.entry.now)) }
{
    option(alloc, name, "F").requires_arg(other)
}

/// Adds the options that name Unicode's files. The two by which letters are joined are given together, or not at all.
pub fn with_tables<'a>(command: Command<'a>, alloc: Global) -> Result<Command<'a>, AllocError>
    ensures { IfOk result (λ more. app_of more ≡ with_rules (app_of command.entry) table_rules) }
{
    command
        .arg(table(alloc, "classes"))?
        .arg(table(alloc, "brackets"))?
        .arg(table(alloc, "mirroring"))?
        .arg(half(alloc, "joining", "characters")?)?
        .arg(half(alloc, "characters", "joining")?)
}

/// The paths of the two files by which letters are joined; None if one of them is missing.
fn joining_paths_of<'a>(matches: &ArgMatches<'a>) -> Option<JoiningFiles<&'a str>>
    ensures { GivesJoining (rows_in matches.now) result }
{
    Some(JoiningFiles {
        joining: value_of(matches, "joining")?,
        characters: value_of(matches, "characters")?,
    })
}

/// The paths of Unicode's files, from their options; None if a required one is missing.
pub fn paths_of<'a>(matches: &ArgMatches<'a>) -> Option<UnicodeFiles<&'a str>>
    ensures { GivesPaths (rows_in matches.now) result }
{
    Some(UnicodeFiles {
        classes: value_of(matches, "classes")?,
        brackets: value_of(matches, "brackets")?,
        mirroring: value_of(matches, "mirroring")?,
        joining: joining_paths_of(matches),
    })
}

/// The two files by which letters are joined, as `Tables::read` takes them.
fn lent(files: &Option<JoiningFiles<Vec<u8>>>) -> Option<bx_ucd::JoiningFiles<'_>>
    ensures { texts_of result ≡ joining_texts files.now }
{
    let files = files.as_ref()?;
    Some(bx_ucd::JoiningFiles {
        joining: files.joining.as_slice(),
        characters: files.characters.as_slice(),
    })
}

/// Reads the two files by which letters are joined.
fn read_joining<'a, F: InputFiles>(
    files: &F,
    alloc: Global,
    paths: &JoiningFiles<&'a str>,
) -> Result<JoiningFiles<Vec<u8>>, FileFault<'a>>
    ensures read { IfOk result (AreJoiningRead (F.answers files.now) paths.now) }
    ensures refused { IfErr result (IsFirstUnread (F.answers files.now) (joining_paths_in paths.now)) }
{
    let joining = bytes_of(files, alloc, paths.joining)?;
    let characters = bytes_of(files, alloc, paths.characters)?;
    Ok(JoiningFiles {
        joining,
        characters,
    })
}

/// Reads the two files by which letters are joined, if there are any.
fn read_joining_if_any<'a, F: InputFiles>(
    files: &F,
    alloc: Global,
    paths: &Option<JoiningFiles<&'a str>>,
) -> Result<Option<JoiningFiles<Vec<u8>>>, FileFault<'a>>
    ensures read { IfOk result (AreReadIfAny (F.answers files.now) paths.now) }
    ensures refused { IfErr result (IsFirstUnread (F.answers files.now) (paths_if_any paths.now)) }
{
    match paths {
        Some(paths) => Ok(Some(read_joining(files, alloc, paths)?)),
        None => Ok(None),
    }
}

impl UnicodeFiles<Vec<u8>> {
    /// Reads the files at these paths, in the order of the fields.
    ///
    /// Errors: the fault of the first file that cannot be read.
    pub fn read<'a, F: InputFiles>(
        files: &F,
        alloc: Global,
        paths: &UnicodeFiles<&'a str>,
    ) -> Result<UnicodeFiles<Vec<u8>>, FileFault<'a>>
        ensures read { IfOk result (AreRead (F.answers files.now) paths.now) }
        ensures refused { IfErr result (IsFirstUnread (F.answers files.now) (paths_in paths.now)) }
    {
        let classes = bytes_of(files, alloc, paths.classes)?;
        let brackets = bytes_of(files, alloc, paths.brackets)?;
        let mirroring = bytes_of(files, alloc, paths.mirroring)?;
        let joining = read_joining_if_any(files, alloc, &paths.joining)?;
        Ok(UnicodeFiles {
            classes,
            brackets,
            mirroring,
            joining,
        })
    }

    /// Reads the tables from the files' bytes.
    ///
    /// Errors: the first malformed line; or a failed allocation, with the file that was being read.
    pub fn tables(&self, alloc: Global) -> Result<Tables, UcdError>
        ensures accepted { IfOk result (λ t. AreOfFiles (⟦<Tables as BidiData>⟧.data t) self.now) }
        ensures refused { IfErr result (λ e. (refused_line self.now ≡ Some e) ⊎ NoMemoryInTables self.now e) }
    {
        Tables::read(
            alloc,
            self.classes.as_slice(),
            self.brackets.as_slice(),
            self.mirroring.as_slice(),
            lent(&self.joining),
        )
    }
}
