//! Reads the lines of DerivedBidiClass.txt, the file of classes.

ghost use Rattle.std.specs.Prelude.{◌≡◌, ◌||◌, bytes_eq};
ghost use Rattle.std.specs.Option.{option_copied};
ghost use Rattle.bx_ucd.specs.Lines.{fields};
ghost use Rattle.bx_ucd.specs.ClassFile.{class_among, strong_names, weak_names, neutral_names, formatting_names, class_named, class_range, after_prefix};
ghost use Rattle.bx_ucd.specs.ClassFile.{missing, default_of, class_line};

use crate::class::Class;
use crate::codes::{CodeRange, range_of};
use crate::error::Cause;
use crate::file::Entry;
use crate::lines::{before_comment, is_all_blank, trimmed, without_leading_blanks};
use crate::parts::{Parts, cut};

/// A range of codes and their class.
#[derive(Clone, Copy)]
pub struct ClassRange {
    pub range: CodeRange,
    pub class: Class,
}

/// A data line (`Given`), or an `@missing` line: the default for codes that no data line covers.
#[derive(Clone, Copy)]
pub enum ClassEntry {
    Given(ClassRange),
    Default(ClassRange),
}

/// Whether a name is the short or the long name of a class.
fn is_either(name: &[u8], short: &[u8], long: &[u8]) -> bool
    ensures { result ≡ (bytes_eq name.now short.now || bytes_eq name.now long.now) }
{
    name == short || name == long
}

/// The strong class with this name.
fn strong_named(name: &[u8]) -> Option<Class>
    ensures { result ≡ class_among strong_names name.now }
{
    if is_either(name, b"L", b"Left_To_Right") {
        Some(Class::L)
    } else if is_either(name, b"R", b"Right_To_Left") {
        Some(Class::R)
    } else if is_either(name, b"AL", b"Arabic_Letter") {
        Some(Class::AL)
    } else {
        None
    }
}

/// The weak class with this name.
fn weak_named(name: &[u8]) -> Option<Class>
    ensures { result ≡ class_among weak_names name.now }
{
    if is_either(name, b"EN", b"European_Number") {
        Some(Class::EN)
    } else if is_either(name, b"ES", b"European_Separator") {
        Some(Class::ES)
    } else if is_either(name, b"ET", b"European_Terminator") {
        Some(Class::ET)
    } else if is_either(name, b"AN", b"Arabic_Number") {
        Some(Class::AN)
    } else if is_either(name, b"CS", b"Common_Separator") {
        Some(Class::CS)
    } else if is_either(name, b"NSM", b"Nonspacing_Mark") {
        Some(Class::NSM)
    } else if is_either(name, b"BN", b"Boundary_Neutral") {
        Some(Class::BN)
    } else {
        None
    }
}

/// The neutral class with this name.
fn neutral_named(name: &[u8]) -> Option<Class>
    ensures { result ≡ class_among neutral_names name.now }
{
    if is_either(name, b"B", b"Paragraph_Separator") {
        Some(Class::B)
    } else if is_either(name, b"S", b"Segment_Separator") {
        Some(Class::S)
    } else if is_either(name, b"WS", b"White_Space") {
        Some(Class::WS)
    } else if is_either(name, b"ON", b"Other_Neutral") {
        Some(Class::ON)
    } else {
        None
    }
}

/// The explicit formatting class with this name.
fn formatting_named(name: &[u8]) -> Option<Class>
    ensures { result ≡ class_among formatting_names name.now }
{
    if is_either(name, b"LRE", b"Left_To_Right_Embedding") {
        Some(Class::LRE)
    } else if is_either(name, b"LRO", b"Left_To_Right_Override") {
        Some(Class::LRO)
    } else if is_either(name, b"RLE", b"Right_To_Left_Embedding") {
        Some(Class::RLE)
    } else if is_either(name, b"RLO", b"Right_To_Left_Override") {
        Some(Class::RLO)
    } else if is_either(name, b"PDF", b"Pop_Directional_Format") {
        Some(Class::PDF)
    } else if is_either(name, b"LRI", b"Left_To_Right_Isolate") {
        Some(Class::LRI)
    } else if is_either(name, b"RLI", b"Right_To_Left_Isolate") {
        Some(Class::RLI)
    } else if is_either(name, b"FSI", b"First_Strong_Isolate") {
        Some(Class::FSI)
    } else if is_either(name, b"PDI", b"Pop_Directional_Isolate") {
        Some(Class::PDI)
    } else {
        None
    }
}

/// The class with exactly this short or long name.
fn class_named(name: &[u8]) -> Option<Class>
    ensures { result ≡ class_named name.now }
{
    strong_named(name)
        .or(weak_named(name))
        .or(neutral_named(name))
        .or(formatting_named(name))
}

/// Reads two fields: a range and the name of a class.
fn class_range(text: &[u8]) -> Result<ClassRange, Cause>
    ensures { result ≡ class_range (fields text.now) }
{
    match cut(text, b';') {
        Parts::Two(range, name) => {
            let range = range_of(trimmed(range))?;
            let class = class_named(trimmed(name)).ok_or(Cause::UnknownValue)?;
            Ok(ClassRange { range, class })
        }
        _ => Err(Cause::BadLine),
    }
}

/// The bytes after `prefix`, if they begin with it.
fn after_prefix<'a>(prefix: &[u8], bytes: &'a [u8]) -> Option<&'a [u8]>
    ensures { option_copied result ≡ after_prefix prefix.now bytes.now }
{
    if bytes.starts_with(prefix) {
        Some(&bytes[prefix.len()..])
    } else {
        None
    }
}

/// The rest of a line that begins with `# @missing:`, up to the line's end.
fn missing(line: &[u8]) -> Option<&[u8]>
    ensures { option_copied result ≡ missing line.now }
{
    let comment = after_prefix(b"#", without_leading_blanks(line))?;
    after_prefix(b"@missing:", without_leading_blanks(comment))
}

/// The default that a comment gives. A malformed `@missing` line gives none, like any other comment.
fn default_of(line: &[u8]) -> Option<ClassEntry>
    ensures { result ≡ default_of line.now }
{
    let range = class_range(missing(line)?).ok()?;
    Some(ClassEntry::Default(range))
}

impl Entry for ClassEntry {
    ghost line_of = { class_line };

    fn read(line: &[u8]) -> Result<Option<ClassEntry>, Cause> {
        let text = before_comment(line);
        if is_all_blank(text) {
            return Ok(default_of(line));
        }
        let range = class_range(text)?;
        Ok(Some(ClassEntry::Given(range)))
    }
}
