//! The levels of a paragraph body: `levels` takes the shortest way that its classes allow.
ghost use Rattle.std.specs.Prelude.{◌≡◌, ◌≤◌, ◌<◌, ◌^◌, All, IfNone, IfOk, IfSome, Some, chars, is_some, length, map, true};
ghost use Rattle.bx_levels.specs.embedding.Stack.{max_depth};
ghost use Rattle.bx_levels.specs.resolve.Weak.{weak};
ghost use Rattle.bx_levels.specs.resolve.Neutral.{implicit_at};
ghost use Rattle.bx_levels.specs.resolve.Levels.{levels_under, paragraph_level_under, paragraph_levels};
ghost use Rattle.bx_levels.specs.resolve.Kept.{is_kept, max_level};
ghost use Rattle.bx_levels.specs.resolve.ClassLevels.{AreLevelsOf};
ghost use Rattle.bx_levels.specs.resolve.Uniform.{is_unformatted, all_pass};

use crate::embedding::base_level;
use crate::resolve::body::classes_of;
use crate::resolve::brackets::resolve_brackets_of;
use crate::resolve::by_rules::levels_by_rules;
use crate::resolve::formatted::formatted_levels;
use crate::resolve::neutral::found_level;
use crate::resolve::one_pass::weak_in_one_pass;
use crate::resolve::paragraph::{Level, Levels};
use crate::resolve::scratch::{Ends, Scratch, resolve_neutral};
use crate::resolve::uniform::{are_from_right, are_plain, are_plain_right, are_unformatted};
use bx_common::{Base, OutOfMemory};
use bx_ucd::class::direction;
use bx_ucd::{BidiData, Class};
use std::alloc::{AllocError, Global};

/// Writes the levels of the resolved types of a sequence at `level`.
#[tactic(auto, using(crate::proofs::resolve_lemmas::Mapped::mapped_more, crate::proofs::resolve_lemmas::Mapped::mapped_all))]
fn write_found(each: &mut [Level], types: &[Class], level: u8)
    requires level { level ≤ max_depth }
    requires count { length each.old ≡ length types.now }
    ensures { each.new ≡ map (λ t. Some (implicit_at level t)) types.now }
{
    for i in 0..types.len() {
        each[i] = found_level(level, types[i]);
    }
}

/// The levels of the resolved types of a sequence at `level`.
fn found_levels(alloc: Global, types: &[Class], level: u8) -> Result<Vec<Level>, AllocError>
    requires { level ≤ max_depth }
    ensures { IfOk result (λ v. v.items ≡ map (λ t. Some (implicit_at level t)) types.now) }
{
    let mut each = vec![in alloc; Level::of(level); types.len()]?;
    write_found(each.as_mut_slice(), types, level);
    Ok(each)
}

/// The levels of a right-to-left text without L. It needs only W1 to W7 and I2: since numbers count as R, N0 to N2 make
/// every neutral R.
fn levels_from_right(alloc: Global, classes: &mut [Class]) -> Result<Vec<Level>, AllocError>
    ensures { IfOk result (λ v. v.items ≡ map (λ t. Some (implicit_at 1 t)) (weak Class.R classes.old)) }
{
    weak_in_one_pass(classes, Class::R);
    found_levels(alloc, classes, 1)
}

/// The levels of a paragraph body without formatting characters, which is one sequence.
#[tactic(auto, using(crate::proofs::resolve_lemmas::PlainLengths::weak_length))]
fn unformatted_levels<D: BidiData>(
    alloc: Global,
    body: &str,
    tables: &D,
    classes: &mut [Class],
    paragraph: u8,
) -> Result<Levels, OutOfMemory>
    requires classes { classes.old ≡ map (D.data tables.now).class (chars body.now) }
    requires low { paragraph ≤ 1 }
    requires small { length body.now < 2 ^ 32 }
    requires unformatted { all_pass is_unformatted classes.old ≡ true }
    ensures paragraph { IfOk result (λ v. v.paragraph ≡ paragraph) }
    ensures each { IfOk result (λ v. v.each.items ≡ paragraph_levels (D.data tables.now) paragraph (chars body.now)) }
{
    let side = direction(paragraph);
    let ends = Ends {
        level: paragraph,
        sos: side,
        eos: side,
    };
    let mut scratch = Scratch::new(alloc);
    scratch.resolve_weak(classes, side)?;
    resolve_brackets_of(&mut scratch, body, tables, classes, ends)?;
    resolve_neutral(classes, ends);
    let each = found_levels(alloc, classes, paragraph)?;
    Ok(Levels { paragraph, each })
}

/// The levels of a text that needs few rules: one of a single plain direction runs none, a right-to-left one without L only
/// W1 to W7 and I2. `None` for any other text.
#[tactic(auto, using(crate::proofs::resolve_lemmas::ShortLevels::plain_short, crate::proofs::resolve_lemmas::ShortLevels::plain_right_short, crate::proofs::resolve_lemmas::ShortLevels::from_right_short))]
fn short_levels(
    alloc: Global,
    classes: &mut [Class],
    paragraph: u8,
) -> Result<Option<Vec<Level>>, AllocError>
    ensures found { IfOk result (λ r. IfSome r (λ v. AreLevelsOf paragraph classes.old v.items)) }
    ensures same { IfOk result (λ r. IfNone r (classes.new ≡ classes.old)) }
{
    if paragraph == 0 && are_plain(classes) {
        return Ok(Some(vec![in alloc; Level::of(0); classes.len()]?));
    }
    if paragraph == 1 && are_plain_right(classes) {
        return Ok(Some(vec![in alloc; Level::of(1); classes.len()]?));
    }
    if paragraph == 1 && are_from_right(classes) {
        return Ok(Some(levels_from_right(alloc, classes)?));
    }
    Ok(None)
}

/// The levels of a paragraph body under a base direction. A text without formatting characters runs no explicit rule. A body
/// of 4 GiB or more takes `levels_by_rules`.
#[tactic(auto, using(crate::proofs::resolve_lemmas::ShortLevels::short_by))]
fn resolved_levels<D: BidiData>(
    alloc: Global,
    body: &str,
    tables: &D,
    base: Base,
) -> Result<Levels, OutOfMemory>
    ensures paragraph { IfOk result (λ v. v.paragraph ≡ paragraph_level_under (D.data tables.now) base (chars body.now)) }
    ensures each { IfOk result (λ v. v.each.items ≡ levels_under (D.data tables.now) base (chars body.now)) }
{
    if body.len() > u32::MAX as usize {
        return levels_by_rules(alloc, body, tables, base);
    }
    let mut classes = classes_of(alloc, body, tables)?;
    let paragraph = base_level(&classes, base);
    if let Some(each) = short_levels(alloc, &mut classes, paragraph)? {
        return Ok(Levels { paragraph, each });
    }
    if are_unformatted(&classes) {
        return unformatted_levels(alloc, body, tables, &mut classes, paragraph);
    }
    formatted_levels(alloc, body, tables, classes, paragraph)
}

/// The levels of a paragraph body under a base direction (UAX #9, 3.3).
pub fn levels<D: BidiData>(
    alloc: Global,
    body: &str,
    tables: &D,
    base: Base,
) -> Result<Levels, OutOfMemory>
    ensures paragraph { IfOk result (λ v. v.paragraph ≡ paragraph_level_under (D.data tables.now) base (chars body.now)) }
    ensures each { IfOk result (λ v. v.each.items ≡ levels_under (D.data tables.now) base (chars body.now)) }
    ensures kept { IfOk result (λ v. map is_some v.each.items ≡ map is_kept (map (D.data tables.now).class (chars body.now))) }
    ensures low { IfOk result (λ v. All (λ l. IfSome l (λ n. n ≤ max_level)) v.each.items) }
{
    // The proof compares the levels, so they have a name.
    let levels = resolved_levels(alloc, body, tables, base)?;
    Ok(levels)
}
