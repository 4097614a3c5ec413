//! The levels of a row's units, read character by character in text order.
//!
//! By L1 a whitespace or isolate character gets the paragraph level if only such characters follow it, up to a segment
//! separator or the row's end; a character that X9 removes does not count, the others are kept. So a unit whose first kept
//! character is such a one waits until a later character decides. `found` has the levels of the units that are read; `waiting`
//! is the index in it of the first unit that waits, its length if none does. `paragraph` is the paragraph level.
ghost use Rattle.std.specs.Prelude.{◌≡◌, ◌≤◌, ◌<◌, ◌++◌, ◌∷◌, [], Bool, IfOk, List, None, chars, drop, get_or, length, map, ℕ};
ghost use Rattle.std.specs.List.{zip};
ghost use Rattle.bx_rows.specs.RowLevels.{is_segment_separator, is_trailing};
ghost use Rattle.bx_rows.specs.LevelReads.{Reads, ReadsChar, level_before, levels_from, settled, settled_if};

use bx_common::first_char;
use bx_levels::Level;
use bx_ucd::{BidiData, Class};
use std::alloc::AllocError;

/// Whether L1 resets a character of a class anywhere in a row.
fn is_segment_separator(class: Class) -> bool
    ensures { result ≡ is_segment_separator class }
{
    matches!(class, Class::S)
}

/// Whether L1 resets a character of a class before a segment separator or a row's end.
fn is_trailing(class: Class) -> bool
    ensures { result ≡ is_trailing class }
{
    matches!(
        class,
        Class::WS | Class::FSI | Class::LRI | Class::RLI | Class::PDI
    )
}

/// Sets the waiting units, from index `waiting` on, to the paragraph level.
#[tactic(auto, using(crate::proofs::LevelSteps::settled_none))]
pub(crate) fn settle(found: &mut Vec<u8>, waiting: usize, paragraph: u8)
    ensures levels { found.new.items ≡ settled paragraph waiting found.old.items }
    ensures count { length found.new.items ≡ length found.old.items }
{
    let mut i = waiting;
    while i < found.len() {
        found[i] = paragraph;
        i += 1;
    }
}

/// Reads a character, which X9 keeps, of a class. Returns the new index of the first waiting unit.
#[inline(always)]
pub(crate) fn read_class(found: &mut Vec<u8>, waiting: usize, class: Class, paragraph: u8) -> usize
    requires { waiting ≤ length found.old.items }
    ensures within { result ≤ length found.new.items }
    ensures levels { Reads paragraph class found.old.items waiting found.new.items result }
{
    if is_segment_separator(class) {
        settle(found, waiting, paragraph);
        return found.len();
    }
    if is_trailing(class) {
        return waiting;
    }
    found.len()
}

/// Reads the first kept character of a unit, whose level is the unit's. Skips its class if no unit waits and the level is
/// the paragraph's.
#[inline(always)]
fn read_first<D: BidiData>(
    found: &mut Vec<u8>,
    waiting: usize,
    c: char,
    level: u8,
    paragraph: u8,
    tables: &D,
) -> Result<usize, AllocError>
    requires { waiting ≤ length found.old.items }
    ensures within { IfOk result (λ next. next ≤ length found.new.items) }
    ensures levels { IfOk result (λ next. Reads paragraph ((D.data tables.now).class c) (found.old.items ++ level ∷ []) waiting found.new.items next) }
{
    if waiting == found.len() && level == paragraph {
        found.push(level)?;
        return Ok(found.len());
    }
    found.push(level)?;
    Ok(read_class(found, waiting, tables.class(c), paragraph))
}

/// Reads another kept character of a unit.
#[inline(always)]
fn read_more<D: BidiData>(
    found: &mut Vec<u8>,
    waiting: usize,
    c: char,
    paragraph: u8,
    tables: &D,
) -> usize
    requires { waiting ≤ length found.old.items }
    ensures within { result ≤ length found.new.items }
    ensures levels { Reads paragraph ((D.data tables.now).class c) found.old.items waiting found.new.items result }
{
    if waiting == found.len() {
        return waiting;
    }
    read_class(found, waiting, tables.class(c), paragraph)
}

/// A character, and its level; None if X9 removes it.
#[derive(Clone, Copy)]
struct LeveledChar {
    c: char,
    level: Option<u8>,
}

/// Reads a character of a unit. `is_known`: the unit's level is found already. Returns the new index of the first waiting unit.
#[inline(always)]
fn read_char<D: BidiData>(
    found: &mut Vec<u8>,
    waiting: usize,
    is_known: bool,
    next: LeveledChar,
    paragraph: u8,
    tables: &D,
) -> Result<usize, AllocError>
    requires { waiting ≤ length found.old.items }
    ensures within { IfOk result (λ next. next ≤ length found.new.items) }
    ensures levels { IfOk result (λ stop. ReadsChar paragraph ((D.data tables.now).class next.c) is_known next.level found.old.items waiting found.new.items stop) }
{
    let Some(level) = next.level else {
        return Ok(waiting);
    };
    if is_known {
        return Ok(read_more(found, waiting, next.c, paragraph, tables));
    }
    read_first(found, waiting, next.c, level, paragraph, tables)
}

/// The level of a unit without a kept character: that of the unit before it, or the paragraph level.
#[tactic(auto, using(crate::proofs::LevelSteps::before_some, crate::proofs::LevelSteps::before_none))]
fn level_before(found: &[u8], paragraph: u8) -> u8
    ensures { result ≡ level_before paragraph found.now }
{
    if found.is_empty() {
        return paragraph;
    }
    found[found.len() - 1]
}

/// Appends a unit without a kept character. It waits if the unit before it does. Returns the new index of the first waiting
/// unit.
// Not inlined: few units have no kept character, and the loop over all stays short.
#[inline(never)]
#[tactic(auto, using(crate::proofs::LevelSteps::before_waits, crate::proofs::LevelSteps::before_settled))]
fn push_before(found: &mut Vec<u8>, waiting: usize, paragraph: u8) -> Result<usize, AllocError>
    requires { waiting ≤ length found.old.items }
    ensures within { IfOk result (λ next. next ≤ length found.new.items) }
    ensures levels { IfOk result (λ next. (b : Bool) → settled_if b paragraph next found.new.items
        ≡ settled_if b paragraph waiting found.old.items ++ level_before paragraph (settled_if b paragraph waiting found.old.items) ∷ []) }
{
    let level = level_before(found, paragraph);
    if waiting < found.len() {
        found.push(level)?;
        return Ok(waiting);
    }
    found.push(level)?;
    Ok(found.len())
}

/// The first character's level, None if X9 removes it or the list is empty, and the levels after it.
#[inline(always)]
pub(crate) fn first_level(levels: &[Level]) -> (Option<u8>, &[Level])
    ensures first { result.0 ≡ get_or levels.now 0 None }
    ensures behind { result.1.now ≡ drop 1 levels.now }
{
    if levels.is_empty() {
        return (None, levels);
    }
    (levels[0].get(), &levels[1..])
}

/// Reads a unit. `levels`: those of its characters and of the characters after it. Returns the new index of the first waiting
/// unit, and the levels after the unit's characters.
#[inline(always)]
pub(crate) fn read_unit<'a, D: BidiData>(
    found: &mut Vec<u8>,
    waiting: usize,
    text: &str,
    levels: &'a [Level],
    paragraph: u8,
    tables: &D,
) -> Result<(usize, &'a [Level]), AllocError>
    requires { waiting ≤ length found.old.items }
    ensures within { IfOk result (λ r. r.0 ≤ length found.new.items) }
    ensures levels { IfOk result (λ r. (more counts : List ℕ)
        → levels_from paragraph found.old.items waiting 0 (length (chars text.now) ∷ counts)
        (zip (map (D.data tables.now).class (chars text.now ++ more)) levels.entry.now)
        ≡ levels_from paragraph found.new.items r.0 0 counts (zip (map (D.data tables.now).class more) r.1.now)) }
{
    let mut first = waiting;
    let mut is_known = false;
    let mut rest = text;
    let mut left = levels;
    while let Some((c, behind)) = first_char(rest) {
        let (level, after) = first_level(left);
        let next = LeveledChar { c, level };
        first = read_char(found, first, is_known, next, paragraph, tables)?;
        is_known = is_known || level.is_some();
        rest = behind;
        left = after;
    }
    if is_known {
        return Ok((first, left));
    }
    let next = push_before(found, first, paragraph)?;
    Ok((next, left))
}
