//! The units and levels of a plain row, in which each unit is one character of one column, read in one pass. `found` and
//! `waiting` are as in `level_read.rt`.
ghost use Rattle.std.specs.Prelude.{◌≡◌, ◌≤◌, ◌<◌, ◌++◌, ◌∷◌, [], IfOk, IfSome, List, MatchOption, encode_utf8, length, take, true, false};
ghost use Rattle.std.specs.Str.{IsCharBoundary};
ghost use Rattle.bx_rows.specs.declared.cells.unit.Face.TheVariants.{Own};
ghost use Rattle.bx_rows.specs.declared.cells.unit.Unit.{Unit};
ghost use Rattle.bx_rows.specs.cells.Simple.{begins};
ghost use Rattle.bx_rows.specs.cells.SimpleFace.{simple_face};
ghost use Rattle.bx_rows.specs.cells.SimpleRanges.{Tells};
ghost use Rattle.bx_rows.specs.cells.UnitFacts.{units_from};
ghost use Rattle.bx_rows.specs.LevelReads.{Reads};
ghost use Rattle.bx_rows.specs.PlainRows.{AreSingle, IsClusterEnd};
ghost use Rattle.bx_rows.specs.Lines.{levels_of};
ghost use Rattle.bx_rows.specs.RowLevels.{chars_before};

use crate::cells::simple::{Simple, common_kind, simple_kind};
use crate::cells::simple_face;
use crate::drawn::Drawn;
use crate::glyphs::is_own;
use crate::level_read::{first_level, read_class, settle};
use crate::lines::Lines;
use crate::start_search::RowStart;
use bx_common::first_char;
use bx_ucd::{BidiData, Class};
use std::alloc::{AllocError, Global};
use std::borrow::CowStr;

/// The number of units to allocate room for at first: most rows have fewer. The last row's `count` is the body's length, which
/// may be far more than its units.
const FIRST_ROOM: usize = 256;

/// Whether a character of a kind is a unit of one column with its own text, provided that a unit begins after it.
#[inline(always)]
fn is_single<D: BidiData>(c: char, kind: Simple, tables: &D, w: u16) -> bool
    requires { Tells c kind }
    ensures begin { result ≡ true → begins c ≡ true }
    ensures face { result ≡ true → simple_face (D.data tables.now) w c false ≡ Own 1 }
{
    let Simple::Begins(columns) = kind else {
        return false;
    };
    is_own(simple_face(c, columns, false, tables, w), 1)
}

/// Whether a common character (`common_kind`: printable ASCII, Hebrew and most Arabic letters) is a unit of one column with
/// its own text, like `is_single`; false for all others.
#[inline(always)]
pub(crate) fn is_plain<D: BidiData>(c: char, tables: &D, w: u16) -> bool
    ensures begin { result ≡ true → begins c ≡ true }
    ensures face { result ≡ true → simple_face (D.data tables.now) w c false ≡ Own 1 }
{
    is_single(c, common_kind(c), tables, w)
}

/// Whether a simple character, one whose kind `simple_kind` knows, is a unit of one column with its own text, like
/// `is_single`; false for all others.
pub(crate) fn is_narrow<D: BidiData>(c: char, tables: &D, w: u16) -> bool
    ensures begin { result ≡ true → begins c ≡ true }
    ensures face { result ≡ true → simple_face (D.data tables.now) w c false ≡ Own 1 }
{
    is_single(c, simple_kind(c), tables, w)
}

/// The class of a character that `is_plain` takes; None for any other.
#[inline(always)]
fn plain_class<D: BidiData>(c: char, tables: &D, w: u16) -> Option<Class>
    ensures begin { IfSome result (λ k. begins c ≡ true) }
    ensures face { IfSome result (λ k. simple_face (D.data tables.now) w c false ≡ Own 1) }
    ensures class { IfSome result (λ k. k ≡ (D.data tables.now).class c) }
{
    if !is_plain(c, tables, w) {
        return None;
    }
    Some(tables.class(c))
}

/// Reads the only character of a unit, which X9 keeps. Returns the new index of the first waiting unit.
#[inline(always)]
fn read_only(
    found: &mut Vec<u8>,
    waiting: usize,
    class: Class,
    level: u8,
    paragraph: u8,
) -> Result<usize, AllocError>
    requires { waiting ≤ length found.old.items }
    ensures within { IfOk result (λ next. next ≤ length found.new.items) }
    ensures levels { IfOk result (λ next. Reads paragraph class (found.old.items ++ level ∷ []) waiting found.new.items next) }
{
    found.push(level)?;
    Ok(read_class(found, waiting, class, paragraph))
}

/// Whether a cluster ends before a text: the text is empty, or its first character begins a cluster.
fn is_cluster_end(text: &str) -> bool
    ensures { result ≡ true → IsClusterEnd text.now }
{
    let Some((c, _)) = first_char(text) else {
        return true;
    };
    matches!(simple_kind(c), Simple::Begins(_))
}

/// The first character of a text, its bytes, and the text after it; None if the text is empty.
#[inline(always)]
fn first_part(text: &str) -> Option<(char, &str, &str)>
    ensures { MatchOption result (length text.now ≡ 0) (λ r.
        (text.now ≡ encode_utf8 r.0 ++ r.2.now) × (r.1.now ≡ encode_utf8 r.0) × (length r.2.now < length text.now)) }
{
    let (c, behind) = first_char(text)?;
    Some((c, &text[..text.len() - behind.len()], behind))
}

impl<'a, 't, D: BidiData> Lines<'a, 't, D> {
    /// The glyphs, not mirrored yet, and the levels by L1 of the first `count` units from a row's start on, or of all if there
    /// are fewer; None if a unit is not a single character of one column, or X9 removes its character.
    pub(crate) fn plain_row(
        &self,
        alloc: Global,
        start: RowStart,
        count: usize,
    ) -> Result<Option<(Vec<Drawn<'a>>, Vec<u8>)>, AllocError>
        requires { IsCharBoundary self.now.body.now start.offset }
        ensures units { IfOk result (λ o. IfSome o (λ r. AreSingle (D.data self.now.tables.now) self.now.w self.now.body.now start.offset count r.0.items)) }
        ensures count { IfOk result (λ o. IfSome o (λ r. length r.1.items ≡ length r.0.items)) }
        ensures levels { IfOk result (λ o. IfSome o (λ r. (us : List Unit)
            → us ≡ take count (units_from (D.data self.now.tables.now) self.now.w self.now.body.now start.offset)
            → (0 < length us → start.chars ≡ chars_before self.now.body.now us)
            → r.1.items ≡ levels_of self.now us)) }
    {
        let levels = self.levels;
        let each = levels.each.as_slice();
        let mut glyphs = Vec::with_capacity(alloc, count.min(FIRST_ROOM))?;
        let mut found = Vec::with_capacity(alloc, count.min(FIRST_ROOM))?;
        let mut rest = &self.body[start.offset..];
        let mut left = &each[start.chars.min(each.len())..];
        let mut waiting = 0;
        while glyphs.len() < count && !rest.is_empty() {
            let Some((c, text, behind)) = first_part(rest) else {
                return Ok(None);
            };
            let Some(class) = plain_class(c, self.tables, self.w) else {
                return Ok(None);
            };
            let (level, after) = first_level(left);
            let Some(level) = level else {
                return Ok(None);
            };
            glyphs.push(Drawn {
                text: CowStr::Borrowed(text),
                columns: 1,
                negative: false,
            })?;
            waiting = read_only(&mut found, waiting, class, level, levels.paragraph)?;
            rest = behind;
            left = after;
        }
        if !is_cluster_end(rest) {
            return Ok(None);
        }
        settle(&mut found, waiting, levels.paragraph);
        Ok(Some((glyphs, found)))
    }
}
