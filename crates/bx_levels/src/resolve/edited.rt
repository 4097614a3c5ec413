//! Updates levels after an edit of the text: the strong characters around the edit cut it off, so only the text between them
//! is resolved again.
ghost use Rattle.std.specs.Prelude.{◌≡◌, ◌≤◌, ◌++◌, IfOk, OnErr, OnOk, chars, length, take};
ghost use Rattle.std.specs.List.{splice};
ghost use Rattle.bx_levels.specs.resolve.Levels.{paragraph_levels};
ghost use Rattle.bx_levels.specs.resolve.Edited.{FollowsBetween, FollowsToEnd};

use crate::resolve::paragraph::{Level, Levels};
use crate::resolve::resolve::levels;
use crate::resolve::splice::replace_span;
use bx_common::{Base, OutOfMemory, Range};
use bx_ucd::BidiData;
use std::alloc::Global;

/// The levels of a piece of text resolved alone, under a paragraph level, 0 or 1.
fn piece_levels<D: BidiData>(
    alloc: Global,
    piece: &str,
    tables: &D,
    paragraph: u8,
) -> Result<Vec<Level>, OutOfMemory>
    requires { paragraph ≤ 1 }
    ensures { IfOk result (λ v. v.items ≡ paragraph_levels (D.data tables.now) paragraph (chars piece.now)) }
{
    if paragraph == 0 {
        let levels = levels(alloc, piece, tables, Base::Ltr)?;
        return Ok(levels.each);
    }
    let levels = levels(alloc, piece, tables, Base::Rtl)?;
    Ok(levels.each)
}

/// Updates the levels of a text after an edit between two strong characters (L, R or AL). `piece` is the new text from the
/// first of them through the second, and `span` has the indexes of their characters in the old text, from the first through the second.
///
/// Errors: `OutOfMemory`; the levels are unchanged.
pub fn follow_between<D: BidiData>(
    levels: &mut Levels,
    tables: &D,
    piece: &str,
    span: Range,
) -> Result<(), OutOfMemory>
    requires low { levels.old.paragraph ≤ 1 }
    requires ordered { span.start ≤ span.stop }
    requires inside { span.stop ≤ length levels.old.each.items }
    ensures paragraph { levels.new.paragraph ≡ levels.old.paragraph }
    ensures each { OnOk result (levels.new.each.items ≡ splice levels.old.each.items span.start span.stop
        (paragraph_levels (D.data tables.now) levels.old.paragraph (chars piece.now))) }
    ensures law { OnOk result (FollowsBetween (D.data tables.now) (chars piece.now) span.start span.stop
        levels.old levels.new) }
    ensures err { OnErr result (levels.new.each.items ≡ levels.old.each.items) }
{
    let alloc = *levels.each.allocator();
    let found = piece_levels(alloc, piece, tables, levels.paragraph)?;
    replace_span(&mut levels.each, span, found)?;
    Ok(())
}

/// Updates the levels of a text after an edit with no strong character after it. `piece` is the new text from a strong
/// character before the edit, at index `first`, to its end.
///
/// Errors: `OutOfMemory`; the levels are unchanged.
#[tactic(auto, using(crate::proofs::resolve_lemmas::Spliced::splice_to_end))]
pub fn follow_to_end<D: BidiData>(
    levels: &mut Levels,
    tables: &D,
    piece: &str,
    first: usize,
) -> Result<(), OutOfMemory>
    requires low { levels.old.paragraph ≤ 1 }
    requires inside { first ≤ length levels.old.each.items }
    ensures paragraph { levels.new.paragraph ≡ levels.old.paragraph }
    ensures each { OnOk result (levels.new.each.items ≡ take first levels.old.each.items
        ++ paragraph_levels (D.data tables.now) levels.old.paragraph (chars piece.now)) }
    ensures law { OnOk result (FollowsToEnd (D.data tables.now) (chars piece.now) first levels.old levels.new) }
    ensures err { OnErr result (levels.new.each.items ≡ levels.old.each.items) }
{
    let stop = levels.each.len();
    let span = Range { start: first, stop };
    follow_between(levels, tables, piece, span)?;
    Ok(())
}
