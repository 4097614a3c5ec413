//! Replaces a span of levels, for an edit of the text.
ghost use Rattle.std.specs.Prelude.{◌≡◌, ◌≤◌, OnErr, OnOk, length};
ghost use Rattle.std.specs.List.{splice};

use crate::resolve::paragraph::Level;
use bx_common::Range;
use std::alloc::AllocError;

/// Reserves room for `more` levels, and grows by an eighth at least, so that consecutive edits rarely reallocate.
fn make_room(levels: &mut Vec<Level>, more: usize) -> Result<(), AllocError>
    ensures { levels.new.items ≡ levels.old.items }
{
    let count = levels.len();
    if levels.capacity() - count < more {
        levels.reserve_exact(more.max(count / 8))?;
    }
    Ok(())
}

/// Replaces the levels of a span. After an error the levels are unchanged.
pub fn replace_span(
    levels: &mut Vec<Level>,
    span: Range,
    found: Vec<Level>,
) -> Result<(), AllocError>
    requires ordered { span.start ≤ span.stop }
    requires inside { span.stop ≤ length levels.old.items }
    ensures ok { OnOk result (levels.new.items ≡ splice levels.old.items span.start span.stop found.items) }
    ensures err { OnErr result (levels.new.items ≡ levels.old.items) }
{
    make_room(levels, found.len().saturating_sub(span.stop - span.start))?;
    let _gone = levels.splice(span.start..span.stop, found)?;
    Ok(())
}
