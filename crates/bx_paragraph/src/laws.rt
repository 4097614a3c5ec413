//! A law of the rows of two bodies with a common start. The function is empty: its contract is the law.

ghost use Rattle.bx_paragraph.specs.Laws.{RowsBeforeStay};

/// A row depends on at most one unit ahead per column of the window, so rows further before a change stay.
pub fn rows_before_stay()
    ensures { RowsBeforeStay }
{}
