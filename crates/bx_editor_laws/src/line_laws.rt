//! Laws of lines. The functions are empty: their contracts are the laws.

ghost use Rattle.bx_editor_laws.specs.LineLaws.{CopiedLineGoesAbove, LineGoesAbove, NewLinePutsSeparator, ShiftDownTakesLines};

/// Outside a search, a question and a paste, without a selection, NewLine puts in CR LF at the cursor if that is the text's first
/// separator, else LF; without room the text stays.
pub fn new_line_puts_separator()
    ensures { NewLinePutsSeparator }
{}

/// From a row's start, Shift with Down selects whole rows. Where lines are not wrapped, it selects whole lines from a line's start, and
/// Copy then takes them with their separators. So it is outside a search, a question and a paste, with no mark and no column kept.
pub fn shift_down_takes_lines()
    ensures { ShiftDownTakesLines }
{}

/// A whole line that is held goes above the line of the cursor, with the text's line end if it has none, and the cursor stays at the same
/// character. Without room the text stays. So it is outside a search, a question and a paste, without a selection.
pub fn line_goes_above()
    ensures { LineGoesAbove }
{}

/// Copying the cursor's line and putting it leaves the text with that line twice, one under the other, if there is room, and the cursor
/// at the same character of the lower one. So it is outside a search, a question and a paste, where there is no region and LF ends a
/// line.
pub fn copied_line_goes_above()
    ensures { CopiedLineGoesAbove }
{}
