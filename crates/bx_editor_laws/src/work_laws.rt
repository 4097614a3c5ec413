//! Laws of ErasePoint, FindNext, and the moves that keep their column. The functions are empty: their contracts are the laws.

ghost use Rattle.bx_editor_laws.specs.WorkLaws.{ColumnIsKept, ErasePointLeavesBeginning, FindNextIsFindTwice, FindPreviousIsFindBack, KeptMovesGoBack};
ghost use Rattle.bx_editor_laws.specs.WorkLaws.{LineMovesGoBack, PageMovesGoBack};

/// Outside a search, a question and a paste, without a selection, ErasePoint removes the end of the unit before the place, from the start
/// of its last point on, and leaves all text before and after that; of the spaces that stand for a tab it removes more.
pub fn erase_point_leaves_beginning()
    ensures { ErasePointLeavesBeginning }
{}

/// Outside a search, and where the question is not whether to overwrite, FindNext leads to the place and the message to which Find twice
/// leads, if the query has letters. After it no search is on, and the cursor of an input line stays.
pub fn find_next_is_find_twice()
    ensures { FindNextIsFindTwice }
{}

/// FindPrevious leads so to where Find and then FindBack lead.
pub fn find_previous_is_find_back()
    ensures { FindPreviousIsFindBack }
{}

/// Outside a search, a question and a paste, with no column kept: LineDown `n` times and then LineUp `n` times lead back to the place, if there are `n` rows below; LineUp and then
/// LineDown likewise, if there are `n` above. From the end of a paragraph that fills its last row they lead to the unit at the
/// window's edge, whose column the cursor has.
pub fn line_moves_go_back()
    ensures { LineMovesGoBack }
{}

/// PageOn `n` times and then PageBack `n` times lead back as LineDown and LineUp do, if there are `n` pages of rows below; PageBack and
/// then PageOn likewise, if there are `n` pages above.
pub fn page_moves_go_back()
    ensures { PageMovesGoBack }
{}

/// Outside a search, a question and a paste, where a column or an edge of the rows is kept and the cursor is where its row is entered by it, as after a move that keeps it:
/// LineDown and LineUp, or PageOn and PageBack, `n` times each, lead back to the place, if there are as many rows.
pub fn kept_moves_go_back()
    ensures { KeptMovesGoBack }
{}

/// Outside a search, a question and a paste, with no column kept: LineUp, LineDown, PageBack and PageOn keep the column that the cursor has before the first of them, or the start of
/// the rows if it is at its row's start, however many follow one another, also where they meet the first or the last row.
pub fn column_is_kept()
    ensures { ColumnIsKept }
{}
