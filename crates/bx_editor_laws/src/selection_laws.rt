//! Laws of selections. The functions are empty: their contracts are the laws.

ghost use Rattle.bx_editor_laws.specs.SelectionLaws.{CancelUnmarks, MoveTakesSelectionOff, SeekingTakesSelectionOff, SelectionComesBack};
ghost use Rattle.bx_editor_laws.specs.SelectionLaws.{SelectionGivesWay, SelectionIsRemoved};

/// Outside a paste and the question whether to overwrite, a move that no input line takes, and that is no further press at one cell, takes
/// an old selection off, one after whose Select another key came, and leaves any other mark; right after Select it leaves the mark that is
/// then set.
pub fn move_takes_selection_off()
    ensures { MoveTakesSelectionOff }
{}

/// Outside a search, a paste and the question whether to overwrite, a key that begins a search or goes to another match takes an old
/// selection off, and leaves any other mark, as a move does.
pub fn seeking_takes_selection_off()
    ensures { SeekingTakesSelectionOff }
{}

/// Outside a search and a paste, Cancel removes the mark, a selection's too; in a question it ends that instead. It takes the
/// message away and forgets an earlier Quit, a kept column, what was pressed and the undo group, and changes nothing else.
pub fn cancel_unmarks()
    ensures { CancelUnmarks }
{}

/// Outside a search, a question and a paste, a key that removes text removes the selection, and no more.
pub fn selection_is_removed()
    ensures { SelectionIsRemoved }
{}

/// Outside a search, a question and a paste, what is typed or put in takes the selection's place, if the new text is within the
/// limit; else text, place and mark stay.
pub fn selection_gives_way()
    ensures { SelectionGivesWay }
{}

/// Outside a search, a question and a paste, one Undo takes back what a key did in place of a selection.
pub fn selection_comes_back()
    ensures { SelectionComesBack }
{}
