//! Laws of the editor: the top, undo and redo, the region, the text's ends, and a search. The functions are empty: their
//! contracts are the laws.

ghost use Rattle.bx_editor_laws.specs.Laws.{CopyPutsTwice, GoesToBothEnds, MarkTwiceIsNothing, PutRestoresCut, RedoMirrorsUndo, TopStays, UndoGivesBack};
ghost use Rattle.bx_editor_laws.specs.Laws.{FindBackGoesToPrevious, FindGoesToNext, GivingUpGoesBack};

/// Scrolling to the cursor a second time leaves the top where it is.
pub fn top_stays()
    ensures { TopStays }
{}

/// Undoing everything restores the opened text, whatever was typed, with the cursor where it was before the oldest edit; but outside a
/// paste and the question whether to overwrite, which the first UndoEdit only ends.
pub fn undo_gives_back()
    ensures { UndoGivesBack }
{}

/// Outside a paste and the question whether to overwrite, UndoEdit then RedoEdit leaves text, past and future unchanged, and the cursor at its place after the edit. RedoEdit then UndoEdit
/// leaves them unchanged, and the cursor at its place before the edit.
pub fn redo_mirrors_undo()
    ensures { RedoMirrorsUndo }
{}

/// Outside a search, a question and a paste, copying a region and putting it at once leaves the text with the region twice, if there
/// is room, and the cursor at the end of what was put.
pub fn copy_puts_twice()
    ensures { CopyPutsTwice }
{}

/// If a cut outside a paste leaves the cursor where the cut text began, then cutting and putting back at once leaves the text as it
/// was, and the cursor at the end of the cut text.
pub fn put_restores_cut()
    ensures { PutRestoresCut }
{}

/// Find in a search goes to the query's next match; if there is none, to the first match of the text.
pub fn find_goes_to_next()
    ensures { FindGoesToNext }
{}

/// FindBack in a search goes to the query's previous match; if there is none, to the last match of the text.
pub fn find_back_goes_to_previous()
    ensures { FindBackGoesToPrevious }
{}

/// Giving up a search that began outside a paste puts place and mark back as they were then, whatever was typed in it; an old
/// selection is taken off.
pub fn giving_up_goes_back()
    ensures { GivingUpGoesBack }
{}

/// Outside a paste, an input line and the question whether to overwrite, Mark twice at one place changes only the message and what one
/// Mark ends, as a search; but a mark that was elsewhere is gone.
pub fn mark_twice_is_nothing()
    ensures { MarkTwiceIsNothing }
{}

/// Outside a paste, TextEnd then TextStart leads to the text's start, TextStart then TextEnd to its end; else they change only what
/// any move ends, as a search or a selection.
pub fn goes_to_both_ends()
    ensures { GoesToBothEnds }
{}
