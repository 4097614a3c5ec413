//! Laws of undo groups, and of the text that was stored. The functions are empty: their contracts are the laws.

ghost use Rattle.bx_editor_laws.specs.RunLaws.{RedoRunMirrorsUndoRun, RunKeysAreSteps, UnchangedIsStored, WordIsARun};
ghost use Rattle.bx_editor_laws.specs.StoredLaws.{StoredIsUnchanged};

/// Outside a paste, Undo does what UndoEdit does once for each edit since an undo group began, and Redo what RedoEdit does once for
/// each edit up to the next undo group. They differ in one thing: after Undo or Redo the text that was stored or opened last
/// counts as unchanged, and no other does.
pub fn run_keys_are_steps()
    ensures { RunKeysAreSteps }
{}

/// After anything that was typed over an opened text, outside a paste: Undo then Redo leaves text, past and future unchanged,
/// if an undo group ends at the text. Redo then Undo leaves them unchanged, if an undo group begins there.
pub fn redo_run_mirrors_undo_run()
    ensures { RedoRunMirrorsUndoRun }
{}

/// Outside a search, a question and a paste, one Undo takes back a typed word and the blanks typed after it.
pub fn word_is_a_run()
    ensures { WordIsARun }
{}

/// Whatever was typed over an opened text, it counts as unchanged only if it is the text that was stored or opened last.
pub fn unchanged_is_stored()
    ensures { UnchangedIsStored }
{}

/// Outside a paste and the question whether to overwrite, Undo and Redo find the text unchanged that a Save or an answer stored, or
/// that was opened, if they lead back to it by its number of edits; any other text is changed. So it is until another text is stored, or an
/// edit drops the stored one.
pub fn stored_is_unchanged()
    ensures { StoredIsUnchanged }
{}
