//! Laws of the definitions. Each function's contract is a law; its body is empty.
ghost use Rattle.bx_editor.specs.undo_groups.Laws.{BeginWhereEditsBegin, EditIsOfItsRun, RedoEndsWithARun, UndoEndsWithARun, UndoThenRedo};

/// An edit keeps the group starts below its own number, drops the others, and adds its number if it begins a group.
pub fn begin_where_edits_begin()
    ensures { BeginWhereEditsBegin }
{}

/// An edit that begins a group is undone alone; one that goes on is undone with the group before it.
pub fn edit_is_of_its_run()
    ensures { EditIsOfItsRun }
{}

/// Edits are undone one after another until none is left or the first of a group is undone.
pub fn undo_ends_with_a_run()
    ensures { UndoEndsWithARun }
{}

/// Edits are made again one after another until all are made or the next begins a group.
pub fn redo_ends_with_a_run()
    ensures { RedoEndsWithARun }
{}

/// A group that is undone is made again up to the same length, and a group that is made again is undone back to the same length.
pub fn undo_then_redo()
    ensures { UndoThenRedo }
{}
