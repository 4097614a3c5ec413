//! Laws of letters that join. The functions are empty: their contracts are the laws.

ghost use Rattle.bx_rows.specs.joining.Laws.{FormsGoByJoining, JoiningIsSymmetric};

/// A letter joins the one after it exactly where that one joins the one before it.
pub fn joining_is_symmetric()
    ensures { JoiningIsSymmetric }
{}

/// A character's form says which sides it joins.
pub fn forms_go_by_joining()
    ensures { FormsGoByJoining }
{}
