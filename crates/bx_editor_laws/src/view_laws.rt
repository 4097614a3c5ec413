//! Laws of a text that is only looked at. The functions are empty: their contracts are the laws.

ghost use Rattle.bx_editor_laws.specs.ViewLaws.{ViewKeepsText, ViewOnlyIsTold};

/// Where the text is only looked at, no key changes it, or what is to undo and redo, whatever was typed, and none stores it but an answer
/// to the question for a name, under that name.
pub fn view_keeps_text()
    ensures { ViewKeepsText }
{}

/// Where the text is only looked at, each key that would change it changes nothing, and the status row says why. A key that ends a question
/// or a search ends that first.
pub fn view_only_is_told()
    ensures { ViewOnlyIsTold }
{}
