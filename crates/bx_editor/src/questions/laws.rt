//! Laws of the definitions. Each function's contract is a law; its body is empty.
ghost use Rattle.bx_editor.specs.questions.Laws.{ToldIsPrintable};

/// What is told of a unit is printable ASCII, whatever characters it has.
pub fn told_is_printable()
    ensures { ToldIsPrintable }
{}
