//! Laws of the definitions. Each function's contract is a law; its body is empty.
ghost use Rattle.bx_find_laws.specs.Laws.{FirstFromIsFirst, FirstBetweenIsFirst, LastBeforeIsLast, SpansFollow};

/// The first match at or after an offset has the least such offset.
pub fn first_from_is_first()
    ensures { FirstFromIsFirst }
{}

/// The first match between two offsets has the least such offset.
pub fn first_between_is_first()
    ensures { FirstBetweenIsFirst }
{}

/// The last match before an offset has the greatest such offset.
pub fn last_before_is_last()
    ensures { LastBeforeIsLast }
{}

/// Each of the matches that follow one another is the first at or after the end of the one before.
pub fn spans_follow()
    ensures { SpansFollow }
{}
