//! A law of the rules for explicit levels. The function does nothing: its contract is the law.

ghost use Rattle.bx_levels.specs.embedding.Laws.{AlwaysHasRoom, StatesGiveLevels};

/// For any classes of a paragraph, the stack of X1 never has more than 127 entries, in any state that gives a character
/// its level.
pub fn stack_has_room()
    ensures room { AlwaysHasRoom }
    ensures levels { StatesGiveLevels }
{}
