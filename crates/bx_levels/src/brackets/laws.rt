//! Laws of the bracket pairs of every sequence. The functions do nothing: their contracts are the laws.

ghost use Rattle.bx_levels.specs.brackets.Laws.{NeighboursArePaired, PairsAreNested};

/// Each pair opens before it closes, pairs are sorted by opener, and two pairs are nested or disjoint.
pub fn pairs_are_nested()
    ensures { PairsAreNested }
{}

/// An opener and its closer side by side are a pair, if fewer than 63 characters come before them: then the stack, which has room
/// for 63 openers (BD16), is not full.
pub fn neighbours_are_paired()
    ensures { NeighboursArePaired }
{}
