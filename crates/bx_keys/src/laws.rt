//! Laws of items, of bytes that wait, of input in pieces and of its parts. Each function's contract is a law; its body is empty.

ghost use Rattle.std.specs.Prelude.{◌≡◌, true};
ghost use Rattle.bx_bytes.specs.Grammar.{is_grammar, BeginsByMore, NoneBeginsLonger};
ghost use Rattle.bx_keys.specs.Items.{items};
ghost use Rattle.bx_keys.specs.Laws.{ComesInPieces, HasParts, RestsWait};

/// Bytes begin an item exactly if some continuation of them is one, and no item is a proper prefix of another.
pub fn items_are_apart()
    ensures grammar { is_grammar items ≡ true }
    ensures beginnings { BeginsByMore items }
    ensures none_longer { NoneBeginsLonger items }
{}

/// The bytes that input leaves wait for more; read again alone, they still wait.
pub fn rests_wait()
    ensures { RestsWait }
{}

/// However input is cut, its keys are the same if each piece is read after the bytes that waited.
pub fn in_any_pieces()
    ensures { ComesInPieces }
{}

/// Input is whole items, bytes that are dropped, and at its end bytes that wait. Its keys are the keys of its items in
/// order, the same in every division of this kind.
pub fn input_has_parts()
    ensures { HasParts }
{}
