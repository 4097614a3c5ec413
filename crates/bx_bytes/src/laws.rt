//! Laws of all grammars, and of the grammar of characters. Each function's contract is a law; its body is empty.

ghost use Rattle.std.specs.Prelude.{◌≡◌, List, true};
ghost use Rattle.bx_bytes.specs.Grammar.{AreEncodings, BeginsByMore, NoneBeginsLonger, is_grammar};
ghost use Rattle.bx_bytes.specs.Pattern.{Piece};
ghost use Rattle.bx_bytes.specs.Utf8.{characters};

/// Bytes begin an item of a grammar exactly if some continuation of them is one.
pub fn begins_by_more()
    ensures { (patterns : List (List Piece)) → is_grammar patterns ≡ true → BeginsByMore patterns }
{}

/// No item of a grammar is a proper prefix of another.
pub fn none_begins_longer()
    ensures { (patterns : List (List Piece)) → is_grammar patterns ≡ true → NoneBeginsLonger patterns }
{}

/// The rows of the table of UTF-8 form a grammar, whose items are exactly the encodings of the Unicode scalar values.
pub fn characters_are_encodings()
    ensures grammar { is_grammar characters ≡ true }
    ensures encodings { AreEncodings }
{}
