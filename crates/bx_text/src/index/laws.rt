//! Laws of the paragraphs of any text. Each function's contract is a law; its body is empty.

ghost use Rattle.bx_text.specs.index.Laws.{BodiesHaveNone, EndWithSeparators, JoinToText, KeepEachCrLf, MatchSpans};

/// The paragraphs of a text, concatenated, are the text. All but the last end with one separator. No CR LF is split.
pub fn paragraphs_join_to_text()
    ensures joined { JoinToText }
    ensures separators { EndWithSeparators }
    ensures cr_lf { KeepEachCrLf }
{}

/// The body of a paragraph is the text at the paragraph's span, and has no separator in it.
pub fn bodies_match_spans()
    ensures spans { MatchSpans }
    ensures none_inside { BodiesHaveNone }
{}
