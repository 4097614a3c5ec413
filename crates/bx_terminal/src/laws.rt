//! Laws of a terminal that reads any bytes. Each function's contract is a law; its body is empty.

ghost use Rattle.bx_terminal.specs.Laws.{ReadsTokens, RunsAreLongest, TokensMakeBytes};

/// A terminal reads bytes token by token, in order. The tokens and the remaining bytes, concatenated, are the bytes read,
/// and each printable run is as long as possible.
pub fn reads_tokens()
    ensures reads { ReadsTokens }
    ensures bytes { TokensMakeBytes }
    ensures longest { RunsAreLongest }
{}
