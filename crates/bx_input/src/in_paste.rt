//! What the waiting bytes and one more are, within a paste.

ghost use Rattle.std.specs.Prelude.{◌∷◌, [], ◌++◌};
ghost use Rattle.bx_input.specs.Models.{TellsInPaste};
ghost use Rattle.bx_input.specs.PasteTail.{tail_bytes};

use crate::known::ESC;
use crate::paste_tail::PasteTail;

/// What the waiting bytes and one more are.
#[derive(Clone, Copy)]
pub enum AfterInPaste {
    /// The bytes begin the paste's end, or a control character of C1.
    Waits(PasteTail),
    /// They are a control character of C1.
    Drops,
    /// They are the paste's end.
    EndsPaste,
    /// They begin no known sequence.
    Breaks,
}

/// What the waiting bytes and one more are. C1 in UTF-8 is C2 and 80 to 9F; the paste's end is CSI 201~.
pub fn paste_after(waiting: PasteTail, byte: u8) -> AfterInPaste
    ensures { TellsInPaste result (tail_bytes waiting ++ byte ∷ []) }
{
    match waiting {
        PasteTail::Nothing => match byte {
            0xC2 => AfterInPaste::Waits(PasteTail::Lead),
            ESC => AfterInPaste::Waits(PasteTail::Escape),
            _ => AfterInPaste::Breaks,
        },
        PasteTail::Lead => match byte {
            0x80..=0x9F => AfterInPaste::Drops,
            _ => AfterInPaste::Breaks,
        },
        PasteTail::Escape => match byte {
            b'[' => AfterInPaste::Waits(PasteTail::Csi),
            _ => AfterInPaste::Breaks,
        },
        PasteTail::Csi => match byte {
            b'2' => AfterInPaste::Waits(PasteTail::Two),
            _ => AfterInPaste::Breaks,
        },
        PasteTail::Two => match byte {
            b'0' => AfterInPaste::Waits(PasteTail::Twenty),
            _ => AfterInPaste::Breaks,
        },
        PasteTail::Twenty => match byte {
            b'1' => AfterInPaste::Waits(PasteTail::TwoHundredOne),
            _ => AfterInPaste::Breaks,
        },
        PasteTail::TwoHundredOne => match byte {
            b'~' => AfterInPaste::EndsPaste,
            _ => AfterInPaste::Breaks,
        },
    }
}
