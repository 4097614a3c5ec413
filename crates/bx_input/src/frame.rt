//! Frames: the messages by which the host hands on input (`host/frames.h`).

ghost use Rattle.std.specs.Prelude.{◌≡◌, None, Some, MatchOption};
ghost use Rattle.bx_input.specs.Frames.{first_frame};

// The letters of the frames that the program reads. docs/ARCHITECTURE.md tells of their bytes.

/// Bytes as the terminal gave them.
pub const TYPED: u8 = b'b';
/// The window's rows and columns, in two bytes each.
pub const SIZE: u8 = b'z';
/// Some time went by after typed bytes.
pub const IDLE: u8 = b'i';
/// The number of a notice.
pub const NOTICE: u8 = b'n';

// The letters of the frames that the program writes to standard error.

/// The text was read and can be opened.
pub const OPENED: u8 = b'o';
/// A fault before the run.
pub const FAULT: u8 = b'f';
/// The journal lost keys, or has all again.
pub const JOURNAL: u8 = b'j';
/// What a file holds compared with a journal, and the number of keys.
pub const REPLAYED: u8 = b'r';
/// How the run ended.
pub const END: u8 = b'e';

/// The bytes of a frame's letter and length.
pub const FRAME_HEAD: usize = 3;

/// A frame in the bytes that were read.
#[derive(Clone, Copy)]
pub struct Frame<'a> {
    /// What the frame says.
    pub letter: u8,
    /// Its bytes, at most 65,535.
    pub bytes: &'a [u8],
}

/// The frame that these bytes begin with; None if it is not whole. The length is in two bytes, the high one first.
pub fn first_frame(held: &[u8]) -> Option<Frame<'_>>
    ensures { MatchOption result (first_frame held.now ≡ None)
        (λ f. first_frame held.now ≡ Some (record { letter = f.letter; bytes = f.bytes.now })) }
{
    let [letter, high, low, more @ ..] = held else {
        return None;
    };
    let count = usize::from(*high) * 256 + usize::from(*low);
    if count > more.len() {
        return None;
    }
    Some(Frame {
        letter: *letter,
        bytes: &more[..count],
    })
}
