//! The limits of a window and of a text.

ghost use Rattle.std.specs.Prelude.{◌≡◌};
ghost use Rattle.bx_common.specs.Characters.{is_side};

/// The largest number of rows or columns of a window, a chosen limit.
pub const LARGEST_SIDE: u16 = 500;

/// The largest size of a text, in bytes (16 MiB), a chosen limit.
pub const LARGEST_TEXT: usize = 16_777_216;

/// Whether a window may have `side` rows or columns: 1 to 500.
pub fn is_side(side: u16) -> bool
    ensures { result ≡ is_side side }
{
    1 <= side && side <= LARGEST_SIDE
}
