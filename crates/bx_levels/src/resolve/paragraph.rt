//! The result of this crate: a level, stored in one byte, and the levels of a paragraph.
ghost use Rattle.std.specs.Prelude.{◌≡◌, ◌≤◌, None, Some};
ghost use Rattle.bx_levels.specs.resolve.Kept.{max_level};

use std::marker::Model;

/// The byte of no level. Levels are at most 126.
const NONE: u8 = 255;

/// The level of a character, or none where X9 removes it, in one byte.
#[derive(Clone, Copy)]
pub struct Level {
    byte: u8,
}

impl Model for Level {
    ghost use Rattle.std.specs.Prelude.{ℕ, Option};
    ghost use Rattle.bx_levels.specs.resolve.LevelBytes.{inside_of, inside_of-level, level_of};

    ghost Value = { Option ℕ };

    ghost view = { level_of };

    ghost inverse = { inside_of };

    ghost inverse_ok = { λ l h. inside_of-level l };
}

impl Level {
    /// No level, for a character that X9 removes.
    pub fn none() -> Level
        ensures { result ≡ None }
    {
        Level { byte: NONE }
    }

    /// A level, at most 126: I1 and I2 raise the greatest explicit level, 125, to this.
    #[inline(always)]
    pub fn of(level: u8) -> Level
        requires { level ≤ max_level }
        ensures { result ≡ Some level }
    {
        Level { byte: level }
    }

    /// The level, or `None` where X9 removes the character.
    #[inline(always)]
    pub fn get(self) -> Option<u8>
        ensures { result ≡ self }
    {
        if self.byte == NONE {
            return None;
        }
        Some(self.byte)
    }
}

/// The levels of a paragraph body.
#[derive(Drop)]
pub struct Levels {
    /// The paragraph level, 0 or 1.
    pub paragraph: u8,
    /// The level of each character, in text order.
    pub each: Vec<Level>,
}
