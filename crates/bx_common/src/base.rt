//! The base direction of a text.

ghost use Rattle.bx_common.specs.Directions.{NamesBase};

use std::str::FromStr;
use thiserror::Error;

/// How the level of a paragraph is chosen: from its text (UAX #9, P2 and P3), or given (HL1).
#[derive(Clone, Copy, PartialEq, Eq, Debug)]
pub enum Base {
    /// From the text: by its first strong character.
    Auto,
    /// Left to right, level 0.
    Ltr,
    /// Right to left, level 1.
    Rtl,
}

/// The error of a word that does not name a base direction.
#[derive(Clone, Copy, Debug, Error)]
#[error("auto, ltr or rtl is wanted")]
pub struct UnknownBase;

impl FromStr for Base {
    type Err = UnknownBase;

    ghost from_str_gives = { NamesBase };

    /// Parses `auto`, `ltr` or `rtl`.
    fn from_str(name: &str) -> Result<Self, UnknownBase> {
        match name {
            "auto" => Ok(Base::Auto),
            "ltr" => Ok(Base::Ltr),
            "rtl" => Ok(Base::Rtl),
            _ => Err(UnknownBase),
        }
    }
}
