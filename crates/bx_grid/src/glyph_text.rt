//! The text of a glyph, as a column stores it: seven bytes and their count fill one word of 64 bits.

ghost use Rattle.std.specs.Prelude.{◌≡◌, ◌+◌, ◌*◌, ◌^◌, ◌≤◌, ◌<◌, [], ◌∷◌, length, IfOk, IsOk, MatchOption, false, true};
ghost use Rattle.std.specs.Str.{bytes_eq};
ghost use Rattle.bx_grid.specs.Codes.{packed, is_short};
ghost use Rattle.bx_grid.specs.Columns.{is_ascii_glyph};
ghost use Rattle.bx_grid.specs.Tokens.{is_only};

use bx_common::is_ascii_printable;
use std::alloc::{AllocError, Global};
use std::marker::Model;

/// Largest length in bytes of a text stored inline.
pub(crate) const SHORT: usize = 7;

/// A text of at most seven bytes.
#[derive(Drop)]
struct ShortText {
    /// Those from `len` on are 0 and not read.
    bytes: [u8; 7],
    /// Number of bytes.
    len: u8,
}

impl Model for ShortText {
    ghost use Rattle.std.specs.Prelude.{List, ℕ, ◌≤◌, take};

    ghost Value = { List ℕ };

    ghost view = { λ t. take t.len t.bytes };

    ghost invariant = { λ t. t.len ≤ 7 };
}

impl ShortText {
    /// A text of these bytes.
    #[inline(always)]
    fn new(text: &[u8]) -> ShortText
        requires { length text.now ≤ 7 }
        ensures { result ≡ text.now }
    {
        let bytes = match text {
            [] => [0, 0, 0, 0, 0, 0, 0],
            [a] => [*a, 0, 0, 0, 0, 0, 0],
            [a, b] => [*a, *b, 0, 0, 0, 0, 0],
            [a, b, c] => [*a, *b, *c, 0, 0, 0, 0],
            [a, b, c, d] => [*a, *b, *c, *d, 0, 0, 0],
            [a, b, c, d, e] => [*a, *b, *c, *d, *e, 0, 0],
            [a, b, c, d, e, f] => [*a, *b, *c, *d, *e, *f, 0],
            [a, b, c, d, e, f, g, ..] => [*a, *b, *c, *d, *e, *f, *g],
        };
        ShortText {
            bytes,
            len: text.len() as u8,
        }
    }

    /// A copy.
    #[inline(always)]
    fn copy(&self) -> ShortText
        ensures { result ≡ self.now }
    {
        ShortText {
            bytes: self.bytes,
            len: self.len,
        }
    }

    /// Its bytes.
    fn as_bytes(&self) -> &[u8]
        ensures bytes { result.now ≡ self.now }
        ensures short { length result.now ≤ 7 }
    {
        &self.bytes[..self.len as usize]
    }
}

/// A short text is stored inline, any other on the heap.
#[derive(Drop)]
enum Stored {
    /// At most seven bytes.
    Short(ShortText),
    /// More than seven bytes.
    Long(String),
}

/// The text of a glyph. Up to seven bytes are stored inline, without an allocation.
#[derive(Drop)]
pub struct GlyphText {
    stored: Stored,
}

// Contracts see the bytes.
impl Model for GlyphText {
    ghost use Rattle.std.specs.Prelude.{List, ℕ};

    ghost Value = { List ℕ };

    ghost use Rattle.bx_grid.specs.GlyphTexts.{bytes_of, IsStored};

    ghost view = { λ t. bytes_of t.stored };

    ghost invariant = { λ t. IsStored t.stored };
}

impl GlyphText {
    /// A text. At most seven bytes need no allocation.
    pub fn from_str(alloc: Global, text: &str) -> Result<GlyphText, AllocError>
        ensures ok { IfOk result (λ t. t ≡ text.now) }
        ensures short { length text.now ≤ 7 → IsOk result }
    {
        if text.len() <= SHORT {
            return Ok(GlyphText::short(text));
        }
        Ok(GlyphText {
            stored: Stored::Long(String::from_str(alloc, text)?),
        })
    }

    /// A text of at most seven bytes.
    #[inline(always)]
    pub(crate) fn short(text: &str) -> GlyphText
        requires { length text.now ≤ 7 }
        ensures { result ≡ text.now }
    {
        GlyphText {
            stored: Stored::Short(ShortText::new(text.as_bytes())),
        }
    }

    /// A copy. At most seven bytes need no allocation.
    #[inline(always)]
    pub fn copy(&self, alloc: Global) -> Result<GlyphText, AllocError>
        ensures ok { IfOk result (λ t. t ≡ self.now) }
        ensures short { length self.now ≤ 7 → IsOk result }
    {
        match &self.stored {
            Stored::Short(text) => Ok(GlyphText {
                stored: Stored::Short(text.copy()),
            }),
            Stored::Long(text) => Ok(GlyphText {
                stored: Stored::Long(String::from_str(alloc, text)?),
            }),
        }
    }

    /// Copies another text if both are short, and returns whether it did.
    #[inline(always)]
    pub(crate) fn set_short(&mut self, other: &GlyphText) -> bool
        ensures set { result ≡ true → self.new ≡ other.now }
        ensures same { result ≡ false → self.new ≡ self.old }
        ensures short { length self.old ≤ 7 → length other.now ≤ 7 → result ≡ true }
    {
        match (&mut self.stored, &other.stored) {
            (Stored::Short(text), Stored::Short(new)) => {
                *text = new.copy();
                true
            }
            _ => false,
        }
    }

    /// The text of one byte.
    pub(crate) fn of_byte(byte: u8) -> GlyphText
        ensures { result ≡ byte ∷ [] }
    {
        GlyphText {
            stored: Stored::Short(ShortText::new(&[byte])),
        }
    }

    /// Its bytes.
    pub fn as_bytes(&self) -> &[u8]
        ensures { result.now ≡ self.now }
    {
        match &self.stored {
            Stored::Short(text) => text.as_bytes(),
            Stored::Long(text) => text.as_bytes(),
        }
    }

    /// Whether the texts are equal.
    pub fn is_same(&self, other: &GlyphText) -> bool
        ensures { result ≡ bytes_eq self.now other.now }
    {
        self.as_bytes() == other.as_bytes()
    }

    /// Whether the text is this byte alone.
    pub(crate) fn is_byte(&self, byte: u8) -> bool
        ensures { result ≡ is_only byte self.now }
    {
        match self.as_bytes() {
            [first] => byte == *first,
            _ => false,
        }
    }

    /// Whether the text is one character from SPACE to TILDE.
    pub fn is_ascii_glyph(&self) -> bool
        ensures { result ≡ is_ascii_glyph self.now }
    {
        match self.as_bytes() {
            [byte] => is_ascii_printable(*byte),
            _ => false,
        }
    }

    /// A number that identifies a text of at most seven bytes; None for a longer one.
    #[inline(always)]
    pub(crate) fn packed(&self) -> Option<u64>
        ensures { MatchOption result (is_short self.now ≡ false) (λ n. (n ≡ packed self.now) × (is_short self.now ≡ true) × (n < 2 ^ 57)) }
    {
        match &self.stored {
            Stored::Short(text) => Some(packed_bytes(text.as_bytes())),
            Stored::Long(_) => None,
        }
    }
}

/// A number that identifies at most seven bytes: the first is its lowest byte, and a 1 above the last marks their count.
#[inline(always)]
fn packed_bytes(bytes: &[u8]) -> u64
    requires { length bytes.now ≤ 7 }
    ensures number { result ≡ packed bytes.now }
    ensures short { is_short bytes.now ≡ true }
    ensures small { result < 2 ^ 57 }
{
    match bytes {
        [] => 1,
        [a] => under(1, *a),
        [a, b] => under(under(1, *b), *a),
        [a, b, c] => under(under(under(1, *c), *b), *a),
        [a, b, c, d] => under(under(under(under(1, *d), *c), *b), *a),
        [a, b, c, d, e] => under(under(under(under(under(1, *e), *d), *c), *b), *a),
        [a, b, c, d, e, f] => under(under(under(under(under(under(1, *f), *e), *d), *c), *b), *a),
        [a, b, c, d, e, f, g, ..] => under(
            under(under(under(under(under(under(1, *g), *f), *e), *d), *c), *b),
            *a,
        ),
    }
}

/// The number with `byte` appended as its lowest byte.
fn under(high: u64, byte: u8) -> u64
    requires { high < 2 ^ 56 }
    ensures { result ≡ high * 256 + byte }
{
    high * 256 + u64::from(byte)
}
