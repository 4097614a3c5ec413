//! The first character of a text, and equality of bytes, with contracts on what is in them.

ghost use Rattle.std.specs.Prelude.{◌≡◌, ◌<◌, ◌∷◌, ◌++◌, MatchOption, chars, encode_utf8, length, ◌↔◌, IsTrue};

/// The first character of a text, and the rest; `None` if the text is empty.
#[inline(always)]
pub fn first_char(text: &str) -> Option<(char, &str)>
    ensures { MatchOption result (length text.now ≡ 0)
        (λ (c, rest). (text.now ≡ encode_utf8 c ++ rest.now) × (length rest.now < length text.now) × (chars text.now ≡ c ∷ chars rest.now)) }
{
    let mut chars = text.chars();
    match chars.next() {
        Some(c) => Some((c, chars.as_str())),
        None => None,
    }
}

/// Whether two byte slices are equal.
pub fn are_equal(left: &[u8], right: &[u8]) -> bool
    ensures { IsTrue result ↔ (left.now ≡ right.now) }
{
    left == right
}
