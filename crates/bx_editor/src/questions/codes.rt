//! The answer to the question for a character by its code.
ghost use Rattle.std.specs.Prelude.{◌≡◌};
ghost use Rattle.std.specs.List.{list_all};
ghost use Rattle.bx_editor.specs.questions.Names.{coded, is_code_letter};

/// Whether a character may stand in a code: a hexadecimal digit of ASCII, of either case.
pub fn is_code_letter(c: char) -> bool
    ensures { result ≡ is_code_letter c }
{
    c.is_digit(16)
}

/// Whether all bytes of a text are hexadecimal digits.
fn are_code_letters(text: &str) -> bool
    ensures { result ≡ list_all is_code_letter text.now }
{
    text.as_bytes()
        .iter()
        .all(|b| is_code_letter(char::from(*b)))
}

/// The character that an answer writes in hexadecimal; none for an empty answer, another character in it, a surrogate, or a
/// code above 10FFFF.
pub fn coded(answer: &str) -> Option<char>
    ensures { result ≡ coded answer.now }
{
    // `from_str_radix` would take a sign too.
    if !are_code_letters(answer) {
        return None;
    }
    match u32::from_str_radix(answer, 16) {
        Ok(code) => char::from_u32(code),
        Err(_) => None,
    }
}
