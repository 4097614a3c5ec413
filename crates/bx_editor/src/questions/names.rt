//! The answer to the question for a character by a letter that names it.
ghost use Rattle.std.specs.Prelude.{◌≡◌};
ghost use Rattle.bx_editor.specs.questions.Names.{asks_code, closing, named};

/// The character that a letter names: a formatting character of UAX #9, a directional mark, a non-joiner or a joiner.
pub fn named(letter: char) -> Option<char>
    ensures { result ≡ named letter }
{
    match letter {
        'e' => Some('\u{202A}'),
        'E' => Some('\u{202B}'),
        'o' => Some('\u{202D}'),
        'O' => Some('\u{202E}'),
        'p' => Some('\u{202C}'),
        'i' => Some('\u{2066}'),
        'I' => Some('\u{2067}'),
        'f' => Some('\u{2068}'),
        'P' => Some('\u{2069}'),
        'l' => Some('\u{200E}'),
        'r' => Some('\u{200F}'),
        'a' => Some('\u{61C}'),
        'n' => Some('\u{200C}'),
        'j' => Some('\u{200D}'),
        _ => None,
    }
}

/// The character that ends what the named one begins: PDF for an embedding or an override, PDI for an isolate.
pub fn closing(letter: char) -> Option<char>
    ensures { result ≡ closing letter }
{
    match letter {
        'e' | 'E' | 'o' | 'O' => Some('\u{202C}'),
        'i' | 'I' | 'f' => Some('\u{2069}'),
        _ => None,
    }
}

/// Whether a letter asks for a code in place of a name.
pub fn asks_code(letter: char) -> bool
    ensures { result ≡ asks_code letter }
{
    letter == 'u' || letter == '+'
}
