//! The edited texts, and the letters typed into them.

use std::alloc::{AllocError, Global};

/// The kind of a text.
#[derive(Clone, Copy)]
pub(crate) enum Script {
    /// English lines.
    Ascii,
    /// Hebrew lines with brackets, digits and English words.
    Hebrew,
    /// Lines that are half Hebrew and half English.
    Mixed,
    /// The Hebrew words in one paragraph.
    Paragraph,
}

/// An English word to type, letter by letter, with a blank after it.
const ENGLISH_WORD: [&str; 5] = ["w", "o", "r", "d", " "];

/// The same in Hebrew.
const HEBREW_WORD: [&str; 5] = ["\u{5e9}", "\u{5dc}", "\u{5d5}", "\u{5dd}", " "];

/// The number of characters of a line after which the next blank ends it. So lines have some 84 characters, and wrap in a
/// window of 80 columns.
const LEAST: usize = 81;

impl Script {
    /// The script with this name.
    pub(crate) fn named(name: &str) -> Option<Script> {
        match name {
            "ascii" => Some(Script::Ascii),
            "hebrew" => Some(Script::Hebrew),
            "mixed" => Some(Script::Mixed),
            "paragraph" => Some(Script::Paragraph),
            _ => None,
        }
    }

    /// The words that the text repeats.
    fn words(self) -> &'static str {
        match self {
            Script::Ascii => {
                "The old man, who had 12 books (and no more), went to the sea, and came back [as he always did] in the \
                evening of the third day; nobody asked him where he had been, "
            }
            Script::Hebrew | Script::Paragraph => {
                "שלום לכל הקוראים (ובהם גם the readers), והנה עוד 12 ספרים [books] אשר נקראו היום בבוקר, ועוד 7 שנקראו \
                אתמול בערב (ואחד שלא נקרא עדיין), "
            }
            Script::Mixed => {
                "שלום לכל the readers of this, והנה עוד 12 ספרים (books) אשר with a word נקראו היום, and then there were \
                שבעה אחרים [not read yet], "
            }
        }
    }

    /// The number of characters of a line after which the next blank ends it: in one paragraph no line ends.
    fn least(self) -> usize {
        match self {
            Script::Paragraph => usize::MAX,
            _ => LEAST,
        }
    }

    /// The letter typed in round `round`, from 0. The rounds spell a word over and over.
    pub(crate) fn letter(self, round: usize) -> &'static str {
        match self {
            Script::Ascii => ENGLISH_WORD[round % 5],
            _ => HEBREW_WORD[round % 5],
        }
    }

    /// A text of at least `bytes` bytes. Lines end at blanks, so they begin with different words, and each page differs from
    /// the one before.
    pub(crate) fn text(self, alloc: Global, bytes: usize) -> Result<String, AllocError> {
        let mut text = String::with_capacity(alloc, bytes)?;
        let mut length: usize = 0;
        // Each time the words add a byte at least, so `bytes` times are enough.
        for _ in 0..bytes {
            if text.len() >= bytes {
                break;
            }
            for c in self.words().chars() {
                if c == ' ' && length >= self.least() {
                    text.push('\n')?;
                    length = 0;
                } else {
                    text.push(c)?;
                    length = length.saturating_add(1);
                }
            }
        }
        Ok(text)
    }
}
