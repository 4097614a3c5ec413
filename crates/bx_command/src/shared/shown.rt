//! Names and texts in messages, with the characters escaped that a terminal would obey or hide, so that a file's name cannot
//! change the screen.

ghost use Rattle.std.specs.Prelude.{◌≡◌, false};
ghost use Rattle.std.specs.List.{list_all, list_any};
ghost use Rattle.std.specs.Str.{chars};
ghost use Rattle.bx_command.specs.shared.Shown.{is_hidden, is_plain, style_of};

use std::fmt::{self, Display};

/// A file name in a shell's syntax: bare if all its characters are plain, in `$'..'` if a terminal would obey or hide one of
/// them, else in quotes. `$'..'` has a number in octal for each byte of such a character.
#[derive(Clone, Copy)]
pub struct Shown<'a>(pub &'a str);

/// A text in which each byte of a character that a terminal would obey or hide is an octal number; line ends stay.
#[derive(Clone, Copy)]
pub struct Numbered<'a>(pub &'a str);

/// A text as it stands between `$'` and `'`.
#[derive(Clone, Copy)]
pub struct Inner<'a>(pub &'a str);

/// How a name is shown.
#[derive(Clone, Copy)]
pub enum Style {
    /// As it is.
    Bare,
    /// Between quotes.
    Quoted,
    /// Between `$'` and `'`, with numbers.
    Escaped,
}

/// Whether a character of a name needs no quotes.
fn is_plain(c: char) -> bool
    ensures { result ≡ is_plain c }
{
    c.is_ascii_alphanumeric()
        || matches!(c, '_' | '.' | '/' | '+' | ',' | '@' | '%' | ':' | '=' | '-')
}

/// Whether a terminal would obey a character, take it for a direction or show it in no column; `hidden_ranges` of
/// `specs/shared/Shown.antt` tells by which of Unicode's properties. Joiners, used in Persian, do not count.
#[tactic(auto, unfolding(ucd_table::specs::Rows::in_ranges))]
fn is_hidden(c: char) -> bool
    ensures { result ≡ is_hidden c }
{
    matches!(c,
        '\u{0}'..='\u{1f}' | '\u{7f}'..='\u{9f}' | '\u{ad}' | '\u{61c}' | '\u{180e}' | '\u{200b}' | '\u{200e}'..='\u{200f}'
        | '\u{2028}'..='\u{202e}' | '\u{2060}'..='\u{206f}' | '\u{feff}' | '\u{fff9}'..='\u{fffb}' | '\u{13430}'..='\u{1343f}'
        | '\u{1bca0}'..='\u{1bca3}' | '\u{1d173}'..='\u{1d17a}' | '\u{e0000}'..='\u{e0fff}')
}

/// Whether a name has a hidden character.
fn has_hidden(name: &str) -> bool
    ensures { result ≡ list_any is_hidden (chars name.now) }
{
    name.chars().any(|c| is_hidden(c))
}

/// Whether all characters of a name are plain.
fn is_all_plain(name: &str) -> bool
    ensures { result ≡ list_all is_plain (chars name.now) }
{
    name.chars().all(|c| is_plain(c))
}

/// How a name is shown.
pub fn style_of(name: &str) -> Style
    ensures { result ≡ style_of name.now }
{
    if has_hidden(name) {
        Style::Escaped
    } else if !name.is_empty() && is_all_plain(name) {
        Style::Bare
    } else {
        Style::Quoted
    }
}

/// Writes a character that is not hidden. Nothing else writes characters of a name.
fn put<W: fmt::Write>(c: char, f: &mut fmt::Formatter<W>) -> fmt::Result
    requires { is_hidden c ≡ false }
{
    f.write_char(c)
}

/// Writes the number of each byte of a character, in octal.
fn write_numbers<W: fmt::Write>(c: char, f: &mut fmt::Formatter<W>) -> fmt::Result {
    let mut buffer = [0; 4];
    for byte in c.encode_utf8(&mut buffer).bytes() {
        write!(f, "\\{byte:03o}")?;
    }
    Ok(())
}

/// Writes a character of a name.
fn write_character<W: fmt::Write>(style: Style, c: char, f: &mut fmt::Formatter<W>) -> fmt::Result {
    match (style, c) {
        (Style::Quoted, '\'') => f.write_str("'\\''"),
        (Style::Escaped, '\'' | '\\') => write_numbers(c, f),
        _ if is_hidden(c) => write_numbers(c, f),
        _ => put(c, f),
    }
}

/// Writes the characters of a name.
fn write_characters<W: fmt::Write>(
    style: Style,
    name: &str,
    f: &mut fmt::Formatter<W>,
) -> fmt::Result {
    for c in name.chars() {
        write_character(style, c, f)?;
    }
    Ok(())
}

impl Display for Shown<'_> {
    fn fmt<W: fmt::Write>(&self, f: &mut fmt::Formatter<W>) -> fmt::Result {
        let style = style_of(self.0);
        f.write_str(match style {
            Style::Bare => "",
            Style::Quoted => "'",
            Style::Escaped => "$'",
        })?;
        write_characters(style, self.0, f)?;
        f.write_str(match style {
            Style::Bare => "",
            Style::Quoted | Style::Escaped => "'",
        })
    }
}

impl Display for Inner<'_> {
    fn fmt<W: fmt::Write>(&self, f: &mut fmt::Formatter<W>) -> fmt::Result {
        write_characters(Style::Escaped, self.0, f)
    }
}

impl Display for Numbered<'_> {
    fn fmt<W: fmt::Write>(&self, f: &mut fmt::Formatter<W>) -> fmt::Result {
        for c in self.0.chars() {
            if c == '\n' {
                f.write_str("\n")?;
            } else {
                write_character(Style::Bare, c, f)?;
            }
        }
        Ok(())
    }
}
