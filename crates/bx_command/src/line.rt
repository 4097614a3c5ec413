//! Where the cursor's first line begins.

ghost use Rattle.std.specs.Prelude.{◌≡◌};
ghost use Rattle.bx_command.specs.Lines.{start_of_line};

use memchr::memchr_iter;

/// The byte offset at which `line`, counted from 1, begins; the last line's if the text has fewer. Lines end with LF, and 0
/// counts as 1.
pub fn start_of_line(text: &[u8], line: u64) -> usize
    ensures { result ≡ start_of_line text.now line }
{
    let mut feeds = memchr_iter(b'\n', text);
    let mut start = 0;
    // line feeds that are left to pass
    let mut left = line.saturating_sub(1);
    while left > 0 {
        let Some(feed) = feeds.next() else {
            break;
        };
        start = feed + 1;
        left -= 1;
    }
    start
}
