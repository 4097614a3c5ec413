//! The borders of a list of letters: the beginnings that are also ends. They are tried from the longest down, once for a query.
ghost use Rattle.std.specs.Prelude.{◌≤◌, ◌<◌, ◌↔◌, IsTrue, length};
ghost use Rattle.bx_find.specs.Borders.{Ends, IsBorder};

/// Whether the first `count` letters are the last `count` of the first `end`.
fn ends_as_it_begins(letters: &[char], end: usize, count: usize) -> bool
    requires end { end ≤ length letters.now }
    requires count { count ≤ end }
    ensures { IsTrue result ↔ Ends letters.now end count }
{
    letters[..count] == letters[end - count..end]
}

/// The number of letters in the longest border of the first `end` letters.
pub fn border(letters: &[char], end: usize) -> usize
    requires some { 0 < end }
    requires end { end ≤ length letters.now }
    ensures { IsBorder letters.now end result }
{
    let mut count = end - 1;
    while !ends_as_it_begins(letters, end, count) {
        count -= 1;
    }
    count
}
