//! The sides of a row, left and right, by which moves in visual order are named.
ghost use Rattle.std.specs.Prelude.{◌≡◌};
ghost use Rattle.bx_paragraph.specs.Slots.{opposite, reading_side};

/// The side of a row that a move goes to.
#[derive(Clone, Copy)]
pub enum Visual {
    Left,
    Right,
}

/// The side toward which a paragraph of a level is read: right if the level is even, left if it is odd.
pub fn reading_side(level: u8) -> Visual
    ensures { result ≡ reading_side level }
{
    if level % 2 == 0 {
        Visual::Right
    } else {
        Visual::Left
    }
}

/// The other side.
pub(crate) fn opposite(side: Visual) -> Visual
    ensures { result ≡ opposite side }
{
    match side {
        Visual::Left => Visual::Right,
        Visual::Right => Visual::Left,
    }
}
