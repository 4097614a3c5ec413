//! Laws of pointing at the picture. The functions are empty: their contracts are the laws.

ghost use Rattle.bx_editor_laws.specs.PointingLaws.{DragsTakeBoth, PointStays, PointTakesUnits, ThreePresses};

/// A first press at the cursor's cell in the text leaves the place, but at the end of a paragraph whose last row is full. A unit has that cell
/// too, and is taken.
pub fn point_stays()
    ensures { PointStays }
{}

/// A first press at any column of a visible unit moves the cursor to that unit, onto its leftmost cell, in the same row of the picture.
pub fn point_takes_units()
    ensures { PointTakesUnits }
{}

/// Presses at one cell, one after the other, where nothing was pressed before and no selection is fresh: the first goes to a place, the second
/// selects the word there, the third the paragraph, and the fourth is as the first, where the top stayed.
pub fn three_presses_take()
    ensures { ThreePresses }
{}

/// Dragging from a cell to a cell of another unit selects both units, and so does dragging from that to the first; dragging back then selects
/// the first unit alone. So it is where nothing was pressed before, no selection is fresh, and the top stays.
pub fn drags_take_both()
    ensures { DragsTakeBoth }
{}
