//! Laws of places, moves, pointing and scrolling, for any text in any window. The functions are empty: their contracts are the laws.

ghost use Rattle.std.specs.Prelude.{◌≡◌, ℕ, ◌<◌, List, IsUtf8};
ghost use Rattle.bx_ucd.specs.Data.{Data};
ghost use Rattle.bx_ucd.specs.declared.class.Class.{Class};
ghost use Rattle.bx_view.specs.Laws.{FindsLeastPlace, HasCells, LeadBack, LeadToPlaces, MovesKeep, MovesLeast, PlacesGoOn, SpansText, WordsGoOn};
ghost use Rattle.bx_view_laws.specs.Entry.{RowsGoOn};
ghost use Rattle.bx_view_laws.specs.Laws.{InEachWindow, IsGreatestPlace};
ghost use Rattle.bx_view_laws.specs.Pointed.{OwnCellsStay, TopStays, UnitsAreTaken};
ghost use Rattle.bx_view_laws.specs.Views.{Centres, Fills, GoalsAreEnds, KeepsShown, PlacesReturn, ViewsReturn};
ghost use Rattle.bx_view.specs.Moves.{place_at, place_from, step_logical};
ghost use Rattle.bx_view.specs.Places.{text_places, IsTextPlace};
ghost use Rattle.bx_view.specs.TextRows.{places};
ghost use Rattle.bx_view.specs.Words.{step_word};

/// The places of a text's rows are the boundaries of its clusters and separators, from the text's start to its end, in
/// every window and direction.
pub fn places_are_boundaries()
    ensures rows { InEachWindow (λ ucd text w rows. places rows ≡ text_places ucd text) }
    ensures span { (ucd : Data) (text : List ℕ) → IsUtf8 text → SpansText ucd text }
{}

/// The place of an offset is the greatest place not after it.
pub fn place_at_is_greatest()
    ensures { InEachWindow (λ ucd text w rows. (offset : ℕ) → IsGreatestPlace ucd text offset (place_at rows offset)) }
{}

/// The place from an offset on is the least place not before it, and from past the text's end on the end.
pub fn place_from_is_least()
    ensures { InEachWindow (λ ucd text w rows. FindsLeastPlace ucd text (place_from rows)) }
{}

/// A step forward leads to the next place, a step back to the previous place. Only at the text's end, or at its start, it stays.
pub fn steps_go_on()
    ensures { InEachWindow (λ ucd text w rows. PlacesGoOn ucd text (step_logical rows)) }
{}

/// A move by rows enters another row at the slot that covers the column of the place's cell, or if none does, at the nearest
/// slot. In the place's own row it stays.
pub fn rows_go_on()
    ensures { InEachWindow (λ ucd text w rows. RowsGoOn w rows) }
{}

/// The numbers of its paragraph and unit that are shown for a place lead back to it, and any two such numbers lead to a place.
pub fn numbers_lead_back()
    ensures back { InEachWindow LeadBack }
    ensures places { (ucd : Data) (text : List ℕ) → IsUtf8 text → LeadToPlaces ucd text }
{}

/// Each move leads from a place to a place.
pub fn moves_keep_places()
    ensures { InEachWindow (λ ucd text w rows. MovesKeep ucd text w rows (IsTextPlace ucd text)) }
{}

/// A step by a word forward leads to the next start of a word or end of a body, a step back to the previous start of a
/// word or body. Only at the text's end, or at its start, it stays.
pub fn words_go_on()
    ensures { (ucd : Data) (text : List ℕ) → IsUtf8 text → WordsGoOn ucd text (step_word ucd text) }
{}

/// A row's slots are its places. Each place has exactly one slot, in the row that it falls in, and its cell is the column
/// at which the glyphs of its unit begin.
pub fn places_have_cells()
    ensures { InEachWindow (λ ucd text w rows. HasCells ucd w rows) }
{}

/// Scrolling to a place moves the top by the fewest rows that make the place's row visible; a second time changes nothing.
pub fn follow_is_least()
    ensures { InEachWindow (λ ucd text w rows. MovesLeast rows) }
{}

/// Pointing at any column of a unit that is shown leads to the unit's place, and the cursor then has the unit's leftmost column,
/// in the same row.
pub fn pointing_takes_units()
    ensures { InEachWindow (λ ucd text w rows. UnitsAreTaken ucd w rows) }
{}

/// Pointing at the cell of a place leads to the place, unless the place is a paragraph's end in a row that is full. Its column
/// there is a unit's too, and the unit is taken.
pub fn pointing_at_own_cell_stays()
    ensures { InEachWindow (λ ucd text w rows. OwnCellsStay w rows) }
{}

/// Pointing at a row that is shown leaves the top, so pointing twice at one cell is pointing once.
pub fn pointing_twice_is_once()
    ensures { InEachWindow (λ ucd text w rows. (t : ℕ) → 0 < t → TopStays w rows t) }
{}

/// A key that may lead far moves the view so that the place's row is visible, and only if it was not. Then half of the window is above
/// that row, or all that the text has there, and no row is left blank that could show text.
pub fn far_places_are_centred()
    ensures { InEachWindow (λ ucd text w rows. (t : ℕ) → 0 < t → Centres rows t) }
{}

/// Filling the window moves the view up, by the fewest rows that leave none blank that could show text.
pub fn filling_is_least()
    ensures { InEachWindow (λ ucd text w rows. (t : ℕ) → 0 < t → Fills rows t) }
{}

/// The view goes down a page, or some rows, and back up to where it was, if the text has as many rows; so it goes up and back down.
pub fn views_return()
    ensures { InEachWindow (λ ucd text w rows. (t : ℕ) → 0 < t → ViewsReturn rows t) }
{}

/// A place goes down some rows and back up to itself, by the goal that it keeps, if the text has as many rows and no unit has its cell; so
/// it goes up and back down.
pub fn places_return()
    ensures { InEachWindow (λ ucd text w rows. PlacesReturn w rows) }
{}

/// A move from a row's start leads to another row's start, whichever edge that is at, and a move from a row's end to another row's end.
pub fn goals_are_ends()
    ensures { InEachWindow (λ ucd text w rows. GoalsAreEnds w rows) }
{}

/// When the view is scrolled, the place stays if its row is still visible; if not, it goes to a row that is.
pub fn scrolling_keeps_places_visible()
    ensures { InEachWindow (λ ucd text w rows. (t : ℕ) → 0 < t → KeepsShown w rows t) }
{}
