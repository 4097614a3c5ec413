//! Laws of units, rows, visual order and pictures. The functions are empty: their contracts are the laws.

ghost use Rattle.bx_rows_laws.specs.Laws.{RowsAreOfRest, RowsCutUnits, RowsEndWell, RowsMeetAgain, UnitsFitWindow, UnitsMakeBody, UnitsStandInTurn};
ghost use Rattle.bx_rows_laws.specs.JoiningLaws.{FormlessRowsStay, FormsChangeTextsAlone, LettersGoByJoining, LettersShowTheirForms};
ghost use Rattle.bx_rows_laws.specs.OrderLaws.{EqualLevelsOrder, LowestLevelsOrder, LowestStaysBetween, OrdersArePermutations, PicturesGoByLevels};
ghost use Rattle.bx_rows_laws.specs.OrderLaws.{PicturesShowUnits, StaysBetween};
ghost use Rattle.bx_rows_laws.specs.TouchingLetters.{EqualOddLevelsTouch, JoinedLettersTouch, LettersKeepLevels, PicturesShowTouch};

/// The units of a body joined are the body: they are adjacent from its start to its end. Each fits in the window.
pub fn units_make_body()
    ensures joined { UnitsMakeBody }
    ensures in_turn { UnitsStandInTurn }
    ensures fit { UnitsFitWindow }
{}

/// The rows of units joined are the units: none is lost or in two rows, and each row begins at the end of the one before.
/// A row ends with the last unit, after a unit that allows a break, or where no more units fit; no longer row that ends in
/// one of the first two ways would fit.
pub fn rows_cut_units()
    ensures cut { RowsCutUnits }
    ensures ends { RowsEndWell }
{}

/// The visual order of a row's units contains each unit's number once.
pub fn orders_are_permutations()
    ensures { OrdersArePermutations }
{}

/// Of two units, the first in the text is left of the other exactly if the lowest level from the one to the other is even.
/// So two units of one level, with none lower between them, keep their order at an even level and swap it at an odd one,
/// and the units between them stay between them. So does a unit of the lowest level between two others.
pub fn lowest_levels_order_units()
    ensures lowest { LowestLevelsOrder }
    ensures equal { EqualLevelsOrder }
    ensures between { StaysBetween }
    ensures lowest_between { LowestStaysBetween }
{}

/// A row's picture shows the glyphs of each of its units once, each unit's together, and otherwise blanks. Of two units, the
/// first in the text is shown left of the other exactly if the lowest level from the one to the other is even.
pub fn pictures_show_units()
    ensures once { PicturesShowUnits }
    ensures order { PicturesGoByLevels }
{}

/// Joined letters change the texts of a picture's glyphs alone, and none where no letter has a form. Each character that
/// differs is a form of the letter in its place.
pub fn forms_change_texts_alone()
    ensures alone { FormsChangeTextsAlone }
    ensures formless { FormlessRowsStay }
    ensures letters { LettersShowTheirForms }
{}

/// A unit at an odd level shows each of its letters in the form that goes by what the letter joins: medial where it joins both
/// neighbours, final or initial where it joins one, isolated where it joins none. A letter without that form, and a unit whose
/// text would take other columns, is shown as without joined letters.
pub fn letters_go_by_joining()
    ensures { LettersGoByJoining }
{}

/// Two units of one odd level, with no lower level between them, touch: only units between them in the text are between them
/// on the screen. So do two units that begin with letters that join, where the row has both at the letters' level; letters join
/// across all that is between. A row has a unit at the level of its first letter, if that is not a separator or whitespace.
pub fn joined_letters_touch()
    ensures units { EqualOddLevelsTouch }
    ensures letters { JoinedLettersTouch }
    ensures levels { LettersKeepLevels }
    ensures pictures { PicturesShowTouch }
{}

/// From any row on, the rows of a body are those of the rest of the body, taken as a body of its own.
pub fn rows_are_of_rest()
    ensures { RowsAreOfRest }
{}

/// Two bodies that are equal from a row's start in each on have equal rows from there on.
pub fn rows_meet_again()
    ensures { RowsMeetAgain }
{}
