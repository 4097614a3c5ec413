//! Laws of what the window shows behind far keys, the wheel and pages. The functions are empty: their contracts are the laws.

ghost use Rattle.bx_editor_laws.specs.ScrollLaws.{FarKeysShow, PagesGoBack, WheelGoesBack, WheelMovesView};

/// Behind a key that searches, goes to a line, or takes back or makes again a group of edits, the cursor's row is shown. The view moves
/// only if it was not shown; then half of the window is above that row, or all that the text has there, and no row is left blank that
/// could show text.
pub fn far_keys_show()
    ensures { FarKeysShow }
{}

/// The wheel moves the view by three rows, at most to an end of the text. The cursor stays while its row is shown, with its mark and what
/// is asked or sought; else it goes to a row that is shown, as a move that ends what is asked and sought.
pub fn wheel_moves_view()
    ensures { WheelMovesView }
{}

/// Turning the wheel on and back, or back and on, leaves cursor and view where they were, if there are as many rows and the cursor's stays
/// shown.
pub fn wheel_goes_back()
    ensures { WheelGoesBack }
{}

/// PageOn and then PageBack leave the view where it was and lead the cursor back, if there are as many rows, and no column was kept; so do
/// PageBack and then PageOn. From the end of a paragraph that fills its last row they lead to the unit at the window's edge.
pub fn pages_go_back()
    ensures { PagesGoBack }
{}
