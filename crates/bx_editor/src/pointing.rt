//! Clicks at, and drags to, a row and a column of the picture, both from 1.
ghost use Rattle.std.specs.Prelude.{◌≡◌, IfOk, IfSome, OnErr, OnOk};
ghost use Rattle.bx_view.specs.Places.{IsTextPlace};
ghost use Rattle.bx_editor.specs.Clicks.{IsPressed};
ghost use Rattle.bx_editor.specs.Editor.{cleared};
ghost use Rattle.bx_editor.specs.Pointing.{after_drag, after_point, dragged_to, first_press, further, part_at, pointed_place, press_extent, pressed_at, pressing, rests_on_unit, selecting_part, with_word};

use crate::clicks::{Clicks, Extent, Pressed};
use crate::cursor::Soft;
use crate::editor::Editor;
use crate::picture::text_height;
use bx_common::{OutOfMemory, Range};
use bx_ucd::BidiData;

/// What a further press at the same cell takes.
fn further(extent: Extent) -> Extent
    ensures { result ≡ further extent }
{
    match extent {
        Extent::Unit => Extent::Word,
        Extent::Word => Extent::Paragraph,
        Extent::Paragraph => Extent::Unit,
    }
}

/// What a press at a cell takes, where these presses were before it.
fn press_extent(clicks: Option<Clicks>, row: u16, column: u16) -> Extent
    ensures { result ≡ press_extent clicks row column }
{
    match clicks {
        Some(clicks) if clicks.row == row && clicks.column == column => further(clicks.extent),
        _ => Extent::Unit,
    }
}

/// A part of the text that was pressed.
fn pressing(part: Range, extent: Extent) -> Option<Pressed>
    ensures { result ≡ Some (pressing (part.start, part.stop) extent) }
{
    Some(Pressed {
        start: part.start,
        stop: part.stop,
        extent,
    })
}

impl<D: BidiData + Drop> Editor<D> {
    /// From a place: the unit that begins there, its word, or its paragraph with its separator.
    fn part_at(&mut self, extent: Extent, place: usize) -> Result<Range, OutOfMemory>
        requires text_place { IsTextPlace (D.data self.old.tables) self.old.editor.content.text place }
        ensures same { self.new ≡ self.old }
        ensures start { IfOk result (λ part. part.start ≡ (part_at (D.data self.old.tables) self.old.editor extent place).0) }
        ensures stop { IfOk result (λ part. part.stop ≡ (part_at (D.data self.old.tables) self.old.editor extent place).1) }
        ensures start_place { IfOk result (λ part. IsTextPlace (D.data self.old.tables) self.old.editor.content.text part.start) }
        ensures stop_place { IfOk result (λ part. IsTextPlace (D.data self.old.tables) self.old.editor.content.text part.stop) }
    {
        // The proof refers to the parts by name, and `len` promises that the text is UTF-8.
        let _utf8 = self.document.len();
        match extent {
            Extent::Unit => {
                let unit = self.document.unit_at(place)?;
                Ok(unit)
            }
            Extent::Word => {
                let word = self.document.stretch_at(place)?;
                Ok(word)
            }
            Extent::Paragraph => {
                let line = self.document.line_of(place);
                Ok(line)
            }
        }
    }

    /// The place in a row and a column of the picture. Rows below the text lead to its last row.
    fn pointed_place(&mut self, row: u16, column: u16) -> Result<usize, OutOfMemory>
        ensures same { self.new ≡ self.old }
        ensures place { IfOk result (λ o. o ≡ pointed_place (D.data self.old.tables) self.old.editor row column) }
        ensures text_place { IfOk result (IsTextPlace (D.data self.old.tables) self.old.editor.content.text) }
    {
        self.document.pointed_at(self.top, row, column)
    }

    /// Selects a part of the text, with the cursor at its second offset.
    pub(crate) fn select_part(&mut self, mark: usize, place: usize)
        requires mark { IsTextPlace (D.data self.old.tables) self.old.editor.content.text mark }
        requires place { IsTextPlace (D.data self.old.tables) self.old.editor.content.text place }
        ensures { self.new ≡ record self.old { editor = selecting_part self.old.editor mark place } }
    {
        self.cursor.mark = Some(mark);
        self.cursor.place = place;
        self.cursor.soft = Soft::Old;
    }

    /// Goes to a place as a first press does; with a fresh selection selects up to there.
    fn press_first(&mut self, row: u16, column: u16, place: usize) -> Result<(), OutOfMemory>
        requires text_place { IsTextPlace (D.data self.old.tables) self.old.editor.content.text place }
        ensures ok { OnOk result (self.new ≡ record self.old {
          editor = first_press (D.data self.old.tables) self.old.editor row column place;
        }) }
        ensures err { OnErr result (self.new ≡ self.old) }
    {
        if let Soft::Fresh = self.cursor.soft {
            let mark = self.cursor.mark.unwrap_or(place);
            self.cursor.place = place;
            self.cursor.clicks = None;
            self.cursor.pressed = pressing(
                Range {
                    start: mark,
                    stop: mark,
                },
                Extent::Unit,
            );
            return Ok(());
        }
        let part = self.part_at(Extent::Unit, place)?;
        self.unselect();
        self.cursor.place = place;
        self.cursor.clicks = Some(Clicks {
            row,
            column,
            extent: Extent::Unit,
        });
        self.cursor.pressed = pressing(part, Extent::Unit);
        Ok(())
    }

    /// Selects a word, or goes to an empty body, where there is none.
    fn select_word(&mut self, word: Range)
        requires start { IsTextPlace (D.data self.old.tables) self.old.editor.content.text word.start }
        requires stop { IsTextPlace (D.data self.old.tables) self.old.editor.content.text word.stop }
        ensures { self.new ≡ record self.old { editor = with_word self.old.editor (word.start, word.stop) } }
    {
        if word.start == word.stop {
            self.cursor.place = word.start;
            self.cursor.mark = None;
            self.cursor.soft = Soft::Off;
            return;
        }
        self.select_part(word.start, word.stop);
    }

    /// Applies a press at a cell, at which this place is.
    fn press_at(
        &mut self,
        row: u16,
        column: u16,
        place: usize,
        extent: Extent,
    ) -> Result<(), OutOfMemory>
        requires text_place { IsTextPlace (D.data self.old.tables) self.old.editor.content.text place }
        ensures ok { OnOk result (self.new ≡ record self.old {
          editor = pressed_at (D.data self.old.tables) self.old.editor row column place extent;
        }) }
        ensures err { OnErr result (self.new ≡ self.old) }
    {
        if let Extent::Unit = extent {
            return self.press_first(row, column, place);
        }
        let part = self.part_at(extent, place)?;
        match extent {
            Extent::Word => self.select_word(part),
            _ => self.select_part(part.start, part.stop),
        }
        self.cursor.clicks = Some(Clicks {
            row,
            column,
            extent,
        });
        self.cursor.pressed = pressing(part, extent);
        Ok(())
    }

    /// Applies a click: a first one leads to a place, a second one at the same cell takes its word, a third one its paragraph. In the
    /// status row it leads nowhere.
    pub(crate) fn point(&mut self, row: u16, column: u16) -> Result<(), OutOfMemory>
        ensures ok { OnOk result (self.new ≡ record self.old {
          editor = after_point (D.data self.old.tables) (cleared self.old.editor) row column;
        }) }
        ensures err { OnErr result (self.new ≡ self.old) }
    {
        if row > text_height(self.height) {
            self.unselect();
            self.cursor.clicks = None;
            self.cursor.pressed = None;
            self.reset_after_key();
            return Ok(());
        }
        let place = self.pointed_place(row, column)?;
        let extent = press_extent(self.cursor.clicks, row, column);
        self.press_at(row, column, place, extent)?;
        self.reset_after_key();
        Ok(())
    }

    /// Whether a drag, with one unit pressed, has not led elsewhere yet.
    fn rests_on_unit(&self, pressed: Pressed, part: Range) -> bool
        ensures { result ≡ rests_on_unit self.now.editor pressed (part.start, part.stop) }
    {
        match pressed.extent {
            Extent::Unit => part.start == pressed.start && pressed.start == self.cursor.place,
            _ => false,
        }
    }

    /// Selects from what was pressed to a part of the text, both taken.
    fn drag_to(&mut self, pressed: Pressed, part: Range)
        requires pressed { IsPressed (D.data self.old.tables) self.old.editor.content.text pressed }
        requires start { IsTextPlace (D.data self.old.tables) self.old.editor.content.text part.start }
        requires stop { IsTextPlace (D.data self.old.tables) self.old.editor.content.text part.stop }
        ensures { self.new ≡ record self.old { editor = dragged_to self.old.editor pressed (part.start, part.stop) } }
    {
        if self.rests_on_unit(pressed, part) {
            return;
        }
        if part.start >= pressed.start {
            self.select_part(pressed.start, part.stop);
        } else {
            self.select_part(pressed.stop, part.start);
        }
    }

    /// Applies a drag: selects from what was pressed to what is under the pointer. Without a press it is a click.
    pub(crate) fn drag(&mut self, row: u16, column: u16) -> Result<(), OutOfMemory>
        ensures ok { OnOk result (self.new ≡ record self.old {
          editor = after_drag (D.data self.old.tables) (cleared self.old.editor) row column self.old.editor.pressed;
        }) }
        ensures err { OnErr result (self.new ≡ self.old) }
    {
        let Some(pressed) = self.cursor.pressed else {
            return self.point(row, column);
        };
        // The row below the last text row is the next one of the text.
        let row = row.min(text_height(self.height) + 1);
        let place = self.pointed_place(row, column)?;
        let part = self.part_at(pressed.extent, place)?;
        self.drag_to(pressed, part);
        self.cursor.clicks = None;
        self.reset_after_key();
        Ok(())
    }
}
