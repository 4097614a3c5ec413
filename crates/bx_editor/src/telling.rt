//! What stands at the cursor's place, and the message of the status row.
ghost use Rattle.std.specs.Prelude.{◌≡◌, ◌++◌, [], true, IfOk, string_bytes};
ghost use Rattle.bx_common.specs.Characters.{are_ascii_printable};
ghost use Rattle.bx_editor.specs.Status.{message_part, shown_text, told_at_place};

use crate::editor::Editor;
use crate::message::Message;
use crate::questions::write_told;
use bx_common::OutOfMemory;
use bx_ucd::BidiData;
use bx_view::{Logical, Move};
use itoa::Buffer;

/// Writes how many matches were replaced.
///
/// Errors: `OutOfMemory`, and a part is written.
fn write_replaced(line: &mut String, count: usize) -> Result<(), OutOfMemory>
    ensures text { IfOk result (λ _. string_bytes line.new ≡ string_bytes line.old ++ shown_text [] (Message.Replaced count)) }
    ensures printable { IfOk result (λ _. are_ascii_printable (shown_text [] (Message.Replaced count)) ≡ true) }
{
    let mut number = Buffer::new();
    line.push_str(number.format(count))?;
    line.push_str(Message::Replaced(count).text())?;
    Ok(())
}

impl<D: BidiData + Drop> Editor<D> {
    /// Writes the characters of the unit at the place with their classes, and its level; at the text's end, "end of text".
    ///
    /// Errors: `OutOfMemory`, and a part is written.
    fn write_told(&mut self, line: &mut String) -> Result<(), OutOfMemory>
        ensures same { self.new ≡ self.old }
        ensures told { IfOk result (λ _. string_bytes line.new ≡ string_bytes line.old ++ told_at_place (D.data self.old.tables) self.old.editor) }
        ensures printable { IfOk result (λ _. are_ascii_printable (told_at_place (D.data self.old.tables) self.old.editor) ≡ true) }
    {
        let place = self.cursor.place;
        if place == self.document.len() {
            line.push_str("end of text")?;
            return Ok(());
        }
        let stop = self.on_by(Move::Logical(Logical::Forward))?;
        let unit = self.document.copy(place, stop)?;
        let level = self.document.level_at(place)?;
        write_told(line, self.document.tables(), unit.as_str(), level)?;
        Ok(())
    }

    /// Writes the message behind a blank, if there is one.
    ///
    /// Errors: `OutOfMemory`, and a part is written.
    pub(crate) fn write_message(&mut self, line: &mut String) -> Result<(), OutOfMemory>
        ensures same { self.new ≡ self.old }
        ensures message { IfOk result (λ _. string_bytes line.new ≡ string_bytes line.old
            ++ message_part (told_at_place (D.data self.old.tables) self.old.editor) self.old.editor.message) }
        ensures printable { IfOk result (λ _. are_ascii_printable
            (message_part (told_at_place (D.data self.old.tables) self.old.editor) self.old.editor.message) ≡ true) }
    {
        let message = match self.message {
            None | Some(Message::Cut) => return Ok(()),
            Some(message) => message,
        };
        line.push_str(" ")?;
        match message {
            Message::Told => self.write_told(line),
            Message::Replaced(count) => write_replaced(line, count),
            _ => {
                line.push_str(message.text())?;
                Ok(())
            }
        }
    }
}
