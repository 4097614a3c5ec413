//! The region between two characters that isolate, embed or override it.
ghost use Rattle.std.specs.Prelude.{◌≡◌, IfOk, OnErr, OnOk};
ghost use Rattle.bx_editor.specs.Editor.{cleared};
ghost use Rattle.bx_editor.specs.Asking.{after_wrapping, cursor_end, spans_lines};

use crate::editor::Editor;
use crate::message::Message;
use bx_common::{OutOfMemory, Range};
use bx_document::RegionEnd;
use bx_ucd::BidiData;

impl<D: BidiData + Drop> Editor<D> {
    /// Whether the region has a separator of paragraphs.
    fn spans_lines(&self) -> Result<bool, OutOfMemory>
        ensures { IfOk result (λ spans. spans ≡ spans_lines (D.data self.now.tables) self.now.editor) }
    {
        let Range { start, stop } = self.region();
        let region = self.document.copy(start, stop)?;
        let document = &self.document;
        Ok(region.as_str().chars().any(|c| document.separates(c)))
    }

    /// The end of the region at which the cursor stands.
    fn cursor_end(&self) -> RegionEnd
        ensures { result ≡ cursor_end self.now.editor }
    {
        if self.cursor.place == self.region().start {
            RegionEnd::Start
        } else {
            RegionEnd::Stop
        }
    }

    /// Puts `opener` before the region and `closer` behind it, as two edits of one undo group; if the region spans lines or the
    /// text is full, sets a message instead.
    pub(crate) fn wrap(&mut self, opener: char, closer: char) -> Result<(), OutOfMemory>
        ensures ok { OnOk result (self.new ≡ record self.old {
          editor = after_wrapping (D.data self.old.tables) (cleared self.old.editor) opener closer;
        }) }
        ensures err { OnErr result (self.new ≡ self.old) }
    {
        if self.spans_lines()? {
            self.tell(Message::MoreThanOneLine);
            return Ok(());
        }
        let Range { start, stop } = self.region();
        let end = self.cursor_end();
        // a character has at most four bytes
        let (mut front, mut back) = ([0; 4], [0; 4]);
        let front = opener.encode_utf8(&mut front);
        let back = closer.encode_utf8(&mut back);
        self.past.undo_groups.reserve()?;
        let n = self.document.past_len();
        let Some(place) = self
            .document
            .wrap(start, stop, front, back, self.cursor.place, end)?
        else {
            self.tell(Message::TextFull);
            return Ok(());
        };
        self.past.edited(n, false);
        self.cursor.move_after_edit(place);
        self.reset_after_key();
        Ok(())
    }
}
