//! The mark, and the keys that copy and cut.
ghost use Rattle.std.specs.Prelude.{◌≡◌, OnErr, OnOk, slice_range};
ghost use Rattle.bx_text.specs.Changes.{IsRange};
ghost use Rattle.bx_view.specs.Places.{IsTextPlace};
ghost use Rattle.bx_editor.specs.Editor.{cleared};
ghost use Rattle.bx_editor.specs.Region.{after_copy, after_cut, after_mark, held_message, is_at_mark, line, region, taken, with_held, without_hard_mark, without_mark};

use crate::cursor::Soft;
use crate::editor::Editor;
use crate::message::Message;
use crate::selecting::is_soft;
use bx_common::{OutOfMemory, Range};
use bx_ucd::BidiData;

/// Whether the mark is at the place.
fn is_at_mark(mark: Option<usize>, place: usize) -> bool
    ensures { result ≡ is_at_mark mark place }
{
    match mark {
        Some(mark) => mark == place,
        None => false,
    }
}

/// The most bytes of held text that go out to a clipboard. A choice, which docs/bidi_edit.1 tells; many terminals take no more.
const LARGEST_CLIP: usize = 65_536;

/// The message of a key that held this text: its own, but with a clipboard a text that is too long for it is told.
fn held_message(clipboard: bool, held: &str, own: Option<Message>) -> Option<Message>
    ensures { result ≡ held_message clipboard held.now own }
{
    if clipboard && held.len() > LARGEST_CLIP {
        return Some(Message::TooLongForClipboard);
    }
    own
}

impl<D: BidiData + Drop> Editor<D> {
    /// Marks the place, or removes the mark if it is there already.
    pub(crate) fn turn_mark(&mut self)
        ensures { self.new ≡ record self.old { editor = after_mark (cleared self.old.editor) } }
    {
        if is_at_mark(self.cursor.mark, self.cursor.place) {
            self.cursor.mark = None;
            self.tell(Message::MarkOff);
        } else {
            self.cursor.mark = Some(self.cursor.place);
            self.tell(Message::MarkSet);
        }
        self.cursor.soft = Soft::Off;
    }

    /// Removes the mark.
    pub(crate) fn remove_mark(&mut self)
        ensures { self.new ≡ record self.old { editor = without_mark (cleared self.old.editor) } }
    {
        self.cursor.mark = None;
        self.cursor.soft = Soft::Off;
        self.reset_after_key();
    }

    /// The region, between the mark and the place, whichever comes first. Empty if there is no mark.
    pub(crate) fn region(&self) -> Range
        ensures start { result.start ≡ (region self.now.editor).0 }
        ensures stop { result.stop ≡ (region self.now.editor).1 }
        ensures range { IsRange self.now.editor.content.text result.start result.stop }
        ensures start_place { IsTextPlace (D.data self.now.tables) self.now.editor.content.text result.start }
    {
        // `len` promises that the text is UTF-8.
        let _utf8 = self.document.len();
        let mark = self.cursor.mark.unwrap_or(self.cursor.place);
        Range {
            start: mark.min(self.cursor.place),
            stop: mark.max(self.cursor.place),
        }
    }

    /// Where the cursor's line begins. Allocates nothing.
    pub(crate) fn line_start(&self) -> usize
        ensures start { result ≡ (line (D.data self.now.tables) self.now.editor).0 }
        ensures range { IsRange self.now.editor.content.text result self.now.editor.place }
    {
        // `len` promises that the text is UTF-8.
        let _utf8 = self.document.len();
        self.document.line_of(self.cursor.place).start
    }

    /// The part of the text that Cut takes: the region, or the line if the region is empty.
    fn taken(&self) -> Range
        ensures start { result.start ≡ (taken (D.data self.now.tables) self.now.editor).0 }
        ensures stop { result.stop ≡ (taken (D.data self.now.tables) self.now.editor).1 }
        ensures range { IsRange self.now.editor.content.text result.start result.stop }
    {
        let region = self.region();
        if region.start == region.stop {
            return self.document.line_of(self.cursor.place);
        }
        region
    }

    /// Removes a mark that is no selection's.
    fn remove_hard_mark(&mut self)
        ensures { self.new ≡ record self.old { editor = without_hard_mark self.old.editor } }
    {
        if !is_soft(self.cursor.soft) {
            self.cursor.mark = None;
            self.cursor.soft = Soft::Off;
        }
    }

    /// Makes a part of the text the held text, which may be a whole line, removes a mark that is no selection's, and sets the message.
    fn hold(&mut self, part: Range, whole_line: bool, message: Message) -> Result<(), OutOfMemory>
        requires range { IsRange self.old.editor.content.text part.start part.stop }
        ensures ok { OnOk result (self.new ≡ record self.old {
          editor = with_held (cleared self.old.editor) (slice_range self.old.editor.content.text part.start part.stop) whole_line message;
        }) }
        ensures err { OnErr result (self.new ≡ self.old) }
    {
        let held = self.document.copy(part.start, part.stop)?;
        self.reset_after_key();
        self.message = held_message(self.clipboard, held.as_str(), Some(message));
        self.held = held;
        self.whole_line = whole_line;
        self.remove_hard_mark();
        Ok(())
    }

    /// Copies the region, or the line if the region is empty; if both are, sets a message instead.
    pub(crate) fn copy(&mut self) -> Result<(), OutOfMemory>
        ensures ok { OnOk result (self.new ≡ record self.old {
          editor = after_copy (D.data self.old.tables) (cleared self.old.editor);
        }) }
        ensures err { OnErr result (self.new ≡ self.old) }
    {
        let region = self.region();
        if region.start != region.stop {
            return self.hold(region, false, Message::Copied);
        }
        let line = self.document.line_of(self.cursor.place);
        if line.start != line.stop {
            return self.hold(line, true, Message::LineCopied);
        }
        self.remove_hard_mark();
        self.tell(Message::NothingToCopy);
        Ok(())
    }

    /// Copies the same text as Copy, and removes it.
    pub(crate) fn cut(&mut self) -> Result<(), OutOfMemory>
        ensures ok { OnOk result (self.new ≡ record self.old {
          editor = after_cut (D.data self.old.tables) (cleared self.old.editor);
        }) }
        ensures err { OnErr result (self.new ≡ self.old) }
    {
        let Range { start, stop } = self.taken();
        if start == stop {
            return self.copy();
        }
        let region = self.region();
        let held = self.document.copy(start, stop)?;
        self.remove(start, stop, false)?;
        self.message = held_message(self.clipboard, held.as_str(), Some(Message::Cut));
        self.held = held;
        self.whole_line = region.start == region.stop;
        Ok(())
    }
}
