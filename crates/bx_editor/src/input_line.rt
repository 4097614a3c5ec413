//! Edits of an input line: what is typed at a prompt, a small text of one line with a cursor of its own.
ghost use Rattle.std.specs.Prelude.{◌≡◌, ◌≤◌, ◌==◌, not, [], true, IfOk, IsCharBoundary, IsUtf8, OnOk, chars, length, string_bytes, encode_utf8, take};
ghost use Rattle.bx_text.specs.Changes.{IsRange};
ghost use Rattle.bx_view.specs.Places.{IsTextPlace};
ghost use Rattle.bx_editor.specs.InputLines.{erased_part, erases_nothing, first_line, line_edited, line_lengthened, line_shortened};

use crate::questions::{char_count, shortened};
use bx_common::{OutOfMemory, Range, first_char};
use bx_document::Document;
use bx_ucd::BidiData;
use bx_view::{Logical, Move};
use std::alloc::{AllocError, Global};
use std::marker::Model;

/// What a key erases in an input line.
#[derive(Clone, Copy)]
pub enum Erasure {
    /// The last character before the cursor.
    LastCharacter,
    /// The unit behind the cursor.
    Unit,
    /// All back to where a word begins.
    WordBack,
    /// All up to where the next word begins.
    WordOn,
}

/// An input line and its cursor, while it is edited.
#[derive(Drop)]
pub struct InputLine {
    pub(crate) text: String,
    pub(crate) cursor: usize,
}

impl Model for InputLine {
    ghost use Rattle.std.specs.Prelude.{string_bytes};
    ghost use Rattle.bx_editor.specs.LineState.{LineState};

    ghost Value = { LineState };

    ghost view = { λ l. record { text = string_bytes l.text; cursor = l.cursor } };
}

impl InputLine {
    /// A copy of a line, with its cursor.
    pub(crate) fn of(alloc: Global, line: &str, cursor: usize) -> Result<InputLine, AllocError>
        ensures { IfOk result (λ l. l ≡ record { text = line.now; cursor = cursor }) }
    {
        let text = String::from_str(alloc, line)?;
        Ok(InputLine { text, cursor })
    }

    /// Puts other bytes in place of those from `start` to `stop`, and the cursor at the first place at or after their end. An error may
    /// leave the cursor.
    fn exchange<D: BidiData + Drop>(
        &mut self,
        document: &Document<D>,
        start: usize,
        stop: usize,
        new: &str,
    ) -> Result<(), OutOfMemory>
        requires range { IsRange self.old.text start stop }
        ensures line { OnOk result (self.new ≡ line_edited (D.data document.now.tables) self.old start stop new.now) }
        ensures place { OnOk result (IsTextPlace (D.data document.now.tables) self.new.text self.new.cursor) }
    {
        self.text.replace_range(start..stop, new)?;
        self.cursor = document.place_in_line(self.text.as_str(), start + new.len())?;
        Ok(())
    }

    /// Puts a character in at the cursor, if the line has fewer than `limit`.
    pub(crate) fn insert<D: BidiData + Drop>(
        &mut self,
        document: &Document<D>,
        c: char,
        limit: usize,
    ) -> Result<(), OutOfMemory>
        requires few { length (chars self.old.text) ≤ limit }
        requires place { IsTextPlace (D.data document.now.tables) self.old.text self.old.cursor }
        ensures line { OnOk result (self.new ≡ line_lengthened (D.data document.now.tables) limit self.old c) }
        ensures few { OnOk result (length (chars self.new.text) ≤ limit) }
        ensures place { OnOk result (IsTextPlace (D.data document.now.tables) self.new.text self.new.cursor) }
    {
        if char_count(self.text.as_str()) >= limit {
            return Ok(());
        }
        // a character has at most four bytes
        let mut buffer = [0; 4];
        let new = c.encode_utf8(&mut buffer);
        self.exchange(document, self.cursor, self.cursor, new)?;
        Ok(())
    }

    /// The part of the line that an erasure removes.
    fn erased_part<D: BidiData + Drop>(
        &self,
        document: &Document<D>,
        how: Erasure,
    ) -> Result<Range, OutOfMemory>
        requires place { IsTextPlace (D.data document.now.tables) self.now.text self.now.cursor }
        ensures start { IfOk result (λ r. r.start ≡ (erased_part (D.data document.now.tables) how self.now).0) }
        ensures stop { IfOk result (λ r. r.stop ≡ (erased_part (D.data document.now.tables) how self.now).1) }
        ensures range { IfOk result (λ r. IsRange self.now.text r.start r.stop) }
        ensures utf8 { OnOk result (IsUtf8 self.now.text) }
    {
        let line = self.text.as_str();
        let cursor = self.cursor;
        let (start, stop) = match how {
            Erasure::LastCharacter => {
                let before = shortened(*self.text.allocator(), &line[..cursor])?;
                (before.len(), cursor)
            }
            Erasure::Unit => {
                let on = Move::Logical(Logical::Forward);
                (cursor, document.moved_in_line(line, on, cursor)?)
            }
            Erasure::WordBack => {
                let back = Move::Word(Logical::Back);
                (document.moved_in_line(line, back, cursor)?, cursor)
            }
            Erasure::WordOn => {
                let on = Move::Word(Logical::Forward);
                (cursor, document.moved_in_line(line, on, cursor)?)
            }
        };
        Ok(Range { start, stop })
    }

    /// Removes what an erasure removes. Returns whether that was something.
    pub(crate) fn erase<D: BidiData + Drop>(
        &mut self,
        document: &Document<D>,
        how: Erasure,
    ) -> Result<bool, OutOfMemory>
        requires place { IsTextPlace (D.data document.now.tables) self.old.text self.old.cursor }
        ensures some { IfOk result (λ some. some ≡ not (erases_nothing (D.data document.now.tables) how self.old)) }
        ensures line { IfOk result (λ some. some ≡ true → self.new ≡ line_shortened (D.data document.now.tables) how self.old) }
        ensures fewer { OnOk result (length (chars self.new.text) ≤ length (chars self.old.text)) }
        ensures place { OnOk result (IsTextPlace (D.data document.now.tables) self.new.text self.new.cursor) }
    {
        let Range { start, stop } = self.erased_part(document, how)?;
        if start == stop {
            return Ok(false);
        }
        self.exchange(document, start, stop, "")?;
        Ok(true)
    }
}

/// The length of the first line of a text, up to a tab.
fn first_line_len<D: BidiData + Drop>(document: &Document<D>, text: &str) -> usize
    ensures line { chars (take result text.now) ≡ first_line (D.data document.now.tables) text.now }
    ensures boundary { IsCharBoundary text.now result }
{
    let mut rest = text;
    while let Some((c, behind)) = first_char(rest) {
        if c == '\n' || c == '\t' || document.separates(c) {
            return text.len() - rest.len();
        }
        rest = behind;
    }
    text.len()
}

/// A copy of the first line of a text, up to a tab: what an input line takes of it.
pub(crate) fn first_line<D: BidiData + Drop>(
    document: &Document<D>,
    alloc: Global,
    text: &str,
) -> Result<String, AllocError>
    ensures { IfOk result (λ line. chars (string_bytes line) ≡ first_line (D.data document.now.tables) text.now) }
{
    let len = first_line_len(document, text);
    String::from_str(alloc, &text[..len])
}
