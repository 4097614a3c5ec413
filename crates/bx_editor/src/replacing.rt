//! A match that is shown: it is replaced or passed over, or it and all that follow are replaced.
ghost use Rattle.std.specs.Prelude.{◌≡◌, ◌+◌, ◌≤◌, true, if◌then◌else◌, IfOk, IfSome, IsCharBoundary, IsUtf8, OnErr, OnOk};
ghost use Rattle.bx_common.specs.Characters.{largest_text};
ghost use Rattle.bx_text.specs.Edits.{fits, splice};
ghost use Rattle.bx_text.specs.Changes.{IsRange};
ghost use Rattle.bx_view.specs.Places.{IsTextPlace};
ghost use Rattle.bx_editor.specs.Editor.{cleared};
ghost use Rattle.bx_editor.specs.Replacing.{after_ending, after_passing_over, after_replacing, after_replacing_all};
ghost use Rattle.bx_editor.specs.Replacing.{found_here, match_or_region, match_stop, next_match, seen, with_matches_replaced};
ghost use Rattle.bx_editor.specs.Functions.{next_behind};
ghost use Rattle.bx_editor.specs.Search.{sought};

use crate::editor::Editor;
use crate::message::Message;
use crate::query::reading_of;
use crate::search_state::SearchState;
use bx_common::{OutOfMemory, Range};
use bx_find::Query;
use bx_ucd::BidiData;
use bx_view::{Logical, Move};

impl<D: BidiData + Drop> Editor<D> {
    /// The query, of which a match is shown. Allocates nothing.
    fn shown_query(&self) -> Query
        requires shown { self.now.editor.search_state ≡ SearchState.Replacing }
        ensures query { result ≡ sought (D.data self.now.tables) self.now.editor }
        ensures utf8 { IsUtf8 self.now.editor.content.text }
    {
        let Some(query) = self.sought() else {
            unreachable!()
        };
        query
    }

    /// The offset behind the match that is shown. Allocates nothing.
    fn match_stop(&self) -> usize
        requires shown { self.now.editor.search_state ≡ SearchState.Replacing }
        ensures stop { result ≡ match_stop (D.data self.now.tables) self.now.editor }
        ensures range { IsRange self.now.editor.content.text self.now.editor.at result }
        ensures utf8 { IsUtf8 self.now.editor.content.text }
    {
        let query = self.shown_query();
        self.document
            .match_end(reading_of(self.purpose), &query, self.at)
    }

    /// The first match that begins in the unit at the place, if there is one.
    fn found_here(&mut self, query: &Query) -> Result<Option<usize>, OutOfMemory>
        requires query { query.now ≡ sought (D.data self.old.tables) self.old.editor }
        ensures same { self.new ≡ self.old }
        ensures found { IfOk result (λ at. at ≡ found_here (D.data self.old.tables) self.old.editor) }
        ensures boundary { IfOk result (λ at. IfSome at (IsCharBoundary self.old.editor.content.text)) }
    {
        let stop = self.on_by(Move::Logical(Logical::Forward))?;
        let reading = reading_of(self.purpose);
        Ok(
            self.document
                .first_between(reading, query, self.cursor.place, stop),
        )
    }

    /// The units of the match that the query led to; without one the region.
    fn match_or_region(&mut self) -> Result<Range, OutOfMemory>
        ensures same { self.new ≡ self.old }
        ensures start { IfOk result (λ r. r.start ≡ (match_or_region (D.data self.old.tables) self.old.editor (found_here (D.data self.old.tables) self.old.editor)).0) }
        ensures stop { IfOk result (λ r. r.stop ≡ (match_or_region (D.data self.old.tables) self.old.editor (found_here (D.data self.old.tables) self.old.editor)).1) }
    {
        let Some(query) = self.sought() else {
            return Ok(self.region());
        };
        match self.found_here(&query)? {
            None => Ok(self.region()),
            Some(at) => Ok(Range {
                start: self.cursor.place,
                stop: self
                    .document
                    .match_end(reading_of(self.purpose), &query, at),
            }),
        }
    }

    /// The part of the text in the other rendition: the units of the match that is shown, or that the query led to; else the region.
    pub(crate) fn seen(&mut self) -> Result<Range, OutOfMemory>
        ensures same { self.new ≡ self.old }
        ensures start { IfOk result (λ r. r.start ≡ (seen (D.data self.old.tables) self.old.editor).0) }
        ensures stop { IfOk result (λ r. r.stop ≡ (seen (D.data self.old.tables) self.old.editor).1) }
    {
        match self.cursor.search_state {
            SearchState::Off | SearchState::Begun => Ok(self.region()),
            SearchState::Replacing => Ok(Range {
                start: self.cursor.place,
                stop: self.match_stop(),
            }),
            SearchState::Typed | SearchState::WithBegun | SearchState::WithTyped => {
                self.match_or_region()
            }
        }
    }

    /// The offset of the first match at or after `x`. Allocates nothing.
    fn next_match(&self, x: usize) -> Option<usize>
        requires shown { self.now.editor.search_state ≡ SearchState.Replacing }
        requires bounds { IsCharBoundary self.now.editor.content.text x }
        ensures next { result ≡ next_match (D.data self.now.tables) self.now.editor x }
        ensures boundary { IfSome result (IsCharBoundary self.now.editor.content.text) }
        ensures utf8 { IsUtf8 self.now.editor.content.text }
    {
        let query = self.shown_query();
        self.document
            .first_from(reading_of(self.purpose), &query, x)
    }

    /// Ends replacing, and tells how many matches were replaced. Allocates nothing.
    pub(crate) fn end_replacing(&mut self)
        ensures { self.new ≡ record self.old { editor = after_ending (cleared self.old.editor) } }
    {
        self.tell(Message::Replaced(self.count));
        self.cursor.search_state = SearchState::Off;
    }

    /// Goes on to the next match behind the first character of this one; if there is none, replacing ends.
    pub(crate) fn pass_over(&mut self) -> Result<(), OutOfMemory>
        requires shown { self.old.editor.search_state ≡ SearchState.Replacing }
        ensures ok { OnOk result (self.new ≡ record self.old {
          editor = after_passing_over (D.data self.old.tables) (cleared self.old.editor);
        }) }
        ensures err { OnErr result (self.new ≡ self.old) }
    {
        let behind = self.document.behind_character(self.at);
        let Some(at) = self.next_match(behind) else {
            self.end_replacing();
            return Ok(());
        };
        self.cursor.place = self.document.place_at(at)?;
        self.at = at;
        self.reset_after_key();
        Ok(())
    }

    /// The next match behind `stop`, once the bytes from the match to `stop` have given way to `new`: its offset then, and its
    /// place.
    fn next_behind(&mut self, stop: usize, new: &str) -> Result<Option<(usize, usize)>, OutOfMemory>
        requires shown { self.old.editor.search_state ≡ SearchState.Replacing }
        requires range { IsRange self.old.editor.content.text self.old.editor.at stop }
        requires fits { fits self.old.editor.content.text self.old.editor.at stop new.now ≡ true }
        ensures same { self.new ≡ self.old }
        ensures next { IfOk result (λ next. next ≡ next_behind (D.data self.old.tables) self.old.editor stop new.now) }
        ensures text_place { IfOk result (λ next. IfSome next (λ found. IsTextPlace (D.data self.old.tables)
            (splice self.old.editor.content.text self.old.editor.at stop new.now) found.1)) }
    {
        let Some(offset) = self.next_match(stop) else {
            return Ok(None);
        };
        let place = self.document.place_behind(self.at, stop, new, offset)?;
        Ok(Some((offset - stop + self.at + new.len(), place)))
    }

    /// Puts other bytes in place of those from the match to `stop`, in which there are `count` matches. Returns whether there was
    /// room.
    fn exchange(&mut self, stop: usize, new: &str, count: usize) -> Result<bool, OutOfMemory>
        requires range { IsRange self.old.editor.content.text self.old.editor.at stop }
        requires few { self.old.editor.count + count ≤ largest_text }
        ensures room { IfOk result (λ room. room ≡ fits self.old.editor.content.text self.old.editor.at stop new.now) }
        ensures ok { IfOk result (λ room. self.new ≡ record self.old {
          editor = if room
              then with_matches_replaced (D.data self.old.tables) self.old.editor stop new.now count
              else self.old.editor;
        }) }
        ensures err { OnErr result (self.new ≡ self.old) }
    {
        self.past.undo_groups.reserve()?;
        let n = self.document.past_len();
        let Some(place) = self
            .document
            .exchange(self.at, stop, new, self.cursor.place)?
        else {
            return Ok(false);
        };
        // One or two edits are noted as one: a second one goes on with the first one's undo group, and changes neither
        // `undo_groups` nor `stored`.
        self.past.edited(n, false);
        self.cursor.move_after_edit(place);
        self.origin = 0;
        self.count += count;
        Ok(true)
    }

    /// Replaces the match by the replacement, and goes on to the next one; if there is none, replacing ends. Without room only sets
    /// a message.
    pub(crate) fn replace_match(&mut self) -> Result<(), OutOfMemory>
        requires shown { self.old.editor.search_state ≡ SearchState.Replacing }
        ensures ok { OnOk result (self.new ≡ record self.old {
          editor = after_replacing (D.data self.old.tables) (cleared self.old.editor);
        }) }
        ensures err { OnErr result (self.new ≡ self.old) }
    {
        let stop = self.match_stop();
        if !self
            .document
            .has_room(self.at, stop, self.replacement.as_str())
        {
            self.tell(Message::TextFull);
            return Ok(());
        }
        let replacement = self.replacement.clone()?;
        let next = self.next_behind(stop, replacement.as_str())?;
        self.exchange(stop, replacement.as_str(), 1)?;
        let Some((at, place)) = next else {
            self.end_replacing();
            return Ok(());
        };
        self.at = at;
        self.cursor.place = place;
        self.cursor.search_state = SearchState::Replacing;
        self.reset_after_key();
        Ok(())
    }

    /// Replaces the match and all that follow it by the replacement, and ends replacing. Without room only sets a message.
    pub(crate) fn replace_all(&mut self) -> Result<(), OutOfMemory>
        requires shown { self.old.editor.search_state ≡ SearchState.Replacing }
        ensures ok { OnOk result (self.new ≡ record self.old {
          editor = after_replacing_all (D.data self.old.tables) (cleared self.old.editor);
        }) }
        ensures err { OnErr result (self.new ≡ self.old) }
    {
        let reading = reading_of(self.purpose);
        let query = self.shown_query();
        let replacement = self.replacement.as_str();
        let Some(swap) = self.document.swap(reading, &query, self.at, replacement)? else {
            self.tell(Message::TextFull);
            return Ok(());
        };
        self.exchange(swap.stop, swap.text.as_str(), swap.count)?;
        self.end_replacing();
        Ok(())
    }
}
