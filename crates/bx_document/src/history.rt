//! Undo and redo: text and index change first, then the view follows in the paragraph that it has cached.
ghost use Rattle.std.specs.Prelude.{◌≡◌, IfOk, IfSome, OnErr, OnOk, length, option_map};
ghost use Rattle.bx_text.specs.Changes.{IsChange};
ghost use Rattle.bx_view.specs.Caching.{IsViewBy, Keeps};
ghost use Rattle.bx_view.specs.Places.{IsTextPlace};
ghost use Rattle.bx_document.specs.History.{next_changes, stepped_times};
ghost use Rattle.bx_document.specs.Past.{next_change, stepped};

use crate::document::Document;
use bx_common::OutOfMemory;
use bx_text::{Change, Text, TextError};
use bx_ucd::BidiData;
use bx_view::{CachedRange, TextRef, View};

/// A step in the history of a text's edits.
#[derive(Clone, Copy)]
pub enum HistoryStep {
    /// Undoes the latest edit.
    Undo,
    /// Redoes the edit that was undone last.
    Redo,
}

/// The one change that `n` steps make; None if `n` is 0 or there is nothing to undo or redo. Allocates nothing.
pub(crate) fn next_changes(text: &Text, step: HistoryStep, n: usize) -> Option<Change>
    ensures { result ≡ next_changes step n text.now.edited }
{
    match step {
        HistoryStep::Undo => text.next_undos(n),
        HistoryStep::Redo => text.next_redos(n),
    }
}

/// Undoes or redoes `n` edits of a text, or all if there are fewer, and returns the one change that this makes; None if no edit
/// is undone or redone.
///
/// Errors: `OutOfMemory`, and nothing has changed.
pub(crate) fn step_in(
    text: &mut Text,
    step: HistoryStep,
    n: usize,
) -> Result<Option<Change>, TextError>
    ensures ok { OnOk result (text.new.edited ≡ stepped_times step n text.old.edited) }
    ensures change { IfOk result (λ c. c ≡ next_changes step n text.old.edited) }
    ensures is_change { IfOk result (λ change. IfSome change (λ c. IsChange text.old.edited.text c text.new.edited.text)) }
    ensures err { OnErr result (text.new ≡ text.old) }
{
    match step {
        HistoryStep::Undo => text.undo_times(n),
        HistoryStep::Redo => text.redo_times(n),
    }
}

/// The range of a pending change within its cached paragraph; None if the paragraph is not cached or the change exceeds
/// it. Allocates nothing.
fn cached_change<D: BidiData>(
    view: &mut View,
    text_ref: &TextRef<'_, D>,
    change: &Change,
) -> Option<CachedRange>
    ensures { view.new ≡ view.old }
{
    let stop = change.start.saturating_add(change.removed);
    view.cached_range(text_ref, change.start, stop)
}

/// Applies a change of the text, once it is made, to the cached paragraph that it lies in: `cached` is its range there before the
/// change, None if there is none. Running out of memory does no harm: the stale paragraph no longer matches the text, so it is
/// laid out again.
fn follow_in_layout<D: BidiData>(
    view: &mut View,
    cached: Option<CachedRange>,
    text_ref: &TextRef<'_, D>,
    change: &Change,
)
    requires data { IsViewBy (D.data text_ref.now.tables.now) view.old }
    ensures keeps { Keeps (D.data text_ref.now.tables.now) view.old view.new }
{
    let Some(range) = cached else {
        return;
    };
    let stop = change.start.saturating_add(change.added);
    let Ok(new) = text_ref.text.copy_range(change.start, stop) else {
        return;
    };
    let _followed = view.follow_edit(range, new.as_str(), text_ref.tables);
}

impl<D: BidiData + Drop> Document<D> {
    /// Undoes or redoes an edit, and returns the cursor's place: the one recorded before the edit that is undone, or after the
    /// edit that is redone. None if there is nothing to undo or redo.
    ///
    /// Errors: `OutOfMemory`, and nothing has changed.
    pub fn step(&mut self, step: HistoryStep) -> Result<Option<usize>, OutOfMemory>
        ensures ok { OnOk result (self.new ≡ record self.old { document = record self.old.document { content = stepped step self.old.document.content } }) }
        ensures place { IfOk result (λ o. o ≡ option_map (λ c. c.place) (next_change step self.old.document.content)) }
        ensures text_place { IfOk result (λ place. IfSome place (IsTextPlace (D.data self.new.tables) self.new.document.content.text)) }
        ensures err { OnErr result (self.new ≡ self.old) }
    {
        self.step_times(step, 1)
    }

    /// Undoes or redoes `n` edits at once, or all if there are fewer, and returns the cursor's place after the last. None if
    /// `n` is 0 or there is nothing to undo or redo.
    ///
    /// Errors: `OutOfMemory`, and nothing has changed.
    pub fn step_times(&mut self, step: HistoryStep, n: usize) -> Result<Option<usize>, OutOfMemory>
        ensures ok { OnOk result (self.new ≡ record self.old { document = record self.old.document { content = stepped_times step n self.old.document.content } }) }
        ensures place { IfOk result (λ o. o ≡ option_map (λ c. c.place) (next_changes step n self.old.document.content)) }
        ensures text_place { IfOk result (λ place. IfSome place (IsTextPlace (D.data self.new.tables) self.new.document.content.text)) }
        ensures err { OnErr result (self.new ≡ self.old) }
    {
        let Some(next) = self.indexed.next_changes(step, n) else {
            return Ok(None);
        };
        let cached = cached_change(&mut self.view, &self.indexed.text_ref(), &next);
        self.indexed.step(step, n, &next)?;
        follow_in_layout(&mut self.view, cached, &self.indexed.text_ref(), &next);
        Ok(Some(next.place))
    }

    /// The number of edits that can be undone. Allocates nothing.
    pub fn past_len(&self) -> usize
        ensures { result ≡ length self.now.document.content.past }
    {
        self.indexed.past_len()
    }

    /// The number of edits that can be redone. Allocates nothing.
    pub fn future_len(&self) -> usize
        ensures { result ≡ length self.now.document.content.future }
    {
        self.indexed.future_len()
    }
}
