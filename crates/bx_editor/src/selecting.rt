//! Selections: the key that begins one or goes on with it, and what takes it off.
ghost use Rattle.std.specs.Prelude.{◌≡◌, length};
ghost use Rattle.bx_editor.specs.Editor.{cleared};
ghost use Rattle.bx_editor.specs.Pointing.{selecting_part};
ghost use Rattle.bx_editor.specs.Region.{after_select, aged, is_selection, is_soft, mark_left, soft_behind, soft_left, unselected};

use crate::cursor::Soft;
use crate::editor::Editor;
use bx_common::Range;
use bx_keys::Key;
use bx_ucd::BidiData;

/// Whether the mark is a selection's.
pub(crate) fn is_soft(soft: Soft) -> bool
    ensures { result ≡ is_soft soft }
{
    match soft {
        Soft::Off => false,
        Soft::Fresh | Soft::Old => true,
    }
}

/// The softness once another key than Select and Repaint was pressed.
pub(crate) fn aged(soft: Soft) -> Soft
    ensures { result ≡ aged soft }
{
    match soft {
        Soft::Fresh => Soft::Old,
        soft => soft,
    }
}

/// The softness that a key which the user pressed leaves.
pub(crate) fn soft_behind(key: Key, soft: Soft) -> Soft
    ensures { result ≡ soft_behind key soft }
{
    match key {
        Key::Select | Key::Repaint => soft,
        Key::ScrollBack | Key::ScrollOn => soft,
        _ => aged(soft),
    }
}

/// The mark, and its softness, once an old selection is taken off.
fn unselected(mark: Option<usize>, soft: Soft) -> (Option<usize>, Soft)
    ensures { result ≡ (mark_left soft mark, soft_left soft) }
{
    match soft {
        Soft::Old => (None, Soft::Off),
        soft => (mark, soft),
    }
}

impl<D: BidiData + Drop> Editor<D> {
    /// Begins a selection at the place, or goes on with an old one.
    pub(crate) fn select(&mut self)
        ensures { self.new ≡ record self.old { editor = after_select (cleared self.old.editor) } }
    {
        match (self.cursor.mark, self.cursor.soft) {
            (None, _) => {
                self.cursor.mark = Some(self.cursor.place);
                self.cursor.soft = Soft::Fresh;
            }
            (Some(_), Soft::Old) => self.cursor.soft = Soft::Fresh,
            (Some(_), _) => {}
        }
        self.reset_after_key();
    }

    /// Selects the whole text.
    pub(crate) fn select_all(&mut self)
        ensures { self.new ≡ record self.old { editor = selecting_part (cleared self.old.editor) 0 (length self.old.editor.content.text) } }
    {
        let end = self.document.len();
        self.select_part(0, end);
        self.reset_after_key();
    }

    /// Takes an old selection off.
    pub(crate) fn unselect(&mut self)
        ensures { self.new ≡ record self.old { editor = unselected self.old.editor } }
    {
        let (mark, soft) = unselected(self.cursor.mark, self.cursor.soft);
        self.cursor.mark = mark;
        self.cursor.soft = soft;
    }

    /// Whether there is a region that gives way to what is typed, put in or removed.
    pub(crate) fn is_selection(&self) -> bool
        ensures { result ≡ is_selection self.now.editor }
    {
        let Range { start, stop } = self.region();
        is_soft(self.cursor.soft) && start != stop
    }
}
