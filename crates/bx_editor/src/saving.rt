//! Saving: where a key stores the text, and what a save leaves.
ghost use Rattle.std.specs.Prelude.{◌≡◌, ◌&&◌, false, not, None, Some, length, option_map};
ghost use Rattle.bx_editor.specs.Editor.{cleared};
ghost use Rattle.bx_editor.specs.InputLines.{takes_line};
ghost use Rattle.bx_editor.specs.Keys.{ends_name, is_save, is_typed, overwrites, saving_of};
ghost use Rattle.bx_editor.specs.Saving.{after_naming, after_save, after_saving, asking_over, can_save, confirms};
ghost use Rattle.bx_editor.specs.Saving.{is_name, is_nameless, own_saving, saving_over, saving_under, takes_name, with_answered_name};
ghost use Rattle.bx_editor.specs.SavingStates.{saving_state};

use crate::answer::{Answer, answer_of};
use crate::editor::Editor;
use crate::message::Message;
use crate::putting::is_paste;
use crate::questions::Prompt;
use crate::undo_groups::Typing;
use bx_keys::Key;
use bx_store::{SaveCause, StoreFault};
use bx_ucd::BidiData;
use std::mem;

/// Where a text is stored.
#[derive(Clone, Copy)]
pub enum Saving<'a> {
    /// Where saves go: FILE, or the name under which a save succeeded last.
    Own,
    /// Under a name that no file may have yet.
    Under(&'a str),
    /// Where saves go, over what another program wrote there since.
    Over,
}

/// Whether a letter confirms overwriting: y, or a letter on its key in the layouts il and ara of xkeyboard-config.
pub(crate) fn confirms(c: char) -> bool
    ensures { result ≡ confirms c }
{
    matches!(c, 'y' | '\u{5D8}' | '\u{63A}')
}

/// Whether what is typed is no part of a paste.
fn is_typed(typing: Typing) -> bool
    ensures { result ≡ is_typed typing }
{
    !matches!(typing, Typing::Paste | Typing::Spent)
}

/// Whether the key is Save.
fn is_save(key: Key) -> bool
    ensures { result ≡ is_save key }
{
    matches!(key, Key::Save)
}

impl<D: BidiData + Drop> Editor<D> {
    /// Whether the text has no name yet.
    fn is_nameless(&self) -> bool
        ensures { result ≡ is_nameless self.now.editor }
    {
        match &self.name {
            Some(name) => name.is_empty(),
            None => false,
        }
    }

    /// Whether the text can be stored: it is not only looked at, and it has a name if its session has one.
    fn can_save(&self) -> bool
        ensures { result ≡ can_save self.now.editor }
    {
        !self.read_only && !self.is_nameless()
    }

    /// Where Save stores the text: a name that is its answer to a question may be another file's.
    fn own_saving(&self) -> Saving<'_>
        ensures { saving_state result ≡ own_saving self.now.editor self.now.editor.name }
    {
        match &self.name {
            Some(name) if !self.home => Saving::Under(name.as_str()),
            _ => Saving::Own,
        }
    }

    /// Where the answer that overwrites stores the text.
    fn saving_over(&self) -> Saving<'_>
        ensures { saving_state result ≡ saving_over self.now.editor }
    {
        if self.home {
            return Saving::Over;
        }
        self.own_saving()
    }

    /// Whether the answer is the session's name, and saves go to it.
    fn answers_own_name(&self) -> bool
        ensures { result ≡ self.now.editor.home && is_name self.now.editor.name self.now.editor.answer && not self.now.editor.read_only }
    {
        match &self.name {
            Some(name) => self.home && name.as_str() == self.answer.as_str() && !self.read_only,
            None => false,
        }
    }

    /// Where the text is stored under the answer: its own name means where saves go.
    fn saving_under(&self) -> Saving<'_>
        ensures { saving_state result ≡ saving_under self.now.editor self.now.editor.answer }
    {
        if self.answers_own_name() {
            return Saving::Own;
        }
        Saving::Under(self.answer.as_str())
    }

    /// Whether the answer that saves under a name is complete.
    fn ends_name(&self, c: char) -> bool
        ensures { result ≡ ends_name self.now.editor c }
    {
        c == '\n' && is_typed(self.typing) && !self.answer.is_empty()
    }

    /// Whether a letter confirms overwriting, and the text can be stored.
    fn overwrites(&self, c: char) -> bool
        ensures { result ≡ overwrites self.now.editor c }
    {
        confirms(c) && !is_paste(self.typing) && self.can_save()
    }

    /// Where a key stores the text, if it does: the caller stores it before it applies the key, and before that ends a paste, which only
    /// a Save finds under way. Allocates nothing.
    pub fn saving_of(&self, key: Key) -> Option<Saving<'_>>
        ensures { option_map saving_state result ≡ saving_of self.now.editor key }
    {
        if self.is_pasting() && !is_save(key) {
            return None;
        }
        match (self.prompt, answer_of(key)) {
            (Prompt::File, Answer::Letter(c)) if self.ends_name(c) => Some(self.saving_under()),
            (Prompt::File, Answer::Letter(_)) => None,
            (Prompt::Overwrite, Answer::Letter(c)) if self.overwrites(c) => Some(
                self.saving_over(),
            ),
            (Prompt::Overwrite, _) => None,
            _ if is_save(key) && self.can_save() => Some(self.own_saving()),
            _ => None,
        }
    }

    /// Notes that the text was stored: undoing to it counts as no change, and later saves go where this one went.
    fn note_stored(&mut self)
        ensures { self.new ≡ record self.old { editor = after_save (cleared self.old.editor) None } }
    {
        self.past.stored = Some(self.document.past_len());
        self.past.changed = false;
        self.home = true;
        self.tell(Message::Saved);
    }

    /// Notes that a save failed, and asks whether to overwrite a file that another program changed.
    fn note_fault(&mut self, fault: StoreFault)
        ensures { self.new ≡ record self.old { editor = after_save (cleared self.old.editor) (Some fault) } }
    {
        if let Some(SaveCause::Changed) = fault.cause {
            self.prompt = Prompt::Overwrite;
        }
        self.tell(Message::SaveFailed(fault.cause));
    }

    /// Notes the end of a save: what is saved, or why it failed.
    fn note_end(&mut self, fault: Option<StoreFault>)
        ensures { self.new ≡ record self.old { editor = after_save (cleared self.old.editor) fault } }
    {
        match fault {
            None => self.note_stored(),
            Some(fault) => self.note_fault(fault),
        }
    }

    /// Notes the end of a Save; a text without a name is asked for one. Allocates nothing.
    pub(crate) fn note_save(&mut self, fault: Option<StoreFault>)
        ensures { self.new ≡ record self.old { editor = after_saving fault (cleared self.old.editor) } }
    {
        if self.is_nameless() {
            self.begin_question(Prompt::File);
            return;
        }
        self.note_end(fault);
    }

    /// Whether the answer becomes the name: in a session that has one, where the save succeeded, or where saves go to no file yet.
    fn takes_name(&self, fault: Option<StoreFault>) -> bool
        ensures { result ≡ takes_name self.now.editor fault }
    {
        self.name.is_some() && (!self.home || fault.is_none())
    }

    /// Makes the answer the name.
    pub(crate) fn take_name(&mut self)
        requires asked { takes_line self.old.editor.prompt ≡ false }
        ensures { self.new ≡ record self.old { editor = with_answered_name self.old.editor } }
    {
        let empty = String::new(*self.answer.allocator());
        self.name = Some(mem::replace(&mut self.answer, empty));
        self.drawn_name = None;
    }

    /// Notes the end of a save under the answer; an empty answer saved nothing. Allocates nothing.
    pub(crate) fn name_answered(&mut self, fault: Option<StoreFault>)
        requires asked { takes_line self.old.editor.prompt ≡ false }
        ensures { self.new ≡ record self.old { editor = after_naming fault (cleared self.old.editor) } }
    {
        if self.answer.is_empty() {
            self.reset_after_key();
            return;
        }
        if self.takes_name(fault) {
            self.take_name();
        } else {
            self.answer.clear();
        }
        self.note_end(fault);
    }

    /// Tells that another program changed the file, and asks whether to overwrite it. Allocates nothing.
    pub(crate) fn ask_overwrite(&mut self)
        ensures { self.new ≡ record self.old { editor = asking_over (cleared self.old.editor) } }
    {
        self.tell(Message::SaveFailed(Some(SaveCause::Changed)));
        self.prompt = Prompt::Overwrite;
    }
}
