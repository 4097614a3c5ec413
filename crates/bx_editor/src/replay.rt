//! What a replay does in place of keys of a journal that save or quit, and its end. Each of the calls wants a paste to be ended
//! before ([`Editor::end_paste`]).
ghost use Rattle.std.specs.Prelude.{◌≡◌, None};
ghost use Rattle.bx_editor.specs.Replay.{after_passed_answer, after_passed_quit, after_passed_save, at_replay_end};

use crate::editor::Editor;
use crate::questions::Prompt;
use crate::search_state::SearchState;
use crate::selecting::aged;
use crate::undo_groups::Typing;
use bx_ucd::BidiData;

impl<D: BidiData + Drop> Editor<D> {
    /// Passes over a Quit of a journal, outside a search and a question: it ends what any key ends. Allocates nothing.
    pub fn pass_quit(&mut self)
        requires no_paste { self.old.editor.pasted ≡ None }
        ensures { self.new ≡ record self.old { editor = after_passed_quit self.old.editor } }
    {
        self.typing = Typing::Off;
        self.cursor.soft = aged(self.cursor.soft);
        self.goal = None;
        self.cursor.clicks = None;
        self.cursor.pressed = None;
    }

    /// Passes over a Save of a journal: it ends a search, a question and what any key ends. No undo counts as leading to the stored
    /// text, since a journal does not tell whether the save succeeded. Allocates nothing.
    pub fn pass_save(&mut self)
        requires no_paste { self.old.editor.pasted ≡ None }
        ensures { self.new ≡ record self.old { editor = after_passed_save self.old.editor } }
    {
        self.pass_quit();
        self.cursor.search_state = SearchState::Off;
        self.prompt = Prompt::Off;
        self.past.stored = None;
    }

    /// Passes over an answer of a journal that saved under a name: it ends the question and what any key ends, and becomes the name where
    /// saves go to no file yet. Allocates nothing.
    pub fn pass_answer(&mut self)
        requires no_paste { self.old.editor.pasted ≡ None }
        ensures { self.new ≡ record self.old { editor = after_passed_answer self.old.editor } }
    {
        self.leave_question();
        if self.name.is_some() && !self.home {
            self.take_name();
        } else {
            self.answer.clear();
        }
        self.pass_save();
    }

    /// Ends a replay: no search is on, nothing is asked, the next edit begins an undo group, and the text is the stored one unless
    /// it counts as changed. Allocates nothing.
    pub fn end_replay(&mut self)
        requires no_paste { self.old.editor.pasted ≡ None }
        ensures { self.new ≡ record self.old { editor = at_replay_end self.old.editor } }
    {
        self.cursor.search_state = SearchState::Off;
        self.prompt = Prompt::Off;
        self.typing = Typing::Off;
        self.past.stored = if self.past.changed {
            None
        } else {
            Some(self.document.past_len())
        };
    }
}
