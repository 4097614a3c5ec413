//! Playing a whole schedule: the call with the promise that the screen is right.

ghost use Rattle.std.specs.Prelude.{◌≡◌, ◌≤◌, ℕ, List, [], Bool, IfOk, OnErr, length, not, vec_capacity};
ghost use Rattle.std.specs.List.{zip};
ghost use Rattle.bx_session.specs.Session.{store_state};
ghost use Rattle.bx_world.specs.Events.{Event};
ghost use Rattle.bx_world.specs.Headline.{HeadlineFromOpening};
ghost use Rattle.bx_world.specs.Following.{Follows};
ghost use Rattle.bx_world.specs.Reading.{PlaysReading, SeesPromised};
ghost use Rattle.bx_world.specs.Showing.{ShowsWhenRead, StaysWhole, WillShow};
ghost use Rattle.bx_world.specs.World.{PlaysTo, is_last_accepted};

use crate::step::{Step, StepFault};
use crate::world::World;
use bx_store::Store;
use bx_ucd::BidiData;

impl<D: BidiData + Drop> World<D> {
    /// Takes steps in order, and puts their answers into an empty list with room for them.
    fn play_into<S: Store>(
        &mut self,
        steps: &[Step],
        store: &mut S,
        answers: &mut Vec<Result<(), StepFault>>,
    )
        requires empty { answers.old.items ≡ [] }
        requires room { length steps.now ≤ vec_capacity answers.old }
        ensures plays { PlaysTo (D.data self.old.tables) self.old.world (store_state S.contents S.faults store.old)
            (zip steps.now answers.new.items) self.new.world (store_state S.contents S.faults store.new) }
        ensures count { length answers.new.items ≡ length steps.now }
        ensures tables { self.new.tables ≡ self.old.tables }
    {
        for step in steps {
            answers.push_reserved(self.step(*step, store));
        }
    }

    /// Takes all steps of a schedule in order, past refused ones, and returns the answers. If the last call was accepted,
    /// the session was told the window's last size and all bytes are read, the terminal shows the picture of the state: the
    /// file as edited by the accepted keys. Until the session's end, the cursor is on the cell of its place. The keys are the
    /// ones that the input grammar gives for the schedule's bytes as a whole, up to the session's end. Each successful save
    /// stored the text at that moment.
    ///
    /// Errors: `Line` if there is no memory for the answers; no step was taken.
    pub fn play<S: Store>(
        &mut self,
        steps: &[Step],
        store: &mut S,
    ) -> Result<Vec<Result<(), StepFault>>, StepFault>
        ensures plays { IfOk result (λ answers. PlaysTo (D.data self.old.tables) self.old.world
            (store_state S.contents S.faults store.old) (zip steps.now answers.items) self.new.world
            (store_state S.contents S.faults store.new)) }
        ensures count { IfOk result (λ answers. length answers.items ≡ length steps.now) }
        ensures tables { self.new.tables ≡ self.old.tables }

        // The user's input and its effects.
        ensures headline { IfOk result (λ answers. HeadlineFromOpening (D.data self.old.tables) self.old.world
            (store_state S.contents S.faults store.old) (zip steps.now answers.items) self.new.world
            (store_state S.contents S.faults store.new)) }
        ensures follows { IfOk result (λ answers. (events : List Event) × Follows (D.data self.old.tables) self.old.world
            (store_state S.contents S.faults store.old) (zip steps.now answers.items) self.new.world
            (store_state S.contents S.faults store.new) events) }

        // The picture seen, also in the middle of a schedule.
        ensures seen { IfOk result (λ answers. (read : List ℕ) × PlaysReading (D.data self.old.tables) self.old.world
            (store_state S.contents S.faults store.old) (zip steps.now answers.items) self.new.world
            (store_state S.contents S.faults store.new) read
            × SeesPromised (D.data self.old.tables) self.old.world (zip steps.now answers.items) read self.new.world) }
        ensures shows { IfOk result (λ answers. ShowsWhenRead (is_last_accepted (not self.old.world.session.painting_owed) (zip steps.now answers.items))
            (D.data self.new.tables) self.new.world) }
        ensures will_show { WillShow (D.data self.new.tables) self.new.world }
        ensures whole { StaysWhole self.new.world }

        // On an error.
        ensures untouched { OnErr result (self.new ≡ self.old) }
        ensures store { OnErr result (store.new ≡ store.old) }
        ensures fault { OnErr result (result ≡ Err StepFault.Line) }
    {
        self.keep_up();
        let alloc = *self.line.allocator();
        let Ok(mut answers) = Vec::with_capacity(alloc, steps.len()) else {
            return Err(StepFault::Line);
        };
        self.play_into(steps, store, &mut answers);
        self.keep_up();
        Ok(answers)
    }
}
