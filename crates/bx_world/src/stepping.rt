//! One step of a world, which is a session, the line to its terminal, the window and the terminal. A step is a byte of input, a size that
//! the window gets or the session is told, a send to the line, or a read from it.

ghost use Rattle.std.specs.Prelude.{◌≡◌, ◌≢◌, ◌≤◌, ◌++◌, ◌==◌, ◌&&◌, [], true, false, Option, IsSome, OnErr, OnOk, drop, length, option_map, take};
ghost use Rattle.bx_grid.specs.Terminal.{reads};
ghost use Rattle.bx_session.specs.Session.{StoreAfter, counted_key, is_save_press, store_state, text_to_save};
ghost use Rattle.bx_store.specs.declared.store.StoreFault.{StoreFault};
ghost use Rattle.bx_world.specs.World.{AfterByteStep, AfterReadStep, AfterSendStep, AfterToldStep, AfterWindowStep, StepsTo, is_applied, press_of, told_after};
ghost use Rattle.bx_world.specs.Answers as answers;
ghost use Rattle.bx_world.specs.Showing.{StaysWhole, WillShow};

use crate::step::{Step, StepFault};
use crate::world::World;
use bx_grid::GridError;
use bx_keys::Key;
use bx_session::{Refused, Session};
use bx_store::Store;
use bx_terminal::Screen;
use bx_ucd::BidiData;

/// Whether a window of `height` rows and `width` columns has the size `rows` and `columns`.
fn is_window(height: u16, width: u16, rows: u16, columns: u16) -> bool
    ensures { result ≡ (height == rows) && (width == columns) }
{
    height == rows && width == columns
}

/// Whether the session was told the window's last size, `height` rows and `width` columns, after a press; `told`: before it.
fn is_told_after<D: BidiData + Drop>(
    session: &Session<D>,
    height: u16,
    width: u16,
    told: bool,
    key: Option<Key>,
) -> bool
    ensures { result ≡ told_after height width told (counted_key session.now.session key) }
{
    match key {
        Some(Key::Size(rows, columns)) if !session.ended() => {
            is_window(height, width, rows, columns)
        }
        _ => told,
    }
}

/// Sets the flag `told` to `after` if a call was accepted, or ran out of memory only while painting.
fn mark_after<A>(told: &mut bool, after: bool, answer: &Result<A, Refused>)
    ensures { told.new ≡ answers.mark_after told.old after answer.now }
{
    match answer {
        Ok(_) | Err(Refused::Paint) => *told = after,
        Err(Refused::Edit | Refused::Size) => {}
    }
}

/// The answer of a step, from the session's answer to its call.
fn answer_of<A: Drop>(answer: Result<A, Refused>) -> Result<(), StepFault>
    ensures { result ≡ answers.answer_of answer }
{
    match answer {
        Ok(_) => Ok(()),
        Err(fault) => Err(StepFault::Session(fault)),
    }
}

/// The first `count` bytes, or all.
fn first_bytes(bytes: &[u8], count: usize) -> &[u8]
    ensures { result.now ≡ take count bytes.now }
{
    if count < bytes.len() {
        &bytes[..count]
    } else {
        bytes
    }
}

/// Appends bytes to a line.
///
/// Errors: `Line` if there is no memory; the line is unchanged.
fn append(line: &mut Vec<u8>, bytes: &[u8]) -> Result<(), StepFault>
    ensures ok { OnOk result (line.new.items ≡ line.old.items ++ bytes.now) }
    ensures err { OnErr result (line.new.items ≡ line.old.items) }
    ensures fault { OnErr result (result ≡ Err StepFault.Line) }
{
    match line.extend_from_slice(bytes) {
        Ok(()) => Ok(()),
        Err(_) => Err(StepFault::Line),
    }
}

/// Removes the first `count` bytes of a line.
fn take_off(line: &mut Vec<u8>, count: usize)
    requires { count ≤ length line.old.items }
    ensures { line.new.items ≡ drop count line.old.items }
{
    line.drain(..count);
}

/// A terminal reads the first `count` bytes of a line, or all.
///
/// Errors: `Screen` if memory runs out, or ran out at an earlier call, and there is a byte to read. The bytes are off the
/// line.
fn read_some(screen: &mut Screen, line: &mut Vec<u8>, count: usize) -> Result<(), StepFault>
    ensures line { line.new.items ≡ drop count line.old.items }
    ensures ok { OnOk result (screen.new ≡ option_map (λ t. reads t (take count line.old.items)) screen.old) }
    ensures live { OnOk result (take count line.old.items ≢ [] → IsSome screen.old) }
    ensures err { OnErr result (screen.new ≡ None) }
    ensures some { OnErr result (take count line.old.items ≢ []) }
    ensures fault { OnErr result (result ≡ Err (StepFault.Screen GridError.OutOfMemory)) }
{
    let part = first_bytes(line, count);
    if part.is_empty() {
        return Ok(());
    }
    let answer = screen.read(part);
    let taken = part.len();
    take_off(line, taken);
    match answer {
        Ok(()) => Ok(()),
        Err(_) => Err(StepFault::Screen(GridError::OutOfMemory)),
    }
}

impl<D: BidiData + Drop> World<D> {
    /// Decodes a byte of input, and the session takes its press.
    fn type_byte<S: Store>(&mut self, byte: u8, store: &mut S) -> Result<(), StepFault>
        ensures step { (fault : Option StoreFault)
            × StoreAfter (is_applied result && is_save_press self.old.world.session (press_of self.old.world byte)) fault
            (text_to_save (D.data self.old.tables) self.old.world.session.editor)
            (store_state S.contents S.faults store.old) (store_state S.contents S.faults store.new)
            × AfterByteStep (D.data self.old.tables) fault self.old.world byte result self.new.world }
        ensures tables { self.new.tables ≡ self.old.tables }
    {
        let key = self.decoder.feed(byte);
        let told = is_told_after(&self.session, self.height, self.width, self.told, key);
        let answer = self.session.press(key, store);
        mark_after(&mut self.told, told, &answer);
        answer_of(answer)
    }

    /// Tells the session a size.
    fn tell(&mut self, height: u16, width: u16) -> Result<(), StepFault>
        ensures step { AfterToldStep (D.data self.old.tables) self.old.world height width result self.new.world }
        ensures tables { self.new.tables ≡ self.old.tables }
    {
        let told = is_window(self.height, self.width, height, width);
        let answer = self.session.set_window_size(height, width);
        mark_after(&mut self.told, told, &answer);
        answer_of(answer)
    }

    /// Resizes the window.
    fn resize(&mut self, height: u16, width: u16) -> Result<(), StepFault>
        ensures step { AfterWindowStep self.old.world height width result self.new.world }
        ensures tables { self.new.tables ≡ self.old.tables }
    {
        match self.screen.window(height, width) {
            Ok(()) => {
                self.height = height;
                self.width = width;
                self.told = false;
                Ok(())
            }
            Err(fault) => Err(StepFault::Screen(fault)),
        }
    }

    /// Moves pending bytes from the session to the line.
    fn send(&mut self, count: usize) -> Result<(), StepFault>
        ensures step { AfterSendStep self.old.world count result self.new.world }
        ensures tables { self.new.tables ≡ self.old.tables }
    {
        let part = first_bytes(self.session.pending(), count);
        let sent = part.len();
        append(&mut self.line, part)?;
        self.session.taken(sent);
        Ok(())
    }

    /// Lets the terminal read from the line.
    fn read(&mut self, count: usize) -> Result<(), StepFault>
        ensures step { AfterReadStep self.old.world count result self.new.world }
        ensures tables { self.new.tables ≡ self.old.tables }
    {
        read_some(&mut self.screen, &mut self.line, count)
    }
    /// Makes the call of a step, and returns its answer.
    fn answer<S: Store>(&mut self, step: Step, store: &mut S) -> Result<(), StepFault>
        ensures steps { StepsTo (D.data self.old.tables) self.old.world (store_state S.contents S.faults store.old) step result
            self.new.world (store_state S.contents S.faults store.new) }
        ensures tables { self.new.tables ≡ self.old.tables }
    {
        match step {
            Step::Byte(byte) => self.type_byte(byte, store),
            Step::Window(height, width) => self.resize(height, width),
            Step::Told(height, width) => self.tell(height, width),
            Step::Send(count) => self.send(count),
            Step::Read(count) => self.read(count),
        }
    }

    /// Takes a step. It is valid after refused steps too. A count beyond the available bytes takes all of them.
    ///
    /// Errors: `Session` if the session refuses a byte or a told size; `Screen` if a side of the window is not from 1 to
    /// 500, or memory ran out in the terminal, now or earlier; `Line` if there is no memory for the line, and no byte was
    /// moved.
    pub fn step<S: Store>(&mut self, step: Step, store: &mut S) -> Result<(), StepFault>
        ensures steps { StepsTo (D.data self.old.tables) self.old.world (store_state S.contents S.faults store.old) step result
            self.new.world (store_state S.contents S.faults store.new) }
        ensures tables { self.new.tables ≡ self.old.tables }
        ensures shows { WillShow (D.data self.new.tables) self.new.world }
        ensures whole { StaysWhole self.new.world }
    {
        let answer = self.answer(step, store);
        self.keep_up();
        answer
    }
}
