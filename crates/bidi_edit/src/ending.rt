//! How a run ended, in a word for the host.

ghost use Rattle.std.specs.Prelude.{◌≡◌};
ghost use Rattle.bidi_edit.specs.Ending.{end_of, end_of_fault, word_of};

use crate::edit::Changes;
use crate::fault::ProgramFault;
use bx_session::RunFault;

/// How a run ended.
#[derive(Clone, Copy)]
pub enum Ending {
    /// Nothing is unsaved.
    Saved,
    /// The input ended with unsaved changes.
    Unsaved,
    /// The user dropped the changes.
    Dropped,
    /// The input failed.
    Input,
    /// The output failed.
    Output,
    /// The limit of reads was reached.
    Reads,
}

impl Ending {
    /// The word for the host.
    pub fn word(self) -> &'static str
        ensures { result.now ≡ word_of self }
    {
        match self {
            Ending::Saved => "saved",
            Ending::Unsaved => "unsaved",
            Ending::Dropped => "dropped",
            Ending::Input => "input",
            Ending::Output => "output",
            Ending::Reads => "reads",
        }
    }
}

/// How a run ended by a fault; None if the fault came before it.
pub fn end_of_fault(fault: &ProgramFault<'_>) -> Option<Ending>
    ensures { result ≡ end_of_fault fault.now }
{
    match fault {
        ProgramFault::Unsaved => Some(Ending::Unsaved),
        ProgramFault::Run(RunFault::ReadFault) => Some(Ending::Input),
        ProgramFault::Run(RunFault::WriteFault) => Some(Ending::Output),
        ProgramFault::Run(RunFault::ReadLimit) => Some(Ending::Reads),
        _ => None,
    }
}

/// How a run ended; None if a fault came before it.
pub fn end_of(changes: &Result<Changes, ProgramFault<'_>>) -> Option<Ending>
    ensures { result ≡ end_of changes.now }
{
    match changes {
        Ok(Changes::Saved) => Some(Ending::Saved),
        Ok(Changes::Dropped) => Some(Ending::Dropped),
        Err(fault) => end_of_fault(fault),
    }
}
