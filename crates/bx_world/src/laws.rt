//! Laws that bring runs into worlds, so that the screen of a run is right. The functions are empty: their contracts are the laws.

ghost use Rattle.bx_world.specs.Laws.{BeginsWithKeys, HeadlineInChangingWindows, HeadlineOfRuns, RunsArePlays, TurnsArePlays};

/// A turn of a run, its input bytes and then its writing, is a schedule of steps in any world with the run's session,
/// after any steps of the window and the terminal.
pub fn turns_are_plays()
    ensures { TurnsArePlays }
{}

/// A run of a session over a reader and a writer is the schedule of its turns, in any world with that session. So the
/// contracts of schedules apply to the program.
pub fn runs_are_plays()
    ensures { RunsArePlays }
{}

/// The headline for a session that is opened, optionally moved to an offset and restored from a journal, and then run: a
/// terminal of the session's size that has read all written bytes shows the file as edited by the accepted keys.
pub fn runs_keep_headline()
    ensures { HeadlineOfRuns }
{}

/// The headline for a run, as `runs_keep_headline` has it, in a window whose size changes meanwhile.
pub fn windows_keep_headline()
    ensures { HeadlineInChangingWindows }
{}

/// A session restored from a journal starts with the text as edited by the journal's keys. A Quit, and a key that stored the text, only
/// ends what any key ends.
pub fn runs_begin_with_keys()
    ensures { BeginsWithKeys }
{}
