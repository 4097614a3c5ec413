//! The input files of a session: Unicode's, the text, and a journal to replay.

ghost use Rattle.std.specs.Prelude.{IfErr, IfOk};
ghost use Rattle.bx_command.specs.Inputs.{AreInputs, IsFirstFault, OpensText, ReadsKeys};

use crate::parsed::Options;
use crate::shared::{FileFault, InputFiles, UnicodeFiles, bytes_of, found_text, text_of};
use std::alloc::Global;

/// The input files of a session.
#[derive(Drop)]
pub struct Files {
    /// The bytes of Unicode's files.
    pub unicode: UnicodeFiles<Vec<u8>>,
    /// The bytes of the opened text; None if FILE is opened and does not exist.
    pub text: Option<Vec<u8>>,
    /// The bytes of the replayed journal; empty if none is replayed.
    pub keys: Vec<u8>,
}

/// The bytes of the opened text. With --new there are none. A file named by --text must exist; FILE itself may be created by the
/// first save.
fn opened_text<'a, F: InputFiles>(
    files: &F,
    alloc: Global,
    options: &Options<'a>,
) -> Result<Option<Vec<u8>>, FileFault<'a>>
    ensures { OpensText (F.answers files.now) options.now result }
{
    if options.is_new {
        return Ok(None);
    }
    match options.text {
        Some(path) => Ok(Some(found_text(files, alloc, path)?)),
        None => text_of(files, alloc, options.file),
    }
}

/// The bytes of the replayed journal; empty if none is replayed.
fn replayed_keys<'a, F: InputFiles>(
    files: &F,
    alloc: Global,
    options: &Options<'a>,
) -> Result<Vec<u8>, FileFault<'a>>
    ensures { ReadsKeys (F.answers files.now) options.now result }
{
    match options.replay {
        Some(path) => bytes_of(files, alloc, path),
        None => Ok(Vec::new(alloc)),
    }
}

impl Files {
    /// Reads the files that the command line names.
    ///
    /// Errors: the fault of the first file that cannot be read.
    #[tactic(auto, using(crate::proofs::FirstFaults::text_unread))]
    pub fn read<'a, F: InputFiles>(
        files: &F,
        alloc: Global,
        options: &Options<'a>,
    ) -> Result<Files, FileFault<'a>>
        ensures read { IfOk result (AreInputs (F.answers files.now) options.now) }
        ensures refused { IfErr result (IsFirstFault (F.answers files.now) options.now) }
    {
        let unicode = UnicodeFiles::read(files, alloc, &options.unicode)?;
        let text = opened_text(files, alloc, options)?;
        let keys = replayed_keys(files, alloc, options)?;
        Ok(Files {
            unicode,
            text,
            keys,
        })
    }
}
