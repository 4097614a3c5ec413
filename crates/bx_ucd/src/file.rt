//! Reading a data file line by line, as all files of Unicode are read: each line gives an entry, none, or a refusal.

ghost use Rattle.std.specs.Prelude.{◌≡◌, ℕ, List, Option, Result, IfOk, IfErr, None};
ghost use Rattle.bx_ucd.specs.Lines.{Line, lines_by, entries, first_refusal, TellsRefusal};
ghost use Rattle.bx_ucd.specs.declared.error.Cause.{Cause};

use crate::error::{Cause, UcdError, UcdFile};
use crate::lines::split_line;
use std::alloc::Global;

/// An entry of a data file, read from one line.
pub trait Entry: Drop {
    ghost line_of: { List ℕ → Line Self };

    /// The entry of a line; `None` where the line has none.
    fn read(line: &[u8]) -> Result<Option<Self>, Cause>
        ensures { result ≡ line_of line.now };
}

/// Reads the entries of a file, in the order of its lines, up to the first refused line.
pub fn read_entries<E: Entry>(
    alloc: Global,
    file: UcdFile,
    bytes: &[u8],
) -> Result<Vec<E>, UcdError>
    ensures accepted { IfOk result (λ _. first_refusal file (lines_by E.line_of bytes.now) ≡ None) }
    ensures entries { IfOk result (λ v. v.items ≡ entries (lines_by E.line_of bytes.now)) }
    ensures refused { IfErr result (λ e. TellsRefusal file e (first_refusal file (lines_by E.line_of bytes.now))) }
{
    let mut entries = Vec::new(alloc);
    let mut rest = bytes;
    let mut number = 0;
    while !rest.is_empty() {
        let (line, after) = split_line(rest);
        rest = after;
        number += 1;
        match E::read(line) {
            Ok(None) => {}
            Ok(Some(entry)) => {
                if entries.push(entry).is_err() {
                    return Err(UcdError::out_of_memory(file));
                }
            }
            Err(cause) => {
                return Err(UcdError {
                    file,
                    line: number,
                    cause,
                });
            }
        }
    }
    Ok(entries)
}
