//! Prints a text to standard output, one line for each row that UAX #9 gives.
//!
//! `bidi_print [--cols N] [--direction auto|ltr|rtl] [--marks] --classes F --brackets F --mirroring F
//! [--joining F --characters F] FILE`. With `--marks` a placeholder is printed as its letter in brackets, else not at all. Exit status
//! 0: all was written; 1: a fault, with a line on standard error; 2: the command line was refused, and standard error says why.
#![tactic(auto)]

ghost use Rattle.std.specs.Prelude.{OnOk};
ghost use Rattle.bidi_print.specs.Printing.{IsPrinted};

mod fault;
mod printing;
mod words;

use bx_command::{InputFiles, UnicodeFiles, finish, found_text, refuse, refuse_words, words_of};
use fault::ProgramFault;
use printing::print_bytes;
use std::alloc::Global;
use std::io::Write;
use std::process::ExitCode;
use words::{Options, command_line};

/// The program's name, at the start of its lines on standard error.
const NAME: &str = "bidi_print";

/// Carries out the command line.
fn program<'a, F: InputFiles, W: Write>(
    files: &F,
    alloc: Global,
    options: &Options<'a>,
    writer: &mut W,
) -> Result<(), ProgramFault<'a>>
    ensures { OnOk result (IsPrinted (F.answers files.now) options.now (W.contents writer.old) (W.contents writer.new)) }
{
    let unicode = UnicodeFiles::read(files, alloc, &options.unicode)?;
    let bytes = found_text(files, alloc, options.file)?;
    print_bytes(alloc, writer, bytes.as_slice(), &unicode, options.style)?;
    Ok(())
}

fn main(rt: HostRuntime) -> ExitCode {
    let words = match words_of(&rt) {
        Ok(words) => words,
        Err(error) => return refuse_words(&rt, NAME, error.kind()),
    };
    match command_line(rt.alloc(), words.as_slice()) {
        Ok(options) => {
            let outcome = program(&rt, rt.alloc(), &options, &mut rt.stdout());
            finish(&rt, NAME, outcome)
        }
        Err(error) => refuse(&rt, NAME, &error),
    }
}
