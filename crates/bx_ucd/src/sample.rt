//! Small samples of the files of classes, brackets and mirrors, for tests and measurements: letters of three scripts, digits,
//! round and square brackets, and the formatting characters.
ghost use Rattle.std.specs.Prelude.{◌≡◌, ℕ, IfOk, IfErr};
ghost use Rattle.bx_ucd.specs.Lines.{no_memory_in};
ghost use Rattle.bx_ucd.specs.Reading.{class_in_file, bracket_in_file, mirror_in_file};
ghost use Rattle.bx_ucd.specs.declared.sample.TheConstants.{CLASSES, BRACKETS, MIRRORING};

use crate::data::BidiData;
use crate::error::UcdError;
use crate::tables::Tables;
use std::alloc::Global;

/// A sample of DerivedBidiClass.txt.
pub const CLASSES: &str = "\
# @missing: 0000..10FFFF; Left_To_Right\n\
# @missing: 0590..05FF; Right_To_Left\n\
0000..0008 ; BN\n\
0009 ; S\n\
000A ; B\n\
000D ; B\n\
0020 ; WS\n\
0021 ; ON\n\
0023..0025 ; ET\n\
0028..0029 ; ON\n\
002B ; ES\n\
002C ; CS\n\
0030..0039 ; EN\n\
005B ; ON\n\
005D ; ON\n\
0300..036F ; NSM\n\
05D0..05EA ; R\n\
0620..064A ; AL\n\
0660..0669 ; AN\n\
202A ; LRE\n\
202B ; RLE\n\
202C ; PDF\n\
202D ; LRO\n\
202E ; RLO\n\
2029 ; B\n\
2066 ; LRI\n\
2067 ; RLI\n\
2068 ; FSI\n\
2069 ; PDI\n";

/// A sample of BidiBrackets.txt.
pub const BRACKETS: &str = "\
0028; 0029; o\n\
0029; 0028; c\n\
005B; 005D; o\n\
005D; 005B; c\n";

/// A sample of BidiMirroring.txt.
pub const MIRRORING: &str = "\
0028; 0029\n\
0029; 0028\n\
005B; 005D\n\
005D; 005B\n";

/// The tables of the sample files. No line of them is refused: an error means a failed allocation.
pub fn sample_tables(alloc: Global) -> Result<Tables, UcdError>
    ensures classes { IfOk result (λ t. (code : ℕ) → (⟦<Tables as BidiData>⟧.data t).class code ≡ class_in_file CLASSES.now code) }
    ensures brackets { IfOk result (λ t. (code : ℕ) → (⟦<Tables as BidiData>⟧.data t).bracket code ≡ bracket_in_file BRACKETS.now code) }
    ensures mirrors { IfOk result (λ t. (code : ℕ) → (⟦<Tables as BidiData>⟧.data t).mirror code ≡ mirror_in_file MIRRORING.now code) }
    ensures refused { IfErr result (λ e. e ≡ no_memory_in e.file) }
{
    // The proof compares the tables, so they have a name.
    let tables = Tables::read(
        alloc,
        CLASSES.as_bytes(),
        BRACKETS.as_bytes(),
        MIRRORING.as_bytes(),
        None,
    )?;
    Ok(tables)
}
