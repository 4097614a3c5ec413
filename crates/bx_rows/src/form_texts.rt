//! Fixed texts of Arabic letters in their forms, so that a form that is shown takes no memory.
ghost use Rattle.std.specs.Prelude.{◌≡◌, ◌+◌, ◌≤◌, IfSome, encode_utf8, encode_utf8_all};
ghost use Rattle.std.specs.List.{range_with_len};

/// The characters from U+FB50 to U+FBFF, among which the block Arabic Presentation Forms-A has its forms of single letters.
const FORMS_A: &str = "\u{fb50}\u{fb51}\u{fb52}\u{fb53}\u{fb54}\u{fb55}\u{fb56}\u{fb57}\
    \u{fb58}\u{fb59}\u{fb5a}\u{fb5b}\u{fb5c}\u{fb5d}\u{fb5e}\u{fb5f}\
    \u{fb60}\u{fb61}\u{fb62}\u{fb63}\u{fb64}\u{fb65}\u{fb66}\u{fb67}\
    \u{fb68}\u{fb69}\u{fb6a}\u{fb6b}\u{fb6c}\u{fb6d}\u{fb6e}\u{fb6f}\
    \u{fb70}\u{fb71}\u{fb72}\u{fb73}\u{fb74}\u{fb75}\u{fb76}\u{fb77}\
    \u{fb78}\u{fb79}\u{fb7a}\u{fb7b}\u{fb7c}\u{fb7d}\u{fb7e}\u{fb7f}\
    \u{fb80}\u{fb81}\u{fb82}\u{fb83}\u{fb84}\u{fb85}\u{fb86}\u{fb87}\
    \u{fb88}\u{fb89}\u{fb8a}\u{fb8b}\u{fb8c}\u{fb8d}\u{fb8e}\u{fb8f}\
    \u{fb90}\u{fb91}\u{fb92}\u{fb93}\u{fb94}\u{fb95}\u{fb96}\u{fb97}\
    \u{fb98}\u{fb99}\u{fb9a}\u{fb9b}\u{fb9c}\u{fb9d}\u{fb9e}\u{fb9f}\
    \u{fba0}\u{fba1}\u{fba2}\u{fba3}\u{fba4}\u{fba5}\u{fba6}\u{fba7}\
    \u{fba8}\u{fba9}\u{fbaa}\u{fbab}\u{fbac}\u{fbad}\u{fbae}\u{fbaf}\
    \u{fbb0}\u{fbb1}\u{fbb2}\u{fbb3}\u{fbb4}\u{fbb5}\u{fbb6}\u{fbb7}\
    \u{fbb8}\u{fbb9}\u{fbba}\u{fbbb}\u{fbbc}\u{fbbd}\u{fbbe}\u{fbbf}\
    \u{fbc0}\u{fbc1}\u{fbc2}\u{fbc3}\u{fbc4}\u{fbc5}\u{fbc6}\u{fbc7}\
    \u{fbc8}\u{fbc9}\u{fbca}\u{fbcb}\u{fbcc}\u{fbcd}\u{fbce}\u{fbcf}\
    \u{fbd0}\u{fbd1}\u{fbd2}\u{fbd3}\u{fbd4}\u{fbd5}\u{fbd6}\u{fbd7}\
    \u{fbd8}\u{fbd9}\u{fbda}\u{fbdb}\u{fbdc}\u{fbdd}\u{fbde}\u{fbdf}\
    \u{fbe0}\u{fbe1}\u{fbe2}\u{fbe3}\u{fbe4}\u{fbe5}\u{fbe6}\u{fbe7}\
    \u{fbe8}\u{fbe9}\u{fbea}\u{fbeb}\u{fbec}\u{fbed}\u{fbee}\u{fbef}\
    \u{fbf0}\u{fbf1}\u{fbf2}\u{fbf3}\u{fbf4}\u{fbf5}\u{fbf6}\u{fbf7}\
    \u{fbf8}\u{fbf9}\u{fbfa}\u{fbfb}\u{fbfc}\u{fbfd}\u{fbfe}\u{fbff}";

/// The characters from U+FE80 to U+FEFC, the letters and ligatures of the block Arabic Presentation Forms-B.
const FORMS_B: &str = "\u{fe80}\u{fe81}\u{fe82}\u{fe83}\u{fe84}\u{fe85}\u{fe86}\u{fe87}\
    \u{fe88}\u{fe89}\u{fe8a}\u{fe8b}\u{fe8c}\u{fe8d}\u{fe8e}\u{fe8f}\
    \u{fe90}\u{fe91}\u{fe92}\u{fe93}\u{fe94}\u{fe95}\u{fe96}\u{fe97}\
    \u{fe98}\u{fe99}\u{fe9a}\u{fe9b}\u{fe9c}\u{fe9d}\u{fe9e}\u{fe9f}\
    \u{fea0}\u{fea1}\u{fea2}\u{fea3}\u{fea4}\u{fea5}\u{fea6}\u{fea7}\
    \u{fea8}\u{fea9}\u{feaa}\u{feab}\u{feac}\u{fead}\u{feae}\u{feaf}\
    \u{feb0}\u{feb1}\u{feb2}\u{feb3}\u{feb4}\u{feb5}\u{feb6}\u{feb7}\
    \u{feb8}\u{feb9}\u{feba}\u{febb}\u{febc}\u{febd}\u{febe}\u{febf}\
    \u{fec0}\u{fec1}\u{fec2}\u{fec3}\u{fec4}\u{fec5}\u{fec6}\u{fec7}\
    \u{fec8}\u{fec9}\u{feca}\u{fecb}\u{fecc}\u{fecd}\u{fece}\u{fecf}\
    \u{fed0}\u{fed1}\u{fed2}\u{fed3}\u{fed4}\u{fed5}\u{fed6}\u{fed7}\
    \u{fed8}\u{fed9}\u{feda}\u{fedb}\u{fedc}\u{fedd}\u{fede}\u{fedf}\
    \u{fee0}\u{fee1}\u{fee2}\u{fee3}\u{fee4}\u{fee5}\u{fee6}\u{fee7}\
    \u{fee8}\u{fee9}\u{feea}\u{feeb}\u{feec}\u{feed}\u{feee}\u{feef}\
    \u{fef0}\u{fef1}\u{fef2}\u{fef3}\u{fef4}\u{fef5}\u{fef6}\u{fef7}\
    \u{fef8}\u{fef9}\u{fefa}\u{fefb}\u{fefc}";

/// The text of the character `c` in a list of the `count` characters from the code `first` on; None if it is not in the list. From
/// U+E000, behind the surrogates, to U+FFFF each has three bytes.
fn text_in<'a>(texts: &'a str, first: u32, count: u32, c: char) -> Option<&'a str>
    requires texts { texts.now ≡ encode_utf8_all (range_with_len first count) }
    requires low { 0xE000 ≤ first }
    requires high { first + count ≤ 0x10000 }
    ensures { IfSome result (λ t. t.now ≡ encode_utf8 c) }
{
    let number = (c as u32).checked_sub(first)?;
    if number >= count {
        return None;
    }
    let at = number as usize * 3;
    Some(&texts[at..at + 3])
}

/// The fixed text of a character of `FORMS_A`, which has 176, or of `FORMS_B`, which has 125; None for any other.
pub(crate) fn form_text<'a>(c: char) -> Option<&'a str>
    ensures { IfSome result (λ t. t.now ≡ encode_utf8 c) }
{
    if c < '\u{fe80}' {
        text_in(FORMS_A, 0xfb50, 176, c)
    } else {
        text_in(FORMS_B, 0xfe80, 125, c)
    }
}
