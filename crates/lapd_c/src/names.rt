//! The names of codes and kinds, and text in a buffer of C.

ghost use Rattle.std.specs.Prelude.{◌≡◌, set};
ghost use Rattle.lapd_c.specs.Calls.{ReturnsText};
ghost use Rattle.lapd_c.specs.Names.{code_name, kind_name};

use crate::codes::{DONE, OUT_OF_RANGE};
use crate::held_side::overwrite;

/// The name of a code in c/lapd.h; empty if no code has this number.
pub(crate) fn code_name(code: u32) -> &'static str
    ensures { result.now ≡ code_name code }
{
    match code {
        0 => "LAPD_DONE",
        1 => "LAPD_NO_SIDE",
        2 => "LAPD_PENDING",
        3 => "LAPD_OUT_OF_RANGE",
        4 => "LAPD_CHECK_RUNS",
        5 => "LAPD_NOT_COUNTING",
        11 => "LAPD_NO_LINK",
        13 => "LAPD_NO_MEMORY",
        21 => "LAPD_NOT_ESTABLISHED",
        22 => "LAPD_QUEUE_FULL",
        23 => "LAPD_TOO_LONG",
        24 => "LAPD_RELEASING",
        25 => "LAPD_LAYER_3_ESTABLISHING",
        _ => "",
    }
}

/// The name of a kind in c/lapd.h; empty if no kind has this number.
pub(crate) fn kind_name(kind: u8) -> &'static str
    ensures { result.now ≡ kind_name kind }
{
    match kind {
        0 => "LAPD_NOTHING",
        1 => "LAPD_DATA_IND",
        2 => "LAPD_UNIT_DATA_IND",
        3 => "LAPD_ESTABLISH_IND",
        4 => "LAPD_ESTABLISH_CONF",
        5 => "LAPD_RELEASE_IND",
        6 => "LAPD_RELEASE_CONF",
        7 => "LAPD_ACKNOWLEDGED",
        8 => "LAPD_DROPPED",
        9 => "LAPD_MDL_ERROR",
        16 => "LAPD_TEI_GOT",
        17 => "LAPD_TEI_GONE",
        18 => "LAPD_TEI_FAILED",
        19 => "LAPD_TEI_GIVEN",
        20 => "LAPD_TEI_FREE",
        21 => "LAPD_TEI_IN_USE",
        22 => "LAPD_TEI_DOUBLED",
        32 => "LAPD_FRAME",
        _ => "",
    }
}

/// Writes a text to the beginning of a buffer, with a 0 behind it if there is room. `count` is the
/// length of the text. If the buffer is too small for the text, nothing is written to it.
pub(crate) fn write_text(text: &[u8], buffer: &mut [u8], count: &mut usize) -> u32
    ensures { ReturnsText text.now result count.new
        (record { before = buffer.old; after = buffer.new }) }
{
    *count = text.len();
    if buffer.len() < text.len() {
        return OUT_OF_RANGE;
    }
    overwrite(buffer, text);
    end_at(buffer, text.len());
    DONE
}

/// Sets the octet at this place to 0, if the buffer has one there.
fn end_at(buffer: &mut [u8], place: usize)
    ensures { buffer.new ≡ set buffer.old place 0 }
{
    if place < buffer.len() {
        buffer[place] = 0;
    }
}
