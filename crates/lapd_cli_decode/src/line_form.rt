//! The forms of a line with octets and their sender.

ghost use Rattle.lapd_cli_script.specs.Line.{Reads};
ghost use Rattle.lapd_cli_decode.specs.Lines.{sent_in, strict_words};

use lapd_cli_script::{LineFault, Words};
use lapd_frame::Side;

/// The form of a line with octets and their sender.
#[derive(Clone, Copy)]
pub enum LineForm {
    /// `SIDE HEX`, with one space between.
    Strict,
    /// Also lines of other programs: of libpri and of logs, such as `> [ 00 81 7f ]`, hex dumps of
    /// one line, and octets alone. In HEX spaces, tabs, carriage returns, colons and brackets are
    /// allowed, and `0x` before a part. A line without octets is skipped.
    ///
    /// If this side is present, it printed the lines: it sent the octets after `>`, received those
    /// after `<`, and sent those without a sender. Else their sender is taken from their kind and
    /// C/R bit, and after `>` and `<` also from the lines before.
    Loose(Option<Side>),
    /// The same lines, some with their time in front, as `@`, the microseconds since 1970 and a
    /// space. A line without it has the time of the line before.
    Timed(Option<Side>),
}

/// Reads a strict line: returns the sender, and puts the octets into `octets`, which it clears
/// first.
///
/// # Errors
///
/// `Bad` if the line does not have this form, `Memory` if an allocation fails.
pub(crate) fn strict_line(line: &[u8], octets: &mut Vec<u8>) -> Result<Side, LineFault>
    ensures { Reads (λ from. (from, octets.new.items)) result (sent_in line.now) }
{
    strict_words(Words::of(line), octets)
}

/// Reads the words of a strict line: returns the sender, and puts the octets into `octets`.
fn strict_words(mut words: Words<'_>, octets: &mut Vec<u8>) -> Result<Side, LineFault>
    ensures { Reads (λ from. (from, octets.new.items)) result (strict_words words.entry) }
{
    let from = match words.next_word() {
        Some(b"user") => Side::User,
        Some(b"net") => Side::Network,
        _ => return Err(LineFault::Bad),
    };
    words.octets_into(octets)?;
    Ok(from)
}
