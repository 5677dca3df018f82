//! Decoding strict lines of octets, in each style.

ghost use Rattle.std.specs.Prelude.{◌≡◌, IfSome};
ghost use Rattle.lapd_cli_script.specs.Script.{EndsAs, lines_of};
ghost use Rattle.lapd_cli_decode.specs.Lines.{decode_step_skipping, line_step, traces};
ghost use Rattle.lapd_cli_decode.specs.Decoder.{decoding_of};

use crate::line_form::strict_line;
use lapd_cli_frames::Style;
use lapd_cli_script::{Command, LineFault, ScriptFault, put_line, walk};
use std::alloc::Global;
use std::io::{Read, Write};

/// The most octets of a bad line that are shown.
const MOST_SHOWN: usize = 32;

/// Reads strict lines and prints them in a style. It reuses its buffers for the octets and the text
/// of a line.
#[derive(Drop)]
struct LineDecoder {
    alloc: Global,
    style: Style,
    octets: Vec<u8>,
    text: String,
}

/// Executes a script of strict lines, and writes the trace line of each frame: [`decode_lines`]
/// without options.
///
/// # Errors
///
/// As for [`decode_lines`].
pub fn decode<R: Read, W: Write>(
    alloc: Global,
    script: &mut R,
    out: &mut W,
) -> Result<(), ScriptFault>
    ensures { IfSome (R.remaining script.old) (λ octets. EndsAs line_step traces result
        (lines_of octets) (W.contents out.old) (W.contents out.new)) }
{
    decode_lines(alloc, script, out, Style::Plain)
}

/// Executes a script of strict lines, and writes each frame in this style.
///
/// # Errors
///
/// `BadLine` at the first line that is no strict line, `Device` if a read or a write fails,
/// `Memory` if an allocation fails.
pub fn decode_lines<R: Read, W: Write>(
    alloc: Global,
    script: &mut R,
    out: &mut W,
    style: Style,
) -> Result<(), ScriptFault>
    ensures { IfSome (R.remaining script.old) (λ octets. EndsAs line_step
        (record { style = style }) result
        (lines_of octets) (W.contents out.old) (W.contents out.new)) }
{
    let mut decoder = LineDecoder::new(alloc, style);
    walk(alloc, &mut decoder, script, out)
}

/// Like [`decode_lines`], but reports each line that is no strict line on the error writer, and
/// skips it. Failures of the error writer are ignored.
///
/// # Errors
///
/// `Device` if a read or a write fails, `Memory` if an allocation fails.
pub fn decode_good_lines<R: Read, W: Write, E: Write + Drop>(
    alloc: Global,
    script: &mut R,
    out: &mut W,
    style: Style,
    errors: E,
) -> Result<(), ScriptFault>
    ensures { IfSome (R.remaining script.old) (λ octets. EndsAs decode_step_skipping
        (record { style = style }) result (lines_of octets)
        (W.contents out.old) (W.contents out.new)) }
{
    let decoder = LineDecoder::new(alloc, style);
    let mut decoder = GoodLines { decoder, errors };
    walk(alloc, &mut decoder, script, out)
}

impl LineDecoder {
    ghost use Rattle.lapd_cli_script.specs.Script.{LineEndsAs};

    /// Creates a decoder that prints each frame in this style.
    fn new(alloc: Global, style: Style) -> LineDecoder
        ensures { decoding_of result ≡ record { style = style } }
    {
        LineDecoder {
            alloc,
            style,
            octets: Vec::new(alloc),
            text: String::new(alloc),
        }
    }

    /// Prints the frame of a line.
    fn decode<W: Write>(&mut self, line: &[u8], out: &mut W) -> Result<(), LineFault>
        ensures line { LineEndsAs (λ decoder state. state ≡ decoding_of decoder)
            (line_step (decoding_of self.old) line.now) result self.new
            (W.contents out.old) (W.contents out.new) }
        ensures preserved { decoding_of self.new ≡ decoding_of self.old }
    {
        let from = strict_line(line, &mut self.octets)?;
        let octets = self.octets.as_slice();
        match self.style.write(self.alloc, from, octets, &mut self.text) {
            Ok(()) => put_line(self.text.as_bytes(), &[], out),
            Err(_) => Err(LineFault::Memory),
        }
    }
}

impl Command for LineDecoder {
    ghost use Rattle.lapd_cli_decode.specs.Lines.{Decoding};

    ghost State = { Decoding };

    ghost step = { line_step };

    ghost represents = { λ decoder state. state ≡ decoding_of decoder };

    fn run<W: Write>(&mut self, line: &[u8], out: &mut W) -> Result<(), LineFault> {
        self.decode(line, out)
    }
}

/// Prints valid lines, and reports the others.
#[derive(Drop)]
struct GoodLines<E> {
    decoder: LineDecoder,
    errors: E,
}

impl<E: Write> Command for GoodLines<E> {
    ghost use Rattle.lapd_cli_decode.specs.Lines.{Decoding};

    ghost State = { Decoding };

    ghost step = { decode_step_skipping };

    ghost represents = { λ lines state. state ≡ decoding_of lines.decoder };

    fn run<W: Write>(&mut self, line: &[u8], out: &mut W) -> Result<(), LineFault> {
        match self.decoder.decode(line, out) {
            Err(LineFault::Bad) => {
                report(self.decoder.alloc, line, &mut self.errors);
                Ok(())
            }
            ended => ended,
        }
    }
}

/// Reports a bad line: its first 32 octets at most, in one write. A failure is ignored.
pub(crate) fn report<E: Write>(alloc: Global, line: &[u8], errors: &mut E) {
    let front = &line[..line.len().min(MOST_SHOWN)];
    let end = if front.len() < line.len() { ".." } else { "" };
    if let Ok(text) = format!(in alloc; "skipped: {}{end}\n", front.escape_ascii()) {
        let _ = errors.write_all(text.as_bytes());
    }
}
