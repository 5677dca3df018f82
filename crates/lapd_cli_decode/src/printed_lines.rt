//! Printing the requested frames of lines of octets, with remarks if their links are followed.

ghost use Rattle.std.specs.Prelude.{◌≡◌, None, Some, IfSome};
ghost use Rattle.lapd_cli_script.specs.Script.{lines_of};
ghost use Rattle.lapd_cli_decode.specs.PrintedLines.{LinesEnd, before_lines};
ghost use Rattle.lapd_cli_decode.specs.LinesPrinter.{printing_of};

use crate::capture_lines::note_misfit;
use crate::line_decoder::report;
use crate::line_form::{LineForm, strict_line};
use crate::line_sender::LineSender;
use crate::loose::{Sent, loose_line};
use crate::timed::timed_line;
use lapd_cli_frames::{Follow, FramePrinter, FrameStyle, Origin};
use lapd_cli_script::{Command, LineFault, ScriptFault, walk};
use lapd_frame::Side;
use std::alloc::Global;
use std::io::{Read, Write};

/// How to read lines of octets, and to print their frames.
#[derive(Clone, Copy)]
pub struct LinesStyle {
    /// The form of each line.
    pub form: LineForm,
    /// How frames are printed, and which.
    pub frames: FrameStyle,
    /// Whether lines that do not have this form are reported and skipped. Of loose lines, those
    /// without octets are always skipped, and their number is reported at the end.
    pub keeps_going: bool,
    /// How the links are followed; `None` if they are not.
    pub follow: Option<Follow>,
}

/// The report that the lines do not name a sender.
const UNNAMED: &str = "\
the lines do not name each sender: it is taken from the kind and C/R bit of the frame, or printed \
as ?; --sender names the side that printed the lines";

/// Reads lines of a form, and prints their frames.
#[derive(Drop)]
struct PrintedLines<E> {
    alloc: Global,
    form: LineForm,
    keeps_going: bool,
    /// The side that printed the loose lines, as far as those so far show it.
    shown: Option<Side>,
    /// The time of the last line that had one, in microseconds since 1970.
    time: Option<u64>,
    /// How many loose lines had no octets and were not reported.
    skipped: u64,
    printer: FramePrinter,
    octets: Vec<u8>,
    errors: E,
}

/// Like [`crate::decode_lines`], but prints only the requested frames, and may follow the link of
/// each frame, printed or not: the remarks on a frame are printed behind it, and after the last
/// line a table of each link. Dates are in UTC. Returns whether a remark was a violation. If `keeps_going` is set,
/// each line that does not have this form is reported on the error writer and skipped. Else loose
/// lines without octets are skipped too, and how many there were is reported at the end. Failures
/// of the error writer are ignored. Lines after the last requested frame are skipped.
///
/// # Errors
///
/// `BadLine` at the first strict line that does not have this form, or at the first loose line that
/// continues a hex dump, `Device` if a read or a write fails,
/// `Memory` if an allocation fails.
pub fn print_lines<R: Read, W: Write, E: Write + Drop>(
    alloc: Global,
    script: &mut R,
    out: &mut W,
    how: LinesStyle,
    errors: E,
) -> Result<bool, ScriptFault>
    ensures { IfSome (R.remaining script.old) (λ octets. LinesEnd (before_lines how) result
        (lines_of octets) (W.contents out.old) (W.contents out.new)) }
{
    match FramePrinter::in_utc(alloc, Origin::Script, how.frames, how.follow) {
        Ok(printer) => {
            let mut lines = PrintedLines {
                alloc,
                form: how.form,
                keeps_going: how.keeps_going,
                shown: None,
                time: None,
                skipped: 0,
                printer,
                octets: Vec::new(alloc),
                errors,
            };
            let ended = print_to_end(alloc, &mut lines, script, out);
            lines.report_skipped();
            note_misfit(&lines.printer, chosen_in(how.form), &mut lines.errors);
            ended
        }
        Err(_) => Err(ScriptFault::Memory),
    }
}

/// The side that an option chose as the printer of the lines.
fn chosen_in(form: LineForm) -> Option<Side> {
    match form {
        LineForm::Strict => None,
        LineForm::Loose(chosen) | LineForm::Timed(chosen) => chosen,
    }
}

/// Executes the script, and then prints the tables.
fn print_to_end<R: Read, W: Write, E: Write>(
    alloc: Global,
    lines: &mut PrintedLines<E>,
    script: &mut R,
    out: &mut W,
) -> Result<bool, ScriptFault>
    ensures { IfSome (R.remaining script.old) (λ octets. LinesEnd (printing_of lines.old) result
        (lines_of octets) (W.contents out.old) (W.contents out.new)) }
{
    match walk(alloc, lines, script, out) {
        Ok(()) => lines.printer.close(out),
        Err(fault) => Err(fault),
    }
}

impl<E: Write> PrintedLines<E> {
    ghost use Rattle.lapd_cli_script.specs.Script.{LineEndsAs};
    ghost use Rattle.lapd_cli_decode.specs.Lines.{sent_in};
    ghost use Rattle.lapd_cli_decode.specs.Loose.{loose_line};
    ghost use Rattle.lapd_cli_decode.specs.PrintedLines.{loose_outcome, loose_step, or_skipped, print_step, sender_outcome, sent_outcome, step_by, timed_step};
    ghost use Rattle.lapd_cli_decode.specs.Timed.{timed_line};

    /// Prints the frame of a line, or skips it.
    fn print_line<W: Write>(&mut self, line: &[u8], out: &mut W) -> Result<(), LineFault>
        ensures { LineEndsAs (λ lines state. state ≡ printing_of lines)
            (print_step (printing_of self.old) line.now) result self.new
            (W.contents out.old) (W.contents out.new) }
    {
        if self.printer.is_complete() {
            Ok(())
        } else {
            self.print_next(line, out)
        }
    }

    /// Prints the frame of a line before the last requested frame, or skips it.
    fn print_next<W: Write>(&mut self, line: &[u8], out: &mut W) -> Result<(), LineFault>
        ensures { LineEndsAs (λ lines state. state ≡ printing_of lines)
            (step_by self.old.form (printing_of self.old) line.now) result self.new
            (W.contents out.old) (W.contents out.new) }
    {
        match self.form {
            LineForm::Strict => self.print_strict(line, out),
            LineForm::Loose(chosen) => self.print_loose(chosen, line, out),
            LineForm::Timed(chosen) => self.print_timed(chosen, line, out),
        }
    }

    // ---- Strict lines.

    /// Prints the frame of a strict line, or skips it.
    fn print_strict<W: Write>(&mut self, line: &[u8], out: &mut W) -> Result<(), LineFault>
        ensures { LineEndsAs (λ lines state. state ≡ printing_of lines)
            (or_skipped (printing_of self.old)
            (sent_outcome (printing_of self.old) (sent_in line.now))) result self.new
            (W.contents out.old) (W.contents out.new) }
    {
        match strict_line(line, &mut self.octets) {
            Ok(from) => self.print_octets(from, out),
            Err(LineFault::Bad) => self.skip_or_refuse(line, out),
            Err(LineFault::Memory) => Err(LineFault::Memory),
            Err(LineFault::Device) => Err(LineFault::Device),
        }
    }

    /// Reports a bad line and skips it, if that is requested.
    fn skip_or_refuse<W: Write>(&mut self, line: &[u8], out: &mut W) -> Result<(), LineFault>
        ensures { LineEndsAs (λ lines state. state ≡ printing_of lines)
            (or_skipped (printing_of self.old) None) result self.new
            (W.contents out.old) (W.contents out.new) }
    {
        if !self.keeps_going {
            return Err(LineFault::Bad);
        }
        report(self.alloc, line, &mut self.errors);
        Ok(())
    }

    /// Prints the frame of the octets, which this side sent.
    fn print_octets<W: Write>(&mut self, from: Side, out: &mut W) -> Result<(), LineFault>
        ensures { LineEndsAs (λ lines state. state ≡ printing_of lines)
            (sent_outcome (printing_of self.old) (Some (from, self.old.octets.items)))
            result self.new (W.contents out.old) (W.contents out.new) }
    {
        let packet = self.printer.line_packet(self.time);
        self.printer.see_choice(Some(from), self.octets.as_slice());
        self.printer
            .print(packet, Some(from), self.octets.as_slice(), out)
    }

    // ---- Loose lines.

    /// Prints the frame of a loose line, or skips it. `chosen` is the chosen printer of the lines.
    fn print_loose<W: Write>(
        &mut self,
        chosen: Option<Side>,
        line: &[u8],
        out: &mut W,
    ) -> Result<(), LineFault>
        ensures { LineEndsAs (λ lines state. state ≡ printing_of lines)
            (loose_step chosen (printing_of self.old) (loose_line line.now)) result self.new
            (W.contents out.old) (W.contents out.new) }
    {
        match loose_line(self.alloc, line) {
            Ok(sent) => self.print_sent(chosen, sent, line, out),
            Err(LineFault::Bad) => {
                self.skip(line);
                Ok(())
            }
            Err(LineFault::Memory) => Err(LineFault::Memory),
            Err(LineFault::Device) => Err(LineFault::Device),
        }
    }

    /// Prints the frame of a loose line that may have its time in front, or skips it.
    fn print_timed<W: Write>(
        &mut self,
        chosen: Option<Side>,
        line: &[u8],
        out: &mut W,
    ) -> Result<(), LineFault>
        ensures { LineEndsAs (λ lines state. state ≡ printing_of lines)
            (timed_step chosen (printing_of self.old) line.now (timed_line line.now)) result
            self.new (W.contents out.old) (W.contents out.new) }
    {
        match timed_line(line) {
            None => self.print_loose(chosen, line, out),
            Some((time, text)) => {
                self.time = Some(time);
                self.print_loose(chosen, text, out)
            }
        }
    }

    /// Prints the frame of the octets of a loose line. A line that continues a hex dump is bad.
    fn print_sent<W: Write>(
        &mut self,
        chosen: Option<Side>,
        sent: Sent,
        line: &[u8],
        out: &mut W,
    ) -> Result<(), LineFault>
        ensures { LineEndsAs (λ lines state. state ≡ printing_of lines)
            (sender_outcome chosen (printing_of self.old) sent.from sent.octets.items) result
            self.new (W.contents out.old) (W.contents out.new) }
    {
        match sent.from {
            LineSender::Continued => self.skip_or_refuse(line, out),
            LineSender::Named(_) | LineSender::Printer | LineSender::Peer | LineSender::Unnamed => {
                self.print_unsure(chosen, &sent.from, sent.octets.as_slice(), out)
            }
        }
    }

    /// Prints the frame of octets of which a loose line says this of the sender.
    fn print_unsure<W: Write>(
        &mut self,
        chosen: Option<Side>,
        sender: &LineSender,
        octets: &[u8],
        out: &mut W,
    ) -> Result<(), LineFault>
        ensures { LineEndsAs (λ lines state. state ≡ printing_of lines)
            (loose_outcome chosen (printing_of self.old) sender.now octets.now) result
            self.new (W.contents out.old) (W.contents out.new) }
    {
        let from = sender.side(chosen, self.shown, octets);
        self.note_unnamed(chosen.is_none() && !matches!(sender, LineSender::Named(_)));
        self.shown = sender.printer(self.shown, octets);
        if chosen.is_none() || !matches!(sender, LineSender::Named(_)) {
            self.printer.see_choice(from, octets);
        }
        let packet = self.printer.line_packet(self.time);
        self.printer.print(packet, from, octets, out)
    }

    /// Reports once that neither the lines nor an option names a sender. A failure of the error
    /// writer is ignored.
    fn note_unnamed(&mut self, is_unnamed: bool)
        ensures { printing_of self.new ≡ printing_of self.old }
    {
        if is_unnamed && self.printer.is_first_note() {
            let _ = writeln!(self.errors, "{UNNAMED}");
        }
    }

    /// Skips a loose line without octets: it is reported or counted.
    fn skip(&mut self, line: &[u8])
        ensures { printing_of self.new ≡ printing_of self.old }
    {
        if self.keeps_going {
            report(self.alloc, line, &mut self.errors);
        } else {
            self.skipped = self.skipped.saturating_add(1);
        }
    }

    /// Reports how many lines were skipped without a report, if any.
    fn report_skipped(&mut self) {
        let _ = match (self.skipped, self.printer.any()) {
            (0, _) => Ok(()),
            (1, true) => writeln!(self.errors, "skipped 1 line without a frame"),
            (skipped, true) => writeln!(self.errors, "skipped {skipped} lines without a frame"),
            (skipped, false) => writeln!(self.errors, "0 of {skipped} lines have a frame"),
        };
    }
}

impl<E: Write> Command for PrintedLines<E> {
    ghost use Rattle.lapd_cli_decode.specs.PrintedLines.{PrintingLines, print_step};

    ghost State = { PrintingLines };

    ghost step = { print_step };

    ghost represents = { λ lines state. state ≡ printing_of lines };

    fn run<W: Write>(&mut self, line: &[u8], out: &mut W) -> Result<(), LineFault> {
        self.print_line(line, out)
    }
}
