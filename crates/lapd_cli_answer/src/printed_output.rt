//! The printed form of a link's outputs.

ghost use Rattle.std.specs.Prelude.{◌≡◌, OnOk, IsOkUnless};
ghost use Rattle.std.specs.Io.KnownBytes.{Appends};
ghost use Rattle.lapd_link.specs.End.{End};
ghost use Rattle.lapd_link.specs.Link.{LinkRepresents, setup_of};
ghost use Rattle.lapd_cli_answer.specs.Answer.{messages_of};
ghost use Rattle.lapd_cli_answer.specs.PrintedOutput.{printed_unsent};
ghost use Rattle.lapd_cli_answer.specs.PrintedOutputs.{made_output, phrase_line, printed_output_of};

use lapd_cli_script::{LineFault, put_line, put_number, put_octets, put_word};
use lapd_frame::Frame;
use lapd_link::{Link, Out};
use std::io::Write;
use std::marker::Model;

/// The octets that a step's outputs refer to.
#[derive(Drop)]
pub struct OutputOctets<'a> {
    /// The message delivered to layer 3.
    pub message: &'a [u8],
    /// The unit data delivered to layer 3.
    pub unit: &'a [u8],
    /// The unit data sent.
    pub sent: &'a [u8],
}

impl<'a> Model for OutputOctets<'a> {
    ghost use Rattle.lapd_cli_answer.specs.PrintedOutput as specs;

    ghost Value = { specs.OutputOctets };

    ghost view = { λ s. record { message = s.message.now; unit = s.unit.now; sent = s.sent.now } };
}

/// The printed form of one output of a link.
#[derive(Drop)]
pub enum PrintedOutput<'a> {
    /// A frame is sent.
    Sent(Frame<'a>),
    /// A primitive to layer 3, or a report to management.
    Primitive(Phrase<'a>),
    /// A timer is started or stopped.
    Timer(Phrase<'a>),
    /// A frame was to be sent, but does not exist. No step produces such an output.
    Nothing,
}

/// A word, and its argument after a space.
#[derive(Drop)]
pub enum Phrase<'a> {
    /// No argument.
    Alone(&'static str),
    /// The digits of octets.
    Octets(&'static str, &'a [u8]),
    /// A decimal number.
    Number(&'static str, u64),
    /// The name of a timer or a report.
    Name(&'static str, &'static str),
}

impl<'a> PrintedOutput<'a> {
    /// The printed form of an output of the link's last step.
    pub fn of(link: &'a Link, output_octets: &OutputOctets<'a>, output: &Out) -> PrintedOutput<'a>
        ensures { (e : End) → LinkRepresents link.now e → printed_output_of result
            ≡ made_output (setup_of link.now) (messages_of e) output_octets.now output.now }
    {
        match link.frame(output, output_octets.sent) {
            Some(frame) => PrintedOutput::Sent(frame),
            None => printed_unsent(output_octets, output),
        }
    }
}

/// The printed form of an output without a frame.
fn printed_unsent<'a>(output_octets: &OutputOctets<'a>, output: &Out) -> PrintedOutput<'a>
    ensures { printed_output_of result ≡ printed_unsent output_octets.now output.now }
{
    let word = output.word();
    match output {
        Out::Send(..) | Out::SendMessage(..) | Out::SendUnit => PrintedOutput::Nothing,
        Out::Up => PrintedOutput::Primitive(Phrase::Octets(word, output_octets.message)),
        Out::UnitUp => PrintedOutput::Primitive(Phrase::Octets(word, output_octets.unit)),
        Out::Established | Out::Confirmed | Out::Released | Out::ReleaseConfirm => {
            PrintedOutput::Primitive(Phrase::Alone(word))
        }
        Out::Acknowledged(n) | Out::Dropped(n) => {
            PrintedOutput::Primitive(Phrase::Number(word, u64::from(*n)))
        }
        Out::Report(letter) => PrintedOutput::Primitive(Phrase::Name(word, letter.name())),
        Out::Start(timer) => PrintedOutput::Timer(Phrase::Name("start", timer.name())),
        Out::Stop(timer) => PrintedOutput::Timer(Phrase::Name("stop", timer.name())),
    }
}

/// Prints a line of a word and its argument.
///
/// # Errors
///
/// `Device` if the writer fails.
pub fn put_phrase<W: Write>(phrase: &Phrase<'_>, out: &mut W) -> Result<(), LineFault>
    ensures ok { OnOk result
        (Appends (W.contents out.old) (W.contents out.new) (phrase_line phrase.now)) }
    ensures err { IsOkUnless result LineFault.Device }
{
    match phrase {
        Phrase::Alone(word) => put_line(word.as_bytes(), &[], out),
        Phrase::Octets(word, octets) => put_octets(word.as_bytes(), octets, out),
        Phrase::Number(word, number) => put_number(word.as_bytes(), *number, out),
        Phrase::Name(word, name) => put_word(word.as_bytes(), name.as_bytes(), out),
    }
}
