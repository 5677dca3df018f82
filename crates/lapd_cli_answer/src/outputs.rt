//! The lines that `answer` prints for a link's outputs.

ghost use Rattle.std.specs.Prelude.{◌≡◌, IsOkUnless, OnOk};
ghost use Rattle.std.specs.Io.KnownBytes.{Appends};
ghost use Rattle.lapd_link.specs.End.{End};
ghost use Rattle.lapd_link.specs.Link.{LinkRepresents, setup_of};
ghost use Rattle.lapd_cli_answer.specs.Answer.{messages_of};
ghost use Rattle.lapd_cli_answer.specs.Outputs.{refusal_line, send_line};
ghost use Rattle.lapd_cli_answer.specs.Session.{made_line, made_text};

use crate::printed_output::{OutputOctets, PrintedOutput, put_phrase};
use lapd_cli_script::{LineFault, put_line, put_octets};
use lapd_frame::{Frame, MOST_OCTETS, Side, write};
use lapd_link::{Link, LinkFault, Out};
use std::io::Write;

/// Prints the outputs of a link's last step, in which the octets `input_octets` were passed to the
/// link.
///
/// # Errors
///
/// `Device` if the writer fails.
pub(crate) fn put_outs<W: Write>(
    link: &Link,
    input_octets: &[u8],
    outs: &[Out],
    out: &mut W,
) -> Result<(), LineFault>
    ensures ok { (e : End) → LinkRepresents link.now e
        → OnOk result
        (Appends (W.contents out.old) (W.contents out.new)
        (made_text (setup_of link.now) (messages_of e) input_octets.now outs.now)) }
    ensures err { IsOkUnless result LineFault.Device }
{
    let output_octets = OutputOctets {
        message: input_octets,
        unit: input_octets,
        sent: input_octets,
    };
    for given in outs {
        put_out(link, &output_octets, given, out)?;
    }
    Ok(())
}

/// Prints one output: a frame, or a primitive, a timer or a report.
fn put_out<W: Write>(
    link: &Link,
    output_octets: &OutputOctets<'_>,
    given: &Out,
    out: &mut W,
) -> Result<(), LineFault>
    ensures ok { (e : End) → LinkRepresents link.now e
        → OnOk result
        (Appends (W.contents out.old) (W.contents out.new)
        (made_line (setup_of link.now) (messages_of e) output_octets.now given.now)) }
    ensures err { IsOkUnless result LineFault.Device }
{
    match PrintedOutput::of(link, output_octets, given) {
        PrintedOutput::Sent(frame) => put_send(&frame, link.side(), out),
        PrintedOutput::Primitive(phrase) | PrintedOutput::Timer(phrase) => put_phrase(&phrase, out),
        PrintedOutput::Nothing => Ok(()),
    }
}

/// Prints a frame that is sent.
fn put_send<W: Write>(frame: &Frame<'_>, side: Side, out: &mut W) -> Result<(), LineFault>
    ensures ok { OnOk result
        (Appends (W.contents out.old) (W.contents out.new) (send_line side frame.now)) }
    ensures err { IsOkUnless result LineFault.Device }
{
    let mut octets = [0; MOST_OCTETS];
    let len = write(frame, side, &mut octets);
    put_octets(b"send", &octets[..len], out)
}

/// Prints why a link refused a request.
///
/// # Errors
///
/// `Device` if the writer fails.
pub fn put_refusal<W: Write>(fault: LinkFault, out: &mut W) -> Result<(), LineFault>
    ensures ok { OnOk result
        (Appends (W.contents out.old) (W.contents out.new) (refusal_line fault)) }
    ensures err { IsOkUnless result LineFault.Device }
{
    put_line(b"refused ", fault.name().as_bytes(), out)
}
