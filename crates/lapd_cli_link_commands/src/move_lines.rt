//! The printed lines of the moves of two ends.

ghost use Rattle.std.specs.Prelude.{◌≡◌, ◌∷◌, ◌++◌, IsOkUnless, OnOk};
ghost use Rattle.lapd_cli_answer.specs.Answer.{messages_of};
ghost use Rattle.lapd_cli_link_commands.specs.Pair.{side_name as name_of, output_octets_of};
ghost use Rattle.lapd_cli_link_commands.specs.RepresentsWorld.{made_side_line, made_side_lines};
ghost use Rattle.lapd_cli_answer.specs.PrintedOutputs.{phrase_line};
ghost use Rattle.lapd_pair.specs.Runs.{PairRepresents};
ghost use Rattle.lapd_cli_script.specs.Line.{text_line};
ghost use Rattle.lapd_trace.specs.Trace.{frame_line};
ghost use Rattle.lapd_pair_laws.specs.World.{World, view_of};

use lapd_cli_answer::{OutputOctets, Phrase, PrintedOutput, put_phrase};
use lapd_cli_script::{LineFault, put_line};
use lapd_frame::{Frame, Side};
use lapd_link::Out;
use lapd_pair::Pair;
use std::alloc::Global;

/// Replaces `text` by the lines of the outputs of a move of this side, in which it sent the unit
/// data `unit`.
///
/// # Errors
///
/// `Memory` if an allocation fails.
pub(crate) fn write_lines(
    alloc: Global,
    pair: &Pair,
    side: Side,
    unit: &[u8],
    outs: &[Out],
    text: &mut Vec<u8>,
) -> Result<(), LineFault>
    ensures ok { (w : World) → PairRepresents pair.now w → OnOk result
        (text.new.items ≡ made_side_lines side (view_of side w).station unit.now outs.now) }
    ensures err { IsOkUnless result LineFault.Memory }
{
    text.clear();
    let output_octets = output_octets_of(pair, side, unit);
    for given in outs {
        push_line(alloc, pair, side, &output_octets, given, text)?;
    }
    Ok(())
}

/// The octets that this side's outputs refer to, if it sent the unit data `unit`.
fn output_octets_of<'a>(pair: &'a Pair, side: Side, unit: &'a [u8]) -> OutputOctets<'a>
    ensures { (w : World) → PairRepresents pair.now w
        → result ≡ output_octets_of (view_of side w).station.history unit.now }
{
    OutputOctets {
        message: match pair.received(side).last() {
            Some(message) => message.octets.as_slice(),
            None => &[],
        },
        unit: match pair.units(side).last() {
            Some(octets) => octets.as_slice(),
            None => &[],
        },
        sent: unit,
    }
}

/// Appends the line of this side's output, if it has one. Timers are not printed.
fn push_line(
    alloc: Global,
    pair: &Pair,
    side: Side,
    output_octets: &OutputOctets<'_>,
    given: &Out,
    text: &mut Vec<u8>,
) -> Result<(), LineFault>
    ensures ok { (w : World) → PairRepresents pair.now w → OnOk result (text.new.items
        ≡ text.old.items ++ made_side_line side (messages_of (view_of side w).station.end)
        output_octets.now given.now) }
    ensures err { IsOkUnless result LineFault.Memory }
{
    match PrintedOutput::of(pair.link(side), output_octets, given) {
        PrintedOutput::Sent(frame) => push_frame(alloc, side, &frame, text),
        PrintedOutput::Primitive(phrase) => push_phrase(side, &phrase, text),
        PrintedOutput::Timer(_) | PrintedOutput::Nothing => Ok(()),
    }
}

/// Appends the trace line of a frame that this side sends.
fn push_frame(
    alloc: Global,
    side: Side,
    frame: &Frame<'_>,
    text: &mut Vec<u8>,
) -> Result<(), LineFault>
    ensures ok { OnOk result
        (text.new.items ≡ text.old.items ++ text_line (frame_line side frame.now)) }
    ensures err { IsOkUnless result LineFault.Memory }
{
    let Ok(line) = lapd_trace::line_of(alloc, side, frame) else {
        return Err(LineFault::Memory);
    };
    let Ok(()) = put_line(line.as_bytes(), &[], text) else {
        return Err(LineFault::Memory);
    };
    Ok(())
}

/// Appends a report to this side: the side's name, a space and the report.
fn push_phrase(side: Side, phrase: &Phrase<'_>, text: &mut Vec<u8>) -> Result<(), LineFault>
    ensures ok { OnOk result
        (text.new.items ≡ text.old.items ++ name_of side ++ (32 ∷ phrase_line phrase.now)) }
    ensures err { IsOkUnless result LineFault.Memory }
{
    let front = match side {
        Side::User => b"user ".as_slice(),
        Side::Network => b"net ".as_slice(),
    };
    let Ok(()) = text.extend_from_slice(front) else {
        return Err(LineFault::Memory);
    };
    let Ok(()) = put_phrase(phrase, text) else {
        return Err(LineFault::Memory);
    };
    Ok(())
}
