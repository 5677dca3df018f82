//! The part of a ladder, a picture, a page or a pcap file for a frame.

ghost use Rattle.std.specs.Prelude.{◌≡◌, ◌++◌, ◌&&◌, flat_map, IfOk, OnOk};
ghost use Rattle.lapd_cli_frames.specs.Color.{is_violation};
ghost use Rattle.lapd_cli_frames.specs.Drawn.{drawn_part, head_before, ladder_of, red_if, red_lines, red_octet};
ghost use Rattle.lapd_cli_ladder.specs.Ladder.{frame_lines};
ghost use Rattle.lapd_cli_frames.specs.Remarked.{RemarkedEnds};

use crate::frame_style::{Drawing, FrameStyle};
use crate::record::push_record;
use lapd_cli_ladder::{
    FrameToDraw, LadderStyle, push_head, push_notes, push_picture_part, push_rung,
};
use lapd_cli_page::push_page_part;
use lapd_cli_script::LineFault;
use lapd_follow::Remarks;
use std::alloc::{AllocError, Global};
use std::io::Write;

/// The part of a drawing for a frame, after this number of printed frames.
///
/// # Errors
///
/// `AllocError` if an allocation fails.
pub(crate) fn drawn_part(
    alloc: Global,
    drawing: Drawing,
    how: &FrameStyle,
    printed: u64,
    frame: &FrameToDraw<'_>,
) -> Result<Vec<u8>, AllocError>
    ensures { IfOk result (λ text. text.items ≡ drawn_part drawing how.now printed
        frame.now.packet frame.now.time.now frame.now.from frame.now.octets.now frame.now.said.now
        frame.now.listener.now) }
{
    let mut text = Vec::new(alloc);
    push_part(alloc, &mut text, drawing, how, printed, frame)?;
    Ok(text)
}

/// Appends the part of a drawing for a frame.
fn push_part(
    alloc: Global,
    text: &mut Vec<u8>,
    drawing: Drawing,
    how: &FrameStyle,
    printed: u64,
    frame: &FrameToDraw<'_>,
) -> Result<(), AllocError>
    ensures { OnOk result (text.new.items ≡ text.old.items ++ drawn_part drawing how.now printed
        frame.now.packet frame.now.time.now frame.now.from frame.now.octets.now frame.now.said.now
        frame.now.listener.now) }
{
    match drawing {
        Drawing::Ladder => {
            push_head_before(text, how.ladder(), printed)?;
            let mut lines = Vec::new(alloc);
            push_lines(alloc, &mut lines, how.ladder(), frame)?;
            push_red_if(text, is_red(how.is_colored, frame.said), lines.as_slice())
        }
        Drawing::Picture => push_picture_part(alloc, text, how.style.has_names(), printed, frame),
        Drawing::Page => push_page_part(alloc, text, printed, how.count, frame),
        Drawing::Records => push_record(text, frame.packet, frame.from, frame.octets),
    }
}

/// Appends the lines of a ladder for a frame.
fn push_lines(
    alloc: Global,
    text: &mut Vec<u8>,
    style: LadderStyle,
    frame: &FrameToDraw<'_>,
) -> Result<(), AllocError>
    ensures { OnOk result (text.new.items ≡ text.old.items ++ frame_lines style frame.now.packet
        frame.now.time.now frame.now.from frame.now.octets.now frame.now.said.now
        frame.now.listener.now) }
{
    push_rung(alloc, text, style, frame)?;
    push_notes(alloc, text, style, frame)
}

/// Whether the lines of a frame are red: one of its remarks is a violation.
fn is_red(is_colored: bool, said: &Option<Remarks>) -> bool
    ensures { result ≡ (is_violation said.now && is_colored) }
{
    match said {
        None => false,
        Some(said) => said.has_violation() && is_colored,
    }
}

/// Appends lines, in red if that is requested.
fn push_red_if(text: &mut Vec<u8>, is_red: bool, lines: &[u8]) -> Result<(), AllocError>
    ensures { OnOk result (text.new.items ≡ text.old.items ++ red_if is_red lines.now) }
{
    if is_red {
        push_red(text, lines)
    } else {
        text.extend_from_slice(lines)
    }
}

/// Appends lines in red, each by itself.
fn push_red(text: &mut Vec<u8>, lines: &[u8]) -> Result<(), AllocError>
    ensures { OnOk result (text.new.items ≡ text.old.items ++ red_lines lines.now) }
{
    text.extend_from_slice(b"\x1b[31m")?;
    push_red_octets(text, lines)?;
    text.extend_from_slice(b"\x1b[0m")
}

/// Appends the octets of lines in red.
fn push_red_octets(text: &mut Vec<u8>, lines: &[u8]) -> Result<(), AllocError>
    ensures { OnOk result (text.new.items ≡ text.old.items ++ flat_map red_octet lines.now) }
{
    for octet in lines {
        push_red_octet(text, *octet)?;
    }
    Ok(())
}

/// Appends an octet of lines in red.
fn push_red_octet(text: &mut Vec<u8>, octet: u8) -> Result<(), AllocError>
    ensures { OnOk result (text.new.items ≡ text.old.items ++ red_octet octet) }
{
    if octet == b'\n' {
        text.extend_from_slice(b"\x1b[0m\n\x1b[31m")
    } else {
        text.extend_from_slice(&[octet])
    }
}

/// Appends the line above the first of the printed frames.
fn push_head_before(text: &mut Vec<u8>, style: LadderStyle, printed: u64) -> Result<(), AllocError>
    ensures { OnOk result (text.new.items ≡ text.old.items ++ head_before style printed) }
{
    if printed == 0 {
        push_head(text, style)
    } else {
        Ok(())
    }
}

/// Prints a text.
///
/// # Errors
///
/// `Device` if the writer fails: part of the text may have been written.
pub(crate) fn put_text<W: Write>(text: &[u8], out: &mut W) -> Result<(), LineFault>
    ensures { RemarkedEnds text.now result (W.contents out.old) (W.contents out.new) }
{
    match out.write_all(text) {
        Ok(()) => Ok(()),
        Err(_) => Err(LineFault::Device),
    }
}
