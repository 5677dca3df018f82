//! The lines below a frame.

ghost use Rattle.std.specs.Prelude.{◌≡◌, ◌++◌, Some, drop, flat_map, IfOk, OnOk};
ghost use Rattle.std.specs.String.{string_bytes};
ghost use Rattle.lapd_cli_render.specs.Names.{names_text};
ghost use Rattle.lapd_cli_ladder.specs.Ladder.{cut_line, each_remark, line_of_words, names_line, note_line, note_lines, remark_line, remark_lines};
ghost use Rattle.lapd_cli_ladder.specs.Words.{class_mark, remark_words};

use crate::LadderStyle;
use crate::columns::push_left;
use crate::frame_to_draw::FrameToDraw;
use crate::ladder::{between_width, push_line};
use crate::words::said_beside;
use lapd_cli_render::push_names;
use lapd_follow::{Class, Remark, Remarks};
use lapd_frame::Side;
use std::alloc::{AllocError, Global};

/// Appends the lines below that of a frame: a mark if the packet was cut, the name of the message
/// if that is requested, and the remarks.
///
/// # Errors
///
/// `AllocError` if an allocation fails. A part of the lines may have been appended.
pub fn push_notes(
    alloc: Global,
    text: &mut Vec<u8>,
    style: LadderStyle,
    frame: &FrameToDraw<'_>,
) -> Result<(), AllocError>
    ensures { OnOk result (text.new.items ≡ text.old.items ++ note_lines style frame.now.packet
        frame.now.from frame.now.octets.now frame.now.said.now) }
{
    push_cut(alloc, text, style.time_width, frame.packet.is_cut)?;
    push_message(alloc, text, style, frame.from, frame.octets)?;
    push_remarks(alloc, text, style, frame.said)
}

/// Appends a line if the capture has only the first octets of a frame.
fn push_cut(alloc: Global, text: &mut Vec<u8>, width: usize, is_cut: bool) -> Result<(), AllocError>
    ensures { OnOk result (text.new.items ≡ text.old.items ++ cut_line width is_cut) }
{
    if is_cut {
        push_note(alloc, text, width, b"[cut]")
    } else {
        Ok(())
    }
}

/// Appends the name of the message in a frame, if that is requested and there is one. A frame whose
/// sender is not known has none.
fn push_message(
    alloc: Global,
    text: &mut Vec<u8>,
    style: LadderStyle,
    from: Option<Side>,
    octets: &[u8],
) -> Result<(), AllocError>
    ensures { OnOk result (text.new.items ≡ text.old.items ++ names_line style from octets.now) }
{
    match from {
        None => Ok(()),
        Some(from) => push_message_of(alloc, text, style, from, octets),
    }
}

/// Appends the name of the message in a frame of this sender, if that is requested.
fn push_message_of(
    alloc: Global,
    text: &mut Vec<u8>,
    style: LadderStyle,
    from: Side,
    octets: &[u8],
) -> Result<(), AllocError>
    ensures { OnOk result (text.new.items
        ≡ text.old.items ++ names_line style (Some from) octets.now) }
{
    if !style.names {
        return Ok(());
    }
    let mut names = String::new(alloc);
    push_names(&mut names, from, octets)?;
    push_words(
        alloc,
        text,
        style.time_width,
        without_first(names.as_bytes()),
    )
}

/// The octets after the first.
fn without_first(octets: &[u8]) -> &[u8]
    ensures { result.now ≡ drop 1 octets.now }
{
    match octets {
        [_, rest @ ..] => rest,
        [] => &[],
    }
}

/// Appends a line with these words, if there are any.
fn push_words(
    alloc: Global,
    text: &mut Vec<u8>,
    width: usize,
    words: &[u8],
) -> Result<(), AllocError>
    ensures { OnOk result (text.new.items ≡ text.old.items ++ line_of_words width words.now) }
{
    if words.is_empty() {
        return Ok(());
    }
    push_note(alloc, text, width, words)
}

/// Appends the remarks on a frame, a line each.
fn push_remarks(
    alloc: Global,
    text: &mut Vec<u8>,
    style: LadderStyle,
    said: &Option<Remarks>,
) -> Result<(), AllocError>
    ensures { OnOk result (text.new.items ≡ text.old.items ++ remark_lines style said.now) }
{
    match said {
        None => Ok(()),
        Some(said) => {
            let remarks = each_remark(&said_beside(style.names, said));
            push_remark_lines(alloc, text, style.time_width, &remarks)
        }
    }
}

/// The remarks, in the order of their kinds.
fn each_remark(said: &Remarks) -> [Option<Remark>; 9]
    ensures { result ≡ each_remark said.now }
{
    [
        said.establishment,
        said.ns,
        said.window,
        said.busy,
        said.nr,
        said.bit,
        said.answer,
        said.identity,
        said.conflict,
    ]
}

/// Appends the lines of these remarks.
fn push_remark_lines(
    alloc: Global,
    text: &mut Vec<u8>,
    width: usize,
    remarks: &[Option<Remark>],
) -> Result<(), AllocError>
    ensures { OnOk result (text.new.items
        ≡ text.old.items ++ flat_map (remark_line width) remarks.now) }
{
    for remark in remarks {
        push_remark(alloc, text, width, *remark)?;
    }
    Ok(())
}

/// Appends the line of a remark, if there is one.
fn push_remark(
    alloc: Global,
    text: &mut Vec<u8>,
    width: usize,
    remark: Option<Remark>,
) -> Result<(), AllocError>
    ensures { OnOk result (text.new.items ≡ text.old.items ++ remark_line width remark) }
{
    match remark {
        None => Ok(()),
        Some(remark) => {
            let words = remark_words(alloc, remark)?;
            push_note(alloc, text, width, words.as_bytes())
        }
    }
}

/// The words of a remark; a violation is marked.
fn remark_words(alloc: Global, remark: Remark) -> Result<String, AllocError>
    ensures { IfOk result (λ text. string_bytes text ≡ remark_words remark) }
{
    let mark = class_mark(remark.class());
    format!(in alloc; "{mark}{remark}")
}

/// The mark of a violation.
fn class_mark(class: Class) -> &'static str
    ensures { result.now ≡ class_mark class }
{
    match class {
        Class::Normal | Class::Recovery => "",
        Class::Violation => "violation: ",
    }
}

/// Appends a line with a note. `width` is that of the times.
///
/// # Errors
///
/// `AllocError` if an allocation fails. A part of the line may have been appended.
pub fn push_note(
    alloc: Global,
    text: &mut Vec<u8>,
    width: usize,
    words: &[u8],
) -> Result<(), AllocError>
    ensures { OnOk result (text.new.items ≡ text.old.items ++ note_line width words.now) }
{
    let mut between = Vec::new(alloc);
    between.extend_from_slice(b"  ")?;
    let columns = between_width(width).saturating_sub(3);
    push_left(&mut between, columns, words)?;
    between.extend_from_slice(b" ")?;
    push_line(text, width, b"", b"", b"", between.as_slice(), b"")
}
