//! The data of a page: a row for each frame.

ghost use Rattle.std.specs.Prelude.{◌≡◌, ◌++◌, drop, flat_map, IfOk, OnOk};
ghost use Rattle.std.specs.Fmt.{decimal};
ghost use Rattle.std.specs.String.{string_bytes};
ghost use Rattle.lapd_cli_page.specs.Row.{cut_cell, each_remark, end_cells, escaped, escaped_octet, frame_cells, frame_row, is_plain, label_words, limit_row, message_words, missing_row, moment_words, note_cells, packet_cells, page_part, remark_cell, remark_cells, remark_or_none, row_before, sender_letter, text_cell};
ghost use Rattle.lapd_follow.specs.Texts.{remark_text};

use lapd_cli_ladder::{FrameToDraw, Packet, known_role, known_words, push_control, reading_of};
use lapd_cli_render::push_names;
use lapd_follow::{Remark, Remarks};
use lapd_frame::{Frame, FrameFault, Side};
use std::alloc::{AllocError, Global};

/// Appends the rows for a frame, the one of this place, from 0. The page has at most `limit`
/// frames, if there is a limit.
///
/// # Errors
///
/// `AllocError` if an allocation fails. A part may have been appended.
pub fn push_page_part(
    alloc: Global,
    text: &mut Vec<u8>,
    place: u64,
    limit: Option<u64>,
    frame: &FrameToDraw<'_>,
) -> Result<(), AllocError>
    ensures { OnOk result (text.new.items ≡ text.old.items ++ page_part place limit
        frame.now.packet frame.now.from frame.now.octets.now frame.now.said.now
        frame.now.listener.now) }
{
    push_row_before(alloc, text, place, limit)?;
    push_frame(alloc, text, frame)
}

/// Appends the row about this many frames that a capture lacks.
///
/// # Errors
///
/// `AllocError` if an allocation fails. A part may have been appended.
#[tactic(auto, unfolding(crate::specs::Row::missing_row))]
pub fn push_missing_row(alloc: Global, text: &mut Vec<u8>, count: u64) -> Result<(), AllocError>
    ensures { OnOk result (text.new.items ≡ text.old.items ++ missing_row count) }
{
    push_number(alloc, text, count)?;
    text.extend_from_slice(b",\n")
}

/// Appends the row before the first frame.
fn push_row_before(
    alloc: Global,
    text: &mut Vec<u8>,
    place: u64,
    limit: Option<u64>,
) -> Result<(), AllocError>
    ensures { OnOk result (text.new.items ≡ text.old.items ++ row_before place limit) }
{
    if place == 0 {
        push_limit(alloc, text, limit)
    } else {
        Ok(())
    }
}

/// Appends how many frames the page has at most.
#[tactic(auto, unfolding(crate::specs::Row::limit_row))]
fn push_limit(alloc: Global, text: &mut Vec<u8>, limit: Option<u64>) -> Result<(), AllocError>
    ensures { OnOk result (text.new.items ≡ text.old.items ++ limit_row limit) }
{
    text.extend_from_slice(b"{\"limit\":")?;
    push_number(alloc, text, limit.unwrap_or(0))?;
    text.extend_from_slice(b"},\n")
}

/// Appends the row of a frame.
fn push_frame(alloc: Global, text: &mut Vec<u8>, frame: &FrameToDraw<'_>) -> Result<(), AllocError>
    ensures { OnOk result (text.new.items ≡ text.old.items ++ frame_row frame.now.packet
        frame.now.from frame.now.octets.now frame.now.said.now frame.now.listener.now) }
{
    text.extend_from_slice(b"[")?;
    push_packet_cells(alloc, text, frame.packet, frame.from)?;
    push_frame_cells(alloc, text, frame.from, frame.octets)?;
    push_end_cells(alloc, text, frame)?;
    push_note_cells(alloc, text, frame)?;
    push_remark_cells(alloc, text, frame.said)?;
    text.extend_from_slice(b"],\n")
}

/// Appends the number, the time and the sender of a packet.
#[tactic(auto, unfolding(crate::specs::Row::packet_cells))]
fn push_packet_cells(
    alloc: Global,
    text: &mut Vec<u8>,
    packet: Packet,
    from: Option<Side>,
) -> Result<(), AllocError>
    ensures { OnOk result (text.new.items ≡ text.old.items ++ packet_cells packet from) }
{
    push_number(alloc, text, packet.number)?;
    let moment = moment_words(alloc, packet.moment)?;
    push_text(alloc, text, moment.as_bytes())?;
    push_text(alloc, text, sender_letter(from))
}

/// Appends the octets, and the frame in words.
#[tactic(auto, unfolding(crate::specs::Row::frame_cells))]
fn push_frame_cells(
    alloc: Global,
    text: &mut Vec<u8>,
    from: Option<Side>,
    octets: &[u8],
) -> Result<(), AllocError>
    ensures { OnOk result (text.new.items ≡ text.old.items ++ frame_cells from octets.now) }
{
    let digits = hex::encode(alloc, octets)?;
    push_text(alloc, text, digits.as_bytes())?;
    let words = label_words(alloc, from, &reading_of(from, octets))?;
    push_text(alloc, text, words.as_bytes())
}

/// Appends what is known of both ends.
#[tactic(auto, unfolding(crate::specs::Row::end_cells))]
fn push_end_cells(
    alloc: Global,
    text: &mut Vec<u8>,
    frame: &FrameToDraw<'_>,
) -> Result<(), AllocError>
    ensures { OnOk result (text.new.items ≡ text.old.items
        ++ end_cells frame.now.from frame.now.octets.now frame.now.listener.now) }
{
    let reading = reading_of(frame.from, frame.octets);
    let user = known_words(alloc, Side::User, &reading, frame.listener)?;
    let network = known_words(alloc, Side::Network, &reading, frame.listener)?;
    push_text(alloc, text, user.as_bytes())?;
    push_text(alloc, text, network.as_bytes())
}

/// Appends the message in a frame, and whether its packet was cut.
#[tactic(auto, unfolding(crate::specs::Row::note_cells))]
fn push_note_cells(
    alloc: Global,
    text: &mut Vec<u8>,
    frame: &FrameToDraw<'_>,
) -> Result<(), AllocError>
    ensures { OnOk result (text.new.items ≡ text.old.items
        ++ note_cells frame.now.packet frame.now.from frame.now.octets.now) }
{
    let message = message_words(alloc, frame.from, frame.octets)?;
    push_text(alloc, text, message.as_slice())?;
    text.extend_from_slice(cut_cell(frame.packet.is_cut))
}

/// Whether a packet was cut.
fn cut_cell(is_cut: bool) -> &'static [u8]
    ensures { result.now ≡ cut_cell is_cut }
{
    if is_cut { b",1" } else { b",0" }
}

/// Appends the remarks on a frame.
fn push_remark_cells(
    alloc: Global,
    text: &mut Vec<u8>,
    said: &Option<Remarks>,
) -> Result<(), AllocError>
    ensures { OnOk result (text.new.items ≡ text.old.items ++ remark_cells said.now) }
{
    match said {
        None => Ok(()),
        Some(said) => push_remarks(alloc, text, &each_remark(said)),
    }
}

/// The remarks, in the order of their kinds.
fn each_remark(said: &Remarks) -> [Option<Remark>; 9]
    ensures { result ≡ each_remark said.now }
{
    [
        said.establishment,
        said.ns,
        said.window,
        said.busy,
        said.nr,
        said.bit,
        said.answer,
        said.identity,
        said.conflict,
    ]
}

/// Appends these remarks.
fn push_remarks(
    alloc: Global,
    text: &mut Vec<u8>,
    remarks: &[Option<Remark>],
) -> Result<(), AllocError>
    ensures { OnOk result (text.new.items
        ≡ text.old.items ++ flat_map remark_or_none remarks.now) }
{
    for remark in remarks {
        push_remark_or_none(alloc, text, *remark)?;
    }
    Ok(())
}

/// Appends a remark, if there is one.
fn push_remark_or_none(
    alloc: Global,
    text: &mut Vec<u8>,
    remark: Option<Remark>,
) -> Result<(), AllocError>
    ensures { OnOk result (text.new.items ≡ text.old.items ++ remark_or_none remark) }
{
    match remark {
        None => Ok(()),
        Some(remark) => push_remark(alloc, text, remark),
    }
}

/// Appends a remark.
fn push_remark(alloc: Global, text: &mut Vec<u8>, remark: Remark) -> Result<(), AllocError>
    ensures { OnOk result (text.new.items ≡ text.old.items ++ remark_cell remark) }
{
    let words = remark_words(alloc, remark)?;
    text.extend_from_slice(b",[0")?;
    push_text(alloc, text, remark.class().name().as_bytes())?;
    push_text(alloc, text, remark.clause().as_bytes())?;
    push_text(alloc, text, words.as_bytes())?;
    text.extend_from_slice(b"]")
}

/// The words of a remark.
fn remark_words(alloc: Global, remark: Remark) -> Result<String, AllocError>
    ensures { IfOk result (λ text. string_bytes text ≡ remark_text remark) }
{
    format!(in alloc; "{remark}")
}

/// The frame without its address and its information, or the fault of octets that do not form one.
fn label_words(
    alloc: Global,
    from: Option<Side>,
    frame: &Result<Frame<'_>, FrameFault>,
) -> Result<String, AllocError>
    ensures { IfOk result (λ text. string_bytes text ≡ label_words from frame.now) }
{
    let mut text = String::new(alloc);
    push_label(&mut text, from, frame)?;
    Ok(text)
}

fn push_label(
    text: &mut String,
    from: Option<Side>,
    frame: &Result<Frame<'_>, FrameFault>,
) -> Result<(), AllocError>
    ensures { OnOk result (string_bytes text.new
        ≡ string_bytes text.old ++ label_words from frame.now) }
{
    match frame {
        Ok(frame) => {
            let role = known_role(from, frame.address().role);
            push_control(text, role, frame.control())
        }
        Err(fault) => text.push_str(fault.kind.name()),
    }
}

/// The sender.
fn sender_letter(from: Option<Side>) -> &'static [u8]
    ensures { result.now ≡ sender_letter from }
{
    match from {
        None => b"?",
        Some(Side::User) => b"U",
        Some(Side::Network) => b"N",
    }
}

/// A time in microseconds, if it is known.
fn moment_words(alloc: Global, moment: Option<u64>) -> Result<String, AllocError>
    ensures { IfOk result (λ text. string_bytes text ≡ moment_words moment) }
{
    match moment {
        None => Ok(String::new(alloc)),
        Some(moment) => number_words(alloc, moment),
    }
}

/// The message in a frame of this sender, if it is known.
fn message_words(alloc: Global, from: Option<Side>, octets: &[u8]) -> Result<Vec<u8>, AllocError>
    ensures { IfOk result (λ text. text.items ≡ message_words from octets.now) }
{
    let mut text = Vec::new(alloc);
    if let Some(from) = from {
        let mut words = String::new(alloc);
        push_names(&mut words, from, octets)?;
        text.extend_from_slice(without_first(words.as_bytes()))?;
    }
    Ok(text)
}

/// The octets after the first one.
fn without_first(octets: &[u8]) -> &[u8]
    ensures { result.now ≡ drop 1 octets.now }
{
    match octets {
        [] => &[],
        [_, rest @ ..] => rest,
    }
}

/// Appends a text in a row.
#[tactic(auto, unfolding(crate::specs::Row::text_cell))]
fn push_text(alloc: Global, text: &mut Vec<u8>, words: &[u8]) -> Result<(), AllocError>
    ensures { OnOk result (text.new.items ≡ text.old.items ++ text_cell words.now) }
{
    text.extend_from_slice(b",\"")?;
    push_escaped(alloc, text, words)?;
    text.extend_from_slice(b"\"")
}

/// Appends the octets of a text.
fn push_escaped(alloc: Global, text: &mut Vec<u8>, words: &[u8]) -> Result<(), AllocError>
    ensures { OnOk result (text.new.items ≡ text.old.items ++ escaped words.now) }
{
    for octet in words {
        push_octet(alloc, text, *octet)?;
    }
    Ok(())
}

/// Appends an octet of a text.
fn push_octet(alloc: Global, text: &mut Vec<u8>, octet: u8) -> Result<(), AllocError>
    ensures { OnOk result (text.new.items ≡ text.old.items ++ escaped_octet octet) }
{
    if is_plain(octet) {
        return text.extend_from_slice(&[octet]);
    }
    let digits = hex::encode(alloc, &[octet])?;
    text.extend_from_slice(b"\\u00")?;
    text.extend_from_slice(digits.as_bytes())
}

/// Whether a text has this octet unchanged.
fn is_plain(octet: u8) -> bool
    ensures { result ≡ is_plain octet }
{
    32 <= octet
        && octet < 127
        && octet != b'"'
        && octet != b'&'
        && octet != b'<'
        && octet != b'>'
        && octet != b'\\'
}

/// Appends a number in decimal digits.
fn push_number(alloc: Global, text: &mut Vec<u8>, number: u64) -> Result<(), AllocError>
    ensures { OnOk result (text.new.items ≡ text.old.items ++ decimal number) }
{
    let digits = number_words(alloc, number)?;
    text.extend_from_slice(digits.as_bytes())
}

/// A number in decimal digits.
fn number_words(alloc: Global, number: u64) -> Result<String, AllocError>
    ensures { IfOk result (λ text. string_bytes text ≡ decimal number) }
{
    format!(in alloc; "{number}")
}
