//! The lines of a ladder.

ghost use Rattle.std.specs.Prelude.{◌≡◌, ◌++◌, IfOk, OnOk};
ghost use Rattle.std.specs.Fmt.{decimal};
ghost use Rattle.std.specs.String.{string_bytes};
ghost use Rattle.lapd_cli_ladder.specs.Ladder.{arrival_line, arrow, arrow_or_lost, beside, between_width, blanks, head_line, labelled, ladder_line, line_back, line_front, lost_arrow, lost_label, rung_line, time_heading};

use crate::columns::{push_filled, push_right, push_shortened};
use crate::ends::known_words;
use crate::frame_to_draw::FrameToDraw;
use crate::words::{frame_words, reading_of};
use lapd_frame::Side;
use std::alloc::{AllocError, Global};

/// The width of the packet's number, in columns.
const NUMBER_WIDTH: usize = 6;

/// The width of the words of the user's end.
const END_WIDTH: usize = 10;

/// The columns between the upright lines without times.
const BETWEEN: usize = 48;

/// The most columns of the words in the arrow of a lost frame.
const MOST_LOST_WORDS: usize = 32;

/// The columns of the words in the arrow of a lost frame, with the dashes behind them.
const LOST_LABEL_WIDTH: usize = 34;

/// How a ladder is drawn.
#[derive(Clone, Copy, Debug, PartialEq, Eq)]
pub struct LadderStyle {
    /// The columns of the times, with the space behind them; 0 without times.
    pub time_width: usize,
    /// Whether the message in a frame is named.
    pub names: bool,
}

/// Appends the line above the first frame.
///
/// # Errors
///
/// `AllocError` if an allocation fails. A part of the line may have been appended.
pub fn push_head(text: &mut Vec<u8>, style: LadderStyle) -> Result<(), AllocError>
    ensures { OnOk result (text.new.items ≡ text.old.items ++ head_line style.time_width) }
{
    push_line(
        text,
        style.time_width,
        b"packet",
        time_heading(style.time_width),
        b"user",
        blanks(style.time_width),
        b"network",
    )
}

/// The columns between the upright lines beside times of this width: fewer if there are times, so
/// that 80 columns suffice.
pub(crate) fn between_width(width: usize) -> usize
    ensures { result ≡ between_width width }
{
    if width == 0 { BETWEEN } else { 36 }
}

/// The text between the upright lines if there is no arrow.
fn blanks(width: usize) -> &'static [u8]
    ensures { result.now ≡ blanks width }
{
    if width == 0 {
        b"                                                "
    } else {
        b"                                    "
    }
}

/// The heading of the times.
fn time_heading(width: usize) -> &'static [u8]
    ensures { result.now ≡ time_heading width }
{
    if width == 0 { b"" } else { b"time " }
}

/// Appends the line of a frame.
///
/// # Errors
///
/// `AllocError` if an allocation fails. A part of the line may have been appended.
pub fn push_rung(
    alloc: Global,
    text: &mut Vec<u8>,
    style: LadderStyle,
    frame: &FrameToDraw<'_>,
) -> Result<(), AllocError>
    ensures { OnOk result (text.new.items ≡ text.old.items ++ rung_line style frame.now.packet
        frame.now.time.now frame.now.from frame.now.octets.now frame.now.listener.now) }
{
    let reading = reading_of(frame.from, frame.octets);
    let words = frame_words(alloc, style.names, frame.from, frame.octets, &reading)?;
    let user = known_words(alloc, Side::User, &reading, frame.listener)?;
    let network = known_words(alloc, Side::Network, &reading, frame.listener)?;
    let number = number_words(alloc, frame.packet.number)?;
    let mut between = Vec::new(alloc);
    let width = between_width(style.time_width);
    push_arrow(alloc, &mut between, width, frame.from, words.as_bytes())?;
    push_line(
        text,
        style.time_width,
        number.as_bytes(),
        frame.time,
        user.as_bytes(),
        between.as_slice(),
        network.as_bytes(),
    )
}

/// Appends the line of the octets that `from` sent, and that arrive or are lost, with these words
/// of both ends.
///
/// # Errors
///
/// `AllocError` if an allocation fails. A part of the line may have been appended.
pub fn push_arrival(
    alloc: Global,
    text: &mut Vec<u8>,
    is_lost: bool,
    from: Side,
    octets: &[u8],
    user: &[u8],
    network: &[u8],
) -> Result<(), AllocError>
    ensures { OnOk result (text.new.items ≡ text.old.items
        ++ arrival_line is_lost from octets.now user.now network.now) }
{
    let frame = reading_of(Some(from), octets);
    let words = frame_words(alloc, false, Some(from), octets, &frame)?;
    let mut between = Vec::new(alloc);
    push_arrow_or_lost(alloc, &mut between, is_lost, from, words.as_bytes())?;
    push_line(text, 0, b"", b"", user, between.as_slice(), network)
}

/// Appends the arrow of a frame with these words, which is lost or not.
fn push_arrow_or_lost(
    alloc: Global,
    text: &mut Vec<u8>,
    is_lost: bool,
    from: Side,
    words: &[u8],
) -> Result<(), AllocError>
    ensures { OnOk result (text.new.items
        ≡ text.old.items ++ arrow_or_lost is_lost from words.now) }
{
    if is_lost {
        push_lost_arrow(alloc, text, from, words)
    } else {
        push_arrow(alloc, text, BETWEEN, Some(from), words)
    }
}

/// Appends the arrow of a lost frame with these words.
fn push_lost_arrow(
    alloc: Global,
    text: &mut Vec<u8>,
    from: Side,
    words: &[u8],
) -> Result<(), AllocError>
    ensures { OnOk result (text.new.items ≡ text.old.items ++ lost_arrow from words.now) }
{
    match from {
        Side::User => {
            text.extend_from_slice(b"-- ")?;
            push_lost_label(alloc, text, words)?;
            text.extend_from_slice(b"X          ")
        }
        Side::Network => {
            text.extend_from_slice(b"          X-- ")?;
            push_lost_label(alloc, text, words)
        }
    }
}

/// Appends the words in the arrow of a lost frame, with the dashes behind them.
fn push_lost_label(alloc: Global, text: &mut Vec<u8>, words: &[u8]) -> Result<(), AllocError>
    ensures { OnOk result (text.new.items ≡ text.old.items ++ lost_label words.now) }
{
    let mut label = Vec::new(alloc);
    push_shortened(&mut label, MOST_LOST_WORDS, words)?;
    label.extend_from_slice(b" ")?;
    push_filled(text, b'-', LOST_LABEL_WIDTH, label.as_slice())
}

/// A number in decimal digits.
pub(crate) fn number_words(alloc: Global, number: u64) -> Result<String, AllocError>
    ensures { IfOk result (λ text. string_bytes text ≡ decimal number) }
{
    format!(in alloc; "{number}")
}

/// Appends the arrow of this width of a frame with these words. It has no head if the sender is not
/// known.
fn push_arrow(
    alloc: Global,
    text: &mut Vec<u8>,
    between: usize,
    from: Option<Side>,
    words: &[u8],
) -> Result<(), AllocError>
    ensures { OnOk result (text.new.items ≡ text.old.items ++ arrow between from words.now) }
{
    match from {
        Some(Side::User) => {
            text.extend_from_slice(b"-- ")?;
            push_labelled(alloc, text, between, words)?;
            text.extend_from_slice(b">")
        }
        Some(Side::Network) => {
            text.extend_from_slice(b"<-- ")?;
            push_labelled(alloc, text, between, words)
        }
        None => {
            text.extend_from_slice(b"?- ")?;
            push_labelled(alloc, text, between, words)?;
            text.extend_from_slice(b"?")
        }
    }
}

/// Appends the words in an arrow of this width, with the dashes behind them.
fn push_labelled(
    alloc: Global,
    text: &mut Vec<u8>,
    between: usize,
    words: &[u8],
) -> Result<(), AllocError>
    ensures { OnOk result (text.new.items ≡ text.old.items ++ labelled between words.now) }
{
    let mut label = Vec::new(alloc);
    push_shortened(&mut label, between.saturating_sub(6), words)?;
    label.extend_from_slice(b" ")?;
    push_filled(text, b'-', between.saturating_sub(4), label.as_slice())
}

/// Appends a line with these words in its columns.
pub(crate) fn push_line(
    text: &mut Vec<u8>,
    width: usize,
    packet: &[u8],
    time: &[u8],
    user: &[u8],
    between: &[u8],
    network: &[u8],
) -> Result<(), AllocError>
    ensures { OnOk result (text.new.items ≡ text.old.items ++ ladder_line width packet.now time.now
        user.now between.now network.now) }
{
    push_front(text, width, packet, time, user)?;
    push_back(text, between, network)
}

/// Appends a line up to that of the user.
fn push_front(
    text: &mut Vec<u8>,
    width: usize,
    packet: &[u8],
    time: &[u8],
    user: &[u8],
) -> Result<(), AllocError>
    ensures { OnOk result (text.new.items
        ≡ text.old.items ++ line_front width packet.now time.now user.now) }
{
    push_right(text, NUMBER_WIDTH, packet)?;
    text.extend_from_slice(b" ")?;
    push_right(text, width, time)?;
    push_right(text, END_WIDTH, user)?;
    text.extend_from_slice(b" |")
}

/// Appends the rest of a line.
fn push_back(text: &mut Vec<u8>, between: &[u8], network: &[u8]) -> Result<(), AllocError>
    ensures { OnOk result (text.new.items
        ≡ text.old.items ++ line_back between.now network.now) }
{
    text.extend_from_slice(between)?;
    text.extend_from_slice(b"|")?;
    push_beside(text, network)?;
    text.extend_from_slice(b"\n")
}

/// Appends the words beside the line at the right, after a space.
fn push_beside(text: &mut Vec<u8>, words: &[u8]) -> Result<(), AllocError>
    ensures { OnOk result (text.new.items ≡ text.old.items ++ beside words.now) }
{
    if words.is_empty() {
        return Ok(());
    }
    text.extend_from_slice(b" ")?;
    text.extend_from_slice(words)
}
