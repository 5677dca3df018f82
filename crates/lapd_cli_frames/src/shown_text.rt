//! The text of a frame whose sender is not known, or whose SAPI is not served, in each style.

ghost use Rattle.std.specs.Prelude.{◌≡◌, None, OnOk, unwrap_or};
ghost use Rattle.std.specs.String.{string_bytes};
ghost use Rattle.lapd_frame.specs.Reading.{frame_at};
ghost use Rattle.lapd_frame.specs.declared.Side.TheVariants.{Network};
ghost use Rattle.lapd_cli_frames.specs.AnySapi.{with_sapi_0};
ghost use Rattle.lapd_cli_frames.specs.ShownText.{shown_text};

use crate::any_sapi::with_sapi_0;
use crate::shown::{push_brief, push_shown};
use crate::shown_object::push_object;
use crate::style::{Style, mark_cut};
use lapd_cli_render::Packet;
use lapd_frame::{Frame, FrameFault, Side};
use std::alloc::{AllocError, Global};

/// Replaces `line` with the text of octets whose SAPI is not served, read as if it were 0. `packet`
/// is that of a capture.
///
/// # Errors
///
/// `AllocError` if an allocation fails.
pub(crate) fn write_other(
    alloc: Global,
    style: Style,
    is_cut: bool,
    packet: Option<Packet>,
    from: Option<Side>,
    octets: &[u8],
    line: &mut String,
) -> Result<(), AllocError>
    ensures { OnOk result (string_bytes line.new ≡ shown_text style is_cut packet from octets.now
        (frame_at (unwrap_or from Network) (with_sapi_0 octets.now))) }
{
    let copy = with_sapi_0(alloc, octets)?;
    let reading = lapd_frame::read(copy.as_slice(), from.unwrap_or(Side::Network));
    write_reading(alloc, style, is_cut, packet, from, octets, &reading, line)
}

/// Replaces `line` with the text of octets whose sender is not known. `packet` is that of a
/// capture.
///
/// # Errors
///
/// `AllocError` if an allocation fails.
pub(crate) fn write_unsent(
    alloc: Global,
    style: Style,
    is_cut: bool,
    packet: Option<Packet>,
    octets: &[u8],
    line: &mut String,
) -> Result<(), AllocError>
    ensures { OnOk result (string_bytes line.new ≡ shown_text style is_cut packet None octets.now
        (frame_at Network octets.now)) }
{
    let reading = lapd_frame::read(octets, Side::Network);
    write_reading(alloc, style, is_cut, packet, None, octets, &reading, line)
}

/// Replaces `line` with the text of octets that were read as this frame or fault.
fn write_reading(
    alloc: Global,
    style: Style,
    is_cut: bool,
    packet: Option<Packet>,
    from: Option<Side>,
    octets: &[u8],
    reading: &Result<Frame<'_>, FrameFault>,
    line: &mut String,
) -> Result<(), AllocError>
    ensures { OnOk result (string_bytes line.new
        ≡ shown_text style is_cut packet from octets.now reading.now) }
{
    line.clear();
    match style {
        Style::Plain | Style::Named => {
            push_shown(alloc, line, from, octets, reading)?;
            mark_cut(line, is_cut)
        }
        Style::Brief => {
            push_brief(alloc, line, from, octets, reading)?;
            mark_cut(line, is_cut)
        }
        Style::Json | Style::NamedJson => {
            push_object(alloc, line, is_cut, packet, from, octets, reading)
        }
    }
}
