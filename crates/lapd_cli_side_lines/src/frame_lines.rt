//! The lines that print frames.

ghost use Rattle.std.specs.Prelude.{◌≡◌, ◌++◌, OnOk};
ghost use Rattle.std.specs.String.{string_bytes};
ghost use Rattle.lapd_frame.specs.Reading.{frame_at};
ghost use Rattle.lapd_cli_side_lines.specs.SideTexts.{frame_text_line};

use crate::line_style::LineStyle;
use crate::side_texts::push_line;
use lapd_frame::{Frame, FrameFault, Side, read};
use std::alloc::{AllocError, Global};

/// Appends the line of a frame that `side` sent, in this style, with a line feed.
///
/// # Errors
///
/// `AllocError` if an allocation fails. Part of the line may have been appended.
pub fn push_frame(
    alloc: Global,
    text: &mut String,
    style: LineStyle,
    side: Side,
    octets: &[u8],
) -> Result<(), AllocError>
    ensures { OnOk result (string_bytes text.new
        ≡ string_bytes text.old ++ frame_text_line style side octets.now) }
{
    let frame = read(octets, side);
    push_frame_of(alloc, text, style, side, octets, &frame)
}

/// Appends the line of a frame that `side` sent, as [`push_frame`] does, but does not read its
/// octets again: `frame` is what [`lapd_frame::read`] returned for them.
///
/// # Errors
///
/// `AllocError` if an allocation fails. Part of the line may have been appended.
pub fn push_frame_of(
    alloc: Global,
    text: &mut String,
    style: LineStyle,
    side: Side,
    octets: &[u8],
    frame: &Result<Frame<'_>, FrameFault>,
) -> Result<(), AllocError>
    requires was_read { frame.now ≡ frame_at side octets.now }
    ensures { OnOk result (string_bytes text.new
        ≡ string_bytes text.old ++ frame_text_line style side octets.now) }
{
    match style {
        LineStyle::Text => push_trace_of(alloc, text, side, octets, frame),
        LineStyle::Json => {
            let object = lapd_cli_render::line_of(alloc, side, octets, frame)?;
            push_line(text, object.as_str())
        }
    }
}

/// Appends the trace line of a frame that `side` sent, with a line feed. `frame` is what
/// [`lapd_frame::read`] returned for its octets.
///
/// # Errors
///
/// `AllocError` if an allocation fails. Part of the line may have been appended.
pub fn push_trace_of(
    alloc: Global,
    text: &mut String,
    side: Side,
    octets: &[u8],
    frame: &Result<Frame<'_>, FrameFault>,
) -> Result<(), AllocError>
    requires was_read { frame.now ≡ frame_at side octets.now }
    ensures { OnOk result (string_bytes text.new
        ≡ string_bytes text.old ++ frame_text_line LineStyle.Text side octets.now) }
{
    lapd_trace::push_line_of(alloc, text, side, octets, frame)?;
    text.push('\n')
}
