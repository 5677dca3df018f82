//! The words of sides, frames and reports.

use lapd_bus::Station;
use lapd_cli_ladder::push_control;
use lapd_cli_render::push_names;
use lapd_cli_side_lines::{LineStyle, push_primitive};
use lapd_frame::{Frame, Side, read};
use lapd_sides::{Primitive, SideKind};
use lapd_trace::push_octets;
use std::alloc::{AllocError, Global};

/// The kind of side that a station is.
pub(crate) fn side_of(station: Station) -> Side {
    match station {
        Station::Terminal(_) => Side::User,
        Station::Network(_) => Side::Network,
    }
}

/// Appends the name of a side, with a space after it: the number of a terminal, or `net`.
pub(crate) fn push_station(text: &mut String, station: Station) -> Result<(), AllocError> {
    match station {
        Station::Terminal(at) => write!(text, "{at} "),
        Station::Network(_) => text.push_str("net "),
    }
}

/// Appends the line of a primitive of this side. A primitive without a line appends nothing.
pub(crate) fn push_report(
    alloc: Global,
    text: &mut String,
    station: Station,
    primitive: &Primitive,
) -> Result<(), AllocError> {
    let mut line = String::new(alloc);
    push_primitive(alloc, LineStyle::Text, primitive, &mut line)?;
    if line.is_empty() {
        return Ok(());
    }
    push_station(text, station)?;
    text.push_str(line.as_str())
}

/// Appends the same as a note, in which a terminal is named as one.
pub(crate) fn push_noted_report(
    alloc: Global,
    text: &mut String,
    station: Station,
    primitive: &Primitive,
) -> Result<(), AllocError> {
    let mut line = String::new(alloc);
    push_report(alloc, &mut line, station, primitive)?;
    match station {
        Station::Terminal(_) if !line.is_empty() => text.push_str("terminal ")?,
        _ => {}
    }
    text.push_str(line.as_str())
}

/// Appends the line of a request that this side refused.
pub(crate) fn push_refusal(
    text: &mut String,
    station: Station,
    kind: SideKind,
) -> Result<(), AllocError> {
    push_station(text, station)?;
    writeln!(text, "refused {kind}")
}

/// Appends the words of octets that `from` sent: the address, the control field and the message or
/// the information of a frame, or the fault and the octets.
pub(crate) fn push_frame_words(
    alloc: Global,
    text: &mut String,
    from: Side,
    octets: &[u8],
) -> Result<(), AllocError> {
    match read(octets, from) {
        Ok(frame) => push_fields(alloc, text, from, octets, &frame),
        Err(fault) => {
            text.push_str(fault.kind.name())?;
            push_octets(alloc, text, " ", octets)
        }
    }
}

/// Appends the words of a frame, with these octets.
fn push_fields(
    alloc: Global,
    text: &mut String,
    from: Side,
    octets: &[u8],
    frame: &Frame<'_>,
) -> Result<(), AllocError> {
    let address = frame.address();
    let (sapi, tei) = (address.sapi, address.tei);
    write!(text, "{sapi} {tei} ")?;
    push_control(text, Some(address.role), frame.control())?;
    push_message(alloc, text, from, octets, frame.info())
}

/// Appends the message in a frame by its name, or else the information in digits.
fn push_message(
    alloc: Global,
    text: &mut String,
    from: Side,
    octets: &[u8],
    info: &[u8],
) -> Result<(), AllocError> {
    let mut names = String::new(alloc);
    push_names(&mut names, from, octets)?;
    if names.is_empty() {
        push_octets(alloc, text, " info=", info)
    } else {
        text.push_str(names.as_str())
    }
}
