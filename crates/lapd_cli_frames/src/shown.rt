//! The line of a frame whose sender is not known, or whose SAPI is not served.

ghost use Rattle.std.specs.Prelude.{◌≡◌, ◌++◌, OnOk};
ghost use Rattle.std.specs.String.{string_bytes};
ghost use Rattle.lapd_cli_ladder.specs.Words.{control_words, known_role};
ghost use Rattle.lapd_cli_frames.specs.Shown.{address_words, brief_line, brief_words, direction_words, frame_words, reading_words, role_words, shown_line};

use crate::any_sapi::sapi_of;
use lapd_cli_ladder::{known_role, push_control};
use lapd_frame::{Frame, FrameFault, Role, Side};
use std::alloc::{AllocError, Global};

/// Appends the line of these octets, which were read as this frame or fault. If the sender is not
/// known, `?` replaces what depends on it.
///
/// ```text
/// ?>? SAPI 0 TEI 64 ? RR N(R)=1 P/F=0
/// U>N SAPI 1 TEI 64 C SABME P=1
/// ```
///
/// # Errors
///
/// `AllocError` if an allocation fails. A part of the line may have been appended.
pub(crate) fn push_shown(
    alloc: Global,
    text: &mut String,
    from: Option<Side>,
    octets: &[u8],
    reading: &Result<Frame<'_>, FrameFault>,
) -> Result<(), AllocError>
    ensures { OnOk result (string_bytes text.new
        ≡ string_bytes text.old ++ shown_line from octets.now reading.now) }
{
    text.push_str(direction_words(from))?;
    push_reading(alloc, text, from, octets, reading)
}

/// Appends the line of these octets, as [`push_shown`] does, but without the information of a frame.
///
/// ```text
/// U>N SAPI 0 TEI 64 C I N(S)=0 N(R)=0 P=0
/// ```
///
/// # Errors
///
/// `AllocError` if an allocation fails. A part of the line may have been appended.
pub(crate) fn push_brief(
    alloc: Global,
    text: &mut String,
    from: Option<Side>,
    octets: &[u8],
    reading: &Result<Frame<'_>, FrameFault>,
) -> Result<(), AllocError>
    ensures { OnOk result (string_bytes text.new
        ≡ string_bytes text.old ++ brief_line from octets.now reading.now) }
{
    text.push_str(direction_words(from))?;
    match reading {
        Ok(frame) => push_brief_frame(text, from, sapi_of(octets), frame),
        Err(_) => push_reading(alloc, text, from, octets, reading),
    }
}

/// Appends a frame of this SAPI without its information.
fn push_brief_frame(
    text: &mut String,
    from: Option<Side>,
    sapi: u8,
    frame: &Frame<'_>,
) -> Result<(), AllocError>
    ensures { OnOk result (string_bytes text.new ≡ string_bytes text.old
        ++ (address_words sapi frame.now.address.tei (known_role from frame.now.address.role)
        ++ control_words (known_role from frame.now.address.role) frame.now.control)) }
{
    let role = known_role(from, frame.address().role);
    push_address(text, sapi, frame.address().tei.value(), role)?;
    push_control(text, role, frame.control())
}

/// Appends the frame in these octets, or their first fault.
fn push_reading(
    alloc: Global,
    text: &mut String,
    from: Option<Side>,
    octets: &[u8],
    reading: &Result<Frame<'_>, FrameFault>,
) -> Result<(), AllocError>
    ensures { OnOk result (string_bytes text.new
        ≡ string_bytes text.old ++ reading_words from octets.now reading.now) }
{
    match reading {
        Ok(frame) => {
            let role = known_role(from, frame.address().role);
            push_frame(alloc, text, sapi_of(octets), role, frame)
        }
        Err(fault) => {
            text.push_str(fault.kind.name())?;
            lapd_trace::push_octets(alloc, text, " ", octets)
        }
    }
}

/// Appends a frame of this SAPI.
fn push_frame(
    alloc: Global,
    text: &mut String,
    sapi: u8,
    role: Option<Role>,
    frame: &Frame<'_>,
) -> Result<(), AllocError>
    ensures { OnOk result (string_bytes text.new
        ≡ string_bytes text.old ++ frame_words sapi role frame.now) }
{
    push_address(text, sapi, frame.address().tei.value(), role)?;
    push_control(text, role, frame.control())?;
    lapd_trace::push_octets(alloc, text, " info=", frame.info())
}

/// Appends SAPI, TEI and role.
fn push_address(text: &mut String, sapi: u8, tei: u8, role: Option<Role>) -> Result<(), AllocError>
    ensures { OnOk result (string_bytes text.new
        ≡ string_bytes text.old ++ address_words sapi tei role) }
{
    write!(text, "SAPI {sapi} TEI {tei}")?;
    text.push_str(role_words(role))
}

/// The direction of a frame, from this sender.
fn direction_words(from: Option<Side>) -> &'static str
    ensures { result.now ≡ direction_words from }
{
    match from {
        None => "?>? ",
        Some(Side::User) => "U>N ",
        Some(Side::Network) => "N>U ",
    }
}

/// Command or response.
fn role_words(role: Option<Role>) -> &'static str
    ensures { result.now ≡ role_words role }
{
    match role {
        None => " ? ",
        Some(Role::Command) => " C ",
        Some(Role::Answer) => " R ",
    }
}
