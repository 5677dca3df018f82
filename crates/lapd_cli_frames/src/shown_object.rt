//! The JSON object of a frame whose sender is not known, or whose SAPI is not served.

ghost use Rattle.std.specs.Prelude.{◌≡◌, ◌++◌, OnOk};
ghost use Rattle.std.specs.String.{string_bytes};
ghost use Rattle.lapd_cli_frames.specs.ShownObject.{cut_member, direction_member, f_member, frame_object, kind_members, moment_member, number_member, numbers_members, octets_member, p_member, packet_member, pf_member, reading_object, role_member, shown_object, time_member};

use crate::any_sapi::sapi_of;
use lapd_cli_ladder::{known_role, name_of, nr_of, ns_of};
use lapd_cli_render::Packet;
use lapd_follow::Seconds;
use lapd_frame::{Frame, FrameFault, Number, Role, Side};
use std::alloc::{AllocError, Global};

/// Appends the object of these octets, which were read as this frame or fault. `packet` is that of
/// a capture. If the sender is not known, the object has no direction and no role.
///
/// ```text
/// {"frame":"RR","nr":1,"packet":4,"pf":0,"sapi":0,"tei":64}
/// ```
///
/// # Errors
///
/// `AllocError` if an allocation fails. A part of the object may have been appended.
pub(crate) fn push_object(
    alloc: Global,
    text: &mut String,
    is_cut: bool,
    packet: Option<Packet>,
    from: Option<Side>,
    octets: &[u8],
    reading: &Result<Frame<'_>, FrameFault>,
) -> Result<(), AllocError>
    ensures { OnOk result (string_bytes text.new ≡ string_bytes text.old
        ++ shown_object is_cut packet from octets.now reading.now) }
{
    text.push_str("{")?;
    text.push_str(cut_member(is_cut))?;
    text.push_str(direction_member(from))?;
    push_reading(alloc, text, packet, from, octets, reading)?;
    push_time(text, packet)?;
    text.push_str("}")
}

/// Appends the members of the frame in these octets, or of their first fault.
fn push_reading(
    alloc: Global,
    text: &mut String,
    packet: Option<Packet>,
    from: Option<Side>,
    octets: &[u8],
    reading: &Result<Frame<'_>, FrameFault>,
) -> Result<(), AllocError>
    ensures { OnOk result (string_bytes text.new
        ≡ string_bytes text.old ++ reading_object packet from octets.now reading.now) }
{
    match reading {
        Ok(frame) => {
            let role = known_role(from, frame.address().role);
            push_frame(alloc, text, packet, sapi_of(octets), role, frame)
        }
        Err(fault) => {
            text.push_str("\"fault\":\"")?;
            text.push_str(fault.kind.name())?;
            text.push_str("\"")?;
            push_octets(alloc, text, ",\"octets\":\"", octets)?;
            push_packet(text, packet)
        }
    }
}

/// Appends the members of a frame of this SAPI.
fn push_frame(
    alloc: Global,
    text: &mut String,
    packet: Option<Packet>,
    sapi: u8,
    role: Option<Role>,
    frame: &Frame<'_>,
) -> Result<(), AllocError>
    ensures { OnOk result (string_bytes text.new
        ≡ string_bytes text.old ++ frame_object packet sapi role frame.now) }
{
    push_kind(alloc, text, role, frame)?;
    push_numbers(text, packet, role, frame)?;
    let tei = frame.address().tei.value();
    write!(text, ",\"sapi\":{sapi},\"tei\":{tei}")
}

/// Appends the F bit of a response, the name of the frame and its information.
fn push_kind(
    alloc: Global,
    text: &mut String,
    role: Option<Role>,
    frame: &Frame<'_>,
) -> Result<(), AllocError>
    ensures { OnOk result (string_bytes text.new
        ≡ string_bytes text.old ++ kind_members role frame.now) }
{
    text.push_str(f_member(role, frame.control().poll_final()))?;
    text.push_str("\"frame\":\"")?;
    text.push_str(name_of(frame.control()))?;
    text.push_str("\"")?;
    push_octets(alloc, text, ",\"info\":\"", frame.info())
}

/// Appends the numbers of the frame, its P or P/F bit, the packet and the role.
fn push_numbers(
    text: &mut String,
    packet: Option<Packet>,
    role: Option<Role>,
    frame: &Frame<'_>,
) -> Result<(), AllocError>
    ensures { OnOk result (string_bytes text.new
        ≡ string_bytes text.old ++ numbers_members packet role frame.now) }
{
    push_number(text, ",\"nr\":", nr_of(frame.control()))?;
    push_number(text, ",\"ns\":", ns_of(frame.control()))?;
    text.push_str(p_member(role, frame.control().poll_final()))?;
    push_packet(text, packet)?;
    text.push_str(pf_member(role, frame.control().poll_final()))?;
    text.push_str(role_member(role))
}

/// Appends a number, if there is one.
fn push_number(text: &mut String, words: &str, number: Option<Number>) -> Result<(), AllocError>
    ensures { OnOk result (string_bytes text.new
        ≡ string_bytes text.old ++ number_member words.now number) }
{
    match number {
        None => Ok(()),
        Some(number) => {
            let value = number.value();
            write!(text, "{words}{value}")
        }
    }
}

/// Appends octets in lower case hexadecimal, if there are any.
fn push_octets(
    alloc: Global,
    text: &mut String,
    words: &str,
    octets: &[u8],
) -> Result<(), AllocError>
    ensures { OnOk result (string_bytes text.new
        ≡ string_bytes text.old ++ octets_member words.now octets.now) }
{
    if octets.is_empty() {
        return Ok(());
    }
    text.push_str(words)?;
    text.push_str(hex::encode(alloc, octets)?.as_str())?;
    text.push_str("\"")
}

/// Appends the number of a packet of a capture.
fn push_packet(text: &mut String, packet: Option<Packet>) -> Result<(), AllocError>
    ensures { OnOk result (string_bytes text.new
        ≡ string_bytes text.old ++ packet_member packet) }
{
    match packet {
        None => Ok(()),
        Some(packet) => {
            let number = packet.number;
            write!(text, ",\"packet\":{number}")
        }
    }
}

/// Appends the time of a packet of a capture.
fn push_time(text: &mut String, packet: Option<Packet>) -> Result<(), AllocError>
    ensures { OnOk result (string_bytes text.new ≡ string_bytes text.old ++ time_member packet) }
{
    match packet {
        None => Ok(()),
        Some(packet) => push_moment(text, packet.moment),
    }
}

/// Appends a time in microseconds, if it is known.
fn push_moment(text: &mut String, moment: Option<u64>) -> Result<(), AllocError>
    ensures { OnOk result (string_bytes text.new ≡ string_bytes text.old ++ moment_member moment) }
{
    match moment {
        None => Ok(()),
        Some(time) => {
            let seconds = Seconds { time };
            write!(text, ",\"time\":\"{seconds}\"")
        }
    }
}

/// The mark of a packet that was cut.
fn cut_member(is_cut: bool) -> &'static str
    ensures { result.now ≡ cut_member is_cut }
{
    if is_cut { "\"cut\":true," } else { "" }
}

/// The direction, if the sender is known.
fn direction_member(from: Option<Side>) -> &'static str
    ensures { result.now ≡ direction_member from }
{
    match from {
        None => "",
        Some(Side::User) => "\"direction\":\"U>N\",",
        Some(Side::Network) => "\"direction\":\"N>U\",",
    }
}

/// The F bit of a response.
fn f_member(role: Option<Role>, pf: bool) -> &'static str
    ensures { result.now ≡ f_member role pf }
{
    match (role, pf) {
        (Some(Role::Answer), false) => "\"f\":0,",
        (Some(Role::Answer), true) => "\"f\":1,",
        (Some(Role::Command), _) | (None, _) => "",
    }
}

/// The P bit of a command.
fn p_member(role: Option<Role>, pf: bool) -> &'static str
    ensures { result.now ≡ p_member role pf }
{
    match (role, pf) {
        (Some(Role::Command), false) => ",\"p\":0",
        (Some(Role::Command), true) => ",\"p\":1",
        (Some(Role::Answer), _) | (None, _) => "",
    }
}

/// The P/F bit, if the role is not known.
fn pf_member(role: Option<Role>, pf: bool) -> &'static str
    ensures { result.now ≡ pf_member role pf }
{
    match (role, pf) {
        (None, false) => ",\"pf\":0",
        (None, true) => ",\"pf\":1",
        (Some(_), _) => "",
    }
}

/// Command or response, if the sender is known.
fn role_member(role: Option<Role>) -> &'static str
    ensures { result.now ≡ role_member role }
{
    match role {
        None => "",
        Some(Role::Command) => ",\"role\":\"command\"",
        Some(Role::Answer) => ",\"role\":\"response\"",
    }
}
