//! The packet of a capture that contains octets.

ghost use Rattle.std.specs.Prelude.{◌≡◌, ◌<◌, ◌++◌, codes, IfOk, OnOk};
ghost use Rattle.std.specs.Fmt.{decimal};
ghost use Rattle.std.specs.String.{string_bytes};
ghost use Rattle.serde_json.specs.View.{members_view};
ghost use Rattle.lapd_cli_render.specs.Json.{frame_members, named_members, object_text};
ghost use Rattle.lapd_cli_render.specs.Packet.{seconds_text, six_digits, two_digits, with_cut, with_moment, with_packet};

use crate::lines::{put_message, put_reading};
use crate::members::Members;
use lapd_frame::Side;
use std::alloc::{AllocError, Global};

/// The packet of a capture that contains octets.
#[derive(Clone, Copy, Debug, PartialEq, Eq)]
pub struct Packet {
    /// Its number, from 1.
    pub number: u64,
    /// The time of the capture in microseconds since 1970, if known.
    pub moment: Option<u64>,
    /// Whether only the first octets of its frame were captured.
    pub is_cut: bool,
}

/// Like [`crate::line`], for octets in a packet of a capture. The member `packet` is its number,
/// and `time` is the time of the capture, if known, in seconds since 1970 with six decimals. If the
/// packet was cut, a member `cut` is true.
///
/// ```text
/// {"direction":"U>N","frame":"SABME","p":1,"packet":2,"role":"command","sapi":0,"tei":64,"time":"1.002000"}
/// ```
///
/// # Errors
///
/// `AllocError` if an allocation fails.
pub fn packet_line(
    alloc: Global,
    from: Side,
    octets: &[u8],
    packet: Packet,
) -> Result<String, AllocError>
    ensures { IfOk result (λ text. string_bytes text
        ≡ object_text (with_packet packet (frame_members from octets.now))) }
{
    let mut members = Members::new(alloc);
    put_reading(alloc, &mut members, from, octets)?;
    put_packet(alloc, &mut members, packet)?;
    members.into_text()
}

/// Like [`crate::named_line`], with the members that [`packet_line`] adds.
///
/// # Errors
///
/// `AllocError` if an allocation fails.
pub fn named_packet_line(
    alloc: Global,
    from: Side,
    octets: &[u8],
    packet: Packet,
) -> Result<String, AllocError>
    ensures { IfOk result (λ text. string_bytes text
        ≡ object_text (with_packet packet (named_members from octets.now))) }
{
    let mut members = Members::new(alloc);
    put_reading(alloc, &mut members, from, octets)?;
    put_message(alloc, &mut members, from, octets)?;
    put_packet(alloc, &mut members, packet)?;
    members.into_text()
}

/// Adds the number of a packet, the time of its capture, if known, and whether it was cut.
fn put_packet(alloc: Global, members: &mut Members, packet: Packet) -> Result<(), AllocError>
    ensures { OnOk result (members_view members.new.map.entries
        ≡ with_packet packet (members_view members.old.map.entries)) }
{
    members.put_number("packet", packet.number)?;
    put_moment(alloc, members, packet.moment)?;
    put_cut(members, packet.is_cut)
}

/// Adds the time of a capture, if known.
fn put_moment(alloc: Global, members: &mut Members, moment: Option<u64>) -> Result<(), AllocError>
    ensures { OnOk result (members_view members.new.map.entries
        ≡ with_moment moment (members_view members.old.map.entries)) }
{
    match moment {
        Some(moment) => members.put_text("time", seconds_text(alloc, moment)?.as_str()),
        None => Ok(()),
    }
}

/// Adds a mark if a packet was cut.
fn put_cut(members: &mut Members, is_cut: bool) -> Result<(), AllocError>
    ensures { OnOk result (members_view members.new.map.entries
        ≡ with_cut is_cut (members_view members.old.map.entries)) }
{
    if is_cut {
        members.put_flag("cut", true)
    } else {
        Ok(())
    }
}

/// Microseconds as seconds with six decimals.
fn seconds_text(alloc: Global, moment: u64) -> Result<String, AllocError>
    ensures { IfOk result (λ text. string_bytes text ≡ seconds_text moment) }
{
    let parts = six_digits(alloc, moment % 1_000_000)?;
    let mut text = String::new(alloc);
    push_seconds(&mut text, moment / 1_000_000, parts.as_str())?;
    Ok(text)
}

/// Appends seconds, a point and the decimals.
fn push_seconds(text: &mut String, seconds: u64, digits: &str) -> Result<(), AllocError>
    ensures { OnOk result (string_bytes text.new
        ≡ string_bytes text.old ++ (decimal seconds ++ (codes "." ++ digits.now))) }
{
    write!(text, "{seconds}.{digits}")
}

/// The six decimal digits of a number.
fn six_digits(alloc: Global, number: u64) -> Result<String, AllocError>
    requires { number < 1000000 }
    ensures { IfOk result (λ text. string_bytes text ≡ six_digits number) }
{
    let digits = [
        two_digits(number / 10_000),
        two_digits(number / 100 % 100),
        two_digits(number % 100),
    ];
    hex::encode(alloc, &digits)
}

/// Two decimal digits in BCD.
fn two_digits(number: u64) -> u8
    requires { number < 100 }
    ensures { result ≡ two_digits number }
{
    (number / 10 * 16 + number % 10) as u8
}
