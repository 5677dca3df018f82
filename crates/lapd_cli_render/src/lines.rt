ghost use Rattle.std.specs.Prelude.{◌≡◌, IfOk, OnOk, codes};
ghost use Rattle.std.specs.String.{string_bytes};
ghost use Rattle.serde_json.specs.View.{members_view};
ghost use Rattle.lapd_frame.specs.Reading.{frame_at};
ghost use Rattle.lapd_cli_render.specs.Names.{names_text};
ghost use Rattle.lapd_cli_render.specs.Json.{bit, direction_text, frame_members, named_members, object_text, poll_key, role_text, with_address, with_control, with_frame, with_message, with_numbered, with_octets, with_poll, with_reading, with_text, with_unnumbered};

use crate::members::Members;
use lapd_frame::{Address, Control, Frame, FrameFault, Number, Role, Side};
use std::alloc::{AllocError, Global};

/// Returns the JSON object for octets that `from` sent, in one line without spaces and line feeds.
/// Its members are in alphabetical order.
///
/// ```text
/// {"direction":"U>N","frame":"SABME","p":1,"role":"command","sapi":0,"tei":64}
/// {"direction":"U>N","frame":"I","info":"0802","nr":2,"ns":1,"p":0,"role":"command","sapi":0,"tei":64}
/// {"direction":"N>U","f":1,"frame":"RR","nr":0,"role":"response","sapi":0,"tei":64}
/// {"direction":"U>N","fault":"F3 SapiNotServed","octets":"04817f"}
/// ```
///
/// # Errors
///
/// `AllocError` if an allocation fails.
pub fn line(alloc: Global, from: Side, octets: &[u8]) -> Result<String, AllocError>
    ensures { IfOk result (λ text.
        string_bytes text ≡ object_text (frame_members from octets.now)) }
{
    let frame = lapd_frame::read(octets, from);
    line_of(alloc, from, octets, &frame)
}

/// Returns the JSON object for octets that `from` sent, as [`line`] does, but does not read them
/// again: `frame` is what [`lapd_frame::read`] returned for them.
///
/// # Errors
///
/// `AllocError` if an allocation fails.
pub fn line_of(
    alloc: Global,
    from: Side,
    octets: &[u8],
    frame: &Result<Frame<'_>, FrameFault>,
) -> Result<String, AllocError>
    requires was_read { frame.now ≡ frame_at from octets.now }
    ensures { IfOk result (λ text.
        string_bytes text ≡ object_text (frame_members from octets.now)) }
{
    let mut members = Members::new(alloc);
    put_read(alloc, &mut members, from, octets, frame)?;
    members.into_text()
}

/// Like [`line`], with a member `message` in words if the frame carries a message of TEI management
/// or of Q.931.
///
/// # Errors
///
/// `AllocError` if an allocation fails.
pub fn named_line(alloc: Global, from: Side, octets: &[u8]) -> Result<String, AllocError>
    ensures { IfOk result (λ text.
        string_bytes text ≡ object_text (named_members from octets.now)) }
{
    let mut members = Members::new(alloc);
    put_reading(alloc, &mut members, from, octets)?;
    put_message(alloc, &mut members, from, octets)?;
    members.into_text()
}

/// Adds the sender of octets, and their frame or their first fault.
pub(crate) fn put_reading(
    alloc: Global,
    members: &mut Members,
    from: Side,
    octets: &[u8],
) -> Result<(), AllocError>
    ensures { OnOk result (members_view members.new.map.entries
        ≡ with_reading octets.now (frame_at from octets.now) (with_text (codes "direction")
        (direction_text from) (members_view members.old.map.entries))) }
{
    let frame = lapd_frame::read(octets, from);
    put_read(alloc, members, from, octets, &frame)
}

/// Adds the sender of octets, and the frame or fault that they were read as.
fn put_read(
    alloc: Global,
    members: &mut Members,
    from: Side,
    octets: &[u8],
    frame: &Result<Frame<'_>, FrameFault>,
) -> Result<(), AllocError>
    ensures { OnOk result (members_view members.new.map.entries
        ≡ with_reading octets.now frame.now (with_text (codes "direction")
        (direction_text from) (members_view members.old.map.entries))) }
{
    members.put_text("direction", direction_name(from))?;
    match frame {
        Ok(frame) => put_frame(alloc, members, frame),
        Err(fault) => {
            members.put_text("fault", fault.kind.name())?;
            put_octets(alloc, members, "octets", octets)
        }
    }
}

/// Adds the name of the message that a frame carries, if any.
pub(crate) fn put_message(
    alloc: Global,
    members: &mut Members,
    from: Side,
    octets: &[u8],
) -> Result<(), AllocError>
    ensures { OnOk result (members_view members.new.map.entries
        ≡ with_message (names_text from octets.now) (members_view members.old.map.entries)) }
{
    let mut names = String::new(alloc);
    crate::names::push_names(&mut names, from, octets)?;
    put_words(members, names.as_str())
}

/// Adds the words of a message, which begin with a space.
fn put_words(members: &mut Members, text: &str) -> Result<(), AllocError>
    ensures { OnOk result (members_view members.new.map.entries
        ≡ with_message text.now (members_view members.old.map.entries)) }
{
    match text.strip_prefix(" ") {
        Some(words) => members.put_text("message", words),
        None => Ok(()),
    }
}

/// Adds address, control field and information.
fn put_frame(alloc: Global, members: &mut Members, frame: &Frame<'_>) -> Result<(), AllocError>
    ensures { OnOk result (members_view members.new.map.entries
        ≡ with_frame frame.now (members_view members.old.map.entries)) }
{
    let address = frame.address();
    put_address(members, &address)?;
    put_control(members, address.role, frame.control())?;
    put_octets(alloc, members, "info", frame.info())
}

/// Adds SAPI, TEI and role.
fn put_address(members: &mut Members, address: &Address) -> Result<(), AllocError>
    ensures { OnOk result (members_view members.new.map.entries
        ≡ with_address address.now (members_view members.old.map.entries)) }
{
    members.put_number("sapi", u64::from(address.sapi.value()))?;
    members.put_number("tei", u64::from(address.tei.value()))?;
    members.put_text("role", role_name(address.role))
}

/// Adds the name of the frame, its sequence numbers and its P/F bit.
fn put_control(members: &mut Members, role: Role, control: Control) -> Result<(), AllocError>
    ensures { OnOk result (members_view members.new.map.entries
        ≡ with_control role control (members_view members.old.map.entries)) }
{
    match control {
        Control::I { ns, nr, p } => {
            members.put_number("ns", u64::from(ns.value()))?;
            put_numbered(members, "I", nr, role, p)
        }
        Control::Rr { nr, pf } => put_numbered(members, "RR", nr, role, pf),
        Control::Rnr { nr, pf } => put_numbered(members, "RNR", nr, role, pf),
        Control::Rej { nr, pf } => put_numbered(members, "REJ", nr, role, pf),
        Control::Sabme { p } => put_unnumbered(members, "SABME", role, p),
        Control::Dm { f } => put_unnumbered(members, "DM", role, f),
        Control::Ui { p } => put_unnumbered(members, "UI", role, p),
        Control::Disc { p } => put_unnumbered(members, "DISC", role, p),
        Control::Ua { f } => put_unnumbered(members, "UA", role, f),
        Control::Frmr { f } => put_unnumbered(members, "FRMR", role, f),
        Control::Xid { pf } => put_unnumbered(members, "XID", role, pf),
    }
}

/// Adds the name of an I or supervisory frame, its N(R) and its P/F bit.
fn put_numbered(
    members: &mut Members,
    name: &str,
    nr: Number,
    role: Role,
    pf: bool,
) -> Result<(), AllocError>
    ensures { OnOk result (members_view members.new.map.entries
        ≡ with_numbered name.now nr role pf (members_view members.old.map.entries)) }
{
    members.put_text("frame", name)?;
    members.put_number("nr", u64::from(nr.value()))?;
    put_poll(members, role, pf)
}

/// Adds the name of an unnumbered frame and its P/F bit.
fn put_unnumbered(members: &mut Members, name: &str, role: Role, pf: bool) -> Result<(), AllocError>
    ensures { OnOk result (members_view members.new.map.entries
        ≡ with_unnumbered name.now role pf (members_view members.old.map.entries)) }
{
    members.put_text("frame", name)?;
    put_poll(members, role, pf)
}

/// Adds the P/F bit.
fn put_poll(members: &mut Members, role: Role, pf: bool) -> Result<(), AllocError>
    ensures { OnOk result (members_view members.new.map.entries
        ≡ with_poll role pf (members_view members.old.map.entries)) }
{
    members.put_number(poll_name(role), bit(pf))
}

/// Adds octets in lower case hexadecimal, if there are any.
///
/// # Errors
///
/// `AllocError` if an allocation fails.
pub fn put_octets(
    alloc: Global,
    members: &mut Members,
    key: &str,
    octets: &[u8],
) -> Result<(), AllocError>
    ensures { OnOk result (members_view members.new.map.entries
        ≡ with_octets key.now octets.now (members_view members.old.map.entries)) }
{
    if octets.is_empty() {
        return Ok(());
    }
    members.put_text(key, hex::encode(alloc, octets)?.as_str())
}

/// The direction of a frame: its sender and its receiver.
fn direction_name(from: Side) -> &'static str
    ensures { result.now ≡ direction_text from }
{
    match from {
        Side::User => "U>N",
        Side::Network => "N>U",
    }
}

/// Command or response.
fn role_name(role: Role) -> &'static str
    ensures { result.now ≡ role_text role }
{
    match role {
        Role::Command => "command",
        Role::Answer => "response",
    }
}

/// The name of the P/F bit.
fn poll_name(role: Role) -> &'static str
    ensures { result.now ≡ poll_key role }
{
    match role {
        Role::Command => "p",
        Role::Answer => "f",
    }
}

/// A bit as a number.
fn bit(is_set: bool) -> u64
    ensures { result ≡ bit is_set }
{
    if is_set { 1 } else { 0 }
}
