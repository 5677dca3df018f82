ghost use Rattle.std.specs.Prelude.{◌≡◌, ◌≤◌, ◌*◌, ◌++◌, [], codes, length, IfOk, OnOk};
ghost use Rattle.std.specs.Fmt.{decimal};
ghost use Rattle.std.specs.String.{string_bytes};
ghost use Rattle.hex.specs.Hex.{encode_lower};
ghost use Rattle.lapd_frame.specs.Address.{sapi_value};
ghost use Rattle.lapd_frame.specs.Frame.{IsFrame, spelling};
ghost use Rattle.lapd_frame.specs.Reading.{frame_at};
ghost use Rattle.lapd_trace.specs.Trace.{trace_line, frame_line, frame_text, direction_text, role_text, poll_text, address_text, control_text, octets_text};

use lapd_frame::{Address, Control, Frame, FrameFault, N201, Number, Role, Sapi, Side};
use std::alloc::{AllocError, Global};

/// The greatest length of a line, in octets of text, less two digits for each octet of the frame.
/// An I frame with information, SAPI 16 or 63 and numbers of three digits has this length.
const MOST_BESIDE_DIGITS: usize = 43;

/// The most octets that the address and control field of a frame have.
const MOST_FIELD_OCTETS: usize = 4;

/// The most octets whose digits are written through the small buffer, such as those of a short
/// message.
const FEW: usize = 32;

/// The line of text for `bytes`, which `from` sent: a frame by the names and values of its fields,
/// or the first fault and the octets. For the user's frames it begins with `U>N`, for the network's
/// with `N>U`.
///
/// ```text
/// N>U SAPI 0 TEI 64 C RR N(R)=0 P=1
/// U>N SAPI 0 TEI 64 C I N(S)=1 N(R)=2 P=0 info=0802
/// U>N F3 SapiNotServed 04817f
/// ```
///
/// It allocates the line once, with at most 43 octets to spare.
///
/// # Errors
///
/// `AllocError` if the line cannot be allocated.
pub fn line(alloc: Global, from: Side, bytes: &[u8]) -> Result<String, AllocError>
    ensures { IfOk result (λ s. string_bytes s ≡ trace_line from bytes.now) }
{
    let mut text = line_room(alloc, bytes.len())?;
    push_line(alloc, &mut text, from, bytes)?;
    Ok(text)
}

/// Appends the line of text for `bytes`, which `from` sent, as [`line`] returns it, so one text can
/// be used for many lines.
///
/// # Errors
///
/// `AllocError` if an allocation fails. The first part of the line may have been appended.
pub fn push_line(
    alloc: Global,
    text: &mut String,
    from: Side,
    bytes: &[u8],
) -> Result<(), AllocError>
    ensures { OnOk result (string_bytes text.new
        ≡ string_bytes text.old ++ trace_line from bytes.now) }
{
    let frame = lapd_frame::read(bytes, from);
    push_line_of(alloc, text, from, bytes, &frame)
}

/// Appends the line of text for `bytes`, as [`push_line`] does, but does not read them again:
/// `frame` is what [`lapd_frame::read`] returned for them.
///
/// # Errors
///
/// `AllocError` if an allocation fails. The first part of the line may have been appended.
pub fn push_line_of(
    alloc: Global,
    text: &mut String,
    from: Side,
    bytes: &[u8],
    frame: &Result<Frame<'_>, FrameFault>,
) -> Result<(), AllocError>
    requires was_read { frame.now ≡ frame_at from bytes.now }
    ensures { OnOk result (string_bytes text.new
        ≡ string_bytes text.old ++ trace_line from bytes.now) }
{
    text.push_str(direction_name(from))?;
    match frame {
        Ok(frame) => push_frame(alloc, text, frame),
        Err(fault) => {
            text.push_str(fault.kind.name())?;
            push_octets(alloc, text, " ", bytes)
        }
    }
}

/// The line of text for a frame that `from` sends: the line of its octets, without writing them.
///
/// It allocates the line once.
///
/// # Errors
///
/// `AllocError` if the line cannot be allocated.
pub fn line_of(alloc: Global, from: Side, frame: &Frame<'_>) -> Result<String, AllocError>
    ensures line { IfOk result (λ s. string_bytes s ≡ frame_line from frame.now) }

    // The line is that of the frame's octets.
    ensures spelled { IsFrame frame.now
        → IfOk result (λ s. string_bytes s ≡ trace_line from (spelling from frame.now)) }
{
    let octets = frame.info().len().saturating_add(MOST_FIELD_OCTETS);
    let mut text = line_room(alloc, octets)?;
    text.push_str(direction_name(from))?;
    push_frame(alloc, &mut text, frame)?;
    Ok(text)
}

/// An empty text, with room for a line with the digits of this many octets.
fn line_room(alloc: Global, octets: usize) -> Result<String, AllocError>
    ensures { IfOk result (λ s. string_bytes s ≡ []) }
{
    let digits = octets.saturating_mul(2);
    String::with_capacity(alloc, digits.saturating_add(MOST_BESIDE_DIGITS))
}

/// Appends address, control field and information.
fn push_frame(alloc: Global, text: &mut String, frame: &Frame<'_>) -> Result<(), AllocError>
    ensures { OnOk result (string_bytes text.new ≡ string_bytes text.old ++ frame_text frame.now) }
{
    let address = frame.address();
    push_address(text, &address)?;
    push_control(text, address.role, frame.control())?;
    push_octets(alloc, text, " info=", frame.info())
}

/// Appends SAPI, TEI and role.
fn push_address(text: &mut String, address: &Address) -> Result<(), AllocError>
    ensures { OnOk result (string_bytes text.new
        ≡ string_bytes text.old ++ address_text address.now) }
{
    text.push_str(sapi_words(address.sapi))?;
    push_number(text, address.tei.value())?;
    text.push_str(role_name(address.role))
}

/// Appends the name of the frame, its sequence numbers and its P/F bit.
fn push_control(text: &mut String, role: Role, control: Control) -> Result<(), AllocError>
    ensures { OnOk result (string_bytes text.new
        ≡ string_bytes text.old ++ control_text role control) }
{
    match control {
        Control::I { ns, nr, p } => {
            push_numbered(text, "I N(S)=", ns, " N(R)=")?;
            push_number(text, nr.value())?;
            text.push_str(poll_name(role, p))
        }
        Control::Rr { nr, pf } => push_numbered(text, "RR N(R)=", nr, poll_name(role, pf)),
        Control::Rnr { nr, pf } => push_numbered(text, "RNR N(R)=", nr, poll_name(role, pf)),
        Control::Rej { nr, pf } => push_numbered(text, "REJ N(R)=", nr, poll_name(role, pf)),
        Control::Sabme { p } => push_unnumbered(text, "SABME", poll_name(role, p)),
        Control::Dm { f } => push_unnumbered(text, "DM", poll_name(role, f)),
        Control::Ui { p } => push_unnumbered(text, "UI", poll_name(role, p)),
        Control::Disc { p } => push_unnumbered(text, "DISC", poll_name(role, p)),
        Control::Ua { f } => push_unnumbered(text, "UA", poll_name(role, f)),
        Control::Frmr { f } => push_unnumbered(text, "FRMR", poll_name(role, f)),
        Control::Xid { pf } => push_unnumbered(text, "XID", poll_name(role, pf)),
    }
}

/// Appends words, a sequence number, and words.
fn push_numbered(
    text: &mut String,
    front: &str,
    number: Number,
    back: &str,
) -> Result<(), AllocError>
    ensures { OnOk result (string_bytes text.new
        ≡ string_bytes text.old ++ (front.now ++ (decimal number ++ back.now))) }
{
    text.push_str(front)?;
    push_number(text, number.value())?;
    text.push_str(back)
}

/// Appends a number in decimal digits.
fn push_number(text: &mut String, number: u8) -> Result<(), AllocError>
    ensures { OnOk result (string_bytes text.new ≡ string_bytes text.old ++ decimal number) }
{
    text.push_str(itoa::Buffer::new().format(number))
}

/// Appends the name of an unnumbered frame and its P/F bit.
fn push_unnumbered(text: &mut String, name: &str, poll: &str) -> Result<(), AllocError>
    ensures { OnOk result (string_bytes text.new
        ≡ string_bytes text.old ++ (name.now ++ poll.now)) }
{
    text.push_str(name)?;
    text.push_str(poll)
}

/// Appends these words and the octets in lower case hexadecimal, or nothing if there are no octets.
///
/// # Errors
///
/// `AllocError` if an allocation fails. The first part may have been appended.
pub fn push_octets(
    alloc: Global,
    text: &mut String,
    words: &str,
    octets: &[u8],
) -> Result<(), AllocError>
    ensures { OnOk result (string_bytes text.new
        ≡ string_bytes text.old ++ octets_text words.now octets.now) }
{
    if octets.is_empty() {
        return Ok(());
    }
    text.push_str(words)?;
    if octets.len() > N201 {
        return text.push_str(hex::encode(alloc, octets)?.as_str());
    }
    push_hex(text, octets)
}

/// Appends at most 260 octets in lower case hexadecimal. The digits are built on the stack. Few
/// octets use a small buffer, since a buffer is cleared before it is used.
fn push_hex(text: &mut String, octets: &[u8]) -> Result<(), AllocError>
    requires { length octets.now ≤ N201 }
    ensures { OnOk result (string_bytes text.new
        ≡ string_bytes text.old ++ encode_lower octets.now) }
{
    if octets.len() <= FEW {
        push_digits(text, octets, &mut [0; 2 * FEW])
    } else {
        push_digits(text, octets, &mut [0; 2 * N201])
    }
}

/// Appends octets in lower case hexadecimal, through `room`, which has space for their digits.
fn push_digits(text: &mut String, octets: &[u8], room: &mut [u8]) -> Result<(), AllocError>
    requires { 2 * length octets.now ≤ length room.old }
    ensures { OnOk result (string_bytes text.new
        ≡ string_bytes text.old ++ encode_lower octets.now) }
{
    let digits = &mut room[..2 * octets.len()];
    let Ok(()) = hex::encode_to_slice(octets, digits) else {
        unreachable!()
    };
    let Ok(digits) = str::from_utf8(digits) else {
        unreachable!()
    };
    text.push_str(digits)
}

/// The first words of a line after its direction, up to the TEI.
fn sapi_words(sapi: Sapi) -> &'static str
    ensures { result.now ≡ codes "SAPI " ++ (decimal (sapi_value sapi) ++ codes " TEI ") }
{
    match sapi {
        Sapi::Call => "SAPI 0 TEI ",
        Sapi::Packet => "SAPI 16 TEI ",
        Sapi::Management => "SAPI 63 TEI ",
    }
}

/// Who sent a frame, and to whom, in the words of a line.
fn direction_name(from: Side) -> &'static str
    ensures { result.now ≡ direction_text from }
{
    match from {
        Side::User => "U>N ",
        Side::Network => "N>U ",
    }
}

/// C for a command, R for a response.
fn role_name(role: Role) -> &'static str
    ensures { result.now ≡ role_text role }
{
    match role {
        Role::Command => " C ",
        Role::Answer => " R ",
    }
}

/// The P bit of a command, the F bit of a response.
fn poll_name(role: Role, bit: bool) -> &'static str
    ensures { result.now ≡ poll_text role bit }
{
    match (role, bit) {
        (Role::Command, false) => " P=0",
        (Role::Command, true) => " P=1",
        (Role::Answer, false) => " F=0",
        (Role::Answer, true) => " F=1",
    }
}
