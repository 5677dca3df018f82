ghost use Rattle.std.specs.Prelude.{◌≡◌, ◌++◌, OnOk, option_map};
ghost use Rattle.std.specs.String.{string_bytes};
ghost use Rattle.lapd_cli_render.specs.CallMessage.{call_text, header_text, message_at, name_or_number, reference_text, way_text};
ghost use Rattle.lapd_cli_render.specs.Names.{names_text, information_text, unit_data_text, control_text, kind_text, reference_number_text, tei_text};
ghost use Rattle.lapd_tei.specs.Message.{message_at as tei_message_at};

use crate::call_message::{CallMessage, CallReference};
use crate::elements::push_elements;
use lapd_frame::{Control, Frame, Sapi, Side};
use lapd_tei::{TeiKind, TeiMessage};
use std::alloc::AllocError;

/// Appends a space and the name of the message in these octets, which `from` sent, with its numbers
/// or its information elements. Appends nothing if they are not a frame with a message of TEI
/// management or of Q.931.
///
/// ```text
///  identity request Ri=6199 Ai=127
///  SETUP cr=1 from origin bearer=speech channel=B2 called=200
/// ```
///
/// # Errors
///
/// `AllocError` if the text cannot be allocated. A part of it may have been appended.
pub fn push_names(text: &mut String, from: Side, octets: &[u8]) -> Result<(), AllocError>
    ensures { OnOk result (string_bytes text.new
        ≡ string_bytes text.old ++ names_text from octets.now) }
{
    match lapd_frame::read(octets, from) {
        Ok(frame) => push_frame(text, &frame),
        Err(_) => Ok(()),
    }
}

/// Appends the name of the message in a frame, if any.
fn push_frame(text: &mut String, frame: &Frame<'_>) -> Result<(), AllocError>
    ensures { OnOk result (string_bytes text.new ≡ string_bytes text.old
        ++ control_text frame.now.control frame.now.address.sapi frame.now.info) }
{
    let sapi = frame.address().sapi;
    match frame.control() {
        Control::I { .. } => push_information(text, sapi, frame.info()),
        Control::Ui { .. } => push_unit_data(text, sapi, frame.info()),
        _ => Ok(()),
    }
}

/// Appends the name of the message in an I frame's information, if any.
fn push_information(text: &mut String, sapi: Sapi, info: &[u8]) -> Result<(), AllocError>
    ensures { OnOk result (string_bytes text.new
        ≡ string_bytes text.old ++ information_text sapi info.now) }
{
    match sapi {
        Sapi::Call => push_call(text, info),
        Sapi::Packet | Sapi::Management => Ok(()),
    }
}

/// Appends the name of the message in a UI frame's information, if any.
fn push_unit_data(text: &mut String, sapi: Sapi, info: &[u8]) -> Result<(), AllocError>
    ensures { OnOk result (string_bytes text.new
        ≡ string_bytes text.old ++ unit_data_text sapi info.now) }
{
    match sapi {
        Sapi::Call => push_call(text, info),
        Sapi::Packet => Ok(()),
        Sapi::Management => push_management(text, info),
    }
}

/// Appends the name and numbers of a TEI management message, if the octets form one.
fn push_management(text: &mut String, info: &[u8]) -> Result<(), AllocError>
    ensures { OnOk result (string_bytes text.new
        ≡ string_bytes text.old ++ tei_text (tei_message_at info.now)) }
{
    let Ok(message) = TeiMessage::read(info) else {
        return Ok(());
    };
    let (kind, ri, ai) = (kind_name(message.kind), message.ri, message.ai);
    text.push_str(kind)?;
    push_reference_number(text, ri)?;
    write!(text, " Ai={ai}")
}

/// Appends a reference number in four hexadecimal digits.
fn push_reference_number(text: &mut String, ri: u16) -> Result<(), AllocError>
    ensures { OnOk result (string_bytes text.new
        ≡ string_bytes text.old ++ reference_number_text ri) }
{
    let mut digits = [0; 4];
    let Ok(()) = hex::encode_to_slice([(ri / 256) as u8, (ri % 256) as u8], &mut digits) else {
        unreachable!()
    };
    let Ok(digits) = str::from_utf8(&digits) else {
        unreachable!()
    };
    text.push_str(digits)
}

/// The name of a message of TEI management (Q.921 Table 8), up to its reference number.
fn kind_name(kind: TeiKind) -> &'static str
    ensures { result.now ≡ kind_text kind }
{
    match kind {
        TeiKind::Request => " identity request Ri=",
        TeiKind::Assigned => " identity assigned Ri=",
        TeiKind::Denied => " identity denied Ri=",
        TeiKind::CheckRequest => " identity check request Ri=",
        TeiKind::CheckResponse => " identity check response Ri=",
        TeiKind::Remove => " identity remove Ri=",
        TeiKind::Verify => " identity verify Ri=",
    }
}

/// Appends a Q.931 message, if the octets form one.
fn push_call(text: &mut String, info: &[u8]) -> Result<(), AllocError>
    ensures { OnOk result (string_bytes text.new
        ≡ string_bytes text.old ++ call_text (message_at info.now) info.now) }
{
    let Some(message) = CallMessage::read(info) else {
        return Ok(());
    };
    push_header(text, &message)?;
    push_elements(text, CallMessage::elements(info))
}

/// Appends the name and the call reference of a Q.931 message.
fn push_header(text: &mut String, message: &CallMessage) -> Result<(), AllocError>
    ensures { OnOk result (string_bytes text.new ≡ string_bytes text.old
        ++ header_text message.now) }
{
    text.push_str(" ")?;
    push_name(text, message.kind, message.name())?;
    push_reference(text, message.reference)
}

/// Appends the name of a message type, or its number.
fn push_name(text: &mut String, kind: u8, name: Option<&'static str>) -> Result<(), AllocError>
    ensures { OnOk result (string_bytes text.new ≡ string_bytes text.old
        ++ name_or_number kind (option_map (λ text. text.now) name.entry)) }
{
    match name {
        Some(name) => text.push_str(name),
        None => write!(text, "message {kind}"),
    }
}

/// Appends a call reference.
fn push_reference(text: &mut String, reference: Option<CallReference>) -> Result<(), AllocError>
    ensures { OnOk result (string_bytes text.new
        ≡ string_bytes text.old ++ reference_text reference) }
{
    let Some(CallReference { value, to_origin }) = reference else {
        return text.push_str(" cr=dummy");
    };
    let way = way_name(to_origin);
    write!(text, " cr={value}{way}")
}

/// The direction of a message, relative to the side that originated the call.
fn way_name(to_origin: bool) -> &'static str
    ensures { result.now ≡ way_text to_origin }
{
    if to_origin {
        " to origin"
    } else {
        " from origin"
    }
}
