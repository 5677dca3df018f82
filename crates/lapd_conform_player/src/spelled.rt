//! Frames in words, spelled in octets.

ghost use Rattle.std.specs.Prelude.{◌≡◌, ◌≤◌, ◌%◌};

use crate::stack::Stack;
use crate::values::Values;
use hex::FromHexError;
use lapd_conform_suite::{Fields, Information, Kind, Line, Pattern, Request, Step, TeiKind};
use lapd_frame::{Control, N201, Number as SequenceNumber, Role};
use lapd_tei::TeiMessage;
use std::alloc::{AllocError, Global};

/// The group TEI.
pub(crate) const GROUP: u8 = 127;

/// The octets that a line of a case sends to a stack whose link has this TEI, without the values that
/// the case kept before. Empty if the line sends nothing.
///
/// # Errors
///
/// An allocation failed.
pub fn sent_octets(
    alloc: Global,
    stack: &Stack,
    tei: u8,
    line: &Line<'_>,
) -> Result<Vec<u8>, AllocError> {
    match line.step {
        Step::Send(pattern) => spelled(alloc, &Values::new(*stack, tei), pattern, line),
        _ => Ok(Vec::new(alloc)),
    }
}

/// The word of a request, in a suite and for an upper tester.
pub fn request_word(request: Request) -> &'static str {
    match request {
        Request::Establish => "establish",
        Request::Release => "release",
        Request::Give => "give",
        Request::Unit => "unit",
        Request::Busy => "busy",
        Request::Ready => "ready",
        Request::Ask => "ask",
        Request::Check => "check",
        Request::Remove => "remove",
    }
}

/// The octets of a frame that the tester sends.
pub(crate) fn spelled(
    alloc: Global,
    values: &Values,
    pattern: Pattern,
    line: &Line<'_>,
) -> Result<Vec<u8>, AllocError> {
    let text = octets_of(alloc, line.text)?;
    let info = text.as_slice();
    let mut octets = Vec::new(alloc);
    match pattern {
        Pattern::Command(kind, fields) | Pattern::Either(kind, fields) => {
            put_frame(&mut octets, values, Role::Command, kind, &fields, info)?;
        }
        Pattern::Response(kind, fields) => {
            put_frame(&mut octets, values, Role::Answer, kind, &fields, info)?;
        }
        Pattern::Tei(kind, fields) => {
            let message = tei_message(values, kind, &fields);
            octets.extend_from_slice(&message.frame(values.tester()))?;
        }
        Pattern::Octets(role) => {
            octets.extend_from_slice(&values.address(role, 0, values.tei))?;
            octets.extend_from_slice(info)?;
        }
        Pattern::Raw => return Ok(text),
        Pattern::Nothing | Pattern::Acknowledgement(_) => {}
    }
    Ok(octets)
}

fn put_frame(
    octets: &mut Vec<u8>,
    values: &Values,
    role: Role,
    kind: Kind,
    fields: &Fields,
    text: &[u8],
) -> Result<(), AllocError> {
    let sapi = low_octet(values.field(fields.sapi, 0));
    let tei = low_octet(values.field(fields.tei, u16::from(values.tei)));
    let control = control_of(
        kind,
        modulo_128(values.field(fields.send_number, 0)),
        modulo_128(values.field(fields.receive_number, 0)),
        values.field(fields.bit, 0) % 2 == 1,
    );
    octets.extend_from_slice(&values.address(role, sapi, tei))?;
    octets.extend_from_slice(control.write().as_slice())?;
    put_information(octets, kind, fields.information, text)
}

/// The control field of this kind. A kind without a number or bit leaves it out.
pub(crate) fn control_of(kind: Kind, ns: SequenceNumber, nr: SequenceNumber, bit: bool) -> Control {
    match kind {
        Kind::Information => Control::I { ns, nr, p: bit },
        Kind::ReceiveReady => Control::Rr { nr, pf: bit },
        Kind::ReceiveNotReady => Control::Rnr { nr, pf: bit },
        Kind::Reject => Control::Rej { nr, pf: bit },
        Kind::Sabme => Control::Sabme { p: bit },
        Kind::DisconnectedMode => Control::Dm { f: bit },
        Kind::UnnumberedInformation => Control::Ui { p: bit },
        Kind::Disconnect => Control::Disc { p: bit },
        Kind::UnnumberedAcknowledgement => Control::Ua { f: bit },
        Kind::FrameReject => Control::Frmr { f: bit },
        Kind::ExchangeIdentification => Control::Xid { pf: bit },
    }
}

/// The sequence number of this value modulo 128.
pub(crate) fn modulo_128(value: u16) -> SequenceNumber
    ensures { result ≡ value % 128 }
{
    SequenceNumber::new((value % 128) as u8).unwrap()
}

/// Appends the information. An I frame without any has three octets.
fn put_information(
    octets: &mut Vec<u8>,
    kind: Kind,
    information: Information,
    text: &[u8],
) -> Result<(), AllocError> {
    match information {
        Information::LeftOut if kind == Kind::Information => {
            octets.extend_from_slice(&[0x08, 0x01, 0x02])
        }
        Information::LeftOut => Ok(()),
        Information::Octets => octets.extend_from_slice(text),
        Information::Longest => octets.extend_from_slice(&[0; N201]),
        Information::TooLong => octets.extend_from_slice(&[0; N201 + 1]),
    }
}

fn tei_message(values: &Values, kind: TeiKind, fields: &Fields) -> TeiMessage
    ensures { result.ai ≤ 127 }
{
    TeiMessage {
        ri: values.field(fields.reference, 0),
        kind,
        ai: low_octet(values.field(fields.action_indicator, 0)) % 128,
    }
}

/// The octets of hexadecimal digits; none if they are not pairs of digits.
fn octets_of(alloc: Global, digits: &[u8]) -> Result<Vec<u8>, AllocError> {
    match hex::decode(alloc, digits) {
        Ok(octets) => Ok(octets),
        Err(FromHexError::OutOfMemory) => Err(AllocError),
        Err(_) => Ok(Vec::new(alloc)),
    }
}

/// Whether octets are those of hexadecimal digits. There are at most N201.
pub(crate) fn are_digits_of(octets: &[u8], digits: &[u8]) -> bool {
    let mut spelled = [0; N201];
    match spelled.get_mut(..octets.len()) {
        Some(front) => hex::decode_to_slice(digits, front).is_ok() && *front == *octets,
        None => false,
    }
}

/// The last eight bits.
fn low_octet(number: u16) -> u8 {
    (number % 256) as u8
}
