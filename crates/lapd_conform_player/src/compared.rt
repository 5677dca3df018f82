//! Frames of the stack, compared with what is expected.

use crate::spelled::{are_digits_of, control_of, modulo_128};
use crate::values::Values;
use lapd_conform_suite::{Fields, Information, Kind, Number, Pattern, TeiKind, Value};
use lapd_frame::{Control, Frame, N201, Number as SequenceNumber, Role, Sapi};
use lapd_tei::TeiMessage;

/// Reads a frame of the stack. `None` if the octets do not form a valid frame.
pub(crate) fn frame_of_stack<'f>(values: &Values, octets: &'f [u8]) -> Option<Frame<'f>> {
    lapd_frame::read(octets, values.stack.side).ok()
}

/// The message of TEI management in a frame, if it is a UI command that has one.
pub(crate) fn management(frame: &Frame<'_>) -> Option<TeiMessage> {
    match (frame.address().sapi, frame.control()) {
        (Sapi::Management, Control::Ui { .. }) => TeiMessage::read(frame.info()).ok(),
        _ => None,
    }
}

/// Whether it is a poll: RR or RNR command with P=1.
pub(crate) fn is_poll(frame: &Frame<'_>) -> bool {
    frame.address().role == Role::Command
        && matches!(
            frame.control(),
            Control::Rr { pf: true, .. } | Control::Rnr { pf: true, .. }
        )
}

/// Whether a control field is of this kind.
pub(crate) fn is_kind(control: Control, kind: Kind) -> bool {
    let (ns, nr) = numbers(control);
    control == control_of(kind, ns, nr, control.poll_final())
}

/// N(S) and N(R), 0 without one.
fn numbers(control: Control) -> (SequenceNumber, SequenceNumber) {
    let zero = modulo_128(0);
    match control {
        Control::I { ns, nr, .. } => (ns, nr),
        Control::Rr { nr, .. } | Control::Rnr { nr, .. } | Control::Rej { nr, .. } => (zero, nr),
        _ => (zero, zero),
    }
}

/// The values after a frame of the stack that is expected, with those that it is to keep. `None` if
/// it is not expected.
pub(crate) fn values_after(
    values: &Values,
    pattern: Pattern,
    digits: &[u8],
    octets: &[u8],
) -> Option<Values> {
    let frame = frame_of_stack(values, octets)?;
    let mut after = *values;
    if fits(&mut after, pattern, digits, &frame) {
        Some(after)
    } else {
        None
    }
}

fn fits(values: &mut Values, pattern: Pattern, digits: &[u8], frame: &Frame<'_>) -> bool {
    let role = frame.address().role;
    match pattern {
        Pattern::Command(kind, fields) => {
            role == Role::Command && fits_fields(values, kind, &fields, digits, frame)
        }
        Pattern::Response(kind, fields) => {
            role == Role::Answer && fits_fields(values, kind, &fields, digits, frame)
        }
        Pattern::Either(kind, fields) => fits_fields(values, kind, &fields, digits, frame),
        Pattern::Acknowledgement(number) => acknowledges(values, number, frame),
        Pattern::Tei(kind, fields) => fits_management(values, kind, &fields, frame),
        Pattern::Nothing | Pattern::Octets(_) | Pattern::Raw => false,
    }
}

/// Whether it is RR with F=0, or an I frame with P=0, of the link and with this N(R).
fn acknowledges(values: &Values, number: Number, frame: &Frame<'_>) -> bool {
    let (_, nr) = numbers(frame.control());
    let is_kind = match frame.control() {
        Control::Rr { pf, .. } => !pf,
        Control::I { p, .. } => !p,
        _ => false,
    };
    is_kind && is_link(values, frame) && u16::from(nr.value()) == values.number(number) % 128
}

/// Whether the SAPI and the TEI are those of the link.
pub(crate) fn is_link(values: &Values, frame: &Frame<'_>) -> bool {
    let address = frame.address();
    address.sapi == Sapi::Call && address.tei.value() == values.tei
}

fn fits_fields(
    values: &mut Values,
    kind: Kind,
    fields: &Fields,
    digits: &[u8],
    frame: &Frame<'_>,
) -> bool {
    let (address, control) = (frame.address(), frame.control());
    let (ns, nr) = numbers(control);
    let tei = u16::from(values.tei);
    is_kind(control, kind)
        && fits_or(values, fields.sapi, 0, u16::from(address.sapi.value()), 64)
        && fits_or(values, fields.tei, tei, u16::from(address.tei.value()), 128)
        && values.fits(fields.send_number, u16::from(ns.value()), 128)
        && values.fits(fields.receive_number, u16::from(nr.value()), 128)
        && values.fits(fields.bit, u16::from(control.poll_final()), 2)
        && fits_information(fields.information, digits, frame.info())
}

/// Whether a field has the value that is expected; this one if the field is left out.
fn fits_or(values: &mut Values, value: Value, left_out: u16, seen: u16, modulus: u16) -> bool {
    match value {
        Value::LeftOut => seen == left_out,
        _ => values.fits(value, seen, modulus),
    }
}

fn fits_information(information: Information, digits: &[u8], octets: &[u8]) -> bool {
    match information {
        Information::LeftOut => true,
        Information::Octets => are_digits_of(octets, digits),
        Information::Longest => octets.len() == N201,
        Information::TooLong => false,
    }
}

fn fits_management(values: &mut Values, kind: TeiKind, fields: &Fields, frame: &Frame<'_>) -> bool {
    match management(frame) {
        Some(message) => message.kind == kind
            && values.fits(fields.reference, message.ri, 0)
            && values.fits(fields.action_indicator, u16::from(message.ai), 128),
        None => false,
    }
}
