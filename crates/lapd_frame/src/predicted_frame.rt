ghost use Rattle.std.specs.Prelude.{◌≡◌, ◌≤◌, ◌/◌, ◌%◌, ◌==◌, length, false, None, Ok, IfSome, IfNone};
ghost use Rattle.lapd_field.specs.declared.control.Control.TheVariants.{I, Rr};
ghost use Rattle.lapd_frame.specs.Frame.{content_fault};
ghost use Rattle.lapd_frame.specs.PredictedFrame.{are_parts_of, is_predictable, is_read_predictable, numbered_frame, predicted_control, predicted_fields, predicted_role};
ghost use Rattle.lapd_frame.specs.Reading.{frame_at};

use crate::N201;
use lapd_field::{Address, FieldFault, Number, Role, Sapi, Side, Tei};

/// The kinds of frames that header prediction reads.
#[derive(Clone, Copy)]
pub enum PredictedKind {
    /// An I command with P=0 and this N(S).
    Message(Number),
    /// An RR response with F=0.
    Acknowledgement,
    /// An RR command with P=1.
    Poll,
}

/// A frame that header prediction reads: an I command with P=0, an RR response with F=0, or an RR
/// command with P=1. It borrows its information.
#[derive(Clone, Copy)]
pub struct PredictedFrame<'a> {
    /// The service access point.
    pub sapi: Sapi,
    /// The terminal endpoint.
    pub tei: Tei,
    /// The kind of the frame.
    pub kind: PredictedKind,
    /// N(R).
    pub nr: Number,
    /// The information, empty if it has none.
    pub info: &'a [u8],
}

/// Reads the frame in `octets`, which `from` sent, as [`read`](crate::read) does, if it is of one
/// of the kinds that are predicted. Returns `None` for any other octets.
#[inline(always)]
pub fn read_predicted(octets: &[u8], from: Side) -> Option<PredictedFrame<'_>>
    ensures found { IfSome result (λ p. frame_at from octets.now ≡ Ok (predicted_fields p)) }
    ensures fits { IfSome result (λ p. length p.info.now ≤ N201) }
    ensures declined { IfNone result (is_read_predictable (frame_at from octets.now) ≡ false) }
{
    match octets {
        [first, second, third, fourth, ..] => read_numbered(
            Address::read([*first, *second], from),
            *third,
            *fourth,
            &octets[4..],
        ),
        _ => None,
    }
}

/// The frame of an address field and the octets after it.
#[inline(always)]
fn read_numbered(
    address: Result<Address, FieldFault>,
    third: u8,
    fourth: u8,
    info: &[u8],
) -> Option<PredictedFrame<'_>>
    ensures found { IfSome result (λ p. numbered_frame address third fourth info.now
        ≡ Ok (predicted_fields p)) }
    ensures fits { IfSome result (λ p. length p.info.now ≤ N201) }
    ensures declined { IfNone result
        (is_read_predictable (numbered_frame address third fourth info.now) ≡ false) }
{
    let Ok(address) = address else {
        return None;
    };
    if third % 2 == 0 {
        message(address, third, fourth, info)
    } else if third == 0x01 {
        ready(address, fourth, info)
    } else {
        None
    }
}

/// The I frame with these octets.
#[inline(always)]
fn message(address: Address, third: u8, fourth: u8, info: &[u8]) -> Option<PredictedFrame<'_>>
    requires { third % 2 ≡ 0 }
    ensures found { IfSome result (λ p. are_parts_of address
        (I (third / 2) (fourth / 2) (fourth % 2 == 1)) info.now p) }
    ensures fits { IfSome result (λ p. length p.info.now ≤ N201) }
    ensures declined { IfNone result (content_fault address.role
        (I (third / 2) (fourth / 2) (fourth % 2 == 1)) (length info.now) ≡ None
        → is_predictable (I (third / 2) (fourth / 2) (fourth % 2 == 1)) address.role ≡ false) }
{
    let ns = half(third);
    let nr = half(fourth);
    let p = fourth % 2 == 1;
    match address.role {
        Role::Command => {
            if p {
                None
            } else if info.len() <= N201 {
                Some(predicted(address, PredictedKind::Message(ns), nr, info))
            } else {
                None
            }
        }
        Role::Answer => None,
    }
}

/// The RR with this octet after the first of its control field.
#[inline(always)]
fn ready(address: Address, fourth: u8, info: &[u8]) -> Option<PredictedFrame<'_>>
    ensures found { IfSome result (λ p. are_parts_of address
        (Rr (fourth / 2) (fourth % 2 == 1)) info.now p) }
    ensures fits { IfSome result (λ p. length p.info.now ≤ N201) }
    ensures declined { IfNone result (content_fault address.role
        (Rr (fourth / 2) (fourth % 2 == 1)) (length info.now) ≡ None
        → is_predictable (Rr (fourth / 2) (fourth % 2 == 1)) address.role ≡ false) }
{
    let nr = half(fourth);
    let pf = fourth % 2 == 1;
    match address.role {
        Role::Command => {
            if !pf {
                None
            } else if info.is_empty() {
                Some(predicted(address, PredictedKind::Poll, nr, info))
            } else {
                None
            }
        }
        Role::Answer => {
            if pf {
                None
            } else if info.is_empty() {
                Some(predicted(address, PredictedKind::Acknowledgement, nr, info))
            } else {
                None
            }
        }
    }
}

/// The number in the upper seven bits of an octet.
#[inline(always)]
fn half(octet: u8) -> Number
    ensures { result ≡ octet / 2 }
{
    match Number::new(octet / 2) {
        Some(number) => number,
        None => unreachable!(),
    }
}

/// The frame of this kind with these parts.
#[inline(always)]
fn predicted(address: Address, kind: PredictedKind, nr: Number, info: &[u8]) -> PredictedFrame<'_>
    ensures fields { predicted_fields result ≡ record {
      address = record { sapi = address.sapi; tei = address.tei; role = predicted_role kind };
      control = predicted_control kind nr;
      info = info.now;
    } }
    ensures info { result.info.now ≡ info.now }
{
    PredictedFrame {
        sapi: address.sapi,
        tei: address.tei,
        kind,
        nr,
        info,
    }
}
