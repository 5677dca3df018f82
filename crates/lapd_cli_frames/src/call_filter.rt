//! The call reference in a frame.

ghost use Rattle.std.specs.Prelude.{◌≡◌, Some};
ghost use Rattle.lapd_filter.specs.Filter.{is_requested};
ghost use Rattle.lapd_cli_frames.specs.CallFilter.{call_by_control, call_by_sapi, call_in, call_of, first_of, reference_of, value_of};

use lapd_cli_render::{CallMessage, CallReference};
use lapd_frame::{Control, Frame, FrameFault, Sapi, Side};

/// Whether these octets have a message of Q.931 with this call reference, if one is requested.
pub(crate) fn is_of_call(call: Option<u16>, octets: &[u8]) -> bool
    ensures { result ≡ is_requested call (call_in octets.now) }
{
    match call {
        None => true,
        Some(call) => is_call(call, call_in(octets)),
    }
}

/// Whether this call reference was found.
fn is_call(call: u16, found: Option<u16>) -> bool
    ensures { result ≡ is_requested (Some call) found }
{
    match found {
        None => false,
        Some(found) => call == found,
    }
}

/// The call reference in these octets, if one side or the other sent them: only one of them can have
/// sent an I frame or a UI frame, since these are commands.
fn call_in(octets: &[u8]) -> Option<u16>
    ensures { result ≡ call_in octets.now }
{
    let by_network = call_of(&lapd_frame::read(octets, Side::Network));
    let by_user = call_of(&lapd_frame::read(octets, Side::User));
    first_of(by_network, by_user)
}

/// The first call reference, or the other one if it is absent.
fn first_of(call: Option<u16>, other: Option<u16>) -> Option<u16>
    ensures { result ≡ first_of call other }
{
    match call {
        None => other,
        Some(call) => Some(call),
    }
}

/// The call reference in a frame.
fn call_of(frame: &Result<Frame<'_>, FrameFault>) -> Option<u16>
    ensures { result ≡ call_of frame.now }
{
    match frame {
        Ok(frame) => call_by_control(frame.control(), frame.address().sapi, frame.info()),
        Err(_) => None,
    }
}

/// The call reference in the information of a frame with this control field and SAPI.
fn call_by_control(control: Control, sapi: Sapi, info: &[u8]) -> Option<u16>
    ensures { result ≡ call_by_control control sapi info.now }
{
    match control {
        Control::I { .. } | Control::Ui { .. } => call_by_sapi(sapi, info),
        _ => None,
    }
}

/// The call reference in information of this SAPI: 0 carries Q.931.
fn call_by_sapi(sapi: Sapi, info: &[u8]) -> Option<u16>
    ensures { result ≡ call_by_sapi sapi info.now }
{
    match sapi {
        Sapi::Call => reference_of(CallMessage::read(info)),
        Sapi::Packet | Sapi::Management => None,
    }
}

/// The call reference of a message.
fn reference_of(message: Option<CallMessage>) -> Option<u16>
    ensures { result ≡ reference_of message }
{
    match message {
        None => None,
        Some(message) => value_of(message.reference),
    }
}

/// The value of a call reference.
fn value_of(reference: Option<CallReference>) -> Option<u16>
    ensures { result ≡ value_of reference }
{
    match reference {
        None => None,
        Some(reference) => Some(reference.value),
    }
}
