//! The words of a frame.

ghost use Rattle.std.specs.Prelude.{◌≡◌, ◌++◌, codes, option_map, IfOk, OnOk};
ghost use Rattle.std.specs.Fmt.{decimal};
ghost use Rattle.std.specs.String.{string_bytes};
ghost use Rattle.lapd_frame.specs.Address.{sapi_value};
ghost use Rattle.lapd_cli_ladder.specs.Words.{bit_words, control_words, fields_words, frame_words, head_words, kind_or_none, known_role, message_name, name_by_control, name_if, number_words, reading_of, said_beside};
ghost use Rattle.lapd_cli_render.specs.CallMessage.{message_at};

use crate::parts::{name_of, nr_of, ns_of};
use lapd_cli_render::CallMessage;
use lapd_follow::Remarks;
use lapd_frame::{Address, Control, Frame, FrameFault, Number, Role, Sapi, Side};
use lapd_trace::push_octets;
use std::alloc::{AllocError, Global};

/// Reads octets that `from` sent. If the sender is not known, they are read as the network's.
pub fn reading_of(from: Option<Side>, octets: &[u8]) -> Result<Frame<'_>, FrameFault>
    ensures { result ≡ reading_of from octets.now }
{
    lapd_frame::read(octets, from.unwrap_or(Side::Network))
}

/// The words of these octets of `from`, which [`reading_of`] read as this frame or fault. If
/// messages of Q.931 are to be named, their name is in place of their octets.
pub(crate) fn frame_words(
    alloc: Global,
    names: bool,
    from: Option<Side>,
    octets: &[u8],
    frame: &Result<Frame<'_>, FrameFault>,
) -> Result<String, AllocError>
    ensures { IfOk result (λ text. string_bytes text
        ≡ frame_words names from octets.now frame.now) }
{
    let mut text = String::new(alloc);
    push_words(alloc, &mut text, names, from, octets, frame)?;
    Ok(text)
}

fn push_words(
    alloc: Global,
    text: &mut String,
    names: bool,
    from: Option<Side>,
    octets: &[u8],
    frame: &Result<Frame<'_>, FrameFault>,
) -> Result<(), AllocError>
    ensures { OnOk result (string_bytes text.new
        ≡ string_bytes text.old ++ frame_words names from octets.now frame.now) }
{
    match frame {
        Ok(frame) => {
            let role = known_role(from, frame.address().role);
            push_fields(alloc, text, role, frame, name_if(names, frame))
        }
        Err(fault) => {
            text.push_str(fault.kind.name())?;
            push_octets(alloc, text, " ", octets)
        }
    }
}

/// The role, if the sender is known.
pub fn known_role(from: Option<Side>, role: Role) -> Option<Role>
    ensures { result ≡ known_role from role }
{
    match from {
        None => None,
        Some(_) => Some(role),
    }
}

/// The name of the message in a frame, if that is requested and there is one.
fn name_if(names: bool, frame: &Frame<'_>) -> Option<&'static str>
    ensures { option_map (λ name. name.now) result ≡ name_if names frame.now }
{
    if names {
        message_name(frame.address().sapi, frame.control(), frame.info())
    } else {
        None
    }
}

/// The name of the message of Q.931 in a frame: an I or UI frame of SAPI 0 has one.
fn message_name(sapi: Sapi, control: Control, info: &[u8]) -> Option<&'static str>
    ensures { option_map (λ name. name.now) result ≡ message_name sapi control info.now }
{
    match (sapi, control) {
        (Sapi::Call, Control::I { .. } | Control::Ui { .. }) => kind_of(CallMessage::read(info)),
        _ => None,
    }
}

/// The name of a message of Q.931, if it has one.
fn kind_of(message: Option<CallMessage>) -> Option<&'static str>
    ensures { option_map (λ name. name.now) result ≡ kind_or_none message }
{
    match message {
        None => None,
        Some(message) => message.name(),
    }
}

/// Appends the fields of a frame with this role, and its octets of information, or in their place
/// this name in front.
fn push_fields(
    alloc: Global,
    text: &mut String,
    role: Option<Role>,
    frame: &Frame<'_>,
    name: Option<&'static str>,
) -> Result<(), AllocError>
    ensures { OnOk result (string_bytes text.new ≡ string_bytes text.old
        ++ fields_words role frame.now (option_map (λ name. name.now) name.entry)) }
{
    match name {
        None => {
            push_head(text, role, frame)?;
            push_octets(alloc, text, " info=", frame.info())
        }
        Some(name) => {
            text.push_str(name)?;
            text.push_str(" ")?;
            push_head(text, role, frame)
        }
    }
}

/// Appends the address and the control field of a frame with this role.
fn push_head(text: &mut String, role: Option<Role>, frame: &Frame<'_>) -> Result<(), AllocError>
    ensures { OnOk result (string_bytes text.new
        ≡ string_bytes text.old ++ head_words role frame.now) }
{
    push_address(text, &frame.address())?;
    push_control(text, role, frame.control())
}

/// Appends SAPI and TEI.
fn push_address(text: &mut String, address: &Address) -> Result<(), AllocError>
    ensures { OnOk result (string_bytes text.new ≡ string_bytes text.old
        ++ (decimal (sapi_value address.now.sapi)
        ++ (codes " " ++ (decimal address.now.tei ++ codes " ")))) }
{
    let sapi = address.sapi.value();
    let tei = address.tei.value();
    write!(text, "{sapi} {tei} ")
}

/// Appends the name of a frame with this role, its sequence numbers and its P/F bit.
///
/// # Errors
///
/// `AllocError` if an allocation fails. A part of the words may have been appended.
pub fn push_control(
    text: &mut String,
    role: Option<Role>,
    control: Control,
) -> Result<(), AllocError>
    ensures { OnOk result (string_bytes text.new
        ≡ string_bytes text.old ++ control_words role control) }
{
    text.push_str(name_of(control))?;
    push_number(text, " N(S)=", ns_of(control))?;
    push_number(text, " N(R)=", nr_of(control))?;
    text.push_str(bit_words(role, control.poll_final()))
}

/// Appends words and a number, if there is one.
fn push_number(text: &mut String, words: &str, number: Option<Number>) -> Result<(), AllocError>
    ensures { OnOk result (string_bytes text.new
        ≡ string_bytes text.old ++ number_words words.now number) }
{
    match number {
        None => Ok(()),
        Some(number) => {
            let value = number.value();
            write!(text, "{words}{value}")
        }
    }
}

/// The P bit of a command, the F bit of a response; the P/F bit if the role is not known.
fn bit_words(role: Option<Role>, bit: bool) -> &'static str
    ensures { result.now ≡ bit_words role bit }
{
    match (role, bit) {
        (None, false) => " P/F=0",
        (None, true) => " P/F=1",
        (Some(Role::Command), false) => " P=0",
        (Some(Role::Command), true) => " P=1",
        (Some(Role::Answer), false) => " F=0",
        (Some(Role::Answer), true) => " F=1",
    }
}

/// The remarks beside the name of the message, if it is printed: the name says the same of a message
/// of TEI management as the remark on its kind.
pub fn said_beside(names: bool, said: &Remarks) -> Remarks
    ensures { result ≡ said_beside names said.now }
{
    if names {
        Remarks {
            identity: None,
            ..*said
        }
    } else {
        *said
    }
}
