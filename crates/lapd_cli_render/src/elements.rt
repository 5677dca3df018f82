//! The information elements of a message of Q.931 in words.

ghost use Rattle.std.specs.Prelude.{◌≡◌, ◌++◌, ◌∷◌, ◌<◌, [], IfSome, MatchOption, OnOk, length, map, option_map};
ghost use Rattle.std.specs.String.{string_bytes};
ghost use Rattle.lapd_cli_render.specs.Elements.{bearer_text, behind_octet_3, called_text, calling_text, capability_name, cause_text, channel_at, channel_text, contents_text, element_text, elements_in, elements_text, name_or_digits, octets_behind, shown_digit, value_text, without_first};

use crate::channel::Channel;
use std::alloc::AllocError;

/// Bits 8 to 5 of a shift to another codeset (Q.931 4.5.2).
const SHIFT: u8 = 9;

/// The identifier of bearer capability (Q.931 4.5.5).
const BEARER_CAPABILITY: u8 = 0x04;

/// The identifier of cause (Q.931 4.5.12).
const CAUSE: u8 = 0x08;

/// The identifier of channel identification (Q.931 4.5.13).
const CHANNEL_IDENTIFICATION: u8 = 0x18;

/// The identifier of calling party number (Q.931 4.5.10).
const CALLING_PARTY_NUMBER: u8 = 0x6c;

/// The identifier of called party number (Q.931 4.5.8).
const CALLED_PARTY_NUMBER: u8 = 0x70;

/// Appends those of a message's information elements that are shown, each after a space. The list
/// ends at a shift to another codeset, and at an element that is cut short.
///
/// ```text
///  bearer=speech channel=B2 calling=5551234 called=200
/// ```
///
/// # Errors
///
/// `AllocError` if the text cannot be allocated. A part of it may have been appended.
pub(crate) fn push_elements(text: &mut String, octets: &[u8]) -> Result<(), AllocError>
    ensures { OnOk result (string_bytes text.new
        ≡ string_bytes text.old ++ elements_text octets.now) }
{
    let mut rest = octets;
    while let Some((element, behind)) = first_element(rest) {
        push_element(text, element)?;
        rest = behind;
    }
    Ok(())
}

/// The octets of the first element, and those after it. `None` at the end of the list.
fn first_element(octets: &[u8]) -> Option<(&[u8], &[u8])>
    ensures elements { MatchOption result (elements_in octets.now ≡ [])
        (λ parts. elements_in octets.now ≡ parts.0.now ∷ elements_in parts.1.now) }
    ensures shorter { IfSome result (λ parts. length parts.1.now < length octets.now) }
{
    let [first, rest @ ..] = octets else {
        return None;
    };
    let count = octets_behind(*first, rest);
    if *first / 16 == SHIFT || rest.len() < count {
        return None;
    }
    Some(octets.split_at(1 + count))
}

/// How many octets of an element follow its first: none if bit 8 of the first is 1, else a length
/// and contents (Q.931 4.5.1).
fn octets_behind(first: u8, octets: &[u8]) -> usize
    ensures { result ≡ octets_behind first octets.now }
{
    if first / 128 == 1 {
        return 0;
    }
    match octets {
        [count, ..] => 1 + usize::from(*count),
        [] => 1,
    }
}

/// Appends an element, if it is one of those that are shown.
#[tactic(auto, unfolding(crate::specs::Elements::element_text))]
fn push_element(text: &mut String, element: &[u8]) -> Result<(), AllocError>
    ensures { OnOk result (string_bytes text.new
        ≡ string_bytes text.old ++ element_text element.now) }
{
    match element {
        [identifier, _, contents @ ..] => push_contents(text, *identifier, contents),
        _ => Ok(()),
    }
}

/// Appends the element with this identifier and these contents, which begin with octet 3.
fn push_contents(text: &mut String, identifier: u8, contents: &[u8]) -> Result<(), AllocError>
    ensures { OnOk result (string_bytes text.new
        ≡ string_bytes text.old ++ contents_text identifier contents.now) }
{
    match identifier {
        BEARER_CAPABILITY => push_bearer(text, contents),
        CAUSE => push_cause(text, contents),
        CHANNEL_IDENTIFICATION => push_channel(text, contents),
        CALLING_PARTY_NUMBER => push_calling(text, contents),
        CALLED_PARTY_NUMBER => push_called(text, contents),
        _ => Ok(()),
    }
}

/// Appends the information transfer capability.
fn push_bearer(text: &mut String, contents: &[u8]) -> Result<(), AllocError>
    ensures { OnOk result (string_bytes text.new
        ≡ string_bytes text.old ++ bearer_text contents.now) }
{
    let [third, ..] = contents else {
        return Ok(());
    };
    text.push_str(" bearer=")?;
    push_capability(text, *third % 32, capability_name(*third % 128))
}

/// Appends the name of a capability, or its number.
fn push_capability(
    text: &mut String,
    number: u8,
    name: Option<&'static str>,
) -> Result<(), AllocError>
    ensures { OnOk result (string_bytes text.new ≡ string_bytes text.old
        ++ name_or_digits number (option_map (λ text. text.now) name.entry)) }
{
    match name {
        Some(name) => text.push_str(name),
        None => write!(text, "{number}"),
    }
}

/// The name of the information transfer capability in octet 3 without its bit 8. Bits 7 and 6 are 0
/// in the coding standard of ITU-T.
fn capability_name(coded: u8) -> Option<&'static str>
    ensures { option_map (λ name. name.now) result ≡ capability_name coded }
{
    match coded {
        0 => Some("speech"),
        8 => Some("unrestricted"),
        9 => Some("restricted"),
        16 => Some("3.1kHz"),
        17 => Some("tones"),
        24 => Some("video"),
        _ => None,
    }
}

/// Appends the value of a cause.
fn push_cause(text: &mut String, contents: &[u8]) -> Result<(), AllocError>
    ensures { OnOk result (string_bytes text.new
        ≡ string_bytes text.old ++ cause_text (behind_octet_3 contents.now)) }
{
    match behind_octet_3(contents) {
        Some(octets) => push_value(text, octets),
        None => Ok(()),
    }
}

/// Appends the value of a cause, in octet 4.
fn push_value(text: &mut String, octets: &[u8]) -> Result<(), AllocError>
    ensures { OnOk result (string_bytes text.new
        ≡ string_bytes text.old ++ value_text octets.now) }
{
    let [fourth, ..] = octets else {
        return Ok(());
    };
    let value = *fourth % 128;
    write!(text, " cause={value}")
}

/// Appends a channel, if it is named in a form that is shown.
fn push_channel(text: &mut String, contents: &[u8]) -> Result<(), AllocError>
    ensures { OnOk result (string_bytes text.new
        ≡ string_bytes text.old ++ channel_text (channel_at contents.now)) }
{
    let Some(channel) = Channel::read(contents) else {
        return Ok(());
    };
    text.push_str(" channel=")?;
    channel.push(text)
}

/// Appends the calling party's number.
fn push_calling(text: &mut String, contents: &[u8]) -> Result<(), AllocError>
    ensures { OnOk result (string_bytes text.new
        ≡ string_bytes text.old ++ calling_text (behind_octet_3 contents.now)) }
{
    let Some(digits) = behind_octet_3(contents) else {
        return Ok(());
    };
    text.push_str(" calling=")?;
    push_digits(text, digits)
}

/// Appends the called party's number.
fn push_called(text: &mut String, contents: &[u8]) -> Result<(), AllocError>
    ensures { OnOk result (string_bytes text.new
        ≡ string_bytes text.old ++ called_text contents.now) }
{
    let [_, digits @ ..] = contents else {
        return Ok(());
    };
    text.push_str(" called=")?;
    push_digits(text, digits)
}

/// The octets after octet 3, and after octet 3a, which is present if bit 8 of octet 3 is 0. `None`
/// if one of both is missing.
fn behind_octet_3(contents: &[u8]) -> Option<&[u8]>
    ensures { option_map (λ octets. octets.now) result ≡ behind_octet_3 contents.now }
{
    let [third, octets @ ..] = contents else {
        return None;
    };
    if *third / 128 == 0 {
        without_first(octets)
    } else {
        Some(octets)
    }
}

/// The octets after the first; `None` if there is no octet.
fn without_first(octets: &[u8]) -> Option<&[u8]>
    ensures { option_map (λ rest. rest.now) result ≡ without_first octets.now }
{
    match octets {
        [_, rest @ ..] => Some(rest),
        [] => None,
    }
}

/// Appends the digits of a number.
fn push_digits(text: &mut String, digits: &[u8]) -> Result<(), AllocError>
    ensures { OnOk result (string_bytes text.new
        ≡ string_bytes text.old ++ map shown_digit digits.now) }
{
    for digit in digits {
        push_digit(text, *digit)?;
    }
    Ok(())
}

/// Appends an octet of a number, an IA5 character.
fn push_digit(text: &mut String, octet: u8) -> Result<(), AllocError>
    ensures { OnOk result (string_bytes text.new
        ≡ string_bytes text.old ++ shown_digit octet ∷ []) }
{
    text.push(char::from(shown_digit(octet)))
}

/// The character that an octet of a number is shown as: itself if it is visible in ASCII, else `?`.
/// A quotation mark or a backslash would need an escape in JSON, and becomes `?` too.
fn shown_digit(octet: u8) -> u8
    ensures value { result ≡ shown_digit octet }
    ensures ascii { result < 128 }
{
    match octet {
        b'"' | b'\\' => b'?',
        b'!'..=b'~' => octet,
        _ => b'?',
    }
}
