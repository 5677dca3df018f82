//! Trace lines, as `lapd` prints them.

use crate::cisco::{first_word, push_octets, write_frame};
use crate::text::{behind, digits_behind, is_hex_digit, number_at, without_spaces};
use arrayvec::ArrayVec;
use lapd_cli_script::is_word;
use lapd_frame::{Address, Control, MOST_OCTETS, Number, Role, Sapi, Side, Tei};
use std::alloc::{AllocError, Global};

/// A line about a frame: its sender, and the text behind the direction.
#[derive(Clone, Copy)]
pub(crate) struct TraceLine<'a> {
    /// The sender.
    pub(crate) from: Side,
    /// The address and the fields of the frame, or a fault and the octets.
    pub(crate) text: &'a [u8],
}

/// The line about a frame, if it is one, such as `U>N SAPI 0 TEI 64 C SABME P=1` or
/// `N>U F1 TooShort 00`, perhaps behind other text, such as a time.
pub(crate) fn trace_line(line: &[u8]) -> Option<TraceLine<'_>> {
    let (from, text) = match (behind(b"U>N ", line), behind(b"N>U ", line)) {
        (Some(text), _) => (Side::User, text),
        (None, Some(text)) => (Side::Network, text),
        (None, None) => return None,
    };
    match text {
        [b'S', b'A', b'P', b'I', b' ', ..] | [b'F', b'1'..=b'7', b' ', ..] => {
            Some(TraceLine { from, text })
        }
        _ => None,
    }
}

impl<'a> TraceLine<'a> {
    /// The octets of a line with a fault, in digits; `None` if the line has a frame.
    pub(crate) fn faulty_digits(&self) -> Option<&'a [u8]> {
        let [b'F', _, b' ', rest @ ..] = self.text else {
            return None;
        };
        let (_fault, octets) = first_word(rest);
        let (digits, _rest) = first_word(without_spaces(octets));
        Some(without_semicolon(digits))
    }

    /// Puts the octets of the frame into `octets`. Returns whether the line fixes a frame.
    pub(crate) fn octets_into(
        &self,
        alloc: Global,
        octets: &mut ArrayVec<u8, MOST_OCTETS>,
    ) -> Result<bool, AllocError> {
        let mut info = Vec::new(alloc);
        push_octets(&mut info, behind(b" info=", self.text).unwrap_or(&[]))?;
        Ok(self.put(info.as_slice(), octets))
    }

    // Puts the frame with this information.
    fn put(&self, info: &[u8], octets: &mut ArrayVec<u8, MOST_OCTETS>) -> bool {
        match (self.address(), self.control()) {
            (Some(address), Some(control)) => {
                write_frame(self.from, address, control, info, octets)
            }
            _ => false,
        }
    }

    // The address: SAPI, TEI, and C or R.
    fn address(&self) -> Option<Address> {
        let sapi = number_at(self.text.strip_prefix(b"SAPI ")?)?;
        let text = behind(b" TEI ", self.text)?;
        let tei = number_at(text)?;
        let role = match digits_behind(text) {
            [b' ', b'C', b' ', ..] => Role::Command,
            [b' ', b'R', b' ', ..] => Role::Answer,
            _ => return None,
        };
        Some(Address {
            sapi: Sapi::new(u8::try_from(sapi).ok()?)?,
            role,
            tei: Tei::new(u8::try_from(tei).ok()?)?,
        })
    }

    // The control field: the name of the frame, its numbers, and P or F.
    fn control(&self) -> Option<Control> {
        let [b' ', b'C' | b'R', b' ', fields @ ..] = digits_behind(behind(b" TEI ", self.text)?)
        else {
            return None;
        };
        let (name, values) = first_word(fields);
        let bit = bit_in(values)?;
        let numbered = (number_in(b" N(S)=", values), number_in(b" N(R)=", values));
        match numbered {
            (Some(ns), Some(nr)) if is_word(name, b"I") => Some(Control::I { ns, nr, p: bit }),
            (None, Some(nr)) => supervisory(name, nr, bit),
            (None, None) => unnumbered(name, bit),
            _ => None,
        }
    }
}

// A supervisory frame of this name.
fn supervisory(name: &[u8], nr: Number, pf: bool) -> Option<Control> {
    if is_word(name, b"RR") {
        return Some(Control::Rr { nr, pf });
    }
    if is_word(name, b"RNR") {
        return Some(Control::Rnr { nr, pf });
    }
    if is_word(name, b"REJ") {
        return Some(Control::Rej { nr, pf });
    }
    None
}

// An unnumbered frame of this name.
fn unnumbered(name: &[u8], bit: bool) -> Option<Control> {
    if is_word(name, b"SABME") {
        return Some(Control::Sabme { p: bit });
    }
    if is_word(name, b"DISC") {
        return Some(Control::Disc { p: bit });
    }
    if is_word(name, b"UA") {
        return Some(Control::Ua { f: bit });
    }
    if is_word(name, b"DM") {
        return Some(Control::Dm { f: bit });
    }
    if is_word(name, b"UI") {
        return Some(Control::Ui { p: bit });
    }
    if is_word(name, b"FRMR") {
        return Some(Control::Frmr { f: bit });
    }
    if is_word(name, b"XID") {
        return Some(Control::Xid { pf: bit });
    }
    None
}

// The value of the P or F bit.
fn bit_in(values: &[u8]) -> Option<bool> {
    let text = match (behind(b" P=", values), behind(b" F=", values)) {
        (Some(text), None) | (None, Some(text)) => text,
        (Some(command), Some(response)) if command.len() > response.len() => command,
        (Some(_), Some(response)) => response,
        (None, None) => return None,
    };
    match text {
        [b'0', ..] => Some(false),
        [b'1', ..] => Some(true),
        _ => None,
    }
}

// The sequence number behind this name.
fn number_in(name: &[u8], values: &[u8]) -> Option<Number> {
    let value = number_at(behind(name, values)?)?;
    Number::new(u8::try_from(value).ok()?)
}

// The digits up to the first octet that is none.
fn without_semicolon(digits: &[u8]) -> &[u8] {
    for end in 0..digits.len() {
        if !is_hex_digit(digits[end]) {
            return &digits[..end];
        }
    }
    digits
}
