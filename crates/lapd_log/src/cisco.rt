//! Lines of Cisco's `debug isdn q921`: a frame as digits, or as its name and the values of its
//! fields.

use crate::text::{behind, is_hex_digit, number_at, without_spaces};
use arrayvec::ArrayVec;
use lapd_cli_script::is_word;
use lapd_frame::{Address, Control, Frame, MOST_OCTETS, Number, Role, Sapi, Side, Tei, write_over};
use std::alloc::{AllocError, Global};

/// The octet in front of a message of TEI management (Q.921 Table 7).
const MANAGEMENT: u8 = 0x0f;

/// A line about a frame: its sender, and the text of the frame.
#[derive(Clone, Copy)]
pub(crate) struct CiscoLine<'a> {
    /// The sender. A line that does not name its side is taken as of the printer.
    pub(crate) from: Side,
    /// The name of the frame and its values, or its digits.
    pub(crate) text: &'a [u8],
}

/// The line about a frame, if it is one. `printer` is the side that printed the line, unless the
/// line says it.
pub(crate) fn cisco_line(line: &[u8], printer: Side) -> Option<CiscoLine<'_>> {
    let sent = behind(b"TX ->", line);
    let (is_sent, text) = match (sent, behind(b"RX <-", line)) {
        (Some(text), _) => (true, text),
        (None, Some(text)) => (false, text),
        (None, None) => return None,
    };
    let printer = if has(b"Net TX", line) || has(b"Net RX", line) {
        Side::Network
    } else if has(b"User TX", line) || has(b"User RX", line) {
        Side::User
    } else {
        printer
    };
    let from = if is_sent { printer } else { printer.other() };
    Some(CiscoLine {
        from,
        text: without_spaces(text),
    })
}

fn has(word: &[u8], line: &[u8]) -> bool {
    behind(word, line).is_some()
}

/// The interface that the line names behind `ISDN`; empty if it names none.
pub(crate) fn interface_in(line: &[u8]) -> &[u8] {
    let Some(text) = behind(b"ISDN ", line) else {
        return &[];
    };
    let (word, _) = first_word(text);
    word.strip_suffix(b":").unwrap_or(word)
}

/// The first word of a text, and the text behind it, with its space.
pub(crate) fn first_word(text: &[u8]) -> (&[u8], &[u8]) {
    for end in 0..text.len() {
        if matches!(text[end], b' ' | b'\t' | b'\r') {
            return text.split_at(end);
        }
    }
    (text, &[])
}

impl CiscoLine<'_> {
    /// Whether the text of the frame is its digits.
    pub(crate) fn is_digits(&self) -> bool {
        let (word, _) = first_word(self.text);
        let digits = word.strip_prefix(b"0x").unwrap_or(word);
        !digits.is_empty() && digits.iter().all(|octet| is_hex_digit(*octet))
    }

    /// Puts the octets of the frame into `octets`, as far as its name and values fix them: the
    /// information of an I frame is left out if the line does not have it. Returns whether they fix
    /// a frame. A supervisory frame without a letter behind its name is a response with F=0, as an
    /// acknowledgement is.
    pub(crate) fn octets_into(
        &self,
        alloc: Global,
        octets: &mut ArrayVec<u8, MOST_OCTETS>,
    ) -> Result<bool, AllocError> {
        let (word, values) = first_word(self.text);
        if let Some(message) = message_of(word) {
            return Ok(self.management(message, values, octets));
        }
        let mut info = Vec::new(alloc);
        push_info(&mut info, values)?;
        match kind_of(word, values) {
            Some((role, control)) => Ok(self.put(role, control, values, info.as_slice(), octets)),
            None => Ok(false),
        }
    }

    // Puts a frame of the link that the values name.
    fn put(
        &self,
        role: Role,
        control: Control,
        values: &[u8],
        info: &[u8],
        octets: &mut ArrayVec<u8, MOST_OCTETS>,
    ) -> bool {
        match (sapi_in(values), tei_in(values)) {
            (Some(sapi), Some(tei)) => {
                write_frame(
                    self.from,
                    Address { sapi, role, tei },
                    control,
                    info,
                    octets,
                )
            }
            _ => false,
        }
    }

    // Puts a message of TEI management (Q.921 5.3).
    fn management(
        &self,
        message: u8,
        values: &[u8],
        octets: &mut ArrayVec<u8, MOST_OCTETS>,
    ) -> bool {
        let reference = value_in(b" ri", values).unwrap_or(0);
        let indicator = match value_in(b" ai", values) {
            Some(indicator) if indicator < 128 => indicator,
            _ => 127,
        };
        let Ok(reference) = u16::try_from(reference) else {
            return false;
        };
        let [high, low] = reference.to_be_bytes();
        let action = indicator.saturating_mul(2).saturating_add(1);
        let Ok(action) = u8::try_from(action) else {
            return false;
        };
        let address = Address {
            sapi: Sapi::Management,
            role: Role::Command,
            tei: Tei::group(),
        };
        let info = [MANAGEMENT, high, low, message, action];
        write_frame(self.from, address, Control::Ui { p: false }, &info, octets)
    }
}

/// Puts the frame of this sender into `octets`. Returns whether there is such a frame.
pub(crate) fn write_frame(
    from: Side,
    address: Address,
    control: Control,
    info: &[u8],
    octets: &mut ArrayVec<u8, MOST_OCTETS>,
) -> bool {
    match Frame::new(address, control, info) {
        Ok(frame) => {
            write_over(&frame, from, octets);
            true
        }
        Err(_) => false,
    }
}

// The type of a message of TEI management (Q.921 Table 8) with this name.
fn message_of(word: &[u8]) -> Option<u8> {
    if is_word(word, b"IDREQ") {
        return Some(1);
    }
    if is_word(word, b"IDASSN") {
        return Some(2);
    }
    if is_word(word, b"IDDENY") || is_word(word, b"IDDEN") {
        return Some(3);
    }
    if is_word(word, b"IDCKRQ") {
        return Some(4);
    }
    if is_word(word, b"IDCKRP") {
        return Some(5);
    }
    if is_word(word, b"IDREM") {
        return Some(6);
    }
    if is_word(word, b"IDVER") {
        return Some(7);
    }
    None
}

// The role and the control field of a frame with this name and these values. The letter behind the
// name is p for a command with P=1, f for a response with F=1, c for a command and r for a response.
fn kind_of(word: &[u8], values: &[u8]) -> Option<(Role, Control)> {
    if let Some(letter) = word.strip_prefix(b"SABME") {
        let p = is_set(letter)?;
        return Some((Role::Command, Control::Sabme { p }));
    }
    if let Some(letter) = word.strip_prefix(b"DISC") {
        let p = is_set(letter)?;
        return Some((Role::Command, Control::Disc { p }));
    }
    if let Some(letter) = word.strip_prefix(b"UA") {
        let f = is_set(letter)?;
        return Some((Role::Answer, Control::Ua { f }));
    }
    if let Some(letter) = word.strip_prefix(b"DM") {
        let f = is_set(letter)?;
        return Some((Role::Answer, Control::Dm { f }));
    }
    if let Some(letter) = word.strip_prefix(b"INFO") {
        let p = is_set(letter)?;
        let ns = sequence_in(b" ns", values)?;
        let nr = sequence_in(b" nr", values)?;
        return Some((Role::Command, Control::I { ns, nr, p }));
    }
    supervisory(word, values)
}

// The role and the control field of a supervisory frame.
fn supervisory(word: &[u8], values: &[u8]) -> Option<(Role, Control)> {
    let nr = sequence_in(b" nr", values)?;
    if let Some(letter) = word.strip_prefix(b"RR") {
        let pf = is_set(letter)?;
        return Some((role_of(letter), Control::Rr { nr, pf }));
    }
    if let Some(letter) = word.strip_prefix(b"RNR") {
        let pf = is_set(letter)?;
        return Some((role_of(letter), Control::Rnr { nr, pf }));
    }
    if let Some(letter) = word.strip_prefix(b"REJ") {
        let pf = is_set(letter)?;
        return Some((role_of(letter), Control::Rej { nr, pf }));
    }
    None
}

// Whether this letter behind a name says that P or F is 1; `None` if it is another text.
fn is_set(letter: &[u8]) -> Option<bool> {
    match letter {
        [] | [b'c' | b'r'] => Some(false),
        [b'p' | b'f'] => Some(true),
        _ => None,
    }
}

// The role of a supervisory frame with this letter behind its name.
fn role_of(letter: &[u8]) -> Role {
    match letter {
        [b'p' | b'c'] => Role::Command,
        _ => Role::Answer,
    }
}

// The number behind a name and an equals sign.
fn value_in(name: &[u8], values: &[u8]) -> Option<u64> {
    number_at(value_behind(name, values)?)
}

// The text behind a name and an equals sign.
fn value_behind<'a>(name: &[u8], values: &'a [u8]) -> Option<&'a [u8]> {
    let text = without_spaces(behind(name, values)?);
    match text {
        [b'=', rest @ ..] => Some(without_spaces(rest)),
        _ => None,
    }
}

fn sequence_in(name: &[u8], values: &[u8]) -> Option<Number> {
    let value = value_in(name, values)?;
    Number::new(u8::try_from(value).ok()?)
}

fn sapi_in(values: &[u8]) -> Option<Sapi> {
    let value = value_in(b" sapi", values)?;
    Sapi::new(u8::try_from(value).ok()?)
}

fn tei_in(values: &[u8]) -> Option<Tei> {
    let value = value_in(b" tei", values)?;
    Tei::new(u8::try_from(value).ok()?)
}

// Appends the octets whose digits are behind `i = 0x`; none if there are no such digits.
fn push_info(info: &mut Vec<u8>, values: &[u8]) -> Result<(), AllocError> {
    let text = value_behind(b" i", values).unwrap_or(&[]);
    match text.strip_prefix(b"0x") {
        Some(digits) => push_octets(info, digits),
        None => Ok(()),
    }
}

/// Appends the octets whose digits begin a text.
pub(crate) fn push_octets(info: &mut Vec<u8>, digits: &[u8]) -> Result<(), AllocError> {
    let mut rest = digits;
    for _octet in 0..digits.len() {
        let [high, low, next @ ..] = rest else {
            return Ok(());
        };
        match (digit_of(*high), digit_of(*low)) {
            (Some(high), Some(low)) => {
                info.push(high.wrapping_mul(16).wrapping_add(low))?;
            }
            _ => return Ok(()),
        }
        rest = next;
    }
    Ok(())
}

// The value of a hexadecimal digit.
fn digit_of(octet: u8) -> Option<u8> {
    match octet {
        b'0'..=b'9' => Some(octet - b'0'),
        b'a'..=b'f' => Some(octet - b'a' + 10),
        b'A'..=b'F' => Some(octet - b'A' + 10),
        _ => None,
    }
}
