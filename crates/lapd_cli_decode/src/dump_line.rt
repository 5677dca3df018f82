//! A line of a hex dump of several lines, in the forms of other programs.

use std::alloc::{AllocError, Global};

/// The digits of an octet.
const DIGITS: &[u8; 16] = b"0123456789abcdef";

/// A line of a hex dump.
#[derive(Drop)]
pub(crate) struct DumpLine<'a> {
    /// The offset, in digits.
    offset: &'a [u8],
    /// Whether the offset is octal or decimal.
    is_octal: bool,
    /// The octets of the line; none in the last line of some dumps.
    pub(crate) octets: Vec<u8>,
}

impl<'a> DumpLine<'a> {
    /// Reads a line of a dump; `None` if it is another one.
    pub(crate) fn read(alloc: Global, line: &'a [u8]) -> Result<Option<DumpLine<'a>>, AllocError> {
        let line = line.trim_ascii();
        let (word, behind) = line.split_at(word_len(line).min(line.len()));
        if let Some(text) = behind.strip_prefix(b": ") {
            return DumpLine::of(
                alloc,
                digits_of(word),
                false,
                before(b"  ", text.trim_ascii()),
            );
        }
        match (word.len(), behind) {
            (4, [b' ', b' ', text @ ..]) => {
                DumpLine::of(alloc, word, false, before(b"   ", text))
            }
            (8, [b' ', b' ', text @ ..]) => DumpLine::of(alloc, word, false, before(b"|", text)),
            (7, [b' ', text @ ..]) => DumpLine::of(alloc, word, true, before(b"  >", text)),
            (7, []) => DumpLine::of(alloc, word, true, b""),
            (8, []) => DumpLine::of(alloc, word, false, b""),
            _ => Ok(None),
        }
    }

    // The line of a dump with this offset and these octets, if they are both digits.
    fn of(
        alloc: Global,
        offset: &'a [u8],
        is_octal: bool,
        text: &[u8],
    ) -> Result<Option<DumpLine<'a>>, AllocError> {
        if offset.is_empty() || !offset.iter().all(|octet| value_of(*octet).is_some()) {
            return Ok(None);
        }
        let mut octets = Vec::new(alloc);
        if !push_octets(&mut octets, text)? {
            return Ok(None);
        }
        Ok(Some(DumpLine {
            offset,
            is_octal,
            octets,
        }))
    }

    /// Whether its octets are at this place of the dump.
    pub(crate) fn is_at(&self, place: usize) -> bool {
        if self.is_octal {
            is_number(self.offset, 8, place) || is_number(self.offset, 10, place)
        } else {
            is_number(self.offset, 16, place)
        }
    }
}

// Appends the octets that a text spells, with spaces between them. Returns whether it spells octets.
fn push_octets(octets: &mut Vec<u8>, text: &[u8]) -> Result<bool, AllocError> {
    let mut first = None;
    for octet in text {
        match (first, value_of(*octet)) {
            (None, Some(high)) => first = Some(high),
            (Some(high), Some(low)) => {
                octets.push(octet_of(high, low))?;
                first = None;
            }
            (None, None) if *octet == b' ' => {}
            (_, None) => return Ok(false),
        }
    }
    Ok(first.is_none())
}

// The octet with these digits.
fn octet_of(high: u8, low: u8) -> u8 {
    high.wrapping_mul(16).wrapping_add(low)
}

// Whether these digits to this base are this number.
fn is_number(digits: &[u8], base: usize, number: usize) -> bool {
    let mut value = 0usize;
    for digit in digits {
        let Some(digit) = value_of(*digit) else {
            return false;
        };
        let digit = usize::from(digit);
        if digit >= base {
            return false;
        }
        value = value.saturating_mul(base).saturating_add(digit);
    }
    value == number
}

// The value of a hexadecimal digit.
fn value_of(octet: u8) -> Option<u8> {
    match octet {
        b'0'..=b'9' => Some(octet - b'0'),
        b'a'..=b'f' => Some(octet - b'a' + 10),
        b'A'..=b'F' => Some(octet - b'A' + 10),
        _ => None,
    }
}

// The length of the first word.
fn word_len(line: &[u8]) -> usize {
    line.iter()
        .position(|octet| matches!(*octet, b' ' | b':'))
        .unwrap_or(line.len())
}

// The digits of an offset, without a leading `0x`.
fn digits_of(word: &[u8]) -> &[u8] {
    match word {
        [b'0', b'x', digits @ ..] => digits,
        digits => digits,
    }
}

// The text before these octets; all of it if they are not in it.
fn before<'a>(gap: &[u8], text: &'a [u8]) -> &'a [u8] {
    for end in 0..text.len() {
        if text[end..].starts_with(gap) {
            return &text[..end];
        }
    }
    text
}

/// Appends the octets as a dump of one line, with a line feed.
pub(crate) fn push_dump(text: &mut Vec<u8>, octets: &[u8]) -> Result<(), AllocError> {
    text.extend_from_slice(b"0000  ")?;
    for octet in octets {
        text.push(DIGITS[usize::from(*octet / 16)])?;
        text.push(DIGITS[usize::from(*octet % 16)])?;
        text.push(b' ')?;
    }
    text.push(b'\n')?;
    Ok(())
}
