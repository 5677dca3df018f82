//! Lines with `TX` or `RX`, and octets behind a colon, as Osmocom prints them.

use crate::cisco::first_word;
use crate::text::{behind, is_hex_digit, without_spaces};

/// A line about a frame.
#[derive(Clone, Copy)]
pub(crate) struct TracedLine<'a> {
    /// Whether the program that printed the line sent the frame.
    pub(crate) is_sent: bool,
    /// The octets of the frame, in digits.
    pub(crate) text: &'a [u8],
}

/// The line about a frame, as `TX 3: 00 81 7f` or `RX: 00 81 73`, perhaps behind other text; or of
/// mISDN, with `PH_DATA_REQ` or `PH_DATA_IND` before the colon.
pub(crate) fn traced_line(line: &[u8]) -> Option<TracedLine<'_>> {
    let (is_sent, rest) = match (
        marked(b"TX", b"PH_DATA_REQ", line),
        marked(b"RX", b"PH_DATA_IND", line),
    ) {
        (Some(rest), _) => (true, rest),
        (None, Some(rest)) => (false, rest),
        (None, None) => return None,
    };
    let text = last_part(rest)?;
    if is_hex(text) {
        Some(TracedLine { is_sent, text })
    } else {
        None
    }
}

// The text behind the first of these marks that occurs.
fn marked<'a>(mark: &[u8], other: &[u8], line: &'a [u8]) -> Option<&'a [u8]> {
    match behind(mark, line) {
        Some(rest) => Some(rest),
        None => behind(other, line),
    }
}

// The text behind the last colon with a space behind it.
fn last_part(text: &[u8]) -> Option<&[u8]> {
    let mut part = behind(b": ", text)?;
    let mut rest = part;
    for _octet in 0..text.len() {
        let [_, next @ ..] = rest else {
            return Some(part);
        };
        if let Some(behind) = rest.strip_prefix(b": ") {
            part = behind;
        }
        rest = next;
    }
    Some(part)
}

// Whether a text has octets of two digits alone, at least two, with spaces between them.
fn is_hex(text: &[u8]) -> bool {
    let mut count = 0usize;
    let mut rest = without_spaces(text);
    for _word in 0..text.len() {
        let (word, behind) = first_word(rest);
        match word {
            [high, low] if is_hex_digit(*high) && is_hex_digit(*low) => {}
            _ => return word.is_empty() && count >= 2,
        }
        count = count.saturating_add(1);
        rest = behind.trim_ascii_start();
    }
    count >= 2
}
