//! Octets that are listed with other marks between them than spaces.

use crate::text::is_hex_digit;

/// Whether a text is a list of octets, each of two hexadecimal digits: as `00-81-7f`,
/// `0x00, 0x81, 0x7f`, `{0x00,0x81}` or `"\x00\x81"`, with a mark other than a space.
pub(crate) fn is_list(text: &[u8]) -> bool {
    let mut has_mark = false;
    let mut has_octet = false;
    let mut is_behind_octet = false;
    let mut rest = text;
    for _octet in 0..text.len() {
        let [first, next @ ..] = rest else {
            return has_mark && has_octet;
        };
        let digits = match rest {
            [b'0', b'x' | b'X', digits @ ..] | [b'\\', b'x', digits @ ..] => digits,
            text => text,
        };
        match digits {
            _ if is_mark(*first) => {
                has_mark |= !matches!(*first, b' ' | b'\t' | b'\r');
                is_behind_octet = false;
                rest = next;
            }
            [high, low, behind @ ..] if is_hex_digit(*high) && is_hex_digit(*low) => {
                let is_escaped = *first == b'\\';
                if is_behind_octet && !is_escaped {
                    return false;
                }
                has_mark |= is_escaped;
                has_octet = true;
                is_behind_octet = true;
                rest = behind;
            }
            _ => return false,
        }
    }
    has_mark && has_octet
}

/// Whether a text ends with a comma, so that the list goes on in the next line.
pub(crate) fn goes_on(text: &[u8]) -> bool {
    matches!(text.trim_ascii_end(), [.., b','])
}

// Whether this octet may be between the octets of a list.
fn is_mark(octet: u8) -> bool {
    matches!(
        octet,
        b' ' | b'\t' | b'\r' | b',' | b'-' | b';' | b'{' | b'}' | b'(' | b')' | b'"' | b'\''
    )
}

/// The octet in the place of this one in a list, so that only digits and spaces are left.
pub(crate) fn plain(octet: u8) -> u8 {
    match octet {
        octet if is_hex_digit(octet) => octet,
        _ => b' ',
    }
}
