//! Dumps of words of 16 bits.

use crate::cisco::first_word;
use crate::text::is_hex_digit;

/// Whether this line is of a dump of words of 16 bits, as `hexdump` and `od -x` print it: seven
/// digits of the offset, and words of four digits. The octets of a word may be exchanged.
pub(crate) fn is_word_dump(line: &[u8]) -> bool {
    let (offset, rest) = first_word(line);
    let (word, _) = first_word(rest.trim_ascii_start());
    offset.len() == 7 && word.len() == 4 && has_digits(offset) && has_digits(word)
}

/// Whether this line may be of a dump, whose offset is in front of it.
pub(crate) fn has_offset(line: &[u8]) -> bool {
    let (word, _) = first_word(line.trim_ascii_start());
    let word = word.strip_suffix(b":").unwrap_or(word);
    let digits = word.strip_prefix(b"0x").unwrap_or(word);
    digits.len() >= 4 && digits.len() <= 8 && has_digits(digits)
}

fn has_digits(text: &[u8]) -> bool {
    text.iter().all(|octet| is_hex_digit(*octet))
}
