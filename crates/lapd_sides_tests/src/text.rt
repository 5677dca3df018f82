//! Builds text piece by piece, and splits words.

use lapd_test_text::{Text, split};
use std::fmt::Display;

/// Puts octets behind in hexadecimal digits, and for many that are aa at their end, their number, as in `[261]`.
pub(crate) fn put_octets(text: &mut Text, octets: &[u8]) {
    let mut run = 0usize;
    for octet in octets {
        run = if *octet == 0xaa {
            run.wrapping_add(1)
        } else {
            0
        };
    }
    if run < 100 {
        return text.hex(octets);
    }
    text.hex(octets.get(..octets.len().wrapping_sub(run)).unwrap_or(&[]));
    text.shown("[", &run);
    text.put("]");
}

/// Appends the reason of a refusal, and the octets that it returns, if any.
pub(crate) fn put_refused<T: Display>(text: &mut Text, fault: &T, message: Option<&[u8]>) {
    text.shown("refused ", fault);
    if let Some(octets) = message {
        text.put(" ");
        put_octets(text, octets);
    }
    text.put(";");
}

/// The number in a word, or the greatest number.
pub(crate) fn number_of(word: &str) -> u64 {
    word.parse::<u64>().unwrap_or(u64::MAX)
}

/// The 32-bit number in a word, or the greatest number.
fn small_number_of(word: &str) -> u32 {
    word.parse::<u32>().unwrap_or(u32::MAX)
}

/// The numbers in the first four words, as `small_number_of` reads them.
pub(crate) fn numbers_of(words: &str) -> [u32; 4] {
    let (first, rest) = split(words, " ");
    let (second, rest) = split(rest, " ");
    let (third, fourth) = split(rest, " ");
    [
        small_number_of(first),
        small_number_of(second),
        small_number_of(third),
        small_number_of(fourth),
    ]
}
