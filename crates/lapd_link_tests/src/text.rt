//! Rows of text, and text that is composed piece by piece.

use lapd_frame::Control;
use lapd_test_text::Text;
use std::alloc::Global;

/// The number in a word, or 0 if it has none.
pub(crate) fn number_of(word: &str) -> u16 {
    word.parse::<u16>().ok().unwrap_or(0)
}

/// A row with its octets written out: `aa`, `count` times, in place of a mark such as `+260*aa`.
/// `None` if an allocation fails.
pub(crate) fn with_octets(alloc: Global, row: &str, mark: &str, count: usize) -> Option<String> {
    match "aa".repeat(alloc, count) {
        Ok(octets) => row.replace(alloc, mark, octets.as_str()).ok(),
        Err(_) => None,
    }
}

/// Puts a control field behind a space, as octets.
pub(crate) fn put_control(text: &mut Text, control: &Control) {
    text.put(" ");
    text.hex(control.write().as_slice());
}
