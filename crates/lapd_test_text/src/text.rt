//! Text that is built piece by piece.

use arrayvec::ArrayVec;
use std::fmt::{Debug, Display};
use std::io::Write;

/// A text of at most 4,096 octets. Pieces that do not fit are left out, so that the text differs
/// from the expected one.
#[derive(Drop)]
pub struct Text {
    octets: ArrayVec<u8, 4096>,
}

impl Text {
    /// An empty text.
    pub fn new() -> Text {
        Text {
            octets: ArrayVec::new(),
        }
    }

    /// The text, as octets.
    pub fn as_bytes(&self) -> &[u8] {
        self.octets.as_slice()
    }

    /// The text.
    pub fn as_str(&self) -> &str {
        str::from_utf8(self.as_bytes()).unwrap_or("")
    }

    /// Whether the text equals this one.
    pub fn is(&self, wanted: &str) -> bool {
        self.as_bytes() == wanted.as_bytes()
    }

    /// Clears the text.
    pub fn clear(&mut self) {
        self.octets.clear();
    }

    /// Appends octets.
    pub fn put_octets(&mut self, octets: &[u8]) {
        let _ = self.octets.try_extend_from_slice(octets);
    }

    /// Appends a word.
    pub fn put(&mut self, word: &str) {
        self.put_octets(word.as_bytes());
    }

    /// Puts a text unless there is one: the first one counts.
    pub fn put_first(&mut self, text: &str) {
        if self.octets.is_empty() {
            self.put(text);
        }
    }

    /// Appends a word if this holds.
    pub fn mark(&mut self, word: &str, holds: bool) {
        if holds {
            self.put(word);
        }
    }

    /// Appends an octet in two hexadecimal digits.
    pub fn octet(&mut self, octet: u8) {
        self.put_octets(&[digit_of(octet / 16), digit_of(octet % 16)]);
    }

    /// Appends octets in hexadecimal digits.
    pub fn hex(&mut self, octets: &[u8]) {
        for octet in octets {
            self.octet(*octet);
        }
    }

    /// Appends a word and a value as it prints.
    pub fn shown<T: Display>(&mut self, word: &str, value: &T) {
        self.put(word);
        let _ = write!(self.octets, "{value}");
    }

    /// Appends a word, and a value as its `Debug` prints it.
    pub fn made<T: Debug + Drop>(&mut self, word: &str, value: T) {
        let _ = write!(self.octets, "{word}{value:?}");
    }

    /// Appends a name and a number, unless that is 0.
    pub fn named(&mut self, name: &str, number: u16) {
        if number > 0 {
            self.shown(name, &number);
        }
    }

    /// Appends a word, a value as it prints, and `;`.
    pub fn item<T: Display>(&mut self, word: &str, value: &T) {
        self.shown(word, value);
        self.put(";");
    }

    /// Appends a word, a value as it prints, and `;`, if there is a value.
    pub fn item_if<T: Display + Copy>(&mut self, word: &str, value: Option<T>) {
        if let Some(value) = value {
            self.item(word, &value);
        }
    }
}

/// A digit of a hexadecimal number.
fn digit_of(number: u8) -> u8 {
    if number < 10 {
        b'0'.wrapping_add(number)
    } else {
        b'a'.wrapping_add(number.wrapping_sub(10))
    }
}
