//! The form in which words that were awaited in vain are printed.

ghost use Rattle.std.specs.Prelude.{◌≡◌, ◌++◌, ◌∷◌, ◌<◌, [], encode_utf8_all, IfOk, OnOk};
ghost use Rattle.std.specs.Char.{digit_char};
ghost use Rattle.std.specs.String.{string_bytes};
ghost use Rattle.lapd_cli_live_text.specs.AwaitedText.{shown_char, shown_chars, shown_words};

use std::alloc::{AllocError, Global};

/// Shows the words of `expect` that were awaited in vain: control characters are escaped, as
/// `\x1b`, and all others are unchanged. Octets that are not UTF-8, which no awaited words have,
/// become U+FFFD.
///
/// # Errors
///
/// `AllocError` if an allocation fails.
pub fn awaited_text(alloc: Global, words: &[u8]) -> Result<String, AllocError>
    ensures { IfOk result (λ text. string_bytes text ≡ shown_words words.now) }
{
    let text = String::from_utf8_lossy(alloc, words)?;
    shown(alloc, text.as_str())
}

/// A text with its control characters escaped.
fn shown(alloc: Global, text: &str) -> Result<String, AllocError>
    ensures { IfOk result (λ shown. string_bytes shown ≡ shown_chars text.now) }
{
    let mut shown = String::new(alloc);
    for character in text.chars() {
        push_shown(&mut shown, character)?;
    }
    Ok(shown)
}

/// Appends a character, escaped if it is a control character.
fn push_shown(text: &mut String, character: char) -> Result<(), AllocError>
    ensures { OnOk result (string_bytes text.new
        ≡ string_bytes text.old ++ encode_utf8_all (shown_char character)) }
{
    if !character.is_control() {
        return text.push(character);
    }
    let number = character as u32;
    text.push_str("\\x")?;
    push_digit(text, number / 16)?;
    push_digit(text, number % 16)
}

/// Appends a hexadecimal digit.
fn push_digit(text: &mut String, digit: u32) -> Result<(), AllocError>
    requires { digit < 16 }
    ensures { OnOk result (string_bytes text.new
        ≡ string_bytes text.old ++ digit_char digit ∷ []) }
{
    match char::from_digit(digit, 16) {
        Some(digit) => text.push(digit),
        None => unreachable!(),
    }
}
