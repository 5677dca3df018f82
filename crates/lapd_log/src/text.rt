//! Parts of a line of text.

ghost use Rattle.std.specs.Prelude.{◌≡◌, ◌≤◌, ◌<◌, length, IfSome, IfNone, Some, None};
ghost use Rattle.std.specs.List.{position, position_or_len};
ghost use Rattle.lapd_log.specs.Text.{behind, digits_behind, is_digit, is_hex_digit, is_not_digit, number_at, without_spaces};

use lapd_cli_script::number_of;

/// The text behind the first occurrence of this word; `None` if it does not occur.
#[tactic(auto, using(crate::proofs::TextSteps::word_found, crate::proofs::TextSteps::word_passed))]
pub(crate) fn behind<'a>(word: &[u8], text: &'a [u8]) -> Option<&'a [u8]>
    ensures none { IfNone result (behind word.now text.now ≡ None) }
    ensures found { IfSome result (λ rest. behind word.now text.now ≡ Some rest.now) }
{
    let mut rest = text;
    while let [_, next @ ..] = rest {
        if let Some(found) = rest.strip_prefix(word) {
            return Some(found);
        }
        rest = next;
    }
    None
}

/// Whether this octet is a decimal digit.
pub(crate) fn is_digit(octet: u8) -> bool
    ensures { result ≡ is_digit octet }
{
    matches!(octet, b'0'..=b'9')
}

/// The number of decimal digits at the beginning of a text.
#[tactic(auto, using(crate::proofs::TextSteps::unwrap_place))]
pub(crate) fn digits_len(text: &[u8]) -> usize
    ensures value { result ≡ position_or_len is_not_digit text.now }
    ensures within { result ≤ length text.now }
{
    first_other(text).unwrap_or(text.len())
}

/// The place of the first octet that is no decimal digit.
fn first_other(text: &[u8]) -> Option<usize>
    ensures { result ≡ position is_not_digit text.now }
{
    text.iter().position(|octet| !is_digit(*octet))
}

/// The number below 2^64 whose decimal digits are at the beginning of a text.
pub(crate) fn number_at(text: &[u8]) -> Option<u64>
    ensures { result ≡ number_at text.now }
{
    number_of(&text[..digits_len(text)])
}

/// The text behind the decimal digits at its beginning.
pub(crate) fn digits_behind(text: &[u8]) -> &[u8]
    ensures { result.now ≡ digits_behind text.now }
{
    &text[digits_len(text)..]
}

/// The text without leading spaces and tabs.
pub(crate) fn without_spaces(text: &[u8]) -> &[u8]
    ensures { result.now ≡ without_spaces text.now }
{
    let mut remaining = text;
    while let [b' ' | b'\t', rest @ ..] = remaining {
        remaining = rest;
    }
    remaining
}

/// Whether this octet is a hexadecimal digit.
pub(crate) fn is_hex_digit(octet: u8) -> bool
    ensures { result ≡ is_hex_digit octet }
{
    matches!(octet, b'0'..=b'9' | b'A'..=b'F' | b'a'..=b'f')
}
