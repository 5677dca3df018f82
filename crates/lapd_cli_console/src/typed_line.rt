//! Tidying a line that was typed at a terminal.

ghost use Rattle.std.specs.Prelude.{◌≡◌, ◌<◌, ◌++◌, ◌∷◌, [], length, IfNone, IfOk, IfSome, MatchOption, OnOk};
ghost use Rattle.lapd_cli_console.specs.Tidied.{HasNoColon, arguments_named, digits_of_part, digits_of_word, hex_words, spaced, tidied_behind, tidied_line, trimmed as trimmed_of, without_end as end_dropped, without_front as front_dropped};

use lapd_cli_grammar::{Argument, Script, form_of};
use lapd_cli_script::Words;
use memchr::memchr;
use std::alloc::{AllocError, Global};

/// Tidies a command's line that was typed at a terminal, without its line feed. Leading and
/// trailing spaces are dropped. If the last argument of its form is HEX, spaces and colons between
/// its digits are dropped too, and so is `0x` before the digits or after a space or colon. HEX is
/// unchanged if no digit would be left.
///
/// # Errors
///
/// `AllocError` if an allocation fails.
pub fn tidied(alloc: Global, script: Script, line: &[u8]) -> Result<Vec<u8>, AllocError>
    ensures { IfOk result (λ tidied. tidied.items ≡ tidied_line script line.now) }
{
    let mut text = Vec::new(alloc);
    let mut words = Words::of(trimmed(line));
    if let Some(word) = words.next_word() {
        text.extend_from_slice(word)?;
        push_behind(alloc, &mut text, arguments_of(script, word), words)?;
    }
    Ok(text)
}

/// The arguments of the form that begins with this word; empty if no form does.
fn arguments_of(script: Script, word: &[u8]) -> &'static [Argument]
    ensures { result.now ≡ arguments_named script word.now }
{
    match form_of(script, word) {
        Some(form) => form.arguments,
        None => &[],
    }
}

/// The octets without leading and trailing spaces.
fn trimmed(octets: &[u8]) -> &[u8]
    ensures { result.now ≡ trimmed_of octets.now }
{
    without_end(without_front(octets))
}

/// The octets without leading spaces.
fn without_front(octets: &[u8]) -> &[u8]
    ensures { result.now ≡ front_dropped octets.now }
{
    let mut remaining = octets;
    while let [b' ', rest @ ..] = remaining {
        remaining = rest;
    }
    remaining
}

/// The octets without trailing spaces.
#[tactic(auto, using(crate::proofs::TypedLine::last_space))]
fn without_end(octets: &[u8]) -> &[u8]
    ensures { result.now ≡ end_dropped octets.now }
{
    let mut remaining = octets;
    while let Some(rest) = without_last_space(remaining) {
        remaining = rest;
    }
    remaining
}

/// The octets before the last one, if that is a space.
#[tactic(auto, using(crate::proofs::TypedLine::last_other))]
fn without_last_space(octets: &[u8]) -> Option<&[u8]>
    ensures { MatchOption result (end_dropped octets.now ≡ octets.now)
        (λ rest. octets.now ≡ rest.now ++ 32 ∷ []) }
{
    let (last, rest) = octets.split_last()?;
    if *last == b' ' { Some(rest) } else { None }
}

/// Appends the words after the first one, each with a space before it. If the last argument is HEX,
/// its digits are joined into one word.
///
/// # Errors
///
/// `AllocError` if an allocation fails.
fn push_behind(
    alloc: Global,
    text: &mut Vec<u8>,
    arguments: &[Argument],
    mut words: Words<'_>,
) -> Result<(), AllocError>
    ensures { OnOk result (text.new.items
        ≡ text.old.items ++ spaced (tidied_behind arguments.now words.entry)) }
{
    let mut left = arguments;
    while let [argument, rest @ ..] = left {
        if argument.is_hex() && rest.is_empty() {
            return push_hex(alloc, text, words);
        }
        let Some(word) = words.next_word() else {
            return Ok(());
        };
        push_word(text, word)?;
        left = rest;
    }
    push_words(text, words)
}

/// Appends the words that are left, each with a space before it.
///
/// # Errors
///
/// `AllocError` if an allocation fails.
fn push_words(text: &mut Vec<u8>, mut words: Words<'_>) -> Result<(), AllocError>
    ensures { OnOk result (text.new.items ≡ text.old.items ++ spaced words.entry) }
{
    while let Some(word) = words.next_word() {
        push_word(text, word)?;
    }
    Ok(())
}

/// Appends a space and a word.
///
/// # Errors
///
/// `AllocError` if an allocation fails.
fn push_word(text: &mut Vec<u8>, word: &[u8]) -> Result<(), AllocError>
    ensures { OnOk result (text.new.items ≡ text.old.items ++ 32 ∷ word.now) }
{
    text.push(b' ')?;
    text.extend_from_slice(word)
}

/// Appends a space and the digits of the remaining words, or these words unchanged if they have no
/// digits.
///
/// # Errors
///
/// `AllocError` if an allocation fails.
fn push_hex(alloc: Global, text: &mut Vec<u8>, mut words: Words<'_>) -> Result<(), AllocError>
    ensures { OnOk result (text.new.items ≡ text.old.items ++ spaced (hex_words words.entry)) }
{
    let mut digits = Vec::new(alloc);
    let mut unchanged = Vec::new(alloc);
    while let Some(word) = words.next_word() {
        push_digits(&mut digits, word)?;
        push_word(&mut unchanged, word)?;
    }
    if digits.is_empty() {
        text.extend_from_slice(unchanged.as_slice())
    } else {
        push_word(text, digits.as_slice())
    }
}

/// Appends the parts of a word between its colons, each without a leading `0x`.
///
/// # Errors
///
/// `AllocError` if an allocation fails.
#[tactic(auto, using(crate::proofs::TypedLine::digits_cut, crate::proofs::TypedLine::digits_whole))]
fn push_digits(digits: &mut Vec<u8>, word: &[u8]) -> Result<(), AllocError>
    ensures { OnOk result (digits.new.items ≡ digits.old.items ++ digits_of_word word.now) }
{
    let mut rest = word;
    while let Some((part, behind)) = cut_at_colon(rest) {
        digits.extend_from_slice(without_0x(part))?;
        rest = behind;
    }
    digits.extend_from_slice(without_0x(rest))
}

/// The octets before the first colon, and those after it.
fn cut_at_colon(octets: &[u8]) -> Option<(&[u8], &[u8])>
    ensures none { IfNone result (HasNoColon octets.now) }
    ensures parts { IfSome result (λ parts. HasNoColon parts.0.now
        × (octets.now ≡ parts.0.now ++ 58 ∷ parts.1.now)) }
    ensures shorter { IfSome result (λ parts. length parts.1.now < length octets.now) }
{
    let end = memchr(b':', octets)?;
    Some((&octets[..end], &octets[end + 1..]))
}

/// The octets without a leading `0x` or `0X`.
fn without_0x(part: &[u8]) -> &[u8]
    ensures { result.now ≡ digits_of_part part.now }
{
    match part {
        [b'0', b'x' | b'X', digits @ ..] => digits,
        digits => digits,
    }
}
