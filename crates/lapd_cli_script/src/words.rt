//! The words of a script's line.

ghost use Rattle.std.specs.Prelude.{◌≡◌, ◌∷◌, ◌++◌, ◌-◌, MatchOption, None, Some, [], bytes_eq, if◌then◌else◌, OnErr, ⊤};
ghost use Rattle.lapd_cli_script.specs.Line.{HasNoSpace, Reads, is_digit, nothing_of, number_behind, parsed_number, octets_behind, octets_of, words_of};

use crate::script::LineFault;
use memchr::memchr;
use std::alloc::Global;
use std::marker::Model;

/// The words of a line that have not been read yet. Single spaces separate them, so a word may be
/// empty.
///
/// [`Words::next_word`] reads the next word. [`Words::nothing`], [`Words::octets`] and
/// [`Words::number`] read to the line's end, so each consumes the words.
#[derive(Drop)]
pub struct Words<'a> {
    rest: Option<&'a [u8]>,
}

impl<'a> Model for Words<'a> {
    ghost use Rattle.std.specs.Prelude.{ℕ, List, option_map};
    ghost use Rattle.lapd_cli_script.specs.Line.{words_left};

    ghost Value = { List (List ℕ) };

    ghost view = { λ w. words_left (option_map (λ rest. rest.now) w.rest) };
}

impl<'a> Words<'a> {
    ghost use Rattle.std.specs.Prelude.{option_map};
    ghost use Rattle.lapd_cli_script.specs.Line.{words_left};

    /// The words of a line, which has no line feed. There is always at least one.
    pub fn of(line: &'a [u8]) -> Words<'a>
        ensures { result ≡ words_of line.now }
    {
        Words { rest: Some(line) }
    }

    /// Reads the next word. Returns `None` if no word is left.
    pub fn next_word(&mut self) -> Option<&'a [u8]>
        ensures { MatchOption result (self.old ≡ []) (λ word. self.old ≡ word.now ∷ self.new) }
    {
        let (word, rest) = first_word(self.rest?);
        self.rest = rest;
        Some(word)
    }

    /// The rest of the line. `None` if no word is left.
    pub fn rest(&self) -> Option<&'a [u8]>
        ensures { words_left (option_map (λ rest. rest.now) result) ≡ self.now }
    {
        self.rest
    }

    /// Checks that no word is left.
    ///
    /// # Errors
    ///
    /// `Bad` if a word is left.
    pub fn nothing(mut self) -> Result<(), LineFault>
        ensures { Reads (λ done. done) result (nothing_of self.entry) }
    {
        match self.next_word() {
            None => Ok(()),
            Some(_) => Err(LineFault::Bad),
        }
    }

    /// Reads the last word as octets: at least two hexadecimal digits, in either case. If no word
    /// is left, there are no octets.
    ///
    /// # Errors
    ///
    /// `Bad` if the word does not spell octets or is not the last one, `Memory` if an allocation
    /// fails.
    pub fn octets(self, alloc: Global) -> Result<Vec<u8>, LineFault>
        ensures { Reads (λ v. v.items) result (octets_behind self.entry) }
    {
        let mut octets = Vec::new(alloc);
        self.octets_into(&mut octets)?;
        Ok(octets)
    }

    /// Like [`Words::octets`], but replaces the contents of `octets`, so one buffer serves many
    /// lines.
    ///
    /// # Errors
    ///
    /// As for [`Words::octets`]; `octets` is then empty.
    pub fn octets_into(self, octets: &mut Vec<u8>) -> Result<(), LineFault>
        ensures octets { Reads (λ done. octets.new.items) result (octets_behind self.entry) }
        ensures empty { OnErr result (octets.new.items ≡ []) }
    {
        octets.clear();
        match self.rest {
            None => Ok(()),
            // A space is not a digit, so the remaining words need not be separated.
            Some(digits) => fill_with(octets, digits),
        }
    }

    /// Reads the last word as a number below 2^64, in decimal digits only. Leading zeros are
    /// allowed.
    ///
    /// # Errors
    ///
    /// `Bad` if no word is left, or if the word is not such a number or not the last one.
    pub fn number(mut self) -> Result<u64, LineFault>
        ensures { Reads (λ n. n) result (number_behind self.entry) }
    {
        let Some(digits) = self.next_word() else {
            return Err(LineFault::Bad);
        };
        self.nothing()?;
        match number_of(digits) {
            Some(number) => Ok(number),
            None => Err(LineFault::Bad),
        }
    }
}

/// The first word, and the rest of the line after its space, if it has one.
#[tactic(auto, using(crate::proofs::WordsOf::words_behind, crate::proofs::WordsOf::one_word))]
fn first_word(line: &[u8]) -> (&[u8], Option<&[u8]>)
    ensures { MatchOption result.1 (words_of line.now ≡ result.0.now ∷ [])
        (λ rest. words_of line.now ≡ result.0.now ∷ words_of rest.now) }
{
    cut_at_space(line)
}

/// The octets before the first space, and those after it.
fn cut_at_space(line: &[u8]) -> (&[u8], Option<&[u8]>)
    ensures word { HasNoSpace result.0.now }
    ensures parts { MatchOption result.1 (line.now ≡ result.0.now)
        (λ rest. line.now ≡ result.0.now ++ 32 ∷ rest.now) }
{
    match memchr(b' ', line) {
        None => (line, None),
        Some(end) => (&line[..end], Some(&line[end + 1..])),
    }
}

/// Decodes at least two hexadecimal digits, in either case, into `octets`, which must be empty.
///
/// # Errors
///
/// `Bad` if the digits do not spell octets, `Memory` if an allocation fails; `octets` is then
/// empty.
fn fill_with(octets: &mut Vec<u8>, digits: &[u8]) -> Result<(), LineFault>
    requires { octets.old.items ≡ [] }
    ensures octets { Reads (λ done. octets.new.items) result (octets_of digits.now) }
    ensures empty { OnErr result (octets.new.items ≡ []) }
{
    if digits.is_empty() {
        return Err(LineFault::Bad);
    }
    if octets.resize(digits.len() / 2, 0).is_err() {
        return Err(LineFault::Memory);
    }
    match hex::decode_to_slice(digits, octets.as_mut_slice()) {
        Ok(()) => Ok(()),
        Err(_) => {
            octets.clear();
            Err(LineFault::Bad)
        }
    }
}

/// Whether the word is `name`.
pub fn is_word(word: &[u8], name: &[u8]) -> bool
    ensures { result ≡ bytes_eq word.now name.now }
{
    word == name
}

/// The number below 2^64 that these decimal digits spell. Leading zeros are allowed. Returns `None`
/// if the digits are not such a number, or if there are none.
pub fn number_of(digits: &[u8]) -> Option<u64>
    ensures { result ≡ parsed_number digits.now }
{
    if digits.is_empty() {
        return None;
    }
    let mut number: u64 = 0;
    for digit in digits {
        number = number.checked_mul(10)?.checked_add(digit_of(*digit)?)?;
    }
    Some(number)
}

/// The value of a decimal digit.
fn digit_of(octet: u8) -> Option<u64>
    ensures { result ≡ (if is_digit octet then Some (octet - 48) else None) }
{
    if octet.is_ascii_digit() {
        Some(u64::from(octet - b'0'))
    } else {
        None
    }
}
