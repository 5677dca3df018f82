//! Loose lines: hexadecimal text in the forms of other programs.

ghost use Rattle.std.specs.Prelude.{◌≡◌, ◌==◌, ◌∷◌, ◌<◌, ◌≤◌, [], drop, length, take, IfNone, IfOk, IfSome, OnOk, ◌++◌};
ghost use Rattle.std.specs.List.{list_all, position, position_or_len, slice_split};
ghost use Rattle.lapd_cli_script.specs.Line.{Reads, octets_of};
ghost use Rattle.lapd_cli_decode.specs.Sent.{sent_by};
ghost use Rattle.lapd_cli_decode.specs.declared.line_sender.LineSender.TheVariants.{Unnamed};
ghost use Rattle.lapd_cli_decode.specs.Loose.{before_gap, bracketed, bracketed_octets, digits_in, dump_sender, dumped_line, ends, ends_hex, first_of, is_digit, is_element, is_parted, is_separator, is_zero, line_by_word, logged_line, loose_behind, loose_line, loose_octets, marked_line, named_line, octets_or_none, printed_line, some_octets, unmarked_line, without_0x, without_front};

use crate::line_sender::LineSender;
use lapd_cli_script::LineFault;
use lapd_frame::Side;
use std::alloc::{AllocError, Global};

/// The octets of a loose line, and what it says of their sender.
#[derive(Drop)]
pub(crate) struct Sent {
    /// The sender, as far as the line says.
    pub(crate) from: LineSender,
    /// The octets.
    pub(crate) octets: Vec<u8>,
}

/// The octets that end a part of a line.
#[derive(Clone, Copy)]
enum End {
    /// A closing bracket or a mark, which ends HEX in brackets.
    Hex,
    /// Separators, which end a word.
    Word,
}

impl End {
    /// The length of the text before the first of these octets; that of all of it if there is none.
    #[tactic(auto, using(crate::proofs::LooseLine::unwrap_place))]
    fn len_before(self, text: &[u8]) -> usize
        ensures value { result ≡ position_or_len (ends self) text.now }
        ensures within { result ≤ length text.now }
    {
        self.first_in(text).unwrap_or(text.len())
    }

    /// The place of the first of these octets.
    fn first_in(self, text: &[u8]) -> Option<usize>
        ensures { result ≡ position (ends self) text.now }
    {
        text.iter().position(|octet| self.has(*octet))
    }

    /// Whether this octet is one of them.
    fn has(self, octet: u8) -> bool
        ensures { result ≡ ends self octet }
    {
        match self {
            End::Hex => ends_hex(octet),
            End::Word => is_separator(octet),
        }
    }
}

/// Reads a loose line.
///
/// # Errors
///
/// `Bad` if the line has none of the forms, `Memory` if an allocation fails.
pub(crate) fn loose_line(alloc: Global, line: &[u8]) -> Result<Sent, LineFault>
    ensures { Reads (λ sent. (sent.from, sent.octets.items)) result (loose_line line.now) }
{
    match named_line(alloc, line) {
        Err(LineFault::Bad) => unnamed_line(alloc, line),
        ended => ended,
    }
}

/// Reads a line that does not begin with its sender.
fn unnamed_line(alloc: Global, line: &[u8]) -> Result<Sent, LineFault>
    ensures { Reads (λ sent. (sent.from, sent.octets.items)) result
        (first_of (logged_line line.now) (unmarked_line (without_front line.now))) }
{
    match logged_line(alloc, line) {
        Err(LineFault::Bad) => unmarked_line(alloc, without_front(line)),
        ended => ended,
    }
}

// ---- 1. Lines that begin with their sender.

/// Reads a line that begins with its sender.
fn named_line(alloc: Global, line: &[u8]) -> Result<Sent, LineFault>
    ensures { Reads (λ sent. (sent.from, sent.octets.items)) result (named_line line.now) }
{
    if let Some(rest) = line.strip_prefix(b"user") {
        return loose_behind(alloc, LineSender::Named(Side::User), rest);
    }
    if let Some(rest) = line.strip_prefix(b"net") {
        return loose_behind(alloc, LineSender::Named(Side::Network), rest);
    }
    printed_line(alloc, line)
}

/// Reads a line of libpri.
fn printed_line(alloc: Global, line: &[u8]) -> Result<Sent, LineFault>
    ensures { Reads (λ sent. (sent.from, sent.octets.items)) result (printed_line line.now) }
{
    match line {
        [b'>', rest @ ..] => marked_line(alloc, LineSender::Printer, rest),
        [b'<', rest @ ..] => marked_line(alloc, LineSender::Peer, rest),
        _ => Err(LineFault::Bad),
    }
}

/// Reads the rest of a line of libpri, after its mark.
fn marked_line(alloc: Global, from: LineSender, rest: &[u8]) -> Result<Sent, LineFault>
    ensures { Reads (λ sent. (sent.from, sent.octets.items)) result (marked_line from rest.now) }
{
    if is_element(rest) {
        return Err(LineFault::Bad);
    }
    loose_behind(alloc, from, rest)
}

/// Whether this is an information element of Q.931, or the end of one, as libpri prints it after a
/// mark.
fn is_element(rest: &[u8]) -> bool
    ensures { result ≡ is_element rest.now }
{
    if without_front(rest).starts_with(b"]") {
        return true;
    }
    rest.starts_with(b" [") && !rest.starts_with(b" [ ")
}

/// Reads octets of this sender from the rest of a line, after its first word.
fn loose_behind(alloc: Global, from: LineSender, rest: &[u8]) -> Result<Sent, LineFault>
    ensures { Reads (λ sent. (sent.from, sent.octets.items)) result (loose_behind from rest.now) }
{
    if !is_parted(rest) {
        return Err(LineFault::Bad);
    }
    let octets = loose_octets(alloc, rest)?;
    Ok(Sent { from, octets })
}

/// Whether a word ends before these octets.
fn is_parted(rest: &[u8]) -> bool
    ensures { result ≡ is_parted rest.now }
{
    match rest {
        [] => true,
        [octet, ..] => is_separator(*octet),
    }
}

// ---- 2. Lines of a log.

/// Reads the first `> [ HEX ]` or `< [ HEX ]` of a line.
#[tactic(auto, using(crate::proofs::LooseLine::log_found, crate::proofs::LooseLine::log_passed))]
fn logged_line(alloc: Global, line: &[u8]) -> Result<Sent, LineFault>
    ensures { Reads (λ sent. (sent.from, sent.octets.items)) result (logged_line line.now) }
{
    let mut rest = line;
    while let [_, behind @ ..] = rest {
        match bracketed(alloc, rest) {
            Ok(sent) => return Ok(sent),
            Err(LineFault::Bad) => rest = behind,
            Err(fault) => return Err(fault),
        }
    }
    Err(LineFault::Bad)
}

/// Reads `> [ HEX ]` or `< [ HEX ]` at the beginning of a text.
fn bracketed(alloc: Global, text: &[u8]) -> Result<Sent, LineFault>
    ensures { Reads (λ sent. (sent.from, sent.octets.items)) result (bracketed text.now) }
{
    if let Some(rest) = text.strip_prefix(b"> [ ") {
        return sent_in_brackets(alloc, LineSender::Printer, rest);
    }
    if let Some(rest) = text.strip_prefix(b"< [ ") {
        return sent_in_brackets(alloc, LineSender::Peer, rest);
    }
    Err(LineFault::Bad)
}

/// Reads octets of this sender, after an opening bracket.
fn sent_in_brackets(alloc: Global, from: LineSender, text: &[u8]) -> Result<Sent, LineFault>
    ensures { Reads (λ sent. (sent.from, sent.octets.items)) result
        (sent_by from (bracketed_octets text.now)) }
{
    let octets = bracketed_octets(alloc, text)?;
    Ok(Sent { from, octets })
}

/// The octets before the closing bracket.
fn bracketed_octets(alloc: Global, text: &[u8]) -> Result<Vec<u8>, LineFault>
    ensures { Reads (λ octets. octets.items) result (bracketed_octets text.now) }
{
    let (front, behind) = text.split_at(End::Hex.len_before(text));
    match behind {
        [b']', ..] => some_octets(alloc, front),
        _ => Err(LineFault::Bad),
    }
}

/// Whether this octet ends HEX in brackets.
fn ends_hex(octet: u8) -> bool
    ensures { result ≡ ends_hex octet }
{
    matches!(octet, b']' | b'>' | b'<')
}

// ---- 3. and 4. Hex dumps, and lines of HEX alone.

/// Reads a line of a hex dump, or else of HEX.
fn unmarked_line(alloc: Global, text: &[u8]) -> Result<Sent, LineFault>
    ensures { Reads (λ sent. (sent.from, sent.octets.items)) result (unmarked_line text.now) }
{
    let (word, behind) = text.split_at(End::Word.len_before(text));
    line_by_word(alloc, text, word, behind)
}

/// Reads a line with this first word, and this behind it.
fn line_by_word(alloc: Global, text: &[u8], word: &[u8], behind: &[u8]) -> Result<Sent, LineFault>
    ensures { Reads (λ sent. (sent.from, sent.octets.items)) result
        (line_by_word text.now word.now behind.now) }
{
    if let Some(dump) = behind.strip_prefix(b": ") {
        return dumped_line(alloc, without_0x(word), b"  ", dump);
    }
    if word.len() != 4 {
        return hex_line(alloc, text);
    }
    match behind.strip_prefix(b"  ") {
        Some(dump) => dumped_line(alloc, word, b"   ", dump),
        None => hex_line(alloc, text),
    }
}

/// Reads a line of HEX alone.
fn hex_line(alloc: Global, text: &[u8]) -> Result<Sent, LineFault>
    ensures { Reads (λ sent. (sent.from, sent.octets.items)) result
        (sent_by Unnamed (some_octets text.now)) }
{
    let octets = some_octets(alloc, text)?;
    Ok(Sent {
        from: LineSender::Unnamed,
        octets,
    })
}

/// Reads a line of a dump behind its offset, before a gap of these spaces.
fn dumped_line(alloc: Global, offset: &[u8], gap: &[u8], dump: &[u8]) -> Result<Sent, LineFault>
    ensures { Reads (λ sent. (sent.from, sent.octets.items)) result (dumped_line offset.now gap.now dump.now) }
{
    match dump_sender(offset) {
        None => Err(LineFault::Bad),
        Some(from) => {
            let octets = some_octets(alloc, before_gap(gap, without_front(dump)))?;
            Ok(Sent { from, octets })
        }
    }
}

/// The sender of a line of a dump with this offset: the line says none, or continues the one before.
fn dump_sender(offset: &[u8]) -> Option<LineSender>
    ensures { result ≡ dump_sender offset.now }
{
    if is_zero(offset) {
        return Some(LineSender::Unnamed);
    }
    if !offset.is_empty() && has_only_digits(offset) {
        Some(LineSender::Continued)
    } else {
        None
    }
}

/// Whether each of these octets is a digit in hexadecimal.
fn has_only_digits(text: &[u8]) -> bool
    ensures { result ≡ list_all is_digit text.now }
{
    text.iter().all(|octet| is_digit(*octet))
}

/// Whether this octet is a digit in hexadecimal.
fn is_digit(octet: u8) -> bool
    ensures { result ≡ is_digit octet }
{
    matches!(octet, b'0'..=b'9' | b'A'..=b'F' | b'a'..=b'f')
}

/// Whether these digits spell 0.
fn is_zero(digits: &[u8]) -> bool
    ensures { result ≡ is_zero digits.now }
{
    !digits.is_empty() && has_only_zeros(digits)
}

/// Whether each of these digits is 0.
fn has_only_zeros(digits: &[u8]) -> bool
    ensures { result ≡ list_all (λ digit. digit == 48) digits.now }
{
    digits.iter().all(|digit| *digit == b'0')
}

/// The text before these spaces; all of it if they are not in it.
fn before_gap<'a>(gap: &[u8], text: &'a [u8]) -> &'a [u8]
    ensures { result.now ≡ before_gap gap.now text.now }
{
    for end in 0..text.len() {
        if text[end..].starts_with(gap) {
            return &text[..end];
        }
    }
    text
}

/// The text without leading spaces and tabs.
fn without_front(text: &[u8]) -> &[u8]
    ensures { result.now ≡ without_front text.now }
{
    let mut remaining = text;
    while let [b' ' | b'\t', rest @ ..] = remaining {
        remaining = rest;
    }
    remaining
}

// ---- HEX.

/// The octets that a text spells; no octets without digits.
fn loose_octets(alloc: Global, text: &[u8]) -> Result<Vec<u8>, LineFault>
    ensures { Reads (λ octets. octets.items) result (loose_octets text.now) }
{
    match digits_in(alloc, text) {
        Ok(digits) => octets_or_none(alloc, digits.as_slice()),
        Err(_) => Err(LineFault::Memory),
    }
}

/// The octets that a text spells, at least one.
fn some_octets(alloc: Global, text: &[u8]) -> Result<Vec<u8>, LineFault>
    ensures { Reads (λ octets. octets.items) result (some_octets text.now) }
{
    match digits_in(alloc, text) {
        Ok(digits) => octets_of(alloc, digits.as_slice()),
        Err(_) => Err(LineFault::Memory),
    }
}

/// The octets that these digits spell; without digits, no octets.
fn octets_or_none(alloc: Global, digits: &[u8]) -> Result<Vec<u8>, LineFault>
    ensures { Reads (λ octets. octets.items) result (octets_or_none digits.now) }
{
    if digits.is_empty() {
        return Ok(Vec::new(alloc));
    }
    octets_of(alloc, digits)
}

/// The octets that these digits spell, at least one.
fn octets_of(alloc: Global, digits: &[u8]) -> Result<Vec<u8>, LineFault>
    ensures { Reads (λ octets. octets.items) result (octets_of digits.now) }
{
    if digits.is_empty() {
        return Err(LineFault::Bad);
    }
    match hex::decode(alloc, digits) {
        Ok(octets) => Ok(octets),
        Err(hex::FromHexError::OutOfMemory) => Err(LineFault::Memory),
        Err(_) => Err(LineFault::Bad),
    }
}

/// The digits in the parts of a text between separators.
fn digits_in(alloc: Global, text: &[u8]) -> Result<Vec<u8>, AllocError>
    ensures { IfOk result (λ digits. digits.items ≡ digits_in text.now) }
{
    let mut digits = Vec::new(alloc);
    push_digits(&mut digits, text)?;
    Ok(digits)
}

/// Appends the digits in the parts of a text between separators.
#[tactic(auto, using(crate::proofs::LooseLine::digits_cut, crate::proofs::LooseLine::digits_whole))]
fn push_digits(digits: &mut Vec<u8>, text: &[u8]) -> Result<(), AllocError>
    ensures { OnOk result (digits.new.items ≡ digits.old.items ++ digits_in text.now) }
{
    let mut rest = text;
    while let Some((part, behind)) = cut_at_separator(rest) {
        digits.extend_from_slice(without_0x(part))?;
        rest = behind;
    }
    digits.extend_from_slice(without_0x(rest))
}

/// The octets before the first separator, and those after it.
#[tactic(auto, using(crate::proofs::LooseLine::cut_here, crate::proofs::LooseLine::not_cut))]
fn cut_at_separator(text: &[u8]) -> Option<(&[u8], &[u8])>
    ensures none { IfNone result (slice_split is_separator text.now ≡ text.now ∷ []) }
    ensures parts { IfSome result (λ parts. slice_split is_separator text.now
        ≡ parts.0.now ∷ slice_split is_separator parts.1.now) }
    ensures shorter { IfSome result (λ parts. length parts.1.now < length text.now) }
{
    let end = End::Word.first_in(text)?;
    Some((&text[..end], &text[end + 1..]))
}

/// A part without a leading `0x` or `0X`.
fn without_0x(part: &[u8]) -> &[u8]
    ensures { result.now ≡ without_0x part.now }
{
    match part {
        [b'0', b'x' | b'X', digits @ ..] => digits,
        digits => digits,
    }
}

/// Whether this octet may be among digits.
fn is_separator(octet: u8) -> bool
    ensures { result ≡ is_separator octet }
{
    matches!(octet, b' ' | b'\t' | b'\r' | b':' | b'[' | b']')
}
