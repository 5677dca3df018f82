//! The lines that the words of `expect` await.

ghost use Rattle.std.specs.Prelude.{◌≡◌, ◌++◌, ◌∷◌, option_map, IfNone, IfOk, IfSome, OnOk};
ghost use Rattle.lapd_cli_script.specs.Line.{HasNoSpace};
ghost use Rattle.lapd_cli_live_text.specs.AwaitedLine.{awaited_line as awaited_line_of, begins_as as begins_as_line, behind_octet as rest_behind_octet, behind_word as rest_behind_word, first_word, lacks_tei as has_no_tei, with_any_tei as line_with_any_tei};

use lapd_cli_script::number_of;
use lapd_frame::Side;
use memchr::memchr;
use std::alloc::{AllocError, Global};

/// Whether a line begins with these words. A `*` in them stands for the rest of a word of the line,
/// so that `0 * confirmed` are the first words of `0 64 confirmed`.
pub fn begins_as(words: &[u8], line: &[u8]) -> bool
    ensures { result ≡ begins_as_line words.now line.now }
{
    let mut rest = line;
    for octet in words {
        match behind_octet(*octet, rest) {
            Some(behind) => rest = behind,
            None => return false,
        }
    }
    true
}

/// The words with which an expected line begins at this side: of the user side, whose links have
/// its own TEI, with a `*` for the TEI if a SAPI is followed by another word than a TEI.
///
/// # Errors
///
/// `AllocError` if an allocation fails.
pub fn awaited_line(alloc: Global, side: Side, words: &[u8]) -> Result<Vec<u8>, AllocError>
    ensures { IfOk result (λ line. line.items ≡ awaited_line_of side words.now) }
{
    let mut line = Vec::new(alloc);
    match side {
        Side::Network => line.extend_from_slice(words)?,
        Side::User => {
            let (sapi, rest) = cut_word(words);
            put_with_any_tei(&mut line, sapi, rest)?;
        }
    }
    Ok(line)
}

/// Appends a first word and the rest of a line, with a `*` between them if a TEI is left out there.
fn put_with_any_tei(line: &mut Vec<u8>, sapi: &[u8], rest: &[u8]) -> Result<(), AllocError>
    ensures { OnOk result (line.new.items
        ≡ line.old.items ++ line_with_any_tei sapi.now rest.now) }
{
    line.extend_from_slice(sapi)?;
    if lacks_tei(sapi, rest) {
        line.extend_from_slice(b" *")?;
    }
    line.extend_from_slice(rest)
}

/// Whether a SAPI is followed by another word than a TEI.
fn lacks_tei(sapi: &[u8], rest: &[u8]) -> bool
    ensures { result ≡ has_no_tei sapi.now rest.now }
{
    match rest {
        [_, b'0'..=b'9' | b'*', ..] | [] | [_] => false,
        [_, _, ..] => matches!(number_of(sapi), Some(0 | 16 | 63)),
    }
}

/// The rest of a line after one octet of the words, if the line begins so.
fn behind_octet(octet: u8, line: &[u8]) -> Option<&[u8]>
    ensures { option_map (λ rest. rest.now) result ≡ rest_behind_octet octet line.now }
{
    if octet == b'*' {
        return Some(cut_word(line).1);
    }
    match line {
        [first, rest @ ..] if octet == *first => Some(rest),
        _ => None,
    }
}

/// The first word of a line, and the rest from its first space on.
fn cut_word(line: &[u8]) -> (&[u8], &[u8])
    ensures word { result.0.now ≡ first_word line.now }
    ensures rest { result.1.now ≡ rest_behind_word line.now }
{
    match cut_at_first_space(line) {
        Some((word, _behind)) => (word, &line[word.len()..]),
        None => (line, &[]),
    }
}

/// The octets before the first space, and those after it.
fn cut_at_first_space(octets: &[u8]) -> Option<(&[u8], &[u8])>
    ensures none { IfNone result (HasNoSpace octets.now) }
    ensures parts { IfSome result (λ parts. HasNoSpace parts.0.now
        × (octets.now ≡ parts.0.now ++ 32 ∷ parts.1.now)) }
{
    let end = memchr(b' ', octets)?;
    Some((&octets[..end], &octets[end + 1..]))
}
