//! The moves that a script's lines name.

ghost use Rattle.std.specs.Prelude.{◌≡◌, ◌<◌, IfSome, None, Some};
ghost use Rattle.lapd_cli_script.specs.Line.{number_behind, parsed_number, words_of};
ghost use Rattle.lapd_cli_link_commands.specs.BusMoves.{move_of, move_by, receive, nothing_behind, terminal_and_reference, tei_at, tei_behind, reference_of, digit_value};

use lapd_cli_script::{Words, is_word, number_of};
use lapd_tei::{BusMove, Tei};

/// The move that a line names; `None` if the line is not valid.
pub fn move_of(line: &[u8]) -> Option<BusMove>
    ensures { result ≡ move_of (words_of line.now) }
{
    let mut words = Words::of(line);
    let word = words.next_word()?;
    move_by(word, words)
}

/// The move of this word and the words after it.
fn move_by(word: &[u8], behind: Words<'_>) -> Option<BusMove>
    ensures { result ≡ move_by word.now behind.entry }
{
    if is_word(word, b"ask") {
        let (t, ri) = terminal_and_reference(behind)?;
        Some(BusMove::Ask(t, ri))
    } else if is_word(word, b"t202") {
        let (t, ri) = terminal_and_reference(behind)?;
        Some(BusMove::T202(t, ri))
    } else if is_word(word, b"hear") {
        receive(behind)
    } else if is_word(word, b"drop") {
        Some(BusMove::Drop(place_alone(behind)?))
    } else if is_word(word, b"hear-up") {
        Some(BusMove::HearUp(place_alone(behind)?))
    } else if is_word(word, b"drop-up") {
        Some(BusMove::DropUp(place_alone(behind)?))
    } else if is_word(word, b"check") {
        Some(BusMove::Check(tei_alone(behind)?))
    } else if is_word(word, b"t201") {
        t201(behind)
    } else if is_word(word, b"leave") {
        Some(BusMove::Leave(place_alone(behind)?))
    } else {
        None
    }
}

/// A received message: its number, the terminal and its reference number.
fn receive(mut behind: Words<'_>) -> Option<BusMove>
    ensures { result ≡ receive behind.entry }
{
    let i = place_of(behind.next_word()?)?;
    let (t, ri) = terminal_and_reference(behind)?;
    Some(BusMove::Hear(i, t, ri))
}

/// The move `t201`, which has nothing after it.
fn t201(mut behind: Words<'_>) -> Option<BusMove>
    ensures { result ≡ nothing_behind behind.entry }
{
    match behind.next_word() {
        None => Some(BusMove::T201),
        Some(_) => None,
    }
}

/// A terminal and a reference number, with nothing after them.
fn terminal_and_reference(mut behind: Words<'_>) -> Option<(usize, u16)>
    ensures { result ≡ terminal_and_reference behind.entry }
{
    let t = behind.next_word()?;
    let ri = behind.next_word()?;
    match behind.next_word() {
        Some(_) => None,
        None => Some((place_of(t)?, reference_of(ri)?)),
    }
}

/// The number of a message or terminal, with nothing after it.
fn place_alone(mut behind: Words<'_>) -> Option<usize>
    ensures { result ≡ number_behind behind.entry }
{
    let word = behind.next_word()?;
    match behind.next_word() {
        Some(_) => None,
        None => place_of(word),
    }
}

/// A TEI, with nothing after it.
fn tei_alone(behind: Words<'_>) -> Option<Tei>
    ensures { result ≡ tei_behind behind.entry }
{
    tei_at(place_alone(behind)?)
}

/// The TEI with this value, 0 to 127.
fn tei_at(number: usize) -> Option<Tei>
    ensures { result ≡ tei_at number }
{
    if number <= 127 {
        Tei::new(number as u8)
    } else {
        None
    }
}

/// The number that a word spells in decimal digits.
fn place_of(word: &[u8]) -> Option<usize>
    ensures { result ≡ parsed_number word.now }
{
    Some(number_of(word)? as usize)
}

/// The reference number that a word of four hexadecimal digits spells.
fn reference_of(word: &[u8]) -> Option<u16>
    ensures { result ≡ reference_of word.now }
{
    match word {
        [a, b, c, d] => {
            let [a, b] = [digit_value(*a)?, digit_value(*b)?];
            let [c, d] = [digit_value(*c)?, digit_value(*d)?];
            Some(a * 4096 + b * 256 + c * 16 + d)
        }
        _ => None,
    }
}

/// The value of a hexadecimal digit in either case.
fn digit_value(octet: u8) -> Option<u16>
    ensures value { result ≡ digit_value octet }
    ensures range { IfSome result (λ value. value < 16) }
{
    match octet {
        b'0'..=b'9' => Some(u16::from(octet - b'0')),
        b'a'..=b'f' => Some(u16::from(octet - b'a') + 10),
        b'A'..=b'F' => Some(u16::from(octet - b'A') + 10),
        _ => None,
    }
}
