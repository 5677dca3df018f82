//! The values that single words spell.

ghost use Rattle.std.specs.Prelude.{◌≡◌};
ghost use Rattle.std.specs.Str.{is_utf8 as is_utf8_octets};
ghost use Rattle.lapd_cli_script.specs.Line.{Reads, parsed_number};
ghost use Rattle.lapd_cli_grammar.specs.Values.{parsed_delay, parsed_fixed, parsed_loss, parsed_octet, parsed_sapi, parsed_side, parsed_span, parsed_station, parsed_switch, parsed_tei, parsed_text, without_percent as digits_of_percent};

use lapd_cli_script::{LineFault, number_of};
use lapd_frame::{Sapi, Tei};

/// The longest time in a line, in milliseconds: an hour.
const MOST_MS: u64 = 3_600_000;

/// The greatest TEI of a terminal. The next one addresses all terminals.
const MOST_FIXED: u8 = 126;

/// The greatest loss, in per cent.
const MOST_LOSS: u64 = 100;

/// A number below 256 in decimal digits.
fn octet_of(word: &[u8]) -> Result<u8, LineFault>
    ensures { Reads (λ n. n) result (parsed_octet word.now) }
{
    match number_of(word) {
        Some(number) if number <= 255 => Ok(number as u8),
        _ => Err(LineFault::Bad),
    }
}

/// A SAPI in decimal digits: 0, 16 or 63.
pub(crate) fn sapi_of(word: &[u8]) -> Result<Sapi, LineFault>
    ensures { Reads (λ sapi. sapi) result (parsed_sapi word.now) }
{
    let number = octet_of(word)?;
    match Sapi::new(number) {
        Some(sapi) => Ok(sapi),
        None => Err(LineFault::Bad),
    }
}

/// A TEI in decimal digits: 0 to 127.
pub(crate) fn tei_of(word: &[u8]) -> Result<Tei, LineFault>
    ensures { Reads (λ tei. tei) result (parsed_tei word.now) }
{
    let number = octet_of(word)?;
    match Tei::new(number) {
        Some(tei) => Ok(tei),
        None => Err(LineFault::Bad),
    }
}

/// The fixed TEI of a terminal in decimal digits: 0 to 126.
pub(crate) fn fixed_of(word: &[u8]) -> Result<Tei, LineFault>
    ensures { Reads (λ tei. tei) result (parsed_fixed word.now) }
{
    let tei = tei_of(word)?;
    if tei.value() <= MOST_FIXED {
        Ok(tei)
    } else {
        Err(LineFault::Bad)
    }
}

/// The number of a terminal, or the place of a frame, in decimal digits.
pub(crate) fn place_of(word: &[u8]) -> Result<u64, LineFault>
    ensures { Reads (λ n. n) result (parsed_number word.now) }
{
    match number_of(word) {
        Some(number) => Ok(number),
        None => Err(LineFault::Bad),
    }
}

/// `net`, which is no terminal, or the number of a terminal.
pub(crate) fn station_of(word: &[u8]) -> Result<Option<u64>, LineFault>
    ensures { Reads (λ n. n) result (parsed_station word.now) }
{
    if word == b"net".as_slice() {
        Ok(None)
    } else {
        Ok(Some(place_of(word)?))
    }
}

/// A time, 1 to 3,600,000 ms.
pub(crate) fn span_of(word: &[u8]) -> Result<u64, LineFault>
    ensures { Reads (λ ms. ms) result (parsed_span word.now) }
{
    match number_of(word) {
        Some(ms) if 1 <= ms && ms <= MOST_MS => Ok(ms),
        _ => Err(LineFault::Bad),
    }
}

/// A delay, 0 to 3,600,000 ms.
pub(crate) fn delay_of(word: &[u8]) -> Result<u64, LineFault>
    ensures { Reads (λ ms. ms) result (parsed_delay word.now) }
{
    match number_of(word) {
        Some(ms) if ms <= MOST_MS => Ok(ms),
        _ => Err(LineFault::Bad),
    }
}

/// A loss, 0 to 100 per cent, with or without a `%`.
pub(crate) fn loss_of(word: &[u8]) -> Result<u8, LineFault>
    ensures { Reads (λ loss. loss) result (parsed_loss word.now) }
{
    match number_of(without_percent(word)) {
        Some(loss) if loss <= MOST_LOSS => Ok(loss as u8),
        _ => Err(LineFault::Bad),
    }
}

/// A word without the `%` at its end.
fn without_percent(word: &[u8]) -> &[u8]
    ensures { result.now ≡ digits_of_percent word.now }
{
    match word {
        [digits @ .., b'%'] => digits,
        digits => digits,
    }
}

/// `on` or `off`.
pub(crate) fn switch_of(word: &[u8]) -> Result<bool, LineFault>
    ensures { Reads (λ on. on) result (parsed_switch word.now) }
{
    if word == b"on".as_slice() {
        Ok(true)
    } else if word == b"off".as_slice() {
        Ok(false)
    } else {
        Err(LineFault::Bad)
    }
}

/// `user` or `net`.
pub(crate) fn side_of(word: &[u8]) -> Result<(), LineFault>
    ensures { Reads (λ done. done) result (parsed_side word.now) }
{
    if word == b"user".as_slice() || word == b"net".as_slice() {
        Ok(())
    } else {
        Err(LineFault::Bad)
    }
}

/// Text of at least one octet.
pub(crate) fn text_of(word: &[u8]) -> Result<&[u8], LineFault>
    ensures { Reads (λ text. text.now) result (parsed_text word.now) }
{
    if !word.is_empty() && is_utf8(word) {
        Ok(word)
    } else {
        Err(LineFault::Bad)
    }
}

/// Whether octets are UTF-8.
#[tactic(auto, using(crate::proofs::TextWords::are_utf8, crate::proofs::TextWords::not_utf8))]
fn is_utf8(octets: &[u8]) -> bool
    ensures { result ≡ is_utf8_octets octets.now }
{
    match str::from_utf8(octets) {
        Ok(_) => true,
        Err(_) => false,
    }
}
