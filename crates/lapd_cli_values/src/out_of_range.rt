//! Reading the numbers of options, or reporting the first that is out of its option's range.

ghost use Rattle.std.specs.Prelude.{◌≡◌, MatchResult, SomeIff};
ghost use Rattle.std.specs.Str.Parse.{digits_value};
ghost use Rattle.lapd_cli_values.specs.Options.{IsNumberFrom, IsRangeOf};
ghost use Rattle.lapd_cli_values.specs.Numerals.{parameters_written, AreWritten};

use crate::number_option::{FOLLOWED_K, K, N200, NumberOption, ROOM, TERMINALS};
use crate::numbers::{number_of, params_of};
use lapd_link_definition::Params;
use thiserror::Error;

/// The value of an option is not a number in its range.
#[derive(Clone, Copy, Debug, Error)]
#[error("error: invalid value '{shown}' for '--{name} <{value_name}>': not a number from {least} to {most} in decimal digits", shown = .written.escape_debug(), name = .option.name, value_name = .option.value_name, least = .option.least, most = .option.most)]
pub struct OutOfRange<'a> {
    option: NumberOption,
    written: &'a str,
}

/// The parameters of a link from these texts, as [`params_of`] reads them.
///
/// # Errors
///
/// `OutOfRange` at the first of the three that is not in its option's range.
pub fn params_written<'a>(
    k: &'a str,
    n200: &'a str,
    room: &'a str,
) -> Result<Params, OutOfRange<'a>>
    ensures { MatchResult result
        (λ params. AreWritten k.now n200.now room.now
        × (params ≡ parameters_written k.now n200.now room.now))
        (λ fault. IsRangeOf k.now n200.now room.now fault.option.most fault.written.now
        × (¬ IsNumberFrom fault.option.least fault.option.most fault.written.now)) }
{
    match params_of(k, n200, room) {
        Some(params) => Ok(params),
        None => Err(first_out_of_range(k, n200, room)),
    }
}

// The fault of the first of these texts that is not in its option's range. At least one must not
// be.
fn first_out_of_range<'a>(k: &'a str, n200: &'a str, room: &'a str) -> OutOfRange<'a>
    requires { ¬ AreWritten k.now n200.now room.now }
    ensures named { IsRangeOf k.now n200.now room.now result.option.most result.written.now }
    ensures refused { ¬ IsNumberFrom result.option.least result.option.most result.written.now }
{
    if !K.takes(k) {
        refused(K, k)
    } else if !N200.takes(n200) {
        refused(N200, n200)
    } else {
        refused(ROOM, room)
    }
}

// The fault of this text of this option.
fn refused(option: NumberOption, written: &str) -> OutOfRange<'_>
    ensures { result ≡ record { option = option; written = written.entry } }
{
    OutOfRange { option, written }
}

/// The number of an option, from its text.
///
/// # Errors
///
/// `OutOfRange` if the text is not a number in the option's range.
pub fn number_written(option: NumberOption, written: &str) -> Result<u64, OutOfRange<'_>>
    ensures { MatchResult result
        (λ number. IsNumberFrom option.least option.most written.now
        × (number ≡ digits_value 10 written.now))
        (λ fault. (fault ≡ record { option = option; written = written.entry })
        × (¬ IsNumberFrom option.least option.most written.now)) }
{
    match number_of(written) {
        Some(number) if option.least <= number && number <= option.most => Ok(number),
        _ => Err(refused(option, written)),
    }
}

/// The number of terminals, 1 to 127, from a text in decimal digits.
///
/// # Errors
///
/// `OutOfRange` if the text is not such a number.
pub fn terminals_written(written: &str) -> Result<u8, OutOfRange<'_>>
    ensures { MatchResult result
        (λ terminals. IsNumberFrom 1 127 written.now × (terminals ≡ digits_value 10 written.now))
        (λ fault. (fault.option.most ≡ 127) × (fault.written ≡ written.entry)
        × (¬ IsNumberFrom 1 127 written.now)) }
{
    match number_written(TERMINALS, written) {
        Ok(terminals) => Ok(terminals as u8),
        Err(fault) => Err(fault),
    }
}

/// The window of links that are followed, 1 to 127, from a text in decimal digits.
///
/// # Errors
///
/// `OutOfRange` if the text is not such a number.
pub fn window_written(written: &str) -> Result<u8, OutOfRange<'_>>
    ensures { MatchResult result
        (λ window. IsNumberFrom 1 127 written.now × (window ≡ digits_value 10 written.now))
        (λ fault. (fault.option.most ≡ 127) × (fault.written ≡ written.entry)
        × (¬ IsNumberFrom 1 127 written.now)) }
{
    match number_written(FOLLOWED_K, written) {
        Ok(window) => Ok(window as u8),
        Err(fault) => Err(fault),
    }
}
