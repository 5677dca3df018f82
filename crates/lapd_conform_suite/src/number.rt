//! Numbers, values of fields and times.

ghost use Rattle.std.specs.Prelude.{◌≡◌};
ghost use Rattle.lapd_conform_suite.specs.Numbers.{amount_at, counted_from, number_at, plus_at, small_at, span_at, value_in};
ghost use Rattle.lapd_conform_suite.specs.Reading.{ReadsAs};

use crate::fault::{Fault, Wanted};
use crate::reading::{end, front_of, read_value, take_word, value_of};
use crate::words::{Base, Choice, TimeUnit, bases, choices, units};
use lapd_cli_script::{Words, number_of};

/// A number: the sum of its base, if it has one, and `plus`.
#[derive(Clone, Copy)]
pub struct Number {
    /// The base.
    pub base: Option<Base>,
    /// The number that is added.
    pub plus: u16,
}

/// The value of a field.
#[derive(Clone, Copy)]
pub enum Value {
    /// The field is left out: any value, or 0 in a frame that is sent.
    LeftOut,
    /// This number.
    Is(Number),
    /// One of several values.
    Choice(Choice),
}

/// A time in milliseconds, or in hundredths of a timer's duration.
#[derive(Clone, Copy)]
pub struct Span {
    /// The number of units.
    pub amount: u32,
    /// The unit.
    pub unit: TimeUnit,
}

/// The greatest number.
const MOST: u64 = 65_535;

/// The greatest amount of a time.
const MOST_AMOUNT: u64 = 100_000;

/// Reads a number, such as `5`, `K` or `K+1`.
pub(crate) fn read_number<'s>(word: &'s [u8]) -> Result<Number, Fault<'s>>
    ensures { ReadsAs (λ number. number) result (number_at word.now) }
{
    match counted(word) {
        Some(number) => Ok(number),
        None => Err(Fault {
            found: word,
            wanted: Wanted::Number,
        }),
    }
}

fn counted(word: &[u8]) -> Option<Number>
    ensures { result ≡ counted_from word.now }
{
    if let Some(number) = number_of(word) {
        return small(None, number);
    }
    match front_of(bases(), word) {
        Some((base, rest)) => plus(base, rest),
        None => None,
    }
}

/// A base, and the number that is added to it.
fn plus(base: Base, rest: &[u8]) -> Option<Number>
    ensures { result ≡ plus_at base rest.now }
{
    match rest {
        [] => Some(Number {
            base: Some(base),
            plus: 0,
        }),
        [b'+', digits @ ..] => small(Some(base), number_of(digits)?),
        _ => None,
    }
}

fn small(base: Option<Base>, number: u64) -> Option<Number>
    ensures { result ≡ small_at base number }
{
    if number <= MOST {
        Some(Number {
            base,
            plus: number as u16,
        })
    } else {
        None
    }
}

/// Reads the value of a field.
pub(crate) fn read_field_value<'s>(word: &'s [u8]) -> Result<Value, Fault<'s>>
    ensures { ReadsAs (λ value. value) result (value_in word.now) }
{
    match value_of(choices(), word) {
        Some(choice) => Ok(Value::Choice(choice)),
        None => Ok(Value::Is(read_number(word)?)),
    }
}

/// Reads a time, such as `250 ms` or `150 %T200`.
pub(crate) fn read_span<'s>(mut words: Words<'s>) -> Result<Span, Fault<'s>>
    ensures { ReadsAs (λ span. span) result (span_at words.entry) }
{
    let amount = read_amount(take_word(&mut words))?;
    let unit = read_value(units(), Wanted::Unit, take_word(&mut words))?;
    end(words)?;
    Ok(Span { amount, unit })
}

fn read_amount<'s>(word: &'s [u8]) -> Result<u32, Fault<'s>>
    ensures { ReadsAs (λ amount. amount) result (amount_at word.now) }
{
    match number_of(word) {
        Some(number) if number <= MOST_AMOUNT => Ok(number as u32),
        _ => Err(Fault {
            found: word,
            wanted: Wanted::Amount,
        }),
    }
}
