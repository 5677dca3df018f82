//! The numbers of a link, read from text.

ghost use Rattle.std.specs.Prelude.{◌≡◌, ◌<◌, ◌^◌, SomeIff};
ghost use Rattle.std.specs.Str.Parse.{digits_value, IsNumeral};
ghost use Rattle.lapd_cli_values.specs.Numerals.{parameters_written, AreWritten};

use lapd_link_definition::Params;

/// The parameters of a link, from texts in decimal digits: its window, 1 to 127 I frames; its N200,
/// 1 to 100 times; and the capacity of its I queue, 1 to 1,024 messages. Returns `None` if a text
/// is not such a number.
pub fn params_of(k: &str, n200: &str, room: &str) -> Option<Params>
    ensures { SomeIff result (AreWritten k.now n200.now room.now)
        (parameters_written k.now n200.now room.now) }
{
    let k = u8::try_from(number_of(k)?).ok()?;
    let n200 = u8::try_from(number_of(n200)?).ok()?;
    let room = u16::try_from(number_of(room)?).ok()?;
    Params::new(k, n200, room)
}

/// The number below 2^64 that this text spells in decimal digits. Returns `None` if it is not such
/// a number.
pub fn number_of(digits: &str) -> Option<u64>
    ensures { SomeIff result (IsNumeral 10 digits.now × (digits_value 10 digits.now < 2 ^ 64))
        (digits_value 10 digits.now) }
{
    if digits.starts_with('+') {
        return None;
    }
    digits.parse().ok()
}
