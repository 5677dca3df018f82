//! Reading the words of a line.

ghost use Rattle.std.specs.Prelude.{◌≡◌, ◌≤◌, IfOk, map};
ghost use Rattle.lapd_conform_suite.specs.Words.{row_of};
ghost use Rattle.lapd_cli_conform.specs.Reading.{ReadsAs, ended, number_in, value_at};

use crate::fault::{Needed, SettingFault};
use lapd_cli_script::{Words, number_of};
use lapd_conform_suite::{Named, value_of};

/// Checks that no word is left.
pub(crate) fn end<'s>(mut words: Words<'s>) -> Result<(), SettingFault<'s>>
    ensures { ReadsAs (λ done. done) result (ended words.entry) }
{
    match words.next_word() {
        Some(found) => Err(SettingFault {
            found,
            wanted: Needed::EndOfLine,
        }),
        None => Ok(()),
    }
}

/// Reads a number in this range, in decimal digits.
pub(crate) fn read_number<'s>(
    word: &'s [u8],
    least: u64,
    most: u64,
    wanted: Needed,
) -> Result<u64, SettingFault<'s>>
    ensures number { ReadsAs (λ number. number) result (number_in least most wanted word.now) }
    ensures most { IfOk result (λ number. number ≤ most) }
{
    match number_of(word) {
        Some(number) if least <= number && number <= most => Ok(number),
        _ => Err(SettingFault {
            found: word,
            wanted,
        }),
    }
}

/// The meaning of a word in this table.
pub(crate) fn read_value<'s, T: Copy>(
    table: &[Named<T>],
    wanted: Needed,
    word: &'s [u8],
) -> Result<T, SettingFault<'s>>
    ensures { ReadsAs (λ value. value) result (value_at (map row_of table.now) wanted word.now) }
{
    match value_of(table, word) {
        Some(value) => Ok(value),
        None => Err(SettingFault {
            found: word,
            wanted,
        }),
    }
}
