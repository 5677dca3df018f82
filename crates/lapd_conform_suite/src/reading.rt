//! Reading words by the tables.

ghost use Rattle.std.specs.Prelude.{◌≡◌, ◌∷◌, [], map, option_map};
ghost use Rattle.std.specs.List.{find};
ghost use Rattle.std.specs.Str.{bytes_eq};
ghost use Rattle.lapd_conform_suite.specs.Reading.{ReadsAs, ended, first_of, front_value, rest_of, value_at, value_named};
ghost use Rattle.lapd_conform_suite.specs.Words.{row_of};

use crate::fault::{Fault, Wanted};
use crate::words::Named;
use lapd_cli_script::Words;

/// The next word, or an empty one at the end of the line.
#[tactic(auto, using(crate::proofs::Joined::never_none))]
pub fn take_word<'s>(words: &mut Words<'s>) -> &'s [u8]
    ensures first { result.now ≡ first_of words.old }
    ensures rest { words.new ≡ rest_of words.old }
{
    if words.rest().is_none() {
        return &[];
    }
    match words.next_word() {
        Some(word) => word,
        None => &[],
    }
}

/// Checks that no word is left.
pub(crate) fn end<'s>(mut words: Words<'s>) -> Result<(), Fault<'s>>
    ensures { ReadsAs (λ done. done) result (ended words.entry) }
{
    match words.next_word() {
        Some(found) => Err(Fault {
            found,
            wanted: Wanted::EndOfLine,
        }),
        None => Ok(()),
    }
}

/// The meaning of a word in this table.
#[tactic(auto, using(crate::proofs::Rows::value_found))]
pub fn value_of<T: Copy>(table: &[Named<T>], word: &[u8]) -> Option<T>
    ensures { result ≡ value_named (map row_of table.now) word.now }
{
    match row_named(table, word) {
        Some(row) => Some(row.value),
        None => None,
    }
}

/// The first row with this word.
fn row_named<T: Copy>(table: &[Named<T>], word: &[u8]) -> Option<Named<T>>
    ensures { result ≡ find (λ named. bytes_eq word.now named.word.now) table.now }
{
    table
        .iter()
        .copied()
        .find(|named| word == named.word.as_bytes())
}

/// The meaning of a word in this table.
pub(crate) fn read_value<'s, T: Copy>(
    table: &[Named<T>],
    wanted: Wanted,
    word: &'s [u8],
) -> Result<T, Fault<'s>>
    ensures { ReadsAs (λ value. value) result (value_at (map row_of table.now) wanted word.now) }
{
    match value_of(table, word) {
        Some(value) => Ok(value),
        None => Err(Fault {
            found: word,
            wanted,
        }),
    }
}

/// The first word of this table with which `word` begins, and the rest of `word`.
pub(crate) fn front_of<'s, T: Copy>(table: &[Named<T>], word: &'s [u8]) -> Option<(T, &'s [u8])>
    ensures { option_map (λ front. (front.0, front.1.now)) result
        ≡ front_value (map row_of table.now) word.now }
{
    let mut left = table;
    while let [row, others @ ..] = left {
        if let Some(rest) = word.strip_prefix(row.word.as_bytes()) {
            return Some((row.value, rest));
        }
        left = others;
    }
    None
}
