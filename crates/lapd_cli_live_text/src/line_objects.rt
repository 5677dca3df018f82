//! Lines of words and numbers as JSON objects.

ghost use Rattle.std.specs.Prelude.{◌≡◌, ◌<◌, ◌∷◌, [], IfOk, IfSome, MatchOption, OnOk, length, option_map};
ghost use Rattle.std.specs.String.{string_bytes};
ghost use Rattle.lapd_cli_script.specs.Line.{words_of};
ghost use Rattle.lapd_cli_live_text.specs.LineObjects.{member_of, name_of_place, named_digits, parts_at_equals, with_word, with_words, words_object};
ghost use Rattle.lapd_cli_live_text.specs.LineParts.{parts_of};

use crate::line_parts::LineParts;
use lapd_cli_script::number_of;
use std::alloc::{AllocError, Global};

/// The JSON object for a line of words with single spaces between them. The object has no line
/// feed.
///
/// A number as the first word is the member `sapi`, and as the second word `tei`. `NAME=NUMBER` is
/// a member of that name. The other words are the member `line`. If several members have one name,
/// the last one stays. Members are sorted by their names.
///
/// ```text
/// 0 64 state 7 RC=0        {"RC":0,"line":"state 7","sapi":0,"tei":64}
/// nothing                  {"line":"nothing"}
/// ```
///
/// # Errors
///
/// `AllocError`.
#[tactic(auto, unfolding(crate::specs::LineObjects::words_object))]
pub fn words_object(alloc: Global, line: &str) -> Result<String, AllocError>
    ensures { IfOk result (λ text. string_bytes text ≡ words_object line.now) }
{
    let mut parts = LineParts::new(alloc);
    add_line(&mut parts, line)?;
    parts.into_text()
}

/// Adds the words of a line.
fn add_line(parts: &mut LineParts, line: &str) -> Result<(), AllocError>
    ensures { OnOk result (parts_of parts.new
        ≡ with_words 0 (words_of line.now) (parts_of parts.old)) }
{
    let mut place: usize = 0;
    let mut rest = line;
    while let Some((word, more)) = cut_at_space(rest) {
        add_word(parts, place, word)?;
        place += 1;
        rest = more;
    }
    add_word(parts, place, rest)
}

/// Adds the word with this index of a line.
fn add_word(parts: &mut LineParts, place: usize, word: &str) -> Result<(), AllocError>
    ensures { OnOk result (parts_of parts.new
        ≡ with_word place word.now (parts_of parts.old)) }
{
    match member_of(place, word) {
        Some((name, number)) => parts.put_number(name, number),
        None => parts.add_word(word),
    }
}

/// The name and the number of a word that is a member. `place` is the index of the word in its
/// line.
fn member_of(place: usize, word: &str) -> Option<(&str, u64)>
    ensures { option_map (λ member. (member.0.now, member.1)) result ≡ member_of place word.now }
{
    let (name, digits) = named_digits(place, word)?;
    let number = number_of(digits.as_bytes())?;
    Some((name, number))
}

/// The name of a word and the digits behind it.
fn named_digits(place: usize, word: &str) -> Option<(&str, &str)>
    ensures { option_map (λ parts. (parts.0.now, parts.1.now)) result
        ≡ named_digits place word.now (parts_at_equals word.now) }
{
    match cut_at_equals(word) {
        Some((name, digits)) => Some((name, digits)),
        None => Some((name_of_place(place)?, word)),
    }
}

/// Splits a word at its first `=`.
fn cut_at_equals(word: &str) -> Option<(&str, &str)>
    ensures { option_map (λ parts. (parts.0.now, parts.1.now)) result ≡ parts_at_equals word.now }
{
    word.split_once('=')
}

/// The name of a number without a name of its own.
fn name_of_place(place: usize) -> Option<&'static str>
    ensures { option_map (λ name. name.now) result ≡ name_of_place place }
{
    match place {
        0 => Some("sapi"),
        1 => Some("tei"),
        _ => None,
    }
}

/// Splits a line behind its first word. `None` if the line is one word.
fn cut_at_space(line: &str) -> Option<(&str, &str)>
    ensures words { MatchOption result (words_of line.now ≡ line.now ∷ [])
        (λ parts. words_of line.now ≡ parts.0.now ∷ words_of parts.1.now) }
    ensures shorter { IfSome result (λ parts. length parts.1.now < length line.now) }
{
    line.split_once(' ')
}
