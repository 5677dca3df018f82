//! The time in front of a line of a log.

ghost use Rattle.std.specs.Prelude.{◌≡◌, ◌≤◌, drop, length, IfNone, IfSome, None, Some};
ghost use Rattle.std.specs.List.{before_first, position, position_or_len};
ghost use Rattle.lapd_cli_script.specs.Line.{parsed_number};
ghost use Rattle.lapd_cli_decode.specs.Timed.{behind_space, is_space, timed_by, timed_line};

use lapd_cli_script::number_of;

/// The time in front of a line, in microseconds since 1970, and the text behind it.
pub(crate) fn timed_line(line: &[u8]) -> Option<(u64, &[u8])>
    ensures none { IfNone result (timed_line line.now ≡ None) }
    ensures some { IfSome result (λ timed. timed_line line.now ≡ Some (timed.0, timed.1.now)) }
{
    match line {
        [b'@', rest @ ..] => timed_by(time_at(rest), rest),
        _ => None,
    }
}

/// This time, if there is one, and the text behind the first space.
fn timed_by(time: Option<u64>, text: &[u8]) -> Option<(u64, &[u8])>
    ensures none { IfNone result (timed_by time text.now ≡ None) }
    ensures some { IfSome result (λ timed. timed_by time text.now
        ≡ Some (timed.0, timed.1.now)) }
{
    match time {
        None => None,
        Some(time) => Some((time, behind_space(text))),
    }
}

/// The number before the first space.
fn time_at(text: &[u8]) -> Option<u64>
    ensures { result ≡ parsed_number (before_first is_space text.now) }
{
    number_of(&text[..length_before_space(text)])
}

/// The text behind the first space.
fn behind_space(text: &[u8]) -> &[u8]
    ensures { result.now ≡ behind_space text.now }
{
    match &text[length_before_space(text)..] {
        [] => &[],
        [_, behind @ ..] => behind,
    }
}

/// The length of the text before the first space; that of all of it if there is none.
#[tactic(auto, using(crate::proofs::LooseLine::unwrap_place))]
fn length_before_space(text: &[u8]) -> usize
    ensures value { result ≡ position_or_len is_space text.now }
    ensures within { result ≤ length text.now }
{
    first_space(text).unwrap_or(text.len())
}

/// The place of the first space.
fn first_space(text: &[u8]) -> Option<usize>
    ensures { result ≡ position is_space text.now }
{
    text.iter().position(|octet| *octet == b' ')
}
