//! Counters modulo 128 (Q.921 3.5.2).

use crate::text::number_of;
use lapd_mod128::Seq;
use lapd_test_text::{Text, split};

/// The next and previous counter, the number of steps from one counter to another, whether a
/// counter lies between two others, and whether the window from V(A) to V(S) is open.
pub(crate) const ROWS: &str = "\
counter next 0 | 1
counter next 126 | 127
counter next 127 | 0
counter back 1 | 0
counter back 127 | 126
counter back 0 | 127
counter steps 120 3 | 11
counter steps 3 120 | 117
counter steps 0 127 | 127
counter steps 127 0 | 1
counter steps 5 5 | 0
counter within 126 126 3 | yes
counter within 126 127 3 | yes
counter within 126 1 3 | yes
counter within 126 3 3 | yes
counter within 126 4 3 | no
counter within 126 125 3 | no
counter open 100 98 127 | yes
counter open 100 99 127 | no
counter open 7 7 1 | yes
counter open 7 8 1 | no
";

/// The counter with the value of a word.
fn at(word: &str) -> Seq {
    Seq::new((number_of(word) & 0xff) as u8).unwrap_or_default()
}

/// Whether a window of this size is open.
fn is_open(va: Seq, vs: Seq, places: u16) -> bool {
    1 <= places && places <= 127 && Seq::window_open(va, vs, places as u8)
}

/// Appends the result of an operation on counters.
pub(crate) fn put(text: &mut Text, action: &str, words: &str) {
    let (first, rest) = split(words, " ");
    let (second, third) = split(rest, " ");
    let (one, other) = (at(first), at(second));
    match action {
        "next" => text.shown(" ", &one.next().value()),
        "back" => text.shown(" ", &one.back().value()),
        "steps" => text.shown(" ", &Seq::distance(one, other)),
        "within" => put_yes(text, Seq::within(one, other, at(third))),
        _ => put_yes(text, is_open(one, other, number_of(third))),
    }
}

/// Appends `yes` or `no`.
fn put_yes(text: &mut Text, is_so: bool) {
    text.put(if is_so { " yes" } else { " no" });
}
