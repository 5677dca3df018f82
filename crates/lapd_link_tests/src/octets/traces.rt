//! Histories of lines that overflow, and lines whose allocation fails.

use crate::text::number_of;
use crate::wants::none_is_wrong;
use lapd_test_text::Text;
use lapd_trace::{History, Side, line};
use std::alloc::{AllocError, Global};
use std::test::Fail;

/// Pushes the lines 0 to `pushed` - 1, and returns whether all allocations succeed.
fn pushes_numbers(alloc: Global, history: &mut History, pushed: u16) -> bool {
    for number in 0..pushed {
        match number.to_string(alloc) {
            Ok(line) => history.push(line),
            Err(_) => return false,
        }
    }
    true
}

/// Whether the history holds the lines `first` to `pushed` - 1, in order.
fn holds_numbers(history: &History, first: u16, pushed: u16) -> bool {
    let mut number = first;
    for line in history.lines() {
        if number_of(line) != number {
            return false;
        }
        number = number.wrapping_add(1);
    }
    number == pushed
}

/// Whether a history of `room` lines, after the lines 0 to `pushed` - 1, keeps the last of them in
/// order.
fn history_keeps_the_last(alloc: Global, room: u16, pushed: u16) -> bool {
    if room == 0 || room > 1024 {
        return false;
    }
    match History::new(alloc, usize::from(room)) {
        Ok(mut history) => {
            pushes_numbers(alloc, &mut history, pushed)
                && holds_numbers(&history, pushed.saturating_sub(room), pushed)
        }
        Err(_) => false,
    }
}

/// Histories by their room, with the number of pushed lines.
const HISTORIES: &[(&str, u16, u16)] = &[
    ("none of room for one", 1, 0),
    ("one of room for one", 1, 1),
    ("five of room for one", 1, 5),
    ("three of room for two", 2, 3),
    ("two of room for three", 3, 2),
    ("three of room for three", 3, 3),
    ("1,000 of room for three", 3, 1000),
    ("3,000 of room for 1,024", 1024, 3000),
];

/// Histories keep the last lines.
pub(crate) fn wrong(alloc: Global) -> Option<&'static str> {
    for (row, room, pushed) in HISTORIES {
        if !history_keeps_the_last(alloc, *room, *pushed) {
            return Some(row);
        }
    }
    None
}

// ---- Failed allocations: `tools/refuse-memory` makes each allocation of a run fail, one after
// another (docs/DEVELOPING.md).

/// Who sent octets, and their line: frames and faults whose lines need one allocation, and two.
const TRACED: &[(Side, &[u8], &str)] = &[
    (Side::User, &[], "U>N F1 TooShort"),
    (
        Side::Network,
        b"\x02\x81\x01\x01",
        "N>U SAPI 0 TEI 64 C RR N(R)=0 P=1",
    ),
    (
        Side::User,
        b"\x00\x81\x02\x04\x08\x02",
        "U>N SAPI 0 TEI 64 C I N(S)=1 N(R)=2 P=0 info=0802",
    ),
    (Side::User, b"\x04\x81\x7f", "U>N F3 SapiNotServed 04817f"),
];

/// How often an allocation failed: of a line, and of a history.
#[derive(Clone, Copy)]
struct Refusals {
    lines: u32,
    histories: u32,
}

/// A line, at the second try if the first allocation fails.
fn line_at_last(
    alloc: Global,
    from: Side,
    octets: &[u8],
    met: &mut Refusals,
) -> Result<String, AllocError> {
    match line(alloc, from, octets) {
        Ok(printed) => Ok(printed),
        Err(AllocError) => {
            met.lines = met.lines.saturating_add(1);
            line(alloc, from, octets)
        }
    }
}

/// A history of two lines, at the second try if the first allocation fails.
fn history_at_last(alloc: Global, met: &mut Refusals) -> Result<History, AllocError> {
    match History::new(alloc, 2) {
        Ok(history) => Ok(history),
        Err(AllocError) => {
            met.histories = met.histories.saturating_add(1);
            History::new(alloc, 2)
        }
    }
}

/// Pushes each line into a history, and returns whether each is the expected one.
fn pushes_traced(alloc: Global, history: &mut History, met: &mut Refusals) -> bool {
    for (from, octets, text) in TRACED {
        match line_at_last(alloc, *from, octets, met) {
            Ok(printed) if printed.as_str() == *text => history.push(printed),
            _ => return false,
        }
    }
    true
}

/// The lines of a history, as one text.
fn lines_of(history: &History) -> Text {
    let mut lines = Text::new();
    for line in history.lines() {
        lines.put(line);
        lines.put("\n");
    }
    lines
}

/// The last two of these lines.
const LAST_TWO: &str = "\
U>N SAPI 0 TEI 64 C I N(S)=1 N(R)=2 P=0 info=0802
U>N F3 SapiNotServed 04817f
";

/// The history keeps the last two of these lines.
fn wrong_lines(alloc: Global, met: &mut Refusals) -> Option<&'static str> {
    match history_at_last(alloc, met) {
        Ok(mut history) => {
            if pushes_traced(alloc, &mut history, met) && lines_of(&history).is(LAST_TWO) {
                None
            } else {
                Some("of four lines: other text, or not the last two")
            }
        }
        Err(_) => Some("no history is made"),
    }
}

#[test]
fn lines_without_memory(rt: HostRuntime) -> Result<(), Fail> {
    let mut met = Refusals {
        lines: 0,
        histories: 0,
    };
    let wrong = wrong_lines(rt.alloc(), &mut met);
    let Refusals { lines, histories } = met;
    if lines > 0 || histories > 0 {
        println!(rt; "refused: {lines} to lines, {histories} to histories")?;
    }
    none_is_wrong(&[wrong], &Text::new())
}
