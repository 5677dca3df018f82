//! Playing a round.

use lapd_conform::{Lost, Outcome, Session, Stack, Station, first_case, play};
use lapd_conform_suite::{NumberedLine, read_suite};
use std::alloc::Global;

/// Plays the case of this text, as [`lapd_conform::play`] does.
///
/// # Errors
///
/// The stack is out of reach, or an allocation failed.
pub fn play_round<S: Station>(
    alloc: Global,
    station: &mut S,
    stack: &Stack,
    session: &mut Session,
    text: &[u8],
) -> Result<Outcome, Lost> {
    match read_suite(alloc, text) {
        Ok(lines) => play_lines(alloc, station, stack, session, lines.as_slice()),
        Err(_) => Err(Lost::Memory),
    }
}

fn play_lines<'s, S: Station>(
    alloc: Global,
    station: &mut S,
    stack: &Stack,
    session: &mut Session,
    lines: &'s [NumberedLine<'s>],
) -> Result<Outcome, Lost> {
    match first_case(lines) {
        Some((case, _)) => play(alloc, station, stack, session, &case),
        None => Err(Lost::Memory),
    }
}
