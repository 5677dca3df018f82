//! Executing a case.

use crate::case::Case;
use crate::happening::Happening;
use crate::player::Player;
use crate::reason::{Lacks, Reason, Stop};
use crate::spelled::GROUP;
use crate::stack::Stack;
use crate::station::{Lost, Station};
use crate::values::Values;
use lapd_conform_suite::{Preamble, Step};
use std::alloc::Global;

/// The dialogue of a case that was executed, and whether its purpose was reached.
#[derive(Drop)]
pub struct Performance {
    /// Why the purpose was not reached. `None` if it was.
    pub reason: Option<Reason>,
    /// The number of the line in the suite at which the case ended.
    pub line: u64,
    /// The happenings, from a moment at which the link was in state 4 and nothing was in transit.
    pub happenings: Vec<Happening>,
    /// The moment at which the case ended, in milliseconds.
    pub until: u64,
    /// How late a frame of the stack may be, in milliseconds.
    pub slack: u64,
    /// The TEI of the link, if it is known.
    pub tei: Option<u8>,
    /// Whether the stack was started anew for the case.
    pub is_fresh: bool,
    /// Whether a request was made after the last frame.
    pub has_requested: bool,
}

/// The first need of a case that the stack does not meet.
pub fn lack(stack: &Stack, case: &Case<'_>) -> Option<Lacks> {
    for line in case.lines {
        match line.line.step {
            Step::Ends(side) if side != stack.side => return Some(Lacks::End),
            Step::Needs(need) if !stack.has(need) => return Some(Lacks::Need(need)),
            Step::State(state) if !stack.reaches(state) => return Some(Lacks::State(state)),
            _ => {}
        }
    }
    None
}

/// Executes the lines of a case. `tei` is the TEI that the network side assigned in an earlier case.
///
/// # Errors
///
/// The stack is out of reach, or an allocation failed.
pub fn perform<S: Station>(
    alloc: Global,
    station: &mut S,
    stack: &Stack,
    tei: Option<u8>,
    case: &Case<'_>,
) -> Result<Performance, Lost> {
    let is_fresh = station.restart()?;
    let kept = if is_fresh { None } else { tei };
    let values = Values::new(*stack, stack.tei.or(kept).unwrap_or(GROUP));
    let mut player = Player::new(alloc, values, !case.tests_link(), is_fresh, case.lines);
    let reason = match run(station, &mut player) {
        Ok(()) if player.timing.is_late => Some(Reason::Late),
        Ok(()) => None,
        Err(Stop::Missed(reason)) => Some(reason),
        Err(Stop::Lost(lost)) => return Err(lost),
    };
    Ok(Performance {
        reason,
        line: player.lines.number,
        until: station.now(),
        slack: player.slack(station),
        tei: player.values.known_tei(),
        is_fresh,
        has_requested: player.timing.has_requested,
        happenings: player.record.happenings,
    })
}

/// Executes the lines. A stack that was not started anew first releases the link, if it has one.
fn run<S: Station>(station: &mut S, player: &mut Player<'_>) -> Result<(), Stop> {
    if !player.is_fresh && (!player.tests_tei || player.values.known_tei().is_some()) {
        player.renew(station)?;
    }
    player.run(station)
}
