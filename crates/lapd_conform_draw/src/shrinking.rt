//! Leaving out stimuli of a round that fails.

ghost use Rattle.std.specs.Prelude.{IfOk};
ghost use Rattle.lapd_conform_draw.specs.Parts.{Part};

use crate::playing::play_round;
use crate::round::Round;
use lapd_conform::{Lost, Outcome, Played, Session, Stack, Station, Verdict};
use std::alloc::Global;

/// The greatest number of passes over the stimuli.
const MOST_PASSES: usize = 64;

/// Reports the progress.
pub trait Progress {
    /// A round is shrunk: the number of the try, and its number of stimuli.
    fn shrink(&mut self, number: u64, stimuli: usize);
}

/// The rounds that are executed to shrink one that failed.
#[derive(Drop)]
pub struct Tries {
    stack: Stack,
    session: Session,
    /// The result of the last round that failed.
    played: Played,
    /// The number of rounds that were executed.
    number: u64,
}

impl Tries {
    /// Before the first of them, after a round with this result.
    pub fn new(stack: Stack, session: Session, played: Played) -> Tries {
        Tries {
            stack,
            session,
            played,
            number: 0,
        }
    }

    /// The state that is kept between the cases of the stack.
    pub fn session(&self) -> Session {
        self.session
    }

    /// The result of the last round that failed.
    pub fn played(&self) -> &Played {
        &self.played
    }

    /// Whether this round fails too.
    fn fails<S: Station, P: Progress>(
        &mut self,
        alloc: Global,
        station: &mut S,
        progress: &mut P,
        round: &Round,
    ) -> Result<bool, Lost> {
        self.number = self.number.saturating_add(1);
        progress.shrink(self.number, round.stimuli.len());
        let Ok(text) = round.text(alloc, &self.stack) else {
            return Err(Lost::Memory);
        };
        let outcome = play_round(
            alloc,
            station,
            &self.stack,
            &mut self.session,
            text.as_slice(),
        )?;
        match outcome {
            Outcome::Played(played) if played.verdict == Verdict::Fail => {
                self.played = played;
                Ok(true)
            }
            _ => Ok(false),
        }
    }
}

/// A round that fails as `round` does, without the stimuli that it does not need: no single one can
/// be left out.
///
/// # Errors
///
/// The stack is out of reach, or an allocation failed.
pub fn shrink<S: Station, P: Progress>(
    alloc: Global,
    station: &mut S,
    progress: &mut P,
    tries: &mut Tries,
    round: Round,
) -> Result<Round, Lost>
    ensures { IfOk result (λ least. Part least.stimuli.items round.stimuli.items) }
{
    let mut least = without_wait(alloc, station, progress, tries, round)?;
    let mut size = least.stimuli.len().div_ceil(2).max(1);
    for _pass in 0..MOST_PASSES {
        let before = least.stimuli.len();
        least = pass_over(alloc, station, progress, tries, least, size)?;
        if size == 1 && least.stimuli.len() == before {
            return Ok(least);
        }
        size = (size / 2).max(1);
    }
    Ok(least)
}

/// The round without its last wait, if it fails so too.
fn without_wait<S: Station, P: Progress>(
    alloc: Global,
    station: &mut S,
    progress: &mut P,
    tries: &mut Tries,
    round: Round,
) -> Result<Round, Lost>
    ensures { IfOk result (λ least. Part least.stimuli.items round.stimuli.items) }
{
    let shorter = smaller(alloc, &round, 0, 0, false)?;
    if tries.fails(alloc, station, progress, &shorter)? {
        Ok(shorter)
    } else {
        Ok(round)
    }
}

/// Leaves out this number of stimuli at a time if the round still fails, the last ones first.
fn pass_over<S: Station, P: Progress>(
    alloc: Global,
    station: &mut S,
    progress: &mut P,
    tries: &mut Tries,
    round: Round,
    size: usize,
) -> Result<Round, Lost>
    ensures { IfOk result (λ least. Part least.stimuli.items round.stimuli.items) }
{
    let mut least = round;
    let mut end = least.stimuli.len();
    for _turn in 0..least.stimuli.len() {
        if end == 0 {
            return Ok(least);
        }
        let first = end.saturating_sub(size);
        let shorter = smaller(alloc, &least, first, end.saturating_sub(first), least.waits)?;
        if tries.fails(alloc, station, progress, &shorter)? {
            least = shorter;
        }
        end = first;
    }
    Ok(least)
}

fn smaller(
    alloc: Global,
    round: &Round,
    place: usize,
    count: usize,
    waits: bool,
) -> Result<Round, Lost>
    ensures { IfOk result (λ shorter. Part shorter.stimuli.items round.now.stimuli.items) }
{
    match round.without(alloc, place, count, waits) {
        Ok(shorter) => Ok(shorter),
        Err(_) => Err(Lost::Memory),
    }
}
