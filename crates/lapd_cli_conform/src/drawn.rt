//! A run of drawn stimuli against a stack.

ghost use Rattle.std.specs.Prelude.{◌≡◌};
ghost use Rattle.lapd_cli_conform.specs.Plans.{round_count, stimuli_of as stimuli_in};

use crate::results::{CaseReport, Grade};
use crate::run::{Halt, Reporter, grade_of};
use crate::seen::{reason_of, seen_frame};
use crate::tally::Tally;
use lapd_conform::{Outcome, Played, Session, Stack, Station, Verdict};
use lapd_conform_draw::{Progress, Round, Tries, draw_round, play_round, shrink};
use std::alloc::{AllocError, Global};
use std::fmt;

/// How many stimuli a round has. The last round may have fewer.
const ROUND: u64 = 30;

/// The number of stimuli that are drawn, and their seed.
#[derive(Clone, Copy)]
pub struct DrawPlan {
    /// The number of stimuli.
    pub count: u64,
    /// The seed.
    pub seed: u64,
}

impl DrawPlan {
    /// The number of rounds.
    pub fn rounds(self) -> u64
        ensures { result ≡ round_count self.count }
    {
        self.count.div_ceil(ROUND)
    }

    /// The number of stimuli of the round with this number, from 1.
    pub fn stimuli_of(self, number: u64) -> u64
        ensures { result ≡ stimuli_in self.count number }
    {
        let before = number.saturating_sub(1).saturating_mul(ROUND);
        self.count.saturating_sub(before).min(ROUND)
    }
}

/// The counts of a run of drawn stimuli.
#[derive(Clone, Copy)]
pub struct DrawCounts {
    /// The plan.
    pub plan: DrawPlan,
    /// The stimuli of the rounds that were played.
    pub stimuli: u64,
    /// The verdicts on these rounds.
    pub tally: Tally,
}

impl DrawCounts {
    /// The counts as a JSON object.
    ///
    /// # Errors
    ///
    /// An allocation failed.
    pub fn object(&self, alloc: Global) -> Result<String, AllocError> {
        let (rounds, failed) = (self.tally.cases(), self.tally.failed);
        let (seed, stimuli) = (self.plan.seed, self.stimuli);
        let unjudged = self.tally.inconclusive;
        format!(in alloc;
            "{{\"failed\":{failed},\"rounds\":{rounds},\"seed\":\"{seed}\",\"stimuli\":{stimuli},\"unjudged\":{unjudged}}}"
        )
    }
}

impl fmt::Display for DrawCounts {
    fn fmt<W: fmt::Write>(&self, f: &mut fmt::Formatter<W>) -> fmt::Result {
        let (passed, failed) = (self.tally.passed, self.tally.failed);
        write!(
            f,
            "{} stimuli of seed {} in {} rounds: {passed} pass, {failed} fail, {} not judged",
            self.stimuli,
            self.plan.seed,
            self.tally.cases(),
            self.tally.inconclusive
        )
    }
}

/// A run of drawn stimuli against a stack.
#[derive(Drop)]
pub struct DrawnRun<'a> {
    alloc: Global,
    stack: &'a Stack,
    session: Session,
    counts: DrawCounts,
    /// The number of the round that is played.
    number: u64,
}

impl<'a> DrawnRun<'a> {
    /// A run of this plan.
    pub fn new(alloc: Global, stack: &'a Stack, plan: DrawPlan) -> DrawnRun<'a> {
        DrawnRun {
            alloc,
            stack,
            session: Session::new(),
            counts: DrawCounts {
                plan,
                stimuli: 0,
                tally: Tally::new(),
            },
            number: 0,
        }
    }

    /// The number of the round that was played last.
    pub fn number(&self) -> u64 {
        self.number
    }

    /// The counts so far.
    pub fn counts(&self) -> DrawCounts {
        self.counts
    }

    /// Plays the rounds up to the first that fails, which is shrunk.
    ///
    /// # Errors
    ///
    /// The stack is out of reach, a result could not be written, or an allocation failed.
    pub fn play<S: Station, R: Reporter + Progress>(
        &mut self,
        station: &mut S,
        results: &mut R,
    ) -> Result<(), Halt> {
        for _turn in 0..self.counts.plan.rounds() {
            if self.play_next(station, results)? == Grade::Fail {
                return Ok(());
            }
        }
        Ok(())
    }

    /// Plays the next round, and reports its result.
    fn play_next<S: Station, R: Reporter + Progress>(
        &mut self,
        station: &mut S,
        results: &mut R,
    ) -> Result<Grade, Halt> {
        self.number = self.number.saturating_add(1);
        let count = self.counts.plan.stimuli_of(self.number);
        let round = draw_round(
            self.alloc,
            self.stack,
            self.counts.plan.seed,
            self.number,
            usize::try_from(count).unwrap_or(0),
        )?;
        let title = round.title(self.alloc)?;
        let rounds = self.counts.plan.rounds();
        results.begin(self.number, rounds, round.name(), title.as_bytes());
        let grade = self.play_round(station, results, round)?;
        self.counts.stimuli = self.counts.stimuli.saturating_add(count);
        self.counts.tally = self.counts.tally.with(grade);
        Ok(grade)
    }

    fn play_round<S: Station, R: Reporter + Progress>(
        &mut self,
        station: &mut S,
        results: &mut R,
        round: Round,
    ) -> Result<Grade, Halt> {
        let text = round.text(self.alloc, self.stack)?;
        let outcome = play_round(
            self.alloc,
            station,
            self.stack,
            &mut self.session,
            text.as_slice(),
        )?;
        match outcome {
            Outcome::NotApplicable(_) => Ok(Grade::NotApplicable),
            Outcome::Played(played) if played.verdict == Verdict::Fail => {
                self.shrink(station, results, round, played)
            }
            Outcome::Played(played) => self.report(results, &round, &played),
        }
    }

    /// Shrinks a round that failed, and reports the least one.
    fn shrink<S: Station, R: Reporter + Progress>(
        &mut self,
        station: &mut S,
        results: &mut R,
        round: Round,
        played: Played,
    ) -> Result<Grade, Halt> {
        let mut tries = Tries::new(*self.stack, self.session, played);
        let least = shrink(self.alloc, station, results, &mut tries, round)?;
        self.session = tries.session();
        self.report(results, &least, tries.played())
    }

    fn report<R: Reporter>(
        &self,
        results: &mut R,
        round: &Round,
        played: &Played,
    ) -> Result<Grade, Halt> {
        let text = round.text(self.alloc, self.stack)?;
        let title = round.title(self.alloc)?;
        let seen = seen_frame(self.alloc, self.stack.side, played)?;
        let grade = grade_of(played.verdict);
        let report = CaseReport {
            grade,
            name: round.name().as_bytes(),
            title: title.as_bytes(),
            clause: round.clause().as_bytes(),
            needs: &[],
            reason: reason_of(played).as_bytes(),
            wanted: &[],
            seen: seen.as_bytes(),
            suite: text.as_slice(),
        };
        results.end(&report, text.as_slice(), Some(played))?;
        Ok(grade)
    }
}
