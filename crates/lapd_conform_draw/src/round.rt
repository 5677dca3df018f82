//! A round of drawn stimuli, and its text as a case of a suite.

ghost use Rattle.std.specs.Prelude.{◌≡◌, ◌+◌, ◌++◌, IfOk, drop, take};
ghost use Rattle.lapd_conform_draw.specs.Parts.{Part};

use crate::stimulus::Stimulus;
use lapd_conform_player::{Preamble, Request, Stack, request_word};
use std::alloc::{AllocError, Global};

/// The requests that a round may make, and that a case of it needs.
const REQUESTS: [Request; 5] = [
    Request::Give,
    Request::Unit,
    Request::Busy,
    Request::Establish,
    Request::Release,
];

/// The greatest number of milliseconds of a pause.
pub(crate) const MOST_PAUSE: u64 = 100_000;

/// A round of drawn stimuli.
#[derive(Drop)]
pub struct Round {
    /// The seed of all rounds.
    pub seed: u64,
    /// Its number, from 1.
    pub number: u64,
    /// The state with which it begins.
    pub preamble: Preamble,
    /// The stimuli after it, in order.
    pub stimuli: Vec<Stimulus>,
    /// Whether it ends with a wait for answers that are missing.
    pub waits: bool,
}

impl Round {
    /// The round without this many stimuli from this place on, and with its last wait or without.
    ///
    /// # Errors
    ///
    /// An allocation failed.
    pub fn without(
        &self,
        alloc: Global,
        place: usize,
        count: usize,
        waits: bool,
    ) -> Result<Round, AllocError>
        ensures part { IfOk result (λ round. Part round.stimuli.items self.now.stimuli.items) }
        ensures cut { IfOk result (λ round. round.stimuli.items
            ≡ take place self.now.stimuli.items ++ drop (place + count) self.now.stimuli.items) }
    {
        let stimuli = left(alloc, self.stimuli.as_slice(), place, count)?;
        Ok(Round {
            seed: self.seed,
            number: self.number,
            preamble: self.preamble,
            stimuli,
            waits,
        })
    }

    /// The name of its case: that of its state, class V, with the number 0.
    pub fn name(&self) -> &'static str {
        match self.preamble {
            Preamble::AwaitingEstablishment | Preamble::LineEstablishes => "5-V-00",
            Preamble::AwaitingRelease => "6-V-00",
            Preamble::Established => "7-V-00",
            Preamble::TimerRecovery | Preamble::OneOutstanding => "8-V-00",
            _ => "4-V-00",
        }
    }

    /// The clauses of Q.921 that its case tests: the procedures of a link.
    pub fn clause(&self) -> &'static str {
        "5.5 to 5.8"
    }

    /// The title of its case, with the seed.
    ///
    /// # Errors
    ///
    /// An allocation failed.
    pub fn title(&self, alloc: Global) -> Result<String, AllocError> {
        let (seed, number) = (self.seed, self.number);
        format!(in alloc; "drawn by seed {seed} in round {number}")
    }

    /// Its text as a case of a suite. At its end the tester waits so long that the judge finds an
    /// answer that is missing.
    ///
    /// # Errors
    ///
    /// An allocation failed.
    pub fn text(&self, alloc: Global, stack: &Stack) -> Result<Vec<u8>, AllocError> {
        let (name, title, clause) = (self.name(), self.title(alloc)?, self.clause());
        let head = format!(in alloc; "case {name} {title}\nclause {clause}\n")?;
        let mut text = Vec::new(alloc);
        text.extend_from_slice(head.as_bytes())?;
        self.push_needs(alloc, &mut text)?;
        let state = format!(in alloc; "state {}\n", state_word(self.preamble))?;
        text.extend_from_slice(state.as_bytes())?;
        for stimulus in &self.stimuli {
            push_stimulus(alloc, &mut text, *stimulus)?;
        }
        if self.waits {
            push_wait(alloc, &mut text, stack)?;
        }
        Ok(text)
    }

    /// Appends what the stack needs for its requests.
    fn push_needs(&self, alloc: Global, text: &mut Vec<u8>) -> Result<(), AllocError> {
        for request in REQUESTS {
            if self.makes(request) {
                let line = format!(in alloc; "needs {}\n", request_word(request))?;
                text.extend_from_slice(line.as_bytes())?;
            }
        }
        Ok(())
    }

    /// Whether it makes a request that needs this one of the upper tester.
    fn makes(&self, request: Request) -> bool {
        for stimulus in &self.stimuli {
            if let Stimulus::Request(made, _) = stimulus
                && needed(*made) == request_word(request)
            {
                return true;
            }
        }
        false
    }
}

/// These stimuli without this many from this place on.
fn left(
    alloc: Global,
    all: &[Stimulus],
    place: usize,
    count: usize,
) -> Result<Vec<Stimulus>, AllocError>
    ensures { IfOk result
        (λ left. left.items ≡ take place all.now ++ drop (place + count) all.now) }
{
    let mut stimuli = Vec::new(alloc);
    stimuli.extend_from_slice(all.get(..place).unwrap_or(all))?;
    let after = place.saturating_add(count);
    stimuli.extend_from_slice(all.get(after..).unwrap_or(&[]))?;
    Ok(stimuli)
}

/// The word of what the stack needs for a request: `ready` needs `busy`.
fn needed(request: Request) -> &'static str {
    match request {
        Request::Ready => request_word(Request::Busy),
        _ => request_word(request),
    }
}

/// The word of a state in a suite.
fn state_word(preamble: Preamble) -> &'static str {
    match preamble {
        Preamble::TeiUnassigned => "1",
        Preamble::AssignAwaitingTei => "2",
        Preamble::EstablishAwaitingTei => "3",
        Preamble::TeiAssigned => "4",
        Preamble::AwaitingEstablishment => "5",
        Preamble::LineEstablishes => "5-line",
        Preamble::AwaitingRelease => "6",
        Preamble::Established => "7",
        Preamble::TimerRecovery => "8",
        Preamble::OneOutstanding => "8-out",
    }
}

fn push_stimulus(alloc: Global, text: &mut Vec<u8>, stimulus: Stimulus) -> Result<(), AllocError> {
    let line = format!(in alloc; "{stimulus}\n")?;
    text.extend_from_slice(line.as_bytes())
}

/// Appends a wait over 3 times T200 and the tolerance, after which the judge misses an answer.
fn push_wait(alloc: Global, text: &mut Vec<u8>, stack: &Stack) -> Result<(), AllocError> {
    let more = u64::from(stack.delay)
        .saturating_mul(8)
        .saturating_add(500)
        .min(MOST_PAUSE);
    let lines = format!(in alloc; "pause 330 %T200\npause {more} ms\n")?;
    text.extend_from_slice(lines.as_bytes())
}
