//! Counts of verdicts, and the exit status.

ghost use Rattle.std.specs.Prelude.{◌≡◌};
ghost use Rattle.lapd_cli_conform.specs.Tallies.{counted, no_case, status_of};

use crate::results::Grade;
use std::fmt;

/// How many cases passed, failed, failed as is known, were inconclusive, and do not apply.
#[derive(Clone, Copy, Debug, PartialEq, Eq)]
pub struct Tally {
    /// Cases that passed.
    pub passed: u64,
    /// Cases that failed.
    pub failed: u64,
    /// Cases that failed, as is known.
    pub known: u64,
    /// Inconclusive cases.
    pub inconclusive: u64,
    /// Cases that do not apply.
    pub not_applicable: u64,
}

/// The exit status after a case has failed.
const FAILED: u8 = 1;

/// The exit status if no case passed or failed.
const NOTHING_JUDGED: u8 = 4;

impl Tally {
    /// No case.
    pub fn new() -> Tally
        ensures { result ≡ no_case }
    {
        Tally {
            passed: 0,
            failed: 0,
            known: 0,
            inconclusive: 0,
            not_applicable: 0,
        }
    }

    /// The counts with one more case. A count stays at its greatest value.
    pub fn with(self, grade: Grade) -> Tally
        ensures { result ≡ counted self grade }
    {
        match grade {
            Grade::Pass => Tally {
                passed: self.passed.saturating_add(1),
                ..self
            },
            Grade::Fail => Tally {
                failed: self.failed.saturating_add(1),
                ..self
            },
            Grade::Known => Tally {
                known: self.known.saturating_add(1),
                ..self
            },
            Grade::Inconclusive => Tally {
                inconclusive: self.inconclusive.saturating_add(1),
                ..self
            },
            Grade::NotApplicable => Tally {
                not_applicable: self.not_applicable.saturating_add(1),
                ..self
            },
        }
    }

    /// The exit status: 1 if a case failed that is not known to, 4 if none passed or failed, else 0.
    pub fn status(self) -> u8
        ensures { result ≡ status_of self }
    {
        if self.failed != 0 {
            FAILED
        } else if self.passed == 0 && self.known == 0 {
            NOTHING_JUDGED
        } else {
            0
        }
    }

    /// The number of cases.
    pub fn cases(self) -> u64 {
        self.passed
            .saturating_add(self.failed)
            .saturating_add(self.known)
            .saturating_add(self.inconclusive)
            .saturating_add(self.not_applicable)
    }
}

impl fmt::Display for Tally {
    fn fmt<W: fmt::Write>(&self, f: &mut fmt::Formatter<W>) -> fmt::Result {
        let (passed, failed) = (self.passed, self.failed);
        let (inconclusive, lacking) = (self.inconclusive, self.not_applicable);
        write!(
            f,
            "{} cases: {passed} pass, {failed} fail, {inconclusive} inconclusive, {lacking} n/a",
            self.cases()
        )?;
        if self.known != 0 {
            write!(f, ", {} known", self.known)?;
        }
        Ok(())
    }
}
