//! A run of a suite against a stack.

use crate::known::KnownCases;
use crate::pattern::fits;
use crate::reasons::lack_words;
use crate::results::{CaseReport, Grade};
use crate::seen::{reason_of, seen_frame};
use crate::suite_text::{lines_between, push_wanted};
use crate::tally::Tally;
use lapd_conform::{
    Case, Lacks, Lost, NumberedLine, Outcome, Played, Session, Stack, Station, Verdict, first_case,
    play,
};
use std::alloc::{AllocError, Global};

/// The remark on a case that passes, and is known to fail.
const KNOWN_PASSES: &str = "it is known to fail, and passes";

/// The greatest number of cases of a text.
const MOST_CASES: usize = 1_000_000;

/// The cases that are played.
#[derive(Clone, Copy)]
pub struct Selection<'a> {
    /// Patterns of names. Without one, all cases are played.
    pub patterns: &'a [&'a str],
}

/// Why a run ended before its last case.
#[derive(Clone, Copy, Debug, PartialEq, Eq)]
pub enum Halt {
    /// The stack is out of reach.
    Closed,
    /// A result could not be written.
    Output,
    /// An allocation failed.
    Memory,
}

/// Reports the results of a run.
pub trait Reporter {
    /// A case begins: its number among the cases that are played, and their number.
    fn begin(&mut self, number: u64, count: u64, name: &str, title: &[u8]);

    /// A case has ended, which has this text in its suite. Without `played` it does not apply.
    ///
    /// # Errors
    ///
    /// The result could not be written, or an allocation failed.
    fn end(
        &mut self,
        report: &CaseReport<'_>,
        source: &[u8],
        played: Option<&Played>,
    ) -> Result<(), Halt>;
}

/// A run of cases against a stack.
#[derive(Drop)]
pub struct Run<'a> {
    alloc: Global,
    stack: &'a Stack,
    selection: Selection<'a>,
    known: KnownCases<'a>,
    session: Session,
    /// The number of cases that are played in all.
    count: u64,
    /// The number of the case that is played.
    number: u64,
    tally: Tally,
}

impl From<AllocError> for Halt {
    fn from(_error: AllocError) -> Halt {
        Halt::Memory
    }
}

impl From<Lost> for Halt {
    fn from(lost: Lost) -> Halt {
        match lost {
            Lost::Closed => Halt::Closed,
            Lost::Memory => Halt::Memory,
        }
    }
}

impl Selection<'_> {
    /// Whether the case with this name is played.
    pub fn has(&self, name: &str) -> bool {
        if self.patterns.is_empty() {
            return true;
        }
        for pattern in self.patterns {
            if fits(pattern.as_bytes(), name.as_bytes()) {
                return true;
            }
        }
        false
    }

    /// The number of cases in these lines that are played.
    ///
    /// # Errors
    ///
    /// An allocation failed.
    pub fn count<'s>(
        &self,
        alloc: Global,
        lines: &'s [NumberedLine<'s>],
    ) -> Result<u64, AllocError> {
        let mut count: u64 = 0;
        let mut place: usize = 0;
        for _turn in 0..MOST_CASES {
            let Some(case) = case_at(lines, place) else {
                return Ok(count);
            };
            if self.has(name_of(alloc, &case)?.as_str()) {
                count = count.saturating_add(1);
            }
            place = place.saturating_add(case.lines.len());
        }
        Ok(count)
    }
}

/// The case that begins at this place of the lines.
pub fn case_at<'s>(lines: &'s [NumberedLine<'s>], place: usize) -> Option<Case<'s>> {
    let (_, rest) = lines.split_at_checked(place)?;
    let (case, _) = first_case(rest)?;
    Some(case)
}

/// The name of a case, such as `7-V-01`.
///
/// # Errors
///
/// An allocation failed.
pub fn name_of(alloc: Global, case: &Case<'_>) -> Result<String, AllocError> {
    let name = case.name;
    format!(in alloc; "{name}")
}

impl<'a> Run<'a> {
    /// A run of this number of cases against this stack, of which some are known to fail.
    pub fn new(
        alloc: Global,
        stack: &'a Stack,
        selection: Selection<'a>,
        known: KnownCases<'a>,
        count: u64,
    ) -> Run<'a> {
        Run {
            alloc,
            stack,
            selection,
            known,
            session: Session::new(),
            count,
            number: 0,
            tally: Tally::new(),
        }
    }

    /// The number of the case that was played last.
    pub fn number(&self) -> u64 {
        self.number
    }

    /// The verdicts so far.
    pub fn tally(&self) -> Tally {
        self.tally
    }

    /// Plays the cases of these lines, which were read from this text.
    ///
    /// # Errors
    ///
    /// The stack is out of reach, a result could not be written, or an allocation failed.
    pub fn play_lines<'s, S: Station, R: Reporter>(
        &mut self,
        station: &mut S,
        results: &mut R,
        text: &[u8],
        lines: &'s [NumberedLine<'s>],
    ) -> Result<(), Halt> {
        let mut place: usize = 0;
        for _turn in 0..MOST_CASES {
            let Some(case) = case_at(lines, place) else {
                return Ok(());
            };
            self.play_case(station, results, text, &case)?;
            place = place.saturating_add(case.lines.len());
        }
        Ok(())
    }

    /// Plays a case, unless it is not among those that are played.
    fn play_case<S: Station, R: Reporter>(
        &mut self,
        station: &mut S,
        results: &mut R,
        text: &[u8],
        case: &Case<'_>,
    ) -> Result<(), Halt> {
        let name = name_of(self.alloc, case)?;
        if !self.selection.has(name.as_str()) {
            return Ok(());
        }
        self.number = self.number.saturating_add(1);
        results.begin(self.number, self.count, name.as_str(), case.title);
        let outcome = play(self.alloc, station, self.stack, &mut self.session, case)?;
        let grade = self.report(results, text, case, name.as_str(), &outcome)?;
        self.tally = self.tally.with(grade);
        Ok(())
    }

    /// Reports the result of a case.
    fn report<R: Reporter>(
        &self,
        results: &mut R,
        text: &[u8],
        case: &Case<'_>,
        name: &str,
        outcome: &Outcome,
    ) -> Result<Grade, Halt> {
        match outcome {
            Outcome::NotApplicable(lacks) => report_lack(results, text, case, name, *lacks),
            Outcome::Played(played) => self.report_played(results, text, case, name, played),
        }
    }

    fn report_played<R: Reporter>(
        &self,
        results: &mut R,
        text: &[u8],
        case: &Case<'_>,
        name: &str,
        played: &Played,
    ) -> Result<Grade, Halt> {
        let mut wanted = Vec::new(self.alloc);
        push_wanted(&mut wanted, text, played.line)?;
        let seen = seen_frame(self.alloc, self.stack.side, played)?;
        let is_known = self.known.has(name);
        let grade = grade_of(played.verdict).if_known(is_known);
        let reason = match grade {
            Grade::Pass if is_known => KNOWN_PASSES,
            _ => reason_of(played),
        };
        let report = CaseReport {
            grade,
            name: name.as_bytes(),
            title: case.title,
            clause: case.clause(),
            needs: &[],
            reason: reason.as_bytes(),
            wanted: wanted.as_slice(),
            seen: seen.as_bytes(),
            suite: &[],
        };
        results.end(&report, source_of(text, case), Some(played))?;
        Ok(grade)
    }
}

fn report_lack<R: Reporter>(
    results: &mut R,
    text: &[u8],
    case: &Case<'_>,
    name: &str,
    lacks: Lacks,
) -> Result<Grade, Halt> {
    let report = CaseReport {
        grade: Grade::NotApplicable,
        name: name.as_bytes(),
        title: case.title,
        clause: case.clause(),
        needs: lack_words(lacks).as_bytes(),
        reason: &[],
        wanted: &[],
        seen: &[],
        suite: &[],
    };
    results.end(&report, source_of(text, case), None)?;
    Ok(Grade::NotApplicable)
}

/// The text of a case in its suite.
pub fn source_of<'t>(text: &'t [u8], case: &Case<'_>) -> &'t [u8] {
    match (case.lines.first(), case.lines.last()) {
        (Some(first), Some(last)) => {
            lines_between(text, first.number, last.number.saturating_add(1))
        }
        _ => &[],
    }
}

pub(crate) fn grade_of(verdict: Verdict) -> Grade {
    match verdict {
        Verdict::Pass => Grade::Pass,
        Verdict::Fail => Grade::Fail,
        Verdict::Inconclusive => Grade::Inconclusive,
    }
}
