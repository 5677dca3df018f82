//! Whole suites: their lines, and the order of lines.

ghost use Rattle.std.specs.Prelude.{◌≡◌, ℕ, ◌+◌, List, ◌∷◌, ◌<◌, [], IfErr, IfNone, IfOk, IfSome, length, map};
ghost use Rattle.lapd_cli_script.specs.Script.{lines_of};
ghost use Rattle.lapd_conform_suite.specs.Suites.{GoesOn, ReadsAt, lines_from, after_lines, numbered_words, after_case, after_end, after_repeat, after_step, answer_at, clause_at, end_in, head_at, key_of as key_of_name, line_after, next_name, start, step_in, suite_in};

use crate::fault::{Fault, SuiteFault, Wanted};
use crate::line::{Line, Step, read_line};
use crate::name::Name;
use lapd_cli_script::{first_line, is_passed_over};
use std::alloc::Global;

/// A line of a suite with its number.
#[derive(Clone, Copy)]
pub struct NumberedLine<'s> {
    /// The number of the line in the text, from 1.
    pub number: u64,
    /// The line.
    pub line: Line<'s>,
}

/// The place in a case after a line.
#[derive(Clone, Copy)]
pub(crate) enum Place {
    /// Before the first case.
    Outside,
    /// After `case`.
    Named,
    /// After `clause`, before the first step.
    Ready,
    /// After a step.
    Steps,
    /// After `expect`, and what belongs to it.
    Answer,
}

/// The state that the lines read so far lead to: it decides which lines may follow.
#[derive(Clone, Copy)]
pub(crate) struct Progress {
    /// The place in the case.
    pub place: Place,
    /// A repetition is open.
    pub repeats: bool,
    /// The least key of the next case's name.
    pub least: u32,
}

impl Progress {
    /// Before the first line.
    fn start() -> Progress
        ensures { result ≡ start }
    {
        Progress {
            place: Place::Outside,
            repeats: false,
            least: 0,
        }
    }

    fn at(self, place: Place) -> Progress
        ensures { result ≡ record self { place = place } }
    {
        Progress {
            place,
            repeats: self.repeats,
            least: self.least,
        }
    }

    /// After a line that says this.
    fn after(self, step: Step) -> Result<Progress, Wanted>
        ensures { result ≡ after_step self step }
    {
        match step {
            Step::Case(name) => self.after_case(name),
            Step::Clause => self.after_clause(),
            Step::Ends(_) => self.after_head(),
            Step::Needs(_) => self.after_head(),
            Step::State(_) => self.step(Place::Steps),
            Step::Send(_) => self.step(Place::Steps),
            Step::Do(_, _) => self.step(Place::Steps),
            Step::Expect(_) => self.step(Place::Answer),
            Step::Or(_) => self.answer(Place::Answer),
            Step::And(_) => self.answer(Place::Answer),
            Step::At(_) => self.answer(Place::Steps),
            Step::Within(_) => self.answer(Place::Steps),
            Step::Quiet(_) => self.step(Place::Steps),
            Step::Pause(_) => self.step(Place::Steps),
            Step::Allow(_) => self.step(Place::Steps),
            Step::Forget => self.step(Place::Steps),
            Step::Repeat(_) => self.after_repeat(),
            Step::End => self.after_end(),
        }
    }

    /// After the clause, which follows the case.
    fn after_clause(self) -> Result<Progress, Wanted>
        ensures { result ≡ clause_at self.place self }
    {
        match self.place {
            Place::Outside => Err(Wanted::CaseFirst),
            Place::Named => Ok(self.at(Place::Ready)),
            Place::Ready => Err(Wanted::Step),
            Place::Steps => Err(Wanted::Step),
            Place::Answer => Err(Wanted::Step),
        }
    }

    /// After a line of the head, which follows the clause.
    fn after_head(self) -> Result<Progress, Wanted>
        ensures { result ≡ head_at self.place self }
    {
        match self.place {
            Place::Outside => Err(Wanted::CaseFirst),
            Place::Named => Err(Wanted::ClauseNext),
            Place::Ready => Ok(self),
            Place::Steps => Err(Wanted::Step),
            Place::Answer => Err(Wanted::Step),
        }
    }

    /// After a line that belongs to an expectation.
    fn answer(self, place: Place) -> Result<Progress, Wanted>
        ensures { result ≡ answer_at self.place self place }
    {
        match self.place {
            Place::Answer => Ok(self.at(place)),
            Place::Outside => Err(Wanted::Expectation),
            Place::Named => Err(Wanted::Expectation),
            Place::Ready => Err(Wanted::Expectation),
            Place::Steps => Err(Wanted::Expectation),
        }
    }

    fn after_case(self, name: Name) -> Result<Progress, Wanted>
        ensures { result ≡ after_case self name }
    {
        if self.repeats {
            return Err(Wanted::EndOfRepetition);
        }
        match self.place {
            Place::Named => Err(Wanted::ClauseNext),
            Place::Ready => Err(Wanted::Step),
            Place::Outside => self.next_name(name),
            Place::Steps => self.next_name(name),
            Place::Answer => self.next_name(name),
        }
    }

    /// After the name of a case, which must follow the names before it.
    fn next_name(self, name: Name) -> Result<Progress, Wanted>
        ensures { result ≡ next_name self name }
    {
        let key = key_of(name);
        if key < self.least {
            return Err(Wanted::NewName);
        }
        Ok(Progress {
            place: Place::Named,
            repeats: false,
            least: key + 1,
        })
    }

    /// After a step, which may follow the clause.
    fn step(self, place: Place) -> Result<Progress, Wanted>
        ensures { result ≡ step_in self place }
    {
        match self.place {
            Place::Outside => Err(Wanted::CaseFirst),
            Place::Named => Err(Wanted::ClauseNext),
            Place::Ready => Ok(self.at(place)),
            Place::Steps => Ok(self.at(place)),
            Place::Answer => Ok(self.at(place)),
        }
    }

    fn with_repeats(self, repeats: bool) -> Progress
        ensures { result ≡ record self { repeats = repeats } }
    {
        Progress {
            place: self.place,
            repeats,
            least: self.least,
        }
    }

    /// After the beginning of a repetition.
    fn after_repeat(self) -> Result<Progress, Wanted>
        ensures { result ≡ after_repeat self }
    {
        if self.repeats {
            Err(Wanted::EndOfRepetition)
        } else {
            self.with_repeats(true).step(Place::Steps)
        }
    }

    /// After the end of a repetition.
    fn after_end(self) -> Result<Progress, Wanted>
        ensures { result ≡ after_end self }
    {
        if self.repeats {
            self.with_repeats(false).step(Place::Steps)
        } else {
            Err(Wanted::EndOfRepetition)
        }
    }

    /// Checks that a suite may end here.
    fn end(self) -> Result<(), Wanted>
        ensures { result ≡ end_in self }
    {
        if self.repeats {
            return Err(Wanted::EndOfRepetition);
        }
        match self.place {
            Place::Outside => Err(Wanted::CaseFirst),
            Place::Named => Err(Wanted::ClauseNext),
            Place::Ready => Err(Wanted::Step),
            Place::Steps => Ok(()),
            Place::Answer => Ok(()),
        }
    }
}

/// The place of a name in the order of names: by state, then class, then number.
fn key_of(name: Name) -> u32
    ensures key { result ≡ key_of_name name }
    ensures small { result < 100000 }
{
    name.slot() as u32 * 256 + u32::from(name.number)
}

/// Reads the lines of a suite: cases by rising names, each with a title, the clause of Q.921 and at
/// least one step. Empty lines and those that begin with `#` are skipped.
///
/// # Errors
///
/// The first wrong line with its number, or that an allocation failed.
pub fn read_suite<'s>(
    alloc: Global,
    text: &'s [u8],
) -> Result<Vec<NumberedLine<'s>>, SuiteFault<'s>>
    ensures { ReadsAt (λ lines. map numbered_words lines.items) result (suite_in text.now) }
{
    let mut lines = Vec::new(alloc);
    let mut progress = Progress::start();
    let mut number: u64 = 1;
    let mut rest = text;
    while let Some((line, left)) = next_line(rest) {
        progress = take_line(&mut lines, progress, number, line)?;
        // A text has fewer lines than octets, so the number fits.
        number = next_number(number)?;
        rest = left;
    }
    match progress.end() {
        Ok(()) => Ok(lines),
        Err(wanted) => Err(SuiteFault::Line(number, Fault { found: &[], wanted })),
    }
}

/// The number of the next line.
fn next_number<'s>(number: u64) -> Result<u64, SuiteFault<'s>>
    ensures next { IfOk result (λ next. next ≡ number + 1) }
    ensures err { IfErr result (λ fault. fault ≡ SuiteFault.Memory) }
{
    match number.checked_add(1) {
        Some(next) => Ok(next),
        None => Err(SuiteFault::Memory),
    }
}

/// Reads a line, appends it unless it is skipped, and returns the state after it.
fn take_line<'s>(
    lines: &mut Vec<NumberedLine<'s>>,
    progress: Progress,
    number: u64,
    line: &'s [u8],
) -> Result<Progress, SuiteFault<'s>>
    ensures { (rest : List (List ℕ)) → GoesOn
        (λ after. after_lines lines.new.items (lines_from (number + 1) after rest)) result
        (after_lines lines.old.items (lines_from number progress (line.now ∷ rest))) }
{
    if is_passed_over(line) {
        return Ok(progress);
    }
    let (read, after) = read_after(progress, number, line)?;
    match lines.push(NumberedLine { number, line: read }) {
        Ok(()) => Ok(after),
        Err(_) => Err(SuiteFault::Memory),
    }
}

/// Reads a line, and returns it with the state after it.
fn read_after<'s>(
    progress: Progress,
    number: u64,
    line: &'s [u8],
) -> Result<(Line<'s>, Progress), SuiteFault<'s>>
    ensures { ReadsAt (λ read. ((read.0.step, read.0.text.now), read.1)) result
        (line_after progress number line.now) }
{
    match read_line(line) {
        Ok(read) => match progress.after(read.step) {
            Ok(after) => Ok((read, after)),
            Err(wanted) => Err(SuiteFault::Line(number, Fault { found: &[], wanted })),
        },
        Err(fault) => Err(SuiteFault::Line(number, fault)),
    }
}

/// The first line of a text, and the text after it. Returns `None` at the end.
#[tactic(auto, using(crate::proofs::TextLines::one_line_and_rest, crate::proofs::TextLines::last_line))]
pub fn next_line(text: &[u8]) -> Option<(&[u8], &[u8])>
    ensures none { IfNone result (lines_of text.now ≡ []) }
    ensures some { IfSome result (λ parts. lines_of text.now ≡ parts.0.now ∷ lines_of parts.1.now) }
    ensures shorter { IfSome result (λ parts. length parts.1.now < length text.now) }
{
    if text.is_empty() {
        return None;
    }
    match first_line(text) {
        Some((line, rest)) => Some((line, rest)),
        None => Some((text, &[])),
    }
}
