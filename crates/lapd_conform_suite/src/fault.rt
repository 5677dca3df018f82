//! Why a line of a suite cannot be read.

use std::fmt;

/// The word or text that a line should have in place of a wrong word.
#[derive(Clone, Copy)]
pub enum Wanted {
    /// The first word of a line.
    Keyword,
    /// The name of a case.
    Name,
    /// A name with a greater number than the last of its state and class.
    NewName,
    /// A title.
    Title,
    /// Text that begins with the number of a clause.
    Clause,
    /// `net` or `user`.
    Side,
    /// A need of a case.
    Need,
    /// A state.
    Preamble,
    /// The first word of a frame.
    Opening,
    /// The kind of a frame.
    Kind,
    /// The kind of a message of TEI management.
    TeiKind,
    /// A field of a frame.
    Field,
    /// A number.
    Number,
    /// Octets in hexadecimal digits.
    Octets,
    /// A frame that can be sent: its role and all its values are known.
    Sendable,
    /// A frame that is compared by its fields.
    Comparable,
    /// A request to the upper tester.
    Request,
    /// T200 to T203.
    Timer,
    /// A number up to 100,000.
    Amount,
    /// The unit of a time.
    Unit,
    /// The end of the line.
    EndOfLine,
    /// `case`, before anything else.
    CaseFirst,
    /// `clause`, right after `case`.
    ClauseNext,
    /// A line that may follow: the lines of the head are before the first step.
    Step,
    /// `expect` before `or`, `and`, `at` and `within`.
    Expectation,
    /// `end` of the repetition that is open, and only there.
    EndOfRepetition,
}

impl Wanted {
    /// In words, as the object of "expected".
    pub fn words(self) -> &'static str {
        match self {
            Wanted::Keyword =>
                "case, clause, ends, needs, state, send, do, expect, or, and, at, within, quiet, pause, allow, forget, repeat or end",
            Wanted::Name =>
                "a name such as 7-V-01: 1 to 8, n or u, then V, O, I or T, then two digits",
            Wanted::NewName => "a greater number than the last of this state and class",
            Wanted::Title => "a title",
            Wanted::Clause => "the number of a clause of Q.921",
            Wanted::Side => "net or user",
            Wanted::Need =>
                "give, unit, busy, check, ask, remove, establish, release, k>1, k>2, t203, n201, sapis or automatic",
            Wanted::Preamble => "1 to 8, 5-line or 8-out",
            Wanted::Opening => "C, R, *, tei, octets, raw, ack or nothing",
            Wanted::Kind => "I, RR, RNR, REJ, SABME, DM, UI, DISC, UA, FRMR or XID",
            Wanted::TeiKind =>
                "Request, Assigned, Denied, CheckRequest, CheckResponse, Remove or Verify",
            Wanted::Field => "N(S)=, N(R)=, P=, F=, sapi=, tei=, Ri=, Ai= or info= with a value",
            Wanted::Number =>
                "a number from 0 to 65,535, or K, N200, N201, N202, i, $a, $q or $r, which a number may follow as in K+1",
            Wanted::Octets => "octets in hexadecimal digits",
            Wanted::Sendable => "a frame whose values are all known",
            Wanted::Comparable => "a frame in words, ack or nothing",
            Wanted::Request => "establish, release, give, unit, busy, ready, ask, check or remove",
            Wanted::Timer => "T200, T201, T202 or T203",
            Wanted::Amount => "a number from 0 to 100,000",
            Wanted::Unit => "ms, %T200, %T201, %T202 or %T203",
            Wanted::EndOfLine => "the end of the line",
            Wanted::CaseFirst => "a line with case",
            Wanted::ClauseNext => "a line with clause",
            Wanted::Step => "a step of the case",
            Wanted::Expectation => "a line with expect",
            Wanted::EndOfRepetition =>
                "a line with end for each repeat, and no repeat inside another",
        }
    }
}

/// Why a line cannot be read.
#[derive(Clone, Copy)]
pub struct Fault<'s> {
    /// The wrong word, or the text from there on. Empty if something is missing.
    pub found: &'s [u8],
    /// The word or text that is expected there.
    pub wanted: Wanted,
}

/// Why a suite cannot be read.
#[derive(Clone, Copy)]
pub enum SuiteFault<'s> {
    /// The line with this number, from 1, is wrong. At the end of the suite it is the number after
    /// the last line.
    Line(u64, Fault<'s>),
    /// An allocation failed.
    Memory,
}

impl fmt::Display for Fault<'_> {
    fn fmt<W: fmt::Write>(&self, f: &mut fmt::Formatter<W>) -> fmt::Result {
        f.write_str("expected ")?;
        f.write_str(self.wanted.words())?;
        match str::from_utf8(self.found) {
            Ok("") => Ok(()),
            Ok(found) => write!(f, ", found '{found}'"),
            Err(_) => f.write_str(", found octets that are not UTF-8"),
        }
    }
}

impl fmt::Display for SuiteFault<'_> {
    fn fmt<W: fmt::Write>(&self, f: &mut fmt::Formatter<W>) -> fmt::Result {
        match self {
            SuiteFault::Line(number, fault) => write!(f, "line {number}: {fault}"),
            SuiteFault::Memory => f.write_str("out of memory"),
        }
    }
}
