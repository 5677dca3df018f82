//! Why a stack file cannot be read.

use std::fmt;

/// The word or text that a line should have in place of a wrong word.
#[derive(Clone, Copy)]
pub enum Needed {
    /// The name of a setting.
    Name,
    /// The value of `tei`.
    Tei,
    /// The value of `k`.
    Window,
    /// The value of `n200` or `n202`.
    Times,
    /// The value of `t200`, `t201` or `t202`.
    Duration,
    /// The value of `t203`.
    IdleDuration,
    /// The value of `sapis`.
    Sapis,
    /// The value of `layer3`.
    LayerThree,
    /// A value of `upper`.
    Request,
    /// The value of `confirms`.
    Confirms,
    /// The value of `delay`.
    Delay,
    /// The end of the line.
    EndOfLine,
}

impl Needed {
    /// In words, as the object of "expected".
    pub fn words(self) -> &'static str {
        match self {
            Needed::Name =>
                "tei, k, n200, n202, t200, t201, t202, t203, sapis, layer3, upper, confirms or delay",
            Needed::Tei => "a TEI from 0 to 126, or automatic",
            Needed::Window => "a window k from 1 to 127",
            Needed::Times => "a number from 1 to 100",
            Needed::Duration => "milliseconds from 1 to 3600000",
            Needed::IdleDuration => "milliseconds from 1 to 3600000, or none",
            Needed::Sapis => "some or all",
            Needed::LayerThree => "active or passive",
            Needed::Request => "establish, release, give, unit, busy, ask, check or remove",
            Needed::Confirms => "yes or no",
            Needed::Delay => "milliseconds from 0 to 10000",
            Needed::EndOfLine => "the end of the line",
        }
    }
}

/// Why a line cannot be read.
#[derive(Clone, Copy)]
pub struct SettingFault<'s> {
    /// The wrong word. Empty if it is missing.
    pub found: &'s [u8],
    /// The word or text that is expected there.
    pub wanted: Needed,
}

/// The first line of a stack file that cannot be read.
#[derive(Clone, Copy)]
pub struct StackFault<'s> {
    /// The number of the line, from 1.
    pub line: u64,
    /// The fault.
    pub fault: SettingFault<'s>,
}

impl fmt::Display for SettingFault<'_> {
    fn fmt<W: fmt::Write>(&self, f: &mut fmt::Formatter<W>) -> fmt::Result {
        f.write_str("expected ")?;
        f.write_str(self.wanted.words())?;
        if self.found.is_empty() {
            return Ok(());
        }
        write!(f, ", found '{}'", self.found.escape_ascii())
    }
}

impl fmt::Display for StackFault<'_> {
    fn fmt<W: fmt::Write>(&self, f: &mut fmt::Formatter<W>) -> fmt::Result {
        write!(f, "line {}: {}", self.line, self.fault)
    }
}
