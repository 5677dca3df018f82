//! The lines of a case, and which of them is executed next.

use lapd_conform_suite::{Line, NumberedLine, Step};

/// The lines of a case, and which of them is executed next.
#[derive(Clone, Copy)]
pub(crate) struct CaseLines<'s> {
    lines: &'s [NumberedLine<'s>],
    /// The number in the suite of the line that is executed.
    pub number: u64,
    /// The index of the line that is executed next.
    place: usize,
    /// The index of the first line of the repetition.
    first: usize,
    /// How many times the repetition is still executed, the current time included.
    left: u16,
}

impl<'s> CaseLines<'s> {
    /// Before the first of these lines.
    pub fn new(lines: &'s [NumberedLine<'s>]) -> CaseLines<'s> {
        CaseLines {
            lines,
            number: 0,
            place: 0,
            first: 0,
            left: 0,
        }
    }

    /// The next line, which remains the next one.
    pub fn peek(&self) -> Option<Line<'s>> {
        let numbered = self.lines.get(self.place)?;
        Some(numbered.line)
    }

    /// Passes over the next line.
    pub fn skip(&mut self) {
        self.place = self.place.saturating_add(1);
    }

    /// The next line, to be executed.
    pub fn next(&mut self) -> Option<Line<'s>> {
        let numbered = *self.lines.get(self.place)?;
        self.skip();
        self.number = numbered.number;
        Some(numbered.line)
    }

    /// Begins a repetition that is executed this number of times. Passes over its lines if it is 0.
    pub fn repeat(&mut self, count: u16) {
        self.first = self.place;
        self.left = count;
        if count == 0 {
            for _turn in 0..self.lines.len() {
                match self.peek() {
                    Some(line) if !matches!(line.step, Step::End) => self.skip(),
                    _ => return,
                }
            }
        }
    }

    /// The end of a repetition. Returns whether it is executed once more.
    pub fn end_repetition(&mut self) -> bool {
        let goes_on = self.left > 1;
        if goes_on {
            self.left = self.left.saturating_sub(1);
            self.place = self.first;
        }
        goes_on
    }
}
