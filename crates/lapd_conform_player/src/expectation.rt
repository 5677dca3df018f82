//! Expectations of frames.

use lapd_conform_suite::{Line, Pattern, Span, Step};
use lapd_timers::Timer;
use std::alloc::AllocError;

/// The frames that are expected of the stack, and when.
#[derive(Drop)]
pub(crate) struct Expectation<'s> {
    /// The lines that name a frame.
    pub frames: Vec<Line<'s>>,
    /// All frames are expected, not one of them.
    pub all: bool,
    /// The timer whose expiry sends the frame.
    pub timer: Option<Timer>,
    /// The time within which the frame is expected.
    pub within: Option<Span>,
}

impl<'s> Expectation<'s> {
    /// Adds a line, and returns `false` if it does not belong to the expectation.
    ///
    /// # Errors
    ///
    /// An allocation failed.
    pub fn add(&mut self, line: Line<'s>) -> Result<bool, AllocError> {
        match line.step {
            Step::Or(_) => self.frames.push(line)?,
            Step::And(_) => {
                self.all = true;
                self.frames.push(line)?;
            }
            Step::At(timer) => self.timer = Some(timer),
            Step::Within(span) => self.within = Some(span),
            _ => return Ok(false),
        }
        Ok(true)
    }

    /// Whether silence also meets it.
    pub fn may_be_nothing(&self) -> bool {
        for line in &self.frames {
            if let Some(Pattern::Nothing) = pattern_of(line.step) {
                return true;
            }
        }
        false
    }

    /// Removes the frame with this index.
    pub fn remove(&mut self, index: usize) {
        if index < self.frames.len() {
            let _ = self.frames.remove(index);
        }
    }
}

/// The frame that a line of an expectation names.
pub(crate) fn pattern_of(step: Step) -> Option<Pattern> {
    match step {
        Step::Expect(pattern) | Step::Or(pattern) | Step::And(pattern) => Some(pattern),
        _ => None,
    }
}
