//! Frames that a record lacks, and the notes about them.

use lapd_cli_notes::Notes;

/// The least time between two notes about one record, in milliseconds.
const APART: u64 = 1000;

/// The frames that a record lacks. A pause of its reader is noted when it begins and when it ends,
/// but within a second only one note is written; the next one has the frames of all pauses since.
#[derive(Drop)]
pub(crate) struct Losses<'rt> {
    notes: &'rt Notes<'rt>,
    /// The word for the record in notes.
    name: &'static str,
    /// How many frames were dropped since the last one was recorded.
    missing: u64,
    /// How many dropped frames no note was about.
    untold: u64,
    /// When the last note was written, in milliseconds.
    noted: Option<u64>,
}

impl<'rt> Losses<'rt> {
    /// Nothing is missing.
    pub(crate) fn new(notes: &'rt Notes<'rt>, name: &'static str) -> Losses<'rt> {
        Losses {
            notes,
            name,
            missing: 0,
            untold: 0,
            noted: None,
        }
    }

    /// How many frames were dropped since the last one was recorded.
    pub(crate) fn missing(&self) -> u64 {
        self.missing
    }

    /// A frame is dropped at this moment because the reader pauses.
    pub(crate) fn pause(&mut self, now: u64) {
        self.drop_one(now, "its reader pauses; frames are dropped until it reads");
    }

    /// A frame is dropped at this moment because there is no reader.
    pub(crate) fn end(&mut self, now: u64) {
        self.drop_one(
            now,
            "its reader ended; frames are dropped until one reads again",
        );
    }

    /// A frame is recorded at this moment.
    pub(crate) fn record(&mut self, now: u64) {
        self.missing = 0;
        if 0 < self.untold && self.is_due(now) {
            self.noted = Some(now);
            self.print_untold("its reader reads again");
        }
    }

    /// The record ends.
    pub(crate) fn close(&mut self) {
        if 0 < self.untold && self.missing == 0 {
            self.print_untold("its reader reads again");
        } else if 0 < self.untold {
            self.print_untold("its reader has not read again");
        }
    }

    /// Counts a dropped frame, and notes why if it is the first of its pause.
    fn drop_one(&mut self, now: u64, why: &'static str) {
        let is_first = self.missing == 0;
        self.missing = self.missing.saturating_add(1);
        self.untold = self.untold.saturating_add(1);
        if is_first && self.is_due(now) {
            self.noted = Some(now);
            let name = self.name;
            self.notes.print(format_args!("{name}: {why}"));
        }
    }

    /// Whether a note may be written.
    fn is_due(&self, now: u64) -> bool {
        match self.noted {
            None => true,
            Some(noted) => APART <= now.saturating_sub(noted),
        }
    }

    /// Notes how many frames were dropped that no note was about.
    fn print_untold(&mut self, why: &'static str) {
        let (name, untold) = (self.name, self.untold);
        self.untold = 0;
        self.notes
            .print(format_args!("{name}: {why}; dropped frames: {untold}"));
    }
}
