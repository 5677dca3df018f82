//! Notes to people on standard error while a side is running. Writing a note never blocks.

use crate::watch::Watch;
use std::alloc::AllocError;
use std::cell::RefCell;
use std::fmt::Display;
use std::io::Write;
use std::os::fd::RawFd;

/// The descriptor of standard error.
const STANDARD_ERROR: RawFd = 2;

/// The most octets of a note, with its line feed. A descriptor that is reported as writable has room
/// for this many.
const MOST_OCTETS: usize = 4096;

/// Notes on standard error, from several parts of the program. A note that would block is dropped,
/// and the next note that is written begins with the number of dropped notes.
#[derive(Drop)]
pub struct Notes<'a> {
    rt: &'a HostRuntime,
    errors: RefCell<Errors>,
}

/// Standard error, and the number of notes dropped since the last one was written.
#[derive(Drop)]
struct Errors {
    /// `None` for a regular file, which is always ready, and if the watch can't be created.
    watch: Option<Watch>,
    given_up: u64,
}

impl<'a> Notes<'a> {
    /// Notes on the standard error of this process.
    pub fn new(rt: &'a HostRuntime) -> Notes<'a> {
        let errors = Errors {
            watch: Watch::new(rt, STANDARD_ERROR).ok(),
            given_up: 0,
        };
        Notes {
            rt,
            errors: RefCell::new(errors),
        }
    }

    /// Writes a note and a line feed, or drops the note. A note is cut to 4,095 octets.
    pub fn print<D: Display + Drop>(&self, note: D) {
        if let Ok(mut errors) = self.errors.try_borrow_mut() {
            errors.print(self.rt, note);
        }
    }
}

impl Errors {
    fn print<D: Display + Drop>(&mut self, rt: &HostRuntime, note: D) {
        if !self.is_ready() {
            self.give_up();
            return;
        }
        match self.text_of(rt, note) {
            Ok(text) => {
                self.given_up = 0;
                let _ = rt.stderr().write(text.as_slice());
            }
            Err(_) => self.give_up(),
        }
    }

    fn give_up(&mut self) {
        self.given_up = self.given_up.saturating_add(1);
    }

    /// Whether a note can be written without blocking.
    fn is_ready(&mut self) -> bool {
        match &mut self.watch {
            Some(watch) => watch.is_ready(),
            None => true,
        }
    }

    /// The octets of a note, after a line about dropped notes, if any.
    fn text_of<D: Display + Drop>(&self, rt: &HostRuntime, note: D) -> Result<Vec<u8>, AllocError> {
        let text = match self.given_up {
            0 => format!(in rt.alloc(); "{note}")?,
            count => format!(in rt.alloc(); "dropped notes: {count}\n{note}")?,
        };
        let mut octets = text.into_bytes();
        octets.truncate(MOST_OCTETS - 1);
        octets.push(b'\n')?;
        Ok(octets)
    }
}
