//! The dialogue with a stack, as the player records it.

use crate::happening::{Happening, What};
use std::alloc::{AllocError, Global};

/// The dialogue so far, and how much of it the lines of the case have examined.
#[derive(Drop)]
pub(crate) struct Record {
    pub happenings: Vec<Happening>,
    /// The number of happenings that were examined.
    examined: usize,
}

impl Record {
    /// An empty record.
    pub fn new(alloc: Global) -> Record {
        Record {
            happenings: Vec::new(alloc),
            examined: 0,
        }
    }

    /// Forgets what happened so far.
    pub fn clear(&mut self) {
        self.happenings.clear();
        self.examined = 0;
    }

    /// Appends a happening.
    pub fn note(&mut self, at: u64, what: What, octets: Vec<u8>) -> Result<(), AllocError> {
        self.happenings.push(Happening { at, what, octets })?;
        Ok(())
    }

    /// The place of the first received frame that was not examined. It counts as examined then, and
    /// so does the whole record if there is none.
    pub fn next_frame(&mut self) -> Option<usize> {
        for place in self.examined..self.happenings.len() {
            self.examined = place.saturating_add(1);
            if let Some(happening) = self.happenings.get(place)
                && happening.what == What::Received
            {
                return Some(place);
            }
        }
        None
    }

    /// The octets of the frame at this place.
    pub fn octets(&self, place: usize) -> &[u8] {
        match self.happenings.get(place) {
            Some(happening) => happening.octets.as_slice(),
            None => &[],
        }
    }

    /// The moment of the frame at this place, in milliseconds.
    pub fn moment(&self, place: usize) -> u64 {
        match self.happenings.get(place) {
            Some(happening) => happening.at,
            None => 0,
        }
    }
}
