//! The text of a script's lines.

use crate::ladder::Ladder;
use crate::listing::Listing;
use lapd_bus::Station;
use lapd_sides::{Acts, SideKind};
use std::alloc::{AllocError, Global};

/// How the command prints what happens on the bus.
#[derive(Clone, Copy, Debug, PartialEq, Eq)]
pub enum BusLayout {
    /// A line for each frame that a side takes or sends, and for each of its reports.
    Lines,
    /// A picture with an arrow for each frame that arrives or is lost.
    Ladder,
}

/// The text of the lines that were executed and is not printed yet, in one of the layouts.
#[derive(Drop)]
pub(crate) enum Report {
    Lines(Listing),
    Ladder(Ladder),
}

/// Each method appends to the text, and fails if an allocation fails.
impl Report {
    /// No text, of a bus of this many terminals.
    pub(crate) fn new(
        alloc: Global,
        terminals: usize,
        layout: BusLayout,
    ) -> Result<Report, AllocError> {
        match layout {
            BusLayout::Lines => Ok(Report::Lines(Listing::new(alloc))),
            BusLayout::Ladder => Ok(Report::Ladder(Ladder::new(alloc, terminals)?)),
        }
    }

    /// Forgets the text, which is printed.
    pub(crate) fn clear(&mut self) {
        match self {
            Report::Lines(listing) => listing.clear(),
            Report::Ladder(ladder) => ladder.clear(),
        }
    }

    /// The text.
    pub(crate) fn text(&self) -> &[u8] {
        match self {
            Report::Lines(listing) => listing.text(),
            Report::Ladder(ladder) => ladder.text(),
        }
    }

    /// The script begins.
    pub(crate) fn begin(&mut self) -> Result<(), AllocError> {
        match self {
            Report::Lines(_) => Ok(()),
            Report::Ladder(ladder) => ladder.push_head(),
        }
    }

    /// The script has ended.
    pub(crate) fn end(&mut self) -> Result<(), AllocError> {
        match self {
            Report::Lines(_) => Ok(()),
            Report::Ladder(ladder) => ladder.push_row(),
        }
    }

    /// A side took these octets, and did this.
    pub(crate) fn arrived(
        &mut self,
        station: Station,
        octets: &[u8],
        acts: &Acts,
    ) -> Result<(), AllocError> {
        match self {
            Report::Lines(listing) => listing.arrived(station, octets, acts),
            Report::Ladder(ladder) => ladder.arrived(station, octets, acts),
        }
    }

    /// These octets in transit to a side were lost.
    pub(crate) fn lost(&mut self, station: Station, octets: &[u8]) -> Result<(), AllocError> {
        match self {
            Report::Lines(_) => Ok(()),
            Report::Ladder(ladder) => ladder.lost(station, octets),
        }
    }

    /// A side did this by itself or as requested.
    pub(crate) fn acted(&mut self, station: Station, acts: &Acts) -> Result<(), AllocError> {
        match self {
            Report::Lines(listing) => listing.acted(station, acts),
            Report::Ladder(ladder) => ladder.acted(station, acts),
        }
    }

    /// A side refused a request for this reason.
    pub(crate) fn refused(&mut self, station: Station, kind: SideKind) -> Result<(), AllocError> {
        if kind == SideKind::Memory {
            return Err(AllocError);
        }
        match self {
            Report::Lines(listing) => listing.refused(station, kind),
            Report::Ladder(ladder) => ladder.refused(station, kind),
        }
    }

    /// There was nothing to do.
    pub(crate) fn nothing(&mut self) -> Result<(), AllocError> {
        match self {
            Report::Lines(listing) => listing.nothing(),
            Report::Ladder(ladder) => ladder.nothing(),
        }
    }

    /// The clock advanced to this time, in milliseconds.
    pub(crate) fn moved_to(&mut self, now: u64) -> Result<(), AllocError> {
        match self {
            Report::Lines(_) => Ok(()),
            Report::Ladder(ladder) => ladder.moved_to(now),
        }
    }

    /// This many deliveries were made, and then no octets were in transit, or some were.
    pub(crate) fn settled(&mut self, deliveries: u32, is_quiet: bool) -> Result<(), AllocError> {
        match self {
            Report::Lines(listing) => listing.settled(deliveries, is_quiet),
            Report::Ladder(ladder) => ladder.settled(deliveries, is_quiet),
        }
    }

    /// A new terminal is at this index.
    pub(crate) fn joined(&mut self, at: usize) -> Result<(), AllocError> {
        match self {
            Report::Lines(_) => Ok(()),
            Report::Ladder(ladder) => ladder.joined(at),
        }
    }

    /// The network side has restarted.
    pub(crate) fn restarted(&mut self) -> Result<(), AllocError> {
        match self {
            Report::Lines(_) => Ok(()),
            Report::Ladder(ladder) => ladder.restarted(),
        }
    }
}
