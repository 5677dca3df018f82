//! The events of a bus, a line each.

use crate::words::{push_refusal, push_report, push_station, side_of};
use lapd_bus::Station;
use lapd_cli_side_lines::{LineStyle, push_frame};
use lapd_sides::{Acts, SideKind};
use std::alloc::{AllocError, Global};

/// The lines that are not printed yet.
#[derive(Drop)]
pub(crate) struct Listing {
    alloc: Global,
    text: String,
}

/// Each method appends to the text, and fails if an allocation fails.
impl Listing {
    /// No lines.
    pub(crate) fn new(alloc: Global) -> Listing {
        Listing {
            alloc,
            text: String::new(alloc),
        }
    }

    /// Forgets the lines, which are printed.
    pub(crate) fn clear(&mut self) {
        self.text.clear();
    }

    /// The lines.
    pub(crate) fn text(&self) -> &[u8] {
        self.text.as_bytes()
    }

    /// The trace line of the frame that a side took, and the lines of what it did.
    pub(crate) fn arrived(
        &mut self,
        station: Station,
        octets: &[u8],
        acts: &Acts,
    ) -> Result<(), AllocError> {
        push_station(&mut self.text, station)?;
        let from = side_of(station).other();
        push_frame(self.alloc, &mut self.text, LineStyle::Text, from, octets)?;
        self.acted(station, acts)
    }

    /// The trace lines of the frames that a side sent, and the lines of its reports.
    pub(crate) fn acted(&mut self, station: Station, acts: &Acts) -> Result<(), AllocError> {
        for frame in acts.frames() {
            self.sent(station, frame.as_slice())?;
        }
        for primitive in acts.primitives() {
            push_report(self.alloc, &mut self.text, station, primitive)?;
        }
        Ok(())
    }

    /// The trace line of a frame that a side sent.
    fn sent(&mut self, station: Station, octets: &[u8]) -> Result<(), AllocError> {
        push_station(&mut self.text, station)?;
        let from = side_of(station);
        push_frame(self.alloc, &mut self.text, LineStyle::Text, from, octets)
    }

    /// The line of a request that a side refused.
    pub(crate) fn refused(&mut self, station: Station, kind: SideKind) -> Result<(), AllocError> {
        push_refusal(&mut self.text, station, kind)
    }

    /// There was nothing to do.
    pub(crate) fn nothing(&mut self) -> Result<(), AllocError> {
        self.text.push_str("nothing\n")
    }

    /// The number of deliveries, and whether no octets are in transit.
    pub(crate) fn settled(&mut self, deliveries: u32, is_quiet: bool) -> Result<(), AllocError> {
        let rest = if is_quiet { " rest" } else { "" };
        writeln!(self.text, "settled {deliveries}{rest}")
    }
}
