//! The picture of a bus.

use crate::drawing::{Mark, push_downward, push_head, push_note, push_upward};
use crate::words::{push_noted_report, push_refusal};
use lapd_bus::Station;
use lapd_sides::{Acts, SideKind};
use std::alloc::{AllocError, Global};

/// A frame of the network side that arrived at terminals or was lost, whose row may still grow.
#[derive(Drop)]
struct Row {
    is_open: bool,
    octets: Vec<u8>,
    /// The fate of the frame at each terminal.
    marks: Vec<Mark>,
    /// The lines of text below the row.
    notes: String,
}

impl Row {
    /// No frame, on a bus of this many terminals.
    fn new(alloc: Global, terminals: usize) -> Result<Row, AllocError> {
        let mut marks = Vec::new(alloc);
        for _at in 0..terminals {
            marks.push(Mark::Passes)?;
        }
        Ok(Row {
            is_open: false,
            octets: Vec::new(alloc),
            marks,
            notes: String::new(alloc),
        })
    }

    /// Whether the row also has room for these octets at the terminal at this index.
    fn admits(&self, at: usize, octets: &[u8]) -> bool {
        self.is_open
            && self.octets.as_slice() == octets
            && self.marks.get(at).copied() == Some(Mark::Passes)
    }

    /// Begins the row of these octets.
    fn begin(&mut self, octets: &[u8]) -> Result<(), AllocError> {
        self.octets.extend_from_slice(octets)?;
        self.is_open = true;
        Ok(())
    }

    /// Sets the mark of the terminal at this index.
    fn set(&mut self, at: usize, mark: Mark) {
        if let Some(place) = self.marks.get_mut(at) {
            *place = mark;
        }
    }

    /// Ends the row, which is drawn.
    fn end(&mut self) {
        self.is_open = false;
        self.octets.clear();
        self.notes.clear();
        for mark in self.marks.iter_mut() {
            *mark = Mark::Passes;
        }
    }
}

/// The picture of a bus: a line for each terminal and, at the right, one for the network side. The
/// row of a frame of the network side is drawn when another row or text follows it, since the same
/// frame may arrive at other terminals first.
#[derive(Drop)]
pub(crate) struct Ladder {
    alloc: Global,
    /// The rows that are not printed yet.
    text: Vec<u8>,
    row: Row,
}

/// Each method appends to the text, and fails if an allocation fails.
impl Ladder {
    /// A picture without rows.
    pub(crate) fn new(alloc: Global, terminals: usize) -> Result<Ladder, AllocError> {
        Ok(Ladder {
            alloc,
            text: Vec::new(alloc),
            row: Row::new(alloc, terminals)?,
        })
    }

    /// Forgets the rows that are printed.
    pub(crate) fn clear(&mut self) {
        self.text.clear();
    }

    /// The rows that are drawn.
    pub(crate) fn text(&self) -> &[u8] {
        self.text.as_slice()
    }

    /// Draws the numbers of the terminals above the first row.
    pub(crate) fn push_head(&mut self) -> Result<(), AllocError> {
        push_head(self.alloc, &mut self.text, self.row.marks.len())
    }

    /// Draws the open row, if there is one.
    pub(crate) fn push_row(&mut self) -> Result<(), AllocError> {
        if self.row.is_open {
            push_downward(
                self.alloc,
                &mut self.text,
                self.row.marks.as_slice(),
                self.row.octets.as_slice(),
            )?;
            push_notes(
                &mut self.text,
                self.row.marks.len(),
                self.row.notes.as_str(),
            )?;
        }
        self.row.end();
        Ok(())
    }

    /// A side took these octets, and reported what `acts` has.
    pub(crate) fn arrived(
        &mut self,
        station: Station,
        octets: &[u8],
        acts: &Acts,
    ) -> Result<(), AllocError> {
        self.draw(station, octets, Mark::Arrives)?;
        self.report(station, acts)
    }

    /// These octets in transit to a side were lost.
    pub(crate) fn lost(&mut self, station: Station, octets: &[u8]) -> Result<(), AllocError> {
        self.draw(station, octets, Mark::IsLost)
    }

    /// A side reported what `acts` has. The frames that it sent are drawn when they arrive or are
    /// lost.
    pub(crate) fn acted(&mut self, station: Station, acts: &Acts) -> Result<(), AllocError> {
        if acts.primitives().is_empty() {
            return Ok(());
        }
        self.push_row()?;
        self.report(station, acts)
    }

    /// A side refused a request.
    pub(crate) fn refused(&mut self, station: Station, kind: SideKind) -> Result<(), AllocError> {
        self.push_row()?;
        let mut line = String::new(self.alloc);
        push_refusal(&mut line, station, kind)?;
        self.text.extend_from_slice(line.as_bytes())
    }

    /// There was nothing to do.
    pub(crate) fn nothing(&mut self) -> Result<(), AllocError> {
        self.push_row()?;
        self.text.extend_from_slice(b"nothing\n")
    }

    /// The clock advanced to this time, in milliseconds.
    pub(crate) fn moved_to(&mut self, now: u64) -> Result<(), AllocError> {
        let words = format!(in self.alloc; "at {now} ms")?;
        self.note(words.as_str())
    }

    /// A `settle` ended. The ladder notes it only if octets are still in transit.
    pub(crate) fn settled(&mut self, deliveries: u32, is_quiet: bool) -> Result<(), AllocError> {
        if is_quiet {
            return Ok(());
        }
        let words = format!(in self.alloc; "settled {deliveries}")?;
        self.note(words.as_str())
    }

    /// A new terminal is at this index.
    pub(crate) fn joined(&mut self, at: usize) -> Result<(), AllocError> {
        let words = format!(in self.alloc; "terminal {at} joins")?;
        self.note(words.as_str())
    }

    /// The network side has restarted.
    pub(crate) fn restarted(&mut self) -> Result<(), AllocError> {
        self.note("net restarts")
    }

    /// Draws a note below the last row.
    fn note(&mut self, words: &str) -> Result<(), AllocError> {
        self.push_row()?;
        push_note(&mut self.text, self.row.marks.len(), words.as_bytes())
    }

    /// Draws octets that arrive at a side or are lost.
    fn draw(&mut self, station: Station, octets: &[u8], mark: Mark) -> Result<(), AllocError> {
        match station {
            Station::Terminal(at) => self.draw_downward(at, octets, mark),
            Station::Network(at) => {
                self.push_row()?;
                push_upward(
                    self.alloc,
                    &mut self.text,
                    self.row.marks.len(),
                    at,
                    mark == Mark::IsLost,
                    octets,
                )
            }
        }
    }

    /// Marks octets of the network side at the terminal at this index, in their row.
    fn draw_downward(&mut self, at: usize, octets: &[u8], mark: Mark) -> Result<(), AllocError> {
        if !self.row.admits(at, octets) {
            self.push_row()?;
            self.row.begin(octets)?;
        }
        self.row.set(at, mark);
        Ok(())
    }

    /// Draws the reports of a side, below the open row or the last one.
    fn report(&mut self, station: Station, acts: &Acts) -> Result<(), AllocError> {
        let mut notes = String::new(self.alloc);
        for primitive in acts.primitives() {
            push_noted_report(self.alloc, &mut notes, station, primitive)?;
        }
        if self.row.is_open {
            self.row.notes.push_str(notes.as_str())
        } else {
            push_notes(&mut self.text, self.row.marks.len(), notes.as_str())
        }
    }
}

/// Appends each line of a text as a note.
fn push_notes(text: &mut Vec<u8>, terminals: usize, notes: &str) -> Result<(), AllocError> {
    for line in notes.lines() {
        push_note(text, terminals, line.as_bytes())?;
    }
    Ok(())
}
