//! The surroundings of a side, in memory.

ghost use Rattle.std.specs.Prelude.{◌≤◌, IfOk};

use crate::typed::Reads;
use lapd_cli_live::{Impairment, Incident, Lines, MOST_RECEIVED, Outside, Sending, Woken};
use lapd_port::PortFault;
use lapd_sides::LinkId;
use lapd_table::LinkTable;
use lapd_tei::Assigner;
use lapd_tei_audit::AuditStep;
use lapd_timers::earlier;
use std::alloc::{AllocError, Global};
use std::collections::VecDeque;

/// The duration of a stalled call, in milliseconds: longer than T200, T201 and T202 (Q.921 5.9).
const STALL: u64 = 3000;

/// The events at a side, and their times.
#[derive(Clone, Copy)]
pub(crate) struct Arrivals<'s> {
    /// Events ordered by time, one a line: a time in milliseconds, and the event.
    ///
    /// - `5 00817f`: a frame arrives.
    /// - `5 flood 00817f`: from then on there is always such a frame to receive. Receiving one
    ///   takes 1 ms.
    /// - `5 wake`: a wait ends as if a frame had arrived, as it does after a part of a frame.
    /// - `5 line`: the next part of the input, or its end, can be read.
    /// - `5 stall 700`: the current wait or send, or else the next one, takes 700 ms longer.
    /// - `5 lost`: a connection is lost.
    /// - `5 close`: the other side closes the connection. It also does so after the last event.
    pub(crate) events: &'s str,
    /// Frames that the other side answers immediately, one a line: the frame, a space and the
    /// answer.
    pub(crate) answers: &'s str,
}

/// The call that fails or stalls, by its number from 1.
#[derive(Clone, Copy)]
pub(crate) enum Trouble {
    Never,
    /// The call fails.
    FailsAt(u64),
    /// The program is stopped for 3 s before it.
    StallsAt(u64),
}

/// The source of lines of input.
#[derive(Clone, Copy)]
pub(crate) enum Input<'s> {
    /// A file, which can always be read.
    File,
    /// A pipe or a terminal.
    Typed(&'s Reads),
}

/// An event at some time.
#[derive(Clone, Copy)]
enum Event<'s> {
    Frame(&'s str),
    Flood(&'s str),
    Wake,
    Line,
    Stall(u64),
    Lost,
    Close,
}

/// A clock that advances while the side waits, and the other side of a line.
#[derive(Drop)]
pub(crate) struct Made<'s> {
    now: u64,
    arrivals: Arrivals<'s>,
    /// Answers that have arrived and were not received yet.
    answered: VecDeque<&'s str>,
    input: Input<'s>,
    /// The number of parts of the input that have become readable.
    parts: u64,
    is_all_lost: bool,
    trouble: Trouble,
    /// The number of calls.
    pub(crate) calls: u64,
    /// The side's reports, one a line: `discarded SAPI TEI` and `impair LOSS DELAY`.
    pub(crate) lines_printed: String,
}

impl<'s> Made<'s> {
    /// The surroundings at time 0.
    pub(crate) fn new(
        alloc: Global,
        arrivals: Arrivals<'s>,
        input: Input<'s>,
        trouble: Trouble,
    ) -> Made<'s> {
        Made {
            now: 0,
            arrivals,
            answered: VecDeque::new(alloc),
            input,
            parts: 0,
            is_all_lost: false,
            trouble,
            calls: 0,
            lines_printed: String::new(alloc),
        }
    }

    /// Counts a call, and fails or stalls if it is the one chosen.
    fn meet(&mut self) -> Result<(), PortFault> {
        self.calls = self.calls.saturating_add(1);
        match self.trouble {
            Trouble::FailsAt(call) if call == self.calls => Err(PortFault::Device),
            Trouble::StallsAt(call) if call == self.calls => {
                self.now = self.now.saturating_add(STALL);
                Ok(())
            }
            _ => Ok(()),
        }
    }

    /// The next event and its time.
    fn next_event(&self) -> Option<(u64, Event<'s>)> {
        let (line, _rest) = self.arrivals.events.split_once('\n')?;
        let (moment, what) = line.split_once(' ')?;
        Some((moment.parse().ok()?, event_of(what)?))
    }

    /// Removes the next event.
    fn pass(&mut self) {
        self.arrivals.events = behind_line(self.arrivals.events);
    }

    /// The next event, if its time is reached. Parts of the input that become readable before it
    /// are counted.
    fn present_event(&mut self) -> Option<Event<'s>> {
        for _line in 0..u64::MAX {
            match self.next_event() {
                Some((moment, Event::Line)) if moment <= self.now => {
                    self.parts = self.parts.saturating_add(1);
                    self.pass();
                }
                Some((moment, event)) if moment <= self.now => return Some(event),
                _ => return None,
            }
        }
        None
    }

    /// Whether a part of the input can be read.
    fn is_readable(&self) -> bool {
        match self.input {
            Input::File => true,
            Input::Typed(reads) => reads.count() < self.parts,
        }
    }

    /// The next frame that has arrived, as hexadecimal digits.
    fn next_frame(&mut self) -> Option<&'s str> {
        if let Some(digits) = self.answered.pop_front() {
            return Some(digits);
        }
        match self.present_event()? {
            Event::Frame(digits) => {
                self.pass();
                Some(digits)
            }
            Event::Flood(digits) => {
                self.now = self.now.saturating_add(1);
                Some(digits)
            }
            Event::Wake | Event::Line | Event::Stall(_) | Event::Lost | Event::Close => None,
        }
    }

    /// The reason to end a wait at this time. If the end of the wait is reached, it ends as due,
    /// even if a frame has arrived.
    fn woken(&mut self, until: Option<u64>, lines: Lines) -> Option<Woken> {
        let event = self.present_event();
        if matches!(lines, Lines::Awaited) && self.is_readable() {
            return Some(Woken::Line);
        }
        if until.is_some_and(|until| until <= self.now) {
            return Some(Woken::Due);
        }
        if !self.answered.is_empty() {
            return Some(Woken::Arrival);
        }
        match event? {
            Event::Frame(_) | Event::Flood(_) => Some(Woken::Arrival),
            Event::Wake => {
                self.pass();
                Some(Woken::Arrival)
            }
            Event::Lost => {
                self.pass();
                Some(Woken::Lost)
            }
            Event::Close => Some(Woken::Closed),
            Event::Line | Event::Stall(_) => None,
        }
    }

    /// Advances the clock to the next event or to `until`, whichever is first. Returns `false` if
    /// there is neither.
    fn advance(&mut self, until: Option<u64>) -> bool {
        let next = self.next_event().map(|(moment, _event)| moment);
        let Some(moment) = earlier(next, until) else {
            return false;
        };
        self.now = self.now.max(moment);
        self.stall();
        true
    }

    /// Stalls if the next event is a stall whose time is reached.
    fn stall(&mut self) {
        if let Some(Event::Stall(ms)) = self.present_event() {
            self.pass();
            self.now = self.now.saturating_add(ms);
        }
    }

    /// The other side answers this frame, if it has an answer to it.
    fn answer(&mut self, frame: &[u8]) -> Result<(), PortFault> {
        for line in self.arrivals.answers.lines() {
            let (digits, answer) = line.split_once(' ').unwrap_or(("", ""));
            if is_written(digits, frame) && self.answered.push_back(answer).is_err() {
                return Err(PortFault::Device);
            }
        }
        Ok(())
    }

    /// Records that a frame of this link was discarded.
    fn record_discarded(&mut self, id: LinkId) -> Result<(), AllocError> {
        let sapi = id.sapi;
        let tei = id.tei;
        write!(self.lines_printed, "discarded {sapi} {tei}\n")
    }

    /// Records an impairment.
    fn record_impairment(&mut self, impairment: Impairment) -> Result<(), AllocError> {
        let loss = impairment.loss;
        let delay = impairment.delay;
        write!(self.lines_printed, "impair {loss} {delay}\n")
    }
}

/// The event on a line, without its time.
fn event_of(what: &str) -> Option<Event<'_>> {
    match what.split_once(' ') {
        Some(("stall", ms)) => Some(Event::Stall(ms.parse().ok()?)),
        Some(("flood", digits)) => Some(Event::Flood(digits)),
        Some(_) => None,
        None if what == "wake" => Some(Event::Wake),
        None if what == "line" => Some(Event::Line),
        None if what == "lost" => Some(Event::Lost),
        None if what == "close" => Some(Event::Close),
        None => Some(Event::Frame(what)),
    }
}

/// The text after the first line.
fn behind_line(text: &str) -> &str {
    match text.split_once('\n') {
        Some((_line, behind)) => behind,
        None => "",
    }
}

/// Writes the octets of these digits to the front of `frame`, and returns their number.
fn put(digits: &str, frame: &mut [u8; MOST_RECEIVED]) -> Result<usize, PortFault>
    ensures { IfOk result (λ count. count ≤ 265) }
{
    let count = digits.len() / 2;
    let Some(front) = frame.get_mut(..count) else {
        return Err(PortFault::BadLength);
    };
    match hex::decode_to_slice(digits.as_bytes(), front) {
        Ok(()) => Ok(count),
        Err(_) => Err(PortFault::Cut),
    }
}

/// Whether these digits spell the frame.
fn is_written(digits: &str, frame: &[u8]) -> bool {
    let mut room = [0; MOST_RECEIVED];
    match put(digits, &mut room) {
        Ok(count) => room.get(..count) == Some(frame),
        Err(_) => false,
    }
}

impl Outside for Made<'_> {
    fn moment(&mut self) -> Result<u64, PortFault> {
        self.meet()?;
        Ok(self.now)
    }

    fn receive(&mut self, frame: &mut [u8; MOST_RECEIVED]) -> Result<Option<usize>, PortFault> {
        self.meet()?;
        match self.next_frame() {
            Some(digits) => Ok(Some(put(digits, frame)?)),
            None => Ok(None),
        }
    }

    fn wait(&mut self, until: Option<u64>, lines: Lines) -> Result<Woken, PortFault> {
        self.meet()?;
        for _event in 0..u64::MAX {
            if let Some(woken) = self.woken(until, lines) {
                return Ok(woken);
            }
            if !self.advance(until) {
                return Ok(Woken::Closed);
            }
        }
        Err(PortFault::Device)
    }

    fn send(&mut self, frame: &[u8]) -> Result<Sending, PortFault> {
        self.meet()?;
        self.stall();
        if self.is_all_lost {
            return Ok(Sending::Lost);
        }
        self.answer(frame)?;
        Ok(Sending::Sent)
    }

    fn note(&mut self, incident: Incident) {
        if let Incident::Discarded(id) = incident {
            let _ = self.record_discarded(id);
        }
    }

    fn next_audit(&mut self, _assigner: &Assigner, _links: &LinkTable) -> Option<AuditStep> {
        None
    }

    fn impair(&mut self, impairment: Impairment) {
        self.is_all_lost = impairment.loss == 100;
        let _ = self.record_impairment(impairment);
    }
}
