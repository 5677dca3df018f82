//! Executing the lines of a case.

use crate::case_lines::CaseLines;
use crate::compared::{frame_of_stack, values_after};
use crate::happening::What;
use crate::reason::{Reason, Stop};
use crate::record::Record;
use crate::spelled::spelled;
use crate::station::Station;
use crate::timing::Timing;
use crate::values::Values;
use lapd_conform_suite::{Line, Number, NumberedLine, Request, Span, Step};
use lapd_frame::{Control, Frame, Role, Sapi};
use lapd_timers::Timer;
use std::alloc::Global;

/// The greatest number of lines that are executed in a case, repetitions counted.
const MOST_LINES: usize = 20_000;

/// The greatest number of frames that one line examines.
const MOST_FRAMES: usize = 1_000;

/// How late an answer may be on a quiet machine, in milliseconds.
const TOLERANCE: u64 = 120;

/// Executes the lines of a case.
#[derive(Drop)]
pub(crate) struct Player<'s> {
    pub alloc: Global,
    pub values: Values,
    /// The case tests TEI management.
    pub tests_tei: bool,
    /// The stack was started anew for the case.
    pub is_fresh: bool,
    pub record: Record,
    pub timing: Timing,
    pub lines: CaseLines<'s>,
    /// The lines whose frames the stack may send at any time.
    allowed: Vec<Line<'s>>,
}

impl<'s> Player<'s> {
    /// A player before the first of these lines.
    pub fn new(
        alloc: Global,
        values: Values,
        tests_tei: bool,
        is_fresh: bool,
        lines: &'s [NumberedLine<'s>],
    ) -> Player<'s> {
        Player {
            alloc,
            values,
            tests_tei,
            is_fresh,
            record: Record::new(alloc),
            timing: Timing::new(),
            lines: CaseLines::new(lines),
            allowed: Vec::new(alloc),
        }
    }

    /// Executes all lines.
    pub fn run<S: Station>(&mut self, station: &mut S) -> Result<(), Stop> {
        self.timing.mark = station.now();
        for _turn in 0..MOST_LINES {
            match self.lines.next() {
                Some(line) => self.step(station, line)?,
                None => return Ok(()),
            }
        }
        Err(Stop::Missed(Reason::TooManyFrames))
    }

    fn step<S: Station>(&mut self, station: &mut S, line: Line<'s>) -> Result<(), Stop> {
        match line.step {
            Step::State(preamble) => {
                self.reach(station, preamble)?;
                self.timing.mark = station.now();
            }
            Step::Send(pattern) => {
                let octets = spelled(self.alloc, &self.values, pattern, &line)?;
                self.put(station, octets)?;
            }
            Step::Do(request, number) => self.request(station, request, number)?,
            Step::Expect(_) => self.expect(station, line)?,
            Step::Quiet(span) => self.quiet(station, span)?,
            Step::Pause(span) => self.pause(station, span)?,
            Step::Allow(_) => self.allowed.extend_from_slice(&[line])?,
            Step::Forget => self.allowed.clear(),
            Step::Repeat(number) => {
                self.lines.repeat(self.values.number(number));
                self.values.turn = 0;
            }
            Step::End => {
                if self.lines.end_repetition() {
                    self.values.turn = self.values.turn.wrapping_add(1);
                }
            }
            Step::Case(_) | Step::Clause | Step::Ends(_) | Step::Needs(_) => {}
            Step::Or(_) | Step::And(_) | Step::At(_) | Step::Within(_) => {}
        }
        Ok(())
    }

    /// The delays in both directions, in milliseconds.
    pub fn transit(&self) -> u64 {
        u64::from(self.values.stack.delay).saturating_mul(2)
    }

    /// How late an answer may be, in milliseconds: the delays in both directions, and what was
    /// measured.
    pub fn slack<S: Station>(&self, station: &S) -> u64 {
        TOLERANCE
            .saturating_add(self.transit())
            .saturating_add(station.lateness().saturating_mul(2))
            .saturating_add(self.timing.latency)
    }

    /// The duration of a timer of the stack, in milliseconds.
    pub fn duration(&self, timer: Timer) -> u64 {
        self.values.stack.duration(timer)
    }

    /// How long the judge waits for an answer, and a moment more, in milliseconds.
    pub fn patience<S: Station>(&self, station: &S) -> u64 {
        self.duration(Timer::T200)
            .saturating_mul(4)
            .saturating_add(self.slack(station).saturating_mul(2))
            .saturating_add(100)
    }

    /// Sends a frame with the address of the link.
    pub fn send<S: Station>(
        &mut self,
        station: &mut S,
        role: Role,
        control: Control,
        info: &[u8],
    ) -> Result<(), Stop> {
        let mut octets = Vec::new(self.alloc);
        octets.extend_from_slice(&self.values.address(role, 0, self.values.tei))?;
        octets.extend_from_slice(control.write().as_slice())?;
        octets.extend_from_slice(info)?;
        self.put(station, octets)
    }

    /// Sends octets, and records them.
    pub fn put<S: Station>(&mut self, station: &mut S, octets: Vec<u8>) -> Result<(), Stop> {
        let at = station.now();
        let sent = station.send(octets.as_slice());
        self.timing.send(octets.as_slice(), at);
        self.record.note(at, What::Sent, octets)?;
        sent?;
        Ok(())
    }

    /// Makes a request: of the link this number of times, of TEI management for this TEI.
    fn request<S: Station>(
        &mut self,
        station: &mut S,
        request: Request,
        number: Number,
    ) -> Result<(), Stop> {
        let number = self.values.number(number);
        if let Request::Check | Request::Remove = request {
            return self.request_for(station, request, number);
        }
        for _turn in 0..number {
            self.request_of_link(station, request)?;
        }
        Ok(())
    }

    /// Makes a request with the TEI of the link.
    pub fn request_of_link<S: Station>(
        &mut self,
        station: &mut S,
        request: Request,
    ) -> Result<(), Stop> {
        let tei = u16::from(self.values.tei);
        self.request_for(station, request, tei)
    }

    /// Makes a request with this TEI. Records it if it is for the link.
    fn request_for<S: Station>(
        &mut self,
        station: &mut S,
        request: Request,
        tei: u16,
    ) -> Result<(), Stop> {
        if !matches!(request, Request::Ask | Request::Check | Request::Remove) {
            let none = Vec::new(self.alloc);
            self.record
                .note(station.now(), What::Requested(request), none)?;
        }
        station.request(request, tei)?;
        self.timing.request(station.now());
        Ok(())
    }

    /// Receives a frame until this moment, and records it. Returns `false` if none arrived.
    fn receive<S: Station>(&mut self, station: &mut S, until: u64) -> Result<bool, Stop> {
        let mut octets = Vec::new(self.alloc);
        if !station.receive(until, &mut octets)? {
            return Ok(false);
        }
        let at = station.now();
        if let Some(frame) = frame_of_stack(&self.values, octets.as_slice())
            && frame.address().role == Role::Answer
            && frame.control().poll_final()
        {
            self.timing.receive_answer(at);
        }
        self.record.note(at, What::Received, octets)?;
        Ok(true)
    }

    /// The place of the next frame that was not examined, received until this moment.
    pub fn fetch<S: Station>(
        &mut self,
        station: &mut S,
        until: u64,
    ) -> Result<Option<usize>, Stop> {
        if let Some(place) = self.record.next_frame() {
            return Ok(Some(place));
        }
        if self.receive(station, until)? {
            Ok(self.record.next_frame())
        } else {
            Ok(None)
        }
    }

    /// The place of the next frame until this moment that the case does not pass over.
    pub fn next<S: Station>(&mut self, station: &mut S, until: u64) -> Result<Option<usize>, Stop> {
        for _turn in 0..MOST_FRAMES {
            match self.fetch(station, until)? {
                Some(place) if self.is_passed_over(place) => {}
                other => return Ok(other),
            }
        }
        Err(Stop::Missed(Reason::TooManyFrames))
    }

    /// The frame at this place, if it is valid.
    pub fn frame(&self, place: usize) -> Option<Frame<'_>> {
        frame_of_stack(&self.values, self.record.octets(place))
    }

    /// Whether the frame is allowed at any time, or is of TEI management in a case of a link.
    fn is_passed_over(&self, place: usize) -> bool {
        for line in &self.allowed {
            if let Step::Allow(pattern) = line.step {
                let octets = self.record.octets(place);
                if values_after(&self.values, pattern, line.text, octets).is_some() {
                    return true;
                }
            }
        }
        match self.frame(place) {
            Some(frame) => !self.tests_tei && frame.address().sapi == Sapi::Management,
            None => false,
        }
    }

    /// Expects that the stack sends nothing for a time.
    fn quiet<S: Station>(&mut self, station: &mut S, span: Span) -> Result<(), Stop> {
        let time = self.values.span(span).saturating_add(self.transit());
        match self.next(station, station.now().saturating_add(time))? {
            Some(_) => Err(Stop::Missed(Reason::Unexpected)),
            None => Ok(()),
        }
    }

    /// Waits. Frames that are received meanwhile are examined later.
    fn pause<S: Station>(&mut self, station: &mut S, span: Span) -> Result<(), Stop> {
        let until = station.now().saturating_add(self.values.span(span));
        for _turn in 0..MOST_FRAMES {
            if !self.receive(station, until)? {
                return Ok(());
            }
        }
        Err(Stop::Missed(Reason::TooManyFrames))
    }
}
