//! The stack under test: its parameters and its upper tester.

use lapd_conform_suite::{Need, Preamble, Request};
use lapd_frame::Side;
use lapd_timers::Timer;

/// The requests that the upper tester takes.
#[derive(Clone, Copy, Debug, PartialEq, Eq)]
pub struct Requests {
    /// `establish`
    pub establish: bool,
    /// `release`
    pub release: bool,
    /// `give`
    pub give: bool,
    /// `unit`
    pub unit: bool,
    /// `busy` and `ready`
    pub busy: bool,
    /// `ask`
    pub ask: bool,
    /// `check`
    pub check: bool,
    /// `remove`
    pub remove: bool,
}

/// The parameters of the stack under test, its upper tester and its line.
#[derive(Clone, Copy)]
pub struct Stack {
    /// Its side.
    pub side: Side,
    /// The TEI of its link of SAPI 0, 0 to 126. `None`: TEIs are assigned automatically.
    pub tei: Option<u8>,
    /// The window k, 1 to 127.
    pub k: u8,
    /// N200, 1 to 100.
    pub n200: u8,
    /// N202.
    pub n202: u8,
    /// T200, in milliseconds.
    pub t200: u32,
    /// T201, in milliseconds.
    pub t201: u32,
    /// T202, in milliseconds.
    pub t202: u32,
    /// T203, in milliseconds.
    pub t203: u32,
    /// Whether it has T203.
    pub has_t203: bool,
    /// Whether it serves some SAPIs only.
    pub has_sapis: bool,
    /// The requests that its upper tester takes.
    pub requests: Requests,
    /// Whether the upper tester confirms each request after the stack has processed it.
    pub confirms: bool,
    /// Whether layer 3 of the stack makes requests by itself.
    pub is_active: bool,
    /// How long a frame is in transit at most, in milliseconds.
    pub delay: u32,
}

impl Requests {
    /// No requests: there is no upper tester.
    pub fn none() -> Requests {
        Requests {
            establish: false,
            release: false,
            give: false,
            unit: false,
            busy: false,
            ask: false,
            check: false,
            remove: false,
        }
    }

    /// Whether the upper tester takes this request.
    pub fn has(&self, request: Request) -> bool {
        match request {
            Request::Establish => self.establish,
            Request::Release => self.release,
            Request::Give => self.give,
            Request::Unit => self.unit,
            Request::Busy | Request::Ready => self.busy,
            Request::Ask => self.ask,
            Request::Check => self.check,
            Request::Remove => self.remove,
        }
    }

    /// Adds a request.
    pub fn add(&mut self, request: Request) {
        match request {
            Request::Establish => self.establish = true,
            Request::Release => self.release = true,
            Request::Give => self.give = true,
            Request::Unit => self.unit = true,
            Request::Busy | Request::Ready => self.busy = true,
            Request::Ask => self.ask = true,
            Request::Check => self.check = true,
            Request::Remove => self.remove = true,
        }
    }
}

impl Stack {
    /// A stack of this side with the defaults of Q.921 5.9 for primary rate: TEI 0, k = 7, N200 = 3
    /// and N202 = 3, and the standard durations. It has no upper tester, and its line no delay.
    pub fn new(side: Side) -> Stack {
        Stack {
            side,
            tei: Some(0),
            k: 7,
            n200: 3,
            n202: 3,
            t200: 1_000,
            t201: 1_000,
            t202: 2_000,
            t203: 10_000,
            has_t203: true,
            has_sapis: true,
            requests: Requests::none(),
            confirms: false,
            is_active: false,
            delay: 0,
        }
    }

    /// Whether it meets a need of a case.
    pub fn has(&self, need: Need) -> bool {
        match need {
            Need::Give => self.requests.give,
            Need::Unit => self.requests.unit,
            Need::Busy => self.requests.busy,
            Need::Check => self.requests.check,
            Need::Ask => self.requests.ask,
            Need::Remove => self.requests.remove,
            Need::Establish => self.requests.establish,
            Need::Release => self.requests.release,
            Need::WindowOverOne => self.k > 1,
            Need::WindowOverTwo => self.k > 2,
            Need::IdleTimer => self.has_t203,
            Need::LongestLength => true,
            Need::ServedSapis => self.has_sapis,
            Need::AutomaticTei => self.tei.is_none(),
        }
    }

    /// Whether this state can be reached.
    pub fn reaches(&self, preamble: Preamble) -> bool {
        match preamble {
            Preamble::AwaitingRelease => self.requests.release,
            Preamble::OneOutstanding => self.requests.give,
            _ => true,
        }
    }

    /// The duration of T203 in milliseconds, if the stack has it.
    pub fn idle_time(&self) -> Option<u64> {
        if self.has_t203 {
            Some(u64::from(self.t203))
        } else {
            None
        }
    }

    /// The duration of a timer, in milliseconds.
    pub fn duration(&self, timer: Timer) -> u64 {
        let duration = match timer {
            Timer::T200 => self.t200,
            Timer::T201 => self.t201,
            Timer::T202 => self.t202,
            Timer::T203 => self.t203,
        };
        u64::from(duration)
    }
}
