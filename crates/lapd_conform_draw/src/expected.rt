//! The end that is expected: our own link, which processes each frame and each request at once.

use lapd_conform::OwnLink;
use lapd_conform_player::{Request, Stack};
use lapd_link::{Link, Out, Params, Timer};
use std::alloc::{AllocError, Global};

/// How many messages its I queue has room for.
const ROOM: u16 = 256;

/// Our own link in the place of the stack, with its timers. Times are in milliseconds.
#[derive(Drop)]
pub struct Expected {
    link: OwnLink,
    now: u64,
    duration_t200: u64,
    /// The duration of T203, if the stack has it.
    duration_t203: Option<u64>,
    /// The moments at which running timers expire.
    t200: Option<u64>,
    t203: Option<u64>,
}

impl Expected {
    /// A link of the stack with this TEI in state 4, at moment 0. Above 126 the TEI is 126.
    ///
    /// # Errors
    ///
    /// An allocation failed.
    pub fn new(alloc: Global, stack: &Stack, tei: u8) -> Result<Expected, AllocError> {
        let params = Params::new(stack.k, stack.n200, ROOM).unwrap_or(Params::primary());
        Ok(Expected {
            link: OwnLink::new(alloc, stack.side, tei, params)?,
            now: 0,
            duration_t200: u64::from(stack.t200),
            duration_t203: stack.idle_time(),
            t200: None,
            t203: None,
        })
    }

    /// Its link.
    pub fn link(&self) -> &Link {
        self.link.link()
    }

    /// The moment.
    pub fn now(&self) -> u64 {
        self.now
    }

    /// The moment at which a timer expires, if it runs.
    pub fn due(&self, timer: Timer) -> Option<u64> {
        match timer {
            Timer::T200 => self.t200,
            Timer::T203 => self.t203,
            Timer::T201 | Timer::T202 => None,
        }
    }

    /// Expires the first timer that is due by this moment, at the moment at which it is due. `None`
    /// if none is: then this is the moment.
    pub fn expire(&mut self, until: u64) -> Option<Timer> {
        let t200 = self.t200.unwrap_or(u64::MAX);
        let t203 = self.t203.unwrap_or(u64::MAX);
        if t200 <= until && t200 <= t203 && self.t200.is_some() {
            self.go_to(t200);
            self.t200 = None;
            self.expire_one(Timer::T200);
            Some(Timer::T200)
        } else if t203 <= until && self.t203.is_some() {
            self.go_to(t203);
            self.t203 = None;
            self.expire_one(Timer::T203);
            Some(Timer::T203)
        } else {
            self.go_to(until);
            None
        }
    }

    fn go_to(&mut self, moment: u64) {
        self.now = self.now.max(moment);
    }

    fn expire_one(&mut self, timer: Timer) {
        self.link.expire(timer);
        self.set_timers();
    }

    /// Processes octets of the tester.
    pub fn receive(&mut self, octets: &[u8]) {
        self.link.receive(octets);
        self.set_timers();
    }

    /// Processes a request. A request that the link refuses has no effect.
    ///
    /// # Errors
    ///
    /// An allocation failed.
    pub fn request(&mut self, request: Request) -> Result<(), AllocError> {
        self.link.request(request)?;
        self.set_timers();
        Ok(())
    }

    /// Starts and stops timers as the last outputs say.
    fn set_timers(&mut self) {
        for place in 0..self.link.outs().len() {
            if let Some(out) = self.output(place) {
                self.set_timer(out);
            }
        }
    }

    fn output(&self, place: usize) -> Option<Out> {
        self.link.outs().get(place).copied()
    }

    fn set_timer(&mut self, out: Out) {
        match out {
            Out::Start(Timer::T200) => {
                self.t200 = Some(self.now.saturating_add(self.duration_t200));
            }
            Out::Start(Timer::T203) => {
                self.t203 = match self.duration_t203 {
                    Some(duration) => Some(self.now.saturating_add(duration)),
                    None => None,
                };
            }
            Out::Stop(Timer::T200) => self.t200 = None,
            Out::Stop(Timer::T203) => self.t203 = None,
            _ => {}
        }
    }
}
