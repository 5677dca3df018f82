//! The clock of a running side.

ghost use Rattle.std.specs.Prelude.{◌≡◌, ◌≤◌, IfOk};

use std::io;
use std::time::Instant;

/// A clock that begins at 0 when it is created and never runs backwards.
#[derive(Drop)]
pub struct RealClock<'a> {
    rt: &'a HostRuntime,
    start: Instant,
    latest: u64,
}

impl<'a> RealClock<'a> {
    /// Starts the clock: the current time is 0.
    ///
    /// # Errors
    ///
    /// The system has no clock.
    pub fn start(rt: &'a HostRuntime) -> io::Result<RealClock<'a>> {
        Ok(RealClock {
            rt,
            start: Instant::now(rt)?,
            latest: 0,
        })
    }

    /// The current time, in milliseconds since the start.
    ///
    /// # Errors
    ///
    /// The system has no clock.
    pub fn now(&mut self) -> io::Result<u64>
        ensures latest { IfOk result (λ now. self.new.latest ≡ now) }
        ensures rises { self.old.latest ≤ self.new.latest }
    {
        let elapsed = self.start.elapsed(self.rt)?;
        let now = u64::try_from(elapsed.as_millis()).unwrap_or(u64::MAX);
        self.latest = self.latest.max(now);
        Ok(self.latest)
    }

    /// The time that was read last.
    pub fn latest(&self) -> u64
        ensures { result ≡ self.now.latest }
    {
        self.latest
    }
}
