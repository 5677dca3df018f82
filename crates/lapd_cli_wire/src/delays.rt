//! Decides which frames of a line are lost on purpose, and when the others are sent.

ghost use Rattle.std.specs.Prelude.{◌≤◌, length};
ghost use Rattle.lapd_port.specs.SocketText.{IsFrameLength};

use crate::impairment::Impairment;
use rand_core::SeedableRng;
use rand_core::utils::NextWord;
use rand_pcg::Pcg32;
use std::alloc::{AllocError, Global};
use std::collections::VecDeque;

/// The losses and the delayed frames of a line. Frames leave in the order in which they were passed
/// in.
#[derive(Drop)]
pub(crate) struct Delays {
    alloc: Global,
    pub(crate) impairment: Impairment,
    /// The random numbers that decide which frames are lost.
    pub(crate) random: Pcg32,
    pub(crate) delayed: VecDeque<DelayedFrame>,
    /// The moment of the last delayed frame, in milliseconds.
    pub(crate) latest: u64,
}

/// A delayed frame.
#[derive(Drop)]
pub(crate) struct DelayedFrame {
    /// The moment at which it is sent, in milliseconds.
    pub(crate) moment: u64,
    pub(crate) octets: Vec<u8>,
    ghost is_frame: { IsFrameLength (length octets.items) },
}

impl DelayedFrame {
    ghost use Rattle.std.specs.Prelude.{◌≡◌, IfOk};

    /// Creates a delayed frame of 3 to 264 octets, which is sent at this moment.
    ///
    /// # Errors
    ///
    /// `AllocError` if an allocation fails.
    fn new(alloc: Global, moment: u64, frame: &[u8]) -> Result<DelayedFrame, AllocError>
        requires { IsFrameLength (length frame.now) }
        ensures moment { IfOk result (λ delayed. delayed.moment ≡ moment) }
        ensures octets { IfOk result (λ delayed. delayed.octets.items ≡ frame.now) }
    {
        let mut octets = Vec::new(alloc);
        octets.extend_from_slice(frame)?;
        Ok(DelayedFrame { moment, octets })
    }
}

impl Delays {
    ghost use Rattle.std.specs.Prelude.{◌≡◌, [], IfNone, IfSome, OnOk};
    ghost use Rattle.rand_core.specs.Pcg32Seed.{pcg32_seed};
    ghost use Rattle.rand_pcg.specs.Pcg.{pcg32_of_seed};
    ghost use Rattle.lapd_cli_wire.specs.Delays.{FirstIsLater, IsDrawn, IsPutOff, IsTakenOff, first_moment, is_direct, moment_of_next as moment_behind};

    /// Creates a line without losses and delays. The seed decides which frames are lost later.
    pub(crate) fn new(alloc: Global, seed: u64) -> Delays
        ensures loss { result.impairment.loss ≡ 0 }
        ensures delay { result.impairment.delay ≡ 0 }
        ensures random { result.random ≡ pcg32_of_seed (pcg32_seed 16 seed) }
        ensures none { result.delayed.items ≡ [] }
    {
        Delays {
            alloc,
            impairment: Impairment { loss: 0, delay: 0 },
            random: Pcg32::seed_from_u64(seed),
            delayed: VecDeque::new(alloc),
            latest: 0,
        }
    }

    /// Decides by chance whether the next frame is lost.
    pub(crate) fn draw(&mut self) -> bool
        ensures { IsDrawn result self.old self.new }
    {
        self.random.next_word() % 100 < u32::from(self.impairment.loss)
    }

    /// Whether a frame can be sent at once.
    pub(crate) fn is_direct(&self) -> bool
        ensures { result ≡ is_direct self.now }
    {
        self.impairment.delay == 0 && self.delayed.is_empty()
    }

    /// The moment of the next delayed frame.
    pub(crate) fn next_moment(&self) -> Option<u64>
        ensures { result ≡ first_moment self.now.delayed.items }
    {
        match self.delayed.front() {
            Some(frame) => Some(frame.moment),
            None => None,
        }
    }

    /// The moment at which a frame is sent that is passed in now.
    fn moment_of_next(&self, now: u64) -> u64
        ensures { result ≡ moment_behind now self.now }
    {
        now.saturating_add(self.impairment.delay).max(self.latest)
    }

    /// Delays a frame of 3 to 264 octets that is passed in now.
    ///
    /// # Errors
    ///
    /// `AllocError` if an allocation fails.
    pub(crate) fn put_off(&mut self, frame: &[u8], now: u64) -> Result<(), AllocError>
        requires { IsFrameLength (length frame.now) }
        ensures put_off { OnOk result (IsPutOff now frame.now self.old self.new) }
        ensures impairment { self.new.impairment ≡ self.old.impairment }
    {
        let moment = self.moment_of_next(now);
        let frame = DelayedFrame::new(self.alloc, moment, frame)?;
        self.delayed.push_back(frame)?;
        self.latest = moment;
        Ok(())
    }

    /// Removes and returns the next delayed frame, if it is due at this moment, in milliseconds.
    pub(crate) fn take_due(&mut self, now: u64) -> Option<DelayedFrame>
        ensures some { IfSome result (λ frame. (frame.moment ≤ now)
            × IsTakenOff frame self.old self.new) }
        ensures none { IfNone result ((self.new ≡ self.old)
            × FirstIsLater now self.old.delayed.items) }
    {
        match self.delayed.front() {
            Some(frame) if frame.moment <= now => self.delayed.pop_front(),
            _ => None,
        }
    }
}
