//! A side whose results wait, beside one whose results are taken at once: the same calls have the
//! same results, in order, whenever they are fetched.

use crate::digest::{with_octets, with_side};
use crate::talk::{side_of, tei};
use arrayvec::ArrayVec;
use lapd_sides::{Acts, EitherSide, LinkId, Primitive, QueuedSide, Request, Sapi};
use lapd_test_text::{Draws, Text};
use std::alloc::{AllocError, Global};
use std::test::Fail;

/// The octets of a frame; none if there is no frame.
type Octets = ArrayVec<u8, 264>;

/// A user side of TEI 64, the same side with results that wait, and the network side.
#[derive(Drop)]
struct Beside {
    side: EitherSide,
    acts: Acts,
    queued: QueuedSide,
    network: EitherSide,
    network_acts: Acts,
    draws: Draws,
    /// Digests of the frames and primitives of the side, and of those that were fetched.
    frames: u64,
    primitives: u64,
    fetched_frames: u64,
    fetched_primitives: u64,
    /// The most results that waited.
    most: usize,
}

/// The link of SAPI 0 and TEI 64.
fn link() -> LinkId {
    LinkId {
        sapi: Sapi::Call,
        tei: tei(64),
    }
}

/// The octets of the first frame.
fn first(acts: &Acts) -> Octets {
    let mut octets = ArrayVec::new();
    if let Some(frame) = acts.frames().first() {
        let _ = octets.try_extend_from_slice(frame.as_slice());
    }
    octets
}

/// Adds a primitive, as it is printed.
fn with_primitive(all: u64, primitive: &Primitive) -> u64 {
    let mut text = Text::new();
    text.item("", primitive);
    with_octets(all, text.as_bytes())
}

impl Beside {
    fn new(alloc: Global) -> Result<Beside, AllocError> {
        Ok(Beside {
            side: side_of(alloc, "user 64")?,
            acts: Acts::new(alloc)?,
            queued: QueuedSide::new(alloc, side_of(alloc, "user 64")?)?,
            network: side_of(alloc, "net 64")?,
            network_acts: Acts::new(alloc)?,
            draws: Draws::new(921),
            frames: 0,
            primitives: 0,
            fetched_frames: 0,
            fetched_primitives: 0,
            most: 0,
        })
    }

    /// Adds the results of the side's last call.
    fn note(&mut self) {
        for frame in self.acts.frames() {
            self.frames = with_octets(self.frames, frame.as_slice());
        }
        for primitive in self.acts.primitives() {
            self.primitives = with_primitive(self.primitives, primitive);
        }
        let waiting = self
            .queued
            .frames_waiting()
            .max(self.queued.primitives_waiting());
        self.most = self.most.max(waiting);
    }

    /// Carries the first frame of the last call to the network, and its first response back, some
    /// times. A frame in 16 is lost.
    fn carry(&mut self, now: u64) {
        for _ in 0..8 {
            let frame = first(&self.acts);
            if frame.is_empty() || self.draws.below(16) == 0 {
                return;
            }
            let _ = self
                .network
                .take(frame.as_slice(), now, &mut self.network_acts);
            let response = first(&self.network_acts);
            if response.is_empty() {
                return;
            }
            let _ = self.side.take(response.as_slice(), now, &mut self.acts);
            let _ = self.queued.take(response.as_slice(), now);
            self.note();
        }
    }

    /// Makes a drawn call, and carries its first frame.
    fn call(&mut self, now: u64) {
        let mut octets = [0; 20];
        self.draws.fill(&mut octets);
        match self.draws.below(16) {
            0 => {
                let _ = self
                    .side
                    .request(Request::Establish(link()), now, &mut self.acts);
                let _ = self.queued.request(Request::Establish(link()), now);
            }
            1 | 2 => {
                let _ = self.side.tick(now, &mut self.acts);
                let _ = self.queued.tick(now);
            }
            3 => {
                let _ = self.side.take(&octets, now, &mut self.acts);
                let _ = self.queued.take(&octets, now);
            }
            _ => {
                let _ = self.side.give(link(), &octets, now, &mut self.acts);
                let _ = self.queued.give(link(), &octets, now);
            }
        }
        self.note();
        self.carry(now);
    }

    /// Fetches all results.
    fn fetch(&mut self) {
        for _ in 0..self.queued.frames_waiting() {
            if let Some(frame) = self.queued.first_frame() {
                self.fetched_frames = with_octets(self.fetched_frames, frame);
                self.queued.remove_frame();
            }
        }
        for _ in 0..self.queued.primitives_waiting() {
            if let Some(primitive) = self.queued.first_primitive() {
                self.fetched_primitives = with_primitive(self.fetched_primitives, primitive);
                self.queued.remove_primitive();
            }
        }
    }

    /// Whether all results were fetched in order, and both sides are equal.
    fn is_right(&self) -> bool {
        self.fetched_frames == self.frames
            && self.fetched_primitives == self.primitives
            && with_side(0, self.queued.side()) == with_side(0, &self.side)
    }
}

/// More results wait than there is room for in a call.
#[test]
fn results_wait_in_order(rt: HostRuntime) -> Result<(), Fail> {
    let mut beside = Beside::new(rt.alloc())?;
    for round in 0..60u32 {
        for step in 0..beside.draws.below(400) {
            beside.call(u64::from(round) * 500 + u64::from(step));
        }
        beside.fetch();
        if !beside.is_right() {
            return Err(Fail::new("the results differ"));
        }
    }
    if beside.most < 137 {
        return Err(Fail::new("too few results waited"));
    }
    Ok(())
}
