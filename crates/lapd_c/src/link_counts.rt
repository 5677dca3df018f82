//! The counters of all links of a side.

ghost use Rattle.std.specs.Prelude.{◌≡◌, [], fold, map, option_map, set, IfOk};
ghost use Rattle.lapd_sides.specs.Either.{side_of};
ghost use Rattle.lapd_c.specs.Counters.{after_received, after_sent, call_counted, count_at, counters_of, frame_counted, nothing_counted, place_of, primitive_counted, received_counted, sent_counted};

use crate::link_counters::{LinkCount, LinkCounters};
use lapd_frame::{Frame, FrameFault, Sapi, Side, Tei, read};
use lapd_sides::{Acts, FrameOctets, LinkId, Primitive, QueuedSide, What};
use std::alloc::{AllocError, Global};
use std::marker::Model;

/// The number of links that may exist: 128 TEIs of each of three SAPIs.
const LINKS: usize = 384;

/// The counters of all links, by SAPI and TEI, whether a link exists or not.
#[derive(Drop)]
pub struct LinkCounts {
    links: Vec<LinkCount>,
}

impl Model for LinkCounts {
    ghost use Rattle.std.specs.Prelude.{List};
    ghost use Rattle.lapd_c.specs.declared.link_counters.LinkCount.{LinkCount};

    ghost Value = { List LinkCount };

    ghost view = { λ c. c.links.items };
}

impl LinkCounts {
    /// Counters that are all 0.
    ///
    /// # Errors
    ///
    /// `AllocError` if the counters cannot be allocated.
    #[tactic(auto, unfolding(crate::specs::Counters::nothing_counted))]
    pub(crate) fn new(alloc: Global) -> Result<LinkCounts, AllocError>
        ensures { IfOk result (λ counts. counts ≡ nothing_counted) }
    {
        let mut links = Vec::new(alloc);
        links.resize(LINKS, LinkCount::nothing())?;
        Ok(LinkCounts { links })
    }

    /// The counters of the link with this id.
    pub(crate) fn counters(&self, id: LinkId) -> LinkCounters
        ensures { result ≡ counters_of id self.now }
    {
        self.at(place_of(id.sapi, id.tei)).counters
    }

    /// The counters at a place.
    fn at(&self, place: usize) -> LinkCount
        ensures { result ≡ count_at place self.now }
    {
        match self.links.get(place) {
            Some(count) => *count,
            None => LinkCount::nothing(),
        }
    }

    /// Replaces the counters at a place.
    fn put(&mut self, place: usize, count: LinkCount)
        ensures { self.new ≡ set self.old place count }
    {
        if place < self.links.len() {
            self.links[place] = count;
        }
    }

    /// Counts the frames and primitives that follow from a call of this side.
    #[inline(never)]
    #[tactic(auto, unfolding(crate::specs::Counters::call_counted, crate::specs::Counters::received_counted))]
    fn count_results(&mut self, own: Side, acts: &Acts)
        ensures { self.new ≡ call_counted own [] acts.now self.old }
    {
        self.count_frames(own, acts.frames());
        self.count_primitives(acts.primitives());
    }

    /// Counts octets that this side received.
    #[inline(never)]
    #[tactic(auto, unfolding(crate::specs::Counters::received_counted))]
    fn count_received(&mut self, own: Side, octets: &[u8])
        ensures { self.new ≡ received_counted own self.old octets.now }
    {
        self.count_received_frame(&read(octets, own.other()));
    }

    /// Counts a received frame.
    fn count_received_frame(&mut self, frame: &Result<Frame<'_>, FrameFault>)
        ensures { self.new ≡ frame_counted after_received frame.now self.old }
    {
        if let Ok(frame) = frame {
            let address = frame.address();
            let place = place_of(address.sapi, address.tei);
            let mut count = self.at(place);
            count.count_received(&frame.control());
            self.put(place, count);
        }
    }

    /// Counts octets that this side sends.
    #[tactic(auto, unfolding(crate::specs::Counters::sent_counted))]
    fn count_sent(&mut self, own: Side, octets: &[u8])
        ensures { self.new ≡ sent_counted own self.old octets.now }
    {
        self.count_sent_frame(&read(octets, own));
    }

    /// Counts a frame that is sent.
    fn count_sent_frame(&mut self, frame: &Result<Frame<'_>, FrameFault>)
        ensures { self.new ≡ frame_counted after_sent frame.now self.old }
    {
        if let Ok(frame) = frame {
            let address = frame.address();
            let place = place_of(address.sapi, address.tei);
            let mut count = self.at(place);
            count.count_sent(&frame.control());
            self.put(place, count);
        }
    }

    /// Counts frames that this side sends.
    fn count_frames(&mut self, own: Side, frames: &[FrameOctets])
        ensures { self.new ≡ fold (sent_counted own) self.old (map (λ f. f.items) frames.now) }
    {
        for frame in frames {
            self.count_sent(own, frame.as_slice());
        }
    }

    /// Counts primitives.
    fn count_primitives(&mut self, primitives: &[Primitive])
        ensures { self.new ≡ fold primitive_counted self.old primitives.now }
    {
        for primitive in primitives {
            self.count_primitive(primitive);
        }
    }

    /// Counts a primitive, if it is a report.
    #[tactic(auto, unfolding(crate::specs::Counters::primitive_counted))]
    fn count_primitive(&mut self, primitive: &Primitive)
        ensures { self.new ≡ primitive_counted self.old primitive.now }
    {
        if let Primitive::Of(id, What::Report(_)) = primitive {
            let place = place_of(id.sapi, id.tei);
            let mut count = self.at(place);
            count.count_report();
            self.put(place, count);
        }
    }
}

/// Counts octets that a side receives, if it counts.
// Without counting, a call costs only this test and that of `count_results`.
#[inline(always)]
pub(crate) fn count_received(counts: &mut Option<LinkCounts>, queued: &QueuedSide, octets: &[u8])
    ensures { counts.new
        ≡ option_map (λ c. received_counted (side_of queued.now.side) c octets.now) counts.old }
{
    match counts {
        Some(counts) => counts.count_received(queued.side().side(), octets),
        None => {}
    }
}

/// Counts the last frames and primitives of a side, if it counts.
#[inline(always)]
pub(crate) fn count_results(counts: &mut Option<LinkCounts>, queued: &QueuedSide)
    ensures { counts.new
        ≡ option_map (call_counted (side_of queued.now.side) [] queued.now.acts) counts.old }
{
    match counts {
        Some(counts) => counts.count_results(queued.side().side(), queued.last()),
        None => {}
    }
}

/// The place of the link with this SAPI and TEI.
fn place_of(sapi: Sapi, tei: Tei) -> usize
    ensures { result ≡ place_of sapi tei }
{
    let first = match sapi {
        Sapi::Call => 0,
        Sapi::Packet => 128,
        Sapi::Management => 256,
    };
    first + usize::from(tei.value())
}
