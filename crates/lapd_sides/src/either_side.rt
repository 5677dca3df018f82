//! A side of either kind.

ghost use Rattle.std.specs.Prelude.{◌≡◌, true, false, Ok, IfErr, Some, None, option_copied};
ghost use Rattle.std.specs.Borrow.{sem};
ghost use Rattle.lapd_sides_links.specs.Effects.{no_effects, Adds};
ghost use Rattle.lapd_sides_links.specs.Messages.{SendsAtOnce};
ghost use Rattle.lapd_sides_links.specs.Rooms.{HasRoomForPredicted, IsEmpty};
ghost use Rattle.lapd_sides.specs.Requests.{without_message};

use crate::links_and_timer::{LinksAndTimer, opposite};
use crate::{Acts, Durations, NetSide, Request, SideFault, SideKind, UserSide};
use lapd_frame::Side;
use lapd_sides_links::AtOnce;
use lapd_table::{LinkId, LinkTable};
use lapd_timers::TimerSet;
use std::alloc::Global;

/// A network side or a user side, for programs that can be either. Its calls are those of
/// [`NetSide`] and [`UserSide`].
#[derive(Drop)]
pub enum EitherSide {
    /// The network side.
    Network(NetSide),
    /// A user side.
    User(UserSide),
}

impl EitherSide {
    ghost use Rattle.lapd_sides.specs.Either.{side_of, meant_by, served_of, LendsServed, Takes, Answers, Gives, PredictsNone, SendsNone, Expires, StaysIdle, SetsDurations, HasNextDeadline, HasTable, HasTimers, HasDiscarded};

    /// Whether this is the network side or the user side.
    pub fn side(&self) -> Side
        ensures { result ≡ side_of self.now }
    {
        match self {
            EitherSide::Network(_) => Side::Network,
            EitherSide::User(_) => Side::User,
        }
    }

    /// Processes octets received from the line at the time `now`, in milliseconds. `acts` is
    /// cleared, and then has the frames to send and the primitives to deliver, as in all calls.
    ///
    /// # Errors
    ///
    /// B3 if the links of a TEI cannot be allocated. The side is unchanged and `acts` is empty.
    pub fn take(&mut self, bytes: &[u8], now: u64, acts: &mut Acts) -> Result<(), SideFault>
        ensures side { side_of self.new ≡ side_of self.old }
        ensures received { Takes bytes.now now result self.old self.new acts.new }
        ensures err { IfErr result (λ fault. fault ≡ without_message SideKind.Memory) }
    {
        match self {
            EitherSide::Network(side) => side.take(bytes, now, acts),
            EitherSide::User(side) => side.take(bytes, now, acts),
        }
    }

    /// Expires the first timer that is due at `now`, in milliseconds. Returns `false` if none is
    /// due; call it until then. Before you expire timers for a moment, pass in every frame that had
    /// arrived by then.
    pub fn tick(&mut self, now: u64, acts: &mut Acts) -> bool
        ensures side { side_of self.new ≡ side_of self.old }
        ensures due { result ≡ true → Expires now self.old self.new acts.new }
        ensures none { result ≡ false → StaysIdle now self.old self.new }
        ensures nothing { result ≡ false → acts.new ≡ no_effects }
    {
        match self {
            EitherSide::Network(side) => side.tick(now, acts),
            EitherSide::User(side) => side.tick(now, acts),
        }
    }

    /// Executes a request at the time `now`.
    ///
    /// # Errors
    ///
    /// B1 if the link does not exist, and L1 to L5 if it refuses. The message or unit data is
    /// returned in the error. The side is unchanged and `acts` is empty.
    pub fn request(&mut self, request: Request, now: u64, acts: &mut Acts) -> Result<(), SideFault>
        ensures side { side_of self.new ≡ side_of self.old }
        ensures answers { Answers request now result self.old self.new acts.new }
    {
        match self {
            EitherSide::Network(side) => side.request(request, now, acts),
            EitherSide::User(side) => side.request(request, now, acts),
        }
    }

    /// Submits a copy of these octets to a link as a layer 3 message, at the time `now`, as
    /// [`EitherSide::request`] does with [`Request::Give`]. The copy is in the room of an
    /// acknowledged message if the link keeps one: only then nothing is allocated.
    ///
    /// # Errors
    ///
    /// B3 if the copy cannot be allocated, and B1 and L1 to L5, with the copy, as `request`. The
    /// side is unchanged and `acts` is empty.
    pub fn give(
        &mut self,
        id: LinkId,
        octets: &[u8],
        now: u64,
        acts: &mut Acts,
    ) -> Result<(), SideFault>
        ensures side { side_of self.new ≡ side_of self.old }
        ensures gives { Gives id octets.now now result self.old self.new acts.new }
    {
        match self {
            EitherSide::Network(side) => side.give(id, octets, now, acts),
            EitherSide::User(side) => side.give(id, octets, now, acts),
        }
    }

    /// Processes octets, if they are a frame that its link predicts ([`NetSide::take`]). The results
    /// are appended to `acts`. Otherwise it returns `false`, and nothing is changed.
    #[inline(always)]
    pub(crate) fn take_predicted(&mut self, bytes: &[u8], now: u64, acts: &mut Acts) -> bool
        requires room { HasRoomForPredicted acts.old }
        ensures taken { result ≡ true → Adds acts.old acts.new
            (Takes bytes.now now (Ok tt) self.old self.new) }
        ensures declined { result ≡ false → PredictsNone bytes.now self.old }
        ensures unchanged { result ≡ false → self.new ≡ self.old }
        ensures nothing { result ≡ false → acts.new ≡ acts.old }
    {
        // One body for both kinds: two would cost each of them registers.
        let from = opposite(self.side());
        self.served().take_predicted(bytes, from, now, acts)
    }

    /// The links of the side, the timer of TEI management, and the number of discarded frames.
    #[inline(always)]
    fn served(&mut self) -> &mut LinksAndTimer
        ensures* writes_back { sem 𝓛 (LendsServed self.entry result) }
        ensures value { result.now ≡ served_of self.old }
    {
        match self {
            EitherSide::Network(side) => &mut side.served,
            EitherSide::User(side) => &mut side.served,
        }
    }

    /// The link that a caller means who names this one. `None` without a TEI.
    #[inline(always)]
    fn link_of_call(&self, id: &LinkId) -> Option<LinkId>
        ensures { result ≡ meant_by self.now id.now }
    {
        match self {
            EitherSide::Network(_) => Some(*id),
            EitherSide::User(side) => side.management.own_link(id),
        }
    }

    /// Where the side allocates.
    #[inline(always)]
    fn alloc(&self) -> Global {
        match self {
            EitherSide::Network(side) => side.alloc,
            EitherSide::User(side) => side.alloc,
        }
    }

    /// Processes any octets, predicted or not.
    ///
    /// # Errors
    ///
    /// B3 as `take`.
    pub(crate) fn take_any(
        &mut self,
        bytes: &[u8],
        now: u64,
        acts: &mut Acts,
    ) -> Result<(), SideFault>
        requires empty { IsEmpty acts.old }
        ensures { Takes bytes.now now result self.old self.new acts.new }
    {
        match self {
            EitherSide::Network(side) => side.take_any(bytes, now, acts),
            EitherSide::User(side) => side.take_any(bytes, now, acts),
        }
    }

    /// Submits a copy of these octets, as `give` does, if the link sends it at once. The results are
    /// appended to `acts`.
    #[inline(always)]
    pub(crate) fn send_at_once(
        &mut self,
        id: &LinkId,
        octets: &[u8],
        now: u64,
        acts: &mut Acts,
    ) -> AtOnce
        requires room { HasRoomForPredicted acts.old }
        ensures { SendsAtOnce octets.now (λ message. Adds acts.old acts.new
            (Answers (Request.Give id.now message) now (Ok tt) self.old self.new))
            (SendsNone id.now octets.now self.old)
            ((self.new ≡ self.old) × (acts.new ≡ acts.old)) result }
    {
        let alloc = self.alloc();
        match self.link_of_call(id) {
            Some(own) => self
                .served()
                .links
                .send_at_once(alloc, &own, octets, now, acts),
            None => AtOnce::unsent(alloc, octets),
        }
    }

    /// The next moment at which [`EitherSide::tick`] has something to do, in milliseconds; before
    /// it, `tick` returns `false`. `None` if no timer runs.
    pub fn next_deadline(&self) -> Option<u64>
        ensures { HasNextDeadline self.now result }
    {
        match self {
            EitherSide::Network(side) => side.next_deadline(),
            EitherSide::User(side) => side.next_deadline(),
        }
    }

    /// Sets how long timers run when they are started from then on, also those of links that are
    /// added later. A running timer keeps its deadline.
    pub fn set_durations(&mut self, durations: Durations)
        ensures side { side_of self.new ≡ side_of self.old }
        ensures set { SetsDurations durations self.old self.new }
    {
        match self {
            EitherSide::Network(side) => side.set_durations(durations),
            EitherSide::User(side) => side.set_durations(durations),
        }
    }

    /// The links of the side.
    pub fn table(&self) -> &LinkTable
        ensures { HasTable self.now result.now }
    {
        match self {
            EitherSide::Network(side) => side.table(),
            EitherSide::User(side) => side.table(),
        }
    }

    /// The timers of an existing link; for `None`, that of TEI management.
    pub fn timers(&self, of: Option<LinkId>) -> Option<&TimerSet>
        ensures { HasTimers self.now of (option_copied result) }
    {
        match self {
            EitherSide::Network(side) => side.timers(of),
            EitherSide::User(side) => side.timers(of),
        }
    }

    /// The number of frames that [`EitherSide::take`] has discarded. It stops at `u64::MAX`.
    pub fn discarded(&self) -> u64
        ensures { HasDiscarded self.now result }
    {
        match self {
            EitherSide::Network(side) => side.discarded(),
            EitherSide::User(side) => side.discarded(),
        }
    }
}
