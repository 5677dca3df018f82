//! A side, network or user.

ghost use Rattle.std.specs.Prelude.{◌≡◌, ◌⊎◌, ◌≤◌, ◌<◌, ◌++◌, true, false, length, [], None, Some, Ok, IfErr, option_copied};
ghost use Rattle.lapd_link_definition.specs.Input.{input_of};
ghost use Rattle.lapd_table.specs.LinkTable.{IsFor};
ghost use Rattle.lapd_sides_links.specs.declared.acts.TheConstants.{MOST_PRIMITIVES};
ghost use Rattle.lapd_sides_links.specs.Effects.{no_effects, Adds};
ghost use Rattle.lapd_sides_links.specs.Expiries.{IsNextDeadline, of_served};
ghost use Rattle.lapd_sides_links.specs.Messages.{SendsAtOnce, WithMessage};
ghost use Rattle.lapd_sides_links.specs.Rooms.{HasRoomForPredicted, IsEmpty};
ghost use Rattle.lapd_sides.specs.Calls.{Answers, EachShown, Expires, Grants, Receives, SetsDurations, SideDoes, SideStaysIdle};
ghost use Rattle.lapd_sides.specs.Requests.{LacksMessage, message_of, without_message};
ghost use Rattle.lapd_sides.specs.Shows.{ShowEnds};
ghost use Rattle.lapd_sides.specs.ShowsSide.{Shows};
ghost use Rattle.lapd_sides.specs.SideState.{data_received, expires, frame_received, given_for, given_for_frame, link_of, primitive_of_group, sends_at_once, takes};

use crate::links_and_timer::{Expired, LinksAndTimer, carries_message, opposite, without_message};
use crate::{
    Acts, Config, Durations, Management, Octets, Primitive, Represented, Request, SideFault,
    SideKind, What,
};
use lapd_frame::{Frame, N201, Sapi, Tei, read};
use lapd_link::Event;
use lapd_sides_links::{AtOnce, next_deadline};
use lapd_table::{LinkId, LinkTable};
use lapd_tei::TeiMessage;
use lapd_timers::TimerSet;
use std::alloc::{AllocError, Global};

/// A side of an interface: its links, its TEI management, and their timers. It is a
/// [`NetSide`](crate::NetSide) or a [`UserSide`](crate::UserSide), by its TEI management.
///
/// Each call empties the [`Acts`] that the caller passes, and fills them with its results: the
/// frames to send and the primitives for the layers above. The side has no clock: the caller passes
/// the time, in milliseconds.
// What each frame needs is first in all structs of a side, so that it lies in few lines of the
// cache. The configuration is last.
#[derive(Drop)]
pub struct ManagedSide<M> {
    pub(crate) alloc: Global,
    pub(crate) served: LinksAndTimer,
    pub(crate) management: M,
    pub(crate) config: Config,
}

impl<M: Management> ManagedSide<M> {
    /// Processes octets received from the line at the time `now`. A frame is passed to the link
    /// that it is addressed to, a TEI message to TEI management, and at a user side unit data to
    /// all terminals to layer 3. A frame for no link, and octets with one of the faults F1 to F3,
    /// are discarded and counted by [`ManagedSide::discarded`]. Allocates only if a TEI is assigned
    /// or obtained, for its links.
    ///
    /// # Errors
    ///
    /// B3 if that allocation failed. The side is unchanged and `acts` is empty.
    pub fn take(&mut self, bytes: &[u8], now: u64, acts: &mut Acts) -> Result<(), SideFault>
        ensures received { Receives (Shows M.represents M.rules) result self.old self.new acts.new
            (λ s. given_for M.rules s.management bytes.now)
            (λ config. takes M.rules config bytes.now now) }
        ensures err { IfErr result (λ fault. fault ≡ without_message SideKind.Memory) }
    {
        acts.clear();
        let from = opposite(M::side());
        if self.served.take_predicted(bytes, from, now, acts) {
            return Ok(());
        }
        self.take_any(bytes, now, acts)
    }

    /// Processes any octets, predicted or not.
    ///
    /// # Errors
    ///
    /// B3 as `take`.
    // If inlined, it would cost a predicted frame stack and registers.
    #[inline(never)]
    pub(crate) fn take_any(
        &mut self,
        bytes: &[u8],
        now: u64,
        acts: &mut Acts,
    ) -> Result<(), SideFault>
        requires empty { IsEmpty acts.old }
        ensures received { Receives (Shows M.represents M.rules) result self.old self.new acts.new
            (λ s. given_for M.rules s.management bytes.now)
            (λ config. takes M.rules config bytes.now now) }
        ensures err { IfErr result (λ fault. fault ≡ without_message SideKind.Memory) }
    {
        match read(bytes, opposite(M::side())) {
            Ok(frame) => match self.receive(&frame, now, acts) {
                Ok(()) => Ok(()),
                Err(AllocError) => Err(without_message(SideKind::Memory)),
            },
            Err(fault) => {
                self.served.receive_fault(&fault, now, acts);
                Ok(())
            }
        }
    }

    /// Processes a frame, which may be a TEI message.
    fn receive(&mut self, frame: &Frame<'_>, now: u64, acts: &mut Acts) -> Result<(), AllocError>
        requires fits { length frame.now.info ≤ N201 }
        requires empty { IsEmpty acts.old }
        ensures { Receives (Shows M.represents M.rules) result self.old self.new acts.new
            (λ s. given_for_frame M.rules s.management (Ok frame.now))
            (λ config. frame_received M.rules config now frame.now) }
    {
        if carries_message(frame) {
            match TeiMessage::read(frame.info()) {
                Ok(message) => M::receive_message(self, message, now, acts),
                Err(_) => Ok(()),
            }
        } else {
            self.receive_data(frame, now, acts);
            Ok(())
        }
    }

    /// Processes a frame that is not a TEI message: unit data to all terminals, or a frame for the
    /// link that it is addressed to.
    fn receive_data(&mut self, frame: &Frame<'_>, now: u64, acts: &mut Acts)
        requires empty { IsEmpty acts.old }
        requires fits { length frame.now.info ≤ N201 }
        ensures { SideDoes (Shows M.represents M.rules) self.old self.new acts.new
            (λ config. data_received M.rules config now frame.now) }
    {
        if M::is_for_layer_3(&self.config, frame) {
            let octets = Octets::new(frame.info());
            deliver_for_sapi(frame.address().sapi, What::UnitUp(octets), acts);
        } else {
            self.served.receive_frame(frame, now, acts);
        }
    }

    /// Expires the first timer that is due at `now`, in milliseconds. Returns `false` if none is
    /// due; call it until then. Before you expire timers for a moment, pass in every frame that had
    /// arrived by then. Does not allocate.
    pub fn tick(&mut self, now: u64, acts: &mut Acts) -> bool
        ensures due { result ≡ true → Expires (Shows M.represents M.rules) (expires M.rules)
            self.old self.new acts.new now }
        ensures none { result ≡ false
            → SideStaysIdle (Shows M.represents M.rules) self.old self.new now }
        ensures nothing { result ≡ false → acts.new ≡ no_effects }
    {
        acts.clear();
        match self.served.expire_first(now, acts) {
            Expired::Nothing => false,
            Expired::Link => true,
            Expired::Management => {
                M::expire_timer(self, now, acts);
                true
            }
        }
    }

    /// The next moment at which [`ManagedSide::tick`] has something to do, in milliseconds; before
    /// it, `tick` returns `false`. `None` if no timer runs. It changes only in `take`, `tick`,
    /// `request` and `give`, so a program can sleep until this moment or until octets arrive.
    pub fn next_deadline(&self) -> Option<u64>
        ensures { EachShown (Shows M.represents M.rules) self.now
            (λ s. IsNextDeadline s.served result) }
    {
        next_deadline(&self.served.timers, &self.served.links)
    }

    /// Executes a request at the time `now`. A user side uses only the SAPI of a link id: the TEI
    /// is the terminal's own. Without a TEI, it keeps an establishment until the terminal has one,
    /// and requests a TEI. Does not allocate.
    ///
    /// # Errors
    ///
    /// B1 if the link does not exist, or the TEI that a user side is to remove is not the
    /// terminal's; L1 to L5 if the link refuses; L1 for a message without a TEI. The message or
    /// unit data is returned in the error. The side is unchanged and `acts` is empty.
    pub fn request(&mut self, request: Request, now: u64, acts: &mut Acts) -> Result<(), SideFault>
        ensures { Answers (Shows M.represents M.rules) result self.old self.new acts.new
            (message_of request) (λ config. M.rules.requested config request now) }
    {
        acts.clear();
        M::execute(self, request, now, acts)
    }

    /// Submits a copy of these octets to a link as a layer 3 message, at the time `now`, as
    /// [`ManagedSide::request`] does with [`Request::Give`]. The copy is in the room of an
    /// acknowledged message if the link keeps one: only then nothing is allocated.
    ///
    /// # Errors
    ///
    /// B3 if the copy cannot be allocated, and B1 and L1 to L5, with the copy, as `request`. The
    /// side is unchanged and `acts` is empty.
    pub fn give(
        &mut self,
        id: LinkId,
        octets: &[u8],
        now: u64,
        acts: &mut Acts,
    ) -> Result<(), SideFault>
        ensures { LacksMessage result self.old self.new acts.new
            ⊎ WithMessage octets.now (λ message. Answers (Shows M.represents M.rules) result
            self.old self.new acts.new (Some message)
            (λ config. M.rules.requested config (Request.Give id message) now)) }
    {
        acts.clear();
        match self.send_at_once(&id, octets, now, acts) {
            AtOnce::Sent => Ok(()),
            AtOnce::Unsent(message) => M::execute(self, Request::Give(id, message), now, acts),
            AtOnce::NoMemory => Err(without_message(SideKind::Memory)),
        }
    }

    /// Submits a copy of these octets, as `give` does, if the link sends it at once. The results are
    /// appended to `acts`.
    #[inline(always)]
    pub(crate) fn send_at_once(
        &mut self,
        id: &LinkId,
        octets: &[u8],
        now: u64,
        acts: &mut Acts,
    ) -> AtOnce
        requires room { HasRoomForPredicted acts.old }
        ensures { SendsAtOnce octets.now (λ message. Adds acts.old acts.new
            (λ given. Grants (Shows M.represents M.rules) self.old self.new given
            (λ config. M.rules.requested config (Request.Give id.now message) now)))
            (EachShown (Shows M.represents M.rules) self.old (λ s.
            sends_at_once (M.rules.link_of_call s.management id.now) octets.now s.served.links
            ≡ false))
            ((self.new ≡ self.old) × (acts.new ≡ acts.old)) result }
    {
        match self.management.link_of_call(id) {
            Some(own) => self
                .served
                .links
                .send_at_once(self.alloc, &own, octets, now, acts),
            None => AtOnce::unsent(self.alloc, octets),
        }
    }

    /// Sets how long timers run when they are started from then on, also those of links that are
    /// added later. A running timer keeps its deadline.
    pub fn set_durations(&mut self, durations: Durations)
        ensures { SetsDurations (Shows M.represents M.rules) self.old self.new durations }
    {
        self.config.durations = durations;
        self.served.set_durations(durations);
    }

    /// The links of the side.
    pub fn table(&self) -> &LinkTable
        ensures { EachShown (Shows M.represents M.rules) self.now
            (λ s. ShowEnds M.rules.side result.now s.served.links) }
    {
        &self.served.links.table
    }

    /// The timers of an existing link; for `None`, that of TEI management: T201 at the network
    /// side, T202 at a user side.
    pub fn timers(&self, of: Option<LinkId>) -> Option<&TimerSet>
        ensures { EachShown (Shows M.represents M.rules) self.now
            (λ s. option_copied result ≡ of_served s.served of) }
    {
        match of {
            None => Some(&self.served.timers),
            Some(id) => self.served.links.timers(&id),
        }
    }

    /// The number of frames that [`ManagedSide::take`] has discarded: those with F1 to F3, and
    /// those for a link that does not exist. It stops at `u64::MAX`. Messages that TEI management
    /// ignores are not counted.
    pub fn discarded(&self) -> u64
        ensures { EachShown (Shows M.represents M.rules) self.now (λ s. result ≡ s.discarded) }
    {
        self.served.discarded
    }
}

// Without the calls of TEI management, which call this.
impl<M: Represented> ManagedSide<M> {
    /// Passes an event to the link with this id.
    pub(crate) fn act(
        &mut self,
        id: LinkId,
        event: Event,
        now: u64,
        acts: &mut Acts,
    ) -> Result<(), SideFault>
        requires empty { IsEmpty acts.old }
        requires for_link { IsFor id event }
        ensures { Answers (Shows M.represents M.rules) result self.old self.new acts.new None
            (λ _. link_of M.rules.side now id (input_of event.entry) []) }
    {
        match self.served.links.act(&id, event, &[], now, acts) {
            Ok(()) => Ok(()),
            Err(kind) => Err(without_message(kind)),
        }
    }
}

/// Reports a primitive of a SAPI without a TEI to layer 3; it names the group TEI.
pub(crate) fn deliver_for_sapi(sapi: Sapi, what: What, acts: &mut Acts)
    requires { length acts.old.primitives < MOST_PRIMITIVES }
    ensures { acts.new ≡ record acts.old {
      primitives = acts.old.primitives ++ primitive_of_group sapi what;
    } }
{
    let group = LinkId {
        sapi,
        tei: Tei::group(),
    };
    acts.deliver(Primitive::Of(group, what));
}
