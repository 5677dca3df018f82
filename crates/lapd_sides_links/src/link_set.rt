//! The links of a side with their timers.

ghost use Rattle.std.specs.Prelude.{◌≡◌, ◌≢◌, ◌≤◌, ◌<◌, ◌+◌, ◌++◌, ◌&&◌, length, map, option_map, [], true, false, Some, None, is_none, IfSome, option_copied, IfOk, IfErr, OnOk, OnErr};
ghost use Rattle.std.specs.List.{filter_map};
ghost use Rattle.lapd_frame.specs.declared.Side.{Side};
ghost use Rattle.lapd_frame.specs.PredictedFrame.{predicted_control, predicted_role};
ghost use Rattle.lapd_link.specs.Link.{LinkRepresents};
ghost use Rattle.lapd_link.specs.declared.link.Link.{Link};
ghost use Rattle.lapd_link_machine.specs.Bounds.{primitive_count};
ghost use Rattle.lapd_link_machine.specs.Given.{given_outs};
ghost use Rattle.lapd_link_machine.specs.Predicted.{predicted_outs};
ghost use Rattle.lapd_link_definition.specs.End.{End};
ghost use Rattle.lapd_link_definition.specs.Input.{input_of, Give, Heard, UnitData};
ghost use Rattle.lapd_link_definition.specs.Input as input;
ghost use Rattle.lapd_table.specs.declared.link_id.LinkId.{LinkId};
ghost use Rattle.lapd_table.specs.LinkTable.{link_at, side_of, IsFor, IsKey};
ghost use Rattle.lapd_table.specs.LinkId.{setup_for};
ghost use Rattle.lapd_sides_links.specs.declared.acts.TheConstants.{MOST_FRAMES, MOST_PRIMITIVES};
ghost use Rattle.lapd_sides_links.specs.declared.primitive.Primitive.TheVariants.{Of};
ghost use Rattle.lapd_sides_links.specs.Effects.{timed, what_of, no_effects, Adds, Appends};
ghost use Rattle.lapd_sides_links.specs.Expiries.{IsFirst, IsPast, IsTimerOf, Runs, of_links};
ghost use Rattle.lapd_sides_links.specs.Links.{Links, IsOfLink, new_linked, no_links, of_sapi, with_link, with_new_link, with_tei, without_tei, release_at_removal, primitives_of, primitives_at_removal, primitive_of_tei, links_of_held, links_with_durations, in_links, link_acts, link_expires, gives_at_once, predicts};
ghost use Rattle.lapd_sides_links.specs.Messages.{SendsAtOnce};
ghost use Rattle.lapd_sides_links.specs.Rooms.{HasRoomFor, HasRoomForPredicted, AddsAtMost};

use crate::delivery::{deliver_all, put_frames};
use crate::link_timers::LinkTimers;
use crate::predicted::{deliver_acknowledged, deliver_message, put_message_frame, put_response};
use crate::side_fault::refused;
use crate::{Acts, AtOnce, Config, Primitive, RunningTimer, SideFault, SideKind, What};
use lapd_frame::{N201, Number, PredictedFrame, PredictedKind};
use lapd_link::{
    Event, GivenOuts, Link, LinkFault, Outs, Params, PredictedOuts, Sapi, Side, State, Tei,
};
use lapd_table::{LinkId, LinkKey, LinkTable};
use lapd_tei::Assigner;
use lapd_timers::{Durations, Timer, TimerSet};
use std::alloc::{AllocError, Global};

/// The links of a side with their timers, by SAPI and TEI.
// What each frame needs is first, so that it lies in few lines of the cache.
#[derive(Drop)]
pub struct LinkSet {
    link_timers: LinkTimers,
    pub table: LinkTable,
    /// The outputs of the last step of a link. They are reused, because new ones would have to be
    /// filled for each step.
    outs: Outs,
}

impl LinkSet {
    ghost use Rattle.lapd_sides_links.specs.Shown.{timers_at, made_by, ShowLinks, LinksDo, LinksHaveNone, LinksRefuseAs, Becomes, ShowsLinksAsBefore};

    /// Creates a set without links.
    ///
    /// # Errors
    ///
    /// `AllocError` if an allocation failed.
    pub fn new(alloc: Global, side: Side) -> Result<LinkSet, AllocError>
        ensures { IfOk result (λ s. ShowLinks side s no_links) }
    {
        Ok(LinkSet {
            table: LinkTable::new(alloc, side),
            link_timers: LinkTimers::Empty,
            outs: Outs::new(),
        })
    }

    /// Adds the links of a TEI, in state 4 and with no timer running: of SAPI 0, and of SAPI 16 if
    /// it is served. A link that exists is unchanged.
    ///
    /// # Errors
    ///
    /// `AllocError` if an allocation failed. Nothing is changed.
    pub fn add_tei(&mut self, alloc: Global, config: &Config, tei: Tei) -> Result<(), AllocError>
        requires tei { tei < 127 }
        ensures ok { OnOk result (Becomes self.old self.new (with_tei config.now tei)) }
        ensures unchanged { OnErr result (ShowsLinksAsBefore self.old self.new) }
    {
        let call = link_id(Sapi::Call, tei);
        let is_added = self.add(alloc, &call, config.params0, config.durations)?;
        if !config.sapi16 {
            return Ok(());
        }
        let packet = link_id(Sapi::Packet, tei);
        let Ok(_) = self.add(alloc, &packet, config.params16, config.durations) else {
            if is_added {
                self.remove(&call);
            }
            return Err(AllocError);
        };
        Ok(())
    }

    /// Adds a link of SAPI 0 or 16 and TEI 0 to 126, in state 4 and with no timer running, unless a
    /// link with this id exists. Returns whether it was added.
    ///
    /// # Errors
    ///
    /// `AllocError` if an allocation failed. Nothing is changed.
    fn add(
        &mut self,
        alloc: Global,
        id: &LinkId,
        params: Params,
        durations: Durations,
    ) -> Result<bool, AllocError>
        requires sapi { id.now.sapi ≢ Sapi.Management }
        requires tei { id.now.tei < 127 }
        ensures ok { OnOk result (Becomes self.old self.new
            (with_new_link id.now (new_linked params durations))) }
        ensures added { IfOk result (λ is_added. (side : Side) (links : Links)
            → ShowLinks side self.old links → is_added ≡ is_none (links id.now)) }
        ensures unchanged { OnErr result (ShowsLinksAsBefore self.old self.new) }
    {
        if self.table.link(*id).is_some() {
            return Ok(false);
        }
        self.link_timers.make_room(alloc, id)?;
        let link = Link::new(alloc, self.table.side(), id.sapi, id.tei, params)?;
        if self.table.add(link).is_err() {
            return Err(AllocError);
        }
        self.link_timers.reset(id, durations);
        Ok(true)
    }

    /// Adds the links of all held TEIs to an empty set.
    ///
    /// # Errors
    ///
    /// `AllocError` if an allocation failed. Some links may have been added.
    pub fn add_held(
        &mut self,
        alloc: Global,
        config: &Config,
        assigner: &Assigner,
    ) -> Result<(), AllocError>
        ensures { OnOk result ((side : Side) → ShowLinks side self.old no_links
            → ShowLinks side self.new (links_of_held config.now assigner.now.held)) }
    {
        for tei in 0..127 {
            let tei = own_tei(tei);
            if assigner.holds(tei) {
                self.add_tei(alloc, config, tei)?;
            }
        }
        Ok(())
    }

    /// Removes the links of a TEI, and reports their release, by ascending SAPI.
    pub fn remove_tei(&mut self, tei: Tei, acts: &mut Acts)
        requires room { length acts.old.primitives + 2 ≤ MOST_PRIMITIVES }
        ensures shown { Becomes self.old self.new (without_tei tei) }
        ensures delivered { (side : Side) (links : Links) → ShowLinks side self.old links
            → acts.new.primitives ≡ acts.old.primitives ++ primitive_of_tei tei links }
        ensures frames { acts.new.frames ≡ acts.old.frames }
        ensures at_most { length acts.new.primitives ≤ length acts.old.primitives + 2 }
    {
        self.remove_and_deliver(&link_id(Sapi::Call, tei), acts);
        self.remove_and_deliver(&link_id(Sapi::Packet, tei), acts);
    }

    /// Removes the link with this id, and reports its release.
    fn remove_and_deliver(&mut self, id: &LinkId, acts: &mut Acts)
        requires room { length acts.old.primitives < MOST_PRIMITIVES }
        ensures shown { Becomes self.old self.new (with_link id.now None) }
        ensures delivered { (side : Side) (links : Links) → ShowLinks side self.old links
            → acts.new.primitives ≡ acts.old.primitives ++ primitives_at_removal id.now
            (links id.now) }
        ensures frames { acts.new.frames ≡ acts.old.frames }
        ensures room { length acts.new.primitives ≤ length acts.old.primitives + 1 }
    {
        if let Some(link) = self.table.link(*id) {
            deliver_removal(id, link, acts);
        }
        self.remove(id);
    }

    /// Removes the link with this id, and stops its timers.
    fn remove(&mut self, id: &LinkId)
        ensures { Becomes self.old self.new (with_link id.now None) }
    {
        let _link = self.table.remove(*id);
        self.link_timers.stop_all(id);
    }

    /// Sets how long the timers of all links run when they are started from then on. Running timers
    /// keep their deadlines.
    pub fn set_durations(&mut self, durations: Durations)
        ensures { Becomes self.old self.new (links_with_durations durations) }
    {
        self.link_timers.set_durations(durations);
    }

    /// The timers of the link with this id; `None` if the link does not exist.
    pub fn timers(&self, id: &LinkId) -> Option<&TimerSet>
        ensures { (side : Side) (links : Links) → ShowLinks side self.now links
            → option_copied result ≡ of_links links (Some id.now) }
    {
        match self.table.link(*id) {
            Some(_) => self.link_timers.get(id),
            None => None,
        }
    }

    /// The timer that expires first, of all running timers of links.
    #[inline(always)]
    pub fn first(&self) -> Option<RunningTimer>
        ensures { (side : Side) (links : Links) → ShowLinks side self.now links
            → IsFirst (Runs (of_links links)) result }
    {
        self.link_timers.first()
    }

    /// The timer that expires first, if it is due at the time `now`.
    pub fn due(&self, now: u64) -> Option<RunningTimer>
        ensures first { (side : Side) (links : Links) → ShowLinks side self.now links
            → IsFirst (IsPast now (of_links links)) result }
        ensures own { IfSome result (λ e. IsTimerOf e.of e.timer) }
    {
        self.link_timers.due(now)
    }

    /// Carries out the outputs of a link's step: its frames, primitives and timers.
    fn carry_out(&mut self, key: &LinkKey, octets: &[u8], now: u64, acts: &mut Acts)
        requires key { IsKey self.old.table key.now }
        requires fits { length octets.now ≤ N201 }
        requires frame_room { length acts.old.frames + length self.old.outs.items ≤ MOST_FRAMES }
        requires primitive_room { length acts.old.primitives + primitive_count self.old.outs.items
            ≤ MOST_PRIMITIVES }
        ensures frames { (link : Link) (e : End) → link_at self.old.table key.now.id ≡ Some link
            → LinkRepresents link e
            → acts.new.frames ≡ acts.old.frames
            ++ filter_map (made_by (setup_for (side_of self.old.table) key.now.id) e octets.now)
            self.old.outs.items }
        ensures primitives { acts.new.primitives ≡ acts.old.primitives
            ++ map (Of key.now.id) (filter_map (what_of octets.now) self.old.outs.items) }
        ensures most_frames { length acts.new.frames
            ≤ length acts.old.frames + length self.old.outs.items }
        ensures most_primitives { length acts.new.primitives
            ≤ length acts.old.primitives + primitive_count self.old.outs.items }
        ensures own { timers_at self.new.link_timers key.now.id
            ≡ option_map (timed now self.old.outs.items)
            (timers_at self.old.link_timers key.now.id) }
        ensures others { (other : LinkId) → other ≢ key.now.id
            → timers_at self.new.link_timers other ≡ timers_at self.old.link_timers other }
        ensures table { self.new.table ≡ self.old.table }
    {
        let outs = self.outs.as_slice();
        put_frames(self.table.link_at(key), octets, outs, acts);
        deliver_all(key.id(), octets, outs, acts);
        self.link_timers.apply_outputs(key.id(), outs, now);
    }

    /// Carries out the outputs of a predicted step of a link: its frames, primitives and timers.
    #[inline(always)]
    fn carry_out_predicted(
        &mut self,
        key: &LinkKey,
        outs: &PredictedOuts,
        octets: &[u8],
        now: u64,
        acts: &mut Acts,
    )
        requires key { IsKey self.old.table key.now }
        requires fits { length octets.now ≤ N201 }
        requires frame_room { length acts.old.frames + 2 ≤ MOST_FRAMES }
        requires primitive_room { length acts.old.primitives + 2 ≤ MOST_PRIMITIVES }
        ensures frames { (link : Link) (e : End) → link_at self.old.table key.now.id ≡ Some link
            → LinkRepresents link e
            → acts.new.frames ≡ acts.old.frames
            ++ filter_map (made_by (setup_for (side_of self.old.table) key.now.id) e octets.now)
            (predicted_outs outs.now) }
        ensures primitives { acts.new.primitives ≡ acts.old.primitives
            ++ map (Of key.now.id) (filter_map (what_of octets.now) (predicted_outs outs.now)) }
        ensures most_frames { length acts.new.frames ≤ length acts.old.frames + 2 }
        ensures most_primitives { length acts.new.primitives ≤ length acts.old.primitives + 2 }
        ensures own { timers_at self.new.link_timers key.now.id
            ≡ option_map (timed now (predicted_outs outs.now))
            (timers_at self.old.link_timers key.now.id) }
        ensures others { (other : LinkId) → other ≢ key.now.id
            → timers_at self.new.link_timers other ≡ timers_at self.old.link_timers other }
        ensures table { self.new.table ≡ self.old.table }
    {
        let from = self.table.side();
        let id = key.id();
        put_response(from, id, outs.response, acts);
        deliver_message(id, outs.is_up, octets, acts);
        deliver_acknowledged(id, outs.nr, acts);
        put_response(from, id, outs.acknowledgement, acts);
        self.link_timers.apply_nr(id, outs.nr, now);
    }

    /// Carries out the outputs of a message that a link sent at once.
    #[inline(always)]
    fn carry_out_given(&mut self, key: &LinkKey, outs: &GivenOuts, now: u64, acts: &mut Acts)
        requires key { IsKey self.old.table key.now }
        requires room { length acts.old.frames < MOST_FRAMES }
        ensures frames { (link : Link) (e : End) → link_at self.old.table key.now.id ≡ Some link
            → LinkRepresents link e
            → acts.new.frames ≡ acts.old.frames
            ++ filter_map (made_by (setup_for (side_of self.old.table) key.now.id) e [])
            (given_outs outs.now) }
        ensures primitives { acts.new.primitives ≡ acts.old.primitives
            ++ map (Of key.now.id) (filter_map (what_of []) (given_outs outs.now)) }
        ensures own { timers_at self.new.link_timers key.now.id
            ≡ option_map (timed now (given_outs outs.now))
            (timers_at self.old.link_timers key.now.id) }
        ensures others { (other : LinkId) → other ≢ key.now.id
            → timers_at self.new.link_timers other ≡ timers_at self.old.link_timers other }
        ensures table { self.new.table ≡ self.old.table }
    {
        put_message_frame(self.table.link_at(key), outs.place, outs.field, acts);
        self.link_timers.apply_send(key.id(), outs.effect, now);
    }

    /// Processes an event in the link with this id, at the time `now`. `octets` are the information
    /// of the received frame, or the unit data to send. The results are appended to `acts`.
    ///
    /// # Errors
    ///
    /// B1 if the link does not exist, and L1 to L5 if it refuses. Nothing is changed.
    pub fn act(
        &mut self,
        id: &LinkId,
        event: Event,
        octets: &[u8],
        now: u64,
        acts: &mut Acts,
    ) -> Result<(), SideKind>
        requires for_link { IsFor id.now event }
        requires fits { length octets.now ≤ N201 }
        requires room { HasRoomFor (input_of event) acts.old }
        ensures ok { OnOk result (LinksDo self.old self.new acts.old acts.new
            (λ side. in_links id.now (link_acts side id.now now
            (input_of event.entry) octets.now))) }
        ensures err { IfErr result (LinksRefuseAs self.old
            (λ side. in_links id.now (link_acts side id.now now
            (input_of event.entry) octets.now))) }
        ensures unchanged { OnErr result (ShowsLinksAsBefore self.old self.new) }
        ensures nothing { OnErr result (acts.new ≡ acts.old) }
        ensures most { AddsAtMost (input_of event.entry) acts.old acts.new }
    {
        match self.table.find(id) {
            Some(key) => self.act_at(&key, event, octets, now, acts),
            None => Err(SideKind::NoLink),
        }
    }

    /// Like `act`, for a link that has been found.
    // If inlined, it would cost a predicted step stack and registers.
    #[inline(never)]
    fn act_at(
        &mut self,
        key: &LinkKey,
        event: Event,
        octets: &[u8],
        now: u64,
        acts: &mut Acts,
    ) -> Result<(), SideKind>
        requires key { IsKey self.old.table key.now }
        requires for_link { IsFor key.now.id event }
        requires fits { length octets.now ≤ N201 }
        requires room { HasRoomFor (input_of event) acts.old }
        ensures ok { OnOk result (LinksDo self.old self.new acts.old acts.new
            (λ side. in_links key.now.id (link_acts side key.now.id now
            (input_of event.entry) octets.now))) }
        ensures err { IfErr result (LinksRefuseAs self.old
            (λ side. in_links key.now.id (link_acts side key.now.id now
            (input_of event.entry) octets.now))) }
        ensures unchanged { OnErr result (ShowsLinksAsBefore self.old self.new) }
        ensures nothing { OnErr result (acts.new ≡ acts.old) }
        ensures most { AddsAtMost (input_of event.entry) acts.old acts.new }
    {
        match self.table.handle_at(key, event, &mut self.outs) {
            Ok(()) => {
                self.carry_out(key, octets, now, acts);
                Ok(())
            }
            Err(fault) => Err(SideKind::Link(fault)),
        }
    }

    /// Processes a frame in the link with this id, at the time `now`, if the link predicts it
    /// ([`Link::predicted_step`]). The results are appended to `acts`. Otherwise it returns `false`,
    /// and nothing is changed.
    // Each kind has an inlined call of its own, so that none tests for the outputs of the others.
    #[inline(always)]
    pub fn act_predicted(
        &mut self,
        id: &LinkId,
        frame: &PredictedFrame<'_>,
        now: u64,
        acts: &mut Acts,
    ) -> bool
        requires fits { length frame.now.info.now ≤ N201 }
        requires room { HasRoomForPredicted acts.old }
        ensures ok { result ≡ true → Adds acts.old acts.new (λ given.
            LinksDo self.old self.new no_effects given
            (λ side. in_links id.now (link_acts side id.now now
            (Heard (predicted_control frame.now.kind frame.now.nr) (predicted_role frame.now.kind))
            frame.now.info.now))) }
        ensures declined { result ≡ false → LinksHaveNone self.old (λ links. predicts
            (predicted_control frame.now.kind frame.now.nr) (predicted_role frame.now.kind)
            (links id.now)) }
        ensures unchanged { result ≡ false → self.new ≡ self.old }
        ensures nothing { result ≡ false → acts.new ≡ acts.old }
    {
        let Some(key) = self.table.find(id) else {
            return false;
        };
        let nr = frame.nr;
        let info = frame.info;
        match frame.kind {
            PredictedKind::Message(ns) => {
                self.act_predicted_at(&key, PredictedKind::Message(ns), nr, info, now, acts)
            }
            PredictedKind::Acknowledgement => {
                self.act_predicted_at(&key, PredictedKind::Acknowledgement, nr, info, now, acts)
            }
            PredictedKind::Poll => {
                self.act_predicted_at(&key, PredictedKind::Poll, nr, info, now, acts)
            }
        }
    }

    /// Like `act_predicted`, for a link that has been found, and a frame of this kind with this N(R)
    /// and information.
    #[inline(always)]
    fn act_predicted_at(
        &mut self,
        key: &LinkKey,
        kind: PredictedKind,
        nr: Number,
        info: &[u8],
        now: u64,
        acts: &mut Acts,
    ) -> bool
        requires key { IsKey self.old.table key.now }
        requires fits { length info.now ≤ N201 }
        requires room { HasRoomForPredicted acts.old }
        ensures ok { result ≡ true → LinksDo self.old self.new acts.old acts.new
            (λ side. in_links key.now.id (link_acts side key.now.id now
            (Heard (predicted_control kind nr) (predicted_role kind)) info.now)) }
        ensures appended { result ≡ true → Appends acts.old acts.new }
        ensures declined { result ≡ false → LinksHaveNone self.old (λ links. predicts
            (predicted_control kind nr) (predicted_role kind) (links key.now.id)) }
        ensures unchanged { result ≡ false → self.new ≡ self.old }
        ensures nothing { result ≡ false → acts.new ≡ acts.old }
    {
        match self.table.predicted_step_at(key, kind, nr) {
            Some(outs) => {
                self.carry_out_predicted(key, &outs, info, now, acts);
                true
            }
            None => false,
        }
    }

    /// Sends unit data on the link with this id, at the time `now`. The results are appended to
    /// `acts`.
    ///
    /// # Errors
    ///
    /// B1 if the link does not exist, and L3 for more than 260 octets. Nothing is changed.
    pub fn send_unit(
        &mut self,
        id: &LinkId,
        octets: &[u8],
        now: u64,
        acts: &mut Acts,
    ) -> Result<(), SideKind>
        requires room { HasRoomFor (UnitData (length octets.now)) acts.old }
        ensures ok { OnOk result (LinksDo self.old self.new acts.old acts.new
            (λ side. in_links id.now (link_acts side id.now now
            (UnitData (length octets.now)) octets.now))) }
        ensures err { IfErr result (LinksRefuseAs self.old
            (λ side. in_links id.now (link_acts side id.now now
            (UnitData (length octets.now)) octets.now))) }
        ensures unchanged { OnErr result (ShowsLinksAsBefore self.old self.new) }
        ensures nothing { OnErr result (acts.new ≡ acts.old) }
    {
        let Some(key) = self.table.find(id) else {
            return Err(SideKind::NoLink);
        };
        if octets.len() > N201 {
            return Err(SideKind::Link(LinkFault::TooLong));
        }
        self.act_at(&key, Event::Unit(octets.len()), octets, now, acts)
    }

    /// Submits a copy of these octets to the link with this id as a layer 3 message, at the time
    /// `now`, if the link sends it at once ([`Link::give_at_once`]). The copy is in the room of an
    /// acknowledged message of the link, if one is kept. The results are appended to `acts`.
    #[inline(always)]
    pub fn send_at_once(
        &mut self,
        alloc: Global,
        id: &LinkId,
        octets: &[u8],
        now: u64,
        acts: &mut Acts,
    ) -> AtOnce
        requires room { HasRoomForPredicted acts.old }
        ensures { SendsAtOnce octets.now (λ message. Adds acts.old acts.new
            (λ given. LinksDo self.old self.new no_effects given
            (λ side. in_links id.now (link_acts side id.now now (Give message.items) []))))
            (LinksHaveNone self.old (λ links. gives_at_once octets.now (links id.now)))
            ((self.new ≡ self.old) × (acts.new ≡ acts.old)) result }
    {
        let Some(key) = self.table.find(id) else {
            return AtOnce::unsent(alloc, octets);
        };
        match self.table.new_message_at(&key, octets) {
            Ok(message) => match self.give_at_once(&key, message, now, acts) {
                Ok(()) => AtOnce::Sent,
                Err(message) => AtOnce::Unsent(message),
            },
            Err(AllocError) => AtOnce::NoMemory,
        }
    }

    /// Submits a layer 3 message to the link with this id, at the time `now`. The results are
    /// appended to `acts`.
    ///
    /// # Errors
    ///
    /// B1 if the link does not exist, and L1 to L5 if it refuses. The message is returned in the
    /// error, and nothing is changed.
    pub fn give(
        &mut self,
        id: &LinkId,
        message: Vec<u8>,
        now: u64,
        acts: &mut Acts,
    ) -> Result<(), SideFault>
        requires room { HasRoomFor (Give message.items) acts.old }
        ensures ok { OnOk result (LinksDo self.old self.new acts.old acts.new
            (λ side. in_links id.now (link_acts side id.now now (Give message.items) []))) }
        ensures err { IfErr result (λ fault. LinksRefuseAs self.old
            (λ side. in_links id.now (link_acts side id.now now (Give message.items) []))
            fault.kind) }
        ensures returned { IfErr result (λ fault. fault.message ≡ Some message) }
        ensures unchanged { OnErr result (ShowsLinksAsBefore self.old self.new) }
        ensures nothing { OnErr result (acts.new ≡ acts.old) }
    {
        let Some(key) = self.table.find(id) else {
            return Err(refused(SideKind::NoLink, message));
        };
        match self.give_at_once(&key, message, now, acts) {
            Ok(()) => Ok(()),
            Err(message) => self.give_in_general(&key, message, now, acts),
        }
    }

    /// Submits a message to a link that has been found, if it is sent at once. Otherwise the
    /// message is returned, and the links are unchanged.
    #[inline(always)]
    fn give_at_once(
        &mut self,
        key: &LinkKey,
        message: Vec<u8>,
        now: u64,
        acts: &mut Acts,
    ) -> Result<(), Vec<u8>>
        requires key { IsKey self.old.table key.now }
        requires room { HasRoomForPredicted acts.old }
        ensures ok { OnOk result (LinksDo self.old self.new acts.old acts.new
            (λ side. in_links key.now.id (link_acts side key.now.id now (Give message.items) []))) }
        ensures appended { OnOk result (Appends acts.old acts.new) }
        ensures declined { OnErr result (LinksHaveNone self.old
            (λ links. gives_at_once message.items (links key.now.id))) }
        ensures returned { IfErr result (λ back. back ≡ message) }
        ensures unchanged { OnErr result (self.new ≡ self.old) }
        ensures nothing { OnErr result (acts.new ≡ acts.old) }
        ensures key { IsKey self.new.table key.now }
    {
        match self.table.give_at_once_at(key, message) {
            Ok(outs) => {
                self.carry_out_given(key, &outs, now, acts);
                Ok(())
            }
            Err(message) => Err(message),
        }
    }

    /// Like `give`, for a link that has been found and any message.
    // If inlined, it would cost a message that is sent at once stack and registers.
    #[inline(never)]
    fn give_in_general(
        &mut self,
        key: &LinkKey,
        message: Vec<u8>,
        now: u64,
        acts: &mut Acts,
    ) -> Result<(), SideFault>
        requires key { IsKey self.old.table key.now }
        requires room { HasRoomFor (Give message.items) acts.old }
        ensures ok { OnOk result (LinksDo self.old self.new acts.old acts.new
            (λ side. in_links key.now.id (link_acts side key.now.id now (Give message.items) []))) }
        ensures err { IfErr result (λ fault. LinksRefuseAs self.old
            (λ side. in_links key.now.id (link_acts side key.now.id now (Give message.items) []))
            fault.kind) }
        ensures returned { IfErr result (λ fault. fault.message ≡ Some message) }
        ensures unchanged { OnErr result (ShowsLinksAsBefore self.old self.new) }
        ensures nothing { OnErr result (acts.new ≡ acts.old) }
    {
        match self.table.give_at(key, message, &mut self.outs) {
            Ok(()) => {
                self.carry_out(key, &[], now, acts);
                Ok(())
            }
            Err(back) => Err(refused(SideKind::Link(back.fault), back.message)),
        }
    }

    /// Stops the expired timer T200 or T203 of the link with this id, and processes its expiry, at
    /// the time `now`. The results are appended to `acts`.
    ///
    /// # Errors
    ///
    /// B1 if the link does not exist. Nothing is changed.
    pub fn expire(
        &mut self,
        id: &LinkId,
        timer: Timer,
        now: u64,
        acts: &mut Acts,
    ) -> Result<(), SideKind>
        requires of_link { IsOfLink timer }
        requires room { HasRoomFor (input.Expiry timer) acts.old }
        ensures ok { OnOk result (LinksDo self.old self.new acts.old acts.new
            (λ side. in_links id.now (link_expires side id.now now timer))) }
        ensures err { IfErr result (LinksRefuseAs self.old
            (λ side. in_links id.now (link_expires side id.now now timer))) }
        ensures unchanged { OnErr result (ShowsLinksAsBefore self.old self.new) }
        ensures nothing { OnErr result (acts.new ≡ acts.old) }
    {
        let Some(key) = self.table.find(id) else {
            return Err(SideKind::NoLink);
        };
        match self.table.handle_at(&key, expiry_of(timer), &mut self.outs) {
            Ok(()) => {
                self.link_timers.stop(key.id(), timer);
                self.carry_out(&key, &[], now, acts);
                Ok(())
            }
            Err(fault) => Err(SideKind::Link(fault)),
        }
    }
}

/// The event that reports this timer's expiry to its link.
fn expiry_of<'a>(timer: Timer) -> Event<'a>
    requires { IsOfLink timer }
    ensures input { input_of result ≡ input.Expiry timer }
    ensures any { (id : LinkId) → IsFor id result }
{
    match timer {
        Timer::T200 => Event::T200,
        Timer::T203 => Event::T203,
        Timer::T201 | Timer::T202 => unreachable!(),
    }
}

/// The TEI of a single terminal.
fn own_tei(tei: u8) -> Tei
    requires { tei < 127 }
    ensures { result ≡ tei }
{
    match Tei::new(tei) {
        Some(tei) => tei,
        None => unreachable!(),
    }
}

/// The id of a link.
fn link_id(sapi: Sapi, tei: Tei) -> LinkId
    ensures { result ≡ of_sapi sapi tei }
{
    LinkId { sapi, tei }
}

/// Reports the release of a link that is removed.
fn deliver_removal(id: &LinkId, link: &Link, acts: &mut Acts)
    requires room { length acts.old.primitives < MOST_PRIMITIVES }
    ensures delivered { (e : End) → LinkRepresents link.now e
        → acts.new.primitives ≡ acts.old.primitives
        ++ primitives_of id.now (release_at_removal e.state e.release_pending) }
    ensures frames { acts.new.frames ≡ acts.old.frames }
    ensures room { length acts.new.primitives ≤ length acts.old.primitives + 1 }
{
    if let Some(what) = release_at_removal(link.named_state(), link.release_pending()) {
        acts.deliver(Primitive::Of(*id, what));
    }
}

/// The release that is reported to layer 3 if a link is removed in this state.
fn release_at_removal(state: State, release_pending: bool) -> Option<What>
    ensures { result ≡ release_at_removal state release_pending }
{
    match state {
        State::TeiAssigned => None,
        State::AwaitingEstablishment if !release_pending => Some(What::Released),
        State::AwaitingEstablishment | State::AwaitingRelease => Some(What::ReleaseConfirm),
        State::MultipleFrameEstablished | State::TimerRecovery => Some(What::Released),
    }
}
