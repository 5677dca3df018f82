//! The common part of both sides: the links, the timer of TEI management, and discarded frames.

ghost use Rattle.std.specs.Prelude.{◌≡◌, ◌≤◌, ◌<◌, ◌+◌, ◌++◌, true, false, length, Some, None, OnOk, OnErr, IfOk, IfSome, IsSome};
ghost use Rattle.std.specs.List.{All, filter_map};
ghost use Rattle.lapd_timers.specs.Due.{all_stopped};
ghost use Rattle.lapd_frame.specs.Fault.{is_for_link};
ghost use Rattle.lapd_frame.specs.Reading.{frame_at};
ghost use Rattle.lapd_link_definition.specs.Input.{input_of};
ghost use Rattle.lapd_table.specs.LinkTable.{IsFor};
ghost use Rattle.lapd_tei.specs.Out.{IsInRange, tei_given, tei_freed};
ghost use Rattle.lapd_sides_links.specs.declared.acts.TheConstants.{MOST_FRAMES, MOST_PRIMITIVES};
ghost use Rattle.lapd_sides_links.specs.Effects.{managed, message_sent, outcome_of, Adds};
ghost use Rattle.lapd_sides_links.specs.Links.{IsOfLink, in_links, link_acts, link_expires, no_links, served_with_durations};
ghost use Rattle.lapd_sides_links.specs.Rooms.{HasRoomForPredicted, IsEmpty};
ghost use Rattle.lapd_sides_links.specs.Shown.{LinksHaveNone};
ghost use Rattle.lapd_sides.specs.Management.{carries_message, is_unit_to_group, one_more};
ghost use Rattle.lapd_sides.specs.Requests.{without_message};
ghost use Rattle.lapd_frame.specs.Address.{other_side};
ghost use Rattle.lapd_sides.specs.Shows.{ShowServed, Become, ShowAsBefore, CarryOut, Receive, StepLinks, ExpireFirst, frame_on_links, fault_on_links, are_predicted, ReceivePredicted, with_given_links};

use crate::{Acts, Config, Primitive, RunningTimer, SideFault, SideKind};
use lapd_frame::{Control, Frame, FrameFault, N201, Sapi, Side, Tei, read_predicted};
use lapd_link::Event;
use lapd_sides_links::{LinkSet, due};
use lapd_table::LinkId;
use lapd_tei::TeiOut;
use lapd_timers::{Durations, Timer, TimerSet};
use std::alloc::{AllocError, Global};

/// The maximum number of outputs of one step of TEI management.
pub const MOST_TEI_OUTPUTS: usize = 6;

/// The links of a side with their timers, the timer of TEI management, T201 or T202, and the number
/// of frames for no link.
#[derive(Drop)]
pub struct LinksAndTimer {
    pub links: LinkSet,
    pub timers: TimerSet,
    /// The number of discarded frames, up to `u64::MAX`.
    pub discarded: u64,
}

/// The timer that has expired, by its owner.
#[derive(Clone, Copy)]
pub enum Expired {
    /// No timer was due.
    Nothing,
    /// A timer of a link, which has processed the expiry.
    Link,
    /// The timer of TEI management, already stopped. The side must still process the expiry.
    Management,
}

impl LinksAndTimer {
    /// Creates a set without links, with no timer running and no frame discarded.
    ///
    /// # Errors
    ///
    /// `AllocError` if an allocation failed.
    pub fn new(alloc: Global, side: Side, durations: Durations) -> Result<LinksAndTimer, AllocError>
        ensures shown { IfOk result (λ s. ShowServed side s
            (record { links = no_links; timers = all_stopped durations })) }
        ensures none { IfOk result (λ s. s.discarded ≡ 0) }
    {
        Ok(LinksAndTimer {
            links: LinkSet::new(alloc, side)?,
            timers: TimerSet::new(durations),
            discarded: 0,
        })
    }

    /// Adds the links of the TEI that these outputs of TEI management assign or obtain, if any.
    ///
    /// # Errors
    ///
    /// `AllocError` if an allocation failed. Nothing is changed.
    pub fn admit(
        &mut self,
        alloc: Global,
        config: &Config,
        outs: &[TeiOut],
    ) -> Result<(), AllocError>
        requires in_range { All IsInRange outs.now }
        ensures ok { OnOk result (Become self.old self.new (with_given_links config.now outs.now)) }
        ensures unchanged { OnErr result (ShowAsBefore self.old self.new) }
        ensures only { OnErr result (IsSome (tei_given outs.now)) }
        ensures discarded { self.new.discarded ≡ self.old.discarded }
    {
        if let Some(tei) = given(outs) {
            self.links.add_tei(alloc, config, tei)?;
        }
        Ok(())
    }

    /// Carries out these outputs of TEI management, except for adding links: sends the messages,
    /// reports the outcomes, starts and stops the timer, and removes the links of a TEI that is
    /// freed or removed. The results are appended to `acts`.
    pub fn carry_out(&mut self, side: Side, outs: &[TeiOut], now: u64, acts: &mut Acts)
        requires in_range { All IsInRange outs.now }
        requires at_most { length outs.now ≤ MOST_TEI_OUTPUTS }
        requires empty { IsEmpty acts.old }
        ensures done { CarryOut side self.old self.new acts.new now outs.now }
        ensures most_frames { length acts.new.frames ≤ MOST_TEI_OUTPUTS }
        ensures most_primitives { length acts.new.primitives ≤ MOST_TEI_OUTPUTS + 2 }
        ensures discarded { self.new.discarded ≡ self.old.discarded }
    {
        put_messages(side, outs, acts);
        deliver_outcomes(outs, acts);
        time_management(&mut self.timers, outs, now);
        if let Some(tei) = freed(outs) {
            self.links.remove_tei(tei, acts);
        }
    }

    /// Sets how long the timers run when they are started from then on. Running timers keep their
    /// deadlines.
    pub fn set_durations(&mut self, durations: Durations)
        ensures set { Become self.old self.new (served_with_durations durations) }
        ensures discarded { self.new.discarded ≡ self.old.discarded }
    {
        self.links.set_durations(durations);
        self.timers.set_durations(durations);
    }

    /// Passes a frame to the link that it is addressed to. A frame for no link is discarded and
    /// counted.
    pub fn receive_frame(&mut self, frame: &Frame<'_>, now: u64, acts: &mut Acts)
        requires empty { IsEmpty acts.old }
        requires fits { length frame.now.info ≤ N201 }
        ensures { Receive self.old self.new acts.new (frame_on_links now frame.now) }
    {
        let id = LinkId::of_address(&frame.address());
        self.act_or_discard(&id, Event::Heard(frame), frame.info(), now, acts);
    }

    /// Processes octets that `from` sent, if they are a frame that its link predicts: an I frame that
    /// is expected next, an acknowledgement or a poll, in state 7
    /// ([`lapd_link::Link::predicted_step`]). The results are appended to `acts`. Otherwise it
    /// returns `false`, and nothing is changed.
    #[inline(always)]
    pub fn take_predicted(&mut self, bytes: &[u8], from: Side, now: u64, acts: &mut Acts) -> bool
        requires room { HasRoomForPredicted acts.old }
        ensures taken { result ≡ true → Adds acts.old acts.new (λ given.
            ReceivePredicted from bytes.now now self.old self.new given) }
        ensures declined { result ≡ false
            → LinksHaveNone self.old.links (are_predicted (frame_at from bytes.now)) }
        ensures unchanged { result ≡ false → self.new ≡ self.old }
        ensures nothing { result ≡ false → acts.new ≡ acts.old }
    {
        match read_predicted(bytes, from) {
            Some(frame) => {
                let id = LinkId {
                    sapi: frame.sapi,
                    tei: frame.tei,
                };
                self.links.act_predicted(&id, &frame, now, acts)
            }
            None => false,
        }
    }

    /// Passes a fault of a frame to the link that the frame is addressed to. Octets for no link are
    /// discarded and counted.
    pub fn receive_fault(&mut self, fault: &FrameFault, now: u64, acts: &mut Acts)
        requires empty { IsEmpty acts.old }
        requires of_link { IfSome fault.now.address (λ address. is_for_link fault.now.kind ≡ true) }
        ensures { Receive self.old self.new acts.new
            (fault_on_links now fault.now.kind fault.now.address) }
    {
        match fault.address {
            Some(address) => {
                let id = LinkId::of_address(&address);
                self.act_or_discard(&id, Event::Fault(fault.kind), &[], now, acts);
            }
            None => self.discarded = one_more(self.discarded),
        }
    }

    /// Passes an event to the link with this id, or discards it if there is none.
    fn act_or_discard(
        &mut self,
        id: &LinkId,
        event: Event,
        octets: &[u8],
        now: u64,
        acts: &mut Acts,
    )
        requires empty { IsEmpty acts.old }
        requires for_link { IsFor id.now event }
        requires fits { length octets.now ≤ N201 }
        ensures { Receive self.old self.new acts.new (λ side. in_links id.now
            (link_acts side id.now now (input_of event.entry) octets.now)) }
    {
        match self.links.act(id, event, octets, now, acts) {
            Ok(()) => {}
            Err(_) => self.discarded = one_more(self.discarded),
        }
    }

    /// Expires the first timer that is due at `now`.
    pub fn expire_first(&mut self, now: u64, acts: &mut Acts) -> Expired
        requires empty { IsEmpty acts.old }
        ensures expired { ExpireFirst result self.old self.new acts.new now }
        ensures nothing { result ≡ Expired.Nothing → IsEmpty acts.new }
        ensures management { result ≡ Expired.Management → IsEmpty acts.new }
        ensures discarded { self.new.discarded ≡ self.old.discarded }
    {
        let Some(RunningTimer { timer, of, .. }) = due(&self.timers, &self.links, now) else {
            return Expired::Nothing;
        };
        match of {
            Some(id) => {
                self.expire(id, timer, now, acts);
                Expired::Link
            }
            None => {
                self.timers.stop(timer);
                Expired::Management
            }
        }
    }

    /// Expires this timer of the link with this id.
    fn expire(&mut self, id: LinkId, timer: Timer, now: u64, acts: &mut Acts)
        requires empty { IsEmpty acts.old }
        requires of_link { IsOfLink timer }
        ensures step { StepLinks self.old self.new acts.new
            (λ side. in_links id (link_expires side id now timer)) }
        ensures timers { self.new.timers ≡ self.old.timers }
        ensures discarded { self.new.discarded ≡ self.old.discarded }
    {
        let _ = self.links.expire(&id, timer, now, acts);
    }
}

/// Whether a frame carries a TEI management message: a UI frame of SAPI 63 and the group TEI (Q.921
/// 5.3.6.1).
pub fn carries_message(frame: &Frame<'_>) -> bool
    ensures { result ≡ carries_message frame.now }
{
    frame.address().sapi == Sapi::Management && is_unit_to_group(frame)
}

/// Whether a frame is a UI frame to the group TEI, with either P.
pub fn is_unit_to_group(frame: &Frame<'_>) -> bool
    ensures { result ≡ is_unit_to_group frame.now }
{
    match frame.control() {
        Control::Ui { .. } => frame.address().tei == Tei::group(),
        _ => false,
    }
}

/// The other side of an interface.
#[inline(always)]
pub fn opposite(side: Side) -> Side
    ensures { result ≡ other_side side }
{
    match side {
        Side::Network => Side::User,
        Side::User => Side::Network,
    }
}

/// Counts one more discarded frame, up to `u64::MAX`.
pub fn one_more(count: u64) -> u64
    ensures { result ≡ one_more count }
{
    count.saturating_add(1)
}

/// Builds a refusal for a call that passed no octets.
pub fn without_message(kind: SideKind) -> SideFault
    ensures { result ≡ without_message kind }
{
    SideFault {
        kind,
        message: None,
    }
}

/// The TEI that these outputs assign or obtain, if any.
fn given(outs: &[TeiOut]) -> Option<Tei>
    requires { All IsInRange outs.now }
    ensures value { result ≡ tei_given outs.now }
    ensures in_range { IfSome result (λ tei. tei < 127) }
{
    for out in outs {
        if let TeiOut::Given(tei) | TeiOut::Got(tei) = out {
            return Some(*tei);
        }
    }
    None
}

/// The TEI that these outputs free or remove, if any.
fn freed(outs: &[TeiOut]) -> Option<Tei>
    ensures { result ≡ tei_freed outs.now }
{
    for out in outs {
        if let TeiOut::Free(tei) | TeiOut::Doubled(tei) | TeiOut::Gone(tei) = out {
            return Some(*tei);
        }
    }
    None
}

/// Appends the messages that these outputs send.
fn put_messages(side: Side, outs: &[TeiOut], acts: &mut Acts)
    requires in_range { All IsInRange outs.now }
    requires room { length acts.old.frames + length outs.now ≤ MOST_FRAMES }
    ensures frames { acts.new.frames ≡ acts.old.frames ++ filter_map (message_sent side) outs.now }
    ensures primitives { acts.new.primitives ≡ acts.old.primitives }
    ensures at_most { length acts.new.frames ≤ length acts.old.frames + length outs.now }
{
    for out in outs {
        if let TeiOut::Send(message) = out {
            acts.put_message(side, message);
        }
    }
}

/// Appends the outcomes among these outputs.
fn deliver_outcomes(outs: &[TeiOut], acts: &mut Acts)
    requires room { length acts.old.primitives + length outs.now ≤ MOST_PRIMITIVES }
    ensures primitives { acts.new.primitives
        ≡ acts.old.primitives ++ filter_map outcome_of outs.now }
    ensures room { length acts.new.primitives ≤ length acts.old.primitives + length outs.now }
    ensures frames { acts.new.frames ≡ acts.old.frames }
{
    for out in outs {
        if let Some(outcome) = outcome_of(out) {
            acts.deliver(outcome);
        }
    }
}

/// The primitive of an output for the layers above: that of an outcome; none for a message or a
/// timer.
fn outcome_of(out: &TeiOut) -> Option<Primitive>
    ensures { result ≡ outcome_of out.now }
{
    match out {
        TeiOut::Send(_) | TeiOut::Start(_) | TeiOut::Stop(_) => None,
        outcome => Some(Primitive::Management(*outcome)),
    }
}

/// Starts and stops the timer of TEI management according to these outputs, at the time `now`.
fn time_management(timers: &mut TimerSet, outs: &[TeiOut], now: u64)
    ensures { timers.new ≡ managed now outs.now timers.old }
{
    for out in outs {
        match out {
            TeiOut::Start(timer) => timers.start(*timer, now),
            TeiOut::Stop(timer) => timers.stop(*timer),
            _ => {}
        }
    }
}
