//! The timers of the links of a side.

ghost use Rattle.std.specs.Prelude.{◌≡◌, ◌≢◌, true, is_some, option_map, option_copied, IfOk, IfSome, OnOk};
ghost use Rattle.lapd_timers.specs.Due.{all_stopped, with_durations};
ghost use Rattle.lapd_link_machine.specs.Given.{send_outs};
ghost use Rattle.lapd_link_machine.specs.Predicted.{nr_outs};
ghost use Rattle.lapd_table.specs.declared.link_id.LinkId.{LinkId};
ghost use Rattle.lapd_sides_links.specs.Effects.{restart_outs, timed, stopped};
ghost use Rattle.lapd_sides_links.specs.Expiries.{IsFirst, IsPast, Runs};
ghost use Rattle.lapd_sides_links.specs.LinkTimers.{timers_of};
ghost use Rattle.lapd_sides_links.specs.Places.{AreStopped, HasSlot, IsKept};
ghost use Rattle.lapd_sides_links.specs.TimersAtPlaces.{of_each_link};

use crate::RunningTimer;
use crate::lone_timers::LoneTimers;
use crate::many_timers::ManyTimers;
use lapd_link::{NrEffect, Out, SendEffect};
use lapd_table::LinkId;
use lapd_timers::{Durations, Timer, TimerSet};
use std::alloc::{AllocError, Global};

/// The timers of the links of a side. Finds the timer that expires first without a search. The
/// only link needs no allocation; from the second one on, room is allocated with each.
#[derive(Drop)]
pub enum LinkTimers {
    /// No link has timers.
    Empty,
    /// One link has timers.
    One(LoneTimers),
    /// Several links may have timers.
    Many(ManyTimers),
}

#[tactic(auto, unfolding(crate::specs::LinkTimers::timers_of))]
impl LinkTimers {
    /// Makes room for the timers of a link of SAPI 0 or 16 and TEI 0 to 126, if there is none yet.
    /// The timers of links that have room are unchanged, and no others run.
    ///
    /// # Errors
    ///
    /// `AllocError` if an allocation failed.
    pub fn make_room(&mut self, alloc: Global, id: &LinkId) -> Result<(), AllocError>
        requires { HasSlot id.now }
        ensures room { OnOk result (is_some (timers_of self.new id.now) ≡ true) }
        ensures kept { (other : LinkId)
            → IsKept (timers_of self.old other) (timers_of self.new other) }
    {
        match self {
            LinkTimers::Empty => {
                *self = LinkTimers::One(LoneTimers::new(id, Durations::standard()));
            }
            LinkTimers::One(lone) => {
                if !lone.is_of(id) {
                    *self = LinkTimers::Many(ManyTimers::of_two(alloc, lone, id)?);
                }
            }
            LinkTimers::Many(many) => many.make_room(id)?,
        }
        Ok(())
    }

    /// Stops all timers of one link and sets their durations.
    pub fn reset(&mut self, id: &LinkId, durations: Durations)
        ensures own { timers_of self.new id.now ≡ option_map (λ _. all_stopped durations)
            (timers_of self.old id.now) }
        ensures others { (other : LinkId) → other ≢ id.now
            → timers_of self.new other ≡ timers_of self.old other }
    {
        match self {
            LinkTimers::Empty => {}
            LinkTimers::One(lone) => lone.reset(id, durations),
            LinkTimers::Many(many) => many.set(id, TimerSet::new(durations)),
        }
    }

    /// Stops all timers of one link. Another link can use the room of the only one.
    pub fn stop_all(&mut self, id: &LinkId)
        ensures own { IfSome (timers_of self.new id.now) AreStopped }
        ensures others { (other : LinkId) → other ≢ id.now
            → timers_of self.new other ≡ timers_of self.old other }
    {
        match self {
            LinkTimers::Empty => {}
            LinkTimers::One(lone) => {
                if lone.is_of(id) {
                    *self = LinkTimers::Empty;
                }
            }
            LinkTimers::Many(many) => many.stop_all(id),
        }
    }

    /// Sets the durations of all timers. Running timers keep their deadlines.
    pub fn set_durations(&mut self, durations: Durations)
        ensures { (id : LinkId) → timers_of self.new id
            ≡ option_map (with_durations durations) (timers_of self.old id) }
    {
        match self {
            LinkTimers::Empty => {}
            LinkTimers::One(lone) => lone.set_durations(durations),
            LinkTimers::Many(many) => many.set_durations(durations),
        }
    }

    /// The timers of the link with this id; `None` if there is no room for any.
    pub fn get(&self, id: &LinkId) -> Option<&TimerSet>
        ensures { option_copied result ≡ timers_of self.now id.now }
    {
        match self {
            LinkTimers::Empty => None,
            LinkTimers::One(lone) => lone.get(id),
            LinkTimers::Many(many) => many.get(id),
        }
    }

    /// Starts and stops the timers of one link according to these outputs.
    pub fn apply_outputs(&mut self, id: &LinkId, outs: &[Out], now: u64)
        ensures own { timers_of self.new id.now
            ≡ option_map (timed now outs.now) (timers_of self.old id.now) }
        ensures others { (other : LinkId) → other ≢ id.now
            → timers_of self.new other ≡ timers_of self.old other }
    {
        match self {
            LinkTimers::Empty => {}
            LinkTimers::One(lone) => lone.apply_outputs(id, outs, now),
            LinkTimers::Many(many) => many.apply_outputs(id, outs, now),
        }
    }

    /// Starts and stops the timers of one link according to an N(R) of a predicted step.
    #[inline(always)]
    pub fn apply_nr(&mut self, id: &LinkId, nr: NrEffect, now: u64)
        ensures own { timers_of self.new id.now
            ≡ option_map (timed now (nr_outs nr)) (timers_of self.old id.now) }
        ensures others { (other : LinkId) → other ≢ id.now
            → timers_of self.new other ≡ timers_of self.old other }
    {
        match nr {
            NrEffect::All { count: _, stops } => {
                self.restart(id, stops, Timer::T200, Timer::T203, now);
            }
            NrEffect::Part { count: _ } => {
                self.restart(id, false, Timer::T203, Timer::T200, now);
            }
            NrEffect::Nothing => {}
        }
    }

    /// Starts and stops the timers of one link after an I frame that was sent at once.
    #[inline(always)]
    pub fn apply_send(&mut self, id: &LinkId, effect: SendEffect, now: u64)
        ensures own { timers_of self.new id.now
            ≡ option_map (timed now (send_outs effect)) (timers_of self.old id.now) }
        ensures others { (other : LinkId) → other ≢ id.now
            → timers_of self.new other ≡ timers_of self.old other }
    {
        match effect {
            SendEffect::Starts { stops } => {
                self.restart(id, stops, Timer::T203, Timer::T200, now);
            }
            SendEffect::Nothing => {}
        }
    }

    /// Starts a timer of one link, and stops another one first if `stops`.
    #[inline(always)]
    fn restart(&mut self, id: &LinkId, stops: bool, stop: Timer, start: Timer, now: u64)
        ensures own { timers_of self.new id.now
            ≡ option_map (timed now (restart_outs stops stop start)) (timers_of self.old id.now) }
        ensures others { (other : LinkId) → other ≢ id.now
            → timers_of self.new other ≡ timers_of self.old other }
    {
        match self {
            LinkTimers::Empty => {}
            LinkTimers::One(lone) => lone.restart(id, stops, stop, start, now),
            LinkTimers::Many(many) => many.restart(*id, stops, stop, start, now),
        }
    }

    /// Stops a timer of one link.
    pub fn stop(&mut self, id: &LinkId, timer: Timer)
        ensures own { timers_of self.new id.now
            ≡ option_map (stopped timer) (timers_of self.old id.now) }
        ensures others { (other : LinkId) → other ≢ id.now
            → timers_of self.new other ≡ timers_of self.old other }
    {
        match self {
            LinkTimers::Empty => {}
            LinkTimers::One(lone) => lone.stop(id, timer),
            LinkTimers::Many(many) => many.stop(id, timer),
        }
    }

    /// The timer that expires first, of all running timers of links.
    #[inline(always)]
    pub fn first(&self) -> Option<RunningTimer>
        ensures { IsFirst (Runs (of_each_link (timers_of self.now))) result }
    {
        match self {
            LinkTimers::Empty => None,
            LinkTimers::One(lone) => lone.first(),
            LinkTimers::Many(many) => many.first(),
        }
    }

    /// The timer that expires first, if it is due at the time `now`.
    pub fn due(&self, now: u64) -> Option<RunningTimer>
        ensures { IsFirst (IsPast now (of_each_link (timers_of self.now))) result }
    {
        let first = self.first()?;
        if first.deadline <= now {
            Some(first)
        } else {
            None
        }
    }
}
