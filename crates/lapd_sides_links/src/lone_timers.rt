//! The timers of the only link of a side.

ghost use Rattle.std.specs.Prelude.{◌≡◌, ◌≢◌, None, Some, option_map, option_copied};
ghost use Rattle.lapd_timers.specs.Due.{all_stopped, with_durations};
ghost use Rattle.lapd_table.specs.declared.link_id.LinkId.{LinkId};
ghost use Rattle.lapd_table.specs.LinkId.{id_eq};
ghost use Rattle.lapd_sides_links.specs.Effects.{restart_outs, timed, stopped};
ghost use Rattle.lapd_sides_links.specs.Expiries.{IsFirst, Runs};
ghost use Rattle.lapd_sides_links.specs.Places.{HasSlot};

use crate::RunningTimer;
use crate::delivery::apply_outputs;
use crate::running_timer::first_of_link;
use crate::timer_places::restart;
use lapd_link::Out;
use lapd_table::LinkId;
use lapd_timers::{Durations, Timer, TimerSet};

/// The timers of the only link of a side. They need no list, and the one that expires first is one
/// of two.
#[derive(Drop)]
pub struct LoneTimers {
    id: LinkId,
    timers: TimerSet,
    ghost slot: { HasSlot id },
}

#[tactic(auto, using(crate::proofs::LoneTimers::others_of_lone), unfolding(crate::specs::TimersAtPlaces::alone))]
impl LoneTimers {
    ghost use Rattle.lapd_sides_links.specs.TimersAtPlaces.{alone, of_each_link};

    /// The timers of this link, with none running.
    pub fn new(id: &LinkId, durations: Durations) -> LoneTimers
        requires { HasSlot id.now }
        ensures own { alone result id.now ≡ Some (all_stopped durations) }
        ensures others { (other : LinkId) → other ≢ id.now → alone result other ≡ None }
    {
        LoneTimers {
            id: *id,
            timers: TimerSet::new(durations),
        }
    }

    /// Whether these are the timers of this link.
    #[inline(always)]
    pub fn is_of(&self, id: &LinkId) -> bool
        ensures { result ≡ id_eq id.now self.now.id }
    {
        *id == self.id
    }

    /// The link.
    pub fn id(&self) -> LinkId
        ensures same { result ≡ self.now.id }
        ensures slot { HasSlot result }
    {
        self.id
    }

    /// Its timers.
    pub fn timers(&self) -> TimerSet
        ensures { result ≡ self.now.timers }
    {
        self.timers
    }

    /// Stops all timers of one link and sets their durations.
    pub fn reset(&mut self, id: &LinkId, durations: Durations)
        ensures own { alone self.new id.now ≡ option_map (λ _. all_stopped durations)
            (alone self.old id.now) }
        ensures others { (other : LinkId) → other ≢ id.now
            → alone self.new other ≡ alone self.old other }
    {
        if self.is_of(id) {
            self.timers = TimerSet::new(durations);
        }
    }

    /// Sets the durations of all timers. Running timers keep their deadlines.
    pub fn set_durations(&mut self, durations: Durations)
        ensures { (id : LinkId) → alone self.new id
            ≡ option_map (with_durations durations) (alone self.old id) }
    {
        self.timers.set_durations(durations);
    }

    /// The timers of the link with this id, if these are its.
    #[inline(always)]
    pub fn get(&self, id: &LinkId) -> Option<&TimerSet>
        ensures { option_copied result ≡ alone self.now id.now }
    {
        if self.is_of(id) {
            Some(&self.timers)
        } else {
            None
        }
    }

    /// Starts and stops the timers of one link according to these outputs.
    pub fn apply_outputs(&mut self, id: &LinkId, outs: &[Out], now: u64)
        ensures own { alone self.new id.now ≡ option_map (timed now outs.now)
            (alone self.old id.now) }
        ensures others { (other : LinkId) → other ≢ id.now
            → alone self.new other ≡ alone self.old other }
    {
        if self.is_of(id) {
            apply_outputs(&mut self.timers, outs, now);
        }
    }

    /// Starts a timer of one link, and stops another one first if `stops`.
    #[inline(always)]
    pub fn restart(&mut self, id: &LinkId, stops: bool, stop: Timer, start: Timer, now: u64)
        ensures own { alone self.new id.now
            ≡ option_map (timed now (restart_outs stops stop start)) (alone self.old id.now) }
        ensures others { (other : LinkId) → other ≢ id.now
            → alone self.new other ≡ alone self.old other }
    {
        if self.is_of(id) {
            restart(&mut self.timers, stops, stop, start, now);
        }
    }

    /// Stops a timer of one link.
    pub fn stop(&mut self, id: &LinkId, timer: Timer)
        ensures own { alone self.new id.now ≡ option_map (stopped timer) (alone self.old id.now) }
        ensures others { (other : LinkId) → other ≢ id.now
            → alone self.new other ≡ alone self.old other }
    {
        if self.is_of(id) {
            self.timers.stop(timer);
        }
    }

    /// The timer that expires first, if one runs.
    #[inline(always)]
    pub fn first(&self) -> Option<RunningTimer>
        ensures { IsFirst (Runs (of_each_link (alone self.now))) result }
    {
        first_of_link(&self.id, &self.timers)
    }
}
