//! The timers of the links of a side with several links.

ghost use Rattle.std.specs.Prelude.{◌≡◌, ◌≢◌, ℕ, ◌<◌, ◌≤◌, None, Some, true, is_some, option_map, option_copied, IfOk, IfSome, OnOk};
ghost use Rattle.lapd_timers.specs.Due.{all_stopped, with_durations};
ghost use Rattle.lapd_table.specs.declared.link_id.LinkId.{LinkId};
ghost use Rattle.lapd_sides_links.specs.declared.tournament.TheConstants.{PLACES};
ghost use Rattle.lapd_sides_links.specs.Effects.{restart_outs, timed, stopped};
ghost use Rattle.lapd_sides_links.specs.Expiries.{IsFirst, Runs};
ghost use Rattle.lapd_sides_links.specs.Places.{HasSlot, IsKept};
ghost use Rattle.lapd_sides_links.specs.TimersAtPlaces.{alone, placed, of_places, entry_place, RunsForPlaced};
ghost use Rattle.lapd_sides_links.specs.Tournament.{entry};

use crate::RunningTimer;
use crate::lone_timers::LoneTimers;
use crate::running_timer::first_of_link;
use crate::timer_places::TimerPlaces;
use crate::tournament::Tournament;
use lapd_link::{Out, Sapi};
use lapd_table::LinkId;
use lapd_timers::{Durations, Timer, TimerSet};
use std::alloc::{AllocError, Global};
use std::marker::Model;

/// The timers of the links of a side, in a slot for each link. Finds the timer that expires first
/// without a search.
#[derive(Drop)]
pub struct ManyTimers {
    places: TimerPlaces,
    /// For each link's slot, the link's earliest running timer.
    expiries: Tournament,
}

impl Model for ManyTimers {
    ghost use Rattle.lapd_sides_links.specs.declared.timer_places.TimerPlaces.{TimerPlaces};
    ghost use Rattle.lapd_sides_links.specs.TimersAtPlaces.{AreEntered};

    ghost Value = { TimerPlaces };

    ghost view = { λ s. s.places };

    ghost invariant = { λ s. AreEntered s.places s.expiries };
}

impl ManyTimers {
    /// No timers, and no slots for any yet.
    ///
    /// # Errors
    ///
    /// `AllocError` if an allocation failed.
    fn new(alloc: Global) -> Result<ManyTimers, AllocError>
        ensures { IfOk result (λ s. (id : LinkId) → placed s id ≡ None) }
    {
        Ok(ManyTimers {
            places: TimerPlaces::new(alloc),
            expiries: Tournament::new(alloc)?,
        })
    }

    /// The timers of this link, with room for those of another one.
    ///
    /// # Errors
    ///
    /// `AllocError` if an allocation failed.
    pub fn of_two(alloc: Global, lone: &LoneTimers, id: &LinkId) -> Result<ManyTimers, AllocError>
        requires { HasSlot id.now }
        ensures room { IfOk result (λ s. is_some (placed s id.now) ≡ true) }
        ensures kept { IfOk result (λ s. (other : LinkId)
            → IsKept (alone lone.now other) (placed s other)) }
    {
        let mut many = ManyTimers::of_lone(alloc, lone)?;
        many.make_room(id)?;
        Ok(many)
    }

    /// The timers of this link.
    fn of_lone(alloc: Global, lone: &LoneTimers) -> Result<ManyTimers, AllocError>
        ensures { IfOk result (λ s. (id : LinkId) → IsKept (alone lone.now id) (placed s id)) }
    {
        let mut many = ManyTimers::new(alloc)?;
        let id = lone.id();
        many.make_room(&id)?;
        many.set(&id, lone.timers());
        Ok(many)
    }

    /// Makes room for the timers of a link, with none running.
    ///
    /// # Errors
    ///
    /// `AllocError` if an allocation failed.
    pub fn make_room(&mut self, id: &LinkId) -> Result<(), AllocError>
        requires { HasSlot id.now }
        ensures room { OnOk result (is_some (placed self.new id.now) ≡ true) }
        ensures kept { (other : LinkId) → IsKept (placed self.old other) (placed self.new other) }
    {
        self.places.make_room(id)
    }

    /// Sets the timers of one link.
    pub fn set(&mut self, id: &LinkId, timers: TimerSet)
        ensures own { placed self.new id.now ≡ option_map (λ _. timers) (placed self.old id.now) }
        ensures others { (other : LinkId) → other ≢ id.now
            → placed self.new other ≡ placed self.old other }
    {
        self.places.set(id, timers);
        enter(&mut self.expiries, id, self.places.get(id));
    }

    /// Stops all timers of one link.
    pub fn stop_all(&mut self, id: &LinkId)
        ensures own { placed self.new id.now
            ≡ option_map (λ timers. all_stopped timers.durations) (placed self.old id.now) }
        ensures others { (other : LinkId) → other ≢ id.now
            → placed self.new other ≡ placed self.old other }
    {
        self.places.stop_all(id);
        enter(&mut self.expiries, id, self.places.get(id));
    }

    /// Sets the durations of all timers. Running timers keep their deadlines, so each link's
    /// earliest one stays.
    pub fn set_durations(&mut self, durations: Durations)
        ensures { (id : LinkId) → placed self.new id
            ≡ option_map (with_durations durations) (placed self.old id) }
    {
        self.places.set_durations(durations);
    }

    /// The timers of the link with this id; `None` if it cannot have any.
    pub fn get(&self, id: &LinkId) -> Option<&TimerSet>
        ensures { option_copied result ≡ placed self.now id.now }
    {
        self.places.get(id)
    }

    /// Starts and stops the timers of one link according to these outputs.
    pub fn apply_outputs(&mut self, id: &LinkId, outs: &[Out], now: u64)
        ensures own { placed self.new id.now
            ≡ option_map (timed now outs.now) (placed self.old id.now) }
        ensures others { (other : LinkId) → other ≢ id.now
            → placed self.new other ≡ placed self.old other }
    {
        self.places.apply_outputs(id, outs, now);
        enter(&mut self.expiries, id, self.places.get(id));
    }

    /// Starts a timer of one link, and stops another one first if `stops`.
    // A call of its own, with the id by value: otherwise the step of an only link would save
    // registers for it, and write the id to memory.
    #[inline(never)]
    pub fn restart(&mut self, id: LinkId, stops: bool, stop: Timer, start: Timer, now: u64)
        ensures own { placed self.new id
            ≡ option_map (timed now (restart_outs stops stop start)) (placed self.old id) }
        ensures others { (other : LinkId) → other ≢ id
            → placed self.new other ≡ placed self.old other }
    {
        self.places.restart(&id, stops, stop, start, now);
        enter(&mut self.expiries, &id, self.places.get(&id));
    }

    /// Stops a timer of one link.
    pub fn stop(&mut self, id: &LinkId, timer: Timer)
        ensures own { placed self.new id.now
            ≡ option_map (stopped timer) (placed self.old id.now) }
        ensures others { (other : LinkId) → other ≢ id.now
            → placed self.new other ≡ placed self.old other }
    {
        self.places.stop(id, timer);
        enter(&mut self.expiries, id, self.places.get(id));
    }

    /// The timer that expires first, of all running timers of links.
    #[inline(always)]
    pub fn first(&self) -> Option<RunningTimer>
        ensures { IsFirst (Runs (of_places self.now)) result }
    {
        self.expiries.first()
    }
}

/// Enters the link's earliest running timer, if any, into the tournament, if the link has a slot.
fn enter(expiries: &mut Tournament, id: &LinkId, timers: Option<&TimerSet>)
    ensures own { (at : ℕ) → entry_place id.now.sapi id.now.tei ≡ Some at
        → IsFirst (RunsForPlaced id.now (option_copied timers.entry)) (entry expiries.new at) }
    ensures others { (at : ℕ) → entry_place id.now.sapi id.now.tei ≢ Some at
        → entry expiries.new at ≡ entry expiries.old at }
    ensures tei { id.now.tei ≤ 127 }
{
    if let Some(place) = entry_place(id) {
        expiries.enter(place, first_of_slot(id, timers));
    }
}

/// The earliest running timer of one link; `None` if none runs or the link has no slot.
#[inline(always)]
fn first_of_slot(id: &LinkId, timers: Option<&TimerSet>) -> Option<RunningTimer>
    ensures { IsFirst (RunsForPlaced id.now (option_copied timers.entry)) result }
{
    let Some(timers) = timers else {
        return None;
    };
    first_of_link(id, timers)
}

/// The tournament slot of the link with this id: first those of SAPI 0 by TEI, then those of SAPI
/// 16.
#[inline(always)]
fn entry_place(id: &LinkId) -> Option<usize>
    ensures place { result ≡ entry_place id.now.sapi id.now.tei }
    ensures within { IfSome result (λ place. place < PLACES) }
    ensures tei { id.now.tei ≤ 127 }
{
    let tei = usize::from(id.tei.value());
    match id.sapi {
        Sapi::Call => Some(tei),
        Sapi::Packet => Some(128 + tei),
        Sapi::Management => None,
    }
}
