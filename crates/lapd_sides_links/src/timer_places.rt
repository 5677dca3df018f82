//! Storage for the timers of the links of a side.

ghost use Rattle.std.specs.Prelude.{◌≡◌, ◌≢◌, ◌<◌, ◌≤◌, ℕ, None, true, length, map, is_some, slice_get, option_map, option_copied, OnOk};
ghost use Rattle.lapd_timers.specs.Due.{all_stopped, with_durations};
ghost use Rattle.lapd_table.specs.declared.link_id.LinkId.{LinkId};
ghost use Rattle.lapd_sides_links.specs.Effects.{restart_outs, timed, stopped};
ghost use Rattle.lapd_sides_links.specs.Places.{HasPlaces, HasSlot, IsKept};

use crate::delivery::apply_outputs;
use lapd_link::{Out, Sapi};
use lapd_table::LinkId;
use lapd_timers::{Durations, Timer, TimerSet};
use std::alloc::{AllocError, Global};

/// Slots for the timers of links of SAPI 0 and SAPI 16, by TEI, whether or not the link exists: up
/// to the highest TEI for which room was made.
#[derive(Drop)]
pub struct TimerPlaces {
    call: Vec<TimerSet>,
    packet: Vec<TimerSet>,
    ghost room: { HasPlaces call.items packet.items },
}

#[tactic(auto, unfolding(crate::specs::TimersAtPlaces::placed))]
impl TimerPlaces {
    ghost use Rattle.lapd_sides_links.specs.TimersAtPlaces.{placed};

    /// No slots yet.
    pub fn new(alloc: Global) -> TimerPlaces
        ensures { (id : LinkId) → placed result id ≡ None }
    {
        TimerPlaces {
            call: Vec::new(alloc),
            packet: Vec::new(alloc),
        }
    }

    /// Makes a slot for a link, and for those of lower TEIs, with no timer running.
    ///
    /// # Errors
    ///
    /// `AllocError` if an allocation failed.
    pub fn make_room(&mut self, id: &LinkId) -> Result<(), AllocError>
        requires { HasSlot id.now }
        ensures room { OnOk result (is_some (placed self.new id.now) ≡ true) }
        ensures kept { (other : LinkId) → IsKept (placed self.old other) (placed self.new other) }
    {
        let tei = usize::from(id.tei.value());
        match id.sapi {
            Sapi::Call => grow(&mut self.call, tei),
            Sapi::Packet => grow(&mut self.packet, tei),
            Sapi::Management => unreachable!(),
        }
    }

    /// Sets the timers of one link.
    pub fn set(&mut self, id: &LinkId, timers: TimerSet)
        ensures own { placed self.new id.now ≡ option_map (λ _. timers) (placed self.old id.now) }
        ensures others { (other : LinkId) → other ≢ id.now
            → placed self.new other ≡ placed self.old other }
    {
        let tei = usize::from(id.tei.value());
        match id.sapi {
            Sapi::Call if tei < self.call.len() => set(&mut self.call[tei], timers),
            Sapi::Packet if tei < self.packet.len() => set(&mut self.packet[tei], timers),
            _ => {}
        }
    }

    /// Stops all timers of one link.
    pub fn stop_all(&mut self, id: &LinkId)
        ensures own { placed self.new id.now ≡ option_map (λ timers. all_stopped timers.durations)
            (placed self.old id.now) }
        ensures others { (other : LinkId) → other ≢ id.now
            → placed self.new other ≡ placed self.old other }
    {
        let tei = usize::from(id.tei.value());
        match id.sapi {
            Sapi::Call if tei < self.call.len() => stop_all(&mut self.call[tei]),
            Sapi::Packet if tei < self.packet.len() => stop_all(&mut self.packet[tei]),
            _ => {}
        }
    }

    /// Sets the durations of all timers. Running timers keep their deadlines.
    pub fn set_durations(&mut self, durations: Durations)
        ensures { (id : LinkId) → placed self.new id
            ≡ option_map (with_durations durations) (placed self.old id) }
    {
        set_each(self.call.as_mut_slice(), durations);
        set_each(self.packet.as_mut_slice(), durations);
    }

    /// The timers of the link with this id; `None` if it cannot have any.
    pub fn get(&self, id: &LinkId) -> Option<&TimerSet>
        ensures { option_copied result ≡ placed self.now id.now }
    {
        let tei = usize::from(id.tei.value());
        match id.sapi {
            Sapi::Call => self.call.get(tei),
            Sapi::Packet => self.packet.get(tei),
            Sapi::Management => None,
        }
    }

    /// Starts and stops the timers of one link according to these outputs.
    pub fn apply_outputs(&mut self, id: &LinkId, outs: &[Out], now: u64)
        ensures own { placed self.new id.now ≡ option_map (timed now outs.now)
            (placed self.old id.now) }
        ensures others { (other : LinkId) → other ≢ id.now
            → placed self.new other ≡ placed self.old other }
    {
        let tei = usize::from(id.tei.value());
        match id.sapi {
            Sapi::Call if tei < self.call.len() => apply_outputs(&mut self.call[tei], outs, now),
            Sapi::Packet if tei < self.packet.len() => apply_outputs(
                &mut self.packet[tei],
                outs,
                now,
            ),
            _ => {}
        }
    }

    /// Starts a timer of one link, and stops another one first if `stops`.
    #[inline(always)]
    pub fn restart(&mut self, id: &LinkId, stops: bool, stop: Timer, start: Timer, now: u64)
        ensures own { placed self.new id.now
            ≡ option_map (timed now (restart_outs stops stop start)) (placed self.old id.now) }
        ensures others { (other : LinkId) → other ≢ id.now
            → placed self.new other ≡ placed self.old other }
    {
        let tei = usize::from(id.tei.value());
        match id.sapi {
            Sapi::Call if tei < self.call.len() => {
                restart(&mut self.call[tei], stops, stop, start, now);
            }
            Sapi::Packet if tei < self.packet.len() => {
                restart(&mut self.packet[tei], stops, stop, start, now);
            }
            _ => {}
        }
    }

    /// Stops a timer of one link.
    pub fn stop(&mut self, id: &LinkId, timer: Timer)
        ensures own { placed self.new id.now ≡ option_map (stopped timer) (placed self.old id.now) }
        ensures others { (other : LinkId) → other ≢ id.now
            → placed self.new other ≡ placed self.old other }
    {
        let tei = usize::from(id.tei.value());
        match id.sapi {
            Sapi::Call if tei < self.call.len() => self.call[tei].stop(timer),
            Sapi::Packet if tei < self.packet.len() => self.packet[tei].stop(timer),
            _ => {}
        }
    }
}

/// Makes slots up to this TEI, with no timer running.
fn grow(slots: &mut Vec<TimerSet>, tei: usize) -> Result<(), AllocError>
    requires { tei < 127 }
    ensures room { OnOk result (tei < length slots.new.items) }
    ensures most { length slots.old.items ≤ 127 → length slots.new.items ≤ 127 }
    ensures kept { (at : ℕ)
        → IsKept (slice_get slots.old.items at) (slice_get slots.new.items at) }
{
    if tei < slots.len() {
        return Ok(());
    }
    slots.resize(tei + 1, TimerSet::new(Durations::standard()))
}

/// Sets the timers in a slot.
fn set(slot: &mut TimerSet, timers: TimerSet)
    ensures { slot.new ≡ timers }
{
    *slot = timers;
}

/// Sets the durations of each of these.
fn set_each(all: &mut [TimerSet], durations: Durations)
    ensures { all.new ≡ map (with_durations durations) all.old }
{
    for timers in all.iter_mut() {
        timers.set_durations(durations);
    }
}

/// Stops all timers.
fn stop_all(timers: &mut TimerSet)
    ensures { timers.new ≡ all_stopped timers.old.durations }
{
    *timers = TimerSet::new(timers.durations());
}

/// Starts a timer, and stops another one first if `stops`.
#[inline(always)]
pub fn restart(timers: &mut TimerSet, stops: bool, stop: Timer, start: Timer, now: u64)
    ensures { timers.new ≡ timed now (restart_outs stops stop start) timers.old }
{
    if stops {
        timers.stop(stop);
    }
    timers.start(start, now);
}
