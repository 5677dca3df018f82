//! A side together with its results that wait to be fetched.

ghost use Rattle.std.specs.Prelude.{◌≡◌, ◌<◌, length, slice_get, option_copied, false, IfOk, OnOk, OnErr};
ghost use Rattle.lapd_sides_links.specs.Effects.{no_effects};
ghost use Rattle.lapd_sides_links.specs.Rooms.{HasRoomForPredicted};
ghost use Rattle.lapd_sides.specs.Either.{Answers, Gives, SetsDurations, Takes};
ghost use Rattle.lapd_sides.specs.Queued.{waiting, gives_nothing, without_first_frame, without_first_primitive, KeepsWaiting, LacksRoom, Queues, QueuesOrLacks, Ticks};

use crate::backlog::Backlog;
use crate::links_and_timer::without_message;
use crate::{Acts, Durations, EitherSide, LinkId, Primitive, Request, SideFault, SideKind};
use lapd_sides_links::AtOnce;
use std::alloc::{AllocError, Global};

/// A side of either kind, whose results wait in order until they are fetched, one by one, for a
/// program that calls again before it has fetched all. The results of a call are appended to those
/// that wait. Its calls are those of [`EitherSide`].
#[derive(Drop)]
pub struct QueuedSide {
    /// The last results.
    acts: Acts,
    /// The earlier results.
    backlog: Backlog,
    // The side is last, because most of it is not touched by most calls.
    side: EitherSide,
}

impl QueuedSide {
    /// Holds a side, without results.
    ///
    /// # Errors
    ///
    /// `AllocError` if an allocation failed.
    pub fn new(alloc: Global, side: EitherSide) -> Result<QueuedSide, AllocError>
        ensures { IfOk result (λ queued. queued ≡ record {
          side = side;
          acts = no_effects;
          backlog = no_effects;
        }) }
    {
        Ok(QueuedSide {
            side,
            acts: Acts::new(alloc)?,
            backlog: Backlog::new(alloc),
        })
    }

    /// The side.
    #[inline(always)]
    pub fn side(&self) -> &EitherSide
        ensures { result.now ≡ self.now.side }
    {
        &self.side
    }

    /// The results of the last call, if [`QueuedSide::set_aside`] was called before it.
    #[inline(always)]
    pub fn last(&self) -> &Acts
        ensures { result.now ≡ self.now.acts }
    {
        &self.acts
    }

    /// Moves all results to the earlier ones. No other call needs it.
    ///
    /// # Errors
    ///
    /// `AllocError` if an allocation failed. Nothing is changed.
    #[inline(always)]
    pub fn set_aside(&mut self) -> Result<(), AllocError>
        ensures ok { OnOk result (self.new ≡ record self.old {
          backlog = waiting self.old;
          acts = no_effects;
        }) }
        ensures lacks { OnErr result (LacksRoom self.old self.new) }
    {
        if self.acts.frames().is_empty() && self.acts.primitives().is_empty() {
            return Ok(());
        }
        self.backlog.append(&mut self.acts)
    }

    /// Processes octets received from the line at the time `now`, in milliseconds.
    ///
    /// # Errors
    ///
    /// B3 as [`EitherSide::take`], or if the waiting results cannot be moved: then nothing is
    /// changed.
    #[inline(always)]
    pub fn take(&mut self, octets: &[u8], now: u64) -> Result<(), SideFault>
        ensures { QueuesOrLacks (Takes octets.now now) result self.old self.new }
    {
        if self.acts.has_room() && self.side.take_predicted(octets, now, &mut self.acts) {
            return Ok(());
        }
        self.take_any(octets, now)
    }

    /// Processes any octets, predicted or not.
    // If inlined, it would cost a predicted frame stack and registers.
    #[inline(never)]
    fn take_any(&mut self, octets: &[u8], now: u64) -> Result<(), SideFault>
        ensures { QueuesOrLacks (Takes octets.now now) result self.old self.new }
    {
        match self.set_aside() {
            Ok(()) => self.side.take_any(octets, now, &mut self.acts),
            Err(AllocError) => Err(without_message(SideKind::Memory)),
        }
    }

    /// Executes a request at the time `now`, in milliseconds.
    ///
    /// # Errors
    ///
    /// B1 and L1 to L5 as [`EitherSide::request`], with the message. B3, without it, if the waiting
    /// results cannot be moved: then nothing is changed.
    pub fn request(&mut self, request: Request, now: u64) -> Result<(), SideFault>
        ensures { QueuesOrLacks (Answers request now) result self.old self.new }
    {
        match self.set_aside() {
            Ok(()) => self.side.request(request, now, &mut self.acts),
            Err(AllocError) => Err(without_message(SideKind::Memory)),
        }
    }

    /// Submits a copy of these octets to a link as a layer 3 message, at the time `now`, in
    /// milliseconds.
    ///
    /// # Errors
    ///
    /// B1 and L1 to L5 as [`EitherSide::give`], with the copy. B3 if it cannot be allocated, or the
    /// waiting results cannot be moved: then nothing is changed.
    #[inline(always)]
    pub fn give(&mut self, id: LinkId, octets: &[u8], now: u64) -> Result<(), SideFault>
        ensures { QueuesOrLacks (Gives id octets.now now) result self.old self.new }
    {
        match self.make_room() {
            Ok(()) => self.give_with_room(id, octets, now),
            Err(AllocError) => Err(without_message(SideKind::Memory)),
        }
    }

    /// Sets the waiting results aside, unless there is room for more.
    ///
    /// # Errors
    ///
    /// `AllocError` if an allocation failed. Nothing is changed.
    #[inline(always)]
    fn make_room(&mut self) -> Result<(), AllocError>
        ensures room { OnOk result (HasRoomForPredicted self.new.acts) }
        ensures kept { OnOk result (KeepsWaiting self.old self.new) }
        ensures lacks { OnErr result (LacksRoom self.old self.new) }
    {
        if self.acts.has_room() {
            return Ok(());
        }
        self.set_aside()
    }

    /// Like `give`, with room for the results of a message that is sent at once.
    #[inline(always)]
    fn give_with_room(&mut self, id: LinkId, octets: &[u8], now: u64) -> Result<(), SideFault>
        requires room { HasRoomForPredicted self.old.acts }
        ensures { QueuesOrLacks (Gives id octets.now now) result self.old self.new }
    {
        match self.side.send_at_once(&id, octets, now, &mut self.acts) {
            AtOnce::Sent => Ok(()),
            AtOnce::Unsent(message) => self.request(Request::Give(id, message), now),
            AtOnce::NoMemory => Err(without_message(SideKind::Memory)),
        }
    }

    /// Expires the first timer that is due at `now`, in milliseconds. Returns `false` if none is
    /// due, as [`EitherSide::tick`] does.
    ///
    /// # Errors
    ///
    /// `AllocError` if the waiting results cannot be moved. Nothing is changed.
    pub fn tick(&mut self, now: u64) -> Result<bool, AllocError>
        ensures ticked { IfOk result (λ is_due. Queues (Ticks now is_due) self.old self.new) }
        ensures lacks { OnErr result (LacksRoom self.old self.new) }
    {
        self.set_aside()?;
        Ok(self.side.tick(now, &mut self.acts))
    }

    /// Sets how long timers run when they are started from then on.
    pub fn set_durations(&mut self, durations: Durations)
        ensures set { SetsDurations durations self.old.side self.new.side }
        ensures waits { waiting self.new ≡ waiting self.old }
    {
        self.side.set_durations(durations);
    }

    /// How many frames wait.
    #[inline(always)]
    pub fn frames_waiting(&self) -> usize
        ensures { result ≡ length (waiting self.now).frames }
    {
        self.backlog.frames().len() + self.acts.frames().len()
    }

    /// How many primitives wait.
    #[inline(always)]
    pub fn primitives_waiting(&self) -> usize
        ensures { result ≡ length (waiting self.now).primitives }
    {
        self.backlog.primitives().len() + self.acts.primitives().len()
    }

    /// The first waiting frame, as octets, 3 to 264.
    #[inline(always)]
    pub fn first_frame(&self) -> Option<&[u8]>
        ensures { option_copied result ≡ slice_get (waiting self.now).frames 0 }
    {
        match self.backlog.frames().first() {
            Some(frame) => Some(frame.as_slice()),
            None => match self.acts.frames().first() {
                Some(frame) => Some(frame.as_slice()),
                None => None,
            },
        }
    }

    /// The first waiting primitive.
    #[inline(always)]
    pub fn first_primitive(&self) -> Option<&Primitive>
        ensures { option_copied result ≡ slice_get (waiting self.now).primitives 0 }
    {
        match self.backlog.primitives().first() {
            Some(primitive) => Some(primitive),
            None => self.acts.primitives().first(),
        }
    }

    /// Removes the first waiting frame.
    #[inline(always)]
    pub fn remove_frame(&mut self)
        requires { 0 < length (waiting self.old).frames }
        ensures waits { waiting self.new ≡ without_first_frame (waiting self.old) }
        ensures side { self.new.side ≡ self.old.side }
    {
        if self.backlog.frames().is_empty() {
            self.acts.remove_frame();
        } else {
            self.backlog.remove_frame();
        }
    }

    /// Removes the first waiting primitive.
    #[inline(always)]
    pub fn remove_primitive(&mut self)
        requires { 0 < length (waiting self.old).primitives }
        ensures waits { waiting self.new ≡ without_first_primitive (waiting self.old) }
        ensures side { self.new.side ≡ self.old.side }
    {
        if self.backlog.primitives().is_empty() {
            self.acts.remove_primitive();
        } else {
            self.backlog.remove_primitive();
        }
    }
}
