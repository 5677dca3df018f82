ghost use Rattle.std.specs.Prelude.{◌≡◌, ◌<◌, ◌≤◌, length, drop, map, OnOk, OnErr};
ghost use Rattle.lapd_sides_links.specs.Effects.{and_then, no_effects};

use crate::{Acts, FrameOctets, Primitive};
use std::alloc::{AllocError, Global};
use std::marker::Model;

/// The frames and primitives of several calls of a side, each in order, for a program that
/// continues before it has fetched all of them. Removed ones keep their places until others are
/// appended, so that removing one moves no other.
#[derive(Drop)]
pub struct WaitingLists {
    frames: Vec<FrameOctets>,
    /// The number of frames at the front that are removed.
    removed_frames: usize,
    primitives: Vec<Primitive>,
    /// The number of primitives at the front that are removed.
    removed_primitives: usize,
}

impl Model for WaitingLists {
    ghost use Rattle.std.specs.Prelude.{◌≤◌, drop, length, map};
    ghost use Rattle.lapd_sides_links.specs.Effects.{Effects};

    ghost Value = { Effects };

    ghost view = { λ b. record {
      frames = map (λ f. f.items) (drop b.removed_frames b.frames.items);
      primitives = drop b.removed_primitives b.primitives.items;
    } };

    ghost invariant = { λ b. (b.removed_frames ≤ length b.frames.items)
        × (b.removed_primitives ≤ length b.primitives.items) };
}

impl WaitingLists {
    /// Creates empty lists. Does not allocate.
    pub fn new(alloc: Global) -> WaitingLists
        ensures { result ≡ no_effects }
    {
        WaitingLists {
            frames: Vec::new(alloc),
            removed_frames: 0,
            primitives: Vec::new(alloc),
            removed_primitives: 0,
        }
    }

    /// Moves the results of a call to the ends of the lists.
    ///
    /// # Errors
    ///
    /// `AllocError` if an allocation failed. Nothing is moved.
    pub fn append(&mut self, acts: &mut Acts) -> Result<(), AllocError>
        ensures moved { OnOk result (self.new ≡ and_then self.old acts.old) }
        ensures left { OnOk result (acts.new ≡ no_effects) }
        ensures unmoved { OnErr result (self.new ≡ self.old) }
        ensures unchanged { OnErr result (acts.new ≡ acts.old) }
    {
        self.close_up();
        acts.move_behind(&mut self.frames, &mut self.primitives)
    }

    /// Frees the places of removed frames and primitives, if at least half of all are removed.
    fn close_up(&mut self)
        ensures { self.new ≡ self.old }
    {
        self.removed_frames = close_up(&mut self.frames, self.removed_frames);
        self.removed_primitives = close_up(&mut self.primitives, self.removed_primitives);
    }

    /// The frames to send, as octets, in order.
    pub fn frames(&self) -> &[FrameOctets]
        ensures { map (λ f. f.items) result.now ≡ self.now.frames }
    {
        &self.frames[self.removed_frames..]
    }

    /// The primitives for the layers above, in order.
    pub fn primitives(&self) -> &[Primitive]
        ensures { result.now ≡ self.now.primitives }
    {
        &self.primitives[self.removed_primitives..]
    }

    /// Removes the first frame.
    pub fn remove_frame(&mut self)
        requires { 0 < length self.old.frames }
        ensures { self.new ≡ record self.old { frames = drop 1 self.old.frames } }
    {
        self.removed_frames += 1;
    }

    /// Removes the first primitive.
    pub fn remove_primitive(&mut self)
        requires { 0 < length self.old.primitives }
        ensures { self.new ≡ record self.old { primitives = drop 1 self.old.primitives } }
    {
        self.removed_primitives += 1;
    }
}

/// Frees the places of the first `removed` items, if these are at least half of all, so that an
/// item is moved once at most, on average. Returns how many removed items still have a place.
fn close_up<T: Drop>(items: &mut Vec<T>, removed: usize) -> usize
    requires { removed ≤ length items.old.items }
    ensures same { drop result items.new.items ≡ drop removed items.old.items }
    ensures within { result ≤ length items.new.items }
{
    if removed == items.len() {
        items.clear();
        0
    } else if removed < items.len() / 2 {
        removed
    } else {
        let _ = items.drain(..removed);
        0
    }
}
