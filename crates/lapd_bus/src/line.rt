ghost use Rattle.std.specs.Prelude.{◌≡◌, ◌<◌, ◌≤◌, ◌++◌, ◌∷◌, [], drop, map, length, nat_lt, IfNone, IfSome, OnOk, slice_get, Some};
ghost use Rattle.std.specs.List.{remove};

use arrayvec::ArrayVec;
use lapd_frame::MOST_OCTETS;
use lapd_sides::FrameOctets;
use std::alloc::{AllocError, Global};
use std::marker::Model;

/// One direction of a terminal's line: the octets in transit, in the order of sending.
///
/// Octets that were removed from the front stay there until they are at least as many as those in
/// transit. So on average the cost of a removal from the front does not depend on how many are in
/// transit.
#[derive(Drop)]
pub struct Line {
    frames: Vec<ArrayVec<u8, MOST_OCTETS>>,
    /// The number of removed octets at the front.
    first: usize,
}

impl Model for Line {
    ghost use Rattle.std.specs.Prelude.{◌≤◌, ℕ, List, drop, map};
    ghost use Rattle.std.specs.Vec.{vec_len};

    ghost Value = { List (List ℕ) };

    ghost view = { λ line. map (λ frame. frame.items) (drop line.first line.frames.items) };

    ghost invariant = { λ line. line.first ≤ vec_len line.frames };
}

impl Line {
    /// Creates a line without octets in transit. Does not allocate.
    pub fn new(alloc: Global) -> Line
        ensures { result ≡ [] }
    {
        Line {
            frames: Vec::new(alloc),
            first: 0,
        }
    }

    /// The octets in transit, in order.
    pub fn frames(&self) -> &[ArrayVec<u8, MOST_OCTETS>]
        ensures { map (λ frame. frame.items) result.now ≡ self.now }
    {
        &self.frames[self.first..]
    }

    /// The first octets in transit.
    pub fn first(&self) -> Option<&[u8]>
        ensures none { IfNone result (self.now ≡ []) }
        ensures some { IfSome result (λ octets. slice_get self.now 0 ≡ Some octets.now) }
    {
        self.frames().first().map(ArrayVec::as_slice)
    }

    /// Removes the octets at this index, from 0. Returns `false`, and changes nothing, if there are
    /// none.
    pub fn lose(&mut self, place: usize) -> bool
        ensures removed { self.new ≡ remove self.old place }
        ensures there { result ≡ nat_lt place (length self.old) }
    {
        if self.frames().len() <= place {
            return false;
        }
        if place == 0 {
            self.lose_first();
        } else {
            self.frames.remove(self.first + place);
        }
        true
    }

    /// Removes the first octets.
    fn lose_first(&mut self)
        requires { 0 < length self.old }
        ensures { self.new ≡ drop 1 self.old }
    {
        self.first = close_up(&mut self.frames, self.first + 1);
    }

    /// Appends copies of these frames.
    ///
    /// # Errors
    ///
    /// `AllocError` if an allocation failed. Some of the frames may have been appended.
    pub fn append(&mut self, frames: &[FrameOctets]) -> Result<(), AllocError>
        ensures { OnOk result (self.new ≡ self.old ++ map (λ frame. frame.items) frames.now) }
    {
        for frame in frames {
            self.push(frame)?;
        }
        Ok(())
    }

    /// Appends a copy of this frame.
    fn push(&mut self, frame: &FrameOctets) -> Result<(), AllocError>
        ensures { OnOk result (self.new ≡ self.old ++ frame.now.items ∷ []) }
    {
        self.frames.push(copy(frame))?;
        Ok(())
    }
}

/// Frees the places of the first `removed` frames if they are at least half of all, so that a frame
/// is moved once at most, on average. Returns how many removed frames still have a place.
fn close_up(frames: &mut Vec<ArrayVec<u8, MOST_OCTETS>>, removed: usize) -> usize
    requires { removed ≤ length frames.old.items }
    ensures same { drop result frames.new.items ≡ drop removed frames.old.items }
    ensures within { result ≤ length frames.new.items }
{
    if removed < frames.len() / 2 {
        removed
    } else {
        let _ = frames.drain(..removed);
        0
    }
}

/// A copy of these octets.
fn copy(frame: &FrameOctets) -> ArrayVec<u8, MOST_OCTETS>
    ensures { result.items ≡ frame.now.items }
{
    let mut octets = ArrayVec::new();
    let _fits = octets.try_extend_from_slice(frame.as_slice());
    octets
}
