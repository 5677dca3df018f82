ghost use Rattle.std.specs.Prelude.{◌≡◌, [], ◌∷◌, ◌++◌, IfOk, option_copied};
ghost use Rattle.lapd_follow.specs.Ends.{keep_last, from_end};

use circular_buffer::HeapCircularBuffer;
use std::alloc::{AllocError, Global};
use std::marker::Model;

/// The greatest window k (Q.921 5.9.5).
const MOST: usize = 127;

/// The octets of the last I frames of an end that its peer has not acknowledged, oldest first, 127
/// at most.
#[derive(Drop)]
pub(crate) struct Unacknowledged {
    frames: HeapCircularBuffer<Vec<u8>>,
}

impl Model for Unacknowledged {
    ghost use Rattle.std.specs.Prelude.{◌≡◌, ℕ, List, map};

    ghost Value = { List (List ℕ) };

    ghost view = { λ u. map (λ m. m.items) u.frames.items };

    ghost invariant = { λ u. u.frames.capacity ≡ 127 };
}

#[tactic(auto, using(crate::proofs::Octets::octets))]
impl Unacknowledged {
    /// None yet, with room for 127.
    pub(crate) fn new(alloc: Global) -> Result<Unacknowledged, AllocError>
        ensures { IfOk result (λ u. u ≡ []) }
    {
        Ok(Unacknowledged {
            frames: HeapCircularBuffer::with_capacity(alloc, MOST)?,
        })
    }

    /// Appends the octets of one more frame. If there are 127, the oldest are dropped.
    pub(crate) fn push(&mut self, octets: Vec<u8>)
        ensures { self.new ≡ keep_last 127 (self.old ++ octets.items ∷ []) }
    {
        self.frames.push_back(octets);
    }

    /// Keeps the last `n` frames.
    pub(crate) fn keep_last(&mut self, n: usize)
        ensures { self.new ≡ keep_last n self.old }
    {
        self.frames.truncate_front(n);
    }

    /// Drops all.
    pub(crate) fn clear(&mut self)
        ensures { self.new ≡ [] }
    {
        self.frames.clear();
    }

    /// The octets of the `n`-th frame from the end, counted from 1.
    pub(crate) fn from_end(&self, n: usize) -> Option<&[u8]>
        ensures { option_copied result ≡ from_end n self.now }
    {
        if n <= self.frames.len() {
            self.frames.get(self.frames.len() - n).map(Vec::as_slice)
        } else {
            None
        }
    }
}
