ghost use Rattle.std.specs.Prelude.{◌≡◌, ◌≤◌, ◌+◌, ◌++◌, [], length, take, drop};
ghost use Rattle.lapd_frame.specs.Frame.{spelling};
ghost use Rattle.lapd_sides_links.specs.Effects.{HasLeastOctets};

use lapd_frame::{Frame, MOST_OCTETS, N201, Side, write};
use std::marker::Model;

/// The octets of a frame, at most 264 (Q.921 2.2, 5.9.3).
// A frame overwrites the last one. The octets behind it keep their old values: to clear them for
// each frame would cost more than to write it. The length is first, so that a short frame and its
// length lie in one line of the cache.
#[derive(Drop)]
pub struct FrameOctets {
    len: usize,
    room: [u8; MOST_OCTETS],
}

impl Model for FrameOctets {
    ghost use Rattle.std.specs.Prelude.{ℕ, ◌≤◌, take};
    ghost use Rattle.arrayvec.specs.ArrayVec.{ArrayVec};
    ghost use Rattle.lapd_frame.specs.declared.frame.TheConstants.{MOST_OCTETS};

    ghost Value = { ArrayVec ℕ };

    ghost view = { λ o. record { items = take o.len o.room } };

    ghost invariant = { λ o. o.len ≤ MOST_OCTETS };
}

impl FrameOctets {
    /// No octets.
    pub fn new() -> FrameOctets
        ensures { result.items ≡ [] }
    {
        FrameOctets {
            room: [0; MOST_OCTETS],
            len: 0,
        }
    }

    /// The octets.
    #[inline(always)]
    pub fn as_slice(&self) -> &[u8]
        ensures value { result.now ≡ self.now.items }
        ensures fits { length result.now ≤ MOST_OCTETS }
    {
        &self.room[..self.len]
    }

    /// Replaces the octets by those of a frame, as `from` sends it.
    #[inline(always)]
    pub(crate) fn write(&mut self, frame: &Frame<'_>, from: Side)
        ensures written { self.new.items ≡ spelling from frame.now }
        ensures least { HasLeastOctets self.new.items }
    {
        let len = write(frame, from, &mut self.room);
        self.len = len;
    }

    /// Replaces the octets by the four of an address and a control field, and the information
    /// after them, at most 260.
    #[inline(always)]
    pub(crate) fn write_parts(&mut self, header: [u8; 4], info: &[u8])
        requires { length info.now ≤ N201 }
        ensures written { self.new.items ≡ header ++ info.now }
        ensures least { length header ≡ 4 → HasLeastOctets self.new.items }
    {
        put(&mut self.room, 0, &header);
        put(&mut self.room, 4, info);
        self.len = 4 + info.len();
    }

    /// Replaces the octets by these, at most 264.
    #[inline(always)]
    pub(crate) fn set(&mut self, octets: &[u8])
        requires { length octets.now ≤ MOST_OCTETS }
        ensures { self.new.items ≡ octets.now }
    {
        self.room[..octets.len()].copy_from_slice(octets);
        self.len = octets.len();
    }
}

/// Writes octets into `room` from this place on.
#[inline(always)]
fn put(room: &mut [u8; MOST_OCTETS], at: usize, octets: &[u8])
    requires { at + length octets.now ≤ MOST_OCTETS }
    ensures { room.new ≡ take at room.old ++ octets.now
        ++ drop (at + length octets.now) room.old }
{
    room[at..at + octets.len()].copy_from_slice(octets);
}
