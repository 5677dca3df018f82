//! The octets on the line from one end to the other.

ghost use Rattle.std.specs.Prelude.{◌≤◌, length};
ghost use Rattle.lapd_frame.specs.declared.frame.TheConstants.{MOST_OCTETS};

use crate::bench_fault::BenchFault;
use lapd_frame::{Frame, MOST_OCTETS, N201, Side, write};

/// The most frames on the line: a window of primary rate access, or the responses to one.
const FRAMES: usize = 7;

/// The octets of one frame.
#[derive(Clone, Copy)]
pub struct Slot {
    octets: [u8; MOST_OCTETS],
    len: usize,
    ghost fits: { len ≤ MOST_OCTETS },
}

impl Slot {
    /// An empty slot.
    fn empty() -> Slot {
        Slot {
            octets: [0; MOST_OCTETS],
            len: 0,
        }
    }

    /// Replaces its octets by a frame, as this side sends it.
    fn write(&mut self, frame: &Frame<'_>, sender: Side) {
        self.len = write(frame, sender, &mut self.octets);
    }

    /// Replaces its octets by a frame with this header and information, at most 260 octets.
    fn write_parts(&mut self, header: [u8; 4], info: &[u8])
        requires { length info.now ≤ N201 }
    {
        self.len = write_parts(header, info, &mut self.octets);
    }

    /// The octets of the frame.
    pub fn octets(&self) -> &[u8] {
        &self.octets[..self.len]
    }
}

/// One direction of the line: the frames that one side has sent and the other has not received.
#[derive(Drop)]
pub struct Wire {
    sender: Side,
    slots: [Slot; FRAMES],
    used: usize,
}

impl Wire {
    /// An empty line on which this side sends.
    pub fn new(sender: Side) -> Wire {
        Wire {
            sender,
            slots: [Slot::empty(); FRAMES],
            used: 0,
        }
    }

    /// The side that sends on it.
    pub fn sender(&self) -> Side {
        self.sender
    }

    /// Writes a frame after the others on the line.
    ///
    /// # Errors
    ///
    /// `LineFull` if there are seven.
    #[inline(always)]
    pub fn send(&mut self, frame: &Frame<'_>) -> Result<(), BenchFault> {
        if self.used < FRAMES {
            self.slots[self.used].write(frame, self.sender);
            self.used += 1;
            Ok(())
        } else {
            Err(BenchFault::LineFull)
        }
    }

    /// Writes a frame with this header and information after the others on the line.
    ///
    /// # Errors
    ///
    /// `LineFull` if there are seven, or if the information has more than 260 octets.
    #[inline(always)]
    pub fn send_parts(&mut self, header: [u8; 4], info: &[u8]) -> Result<(), BenchFault> {
        if self.used < FRAMES && info.len() <= N201 {
            self.slots[self.used].write_parts(header, info);
            self.used += 1;
            Ok(())
        } else {
            Err(BenchFault::LineFull)
        }
    }

    /// The octets of the frames on the line, in the order in which they were sent.
    pub fn under_way(&self) -> &[Slot] {
        self.slots.get(..self.used).unwrap_or(&[])
    }

    /// Removes all frames, which were received.
    pub fn clear(&mut self) {
        self.used = 0;
    }
}

/// Writes a header and information, at most 260 octets. Returns the number of octets.
fn write_parts(header: [u8; 4], info: &[u8], octets: &mut [u8; MOST_OCTETS]) -> usize
    requires { length info.now ≤ N201 }
    ensures { result ≤ MOST_OCTETS }
{
    octets[..4].copy_from_slice(&header);
    octets[4..4 + info.len()].copy_from_slice(info);
    4 + info.len()
}
