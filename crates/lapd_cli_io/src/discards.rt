//! Frames that were discarded because the side has no such link.

ghost use Rattle.std.specs.Prelude.{◌<◌};

use lapd_frame::Side;
use lapd_table::{LinkId, Sapi};
use std::fmt;

/// The number of addresses.
const ADDRESSES: usize = 3 * 128;

/// The addresses for which a frame has been discarded.
#[derive(Drop)]
pub struct Discards {
    side: Side,
    is_primary: bool,
    seen: [bool; ADDRESSES],
}

/// The note about the first discarded frame of an address.
#[derive(Clone, Copy)]
pub struct Discard {
    id: LinkId,
    /// Whether the side that discarded it is at primary rate.
    is_primary: bool,
}

impl Discards {
    /// No frame has been discarded yet by this side, at primary rate or at basic access.
    pub fn new(side: Side, is_primary: bool) -> Discards {
        Discards {
            side,
            is_primary,
            seen: [false; ADDRESSES],
        }
    }

    /// Records a discarded frame of this address. Returns the note if it is the first one of its
    /// address, and not for another terminal of the bus.
    pub fn add(&mut self, id: LinkId) -> Option<Discard> {
        if self.is_for_another(&id) {
            return None;
        }
        let place = place_of(&id);
        if self.seen[place] {
            return None;
        }
        self.seen[place] = true;
        Some(Discard {
            id,
            is_primary: self.is_primary,
        })
    }
}

impl Discards {
    /// Whether a discarded frame is for another terminal of the bus: at basic access the network
    /// sends each frame to all terminals. TEI 0 is that of a point-to-point interface.
    fn is_for_another(&self, id: &LinkId) -> bool {
        let is_on_bus = self.side == Side::User && !self.is_primary;
        is_on_bus && matches!(id.tei.value(), 1..=126)
    }
}

/// The index of an address.
fn place_of(id: &LinkId) -> usize
    ensures { result < ADDRESSES }
{
    let tei = usize::from(id.tei.value() % 128);
    match id.sapi {
        Sapi::Call => tei,
        Sapi::Packet => 128 + tei,
        Sapi::Management => 256 + tei,
    }
}

impl fmt::Display for Discard {
    fn fmt<W: fmt::Write>(&self, f: &mut fmt::Formatter<W>) -> fmt::Result {
        let (sapi, tei) = (self.id.sapi, self.id.tei);
        write!(f, "frame discarded: no link with SAPI {sapi} TEI {tei}")?;
        // TEI 0 is the usual TEI at primary rate.
        match (tei.value(), self.is_primary) {
            (0, false) => f.write_str("; does this side need --pri?"),
            (1.., true) => f.write_str("; does the other side need --pri?"),
            _ => Ok(()),
        }
    }
}
