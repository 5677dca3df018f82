ghost use Rattle.std.specs.Prelude.{◌≡◌, Some};
ghost use Rattle.lapd_tei.specs.Bus.{bus_fault_name};

use lapd_frame::Tei;
use std::fmt;
use thiserror::Error;

/// A move on a bus. Terminals and messages are numbered from 0; messages in the order of sending,
/// among those in transit in the same direction. Each reference is a fresh one, for the message
/// that the move may send.
#[derive(Clone, Copy)]
pub enum BusMove {
    /// The terminal requests a TEI by this reference.
    Ask(usize, u16),
    /// T202 of the terminal expires.
    T202(usize, u16),
    /// The terminal (second field) receives the message from the network side (first field). A
    /// response uses this reference.
    Hear(usize, usize, u16),
    /// The message from the network side is lost to every terminal that has not received it.
    Drop(usize),
    /// The network side receives the message from a terminal.
    HearUp(usize),
    /// The message from a terminal is lost.
    DropUp(usize),
    /// The network side checks the TEI.
    Check(Tei),
    /// The network side removes the TEI.
    Remove(Tei),
    /// T201 of the network side expires.
    T201,
    /// The terminal leaves, and releases its TEI without sending a message.
    Leave(usize),
}

/// Why a move is refused. The bus is unchanged.
#[derive(Clone, Copy, Debug, PartialEq, Eq, Error)]
pub enum BusFault {
    /// U1: the message or terminal does not exist, or the timer does not run.
    NothingThere,
    /// U2: the terminal has received this message before.
    HeardBefore,
    /// U3: an allocation failed.
    Memory,
}

impl BusFault {
    /// The number and name, as in `U1 NothingThere`.
    pub fn name(self) -> &'static str
        ensures { result.now ≡ bus_fault_name self }
    {
        match self {
            BusFault::NothingThere => "U1 NothingThere",
            BusFault::HeardBefore => "U2 HeardBefore",
            BusFault::Memory => "U3 Memory",
        }
    }
}

impl fmt::Display for BusFault {
    ghost output = { λ fault. Some (bus_fault_name fault) };

    fn fmt<W: fmt::Write>(&self, f: &mut fmt::Formatter<W>) -> fmt::Result {
        f.write_str(self.name())
    }
}
