//! What may happen on a bus.

ghost use Rattle.std.specs.Prelude.{◌≡◌};
ghost use Rattle.lapd_bus.specs.Stations.{index_of, station_of};

use lapd_sides::{Request, SideFault, Tei};

/// A side of the bus, with a terminal's line.
#[derive(Clone, Copy, Debug, PartialEq, Eq)]
pub enum Station {
    /// The terminal at this index, from 0.
    Terminal(usize),
    /// The network side, with the line of the terminal at this index.
    Network(usize),
}

impl Station {
    /// The index of the terminal whose line it is.
    pub fn index(self) -> usize
        ensures { result ≡ index_of self }
    {
        match self {
            Station::Terminal(at) | Station::Network(at) => at,
        }
    }
}

/// A terminal that is connected to the bus.
#[derive(Clone, Copy)]
pub struct NewTerminal {
    /// Its fixed TEI, 0 to 126; `None` if it requests one from the network.
    pub fixed: Option<Tei>,
    /// The seed of its references (Ri, Q.921 5.3.2). It must differ from those of other terminals.
    pub seed: u64,
}

/// A move of a side. Without a terminal at its index it does nothing.
#[derive(Drop)]
pub enum BusMove {
    /// The side takes the first octets in transit to it.
    Take(Station),
    /// The octets in transit to the side at this index, from 0, are lost; other receivers of the
    /// frame do not lose it.
    Lose(Station, usize),
    /// The side's first timer that is due expires.
    Expire(Station),
    /// The side executes a request.
    Ask(Station, Request),
}

impl BusMove {
    /// The side that makes the move.
    pub fn station(&self) -> Station
        ensures { result ≡ station_of self.now }
    {
        match self {
            BusMove::Take(at) | BusMove::Lose(at, _) | BusMove::Expire(at) | BusMove::Ask(at, _) =>
                *at,
        }
    }
}

/// The outcome of a move.
#[derive(Drop)]
pub enum Outcome {
    /// The move was made.
    Made,
    /// There was nothing to do: no octets, no due timer, or no terminal at the index.
    Nothing,
    /// The side refused the request, for this reason and with its message. Nothing is changed.
    Refused(SideFault),
}
