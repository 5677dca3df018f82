ghost use Rattle.std.specs.Prelude.{◌≡◌, ◌<◌, if◌then◌else◌, [], map, length, slice_get, is_some, None, Some, IfNone, IfOk, IfSome, OnOk, OnErr};
ghost use Rattle.std.specs.List.{All};
ghost use Rattle.lapd_sides_links.specs.Effects.{no_effects};
ghost use Rattle.lapd_sides.specs.ShowsNetwork.{ShowNetwork};
ghost use Rattle.lapd_sides.specs.User.{User};
ghost use Rattle.lapd_side_events.specs.Interface.{Configs};
ghost use Rattle.lapd_side_events.specs.SideView.{SideView};
ghost use Rattle.lapd_side_events.specs.Bus.{Bus, Join, Restart, bus_step, new_bus};
ghost use Rattle.lapd_bus.specs.Moves.{AsksAt, BusDoes, BusStays, Expires, Loses, Makes, Takes, line_to, octets_to, served_at};
ghost use Rattle.lapd_bus.specs.Shows.{IsTerminalOf, ShowBus, joining, reached_by, with_connected};
ghost use Rattle.lapd_bus.specs.Stations.{index_of, station_of};
ghost use Rattle.lapd_bus.specs.declared.bus_move.Outcome.TheVariants.{Made, Nothing};
ghost use Rattle.lapd_bus.specs.declared.bus_move.Station.TheVariants.{Network};

use crate::bus_move::{BusMove, NewTerminal, Outcome, Station};
use crate::terminal::{Terminal, send_to_all};
use arrayvec::ArrayVec;
use lapd_frame::MOST_OCTETS;
use lapd_sides::{Acts, Config, NetSide, Request, Tei, UserSide};
use std::alloc::{AllocError, Global};

/// One network side, the terminals on its line, and the octets in transit between them.
///
/// Each terminal has a line of its own in each direction, which keeps order, and repeats and alters
/// nothing. The network's frames are in transit to every terminal; each may lose octets that others
/// receive. The bus has no clock: the caller passes the time, in milliseconds.
///
/// After an error a bus may lack frames that were sent: do not use it any longer.
#[derive(Drop)]
pub struct SideBus {
    alloc: Global,
    /// The configuration of the network side.
    network_config: Config,
    /// The configuration of each terminal.
    terminal_config: Config,
    network: NetSide,
    terminals: Vec<Terminal>,
}

/// The terminals and the network side, and what they are replaced by.
impl SideBus {
    /// Creates a bus without terminals. The network side holds these TEIs, each 0 to 126.
    ///
    /// # Errors
    ///
    /// `AllocError` if an allocation failed.
    pub fn new(
        alloc: Global,
        network: Config,
        terminal: Config,
        known: &[Tei],
    ) -> Result<SideBus, AllocError>
        requires { All (λ tei. tei < 127) known.now }
        ensures { IfOk result (λ bus. let c : Configs = record { network = network; user = terminal } in
            ShowBus bus c (new_bus c known.now [])) }
    {
        Ok(SideBus {
            alloc,
            network_config: network,
            terminal_config: terminal,
            network: NetSide::new(alloc, network, known)?,
            terminals: Vec::new(alloc),
        })
    }

    /// Adds a terminal, behind the others. No octets are in transit to it or from it.
    ///
    /// # Errors
    ///
    /// `AllocError` if an allocation failed.
    pub fn connect(&mut self, new: NewTerminal) -> Result<(), AllocError>
        requires { IfSome new.fixed (λ tei. tei < 127) }
        ensures { OnOk result ((c : Configs) (b : Bus) → ShowBus self.old c b
            → ShowBus self.new c (with_connected c (joining new) b)) }
    {
        let terminal = Terminal::new(self.alloc, self.terminal_config, new)?;
        self.terminals.push(terminal)?;
        Ok(())
    }

    /// Replaces the terminal at this index by a new one; the octets in transit stay. Returns
    /// `false`, and changes nothing, if there is none.
    ///
    /// # Errors
    ///
    /// `AllocError` if an allocation failed. Nothing is changed.
    pub fn join(&mut self, at: usize, new: NewTerminal) -> Result<bool, AllocError>
        requires { IfSome new.fixed (λ tei. tei < 127) }
        ensures joins { IfOk result (λ done. (c : Configs) (b : Bus) → ShowBus self.old c b
            → ShowBus self.new c (bus_step c (Join at (joining new)) b)) }
        ensures there { IfOk result (λ done. (c : Configs) (b : Bus) → ShowBus self.old c b
            → done ≡ is_some (slice_get b.terminals at)) }
        ensures unchanged { OnErr result (self.new ≡ self.old) }
    {
        if at >= self.terminals.len() {
            return Ok(false);
        }
        let side = UserSide::with_seed(self.alloc, self.terminal_config, new.fixed, new.seed)?;
        self.terminals[at].side = side;
        Ok(true)
    }

    /// Replaces the network side by a new one, which holds these TEIs, each 0 to 126. The octets in
    /// transit stay.
    ///
    /// # Errors
    ///
    /// `AllocError` if an allocation failed. Nothing is changed.
    pub fn restart(&mut self, known: &[Tei]) -> Result<(), AllocError>
        requires { All (λ tei. tei < 127) known.now }
        ensures restarts { OnOk result ((c : Configs) (b : Bus) → ShowBus self.old c b
            → ShowBus self.new c (bus_step c (Restart known.now) b)) }
        ensures unchanged { OnErr result (self.new ≡ self.old) }
    {
        self.network = NetSide::new(self.alloc, self.network_config, known)?;
        Ok(())
    }

    /// The network side.
    pub fn network(&self) -> &NetSide
        ensures { (c : Configs) (b : Bus) → ShowBus self.now c b
            → ShowNetwork result.now c.network b.network }
    {
        &self.network
    }

    /// The number of terminals.
    pub fn terminals(&self) -> usize
        ensures { (c : Configs) (b : Bus) → ShowBus self.now c b → result ≡ length b.terminals }
    {
        self.terminals.len()
    }

    /// The terminal at this index, if there is one.
    pub fn terminal(&self, at: usize) -> Option<&UserSide>
        ensures none { IfNone result ((c : Configs) (b : Bus) → ShowBus self.now c b
            → slice_get b.terminals at ≡ None) }
        ensures some { IfSome result (λ side. (c : Configs) (b : Bus) → ShowBus self.now c b
            → IsTerminalOf side.now c at b) }
    {
        Some(&self.terminals.get(at)?.side)
    }

    /// The octets in transit to the side on this line, in order; none if there is no such terminal.
    pub fn in_transit(&self, to: Station) -> &[ArrayVec<u8, MOST_OCTETS>]
        ensures { (c : Configs) (b : Bus) → ShowBus self.now c b
            → map (λ frame. frame.items) result.now ≡ octets_to to b }
    {
        let Some(terminal) = self.terminals.get(to.index()) else {
            return &[];
        };
        match to {
            Station::Terminal(_) => terminal.incoming.frames(),
            Station::Network(_) => terminal.outgoing.frames(),
        }
    }
}

/// Moves.
impl SideBus {
    /// Makes a move at the time `now`, in milliseconds: one event of the bus, or none. Afterwards
    /// `acts` has the side's frames, which are in transit, and its primitives.
    ///
    /// # Errors
    ///
    /// `AllocError` if an allocation failed.
    pub fn apply(&mut self, mv: BusMove, now: u64, acts: &mut Acts) -> Result<Outcome, AllocError>
        ensures { IfOk result (λ outcome. (c : Configs) (b : Bus) → ShowBus self.old c b
            → Makes self.new c acts.new mv now (slice_get b.terminals (index_of (station_of mv)))
            b outcome) }
    {
        acts.clear();
        if mv.station().index() >= self.terminals.len() {
            return Ok(Outcome::Nothing);
        }
        match mv {
            BusMove::Take(at) => self.take(at, now, acts),
            BusMove::Lose(at, place) => Ok(self.lose(at, place)),
            BusMove::Expire(at) => self.expire(at, now, acts),
            BusMove::Ask(at, request) => self.ask(at, request, now, acts),
        }
    }

    /// A side takes the first octets in transit to it.
    fn take(&mut self, at: Station, now: u64, acts: &mut Acts) -> Result<Outcome, AllocError>
        requires there { index_of at < length self.old.terminals.items }
        requires empty { acts.old ≡ no_effects }
        ensures { IfOk result (λ outcome. (c : Configs) (t : SideView User) (b : Bus)
            → ShowBus self.old c b → slice_get b.terminals (index_of at) ≡ Some t
            → Takes now (line_to at t) (BusDoes self.new c acts.new at t b)
            (BusStays self.new c acts.new b) outcome) }
    {
        match at {
            Station::Terminal(at) => self.terminals[at].take(now, acts),
            Station::Network(at) => self.take_from(at, now, acts),
        }
    }

    /// The network side takes the first octets in transit from this terminal.
    fn take_from(&mut self, at: usize, now: u64, acts: &mut Acts) -> Result<Outcome, AllocError>
        requires there { at < length self.old.terminals.items }
        requires empty { acts.old ≡ no_effects }
        ensures { IfOk result (λ outcome. (c : Configs) (t : SideView User) (b : Bus)
            → ShowBus self.old c b → slice_get b.terminals at ≡ Some t
            → Takes now t.outgoing (BusDoes self.new c acts.new (Network at) t b)
            (BusStays self.new c acts.new b) outcome) }
    {
        let Some(octets) = self.terminals[at].outgoing.first() else {
            return Ok(Outcome::Nothing);
        };
        let Ok(()) = self.network.take(octets, now, acts) else {
            return Err(AllocError);
        };
        self.terminals[at].outgoing.lose(0);
        self.send(acts)
    }

    /// Octets in transit to a side are lost.
    fn lose(&mut self, at: Station, place: usize) -> Outcome
        requires { index_of at < length self.old.terminals.items }
        ensures { (c : Configs) (t : SideView User) (b : Bus) → ShowBus self.old c b
            → slice_get b.terminals (index_of at) ≡ Some t
            → Loses place (line_to at t) (BusDoes self.new c no_effects at t b)
            (BusStays self.new c no_effects b) result }
    {
        match at {
            Station::Terminal(at) => made_if(self.terminals[at].incoming.lose(place)),
            Station::Network(at) => made_if(self.terminals[at].outgoing.lose(place)),
        }
    }

    /// The first due timer of a side expires.
    fn expire(&mut self, at: Station, now: u64, acts: &mut Acts) -> Result<Outcome, AllocError>
        requires { index_of at < length self.old.terminals.items }
        ensures { IfOk result (λ outcome. (c : Configs) (t : SideView User) (b : Bus)
            → ShowBus self.old c b → slice_get b.terminals (index_of at) ≡ Some t
            → Expires now (served_at at t b) (BusDoes self.new c acts.new at t b)
            (BusStays self.new c acts.new b) outcome) }
    {
        match at {
            Station::Terminal(at) => self.terminals[at].expire(now, acts),
            Station::Network(_) => {
                if self.network.tick(now, acts) {
                    self.send(acts)
                } else {
                    Ok(Outcome::Nothing)
                }
            }
        }
    }

    /// A side executes a request.
    fn ask(
        &mut self,
        at: Station,
        request: Request,
        now: u64,
        acts: &mut Acts,
    ) -> Result<Outcome, AllocError>
        requires { index_of at < length self.old.terminals.items }
        ensures { IfOk result (λ outcome. (c : Configs) (t : SideView User) (b : Bus)
            → ShowBus self.old c b → slice_get b.terminals (index_of at) ≡ Some t
            → AsksAt c at request now t b (BusDoes self.new c acts.new at t b)
            (BusStays self.new c acts.new b) outcome) }
    {
        match at {
            Station::Terminal(at) => self.terminals[at].ask(request, now, acts),
            Station::Network(_) => match self.network.request(request, now, acts) {
                Ok(()) => self.send(acts),
                Err(fault) => Ok(Outcome::Refused(fault)),
            },
        }
    }

    /// Puts the network's frames of a call in transit to every terminal.
    fn send(&mut self, acts: &Acts) -> Result<Outcome, AllocError>
        ensures made { IfOk result (λ outcome. outcome ≡ Made) }
        ensures sent { OnOk result (self.new.terminals.items
            ≡ map (reached_by acts.now.frames) self.old.terminals.items) }
        ensures network { self.new.network ≡ self.old.network }
        ensures network_config { self.new.network_config ≡ self.old.network_config }
        ensures terminal_config { self.new.terminal_config ≡ self.old.terminal_config }
    {
        send_to_all(self.terminals.as_mut_slice(), acts.frames())?;
        Ok(Outcome::Made)
    }
}

/// The outcome of a move that was made or not.
fn made_if(is_made: bool) -> Outcome
    ensures { result ≡ (if is_made then Made else Nothing) }
{
    if is_made {
        Outcome::Made
    } else {
        Outcome::Nothing
    }
}
