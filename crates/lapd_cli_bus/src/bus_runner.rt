//! The command `bus --links`.

ghost use Rattle.std.specs.Prelude.{◌<◌, IfOk, IfSome};
ghost use Rattle.std.specs.List.{All};

use crate::bus_line::{BusLine, Known, NETWORK, read_line};
use crate::report::{BusLayout, Report};
use arrayvec::ArrayVec;
use lapd_bus::{BusMove, NewTerminal, Outcome, SideBus, Station};
use lapd_cli_script::{Command, LineFault, ScriptFault, walk};
use lapd_cli_side_commands::basic_access;
use lapd_frame::MOST_OCTETS;
use lapd_sides::{Acts, NetSide, Request, Tei};
use std::alloc::{AllocError, Global};
use std::io::{Read, Write};

/// The last time of the clock, in milliseconds.
const LAST_MOMENT: u64 = 1_000_000_000_000_000;

/// The most deliveries of one `settle`.
const MOST_DELIVERIES: u32 = 10_000;

/// The seed of the references of the first terminal.
const FIRST_SEED: u64 = 921;

/// The most terminals of a bus.
const MOST_TERMINALS: u64 = 127;

/// A bus that executes a script line by line.
#[derive(Drop)]
struct BusRunner {
    alloc: Global,
    bus: SideBus,
    /// The time, in milliseconds.
    now: u64,
    /// The number of terminals that joined the bus in place of others.
    joined: u64,
    acts: Acts,
    report: Report,
}

/// Executes a script on a bus of a network side that knows no TEI and `terminals` terminals without
/// one (the program allows 1 to 127), at basic access and from time 0 on. Each terminal has a seed
/// of its own for its references. Prints what the sides take, send and report, in this layout.
///
/// # Errors
///
/// `BadLine` at the first line that is not valid, `Device` if a read or a write fails, `Memory` if
/// an allocation fails.
pub fn bus_links<R: Read, W: Write>(
    alloc: Global,
    script: &mut R,
    out: &mut W,
    terminals: u8,
    layout: BusLayout,
) -> Result<(), ScriptFault> {
    let Ok(mut runner) = BusRunner::new(alloc, usize::from(terminals), layout) else {
        return Err(ScriptFault::Memory);
    };
    runner.begin(out)?;
    let ended = walk(alloc, &mut runner, script, out);
    runner.end(out, ended)
}

impl Command for BusRunner {
    ghost use Rattle.std.specs.Prelude.{⊤, None};

    ghost State = { ⊤ };

    ghost step = { λ _ _. None };

    // Nothing is specified of the text: no state is represented.
    ghost represents = { λ _ _. ⊥ };

    fn run<W: Write>(&mut self, line: &[u8], out: &mut W) -> Result<(), LineFault> {
        let line = read_line(self.alloc, line)?;
        self.report.clear();
        self.execute(line)?;
        out.write_all(self.report.text())?;
        Ok(())
    }
}

impl BusRunner {
    /// A bus of this many terminals without a TEI, at time 0.
    ///
    /// # Errors
    ///
    /// `AllocError` if an allocation fails.
    fn new(alloc: Global, terminals: usize, layout: BusLayout) -> Result<BusRunner, AllocError> {
        Ok(BusRunner {
            alloc,
            bus: new_bus(alloc, terminals)?,
            now: 0,
            joined: 0,
            acts: Acts::new(alloc)?,
            report: Report::new(alloc, terminals, layout)?,
        })
    }

    /// Prints the text before that of the first line.
    ///
    /// # Errors
    ///
    /// `Device` if the writer fails, `Memory` if an allocation fails.
    fn begin<W: Write>(&mut self, out: &mut W) -> Result<(), ScriptFault> {
        let Ok(()) = self.report.begin() else {
            return Err(ScriptFault::Memory);
        };
        match out.write_all(self.report.text()) {
            Ok(()) => Ok(()),
            Err(_) => Err(ScriptFault::Device),
        }
    }

    /// Prints what is left to print of the executed lines, unless the script ended because a device
    /// failed or an allocation did.
    ///
    /// # Errors
    ///
    /// How the script ended; `Device` if the writer fails, `Memory` if an allocation fails.
    fn end<W: Write>(
        &mut self,
        out: &mut W,
        ended: Result<(), ScriptFault>,
    ) -> Result<(), ScriptFault> {
        match ended {
            Ok(()) | Err(ScriptFault::BadLine(_)) => {}
            Err(fault) => return Err(fault),
        }
        self.report.clear();
        let Ok(()) = self.report.end() else {
            return Err(ScriptFault::Memory);
        };
        if out.write_all(self.report.text()).is_err() || out.flush().is_err() {
            return Err(ScriptFault::Device);
        }
        ended
    }

    /// Executes a line, and keeps its text.
    ///
    /// # Errors
    ///
    /// `Bad` if the line would take the clock past its end, `Memory` if an allocation fails.
    fn execute(&mut self, line: BusLine) -> Result<(), LineFault> {
        if let BusLine::Tick(ms) = &line {
            let Some(now) = moment_behind(self.now, *ms) else {
                return Err(LineFault::Bad);
            };
            self.now = now;
        }
        match self.apply(line) {
            Ok(()) => Ok(()),
            Err(_) => Err(LineFault::Memory),
        }
    }

    /// Executes a line; the clock has advanced already.
    ///
    /// # Errors
    ///
    /// `AllocError` if an allocation fails.
    fn apply(&mut self, line: BusLine) -> Result<(), AllocError> {
        match line {
            BusLine::Take(station) => self.take_alone(station),
            BusLine::Lose(station, place) => self.lose(station, place),
            BusLine::Settle => self.settle(),
            BusLine::Tick(_) => self.expire_all(),
            BusLine::Ask(station, request) => self.ask(station, request),
            BusLine::Join(at, fixed) => self.join(at, fixed),
            BusLine::Restart(known) => self.restart(known),
        }
    }

    /// A side takes the first octets in transit to it, if there are any.
    fn take_alone(&mut self, station: Station) -> Result<(), AllocError> {
        if self.take(station)? {
            Ok(())
        } else {
            self.report.nothing()
        }
    }

    /// A side takes the first octets in transit to it. Returns `false` if there are none.
    fn take(&mut self, station: Station) -> Result<bool, AllocError> {
        let Some(octets) = octets_at(&self.bus, station, 0) else {
            return Ok(false);
        };
        let _made = self
            .bus
            .apply(BusMove::Take(station), self.now, &mut self.acts)?;
        self.report.arrived(station, octets.as_slice(), &self.acts)?;
        Ok(true)
    }

    /// The octets at this place in transit to a side are lost, if there are any.
    fn lose(&mut self, station: Station, place: usize) -> Result<(), AllocError> {
        let Some(octets) = octets_at(&self.bus, station, place) else {
            return self.report.nothing();
        };
        let _made = self
            .bus
            .apply(BusMove::Lose(station, place), self.now, &mut self.acts)?;
        self.report.lost(station, octets.as_slice())
    }

    /// Delivers octets until none are in transit, in rounds: each terminal takes its next ones, and
    /// then the network side takes the next ones of each terminal.
    fn settle(&mut self) -> Result<(), AllocError> {
        let mut left = MOST_DELIVERIES;
        for _round in 0..MOST_DELIVERIES {
            let before = left;
            self.take_round(&mut left)?;
            if left == before || left == 0 {
                break;
            }
        }
        let is_quiet = is_quiet(&self.bus);
        self.report
            .settled(MOST_DELIVERIES.saturating_sub(left), is_quiet)
    }

    /// One round of deliveries, at most this many.
    fn take_round(&mut self, left: &mut u32) -> Result<(), AllocError> {
        for at in 0..self.bus.terminals() {
            self.take_next(Station::Terminal(at), left)?;
        }
        for at in 0..self.bus.terminals() {
            self.take_next(Station::Network(at), left)?;
        }
        Ok(())
    }

    /// A side takes the first octets in transit to it, if there are any and a delivery is left.
    fn take_next(&mut self, station: Station, left: &mut u32) -> Result<(), AllocError> {
        if *left > 0 && self.take(station)? {
            *left = left.saturating_sub(1);
        }
        Ok(())
    }

    /// Expires all timers that are due: those of the network side, then those of each terminal.
    fn expire_all(&mut self) -> Result<(), AllocError> {
        self.report.moved_to(self.now)?;
        self.expire_due(NETWORK)?;
        for at in 0..self.bus.terminals() {
            self.expire_due(Station::Terminal(at))?;
        }
        Ok(())
    }

    /// Expires the timers of a side that are due, one after another. The bound of the loop is never
    /// reached; it only proves termination.
    fn expire_due(&mut self, station: Station) -> Result<(), AllocError> {
        for _timer in 0..u64::MAX {
            if !self.expire(station)? {
                break;
            }
        }
        Ok(())
    }

    /// Expires the first timer of a side that is due. Returns `false` if none is.
    fn expire(&mut self, station: Station) -> Result<bool, AllocError> {
        match self
            .bus
            .apply(BusMove::Expire(station), self.now, &mut self.acts)?
        {
            Outcome::Made => {
                self.report.acted(station, &self.acts)?;
                Ok(true)
            }
            Outcome::Nothing | Outcome::Refused(_) => Ok(false),
        }
    }

    /// A side executes a request.
    fn ask(&mut self, station: Station, request: Request) -> Result<(), AllocError> {
        match self
            .bus
            .apply(BusMove::Ask(station, request), self.now, &mut self.acts)?
        {
            Outcome::Made => self.report.acted(station, &self.acts),
            Outcome::Nothing => self.report.nothing(),
            Outcome::Refused(fault) => self.report.refused(station, fault.kind),
        }
    }

    /// A new terminal with this fixed TEI, or with none, replaces the terminal at this index.
    fn join(&mut self, at: usize, fixed: Option<Tei>) -> Result<(), AllocError> {
        let new = NewTerminal {
            fixed: of_terminal(fixed),
            seed: seed_of(self.joined.saturating_add(1), at),
        };
        if self.bus.join(at, new)? {
            self.joined = self.joined.saturating_add(1);
            self.report.joined(at)
        } else {
            self.report.nothing()
        }
    }

    /// The network side restarts, with these TEIs.
    fn restart(&mut self, known: Known) -> Result<(), AllocError> {
        let teis = match known {
            Known::Nothing => Vec::new(self.alloc),
            Known::Held => held_teis(self.alloc, self.bus.network())?,
        };
        self.bus.restart(teis.as_slice())?;
        self.report.restarted()
    }
}

/// A bus of a network side that knows no TEI, and of this many terminals without one.
fn new_bus(alloc: Global, terminals: usize) -> Result<SideBus, AllocError> {
    let mut bus = SideBus::new(alloc, basic_access(), basic_access(), &[])?;
    for at in 0..terminals {
        bus.connect(NewTerminal {
            fixed: None,
            seed: seed_of(0, at),
        })?;
    }
    Ok(bus)
}

/// The seed of the references of a terminal at this index, after this many terminals joined.
fn seed_of(joined: u64, at: usize) -> u64 {
    FIRST_SEED
        .wrapping_add(MOST_TERMINALS.wrapping_mul(joined))
        .wrapping_add(at as u64)
}

/// The octets at this place in transit to a side, if there are any.
fn octets_at(bus: &SideBus, station: Station, place: usize) -> Option<ArrayVec<u8, MOST_OCTETS>> {
    let frame = bus.in_transit(station).get(place)?;
    let mut octets = ArrayVec::new();
    let _fits = octets.try_extend_from_slice(frame.as_slice());
    Some(octets)
}

/// Whether no octets are in transit.
fn is_quiet(bus: &SideBus) -> bool {
    for at in 0..bus.terminals() {
        if !bus.in_transit(Station::Terminal(at)).is_empty()
            || !bus.in_transit(Station::Network(at)).is_empty()
        {
            return false;
        }
    }
    true
}

/// The TEIs that a network side holds.
///
/// # Errors
///
/// `AllocError` if an allocation fails.
fn held_teis(alloc: Global, network: &NetSide) -> Result<Vec<Tei>, AllocError>
    ensures { IfOk result (λ teis. All (λ tei. tei < 127) teis.items) }
{
    let mut teis = Vec::new(alloc);
    for value in 0..127u8 {
        if let Some(tei) = held_at(network, value) {
            teis.push(tei)?;
        }
    }
    Ok(teis)
}

/// The TEI with this value, if the network side holds it.
fn held_at(network: &NetSide, value: u8) -> Option<Tei>
    ensures { IfSome result (λ tei. tei < 127) }
{
    let tei = of_terminal(Tei::new(value))?;
    if network.assigner().holds(tei) {
        Some(tei)
    } else {
        None
    }
}

/// The TEI, if it is one of a terminal: 0 to 126.
fn of_terminal(tei: Option<Tei>) -> Option<Tei>
    ensures { IfSome result (λ tei. tei < 127) }
{
    match tei {
        Some(tei) if tei.value() < 127 => Some(tei),
        _ => None,
    }
}

/// The time `ms` milliseconds after `now`; `None` if it is past the last time.
fn moment_behind(now: u64, ms: u64) -> Option<u64> {
    let moment = now.checked_add(ms)?;
    if moment <= LAST_MOMENT {
        Some(moment)
    } else {
        None
    }
}
