//! `net` and `user` with the real clock.

use crate::console_notes::ConsoleNotes;
use crate::ending::Stop;
use crate::job::{SideSetup, config_of};
use crate::line_ladder::LineLadder;
use lapd_cli_console::Script;
use lapd_cli_io::{BusSetup, ConnectionSetup, Connections, connect_side};
use lapd_cli_live::{
    Impaired, LiveFault, LiveSide, LiveStop, Printer, Style, Tapped, frames_of_step, live_script,
    live_session,
};
use lapd_cli_notes::Notes;
use lapd_cli_options::{Interface, LiveOptions};
use lapd_cli_outputs::{NoTaps, TapSetup, Taps};
use lapd_cli_script::ScriptFault;
use lapd_sides::{Acts, Config, EitherSide, NetSide, Request, Side, Timer, UserSide};
use std::alloc::AllocError;
use std::io::{IsTerminal, Read, Write};
use std::random::RandomSource;

/// The line to the other side. It can be impaired, and its frames are recorded.
type Line<'a> = Tapped<Impaired<Connections<'a>>, Taps<'a, LineLadder>>;

/// Runs this side of an interface with the real clock: it executes a script, or typed lines if
/// standard input is a terminal.
///
/// # Errors
///
/// `NoTaps`, `NoConnection`, `Unmet`, and the faults of any script.
pub fn run_live<R: Read, W: Write>(
    rt: &HostRuntime,
    side: Side,
    setup: &SideSetup<'_>,
    options: &LiveOptions<'_>,
    script: &mut R,
    out: &mut W,
) -> Result<(), Stop> {
    let notes = Notes::new(rt);
    let config = config_of(setup.interface, seed_of(rt, setup.interface));
    let line = tapped_line(rt, &notes, side, setup, options, config.seed)?;
    let style = Style {
        time: options.time,
        quiet: options.quiet,
        lines: setup.lines,
    };
    let printer = Printer::new(rt.alloc(), out, style);
    let acts = Acts::new(rt.alloc())?;
    let made = made_side(rt, side, config, setup.interface)?;
    let most = frames_of_step(options.terminals);
    let mut live = LiveSide::new(rt.alloc(), made, acts, line, printer, most);
    match clear(&mut live, options.clear) {
        Ok(()) => serve(rt, &notes, side, live, script, options.serve).map_err(stop_of),
        Err(fault) => {
            let ended = Err(LiveStop::from(fault));
            close(live, &ended);
            ended.map_err(stop_of)
        }
    }
}

/// Removes the TEIs of all terminals, if the option is present, before anything else is sent.
fn clear<W: Write>(
    live: &mut LiveSide<Line<'_>, &mut W>,
    is_requested: bool,
) -> Result<(), LiveFault> {
    if is_requested {
        live.ask_first(Request::RemoveAll)
    } else {
        Ok(())
    }
}

/// The line to the other side, and the places where its frames are recorded.
fn tapped_line<'a>(
    rt: &'a HostRuntime,
    notes: &'a Notes<'a>,
    side: Side,
    setup: &SideSetup<'_>,
    options: &LiveOptions<'_>,
    seed: u64,
) -> Result<Line<'a>, Stop> {
    let mut taps = Taps::open(rt, notes, side, &tap_setup(options)).map_err(stop_of_taps)?;
    match connect_side(rt, notes, side, &connection_setup(setup, options)) {
        Ok(connections) => {
            if let Err(fault) = taps.begin() {
                taps.abandon();
                return Err(stop_of_taps(fault));
            }
            let line = Impaired::new(rt.alloc(), connections, seed);
            Ok(Tapped::new(side, line, taps))
        }
        Err(error) => {
            taps.abandon();
            Err(Stop::NoConnection(error))
        }
    }
}

/// The files and the address that get the frames of the line.
fn tap_setup<'a>(options: &LiveOptions<'a>) -> TapSetup<'a> {
    TapSetup {
        pcap: options.pcap,
        ladder: options.ladder,
        gsmtap: options.gsmtap,
    }
}

/// Why frames can't be recorded.
fn stop_of_taps(taps: NoTaps) -> Stop {
    match taps {
        NoTaps::Memory => Stop::Script(ScriptFault::Memory),
        _ => Stop::NoTaps(taps),
    }
}

/// How a side of this interface gets its connections.
fn connection_setup<'a>(setup: &SideSetup<'a>, options: &LiveOptions<'_>) -> ConnectionSetup<'a> {
    ConnectionSetup {
        address: setup.address,
        terminals: options.terminals,
        is_primary: setup.interface.pri,
        keep: options.keep,
        idle_limit: options.idle_limit,
        bus: BusSetup {
            t201: setup.interface.durations.of(Timer::T201),
            audit: options.audit,
            is_tied: options.ties && 1 < options.terminals,
        },
    }
}

/// Runs a side, and notes that the other one has closed the connection, if it has.
fn serve<R: Read, W: Write>(
    rt: &HostRuntime,
    notes: &Notes<'_>,
    side: Side,
    live: LiveSide<Line<'_>, &mut W>,
    script: &mut R,
    serve_on: bool,
) -> Result<(), LiveStop> {
    let (ended, live) = if rt.stdin().is_terminal() {
        let mut console = ConsoleNotes::new(rt.alloc(), lines_of(side), notes);
        live_session(rt.alloc(), live, script, &mut console, serve_on)
    } else {
        live_script(rt.alloc(), live, script, serve_on)
    };
    close(live, &ended);
    ended
}

/// The command for a side with the real clock.
fn lines_of(side: Side) -> Script {
    match side {
        Side::Network => Script::LiveNet,
        Side::User => Script::LiveUser,
    }
}

/// Flushes what was printed, even after a fault; the writer remembers its own faults. A fault of
/// the connection is printed as its loss. Otherwise notes if the other side has closed the
/// connection. Closes it.
fn close<W: Write>(mut live: LiveSide<Line<'_>, &mut W>, ended: &Result<(), LiveStop>) {
    let is_failed = matches!(ended, Err(LiveStop::Script(ScriptFault::Port(_))));
    if is_failed {
        let _ = live.print_loss();
    }
    let (line, out, _flushed) = live.into_parts();
    let _ = out.flush();
    let (line, taps) = line.into_parts();
    taps.close();
    let connections = line.into_inner();
    if !is_failed {
        connections.print_closed();
    }
    connections.close();
}

/// Why the script of a running side did not run to its end.
fn stop_of(stop: LiveStop) -> Stop {
    match stop {
        LiveStop::Script(fault) => Stop::Script(fault),
        LiveStop::Unmet => Stop::Unmet,
    }
}

/// A side of this interface.
fn made_side(
    rt: &HostRuntime,
    side: Side,
    config: Config,
    interface: &Interface,
) -> Result<EitherSide, AllocError> {
    match side {
        Side::Network => network_side(rt, config, interface),
        Side::User => user_side(rt, config, interface),
    }
}

fn network_side(
    rt: &HostRuntime,
    config: Config,
    interface: &Interface,
) -> Result<EitherSide, AllocError> {
    let side = NetSide::new(rt.alloc(), config, interface.teis.as_slice())?;
    Ok(EitherSide::Network(side))
}

fn user_side(
    rt: &HostRuntime,
    config: Config,
    interface: &Interface,
) -> Result<EitherSide, AllocError> {
    let side = UserSide::new(rt.alloc(), config, interface.fixed())?;
    Ok(EitherSide::User(side))
}

/// The seed of a side's reference numbers: the requested seed, or one drawn from the system, so
/// that two terminals that request a TEI at the same moment differ.
fn seed_of(rt: &HostRuntime, interface: &Interface) -> u64 {
    if let Some(seed) = interface.seed {
        return seed;
    }
    let mut octets = [0; 8];
    // If the system can't draw octets, they stay 0.
    let _ = rt.fill_bytes(&mut octets);
    u64::from_be_bytes(octets)
}
