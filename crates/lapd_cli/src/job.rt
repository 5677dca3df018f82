//! Running the program's job.

use crate::ending::Stop;
use crate::live::run_live;
use crate::log::run_log;
use lapd_cli_answer::answer;
use lapd_cli_bus::{BusLayout, bus_links};
use lapd_cli_console::Script;
use lapd_cli_decode::{
    Drawing, Filter, Follow, FrameStyle, FrameTime, Layout, LineForm, LinesStyle, Style, decode,
    decode_good_lines, decode_lines, print_lines,
};
use lapd_cli_link_commands::{bus, draw_pair, loop_over, pair};
use lapd_cli_notes::{Notes, connection};
use lapd_cli_options::{
    Clock, Color, DecodeOptions, Interface, Invocation, Job, LinkEnd, Params, PrintedLayout,
    PrintedTime, Side,
};
use lapd_cli_script::ScriptFault;
use lapd_cli_side_commands::{Config, FromRead, FromWrite, Port, SideRun, net, user};
use lapd_cli_side_lines::LineStyle;
use std::alloc::{AllocError, Global};
use std::env;
use std::io::{IsTerminal, Read, Write};
use std::net::TcpStream;

/// The seed of reference numbers with the script's clock, if `--seed` is absent.
const SCRIPT_SEED: u64 = 921;

/// The configuration of `net` or `user`, and the style of its lines.
#[derive(Clone, Copy)]
pub struct SideSetup<'a> {
    /// The interface.
    pub interface: &'a Interface,
    /// The address to listen on or to connect to.
    pub address: &'a str,
    /// The style of its lines.
    pub lines: LineStyle,
}

/// The command that executes the script, with this clock.
pub fn script_of(job: &Job, clock: &Clock<'_>) -> Script {
    match (job, clock) {
        (Job::Answer(_), _) => Script::Answer,
        (Job::Bus { .. }, _) => Script::Bus,
        (Job::BusLinks { .. }, _) => Script::BusLinks,
        (Job::Pair { .. }, _) => Script::Pair,
        (Job::Loop { .. }, _) => Script::Loop,
        (Job::Net(_), Clock::Script) => Script::Net,
        (Job::Net(_), Clock::Real(_)) => Script::LiveNet,
        (Job::User(_), Clock::Script) => Script::User,
        (Job::User(_), Clock::Real(_)) => Script::LiveUser,
        (Job::Decode(_), _) => Script::Decode,
    }
}

/// Executes the script of a job.
///
/// # Errors
///
/// `NoConnection` if `loop`, `net` or `user` can't establish its connection, and the command's own
/// faults.
pub fn run_job<R: Read, W: Write>(
    rt: &HostRuntime,
    chosen: &Invocation<'_>,
    script: &mut R,
    out: &mut W,
) -> Result<(), Stop> {
    let ended = match &chosen.job {
        Job::Answer(end) => run_answer(rt, script, out, *end),
        Job::Bus { terminals } => bus(rt.alloc(), script, out, *terminals),
        Job::BusLinks {
            terminals,
            is_drawn,
        } => {
            let layout = if *is_drawn {
                BusLayout::Ladder
            } else {
                BusLayout::Lines
            };
            bus_links(rt.alloc(), script, out, *terminals, layout)
        }
        Job::Pair {
            user,
            network,
            is_drawn: false,
        } => pair(rt.alloc(), script, out, *user, *network),
        Job::Pair {
            user,
            network,
            is_drawn: true,
        } => draw_pair(rt.alloc(), script, out, *user, *network),
        Job::Loop { user, network } => return run_loop(rt, script, out, *user, *network),
        Job::Net(interface) => {
            return run_side(rt, Side::Network, interface, chosen, script, out);
        }
        Job::User(interface) => return run_side(rt, Side::User, interface, chosen, script, out),
        Job::Decode(options) => {
            return run_decode(rt, chosen, script, out, *options);
        }
    };
    ended.map_err(Stop::Script)
}

// Executes the script of a side of this interface, with the chosen clock.
fn run_side<R: Read, W: Write>(
    rt: &HostRuntime,
    side: Side,
    interface: &Interface,
    chosen: &Invocation<'_>,
    script: &mut R,
    out: &mut W,
) -> Result<(), Stop> {
    let address = with_host(rt.alloc(), side, chosen.address.unwrap_or(""))?;
    let setup = SideSetup {
        interface,
        address: address.as_str(),
        lines: if chosen.json {
            LineStyle::Json
        } else {
            LineStyle::Text
        },
    };
    match &chosen.clock {
        Clock::Real(options) => run_live(rt, side, &setup, options, script, out),
        Clock::Script => run_connected(rt, side, script, out, &setup),
    }
}

/// An address with a host. Without one, `net` listens on all addresses of this host, and `user`
/// connects to this host.
pub fn with_host(alloc: Global, side: Side, address: &str) -> Result<String, AllocError> {
    let host = match (address.starts_with(":"), side) {
        (false, _) => "",
        (true, Side::Network) => "0.0.0.0",
        (true, Side::User) => "127.0.0.1",
    };
    format!(in alloc; "{host}{address}")
}

// Executes the script of this end of a link.
fn run_answer<R: Read, W: Write>(
    rt: &HostRuntime,
    script: &mut R,
    out: &mut W,
    end: LinkEnd,
) -> Result<(), ScriptFault> {
    let LinkEnd {
        side,
        sapi,
        tei,
        params,
    } = end;
    answer(rt.alloc(), script, out, side, sapi, tei, params)
}

// Executes a script of lines with octets.
fn run_decode<R: Read, W: Write>(
    rt: &HostRuntime,
    chosen: &Invocation<'_>,
    script: &mut R,
    out: &mut W,
    options: DecodeOptions,
) -> Result<(), Stop> {
    let frames = frames_of(rt, options, PrintedTime::Hidden);
    if frames.layout != Layout::Lines
        || options.loose
        || options.follow.is_some()
        || frames.filter.is_some()
        || frames.any_sapi
        || frames.is_colored
        || frames.count.is_some()
    {
        let how = LinesStyle {
            form: form_of(options),
            frames,
            keeps_going: options.keep_going,
            follow: follow_of(options),
        };
        return run_any_lines(rt, chosen, script, out, how, options);
    }
    let ended = if options.keep_going {
        decode_good_lines(rt.alloc(), script, out, frames.style, rt.stderr())
    } else if is_default(options) {
        decode(rt.alloc(), script, out)
    } else {
        decode_lines(rt.alloc(), script, out, frames.style)
    };
    ended.map_err(Stop::Script)
}

// Executes a script of lines with octets in this form. Loose lines are read as a log.
fn run_any_lines<R: Read, W: Write>(
    rt: &HostRuntime,
    chosen: &Invocation<'_>,
    script: &mut R,
    out: &mut W,
    how: LinesStyle,
    options: DecodeOptions,
) -> Result<(), Stop> {
    match how.form {
        LineForm::Strict => run_lines(rt, script, out, how, chosen.strict),
        LineForm::Loose(_) | LineForm::Timed(_) => run_log(rt, chosen, script, out, how, options),
    }
}

/// Executes a script of lines with octets, if they are loose, not all are printed or links are
/// followed.
///
/// # Errors
///
/// `Violated` if a frame violates Q.921 and `strict` is set, and the faults of a script.
fn run_lines<R: Read, W: Write>(
    rt: &HostRuntime,
    script: &mut R,
    out: &mut W,
    how: LinesStyle,
    strict: bool,
) -> Result<(), Stop> {
    match print_lines(rt.alloc(), script, out, how, rt.stderr()) {
        Ok(is_violated) if strict && is_violated => Err(Stop::Violated),
        Ok(_) => Ok(()),
        Err(fault) => Err(Stop::Script(fault)),
    }
}

// Whether `decode` prints trace lines, as it does without options.
fn is_default(options: DecodeOptions) -> bool {
    !options.json && !options.names
}

// The form of the lines that `decode` reads.
fn form_of(options: DecodeOptions) -> LineForm {
    if options.loose {
        LineForm::Loose(options.sender)
    } else {
        LineForm::Strict
    }
}

/// How `decode` prints frames, and which, with this time.
pub fn frames_of(rt: &HostRuntime, options: DecodeOptions, time: PrintedTime) -> FrameStyle {
    FrameStyle {
        layout: layout_of(options),
        style: style_of(options),
        time: time_of(time),
        filter: filter_of(options.frames),
        once: has_calls(options),
        any_sapi: options.any_sapi,
        is_colored: is_colored(rt, options.color),
        count: options.count,
    }
}

// Whether lines are printed in colors.
fn is_colored(rt: &HostRuntime, color: Color) -> bool {
    match color {
        Color::Always => true,
        Color::Never => false,
        Color::Auto => rt.stdout().is_terminal() && !has_no_color(rt),
    }
}

// Whether the environment has the variable NO_COLOR with a text.
fn has_no_color(rt: &HostRuntime) -> bool {
    match env::var(rt, "NO_COLOR") {
        Ok(text) => !text.is_empty(),
        Err(_) => false,
    }
}

// The layout in which `decode` prints frames.
fn layout_of(options: DecodeOptions) -> Layout {
    match options.layout {
        PrintedLayout::Lines => Layout::Lines,
        PrintedLayout::Ladder => Layout::Drawn(Drawing::Ladder),
        PrintedLayout::Picture => Layout::Drawn(Drawing::Picture),
        PrintedLayout::Page => Layout::Drawn(Drawing::Page),
        PrintedLayout::Capture | PrintedLayout::Calls => Layout::Drawn(Drawing::Records),
    }
}

// The style in which `decode` prints a frame.
fn style_of(options: DecodeOptions) -> Style {
    match (options.json, options.names) {
        (false, _) if options.no_octets => Style::Brief,
        (false, false) => Style::Plain,
        (false, true) => Style::Named,
        (true, false) => Style::Json,
        (true, true) => Style::NamedJson,
    }
}

/// The time before a trace line.
pub fn time_of(time: PrintedTime) -> FrameTime {
    match time {
        PrintedTime::Hidden => FrameTime::Hidden,
        PrintedTime::Absolute => FrameTime::Absolute,
        PrintedTime::Relative => FrameTime::Relative,
        PrintedTime::Delta => FrameTime::Delta,
        PrintedTime::Day => FrameTime::Day,
        PrintedTime::Utc | PrintedTime::Local => FrameTime::Date,
    }
}

// Which frames are printed, if not all are.
fn filter_of(frames: Filter) -> Option<Filter> {
    if frames == Filter::ALL {
        None
    } else {
        Some(frames)
    }
}

/// How `decode` follows the links, if it does. It does for a table of calls, in which a message counts
/// once, however often its I frame is sent.
pub fn follow_of(options: DecodeOptions) -> Option<Follow> {
    match options.follow {
        Some(follow) => Some(Follow { k: follow.k }),
        None if has_calls(options) => Some(Follow { k: None }),
        None => None,
    }
}

// Whether `decode` prints a table of calls.
fn has_calls(options: DecodeOptions) -> bool {
    matches!(options.layout, PrintedLayout::Calls)
}

// Executes the script of two ends whose frames pass through a connection of the process to itself.
fn run_loop<R: Read, W: Write>(
    rt: &HostRuntime,
    script: &mut R,
    out: &mut W,
    user: Params,
    network: Params,
) -> Result<(), Stop> {
    let (near, far) = connection::to_itself(rt).map_err(Stop::NoConnection)?;
    let port = Port::new(FromRead::new(&far), FromWrite::new(&near));
    let (ended, _port) = loop_over(rt.alloc(), script, out, user, network, port);
    ended.map_err(Stop::Script)
}

// Executes the script of a side with the script's clock, over one connection. The network side
// accepts the first connection to its address, and the user side connects to its address.
fn run_connected<R: Read, W: Write>(
    rt: &HostRuntime,
    side: Side,
    script: &mut R,
    out: &mut W,
    setup: &SideSetup<'_>,
) -> Result<(), Stop> {
    let notes = Notes::new(rt);
    let connected = match side {
        Side::Network => connection::accepted(rt, &notes, setup.address),
        Side::User => connection::made(rt, &notes, setup.address),
    };
    let stream = connected.map_err(Stop::NoConnection)?;
    let ended = run_over(rt.alloc(), side, script, out, setup, &stream);
    let is_port_fault = matches!(&ended, Err(ScriptFault::Port(_)));
    connection::close(rt, &notes, stream, is_port_fault);
    ended.map_err(Stop::Script)
}

// Executes the script of a side with the script's clock, over this connection.
fn run_over<R: Read, W: Write>(
    alloc: Global,
    side: Side,
    script: &mut R,
    out: &mut W,
    setup: &SideSetup<'_>,
    stream: &TcpStream,
) -> Result<(), ScriptFault> {
    let interface = setup.interface;
    let port = Port::new(FromRead::new(stream), FromWrite::new(stream));
    let config = config_of(interface, interface.seed.unwrap_or(SCRIPT_SEED));
    match side {
        Side::Network => {
            let teis = interface.teis.as_slice();
            let SideRun { ended, .. } = net(alloc, script, out, port, setup.lines, config, teis);
            ended
        }
        Side::User => {
            let fixed = interface.fixed();
            let SideRun { ended, .. } = user(alloc, script, out, port, setup.lines, config, fixed);
            ended
        }
    }
}

/// The configuration of a side of this interface, with this seed of its reference numbers.
pub fn config_of(interface: &Interface, seed: u64) -> Config {
    Config {
        sapi16: interface.sapi16,
        params0: interface.params0,
        params16: interface.params16,
        durations: interface.durations,
        seed,
    }
}
