//! Running a command over any reader, writer and port.

use lapd_cli_bus::{BusLayout, bus_links};
use lapd_cli_console::Script;
use lapd_cli_live_text::read_live_line;
use lapd_cli_script::{LineFault, ScriptFault};
use lapd_cli_side_commands::{SideRun, net, user};
use lapd_cli_side_lines::LineStyle;
use lapd_cli_values::{
    Interface, InterfaceOptions, N200, ROOM, Recovery, T200, T201, T202, T203, interface_written,
};
use lapd_port::{Port, Sink, Source};
use lapd_sides::{Config, Side, Tei};
use lapd_test_scenario::{CommandWords, Commands, Run};
use std::alloc::Global;
use std::io::{Read, Write};

/// The commands `net`, `user` and `bus --links`.
#[derive(Drop)]
pub(crate) struct SideCommands;

impl Commands for SideCommands {
    fn run<R: Read, W: Write, S: Source, K: Sink>(
        &self,
        alloc: Global,
        words: CommandWords<'_>,
        script: &mut R,
        out: &mut W,
        port: Port<S, K>,
    ) -> Run<S, K> {
        match words.command() {
            "bus" => (run_bus(alloc, words, script, out), port),
            "net" => run_net(alloc, words, script, out, port),
            "user" => run_user(alloc, words, script, out, port),
            _ => (Err(ScriptFault::BadLine(0)), port),
        }
    }

    fn refuses_line(&self, alloc: Global, script: Script, line: &[u8]) -> Option<bool> {
        match script {
            Script::LiveNet => Some(is_bad_live(alloc, Side::Network, line)),
            Script::LiveUser => Some(is_bad_live(alloc, Side::User, line)),
            _ => None,
        }
    }
}

/// Whether a line is not valid for a side with the real clock.
fn is_bad_live(alloc: Global, side: Side, line: &[u8]) -> bool {
    let is_passed_over = matches!(line, [] | [b'#', ..]);
    let read = read_live_line(alloc, side, Tei::group(), line);
    !is_passed_over && matches!(&read, Err(LineFault::Bad))
}

fn run_bus<R: Read, W: Write>(
    alloc: Global,
    words: CommandWords<'_>,
    script: &mut R,
    out: &mut W,
) -> Result<(), ScriptFault> {
    let layout = if words.has("--ladder") {
        BusLayout::Ladder
    } else {
        BusLayout::Lines
    };
    let terminals = words.octet("--terminals").unwrap_or(2);
    bus_links(alloc, script, out, terminals, layout)
}

fn run_net<R: Read, W: Write, S: Source, K: Sink>(
    alloc: Global,
    words: CommandWords<'_>,
    script: &mut R,
    out: &mut W,
    port: Port<S, K>,
) -> Run<S, K> {
    let Ok(interface) = interface_written(alloc, &options_of(words), &[]) else {
        return (Err(ScriptFault::Memory), port);
    };
    let (config, known) = (config_of(&interface), interface.teis.as_slice());
    let style = style_of(words);
    let SideRun { ended, port, .. } = net(alloc, script, out, port, style, config, known);
    (ended, port)
}

fn run_user<R: Read, W: Write, S: Source, K: Sink>(
    alloc: Global,
    words: CommandWords<'_>,
    script: &mut R,
    out: &mut W,
    port: Port<S, K>,
) -> Run<S, K> {
    let Ok(interface) = interface_written(alloc, &options_of(words), &[]) else {
        return (Err(ScriptFault::Memory), port);
    };
    let (config, fixed) = (config_of(&interface), interface.fixed());
    let style = style_of(words);
    let SideRun { ended, port, .. } = user(alloc, script, out, port, style, config, fixed);
    (ended, port)
}

fn style_of(words: CommandWords<'_>) -> LineStyle {
    if words.has("--json") {
        LineStyle::Json
    } else {
        LineStyle::Text
    }
}

/// The options of an interface at basic access or, with `--pri`, at primary rate.
fn options_of(words: CommandWords<'_>) -> InterfaceOptions<'static> {
    InterfaceOptions {
        pri: words.has("--pri"),
        sapi16: false,
        k: None,
        n200: N200.default,
        room: ROOM.default,
        recovery: Recovery::Enquiry,
        t200: T200.default,
        t201: T201.default,
        t202: T202.default,
        t203: T203.default,
        seed: None,
    }
}

fn config_of(interface: &Interface) -> Config {
    Config {
        sapi16: interface.sapi16,
        params0: interface.params0,
        params16: interface.params16,
        durations: interface.durations,
        seed: 921,
    }
}
