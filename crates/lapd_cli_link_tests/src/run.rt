//! Running a command over any reader, writer and port.

ghost use Rattle.std.specs.Prelude.{◌≢◌};
ghost use Rattle.lapd_frame.specs.declared.Sapi.TheVariants.{Management};

use lapd_cli_answer::answer;
use lapd_cli_console::Script;
use lapd_cli_link_commands::{bus, draw_pair, loop_over, pair};
use lapd_cli_script::ScriptFault;
use lapd_cli_values::{
    K, LINK_TEI, N200, Params, ROOM, Recovery, Sapi, Side, params_of, tei_written,
};
use lapd_port::{Port, Sink, Source};
use lapd_test_scenario::{CommandWords, Commands, Run};
use std::alloc::Global;
use std::io::{Read, Write};

/// The commands `answer`, `pair`, `loop` and `bus`.
#[derive(Drop)]
pub(crate) struct LinkCommands;

impl Commands for LinkCommands {
    fn run<R: Read, W: Write, S: Source, K: Sink>(
        &self,
        alloc: Global,
        words: CommandWords<'_>,
        script: &mut R,
        out: &mut W,
        port: Port<S, K>,
    ) -> Run<S, K> {
        let (user, network) = (
            params(words, "--recovery-user"),
            params(words, "--recovery-net"),
        );
        match words.command() {
            "answer" => (run_answer(alloc, words, script, out), port),
            "bus" => (
                bus(alloc, script, out, words.octet("--terminals").unwrap_or(2)),
                port,
            ),
            "loop" => loop_over(alloc, script, out, user, network, port),
            "pair" if words.has("--ladder") => {
                (draw_pair(alloc, script, out, user, network), port)
            }
            "pair" => (pair(alloc, script, out, user, network), port),
            _ => (Err(ScriptFault::BadLine(0)), port),
        }
    }

    fn refuses_line(&self, _: Global, _: Script, _: &[u8]) -> Option<bool> {
        None
    }
}

fn run_answer<R: Read, W: Write>(
    alloc: Global,
    words: CommandWords<'_>,
    script: &mut R,
    out: &mut W,
) -> Result<(), ScriptFault> {
    let (side, sapi, params) = (side_of(words), sapi_of(words), params(words, "--recovery"));
    match tei_written(LINK_TEI, words.value("--tei", LINK_TEI.default)) {
        Ok(tei) => answer(alloc, script, out, side, sapi, tei, params),
        Err(_) => Err(ScriptFault::BadLine(0)),
    }
}

fn side_of(words: CommandWords<'_>) -> Side {
    match words.value("--side", "net") {
        "user" => Side::User,
        _ => Side::Network,
    }
}

fn sapi_of(words: CommandWords<'_>) -> Sapi
    ensures { result ≢ Management }
{
    match words.value("--sapi", "0") {
        "16" => Sapi::Packet,
        _ => Sapi::Call,
    }
}

/// The parameters of a link, with the recovery after this option.
fn params(words: CommandWords<'_>, recovery: &str) -> Params {
    let recovery = match words.value(recovery, "enquiry") {
        "last" => Recovery::LastMessage,
        _ => Recovery::Enquiry,
    };
    params_of(
        words.value("--k", K.default),
        words.value("--n200", N200.default),
        words.value("--room", ROOM.default),
    )
    .unwrap_or(Params::basic(Sapi::Call))
    .with_recovery(recovery)
}
