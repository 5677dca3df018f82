//! Failed allocations. A test can't make an allocation fail: `tools/refuse-memory` refuses each
//! allocation of a run in turn, and a test prints that it met the refusal (docs/DEVELOPING.md).

use crate::CommandWords;
use crate::commands::Commands;
use crate::scenario::{Console, Line, Scenario, mark_of};
use lapd_cli_script::ScriptFault;
use lapd_port::{FromRead, FromWrite, Port};
use std::alloc::Global;
use std::test::Fail;

/// Fails the test unless a scenario of the command of these words runs as written. If an allocation
/// fails, the earlier lines must be answered, and nothing of the current line's answer printed. A
/// side may have printed a part of it, in whole lines.
pub fn survives<C: Commands>(
    rt: &HostRuntime,
    commands: &C,
    words: &str,
    text: &str,
) -> Result<(), Fail> {
    let words = CommandWords(words);
    let is_side = matches!(words.command(), "net" | "user");
    let scenario = Scenario::new(text, 5);
    let ended = ended_of(rt.alloc(), commands, words, &scenario);
    let holds = match ended {
        Err(ScriptFault::Memory) => is_kept(&scenario, text, is_side),
        _ => scenario.ends(rt.alloc(), ended),
    };
    if ended.is_err() {
        println!(rt; "refused")?;
    }
    if holds {
        Ok(())
    } else {
        Err(Fail::new(format_args!("another fault, or another text")))
    }
}

fn ended_of<C: Commands>(
    alloc: Global,
    commands: &C,
    words: CommandWords<'_>,
    scenario: &Scenario<'_>,
) -> Result<(), ScriptFault> {
    let port = Port::new(
        FromRead::new(Line(scenario)),
        FromWrite::new(Line(scenario)),
    );
    let (ended, _port) = commands.run(
        alloc,
        words,
        &mut Console(scenario),
        &mut Console(scenario),
        port,
    );
    ended
}

/// Whether nothing of the last answer was printed or, on a side, only whole lines. Four spaces mark
/// a line of the scenario that the program prints.
fn is_kept(scenario: &Scenario<'_>, text: &str, is_side: bool) -> bool {
    if scenario.mark() != b"    ".as_slice() {
        return true;
    }
    let done = text.len().saturating_sub(scenario.left.get().len());
    let done = text.get(..done).unwrap_or("").trim_end();
    let last = done.rsplit('\n').next().unwrap_or("");
    !scenario.is_within_line() && (is_side || mark_of(last.as_bytes()) != b"    ".as_slice())
}
