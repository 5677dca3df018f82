//! Why a line is not valid for its command.

use crate::run::LinkCommands;
use lapd_cli_console::Script;
use lapd_test_scenario::{lines_hold, typed_lines_hold};
use std::test::Fail;

/// The commands, and words that choose them.
const COMMANDS: &[(Script, &str)] = &[
    (Script::Answer, "lapd answer"),
    (Script::Bus, "lapd bus"),
    (Script::Loop, "lapd loop"),
    (Script::Pair, "lapd pair"),
];

#[test]
fn lines_have_reasons(rt: HostRuntime) -> Result<(), Fail> {
    for (script, words) in COMMANDS {
        lines_hold(rt.alloc(), &LinkCommands, *script, *words)?;
    }
    Ok(())
}

/// The scripts of all commands.
const SCRIPTS: &[Script] = &[
    Script::Answer,
    Script::Bus,
    Script::BusLinks,
    Script::Decode,
    Script::LiveNet,
    Script::LiveUser,
    Script::Loop,
    Script::Net,
    Script::Pair,
    Script::User,
];

#[test]
fn typed_lines_are_tidied(rt: HostRuntime) -> Result<(), Fail> {
    for script in SCRIPTS {
        typed_lines_hold(rt.alloc(), *script)?;
    }
    Ok(())
}
