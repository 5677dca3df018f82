//! Why a line is not valid for its command.

use crate::run::SideCommands;
use lapd_cli_console::Script;
use lapd_test_scenario::lines_hold;
use std::test::Fail;

/// The commands, and words that choose them.
const COMMANDS: &[(Script, &str)] = &[
    (Script::BusLinks, "lapd bus --links"),
    (Script::LiveNet, "lapd net --clock real"),
    (Script::LiveUser, "lapd user --clock real"),
    (Script::Net, "lapd net"),
    (Script::User, "lapd user"),
];

#[test]
fn lines_have_reasons(rt: HostRuntime) -> Result<(), Fail> {
    for (script, words) in COMMANDS {
        lines_hold(rt.alloc(), &SideCommands, *script, *words)?;
    }
    Ok(())
}
