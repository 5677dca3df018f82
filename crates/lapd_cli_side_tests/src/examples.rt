//! The examples in the help are scenarios.

use crate::run::SideCommands;
use lapd_cli_console::Script;
use lapd_cli_help::{command_help, side_help};
use lapd_test_scenario::{Example, example_holds};
use std::alloc::Global;

/// A help text. The texts are long, so only this function names them.
pub(crate) fn text_of(script: Script) -> &'static str {
    match script {
        Script::BusLinks => command_help::BUS,
        Script::Net => side_help::NET,
        Script::User => side_help::USER,
        _ => "",
    }
}

/// The example of `bus --links`.
const OF_LINKS: Example = Example {
    words: "lapd bus --links --ladder",
    parted_by: "\nWith --links",
    is_after: true,
};

/// Whether the example of `bus --links` runs as written.
pub(crate) fn links_are_drawn(alloc: Global) -> bool {
    example_holds(alloc, &SideCommands, OF_LINKS, text_of(Script::BusLinks))
}
