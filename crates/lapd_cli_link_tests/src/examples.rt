//! The examples in the help are scenarios.

use crate::run::LinkCommands;
use lapd_cli_console::Script;
use lapd_cli_help::command_help;
use lapd_test_scenario::{Example, example_holds};
use std::alloc::Global;

/// A help text. The texts are long, so only this function names them.
fn text_of(script: Script) -> &'static str {
    match script {
        Script::Answer => command_help::ANSWER,
        Script::Bus => command_help::BUS,
        Script::Loop => command_help::LOOP,
        Script::Pair => command_help::PAIR,
        _ => "",
    }
}

/// The script whose help has the example, and the example. `loop` prints the same as `pair`.
const EXAMPLES: &[(Script, Example)] = &[
    (
        Script::Answer,
        Example {
            words: "lapd answer --side user",
            parted_by: "\nThe network side, ",
            is_after: false,
        },
    ),
    (
        Script::Answer,
        Example {
            words: "lapd answer",
            parted_by: "\nThe network side, ",
            is_after: true,
        },
    ),
    (
        Script::Pair,
        Example {
            words: "lapd pair",
            parted_by: "\nThe network side restarts",
            is_after: false,
        },
    ),
    (
        Script::Pair,
        Example {
            words: "lapd pair",
            parted_by: "\nThe network side restarts",
            is_after: true,
        },
    ),
    (
        Script::Loop,
        Example {
            words: "lapd pair",
            parted_by: "\nExample",
            is_after: true,
        },
    ),
    (
        Script::Bus,
        Example {
            words: "lapd bus",
            parted_by: "\nWith --links",
            is_after: false,
        },
    ),
];

/// The words of the first example that does not run as written.
pub(crate) fn wrong_example(alloc: Global) -> Option<&'static str> {
    for (script, example) in EXAMPLES {
        if !example_holds(alloc, &LinkCommands, *example, text_of(*script)) {
            return Some(example.words);
        }
    }
    None
}
