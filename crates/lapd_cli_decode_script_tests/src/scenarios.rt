//! Tables of scenarios, and the example in the help.

pub(crate) mod decodes;
pub(crate) mod follows;
pub(crate) mod ladders;

use crate::run::Decode;
use lapd_cli_help::decode_help;
use lapd_test_scenario::{Example, example_holds, scenarios_hold};
use std::alloc::Global;
use std::test::Fail;

const TABLES: &[&str] = &[decodes::SCENARIOS, follows::SCENARIOS, ladders::SCENARIOS];

/// The example in the help.
const EXAMPLE: Example = Example {
    words: "lapd decode",
    parted_by: "\nExample. ",
    is_after: true,
};

/// Whether the example in the help runs as written.
fn is_written(alloc: Global) -> bool {
    example_holds(alloc, &Decode, EXAMPLE, decode_help::DECODE)
}

#[test]
fn scenarios_print_what_they_state(rt: HostRuntime) -> Result<(), Fail> {
    scenarios_hold(rt.alloc(), &Decode, TABLES)?;
    if is_written(rt.alloc()) {
        Ok(())
    } else {
        Err(Fail::new("the example of decode goes otherwise"))
    }
}
