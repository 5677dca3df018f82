//! Tables of scenarios.

pub(crate) mod answers;
pub(crate) mod buses;
pub(crate) mod ladders;
pub(crate) mod pairs;

use crate::examples::wrong_example;
use crate::run::LinkCommands;
use lapd_test_scenario::scenarios_hold;
use std::test::Fail;

const TABLES: &[&str] = &[
    answers::SCENARIOS,
    answers::LONG,
    buses::SCENARIOS,
    ladders::SCENARIOS,
    pairs::PAIRS,
    pairs::LOOPS,
];

#[test]
fn scenarios_print_what_they_state(rt: HostRuntime) -> Result<(), Fail> {
    scenarios_hold(rt.alloc(), &LinkCommands, TABLES)?;
    match wrong_example(rt.alloc()) {
        Some(words) => Err(Fail::new(format_args!("the example of {words} goes otherwise"))),
        None => Ok(()),
    }
}
