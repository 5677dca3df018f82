//! Tables of scenarios.

pub(crate) mod buses_of_sides;
pub(crate) mod ports;
pub(crate) mod sides;

use crate::examples::links_are_drawn;
use crate::run::SideCommands;
use lapd_test_scenario::scenarios_hold;
use std::test::Fail;

const TABLES: &[&str] = &[
    buses_of_sides::LISTED,
    buses_of_sides::DRAWN,
    sides::SCENARIOS,
    ports::SCENARIOS,
];

#[test]
fn scenarios_print_what_they_state(rt: HostRuntime) -> Result<(), Fail> {
    scenarios_hold(rt.alloc(), &SideCommands, TABLES)?;
    if links_are_drawn(rt.alloc()) {
        Ok(())
    } else {
        Err(Fail::new("the example of bus --links goes otherwise"))
    }
}
