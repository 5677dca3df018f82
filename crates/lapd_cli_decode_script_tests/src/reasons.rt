//! Why a line is not valid for the command.

use crate::run::Decode;
use lapd_cli_console::Script;
use lapd_test_scenario::lines_hold;
use std::test::Fail;

#[test]
fn lines_have_reasons(rt: HostRuntime) -> Result<(), Fail> {
    lines_hold(rt.alloc(), &Decode, Script::Decode, "lapd decode")
}
