//! Lines that are invalid with the real clock, and lines that are valid.

use crate::made::{Arrivals, Input, Made, Trouble};
use crate::scenario_run::{Who, scenario};
use crate::typed::{Keys, Reads};
use lapd_cli_live::{LineStyle, LiveStop, Style};
use lapd_cli_script::ScriptFault;
use lapd_test_text::wants;
use std::alloc::Global;
use std::test::Fail;

/// Lines of the network side.
const BAD: &str =
    "tick 5|read 0|read 3600001|read 1 1|read |run 0|run x|wait|wait 0|expect|expect 5|expect  5|expect a 0|\
    expect a|expect a 3600001|state 0|state 0 128|state 1 64|state 0 64 1|stats 1|ask|establish 0|give 0 0801|\
    check|remove|check-all 64|remove-all 0|remove 128|remove 64 1|Read|busy|busy 0 64|busy 0 on|busy 0 64 no|busy 0 64 on 1|busy 0 128 on|impair|impair x|impair 101|\
    impair 101%|impair %|impair 5%%|impair 20% 3600001|impair 20% x|impair 20% 1 1";

const GOOD: &str =
    "read 1|read 3600000|run 1|wait 1|state|state 0 64|state 16 5|stats|establish 0 64|give 0 64 0801|\
    check 64|remove 64|check-all|remove-all|unit 0 127 01|# tick||run|read|busy 0 64 on|busy 16 5 off|impair 0|impair 100%|impair 20% 0|\
    impair 20 3600000";

/// Lines of the user side.
const BAD_OF_USER: &str =
    "tick 5|check 64|remove 64|check-all|remove-all|establish 0 64|give 0 64 0801|state 0 64|ask 1|release|establish 1|\
    busy 0 64 on|busy 0|busy on|impair -1%";

const GOOD_OF_USER: &str =
    "ask|establish 0|release 16|give 0 0801|unit 0 01|unit 16|state 0|state|stats|run 5|busy 0 on|busy 16 off|impair 20% 100";

const STYLE: Style = Style {
    time: false,
    quiet: false,
    lines: LineStyle::Text,
};

const ARRIVALS: Arrivals<'_> = Arrivals {
    events: "5 close\n",
    answers: "",
};

/// Whether a line is bad, or valid if `bad` is `false`.
fn is(alloc: Global, who: Who, line: &str, bad: bool) -> bool {
    let reads = Reads::new();
    let keys = Keys::new(line, &reads);
    let made = Made::new(alloc, ARRIVALS, Input::File, Trouble::Never);
    match scenario(alloc, who, STYLE, made, keys, false) {
        Ok(scenario_run) => {
            let fault = LiveStop::Script(ScriptFault::BadLine(1));
            (scenario_run.ended == Err(fault)) == bad
        }
        Err(_) => false,
    }
}

/// Fails unless all these lines are bad, or all valid if `bad` is `false`.
fn are(alloc: Global, who: Who, lines: &str, bad: bool) -> Result<(), Fail> {
    for line in lines.split('|') {
        let so = is(alloc, who, line, bad);
        wants(so, line, "it is valid, or it is not")?;
    }
    Ok(())
}

#[test]
fn bad_lines_are_reported(rt: HostRuntime) -> Result<(), Fail> {
    are(rt.alloc(), Who::Net, BAD, true)?;
    are(rt.alloc(), Who::Net, GOOD, false)?;
    are(rt.alloc(), Who::User, BAD_OF_USER, true)?;
    are(rt.alloc(), Who::User, GOOD_OF_USER, false)
}
