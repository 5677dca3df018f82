//! Each call of the surroundings fails once.

use crate::made::{Arrivals, Input, Made, Trouble};
use crate::scenario_run::{ScenarioRun, Who, hold, scenario};
use crate::typed::{Keys, Reads};
use lapd_cli_live::{LineStyle, LiveStop, Style};
use lapd_cli_script::ScriptFault;
use lapd_port::PortFault;
use lapd_test_text::wants;
use std::alloc::{AllocError, Global};
use std::test::Fail;

const ARRIVALS: Arrivals<'_> = Arrivals {
    events: "1 line\n5 00817f\n10 008100000801\n15000 line\n15010 close\n",
    answers: "",
};

const SCRIPT: &str = "read\nrun 20\ngive 0 64 0902\nexpect 0 64 report 20000\nstate\n|stats\n";

const STYLE: Style = Style {
    time: true,
    quiet: false,
    lines: LineStyle::Text,
};

/// How often a script or a session calls the surroundings with this trouble, and how it ends;
/// `None` if an allocation fails.
fn calls_with(
    alloc: Global,
    is_script: bool,
    trouble: Trouble,
) -> Option<(u64, Result<(), LiveStop>)> {
    let reads = Reads::new();
    match run_with(alloc, is_script, trouble, &reads) {
        Ok(scenario_run) => Some((scenario_run.made.calls, scenario_run.ended)),
        Err(_) => None,
    }
}

/// A script or a session with this trouble.
fn run_with<'s>(
    alloc: Global,
    is_script: bool,
    trouble: Trouble,
    reads: &'s Reads,
) -> Result<ScenarioRun<'s>, AllocError> {
    let keys = Keys::new(SCRIPT, reads);
    let made = Made::new(alloc, ARRIVALS, Input::Typed(reads), trouble);
    if is_script {
        scenario(alloc, Who::Net, STYLE, made, keys, true)
    } else {
        hold(alloc, Who::Net, STYLE, made, keys, true)
    }
}

/// The number of calls if none fails and the input ends without a fault.
fn calls_in_all(alloc: Global, is_script: bool) -> u64 {
    match calls_with(alloc, is_script, Trouble::Never) {
        Some((calls, Ok(()))) => calls,
        _ => 0,
    }
}

/// Whether the script or session ends with the fault of the call with this number, and makes no
/// further call.
fn ends_at(alloc: Global, is_script: bool, call: u64) -> bool {
    let fault = LiveStop::Script(ScriptFault::Port(PortFault::Device));
    match calls_with(alloc, is_script, Trouble::FailsAt(call)) {
        Some((made, ended)) => made == call && ended == Err(fault),
        None => false,
    }
}

/// Fails unless each call that fails ends the script or the session.
fn end_at_each(alloc: Global, is_script: bool) -> Result<(), Fail> {
    let name = if is_script { "a script" } else { "a session" };
    let calls = calls_in_all(alloc, is_script);
    let some = 20 < calls && calls < 200;
    wants(some, name, "it fails, or has another number of calls")?;
    for call in 1..=calls {
        let ends = ends_at(alloc, is_script, call);
        wants(ends, name, "it does not end by a call that fails")?;
    }
    Ok(())
}

#[test]
fn each_call_fails_once(rt: HostRuntime) -> Result<(), Fail> {
    end_at_each(rt.alloc(), true)?;
    end_at_each(rt.alloc(), false)
}
