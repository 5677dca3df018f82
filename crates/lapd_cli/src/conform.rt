//! The command `conform`.

use crate::ending::print_memory;
use crate::job::with_host;
use lapd_cli_options::{Conformance, Side, StackTest, Stimuli};
use lapd_cli_tester::{Address, Cases, Play, ResultStyle, TesterSetup, print_suite, run_tester};
use std::process::ExitCode;

/// Tests a stack, or prints cases of a suite, and reports how that ended.
pub fn run_conform(rt: &HostRuntime, conformance: &Conformance<'_>) -> ExitCode {
    match conformance {
        Conformance::Print(cases) => ExitCode::from(print_suite(
            rt,
            cases.suite,
            cases.patterns.as_slice(),
        )),
        Conformance::Test(test) => run_test(rt, test),
    }
}

// Tests a stack. An address without a host is one of all of this host, or this host.
fn run_test(rt: &HostRuntime, test: &StackTest<'_>) -> ExitCode {
    let side = if test.listens {
        Side::Network
    } else {
        Side::User
    };
    let Ok(address) = with_host(rt.alloc(), side, test.address) else {
        return print_memory(rt);
    };
    run_test_at(rt, test, address.as_str())
}

// Tests the stack at this address, which has a host.
fn run_test_at<'a>(rt: &HostRuntime, test: &'a StackTest<'a>, address: &'a str) -> ExitCode {
    let address = if test.listens {
        Address::Listen(address)
    } else {
        Address::Connect(address)
    };
    let results = ResultStyle {
        json: test.json,
        junit: test.junit,
        report: test.report,
    };
    let setup = TesterSetup {
        side: test.side,
        address,
        upper: test.upper,
        stack: test.stack,
        play: play_of(test),
        anew: test.anew,
        results,
    };
    ExitCode::from(run_tester(rt, &setup))
}

// What is played.
fn play_of<'a>(test: &'a StackTest<'a>) -> Play<'a> {
    match &test.stimuli {
        Stimuli::Cases(cases, known) => Play::Cases(Cases {
            suite: cases.suite,
            patterns: cases.patterns.as_slice(),
            known: known.as_slice(),
        }),
        Stimuli::Drawn(count, seed) => Play::Drawn(*count, *seed),
    }
}
