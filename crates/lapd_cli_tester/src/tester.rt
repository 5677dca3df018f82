//! A run of the conformance tester against a stack.

use crate::chosen_cases::Suite;
use crate::closest::check_known;
use crate::origin::{Address, Origin};
use crate::printed::{Printed, ResultStyle};
use crate::refused::{
    print_lost, print_memory, print_no_connection, print_no_file, print_wrong_file,
};
use crate::station::TcpStation;
use crate::upper_tester::UpperTester;
use lapd_cli_conform::{
    DrawPlan, DrawnRun, Halt, KnownCases, Run, Selection, Stack, read_stack, usual_stack,
    without_upper,
};
use lapd_cli_notes::{Notes, connection};
use lapd_frame::Side;
use std::random::RandomSource;
use std::{fs, io};

/// What is played against the stack.
#[derive(Clone, Copy)]
pub enum Play<'a> {
    /// The cases of a suite.
    Cases(Cases<'a>),
    /// So many drawn stimuli, of this seed; without one, of a seed that the system draws.
    Drawn(u64, Option<u64>),
}

/// The cases of a suite that are played.
#[derive(Clone, Copy)]
pub struct Cases<'a> {
    /// The file of the suite. `None` for the built-in one.
    pub suite: Option<&'a str>,
    /// The patterns of the names of the cases that are played. Without one, all are.
    pub patterns: &'a [&'a str],
    /// The names of the cases that are known to fail, each text with commas between them.
    pub known: &'a [&'a str],
}

/// What is tested, and how the results are reported.
#[derive(Clone, Copy)]
pub struct TesterSetup<'a> {
    /// The side of the stack under test.
    pub side: Side,
    /// How the stack is reached.
    pub address: Address<'a>,
    /// The address at which its upper tester listens.
    pub upper: Option<&'a str>,
    /// The stack file.
    pub stack: Option<&'a str>,
    /// What is played.
    pub play: Play<'a>,
    /// Whether each case begins with a new connection, with which the stack starts anew.
    pub anew: bool,
    /// How the results are reported.
    pub results: ResultStyle<'a>,
}

/// Plays cases or drawn stimuli against a stack, and reports the results. Returns the exit status:
/// 0 if no case failed, 1 if one did, 2 if a file or a pattern is wrong, 3 after a device fault, 4
/// if an allocation failed or no case passed or failed.
pub fn run_tester(rt: &HostRuntime, setup: &TesterSetup<'_>) -> u8 {
    match stack_of(rt, setup) {
        Ok(stack) => test(rt, setup, &stack),
        Err(status) => status,
    }
}

fn test(rt: &HostRuntime, setup: &TesterSetup<'_>, stack: &Stack) -> u8 {
    match setup.play {
        Play::Cases(cases) => test_by_cases(rt, setup, stack, cases),
        Play::Drawn(count, seed) => {
            let seed = seed.unwrap_or(drawn_seed(rt));
            test_by_draws(rt, setup, stack, DrawPlan { count, seed })
        }
    }
}

/// A seed that the system draws, below 2^32.
fn drawn_seed(rt: &HostRuntime) -> u64 {
    let mut octets = [0; 4];
    // If the system can't draw octets, they stay 0.
    let _ = rt.fill_bytes(&mut octets);
    u64::from(u32::from_be_bytes(octets))
}

/// The stack of the stack file, or the usual one. Without an upper tester it takes no requests.
fn stack_of(rt: &HostRuntime, setup: &TesterSetup<'_>) -> Result<Stack, u8> {
    let stack = match setup.stack {
        Some(file) => stack_in(rt, setup.side, file)?,
        None => usual_stack(setup.side),
    };
    match setup.upper {
        Some(_) => Ok(stack),
        None => Ok(without_upper(stack)),
    }
}

fn stack_in(rt: &HostRuntime, side: Side, file: &str) -> Result<Stack, u8> {
    let text = match fs::read(rt, file) {
        Ok(text) => text,
        Err(error) => return Err(print_no_file(rt, file, &error)),
    };
    match read_stack(side, text.as_slice()) {
        Ok(stack) => Ok(stack),
        Err(fault) => Err(print_wrong_file(rt, file, &fault)),
    }
}

/// Plays the cases of a suite.
fn test_by_cases(rt: &HostRuntime, setup: &TesterSetup<'_>, stack: &Stack, cases: Cases<'_>) -> u8 {
    match Suite::read(rt, cases.suite) {
        Ok(suite) => test_by_suite(rt, setup, stack, &suite, cases),
        Err(status) => status,
    }
}

fn test_by_suite(
    rt: &HostRuntime,
    setup: &TesterSetup<'_>,
    stack: &Stack,
    suite: &Suite<'_>,
    cases: Cases<'_>,
) -> u8 {
    let selection = Selection {
        patterns: cases.patterns,
    };
    let count = match suite.count(rt, &selection) {
        Ok(count) => count,
        Err(status) => return status,
    };
    if let Err(status) = check_known(rt, suite, cases.known) {
        return status;
    }
    let known = KnownCases { lists: cases.known };
    let notes = Notes::new(rt);
    let (mut printed, mut station) = match begun(rt, &notes, setup, stack) {
        Ok(begun) => begun,
        Err(status) => return status,
    };
    let mut run = Run::new(rt.alloc(), stack, selection, known, count);
    let ended = suite.play(rt, &mut run, &mut station, &mut printed);
    let status = match stopped(rt, &printed, ended) {
        Some(status) => status,
        None => match printed.finish(run.tally()) {
            Ok(()) if ended.is_ok() => run.tally().status(),
            Ok(()) => print_lost(rt, run.number(), station.fault()),
            Err(status) => status,
        },
    };
    connection::close(rt, &notes, station.into_stream(), false);
    status
}

/// Plays drawn stimuli.
fn test_by_draws(rt: &HostRuntime, setup: &TesterSetup<'_>, stack: &Stack, plan: DrawPlan) -> u8 {
    let notes = Notes::new(rt);
    let (mut printed, mut station) = match begun(rt, &notes, setup, stack) {
        Ok(begun) => begun,
        Err(status) => return status,
    };
    let mut run = DrawnRun::new(rt.alloc(), stack, plan);
    let ended = run.play(&mut station, &mut printed);
    let counts = run.counts();
    let status = match stopped(rt, &printed, ended) {
        Some(status) => status,
        None => match printed.finish_drawn(&counts) {
            Ok(()) if ended.is_ok() => counts.tally.status(),
            Ok(()) => print_lost(rt, run.number(), station.fault()),
            Err(status) => status,
        },
    };
    connection::close(rt, &notes, station.into_stream(), false);
    status
}

/// The results, and the connection to the stack.
///
/// # Errors
///
/// The exit status if there is no folder of reports or no connection, which is reported.
fn begun<'a>(
    rt: &'a HostRuntime,
    notes: &Notes<'_>,
    setup: &TesterSetup<'a>,
    stack: &'a Stack,
) -> Result<(Printed<'a>, TcpStation<'a>), u8> {
    let is_drawn = matches!(setup.play, Play::Drawn(_, _));
    let printed = Printed::new(rt, stack, setup.results, is_drawn)?;
    let station = station_of(rt, notes, setup)?;
    Ok((printed, station))
}

/// The stack, reached over its connection and that of its upper tester.
fn station_of<'a>(
    rt: &'a HostRuntime,
    notes: &Notes<'_>,
    setup: &TesterSetup<'a>,
) -> Result<TcpStation<'a>, u8> {
    let upper = upper_of(rt, notes, setup.upper)?;
    let (what, address) = match setup.address {
        Address::Connect(address) => ("connect to", address),
        Address::Listen(address) => ("listen on", address),
    };
    match connected(rt, notes, setup, upper) {
        Ok(station) => Ok(station),
        Err(error) => Err(print_no_connection(rt, what, address, &error)),
    }
}

fn connected<'a>(
    rt: &'a HostRuntime,
    notes: &Notes<'_>,
    setup: &TesterSetup<'a>,
    upper: Option<UpperTester>,
) -> io::Result<TcpStation<'a>> {
    let origin = Origin::new(rt, notes, setup.address)?;
    let stream = origin.first(rt, notes)?;
    let kept = if setup.anew { Some(origin) } else { None };
    TcpStation::new(rt, stream, upper, kept)
}

/// The connection to the upper tester, if there is one.
fn upper_of(
    rt: &HostRuntime,
    notes: &Notes<'_>,
    address: Option<&str>,
) -> Result<Option<UpperTester>, u8> {
    let Some(address) = address else {
        return Ok(None);
    };
    match connection::made(rt, notes, address) {
        Ok(stream) => Ok(Some(UpperTester::new(rt.alloc(), stream))),
        Err(error) => Err(print_no_connection(rt, "connect to", address, &error)),
    }
}

/// The exit status of a run that ended without counts, which is reported.
fn stopped(rt: &HostRuntime, printed: &Printed<'_>, ended: Result<(), Halt>) -> Option<u8> {
    printed.erase();
    match ended {
        Err(Halt::Output) => Some(printed.print_fault()),
        Err(Halt::Memory) => Some(print_memory(rt)),
        Ok(()) | Err(Halt::Closed) => None,
    }
}
