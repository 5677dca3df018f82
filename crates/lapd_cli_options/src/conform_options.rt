//! The options of `conform`.

use crate::decode_options::number_of;
use crate::no_invocation::NoInvocation;
use crate::option_tables::{DRAW, DRAW_SEED, STACK_CONNECT, STACK_LISTEN, UPPER};
use clap::ArgMatches;
use lapd_cli_values::Side;
use std::alloc::Global;

/// The name of the command.
pub(crate) const NAME: &str = "conform";

/// What `conform` does.
#[derive(Drop)]
pub enum Conformance<'a> {
    /// Print cases of a suite.
    Print(CaseChoice<'a>),
    /// Test a stack.
    Test(StackTest<'a>),
}

/// Cases of a suite.
#[derive(Drop)]
pub struct CaseChoice<'a> {
    /// The file of the suite, unchanged from the command line. `None` for the built-in one.
    pub suite: Option<&'a str>,
    /// The patterns of names, unchanged from the command line. Without one, all cases.
    pub patterns: Vec<&'a str>,
}

/// What is played against a stack.
#[derive(Drop)]
pub enum Stimuli<'a> {
    /// Cases of a suite, and the names of those that are known to fail, unchanged from the command
    /// line.
    Cases(CaseChoice<'a>, Vec<&'a str>),
    /// So many drawn stimuli, of this seed; without one, of any.
    Drawn(u64, Option<u64>),
}

/// A test of a stack.
#[derive(Drop)]
pub struct StackTest<'a> {
    /// What is played.
    pub stimuli: Stimuli<'a>,
    /// The side that is tested.
    pub side: Side,
    /// The address of the stack, unchanged from the command line.
    pub address: &'a str,
    /// Whether the tester waits for the stack at the address.
    pub listens: bool,
    /// The address of the upper tester, unchanged from the command line.
    pub upper: Option<&'a str>,
    /// The stack file, unchanged from the command line.
    pub stack: Option<&'a str>,
    /// Whether each case begins with a new connection.
    pub anew: bool,
    /// The folder for the frames of cases that fail, unchanged from the command line.
    pub report: Option<&'a str>,
    /// The file for results as JUnit XML, unchanged from the command line.
    pub junit: Option<&'a str>,
    /// Whether each result is a JSON object.
    pub json: bool,
}

/// The meaning of the options of `conform`.
pub(crate) fn conformance_of<'a>(
    alloc: Global,
    given: &ArgMatches<'a>,
) -> Result<Conformance<'a>, NoInvocation<'a>> {
    let stimuli = stimuli_of(alloc, given)?;
    match stimuli {
        Stimuli::Cases(cases, _) if given.get_flag("print") => Ok(Conformance::Print(cases)),
        stimuli => test_of(given, stimuli),
    }
}

fn test_of<'a>(
    given: &ArgMatches<'a>,
    stimuli: Stimuli<'a>,
) -> Result<Conformance<'a>, NoInvocation<'a>> {
    let side = tested_side(given)?;
    let (address, listens) = address_of(given)?;
    Ok(Conformance::Test(StackTest {
        stimuli,
        side,
        address,
        listens,
        upper: given.get_str(UPPER.name),
        stack: given.get_str("stack"),
        anew: given.get_flag("anew"),
        report: given.get_str("report"),
        junit: given.get_str("junit"),
        json: given.get_flag("json"),
    }))
}

// What is played, or the first option that excludes another one.
fn stimuli_of<'a>(alloc: Global, given: &ArgMatches<'a>) -> Result<Stimuli<'a>, NoInvocation<'a>> {
    let seed = number_of(given, DRAW_SEED)?;
    let Some(count) = number_of(given, DRAW)? else {
        return match seed {
            Some(_) => Err(NoInvocation::Requires(DRAW_SEED.name, "--draw")),
            None => cases_played(alloc, given),
        };
    };
    match option_of_cases(given) {
        Some(option) => Err(NoInvocation::NotBoth(DRAW.name, option)),
        None => Ok(Stimuli::Drawn(count, seed)),
    }
}

fn cases_played<'a>(
    alloc: Global,
    given: &ArgMatches<'a>,
) -> Result<Stimuli<'a>, NoInvocation<'a>> {
    let cases = cases_of(alloc, given)?;
    let known = texts_of(alloc, given, "known")?;
    Ok(Stimuli::Cases(cases, known))
}

// The values of this option, which may be repeated.
fn texts_of<'a>(
    alloc: Global,
    given: &ArgMatches<'a>,
    option: &str,
) -> Result<Vec<&'a str>, NoInvocation<'a>> {
    let mut values = Vec::new(alloc);
    if let Some(texts) = given.get_strs(option) {
        if values.extend_from_slice(texts).is_err() {
            return Err(NoInvocation::Memory);
        }
    }
    Ok(values)
}

// The first option that chooses or prints cases.
fn option_of_cases(given: &ArgMatches<'_>) -> Option<&'static str> {
    if given.get_strs("cases").is_some() {
        Some("cases")
    } else if given.get_str("suite").is_some() {
        Some("suite")
    } else if given.get_strs("known").is_some() {
        Some("known")
    } else if given.get_flag("print") {
        Some("print")
    } else {
        None
    }
}

fn cases_of<'a>(alloc: Global, given: &ArgMatches<'a>) -> Result<CaseChoice<'a>, NoInvocation<'a>> {
    Ok(CaseChoice {
        suite: given.get_str("suite"),
        patterns: texts_of(alloc, given, "cases")?,
    })
}

// The side that is tested.
fn tested_side<'a>(given: &ArgMatches<'a>) -> Result<Side, NoInvocation<'a>> {
    match given.get_str("of") {
        Some("net") => Ok(Side::Network),
        Some(_) => Ok(Side::User),
        None => Err(NoInvocation::NoSide),
    }
}

// The address of the stack, and whether the tester waits for it there.
fn address_of<'a>(given: &ArgMatches<'a>) -> Result<(&'a str, bool), NoInvocation<'a>> {
    let connect = given.get_str(STACK_CONNECT.name);
    match (connect, given.get_str(STACK_LISTEN.name)) {
        (Some(_), Some(_)) => Err(NoInvocation::NotBoth(STACK_CONNECT.name, STACK_LISTEN.name)),
        (Some(address), None) => Ok((address, false)),
        (None, Some(address)) => Ok((address, true)),
        (None, None) => Err(NoInvocation::NoAddress),
    }
}
