//! The command line of the program `lapd`: the meaning of its words. `lapd_cli_help` has the help
//! texts.
//!
//! This crate is separate from the program so that a change to one does not prove the other again,
//! and so that only this crate reads the parser. Begin with [`words`] and [`parse_words`].
#![tactic(auto)]

ghost use Rattle.std.specs.Prelude.{◌<◌, length, IsOkAnd};
ghost use Rattle.lapd_cli_options.specs.CommandLine.{IsDefaultChoice};

mod clock_options;
mod command_option;
mod command_options;
mod conform_options;
mod decode_options;
mod invocation;
mod no_invocation;
mod option_tables;
mod parser;
mod program_words;
mod script_command;
mod tips;

use clap::{ArgMatches, Command};
use clock_options::{clock_of, is_clock_open};
use command_options::{address_of, file_of, job_of, prints_json, span_of};
use conform_options::conformance_of;
pub use conform_options::{CaseChoice, Conformance, StackTest, Stimuli};
use decode_options::files_of;
pub use invocation::{
    Chosen, Clock, Color, DecodeOptions, FollowOptions, Invocation, Job, LiveOptions,
    PrintedLayout, PrintedTime,
};
pub use lapd_cli_values::{
    Durations, Interface, LinkEnd, OutOfRange, Params, Recovery, Sapi, Side, Tei,
};
pub use lapd_filter::Filter;
pub use no_invocation::NoInvocation;
use no_invocation::refused_by_parser;
pub use parser::VERSION;
use parser::{is_strict, program, unknown_command};
pub use program_words::{WordsFault, words};
use script_command::ScriptCommand;
use std::alloc::Global;
use std::convert::AsStr;
use tips::with_tip;

/// Reads the program's words, the first of which is its name. No further word means `answer --side
/// net`.
///
/// # Errors
///
/// - `Shown` if the words request help or the version;
/// - `Refused`, `OutOfRange`, `Requires`, `PcapAndFile`, `OneFile`, `NotKinds`, `NotBoth`, `NoSide`
///   or `NoAddress` if they are not valid;
/// - `Memory` if an allocation fails.
pub fn parse_words<'a, S: AsStr>(
    alloc: Global,
    words: &'a [S],
) -> Result<Chosen<'a>, NoInvocation<'a>>
    ensures { length words.now < 2 → IsOkAnd result (λ chosen. IsDefaultChoice chosen) }
{
    if words.len() < 2 {
        return Ok(Chosen::Script(Invocation::by_no_word(alloc)));
    }
    match program(alloc) {
        Ok(mut program) => chosen_of(alloc, &mut program, words),
        Err(_) => Err(NoInvocation::Memory),
    }
}

// The meaning of the words, read by this parser.
fn chosen_of<'a, S: AsStr>(
    alloc: Global,
    program: &mut Command<'a>,
    words: &'a [S],
) -> Result<Chosen<'a>, NoInvocation<'a>> {
    match program.try_get_matches_from_mut(words) {
        Ok(matches) => chosen_by(alloc, program, &matches),
        Err(error) => {
            let refused = refused_by_parser(alloc, &error);
            Err(with_tip(alloc, command_in(words), refused))
        }
    }
}

// The word at the place of a command.
fn command_in<S: AsStr>(words: &[S]) -> &str {
    match words {
        [_, command, ..] => command.as_str(),
        _ => "",
    }
}

// The meaning of the parsed words.
fn chosen_by<'a>(
    alloc: Global,
    program: &mut Command<'a>,
    matches: &ArgMatches<'a>,
) -> Result<Chosen<'a>, NoInvocation<'a>> {
    match matches.subcommand() {
        Some((name, given)) if name == conform_options::NAME => conform_by(alloc, given),
        Some((name, given)) => match ScriptCommand::named(name) {
            Some(command) => script_by(alloc, command, given),
            None => Err(unknown_command(alloc, program, name)),
        },
        None => Err(unknown_command(alloc, program, "")),
    }
}

// The meaning of the options of `conform`.
fn conform_by<'a>(alloc: Global, given: &ArgMatches<'a>) -> Result<Chosen<'a>, NoInvocation<'a>> {
    match conformance_of(alloc, given) {
        Ok(conformance) => Ok(Chosen::Conform(conformance)),
        Err(fault) => Err(fault),
    }
}

// The meaning of the options of a command that executes a script.
fn script_by<'a>(
    alloc: Global,
    command: ScriptCommand,
    given: &ArgMatches<'a>,
) -> Result<Chosen<'a>, NoInvocation<'a>> {
    let job = job_of(alloc, command, given)?;
    match invocation_with(alloc, job, command, given) {
        Ok(invocation) => Ok(Chosen::Script(invocation)),
        Err(fault) => Err(fault),
    }
}

// The settings of this command, with its job.
fn invocation_with<'a>(
    alloc: Global,
    job: Job,
    command: ScriptCommand,
    given: &ArgMatches<'a>,
) -> Result<Invocation<'a>, NoInvocation<'a>> {
    let clock = clock_of(command, given)?;
    Ok(Invocation {
        job,
        address: address_of(command, given),
        files: files_of(alloc, command, given)?,
        pcap: file_of(command, given, "pcap"),
        svg: file_of(command, given, "svg"),
        html: file_of(command, given, "html"),
        write: file_of(command, given, "write"),
        span: span_of(command, given),
        clock,
        is_clock_open: is_clock_open(command, given),
        json: prints_json(command, given),
        strict: is_strict(given),
    })
}
