//! The job of a command, from the parsed options.

ghost use Rattle.std.specs.Prelude.{◌<◌, ◌≢◌, IfOk};
ghost use Rattle.lapd_frame.specs.declared.Sapi.TheVariants.{Management};

use crate::decode_options::decode_of;
use crate::invocation::Job;
use crate::no_invocation::NoInvocation;
use crate::script_command::ScriptCommand;
use clap::ArgMatches;
use lapd_cli_values::{
    CONNECT, Interface, InterfaceOptions, K, KNOWN_TEI, LINK_TEI, LINKS_K, LISTEN, LinkEnd, N200,
    NumberOption, OutOfRange, Params, ROOM, Recovery, SEED, Sapi, Side, T200, T201, T202, T203,
    TERMINALS, Tei, interface_written, params_written, tei_written, terminals_written,
};
use std::alloc::Global;

/// The job of this command with its options.
pub(crate) fn job_of<'a>(
    alloc: Global,
    command: ScriptCommand,
    given: &ArgMatches<'a>,
) -> Result<Job, NoInvocation<'a>> {
    match command {
        ScriptCommand::Answer => answer_of(given),
        ScriptCommand::Bus => bus_of(given),
        ScriptCommand::Pair => pair_of(given),
        ScriptCommand::Loop => loop_of(given),
        ScriptCommand::Net => Ok(Job::Net(interface_of(alloc, given)?)),
        ScriptCommand::User => Ok(Job::User(interface_of(alloc, given)?)),
        ScriptCommand::Decode => Ok(Job::Decode(decode_of(given)?)),
    }
}

fn answer_of<'a>(given: &ArgMatches<'a>) -> Result<Job, NoInvocation<'a>> {
    match (params_of(given), link_tei_of(given)) {
        (Ok(params), Ok(tei)) => Ok(Job::Answer(LinkEnd {
            side: side_named(given, "side"),
            sapi: sapi_of(given),
            tei,
            params: params.with_recovery(recovery_of(given, "recovery")),
        })),
        (Err(fault), _) | (_, Err(fault)) => Err(NoInvocation::OutOfRange(fault)),
    }
}

fn bus_of<'a>(given: &ArgMatches<'a>) -> Result<Job, NoInvocation<'a>> {
    let terminals = terminals_written(number_of(given, TERMINALS))?;
    let is_drawn = given.get_flag("ladder");
    match (given.get_flag("links"), is_drawn) {
        (true, _) => Ok(Job::BusLinks {
            terminals,
            is_drawn,
        }),
        (false, true) => Err(NoInvocation::Requires("ladder", "--links")),
        (false, false) => Ok(Job::Bus { terminals }),
    }
}

fn pair_of<'a>(given: &ArgMatches<'a>) -> Result<Job, NoInvocation<'a>> {
    let (user, network) = ends_of(given)?;
    Ok(Job::Pair {
        user,
        network,
        is_drawn: given.get_flag("ladder"),
    })
}

fn loop_of<'a>(given: &ArgMatches<'a>) -> Result<Job, NoInvocation<'a>> {
    let (user, network) = ends_of(given)?;
    Ok(Job::Loop { user, network })
}

/// The file of this option of `decode`, if the option is present.
pub(crate) fn file_of<'a>(
    command: ScriptCommand,
    given: &ArgMatches<'a>,
    option: &str,
) -> Option<&'a str> {
    match command {
        ScriptCommand::Decode => given.get_str(option),
        _ => None,
    }
}

/// The span whose lines this command reads, if the option is present.
pub(crate) fn span_of<'a>(command: ScriptCommand, given: &ArgMatches<'a>) -> Option<&'a str> {
    match command {
        ScriptCommand::Decode => given.get_str("span"),
        _ => None,
    }
}

/// Whether this command prints each line of a side as a JSON object.
pub(crate) fn prints_json(command: ScriptCommand, given: &ArgMatches<'_>) -> bool {
    match command {
        ScriptCommand::Net | ScriptCommand::User => given.get_flag("json"),
        _ => false,
    }
}

// The parameters of the user side and the network side of `pair` or `loop`.
fn ends_of<'a>(given: &ArgMatches<'a>) -> Result<(Params, Params), NoInvocation<'a>> {
    match params_of(given) {
        Ok(params) => Ok((
            params.with_recovery(recovery_of(given, "recovery-user")),
            params.with_recovery(recovery_of(given, "recovery-net")),
        )),
        Err(fault) => Err(NoInvocation::OutOfRange(fault)),
    }
}

fn params_of<'a>(given: &ArgMatches<'a>) -> Result<Params, OutOfRange<'a>> {
    params_written(
        number_of(given, K),
        number_of(given, N200),
        number_of(given, ROOM),
    )
}

// The TEI of the link of `answer`.
fn link_tei_of<'a>(given: &ArgMatches<'a>) -> Result<Tei, OutOfRange<'a>>
    ensures { IfOk result (λ tei. tei < 127) }
{
    tei_written(LINK_TEI, number_of(given, LINK_TEI))
}

// The SAPI of the link of `answer`.
fn sapi_of(given: &ArgMatches<'_>) -> Sapi
    ensures { result ≢ Management }
{
    match given.get_str("sapi") {
        Some("16") => Sapi::Packet,
        _ => Sapi::Call,
    }
}

// The configuration of `net` or `user`.
fn interface_of<'a>(alloc: Global, given: &ArgMatches<'a>) -> Result<Interface, NoInvocation<'a>> {
    let options = interface_options_of(given);
    let teis = given.get_strs(KNOWN_TEI.name).unwrap_or(&[]);
    match interface_written(alloc, &options, teis) {
        Ok(interface) => Ok(interface),
        Err(fault) => Err(NoInvocation::from(fault)),
    }
}

// The texts of an interface's options, without its TEIs.
fn interface_options_of<'a>(given: &ArgMatches<'a>) -> InterfaceOptions<'a> {
    let [t200, t201, t202, t203] = timers_of(given);
    InterfaceOptions {
        pri: given.get_flag("pri"),
        sapi16: given.get_flag("sapi16"),
        k: given.get_str(LINKS_K.name),
        n200: number_of(given, N200),
        room: number_of(given, ROOM),
        recovery: recovery_of(given, "recovery"),
        t200,
        t201,
        t202,
        t203,
        seed: given.get_str(SEED.name),
    }
}

// The texts of the timers' options, T200 to T203 in order.
fn timers_of<'a>(given: &ArgMatches<'a>) -> [&'a str; 4] {
    [
        number_of(given, T200),
        number_of(given, T201),
        number_of(given, T202),
        number_of(given, T203),
    ]
}

// The text of this option, or its default.
fn number_of<'a>(given: &ArgMatches<'a>, option: NumberOption) -> &'a str {
    given.get_str(option.name).unwrap_or(option.default)
}

/// The address in this command's options, if it has one. The parser requires it of `net` and `user`.
pub(crate) fn address_of<'a>(command: ScriptCommand, given: &ArgMatches<'a>) -> Option<&'a str> {
    match command {
        ScriptCommand::Net => given.get_str(LISTEN.name),
        ScriptCommand::User => given.get_str(CONNECT.name),
        _ => None,
    }
}

/// The side that the option of this name chooses.
pub(crate) fn side_named(given: &ArgMatches<'_>, option: &str) -> Side {
    match given.get_str(option) {
        Some("user") => Side::User,
        _ => Side::Network,
    }
}

// The recovery that the option of this name chooses.
fn recovery_of(given: &ArgMatches<'_>, option: &str) -> Recovery {
    match given.get_str(option) {
        Some("last") => Recovery::LastMessage,
        _ => Recovery::Enquiry,
    }
}
