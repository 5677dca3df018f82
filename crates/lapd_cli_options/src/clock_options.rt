//! The clock of `net` or `user`, from the parsed options.

use crate::decode_options::number_of;
use crate::invocation::{Clock, LiveOptions, USUAL_AUDIT};
use crate::no_invocation::NoInvocation;
use crate::script_command::ScriptCommand;
use clap::ArgMatches;
use lapd_cli_values::{
    AUDIT, CONNECTED_TERMINALS, GSMTAP, IDLE_LIMIT, KNOWN_TEI, number_written, terminals_written,
};

// The flags that require the real clock.
const REAL_FLAGS: [&str; 7] = [
    "time", "quiet", "serve", "keep", "clear", "no-audit", "no-ties",
];

// The options with a value that require the real clock.
const REAL_OPTIONS: [&str; 6] = [
    "pcap",
    "ladder",
    "gsmtap",
    "terminals",
    "idle-limit",
    "audit",
];

/// The clock of this command.
pub(crate) fn clock_of<'a>(
    command: ScriptCommand,
    given: &ArgMatches<'a>,
) -> Result<Clock<'a>, NoInvocation<'a>> {
    match command {
        ScriptCommand::Net | ScriptCommand::User => side_clock_of(given),
        _ => Ok(Clock::Script),
    }
}

/// Whether this command has a clock, and none is named.
pub(crate) fn is_clock_open(command: ScriptCommand, given: &ArgMatches<'_>) -> bool {
    match command {
        ScriptCommand::Net | ScriptCommand::User => given.get_str("clock").is_none(),
        _ => false,
    }
}

// The clock of a side. Options that require the real clock are refused without it.
fn side_clock_of<'a>(given: &ArgMatches<'a>) -> Result<Clock<'a>, NoInvocation<'a>> {
    if given.get_str("clock") == Some("real") {
        return Ok(Clock::Real(live_options_of(given)?));
    }
    match real_option_of(given) {
        Some(option) => Err(NoInvocation::Requires(option, "--clock real")),
        None => Ok(Clock::Script),
    }
}

// The first option present that requires the real clock.
fn real_option_of(given: &ArgMatches<'_>) -> Option<&'static str> {
    for flag in REAL_FLAGS {
        if given.get_flag(flag) {
            return Some(flag);
        }
    }
    for option in REAL_OPTIONS {
        if given.get_str(option).is_some() {
            return Some(option);
        }
    }
    None
}

// The options of the real clock.
fn live_options_of<'a>(given: &ArgMatches<'a>) -> Result<LiveOptions<'a>, NoInvocation<'a>> {
    let terminals = terminals_of(given)?;
    Ok(LiveOptions {
        time: given.get_flag("time"),
        quiet: given.get_flag("quiet"),
        serve: given.get_flag("serve"),
        keep: given.get_flag("keep"),
        clear: clear_of(given)?,
        terminals,
        idle_limit: number_of(given, IDLE_LIMIT)?,
        audit: audit_of(given, terminals)?,
        ties: !given.get_flag("no-ties"),
        pcap: given.get_str("pcap"),
        ladder: given.get_str("ladder"),
        gsmtap: given.get_str(GSMTAP.name),
    })
}

// Whether the network side first removes the TEIs of all terminals. With a known TEI, the option is
// refused: the side would ignore the request.
fn clear_of<'a>(given: &ArgMatches<'a>) -> Result<bool, NoInvocation<'a>> {
    if !given.get_flag("clear") {
        return Ok(false);
    }
    if given.get_strs(KNOWN_TEI.name).is_some() {
        return Err(NoInvocation::NotBoth("clear", KNOWN_TEI.name));
    }
    if given.get_flag("pri") {
        return Err(NoInvocation::NotBoth("clear", "pri"));
    }
    Ok(true)
}

// The number of terminals that the network side accepts.
fn terminals_of<'a>(given: &ArgMatches<'a>) -> Result<u8, NoInvocation<'a>> {
    match given.get_str(CONNECTED_TERMINALS.name) {
        Some(written) => Ok(terminals_written(written)?),
        None => Ok(1),
    }
}

// The interval of the audits of a network side, in milliseconds; `None` without audits. The option
// is refused if the side would make none.
fn audit_of<'a>(given: &ArgMatches<'a>, terminals: u8) -> Result<Option<u64>, NoInvocation<'a>> {
    match (given.get_str(AUDIT.name), given.get_flag("no-audit")) {
        (Some(_), true) => Err(NoInvocation::NotBoth(AUDIT.name, "no-audit")),
        (Some(_), _) if given.get_flag("pri") => Err(NoInvocation::NotBoth(AUDIT.name, "pri")),
        (Some(_), _) if terminals < 2 && !given.get_flag("keep") => {
            Err(NoInvocation::Requires(AUDIT.name, "--keep or --terminals above 1"))
        }
        (Some(written), _) => Ok(Some(number_written(AUDIT, written)?)),
        (None, true) => Ok(None),
        (None, false) => Ok(Some(USUAL_AUDIT)),
    }
}
