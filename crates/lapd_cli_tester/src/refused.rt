//! Reports of a run that does not begin, or ends before its last case, on standard error.

use crate::station::StationFault;
use lapd_cli_console::{Escaped, OUTPUT_NAME, READER_GONE, is_reader_gone};
use lapd_cli_script::{KindReason, Reason, ScriptFault};
use std::fmt::Display;
use std::io::{self, ErrorKind};

/// The exit status after a fault in the command line, in a stack file or in a suite.
const COMMAND_LINE: u8 = 2;

/// The reason if a text does not have the form of an address.
const NO_ADDRESS: &str = "expected HOST:PORT, such as 127.0.0.1:4000";

/// Reports what is wrong with a file.
pub(crate) fn print_wrong_file<D: Display>(rt: &HostRuntime, file: &str, fault: &D) -> u8 {
    let _ = eprintln!(rt; "error: {}: {fault}", Escaped(file));
    COMMAND_LINE
}

/// Reports that no case has a name that a pattern fits.
pub(crate) fn print_no_case(rt: &HostRuntime, pattern: &str) -> u8 {
    let _ = eprintln!(rt;
        "error: no case fits --cases {}; a name is as 7-V-01, and * stands for any characters",
        Escaped(pattern)
    );
    COMMAND_LINE
}

/// Reports that a suite has no case of a name, and the closest name that it has.
pub(crate) fn print_no_such_case(rt: &HostRuntime, name: &str, closest: &str) -> u8 {
    let _ = eprintln!(rt;
        "error: no case has the name --known {}; the closest is {closest}",
        Escaped(name)
    );
    COMMAND_LINE
}

/// Reports that a file cannot be read.
pub(crate) fn print_no_file(rt: &HostRuntime, file: &str, error: &io::Error) -> u8 {
    let _ = eprintln!(rt; "{}", ScriptFault::Device);
    let _ = eprintln!(rt; "{}: {}", Escaped(file), Reason(error));
    ScriptFault::Device.status()
}

/// Reports that a connection could not be made: what was to be done with which address.
pub(crate) fn print_no_connection(
    rt: &HostRuntime,
    what: &str,
    address: &str,
    error: &io::Error,
) -> u8 {
    let _ = eprintln!(rt; "{}", ScriptFault::Device);
    let address = Escaped(address);
    let _ = if error.kind() == ErrorKind::InvalidInput && error.raw_os_error().is_none() {
        eprintln!(rt; "cannot {what} {address}: {NO_ADDRESS}")
    } else {
        eprintln!(rt; "cannot {what} {address}: {}", Reason(error))
    };
    ScriptFault::Device.status()
}

/// Reports that the stack is out of reach since the case with this number.
pub(crate) fn print_lost(rt: &HostRuntime, number: u64, fault: Option<StationFault>) -> u8 {
    let _ = eprintln!(rt; "{}", ScriptFault::Device);
    if let Some(fault) = fault {
        let _ = eprintln!(rt; "in case {number}: {fault}");
    }
    ScriptFault::Device.status()
}

/// Reports that standard output could not be written, unless its reader has ended.
pub(crate) fn print_no_output(rt: &HostRuntime, kind: Option<ErrorKind>) -> u8 {
    if is_reader_gone(OUTPUT_NAME, kind) {
        return READER_GONE;
    }
    let _ = eprintln!(rt; "{}", ScriptFault::Device);
    if let Some(kind) = kind {
        let _ = eprintln!(rt; "{OUTPUT_NAME}: {}", KindReason(kind));
    }
    ScriptFault::Device.status()
}

/// Reports that an allocation failed.
pub(crate) fn print_memory(rt: &HostRuntime) -> u8 {
    let _ = eprintln!(rt; "{}", ScriptFault::Memory);
    ScriptFault::Memory.status()
}
