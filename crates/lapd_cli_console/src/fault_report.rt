//! The report on standard error of a fault that ended a script.

use crate::escaped::Escaped;
use crate::judge::reason;
use lapd_cli_grammar::Script;
use lapd_cli_script::{KindReason, PortFault, ScriptFault, port_reason};
use std::io::ErrorKind;

/// The exit status if the reader of standard output has ended: the one that a shell shows for a
/// process that SIGPIPE ended.
pub const READER_GONE: u8 = 141;

/// The name of standard output in messages.
pub const OUTPUT_NAME: &str = "standard output";

/// Whether a write to the output of this name failed because the reader of standard output has
/// ended, as `head` does.
pub fn is_reader_gone(output_name: &str, fault: Option<ErrorKind>) -> bool {
    matches!(fault, Some(ErrorKind::BrokenPipe)) && output_name == OUTPUT_NAME
}

/// The facts known about a script that has ended, and about its streams.
#[derive(Clone, Copy)]
pub struct FaultReport<'a> {
    /// The command that executed the script.
    pub script: Script,
    /// The bad line; empty if no line was bad, or if it is no longer kept.
    pub line: &'a [u8],
    /// Why the last failed read of the script failed.
    pub input: Option<ErrorKind>,
    /// Why the last failed write failed.
    pub output: Option<ErrorKind>,
    /// The name of the output, for messages.
    pub output_name: &'a str,
}

impl FaultReport<'_> {
    /// Whether this fault is that the reader of standard output has ended.
    pub fn is_reader_gone(&self, fault: ScriptFault) -> bool {
        matches!((fault, self.input), (ScriptFault::Device, None))
            && is_reader_gone(self.output_name, self.output)
    }

    /// Prints the fault on the first line and the reason on the second, and returns the exit status.
    /// Nothing is printed if the reader of standard output has ended. Failed writes to standard
    /// error are ignored.
    pub fn end(&self, rt: &HostRuntime, fault: ScriptFault) -> u8 {
        if self.is_reader_gone(fault) {
            return READER_GONE;
        }
        self.print(rt, fault);
        fault.status()
    }

    /// Prints the fault on the first line and the reason on the second. Failed writes to standard
    /// error are ignored.
    pub fn print(&self, rt: &HostRuntime, fault: ScriptFault) {
        let _ = eprintln!(rt; "{fault}");
        match fault {
            ScriptFault::BadLine(_) => self.print_bad_line(rt),
            ScriptFault::Device => self.print_device(rt),
            ScriptFault::Port(fault) => self.print_port(rt, fault),
            ScriptFault::Memory => {}
        }
    }

    // Reports what is wrong with the bad line, if it is known. If a `tick` has a valid form, it
    // takes the clock past its end.
    fn print_bad_line(&self, rt: &HostRuntime) {
        if self.line.is_empty() {
            return;
        }
        let _ = match reason(rt.alloc(), self.script, self.line) {
            Ok(Some(reason)) => eprintln!(rt; "{reason}"),
            Ok(None) if self.line.starts_with(b"tick ") => eprintln!(rt;
                "the clock ends at 1,000,000,000,000,000 ms"
            ),
            _ => Ok(()),
        };
    }

    // Reports why the connection failed. With the real clock only a length of 0 is a bad one.
    fn print_port(&self, rt: &HostRuntime, fault: PortFault) {
        let reason = match (fault, self.script) {
            (PortFault::BadLength, Script::LiveNet | Script::LiveUser) => {
                "received a frame length of 0"
            }
            _ => port_reason(fault),
        };
        let _ = eprintln!(rt; "{reason}");
    }

    // Reports which stream failed, and why.
    fn print_device(&self, rt: &HostRuntime) {
        let _ = match (self.input, self.output, self.script) {
            (Some(kind), _, _) => eprintln!(rt; "standard input: {}", KindReason(kind)),
            (None, Some(kind), _) => {
                let name = Escaped(self.output_name);
                eprintln!(rt; "{name}: {}", KindReason(kind))
            }
            (None, None, Script::Loop) => eprintln!(rt;
                "a frame did not return over the program's connection to itself, or 1,000,000 reads did not reach the script's end"
            ),
            (None, None, _) => eprintln!(rt; "1,000,000 reads did not reach the script's end"),
        };
    }
}
