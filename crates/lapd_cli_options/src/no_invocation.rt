use clap::Error;
use clap::error::ErrorKind;
use lapd_cli_values::{InterfaceFault, OutOfRange};
use std::alloc::Global;
use std::fmt;

/// Why the program's words do not name a job.
#[derive(Drop)]
pub enum NoInvocation<'a> {
    /// They request help or the version. This text is for standard output, and the exit status is
    /// 0.
    Shown(String),
    /// The parser refuses them, for the reason in this text. The text is for standard error, and
    /// the exit status is 2, as for `OutOfRange`, `Requires`, `PcapAndFile`, `OneFile`, `NotKinds`,
    /// `NotBoth`, `NoSide` and `NoAddress`.
    Refused(String),
    /// A number that is not in the range of its option.
    OutOfRange(OutOfRange<'a>),
    /// The option with this name, without the hyphens, requires what this text names, which is
    /// absent.
    Requires(&'static str, &'static str),
    /// `--pcap` is present, and files besides.
    PcapAndFile,
    /// The option with this name, without the hyphens, is present, and more than one file.
    OneFile(&'static str),
    /// The value of `--kinds` is not a list of `i`, `s` and `u`.
    NotKinds(&'a str),
    /// The options with these names, without the hyphens, exclude each other.
    NotBoth(&'static str, &'static str),
    /// `--of` is absent, and cases are not printed.
    NoSide,
    /// `--connect` and `--listen` are absent, and cases are not printed.
    NoAddress,
    /// An allocation failed.
    Memory,
}

/// Writes the text, with a line feed.
impl fmt::Display for NoInvocation<'_> {
    fn fmt<W: fmt::Write>(&self, f: &mut fmt::Formatter<W>) -> fmt::Result {
        match self {
            NoInvocation::Shown(text) | NoInvocation::Refused(text) => f.write_str(text.as_str()),
            NoInvocation::OutOfRange(fault) => writeln!(f, "{fault}"),
            NoInvocation::Requires(option, what) => {
                writeln!(f, "error: --{option} requires {what}")
            }
            NoInvocation::PcapAndFile => {
                f.write_str(
                    "error: --pcap cannot be used with FILE; without --pcap, FILE may be a capture\n",
                )
            }
            NoInvocation::OneFile(option) => { writeln!(f, "error: --{option} takes one FILE") }
            NoInvocation::NotKinds(kinds) => writeln!(
                f,
                "error: invalid value '{kinds}' for '--kinds <KINDS>': not a list of i, s and u"
            ),
            NoInvocation::NotBoth(option, other) => {
                writeln!(f, "error: --{option} cannot be used with --{other}")
            }
            NoInvocation::NoSide => {
                f.write_str("error: --of net or --of user is required: the side that is tested\n")
            }
            NoInvocation::NoAddress => f.write_str(
                "error: --connect ADDRESS or --listen ADDRESS of the stack is required\n",
            ),
            NoInvocation::Memory => f.write_str("out of memory\n"),
        }
    }
}

impl<'a> From<OutOfRange<'a>> for NoInvocation<'a> {
    fn from(fault: OutOfRange<'a>) -> Self {
        NoInvocation::OutOfRange(fault)
    }
}

impl<'a> From<InterfaceFault<'a>> for NoInvocation<'a> {
    fn from(fault: InterfaceFault<'a>) -> Self {
        match fault {
            InterfaceFault::OutOfRange(fault) => NoInvocation::OutOfRange(fault),
            InterfaceFault::Memory => NoInvocation::Memory,
        }
    }
}

/// The parser's text, or `Memory` if it can't be allocated.
pub(crate) fn refused_by_parser<'a>(alloc: Global, error: &Error) -> NoInvocation<'a> {
    if error.kind() == ErrorKind::OutOfMemory {
        return NoInvocation::Memory;
    }
    match error.to_string(alloc) {
        Ok(text) if error.use_stderr() => NoInvocation::Refused(text),
        Ok(text) => NoInvocation::Shown(text),
        Err(_) => NoInvocation::Memory,
    }
}
