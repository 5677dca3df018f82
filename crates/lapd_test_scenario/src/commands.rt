//! The commands that a crate tests.

use crate::CommandWords;
use lapd_cli_console::Script;
use lapd_cli_script::ScriptFault;
use lapd_port::{Port, Sink, Source};
use std::alloc::Global;
use std::io::{Read, Write};

/// The result of a command, and its port.
pub type Run<S, K> = (Result<(), ScriptFault>, Port<S, K>);

/// The commands that a crate tests.
pub trait Commands {
    /// Executes a script with the command of these words. For other commands it ends with
    /// `BadLine(0)`.
    fn run<R: Read, W: Write, S: Source, K: Sink>(
        &self,
        alloc: Global,
        words: CommandWords<'_>,
        script: &mut R,
        out: &mut W,
        port: Port<S, K>,
    ) -> Run<S, K>;

    /// Whether a line is refused, for a script that `run` does not read, such as one of a side with
    /// the real clock. `None` if `run` reads the script and decides.
    fn refuses_line(&self, alloc: Global, script: Script, line: &[u8]) -> Option<bool>;
}
