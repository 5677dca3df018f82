//! Scripts of commands: executing a script's lines, the words of a line, and printed lines.
//!
//! Begin with [`walk`], which reads a script from any reader and executes each line by a
//! [`Command`]. It executes each line and flushes the line's output before it reads more. A command
//! reads a line's [`Words`] one by one, and prints with [`put_line`], [`put_word`], [`put_number`]
//! and [`put_octets`].
//!
//! A line ends with a line feed, which the last line may lack. Empty lines and lines that begin
//! with `#` are skipped but counted. Single spaces separate the words of a line. [`first_line`]
//! cuts a text at its first line feed.
//!
//! [`Reason`] and [`port_reason`] say in words why a system call or a connection failed.
#![tactic(auto)]

mod print;
mod reason;
mod script;
mod words;

pub use lapd_port::PortFault;
pub use print::{put_hex, put_line, put_number, put_octets, put_word};
pub use reason::{KindReason, Reason, port_reason};
pub use script::{Command, LineFault, ScriptFault, first_line, is_passed_over, walk};
pub use words::{Words, is_word, number_of};
