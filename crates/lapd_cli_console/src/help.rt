//! The output of `help` for typed lines.

use lapd_cli_grammar::{Script, forms};
use std::io::{self, Write};

/// Prints the forms of a command's lines, followed by `help` and `quit`.
///
/// # Errors
///
/// The writer's error.
pub fn put_help<W: Write>(script: Script, out: &mut W) -> io::Result<()> {
    let end = if script.has_real_clock() {
        out.write_all(b"the lines with the real clock:\n")?;
        "session"
    } else {
        writeln!(out, "the lines of {script}:")?;
        "script"
    };
    for form in forms(script) {
        writeln!(out, "  {form}")?;
    }
    writeln!(out, "help (prints this list), quit (ends the {end})")
}
