//! The reason why a line is not valid for its command.

ghost use Rattle.std.specs.Prelude.{◌≡◌, is_none, IfOk};
ghost use Rattle.lapd_cli_grammar.specs.Values.{is_line_of};

use crate::complaint::Complaint;
use lapd_cli_grammar::{Script, Unread, read_form};
use lapd_cli_script::is_passed_over;
use memchr::memmem;
use std::alloc::{AllocError, Global};

/// Returns what is wrong with the form of a command's line, as one line of text. Neither line has a
/// line feed. Returns `None` if the form is valid, and for empty lines and comments. A `tick` may
/// have a valid form and still take the clock of `net` or `user` past its end. `reason_of_answer`
/// of `lapd_program_laws` says what this means for the steps of `answer`.
///
/// # Errors
///
/// `AllocError` if an allocation fails.
pub fn reason(alloc: Global, script: Script, line: &[u8]) -> Result<Option<String>, AllocError>
    ensures { IfOk result (λ reason. is_none reason ≡ is_line_of script line.now) }
{
    match complaint(alloc, script, line)? {
        None => Ok(None),
        Some(complaint) => Ok(Some(format!(in alloc; "{complaint}")?)),
    }
}

/// Finds what is wrong with the form of a line.
///
/// # Errors
///
/// `AllocError` if an allocation fails.
fn complaint<'a>(
    alloc: Global,
    script: Script,
    line: &'a [u8],
) -> Result<Option<Complaint<'a>>, AllocError>
    ensures { IfOk result (λ complaint. is_none complaint ≡ is_line_of script line.now) }
{
    if is_passed_over(line) {
        return Ok(None);
    }
    match read_form(alloc, script, line) {
        Ok(_) => Ok(None),
        Err(Unread::Bad(fault)) => {
            Ok(Some(of_spacing(line).unwrap_or(Complaint::Form(script, fault))))
        }
        Err(Unread::Memory) => Err(AllocError),
    }
}

/// Finds what is wrong with the octets of a line, whatever its words are.
fn of_spacing<'a>(line: &'a [u8]) -> Option<Complaint<'a>> {
    if str::from_utf8(line).is_err() {
        Some(Complaint::NotUtf8)
    } else if line.ends_with(b"\r") {
        Some(Complaint::CarriageReturn)
    } else if line.contains(&b'\t') {
        Some(Complaint::Tab)
    } else if line.starts_with(b" ") {
        Some(Complaint::SpaceAtFront)
    } else if line.ends_with(b" ") {
        Some(Complaint::SpaceAtEnd)
    } else if memmem::find(line, b"  ").is_some() {
        Some(Complaint::TwoSpaces)
    } else {
        None
    }
}
