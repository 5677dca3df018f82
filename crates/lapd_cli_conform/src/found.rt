//! The text of a drawn case that failed.

ghost use Rattle.std.specs.Prelude.{◌≡◌, ◌++◌, OnOk};
ghost use Rattle.lapd_cli_conform.specs.Found.{found_text};

use crate::results::{CaseReport, push_line};
use std::alloc::AllocError;

/// The use of the text.
const HINT: &[u8] =
    b"# The least case that fails. --suite FILE plays it again, if FILE has these lines.\n";

/// Appends the result of a drawn case that failed as a suite: its line as a comment, and the case.
///
/// # Errors
///
/// An allocation failed. Part of the text may have been appended.
pub fn push_found(text: &mut Vec<u8>, report: &CaseReport<'_>) -> Result<(), AllocError>
    ensures { OnOk result (text.new.items ≡ text.old.items ++ found_text report.now) }
{
    text.extend_from_slice(b"# ")?;
    push_line(text, report)?;
    text.extend_from_slice(HINT)?;
    text.extend_from_slice(report.suite)?;
    Ok(())
}
