//! Results as JSON objects.

ghost use Rattle.std.specs.Prelude.{◌≡◌, ◌++◌, OnOk};
ghost use Rattle.lapd_cli_conform.specs.Json.{member_text, object_line, quoted};

use crate::escaped::{Format, push_escaped};
use crate::results::CaseReport;
use std::alloc::AllocError;

/// Appends the JSON object of a result in one line, with its line feed. Its members are in
/// alphabetical order, and those whose text is empty are left out.
///
/// ```text
/// {"case":"7-V-01","clause":"5.6.3.2","title":"RR command with P=1","verdict":"pass"}
/// ```
///
/// # Errors
///
/// An allocation failed. Part of the line may have been appended.
pub fn push_object(text: &mut Vec<u8>, report: &CaseReport<'_>) -> Result<(), AllocError>
    ensures { OnOk result (text.new.items ≡ text.old.items ++ object_line report.now) }
{
    text.extend_from_slice(b"{\"case\":")?;
    push_quoted(text, report.name)?;
    push_member(text, b"clause", report.clause)?;
    push_member(text, b"needs", report.needs)?;
    push_member(text, b"reason", report.reason)?;
    push_member(text, b"seen", report.seen)?;
    push_member(text, b"suite", report.suite)?;
    push_member(text, b"title", report.title)?;
    push_member(text, b"verdict", report.grade.word())?;
    push_member(text, b"wanted", report.wanted)?;
    text.extend_from_slice(b"}\n")?;
    Ok(())
}

/// Appends a member after another one, unless its value is empty.
fn push_member(text: &mut Vec<u8>, name: &[u8], value: &[u8]) -> Result<(), AllocError>
    ensures { OnOk result (text.new.items ≡ text.old.items ++ member_text name.now value.now) }
{
    if value.is_empty() {
        return Ok(());
    }
    text.extend_from_slice(b",\"")?;
    text.extend_from_slice(name)?;
    text.extend_from_slice(b"\":")?;
    push_quoted(text, value)
}

/// Appends a string of JSON.
fn push_quoted(text: &mut Vec<u8>, value: &[u8]) -> Result<(), AllocError>
    ensures { OnOk result (text.new.items ≡ text.old.items ++ quoted value.now) }
{
    text.push(b'"')?;
    push_escaped(text, Format::Json, value)?;
    text.push(b'"')?;
    Ok(())
}
