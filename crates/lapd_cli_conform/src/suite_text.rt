//! Lines of a suite's text by their numbers.

use lapd_cli_script::first_line;
use lapd_conform_suite::next_line;
use std::alloc::AllocError;

/// The lines that belong to an expectation.
const PARTS: [&[u8]; 4] = [b"or ", b"and ", b"at ", b"within "];

/// The text from the line with the first number to the line before the second, both from 1.
pub fn lines_between(text: &[u8], first: u64, end: u64) -> &[u8] {
    let from = after_lines(text, first.saturating_sub(1));
    let rest = after_lines(from, end.saturating_sub(first));
    let count = from.len().saturating_sub(rest.len());
    from.get(..count).unwrap_or(from)
}

/// The text after this number of lines.
fn after_lines(text: &[u8], count: u64) -> &[u8] {
    let mut rest = text;
    for _line in 0..count {
        match first_line(rest) {
            Some((_, left)) => rest = left,
            None => return &[],
        }
    }
    rest
}

/// Appends what the line of a suite with this number expects of the stack: the frames of an
/// expectation, or the line itself.
///
/// # Errors
///
/// An allocation failed.
pub fn push_wanted(wanted: &mut Vec<u8>, text: &[u8], number: u64) -> Result<(), AllocError> {
    let Some((line, others)) = next_line(after_lines(text, number.saturating_sub(1))) else {
        return Ok(());
    };
    match (line.strip_prefix(b"expect "), line.strip_prefix(b"quiet ")) {
        (Some(frame), _) => {
            wanted.extend_from_slice(frame)?;
            push_parts(wanted, others)
        }
        (None, Some(time)) => {
            wanted.extend_from_slice(b"nothing for ")?;
            wanted.extend_from_slice(time)?;
            Ok(())
        }
        (None, None) => {
            wanted.extend_from_slice(line)?;
            Ok(())
        }
    }
}

/// Appends the lines that belong to an expectation.
fn push_parts(wanted: &mut Vec<u8>, text: &[u8]) -> Result<(), AllocError> {
    let mut rest = text;
    for _line in 0..text.len() {
        match next_line(rest) {
            Some((line, others)) if is_part(line) => {
                wanted.push(b' ')?;
                wanted.extend_from_slice(line)?;
                rest = others;
            }
            _ => return Ok(()),
        }
    }
    Ok(())
}

fn is_part(line: &[u8]) -> bool {
    for part in PARTS {
        if line.starts_with(part) {
            return true;
        }
    }
    false
}
