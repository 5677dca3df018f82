//! Printing the cases of a suite.

use crate::chosen_cases::Suite;
use crate::refused::{print_memory, print_no_output};
use lapd_cli_conform::{Selection, case_at, name_of, source_of};
use lapd_conform_cases::PARTS;
use lapd_conform_suite::{NumberedLine, read_suite};
use std::io::{ErrorKind, Write};

/// The greatest number of cases of a text.
const MOST_CASES: usize = 1_000_000;

/// Why cases are not printed.
#[derive(Clone, Copy)]
enum NoPrint {
    Output(ErrorKind),
    Memory,
}

/// Prints the cases of the built-in suite, or of the suite in this file, whose names a pattern
/// fits; all of them without a pattern. Returns the exit status.
pub fn print_suite(rt: &HostRuntime, file: Option<&str>, patterns: &[&str]) -> u8 {
    let selection = Selection { patterns };
    let suite = match Suite::read(rt, file) {
        Ok(suite) => suite,
        Err(status) => return status,
    };
    if let Err(status) = suite.count(rt, &selection) {
        return status;
    }
    match print_all(rt, &suite, &selection) {
        Ok(()) => 0,
        Err(NoPrint::Output(kind)) => print_no_output(rt, Some(kind)),
        Err(NoPrint::Memory) => print_memory(rt),
    }
}

fn print_all(
    rt: &HostRuntime,
    suite: &Suite<'_>,
    selection: &Selection<'_>,
) -> Result<(), NoPrint> {
    match suite {
        Suite::BuiltIn => {
            for part in PARTS {
                print_text(rt, part.as_bytes(), selection)?;
            }
            Ok(())
        }
        Suite::File(_, text) => print_text(rt, text.as_slice(), selection),
    }
}

fn print_text(rt: &HostRuntime, text: &[u8], selection: &Selection<'_>) -> Result<(), NoPrint> {
    if selection.patterns.is_empty() {
        put(rt, text)?;
        return put(rt, b"\n");
    }
    match read_suite(rt.alloc(), text) {
        Ok(lines) => print_cases(rt, text, lines.as_slice(), selection),
        Err(_) => Err(NoPrint::Memory),
    }
}

/// Prints the cases of a text that are chosen, with an empty line after each.
fn print_cases<'s>(
    rt: &HostRuntime,
    text: &[u8],
    lines: &'s [NumberedLine<'s>],
    selection: &Selection<'_>,
) -> Result<(), NoPrint> {
    let mut place: usize = 0;
    for _turn in 0..MOST_CASES {
        let Some(case) = case_at(lines, place) else {
            return Ok(());
        };
        let Ok(name) = name_of(rt.alloc(), &case) else {
            return Err(NoPrint::Memory);
        };
        if selection.has(name.as_str()) {
            put(rt, source_of(text, &case))?;
            put(rt, b"\n")?;
        }
        place = place.saturating_add(case.lines.len());
    }
    Ok(())
}

fn put(rt: &HostRuntime, text: &[u8]) -> Result<(), NoPrint> {
    match rt.stdout().write_all(text) {
        Ok(()) => Ok(()),
        Err(error) => Err(NoPrint::Output(error.kind())),
    }
}
