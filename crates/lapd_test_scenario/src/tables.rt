//! Tables of scenarios, separated by empty lines. The first line of each has the words that choose
//! its command. Each must run as written, however many octets a call moves. The prefixes of the
//! first two of a table must run too, with a failing stream after them, or with the end of the
//! port's input within a frame.

use crate::CommandWords;
use crate::commands::Commands;
use crate::scenario::mark_of;
use crate::trial::{Trial, row_passes};
use lapd_port::{FromRead, FromWrite, Port};
use std::alloc::{AllocError, Global};
use std::io;
use std::test::Fail;

/// Fails the test at the first scenario of these tables that does not run as written.
pub fn scenarios_hold<C: Commands>(
    alloc: Global,
    commands: &C,
    tables: &[&'static str],
) -> Result<(), Fail> {
    for table in tables {
        if let Some(row) = wrong_row(alloc, commands, *table) {
            return Err(failure_of(alloc, commands, row));
        }
    }
    Ok(())
}

/// The failure of a scenario: the first printed line that differs.
fn failure_of<C: Commands>(alloc: Global, commands: &C, row: &str) -> Fail {
    let printed = printed_by(alloc, commands, row);
    let printed = str::from_utf8(printed.as_slice()).unwrap_or("");
    let (line, wanted) = first_difference(printed, row);
    Fail::new(format_args!(
        "with nothing on the port it prints '{line}' instead of '{wanted}':\n{row}"
    ))
}

/// The output of a scenario's script if nothing is on the port.
fn printed_by<C: Commands>(alloc: Global, commands: &C, row: &str) -> Vec<u8> {
    let (words, scenario) = row.split_once('\n').unwrap_or((row, ""));
    let mut printed = Vec::new(alloc);
    if let Ok(script) = script_of(alloc, scenario) {
        let port = Port::new(FromRead::new(b"".as_slice()), FromWrite::new(io::sink()));
        let mut script = script.as_bytes();
        let _ = commands.run(alloc, CommandWords(words), &mut script, &mut printed, port);
    }
    printed
}

/// The first printed line that differs from the scenario's, and that one; both are empty if none
/// differs.
fn first_difference<'a>(printed: &'a str, scenario: &'a str) -> (&'a str, &'a str) {
    let mut lines = printed.lines();
    for line in scenario.lines() {
        if mark_of(line.as_bytes()) == b"    ".as_slice() {
            let wanted = line.get(4..).unwrap_or("");
            let printed = lines.next().unwrap_or("");
            if printed != wanted {
                return (printed, wanted);
            }
        }
    }
    (lines.next().unwrap_or(""), "")
}

/// The lines of the script in a scenario.
fn script_of(alloc: Global, scenario: &str) -> Result<String, AllocError> {
    let mut script = String::new(alloc);
    for line in scenario.lines() {
        if mark_of(line.as_bytes()).is_empty() {
            script.push_str(line)?;
            script.push_str("\n")?;
        }
    }
    Ok(script)
}

/// The first scenario of a table that does not run as written. Of the first two, the prefixes are
/// run as well.
fn wrong_row<C: Commands>(
    alloc: Global,
    commands: &C,
    table: &'static str,
) -> Option<&'static str> {
    for (number, row) in table.split("\n\nlapd").enumerate() {
        let trial = if number < 2 && row.len() < 2000 {
            Trial::Fronts
        } else {
            Trial::Alone
        };
        if !row_passes(alloc, commands, row, trial) {
            return Some(row);
        }
    }
    None
}
