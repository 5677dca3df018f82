//! The suite that is played: the built-in one, or a file.

use crate::refused::{print_memory, print_no_case, print_no_file, print_wrong_file};
use lapd_cli_conform::{Halt, Reporter, Run, Selection, Station};
use lapd_conform_cases::PARTS;
use lapd_conform_suite::{SuiteFault, read_suite};
use std::fs;

/// The text of a suite.
#[derive(Drop)]
pub(crate) enum Suite<'a> {
    /// The built-in suite.
    BuiltIn,
    /// The suite in this file.
    File(&'a str, Vec<u8>),
}

impl<'a> Suite<'a> {
    /// The suite in this file, or the built-in one.
    ///
    /// # Errors
    ///
    /// The exit status if the file cannot be read, which is reported.
    pub fn read(rt: &HostRuntime, file: Option<&'a str>) -> Result<Suite<'a>, u8> {
        let Some(file) = file else {
            return Ok(Suite::BuiltIn);
        };
        match fs::read(rt, file) {
            Ok(text) => Ok(Suite::File(file, text)),
            Err(error) => Err(print_no_file(rt, file, &error)),
        }
    }

    /// The number of cases that are played.
    ///
    /// # Errors
    ///
    /// The exit status if a line is wrong, a pattern fits no case or an allocation fails, which is
    /// reported.
    pub fn count(&self, rt: &HostRuntime, selection: &Selection<'_>) -> Result<u64, u8> {
        for pattern in selection.patterns {
            let one = [*pattern];
            let alone = Selection { patterns: &one };
            if self.count_all(rt, &alone)? == 0 {
                return Err(print_no_case(rt, pattern));
            }
        }
        self.count_all(rt, selection)
    }

    fn count_all(&self, rt: &HostRuntime, selection: &Selection<'_>) -> Result<u64, u8> {
        match self {
            Suite::BuiltIn => count_parts(rt, selection),
            Suite::File(file, text) => count_text(rt, file, text.as_slice(), selection),
        }
    }

    /// Plays the cases.
    ///
    /// # Errors
    ///
    /// Those of [`Run::play_lines`].
    pub fn play<S: Station, R: Reporter>(
        &self,
        rt: &HostRuntime,
        run: &mut Run<'_>,
        station: &mut S,
        reporter: &mut R,
    ) -> Result<(), Halt> {
        match self {
            Suite::BuiltIn => {
                for part in PARTS {
                    play_text(rt, run, station, reporter, part.as_bytes())?;
                }
                Ok(())
            }
            Suite::File(_, text) => play_text(rt, run, station, reporter, text.as_slice()),
        }
    }
}

fn count_parts(rt: &HostRuntime, selection: &Selection<'_>) -> Result<u64, u8> {
    let mut count: u64 = 0;
    for part in PARTS {
        let more = count_text(rt, "the built-in suite", part.as_bytes(), selection)?;
        count = count.saturating_add(more);
    }
    Ok(count)
}

fn count_text(
    rt: &HostRuntime,
    file: &str,
    text: &[u8],
    selection: &Selection<'_>,
) -> Result<u64, u8> {
    match read_suite(rt.alloc(), text) {
        Ok(lines) => match selection.count(rt.alloc(), lines.as_slice()) {
            Ok(count) => Ok(count),
            Err(_) => Err(print_memory(rt)),
        },
        Err(SuiteFault::Memory) => Err(print_memory(rt)),
        Err(fault) => Err(print_wrong_file(rt, file, &fault)),
    }
}

/// Plays the cases of a text that was read before.
fn play_text<S: Station, R: Reporter>(
    rt: &HostRuntime,
    run: &mut Run<'_>,
    station: &mut S,
    reporter: &mut R,
    text: &[u8],
) -> Result<(), Halt> {
    match read_suite(rt.alloc(), text) {
        Ok(lines) => run.play_lines(station, reporter, text, lines.as_slice()),
        Err(_) => Err(Halt::Memory),
    }
}
