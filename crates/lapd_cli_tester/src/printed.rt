//! The results of a run: on standard output, in a folder and as JUnit XML; and its progress on
//! standard error.

use crate::case_files::CaseFiles;
use crate::refused::{print_memory, print_no_file, print_no_output};
use crate::upper_tester::passed_since;
use lapd_cli_conform::{
    CaseReport, DrawCounts, Grade, Halt, Played, Progress, Reporter, Stack, Tally, junit_file,
    push_found, push_line, push_object, push_test_case,
};
use lapd_cli_console::Escaped;
use lapd_cli_notes::PictureFile;
use std::fmt::Display;
use std::io::{self, ErrorKind, IsTerminal, Write};
use std::time::Instant;

/// Erases the line of a terminal.
const ERASED: &str = "\r\x1b[K";

/// How the results are reported.
#[derive(Clone, Copy)]
pub struct ResultStyle<'a> {
    /// Whether each result is a JSON object.
    pub json: bool,
    /// The file for results as JUnit XML.
    pub junit: Option<&'a str>,
    /// The folder for the frames of cases that fail.
    pub report: Option<&'a str>,
}

/// The results of a run.
#[derive(Drop)]
pub(crate) struct Printed<'a> {
    rt: &'a HostRuntime,
    style: ResultStyle<'a>,
    /// Whether stimuli are drawn: then only a round that fails is printed.
    is_drawn: bool,
    /// Whether standard error is a terminal, on which the progress is one line.
    is_terminal: bool,
    files: Option<CaseFiles<'a>>,
    /// The test cases of JUnit so far.
    cases: Vec<u8>,
    /// The moment at which the case began.
    begun: Option<Instant>,
    /// How a write of a result failed.
    fault: Option<ErrorKind>,
    /// The exit status after a report could not be written, which was reported.
    status: Option<u8>,
}

impl<'a> Printed<'a> {
    /// Results of this stack. Makes the folder of reports, if it does not exist.
    ///
    /// # Errors
    ///
    /// The exit status if there is no such folder, which is reported.
    pub fn new(
        rt: &'a HostRuntime,
        stack: &'a Stack,
        style: ResultStyle<'a>,
        is_drawn: bool,
    ) -> Result<Printed<'a>, u8> {
        let files = match style.report {
            Some(folder) => Some(CaseFiles::new(rt, stack, folder)?),
            None => None,
        };
        Ok(Printed {
            rt,
            style,
            is_drawn,
            is_terminal: rt.stderr().is_terminal(),
            files,
            cases: Vec::new(rt.alloc()),
            begun: None,
            fault: None,
            status: None,
        })
    }

    /// Erases the progress of a terminal.
    pub fn erase(&self) {
        if self.is_terminal {
            let _ = eprint!(self.rt; "{ERASED}");
        }
    }

    /// Reports why a result was not written. Returns the exit status.
    pub fn print_fault(&self) -> u8 {
        match self.status {
            Some(status) => status,
            None => print_no_output(self.rt, self.fault),
        }
    }

    /// Prints the counts, and writes the file of JUnit.
    ///
    /// # Errors
    ///
    /// The exit status if that fails, which is reported.
    pub fn finish(&mut self, tally: Tally) -> Result<(), u8> {
        if !self.style.json {
            self.print_counts(&tally)?;
        }
        self.write_junit(tally)
    }

    /// Prints the counts of drawn stimuli, and writes the file of JUnit. After a round that failed
    /// the counts are a comment, so that the whole output is a suite.
    ///
    /// # Errors
    ///
    /// The exit status if that fails, which is reported.
    pub fn finish_drawn(&mut self, counts: &DrawCounts) -> Result<(), u8> {
        if self.style.json {
            let Ok(object) = counts.object(self.rt.alloc()) else {
                return Err(print_memory(self.rt));
            };
            self.print_counts(&object.as_str())?;
        } else if counts.tally.failed == 0 {
            self.print_counts(counts)?;
        } else {
            let Ok(comment) = format!(in self.rt.alloc(); "# {counts}") else {
                return Err(print_memory(self.rt));
            };
            self.print_counts(&comment.as_str())?;
        }
        self.write_junit(counts.tally)
    }

    fn print_counts<D: Display>(&self, counts: &D) -> Result<(), u8> {
        match println!(self.rt; "{counts}") {
            Ok(()) => Ok(()),
            Err(error) => Err(print_no_output(self.rt, Some(error.kind()))),
        }
    }

    /// Writes the file of JUnit, if there is one.
    fn write_junit(&self, tally: Tally) -> Result<(), u8> {
        let Some(name) = self.style.junit else {
            return Ok(());
        };
        let Ok(text) = junit_file(self.rt.alloc(), tally, self.cases.as_slice()) else {
            return Err(print_memory(self.rt));
        };
        match written(self.rt, name, text.as_slice()) {
            Ok(()) => Ok(()),
            Err(error) => Err(print_no_file(self.rt, name, &error)),
        }
    }

    /// Writes the line of a result. Of drawn rounds only the one that fails is written, as a suite.
    fn print(&mut self, report: &CaseReport<'_>) -> Result<(), Halt> {
        if self.is_drawn && report.grade != Grade::Fail {
            return Ok(());
        }
        let mut line = Vec::new(self.rt.alloc());
        if self.style.json {
            push_object(&mut line, report)?;
        } else if self.is_drawn {
            push_found(&mut line, report)?;
        } else {
            push_line(&mut line, report)?;
        }
        self.erase();
        match self.rt.stdout().write_all(line.as_slice()) {
            Ok(()) => Ok(()),
            Err(error) => {
                self.fault = Some(error.kind());
                Err(Halt::Output)
            }
        }
    }

    /// Adds the test case of a result.
    fn add(&mut self, report: &CaseReport<'_>) -> Result<(), Halt> {
        if self.style.junit.is_none() {
            return Ok(());
        }
        let time = match &self.begun {
            Some(begun) => passed_since(self.rt, begun),
            None => 0,
        };
        push_test_case(self.rt.alloc(), &mut self.cases, report, time)?;
        Ok(())
    }

    /// Writes the files of a case that failed.
    fn write_files(
        &mut self,
        report: &CaseReport<'_>,
        source: &[u8],
        played: &Played,
    ) -> Result<(), Halt> {
        let Some(files) = &self.files else {
            return Ok(());
        };
        match files.write(report, source, played) {
            Ok(()) => Ok(()),
            Err(status) => {
                self.status = Some(status);
                Err(Halt::Output)
            }
        }
    }
}

/// Writes a file, which replaces an old one when it is complete.
fn written(rt: &HostRuntime, name: &str, text: &[u8]) -> io::Result<()> {
    let mut file = PictureFile::new(rt, name);
    file.write_all(text)?;
    let _is_made = file.finish(true)?;
    Ok(())
}

impl Reporter for Printed<'_> {
    fn begin(&mut self, number: u64, count: u64, name: &str, title: &[u8]) {
        self.begun = Instant::now(self.rt).ok();
        let title = Escaped(str::from_utf8(title).unwrap_or(""));
        let _ = if self.is_terminal {
            eprint!(self.rt; "{ERASED}case {number} of {count}: {name} {title}")
        } else {
            eprintln!(self.rt; "case {number} of {count}: {name} {title}")
        };
    }

    fn end(
        &mut self,
        report: &CaseReport<'_>,
        source: &[u8],
        played: Option<&Played>,
    ) -> Result<(), Halt> {
        self.print(report)?;
        self.add(report)?;
        match (report.grade, played) {
            (Grade::Fail, Some(played)) => self.write_files(report, source, played),
            _ => Ok(()),
        }
    }
}

impl Progress for Printed<'_> {
    fn shrink(&mut self, number: u64, stimuli: usize) {
        let _ = if self.is_terminal {
            eprint!(self.rt; "{ERASED}shrinking: try {number} with {stimuli} stimuli")
        } else {
            eprintln!(self.rt; "shrinking: try {number} with {stimuli} stimuli")
        };
    }
}
