//! Runs rows of text on a side, a table of links, a bus, timers, a terminal, and an assigner.
//!
//! A row is several lines. The first names it. Each other line is a step, followed by `: ` and the
//! expected result. The first word of a step selects the object; any other word is a call of the
//! side.
//!
//! A test cannot make an allocation fail: `tools/refuse-memory` fails each allocation of a run in
//! turn, and a test prints the step that failed (docs/DEVELOPING.md). A step whose allocation fails
//! has no result and changes nothing that can be queried. Repeated, it has the result that it has
//! without the failure.

use crate::digest::{with_bus, with_side, with_table};
use crate::given::put_drawn;
use crate::rows::{BUSES, LINKS, NETWORK_SIDES, SUBJECTS, USER_SIDES, rows_of};
use crate::talk::Talk;
use crate::tei::{step_of_assigner, step_of_messages, step_of_terminal, step_of_timers};
use lapd_sides::{Assigner, Side, Terminal};
use lapd_table::LinkTable;
use lapd_tei::Bus;
use lapd_test_text::{Text, split};
use lapd_timers::{Durations, TimerSet};
use std::alloc::{AllocError, Global};
use std::test::Fail;

/// The objects that rows run on.
#[derive(Drop)]
pub(crate) struct Stage {
    pub(crate) alloc: Global,
    talks: Vec<Talk>,
    pub(crate) table: LinkTable,
    pub(crate) buses: Vec<Bus>,
    timers: TimerSet,
    terminal: Terminal,
    assigner: Assigner,
}

/// The name of the row, the result of the last step, and the last step whose allocation failed.
#[derive(Drop)]
struct Notes {
    row: Text,
    result: Text,
    met: Text,
}

impl Stage {
    /// Creates the objects in their initial state.
    fn new(alloc: Global) -> Stage {
        Stage {
            alloc,
            talks: Vec::new(alloc),
            table: LinkTable::new(alloc, Side::Network),
            buses: Vec::new(alloc),
            timers: TimerSet::new(Durations::standard()),
            terminal: Terminal::new(None),
            assigner: Assigner::new(&[]),
        }
    }

    /// The digest of all objects that allocate.
    fn digest(&self) -> u64 {
        let mut all = with_table(0, &self.table);
        if let Some(talk) = self.talks.first() {
            all = with_side(all, &talk.side);
        }
        if let Some(bus) = self.buses.first() {
            all = with_bus(all, bus);
        }
        all
    }

    /// Runs a step, and writes its result.
    fn step(&mut self, words: &str, text: &mut Text) {
        let (word, behind) = split(words, " ");
        match word {
            "table" => self.step_of_table(behind, text),
            "bus" => self.step_of_bus(behind, text),
            "timers" => step_of_timers(&mut self.timers, behind, text),
            "terminal" => step_of_terminal(&mut self.terminal, behind, text),
            "assigner" => step_of_assigner(&mut self.assigner, behind, text),
            "message" => step_of_messages(self.alloc, behind, text),
            "drawn" => put_drawn(text),
            "net" | "user" => self.begin(words, text),
            _ => self.step_of_side(words, text),
        }
    }

    /// Creates the side that these words describe.
    fn begin(&mut self, words: &str, text: &mut Text) {
        if self.renew(words).is_err() {
            text.put("no memory");
        }
    }

    fn renew(&mut self, words: &str) -> Result<(), AllocError> {
        let talk = Talk::of(self.alloc, words)?;
        self.talks.clear();
        self.talks.push(talk)?;
        Ok(())
    }

    /// Runs a step of the side.
    fn step_of_side(&mut self, words: &str, text: &mut Text) {
        match self.talks.first_mut() {
            Some(talk) => talk.step(words, text),
            None => text.put("no memory"),
        }
    }

    /// Runs a step. If its allocation fails and nothing has changed, notes the step and runs it
    /// again.
    fn does(&mut self, words: &str, notes: &mut Notes) {
        let before = self.digest();
        notes.result.clear();
        self.step(words, &mut notes.result);
        let result = notes.result.as_str();
        let refused = result.starts_with("no memory")
            || matches!(result, "refused B3 Memory;" | "refused U3 Memory;");
        if refused && self.digest() == before {
            notes.met.clear();
            notes.met.put(words);
            notes.result.clear();
            self.step(words, &mut notes.result);
        }
    }

    /// Whether the step of a line has the expected result.
    fn is_right(&mut self, line: &str, notes: &mut Notes) -> bool {
        let (words, wanted) = split(line, ": ");
        self.does(words, notes);
        notes.result.is(wanted)
    }

    /// Runs rows. Fails at the first line with another result.
    fn lead(&mut self, rows: &str, notes: &mut Notes) -> Result<(), Fail> {
        for line in rows.lines() {
            if line.starts_with("#") {
                notes.row.clear();
                notes.row.put(line);
            } else if !line.is_empty() && !self.is_right(line, notes) {
                return notes.fail(line);
            }
        }
        Ok(())
    }
}

impl Notes {
    fn new() -> Notes {
        Notes {
            row: Text::new(),
            result: Text::new(),
            met: Text::new(),
        }
    }

    /// Fails and reports this line.
    fn fail(&self, line: &str) -> Result<(), Fail> {
        let row = self.row.as_str();
        let result = self.result.as_str();
        Err(Fail::new(format_args!("{row}: {line}, and not {result}")))
    }
}

/// Runs the rows of a subject.
fn lead(alloc: Global, subject: u32, notes: &mut Notes) -> Result<(), Fail> {
    let mut stage = Stage::new(alloc);
    stage.lead(rows_of(subject), notes)
}

/// Runs the rows of a subject, and prints the step whose allocation failed, if any.
fn lead_and_print(rt: &HostRuntime, subject: u32) -> Result<(), Fail> {
    let mut notes = Notes::new();
    lead(rt.alloc(), subject, &mut notes)?;
    if !notes.met.is("") {
        let met = notes.met.as_str();
        println!(rt; "refused in {met}")?;
    }
    Ok(())
}

#[test]
fn rows_hold(rt: HostRuntime) -> Result<(), Fail> {
    let mut notes = Notes::new();
    for subject in 0..SUBJECTS {
        lead(rt.alloc(), subject, &mut notes)?;
    }
    if notes.met.is("") {
        Ok(())
    } else {
        notes.fail("memory was refused")
    }
}

#[test]
fn a_network_side_without_memory(rt: HostRuntime) -> Result<(), Fail> {
    lead_and_print(&rt, NETWORK_SIDES)
}

#[test]
fn a_user_side_without_memory(rt: HostRuntime) -> Result<(), Fail> {
    lead_and_print(&rt, USER_SIDES)
}

#[test]
fn a_bus_without_memory(rt: HostRuntime) -> Result<(), Fail> {
    lead_and_print(&rt, BUSES)
}

#[test]
fn links_without_memory(rt: HostRuntime) -> Result<(), Fail> {
    lead_and_print(&rt, LINKS)
}
