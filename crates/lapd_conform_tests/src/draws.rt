//! Drawn stimuli, played against our own sides in simulated time.

use crate::plays::{WRONG, planted, right, stack};
use crate::station::{Own, OwnStation};
use lapd_cli_conform::{
    CaseReport, DrawCounts, DrawPlan, DrawnRun, Grade, Halt, Reporter, push_found,
};
use lapd_conform::{Lost, Outcome, Played, Session, Stack, Verdict};
use lapd_conform_draw::{Progress, Round, draw_round, play_round};
use lapd_sides::Side;
use lapd_test_text::{Text, split};
use std::alloc::Global;
use std::test::Fail;

/// How many stimuli a round has.
const STIMULI: usize = 30;

/// A stack that rounds are played against.
#[derive(Drop)]
struct Table {
    alloc: Global,
    station: OwnStation,
    stack: Stack,
    session: Session,
    judged: u64,
    unjudged: u64,
    doubted: Text,
}

impl Table {
    fn new(alloc: Global, own: Own) -> Result<Table, Lost> {
        let Ok(station) = OwnStation::new(alloc, own) else {
            return Err(Lost::Memory);
        };
        Ok(Table {
            alloc,
            station,
            stack: stack(own),
            session: Session::new(),
            judged: 0,
            unjudged: 0,
            doubted: Text::new(),
        })
    }

    /// The verdict on a round.
    fn verdict(&mut self, round: &Round) -> Result<Verdict, Lost> {
        let Ok(text) = round.text(self.alloc, &self.stack) else {
            return Err(Lost::Memory);
        };
        self.verdict_on(text.as_slice())
    }

    /// The verdict on the case of this text.
    fn verdict_on(&mut self, text: &[u8]) -> Result<Verdict, Lost> {
        let outcome = play_round(
            self.alloc,
            &mut self.station,
            &self.stack,
            &mut self.session,
            text,
        )?;
        match outcome {
            Outcome::Played(played) => Ok(played.verdict),
            Outcome::NotApplicable(_) => Ok(Verdict::Inconclusive),
        }
    }

    /// Plays rounds with this seed up to the first that fails.
    fn play(&mut self, seed: u64, count: u64) -> Result<Option<Round>, Lost> {
        for turn in 0..count {
            let number = turn.saturating_add(1);
            let Ok(round) = draw_round(self.alloc, &self.stack, seed, number, STIMULI) else {
                return Err(Lost::Memory);
            };
            match self.verdict(&round)? {
                Verdict::Fail => return Ok(Some(round)),
                Verdict::Pass => self.judged = self.judged.saturating_add(1),
                Verdict::Inconclusive => {
                    self.unjudged = self.unjudged.saturating_add(1);
                    self.doubted.shown(" ", &number);
                }
            }
        }
        Ok(None)
    }
}

/// Plays so many rounds against a right side. None fails, and each is judged.
fn no_round_fails(alloc: Global, own: Own, seed: u64, count: u64) -> Result<(), Fail> {
    let Ok(mut table) = Table::new(alloc, own) else {
        return Err(Fail::new(format_args!("no station")));
    };
    let played = table.play(seed, count);
    let (judged, unjudged) = (table.judged, table.unjudged);
    match played {
        Ok(None) if judged == count => Ok(()),
        Ok(Some(round)) => {
            let text = text_of(alloc, &table, &round);
            let text = text.as_str();
            Err(Fail::new(format_args!("after {judged} rounds:\n{text}")))
        }
        _ => {
            let doubted = table.doubted.as_str();
            Err(Fail::new(format_args!("{judged} judged, {unjudged} not:{doubted}")))
        }
    }
}

/// The text of this round.
fn text_of(alloc: Global, table: &Table, round: &Round) -> Text {
    let mut text = Text::new();
    if let Ok(made) = round.text(alloc, &table.stack) {
        text.put_octets(made.as_slice());
    }
    text
}

#[test]
fn no_round_fails_against_our_own_sides(rt: HostRuntime) -> Result<(), Fail> {
    for (side, is_primary) in [
        (Side::Network, true),
        (Side::User, true),
        (Side::Network, false),
        (Side::User, false),
    ] {
        no_round_fails(rt.alloc(), right(side, is_primary, 0), 1, 40)?;
    }
    Ok(())
}

#[test]
fn no_round_fails_over_slow_lines(rt: HostRuntime) -> Result<(), Fail> {
    no_round_fails(rt.alloc(), right(Side::Network, true, 100), 2, 10)?;
    no_round_fails(rt.alloc(), right(Side::User, false, 100), 3, 10)
}

/// The stack with the fault of this row.
fn wrong(row: &str) -> Own {
    let (_title, rest) = split(row, " | ");
    let (fault, _name) = split(rest, " | ");
    Own {
        planted: planted(fault),
        ..right(Side::Network, true, 0)
    }
}

/// Whether one of so many rounds fails against a network side with the fault of this row.
fn is_found(alloc: Global, row: &str, seed: u64, count: u64) -> bool {
    match Table::new(alloc, wrong(row)) {
        Ok(mut table) => matches!(table.play(seed, count), Ok(Some(_))),
        Err(_) => false,
    }
}

/// Each fault of the suite's table is found by one of 20 rounds.
#[test]
fn drawn_stimuli_find_wrong_stacks(rt: HostRuntime) -> Result<(), Fail> {
    let mut missed = Text::new();
    for row in WRONG.lines() {
        if !is_found(rt.alloc(), row, 1, 20) {
            missed.put(row);
            missed.put("; ");
        }
    }
    if missed.is("") {
        return Ok(());
    }
    let missed = missed.as_str();
    Err(Fail::new(format_args!("not found: {missed}")))
}

/// Faults whose case is shrunk.
const SHRUNK: &str = "\
RNR is ignored | deaf 05 | 1
a window of 8 | window 8 | 1
RR twice | twice 01 | 1
";

/// The text of the report on the first drawn round that fails, and on the run.
#[derive(Drop)]
struct Recorder {
    alloc: Global,
    text: Vec<u8>,
    begun: u64,
    tries: u64,
}

impl Recorder {
    fn new(alloc: Global) -> Recorder {
        Recorder {
            alloc,
            text: Vec::new(alloc),
            begun: 0,
            tries: 0,
        }
    }
}

impl Reporter for Recorder {
    fn begin(&mut self, number: u64, _count: u64, _name: &str, _title: &[u8]) {
        self.begun = number;
    }

    fn end(
        &mut self,
        report: &CaseReport<'_>,
        _source: &[u8],
        _played: Option<&Played>,
    ) -> Result<(), Halt> {
        if report.grade == Grade::Fail {
            push_found(&mut self.text, report)?;
        }
        Ok(())
    }
}

impl Progress for Recorder {
    fn shrink(&mut self, number: u64, _stimuli: usize) {
        self.tries = number;
    }
}

/// Draws stimuli against this stack, and records the result. Returns the counts.
fn run_draws(recorder: &mut Recorder, own: Own, plan: DrawPlan) -> Result<DrawCounts, Halt> {
    let Ok(mut station) = OwnStation::new(recorder.alloc, own) else {
        return Err(Halt::Memory);
    };
    let stack = stack(own);
    let mut run = DrawnRun::new(recorder.alloc, &stack, plan);
    run.play(&mut station, recorder)?;
    Ok(run.counts())
}

/// Whether the text is a suite whose first case fails against this stack.
fn fails_again(alloc: Global, own: Own, text: &[u8]) -> bool {
    match Table::new(alloc, own) {
        Ok(mut table) => matches!(table.verdict_on(text), Ok(Verdict::Fail)),
        Err(_) => false,
    }
}

/// The counts of a run against our own side, without a fault.
#[test]
fn a_run_of_draws_counts_its_stimuli(rt: HostRuntime) -> Result<(), Fail> {
    let mut recorder = Recorder::new(rt.alloc());
    let plan = DrawPlan { count: 65, seed: 5 };
    let own = right(Side::User, true, 0);
    let Ok(counts) = run_draws(&mut recorder, own, plan) else {
        return Err(Fail::new(format_args!("the run ended")));
    };
    let mut text = Text::new();
    text.shown("", &counts);
    let text = text.as_str();
    assert_eq!(rt;
        text,
        "65 stimuli of seed 5 in 3 rounds: 3 pass, 0 fail, 0 not judged"
    );
    assert_eq!(rt; counts.tally.status(), 0);
    assert!(rt; recorder.text.is_empty());
    assert_eq!(rt; recorder.begun, 3);
    Ok(())
}

/// A run ends at the first fault. Its text is a suite, whose case has few steps and fails again.
#[test]
fn a_run_of_draws_prints_a_case_that_fails(rt: HostRuntime) -> Result<(), Fail> {
    for row in SHRUNK.lines() {
        let mut recorder = Recorder::new(rt.alloc());
        let own = wrong(row);
        let plan = DrawPlan {
            count: 600,
            seed: 1,
        };
        let Ok(counts) = run_draws(&mut recorder, own, plan) else {
            return Err(Fail::new(format_args!("the run ended")));
        };
        let mut text = Text::new();
        text.put_octets(recorder.text.as_slice());
        let shown = text.as_str();
        let lines = shown.lines().count();
        let is_again = fails_again(rt.alloc(), own, recorder.text.as_slice());
        if counts.tally.status() != 1 || !is_again || lines > 14 || recorder.tries == 0 {
            return Err(Fail::new(format_args!("{row}: again {is_again}:\n{shown}")));
        }
    }
    Ok(())
}
