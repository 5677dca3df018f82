//! The built-in suite, played against our own sides in simulated time.

use crate::asked_rows::AskedRows;
use crate::station::{Own, OwnStation, Planted};
use lapd_conform::{
    Case, Lost, NumberedLine, Outcome, Played, Request, Requests, Session, Stack, Verdict,
    first_case, play,
};
use lapd_conform_cases::PARTS;
use lapd_conform_suite::read_suite;
use lapd_sides::Side;
use lapd_test_text::{Text, split};
use std::alloc::Global;
use std::test::Fail;

/// More cases than a part has.
const MOST_CASES: usize = 1_000;

/// What is known of our own side.
pub(crate) fn stack(own: Own) -> Stack {
    let mut stack = Stack::new(own.side);
    stack.requests = requests(own.side);
    stack.confirms = true;
    stack.delay = own.delay;
    if !own.is_primary {
        stack.tei = None;
        stack.k = 1;
    }
    stack
}

fn requests(side: Side) -> Requests {
    let mut requests = Requests::none();
    for request in [
        Request::Establish,
        Request::Release,
        Request::Give,
        Request::Unit,
        Request::Busy,
    ] {
        requests.add(request);
    }
    match side {
        Side::Network => {
            requests.add(Request::Check);
            requests.add(Request::Remove);
        }
        Side::User => requests.add(Request::Ask),
    }
    requests
}

/// How the cases of a stack ended.
#[derive(Drop)]
struct Verdicts {
    alloc: Global,
    passed: u32,
    inconclusive: u32,
    not_applicable: u32,
    failed: Text,
    doubted: Text,
    /// The rows of the state table that the stack was asked for.
    rows: AskedRows,
}

impl Verdicts {
    fn new(alloc: Global) -> Verdicts {
        Verdicts {
            alloc,
            passed: 0,
            inconclusive: 0,
            not_applicable: 0,
            failed: Text::new(),
            doubted: Text::new(),
            rows: AskedRows::new(),
        }
    }

    fn add(&mut self, case: &Case<'_>, outcome: &Outcome) {
        match outcome {
            Outcome::NotApplicable(_) => {
                self.not_applicable = self.not_applicable.wrapping_add(1);
            }
            Outcome::Played(played) => self.add_played(case, played),
        }
    }

    fn add_played(&mut self, case: &Case<'_>, played: &Played) {
        match played.verdict {
            Verdict::Pass => self.passed = self.passed.wrapping_add(1),
            Verdict::Inconclusive => {
                self.inconclusive = self.inconclusive.wrapping_add(1);
                self.doubted.shown(" ", &case.name);
                self.doubted.shown(" at line ", &played.line);
            }
            Verdict::Fail => {
                self.failed.shown(" ", &case.name);
                self.failed.shown(" at line ", &played.line);
            }
        }
    }

    /// Plays all cases of these lines whose names are as this one; an empty one is all.
    fn play_part<'s>(
        &mut self,
        station: &mut OwnStation,
        stack: &Stack,
        session: &mut Session,
        lines: &'s [NumberedLine<'s>],
        name: &str,
    ) -> Result<(), Lost> {
        let mut place: usize = 0;
        for _turn in 0..MOST_CASES {
            let count = self.play_at(station, stack, session, lines, place, name)?;
            if count == 0 {
                return Ok(());
            }
            place = place.saturating_add(count);
        }
        Ok(())
    }

    /// Plays the case that begins at this line, and returns how many lines it has; 0 at the end.
    fn play_at<'s>(
        &mut self,
        station: &mut OwnStation,
        stack: &Stack,
        session: &mut Session,
        lines: &'s [NumberedLine<'s>],
        place: usize,
        name: &str,
    ) -> Result<usize, Lost> {
        let Some((_, rest)) = lines.split_at_checked(place) else {
            return Ok(0);
        };
        let Some((case, _)) = first_case(rest) else {
            return Ok(0);
        };
        if is_named(&case, name) {
            let outcome = play(self.alloc, station, stack, session, &case)?;
            self.add(&case, &outcome);
        }
        Ok(case.lines.len())
    }

    /// Plays all cases of the suite with this name; an empty one is all.
    fn play_suite(&mut self, own: Own, name: &str) -> Result<(), Lost> {
        let Ok(mut station) = OwnStation::new(self.alloc, own) else {
            return Err(Lost::Memory);
        };
        station.is_noting = name.is_empty() && own.delay == 0 && !own.is_kept;
        let stack = stack(own);
        let mut session = Session::new();
        for part in PARTS {
            self.play_text(&mut station, &stack, &mut session, part, name)?;
        }
        self.rows.add(&station.rows);
        Ok(())
    }

    fn play_text(
        &mut self,
        station: &mut OwnStation,
        stack: &Stack,
        session: &mut Session,
        text: &str,
        name: &str,
    ) -> Result<(), Lost> {
        match read_suite(self.alloc, text.as_bytes()) {
            Ok(lines) => self.play_part(station, stack, session, lines.as_slice(), name),
            Err(_) => Err(Lost::Memory),
        }
    }
}

fn is_named(case: &Case<'_>, name: &str) -> bool {
    let mut own = Text::new();
    own.shown("", &case.name);
    name.is_empty() || own.is(name)
}

/// Our own sides, which are right.
pub(crate) fn right(side: Side, is_primary: bool, delay: u32) -> Own {
    Own {
        side,
        is_primary,
        planted: Planted::Nothing,
        is_kept: false,
        delay,
        idle: 0,
    }
}

/// Plays the whole suite against both sides, with fixed and with automatic TEIs. No case fails, and
/// at most this many are inconclusive. Returns the rows of the state table that were asked for.
fn no_case_fails(alloc: Global, is_kept: bool, delay: u32, most: u32) -> Result<AskedRows, Fail> {
    let mut rows = AskedRows::new();
    for (side, is_primary) in [
        (Side::Network, true),
        (Side::User, true),
        (Side::Network, false),
        (Side::User, false),
    ] {
        let mut tally = Verdicts::new(alloc);
        let own = Own {
            is_kept,
            ..right(side, is_primary, delay)
        };
        let played = tally.play_suite(own, "");
        rows.add(&tally.rows);
        if played.is_err()
            || !tally.failed.is("")
            || tally.inconclusive > most
            || tally.passed < 150
        {
            let (passed, inconclusive) = (tally.passed, tally.inconclusive);
            let (failed, doubted) = (tally.failed.as_str(), tally.doubted.as_str());
            let lacking = tally.not_applicable;
            return Err(Fail::new(format_args!(
                "failed:{failed}; {passed} passed, {lacking} n/a, {inconclusive} inconclusive:{doubted}"
            )));
        }
    }
    Ok(rows)
}

/// The suite asks our own sides for each row of the state table.
#[test]
fn own_sides_pass(rt: HostRuntime) -> Result<(), Fail> {
    let rows = no_case_fails(rt.alloc(), false, 0, 0)?;
    let missing = rows.missing();
    if missing.is(NOT_ASKED) {
        return Ok(());
    }
    let missing = missing.as_str();
    Err(Fail::new(format_args!("rows without a case:\n{missing}")))
}

/// Rows of the state table that no case of the suite asks for.
const NOT_ASKED: &str = "";

/// Of a network side that is not started anew, TEI management is not judged: 17 cases.
#[test]
fn own_sides_pass_that_are_kept(rt: HostRuntime) -> Result<(), Fail> {
    no_case_fails(rt.alloc(), true, 0, 17)?;
    Ok(())
}

#[test]
fn no_case_fails_over_slow_lines(rt: HostRuntime) -> Result<(), Fail> {
    no_case_fails(rt.alloc(), false, 350, 60)?;
    Ok(())
}

/// A stack that takes no frame for four seconds after its start answers each SABME late, and then
/// all of them.
#[test]
fn no_case_fails_if_the_stack_begins_late(rt: HostRuntime) -> Result<(), Fail> {
    let own = Own {
        idle: 4_000,
        ..right(Side::Network, true, 0)
    };
    let mut tally = Verdicts::new(rt.alloc());
    let played = tally.play_suite(own, "");
    if played.is_ok() && tally.failed.is("") && tally.passed > 150 {
        return Ok(());
    }
    let (passed, inconclusive) = (tally.passed, tally.inconclusive);
    let (failed, doubted) = (tally.failed.as_str(), tally.doubted.as_str());
    Err(Fail::new(format_args!(
        "failed:{failed}; {passed} passed, {inconclusive} inconclusive:{doubted}"
    )))
}

/// Wrong stacks: what is wrong, the planted fault, and a case that finds it. Octets are the third
/// of a frame: its control field, or the first octet of that.
pub(crate) const WRONG: &str = "\
DM with F=0 | wrong 1f 0f | 4-V-03
UA with F=0 | wrong 73 63 | 4-V-01
no UA to SABME | mute 73 | 4-V-01
UA twice | twice 73 | 4-V-08
no DM | mute 1f | 4-V-03
SABME with P=0 | wrong 7f 6f | 4-V-06
DISC with P=0 | wrong 53 43 | 7-V-29
no answer to SABME with P=0 | deaf 6f | 4-V-02
no answer to DISC with P=0 | deaf 43 | 4-V-04
no REJ | mute 09 | 7-O-09
RR in place of REJ | wrong 09 01 | 7-O-09
REJ in place of RR | wrong 01 09 | 7-V-01
RNR in place of RR | wrong 01 05 | 7-V-01
RR in place of RNR | wrong 05 01 | 7-V-31
no RR | mute 01 | 7-V-06
RR twice | twice 01 | 8-V-03
N(R) of S frames is one too great | number | 7-V-06
N(R) of I frames is one too great | message-number | 7-V-20
P/F of S frames is wrong | final | 7-V-01
S responses are commands | role | 7-V-01
RNR is ignored | deaf 05 | 7-V-03
REJ is ignored | deaf 09 | 7-V-04
FRMR is ignored | deaf 87 | 7-O-05
DM with F=0 is ignored | deaf 0f | 7-O-03
UA with F=1 is ignored | deaf 73 | 5-V-01
DM with F=1 is ignored | deaf 1f | 5-V-02
T200 of half a second | t200 500 | 4-T-01
T200 of a minute | t200 60000 | 4-T-01
T203 of five seconds | t203 5000 | 7-T-03
T203 of an hour | t203 3600000 | 7-T-03
N200 of 5 | n200 5 | 4-T-01
N200 of 1 | n200 1 | 4-T-01
a window of 8 | window 8 | 7-V-22
a window of 3 | window 3 | 7-V-22
";

/// Whether the case of a row fails against the network side with the fault.
fn is_found(alloc: Global, row: &str) -> bool {
    let (_title, rest) = split(row, " | ");
    let (fault, name) = split(rest, " | ");
    let own = Own {
        planted: planted(fault),
        ..right(Side::Network, true, 0)
    };
    let mut tally = Verdicts::new(alloc);
    let played = tally.play_suite(own, name);
    played.is_ok() && !tally.failed.is("")
}

/// The fault that these words name.
pub(crate) fn planted(words: &str) -> Planted {
    let (word, rest) = split(words, " ");
    let (first, second) = split(rest, " ");
    match word {
        "wrong" => Planted::Wrong(octet(first), octet(second)),
        "mute" => Planted::Mute(octet(first)),
        "twice" => Planted::Twice(octet(first)),
        "deaf" => Planted::Deaf(octet(first)),
        "final" => Planted::WrongFinal,
        "number" => Planted::WrongNumber,
        "message-number" => Planted::WrongMessageNumber,
        "role" => Planted::WrongRole,
        "t200" => Planted::T200(number(first)),
        "t203" => Planted::T203(number(first)),
        "n200" => Planted::N200(small(first)),
        "window" => Planted::Window(small(first)),
        _ => Planted::Nothing,
    }
}

/// The octet of two hexadecimal digits.
fn octet(digits: &str) -> u8 {
    match digits.as_bytes() {
        [high, low] => (digit(*high) % 16) * 16 + digit(*low) % 16,
        _ => 0,
    }
}

fn digit(letter: u8) -> u8 {
    match letter {
        b'0'..=b'9' => letter - b'0',
        b'a'..=b'f' => letter - b'a' + 10,
        _ => 0,
    }
}

fn number(digits: &str) -> u32 {
    digits.parse::<u32>().unwrap_or(0)
}

fn small(digits: &str) -> u8 {
    digits.parse::<u8>().unwrap_or(0)
}

#[test]
fn wrong_stacks_fail(rt: HostRuntime) -> Result<(), Fail> {
    let mut missed = Text::new();
    for row in WRONG.lines() {
        if !is_found(rt.alloc(), row) {
            missed.put(row);
            missed.put("; ");
        }
    }
    if missed.is("") {
        return Ok(());
    }
    let missed = missed.as_str();
    Err(Fail::new(format_args!("not found: {missed}")))
}
