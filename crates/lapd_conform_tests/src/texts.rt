//! Tests of the texts of `conform`: stack files, patterns, and results.

use lapd_cli_conform::{
    CaseReport, DrawPlan, Grade, KnownCases, Stack, Tally, fits, push_found, push_line,
    push_object, push_test_case, push_wanted, read_stack,
};
use lapd_sides::Side;
use lapd_test_text::{Subject, Text, split, wrong_row};
use std::alloc::Global;
use std::test::Fail;

/// The kind of a row, its text, in which `;` ends a line, and the text that comes of it.
const ROWS: &str = "\
stack net | | automatic 1 3 3 1000 1000 2000 10000 some passive establish release give unit busy check remove yes 0
stack user | | automatic 1 3 3 1000 1000 2000 10000 some passive establish release give unit busy ask yes 0
stack net | tei 0;k 7 | 0 7 3 3 1000 1000 2000 10000 some passive establish release give unit busy check remove yes 0
stack net | # a comment;;tei 126;tei automatic;n200 100;n202 1;t200 1;t201 3600000;t202 5;t203 none | automatic 1 100 1 1 3600000 5 none some passive establish release give unit busy check remove yes 0
stack user | sapis all;layer3 active;upper give ask;confirms no;delay 10000 | automatic 1 3 3 1000 1000 2000 10000 all active give ask no 10000
stack net | upper | automatic 1 3 3 1000 1000 2000 10000 some passive yes 0
stack net | tei 127 | line 1: expected a TEI from 0 to 126, or automatic, found '127'
stack net | k 1;k | line 2: expected a window k from 1 to 127
stack net | k 0 | line 1: expected a window k from 1 to 127, found '0'
stack net | k 1 2 | line 1: expected the end of the line, found '2'
stack net | k  1 | line 1: expected a window k from 1 to 127
stack net | n200 101 | line 1: expected a number from 1 to 100, found '101'
stack net | t200 1s | line 1: expected milliseconds from 1 to 3600000, found '1s'
stack net | t203 0 | line 1: expected milliseconds from 1 to 3600000, or none, found '0'
stack net | #;sapis none | line 2: expected some or all, found 'none'
stack net | layer3 idle | line 1: expected active or passive, found 'idle'
stack net | upper give ready | line 1: expected establish, release, give, unit, busy, ask, check or remove, found 'ready'
stack net | confirms maybe | line 1: expected yes or no, found 'maybe'
stack net | delay 10001 | line 1: expected milliseconds from 0 to 10000, found '10001'
stack net | T200 5 | line 1: expected tei, k, n200, n202, t200, t201, t202, t203, sapis, layer3, upper, confirms or delay, found 'T200'
fits 7-V-01 | 7-V-01 | yes
fits 7-V-01 | 7-V-0 | no
fits 7-V-01 | 7-* | yes
fits 7-V-01 | *-V-* | yes
fits 7-V-01 | *-T-* | no
fits 7-V-01 | **1 | yes
fits 7-V-01 | *1* | yes
fits 7-V-01 | *7 | no
fits 7-V-11 | *1 | yes
fits 7-V-01 | * | yes
fits 7-V-01 | | no
wanted 2 | case;expect R UA F=1;or R DM F=1;at T200;send C DISC | R UA F=1 or R DM F=1 at T200
wanted 1 | expect nothing | nothing
wanted 1 | quiet 100 ms;quiet 5 ms | nothing for 100 ms
wanted 2 | a;state 7 | state 7
wanted 3 | a;b |
line pass | n;t;c;;;w;s | pass n t~
line pass | n;t;c;;r | pass n t; r~
line known | n;t;c;;r;w;s | known n t; r; clause c; wanted w; seen s~
json known | n;t;c;;r;w;s | {\"case\":\"n\",\"clause\":\"c\",\"reason\":\"r\",\"seen\":\"s\",\"title\":\"t\",\"verdict\":\"known\",\"wanted\":\"w\"}~
junit known | n;t;c;;r;w;s | <testcase classname=\"lapd conform\" name=\"n t\" time=\"1.005\"><skipped message=\"known to fail: r\"/></testcase>~
known 7-V-01 | 7-V-01 | yes
known 7-V-01 | 8-V-01,7-V-01 | yes
known 7-V-01 | 8-V-01,7-V-012 | no
known 7-V-01 | 7-* | no
known 7-V-01 | | no
tally pass known | 0 | 2 cases: 1 pass, 0 fail, 0 inconclusive, 0 n/a, 1 known
tally known | 0 | 1 cases: 0 pass, 0 fail, 0 inconclusive, 0 n/a, 1 known
tally known fail | 1 | 2 cases: 0 pass, 1 fail, 0 inconclusive, 0 n/a, 1 known
tally inconclusive n/a | 4 | 2 cases: 0 pass, 0 fail, 1 inconclusive, 1 n/a
line fail | n;t;c;;r;w;s | fail n t; r; clause c; wanted w; seen s~
line fail | n;t;c;;;;s | fail n t; clause c; seen s~
line inconclusive | n;t;c;;r;w;s | inconclusive n t; r; wanted w; seen s~
line n/a | n;t;c;give | n/a n t; needs give~
json fail | n;a \"b\" \\;c;;r;w;s | {\"case\":\"n\",\"clause\":\"c\",\"reason\":\"r\",\"seen\":\"s\",\"title\":\"a \\\"b\\\" \\\\\",\"verdict\":\"fail\",\"wanted\":\"w\"}~
json n/a | n;t;c;give | {\"case\":\"n\",\"clause\":\"c\",\"needs\":\"give\",\"title\":\"t\",\"verdict\":\"n/a\"}~
found fail | n;t;c;;r;;s;case;x | # fail n t; r; clause c; seen s~# The least case that fails. --suite FILE plays it again, if FILE has these lines.~case;x
json fail | n;t;c;;r;;s;x | {\"case\":\"n\",\"clause\":\"c\",\"reason\":\"r\",\"seen\":\"s\",\"suite\":\"x\",\"title\":\"t\",\"verdict\":\"fail\"}~
plan 1 | 1 | 1 1
plan 30 | 1 | 1 30
plan 31 | 1 | 2 30
plan 31 | 2 | 2 1
plan 31 | 3 | 2 0
junit pass | n;a < b & c;c | <testcase classname=\"lapd conform\" name=\"n a &lt; b &amp; c\" time=\"1.005\"/>~
junit fail | n;t;c;;r;w;s | <testcase classname=\"lapd conform\" name=\"n t\" time=\"1.005\"><failure message=\"r\">clause c; wanted w; seen s</failure></testcase>~
junit fail | n;t;c;;r;;s | <testcase classname=\"lapd conform\" name=\"n t\" time=\"1.005\"><failure message=\"r\">clause c; seen s</failure></testcase>~
junit inconclusive | n;t;c;;r | <testcase classname=\"lapd conform\" name=\"n t\" time=\"1.005\"><skipped message=\"inconclusive: r\"/></testcase>~
junit n/a | n;t;c;give | <testcase classname=\"lapd conform\" name=\"n t\" time=\"1.005\"><skipped message=\"needs give\"/></testcase>~
";

/// Makes the text of each row.
#[derive(Drop)]
struct Maker {
    alloc: Global,
}

fn side_named(word: &str) -> Side {
    match word {
        "user" => Side::User,
        _ => Side::Network,
    }
}

fn put_stack(side: Side, lines: &Text, made: &mut Text) {
    match read_stack(side, lines.as_bytes()) {
        Ok(stack) => show_stack(&stack, made),
        Err(fault) => made.shown("", &fault),
    }
}

fn show_stack(stack: &Stack, made: &mut Text) {
    match stack.tei {
        Some(tei) => made.shown("", &tei),
        None => made.put("automatic"),
    }
    made.shown(" ", &stack.k);
    made.shown(" ", &stack.n200);
    made.shown(" ", &stack.n202);
    made.shown(" ", &stack.t200);
    made.shown(" ", &stack.t201);
    made.shown(" ", &stack.t202);
    if stack.has_t203 {
        made.shown(" ", &stack.t203);
    } else {
        made.put(" none");
    }
    made.put(if stack.has_sapis { " some" } else { " all" });
    made.put(if stack.is_active {
        " active"
    } else {
        " passive"
    });
    show_requests(stack, made);
    made.put(if stack.confirms { " yes" } else { " no" });
    made.shown(" ", &stack.delay);
}

/// The counts of these grades, if their status is this one.
fn put_tally(grades: &str, status: &str, made: &mut Text) {
    let mut tally = Tally::new();
    for word in grades.split(' ') {
        tally = tally.with(grade_named(word));
    }
    if u64::from(tally.status()) == status.parse::<u64>().unwrap_or(9) {
        made.shown("", &tally);
    } else {
        made.shown("status ", &tally.status());
    }
}

/// The rounds of this number of stimuli, and the stimuli of one of them.
fn put_plan(count: &str, number: &str, made: &mut Text) {
    let plan = DrawPlan {
        count: count.parse::<u64>().unwrap_or(0),
        seed: 0,
    };
    made.shown("", &plan.rounds());
    made.shown(" ", &plan.stimuli_of(number.parse::<u64>().unwrap_or(0)));
}

fn show_requests(stack: &Stack, made: &mut Text) {
    made.mark(" establish", stack.requests.establish);
    made.mark(" release", stack.requests.release);
    made.mark(" give", stack.requests.give);
    made.mark(" unit", stack.requests.unit);
    made.mark(" busy", stack.requests.busy);
    made.mark(" ask", stack.requests.ask);
    made.mark(" check", stack.requests.check);
    made.mark(" remove", stack.requests.remove);
}

fn grade_named(word: &str) -> Grade {
    match word {
        "pass" => Grade::Pass,
        "fail" => Grade::Fail,
        "known" => Grade::Known,
        "n/a" => Grade::NotApplicable,
        _ => Grade::Inconclusive,
    }
}

/// The result with these texts, which `;` separates.
fn report_of<'t>(grade: Grade, text: &'t str) -> CaseReport<'t> {
    let (name, rest) = split(text, ";");
    let (title, rest) = split(rest, ";");
    let (clause, rest) = split(rest, ";");
    let (needs, rest) = split(rest, ";");
    let (reason, rest) = split(rest, ";");
    let (wanted, rest) = split(rest, ";");
    let (seen, suite) = split(rest, ";");
    CaseReport {
        grade,
        name: name.as_bytes(),
        title: title.as_bytes(),
        clause: clause.as_bytes(),
        needs: needs.as_bytes(),
        reason: reason.as_bytes(),
        wanted: wanted.as_bytes(),
        seen: seen.as_bytes(),
        suite: suite.as_bytes(),
    }
}

/// Appends octets, with `~` in place of a line feed.
fn show_octets(octets: &[u8], made: &mut Text) {
    for octet in octets {
        made.put_octets(&[if *octet == b'\n' { b'~' } else { *octet }]);
    }
}

impl Maker {
    fn put_result(&self, kind: &str, word: &str, text: &str, made: &mut Text) {
        let report = report_of(grade_named(word), text);
        let mut octets = Vec::new(self.alloc);
        let put = match kind {
            "line" => push_line(&mut octets, &report),
            "json" => push_object(&mut octets, &report),
            "found" => push_found(&mut octets, &report),
            _ => push_test_case(self.alloc, &mut octets, &report, 1_005),
        };
        if put.is_ok() {
            show_octets(octets.as_slice(), made);
        }
    }

    fn put_wanted(&self, word: &str, lines: &Text, made: &mut Text) {
        let mut octets = Vec::new(self.alloc);
        let number = word.parse::<u64>().unwrap_or(0);
        if push_wanted(&mut octets, lines.as_bytes(), number).is_ok() {
            show_octets(octets.as_slice(), made);
        }
    }
}

impl Subject for Maker {
    /// A row is a kind and a word, ` | `, a text, ` | `, and the text that comes of it.
    fn preserves(&mut self, row: &'static str, made: &mut Text) -> bool {
        let (kinds, rest) = split(row, " |");
        let (text, wanted) = split(rest, " |");
        let (kind, word) = split(kinds, " ");
        let text = text.strip_prefix(" ").unwrap_or("");
        let wanted = wanted.strip_prefix(" ").unwrap_or("");
        let mut lines = Text::new();
        for line in text.split(';') {
            lines.put(line);
            lines.put("\n");
        }
        let mut own = Text::new();
        match kind {
            "stack" => put_stack(side_named(word), &lines, &mut own),
            "fits" => own.put(if fits(text.as_bytes(), word.as_bytes()) {
                "yes"
            } else {
                "no"
            }),
            "wanted" => self.put_wanted(word, &lines, &mut own),
            "plan" => put_plan(word, text, &mut own),
            "known" => own.put(if (KnownCases { lists: &[text] }).has(word) {
                "yes"
            } else {
                "no"
            }),
            "tally" => {
                put_tally(word, text, &mut own);
            }
            _ => self.put_result(kind, word, text, &mut own),
        }
        let so = own.is(wanted);
        if !so {
            made.put_first(own.as_str());
        }
        so
    }
}

#[test]
fn texts_are_as_the_rows_say(rt: HostRuntime) -> Result<(), Fail> {
    let mut made = Text::new();
    let mut maker = Maker { alloc: rt.alloc() };
    match wrong_row(&mut maker, ROWS, &mut made) {
        Some(row) => {
            let made = made.as_str();
            Err(Fail::new(format_args!("{row}\n  comes to: {made}")))
        }
        None => Ok(()),
    }
}
