//! Tests of the grammar: texts, and the fault of each.

use lapd_conform_suite::read_suite;
use lapd_test_text::{Subject, Text, split, wrong_row};
use std::alloc::Global;
use std::test::Fail;

/// A text whose lines are separated by `;`, and its fault, or the number of its lines.
const ROWS: &str = "\
case 4-V-01 a title;clause 5.5;state 4 | 3 lines
case 1-V-01 a;clause 5;quiet 1 ms;# a comment;;case 4-V-01 a;clause 5;send C DISC P=1;expect R DM F=1 | 7 lines
clause 5 | line 1: expected a line with case
case 4-V-1 a;clause 5;state 4 | line 1: expected a name such as 7-V-01: 1 to 8, n or u, then V, O, I or T, then two digits, found '4-V-1'
case 4-V-01;clause 5;state 4 | line 1: expected a title
case 4-V-01 a;state 4 | line 2: expected a line with clause
case 4-V-01 a;clause none;state 4 | line 2: expected the number of a clause of Q.921, found 'none'
case 4-V-01 a;clause 5 | line 3: expected a step of the case
case 4-V-02 a;clause 5;state 4;case 4-V-02 b;clause 5;state 4 | line 4: expected a greater number than the last of this state and class
case 4-V-01 a;clause 5;stat 4 | line 3: expected case, clause, ends, needs, state, send, do, expect, or, and, at, within, quiet, pause, allow, forget, repeat or end, found 'stat'
case 4-V-01 a;clause 5;repeat 65535;send C DISC P=1;end | 5 lines
case 4-V-01 a;clause 5;state 9 | line 3: expected 1 to 8, 5-line or 8-out, found '9'
case 4-V-01 a;clause 5;state 4 now | line 3: expected the end of the line, found 'now'
case 4-V-01 a;clause 5;send C SABM P=1 | line 3: expected I, RR, RNR, REJ, SABME, DM, UI, DISC, UA, FRMR or XID, found 'SABM'
case 4-V-01 a;clause 5;send C SABME Q=1 | line 3: expected N(S)=, N(R)=, P=, F=, sapi=, tei=, Ri=, Ai= or info= with a value, found 'Q=1'
case 4-V-01 a;clause 5;send C SABME P=* | line 3: expected a frame whose values are all known
case 4-V-01 a;clause 5;send raw 0 | line 3: expected octets in hexadecimal digits, found '0'
case 4-V-01 a;clause 5;expect raw 00 | line 3: expected a frame in words, ack or nothing
case 4-V-01 a;clause 5;expect C I N(S)=K-1 | line 3: expected a number from 0 to 65,535, or K, N200, N201, N202, i, $a, $q or $r, which a number may follow as in K+1, found 'K-1'
case 4-V-01 a;clause 5;or nothing | line 3: expected a line with expect
case 4-V-01 a;clause 5;expect nothing;at T200;or nothing | line 5: expected a line with expect
case 4-V-01 a;clause 5;quiet 100 | line 3: expected ms, %T200, %T201, %T202 or %T203
case 4-V-01 a;clause 5;quiet 100001 ms | line 3: expected a number from 0 to 100,000, found '100001'
case 4-V-01 a;clause 5;repeat 2;repeat 3 | line 4: expected a line with end for each repeat, and no repeat inside another
case 4-V-01 a;clause 5;repeat 2;state 4 | line 5: expected a line with end for each repeat, and no repeat inside another
";

/// Reads each row.
#[derive(Drop)]
struct Reader {
    alloc: Global,
}

impl Reader {
    /// What the reader returns for a text: the number of its lines, or its fault.
    fn put(&mut self, lines: &Text, made: &mut Text) {
        match read_suite(self.alloc, lines.as_bytes()) {
            Ok(read) => {
                made.shown("", &read.len());
                made.put(" lines");
            }
            Err(fault) => made.shown("", &fault),
        }
    }
}

impl Subject for Reader {
    /// A row is a text whose lines `;` ends, ` | `, and what the reader returns.
    fn preserves(&mut self, row: &'static str, made: &mut Text) -> bool {
        let (text, wanted) = split(row, " | ");
        let mut lines = Text::new();
        for line in text.split(';') {
            lines.put(line);
            lines.put("\n");
        }
        let mut read = Text::new();
        self.put(&lines, &mut read);
        let so = read.is(wanted);
        if !so {
            made.put_first(read.as_str());
        }
        so
    }
}

#[test]
fn each_fault_is_named(rt: HostRuntime) -> Result<(), Fail> {
    let mut made = Text::new();
    let mut reader = Reader { alloc: rt.alloc() };
    match wrong_row(&mut reader, ROWS, &mut made) {
        Some(row) => {
            let made = made.as_str();
            Err(Fail::new(format_args!("{row}\n  comes to: {made}")))
        }
        None => Ok(()),
    }
}
