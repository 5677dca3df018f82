//! The state table (Q.921 Annex B) as text, written by hand after docs/SPECIFICATION.md.
//!
//! A row is `states | event | conditions | actions | next state`, with `-` for none and `=` for the
//! state before. The first row that matches is used; without one, nothing is done. A frame with
//! N(R) is two events, `RR` and then `N(R) of RR`. The end of each step is the event `end`, which
//! repeats while a row of it matches.

use crate::rows::drawn::plain::Plain;
use lapd_test_text::{Subject, Text, split};
use std::alloc::Global;

/// The actions of each procedure.
pub(super) const PROCEDURES: &str = "\
CLEAR | clear peer busy, clear own busy, clear rejecting, clear ack pending
ZERO | clear V(S), clear V(A), clear V(R)
EST | clear peer busy, clear own busy, clear rejecting, clear ack pending, clear RP, RC:=0, SABME, STOP T203, START T200
";

/// The sent frames, in the words of [`Plain::put_words`].
pub(super) const FRAMES: &str = "\
UA | R 63+
DM | R 0f+
SABME | C 7f
DISC | C 53
RR | R 01 V0
RNR | R 05 V0
REJ | R 09 V+
ANSWER | R ? V1
ENQUIRY | C ? V1
I | C S V0 M
LAST I | C s V1 m
UI | C 03 I
";

/// The rows.
pub(super) const TABLE: &str = "\
# All states.
45678 | UI | - | UNIT UP | =
45678 | XID | - | - | =
45678 | unit | long | refused L3 TooLong | =
45678 | unit | not long | UI | =
45678 | give | long | refused L3 TooLong | =
456 | F4 | - | report L | =
456 | F5 | - | report M | =
456 | F6 | - | report N | =
456 | F7 | - | report O | =

# TEI assigned.
4 | establish | - | DISCARD, set L3I, EST | 5
4 | release | - | release-confirmed | 4
4 | give | - | refused L1 NotEstablished | 4
4 | SABME | - | UA, CLEAR, ZERO, established, START T203 | 7
4 | DISC | - | DM | 4
4 | UA | P | report C | 4
4 | UA | not P | report D | 4

# Awaiting establishment.
5 | establish | RP | refused L4 Releasing | 5
5 | establish | not RP | DISCARD, set L3I | 5
5 | release | - | DISCARD, set RP | 5
5 | give | RP | refused L4 Releasing | 5
5 | give | L3I | refused L5 LayerThreeEstablishing | 5
5 | give | full | refused L2 QueueFull | 5
5 | give | - | QUEUE | 5
5 | SABME | - | UA | 5
5 | DISC | - | DM | 5
5 | UA | P, RP | clear RP, RC:=0, DISC, START T200 | 6
5 | UA | P, not RP, L3I | confirmed, ZERO, STOP T200, START T203 | 7
5 | UA | P, not RP, not L3I, not V(S)=V(A) | DISCARD, established, ZERO, STOP T200, START T203 | 7
5 | UA | P, not RP, not L3I, V(S)=V(A) | ZERO, STOP T200, START T203 | 7
5 | UA | not P | report D | 5
5 | DM | P, not RP | DISCARD, STOP T200, released | 4
5 | DM | P, RP | DISCARD, STOP T200, release-confirmed, clear RP | 4
5 | T200 | T200, RC=N200, not RP | clear T200, DISCARD, report G, released | 4
5 | T200 | T200, RC=N200, RP | clear T200, DISCARD, report G, release-confirmed, clear RP | 4
5 | T200 | T200, not RC=N200 | clear T200, RC+1, SABME, START T200 | 5

# Awaiting release.
6 | establish | - | refused L4 Releasing | 6
6 | give | - | refused L4 Releasing | 6
6 | SABME | - | DM | 6
6 | DISC | - | UA | 6
6 | UA | P | STOP T200, release-confirmed | 4
6 | UA | not P | report D | 6
6 | DM | P | STOP T200, release-confirmed | 4
6 | T200 | T200, RC=N200 | clear T200, report H, release-confirmed | 4
6 | T200 | T200, not RC=N200 | clear T200, RC+1, DISC, START T200 | 6

# Multiple frame established, and timer recovery: requests, and frames without numbers.
78 | establish | - | DISCARD, set L3I, EST | 5
78 | release | - | DISCARD, RC:=0, DISC, STOP T203, START T200 | 6
78 | give | full | refused L2 QueueFull | =
78 | give | not full | QUEUE | =
78 | busy on | not own busy | set own busy, RNR | =
78 | busy off | own busy | clear own busy, RR | =
78 | SABME | V(S)=V(A) | UA, CLEAR, report F, STOP T200, START T203, ZERO | 7
78 | SABME | not V(S)=V(A) | UA, CLEAR, report F, DISCARD, established, STOP T200, START T203, ZERO | 7
78 | DISC | - | DISCARD, UA, released, STOP T200, STOP T203 | 4
78 | UA | P | report C | =
78 | UA | not P | report D | =
7 | DM | P | report B | 7
8 | DM | P | report B, clear L3I, EST | 5
78 | DM | not P | report E, clear L3I, EST | 5
78 | FRMR | - | report K, clear L3I, EST | 5
78 | F4 | - | report L, clear L3I, EST | 5
78 | F5 | - | report M, clear L3I, EST | 5
78 | F6 | - | report N, clear L3I, EST | 5
78 | F7 | - | report O, clear L3I, EST | 5

# Timers.
7 | T203 | T203 | clear T203, RC:=0, ENQUIRY, START T200 | 8
7 | T200 | T200, the last again, not peer busy, not V(S)=V(A) | clear T200, LAST I, START T200, RC:=1 | 8
7 | T200 | T200 | clear T200, ENQUIRY, START T200, RC:=1 | 8
8 | T200 | T200, RC=N200 | clear T200, report I, clear L3I, EST | 5
8 | T200 | T200, not RC=N200 | clear T200, ENQUIRY, START T200, RC+1 | 8

# The N(S) of an I frame.
78 | I | own busy, P | ANSWER | =
78 | I | own busy, not P | - | =
78 | I | N(S)=V(R), P | V(R)+1, clear rejecting, UP, ANSWER | =
78 | I | N(S)=V(R), not P | V(R)+1, clear rejecting, UP, set ack pending | =
78 | I | not rejecting | set rejecting, REJ | =
78 | I | rejecting, P | ANSWER | =
78 | I | rejecting, not P | - | =

# What an S frame says of the other side.
78 | RR | command, P | clear peer busy, ANSWER | =
7 | RR | not command, P | clear peer busy, report A | 7
78 | RR | - | clear peer busy | =
78 | REJ | command, P | clear peer busy, ANSWER | =
7 | REJ | not command, P | clear peer busy, report A | 7
78 | REJ | - | clear peer busy | =
78 | RNR | command, P | set peer busy, ANSWER | =
7 | RNR | not command, P | set peer busy, report A | 7
78 | RNR | - | set peer busy | =

# The N(R) of an I frame or an S frame.
78 | N(R) of I | not valid | report J, clear L3I, EST | 5
78 | N(R) of RR | not valid | report J, clear L3I, EST | 5
78 | N(R) of REJ | not valid | report J, clear L3I, EST | 5
78 | N(R) of RNR | not valid | report J, clear L3I, EST | 5
7 | N(R) of I | peer busy | ACK | 7
7 | N(R) of I | N(R)=V(S) | ACK, STOP T200, START T203 | 7
7 | N(R) of I | N(R)=V(A) | - | 7
7 | N(R) of I | - | ACK, START T200 | 7
8 | N(R) of I | - | ACK | 8
7 | N(R) of RR | N(R)=V(S) | ACK, STOP T200, START T203 | 7
7 | N(R) of RR | N(R)=V(A) | - | 7
7 | N(R) of RR | - | ACK, START T200 | 7
8 | N(R) of RR | not command, P | BACK, STOP T200, START T203 | 7
8 | N(R) of RR | - | ACK | 8
7 | N(R) of REJ | - | BACK, STOP T200, START T203 | 7
8 | N(R) of REJ | not command, P | BACK, STOP T200, START T203 | 7
8 | N(R) of REJ | - | ACK | 8
7 | N(R) of RNR | - | ACK, STOP T203, START T200 | 7
8 | N(R) of RNR | not command, P | BACK, START T200 | 7
8 | N(R) of RNR | - | ACK | 8

# The end of every step.
7 | end | unsent, open, not peer busy, T200 | I, V(S)+1 | 7
7 | end | unsent, open, not peer busy, not T200 | I, V(S)+1, STOP T203, START T200 | 7
78 | end | ack pending | RR | =
";

/// A row of the table, and how often it was used.
#[derive(Clone, Copy)]
pub(super) struct Row {
    line: &'static str,
    states: &'static str,
    event: &'static str,
    conditions: &'static str,
    pub(super) actions: &'static str,
    next: &'static str,
    met: u32,
}

/// The rows, and how many events were received in each state.
#[derive(Drop)]
pub(super) struct Table {
    rows: Vec<Row>,
    counts: [u32; 9],
}

/// The row in a line.
fn row_of(line: &'static str) -> Row {
    let (states, rest) = split(line, " | ");
    let (event, rest) = split(rest, " | ");
    let (conditions, rest) = split(rest, " | ");
    let (actions, next) = split(rest, " | ");
    Row {
        line,
        states,
        event,
        conditions,
        actions,
        next,
        met: 0,
    }
}

impl Row {
    /// Whether it matches this event at this end.
    fn fits(&self, event: &str, plain: &Plain) -> bool {
        self.event == event && plain.is_in(self.states) && plain.meets(self.conditions)
    }

    /// The next state, from this one.
    pub(super) fn leads_to(&self, state: u8) -> u8 {
        match self.next.as_bytes() {
            [digit] if *digit != b'=' => digit.wrapping_sub(b'0'),
            _ => state,
        }
    }
}

impl Subject for Table {
    /// Adds a line as the next row, if it is a row.
    fn preserves(&mut self, row: &'static str, _made: &mut Text) -> bool {
        let row = row_of(row);
        !row.next.is_empty() && self.rows.push(row).is_ok()
    }
}

impl Table {
    /// A table without rows.
    pub(super) fn new(alloc: Global) -> Table {
        Table {
            rows: Vec::new(alloc),
            counts: [0; 9],
        }
    }

    /// The row that matches, which is counted; `None` if the table has none.
    pub(super) fn taken(&mut self, event: &str, plain: &Plain) -> Option<Row> {
        for row in self.rows.iter_mut() {
            if row.fits(event, plain) {
                row.met = row.met.wrapping_add(1);
                return Some(*row);
            }
        }
        None
    }

    /// The first row that was never used.
    pub(super) fn never_taken(&self) -> Option<&'static str> {
        for row in self.rows.iter() {
            if row.met == 0 {
                return Some(row.line);
            }
        }
        None
    }

    /// Counts an event in this state.
    pub(super) fn count(&mut self, state: u8) {
        if let Some(count) = self.counts.get_mut(usize::from(state)) {
            *count = count.wrapping_add(1);
        }
    }

    /// Whether enough events were received in each state.
    pub(super) fn is_lively(&self) -> bool {
        let [_, _, _, _, four, five, six, seven, eight] = self.counts;
        four > 1_000 && five > 1_000 && six > 200 && seven > 50_000 && eight > 20_000
    }
}
