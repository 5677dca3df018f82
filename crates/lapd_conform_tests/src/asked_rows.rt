//! Which rows of the state table (docs/SPECIFICATION.md) a stack of our own was asked for.

use lapd_frame::{Control, Frame, Role};
use lapd_link::{Link, State, Timer};
use lapd_sides::Request;
use lapd_test_text::Text;

/// The rows of the state table. Those of I and S frames in states 7 and 8 are one for N(S) or the
/// condition of the other side, and one for N(R).
pub(crate) const ROWS: &str = "\
4 establish
4 release
4 SABME
4 DISC
4 UA F=1
4 UA F=0
5 establish
5 release
5 message
5 SABME
5 DISC
5 UA F=1, release pending
5 UA F=1, layer 3 initiated
5 UA F=1, V(S) is not V(A)
5 UA F=1, V(S) = V(A)
5 UA F=0
5 DM F=1
5 T200, RC below N200
5 T200, RC = N200
6 SABME
6 DISC
6 UA F=1
6 DM F=1
6 UA F=0
6 T200, RC below N200
6 T200, RC = N200
7 establish
7 release
7 message
7 busy
7 ready
7 SABME, V(S) is not V(A)
7 SABME, V(S) = V(A)
7 DISC
7 UA F=1
7 UA F=0
7 DM F=0
7 DM F=1
7 FRMR
7 fault
7 T203
7 T200, V(S) is not V(A)
7 T200, V(S) = V(A)
7 I, own receiver busy, P=0
7 I, own receiver busy, P=1
7 I, N(S) = V(R), P=0
7 I, N(S) = V(R), P=1
7 I, N(S) is not V(R), P=0
7 I, N(S) is not V(R), P=1
7 I, reject exception, P=0
7 I, reject exception, P=1
7 RR command P=1
7 RR response F=1
7 RR other
7 REJ command P=1
7 REJ response F=1
7 REJ other
7 RNR command P=1
7 RNR response F=1
7 RNR other
7 I, N(R) not valid
7 I, peer receiver busy
7 I, N(R) = V(S)
7 I, N(R) = V(A)
7 I, other N(R)
7 RR, N(R) not valid
7 RR, N(R) = V(S)
7 RR, N(R) = V(A)
7 RR, other N(R)
7 REJ, N(R) not valid
7 REJ, N(R) valid
7 RNR, N(R) not valid
7 RNR, N(R) valid
8 establish
8 release
8 message
8 busy
8 ready
8 SABME, V(S) is not V(A)
8 SABME, V(S) = V(A)
8 DISC
8 UA F=1
8 UA F=0
8 DM F=0
8 DM F=1
8 FRMR
8 fault
8 T200, RC below N200
8 T200, RC = N200
8 I, own receiver busy, P=0
8 I, own receiver busy, P=1
8 I, N(S) = V(R), P=0
8 I, N(S) = V(R), P=1
8 I, N(S) is not V(R), P=0
8 I, N(S) is not V(R), P=1
8 I, reject exception, P=0
8 I, reject exception, P=1
8 RR command P=1
8 RR response F=1
8 RR other
8 REJ command P=1
8 REJ response F=1
8 REJ other
8 RNR command P=1
8 RNR response F=1
8 RNR other
8 I, N(R) not valid
8 I, N(R) valid
8 RR, N(R) not valid
8 RR, N(R) valid
8 REJ, N(R) not valid
8 REJ, N(R) valid
8 RNR, N(R) not valid
8 RNR, N(R) valid
";

/// More rows than there are, with events that have no row.
const MOST_ROWS: usize = 256;

/// A row: the number of the state, the kind of an I or S frame whose row has a condition, and the
/// rest.
#[derive(Clone, Copy, PartialEq, Eq)]
struct Row {
    state: u8,
    kind: &'static str,
    rest: &'static str,
}

/// The rows that were asked for.
#[derive(Drop)]
pub(crate) struct AskedRows {
    rows: [Row; MOST_ROWS],
    count: usize,
}

impl AskedRows {
    pub(crate) fn new() -> AskedRows {
        AskedRows {
            rows: [Row {
                state: 0,
                kind: "",
                rest: "",
            }; MOST_ROWS],
            count: 0,
        }
    }

    /// Adds the rows of another list.
    pub(crate) fn add(&mut self, other: &AskedRows) {
        for place in 0..other.count.min(MOST_ROWS) {
            self.add_row(other.rows[place]);
        }
    }

    fn add_row(&mut self, row: Row) {
        for place in 0..self.count.min(MOST_ROWS) {
            if self.rows[place] == row {
                return;
            }
        }
        if self.count < MOST_ROWS {
            self.rows[self.count] = row;
            self.count = self.count.saturating_add(1);
        }
    }

    /// The rows of the table that were not asked for.
    pub(crate) fn missing(&self) -> Text {
        let mut text = Text::new();
        for known in ROWS.lines() {
            if !self.has(known) {
                text.put(known);
                text.put("\n");
            }
        }
        text
    }

    fn has(&self, known: &str) -> bool {
        for place in 0..self.count.min(MOST_ROWS) {
            let row = self.rows[place];
            let mut text = Text::new();
            text.shown("", &row.state);
            text.put(" ");
            text.put(row.kind);
            text.put(row.rest);
            if text.is(known) {
                return true;
            }
        }
        false
    }

    fn mark(&mut self, state: State, rest: &'static str) {
        self.mark_kind(state, "", rest);
    }

    fn mark_kind(&mut self, state: State, kind: &'static str, rest: &'static str) {
        self.add_row(Row {
            state: state.number(),
            kind,
            rest,
        });
    }

    /// A request of layer 3 to the link.
    pub(crate) fn note_request(&mut self, link: &Link, request: &Request) {
        let state = link.named_state();
        match request {
            Request::Establish(_) => self.mark(state, "establish"),
            Request::Release(_) => self.mark(state, "release"),
            Request::Give(_, _) => self.mark(state, "message"),
            Request::Busy(_, true) => self.mark(state, "busy"),
            Request::Busy(_, false) if link.window().own_busy() => self.mark(state, "ready"),
            _ => {}
        }
    }

    /// Octets with one of F4 to F7 for the link.
    pub(crate) fn note_fault(&mut self, link: &Link) {
        self.mark(link.named_state(), "fault");
    }

    /// An expiry of a timer of the link.
    pub(crate) fn note_expiry(&mut self, link: &Link, timer: Timer) {
        let state = link.named_state();
        let is_last = link.rc() >= link.params().n200();
        let is_open = matches!(state, State::MultipleFrameEstablished);
        let row = match timer {
            Timer::T203 => "T203",
            _ if is_open && has_outstanding(link) => "T200, V(S) is not V(A)",
            _ if is_open => "T200, V(S) = V(A)",
            _ if is_last => "T200, RC = N200",
            _ => "T200, RC below N200",
        };
        self.mark(state, row);
    }

    /// A frame for the link.
    pub(crate) fn note_frame(&mut self, link: &Link, frame: &Frame<'_>) {
        let state = link.named_state();
        match frame.control() {
            Control::Sabme { .. } => self.note_sabme(link),
            Control::Disc { .. } => self.mark(state, "DISC"),
            Control::Ua { f } => self.note_ua(link, f),
            Control::Dm { f: true } => self.mark(state, "DM F=1"),
            Control::Dm { f: false } => self.mark(state, "DM F=0"),
            Control::Frmr { .. } => self.mark(state, "FRMR"),
            Control::I { .. } | Control::Rr { .. } | Control::Rej { .. } | Control::Rnr { .. }
                if state.number() < 7 => {}
            Control::I { ns, nr, p } => {
                self.mark(state, message_row(link, ns.value(), p));
                self.note_number(link, "I", nr.value());
            }
            Control::Rr { nr, pf } => self.note_condition(link, frame, "RR", nr.value(), pf),
            Control::Rej { nr, pf } => self.note_condition(link, frame, "REJ", nr.value(), pf),
            Control::Rnr { nr, pf } => self.note_condition(link, frame, "RNR", nr.value(), pf),
            Control::Ui { .. } | Control::Xid { .. } => {}
        }
    }

    fn note_sabme(&mut self, link: &Link) {
        let state = link.named_state();
        let row = match state {
            State::MultipleFrameEstablished | State::TimerRecovery if has_outstanding(link) => {
                "SABME, V(S) is not V(A)"
            }
            State::MultipleFrameEstablished | State::TimerRecovery => "SABME, V(S) = V(A)",
            _ => "SABME",
        };
        self.mark(state, row);
    }

    fn note_ua(&mut self, link: &Link, f: bool) {
        let state = link.named_state();
        let is_awaited = matches!(state, State::AwaitingEstablishment);
        let row = match f {
            false => "UA F=0",
            true if !is_awaited => "UA F=1",
            true if link.release_pending() => "UA F=1, release pending",
            true if link.layer3_initiated() => "UA F=1, layer 3 initiated",
            true if has_outstanding(link) => "UA F=1, V(S) is not V(A)",
            true => "UA F=1, V(S) = V(A)",
        };
        self.mark(state, row);
    }

    fn note_condition(
        &mut self,
        link: &Link,
        frame: &Frame<'_>,
        kind: &'static str,
        nr: u8,
        bit: bool,
    ) {
        let rest = match (frame.address().role, bit) {
            (Role::Command, true) => " command P=1",
            (Role::Answer, true) => " response F=1",
            _ => " other",
        };
        self.mark_kind(link.named_state(), kind, rest);
        self.note_number(link, kind, nr);
    }

    fn note_number(&mut self, link: &Link, kind: &'static str, nr: u8) {
        let rest = number_row(link, kind, nr);
        self.mark_kind(link.named_state(), kind, rest);
    }
}

fn has_outstanding(link: &Link) -> bool {
    link.window().vs() != link.window().va()
}

/// The row of the N(S) of an I frame.
fn message_row(link: &Link, ns: u8, p: bool) -> &'static str {
    let window = link.window();
    let is_next = window.vr().value() == ns;
    match (p, window.own_busy(), is_next, window.rejecting()) {
        (false, true, _, _) => "I, own receiver busy, P=0",
        (true, true, _, _) => "I, own receiver busy, P=1",
        (false, false, true, _) => "I, N(S) = V(R), P=0",
        (true, false, true, _) => "I, N(S) = V(R), P=1",
        (false, false, false, false) => "I, N(S) is not V(R), P=0",
        (true, false, false, false) => "I, N(S) is not V(R), P=1",
        (false, false, false, true) => "I, reject exception, P=0",
        (true, false, false, true) => "I, reject exception, P=1",
    }
}

/// The row of the N(R) of a frame of this kind, after the kind.
fn number_row(link: &Link, kind: &str, nr: u8) -> &'static str {
    let window = link.window();
    let (first, last) = (window.va().value(), window.vs().value());
    let sent = last.wrapping_add(128).wrapping_sub(first) % 128;
    let named = nr.wrapping_add(128).wrapping_sub(first) % 128;
    let is_open = matches!(link.named_state(), State::MultipleFrameEstablished);
    let has_cases = is_open && (kind == "I" || kind == "RR");
    if named > sent {
        ", N(R) not valid"
    } else if !has_cases {
        ", N(R) valid"
    } else if kind == "I" && window.peer_busy() {
        ", peer receiver busy"
    } else if nr == last {
        ", N(R) = V(S)"
    } else if nr == first {
        ", N(R) = V(A)"
    } else {
        ", other N(R)"
    }
}
