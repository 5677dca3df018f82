//! The setup of the judge.

use lapd_link::{Params, Side, Tei};

/// The stack under test, as the judge knows it, and the tolerances. Times are in milliseconds.
#[derive(Clone, Copy)]
pub struct Setup {
    /// The side of the stack.
    pub side: Side,
    /// The TEI of the link, of SAPI 0: not the group TEI.
    pub tei: Tei,
    /// The window and N200.
    pub params: Params,
    /// T200.
    pub t200: u64,
    /// T203, if the stack has it.
    pub t203: Option<u64>,
    /// How late a frame may be received, or an action of the stack may be: the delays of the line
    /// in both directions and the lateness that was measured.
    pub slack: u64,
    /// Whether the upper tester confirms a request. Else a request may be without effect.
    pub confirmed: bool,
    /// Whether layer 3 of the stack makes requests by itself.
    pub active: bool,
}

impl Setup {
    /// How long an answer may be missing: 3 times T200, and the slack.
    pub fn patience(&self) -> u64 {
        self.t200.saturating_mul(3).saturating_add(self.slack)
    }

    /// How long it takes at most until the end processes a frame that was sent, or a confirmed request:
    /// the slack, and 300 ms.
    pub fn reach(&self) -> u64 {
        self.slack.saturating_add(300)
    }

    /// The earliest moment at which a timer of this duration expires that was started at `cause` or
    /// later: after 90 % of the duration, less 20 ms for the clocks.
    pub(crate) fn earliest(&self, cause: u64, duration: u64) -> u64 {
        let part = (duration / 10).saturating_add(20);
        cause.saturating_add(duration.saturating_sub(part))
    }

    /// The latest moment at which the expiry of this timer is seen that was started at `now` or
    /// earlier.
    pub(crate) fn latest(&self, now: u64, duration: u64) -> u64 {
        now.saturating_add(duration).saturating_add(self.slack)
    }
}
