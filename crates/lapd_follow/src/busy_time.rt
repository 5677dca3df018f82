ghost use Rattle.std.specs.Prelude.{◌≡◌};
ghost use Rattle.lapd_follow.specs.BusyTimes.{busy_after, busy_begins, busy_ends, no_busy_time, or_since, with_lasted};

use crate::remarks::time_from;
use lapd_frame::Control;

/// How long an end was busy (Q.921 5.6.5): each time from an RNR to its next RR, REJ, SABME, DISC,
/// UA or DM.
#[derive(Clone, Copy, Debug, Default, PartialEq, Eq)]
pub struct BusyTime {
    /// When it became busy, in microseconds, if it still is and the moment is known.
    pub since: Option<u64>,
    /// The sum of the times that ended and are known, in microseconds, at most 2^64 - 1; `None` if
    /// there is none.
    pub total: Option<u64>,
}

/// It was not busy.
pub(crate) fn no_busy_time() -> BusyTime
    ensures { result ≡ no_busy_time }
{
    BusyTime {
        since: None,
        total: None,
    }
}

impl BusyTime {
    /// Takes a frame that the end sent at this moment.
    pub(crate) fn take(&mut self, control: &Control, moment: Option<u64>)
        ensures { self.new ≡ busy_after control.now moment self.old }
    {
        match *control {
            Control::Rnr { .. } => self.begin(moment),
            Control::Rr { .. }
            | Control::Rej { .. }
            | Control::Sabme { .. }
            | Control::Dm { .. }
            | Control::Disc { .. }
            | Control::Ua { .. } => self.end(moment),
            Control::I { .. } | Control::Ui { .. } | Control::Frmr { .. } | Control::Xid { .. } =>
                {}
        }
    }

    /// The end reports that it is busy.
    fn begin(&mut self, moment: Option<u64>)
        ensures { self.new ≡ busy_begins moment self.old }
    {
        self.since = or_since(moment, self.since);
    }

    /// The end reports that it is not busy, or begins anew.
    fn end(&mut self, moment: Option<u64>)
        ensures { self.new ≡ busy_ends moment self.old }
    {
        self.total = with_lasted(time_from(self.since, moment), self.total);
        self.since = None;
    }
}

/// When the end became busy, if it reports now that it is.
fn or_since(moment: Option<u64>, since: Option<u64>) -> Option<u64>
    ensures { result ≡ or_since moment since }
{
    match since {
        Some(since) => Some(since),
        None => moment,
    }
}

/// The sum, with one more time, if it is known.
fn with_lasted(time: Option<u64>, total: Option<u64>) -> Option<u64>
    ensures { result ≡ with_lasted time total }
{
    match (time, total) {
        (None, _) => total,
        (Some(time), None) => Some(time),
        (Some(time), Some(total)) => Some(total.saturating_add(time)),
    }
}
