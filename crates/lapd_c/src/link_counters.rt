//! The counters of a link.

ghost use Rattle.std.specs.Prelude.{◌≡◌};
ghost use Rattle.lapd_c.specs.Counters.{after_received, after_report, after_sent, flat_counters, i_frame_sent, is_new, no_count, no_counters};

use lapd_frame::Control;

/// The counters of a link. Each stops at `u64::MAX`.
#[repr(C)]
#[derive(Clone, Copy)]
pub struct LinkCounters {
    /// I frames sent for the first time.
    pub sent: u64,
    /// I frames sent again.
    pub again: u64,
    /// I frames received.
    pub received: u64,
    /// REJ sent.
    pub rej_sent: u64,
    /// REJ received.
    pub rej_received: u64,
    /// RNR sent.
    pub rnr_sent: u64,
    /// RNR received.
    pub rnr_received: u64,
    /// Reports (MDL-ERROR indications).
    pub reports: u64,
}

/// The counters of a link in the form that C reads, with room for those of later versions.
#[repr(C)]
#[derive(Clone, Copy)]
pub struct FlatCounters {
    /// The counters of this version.
    pub counters: LinkCounters,
    /// Room for counters of later versions, each 0.
    pub reserved: [u64; 8],
}

/// The counters of a link, and the number by which an I frame is new or sent again.
#[derive(Clone, Copy)]
pub struct LinkCount {
    pub counters: LinkCounters,
    /// The highest N(S) sent in the present establishment, if any was.
    pub highest: Option<u8>,
}

impl LinkCounters {
    /// All counters are 0.
    pub(crate) fn nothing() -> LinkCounters
        ensures { result ≡ no_counters }
    {
        LinkCounters {
            sent: 0,
            again: 0,
            received: 0,
            rej_sent: 0,
            rej_received: 0,
            rnr_sent: 0,
            rnr_received: 0,
            reports: 0,
        }
    }
}

impl FlatCounters {
    /// These counters, with room.
    pub(crate) fn of(counters: LinkCounters) -> FlatCounters
        ensures { result ≡ flat_counters counters }
    {
        FlatCounters {
            counters,
            reserved: [0; 8],
        }
    }

    /// All counters are 0.
    pub(crate) fn nothing() -> FlatCounters
        ensures { result ≡ flat_counters no_counters }
    {
        FlatCounters::of(LinkCounters::nothing())
    }
}

impl LinkCount {
    /// Nothing is counted.
    pub(crate) fn nothing() -> LinkCount
        ensures { result ≡ no_count }
    {
        LinkCount {
            counters: LinkCounters::nothing(),
            highest: None,
        }
    }

    /// Counts a frame that the side sends.
    pub(crate) fn count_sent(&mut self, control: &Control)
        ensures { self.new ≡ after_sent control.now self.old }
    {
        match control {
            Control::I { ns, .. } => self.count_i_frame(ns.value()),
            Control::Rej { .. } => {
                self.counters.rej_sent = self.counters.rej_sent.saturating_add(1);
            }
            Control::Rnr { .. } => {
                self.counters.rnr_sent = self.counters.rnr_sent.saturating_add(1);
            }
            Control::Sabme { .. } => self.highest = None,
            Control::Ua { .. } => self.highest = None,
            _ => {}
        }
    }

    /// Counts an I frame with this N(S) that the side sends.
    fn count_i_frame(&mut self, ns: u8)
        ensures { self.new ≡ i_frame_sent ns self.old }
    {
        if is_new(self.highest, ns) {
            self.counters.sent = self.counters.sent.saturating_add(1);
            self.highest = Some(ns);
        } else {
            self.counters.again = self.counters.again.saturating_add(1);
        }
    }

    /// Counts a frame that the side receives.
    pub(crate) fn count_received(&mut self, control: &Control)
        ensures { self.new ≡ after_received control.now self.old }
    {
        match control {
            Control::I { .. } => {
                self.counters.received = self.counters.received.saturating_add(1);
            }
            Control::Rej { .. } => {
                self.counters.rej_received = self.counters.rej_received.saturating_add(1);
            }
            Control::Rnr { .. } => {
                self.counters.rnr_received = self.counters.rnr_received.saturating_add(1);
            }
            _ => {}
        }
    }

    /// Counts a report.
    pub(crate) fn count_report(&mut self)
        ensures { self.new ≡ after_report self.old }
    {
        self.counters.reports = self.counters.reports.saturating_add(1);
    }
}

/// Whether an I frame with this N(S) is sent for the first time, if this is the highest N(S) before
/// it.
fn is_new(highest: Option<u8>, ns: u8) -> bool
    ensures { result ≡ is_new highest ns }
{
    match highest {
        None => true,
        Some(highest) => ns == highest.wrapping_add(1) % 128,
    }
}
