ghost use Rattle.std.specs.Prelude.{◌≡◌, if◌then◌else◌};
ghost use Rattle.lapd_follow.specs.Ends.{one_more};
ghost use Rattle.lapd_follow.specs.Tallies.{answer_time, counted, greatest_with, is_poll, is_repeat, is_unfollowed, least_with, middle_of, no_kinds, no_tally, no_times, poll_bit, tallied, with_time};

use crate::busy_time::no_busy_time;
use crate::classes::{CLASSES, class_of, middle_class, middle_within};
use crate::{BusyTime, Middle, Packet, Remark, Remarks};
use lapd_frame::{Control, Frame, Role};

/// How many frames of each kind were sent. Each count stops at 2^64 - 1.
#[derive(Clone, Copy, Debug, Default, PartialEq, Eq)]
pub struct Kinds {
    pub i: u64,
    pub rr: u64,
    pub rnr: u64,
    pub rej: u64,
    pub sabme: u64,
    pub dm: u64,
    pub ui: u64,
    pub disc: u64,
    pub ua: u64,
    pub frmr: u64,
    pub xid: u64,
}

/// The times after which polls were answered, in microseconds.
#[derive(Clone, Copy, Debug, Default, PartialEq, Eq)]
pub struct Times {
    /// How many there are, at most 2^64 - 1.
    pub count: u64,
    /// The least.
    pub least: Option<u64>,
    /// The greatest.
    pub greatest: Option<u64>,
    /// Their sum, at most 2^64 - 1.
    pub total: u64,
    /// How many there are of each class, each at most 2^64 - 1. A class begins at 0, at 1, 2 and 5
    /// ms, at 10, 20 and 50 ms, and so on up to 100 s.
    pub classes: [u64; CLASSES],
}

/// The counts of what one end of a link sent.
#[derive(Clone, Copy, Debug, Default, PartialEq, Eq)]
pub struct Tally {
    /// The frames by kind.
    pub kinds: Kinds,
    /// The octets of information, at most 2^64 - 1.
    pub octets: u64,
    /// The I frames that were sent again before they were acknowledged.
    pub repeated: u64,
    /// The I frames of which is not known whether they were sent again, as the numbers of their
    /// link were not known.
    pub unfollowed: u64,
    /// The commands with P=1 that it sent: I, RR, RNR, REJ, SABME and DISC.
    pub polls: u64,
    /// The times after which it answered polls.
    pub times: Times,
    /// How long it was busy.
    pub busy: BusyTime,
}

impl Tally {
    /// Nothing is counted yet.
    pub fn new() -> Tally
        ensures { result ≡ no_tally }
    {
        Tally {
            kinds: no_kinds(),
            octets: 0,
            repeated: 0,
            unfollowed: 0,
            polls: 0,
            times: no_times(),
            busy: no_busy_time(),
        }
    }

    /// Counts one more frame, in this packet, with the remarks on it; its link is followed or not.
    pub fn add(&mut self, packet: Packet, frame: &Frame<'_>, said: &Remarks, is_followed: bool)
        ensures { self.new ≡ tallied packet frame.now said.now is_followed self.old }
    {
        let control = frame.control();
        self.kinds.count(&control);
        self.octets = self.octets.saturating_add(frame.info().len() as u64);
        self.repeated = increased(is_repeat(&said.ns), self.repeated);
        self.unfollowed = increased(is_unfollowed(is_followed, &control), self.unfollowed);
        self.polls = increased(is_poll(frame.address().role, &control), self.polls);
        self.times.add(answer_time(&said.answer));
        self.busy.take(&control, packet.moment);
    }
}

/// No frame of any kind.
fn no_kinds() -> Kinds
    ensures { result ≡ no_kinds }
{
    Kinds {
        i: 0,
        rr: 0,
        rnr: 0,
        rej: 0,
        sabme: 0,
        dm: 0,
        ui: 0,
        disc: 0,
        ua: 0,
        frmr: 0,
        xid: 0,
    }
}

/// No time.
fn no_times() -> Times
    ensures { result ≡ no_times }
{
    Times {
        count: 0,
        least: None,
        greatest: None,
        total: 0,
        classes: [0; CLASSES],
    }
}

/// Whether the frame is a command with P=1.
fn is_poll(role: Role, control: &Control) -> bool
    ensures { result ≡ is_poll role control.now }
{
    match role {
        Role::Command => poll_bit(control),
        Role::Answer => false,
    }
}

/// The P bit of a command that polls, or the bit in its place.
fn poll_bit(control: &Control) -> bool
    ensures { result ≡ poll_bit control.now }
{
    match *control {
        Control::I { p, .. } | Control::Sabme { p } | Control::Disc { p } => p,
        Control::Rr { pf, .. } | Control::Rnr { pf, .. } | Control::Rej { pf, .. } => pf,
        Control::Dm { .. }
        | Control::Ui { .. }
        | Control::Ua { .. }
        | Control::Frmr { .. }
        | Control::Xid { .. } => false,
    }
}

impl Kinds {
    /// Counts one more frame of this kind.
    fn count(&mut self, control: &Control)
        ensures { self.new ≡ counted control.now self.old }
    {
        match *control {
            Control::I { .. } => self.i = self.i.saturating_add(1),
            Control::Rr { .. } => self.rr = self.rr.saturating_add(1),
            Control::Rnr { .. } => self.rnr = self.rnr.saturating_add(1),
            Control::Rej { .. } => self.rej = self.rej.saturating_add(1),
            Control::Sabme { .. } => self.sabme = self.sabme.saturating_add(1),
            Control::Dm { .. } => self.dm = self.dm.saturating_add(1),
            Control::Ui { .. } => self.ui = self.ui.saturating_add(1),
            Control::Disc { .. } => self.disc = self.disc.saturating_add(1),
            Control::Ua { .. } => self.ua = self.ua.saturating_add(1),
            Control::Frmr { .. } => self.frmr = self.frmr.saturating_add(1),
            Control::Xid { .. } => self.xid = self.xid.saturating_add(1),
        }
    }
}

/// A count, with one more if this holds.
fn increased(holds: bool, count: u64) -> u64
    ensures { result ≡ (if holds then one_more count else count) }
{
    if holds {
        count.saturating_add(1)
    } else {
        count
    }
}

/// Whether an I frame is sent again.
fn is_repeat(remark: &Option<Remark>) -> bool
    ensures { result ≡ is_repeat remark.now }
{
    matches!(remark, Some(Remark::Repeated | Remark::RepeatedOtherwise))
}

/// Whether it is an I frame of which is not known whether it is sent again.
fn is_unfollowed(is_followed: bool, control: &Control) -> bool
    ensures { result ≡ is_unfollowed is_followed control.now }
{
    match *control {
        Control::I { .. } => !is_followed,
        _ => false,
    }
}

/// The time after which the frame answers a poll, if it does and the time is known.
fn answer_time(remark: &Option<Remark>) -> Option<u64>
    ensures { result ≡ answer_time remark.now }
{
    match remark {
        Some(Remark::Answers { after, .. }) => *after,
        _ => None,
    }
}

impl Times {
    /// Two times between which the middle one lies, if there is a time. They are the bounds of its
    /// class, but no further than the least time and the greatest. Of two in the middle it is the
    /// lesser one.
    pub fn middle(&self) -> Option<Middle>
        ensures { result ≡ middle_of self.now }
    {
        middle_within(middle_class(&self.classes), self.least, self.greatest)
    }

    /// Adds a time, if there is one.
    fn add(&mut self, time: Option<u64>)
        ensures { self.new ≡ with_time time self.old }
    {
        match time {
            None => {}
            Some(time) => {
                self.count = self.count.saturating_add(1);
                self.least = Some(least_with(time, self.least));
                self.greatest = Some(greatest_with(time, self.greatest));
                self.total = self.total.saturating_add(time);
                let class = class_of(time);
                self.classes[class] = self.classes[class].saturating_add(1);
            }
        }
    }
}

fn least_with(time: u64, least: Option<u64>) -> u64
    ensures { result ≡ least_with time least }
{
    match least {
        None => time,
        Some(least) => least.min(time),
    }
}

fn greatest_with(time: u64, greatest: Option<u64>) -> u64
    ensures { result ≡ greatest_with time greatest }
{
    match greatest {
        None => time,
        Some(greatest) => greatest.max(time),
    }
}
