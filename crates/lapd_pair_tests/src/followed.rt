//! Drawn runs of two ends, followed by a listener on the line: one that sees each frame when it is
//! sent, one that sees it when it is delivered, one at the user's end or one at the network's. Both
//! ends follow Q.921, so no frame is a violation, whatever frames are lost, also for a listener that
//! begins in the middle of the run and learns the numbers. The runs must be varied:
//! every remark that a lossy line can bring is made.

use crate::draws::MoveDraws;
use crate::made::new_pair;
use crate::watch::{Watch, verdict};
use arrayvec::ArrayVec;
use lapd_follow::{Remark, Remarks};
use lapd_frame::{MOST_OCTETS, Side};
use lapd_link::Recovery;
use lapd_link::Recovery::{Enquiry, LastMessage};
use lapd_pair::{Move, Pair};
use lapd_test_text::Text;
use std::alloc::Global;
use std::test::Fail;

/// The number of runs with a listener at each place, and of moves in each.
const RUNS: u32 = 64;

const MOVES: u32 = 500;

/// How often each remark was made.
#[derive(Clone, Copy, Debug, Default)]
struct Counts {
    begins: u32,
    first: u32,
    expected: u32,
    repeated: u32,
    busy: u32,
    answers: u32,
    unanswered: u32,
    /// By a listener that begins in the middle.
    known: u32,
}

impl Counts {
    fn take(&mut self, said: &Remarks) {
        self.count(&said.establishment);
        self.count(&said.ns);
        self.count(&said.busy);
        self.count(&said.answer);
    }

    fn count(&mut self, remark: &Option<Remark>) {
        let counter = match remark {
            Some(Remark::Begins(_)) => &mut self.begins,
            Some(Remark::FirstNs(_)) => &mut self.first,
            Some(Remark::NsExpected { .. }) => &mut self.expected,
            Some(Remark::Repeated) => &mut self.repeated,
            Some(Remark::SentToBusy) => &mut self.busy,
            Some(Remark::Answers { .. }) => &mut self.answers,
            Some(Remark::NotAnswered(_)) => &mut self.unanswered,
            _ => return,
        };
        *counter = counter.wrapping_add(1);
    }

    fn are_varied(&self) -> bool {
        self.begins > 50
            && self.first > 5
            && self.expected > 50
            && self.repeated > 50
            && self.busy > 20
            && self.answers > 100
            && self.unanswered > 20
            && self.known > 20
    }
}

/// A listener on the line, at some place.
#[derive(Drop)]
struct Listener {
    watch: Watch,
    /// The same, but without the first frames, and how many more it misses.
    late: Watch,
    missed: u32,
    /// Whether it sees frames to the user when they are sent, and not when they are delivered; and
    /// the same of those to the network.
    sees_sent_to_user: bool,
    sees_sent_to_network: bool,
    counts: Counts,
}

impl Listener {
    /// Takes a frame to this side if it sees it now.
    fn take(&mut self, to: Side, is_sent: bool, octets: &[u8]) {
        let sees_sent = match to {
            Side::User => self.sees_sent_to_user,
            Side::Network => self.sees_sent_to_network,
        };
        if sees_sent == is_sent {
            if let Some(said) = self.watch.take(to.other(), octets) {
                self.counts.take(&said);
            }
            self.take_late(to.other(), octets);
        }
    }

    /// Takes a frame of this side by the listener that begins in the middle.
    fn take_late(&mut self, sender: Side, octets: &[u8]) {
        if self.missed > 0 {
            self.missed = self.missed.wrapping_sub(1);
        } else if let Some(said) = self.late.take(sender, octets) {
            if let Some(Remark::NumbersKnown) = said.establishment {
                self.counts.known = self.counts.known.wrapping_add(1);
            }
        }
    }

    /// Whether no remarks were wrong.
    fn is_sound(&self, text: &mut Text) -> bool {
        self.watch.is_sound(text) && self.late.is_sound(text)
    }
}

/// A listener that knows the window 7, and one that misses the first frames. `None` if an allocation
/// fails.
fn listener_at(alloc: Global, to_user: bool, to_network: bool, missed: u32) -> Option<Listener> {
    match (Watch::new(alloc, Some(7)), Watch::new(alloc, Some(7))) {
        (Some(watch), Some(late)) => Some(Listener {
            watch,
            late,
            missed,
            sees_sent_to_user: to_user,
            sees_sent_to_network: to_network,
            counts: Counts::default(),
        }),
        _ => None,
    }
}

/// Makes one drawn move, and shows its frames to the listener. Returns whether its allocation
/// succeeded.
fn makes_one(draws: &mut MoveDraws, pair: &mut Pair, listener: &mut Listener) -> bool {
    match draws.draw() {
        Some(mv) => {
            make(pair, &mv, listener);
            true
        }
        None => false,
    }
}

/// Makes a move. A frame is delivered before the frames that answer it are sent.
fn make(pair: &mut Pair, mv: &Move, listener: &mut Listener) {
    let to = mv.side().other();
    if let Move::Deliver(side) = mv {
        show(pair.line(*side).get(..1), *side, false, listener);
    }
    let before = pair.line(to).len();
    if pair.apply(mv).is_ok() {
        show(pair.line(to).get(before..), to, true, listener);
    }
}

/// Shows frames to this side to the listener.
fn show(
    frames: Option<&[ArrayVec<u8, MOST_OCTETS>]>,
    to: Side,
    is_sent: bool,
    listener: &mut Listener,
) {
    for frame in frames.unwrap_or(&[]) {
        listener.take(to, is_sent, frame.as_slice());
    }
}

/// Makes a run with this pair.
fn run(draws: &mut MoveDraws, pair: &mut Pair, listener: &mut Listener) -> bool {
    let mut holds = true;
    for _ in 0..MOVES {
        holds = holds && makes_one(draws, pair, listener);
    }
    holds
}

/// Makes runs with a listener at this place, and returns whether no frame is a violation.
fn is_right(
    alloc: Global,
    recoveries: (Recovery, Recovery),
    place: (bool, bool),
    counts: &mut Counts,
    text: &mut Text,
) -> bool {
    let mut draws = MoveDraws::new(alloc);
    for number in 0..RUNS {
        if !is_right_from_new(alloc, &mut draws, recoveries, (place, number), counts, text) {
            text.shown(" in run ", &number);
            return false;
        }
    }
    true
}

/// Makes a run of a new pair, and returns whether no frame is a violation.
fn is_right_from_new(
    alloc: Global,
    draws: &mut MoveDraws,
    recoveries: (Recovery, Recovery),
    place: ((bool, bool), u32),
    counts: &mut Counts,
    text: &mut Text,
) -> bool {
    match new_pair(alloc, (7, 64, recoveries.0, recoveries.1)) {
        Some(mut pair) => is_right_over(alloc, draws, &mut pair, place, counts, text),
        None => false,
    }
}

/// Makes a run of this pair with a new listener. In later runs more frames are missed.
fn is_right_over(
    alloc: Global,
    draws: &mut MoveDraws,
    pair: &mut Pair,
    place: ((bool, bool), u32),
    counts: &mut Counts,
    text: &mut Text,
) -> bool {
    let ((to_user, to_network), number) = place;
    match listener_at(alloc, to_user, to_network, number.wrapping_mul(3)) {
        Some(mut listener) => is_right_run(draws, pair, &mut listener, counts, text),
        None => false,
    }
}

/// Makes a run, and returns whether no frame is a violation.
fn is_right_run(
    draws: &mut MoveDraws,
    pair: &mut Pair,
    listener: &mut Listener,
    counts: &mut Counts,
    text: &mut Text,
) -> bool {
    listener.counts = *counts;
    let is_made = run(draws, pair, listener);
    *counts = listener.counts;
    is_made && listener.is_sound(text)
}

fn right_with(alloc: Global, user: Recovery, network: Recovery) -> Result<(), Fail> {
    let mut text = Text::new();
    let mut counts = Counts::default();
    let both = (user, network);
    let all_hold = is_right(alloc, both, (true, true), &mut counts, &mut text)
        && is_right(alloc, both, (false, false), &mut counts, &mut text)
        && is_right(alloc, both, (true, false), &mut counts, &mut text)
        && is_right(alloc, both, (false, true), &mut counts, &mut text);
    verdict(all_hold && counts.are_varied(), counts, &mut text)
}

#[test]
fn followed_runs_where_both_enquire(rt: HostRuntime) -> Result<(), Fail> {
    right_with(rt.alloc(), Enquiry, Enquiry)
}

#[test]
fn followed_runs_where_the_user_sends_its_last_message(rt: HostRuntime) -> Result<(), Fail> {
    right_with(rt.alloc(), LastMessage, Enquiry)
}

#[test]
fn followed_runs_where_the_network_sends_its_last_message(rt: HostRuntime) -> Result<(), Fail> {
    right_with(rt.alloc(), Enquiry, LastMessage)
}

#[test]
fn followed_runs_where_both_send_their_last_message(rt: HostRuntime) -> Result<(), Fail> {
    right_with(rt.alloc(), LastMessage, LastMessage)
}
