//! Drawn runs of a bus of terminals and an assigner, followed by a listener that sees each message
//! when it is sent. Both follow Q.921, so no message is a violation, whatever messages are lost. The
//! runs must be varied: every remark that a lossy bus can bring is made.
//!
//! Only held TEIs are checked. The assigner may assign another TEI during its check, and frees it at
//! the end of the check. Then it may assign it twice, which the listener calls a violation.

use crate::watch::{Watch, verdict};
use lapd_follow::{Identity, Remark, Remarks};
use lapd_frame::{Side, Tei};
use lapd_tei::{Bus, BusMove, TeiKind, TeiMessage, TeiOut};
use lapd_test_text::{Draws, Text};
use std::alloc::Global;
use std::test::Fail;

/// How many runs are made, how many moves each has, and how many terminals the bus has.
const RUNS: u32 = 100;

const MOVES: u32 = 500;

const TERMINALS: u32 = 5;

/// How often each remark was made.
#[derive(Clone, Copy, Debug, Default)]
struct Counts {
    assigned: u32,
    checked: u32,
    answered: u32,
    removed: u32,
    in_use: u32,
    doubled: u32,
}

impl Counts {
    fn take(&mut self, said: &Remarks) {
        self.count(&said.identity);
        self.count(&said.conflict);
    }

    fn count(&mut self, remark: &Option<Remark>) {
        let counter = match remark {
            Some(Remark::Manages(Identity::Assigned { .. })) => &mut self.assigned,
            Some(Remark::Manages(Identity::CheckRequest(_))) => &mut self.checked,
            Some(Remark::Manages(Identity::CheckResponse { .. })) => &mut self.answered,
            Some(Remark::Manages(Identity::Remove(_))) => &mut self.removed,
            Some(Remark::AssignedInUse(_)) => &mut self.in_use,
            Some(Remark::TwoResponses { .. }) => &mut self.doubled,
            _ => return,
        };
        *counter = counter.wrapping_add(1);
    }

    fn are_varied(&self) -> bool {
        self.assigned > 100
            && self.checked > 100
            && self.answered > 100
            && self.removed > 3
            && self.in_use > 10
            && self.doubled > 10
    }
}

/// A listener on the bus.
#[derive(Drop)]
struct Listener {
    watch: Watch,
    counts: Counts,
}

impl Listener {
    /// Takes a message that is sent. The remarks are wrong if they do not name it.
    fn take(&mut self, message: &TeiMessage) {
        if message.ai <= 127 {
            let from = sender_of(message.kind);
            if let Some(said) = self.watch.take(from, &message.frame(from)) {
                self.counts.take(&said);
                self.watch.reject_if(said.identity.is_none(), &said);
            }
        }
    }
}

fn sender_of(kind: TeiKind) -> Side {
    match kind {
        TeiKind::Request | TeiKind::CheckResponse | TeiKind::Verify => Side::User,
        TeiKind::Assigned | TeiKind::Denied | TeiKind::CheckRequest | TeiKind::Remove => {
            Side::Network
        }
    }
}

/// Draws a move on this bus. References and places are drawn too.
fn draw(draws: &mut Draws, bus: &Bus) -> BusMove {
    let kind = draws.below(100);
    let terminal = draws.below(TERMINALS) as usize;
    let place = draws.below(3) as usize;
    let ri = (draws.below(65_536) & 0xffff) as u16;
    match kind {
        0..8 => BusMove::Ask(terminal, ri),
        8..12 => BusMove::T202(terminal, ri),
        12..54 => BusMove::Hear(place, terminal, ri),
        54..63 => BusMove::Drop(place),
        63..86 => BusMove::HearUp(place),
        86..88 => BusMove::DropUp(place),
        88..96 => check(draws, bus),
        96..99 => BusMove::T201,
        _ => BusMove::Leave(terminal),
    }
}

/// Draws a check of one of the first TEIs, if it is held.
fn check(draws: &mut Draws, bus: &Bus) -> BusMove {
    match Tei::new(64_u8.wrapping_add((draws.below(6) & 0xff) as u8)) {
        Some(tei) if bus.assigner().holds(tei) => BusMove::Check(tei),
        _ => BusMove::T201,
    }
}

/// Makes a drawn move, and shows its messages to the listener.
fn make(draws: &mut Draws, bus: &mut Bus, listener: &mut Listener) {
    if let Ok(outs) = bus.apply(draw(draws, bus)) {
        for out in outs.as_slice() {
            if let TeiOut::Send(message) = out {
                listener.take(message);
            }
        }
    }
}

/// Makes a run. `None` if an allocation fails.
fn run(alloc: Global, draws: &mut Draws, counts: Counts) -> Option<Listener> {
    let mut bus = Bus::new(alloc, TERMINALS as usize).ok()?;
    let mut listener = Listener {
        watch: Watch::new(alloc, None)?,
        counts,
    };
    for _ in 0..MOVES {
        make(draws, &mut bus, &mut listener);
    }
    Some(listener)
}

/// Makes all runs, and returns whether no message was a violation.
fn are_right(alloc: Global, counts: &mut Counts, text: &mut Text) -> bool {
    let mut draws = Draws::new(921);
    for number in 0..RUNS {
        if !is_right(alloc, &mut draws, counts, text) {
            text.shown(" in run ", &number);
            return false;
        }
    }
    true
}

/// Makes a run, and returns whether no message was a violation.
fn is_right(alloc: Global, draws: &mut Draws, counts: &mut Counts, text: &mut Text) -> bool {
    match run(alloc, draws, *counts) {
        Some(listener) => {
            *counts = listener.counts;
            listener.watch.is_sound(text)
        }
        None => false,
    }
}

#[test]
fn no_message_of_a_bus_is_a_violation(rt: HostRuntime) -> Result<(), Fail> {
    let mut text = Text::new();
    let mut counts = Counts::default();
    let are_right = are_right(rt.alloc(), &mut counts, &mut text);
    verdict(are_right && counts.are_varied(), counts, &mut text)
}
