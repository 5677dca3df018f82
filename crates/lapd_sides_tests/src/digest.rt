//! A digest of all query results, so that "unchanged" can be checked without allocating.

use lapd_link::{IQueue, Link, Timer, Window};
use lapd_sides::{Assigner, EitherSide, LinkId, Sapi, Tei, Terminal, TimerSet};
use lapd_table::LinkTable;
use lapd_tei::Bus;

/// The number of link indexes: those of SAPI 0, then those of SAPI 16, by ascending TEI.
pub(crate) const PLACES: usize = 256;

/// The id of the link at an index.
pub(crate) fn id_at(place: usize) -> LinkId {
    let sapi = if place < 128 {
        Sapi::Call
    } else {
        Sapi::Packet
    };
    let tei = Tei::new((place % 128) as u8).unwrap_or(Tei::group());
    LinkId { sapi, tei }
}

/// Adds one number (the hash FNV-1a, by words).
fn with(all: u64, number: u64) -> u64 {
    (all ^ number).wrapping_mul(0x0000_0100_0000_01b3)
}

/// Adds all query results of a side.
pub(crate) fn with_side(all: u64, side: &EitherSide) -> u64 {
    let mut all = with_timers(with(all, side.discarded()), side.timers(None));
    all = match side {
        EitherSide::Network(side) => with_assigner(all, side.assigner()),
        EitherSide::User(side) => with_terminal(all, Some(side.terminal())),
    };
    for place in 0..PLACES {
        all = with(all, at_place(side, place));
    }
    all
}

/// The digest of the link at an index and its timers; 0 if the link does not exist.
pub(crate) fn at_place(side: &EitherSide, place: usize) -> u64 {
    match side.table().link(id_at(place)) {
        Some(link) => with_timers(of_link(link), side.timers(Some(id_at(place)))),
        None => 0,
    }
}

/// Adds all links of a table.
pub(crate) fn with_table(all: u64, table: &LinkTable) -> u64 {
    let mut all = all;
    for place in 0..PLACES {
        if let Some(link) = table.link(id_at(place)) {
            all = with(with(all, of_link(link)), place as u64);
        }
    }
    all
}

/// Adds a bus of two terminals.
pub(crate) fn with_bus(all: u64, bus: &Bus) -> u64 {
    let all = with_terminal(all, bus.terminal(0));
    let all = with_terminal(all, bus.terminal(1));
    with_assigner(all, bus.assigner())
}

fn with_assigner(all: u64, assigner: &Assigner) -> u64 {
    let mut all = with_tei(all, assigner.check());
    for number in 0..128 {
        if let Some(tei) = Tei::new(number) {
            all = with(all, u64::from(assigner.holds(tei)));
        }
    }
    all
}

fn with_terminal(all: u64, terminal: Option<&Terminal>) -> u64 {
    let Some(terminal) = terminal else {
        return with(all, 1);
    };
    let all = with(all, u64::from(terminal.state()));
    let all = with_tei(all, terminal.tei());
    let all = with(all, u64::from(terminal.count()));
    with(all, u64::from(terminal.reference().unwrap_or(0)))
}

fn with_tei(all: u64, tei: Option<Tei>) -> u64 {
    match tei {
        Some(tei) => with(all, u64::from(tei.value())),
        None => with(all, 128),
    }
}

fn with_timers(all: u64, timers: Option<&TimerSet>) -> u64 {
    let Some(timers) = timers else {
        return with(all, 1);
    };
    let mut all = all;
    for timer in [Timer::T200, Timer::T201, Timer::T202, Timer::T203] {
        all = with(all, timers.deadline(timer).unwrap_or(u64::MAX));
    }
    all
}

/// The digest of all query results of a link.
pub(crate) fn of_link(link: &Link) -> u64 {
    let all = with(0, u64::from(link.state()));
    let all = with(all, u64::from(link.rc()));
    let all = with(all, u64::from(link.running(Timer::T200)));
    let all = with(all, u64::from(link.running(Timer::T203)));
    let all = with(all, u64::from(link.layer3_initiated()));
    let all = with(all, u64::from(link.release_pending()));
    with_queue(with_window(all, &link.window()), link.queue())
}

fn with_window(all: u64, window: &Window) -> u64 {
    let all = with(all, u64::from(window.vs().value()));
    let all = with(all, u64::from(window.va().value()));
    let all = with(all, u64::from(window.vr().value()));
    let all = with(all, u64::from(window.peer_busy()));
    let all = with(all, u64::from(window.own_busy()));
    let all = with(all, u64::from(window.rejecting()));
    with(all, u64::from(window.ack_pending()))
}

fn with_queue(all: u64, queue: &IQueue) -> u64 {
    let mut all = with(all, u64::from(queue.sent()));
    for place in 0..queue.len() {
        all = with_octets(all, queue.at(place));
    }
    all
}

pub(crate) fn with_octets(all: u64, octets: &[u8]) -> u64 {
    let mut all = with(all, octets.len() as u64);
    for octet in octets {
        all = with(all, u64::from(*octet));
    }
    all
}
