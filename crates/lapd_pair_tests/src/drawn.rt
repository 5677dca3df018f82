//! Random moves, for each recovery at each side. After each of 10,000 moves of one pair, a slow
//! check compares the messages that each side received with those that the other side submitted: in
//! order, once each, and without a gap within an establishment. 200 runs of 500 moves follow, each
//! with a new pair. At the end of each run the line settles.

use crate::draws::{MoveDraws, moves};
use crate::made::new_pair;
use crate::safe::are_safe;
use lapd_frame::Side;
use lapd_link::Recovery::{Enquiry, LastMessage};
use lapd_link::{Recovery, State};
use lapd_pair::{Move, Pair};
use std::alloc::Global;
use std::test::Fail;

/// The number of runs after the first.
const RUNS: u32 = 200;

/// How many of all runs must be quiet at the end.
const ENOUGH: u32 = 180;

/// Makes the runs, and checks that enough of them were quiet at the end.
fn right_with(alloc: Global, user: Recovery, network: Recovery) -> Result<(), Fail> {
    let mut draws = MoveDraws::new(alloc);
    let mut quiet: u32 = 0;
    let mut wrong = None;
    for run in 0..=RUNS {
        if wrong.is_none() {
            wrong = run_once(
                &mut draws,
                new_pair(alloc, (7, 64, user, network)),
                run == 0,
                &mut quiet,
            );
        }
    }
    match wrong {
        Some(what) => Err(Fail::new(format_args!("{what}"))),
        None if quiet < ENOUGH => Err(Fail::new(format_args!("too few are quiet"))),
        None => Ok(()),
    }
}

/// Makes a run with this pair, and returns the error, if any. Counts the run if it was quiet at the
/// end.
fn run_once(
    draws: &mut MoveDraws,
    pair: Option<Pair>,
    is_first: bool,
    quiet: &mut u32,
) -> Option<&'static str> {
    match pair {
        Some(mut pair) => run(draws, &mut pair, is_first, quiet),
        None => Some("no pair is made"),
    }
}

fn run(
    draws: &mut MoveDraws,
    pair: &mut Pair,
    is_first: bool,
    quiet: &mut u32,
) -> Option<&'static str> {
    let moves = if is_first { 10_000 } else { 500 };
    if !draws.lead(pair, moves, is_first) {
        Some("no memory, or it is not safe")
    } else if is_first && !(is_lively(pair, Side::User) && is_lively(pair, Side::Network)) {
        Some("too little happened")
    } else if !is_disturbed(draws, pair) {
        Some("no memory for a message")
    } else if !settles(pair, quiet) {
        Some("it settles otherwise, or is not safe")
    } else {
        None
    }
}

/// Whether the run was varied enough: messages were received and acknowledged in many
/// establishments, and some were dropped.
fn is_lively(pair: &Pair, side: Side) -> bool {
    pair.received(side).len() > 250
        && pair.acknowledged(side) > 200
        && pair.dropped(side) > 100
        && pair.begun(side).len() > 50
        && pair.units(side).len() > 20
}

/// Ends own busy on both sides and delivers all frames. If an end is then not in state 7, the user
/// establishes the link, and all frames are delivered again. Then both sides submit a message, and
/// all frames in transit are lost. Returns whether the messages could be allocated.
fn is_disturbed(draws: &mut MoveDraws, pair: &mut Pair) -> bool {
    let _ = moves(pair, &Move::Busy(Side::User, false));
    let _ = moves(pair, &Move::Busy(Side::Network, false));
    deliver_all(pair);
    if !is_quiet(pair) {
        let _ = moves(pair, &Move::Establish(Side::User));
        deliver_all(pair);
    }
    let are_given = draws.gives(pair, Side::User) && draws.gives(pair, Side::Network);
    while_possible(
        pair,
        &Move::Lose(Side::User, 0),
        &Move::Lose(Side::Network, 0),
    );
    are_given
}

fn deliver_all(pair: &mut Pair) {
    while_possible(
        pair,
        &Move::Deliver(Side::User),
        &Move::Deliver(Side::Network),
    );
}

/// Makes either move repeatedly until both are refused.
fn while_possible(pair: &mut Pair, one: &Move, other: &Move) {
    for _ in 0..1000u32 {
        if !(moves(pair, one) || moves(pair, other)) {
            return;
        }
    }
}

/// Whether both ends are in state 7, neither side is own busy, and no frame is in transit.
fn is_quiet(pair: &Pair) -> bool {
    is_quiet_at(pair, Side::User) && is_quiet_at(pair, Side::Network)
}

fn is_quiet_at(pair: &Pair, side: Side) -> bool {
    let link = pair.link(side);
    link.named_state() == State::MultipleFrameEstablished
        && !link.window().own_busy()
        && pair.line(side).is_empty()
}

/// Whether the line settles within its bound and is then safe. A quiet pair is counted; it must
/// settle sooner, with no message left and none dropped.
fn settles(pair: &mut Pair, quiet: &mut u32) -> bool {
    let was_quiet = is_quiet(pair);
    *quiet = quiet.wrapping_add(u32::from(was_quiet));
    let left = pair.left();
    let dropped = dropped_of(pair);
    match pair.settle() {
        Ok(done) => {
            let drained = done.rest
                && done.moves <= left.saturating_mul(3).saturating_add(8)
                && pair.left() == 0
                && dropped_of(pair) == dropped;
            (drained || !was_quiet)
                && done.moves <= left.saturating_mul(8).saturating_add(32)
                && are_safe(pair)
        }
        Err(_) => false,
    }
}

/// How many messages of both sides were dropped.
fn dropped_of(pair: &Pair) -> u64 {
    pair.dropped(Side::User)
        .wrapping_add(pair.dropped(Side::Network))
}

#[test]
fn drawn_moves_where_both_enquire(rt: HostRuntime) -> Result<(), Fail> {
    right_with(rt.alloc(), Enquiry, Enquiry)
}

#[test]
fn drawn_moves_where_the_user_sends_its_last_message(rt: HostRuntime) -> Result<(), Fail> {
    right_with(rt.alloc(), LastMessage, Enquiry)
}

#[test]
fn drawn_moves_where_the_network_sends_its_last_message(rt: HostRuntime) -> Result<(), Fail> {
    right_with(rt.alloc(), Enquiry, LastMessage)
}

#[test]
fn drawn_moves_where_both_send_their_last_message(rt: HostRuntime) -> Result<(), Fail> {
    right_with(rt.alloc(), LastMessage, LastMessage)
}
