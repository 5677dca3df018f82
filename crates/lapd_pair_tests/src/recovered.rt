//! How both ends agree again: after worked moves, and after random ones.

use crate::draws::{MoveDraws, moves};
use crate::made::new_pair;
use crate::safe::are_safe;
use crate::steps::lead;
use lapd_frame::Side;
use lapd_link::Recovery::{Enquiry, LastMessage};
use lapd_link::{Recovery, State, Timer};
use lapd_pair::{Link, Move, Pair};
use std::alloc::Global;
use std::test::Fail;

/// How many moves both ends need to agree again, and in which states. N200 is 3.
const RECOVERED: &str = "\
# a new pair
new, k=1: made
recover: at rest
ends: 4 4, received 0, dropped 0
# the SABME is lost
new, k=1: made
run, user establish, net lose 0: skipped 0
recover: moves 3 at rest
ends: 7 7, received 0, dropped 0
# the UA is lost
new, k=1: made
run, user establish, net deliver, user lose 0: skipped 0
recover: moves 3 at rest
ends: 7 7, received 0, dropped 0
# each SABME is lost
new, k=1: made
run, user establish, net lose 0, user expire200, net lose 0, user expire200, net lose 0, user expire200, net lose 0: skipped 0
recover: moves 1 at rest
ends: 4 4, received 0, dropped 0
# both ends establish, and both SABMEs are lost
new, k=1: made
run, user establish, net establish, net lose 0, user lose 0: skipped 0
recover: moves 6 at rest
ends: 7 7, received 0, dropped 0
# the network restarts, which T203 alone finds out
new, k=1: made
run, user establish, net deliver, user deliver, net restart: skipped 0
settle: at rest
ends: 7 4, received 0, dropped 0
recover: moves 11 at rest
ends: 7 7, received 0, dropped 0
recover: at rest
# the user restarts
new, k=1: made
run, user establish, net deliver, user deliver, user restart: skipped 0
recover: moves 11 at rest
ends: 7 7, received 0, dropped 0
# the network restarts while a message is in transit
new, k=1: made
run, user establish, net deliver, user deliver, user give 0801, net restart: skipped 0
recover: moves 9 at rest
ends: 7 7, received 0, dropped 1
# the network restarts while a message waits
new, k=1: made
run, user establish, net deliver, user deliver, net busy, user deliver, user give 0801, net restart: skipped 0
recover: moves 11 at rest
ends: 7 7, received 1, dropped 0
# the DISC is lost
new, k=1: made
run, user establish, net deliver, user deliver, user release, net lose 0: skipped 0
recover: moves 3 at rest
ends: 4 4, received 0, dropped 0
# each DISC is lost, and the network undoes the release
new, k=1: made
run, user establish, net deliver, user deliver, user release, net lose 0, user expire200, net lose 0, user expire200, net lose 0, user expire200, net lose 0: skipped 0
recover: moves 12 at rest
ends: 7 7, received 0, dropped 0
# a DISC and a SABME cross
new, k=1: made
run, user establish, net deliver, user deliver, user release, net establish: skipped 0
recover: moves 4 at rest
ends: 4 4, received 0, dropped 0
# three I frames are lost
new, k=3: made
run, user establish, net deliver, user deliver, user give 01, user give 02, user give 03, net lose 0, net lose 0, net lose 0: skipped 0
recover: moves 9 at rest
ends: 7 7, received 3, dropped 0
# both ends enquire, and both enquiries are lost
new, k=1: made
run, user establish, net deliver, user deliver, user expire203, net expire203, net lose 0, user lose 0: skipped 0
recover: moves 6 at rest
ends: 7 7, received 0, dropped 0
# each enquiry is lost
new, k=1: made
run, user establish, net deliver, user deliver, user expire203, net lose 0, user expire200, net lose 0, user expire200, net lose 0: skipped 0
recover: moves 3 at rest
ends: 7 7, received 0, dropped 0
# the network is no longer busy, and its RR is lost
new, k=1: made
run, user establish, net deliver, user deliver, net busy, net free, user lose 1: skipped 0
recover: moves 4 at rest
ends: 7 7, received 0, dropped 0
# the network establishes and its SABMEs are lost, while the answer to the user's enquiry is lost too
new, k=1: made
run, user establish, net deliver, user deliver, user expire203, net deliver, user lose 0, user give 0801, net establish, user lose 0: skipped 0
run, net expire200, user lose 0, net expire200, user lose 0, net expire200, user lose 0: skipped 0
recover: moves 31 at rest
ends: 7 7, received 0, dropped 1
# the network is busy: the user asks again and again, until the bound is reached
new, k=1: made
run, user establish, net deliver, user deliver, net busy, user deliver, user give 0801: skipped 0
recover: moves 37
ends: 8 7, received 0, dropped 0";

#[test]
fn ends_agree_again(rt: HostRuntime) -> Result<(), Fail> {
    lead(&rt, RECOVERED)
}

/// The number of random runs for each recovery at each side.
const RUNS: u32 = 100;

/// Makes the runs, of 500 moves each, and recovers each pair. All frames are lost before every
/// second recovery.
fn right_with(alloc: Global, user: Recovery, network: Recovery) -> Result<(), Fail> {
    let mut draws = MoveDraws::new(alloc);
    let mut all_hold = true;
    for run in 0..RUNS {
        all_hold = all_hold && is_right(alloc, &mut draws, (user, network), run % 2 == 0);
    }
    if all_hold {
        Ok(())
    } else {
        Err(Fail::new(format_args!("no memory, or a pair does not recover")))
    }
}

/// Makes a run with a new pair, and recovers it.
fn is_right(
    alloc: Global,
    draws: &mut MoveDraws,
    recoveries: (Recovery, Recovery),
    is_cut: bool,
) -> bool {
    match new_pair(alloc, (7, 64, recoveries.0, recoveries.1)) {
        Some(mut pair) => draws.lead(&mut pair, 500, false) && comes_back(&mut pair, is_cut),
        None => false,
    }
}

/// Ends own busy on both sides, and loses all frames if `is_cut` is set. Then both ends agree
/// again, within the bound.
fn comes_back(pair: &mut Pair, is_cut: bool) -> bool {
    let _ = moves(pair, &Move::Busy(Side::User, false));
    let _ = moves(pair, &Move::Busy(Side::Network, false));
    if is_cut {
        lose_all(pair, Side::User);
        lose_all(pair, Side::Network);
    }
    let most = most_moves(pair);
    match pair.recover() {
        Ok(done) => done.rest && done.moves <= most && are_agreed(pair) && are_safe(pair),
        Err(_) => false,
    }
}

/// Loses all frames in transit to this side.
fn lose_all(pair: &mut Pair, to: Side) {
    for _ in 0..pair.line(to).len() {
        let _ = moves(pair, &Move::Lose(to, 0));
    }
}

/// The most moves that a pair with N200 of 3 may need: three for each message left and 29, and two
/// for each frame in transit.
fn most_moves(pair: &Pair) -> u64 {
    let frames = (pair.line(Side::User).len() as u64).wrapping_add(
        pair.line(Side::Network).len() as u64,
    );
    let left = pair.left();
    left.wrapping_mul(3)
        .wrapping_add(29)
        .wrapping_add(frames.wrapping_mul(2))
}

/// Whether no message is left, and both ends are in state 4, or both in state 7 with equal numbers.
fn are_agreed(pair: &Pair) -> bool {
    let (user, network) = (pair.link(Side::User), pair.link(Side::Network));
    let both_released = is_released(user) && is_released(network);
    pair.left() == 0
        && pair.line(Side::User).is_empty()
        && pair.line(Side::Network).is_empty()
        && (both_released || (is_level(user, network) && is_level(network, user)))
}

fn is_released(link: &Link) -> bool {
    link.named_state() == State::TeiAssigned && !link.running(Timer::T200)
}

/// Whether this end is in state 7, and its peer received and acknowledged all that it sent.
fn is_level(link: &Link, peer: &Link) -> bool {
    let window = link.window();
    link.named_state() == State::MultipleFrameEstablished
        && !link.running(Timer::T200)
        && window.va() == window.vs()
        && peer.window().vr() == window.vs()
}

#[test]
fn random_moves_end_in_agreement(rt: HostRuntime) -> Result<(), Fail> {
    right_with(rt.alloc(), Enquiry, Enquiry)
}

#[test]
fn they_do_if_the_user_sends_its_last_message(rt: HostRuntime) -> Result<(), Fail> {
    right_with(rt.alloc(), LastMessage, Enquiry)
}

#[test]
fn they_do_if_the_network_sends_its_last_message(rt: HostRuntime) -> Result<(), Fail> {
    right_with(rt.alloc(), Enquiry, LastMessage)
}

#[test]
fn they_do_if_both_send_their_last_message(rt: HostRuntime) -> Result<(), Fail> {
    right_with(rt.alloc(), LastMessage, LastMessage)
}
