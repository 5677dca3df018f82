//! The run that is tried first: an end that processes each frame and each request in the order in
//! which they were sent, and sends before any timer expires.

use crate::candidate::Candidate;
use crate::link_frame::{LinkFrame, Seen, frame_seen};
use crate::replay::{Dialogue, Move};
use lapd_conform_player::{Happening, What};
use std::alloc::AllocError;

/// The greatest number of moves for one happening.
const MOST_MOVES: usize = 1_000;

/// Whether this one run has the dialogue. If so, the table allows the dialogue. If not, another run
/// may have it.
pub(crate) fn is_given(dialogue: &Dialogue<'_>, until: u64) -> Result<bool, AllocError> {
    let mut candidate = Candidate::new(dialogue)?;
    for place in 0..dialogue.happenings.len() {
        if let Some(happening) = dialogue.happenings.get(place)
            && !follow_one(dialogue, &mut candidate, place, happening)?
        {
            return Ok(false);
        }
    }
    settle(dialogue, &mut candidate, dialogue.happenings.len(), until)
}

fn follow_one(
    dialogue: &Dialogue<'_>,
    candidate: &mut Candidate,
    place: usize,
    happening: &Happening,
) -> Result<bool, AllocError> {
    match happening.what {
        What::Received => match frame_seen(&dialogue.setup, happening.octets.as_slice()) {
            Seen::Other => Ok(true),
            Seen::Wrong => Ok(false),
            Seen::Link(frame) => receive(dialogue, candidate, place, happening.at, &frame),
        },
        What::Sent | What::Requested(_) => settle(dialogue, candidate, place, happening.at),
    }
}

/// Makes the moves that the end must have made by this moment. Returns `false` if a frame is
/// overdue.
fn settle(
    dialogue: &Dialogue<'_>,
    candidate: &mut Candidate,
    before: usize,
    now: u64,
) -> Result<bool, AllocError> {
    for _turn in 0..MOST_MOVES {
        if candidate.is_overdue(dialogue, now) {
            return Ok(false);
        }
        if !candidate.may_go_on() || !candidate.must_move(dialogue, before, now) {
            return Ok(true);
        }
        if !go_on(dialogue, candidate, before, now)? {
            return Ok(true);
        }
    }
    Ok(false)
}

/// Makes moves until the end may have sent the frame. Returns `false` if it may not.
fn receive(
    dialogue: &Dialogue<'_>,
    candidate: &mut Candidate,
    place: usize,
    now: u64,
    frame: &LinkFrame,
) -> Result<bool, AllocError> {
    if !settle(dialogue, candidate, place, now)? {
        return Ok(false);
    }
    for _turn in 0..MOST_MOVES {
        if candidate.may_send(frame) {
            candidate.deliver(frame, now);
            return Ok(true);
        }
        if !candidate.may_go_on() || !go_on(dialogue, candidate, place, now)? {
            return Ok(false);
        }
    }
    Ok(false)
}

/// Makes the next move. Returns `false` if there is none.
fn go_on(
    dialogue: &Dialogue<'_>,
    candidate: &mut Candidate,
    before: usize,
    now: u64,
) -> Result<bool, AllocError> {
    match chosen(candidate, dialogue, before, now) {
        Some(step) => {
            candidate.advance(dialogue, step, now)?;
            Ok(true)
        }
        None => Ok(false),
    }
}

/// The move of the first frame or request, or else the last one of the others: T200 before T203.
fn chosen(candidate: &Candidate, dialogue: &Dialogue<'_>, before: usize, now: u64) -> Option<Move> {
    let mut best = None;
    for step in candidate.steps(dialogue, before, now) {
        best = better(best, step);
    }
    best
}

fn better(one: Option<Move>, other: Option<Move>) -> Option<Move> {
    match (one, other) {
        (Some(Move::Request(requested)), Some(Move::Receive(received))) if requested < received =>
            one,
        (_, Some(Move::Skip(_) | Move::ReceiveRequest(_) | Move::Establish)) => one,
        (_, Some(_)) => other,
        (_, None) => one,
    }
}
