//! The set of all ends whose dialogue may be a given one.

use crate::candidate::Candidate;
use crate::eager::is_given;
use crate::judgement::Judgement;
use crate::link_frame::{LinkFrame, Seen, frame_seen};
use crate::replay::{Dialogue, Move};
use crate::setup::Setup;
use lapd_conform_player::{Happening, What};
use lapd_link::{Control, Recovery, Role};
use std::alloc::{AllocError, Global};
use std::mem;

/// The greatest number of candidates that are followed.
const MOST_CANDIDATES: usize = 256;

/// The greatest number of candidates that are examined for one happening.
const MOST_TURNS: usize = 4_000;

/// The greatest number of moves that are replayed for one dialogue.
const MOST_REPLAYED: usize = 1_000_000;

/// The candidates before a happening that are still to be examined, and those after it.
#[derive(Drop)]
struct Candidates {
    open: Vec<Candidate>,
    kept: Vec<Candidate>,
    /// The number of moves that may still be replayed.
    left: usize,
}

/// Whether some run of an allowed table has this dialogue, which ended at the moment `until`.
///
/// The stack is in state 4 at the beginning, and has no frame of the tester to process.
///
/// # Errors
///
/// `AllocError` if an allocation failed.
pub fn judge(
    alloc: Global,
    setup: &Setup,
    happenings: &[Happening],
    until: u64,
) -> Result<Judgement, AllocError> {
    let dialogue = Dialogue {
        alloc,
        setup: *setup,
        happenings,
    };
    if is_given(&dialogue, until)? {
        return Ok(Judgement::Allowed);
    }
    let mut candidates = Candidates {
        open: Vec::new(alloc),
        kept: Vec::new(alloc),
        left: MOST_REPLAYED,
    };
    candidates.kept.push(Candidate::new(&dialogue)?)?;
    candidates.follow(&dialogue, until)
}

impl Candidates {
    /// Follows all happenings.
    fn follow(&mut self, dialogue: &Dialogue<'_>, until: u64) -> Result<Judgement, AllocError> {
        for place in 0..dialogue.happenings.len() {
            if let Some(happening) = dialogue.happenings.get(place) {
                let judgement = self.follow_one(dialogue, place, happening)?;
                if judgement != Judgement::Allowed {
                    return Ok(judgement);
                }
            }
        }
        self.settle(dialogue, dialogue.happenings.len(), until)
    }

    /// Follows one happening.
    fn follow_one(
        &mut self,
        dialogue: &Dialogue<'_>,
        place: usize,
        happening: &Happening,
    ) -> Result<Judgement, AllocError> {
        match happening.what {
            What::Received => self.receive(dialogue, place, happening),
            What::Sent | What::Requested(_) => self.settle(dialogue, place, happening.at),
        }
    }

    /// The kept candidates are to be examined.
    fn open(&mut self) {
        self.open.clear();
        mem::swap(&mut self.open, &mut self.kept);
    }

    /// The judgement on the kept candidates. `is_done` if all open candidates were examined.
    fn judgement(&self, is_done: bool, place: usize) -> Judgement {
        if !is_done || self.left == 0 || self.kept.len() > MOST_CANDIDATES {
            Judgement::TooMany
        } else if self.kept.is_empty() {
            Judgement::Refused(place)
        } else {
            Judgement::Allowed
        }
    }

    /// Makes the moves that each candidate must have made by this moment. Candidates whose frames
    /// are overdue are left out.
    fn settle(
        &mut self,
        dialogue: &Dialogue<'_>,
        before: usize,
        now: u64,
    ) -> Result<Judgement, AllocError> {
        self.open();
        for _turn in 0..MOST_TURNS {
            match self.next() {
                Some(candidate) => self.settle_one(dialogue, candidate, before, now)?,
                None => return Ok(self.judgement(true, before)),
            }
        }
        Ok(self.judgement(false, before))
    }

    fn settle_one(
        &mut self,
        dialogue: &Dialogue<'_>,
        candidate: Candidate,
        before: usize,
        now: u64,
    ) -> Result<(), AllocError> {
        if candidate.is_overdue(dialogue, now) {
            return Ok(());
        }
        if candidate.may_go_on() && candidate.must_move(dialogue, before, now) {
            self.open_moves(dialogue, candidate, before, now)
        } else {
            keep(&mut self.kept, candidate)
        }
    }

    /// Opens the candidates after each move that this one may have made by now. The candidate itself
    /// makes the last move, copies make the others.
    fn open_moves(
        &mut self,
        dialogue: &Dialogue<'_>,
        candidate: Candidate,
        before: usize,
        now: u64,
    ) -> Result<(), AllocError> {
        let mut last = None;
        for step in candidate.steps(dialogue, before, now) {
            if let Some(step) = step {
                self.open_other(dialogue, &candidate, last, now)?;
                last = Some(step);
            }
        }
        self.open_last(dialogue, candidate, last, now)
    }

    /// The candidate to be examined next. `None` if there is none, or too many moves were replayed.
    fn next(&mut self) -> Option<Candidate> {
        if self.left == 0 {
            None
        } else {
            self.open.pop()
        }
    }

    /// Notes that the moves of a candidate are replayed.
    fn spend(&mut self, candidate: &Candidate) {
        self.left = self.left.saturating_sub(candidate.moves());
    }

    /// Opens the candidate after this move.
    fn open_other(
        &mut self,
        dialogue: &Dialogue<'_>,
        candidate: &Candidate,
        step: Option<Move>,
        now: u64,
    ) -> Result<(), AllocError> {
        if let Some(step) = step {
            self.spend(candidate);
            self.open_decision(dialogue, candidate, step, now)?;
            let child = candidate.after(dialogue, candidate.recovery, step, now)?;
            keep(&mut self.open, child)?;
        }
        Ok(())
    }

    /// Opens the candidate that sends the last I frame, if the move decides that.
    fn open_decision(
        &mut self,
        dialogue: &Dialogue<'_>,
        candidate: &Candidate,
        step: Move,
        now: u64,
    ) -> Result<(), AllocError> {
        if candidate.decides(step) {
            let child = candidate.after(dialogue, Recovery::LastMessage, step, now)?;
            keep(&mut self.open, child)?;
        }
        Ok(())
    }

    /// Makes this move, and opens the candidate then.
    fn open_last(
        &mut self,
        dialogue: &Dialogue<'_>,
        mut candidate: Candidate,
        step: Option<Move>,
        now: u64,
    ) -> Result<(), AllocError> {
        if let Some(step) = step {
            self.open_decision(dialogue, &candidate, step, now)?;
            candidate.advance(dialogue, step, now)?;
            keep(&mut self.open, candidate)?;
        }
        Ok(())
    }

    /// Keeps the candidates that may have sent the frame that was received.
    fn receive(
        &mut self,
        dialogue: &Dialogue<'_>,
        place: usize,
        happening: &Happening,
    ) -> Result<Judgement, AllocError> {
        match frame_seen(&dialogue.setup, happening.octets.as_slice()) {
            Seen::Other => Ok(Judgement::Allowed),
            Seen::Wrong => Ok(Judgement::Refused(place)),
            Seen::Link(frame) => {
                let before = self.settle(dialogue, place, happening.at)?;
                if before != Judgement::Allowed {
                    return Ok(before);
                }
                self.receive_frame(dialogue, place, happening.at, &frame)
            }
        }
    }

    fn receive_frame(
        &mut self,
        dialogue: &Dialogue<'_>,
        place: usize,
        now: u64,
        frame: &LinkFrame,
    ) -> Result<Judgement, AllocError> {
        self.open();
        for _turn in 0..MOST_TURNS {
            match self.next() {
                Some(candidate) => self.receive_from(dialogue, candidate, place, now, frame)?,
                None => {
                    let judgement = self.judgement(true, place);
                    return Ok(excused(&dialogue.setup, judgement, frame));
                }
            }
        }
        Ok(self.judgement(false, place))
    }
}

impl Candidates {
    /// Keeps the candidate after the frame, if it may have sent it, and opens those after a move.
    fn receive_from(
        &mut self,
        dialogue: &Dialogue<'_>,
        mut candidate: Candidate,
        place: usize,
        now: u64,
        frame: &LinkFrame,
    ) -> Result<(), AllocError> {
        let may_send = candidate.may_send(frame);
        if !candidate.may_go_on() || !candidate.has_step(dialogue, place, now) {
            if may_send {
                candidate.deliver(frame, now);
                keep(&mut self.kept, candidate)?;
            }
            return Ok(());
        }
        self.spend(&candidate);
        if may_send {
            let child = candidate.after_delivery(dialogue, frame, now)?;
            keep(&mut self.kept, child)?;
        }
        self.open_moves(dialogue, candidate, place, now)
    }
}

/// An active layer 3 may explain a command that no run has.
fn excused(setup: &Setup, judgement: Judgement, frame: &LinkFrame) -> Judgement {
    match (judgement, frame.role, frame.control) {
        (
            Judgement::Refused(_),
            Role::Command,
            Control::I { .. } | Control::Sabme { .. } | Control::Disc { .. },
        ) if setup.active => Judgement::LayerThree,
        _ => judgement,
    }
}

/// Appends a candidate, unless the list has one like it.
fn keep(list: &mut Vec<Candidate>, candidate: Candidate) -> Result<(), AllocError> {
    match place_like(list.as_slice(), &candidate) {
        Some(place) if place < list.len() => list[place].widen(&candidate),
        _ => list.push(candidate)?,
    }
    Ok(())
}

/// The place of the first candidate that is like this one.
fn place_like(list: &[Candidate], candidate: &Candidate) -> Option<usize> {
    for place in 0..list.len() {
        if list[place].is_like(candidate) {
            return Some(place);
        }
    }
    None
}
