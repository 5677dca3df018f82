//! An end whose dialogue may be the one so far.

use crate::link_frame::LinkFrame;
use crate::own_link::OwnLink;
use crate::replay::{Dialogue, Facts, Move};
use lapd_link::{Control, Out, Recovery, Role, State, Timer};
use std::alloc::AllocError;

/// When a running timer expires: its expiry is seen between these moments.
#[derive(Clone, Copy)]
pub(crate) struct Due {
    pub earliest: u64,
    pub latest: u64,
}

/// The moves that a candidate may make next.
pub(crate) const MOST_STEPS: usize = 7;

/// An end, the moves that it made, and the frames that it has sent and the tester has not
/// yet received, which are pending.
#[derive(Drop)]
pub(crate) struct Candidate {
    link: OwnLink,
    moves: Vec<Move>,
    /// The frame that it sends when T200 expires in state 7, and whether this was decided: until
    /// then both are possible (Q.921 5.6.7).
    pub recovery: Recovery,
    is_decided: bool,
    facts: Facts,
    /// The places of the first frame and the first request that it may not have processed.
    received: usize,
    requested: usize,
    t200: Option<Due>,
    t203: Option<Due>,
    pending: Vec<LinkFrame>,
    /// The moment by which it had sent the pending frames.
    since: u64,
    /// The earliest moment of its last move.
    earliest: u64,
    /// It took a message: it may acknowledge V(R) once more, by RR with F=0.
    spare: bool,
    /// It took an I frame out of sequence with P=1.
    repeats: bool,
    /// The N(S) of the last I frame when T200 expired last, if it was not acknowledged.
    last: Option<u8>,
}

impl Candidate {
    /// A new end.
    pub fn new(dialogue: &Dialogue<'_>) -> Result<Candidate, AllocError> {
        let link = dialogue.replay(Recovery::Enquiry, &[])?;
        Ok(Candidate {
            facts: Facts::of(link.link()),
            link,
            moves: Vec::new(dialogue.alloc),
            recovery: Recovery::Enquiry,
            is_decided: false,
            received: 0,
            requested: 0,
            t200: None,
            t203: None,
            pending: Vec::new(dialogue.alloc),
            since: 0,
            earliest: 0,
            spare: false,
            repeats: false,
            last: None,
        })
    }

    /// A copy whose link has this recovery: its moves are replayed on a new link.
    fn copy(&self, dialogue: &Dialogue<'_>, recovery: Recovery) -> Result<Candidate, AllocError> {
        Ok(Candidate {
            link: dialogue.replay(recovery, self.moves.as_slice())?,
            moves: self.moves.clone()?,
            recovery,
            is_decided: self.is_decided,
            facts: self.facts,
            received: self.received,
            requested: self.requested,
            t200: self.t200,
            t203: self.t203,
            pending: self.pending.clone()?,
            since: self.since,
            earliest: self.earliest,
            spare: self.spare,
            repeats: self.repeats,
            last: self.last,
        })
    }

    /// How many moves it has made.
    pub fn moves(&self) -> usize {
        self.moves.len()
    }

    /// Whether both differ at most in the moments of their timers.
    pub fn is_like(&self, other: &Candidate) -> bool {
        self.recovery == other.recovery
            && self.is_decided == other.is_decided
            && self.facts == other.facts
            && self.received == other.received
            && self.requested == other.requested
            && self.t200.is_some() == other.t200.is_some()
            && self.t203.is_some() == other.t203.is_some()
            && self.spare == other.spare
            && self.repeats == other.repeats
            && self.last == other.last
            && self.pending.as_slice() == other.pending.as_slice()
    }

    /// Takes the moments of a candidate that is like this one into account.
    pub fn widen(&mut self, other: &Candidate) {
        self.t200 = wider(self.t200, other.t200);
        self.t203 = wider(self.t203, other.t203);
        self.since = self.since.max(other.since);
        self.earliest = self.earliest.min(other.earliest);
    }

    /// Whether it may make a move: nothing but acknowledgements is pending.
    pub fn may_go_on(&self) -> bool {
        for frame in &self.pending {
            if !frame.is_acknowledgement() {
                return false;
            }
        }
        true
    }

    /// Whether a pending frame is overdue at this moment.
    pub fn is_overdue(&self, dialogue: &Dialogue<'_>, now: u64) -> bool {
        !self.pending.is_empty() && has_passed(self.since, dialogue.setup.patience(), now)
    }

    /// Whether it must have made a move by this moment.
    pub fn must_move(&self, dialogue: &Dialogue<'_>, before: usize, now: u64) -> bool {
        let patience = dialogue.setup.patience();
        let reach = dialogue.setup.reach();
        let request_reach = if dialogue.setup.confirmed {
            reach
        } else {
            patience
        };
        let (sent, requested) = self.next(dialogue, before);
        is_late(dialogue, sent, reach, now)
            || is_late(dialogue, requested, request_reach, now)
            || has_expired(self.t200, patience, now)
            || has_expired(self.t203, patience, now)
    }

    /// The places of the next frame and the next request for it, before this place of the dialogue.
    fn next(&self, dialogue: &Dialogue<'_>, before: usize) -> (Option<usize>, Option<usize>) {
        (
            dialogue.next_sent(self.received, before),
            dialogue.next_request(self.requested, before),
        )
    }

    /// The moves that it may have made by this moment, before this place of the dialogue.
    pub fn steps(
        &self,
        dialogue: &Dialogue<'_>,
        before: usize,
        now: u64,
    ) -> [Option<Move>; MOST_STEPS] {
        let (sent, requested) = self.next(dialogue, before);
        let is_idle = matches!(self.facts.state, State::TeiAssigned);
        let limit = self.expiry_limit(dialogue, sent, requested).min(now);
        [
            expires(self.t203, Timer::T203, limit),
            if dialogue.setup.active && is_idle {
                Some(Move::Establish)
            } else {
                None
            },
            if dialogue.setup.confirmed {
                None
            } else {
                requested.map(|place| Move::Skip(place))
            },
            if is_idle {
                request_to_establish(dialogue, sent)
            } else {
                None
            },
            expires(self.t200, Timer::T200, limit),
            requested.map(|place| Move::Request(place)),
            sent.map(|place| Move::Receive(place)),
        ]
    }

    /// The moment until which a timer may expire before the frame and the request at these places
    /// are taken.
    fn expiry_limit(
        &self,
        dialogue: &Dialogue<'_>,
        sent: Option<usize>,
        requested: Option<usize>,
    ) -> u64 {
        let limit = taken_by(dialogue, sent);
        if dialogue.setup.confirmed {
            limit.min(taken_by(dialogue, requested))
        } else {
            limit
        }
    }

    /// Whether it may have made a move by this moment.
    pub fn has_step(&self, dialogue: &Dialogue<'_>, before: usize, now: u64) -> bool {
        for step in self.steps(dialogue, before, now) {
            if step.is_some() {
                return true;
            }
        }
        false
    }

    /// Whether the move decides which frame the end sends when T200 expires in state 7.
    pub fn decides(&self, step: Move) -> bool {
        let is_open = matches!(self.facts.state, State::MultipleFrameEstablished);
        !self.is_decided && is_open && matches!(step, Move::Expire(Timer::T200))
    }

    /// The candidate after one more move, which was made by the moment `now`. Its link has this
    /// recovery.
    pub fn after(
        &self,
        dialogue: &Dialogue<'_>,
        recovery: Recovery,
        step: Move,
        now: u64,
    ) -> Result<Candidate, AllocError> {
        let mut child = self.copy(dialogue, recovery)?;
        child.advance(dialogue, step, now)?;
        Ok(child)
    }

    /// Makes a move, which was made by the moment `now`.
    pub fn advance(
        &mut self,
        dialogue: &Dialogue<'_>,
        step: Move,
        now: u64,
    ) -> Result<(), AllocError> {
        self.is_decided = self.is_decided || self.decides(step);
        self.moves.push(step)?;
        dialogue.step(&mut self.link, step)?;
        self.count(dialogue, step, now);
        self.take(dialogue, step, now)
    }

    /// Notes what the move takes, and its moments.
    fn count(&mut self, dialogue: &Dialogue<'_>, step: Move, now: u64) {
        let cause = match step {
            Move::Receive(place) | Move::ReceiveRequest(place) => {
                self.received = place.saturating_add(1);
                moment_of(dialogue, place, now)
            }
            Move::Request(place) | Move::Skip(place) => {
                self.requested = place.saturating_add(1);
                moment_of(dialogue, place, now)
            }
            Move::Expire(Timer::T200) => expired(&mut self.t200, now),
            Move::Expire(_) => expired(&mut self.t203, now),
            Move::Establish => Due {
                earliest: self.earliest,
                latest: now,
            },
        };
        self.earliest = self.earliest.max(cause.earliest);
        self.since = cause.latest.min(now).max(self.since);
    }

    /// Carries out the outputs of the last move.
    fn take(&mut self, dialogue: &Dialogue<'_>, step: Move, now: u64) -> Result<(), AllocError> {
        self.repeats = self.is_repeated(dialogue, step);
        self.facts = Facts::of(self.link.link());
        if matches!(step, Move::Expire(Timer::T200)) {
            self.last = self.facts.last();
        }
        let until = self.since_of(dialogue, step, now);
        for place in 0..self.link.outs().len() {
            if let Some(out) = self.output(place) {
                self.put(dialogue, out, until)?;
            }
        }
        Ok(())
    }

    /// The output of the last move at this place.
    fn output(&self, place: usize) -> Option<Out> {
        self.link.outs().get(place).copied()
    }

    /// The latest moment of the last move. A frame of the tester is taken soon after it was sent, also
    /// if nothing shows that before the end of the dialogue.
    fn since_of(&self, dialogue: &Dialogue<'_>, step: Move, now: u64) -> u64 {
        match step {
            Move::Expire(_) => self.since,
            Move::Receive(place) | Move::ReceiveRequest(place) => {
                now.min(taken_by(dialogue, Some(place)))
            }
            Move::Request(_) | Move::Skip(_) | Move::Establish => now,
        }
    }

    /// Whether the move takes an I frame out of sequence with P=1.
    fn is_repeated(&self, dialogue: &Dialogue<'_>, step: Move) -> bool {
        match step {
            Move::Receive(place) => {
                is_out_of_sequence(dialogue.octets(place), self.facts.vr().value())
            }
            _ => false,
        }
    }

    /// Carries out one output of a move that was made by the moment `until`.
    fn put(&mut self, dialogue: &Dialogue<'_>, out: Out, until: u64) -> Result<(), AllocError> {
        match out {
            Out::Send(role, control) => self.send(role, control)?,
            Out::SendMessage(_, control) => self.send(Role::Command, control)?,
            Out::Up => self.spare = true,
            Out::Start(Timer::T200) => {
                self.t200 = Some(self.due(dialogue, dialogue.setup.t200, until));
            }
            Out::Start(Timer::T203) => {
                self.t203 = match dialogue.setup.t203 {
                    Some(duration) => Some(self.due(dialogue, duration, until)),
                    None => None,
                };
            }
            Out::Stop(Timer::T200) => self.t200 = None,
            Out::Stop(Timer::T203) => self.t203 = None,
            _ => {}
        }
        Ok(())
    }

    fn send(&mut self, role: Role, control: Control) -> Result<(), AllocError> {
        self.pending.push(LinkFrame { role, control })?;
        Ok(())
    }

    fn due(&self, dialogue: &Dialogue<'_>, duration: u64, until: u64) -> Due {
        Due {
            earliest: dialogue.setup.earliest(self.earliest, duration),
            latest: dialogue.setup.latest(until, duration),
        }
    }

    /// Whether this frame may be the next one.
    pub fn may_send(&self, seen: &LinkFrame) -> bool {
        self.place_of(seen).is_some() || self.acknowledges_again(seen)
    }

    /// Notes that the tester has received this frame, which may be the next one.
    pub fn deliver(&mut self, seen: &LinkFrame, now: u64) {
        if let Some(place) = self.place_of(seen) {
            self.receive(place, seen.has_receive_number(), now);
        }
    }

    /// The candidate after the tester has received this frame.
    pub fn after_delivery(
        &self,
        dialogue: &Dialogue<'_>,
        seen: &LinkFrame,
        now: u64,
    ) -> Result<Candidate, AllocError> {
        let mut child = self.copy(dialogue, self.recovery)?;
        child.deliver(seen, now);
        Ok(child)
    }

    /// The place of the frame among the pending ones. Messages keep their order.
    fn place_of(&self, seen: &LinkFrame) -> Option<usize> {
        for place in 0..self.pending.len() {
            if self.pending[place].is_met_by(seen, self.last, self.repeats) {
                return Some(place);
            }
            if seen.is_message() && self.pending[place].is_message() {
                return None;
            }
        }
        None
    }

    /// Removes a frame that the tester received. If it has N(R), it also takes the place of all
    /// acknowledgements before it.
    fn receive(&mut self, place: usize, acknowledges: bool, now: u64) {
        if place < self.pending.len() {
            let _ = self.pending.remove(place);
        }
        if acknowledges {
            for _turn in 0..place {
                self.remove_acknowledgement();
            }
        }
        self.since = self.since.max(now);
    }

    /// Removes the first frame, if it is an acknowledgement alone.
    fn remove_acknowledgement(&mut self) {
        if !self.pending.is_empty() && self.pending[0].is_acknowledgement() {
            let _ = self.pending.remove(0);
        }
    }

    /// Whether the frame is RR with F=0 that acknowledges once more what was taken.
    fn acknowledges_again(&self, seen: &LinkFrame) -> bool {
        match seen.control {
            Control::Rr { nr, pf: false } => self.spare && nr.value() == self.facts.vr().value(),
            _ => false,
        }
    }
}

/// The move of this timer, if it may have expired by this moment.
fn expires(due: Option<Due>, timer: Timer, now: u64) -> Option<Move> {
    match due {
        Some(due) if due.earliest <= now => Some(Move::Expire(timer)),
        _ => None,
    }
}

/// The move that takes the frame at this place as a request to establish the link.
fn request_to_establish(dialogue: &Dialogue<'_>, place: Option<usize>) -> Option<Move> {
    let place = place?;
    if dialogue.is_request_to_establish(place) {
        Some(Move::ReceiveRequest(place))
    } else {
        None
    }
}

/// Whether this much time has passed since a moment.
fn has_passed(since: u64, time: u64, now: u64) -> bool {
    since.saturating_add(time) < now
}

/// The moment by which the frame or request at this place is processed, if there is one.
fn taken_by(dialogue: &Dialogue<'_>, place: Option<usize>) -> u64 {
    match dialogue.moment(place) {
        Some(at) => at.saturating_add(dialogue.setup.reach()),
        None => u64::MAX,
    }
}

fn is_late(dialogue: &Dialogue<'_>, place: Option<usize>, patience: u64, now: u64) -> bool {
    match dialogue.moment(place) {
        Some(at) => has_passed(at, patience, now),
        None => false,
    }
}

fn has_expired(due: Option<Due>, patience: u64, now: u64) -> bool {
    match due {
        Some(due) => has_passed(due.latest, patience, now),
        None => false,
    }
}

/// Clears an expired timer. It expired between the moments that are returned.
fn expired(timer: &mut Option<Due>, now: u64) -> Due {
    let due = timer.unwrap_or(Due {
        earliest: 0,
        latest: now,
    });
    *timer = None;
    due
}

/// The moment of a frame or request of the tester, from which an answer is due.
fn moment_of(dialogue: &Dialogue<'_>, place: usize, now: u64) -> Due {
    let at = dialogue.moment(Some(place)).unwrap_or(now);
    Due {
        earliest: at,
        latest: at,
    }
}

/// The moments of both.
fn wider(one: Option<Due>, other: Option<Due>) -> Option<Due> {
    match (one, other) {
        (Some(one), Some(other)) => Some(Due {
            earliest: one.earliest.min(other.earliest),
            latest: one.latest.max(other.latest),
        }),
        _ => one,
    }
}

/// Whether these octets have the control field of an I frame with P=1 and another N(S) than V(R).
fn is_out_of_sequence(octets: &[u8], vr: u8) -> bool {
    match octets {
        [_, _, first, second, ..] => { *first % 2 == 0 && *first / 2 != vr && *second % 2 == 1 }
        _ => false,
    }
}
