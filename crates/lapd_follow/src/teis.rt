ghost use Rattle.std.specs.Prelude.{◌≡◌, ◌<◌, [], ◌∷◌, ◌++◌};
ghost use Rattle.arrayvec.specs.ArrayVec.{array_vec_len};
ghost use Rattle.lapd_follow.specs.Teis.{answered_check, conflict_of, conflict_of_assigned, conflict_of_assignment, conflict_of_response, forgotten_tei, holder_at, new_teis, teis_after, unrequested, with_request, with_room, without};

use crate::holder::Holder;
use crate::{Identity, Remark};
use arrayvec::ArrayVec;
use lapd_frame::Tei;
use std::marker::Model;

/// How many requests are kept.
const REQUESTS: usize = 16;

/// A place for each TEI. That of the group TEI is not used.
const PLACES: usize = 128;

/// The knowledge about the TEIs of a line (Q.921 5.3). It does not allocate.
#[derive(Drop)]
pub(crate) struct Teis {
    /// The references of the requests that are not answered, oldest first. Of 16 the oldest is
    /// forgotten for a new one.
    requests: ArrayVec<u16, REQUESTS>,
    holders: [Holder; PLACES],
}

impl Model for Teis {
    ghost use Rattle.lapd_follow.specs.Teis.{TeisKnown};

    ghost Value = { TeisKnown };

    ghost view = { λ t. record { requests = t.requests.items; holders = t.holders } };
}

impl Teis {
    /// No message was seen.
    pub(crate) fn new() -> Teis
        ensures { result ≡ new_teis }
    {
        let unknown = Holder::unknown();
        Teis {
            requests: ArrayVec::new(),
            holders: [unknown; PLACES],
        }
    }

    /// How the next message conflicts with those before, if it does.
    pub(crate) fn conflict(&self, message: &Identity) -> Option<Remark>
        ensures { result ≡ conflict_of message.now self.now }
    {
        match *message {
            Identity::Assigned { tei, ri } => self.conflict_of_assigned(tei, ri),
            Identity::Denied(ri) => self.unrequested(ri),
            Identity::CheckResponse { tei, ri } => {
                conflict_of_response(tei, ri, self.holder(tei).answer)
            }
            Identity::Request(_)
            | Identity::CheckRequest(_)
            | Identity::Remove(_)
            | Identity::Verify(_) => None,
        }
    }

    /// Takes the next message.
    pub(crate) fn take(&mut self, message: &Identity)
        ensures { self.new ≡ teis_after message.now self.old }
    {
        match *message {
            Identity::Request(ri) => self.request(ri),
            Identity::Assigned { tei, ri } => self.assign(tei, ri),
            Identity::Denied(ri) => self.answer(ri),
            Identity::CheckRequest(tei) | Identity::Remove(tei) => self.forget(tei),
            Identity::CheckResponse { tei, ri } => self.respond(tei, ri),
            Identity::Verify(_) => {}
        }
    }
}

/// Conflicts with earlier messages.
impl Teis {
    /// The knowledge about a TEI.
    fn holder(&self, tei: Tei) -> Holder
        ensures { result ≡ holder_at tei self.now.holders }
    {
        match self.holders.get(usize::from(tei.value())) {
            Some(holder) => *holder,
            None => Holder::unknown(),
        }
    }

    /// The conflict of an answer to a request: the request is not known.
    fn unrequested(&self, ri: u16) -> Option<Remark>
        ensures { result ≡ unrequested ri self.now.requests }
    {
        if self.requests.as_slice().contains(&ri) {
            None
        } else {
            Some(Remark::Unrequested)
        }
    }

    /// The conflict of an assignment of any TEI.
    fn conflict_of_assigned(&self, tei: Tei, ri: u16) -> Option<Remark>
        ensures { result ≡ conflict_of_assigned tei ri self.now }
    {
        if tei.value() < 64 {
            Some(Remark::NotAutomatic(tei))
        } else {
            self.conflict_of_assignment(tei, ri)
        }
    }

    /// The conflict of an assignment of a TEI that the network may assign.
    fn conflict_of_assignment(&self, tei: Tei, ri: u16) -> Option<Remark>
        ensures { result ≡ conflict_of_assignment tei ri (holder_at tei self.now.holders).assigned
            self.now }
    {
        match self.holder(tei).assigned {
            None => self.answered_check(tei, ri),
            Some(other) => {
                if other == ri {
                    self.unrequested(ri)
                } else {
                    Some(Remark::AssignedTwice { tei, ri: other })
                }
            }
        }
    }

    /// The conflict of an assignment of a TEI that is not known to be assigned.
    fn answered_check(&self, tei: Tei, ri: u16) -> Option<Remark>
        ensures { result ≡ answered_check tei ri (holder_at tei self.now.holders).answer
            self.now }
    {
        match self.holder(tei).answer {
            None => self.unrequested(ri),
            Some(_) => Some(Remark::AssignedInUse(tei)),
        }
    }
}

/// The conflict of a response to a check, after this first one.
fn conflict_of_response(tei: Tei, ri: u16, first: Option<u16>) -> Option<Remark>
    ensures { result ≡ conflict_of_response tei ri first }
{
    match first {
        None => None,
        Some(first) => {
            if first == ri {
                None
            } else {
                Some(Remark::TwoResponses {
                    tei,
                    first,
                    second: ri,
                })
            }
        }
    }
}

/// Messages.
impl Teis {
    /// Takes a request.
    fn request(&mut self, ri: u16)
        ensures { self.new ≡ record self.old { requests = with_request ri self.old.requests } }
    {
        add_request(&mut self.requests, ri);
    }

    /// Removes a request that is answered.
    fn answer(&mut self, ri: u16)
        ensures { self.new ≡ record self.old { requests = without ri self.old.requests } }
    {
        remove_request(&mut self.requests, ri);
    }

    /// Takes an assignment.
    fn assign(&mut self, tei: Tei, ri: u16)
        ensures { self.new ≡ teis_after (Identity.Assigned tei ri) self.old }
    {
        self.answer(ri);
        self.holders[usize::from(tei.value())] = Holder::with_reference(ri);
    }

    /// Takes the check or the removal of a TEI.
    fn forget(&mut self, tei: Tei)
        ensures { self.new ≡ record self.old { holders = forgotten_tei tei self.old.holders } }
    {
        let unknown = Holder::unknown();
        if tei.value() == 127 {
            self.holders = [unknown; PLACES];
        } else {
            self.holders[usize::from(tei.value())] = unknown;
        }
    }

    /// Takes a response to a check.
    fn respond(&mut self, tei: Tei, ri: u16)
        ensures { self.new ≡ teis_after (Identity.CheckResponse tei ri) self.old }
    {
        let holder = self.holder(tei).answered(ri);
        self.holders[usize::from(tei.value())] = holder;
    }
}

/// Appends a request; of 16 the oldest is forgotten.
fn add_request(requests: &mut ArrayVec<u16, REQUESTS>, ri: u16)
    ensures { requests.new.items ≡ with_request ri requests.old.items }
{
    remove_request(requests, ri);
    append_request(requests, ri);
}

/// Appends a request that is not kept.
fn append_request(requests: &mut ArrayVec<u16, REQUESTS>, ri: u16)
    ensures { requests.new.items ≡ with_room requests.old.items ++ ri ∷ [] }
{
    make_room(requests);
    requests.push(ri);
}

/// Makes room for one more request.
fn make_room(requests: &mut ArrayVec<u16, REQUESTS>)
    ensures items { requests.new.items ≡ with_room requests.old.items }
    ensures room { array_vec_len requests.new < 16 }
{
    if requests.is_full() {
        requests.remove(0);
    }
}

/// Removes a request, if it is kept.
fn remove_request(requests: &mut ArrayVec<u16, REQUESTS>, ri: u16)
    ensures { requests.new.items ≡ without ri requests.old.items }
{
    requests.retain(|kept| *kept != ri);
}
