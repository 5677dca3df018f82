//! Runs of a link: a list of moves, replayed on a new link.

use crate::own_link::OwnLink;
use crate::setup::Setup;
use lapd_conform_player::{Happening, Request, What};
use lapd_link::{Control, Link, Recovery, Sapi, Seq, State, Timer, Window};
use std::alloc::{AllocError, Global};

/// A move of an end.
#[derive(Clone, Copy)]
pub(crate) enum Move {
    /// It processes the frame of the tester at this place of the dialogue.
    Receive(usize),
    /// It processes the DM with F=0 at this place in state 4 as a request to establish (Q.921
    /// 5.5.4).
    ReceiveRequest(usize),
    /// It processes the request at this place.
    Request(usize),
    /// The request at this place has no effect.
    Skip(usize),
    /// A timer expires.
    Expire(Timer),
    /// Its layer 3 establishes the link by itself.
    Establish,
}

/// The facts that distinguish an end from others after a run.
#[derive(Clone, Copy, PartialEq, Eq)]
pub(crate) struct Facts {
    pub state: State,
    pub window: Window,
    rc: u8,
    layer3_initiated: bool,
    release_pending: bool,
    waiting: u16,
}

impl Facts {
    /// The facts of a link.
    pub fn of(link: &Link) -> Facts {
        Facts {
            state: link.named_state(),
            window: link.window(),
            rc: link.rc(),
            layer3_initiated: link.layer3_initiated(),
            release_pending: link.release_pending(),
            waiting: link.waiting(),
        }
    }

    /// V(R).
    pub fn vr(&self) -> Seq {
        self.window.vr()
    }

    /// The N(S) of the last I frame, V(S) - 1, if it is not acknowledged.
    pub fn last(&self) -> Option<u8> {
        if self.window.vs() == self.window.va() {
            None
        } else {
            Some(self.window.vs().value().wrapping_add(127) % 128)
        }
    }
}

/// A dialogue, and where its links are allocated.
#[derive(Clone, Copy)]
pub(crate) struct Dialogue<'h> {
    pub alloc: Global,
    pub setup: Setup,
    pub happenings: &'h [Happening],
}

impl Dialogue<'_> {
    /// The moment of the happening at this place, in milliseconds.
    pub fn moment(&self, place: Option<usize>) -> Option<u64> {
        let happening = self.happenings.get(place?)?;
        Some(happening.at)
    }

    /// The octets of the frame at this place.
    pub fn octets(&self, place: usize) -> &[u8] {
        match self.happenings.get(place) {
            Some(happening) => happening.octets.as_slice(),
            None => &[],
        }
    }

    /// The request at this place.
    fn request(&self, place: usize) -> Option<Request> {
        let happening = self.happenings.get(place)?;
        match happening.what {
            What::Requested(request) => Some(request),
            What::Sent | What::Received => None,
        }
    }

    /// The place of the first frame of the tester from `from` on and before `before`.
    pub fn next_sent(&self, from: usize, before: usize) -> Option<usize> {
        for place in from..before {
            if let Some(happening) = self.happenings.get(place)
                && happening.what == What::Sent
            {
                return Some(place);
            }
        }
        None
    }

    /// The place of the first request from `from` on and before `before`.
    pub fn next_request(&self, from: usize, before: usize) -> Option<usize> {
        for place in from..before {
            if self.request(place).is_some() {
                return Some(place);
            }
        }
        None
    }

    /// Makes a move of this link.
    pub fn step(&self, link: &mut OwnLink, step: Move) -> Result<(), AllocError> {
        match step {
            Move::Receive(place) => link.receive(self.octets(place)),
            Move::Request(place) => {
                if let Some(request) = self.request(place) {
                    link.request(request)?;
                }
            }
            Move::ReceiveRequest(_) | Move::Establish => link.request(Request::Establish)?,
            // Unit data does not change the link.
            Move::Skip(_) => link.request(Request::Unit)?,
            Move::Expire(timer) => link.expire(timer),
        }
        Ok(())
    }

    /// Replays moves on a new link with this recovery.
    pub fn replay(&self, recovery: Recovery, moves: &[Move]) -> Result<OwnLink, AllocError> {
        let params = self.setup.params.with_recovery(recovery);
        let tei = self.setup.tei.value();
        let mut link = OwnLink::new(self.alloc, self.setup.side, tei, params)?;
        for step in moves {
            self.step(&mut link, *step)?;
        }
        Ok(link)
    }

    /// Whether the frame at this place is a request to establish the link: DM with F=0.
    pub fn is_request_to_establish(&self, place: usize) -> bool {
        match lapd_frame::read(self.octets(place), self.setup.side.other()) {
            Ok(frame) => matches!(frame.control(), Control::Dm { f: false })
                && frame.address().sapi == Sapi::Call
                && frame.address().tei == self.setup.tei,
            Err(_) => false,
        }
    }
}
