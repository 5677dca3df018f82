//! What a network side does for its terminals beside its frames: it audits their TEIs, and ties
//! each TEI to a connection.

use crate::auditor::Auditor;
use crate::repeated::Repeated;
use crate::ties::{Ties, is_denial};
use lapd_table::{LinkTable, Tei};
use lapd_tei::Assigner;
use lapd_tei_audit::{AuditStep, UsedTei, used_tei};

/// How a bus is served.
#[derive(Clone, Copy)]
pub struct BusSetup {
    /// T201, in milliseconds.
    pub t201: u32,
    /// The interval between two audits of the TEIs, in milliseconds. `None` for no audit.
    pub audit: Option<u64>,
    /// Whether a TEI is tied to the connection that uses it.
    pub is_tied: bool,
}

/// The terminals of a bus, each behind a connection at a place.
#[derive(Drop)]
pub struct SharedBus {
    ties: Option<Ties>,
    auditor: Option<Auditor>,
    /// Frames with a TEI of another connection, which were dropped.
    pub drops: Repeated,
    /// Requests for a TEI that were denied.
    pub denials: Repeated,
}

/// The use of a TEI that is tied to another connection.
#[derive(Clone, Copy)]
pub struct ForeignUse {
    /// The TEI.
    pub tei: Tei,
    /// The place of the connection to which it is tied.
    pub owner: usize,
}

impl SharedBus {
    /// A bus without terminals.
    pub fn new(setup: BusSetup) -> SharedBus {
        SharedBus {
            ties: setup.is_tied.then(Ties::new),
            auditor: setup
                .audit
                .map(|interval| Auditor::new(setup.t201, interval)),
            drops: Repeated::new(),
            denials: Repeated::new(),
        }
    }

    /// A terminal has joined the bus.
    pub fn join(&mut self) {
        if let Some(auditor) = &mut self.auditor {
            auditor.join();
        }
    }

    /// The connection at this place is lost.
    pub fn lose(&mut self, place: usize) {
        if let Some(ties) = &mut self.ties {
            ties.lose(place);
        }
    }

    /// Records a frame of the terminal at this place, before the side receives it.
    ///
    /// # Errors
    ///
    /// It uses a TEI that is tied to another connection: the side must not receive it.
    pub fn receive(&mut self, octets: &[u8], place: usize) -> Result<(), ForeignUse> {
        let used = used_tei(octets);
        self.tie(&used, octets, place)?;
        match used {
            UsedTei::Answer(tei) => self.count_answer(tei),
            UsedTei::Link(_) | UsedTei::Nothing => {}
        }
        Ok(())
    }

    /// Ties the TEI that a frame uses to the connection at this place.
    fn tie(&mut self, used: &UsedTei, octets: &[u8], place: usize) -> Result<(), ForeignUse> {
        match &mut self.ties {
            Some(ties) => ties.take(used, octets, place),
            None => Ok(()),
        }
    }

    /// Counts an answer to a check of this TEI.
    fn count_answer(&mut self, tei: Tei) {
        if let Some(auditor) = &mut self.auditor {
            auditor.count_answer(tei);
        }
    }

    /// Records a frame that the side sends. Returns whether it denies a request for a TEI.
    pub fn send(&mut self, octets: &[u8]) -> bool {
        if let Some(ties) = &mut self.ties {
            ties.send(octets);
        }
        is_denial(octets)
    }

    /// The side discarded a frame of a link of this TEI, which it does not have.
    pub fn discard(&mut self, tei: Tei) {
        if let Some(auditor) = &mut self.auditor {
            auditor.see(tei);
        }
    }

    /// Whether an audit may have something to do at this moment, in milliseconds.
    pub fn is_ready(&self, now: u64) -> bool {
        match &self.auditor {
            Some(auditor) => auditor.is_ready(now),
            None => false,
        }
    }

    /// The next moment at which an audit may have something to do.
    pub fn next_moment(&self) -> Option<u64> {
        match &self.auditor {
            Some(auditor) => auditor.next_moment(),
            None => None,
        }
    }

    /// The next step of an audit at this moment, in milliseconds.
    pub fn next_audit(
        &mut self,
        assigner: &Assigner,
        links: &LinkTable,
        now: u64,
    ) -> Option<AuditStep> {
        match &mut self.auditor {
            Some(auditor) => auditor.next(assigner, links, now),
            None => None,
        }
    }
}
