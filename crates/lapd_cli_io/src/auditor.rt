//! The audit of the TEIs of a bus, and when it has something to do.

use lapd_link::State;
use lapd_table::{LinkId, LinkTable, Sapi, Tei};
use lapd_tei::Assigner;
use lapd_tei_audit::{AuditStep, TeiAudit};

/// An audit that is asked for its next step only if it may have one.
#[derive(Drop)]
pub struct Auditor {
    audit: TeiAudit,
    /// Whether something has happened since the audit had nothing to do.
    is_pending: bool,
    /// Whether a check was in progress then. Its end is an expiry of the side's T201.
    is_checking: bool,
}

impl Auditor {
    /// An audit with this T201 and this interval, in milliseconds.
    pub fn new(t201: u32, interval: u64) -> Auditor {
        Auditor {
            audit: TeiAudit::new(t201, interval),
            is_pending: false,
            is_checking: false,
        }
    }

    /// A terminal has joined the bus.
    pub fn join(&mut self) {
        self.audit.request();
        self.is_pending = true;
    }

    /// The side discarded a frame of a link of this TEI.
    pub fn see(&mut self, tei: Tei) {
        self.audit.see(tei);
        self.is_pending = true;
    }

    /// A terminal answered a check of this TEI.
    pub fn count_answer(&mut self, tei: Tei) {
        self.audit.count_answer(tei);
        self.is_pending = true;
    }

    /// Whether it may have something to do at this moment, in milliseconds, though no check ends.
    pub fn is_ready(&self, now: u64) -> bool {
        self.is_pending || self.next_moment().is_some_and(|moment| moment <= now)
    }

    /// The next moment at which it may have something to do though nothing happens. During a check
    /// there is none.
    pub fn next_moment(&self) -> Option<u64> {
        if self.is_checking {
            None
        } else {
            self.audit.next_moment()
        }
    }

    /// The next step of a side that holds these TEIs and has these links, at this moment, in
    /// milliseconds.
    pub fn next(&mut self, assigner: &Assigner, links: &LinkTable, now: u64) -> Option<AuditStep> {
        if !self.is_checking && !self.is_ready(now) {
            return None;
        }
        self.is_checking = assigner.check().is_some();
        let step = self.audit.next(assigner, &established(links), now);
        self.is_pending = step.is_some();
        step
    }
}

/// For each TEI of 0 to 126 whether a link of it is established.
fn established(links: &LinkTable) -> [bool; 127] {
    let mut up = [false; 127];
    for (place, is_up) in (0..127).zip(up.iter_mut()) {
        if let Some(tei) = Tei::new(place) {
            *is_up = [Sapi::Call, Sapi::Packet]
                .iter()
                .any(|sapi| is_established(links, LinkId { sapi: *sapi, tei }));
        }
    }
    up
}

/// Whether this link is established.
fn is_established(links: &LinkTable, id: LinkId) -> bool {
    match links.link(id) {
        Some(link) => matches!(
            link.named_state(),
            State::MultipleFrameEstablished | State::TimerRecovery
        ),
        None => false,
    }
}
