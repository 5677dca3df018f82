//! The audit of the TEIs of a bus by its network side (Q.921 5.3.3).
//!
//! A network side that restarted without its list of TEIs, or that answered a terminal too late,
//! does not know what its terminals hold. A [`TeiAudit`] finds out, and returns what the side is to
//! do, one [`AuditStep`] at a time: it asks all terminals for their TEIs when a terminal joins the
//! bus and once in an interval, removes a TEI that the side does not hold, and checks one that two
//! terminals answered for, or that nobody answered for while no link of it is established. The side
//! does each step by the request of the same name.
//!
//! An audit concerns the TEIs that a network side assigns, 64 to 126. It has no clock and sends
//! nothing.
#![tactic(auto)]

mod audit_step;
mod tei_audit;
mod use_of_tei;

pub use audit_step::AuditStep;
pub use tei_audit::{Answers, TeiAudit};
pub use use_of_tei::{UsedTei, used_tei};
