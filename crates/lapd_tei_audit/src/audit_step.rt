use lapd_frame::Tei;

/// What an audit makes the network side do.
#[derive(Clone, Copy, PartialEq, Eq)]
pub enum AuditStep {
    /// Remove this TEI, which a terminal uses and the side does not hold (Q.921 5.3.4).
    Remove(Tei),
    /// Check this TEI (Q.921 5.3.3).
    Check(Tei),
    /// Ask all terminals for their TEIs (Q.921 5.3.3, Ai = 127).
    CheckAll,
}
