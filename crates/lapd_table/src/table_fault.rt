use lapd_frame::FaultKind;
use thiserror::Error;

/// Why a call of a table is refused. The table is unchanged.
#[derive(Clone, Copy, Debug, PartialEq, Eq, Error)]
pub enum TableFault {
    /// B1: no link with this SAPI and TEI exists.
    #[error("B1 NoLink")]
    NoLink,
    /// B2: a link with this SAPI and TEI already exists.
    #[error("B2 AlreadyThere")]
    AlreadyThere,
    /// B3: an allocation failed.
    #[error("B3 Memory")]
    Memory,
    /// B4: octets with one of F1 to F3 are for no link (Q.921 2.9).
    #[error("B4 Discarded {0}")]
    Discarded(FaultKind),
}
