use lapd_frame::Tei;

/// Why a terminal awaits a TEI.
#[derive(Clone, Copy, PartialEq, Eq)]
pub enum Purpose {
    /// Only to have one: state 2, assign awaiting TEI.
    Assignment,
    /// To establish a link: state 3, establish awaiting TEI.
    Establishment,
}

/// The state of a terminal's TEI management (Q.921 Annex B, Figures B.1 to B.4).
#[derive(Clone, Copy, PartialEq, Eq)]
pub enum Phase {
    /// State 1, TEI unassigned.
    Unassigned,
    /// State 2 or 3: the terminal requested a TEI.
    Awaiting {
        purpose: Purpose,
        /// How often it requested, 1 to 3.
        count: u8,
        /// The reference of the last request, which is outstanding.
        ri: u16,
    },
    /// State 4, TEI assigned.
    Assigned {
        /// The reference of the request that obtained the TEI; `None` for a fixed TEI.
        by: Option<u16>,
        /// The TEI, 0 to 126.
        tei: Tei,
    },
}
