use lapd_frame::Tei;

/// How often a check requested responses (Q.921 5.3.3.2).
#[derive(Clone, Copy, PartialEq, Eq)]
pub enum Round {
    /// Once.
    First,
    /// Twice.
    Second,
}

/// How many responses a check received.
#[derive(Clone, Copy, PartialEq, Eq)]
pub enum Responses {
    /// None.
    Nobody,
    /// One.
    One,
    /// Two or more.
    Several,
}

/// A check of a TEI in progress (Q.921 5.3.3).
#[derive(Clone, Copy, PartialEq, Eq)]
pub struct Check {
    /// The TEI under check, 0 to 126.
    pub tei: Tei,
    /// How often responses were requested.
    pub round: Round,
    /// How many responses were received.
    pub responses: Responses,
}
