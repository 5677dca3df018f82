/// The state of a submitted message.
#[derive(Clone, Copy, Debug, PartialEq, Eq)]
pub struct Fate {
    /// The number of the sender's establishment in which it was last sent, from 1; `None` if it was
    /// never sent.
    pub sent_in: Option<u64>,
    /// Whether it is acknowledged, dropped, or still waits.
    pub end: Ending,
}

impl Fate {
    /// The fate of a newly submitted message: never sent, and waiting.
    pub(crate) const NEW: Fate = Fate {
        sent_in: None,
        end: Ending::Waiting,
    };
}

/// Whether a message is acknowledged, dropped, or neither.
#[derive(Clone, Copy, Debug, PartialEq, Eq)]
pub enum Ending {
    /// It waits to be sent or acknowledged.
    Waiting,
    /// It was acknowledged.
    Acked,
    /// It was dropped. The peer may have received it; it is never sent again.
    Dropped,
}
