use lapd_field::Control;

/// The result of a received I frame, by its N(S) (Q.921 5.6.2).
#[derive(Clone, Copy, Debug, PartialEq, Eq)]
pub struct Receipt {
    /// Whether its information is delivered to layer 3; otherwise it is discarded.
    pub accepted: bool,
    /// The response to send at once: RR or RNR with F=1, or REJ.
    pub answer: Option<Control>,
}
