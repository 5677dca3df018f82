/// The frame that is sent when T200 expires in state 7, because an acknowledgement is overdue
/// (Q.921 5.6.7).
#[derive(Clone, Copy, Debug, PartialEq, Eq)]
pub enum Recovery {
    /// An enquiry: RR or RNR with P=1 (5.6.7 a).
    Enquiry,
    /// The last I frame again, with P=1 (5.6.7 b); an enquiry if nothing is outstanding or the peer
    /// is busy.
    LastMessage,
}
