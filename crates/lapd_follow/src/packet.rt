/// The place of a frame in a capture.
#[derive(Clone, Copy, Debug, PartialEq, Eq)]
pub struct Packet {
    /// The number of the packet, which the caller counts.
    pub number: u64,
    /// When it was captured, in microseconds, if this is known.
    pub moment: Option<u64>,
}
