//! The happenings of a dialogue.

use lapd_conform_suite::Request;

/// The kind of a happening.
#[derive(Clone, Copy, Debug, PartialEq, Eq)]
pub enum What {
    /// The tester sent the octets.
    Sent,
    /// The tester received the octets.
    Received,
    /// The upper tester made a request for the link.
    Requested(Request),
}

/// One happening of a dialogue.
#[derive(Drop)]
pub struct Happening {
    /// The moment, in milliseconds of the tester's clock: before a frame is sent or a request is
    /// made, and after a frame is received.
    pub at: u64,
    /// Its kind.
    pub what: What,
    /// The octets of the frame; empty for a request.
    pub octets: Vec<u8>,
}
