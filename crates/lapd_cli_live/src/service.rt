//! How long a side runs, and what ends it.

use lapd_cli_wire::Lines;

/// How long a side runs.
#[derive(Clone, Copy)]
pub struct Service {
    /// The moment at which the service ends, in milliseconds since the start. `None` is no moment.
    pub end: Option<u64>,
    /// The event that ends the service before.
    pub until: Until,
    /// Whether a line of input ends the service.
    pub lines: Lines,
}

/// The event that ends a service before its end, beside a closed connection.
#[derive(Clone, Copy)]
pub enum Until {
    /// No event does.
    NoEvent,
    /// One frame was received.
    Frame,
    /// An awaited line was printed.
    Matched,
}

/// Why a service has ended.
#[derive(Clone, Copy, PartialEq, Eq)]
pub enum EndReason {
    /// A frame was received.
    Frame,
    /// An awaited line was printed.
    Matched,
    /// A line of input can be read.
    Line,
    /// The other side has closed the connection.
    Closed,
    /// Its end is reached.
    End,
}
