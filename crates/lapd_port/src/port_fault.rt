use thiserror::Error;

/// Why a port did not read or write a frame.
///
/// After S2 to S5 each later call returns S6, and does not call the source or sink.
#[derive(Clone, Copy, Debug, PartialEq, Eq, Error)]
pub enum PortFault {
    /// The input ends before the next frame.
    #[error("S1 End")]
    End,
    /// A length is not from 3 to 264.
    #[error("S2 BadLength")]
    BadLength,
    /// The input ends within a length or a frame.
    #[error("S3 Cut")]
    Cut,
    /// The source or sink failed in this call.
    #[error("S4 Device")]
    Device,
    /// 4,096 calls were made, and the frame is not complete.
    #[error("S5 TooManyTurns")]
    TooManyTurns,
    /// S2 to S5 was returned before.
    #[error("S6 Failed")]
    Failed,
}
