/// How frames that are sent are impaired.
#[derive(Clone, Copy, PartialEq, Eq)]
pub struct Impairment {
    /// The chance that a frame is lost, in per cent, 0 to 100.
    pub loss: u8,
    /// The delay of each frame in milliseconds, 0 to 3,600,000.
    pub delay: u64,
}
