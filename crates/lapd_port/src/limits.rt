/// The least length of a frame, in octets.
pub const LEAST_OCTETS: usize = 3;

/// The greatest length of a frame, in octets.
pub const MOST_OCTETS: usize = 264;

/// The size of the length before a frame, in octets.
pub(crate) const LENGTH_OCTETS: usize = 2;

/// The greatest size of a frame with its length, in octets.
pub(crate) const TEXT_OCTETS: usize = LENGTH_OCTETS + MOST_OCTETS;

/// The most calls of a source or sink (turns) that one call of a port makes.
pub const MOST_TURNS: u16 = 4096;
