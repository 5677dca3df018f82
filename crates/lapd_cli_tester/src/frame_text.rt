//! Frames in the octets of a connection, each after its length.

/// The number of octets in a length.
const LENGTH_OCTETS: usize = 2;

/// Whether the octets begin with a whole frame, or cannot.
#[derive(Clone, Copy, PartialEq, Eq)]
pub(crate) enum Front {
    /// A frame of so many octets has arrived.
    Whole(usize),
    /// More octets must arrive.
    Part,
    /// A length of 0.
    BadLength,
}

/// What the octets that have arrived begin with.
pub(crate) fn front_of(text: &[u8]) -> Front {
    let Some((length, behind)) = text.split_first_chunk::<LENGTH_OCTETS>() else {
        return Front::Part;
    };
    match usize::from(u16::from_be_bytes(*length)) {
        0 => Front::BadLength,
        count if behind.len() < count => Front::Part,
        count => Front::Whole(count),
    }
}

/// The octets of the first frame, which has so many.
pub(crate) fn first_frame(text: &[u8], count: usize) -> &[u8] {
    match text.get(LENGTH_OCTETS..) {
        Some(behind) => behind.get(..count).unwrap_or(behind),
        None => &[],
    }
}

/// How many octets the first frame takes, with its length.
pub(crate) fn taken(count: usize) -> usize {
    count.saturating_add(LENGTH_OCTETS)
}
