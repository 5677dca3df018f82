//! Random octets, and the octets that they begin with.

use arrayvec::ArrayVec;
use lapd_test_text::Draws;

/// The maximum number of random octets.
pub(super) const MOST: usize = 300;

/// Octets that strings begin with: addresses of existing and other links, of all terminals, and of
/// TEI management.
const BEGINNINGS: &[&[u8]] = &[
    &[0x00, 0x81],
    &[0x02, 0x81],
    &[0x00, 0x81, 0x00, 0x00],
    &[0x02, 0x81, 0x01],
    &[0x00, 0x81, 0x01],
    &[0x00, 0x81, 0x03],
    &[0x02, 0x81, 0x13],
    &[0x40, 0x81],
    &[0x42, 0x81],
    &[0x40, 0x83],
    &[0x02, 0x01],
    &[0x00, 0xff],
    &[0x02, 0xff, 0x03],
    &[0x42, 0xff, 0x13],
    &[0xfc, 0xff, 0x03, 0x0f],
    &[0xfc, 0xff, 0x13, 0x0f, 0x12, 0x34, 0x01],
    &[0xfe, 0xff, 0x03, 0x0f],
    &[0xfe, 0xff, 0x13, 0x0f, 0x00, 0x00, 0x06],
];

/// The octets that strings begin with, returned by reference: a constant would be copied into each
/// function that names it.
pub(super) fn beginnings() -> &'static [&'static [u8]] {
    BEGINNINGS
}

/// These octets, followed by the octets of a string after the same length.
pub(super) fn completed(beginning: &[u8], string: &[u8; MOST]) -> ArrayVec<u8, MOST> {
    let mut octets = ArrayVec::new();
    let _ = octets.try_extend_from_slice(beginning);
    let _ = octets.try_extend_from_slice(string.get(beginning.len()..).unwrap_or(&[]));
    octets
}

/// A generator of random octets.
#[derive(Drop)]
pub(super) struct OctetDraws {
    draws: Draws,
    octets: ArrayVec<u8, MOST>,
}

impl OctetDraws {
    /// Draws from this seed on.
    pub(super) fn new(seed: u64) -> OctetDraws {
        OctetDraws {
            draws: Draws::new(seed),
            octets: ArrayVec::new(),
        }
    }

    /// A random number below this one.
    fn below(&mut self, limit: usize) -> usize {
        self.draws.below(u32::try_from(limit).unwrap_or(0)) as usize
    }

    /// Draws 0 to 300 octets. Half of the strings begin with one of `BEGINNINGS`, and half of these
    /// have at most 10 octets.
    pub(super) fn draw(&mut self) -> &[u8] {
        let mut string = [0; MOST];
        self.draws.fill(&mut string);
        let sort = self.below(4);
        let beginning = if sort < 2 {
            self.below(beginnings().len())
        } else {
            usize::MAX
        };
        self.octets = completed(beginnings().get(beginning).copied().unwrap_or(&[]), &string);
        let len = self.below(if sort == 0 { 11 } else { MOST + 1 });
        self.octets.as_slice().get(..len).unwrap_or(&[])
    }
}
