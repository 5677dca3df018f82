ghost use Rattle.lapd_sides_links.specs.Messages.{IsUnsent};

use std::alloc::{AllocError, Global};

/// The outcome of a copy of a message that was to be sent at once.
#[derive(Drop)]
pub enum AtOnce {
    /// It was sent.
    Sent,
    /// It was not sent, and is returned.
    Unsent(Vec<u8>),
    /// It could not be allocated.
    NoMemory,
}

impl AtOnce {
    /// A copy of these octets that is not sent.
    pub fn unsent(alloc: Global, octets: &[u8]) -> AtOnce
        ensures { IsUnsent octets.now result }
    {
        match Vec::from_slice(alloc, octets) {
            Ok(message) => AtOnce::Unsent(message),
            Err(AllocError) => AtOnce::NoMemory,
        }
    }
}
