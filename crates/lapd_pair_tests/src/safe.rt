//! Slow checks of the histories of both sides of a pair.

use lapd_frame::Side;
use lapd_pair::{Ending, Fate, Pair, Received};

/// Whether both histories are safe and the pair's counts agree with the fates.
pub(crate) fn are_safe(pair: &Pair) -> bool {
    let mut waiting = 0;
    is_safe(pair, Side::User, &mut waiting)
        && is_safe(pair, Side::Network, &mut waiting)
        && waiting == pair.left()
}

/// Whether one side's received messages are safe, and the counts of the other side agree with its
/// fates. Adds the sender's waiting messages to `waiting`.
fn is_safe(pair: &Pair, receiver: Side, waiting: &mut u64) -> bool {
    let sender = receiver.other();
    let given = pair.given(sender);
    let fates = pair.fates(sender);
    let mut walk = Walk {
        received: pair.received(receiver),
        at: 0,
        establishment: 0,
        gap: false,
        waiting: 0,
        acknowledged: 0,
    };
    for (message, fate) in given.iter().zip(fates) {
        if !walk.passes(message.as_slice(), fate) {
            return false;
        }
    }
    *waiting = waiting.wrapping_add(walk.waiting);
    let undropped = walk.acknowledged.wrapping_add(walk.waiting);
    given.len() == fates.len()
        && walk.at == walk.received.len()
        && walk.acknowledged == pair.acknowledged(sender)
        && undropped.wrapping_add(pair.dropped(sender)) == fates.len() as u64
}

/// A walk over the messages that one side submitted, beside those that the other received. The
/// received ones must be in the order of submission, once each, and without a gap while the
/// receiver's establishment continues. Each acknowledged message must be received.
#[derive(Drop)]
struct Walk<'a> {
    received: &'a [Received],
    /// How many received messages are found so far.
    at: usize,
    /// The establishment in which the last found message arrived.
    establishment: u64,
    /// Whether a message has been passed over since.
    gap: bool,
    waiting: u64,
    acknowledged: u64,
}

impl Walk<'_> {
    /// Passes a message, and returns whether its fate is safe.
    fn passes(&mut self, message: &[u8], fate: &Fate) -> bool {
        match fate.end {
            Ending::Waiting => self.waiting = self.waiting.wrapping_add(1),
            Ending::Acked => self.acknowledged = self.acknowledged.wrapping_add(1),
            Ending::Dropped => {}
        }
        match self.received.get(self.at) {
            Some(next) if next.octets.as_slice() == message => self.takes(next.establishment),
            _ => {
                self.gap = true;
                fate.end != Ending::Acked
            }
        }
    }

    /// Takes the next received message, and returns whether it may arrive in this establishment.
    fn takes(&mut self, establishment: u64) -> bool {
        let is_next = establishment == self.establishment && !self.gap;
        let is_later = establishment > self.establishment;
        self.at = self.at.wrapping_add(1);
        self.establishment = establishment;
        self.gap = false;
        is_next || is_later
    }
}
