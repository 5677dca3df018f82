ghost use Rattle.std.specs.Prelude.{◌≡◌, false, map, slice_index_or, IfOk};
ghost use Rattle.lapd_tei.specs.Bus.{broadcast, received_by};

use crate::TeiMessage;
use std::alloc::{AllocError, Global};
use std::marker::Model;

/// A message from the network side in transit, and which terminals have received it.
#[derive(Drop)]
pub struct Broadcast {
    message: TeiMessage,
    reception: Vec<bool>,
}

impl Model for Broadcast {
    ghost use Rattle.lapd_tei.specs.Bus.{Broadcast};

    ghost Value = { Broadcast };

    ghost view = { λ b. record { message = b.message; reception = b.reception.items } };
}

impl Broadcast {
    /// Creates a broadcast to this many terminals that none has received yet.
    pub fn new(
        alloc: Global,
        terminals: usize,
        message: TeiMessage,
    ) -> Result<Broadcast, AllocError>
        ensures { IfOk result (λ b. b ≡ broadcast terminals message) }
    {
        let reception = vec![in alloc; false; terminals]?;
        Ok(Broadcast { message, reception })
    }

    pub fn message(&self) -> TeiMessage
        ensures { result ≡ self.now.message }
    {
        self.message
    }

    /// Whether the terminal at this index has received it.
    pub fn is_received_by(&self, t: usize) -> bool
        ensures { result ≡ slice_index_or self.now.reception t false }
    {
        match self.reception.get(t) {
            Some(reception) => *reception,
            None => false,
        }
    }

    /// Records that the terminal at this index has received it.
    pub fn mark(&mut self, t: usize)
        ensures { self.new ≡ received_by t self.old }
    {
        if t < self.reception.len() {
            self.reception[t] = true;
        }
    }
}
