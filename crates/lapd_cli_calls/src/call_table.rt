//! The table of the calls of a D channel.

use crate::call::{Call, CallKey};
use lapd_cli_render::{CallMessage, push_names};
use lapd_frame::{Control, Frame, Sapi, Side};
use std::alloc::{AllocError, Global};
use std::io::{self, Write};

/// The greatest number of calls in a table.
const MOST_CALLS: usize = 10_000;

/// The message type SETUP (Q.931 4.4).
const SETUP: u8 = 0x05;

/// The calls of a D channel, in the order of their first messages.
#[derive(Drop)]
pub struct CallTable {
    alloc: Global,
    calls: Vec<Call>,
    /// How many messages began a call for which the table had no place.
    left_out: u64,
    /// The time of the first frame, in microseconds, if known.
    first: Option<u64>,
}

impl CallTable {
    /// A table before the first frame.
    pub fn new(alloc: Global) -> CallTable {
        CallTable {
            alloc,
            calls: Vec::new(alloc),
            left_out: 0,
            first: None,
        }
    }

    /// Takes octets that `from` sent at this time, in microseconds. Only messages of Q.931 with a
    /// call reference other than the global one belong to a call.
    ///
    /// # Errors
    ///
    /// `AllocError` if an allocation fails.
    pub fn take(
        &mut self,
        moment: Option<u64>,
        from: Side,
        octets: &[u8],
    ) -> Result<(), AllocError> {
        if self.first.is_none() {
            self.first = moment;
        }
        let Ok(frame) = lapd_frame::read(octets, from) else {
            return Ok(());
        };
        let Some(message) = message_in(&frame) else {
            return Ok(());
        };
        match message.reference {
            Some(reference) if reference.value != 0 => {
                let key = CallKey::of(&frame.address(), reference.value, reference.to_origin, from);
                self.take_message(key, message.kind, moment, from, octets)
            }
            _ => Ok(()),
        }
    }

    /// Takes a message of this call.
    fn take_message(
        &mut self,
        key: CallKey,
        kind: u8,
        moment: Option<u64>,
        from: Side,
        octets: &[u8],
    ) -> Result<(), AllocError> {
        let mut words = String::new(self.alloc);
        push_names(&mut words, from, octets)?;
        let alloc = self.alloc;
        if self.begins(key, kind) {
            if self.calls.len() >= MOST_CALLS {
                self.left_out = self.left_out.saturating_add(1);
                return Ok(());
            }
            self.calls.push(Call::new(alloc, key, moment))?;
        }
        match self.last_place(key) {
            None => Ok(()),
            Some(place) => self.take_at(place, kind, from, moment, words.as_str()),
        }
    }

    /// Takes a message of the call at this place.
    fn take_at(
        &mut self,
        place: usize,
        kind: u8,
        from: Side,
        moment: Option<u64>,
        words: &str,
    ) -> Result<(), AllocError> {
        let alloc = self.alloc;
        match self.calls.get_mut(place) {
            None => Ok(()),
            Some(call) => {
                call.has_setup |= kind == SETUP;
                call.take(alloc, kind, from, moment, words)
            }
        }
    }

    /// Whether a message of this type begins a call with this key: no call has it yet, or a SETUP
    /// uses it again after the last one was cleared.
    fn begins(&self, key: CallKey, kind: u8) -> bool {
        let Some(place) = self.last_place(key) else {
            return true;
        };
        match self.calls.get(place) {
            None => true,
            Some(call) => kind == SETUP && !call.is_open(),
        }
    }

    /// The place of the last call with this key.
    fn last_place(&self, key: CallKey) -> Option<usize> {
        let mut place = self.calls.len();
        for call in self.calls.iter().rev() {
            place = place.saturating_sub(1);
            if call.key == key {
                return Some(place);
            }
        }
        None
    }

    /// Whether there was no call.
    pub fn is_empty(&self) -> bool {
        self.calls.is_empty()
    }

    /// Writes the line of each call, and how many calls the table lacks.
    ///
    /// # Errors
    ///
    /// The writer's, and `OutOfMemory` if an allocation fails.
    pub fn write<W: Write>(&self, out: &mut W) -> io::Result<()> {
        for call in self.calls.iter() {
            let mut line = String::new(self.alloc);
            call.push_line(&mut line, self.first)?;
            out.write_all(line.as_bytes())?;
        }
        match self.left_out {
            0 => Ok(()),
            left_out => writeln!(
                out,
                "{left_out} messages of later calls are left out: the table has {MOST_CALLS} calls"
            ),
        }
    }
}

/// The message of Q.931 in a frame, if it has one.
fn message_in(frame: &Frame<'_>) -> Option<CallMessage> {
    match (frame.address().sapi, frame.control()) {
        (Sapi::Call, Control::I { .. } | Control::Ui { .. }) => CallMessage::read(frame.info()),
        _ => None,
    }
}
