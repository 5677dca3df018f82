//! A listener on the line of a drawn run. It numbers the frames, and keeps the first wrong remarks:
//! those with a violation, or those that the test rejects.

use lapd_follow::{Listener, Packet, Remarks};
use lapd_frame::Side;
use lapd_test_text::Text;
use std::alloc::Global;
use std::fmt::Debug;
use std::test::Fail;

/// A listener, and how many frames it received.
#[derive(Drop)]
pub(crate) struct Watch {
    listener: Listener,
    packets: u64,
    /// The first wrong remarks, which are on the last frame.
    wrong: Option<Remarks>,
}

impl Watch {
    /// A listener that knows this window, or none. `None` if an allocation fails.
    pub(crate) fn new(alloc: Global, k: Option<u8>) -> Option<Watch> {
        match Listener::new(alloc, k) {
            Ok(listener) => Some(Watch {
                listener,
                packets: 0,
                wrong: None,
            }),
            Err(_) => None,
        }
    }

    /// Takes the next frame of this side, and returns the remarks on it. `None` after wrong remarks,
    /// or if an allocation fails.
    pub(crate) fn take(&mut self, sender: Side, octets: &[u8]) -> Option<Remarks> {
        if self.wrong.is_some() {
            return None;
        }
        self.packets = self.packets.wrapping_add(1);
        let packet = Packet {
            number: self.packets,
            moment: None,
        };
        match self.listener.octets(packet, sender, octets) {
            Ok(said) => {
                self.reject_if(said.has_violation(), &said);
                Some(said)
            }
            Err(_) => None,
        }
    }

    /// Keeps remarks that are wrong, if this holds.
    pub(crate) fn reject_if(&mut self, is_wrong: bool, said: &Remarks) {
        if is_wrong {
            self.wrong = Some(*said);
        }
    }

    /// Whether no remarks were wrong. The first that were are written down.
    pub(crate) fn is_sound(&self, text: &mut Text) -> bool {
        match &self.wrong {
            Some(said) => {
                text.shown("packet ", &self.packets);
                text.shown("", said);
                false
            }
            None => true,
        }
    }
}

/// The result of a test with these counts: this text, unless the test is passed.
pub(crate) fn verdict<T: Debug + Drop>(
    is_passed: bool,
    counts: T,
    text: &mut Text,
) -> Result<(), Fail> {
    if is_passed {
        Ok(())
    } else {
        text.made(" with ", counts);
        let printed = text.as_str();
        Err(Fail::new(format_args!("{printed}")))
    }
}
