ghost use Rattle.std.specs.Prelude.{◌≡◌, ◌≤◌};
ghost use Rattle.lapd_link_definition.specs.Parameters.{parameters_of, basic_parameters, primary_parameters};

use crate::Recovery;
use lapd_frame::Sapi;
use std::marker::Model;

/// The parameters of a data link (Q.921 5.9).
#[derive(Clone, Copy, Debug, PartialEq, Eq)]
pub struct Params {
    k: u8,
    n200: u8,
    room: u16,
    recovery: Recovery,
}

impl Model for Params {
    ghost use Rattle.std.specs.Prelude.{◌≤◌};
    ghost use Rattle.lapd_link_definition.specs.Parameters.{Parameters, AreInRange};

    ghost Value = { Parameters };

    ghost view = { λ p. record { k = p.k; n200 = p.n200; room = p.room; recovery = p.recovery } };

    ghost invariant = { λ p. AreInRange (record {
      k = p.k;
      n200 = p.n200;
      room = p.room;
      recovery = p.recovery;
    }) };

    ghost inverse = { λ n. record { k = n.k; n200 = n.n200; room = n.room; recovery = n.recovery } };
}

impl Params {
    /// A window of `k` frames, 1 to 127 (Q.921 5.9.5), `n200` retransmissions of a frame, 1 to 100
    /// (Q.921 5.9.2), and room for `room` messages in the I queue, 1 to 1,024. `None` if a number
    /// is out of range.
    pub fn new(k: u8, n200: u8, room: u16) -> Option<Params>
        ensures { result ≡ parameters_of k n200 room }
    {
        let in_range = 1 <= k && k <= 127 && 1 <= n200 && n200 <= 100 && 1 <= room && room <= 1024;
        if in_range {
            Some(Params {
                k,
                n200,
                room,
                recovery: Recovery::Enquiry,
            })
        } else {
            None
        }
    }

    /// The defaults of Q.921 5.9 for basic access, with room for 512 messages: N200 is 3, the
    /// window is 1 for call control and 3 for packet communication. Management has no link, and
    /// gets the parameters of call control.
    pub fn basic(sapi: Sapi) -> Params
        ensures { result ≡ basic_parameters sapi }
    {
        let k = match sapi {
            Sapi::Packet => 3,
            Sapi::Call | Sapi::Management => 1,
        };
        Params {
            k,
            n200: 3,
            room: 512,
            recovery: Recovery::Enquiry,
        }
    }

    /// The defaults of Q.921 5.9 for primary rate access, with room for 512 messages: the window is
    /// 7, and N200 is 3.
    pub fn primary() -> Params
        ensures { result ≡ primary_parameters }
    {
        Params {
            k: 7,
            n200: 3,
            room: 512,
            recovery: Recovery::Enquiry,
        }
    }

    /// The same parameters with this recovery. [`Params::new`], [`Params::basic`] and
    /// [`Params::primary`] use [`Recovery::Enquiry`].
    pub fn with_recovery(self, recovery: Recovery) -> Params
        ensures { result ≡ record self { recovery = recovery } }
    {
        Params { recovery, ..self }
    }

    /// The frame that is sent when T200 expires in state 7.
    pub fn recovery(&self) -> Recovery
        ensures { result ≡ self.now.recovery }
    {
        self.recovery
    }

    /// The window, 1 to 127 frames.
    pub fn k(&self) -> u8
        ensures same { result ≡ self.now.k }
        ensures low { 1 ≤ result }
        ensures high { result ≤ 127 }
    {
        self.k
    }

    /// How often a frame is retransmitted, 1 to 100.
    pub fn n200(&self) -> u8
        ensures same { result ≡ self.now.n200 }
        ensures low { 1 ≤ result }
        ensures high { result ≤ 100 }
    {
        self.n200
    }

    /// How many messages the I queue has room for, 1 to 1,024.
    pub fn room(&self) -> u16
        ensures same { result ≡ self.now.room }
        ensures low { 1 ≤ result }
        ensures high { result ≤ 1024 }
    {
        self.room
    }
}
