//! Establishments that await a TEI.

ghost use Rattle.std.specs.Prelude.{◌≡◌};
ghost use Rattle.lapd_sides.specs.User.{nothing_pending, is_pending, with_pending};

use lapd_frame::Sapi;
use std::marker::Model;

/// The SAPIs for which an establishment is kept until the terminal has a TEI.
#[derive(Clone, Copy)]
pub struct PendingEstablishments {
    call: bool,
    packet: bool,
}

impl Model for PendingEstablishments {
    ghost use Rattle.lapd_sides.specs.User as user;

    ghost Value = { user.PendingEstablishments };

    ghost view = { λ k. record { call = k.call; packet = k.packet } };

    ghost inverse = { λ k. record { call = k.call; packet = k.packet } };
}

impl PendingEstablishments {
    /// No establishment is kept.
    pub fn nothing() -> PendingEstablishments
        ensures { result ≡ nothing_pending }
    {
        PendingEstablishments {
            call: false,
            packet: false,
        }
    }

    /// Whether an establishment is kept for this SAPI. For management it never is.
    pub fn has(&self, sapi: Sapi) -> bool
        ensures { result ≡ is_pending sapi self.now }
    {
        match sapi {
            Sapi::Call => self.call,
            Sapi::Packet => self.packet,
            Sapi::Management => false,
        }
    }

    /// Keeps or forgets an establishment for this SAPI.
    pub fn set(&mut self, sapi: Sapi, on: bool)
        ensures { self.new ≡ with_pending sapi on self.old }
    {
        match sapi {
            Sapi::Call => self.call = on,
            Sapi::Packet => self.packet = on,
            Sapi::Management => {}
        }
    }
}
