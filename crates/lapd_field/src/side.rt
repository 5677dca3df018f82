ghost use Rattle.std.specs.Prelude.{◌≡◌, Some};
ghost use Rattle.lapd_field.specs.Address.{other_side, side_name};

use std::fmt;

/// A side of the user-network interface.
#[derive(Clone, Copy, Debug, PartialEq, Eq)]
pub enum Side {
    /// The exchange.
    Network,
    /// The terminal.
    User,
}

impl Side {
    /// The side that receives what this side sends.
    pub fn other(self) -> Side
        ensures { result ≡ other_side self }
    {
        match self {
            Side::Network => Side::User,
            Side::User => Side::Network,
        }
    }
}

impl fmt::Display for Side {
    ghost output = { λ side. Some (side_name side) };

    fn fmt<W: fmt::Write>(&self, f: &mut fmt::Formatter<W>) -> fmt::Result {
        match self {
            Side::Network => write!(f, "network"),
            Side::User => write!(f, "user"),
        }
    }
}

/// Whether the receiver sees a frame as a command or a response (Q.921 3.3.2). The C/R bit says so,
/// and its meaning depends on who sent the frame.
#[derive(Clone, Copy, Debug, PartialEq, Eq)]
pub enum Role {
    /// A command.
    Command,
    /// A response.
    Answer,
}
