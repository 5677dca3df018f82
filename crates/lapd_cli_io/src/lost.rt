use lapd_cli_script::port_reason;
use lapd_port::PortFault;
use std::fmt;

/// Why a connection is lost.
#[derive(Clone, Copy)]
pub enum Lost {
    /// A read failed with this fault.
    Port(PortFault),
    /// The connection did not accept a whole frame at once.
    NotTaken,
    /// No whole frame arrived for this many milliseconds.
    Idle(u64),
    /// A link's SABME or DISC was not answered, N200 + 1 times.
    Unanswered,
}

impl Lost {
    /// The port fault that a loss means for an only connection.
    pub fn fault(self) -> PortFault {
        match self {
            Lost::Port(fault) => fault,
            Lost::NotTaken | Lost::Idle(_) | Lost::Unanswered => PortFault::Device,
        }
    }
}

impl fmt::Display for Lost {
    fn fmt<W: fmt::Write>(&self, f: &mut fmt::Formatter<W>) -> fmt::Result {
        match self {
            Lost::Port(PortFault::BadLength) => f.write_str("received a frame length of 0"),
            Lost::Port(fault) => f.write_str(port_reason(*fault)),
            Lost::NotTaken => f.write_str("the other side did not accept a whole frame at once"),
            Lost::Unanswered => f.write_str("the other side does not answer"),
            Lost::Idle(limit) => write!(f, "no complete frame was received for {limit} ms"),
        }
    }
}
