use lapd_cli_script::LineFault;
use lapd_port::PortFault;
use std::alloc::AllocError;
use std::io;

/// Why a side stopped running.
#[derive(Clone, Copy)]
pub enum LiveFault {
    /// A reader or the writer failed, or an allocation. Never `Bad`:
    /// [`LiveSide::execute_line`](crate::LiveSide::execute_line) returns `Executed::Bad` for a bad line.
    Line(LineFault),
    /// The surroundings of the side returned this fault.
    Port(PortFault),
}

impl From<LineFault> for LiveFault {
    fn from(fault: LineFault) -> LiveFault {
        LiveFault::Line(fault)
    }
}

impl From<PortFault> for LiveFault {
    fn from(fault: PortFault) -> LiveFault {
        LiveFault::Port(fault)
    }
}

impl From<io::Error> for LiveFault {
    fn from(_error: io::Error) -> LiveFault {
        LiveFault::Line(LineFault::Device)
    }
}

impl From<AllocError> for LiveFault {
    fn from(_error: AllocError) -> LiveFault {
        LiveFault::Line(LineFault::Memory)
    }
}
