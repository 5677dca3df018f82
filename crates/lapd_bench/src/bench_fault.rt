use lapd_frame::FrameFault;
use lapd_link::{LinkFault, Refused};
use lapd_pair::PairFault;
use lapd_sides::SideFault;
use lapd_table::TableFault;
use std::alloc::AllocError;

/// Why the program stopped early.
#[derive(Clone, Copy)]
pub enum BenchFault {
    /// The command line is not valid.
    CommandLine,
    /// An allocation failed.
    Memory,
    /// A link refused a request.
    Link,
    /// Octets on the line do not form a valid frame.
    NoFrame,
    /// A frame on the line is for another link.
    NotForLink,
    /// More frames were sent than the line can hold.
    LineFull,
    /// A pair refused a move.
    Pair,
    /// A table refused a frame or a link.
    Table,
    /// A side refused octets.
    Side,
}

impl BenchFault {
    /// The fault in words.
    pub fn text(self) -> &'static str {
        match self {
            BenchFault::CommandLine => {
                "usage: lapd_bench [MESSAGES], lapd_bench pair MESSAGES, lapd_bench line FRAMES MOVES, or lapd_bench table|side|tick|expire LINKS TIMES"
            }
            BenchFault::Memory => "out of memory",
            BenchFault::Link => "a link refuses a request",
            BenchFault::NoFrame => "no frame",
            BenchFault::NotForLink => "a frame for another link",
            BenchFault::LineFull => "the line is full",
            BenchFault::Pair => "a pair refuses a move",
            BenchFault::Table => "a table refuses a frame or a link",
            BenchFault::Side => "a side refuses octets",
        }
    }
}

impl From<AllocError> for BenchFault {
    fn from(_error: AllocError) -> BenchFault {
        BenchFault::Memory
    }
}

impl From<LinkFault> for BenchFault {
    fn from(_fault: LinkFault) -> BenchFault {
        BenchFault::Link
    }
}

impl From<Refused> for BenchFault {
    fn from(_refused: Refused) -> BenchFault {
        BenchFault::Link
    }
}

impl From<FrameFault> for BenchFault {
    fn from(_fault: FrameFault) -> BenchFault {
        BenchFault::NoFrame
    }
}

impl From<PairFault> for BenchFault {
    fn from(_fault: PairFault) -> BenchFault {
        BenchFault::Pair
    }
}

impl From<TableFault> for BenchFault {
    fn from(_fault: TableFault) -> BenchFault {
        BenchFault::Table
    }
}

impl From<SideFault> for BenchFault {
    fn from(_fault: SideFault) -> BenchFault {
        BenchFault::Side
    }
}
