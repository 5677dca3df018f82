//! The commands of the program `lapd` that run a whole side over a script, a writer and a port (a
//! socket in the program).
//!
//! [`net`] and [`user`] are the commands with these names. Each runs one side of an interface; the
//! other side is at the far end of the port. `lapd_cli_side_lines` has their request lines and the
//! lines that they print. `HasServed` in specs/Served.antt defines, line by line, what they read,
//! call, send and print.
#![tactic(auto)]

mod line_output;
mod side_runner;
mod sides;
mod traced_frame;

pub use lapd_cli_script::ScriptFault;
pub use lapd_port::{DeviceError, FromRead, FromWrite, Port, PortFault, Sink, Source};
pub use lapd_sides::{Config, Tei};
pub use side_runner::SideRun;
pub use sides::{basic_access, net, user};
