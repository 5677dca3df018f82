//! The conformance tester over TCP.
//!
//! Begin with [`run_tester`]: it connects to the stack under test, plays cases or drawn stimuli as a
//! [`TesterSetup`] says, and reports the results. [`print_suite`] prints cases as text.
//!
//! [`TcpStation`] is the stack as the player reaches it: a TCP connection with each frame after its
//! length, the real clock, and an [`UpperTester`], a connection that takes requests as lines.
#![tactic(auto)]

mod case_files;
mod chosen_cases;
mod closest;
mod frame_text;
mod origin;
mod printed;
mod refused;
mod station;
mod suite_print;
mod tester;
mod upper_tester;

pub use origin::Address;
pub use printed::ResultStyle;
pub use station::TcpStation;
pub use suite_print::print_suite;
pub use tester::{Cases, Play, TesterSetup, run_tester};
pub use upper_tester::UpperTester;
