//! The player of the conformance tester: it executes the cases of a suite against a LAPD
//! stack.
//!
//! A [`Station`] is the stack under test as the player reaches it: a line, an upper tester and a
//! clock. [`Stack`] has the parameters of the stack. [`perform`] executes the lines of a [`Case`],
//! and returns the dialogue and whether the purpose of the case was reached ([`Performance`]). The
//! rule for the verdict on it is in `lapd_conform`.
#![tactic(auto)]

mod case;
mod case_lines;
mod compared;
mod expectation;
mod expecting;
mod happening;
mod performance;
mod player;
mod preamble;
mod reason;
mod record;
mod spelled;
mod stack;
mod station;
mod timing;
mod values;

pub use case::{Case, first_case};
pub use happening::{Happening, What};
pub use lapd_conform_suite::{Group, Need, NumberedLine, Preamble, Request};
pub use performance::{Performance, lack, perform};
pub use reason::{Lacks, Reason};
pub use spelled::{request_word, sent_octets};
pub use stack::{Requests, Stack};
pub use station::{Lost, Station};
