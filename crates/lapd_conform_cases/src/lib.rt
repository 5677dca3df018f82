//! The cases of the conformance suite, as text: 252 cases for LAPD stacks, each with its clause of
//! ITU-T Q.921 (09/97).
//!
//! docs/CONFORM.md describes the text, line by line. A file has the cases of one state, or of TEI
//! management. Names rise, by state, class and number, from the first part to the last. A tester
//! executes a case over the line with the stack under test; 159 cases need no upper tester.
#![tactic(auto)]

mod assign_awaiting_tei;
mod awaiting_establishment;
mod awaiting_release;
mod establish_awaiting_tei;
mod established_inopportune;
mod established_invalid;
mod established_timers;
mod established_valid;
mod established_valid_messages;
mod network_tei;
mod tei_assigned;
mod tei_unassigned;
mod timer_recovery;
mod user_tei;

/// The parts of the suite, by rising names. Each part is a suite of its own.
pub const PARTS: &[&str] = &[
    tei_unassigned::CASES,
    assign_awaiting_tei::CASES,
    establish_awaiting_tei::CASES,
    tei_assigned::CASES,
    awaiting_establishment::CASES,
    awaiting_release::CASES,
    established_valid::CASES,
    established_valid_messages::CASES,
    established_inopportune::CASES,
    established_invalid::CASES,
    established_timers::CASES,
    timer_recovery::CASES,
    network_tei::CASES,
    user_tei::CASES,
];
