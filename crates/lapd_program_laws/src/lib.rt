//! Proofs that `net` and `user` perform events of a side, that both together perform moves of an
//! interface, and that what they print of it is right.
//!
//! An interface (`lapd_two_side_laws`) has two sides and the octets between them, and each of its
//! links is safe. The commands `net` and `user` (`lapd_cli_side_commands`) read and write a port.
//! This crate connects the commands to the interface; the program runs none of it. It speaks only of
//! scripts that end well, over a source and a sink whose octets are known, as those of a socket are
//! not. In the order of specs/:
//!
//! - `SideEvents`, for one program: the side receives the frames that a line reads from the source,
//!   in order and once each. Due timers expire, and requests are made. The frames that the side
//!   sends are written to the sink, in order and once each.
//! - `Transcripts`: each line of a script with the lines that it printed. From it layer 3 reads the
//!   primitives, and the messages of the `give` lines that were not refused. `Printed`: the lines
//!   that a line of a script prints show what its side events deliver and accept.
//! - `Joined`, for both programs: each source delivers the octets that the other program writes,
//!   and each program reads only what was written. Their lines run in any order.
//! - `JoinedRuns`, for a run of `net` and a run of `user`, as their contracts describe it: what
//!   both print of a link is right. `WorkedRuns`: two scripts that meet the premises.
//!   `UnorderedRuns`: two scripts whose lines have no order, and of which one prints an error.
//!
//! Begin with [`lines_are_events`], then read [`joined_programs_are_safe`] and
//! [`joined_runs_are_right`]. Apart from these, [`answer_lines_have_valid_forms`] says that the forms
//! of the lines of `answer` (`lapd_cli_grammar`) agree with its equations (`lapd_cli_answer`).
#![tactic(auto)]

mod answer_lines;
mod laws;

pub use answer_lines::{answer_lines_have_valid_forms, reason_of_answer};
pub use laws::{
    joined_programs_are_safe, joined_runs_are_printed, joined_runs_are_right, lines_are_events,
    lines_are_printed, order_is_needed, worked_runs_meet_premises,
};
