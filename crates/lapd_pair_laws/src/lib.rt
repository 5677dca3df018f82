//! Two ends of a data link, after ITU-T Q.921 (09/97), and the line between them: definitions and
//! laws. Nothing here runs.
//!
//! **Moves and histories.** What can happen to the two ends and the line, what is recorded of it,
//! and when that is safe. The definitions are in specs/, to be read in this order: `Line`, one
//! direction of the line; `Histories`, what a side received, sent, had acknowledged and dropped;
//! `Move`, what a side does or what happens to it, and when that is admitted; `World`, both ends,
//! and a run of moves; `Consistent`, facts that every run keeps; `Safe`; and `Tagged`, the world on
//! tags that represents one on whole numbers, and which moves are the same in both. Every other
//! definition holds on whole numbers and on the tags that frames carry. The laws try them on worked
//! moves (begin with [`schedule_is_computed`]), say what every run keeps
//! ([`worlds_are_consistent`]), and that a run on tags is the tag of the run on whole numbers
//! ([`tags_move_as_whole_numbers`]).
//!
//! **Every run is safe.** A side receives only messages that the other side submitted, in order and
//! once each. Read next: `Kinds`, the kinds of frames in transit; `Parties`, the values of a side
//! that the invariant reads, and the frames that it will process; `Conjuncts`, each a statement
//! about a few of these values; `Invariant`, all of them; `Reports`; `Fresh`, that no old message
//! arrives; `Exchanges`, that a side has one establishment or release outstanding at a time;
//! `Eager`, moves with a weaker premise on T200; and `Premises`, which shows that each premise of
//! the moves is needed. Begin with [`every_run_is_safe`].
//!
//! **A quiet line drains.** If both ends are established and not busy, the line between them is
//! empty and no frame is lost, then every message is acknowledged in the end. Read `Settle`, the
//! moves by which a line settles, and when it is quiet; `Drained`, the world in which a quiet line
//! ends; `Timed`, facts that every end keeps between two steps; and `Worked`, worlds that try the
//! moves. Begin with [`every_quiet_line_drains`].
#![tactic(auto)]

mod every_run;
mod histories;
mod quiet_line;

pub use every_run::{
    each_premise_is_needed, each_side_asks_one_at_a_time, eager_moves_are_admitted,
    eager_schedule_is_computed, every_eager_run_is_safe, every_run_is_safe,
    every_run_is_the_same_on_tags, no_old_message_arrives, the_invariant_gives_safe,
    the_invariant_is_preserved,
};
pub use histories::{
    moves_are_computed, new_worlds_are_safe, outputs_are_in_order, outputs_are_recorded,
    refusals_are_computed, schedule_is_computed, schedule_is_safe, sides_are_alike,
    tags_are_not_read, tags_move_as_whole_numbers, worlds_are_consistent,
    wrong_histories_are_not_safe,
};
pub use quiet_line::{ends_settle_between_moves, every_quiet_line_drains, settling_is_computed};
