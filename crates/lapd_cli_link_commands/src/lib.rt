//! The commands `pair`, `loop` and `bus` of the program `lapd`, over any reader and writer.
//!
//! - [`pair`] executes a script of moves on two ends of a data link of the ISDN D channel (ITU-T
//!   Q.921) and the line between them: `move_named` in specs/Moves.antt has a row for each word, and
//!   `pair_step` in specs/Pair.antt one each for `settle` and `recover`. [`Mover`] makes the moves alone, and [`draw_pair`] draws them: an arrow
//!   for each frame that arrives or is lost (`drawn_step` in specs/PairLadder.antt).
//! - [`loop_over`] is the command `loop`: two ends whose frames are sent through a port and must be
//!   received from it unchanged (`loop_step` in specs/LoopState.antt).
//! - [`bus`] executes a script of moves on several terminals without a fixed TEI and the network
//!   side that assigns TEIs (Q.921 5.3): `bus_line` in specs/Bus.antt.
//!
//! Each ends as [`lapd_cli_script::walk`] does.
#![tactic(auto)]

mod bus_lines;
mod bus_moves;
mod bus_runner;
mod crossing;
mod looper;
mod move_lines;
mod mover;
mod moves;
mod notes;
mod pair_ladder;
mod settler;
mod taken;

pub use bus_runner::bus;
pub use lapd_cli_script::ScriptFault;
pub use lapd_link::{Link, Params, Side};
pub use lapd_pair::Pair;
pub use looper::loop_over;
pub use mover::Mover;
pub use pair_ladder::draw_pair;
pub use settler::pair;
