//! The command `answer` of the program `lapd`, over any reader and writer.
//!
//! [`answer`] executes a script on one end of a data link of the ISDN D channel (ITU-T Q.921), and
//! prints the outputs of each line. Begin with the definition `answer_word` in specs/Answer.antt,
//! which has a row for each word. It ends as [`lapd_cli_script::walk`] does.
//!
//! [`PrintedOutput`] is the printed form of one output of a link, which other commands print too.
#![tactic(auto)]

mod answerer;
mod outputs;
mod printed_output;

pub use answerer::{Answerer, answer};
pub use lapd_cli_script::ScriptFault;
pub use lapd_link::{Link, Params, Side};
pub use outputs::put_refusal;
pub use printed_output::{OutputOctets, Phrase, PrintedOutput, put_phrase};
