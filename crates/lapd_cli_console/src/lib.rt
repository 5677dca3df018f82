//! Messages of the program `lapd` to people about its script and its standard streams.
//!
//! - [`reason`] returns in one line of text what is wrong with a line of a command's script, by the
//!   forms of `lapd_cli_grammar`.
//! - [`RecentLines`] reads a script and keeps the lines it read last, so that a line can be shown by
//!   its number.
//! - [`Watched`] is a writer that remembers how a write failed, and [`Refusals`] one that notes the
//!   first line that begins with `refused`.
//! - [`FaultReport`] prints the fault that ended a script, and its reason.
//! - [`Session`] reads typed lines, and passes on those with a valid form; [`Answers`] are given to
//!   the others. [`tidied`] removes needless characters from a typed line.
//! - [`Escaped`] shows a name or a word without its control characters, which a terminal would obey.
#![tactic(auto)]

mod answers;
mod complaint;
mod escaped;
mod fault_report;
mod help;
mod judge;
mod laws;
mod recent_lines;
mod refusals;
mod session;
mod shown;
mod typed_line;
mod unreturned;
mod watched;

pub use answers::{Answers, PrintedAnswers};
pub use escaped::{Escaped, EscapedLines};
pub use fault_report::{FaultReport, OUTPUT_NAME, READER_GONE, is_reader_gone};
pub use help::put_help;
pub use judge::reason;
pub use lapd_cli_grammar::Script;
pub use laws::{lines_have_the_numbers_of_a_script, worked_sessions, worked_typed_lines};
pub use recent_lines::RecentLines;
pub use refusals::Refusals;
pub use session::Session;
pub use typed_line::tidied;
pub use watched::Watched;
