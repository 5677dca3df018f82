//! Lines of the logs of other programs: the frames, times and spans in them.
//!
//! [`LogReader`] is a reader that rewrites the lines of a log in the forms that `decode` reads, and
//! passes on those of one span. [`stamp_in`] finds the time of a line, and [`span_in`] the D channel
//! that it names.
//!
//! It is proved that no text causes a fault, which D channel a line names, and the days of a date.
//! The rewritten lines are only tested.
#![tactic(auto)]

mod block;
mod cisco;
mod date;
mod listed;
mod log_clock;
mod log_reader;
mod named_span;
mod script_line;
mod stamp;
mod text;
mod trace;
mod traced;
mod word_dump;

pub use lapd_frame::Side;
pub use lapd_zone::Zone;
pub use log_reader::{LogReader, LogStyle, LogTimes, span_name};
pub use named_span::{NamedSpan, span_in};
pub use script_line::is_script_line;
pub use stamp::{Stamp, StampDate, has_stamp, stamp_in};
