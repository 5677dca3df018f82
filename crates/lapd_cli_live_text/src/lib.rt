//! The texts and the statistics of a side that is served with the real clock.
//!
//! [`push_link`], [`push_timers`] and [`push_management`] print the state of links and timers
//! (specs/LinkText.antt). [`Stats`] counts frames, octets and reports, and prints the counts
//! (specs/Stats.antt). [`words_object`] makes a JSON object of such a line
//! (specs/LineObjects.antt).
//!
//! [`read_live_line`] parses a line of such a side; `live_request_of_line` in
//! specs/LiveRequests.antt defines its meaning. [`begins_as`] compares a line with the
//! words of `expect`, and [`awaited_line`] adds the TEI that they leave out at the user side
//! (specs/AwaitedLine.antt). [`awaited_text`] shows what was awaited in vain
//! (specs/AwaitedText.antt).
#![tactic(auto)]

mod awaited;
mod frame_kind;
mod laws;
mod line_objects;
mod line_parts;
mod link_text;
mod sought;
mod stats;
mod traffic;
mod words;

pub use awaited::awaited_text;
pub use laws::{
    each_event_is_counted, each_form_has_a_live_request, plain_words_are_first_octets,
    rejected_message_is_sent_again, worked_awaited_lines, worked_expectations, worked_lines,
    worked_requests,
};
pub use line_objects::words_object;
pub use link_text::{push_link, push_management, push_number, push_timers};
pub use sought::{awaited_line, begins_as};
pub use stats::Stats;
pub use words::{LiveLine, read_live_line};
