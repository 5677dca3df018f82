//! Time zones: the time that a clock shows at a moment, and its date.
//!
//! [`Zone::of_file`] is the zone of a TZif file (RFC 8536), [`Zone::of_text`] that of a POSIX TZ
//! string, and [`Zone::local`] is the time of a clock in the zone. [`date_of`] is the date of a day.
//! The crates `jiff_tz` and `jiff_core` read files and strings, and know the calendar.
//!
//! It is proved which files and strings are zones, that the offset of a moment is that of the file
//! or of the rule, and which date a day has. Read specs/ in the order Calendar, Zone.
#![tactic(auto)]

mod calendar;
mod zone;

pub use calendar::{Date, date_of};
pub use zone::Zone;
