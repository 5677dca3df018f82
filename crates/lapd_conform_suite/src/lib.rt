//! The grammar of conformance suites for LAPD stacks.
//!
//! docs/CONFORM.md describes the text of a suite, line by line; `lapd_conform_cases` has one.
//! [`read_suite`] reads a suite into typed lines, or returns the first wrong line with the wrong
//! word and what is expected in its place ([`SuiteFault`]). [`read_line`] reads a single line.
//!
//! A [`Line`] is a [`Step`] without references, and the text of the line, if it has one: a title,
//! clauses, or hexadecimal digits. So the contracts are about plain values.
//!
//! specs/, in order: `Words` has the tables of words; `Reading` says how a word is read; `Names`,
//! `Numbers`, `Frames` and `Lines` define what a line says; `Suites` defines the order of
//! lines, and a whole suite. Names rise in a suite, so no two cases have the same name.
#![tactic(auto)]

mod fault;
mod frame;
mod line;
mod name;
mod number;
mod reading;
mod suite;
mod words;

pub use fault::{Fault, SuiteFault, Wanted};
pub use frame::{Fields, Information, Pattern};
pub use lapd_tei::TeiKind;
pub use line::{Line, Step, read_line};
pub use name::{Class, Group, Name};
pub use number::{Number, Span, Value};
pub use reading::{take_word, value_of};
pub use suite::{NumberedLine, next_line, read_suite};
pub use words::{
    Base, Choice, Field, Keyword, Kind, Named, Need, Opening, Preamble, Request, TimeUnit,
};
