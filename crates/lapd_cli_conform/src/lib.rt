//! The texts of the conformance tester: stack files, patterns of names, and results.
//!
//! docs/CONFORM.md describes them. [`read_stack`] reads a stack file, or returns the first wrong
//! line with the wrong word and what is expected in its place ([`StackFault`]). [`fits`] decides
//! whether a pattern fits the name of a case. [`push_line`] appends the line of a result, a
//! [`CaseReport`]; a [`Tally`] counts verdicts, and chooses the exit status. [`lines_between`] and
//! [`push_wanted`] find lines of a suite by their numbers. [`push_answer_script`] makes a script of
//! `lapd answer` of a dialogue.
//!
//! specs/, in order: `Reading` says how a word is read; `Settings` and `StackFiles` define stack
//! files, `Patterns` patterns, `Tallies` the counts and the exit status, `Escaped` text in JSON and
//! XML, and `Results`, `Found` and `Json` the texts of a result.
//!
//! [`Run`] executes the cases of a suite's text against a station, and reports their results;
//! [`DrawnRun`] draws stimuli in place of a suite. `Plans` has the number of stimuli of each round.
#![tactic(auto)]

mod answer_script;
mod drawn;
mod escaped;
mod fault;
mod found;
mod json;
mod junit;
mod known;
mod pattern;
mod reading;
mod reasons;
mod results;
mod run;
mod seen;
mod setting;
mod stack_file;
mod suite_text;
mod tally;

pub use answer_script::push_answer_script;
pub use drawn::{DrawCounts, DrawPlan, DrawnRun};
pub use fault::{Needed, SettingFault, StackFault};
pub use found::push_found;
pub use json::push_object;
pub use junit::{junit_file, push_test_case};
pub use known::KnownCases;
pub use lapd_conform::{Case, Happening, Lost, Played, Stack, Station, What};
pub use lapd_conform_draw::Progress;
pub use pattern::fits;
pub use reasons::{doubt_words, lack_words, reason_words};
pub use results::{CaseReport, Grade, push_line};
pub use run::{Halt, Reporter, Run, Selection, case_at, name_of, source_of};
pub use setting::Setting;
pub use stack_file::{read_stack, usual_stack, without_upper};
pub use suite_text::{lines_between, push_wanted};
pub use tally::Tally;
