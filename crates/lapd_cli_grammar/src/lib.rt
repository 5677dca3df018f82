//! The grammar of request lines: the forms of each command's lines, and the values that the words
//! of a line have by its form.
//!
//! [`forms`] is the one table of lines: specs/Forms.antt defines it, and all that reads or describes
//! a line uses it. [`read_form`] reads a line by its form (specs/Values.antt): it returns the first
//! word and the [`Values`] of the others, or says what is wrong ([`FormFault`]). The meaning of the
//! first word is defined by the crates that execute it.
//!
//! The lines with the real clock are those of [`Script::LiveNet`] and [`Script::LiveUser`], and the
//! lines of a bus of whole sides are those of [`Script::BusLinks`].
#![tactic(auto)]

mod cuts;
mod form;
mod laws;
mod line_forms;
mod numbers;
mod reading;
mod script;
mod unread;
mod values;

pub use form::{Argument, Form, Forms};
pub use laws::worked_lines_by_form;
pub use line_forms::{form_of, forms};
pub use reading::{FormedLine, read_form};
pub use script::Script;
pub use unread::{FormFault, Unread};
pub use values::Values;
