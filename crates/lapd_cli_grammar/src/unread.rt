//! Why a line could not be read by its form.

ghost use Rattle.std.specs.Prelude.{◌≡◌};
ghost use Rattle.lapd_cli_grammar.specs.Values.{line_fault_of};

use crate::form::{Argument, Form};
use lapd_cli_script::LineFault;

/// Why a line has no form of its command's.
#[derive(Clone, Copy)]
pub enum FormFault<'a> {
    /// No form of the command begins with this word.
    NoForm(&'a [u8]),
    /// The word of this argument is missing.
    Missing(Form, Argument),
    /// This word is not a valid value of the argument.
    OutOfRange(Form, Argument, &'a [u8]),
    /// This word follows a line that is complete without it.
    Behind(Form, &'a [u8]),
}

/// Why a line could not be read.
#[derive(Clone, Copy)]
pub enum Unread<'a> {
    /// The line has no form of its command's.
    Bad(FormFault<'a>),
    /// An allocation failed.
    Memory,
}

impl From<Unread<'_>> for LineFault {
    ghost from_gives = { λ unread fault. fault ≡ line_fault_of unread };

    fn from(unread: Unread<'_>) -> LineFault {
        match unread {
            Unread::Bad(_) => LineFault::Bad,
            Unread::Memory => LineFault::Memory,
        }
    }
}
