//! The answers to typed lines that are not passed on.

ghost use Rattle.std.specs.Prelude.{None, Option, List};
ghost use Rattle.lapd_cli_console.specs.Answers.{Adds, Answer, Helped, Refused};

use crate::help::put_help;
use lapd_cli_grammar::Script;
use std::io::Write;

/// Answers a person who types lines.
///
/// An implementation that records its answers returns them by `answered`. Clauses about these hold
/// for such an implementation.
pub trait Answers {
    /// The answers so far, if they are recorded.
    ghost answered: { Self → Option (List Answer) } = { λ _. None };

    /// Shows the forms of a command's lines.
    fn help(&mut self, script: Script)
        ensures { Adds (answered self.old) (answered self.new) Helped };

    /// Says why a line is not executed.
    fn refuse(&mut self, reason: &str)
        ensures { Adds (answered self.old) (answered self.new) Refused };
}

/// Answers that are printed on a writer. Failed writes are ignored.
#[derive(Drop)]
pub struct PrintedAnswers<E> {
    errors: E,
}

impl<E: Write> PrintedAnswers<E> {
    /// Prints answers on this writer.
    pub fn new(errors: E) -> PrintedAnswers<E> {
        PrintedAnswers { errors }
    }
}

impl<E: Write> Answers for PrintedAnswers<E> {
    fn help(&mut self, script: Script) {
        let _ = put_help(script, &mut self.errors);
    }

    fn refuse(&mut self, reason: &str) {
        let _ = writeln!(self.errors, "not executed: {reason}");
    }
}
