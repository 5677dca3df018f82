//! The console of a live session: notes to the person at the terminal.

use lapd_cli_console::{Script, put_help, reason, tidied};
use lapd_cli_live::Console;
use lapd_cli_notes::Notes;
use std::alloc::{AllocError, Global};

/// Notes which lines a command has, and what is wrong with a line.
#[derive(Drop)]
pub struct ConsoleNotes<'a> {
    alloc: Global,
    script: Script,
    notes: &'a Notes<'a>,
}

impl<'a> ConsoleNotes<'a> {
    /// Notes about the lines of this command.
    pub fn new(alloc: Global, script: Script, notes: &'a Notes<'a>) -> ConsoleNotes<'a> {
        ConsoleNotes {
            alloc,
            script,
            notes,
        }
    }

    /// The forms of the command's lines.
    fn help_text(&self) -> Vec<u8> {
        let mut text = Vec::new(self.alloc);
        // If an allocation fails, the text ends early.
        let _ = put_help(self.script, &mut text);
        text
    }
}

impl Console for ConsoleNotes<'_> {
    fn greet(&mut self) {
        self.notes
            .print("type a line; help lists the lines, quit ends the session");
    }

    fn tidied(&self, line: &[u8]) -> Result<Vec<u8>, AllocError> {
        tidied(self.alloc, self.script, line)
    }

    fn refuse_line(&mut self, line: &[u8]) {
        match reason(self.alloc, self.script, line) {
            Ok(Some(why)) => self.notes.print(format_args!("not executed: {why}")),
            Ok(None) => self.notes.print("not executed"),
            Err(_) => self.notes.print("not executed: out of memory"),
        }
    }

    fn help(&mut self) {
        let text = self.help_text();
        let text = str::from_utf8(text.as_slice()).unwrap_or("");
        self.notes.print(text.trim_end());
    }
}
