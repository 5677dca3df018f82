//! Lines that are typed.

ghost use Rattle.std.specs.Prelude.{◌≡◌, MatchResult, None, OnErr, OnOk, Some, false, option_map, true};
ghost use Rattle.std.specs.Io.{ReadsAtMost};
ghost use Rattle.std.specs.Io.KnownBytes.{IsAtEnd, Keeps, ReadConsumes};
ghost use Rattle.std.specs.IoError.{error_kind};
ghost use Rattle.lapd_cli_script.specs.Line.{text_line};
ghost use Rattle.lapd_cli_script.specs.WalkState.{HasNoFeed};
ghost use Rattle.lapd_cli_console.specs.Answered.{KeepsAnswers, all_answers};
ghost use Rattle.lapd_cli_console.specs.Answers.{AddsAll, answers_to_line};
ghost use Rattle.lapd_cli_grammar.specs.Values.{is_line_of};
ghost use Rattle.lapd_cli_console.specs.Typed.{IsReady, IsUsedUp, after_line, left_to_pass, passed_on, typing_of};

use crate::answers::Answers;
use crate::judge::reason;
use crate::typed_line::tidied;
use crate::unreturned::Unreturned;
use lapd_cli_grammar::Script;
use lapd_cli_script::first_line;
use std::alloc::Global;
use std::io::{self, BufRead, ErrorKind, Read};

/// A reader of typed lines. It tidies each line ([`tidied`]), and returns those that have a valid
/// form, each once and in order. It answers `help`, and any other line that is not valid, and reads
/// the next one; `quit` and `exit` end the input. A failed read loses nothing: the next one
/// continues.
#[derive(Drop)]
pub struct Session<R, A> {
    alloc: Global,
    script: Script,
    reader: R,
    answers: A,
    // The typed octets that were not handled yet.
    typed: Vec<u8>,
    // The octets of the line that is passed on, with its line feed, that were not returned yet.
    line: Unreturned,
    is_ended: bool,
    fault: Option<ErrorKind>,
}

impl<R: BufRead, A: Answers> Session<R, A> {
    /// Reads lines of this command, and answers other lines.
    pub fn new(alloc: Global, script: Script, reader: R, answers: A) -> Session<R, A>
        ensures passed { left_to_pass R.remaining result
            ≡ option_map (passed_on script) (R.remaining reader) }
        ensures answers { result.answers ≡ answers }
        ensures fault { result.fault ≡ None }
    {
        Session {
            alloc,
            script,
            reader,
            answers,
            typed: Vec::new(alloc),
            line: Unreturned::none(alloc),
            is_ended: false,
            fault: None,
        }
    }

    /// How the last read failed. `None` if none did.
    pub fn fault(&self) -> Option<ErrorKind>
        ensures { result ≡ self.now.fault }
    {
        self.fault
    }

    /// Handles typed lines up to the next one that is passed on, or to the end of the input.
    fn fill(&mut self) -> io::Result<()>
        ensures left { Keeps (left_to_pass R.remaining self.old)
            (left_to_pass R.remaining self.new) }
        ensures answers { KeepsAnswers (all_answers R.remaining A.answered self.old)
            (all_answers R.remaining A.answered self.new) }
        ensures ready { OnOk result (IsReady (typing_of self.new)) }
        ensures fault { self.new.fault ≡ self.old.fault }
    {
        for _round in 0..u64::MAX {
            if self.is_ready() {
                return Ok(());
            }
            self.handle_next()?;
        }
        Err(io::Error::from(ErrorKind::TimedOut))
    }

    /// Whether part of the line can be returned, or the input has ended.
    fn is_ready(&self) -> bool
        ensures yes { result ≡ true → IsReady (typing_of self.now) }
        ensures no { result ≡ false → IsUsedUp (typing_of self.now) }
    {
        self.is_ended || !self.line.is_empty()
    }

    /// Handles the next typed line, or reads more.
    fn handle_next(&mut self) -> io::Result<()>
        requires { IsUsedUp (typing_of self.old) }
        ensures left { Keeps (left_to_pass R.remaining self.old)
            (left_to_pass R.remaining self.new) }
        ensures answers { KeepsAnswers (all_answers R.remaining A.answered self.old)
            (all_answers R.remaining A.answered self.new) }
        ensures fault { self.new.fault ≡ self.old.fault }
    {
        match first_line(self.typed.as_slice()) {
            Some((line, behind)) => {
                let line = tidied(self.alloc, self.script, line)?;
                let behind = Vec::from_slice(self.alloc, behind)?;
                self.handle(line, behind)
            }
            None => self.read_more(),
        }
    }

    /// Reads up to the end of the next line. At the end of the input, it handles the last line,
    /// which may lack its line feed.
    fn read_more(&mut self) -> io::Result<()>
        requires used_up { IsUsedUp (typing_of self.old) }
        requires no_feed { HasNoFeed self.old.typed.items }
        ensures left { Keeps (left_to_pass R.remaining self.old)
            (left_to_pass R.remaining self.new) }
        ensures answers { KeepsAnswers (all_answers R.remaining A.answered self.old)
            (all_answers R.remaining A.answered self.new) }
        ensures fault { self.new.fault ≡ self.old.fault }
    {
        if self.reader.read_until(b'\n', &mut self.typed)? > 0 {
            return Ok(());
        }
        self.handle_last()
    }

    /// Handles the last line, which lacks its line feed, or ends the input.
    fn handle_last(&mut self) -> io::Result<()>
        requires used_up { IsUsedUp (typing_of self.old) }
        requires no_feed { HasNoFeed self.old.typed.items }
        ensures left { IsAtEnd (R.remaining self.old.reader)
            → Keeps (left_to_pass R.remaining self.old) (left_to_pass R.remaining self.new) }
        ensures answers { IsAtEnd (R.remaining self.old.reader)
            → KeepsAnswers (all_answers R.remaining A.answered self.old)
            (all_answers R.remaining A.answered self.new) }
        ensures fault { self.new.fault ≡ self.old.fault }
    {
        if self.typed.is_empty() {
            self.is_ended = true;
            return Ok(());
        }
        let line = tidied(self.alloc, self.script, self.typed.as_slice())?;
        self.handle(line, Vec::new(self.alloc))
    }

    /// Handles a tidied line. Then the octets in `behind` are left of those that were typed.
    fn handle(&mut self, line: Vec<u8>, behind: Vec<u8>) -> io::Result<()>
        requires { IsUsedUp (typing_of self.old) }
        ensures ok { OnOk result (typing_of self.new
            ≡ after_line (typing_of self.old) line.items behind.items) }
        ensures err { OnErr result (typing_of self.new ≡ typing_of self.old) }
        ensures answered { OnOk result (AddsAll (A.answered self.old.answers)
            (A.answered self.new.answers) (answers_to_line self.old.script line.items)) }
        ensures unanswered { OnErr result (self.new.answers ≡ self.old.answers) }
        ensures reader { self.new.reader ≡ self.old.reader }
        ensures fault { self.new.fault ≡ self.old.fault }
    {
        self.judge(line)?;
        self.typed = behind;
        Ok(())
    }

    /// Passes on a tidied line, or answers it if it is not valid for the command.
    fn judge(&mut self, line: Vec<u8>) -> io::Result<()>
        requires { IsUsedUp (typing_of self.old) }
        ensures ok { OnOk result (typing_of self.new
            ≡ after_line (typing_of self.old) line.items self.old.typed.items) }
        ensures err { OnErr result (typing_of self.new ≡ typing_of self.old) }
        ensures answered { OnOk result (AddsAll (A.answered self.old.answers)
            (A.answered self.new.answers) (answers_to_line self.old.script line.items)) }
        ensures unanswered { OnErr result (self.new.answers ≡ self.old.answers) }
        ensures reader { self.new.reader ≡ self.old.reader }
        ensures fault { self.new.fault ≡ self.old.fault }
    {
        match line.as_slice() {
            b"help" => {
                self.answers.help(self.script);
                Ok(())
            }
            b"quit" | b"exit" => {
                self.is_ended = true;
                Ok(())
            }
            typed => match reason(self.alloc, self.script, typed)? {
                Some(reason) => {
                    self.answers.refuse(reason.as_str());
                    Ok(())
                }
                None => self.pass_on(line),
            },
        }
    }

    /// Passes on a line, with its line feed.
    #[tactic(auto, using(crate::proofs::Answered::passed_unanswered))]
    fn pass_on(&mut self, mut line: Vec<u8>) -> io::Result<()>
        requires { is_line_of self.old.script line.items ≡ true }
        ensures line { OnOk result (self.new.line ≡ text_line line.items) }
        ensures err { OnErr result (self.new.line ≡ self.old.line) }
        ensures answered { OnOk result (AddsAll (A.answered self.old.answers)
            (A.answered self.new.answers) (answers_to_line self.old.script line.items)) }
        ensures ended { self.new.is_ended ≡ self.old.is_ended }
        ensures script { self.new.script ≡ self.old.script }
        ensures typed { self.new.typed ≡ self.old.typed }
        ensures answers { self.new.answers ≡ self.old.answers }
        ensures reader { self.new.reader ≡ self.old.reader }
        ensures fault { self.new.fault ≡ self.old.fault }
    {
        line.push(b'\n')?;
        self.line = Unreturned::of(line);
        Ok(())
    }
}

impl<R: BufRead, A: Answers> Read for Session<R, A> {
    ghost remaining = { left_to_pass R.remaining };

    fn read(&mut self, octets: &mut [u8]) -> io::Result<usize>
        ensures bound { ReadsAtMost result octets.new }
        ensures bytes { ReadConsumes (left_to_pass R.remaining self.old)
            (left_to_pass R.remaining self.new) result octets.new }
        ensures answers { KeepsAnswers (all_answers R.remaining A.answered self.old)
            (all_answers R.remaining A.answered self.new) }
        ensures fault { MatchResult result (λ _. self.new.fault ≡ self.old.fault)
            (λ error. self.new.fault ≡ Some (error_kind error)) }
    {
        match self.fill() {
            Ok(()) => Ok(self.line.give(octets)),
            Err(error) => {
                self.fault = Some(error.kind());
                Err(error)
            }
        }
    }
}
