//! The lines of input of a side that runs on the real clock, and how each is executed.

ghost use Rattle.std.specs.Prelude.{◌≡◌, IfOk, OnOk};
ghost use Rattle.lapd_cli_live.specs.LineDone.{is_expect as is_expect_line};

use crate::executed::Executed;
use crate::fault::LiveFault;
use crate::live_side::LiveSide;
use crate::service::{EndReason, Service, Until};
use lapd_cli_live_text::{
    LiveLine, awaited_line, awaited_text, push_link, push_management, read_live_line,
};
use lapd_cli_script::LineFault;
use lapd_cli_wire::{Impairment, Lines, Outside};
use lapd_sides::{EitherSide, LinkId, SideKind, Tei};
use std::io::Write;

impl<O: Outside, W: Write> LiveSide<O, W> {
    ghost use Rattle.lapd_cli_live.specs.Log.{Between};
    ghost use Rattle.lapd_cli_live.specs.StateLines.{PutsManagement, PutsState, StateEach, StatesAll, StatesCounts, StatesLink};
    ghost use Rattle.lapd_cli_live.specs.LineDone.{ExpectDone, FindsLine, HasOwnTei, begun, impaired_as};
    ghost use Rattle.lapd_cli_live.specs.Sessions.{AwaitsInput, ExecutesAs, RequestEnds};
    ghost use Rattle.lapd_cli_live.specs.WaitingLines.{Expects, Reads, Runs};

    /// Executes a line of input, without its line feed, and returns what became of it. If `lines`
    /// is `Awaited`, the next line of input ends the waits of this one. Before a request is
    /// executed, all frames that have arrived are processed, and then all timers that are due
    /// expire.
    ///
    /// # Errors
    ///
    /// `Line(Device)`, `Line(Memory)` and `Port`.
    pub fn execute_line(&mut self, line: &[u8], lines: Lines) -> Result<Executed, LiveFault>
        ensures { IfOk result (λ executed.
            Between O.io_events O.impaired_by W.contents self.old self.new
            (ExecutesAs executed line.now lines)) }
    {
        let side = self.side.side();
        let own = self.own_tei();
        let line = match read_live_line(self.alloc, side, own, line) {
            Ok(line) => line,
            Err(LineFault::Bad) => return Ok(Executed::Bad),
            Err(fault) => return Err(LiveFault::Line(fault)),
        };
        self.begin_line(is_expect(&line));
        match self.run_line(line, lines) {
            Ok(executed) => {
                self.printer.flush()?;
                Ok(executed)
            }
            Err(fault) => {
                let _ = self.printer.flush();
                Err(fault)
            }
        }
    }

    /// Begins a line of input. Unless it is an `expect`, the kept lines are forgotten.
    fn begin_line(&mut self, is_expect: bool)
        ensures { Between O.io_events O.impaired_by W.contents self.old self.new
            (λ a b. b ≡ begun is_expect a) }
    {
        if is_expect {
            return;
        }
        self.printer.forget_unseen();
    }

    /// Executes a request. Returns `Unmet` if an expected line was not printed in time, else
    /// `Done`.
    fn run_line(&mut self, line: LiveLine<'_>, lines: Lines) -> Result<Executed, LiveFault>
        ensures { IfOk result (λ executed.
            Between O.io_events O.impaired_by W.contents self.old self.new
            (RequestEnds executed line.entry lines)) }
    {
        match line {
            LiveLine::Read(ms) => self.read(ms, lines)?,
            LiveLine::Run(ms) => self.run(ms, lines)?,
            LiveLine::Expect(words, ms) => {
                if !self.expect(words, ms, lines)? {
                    return Ok(Executed::Unmet);
                }
            }
            LiveLine::State(Some(id)) => self.put_link(&id)?,
            LiveLine::State(None) => self.put_links()?,
            LiveLine::Stats => self.put_stats()?,
            LiveLine::Ask(request) => self.ask(request)?,
            LiveLine::Impair(impairment) => self.impair(impairment),
        }
        Ok(Executed::Done)
    }

    /// The TEI of the links that a line of the user side names: the terminal's, or the group TEI
    /// while it has none. A line of the network side names the TEI itself.
    fn own_tei(&self) -> Tei
        ensures { HasOwnTei self.now.side result }
    {
        match &self.side {
            EitherSide::User(side) => side.terminal().tei().unwrap_or(Tei::group()),
            EitherSide::Network(_) => Tei::group(),
        }
    }

    /// Serves the side until a line of input can be read or the connection is closed.
    pub(crate) fn await_input(&mut self) -> Result<EndReason, LiveFault>
        ensures { IfOk result (λ end_reason.
            Between O.io_events O.impaired_by W.contents self.old self.new
            (AwaitsInput end_reason)) }
    {
        self.printer.retain_unseen();
        self.serve(Service {
            end: None,
            until: Until::NoEvent,
            lines: Lines::Awaited,
        })
    }

    /// Serves the side for `ms` milliseconds, or until the connection is closed.
    pub(crate) fn run(&mut self, ms: Option<u64>, lines: Lines) -> Result<(), LiveFault>
        ensures { OnOk result
            (Between O.io_events O.impaired_by W.contents self.old self.new (Runs ms lines)) }
    {
        let end = self.end_after(ms)?;
        self.serve(Service {
            end,
            until: Until::NoEvent,
            lines,
        })?;
        Ok(())
    }

    /// Serves the side until it has processed the next frame, but for at most `ms` milliseconds if
    /// given.
    fn read(&mut self, ms: Option<u64>, lines: Lines) -> Result<(), LiveFault>
        ensures { OnOk result
            (Between O.io_events O.impaired_by W.contents self.old self.new (Reads ms lines)) }
    {
        let end = self.end_after(ms)?;
        let service = Service {
            end,
            until: Until::Frame,
            lines,
        };
        match self.serve(service)? {
            EndReason::Closed => self.printer.put_named("refused", "S1 End"),
            EndReason::End => self.printer.put_words("nothing"),
            EndReason::Frame | EndReason::Matched | EndReason::Line => Ok(()),
        }
    }

    /// Looks for a printed line that begins with these words, of which the user side may leave out
    /// the TEI, for `ms` milliseconds. Returns whether there was one, and prints the words if not.
    fn expect(&mut self, words: &[u8], ms: u64, lines: Lines) -> Result<bool, LiveFault>
        ensures { IfOk result (λ matched.
            Between O.io_events O.impaired_by W.contents self.old self.new
            (ExpectDone words.now ms lines matched)) }
    {
        let line = awaited_line(self.alloc, self.side.side(), words)?;
        if self.find_line(line.as_slice(), ms, lines)? {
            return Ok(true);
        }
        let text = awaited_text(self.alloc, words)?;
        self.printer.put_named("expected", text.as_str())?;
        Ok(false)
    }

    /// Looks for a printed line that begins with these words: first among the kept lines, then for
    /// `ms` milliseconds among those that are printed while the side is served. Returns whether
    /// there was one.
    fn find_line(&mut self, words: &[u8], ms: u64, lines: Lines) -> Result<bool, LiveFault>
        ensures { IfOk result (λ matched.
            Between O.io_events O.impaired_by W.contents self.old self.new
            (FindsLine words.now ms lines matched)) }
    {
        if self.printer.take_unseen(words) {
            return Ok(true);
        }
        self.await_words(words, ms, lines)
    }

    /// Serves the side until it prints a line that begins with these words, but for at most `ms`
    /// milliseconds. Returns whether it printed one.
    fn await_words(&mut self, words: &[u8], ms: u64, lines: Lines) -> Result<bool, LiveFault>
        ensures { IfOk result (λ matched.
            Between O.io_events O.impaired_by W.contents self.old self.new
            (Expects words.now ms lines matched)) }
    {
        let end = self.end_after(Some(ms))?;
        self.printer.await_line(words)?;
        self.serve(Service {
            end,
            until: Until::Matched,
            lines,
        })?;
        Ok(self.printer.end_wait())
    }

    /// Loses and delays frames that are sent so from now on.
    fn impair(&mut self, impairment: Impairment)
        ensures { Between O.io_events O.impaired_by W.contents self.old self.new
            (λ a b. b ≡ impaired_as impairment a) }
    {
        self.outside.impair(impairment);
    }

    /// Prints the statistics.
    fn put_stats(&mut self) -> Result<(), LiveFault>
        ensures { OnOk result
            (Between O.io_events O.impaired_by W.contents self.old self.new StatesCounts) }
    {
        self.catch_up()?;
        let discarded = self.side.discarded();
        self.printer.put_stats(discarded)
    }

    /// Prints the state of a link, or that the link does not exist.
    fn put_link(&mut self, id: &LinkId) -> Result<(), LiveFault>
        ensures { OnOk result
            (Between O.io_events O.impaired_by W.contents self.old self.new (StatesLink id.now)) }
    {
        self.catch_up()?;
        if self.put_state(id)? {
            return Ok(());
        }
        self.printer.put_refused(SideKind::NoLink)
    }

    /// Prints the state of each link, and the timer of TEI management if one runs.
    fn put_links(&mut self) -> Result<(), LiveFault>
        ensures { OnOk result
            (Between O.io_events O.impaired_by W.contents self.old self.new StatesAll) }
    {
        self.catch_up()?;
        let ids = self.side.table().ids()?;
        self.put_each(ids.as_slice())?;
        self.put_management()
    }

    /// Prints the state of each of these links that exists.
    fn put_each(&mut self, ids: &[LinkId]) -> Result<(), LiveFault>
        ensures { OnOk result
            (Between O.io_events O.impaired_by W.contents self.old self.new (StateEach ids.now)) }
    {
        for id in ids {
            self.put_state(id)?;
        }
        Ok(())
    }

    /// Prints the time left of TEI management's timer, if one runs.
    fn put_management(&mut self) -> Result<(), LiveFault>
        ensures { OnOk result
            (Between O.io_events O.impaired_by W.contents self.old self.new PutsManagement) }
    {
        let Some(timers) = self.side.timers(None) else {
            return Ok(());
        };
        let mut words = String::new(self.alloc);
        let now = self.printer.moment();
        push_management(timers, now, &mut words)?;
        let words = words.as_str();
        if words.is_empty() {
            return Ok(());
        }
        self.printer.put_words(words)
    }

    /// Prints the state of a link at the printer's moment. Returns `false` if the link does not
    /// exist.
    fn put_state(&mut self, id: &LinkId) -> Result<bool, LiveFault>
        ensures { IfOk result (λ matched.
            Between O.io_events O.impaired_by W.contents self.old self.new
            (PutsState id.now matched)) }
    {
        let Some(link) = self.side.table().link(*id) else {
            return Ok(false);
        };
        let timers = self.side.timers(Some(*id));
        let mut words = String::new(self.alloc);
        let now = self.printer.moment();
        push_link(id, link, timers, now, &mut words)?;
        self.printer.put_words(words.as_str())?;
        Ok(true)
    }
}

/// Whether a line is an `expect`.
fn is_expect(line: &LiveLine<'_>) -> bool
    ensures { result ≡ is_expect_line line.now }
{
    matches!(line, LiveLine::Expect(..))
}
