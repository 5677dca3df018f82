//! The input of a side that runs on the real clock: a script, or lines that a person types.

ghost use Rattle.std.specs.Prelude.{◌≡◌, ℕ, ◌∷◌, [], List, Option, None, true, IfOk, IfSome, OnOk};
ghost use Rattle.lapd_cli_script.specs.Script.{lines_of};
ghost use Rattle.lapd_cli_script.specs.declared.script.ScriptFault.TheVariants.{Memory};
ghost use Rattle.lapd_cli_live.specs.declared.input.LiveStop.TheVariants.{Script};
ghost use Rattle.lapd_cli_live.specs.Log.{Between};
ghost use Rattle.lapd_cli_live.specs.Sessions.{GreetedAndEnds, Greets, AddsMessages, Helps, LineEnds, LinesEnd, LinesType, ReadsPart, Refuses, ScriptEnds, ServesOn, SessionEnds, Delivered, TypedEnds, Types, TypesLast, session_of, stop_of};
ghost use Rattle.lapd_cli_live.specs.declared.input.TypedAction.TheVariants.{Execute};
ghost use Rattle.lapd_cli_live.specs.Typed.{typed_action_of};

use crate::executed::Executed;
use crate::fault::LiveFault;
use crate::live_side::LiveSide;
use crate::service::EndReason;
use crate::typed_lines::TypedLines;
use lapd_cli_script::{LineFault, ScriptFault, is_passed_over};
use lapd_cli_wire::{Lines, Outside};
use std::alloc::{AllocError, Global};
use std::io::{ErrorKind, Read, Write};

/// The most octets of one read.
const PART: usize = 8192;

/// Why the input stopped before its end.
#[derive(Clone, Copy, PartialEq, Eq)]
pub enum LiveStop {
    /// For the reasons of any script.
    Script(ScriptFault),
    /// An expected line was not printed in time.
    Unmet,
}

impl From<LiveFault> for LiveStop {
    ghost from_gives = { λ fault stop. stop ≡ stop_of fault };

    fn from(fault: LiveFault) -> LiveStop {
        LiveStop::Script(match fault {
            LiveFault::Port(fault) => ScriptFault::Port(fault),
            LiveFault::Line(LineFault::Memory) => ScriptFault::Memory,
            LiveFault::Line(LineFault::Bad | LineFault::Device) => ScriptFault::Device,
        })
    }
}

impl From<AllocError> for LiveStop {
    ghost from_gives = { λ _ stop. stop ≡ Script Memory };

    fn from(_error: AllocError) -> LiveStop {
        LiveStop::Script(ScriptFault::Memory)
    }
}

/// Messages to the person at a terminal, beside the printed lines. No call may block.
///
/// An implementation that records its messages returns them by `reported`. One whose rule for tidying
/// lines is known states it by `tidy`. Clauses about these hold for such an implementation, and all
/// others for every implementation.
pub trait Console {
    /// The person's tidied form of a line, if it is known.
    ghost tidy: { List ℕ → Option (List ℕ) } = { λ _. None };

    /// The messages so far, if they are recorded.
    ghost reported: { Self → Option (List Delivered) } = { λ _. None };

    /// Says that lines can be typed.
    fn greet(&mut self)
        ensures { AddsMessages (reported self.old) (reported self.new) (Greets ∷ []) };

    /// Returns the line without spaces around it, and without `0x`, spaces and colons inside
    /// hexadecimal digits.
    ///
    /// # Errors
    ///
    /// `AllocError` if an allocation fails.
    fn tidied(&self, line: &[u8]) -> Result<Vec<u8>, AllocError>
        ensures { IfOk result (λ text. IfSome (tidy line.now) (λ is. text.items ≡ is)) };

    /// Says why the line is not executed: it is not a line of the side.
    fn refuse_line(&mut self, line: &[u8])
        ensures { AddsMessages (reported self.old) (reported self.new) (Refuses line.now ∷ []) };

    /// Lists the lines of the side.
    fn help(&mut self)
        ensures { AddsMessages (reported self.old) (reported self.new) (Helps ∷ []) };
}

/// How a typed line is handled.
#[derive(Clone, Copy)]
pub(crate) enum TypedAction {
    /// Skip it: it is empty or a comment.
    Pass,
    /// List the lines of the side.
    Help,
    /// End the session.
    Quit,
    /// Execute it, like a line of a script.
    Execute,
}

/// Runs a side on a script, also while it waits for the next line. It executes each line once and
/// in order, and skips empty lines and comments. The script stops at the first line that is not a
/// line of the side, and at an `expect` whose line is not printed in time. With `serve_on` the side
/// runs on after the script, until the connection is closed. Returns the side.
///
/// If the octets of the script are known, as in memory, `Ok` means that all its lines were
/// executed. Each `expect` has then found a line that begins with its words, printed in time, or
/// before, while a line of input was awaited. Each `impair` has set exactly what it names, if the
/// surroundings know how their frames are impaired ([`Outside`]).
///
/// # Errors
///
/// `BadLine` at the first line that is not a line of the side, `Unmet`, `Device`, `Memory` and
/// `Port`.
pub fn live_script<R: Read, O: Outside, W: Write>(
    alloc: Global,
    mut live: LiveSide<O, W>,
    script: &mut R,
    serve_on: bool,
) -> (Result<(), LiveStop>, LiveSide<O, W>)
    ensures { IfSome (R.remaining script.old)
        (λ octets. Between O.io_events O.impaired_by W.contents live result.1
        (ScriptEnds serve_on result.0 (lines_of octets))) }
{
    let ended = run_script(alloc, &mut live, script, serve_on);
    (ended, live)
}

/// Runs a side on typed lines, until the connection is closed or the lines end. It executes each
/// line once it is complete, in order, like a line of a script. It reports a line that is not a
/// line of the side, and continues, as it does after an `expect` in vain. `help` lists the lines,
/// and `quit` and `exit` end the session. With `serve_on` the side runs on after the last line,
/// until the connection is closed. Returns the side.
///
/// If the octets of the lines are known, as in memory, `Ok` means that all lines were executed, or
/// those before `quit`, or those that were typed before the connection was closed.
///
/// # Errors
///
/// `Device` if a read of the lines or a write fails, `Memory` and `Port`.
pub fn live_session<R: Read, P: Console, O: Outside, W: Write>(
    alloc: Global,
    mut live: LiveSide<O, W>,
    lines: &mut R,
    console: &mut P,
    serve_on: bool,
) -> (Result<(), LiveStop>, LiveSide<O, W>)
    ensures { IfSome (R.remaining lines.old) (λ octets. OnOk result.0
        (GreetedAndEnds P.tidy serve_on (lines_of octets)
        (session_of O.io_events O.impaired_by W.contents P.reported live console.old)
        (session_of O.io_events O.impaired_by W.contents P.reported result.1 console.new))) }
{
    console.greet();
    match converse(alloc, &mut live, lines, console, serve_on) {
        Ok(()) => (Ok(()), live),
        Err(fault) => (Err(LiveStop::from(fault)), live),
    }
}

/// Runs a side on a script.
fn run_script<R: Read, O: Outside, W: Write>(
    alloc: Global,
    live: &mut LiveSide<O, W>,
    script: &mut R,
    serve_on: bool,
) -> Result<(), LiveStop>
    ensures { IfSome (R.remaining script.old) (λ octets.
        Between O.io_events O.impaired_by W.contents live.old live.new
        (ScriptEnds serve_on result (lines_of octets))) }
{
    let mut lines = TypedLines::new(alloc);
    let mut number: u64 = 0;
    for _read in 0..u64::MAX {
        // The script continues even if the connection is closed.
        live.await_input()?;
        if !read_part(script, &mut lines)? {
            run_script_line(live, lines.last_line(), &mut number)?;
            serve_to_end(live, serve_on)?;
            return Ok(());
        }
        run_script_lines(live, &mut lines, &mut number)?;
    }
    Err(LiveStop::Script(ScriptFault::Device))
}

/// Executes the complete lines of a script.
fn run_script_lines<O: Outside, W: Write>(
    live: &mut LiveSide<O, W>,
    lines: &mut TypedLines,
    number: &mut u64,
) -> Result<(), LiveStop>
    ensures { Between O.io_events O.impaired_by W.contents live.old live.new
        (LinesEnd result lines.old.text.items lines.new.text.items number.old number.new) }
{
    for _line in 0..u64::MAX {
        let Some(line) = lines.next_line()? else {
            return Ok(());
        };
        run_script_line(live, line.as_slice(), number)?;
    }
    Err(LiveStop::Script(ScriptFault::Device))
}

/// Counts a line of a script, and executes it unless it is skipped.
fn run_script_line<O: Outside, W: Write>(
    live: &mut LiveSide<O, W>,
    line: &[u8],
    number: &mut u64,
) -> Result<(), LiveStop>
    ensures { Between O.io_events O.impaired_by W.contents live.old live.new
        (LineEnds result line.now number.old number.new) }
{
    let Some(this) = number.checked_add(1) else {
        return Err(LiveStop::Script(ScriptFault::Device));
    };
    *number = this;
    if is_passed_over(line) {
        return Ok(());
    }
    match live.execute_line(line, Lines::Ignored)? {
        Executed::Done => Ok(()),
        Executed::Bad => Err(LiveStop::Script(ScriptFault::BadLine(this))),
        Executed::Unmet => Err(LiveStop::Unmet),
    }
}

/// Runs a side on typed lines.
fn converse<R: Read, P: Console, O: Outside, W: Write>(
    alloc: Global,
    live: &mut LiveSide<O, W>,
    lines: &mut R,
    console: &mut P,
    serve_on: bool,
) -> Result<(), LiveFault>
    ensures { IfSome (R.remaining lines.old) (λ octets. OnOk result
        (SessionEnds P.tidy serve_on (lines_of octets)
        (session_of O.io_events O.impaired_by W.contents P.reported live.old console.old)
        (session_of O.io_events O.impaired_by W.contents P.reported live.new console.new))) }
{
    let mut typed = TypedLines::new(alloc);
    for _read in 0..u64::MAX {
        if let EndReason::Closed = live.await_input()? {
            return Ok(());
        }
        if !read_part(lines, &mut typed)? {
            if !run_last(live, typed.last_line(), console)? {
                return Ok(());
            }
            return serve_to_end(live, serve_on);
        }
        if !run_typed_lines(live, &mut typed, console)? {
            return Ok(());
        }
    }
    Err(LiveFault::Line(LineFault::Device))
}

/// Executes the complete typed lines. Returns `false` if one of them ends the session.
fn run_typed_lines<P: Console, O: Outside, W: Write>(
    live: &mut LiveSide<O, W>,
    typed: &mut TypedLines,
    console: &mut P,
) -> Result<bool, LiveFault>
    ensures { IfOk result (λ goes_on.
        LinesType P.tidy goes_on typed.old.text.items typed.new.text.items
        (session_of O.io_events O.impaired_by W.contents P.reported live.old console.old)
        (session_of O.io_events O.impaired_by W.contents P.reported live.new console.new)) }
{
    for _line in 0..u64::MAX {
        let Some(line) = typed.next_line()? else {
            return Ok(true);
        };
        if !run_typed(live, line.as_slice(), console)? {
            return Ok(false);
        }
    }
    Err(LiveFault::Line(LineFault::Device))
}

/// Executes the last line, if it lacks its line feed. Returns `false` if it ends the session.
fn run_last<P: Console, O: Outside, W: Write>(
    live: &mut LiveSide<O, W>,
    line: &[u8],
    console: &mut P,
) -> Result<bool, LiveFault>
    ensures { IfOk result (λ goes_on. TypesLast P.tidy line.now goes_on
        (session_of O.io_events O.impaired_by W.contents P.reported live.old console.old)
        (session_of O.io_events O.impaired_by W.contents P.reported live.new console.new)) }
{
    match line {
        [] => Ok(true),
        [..] => run_typed(live, line, console),
    }
}

/// Executes a typed line. Returns `false` if it ends the session.
fn run_typed<P: Console, O: Outside, W: Write>(
    live: &mut LiveSide<O, W>,
    line: &[u8],
    console: &mut P,
) -> Result<bool, LiveFault>
    ensures { IfOk result (λ goes_on. Types P.tidy line.now goes_on
        (session_of O.io_events O.impaired_by W.contents P.reported live.old console.old)
        (session_of O.io_events O.impaired_by W.contents P.reported live.new console.new)) }
{
    let line = console.tidied(line)?;
    let line = line.as_slice();
    match typed_action(line) {
        TypedAction::Pass => Ok(true),
        TypedAction::Help => {
            console.help();
            Ok(true)
        }
        TypedAction::Quit => Ok(false),
        TypedAction::Execute => {
            obey_typed(live, line, console)?;
            Ok(true)
        }
    }
}

/// How a line is handled.
pub(crate) fn typed_action(line: &[u8]) -> TypedAction
    ensures { result ≡ typed_action_of line.now }
{
    if is_passed_over(line) {
        TypedAction::Pass
    } else if line == b"help".as_slice() {
        TypedAction::Help
    } else if line == b"quit".as_slice() || line == b"exit".as_slice() {
        TypedAction::Quit
    } else {
        TypedAction::Execute
    }
}

/// Executes a line of a console, or reports why it is not a line of the side.
fn obey_typed<P: Console, O: Outside, W: Write>(
    live: &mut LiveSide<O, W>,
    line: &[u8],
    console: &mut P,
) -> Result<(), LiveFault>
    ensures { OnOk result (TypedEnds Execute line.now true
        (session_of O.io_events O.impaired_by W.contents P.reported live.old console.old)
        (session_of O.io_events O.impaired_by W.contents P.reported live.new console.new)) }
{
    match live.execute_line(line, Lines::Awaited)? {
        Executed::Bad => {
            console.refuse_line(line);
            Ok(())
        }
        Executed::Done | Executed::Unmet => Ok(()),
    }
}

/// Runs the side until the connection is closed, if `serve_on` is set.
fn serve_to_end<O: Outside, W: Write>(
    live: &mut LiveSide<O, W>,
    serve_on: bool,
) -> Result<(), LiveFault>
    ensures { OnOk result
        (Between O.io_events O.impaired_by W.contents live.old live.new (ServesOn serve_on)) }
{
    if serve_on {
        return live.run(None, Lines::Ignored);
    }
    Ok(())
}

/// Reads lines once. Returns `false` if they have ended.
fn read_part<R: Read>(lines: &mut R, read: &mut TypedLines) -> Result<bool, LiveFault>
    ensures { IfOk result (λ more. ReadsPart more (R.remaining lines.old) (R.remaining lines.new)
        read.old.text.items read.new.text.items) }
{
    let mut part = [0; PART];
    match lines.read(&mut part) {
        Ok(0) => Ok(false),
        Ok(count) => {
            read.push(&part[..count])?;
            Ok(true)
        }
        Err(error) if error.kind() == ErrorKind::Interrupted => Ok(true),
        Err(error) => Err(LiveFault::from(error)),
    }
}
