//! A side that executes a script, with the other side at the far end of a port.

ghost use Rattle.std.specs.Prelude.{◌≡◌, ◌+◌, ◌++◌, IfSome, OnOk};
ghost use Rattle.lapd_cli_script.specs.Script.{lines_of};
ghost use Rattle.lapd_sides.specs.Either.{side_of};
ghost use Rattle.lapd_cli_side_commands.specs.Clocks.{SideEndsAs, moment_at};
ghost use Rattle.lapd_cli_side_commands.specs.Served.{HasServed, devices, requests_of};

use crate::line_output::LineOutput;
use lapd_cli_script::{Command, LineFault, ScriptFault, walk};
use lapd_cli_side_lines::{
    LineStyle, SideLine, push_frame_of, put_refusal, put_refused, read_line,
};
use lapd_frame::read;
use lapd_port::{MOST_OCTETS, Port, PortFault, Sink, Source};
use lapd_sides::{Acts, EitherSide, Request, SideKind};
use std::alloc::Global;
use std::io::{self, Read, Write};

/// The last time of the clock, in milliseconds.
const LAST_MOMENT: u64 = 1_000_000_000_000_000;

/// A side with its clock, its port and its writer. It reuses its buffers for the output of a line.
#[derive(Drop)]
struct SideRunner<W, S, K> {
    alloc: Global,
    style: LineStyle,
    side: EitherSide,
    now: u64,
    acts: Acts,
    /// The line of the received frame.
    received: String,
    output: LineOutput,
    out: W,
    port: Port<S, K>,
    /// Why the port failed, if it did.
    fault: Option<PortFault>,
}

/// The result of running a script on a side, with its port and writer returned.
#[derive(Drop)]
pub struct SideRun<W, S, K> {
    /// Whether the script ran to its end.
    pub ended: Result<(), ScriptFault>,
    /// The port to the other side.
    pub port: Port<S, K>,
    /// The writer with the printed lines.
    pub out: W,
}

/// Executes a script on this side, from time 0 on.
///
/// # Errors
///
/// `BadLine` at the first line that is not valid for the side, `Device` if a read or a write fails,
/// `Memory` if an allocation fails, and `Port` if the port reports a fault other than the end of
/// its input.
pub(crate) fn run_side<R: Read, W: Write, S: Source, K: Sink>(
    alloc: Global,
    style: LineStyle,
    side: EitherSide,
    script: &mut R,
    out: W,
    port: Port<S, K>,
) -> SideRun<W, S, K>
    ensures ended { IfSome (R.remaining script.old) (λ octets.
        SideEndsAs (side_of side) result.ended (lines_of octets)) }
    ensures served { IfSome (R.remaining script.old) (λ octets. OnOk result.ended
        (HasServed side (requests_of (side_of side) (lines_of octets))
        (devices style (S.rest port.source) (K.written port.sink) (W.contents out))
        (devices style (S.rest result.port.source) (K.written result.port.sink)
        (W.contents result.out)))) }
{
    match Acts::new(alloc) {
        Ok(acts) => SideRunner::new(alloc, style, side, acts, out, port).run_script(script),
        Err(_) => {
            let ended = Err(ScriptFault::Memory);
            SideRun { ended, port, out }
        }
    }
}

impl<W: Write, S: Source, K: Sink> Command for SideRunner<W, S, K> {
    ghost use Rattle.lapd_sides.specs.Either.{side_of};
    ghost use Rattle.lapd_cli_side_commands.specs.Served.{Progress, HasReached, side_step};
    ghost use Rattle.lapd_cli_side_commands.specs.Runners.{work_of};

    ghost State = { Progress };

    ghost step = { side_step };

    ghost represents = { λ runner s. HasReached s (work_of S.rest K.written W.contents runner) };

    fn run<V: Write>(&mut self, line: &[u8], _out: &mut V) -> Result<(), LineFault> {
        let asked = read_line(self.alloc, self.side.side(), line)?;
        self.execute(asked)?;
        Ok(())
    }
}

impl<W: Write, S: Source, K: Sink> SideRunner<W, S, K> {
    ghost use Rattle.lapd_sides.specs.Either.{side_of};
    ghost use Rattle.std.specs.Prelude.{IsErr};
    ghost use Rattle.std.specs.Io.KnownBytes.{Appends};
    ghost use Rattle.lapd_port.specs.SocketText.{socket_text};
    ghost use Rattle.lapd_cli_side_commands.specs.LineOutputs.{sent_of, primitives_text_of, traced_of};
    ghost use Rattle.lapd_cli_side_lines.specs.SideTexts.{refusal_line};
    ghost use Rattle.lapd_cli_side_commands.specs.Served.{Asks, ExpiresAll, Ticks, LineDoes, TakesNow};
    ghost use Rattle.lapd_cli_side_commands.specs.Runners.{Between};
    ghost use Rattle.lapd_cli_side_commands.specs.Clocks.{Moves, moment_after};
    ghost use Rattle.lapd_cli_side_lines.specs.LineRequests.{IsGood, Read, request_of, line_request_of};

    /// The side at time 0, before it receives anything.
    fn new(
        alloc: Global,
        style: LineStyle,
        side: EitherSide,
        acts: Acts,
        out: W,
        port: Port<S, K>,
    ) -> SideRunner<W, S, K>
        ensures side { result.side ≡ side }
        ensures clock { result.now ≡ 0 }
        ensures style { result.style ≡ style }
        ensures out { result.out ≡ out }
        ensures port { result.port ≡ port }
    {
        SideRunner {
            alloc,
            style,
            side,
            now: 0,
            acts,
            received: String::new(alloc),
            output: LineOutput::new(alloc),
            out,
            port,
            fault: None,
        }
    }

    /// Executes a script from time 0 on, and returns the port and the writer.
    fn run_script<R: Read>(self, script: &mut R) -> SideRun<W, S, K>
        requires { self.now ≡ 0 }
        ensures ended { IfSome (R.remaining script.old) (λ octets.
            SideEndsAs (side_of self.side) result.ended (lines_of octets)) }
        ensures served { IfSome (R.remaining script.old) (λ octets. OnOk result.ended
            (HasServed self.side (requests_of (side_of self.side) (lines_of octets))
            (devices self.style (S.rest self.port.source) (K.written self.port.sink)
            (W.contents self.out))
            (devices self.style (S.rest result.port.source) (K.written result.port.sink)
            (W.contents result.out)))) }
    {
        let mut runner = self;
        let ended = runner.read_script(script);
        let SideRunner { out, port, .. } = runner;
        SideRun { ended, port, out }
    }

    /// Executes a script from time 0 on.
    fn read_script<R: Read>(&mut self, script: &mut R) -> Result<(), ScriptFault>
        requires { self.old.now ≡ 0 }
        ensures ended { IfSome (R.remaining script.old) (λ octets.
            SideEndsAs (side_of self.old.side) result (lines_of octets)) }
        ensures served { IfSome (R.remaining script.old) (λ octets. OnOk result
            (HasServed self.old.side (requests_of (side_of self.old.side) (lines_of octets))
            (devices self.old.style (S.rest self.old.port.source) (K.written self.old.port.sink)
            (W.contents self.old.out))
            (devices self.old.style (S.rest self.new.port.source) (K.written self.new.port.sink)
            (W.contents self.new.out)))) }
    {
        let walked = walk(self.alloc, self, script, &mut io::sink());
        match self.fault {
            Some(fault) => Err(ScriptFault::Port(fault)),
            None => walked,
        }
    }

    /// Executes a line's request.
    fn execute(&mut self, line: SideLine) -> Result<(), LineFault>
        ensures side { side_of self.new.side ≡ side_of self.old.side }
        ensures clock { Moves (moment_after self.old.now (request_of line)) result self.new.now }
        ensures does { OnOk result (Between S.rest K.written W.contents self.old self.new
            (LineDoes (request_of line))) }
    {
        match line {
            SideLine::Read => self.read(),
            SideLine::Tick(ms) => self.tick(ms),
            SideLine::Ask(request) => self.ask(request),
        }
    }

    /// Reads the next frame from the port and processes it, or prints that the input has ended.
    fn read(&mut self) -> Result<(), LineFault>
        ensures side { side_of self.new.side ≡ side_of self.old.side }
        ensures clock { self.new.now ≡ self.old.now }
        ensures good { IsGood result }
        ensures does { OnOk result (Between S.rest K.written W.contents self.old self.new
            (LineDoes Read)) }
    {
        let mut frame = [0; MOST_OCTETS];
        match self.port.read_frame(&mut frame) {
            Ok(count) => self.receive(&frame[..count]),
            Err(PortFault::End) => put_refused(self.alloc, self.style, "S1 End", &mut self.out),
            Err(fault) => self.fail(fault),
        }
    }

    /// Prints a received frame, and passes it to the side.
    fn receive(&mut self, octets: &[u8]) -> Result<(), LineFault>
        ensures side { side_of self.new.side ≡ side_of self.old.side }
        ensures clock { self.new.now ≡ self.old.now }
        ensures good { IsGood result }
        ensures takes { OnOk result (Between S.rest K.written W.contents self.old self.new
            (λ a b. TakesNow octets.now a.now a.side b.side a.around b.around)) }
        ensures source { self.new.port.source ≡ self.old.port.source }
    {
        let side = self.side.side();
        let from = side.other();
        let frame = read(octets, from);
        self.received.clear();
        let Ok(()) = push_frame_of(
            self.alloc,
            &mut self.received,
            self.style,
            from,
            octets,
            &frame,
        ) else {
            return Err(LineFault::Memory);
        };
        let Ok(()) = self.side.take(octets, self.now, &mut self.acts) else {
            return Err(LineFault::Memory);
        };
        self.output.clear();
        self.output.gather(self.style, side, &self.acts)?;
        self.out.write_all(self.received.as_bytes())?;
        self.forward()
    }

    /// Advances the clock, and expires all timers that are then due.
    fn tick(&mut self, ms: u64) -> Result<(), LineFault>
        ensures side { side_of self.new.side ≡ side_of self.old.side }
        ensures clock { Moves (moment_at (self.old.now + ms)) result self.new.now }
        ensures does { OnOk result (Between S.rest K.written W.contents self.old self.new
            (Ticks ms)) }
    {
        match moment_behind(self.now, ms) {
            Some(now) => {
                self.now = now;
                self.expire_due()
            }
            None => Err(LineFault::Bad),
        }
    }

    /// Expires all due timers, one after another. No timer started at this moment is due at it,
    /// since each runs for at least a millisecond. The bound of the loop is never reached; it only
    /// proves termination.
    fn expire_due(&mut self) -> Result<(), LineFault>
        ensures side { side_of self.new.side ≡ side_of self.old.side }
        ensures clock { self.new.now ≡ self.old.now }
        ensures good { IsGood result }
        ensures does { OnOk result (Between S.rest K.written W.contents self.old self.new
            (λ a b. ExpiresAll a.now a.side b.side a.around b.around)) }
        ensures source { self.new.port.source ≡ self.old.port.source }
    {
        let side = self.side.side();
        self.output.clear();
        for _tick in 0..u64::MAX {
            if !self.side.tick(self.now, &mut self.acts) {
                return self.forward();
            }
            self.output.gather(self.style, side, &self.acts)?;
        }
        Err(LineFault::Device)
    }

    /// Makes a request of the side.
    fn ask(&mut self, request: Request) -> Result<(), LineFault>
        ensures side { side_of self.new.side ≡ side_of self.old.side }
        ensures clock { self.new.now ≡ self.old.now }
        ensures good { IsGood result }
        ensures does { OnOk result (Between S.rest K.written W.contents self.old self.new
            (Asks (line_request_of request))) }
    {
        let side = self.side.side();
        match self.side.request(request, self.now, &mut self.acts) {
            Ok(()) => {
                self.output.clear();
                self.output.gather(self.style, side, &self.acts)?;
                self.forward()
            }
            Err(fault) => self.refuse(fault.kind),
        }
    }

    /// Prints why a request is refused.
    fn refuse(&mut self, kind: SideKind) -> Result<(), LineFault>
        ensures side { side_of self.new.side ≡ side_of self.old.side }
        ensures clock { self.new.now ≡ self.old.now }
        ensures style { self.new.style ≡ self.old.style }
        ensures good { IsGood result }
        ensures own { self.new.side ≡ self.old.side }
        ensures port { self.new.port ≡ self.old.port }
        ensures printed { OnOk result (Appends (W.contents self.old.out) (W.contents self.new.out)
            (refusal_line self.old.style kind)) }
    {
        match kind {
            SideKind::Memory => Err(LineFault::Memory),
            SideKind::NoLink | SideKind::Link(_) => {
                put_refusal(self.alloc, self.style, kind, &mut self.out)
            }
        }
    }

    /// Sends and prints the output of the line.
    fn forward(&mut self) -> Result<(), LineFault>
        ensures side { side_of self.new.side ≡ side_of self.old.side }
        ensures clock { self.new.now ≡ self.old.now }
        ensures style { self.new.style ≡ self.old.style }
        ensures good { IsGood result }
        ensures own { self.new.side ≡ self.old.side }
        ensures sent { OnOk result (Appends (K.written self.old.port.sink)
            (K.written self.new.port.sink) (socket_text (sent_of self.old.output))) }
        ensures printed { OnOk result (Appends (W.contents self.old.out) (W.contents self.new.out)
            (traced_of self.old.output ++ primitives_text_of self.old.output)) }
        ensures source { self.new.port.source ≡ self.old.port.source }
    {
        match self.output.forward(&mut self.port, &mut self.out)? {
            Some(fault) => self.fail(fault),
            None => Ok(()),
        }
    }

    /// Ends the script because the port failed, and flushes what was printed.
    fn fail(&mut self, fault: PortFault) -> Result<(), LineFault>
        ensures side { side_of self.new.side ≡ side_of self.old.side }
        ensures clock { self.new.now ≡ self.old.now }
        ensures style { self.new.style ≡ self.old.style }
        ensures good { IsGood result }
        ensures own { self.new.side ≡ self.old.side }
        ensures port { self.new.port ≡ self.old.port }
        ensures stops { IsErr result }
    {
        self.out.flush()?;
        self.fault = Some(fault);
        Err(LineFault::Device)
    }
}

/// The time `ms` milliseconds after `now`; `None` if it is past the last time.
#[tactic(auto, using(crate::proofs::Clocks::too_late, crate::proofs::Clocks::in_time))]
fn moment_behind(now: u64, ms: u64) -> Option<u64>
    ensures { result ≡ moment_at (now + ms) }
{
    let moment = now.checked_add(ms)?;
    if moment <= LAST_MOMENT {
        Some(moment)
    } else {
        None
    }
}
