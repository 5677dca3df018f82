//! The command `loop`: two ends whose frames pass through a port.

ghost use Rattle.std.specs.Prelude.{◌≡◌, IfSome, OnOk, drop};
ghost use Rattle.lapd_cli_script.specs.Script.{lines_of};
ghost use Rattle.lapd_cli_link_commands.specs.Crossing.{HaveCrossed};
ghost use Rattle.lapd_cli_link_commands.specs.Loop.{LoopEndsAs, frames_put};
ghost use Rattle.lapd_pair_laws.specs.World.{new_world};

use crate::Mover;
use crate::crossing::{FrameOctets, cross_all};
use lapd_cli_script::{Command, LineFault, ScriptFault, walk};
use lapd_frame::Side;
use lapd_link::Params;
use lapd_port::{Port, Sink, Source};
use std::alloc::Global;
use std::io::{Read, Write};

/// Two ends with the line between them, and the port that its frames pass through.
struct Looper<S, K> {
    mover: Mover,
    port: Port<S, K>,
}

/// Executes a script of moves and prints the same as [`crate::pair`], but without the lines
/// `settle` and `recover`. Each frame that a line of the script puts on the line is sent through
/// the port, and must be received from it unchanged, before the next line is executed. The port is
/// returned.
///
/// # Errors
///
/// As for [`crate::pair`], and `Device` if the port reports a fault or another frame is received.
/// The output of that line has been written.
pub fn loop_over<R: Read, W: Write, S: Source, K: Sink>(
    alloc: Global,
    script: &mut R,
    out: &mut W,
    user: Params,
    network: Params,
    port: Port<S, K>,
) -> (Result<(), ScriptFault>, Port<S, K>)
    ensures text { IfSome (R.remaining script.old)
        (λ octets. LoopEndsAs (new_world user network) result.0
        (lines_of octets) (W.contents out.old) (W.contents out.new)) }
    ensures crossed { IfSome (R.remaining script.old)
        (λ octets. OnOk result.0 (HaveCrossed (S.rest port.source) (S.rest result.1.source)
        (K.written port.sink) (K.written result.1.sink)
        (frames_put (new_world user network) (lines_of octets)))) }
{
    let mover = match Mover::new(alloc, user, network) {
        Ok(mover) => mover,
        Err(_) => return (Err(ScriptFault::Memory), port),
    };
    let mut looper = Looper { mover, port };
    let ended = walk(alloc, &mut looper, script, out);
    let Looper { mover, port } = looper;
    match ended {
        Ok(()) => (mover.close(out), port),
        Err(fault) => (Err(fault), port),
    }
}

/// The number of frames on the line in each direction.
#[derive(Clone, Copy)]
struct OnLine {
    to_user: usize,
    to_network: usize,
}

impl<S: Source, K: Sink> Command for Looper<S, K> {
    ghost use Rattle.lapd_cli_link_commands.specs.LoopState.{RepresentsLoop, LoopState, loop_step};

    ghost State = { LoopState };

    ghost step = { loop_step };

    ghost represents = { λ looper s. RepresentsLoop looper.mover (S.rest looper.port.source)
        (K.written looper.port.sink) s };

    fn run<W: Write>(&mut self, line: &[u8], out: &mut W) -> Result<(), LineFault> {
        let before = self.on_line();
        self.mover.run(line, out)?;
        let Ok(()) = self.cross(before) else {
            // `walk` does not flush after a device fault.
            out.flush()?;
            return Err(LineFault::Device);
        };
        Ok(())
    }
}

impl<S: Source, K: Sink> Looper<S, K> {
    ghost use Rattle.std.specs.Prelude.{◌++◌, length, IsOkUnless};
    ghost use Rattle.lapd_cli_link_commands.specs.RepresentsWorld.{IsMover};
    ghost use Rattle.lapd_frame.specs.declared.Side.TheVariants.{Network, User};
    ghost use Rattle.lapd_cli_link_commands.specs.Loop.{line_to};
    ghost use Rattle.lapd_pair_laws.specs.World.{World};

    /// The number of frames now on the line.
    fn on_line(&self) -> OnLine
        ensures to_user { (w : World) → IsMover self.now.mover w
            → result.to_user ≡ length (line_to User w) }
        ensures to_network { (w : World) → IsMover self.now.mover w
            → result.to_network ≡ length (line_to Network w) }
    {
        let pair = self.mover.pair();
        OnLine {
            to_user: pair.line(Side::User).len(),
            to_network: pair.line(Side::Network).len(),
        }
    }

    /// Sends the frames after the first `before` of each direction through the port.
    ///
    /// # Errors
    ///
    /// `Device` if one of them is not received unchanged.
    fn cross(&mut self, before: OnLine) -> Result<(), LineFault>
        ensures ok { (w : World) → IsMover self.old.mover w
            → OnOk result (HaveCrossed (S.rest self.old.port.source) (S.rest self.new.port.source)
            (K.written self.old.port.sink) (K.written self.new.port.sink)
            (drop before.to_user (line_to User w) ++ drop before.to_network (line_to Network w))) }
        ensures err { IsOkUnless result LineFault.Device }
        ensures mover { self.new.mover ≡ self.old.mover }
    {
        let pair = self.mover.pair();
        cross_all(
            &mut self.port,
            behind(pair.line(Side::User), before.to_user),
        )?;
        cross_all(
            &mut self.port,
            behind(pair.line(Side::Network), before.to_network),
        )
    }
}

/// The frames after the first `count`.
fn behind(frames: &[FrameOctets], count: usize) -> &[FrameOctets]
    ensures { result.now ≡ drop count frames.now }
{
    match frames.get(count..) {
        Some(behind) => behind,
        None => &[],
    }
}
