//! The command `bus`.

ghost use Rattle.std.specs.Prelude.{◌≡◌, IfSome, Some};
ghost use Rattle.lapd_cli_script.specs.Script.{EndsAs, LineEndsAs, lines_of};
ghost use Rattle.lapd_tei.specs.Bus.{new_bus};
ghost use Rattle.lapd_cli_link_commands.specs.Bus.{bus_line};

use crate::bus_lines::{mover, put_outs, put_refusal};
use crate::bus_moves::move_of;
use lapd_cli_script::{Command, LineFault, ScriptFault, walk};
use lapd_tei::{Bus, BusFault, BusMove};
use std::alloc::Global;
use std::io::{Read, Write};

/// A bus that executes a script line by line.
#[derive(Drop)]
struct BusRunner {
    bus: Bus,
}

/// Executes a script on a bus of `terminals` terminals without a TEI (the program allows 1 to 127)
/// and the network side. Writes a line for each message sent, for each change of a TEI, and for
/// each refused move.
///
/// # Errors
///
/// `BadLine` at the first line that is not valid, `Device` if a read or a write fails, `Memory` if
/// an allocation fails.
pub fn bus<R: Read, W: Write>(
    alloc: Global,
    script: &mut R,
    out: &mut W,
    terminals: u8,
) -> Result<(), ScriptFault>
    ensures { IfSome (R.remaining script.old) (λ octets. EndsAs bus_line (new_bus terminals) result
        (lines_of octets) (W.contents out.old) (W.contents out.new)) }
{
    let mut runner = match Bus::new(alloc, usize::from(terminals)) {
        Ok(bus) => BusRunner { bus },
        Err(_) => return Err(ScriptFault::Memory),
    };
    walk(alloc, &mut runner, script, out)
}

impl Command for BusRunner {
    ghost use Rattle.lapd_tei.specs.Bus.{BusState};
    ghost use Rattle.lapd_cli_link_commands.specs.Bus.{bus_line};

    ghost State = { BusState };

    ghost step = { bus_line };

    ghost represents = { λ runner b. runner.bus ≡ b };

    fn run<W: Write>(&mut self, line: &[u8], out: &mut W) -> Result<(), LineFault> {
        match move_of(line) {
            Some(m) => self.make(m, out),
            None => Err(LineFault::Bad),
        }
    }
}

impl BusRunner {
    ghost use Rattle.lapd_tei.specs.Bus.{BusState};
    ghost use Rattle.lapd_cli_link_commands.specs.Bus.{made};

    /// Makes a move, and prints its outputs.
    fn make<W: Write>(&mut self, m: BusMove, out: &mut W) -> Result<(), LineFault>
        ensures { (b : BusState) → self.old.bus ≡ b
            → LineEndsAs (λ runner c. runner.bus ≡ c) (Some (made b m)) result self.new
            (W.contents out.old) (W.contents out.new) }
    {
        let who = mover(&m);
        match self.bus.apply(m) {
            Ok(outs) => put_outs(who, outs.as_slice(), out),
            Err(BusFault::Memory) => Err(LineFault::Memory),
            Err(BusFault::NothingThere) => put_refusal(BusFault::NothingThere, out),
            Err(BusFault::HeardBefore) => put_refusal(BusFault::HeardBefore, out),
        }
    }
}
