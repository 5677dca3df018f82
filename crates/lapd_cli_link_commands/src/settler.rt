//! The command `pair`: two ends and the line between them, driven by the moves of a script and the
//! words `settle` and `recover`.

ghost use Rattle.std.specs.Prelude.{IfSome};
ghost use Rattle.lapd_cli_link_commands.specs.Pair.{PairEndsAs};
ghost use Rattle.lapd_cli_link_commands.specs.RepresentsWorld.{IsSettler};
ghost use Rattle.lapd_cli_script.specs.Script.{lines_of};
ghost use Rattle.lapd_pair_laws.specs.World.{World, new_world};

use crate::mover::Mover;
use lapd_cli_script::{Command, LineFault, ScriptFault, is_word, walk};
use lapd_link::Params;
use std::alloc::Global;
use std::io::{Read, Write};

/// Two ends that also execute the words `settle` and `recover`.
#[derive(Drop)]
pub(crate) struct Settler {
    pub(crate) mover: Mover,
}

/// Executes a script of moves on two ends of SAPI 0 and TEI 64, with these parameters. Writes a
/// line for each frame, primitive and report, or why a move is refused. The line `settle` makes the
/// moves of [`lapd_pair::Pair::settle`] and writes their number, and the line `recover` those of
/// [`lapd_pair::Pair::recover`]. After a complete script it writes a closing line for each side,
/// with its state and its messages.
///
/// # Errors
///
/// `BadLine` at the first line that is not valid, `Device` if a read or a write fails, `Memory` if
/// an allocation fails.
pub fn pair<R: Read, W: Write>(
    alloc: Global,
    script: &mut R,
    out: &mut W,
    user: Params,
    network: Params,
) -> Result<(), ScriptFault>
    ensures { IfSome (R.remaining script.old) (λ octets. PairEndsAs (new_world user network) result
        (lines_of octets) (W.contents out.old) (W.contents out.new)) }
{
    let Ok(mover) = Mover::new(alloc, user, network) else {
        return Err(ScriptFault::Memory);
    };
    let mut settler = Settler { mover };
    match walk(alloc, &mut settler, script, out) {
        Ok(()) => settler.mover.close(out),
        Err(fault) => Err(fault),
    }
}

impl Command for Settler {
    ghost use Rattle.lapd_cli_link_commands.specs.Pair.{pair_step};

    ghost State = { World };

    ghost step = { pair_step };

    ghost represents = { IsSettler };

    fn run<W: Write>(&mut self, line: &[u8], out: &mut W) -> Result<(), LineFault> {
        if is_word(line, b"settle") {
            self.mover.settle(out)
        } else if is_word(line, b"recover") {
            self.mover.recover(out)
        } else {
            self.mover.run(line, out)
        }
    }
}
