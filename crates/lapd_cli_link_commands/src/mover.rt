//! Two ends and the line between them, driven by the moves of a script.

ghost use Rattle.std.specs.Prelude.{◌≡◌, IsOkUnless, OnOk};
ghost use Rattle.std.specs.Io.KnownBytes.{Appends};
ghost use Rattle.lapd_cli_link_commands.specs.RepresentsWorld.{IsMover};
ghost use Rattle.lapd_cli_link_commands.specs.Pair.{figures_line, not_admitted, recovered_line, settled_line, side_name as name_of, unit_of as unit_data_of};
ghost use Rattle.lapd_pair.specs.Moves.{move_of};
ghost use Rattle.lapd_pair_laws.specs.Move.{NotYet};
ghost use Rattle.lapd_pair_laws.specs.World.{World, new_world};

use crate::move_lines::write_lines;
use crate::moves::read_move;
use lapd_cli_answer::put_refusal;
use lapd_cli_script::{Command, LineFault, ScriptFault, put_line, put_number};
use lapd_frame::Side;
use lapd_link::{Outs, Params};
use lapd_pair::{Move, Pair, PairFault, Settled};
use std::alloc::{AllocError, Global};
use std::io::Write;

/// Two ends of a link and the line between them. [`Command::run`] makes the move of one line. It
/// reuses its buffers for the outputs and the text of a move.
#[derive(Drop)]
pub struct Mover {
    alloc: Global,
    pair: Pair,
    outs: Outs,
    text: Vec<u8>,
}

impl Mover {
    ghost use Rattle.std.specs.Prelude.{IfOk};
    ghost use Rattle.lapd_pair.specs.Runs.{PairRepresents};

    /// Two ends in state 4, with an empty line between them.
    ///
    /// # Errors
    ///
    /// `AllocError` if an I queue can't be allocated.
    pub fn new(alloc: Global, user: Params, network: Params) -> Result<Mover, AllocError>
        ensures { IfOk result (λ mover. IsMover mover (new_world user network)) }
    {
        let pair = Pair::new(alloc, user, network)?;
        let outs = Outs::new();
        let text = Vec::new(alloc);
        Ok(Mover {
            alloc,
            pair,
            outs,
            text,
        })
    }

    /// The two ends and the line between them.
    pub fn pair(&self) -> &Pair
        ensures { (w : World) → IsMover self.now w → PairRepresents result.now w }
    {
        &self.pair
    }
}

impl Command for Mover {
    ghost use Rattle.lapd_cli_link_commands.specs.Pair.{move_step};

    ghost State = { World };

    ghost step = { move_step };

    ghost represents = { IsMover };

    fn run<W: Write>(&mut self, line: &[u8], out: &mut W) -> Result<(), LineFault> {
        let mv = read_move(self.alloc, line)?;
        self.make(&mv, out)
    }
}

impl Mover {
    ghost use Rattle.std.specs.Prelude.{Some};
    ghost use Rattle.lapd_cli_link_commands.specs.Pair.{closing_line, closing_lines, figures_of, move_made, recover_made, settle_made};
    ghost use Rattle.lapd_cli_script.specs.Script.{LineEndsAs};
    ghost use Rattle.lapd_pair_laws.specs.World.{view_of};

    /// Makes a move, and prints its outputs or why it is refused.
    fn make<W: Write>(&mut self, mv: &Move, out: &mut W) -> Result<(), LineFault>
        ensures { (w : World) → IsMover self.old w
            → LineEndsAs IsMover (Some (move_made w (move_of mv.now))) result self.new
            (W.contents out.old) (W.contents out.new) }
    {
        match self.pair.apply_into(mv, &mut self.outs) {
            Ok(()) => {
                write_lines(
                    self.alloc,
                    &self.pair,
                    mv.side(),
                    unit_of(mv),
                    self.outs.as_slice(),
                    &mut self.text,
                )?;
                out.write_all(self.text.as_slice())?;
                Ok(())
            }
            Err(PairFault::NothingThere) => put_line(b"refused P1 NothingThere", &[], out),
            Err(PairFault::NotRunning) => put_line(b"refused P2 NotRunning", &[], out),
            Err(PairFault::NotYet(to, place)) => put_not_yet(to, place, out),
            Err(PairFault::Refused(fault)) => put_refusal(fault, out),
            Err(PairFault::Memory) => Err(LineFault::Memory),
        }
    }

    /// Makes moves until none is possible, within the bound of [`Pair::settle`], and prints their
    /// number.
    pub(crate) fn settle<W: Write>(&mut self, out: &mut W) -> Result<(), LineFault>
        ensures { (w : World) → IsMover self.old w
            → LineEndsAs IsMover (Some (settle_made w)) result self.new
            (W.contents out.old) (W.contents out.new) }
    {
        match self.pair.settle() {
            Ok(settled) => put_settled(settled, out),
            Err(_) => Err(LineFault::Memory),
        }
    }

    /// Makes the moves of [`Pair::recover`], and prints their number.
    pub(crate) fn recover<W: Write>(&mut self, out: &mut W) -> Result<(), LineFault>
        ensures { (w : World) → IsMover self.old w
            → LineEndsAs IsMover (Some (recover_made w)) result self.new
            (W.contents out.old) (W.contents out.new) }
    {
        match self.pair.recover() {
            Ok(recovered) => put_recovered(recovered, out),
            Err(_) => Err(LineFault::Memory),
        }
    }

    /// Prints the final state of both sides, and flushes the writer.
    ///
    /// # Errors
    ///
    /// `Device` if a write or the flush fails.
    pub fn close<W: Write>(&self, out: &mut W) -> Result<(), ScriptFault>
        ensures ok { (w : World) → IsMover self.now w
            → OnOk result (Appends (W.contents out.old) (W.contents out.new) (closing_lines w)) }
        ensures err { IsOkUnless result ScriptFault.Device }
    {
        let Ok(()) = self.put_closing(Side::User, out) else {
            return Err(ScriptFault::Device);
        };
        let Ok(()) = self.put_closing(Side::Network, out) else {
            return Err(ScriptFault::Device);
        };
        let Ok(()) = out.flush() else {
            return Err(ScriptFault::Device);
        };
        Ok(())
    }

    /// Prints the closing line of a side.
    fn put_closing<W: Write>(&self, side: Side, out: &mut W) -> Result<(), LineFault>
        ensures ok { (w : World) → IsMover self.now w
            → OnOk result
            (Appends (W.contents out.old) (W.contents out.new)
            (closing_line side (view_of side w).station)) }
        ensures err { IsOkUnless result LineFault.Device }
    {
        put_figures(side, self.figures(side), out)
    }

    /// The state of a side, and its messages: submitted, received, acknowledged and dropped.
    fn figures(&self, side: Side) -> Figures
        ensures { (w : World) → IsMover self.now w → result ≡ figures_of (view_of side w).station }
    {
        Figures {
            state: self.pair.link(side).state(),
            given: self.pair.given(side).len(),
            received: self.pair.received(side).len(),
            acknowledged: self.pair.acknowledged(side),
            dropped: self.pair.dropped(side),
        }
    }
}

/// The figures in a side's closing line: its state, and numbers of messages.
#[derive(Clone, Copy)]
struct Figures {
    state: u8,
    given: usize,
    received: usize,
    acknowledged: u64,
    dropped: u64,
}

/// Prints the figures of a side.
fn put_figures<W: Write>(side: Side, figures: Figures, out: &mut W) -> Result<(), LineFault>
    ensures ok { OnOk result
        (Appends (W.contents out.old) (W.contents out.new) (figures_line side figures)) }
    ensures err { IsOkUnless result LineFault.Device }
{
    let Figures {
        state,
        given,
        received,
        acknowledged,
        dropped,
    } = figures;
    out.write_all(side_name(side).as_bytes())?;
    writeln!(
        out,
        ": state {state}, given {given}, received {received}, acknowledged {acknowledged}, dropped {dropped}"
    )?;
    Ok(())
}

/// Prints the number of moves made, and `rest` if no further move is possible.
fn put_settled<W: Write>(settled: Settled, out: &mut W) -> Result<(), LineFault>
    ensures ok { OnOk result
        (Appends (W.contents out.old) (W.contents out.new)
        (settled_line settled.moves settled.rest)) }
    ensures err { IsOkUnless result LineFault.Device }
{
    let Settled { moves, rest } = settled;
    if rest {
        writeln!(out, "settled {moves} rest")?;
    } else {
        writeln!(out, "settled {moves}")?;
    }
    Ok(())
}

/// The same after the word `recover`.
fn put_recovered<W: Write>(recovered: Settled, out: &mut W) -> Result<(), LineFault>
    ensures ok { OnOk result
        (Appends (W.contents out.old) (W.contents out.new)
        (recovered_line recovered.moves recovered.rest)) }
    ensures err { IsOkUnless result LineFault.Device }
{
    let Settled { moves, rest } = recovered;
    if rest {
        writeln!(out, "recovered {moves} rest")?;
    } else {
        writeln!(out, "recovered {moves}")?;
    }
    Ok(())
}

/// The unit data that a move sends; empty for another move.
fn unit_of(mv: &Move) -> &[u8]
    ensures { result.now ≡ unit_data_of (move_of mv.now).event }
{
    match mv {
        Move::Unit(_, octets) => octets.as_slice(),
        _ => &[],
    }
}

/// The name of a side in scripts.
fn side_name(side: Side) -> &'static str
    ensures { result.now ≡ name_of side }
{
    match side {
        Side::User => "user",
        Side::Network => "net",
    }
}

/// Prints that T200 can't expire yet, because of the frame at index `place` on its way to side
/// `to`.
fn put_not_yet<W: Write>(to: Side, place: usize, out: &mut W) -> Result<(), LineFault>
    ensures ok { OnOk result
        (Appends (W.contents out.old) (W.contents out.new) (not_admitted (NotYet to place))) }
    ensures err { IsOkUnless result LineFault.Device }
{
    match to {
        Side::User => put_number(b"refused P3 NotYet user", place as u64, out),
        Side::Network => put_number(b"refused P3 NotYet net", place as u64, out),
    }
}
