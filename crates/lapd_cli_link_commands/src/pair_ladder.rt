//! The command `pair --ladder`: the moves of a script, drawn as a ladder.

ghost use Rattle.std.specs.Prelude.{◌≡◌, ◌++◌, IfOk, IfSome, IsOkUnless, OnOk, option_map};
ghost use Rattle.std.specs.Fmt.{decimal};
ghost use Rattle.std.specs.String.{string_bytes};
ghost use Rattle.lapd_cli_script.specs.Script.{lines_of};
ghost use Rattle.lapd_link.specs.Link.{LinkRepresents};
ghost use Rattle.lapd_link_definition.specs.End.{End};
ghost use Rattle.lapd_pair.specs.Runs.{PairRepresents};
ghost use Rattle.lapd_pair_laws.specs.World.{World, new_world};
ghost use Rattle.lapd_cli_link_commands.specs.Pair.{ClosesAs};
ghost use Rattle.lapd_cli_link_commands.specs.PairLadder.{LadderEndsAs, drawn_step, drawn_text, end_words, taken_line, variables_words};
ghost use Rattle.lapd_cli_link_commands.specs.RepresentsLadder.{IsDrawer, taken_of};

use crate::mover::Mover;
use crate::notes::push_notes;
use crate::settler::Settler;
use crate::taken::{Taken, taken_by_line};
use lapd_cli_ladder::push_arrival;
use lapd_cli_script::{Command, LineFault, ScriptFault, put_line, walk};
use lapd_frame::Side;
use lapd_link::{Link, Params, Window};
use lapd_pair::Pair;
use std::alloc::{AllocError, Global};
use std::io::{Read, Write};

/// The line above the ladder.
const HEAD: &[u8] = b"             user |                                                | network";

/// The beginning of a line that reports why a move is refused.
const REFUSED: &[u8] = b"refused";

/// Two ends whose moves are drawn. It reuses its buffers for the text of a line.
#[derive(Drop)]
struct Drawer {
    alloc: Global,
    settler: Settler,
    /// The output of the line without the ladder.
    text: Vec<u8>,
    drawn: Vec<u8>,
}

/// Executes a script as [`crate::pair`] does, and draws it. The frame that `deliver` or `lose`
/// takes from the line is an arrow, with the state, V(S), V(A) and V(R) of both ends after that
/// beside it. A lost frame ends in an X. The other output of a line is a note, without the trace
/// lines of frames that are sent. A refused move has the line of [`crate::pair`], and so do the
/// sides after a complete script. The frames that `settle` and `recover` move are not drawn.
///
/// # Errors
///
/// As for [`crate::pair`].
pub fn draw_pair<R: Read, W: Write>(
    alloc: Global,
    script: &mut R,
    out: &mut W,
    user: Params,
    network: Params,
) -> Result<(), ScriptFault>
    ensures { IfSome (R.remaining script.old) (λ octets. LadderEndsAs (new_world user network)
        result (lines_of octets) (W.contents out.old) (W.contents out.new)) }
{
    match put_line(HEAD, &[], out) {
        Ok(()) => draw_moves(alloc, script, out, user, network),
        Err(_) => Err(ScriptFault::Device),
    }
}

/// Executes the script below the line above the ladder, and then prints the closing lines.
fn draw_moves<R: Read, W: Write>(
    alloc: Global,
    script: &mut R,
    out: &mut W,
    user: Params,
    network: Params,
) -> Result<(), ScriptFault>
    ensures { IfSome (R.remaining script.old) (λ octets. ClosesAs drawn_step
        (new_world user network) result (lines_of octets) (W.contents out.old)
        (W.contents out.new)) }
{
    let Ok(mover) = Mover::new(alloc, user, network) else {
        return Err(ScriptFault::Memory);
    };
    let mut drawer = Drawer {
        alloc,
        settler: Settler { mover },
        text: Vec::new(alloc),
        drawn: Vec::new(alloc),
    };
    match walk(alloc, &mut drawer, script, out) {
        Ok(()) => drawer.settler.mover.close(out),
        Err(fault) => Err(fault),
    }
}

impl Command for Drawer {
    ghost State = { World };

    ghost step = { drawn_step };

    ghost represents = { IsDrawer };

    fn run<W: Write>(&mut self, line: &[u8], out: &mut W) -> Result<(), LineFault> {
        let taken = taken_by_line(self.alloc, self.settler.mover.pair(), line)?;
        self.execute(line)?;
        self.draw(&taken)?;
        out.write_all(self.drawn.as_slice())?;
        Ok(())
    }
}

impl Drawer {
    ghost use Rattle.lapd_cli_link_commands.specs.Pair.{pair_step};
    ghost use Rattle.lapd_cli_link_commands.specs.RepresentsLadder.{KeepsText};

    /// Executes a line, and keeps its output without the ladder.
    ///
    /// # Errors
    ///
    /// `Bad` if the line is not valid, `Memory` if an allocation fails.
    fn execute(&mut self, line: &[u8]) -> Result<(), LineFault>
        ensures { (w : World) → IsDrawer self.old w
            → KeepsText (pair_step w line.now) result self.new }
    {
        self.text.clear();
        match self.settler.run(line, &mut self.text) {
            Ok(()) => Ok(()),
            Err(LineFault::Bad) => Err(LineFault::Bad),
            Err(_) => Err(LineFault::Memory),
        }
    }

    /// Draws a line that took this frame from the line, and printed the kept text.
    ///
    /// # Errors
    ///
    /// `Memory` if an allocation fails.
    fn draw(&mut self, taken: &Option<Taken>) -> Result<(), LineFault>
        ensures ok { (w : World) → IsDrawer self.old w → OnOk result (self.new.drawn.items
            ≡ drawn_text w (option_map taken_of taken.now) self.old.text.items) }
        ensures err { IsOkUnless result LineFault.Memory }
        ensures same { self.new.settler ≡ self.old.settler }
    {
        self.drawn.clear();
        let Ok(()) = push_drawn(
            self.alloc,
            &mut self.drawn,
            self.settler.mover.pair(),
            taken,
            self.text.as_slice(),
        ) else {
            return Err(LineFault::Memory);
        };
        Ok(())
    }
}

/// Appends the drawing of a line that took this frame from the line of the pair, and printed this
/// text.
fn push_drawn(
    alloc: Global,
    drawn: &mut Vec<u8>,
    pair: &Pair,
    taken: &Option<Taken>,
    text: &[u8],
) -> Result<(), AllocError>
    ensures { (w : World) → PairRepresents pair.now w → OnOk result (drawn.new.items
        ≡ drawn.old.items ++ drawn_text w (option_map taken_of taken.now) text.now) }
{
    if text.starts_with(REFUSED) {
        return drawn.extend_from_slice(text);
    }
    push_taken(alloc, drawn, pair, taken)?;
    push_notes(alloc, drawn, text)
}

/// Appends the arrow of a frame that was taken from the line, with both ends of the pair beside it.
fn push_taken(
    alloc: Global,
    drawn: &mut Vec<u8>,
    pair: &Pair,
    taken: &Option<Taken>,
) -> Result<(), AllocError>
    ensures { (w : World) → PairRepresents pair.now w → OnOk result (drawn.new.items
        ≡ drawn.old.items ++ taken_line w (option_map taken_of taken.now)) }
{
    match taken {
        None => Ok(()),
        Some(taken) => {
            let user = end_words(alloc, pair.link(Side::User))?;
            let network = end_words(alloc, pair.link(Side::Network))?;
            push_arrival(
                alloc,
                drawn,
                taken.is_lost,
                taken.from,
                taken.octets.as_slice(),
                user.as_bytes(),
                network.as_bytes(),
            )
        }
    }
}

/// The words of an end: its state, V(S), V(A) and V(R).
fn end_words(alloc: Global, link: &Link) -> Result<String, AllocError>
    ensures { (e : End) → LinkRepresents link.now e
        → IfOk result (λ text. string_bytes text ≡ end_words e) }
{
    state_words(alloc, link.state(), link.window())
}

/// The words of a state and of these variables.
fn state_words(alloc: Global, state: u8, window: Window) -> Result<String, AllocError>
    ensures { IfOk result (λ text. string_bytes text
        ≡ decimal state ++ variables_words window) }
{
    let vs = window.vs().value();
    let va = window.va().value();
    let vr = window.vr().value();
    format!(in alloc; "{state} S{vs} A{va} R{vr}")
}
