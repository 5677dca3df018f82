//! The frame that a line of the script takes from the line between two ends.

ghost use Rattle.std.specs.Prelude.{◌≡◌, IfOk, IsOkUnless, option_map, slice_get};
ghost use Rattle.lapd_pair.specs.Moves.{move_of};
ghost use Rattle.lapd_pair.specs.Runs.{PairRepresents};
ghost use Rattle.lapd_pair_laws.specs.World.{World};
ghost use Rattle.lapd_cli_link_commands.specs.Loop.{line_to};
ghost use Rattle.lapd_cli_link_commands.specs.Moves.{move_of_line};
ghost use Rattle.lapd_cli_link_commands.specs.PairLadder.{taken_at, taken_by, taken_by_move};
ghost use Rattle.lapd_cli_link_commands.specs.RepresentsLadder.{taken_of};

use crate::moves::read_move;
use lapd_cli_script::LineFault;
use lapd_frame::Side;
use lapd_pair::{Move, Pair};
use std::alloc::Global;

/// A frame that is taken from the line.
#[derive(Drop)]
pub(crate) struct Taken {
    /// Whether it is lost, and does not arrive.
    pub(crate) is_lost: bool,
    /// The side that sent it.
    pub(crate) from: Side,
    /// Its octets.
    pub(crate) octets: Vec<u8>,
}

/// The frame that a line of the script takes from the line of this pair, if it takes one.
///
/// # Errors
///
/// `Memory` if an allocation fails.
pub(crate) fn taken_by_line(
    alloc: Global,
    pair: &Pair,
    line: &[u8],
) -> Result<Option<Taken>, LineFault>
    ensures ok { (w : World) → PairRepresents pair.now w → IfOk result
        (λ taken. option_map taken_of taken ≡ taken_by_move w (move_of_line line.now)) }
    ensures err { IsOkUnless result LineFault.Memory }
{
    match read_move(alloc, line) {
        Ok(mv) => taken_by(alloc, pair, &mv),
        Err(LineFault::Bad) => Ok(None),
        Err(_) => Err(LineFault::Memory),
    }
}

/// The frame that a move takes: the first one by `deliver`, the one at its place by `lose`.
fn taken_by(alloc: Global, pair: &Pair, mv: &Move) -> Result<Option<Taken>, LineFault>
    ensures ok { (w : World) → PairRepresents pair.now w → IfOk result (λ taken.
        option_map taken_of taken ≡ taken_by w (move_of mv.now).side (move_of mv.now).event) }
    ensures err { IsOkUnless result LineFault.Memory }
{
    match mv {
        Move::Deliver(to) => taken_at(alloc, pair, false, *to, 0),
        Move::Lose(to, place) => taken_at(alloc, pair, true, *to, *place),
        _ => Ok(None),
    }
}

/// The frame at this place on its way to this side, if there is one.
fn taken_at(
    alloc: Global,
    pair: &Pair,
    is_lost: bool,
    to: Side,
    place: usize,
) -> Result<Option<Taken>, LineFault>
    ensures ok { (w : World) → PairRepresents pair.now w → IfOk result (λ taken.
        option_map taken_of taken ≡ taken_at is_lost to (slice_get (line_to to w) place)) }
    ensures err { IsOkUnless result LineFault.Memory }
{
    match pair.line(to).get(place) {
        None => Ok(None),
        Some(frame) => {
            let mut octets = Vec::new(alloc);
            let Ok(()) = octets.extend_from_slice(frame.as_slice()) else {
                return Err(LineFault::Memory);
            };
            Ok(Some(Taken {
                is_lost,
                from: to.other(),
                octets,
            }))
        }
    }
}
