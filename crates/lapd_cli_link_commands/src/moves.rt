//! The moves that a script's lines name.

ghost use Rattle.std.specs.Prelude.{◌≡◌, None, Some};
ghost use Rattle.lapd_cli_link_commands.specs.Moves.{bare_move, busy_move, move_named, move_of_line, side_named};
ghost use Rattle.lapd_pair.specs.Moves.{move_of};
ghost use Rattle.lapd_cli_script.specs.Line.{Reads};

use lapd_cli_script::{LineFault, Words, is_word};
use lapd_frame::Side;
use lapd_pair::Move;
use std::alloc::Global;

/// Reads the move that a line names: a word, a side, and the word's arguments.
///
/// # Errors
///
/// `Bad` if the line does not name a move, `Memory` if an allocation fails.
pub fn read_move(alloc: Global, line: &[u8]) -> Result<Move, LineFault>
    ensures { Reads move_of result (move_of_line line.now) }
{
    let mut words = Words::of(line);
    let Some(word) = words.next_word() else {
        return Err(LineFault::Bad);
    };
    let Some(name) = words.next_word() else {
        return Err(LineFault::Bad);
    };
    match side_of(name) {
        Some(side) => move_by(alloc, word, side, words),
        None => Err(LineFault::Bad),
    }
}

/// The side with this name.
fn side_of(name: &[u8]) -> Option<Side>
    ensures { result ≡ side_named name.now }
{
    match name {
        b"user" => Some(Side::User),
        b"net" => Some(Side::Network),
        _ => None,
    }
}

/// The move of a word, a side and the words after the side.
fn move_by(alloc: Global, word: &[u8], side: Side, behind: Words<'_>) -> Result<Move, LineFault>
    ensures { Reads move_of result (move_named word.now side behind.entry) }
{
    if is_word(word, b"give") {
        Ok(Move::Give(side, behind.octets(alloc)?))
    } else if is_word(word, b"establish") {
        alone(behind, Move::Establish(side))
    } else if is_word(word, b"release") {
        alone(behind, Move::Release(side))
    } else if is_word(word, b"deliver") {
        alone(behind, Move::Deliver(side))
    } else if is_word(word, b"lose") {
        Ok(Move::Lose(side, behind.number()? as usize))
    } else if is_word(word, b"expire200") {
        alone(behind, Move::Expire200(side))
    } else if is_word(word, b"expire203") {
        alone(behind, Move::Expire203(side))
    } else if is_word(word, b"busy") {
        busy(behind, side)
    } else if is_word(word, b"unit") {
        Ok(Move::Unit(side, behind.octets(alloc)?))
    } else if is_word(word, b"restart") {
        alone(behind, Move::Restart(side))
    } else {
        Err(LineFault::Bad)
    }
}

/// This move, if nothing is left.
fn alone(behind: Words<'_>, mv: Move) -> Result<Move, LineFault>
    ensures { Reads move_of result
        (bare_move (move_of mv).side (move_of mv).event behind.entry) }
{
    behind.nothing()?;
    Ok(mv)
}

/// This side's receiver becomes busy, or stops being busy.
fn busy(mut behind: Words<'_>, side: Side) -> Result<Move, LineFault>
    ensures { Reads move_of result (busy_move side behind.entry) }
{
    match behind.next_word() {
        Some(b"on") => alone(behind, Move::Busy(side, true)),
        Some(b"off") => alone(behind, Move::Busy(side, false)),
        _ => Err(LineFault::Bad),
    }
}
