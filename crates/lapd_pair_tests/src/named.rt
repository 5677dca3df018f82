//! Moves parsed from words such as `user give 0801`.

use lapd_frame::Side;
use lapd_pair::Move;
use std::alloc::Global;

/// Splits a text at the first mark into the parts before and after it.
pub(crate) fn split<'a>(text: &'a str, mark: &str) -> (&'a str, &'a str) {
    text.split_once(mark).unwrap_or((text, ""))
}

/// The move that these words name: a side, what it does, and the argument. `None` also if the
/// allocation of its octets fails.
pub(crate) fn move_of(alloc: Global, words: &str) -> Option<Move> {
    let (name, mv) = split(words, " ");
    let (word, behind) = split(mv, " ");
    let side = if name == "user" {
        Side::User
    } else {
        Side::Network
    };
    match word {
        "give" => match octets_of(alloc, behind) {
            Some(octets) => Some(Move::Give(side, octets)),
            None => None,
        },
        "unit" => match octets_of(alloc, behind) {
            Some(octets) => Some(Move::Unit(side, octets)),
            None => None,
        },
        _ => plain_move(side, mv),
    }
}

/// The octets written in hexadecimal. `too much` names 261 octets, one more than a frame carries
/// (N201).
fn octets_of(alloc: Global, text: &str) -> Option<Vec<u8>> {
    if text == "too much" {
        [7; 261].to_vec(alloc).ok()
    } else {
        hex::decode(alloc, text.as_bytes()).ok()
    }
}

/// The move of this side that these words name, if it carries no octets.
fn plain_move(side: Side, mv: &str) -> Option<Move> {
    match mv {
        "establish" => Some(Move::Establish(side)),
        "release" => Some(Move::Release(side)),
        "deliver" => Some(Move::Deliver(side)),
        "lose 0" => Some(Move::Lose(side, 0)),
        "lose 1" => Some(Move::Lose(side, 1)),
        "lose the greatest" => Some(Move::Lose(side, usize::MAX)),
        "expire200" => Some(Move::Expire200(side)),
        "expire203" => Some(Move::Expire203(side)),
        "busy" => Some(Move::Busy(side, true)),
        "free" => Some(Move::Busy(side, false)),
        "restart" => Some(Move::Restart(side)),
        _ => None,
    }
}
