//! Random moves.

use crate::safe::are_safe;
use lapd_frame::Side;
use lapd_pair::{Move, Pair};
use lapd_test_text::Draws;
use std::alloc::Global;

/// Draws random moves of two ends, and counts the messages and unit data that they submit.
#[derive(Drop)]
pub(crate) struct MoveDraws {
    alloc: Global,
    draws: Draws,
    messages: u32,
}

impl MoveDraws {
    pub(crate) fn new(alloc: Global) -> MoveDraws {
        MoveDraws {
            alloc,
            draws: Draws::new(921),
            messages: 0,
        }
    }

    /// Makes this many random moves; refused ones change nothing. Returns whether all allocations
    /// succeeded and, if `looks` is set, whether both histories were safe after each move.
    pub(crate) fn lead(&mut self, pair: &mut Pair, moves: u32, looks: bool) -> bool {
        let mut holds = true;
        for _ in 0..moves {
            holds = holds && self.makes_one(pair, looks);
        }
        holds
    }

    /// Makes one random move.
    fn makes_one(&mut self, pair: &mut Pair, looks: bool) -> bool {
        match self.draw() {
            Some(mv) => match pair.apply(&mv) {
                Ok(_) => !looks || are_safe(pair),
                Err(fault) => !fault.is_memory(),
            },
            None => false,
        }
    }

    /// A side submits a message, which the link may refuse. Returns whether its octets could be
    /// allocated.
    pub(crate) fn gives(&mut self, pair: &mut Pair, side: Side) -> bool {
        match self.message(side, false) {
            Some(mv) => {
                let _ = moves(pair, &mv);
                true
            }
            None => false,
        }
    }

    /// Draws a number below the limit.
    fn below(&mut self, limit: u32) -> u32 {
        self.draws.below(limit)
    }

    /// Draws a move of either side. `None` if its allocation fails.
    pub(crate) fn draw(&mut self) -> Option<Move> {
        let side = if self.below(2) == 0 {
            Side::User
        } else {
            Side::Network
        };
        match self.below(1000) {
            0..180 => self.message(side, false),
            975..985 => self.message(side, true),
            drawn => Some(self.plain_move(side, drawn)),
        }
    }

    /// The move without octets of this side that the number `drawn` selects.
    fn plain_move(&mut self, side: Side, drawn: u32) -> Move {
        match drawn {
            180..680 => Move::Deliver(side),
            680..740 => Move::Lose(side, self.below(4) as usize),
            740..920 => Move::Expire200(side),
            920..940 => Move::Expire203(side),
            940..975 => Move::Busy(side, self.below(4) == 0),
            985..993 => Move::Establish(side),
            993..996 => Move::Release(side),
            _ => Move::Restart(side),
        }
    }

    /// The next message of this side, or unit data. Its octets are its own number.
    pub(crate) fn message(&mut self, side: Side, is_unit: bool) -> Option<Move> {
        let octets = self.messages.to_be_bytes();
        self.messages = self.messages.wrapping_add(1);
        match octets.to_vec(self.alloc) {
            Ok(unit) if is_unit => Some(Move::Unit(side, unit)),
            Ok(message) => Some(Move::Give(side, message)),
            Err(_) => None,
        }
    }
}

/// Makes a move, and returns whether it was accepted.
pub(crate) fn moves(pair: &mut Pair, mv: &Move) -> bool {
    pair.apply(mv).is_ok()
}
