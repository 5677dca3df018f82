//! Three hundred messages over a line that loses every tenth frame.

use crate::draws::MoveDraws;
use lapd_frame::Side;
use lapd_pair::{Move, Pair};
use lapd_test_text::Text;
use std::alloc::Global;

/// A pair whose line loses every tenth frame. Frames are numbered from 1 in the order in which they
/// are put on the line.
#[derive(Drop)]
struct Lossy<'a> {
    pair: &'a mut Pair,
    /// How many frames were put on the line.
    frames: u64,
    /// How many of them were lost.
    lost: u64,
}

impl Lossy<'_> {
    /// Makes a move, and loses every tenth frame that it puts on the line.
    fn makes(&mut self, mv: &Move) -> bool {
        let to = mv.side().other();
        let before = self.pair.line(to).len();
        let is_made = self.pair.apply(mv).is_ok();
        self.lose_tenths(to, before);
        is_made
    }

    /// Numbers the frames in transit to this side after the first `before`, and loses every tenth.
    fn lose_tenths(&mut self, to: Side, before: usize) {
        let mut place = before;
        for _ in before..self.pair.line(to).len() {
            self.frames = self.frames.wrapping_add(1);
            let lost = self.frames % 10 == 0 && self.pair.apply(&Move::Lose(to, place)).is_ok();
            self.lost = self.lost.wrapping_add(u64::from(lost));
            place = place.wrapping_add(usize::from(!lost));
        }
    }

    /// Makes the first possible move of these: deliver a frame to the network, deliver one to the
    /// user, T200 of the user expires, T200 of the network expires.
    fn settle_once(&mut self) -> bool {
        self.makes(&Move::Deliver(Side::Network))
            || self.makes(&Move::Deliver(Side::User))
            || self.makes(&Move::Expire200(Side::User))
            || self.makes(&Move::Expire200(Side::Network))
    }

    /// The user submits a message.
    fn gives(&mut self, draws: &mut MoveDraws) -> bool {
        match draws.message(Side::User, false) {
            Some(mv) => self.makes(&mv),
            None => false,
        }
    }

    /// The user establishes the link and submits all messages; then moves are made until none is
    /// possible. Returns whether all messages were accepted and the moves ended.
    fn passes(&mut self, alloc: Global) -> bool {
        let mut draws = MoveDraws::new(alloc);
        let mut are_taken = self.makes(&Move::Establish(Side::User))
            && self.settle_once()
            && self.settle_once();
        for _ in 0..300u32 {
            are_taken = are_taken && self.gives(&mut draws);
        }
        let mut continues = true;
        for _ in 0..10_000u32 {
            continues = continues && self.settle_once();
        }
        are_taken && !continues
    }
}

/// Runs the whole exchange, and writes its result. Two ends report errors (F to I) only with a
/// release or a new establishment, and the network's `begun` counts a new establishment too.
pub(crate) fn lose_tenths(alloc: Global, pair: &mut Pair, text: &mut Text) {
    let mut line = Lossy {
        pair,
        frames: 0,
        lost: 0,
    };
    let ends = line.passes(alloc) && line.lost == line.frames / 10;
    text.mark(" at rest", ends);
    text.shown(", got ", &pair.received(Side::Network).len());
    text.shown(", acked ", &pair.acknowledged(Side::User));
    text.shown(", left ", &pair.left());
    text.made(", begun ", pair.begun(Side::Network));
    let window = pair.link(Side::User).window();
    text.shown(", V(S) ", &window.vs().value());
}
