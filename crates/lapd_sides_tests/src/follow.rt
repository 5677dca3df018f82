//! Compares two sides with a pair of links over 10,000 random moves. After each move the side must
//! produce the same text as the end of the pair: frames, primitives, or a refusal.

use crate::digest::{id_at, of_link};
use crate::shows::put_out;
use crate::talk::{Talk, params};
use crate::text::put_refused;
use lapd_link::{Out, Outs};
use lapd_pair::{Move, Pair, PairFault};
use lapd_sides::Side;
use lapd_test_text::{Draws, Text};
use std::alloc::{AllocError, Global};
use std::test::Fail;

/// The number of moves.
const MOVES: u64 = 10_000;

/// The pair and the two sides, the network side first; the generator of moves, and the number of
/// messages submitted; the time of both sides, the call of a side, the outputs of the pair, and the
/// expected result of the side; and the numbers of moves that were made, refused by the links, and
/// skipped.
#[derive(Drop)]
struct Follow {
    alloc: Global,
    pair: Pair,
    talks: Vec<Talk>,
    draws: Draws,
    messages: u32,
    now: u64,
    call: Text,
    outs: Outs,
    wanted: Text,
    made: u32,
    refused: u32,
    left_out: u32,
}

/// The last message that an end of the pair received.
fn last_message(pair: &Pair, side: Side) -> &[u8] {
    match pair.received(side).last() {
        Some(message) => message.octets.as_slice(),
        None => &[],
    }
}

/// The last unit data that an end of the pair received.
fn last_unit(pair: &Pair, side: Side) -> &[u8] {
    match pair.units(side).last() {
        Some(unit) => unit.as_slice(),
        None => &[],
    }
}

/// The octets of a move, if any.
fn octets_in(mv: &Move) -> Option<&[u8]> {
    match mv {
        Move::Give(_, octets) | Move::Unit(_, octets) => Some(octets.as_slice()),
        _ => None,
    }
}

/// The next frame that arrives at a side.
fn arriving(pair: &Pair, to: Side) -> &[u8] {
    match pair.line(to).first() {
        Some(frame) => frame.as_slice(),
        None => &[],
    }
}

/// The call of a side for a move; empty if a frame is lost.
fn word_of(mv: &Move) -> &'static str {
    match mv {
        Move::Give(..) => " give 0 64 ",
        Move::Unit(..) => " unit 0 64 ",
        Move::Establish(_) => " establish 0 64",
        Move::Release(_) => " release 0 64",
        Move::Busy(_, true) => " busy 0 64",
        Move::Busy(_, false) => " ready 0 64",
        Move::Deliver(_) => " take ",
        Move::Expire200(_) => " tick",
        _ => "",
    }
}

/// Appends the frames that the end of the pair put on the line after the first `before` frames, and
/// its primitives.
fn put_gives(text: &mut Text, pair: &Pair, side: Side, before: usize, outs: &[Out]) {
    for frame in pair.line(side.other()).get(before..).unwrap_or(&[]) {
        text.hex(frame.as_slice());
        text.put(";");
    }
    for out in outs {
        put_output(text, pair, side, out);
    }
}

/// Appends the primitive of an output of an end, if it has one, with the last received octets.
fn put_output(text: &mut Text, pair: &Pair, side: Side, out: &Out) {
    match out {
        Out::Up => put_data(text, "0 64 data ", last_message(pair, side)),
        Out::UnitUp => put_data(text, "0 64 unit ", last_unit(pair, side)),
        Out::Send(..) | Out::SendMessage(..) | Out::SendUnit | Out::Start(_) | Out::Stop(_) => {}
        _ => {
            text.put("0 64 ");
            put_out(text, out);
        }
    }
}

/// Appends octets.
fn put_data(text: &mut Text, word: &str, octets: &[u8]) {
    text.put(word);
    text.hex(octets);
    text.put(";");
}

impl Follow {
    /// A random number below this one.
    fn below(&mut self, limit: u32) -> u32 {
        self.draws.below(limit)
    }

    /// Draws a move of one of the sides; `None` if an allocation fails. The octets of a message are
    /// its number.
    fn draw(&mut self) -> Option<Move> {
        let side = if self.below(2) == 0 {
            Side::User
        } else {
            Side::Network
        };
        match self.below(976) {
            0..180 => {
                self.messages = self.messages.wrapping_add(1);
                Some(Move::Give(side, self.messages.to_be_bytes().to_vec(self.alloc).ok()?))
            }
            955..965 => Some(Move::Unit(side, [0xff; 3].to_vec(self.alloc).ok()?)),
            number => Some(self.plain(side, number)),
        }
    }

    /// A move without octets.
    fn plain(&mut self, side: Side, number: u32) -> Move {
        match number {
            680..740 => Move::Lose(side, self.below(4) as usize),
            740..920 => Move::Expire200(side),
            920..955 => Move::Busy(side, self.below(4) == 0),
            965..973 => Move::Establish(side),
            973..976 => Move::Release(side),
            _ => Move::Deliver(side),
        }
    }

    /// Creates a side.
    fn begin(&mut self, words: &str) -> Result<(), AllocError> {
        self.talks.push(Talk::of(self.alloc, words)?)?;
        Ok(())
    }

    /// Writes the call of a side for a move, if there is one, with the octets of the move or of the
    /// frame that arrives.
    fn put_call(&mut self, mv: &Move) {
        self.call.clear();
        let word = word_of(mv);
        if word == "" {
            return;
        }
        self.call.shown("", &self.now);
        self.call.put(word);
        self.call.hex(octets_in(mv).unwrap_or(&[]));
        if matches!(mv, Move::Deliver(_)) {
            self.call.hex(arriving(&self.pair, mv.side()));
        }
    }

    /// Makes a move with the pair, and writes the expected result. Returns `false` if an allocation
    /// failed. If the pair refuses with P1 to P3, no side is called.
    fn is_made(&mut self, mv: &Move) -> bool {
        self.wanted.clear();
        let before = self.pair.line(mv.side().other()).len();
        match self.pair.apply_into(mv, &mut self.outs) {
            Ok(()) => {
                self.made = self.made.wrapping_add(1);
                let outs = self.outs.as_slice();
                put_gives(&mut self.wanted, &self.pair, mv.side(), before, outs);
                true
            }
            Err(PairFault::Refused(fault)) => {
                self.refused = self.refused.wrapping_add(1);
                put_refused(&mut self.wanted, &fault, octets_in(mv));
                true
            }
            Err(fault) => {
                self.left_out = self.left_out.wrapping_add(1);
                self.call.clear();
                !fault.is_memory()
            }
        }
    }

    /// Whether a side has the expected result, if it is called.
    fn is_given(&mut self, side: Side) -> bool {
        let place = match side {
            Side::Network => 0,
            Side::User => 1,
        };
        if self.call.is("") {
            return true;
        }
        let mut text = Text::new();
        if let Some(talk) = self.talks.get_mut(place) {
            talk.call(self.call.as_str(), &mut text);
        }
        text.is(self.wanted.as_str())
    }

    /// Draws a move, and makes it with the pair and then with the side that it concerns. Returns
    /// whether both have the same result.
    fn make_move(&mut self) -> bool {
        match self.draw() {
            Some(mv) => {
                self.put_call(&mv);
                self.is_made(&mv) && self.is_given(mv.side())
            }
            None => false,
        }
    }

    /// Whether the link of a side has the same state as the link of the pair.
    fn is_alike(&self, place: usize, side: Side) -> bool {
        match self.talks.get(place) {
            Some(talk) => match talk.side.table().link(id_at(64)) {
                Some(link) => of_link(link) == of_link(self.pair.link(side)),
                None => false,
            },
            None => false,
        }
    }

    /// Whether enough moves of each kind happened.
    fn is_lively(&self) -> bool {
        self.made > 5_000
            && self.refused > 100
            && self.left_out > 1_000
            && self.pair.received(Side::Network).len() > 250
            && self.pair.received(Side::User).len() > 250
    }

    /// Draws all moves and makes them, one millisecond apart. Fails at the first with a different
    /// result.
    fn run(&mut self) -> Result<(), Fail> {
        self.begin("net 64 fast")?;
        self.begin("user 64 fast")?;
        for now in 0..MOVES {
            self.now = now;
            if !self.make_move()
                || !self.is_alike(0, Side::Network)
                || !self.is_alike(1, Side::User)
            {
                return self.failed();
            }
        }
        if self.is_lively() {
            Ok(())
        } else {
            self.failed()
        }
    }

    /// Fails, and reports the last call and its expected result.
    fn failed(&self) -> Result<(), Fail> {
        let call = self.call.as_str();
        let wanted = self.wanted.as_str();
        Err(Fail::new(format_args!(
            "after {call}, not {wanted}, or the links differ, or too little happened"
        )))
    }
}

#[test]
fn sides_follow_pair(rt: HostRuntime) -> Result<(), Fail> {
    let alloc = rt.alloc();
    let mut follow = Follow {
        alloc,
        pair: Pair::new(alloc, params(), params())?,
        talks: Vec::new(alloc),
        draws: Draws::new(921),
        messages: 0,
        now: 0,
        call: Text::new(),
        outs: Outs::new(),
        wanted: Text::new(),
        made: 0,
        refused: 0,
        left_out: 0,
    };
    follow.run()
}
