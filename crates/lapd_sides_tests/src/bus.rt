//! A bus of terminals and an assigner, driven by words.

use crate::shows::{put_assigner, put_tei_outs, put_terminal};
use crate::stage::Stage;
use crate::text::{number_of, numbers_of, put_refused};
use lapd_tei::{Bus, BusMove, Tei};
use lapd_test_text::{Text, split};
use std::alloc::{AllocError, Global};

/// The move that these words describe: its name, then the message, the terminal and the reference
/// that it uses.
fn move_of(words: &str) -> Option<BusMove> {
    let (word, behind) = split(words, " ");
    let [first, second, third, _] = numbers_of(behind);
    let place = first as usize;
    match word {
        "ask" => Some(BusMove::Ask(place, (second & 0xffff) as u16)),
        "T202" => Some(BusMove::T202(place, (second & 0xffff) as u16)),
        "hear" => Some(BusMove::Hear(place, second as usize, (third & 0xffff) as u16)),
        _ => move_at(word, place),
    }
}

/// The move with this name that has no reference, with the index of a message or terminal, or a
/// TEI.
fn move_at(word: &str, place: usize) -> Option<BusMove> {
    match word {
        "drop" => Some(BusMove::Drop(place)),
        "hear-up" => Some(BusMove::HearUp(place)),
        "drop-up" => Some(BusMove::DropUp(place)),
        "check" => Some(BusMove::Check(Tei::new((place & 0xff) as u8)?)),
        "remove" => Some(BusMove::Remove(Tei::new((place & 0xff) as u8)?)),
        "T201" => Some(BusMove::T201),
        "leave" => Some(BusMove::Leave(place)),
        _ => None,
    }
}

/// The moves that these words describe.
fn moves_of(alloc: Global, words: &str) -> Vec<BusMove> {
    let mut moves = Vec::new(alloc);
    for word in words.split(", ") {
        if let Some(m) = move_of(word) {
            let _ = moves.push(m);
        }
    }
    moves
}

/// Makes the move that these words describe, and writes its outputs, or why it is refused.
fn put_move(bus: &mut Bus, words: &str, text: &mut Text) {
    match move_of(words) {
        Some(m) => match bus.apply(m) {
            Ok(outs) => put_tei_outs(text, outs.as_slice()),
            Err(fault) => put_refused(text, &fault, None),
        },
        None => text.put("no move"),
    }
}

/// Makes the moves that these words describe in one run, and writes how many are refused.
fn put_run(alloc: Global, bus: &mut Bus, words: &str, text: &mut Text) {
    match bus.run(moves_of(alloc, words).as_slice()) {
        Ok(refused) => text.item("refused ", &refused),
        Err(_) => text.put("no memory"),
    }
}

/// Appends a bus: its first two terminals, and its assigner.
fn put_bus(text: &mut Text, bus: &Bus) {
    for place in 0..2 {
        if let Some(terminal) = bus.terminal(place) {
            put_terminal(text, terminal);
        }
    }
    put_assigner(text, bus.assigner());
}

/// Makes a move of a bus, or several in a run, or writes its state.
fn step(alloc: Global, bus: &mut Bus, words: &str, text: &mut Text) {
    let (word, behind) = split(words, " ");
    match word {
        "run" => put_run(alloc, bus, behind, text),
        "shows" => put_bus(text, bus),
        _ => put_move(bus, words, text),
    }
}

impl Stage {
    /// Creates a bus with this many terminals, or runs a step.
    pub(crate) fn step_of_bus(&mut self, words: &str, text: &mut Text) {
        if let Some(count) = words.strip_prefix("begin ") {
            if self.begin_bus(number_of(count) as usize).is_err() {
                text.put("no memory");
            }
        } else if let Some(bus) = self.buses.first_mut() {
            step(self.alloc, bus, words, text);
        }
    }

    fn begin_bus(&mut self, terminals: usize) -> Result<(), AllocError> {
        let bus = Bus::new(self.alloc, terminals)?;
        self.buses.clear();
        self.buses.push(bus)?;
        Ok(())
    }
}
