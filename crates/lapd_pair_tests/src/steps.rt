//! Steps of a pair as text, such as `user give 0801: 008100000801`: a move, and after the colon its
//! expected result.
//!
//! The result of a move is the frames that it puts on the line, in hexadecimal, or `nothing`. If a
//! row expects them, the outputs follow after `reporting`. A refused move results in `refused` and the
//! fault, and must leave the state of the pair unchanged. `user shows` prints the state of a side,
//! `ends` both states with what the network received and what the user dropped, `settle` and
//! `recover` whether no move is possible any more (and how many they took, if more than allowed),
//! and `run` how many of its moves are skipped because they are refused. After each step both
//! histories must be safe.
//!
//! A step whose allocation fails is noted and made again; the second result must be the expected
//! one.

use crate::losses::lose_tenths;
use crate::made::{Ends, new_pair};
use crate::named::{move_of, split};
use crate::safe::are_safe;
use crate::text::{put_frames, put_pair, put_side};
use lapd_frame::Side;
use lapd_link::Recovery::{Enquiry, LastMessage};
use lapd_pair::{Move, Pair, PairFault, Settled};
use lapd_test_text::Text;
use std::alloc::Global;
use std::test::Fail;

/// The result of a step whose allocation fails or whose words are unknown.
const NO_MEMORY: &str = " refused P5 Memory";

/// The state while rows of steps are made.
#[derive(Drop)]
struct Scene {
    alloc: Global,
    /// The pair of the row.
    pair: Option<Pair>,
    /// The result of the last step.
    text: Text,
    /// The name of the row, and below it the line of the step.
    row: &'static str,
    line: &'static str,
    /// The last step whose allocation failed, or an empty text.
    refused: &'static str,
}

/// Makes rows of steps with new pairs. A line that begins with `#` names a row.
pub(crate) fn lead(rt: &HostRuntime, rows: &'static str) -> Result<(), Fail> {
    let mut scene = Scene {
        alloc: rt.alloc(),
        pair: None,
        text: Text::new(),
        row: "",
        line: "",
        refused: "",
    };
    scene.lead(rt, rows)
}

impl Scene {
    /// Makes the rows, and fails at the first step with a wrong result.
    fn lead(&mut self, rt: &HostRuntime, rows: &'static str) -> Result<(), Fail> {
        let mut all_hold = true;
        for line in rows.lines() {
            all_hold = all_hold && self.holds(line);
        }
        self.report(rt, all_hold)
    }

    /// Prints the step whose allocation failed, and fails if a step has the wrong result.
    fn report(&self, rt: &HostRuntime, all_hold: bool) -> Result<(), Fail> {
        if !self.refused.is_empty() {
            println!(rt; "memory is refused: {}", self.refused)?;
        }
        if all_hold {
            Ok(())
        } else {
            let row = self.row;
            let line = self.line;
            let printed = self.text.as_str();
            Err(Fail::new(format_args!("{row}: {line}, and not{printed}")))
        }
    }

    /// Whether a step has the result written after its colon, on the second try if an allocation
    /// fails on the first. Always true for the name of a row.
    fn holds(&mut self, line: &'static str) -> bool {
        if line.starts_with("#") {
            self.row = line;
            return true;
        }
        self.line = line;
        let (words, wanted) = split(line, ":");
        self.make(words, wanted);
        if self.text.as_str().ends_with("P5 Memory") {
            self.refused = line;
            self.make(words, wanted);
        }
        self.text.as_str() == wanted
    }

    /// Makes a step or creates a new pair.
    fn make(&mut self, words: &str, wanted: &str) {
        self.text.clear();
        if words.starts_with("new") {
            self.renew(words);
        } else if let Some(pair) = &mut self.pair {
            keep(self.alloc, pair, words, wanted, &mut self.text);
        }
    }

    /// Creates a new pair.
    fn renew(&mut self, words: &str) {
        self.pair = new_pair(self.alloc, ends_of(words));
        self.text.mark(" made", self.pair.is_some());
        self.text.mark(NO_MEMORY, self.pair.is_none());
    }
}

/// The parameters of both ends.
fn ends_of(words: &str) -> Ends {
    match words {
        "new, k=1" => (1, 512, Enquiry, Enquiry),
        "new, k=1, room for two" => (1, 2, Enquiry, Enquiry),
        "new, k=3" => (3, 512, Enquiry, Enquiry),
        "new, k=3, user with last message" => (3, 512, LastMessage, Enquiry),
        "new, k=3, both with last message" => (3, 512, LastMessage, LastMessage),
        _ => (127, 512, Enquiry, Enquiry),
    }
}

/// Makes a step, and notes a refused step that changed the pair, and an unsafe history.
fn keep(alloc: Global, pair: &mut Pair, words: &str, wanted: &str, text: &mut Text) {
    let mut before = Text::new();
    put_pair(&mut before, pair);
    act(alloc, pair, words, wanted, text);
    let mut now = Text::new();
    put_pair(&mut now, pair);
    let is_changed = text.as_str().starts_with(" refused") && now.as_str() != before.as_str();
    text.mark(", and changed", is_changed);
    text.mark(", and unsafe", !are_safe(pair));
}

/// Makes a step, and writes its result.
fn act(alloc: Global, pair: &mut Pair, words: &str, wanted: &str, text: &mut Text) {
    match words {
        "user shows" => put_side(text, pair, Side::User),
        "net shows" => put_side(text, pair, Side::Network),
        "ends" => put_ends(pair, text),
        "settle" => put_done(pair.settle(), 0, text),
        "settle in at most 9" => put_done(pair.settle(), 9, text),
        "recover" => put_done(pair.recover(), 0, text),
        "lose every tenth" => lose_tenths(alloc, pair, text),
        _ if words.starts_with("run") => run(alloc, pair, words, text),
        _ => make_named(alloc, pair, words, wanted, text),
    }
}

/// Writes whether the line is at rest, and how many moves that took, if more than `most`.
fn put_done(done: Result<Settled, PairFault>, most: u64, text: &mut Text) {
    match done {
        Ok(done) => {
            if done.moves > most {
                text.shown(" moves ", &done.moves);
            }
            text.mark(" at rest", done.rest);
        }
        Err(fault) => text.shown(" stopped ", &fault),
    }
}

/// Writes the states of both ends, how many messages the network received, and how many of the
/// user's are dropped.
fn put_ends(pair: &Pair, text: &mut Text) {
    text.shown(" ", &pair.link(Side::User).state());
    text.shown(" ", &pair.link(Side::Network).state());
    text.shown(", received ", &pair.received(Side::Network).len());
    text.shown(", dropped ", &pair.dropped(Side::User));
}

/// Makes the moves after the word `run`, separated by `, `, in one call, and writes how many are
/// skipped.
fn run(alloc: Global, pair: &mut Pair, words: &str, text: &mut Text) {
    let mut all = Vec::new(alloc);
    let are_put = put_moves(alloc, words, &mut all);
    match pair.run(all.as_slice()) {
        Ok(refused) if are_put => text.shown(" skipped ", &refused),
        _ => text.put(" stopped"),
    }
}

/// Appends the moves after the word `run`. Returns whether all are moves and no allocation failed.
fn put_moves(alloc: Global, words: &str, all: &mut Vec<Move>) -> bool {
    let mut are_put = true;
    for words in words.split(", ") {
        are_put = put_move(alloc, words, all) && are_put;
    }
    are_put
}

fn put_move(alloc: Global, words: &str, all: &mut Vec<Move>) -> bool {
    match move_of(alloc, words) {
        Some(mv) => all.push(mv).is_ok(),
        None => words == "run",
    }
}

fn make_named(alloc: Global, pair: &mut Pair, words: &str, wanted: &str, text: &mut Text) {
    match move_of(alloc, words) {
        Some(mv) => make_move(pair, &mv, wanted, text),
        None => text.put(NO_MEMORY),
    }
}

/// Makes a move, and writes its result.
fn make_move(pair: &mut Pair, mv: &Move, wanted: &str, text: &mut Text) {
    let to = mv.side().other();
    let before = pair.line(to).len();
    match pair.apply(mv) {
        Ok(outs) => {
            let sent = pair.line(to).get(before..).unwrap_or(&[]);
            text.mark(" nothing", sent.is_empty());
            put_frames(text, "", sent);
            if wanted.ends_with("]") {
                text.made(" tells ", outs.as_slice());
            }
        }
        Err(fault) => text.shown(" refused ", &fault),
    }
}
