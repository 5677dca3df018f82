//! The program `lapd_bench`: it passes messages over a data link of the ISDN D channel (ITU-T
//! Q.921) with both of its ends in memory, so that the work of a message can be counted.
//!
//! The user submits seven messages, a whole window, of 20 octets each. Each is sent to the network
//! as the octets of an I frame, and the network returns the octets of an RR frame, before the next
//! seven are submitted. The command line is one of:
//!
//! - `[MESSAGES]`: passes this many messages, 1,000 by default, between two `Link`s without a
//!   history.
//! - `pair MESSAGES`: passes them over a pair of `lapd_pair`, which keeps the history of each.
//! - `line FRAMES MOVES`: puts this many frames on the line of a pair, and then sends and delivers
//!   this many more.
//! - `table LINKS FRAMES`: passes this many enquiries, one after another to each link of a table of
//!   `lapd_table`, and writes the responses.
//! - `side LINKS FRAMES`: passes I frames to the links of a side of `lapd_sides`.
//! - `tick LINKS TIMES`: calls `tick` of such a side while no timer is due.
//! - `expire LINKS TIMES`: lets the timers of all links of such a side expire at the same moment.
//!
//! It prints how many messages were submitted, received and acknowledged; for `tick` and `expire`
//! how many times it was done and how many timers were due. Begin with `run`.
#![tactic(auto)]

mod bench_fault;
mod done;
mod end;
mod over_pair;
mod over_side;
mod over_table;
mod wire;

use bench_fault::BenchFault;
use done::Done;
use end::End;
use lapd_frame::Side;
use over_side::SideEvent;
use std::alloc::Global;
use std::env::Args;
use std::process::ExitCode;
use std::{env, io};
use wire::Wire;

/// How many messages are passed by default.
const MESSAGES: u32 = 1_000;

/// How many messages are submitted before the first is acknowledged: the window of primary rate
/// access.
const WINDOW: u32 = 7;

/// How many octets a message has.
const OCTETS: usize = 20;

fn main(rt: HostRuntime) -> ExitCode {
    match run_asked(&rt) {
        Ok(done) => status(show(&rt, done)),
        Err(fault) => {
            let _ = eprintln!(rt; "{}", fault.text());
            ExitCode::FAILURE
        }
    }
}

/// The exit status, by the result of printing.
fn status(shown: io::Result<()>) -> ExitCode {
    match shown {
        Ok(()) => ExitCode::SUCCESS,
        Err(_) => ExitCode::FAILURE,
    }
}

/// Prints what was done.
fn show(rt: &HostRuntime, done: Done) -> io::Result<()> {
    let Done {
        given,
        received,
        acknowledged,
    } = done;
    println!(rt; "{given} given, {received} received, {acknowledged} acknowledged")
}

/// Executes the command line.
fn run_asked(rt: &HostRuntime) -> Result<Done, BenchFault> {
    match env::args(rt) {
        Ok(mut words) => run_words(rt.alloc(), &mut words),
        Err(_) => Err(BenchFault::CommandLine),
    }
}

/// Executes the command in these words. The first is the program's name.
fn run_words(alloc: Global, words: &mut Args) -> Result<Done, BenchFault> {
    let _program = words.next();
    match words.next() {
        Some(word) => run_word(alloc, word.as_str(), words),
        None => run(alloc, MESSAGES),
    }
}

/// Executes the command of this word, with the numbers after it.
fn run_word(alloc: Global, word: &str, words: &mut Args) -> Result<Done, BenchFault> {
    let first = next_number(words)?;
    let second = next_number(words)?;
    if words.next().is_some() {
        return Err(BenchFault::CommandLine);
    }
    match (first, second) {
        (None, _) => run(alloc, number(word)?),
        (Some(times), None) if word == "pair" => over_pair::pass(alloc, times),
        (Some(_), None) => Err(BenchFault::CommandLine),
        (Some(count), Some(times)) => run_with_two(alloc, word, count, times),
    }
}

/// Executes the command of this word with two numbers.
fn run_with_two(alloc: Global, word: &str, count: u32, times: u32) -> Result<Done, BenchFault> {
    match word {
        "line" => over_pair::exchange(alloc, count, times),
        "table" => over_table::answer(alloc, count, times),
        "side" => over_side::pass(alloc, count, SideEvent::Take(times)),
        "tick" => over_side::pass(alloc, count, SideEvent::Tick(times)),
        "expire" => over_side::pass(alloc, count, SideEvent::Expire(times)),
        _ => Err(BenchFault::CommandLine),
    }
}

/// The number in the next word, if there is one.
fn next_number(words: &mut Args) -> Result<Option<u32>, BenchFault> {
    match words.next() {
        Some(word) => some_number(word.as_str()),
        None => Ok(None),
    }
}

/// The number in a word, for a caller whose word may be missing.
fn some_number(word: &str) -> Result<Option<u32>, BenchFault> {
    Ok(Some(number(word)?))
}

/// The number in a word.
fn number(word: &str) -> Result<u32, BenchFault> {
    match word.parse::<u32>() {
        Ok(number) => Ok(number),
        Err(_) => Err(BenchFault::CommandLine),
    }
}

/// The two ends of the link, and the two directions of the line between them.
#[derive(Drop)]
struct Pair {
    user: End,
    network: End,
    to_network: Wire,
    to_user: Wire,
}

/// Establishes the link, and passes this many messages over it from the user to the network.
fn run(alloc: Global, messages: u32) -> Result<Done, BenchFault> {
    let user = End::new(alloc, Side::User)?;
    run_from(alloc, user, messages)
}

/// Passes this many messages from this end to a new one.
fn run_from(alloc: Global, user: End, messages: u32) -> Result<Done, BenchFault> {
    let network = End::new(alloc, Side::Network)?;
    let mut pair = Pair::new(user, network);
    pair.run(alloc, messages)
}

impl Pair {
    fn new(user: End, network: End) -> Pair {
        Pair {
            user,
            network,
            to_network: Wire::new(Side::User),
            to_user: Wire::new(Side::Network),
        }
    }

    /// Establishes the link, and passes this many messages a window at a time.
    fn run(&mut self, alloc: Global, messages: u32) -> Result<Done, BenchFault> {
        self.establish()?;
        for _ in 0..messages / WINDOW {
            self.pass(WINDOW)?;
        }
        self.pass(messages % WINDOW)?;
        Ok(Done {
            given: self.user.given,
            received: self.network.received,
            acknowledged: self.user.acknowledged,
        })
    }

    /// The user requests the link, and the network responds.
    fn establish(&mut self) -> Result<(), BenchFault> {
        self.user.establish(&mut self.to_network)?;
        self.cross()
    }

    /// The user submits this many messages, and receives their acknowledgements.
    fn pass(&mut self, messages: u32) -> Result<(), BenchFault> {
        for number in 0..messages {
            let octets = [(number % 256) as u8; OCTETS];
            self.user.give(&octets, &mut self.to_network)?;
        }
        self.cross()
    }

    /// Delivers the frames on the line to the network, and its responses to the user.
    fn cross(&mut self) -> Result<(), BenchFault> {
        self.network
            .receive(&mut self.to_network, &mut self.to_user)?;
        self.user.receive(&mut self.to_user, &mut self.to_network)
    }
}
