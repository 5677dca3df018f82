//! One end of a link as plain numbers, and the effect of the table's words on it.

use crate::rows::drawn::table::{FRAMES, PROCEDURES, Table};
use lapd_link::{Link, Timer};
use lapd_test_text::{Text, split};

/// The window of the tested links.
const K: u8 = 127;

/// How often a frame is retransmitted.
const N200: u8 = 3;

/// How many messages the queue has room for.
const ROOM: u16 = 200;

/// The names of values; a condition is 1 or 0. They are the values that a link shows of its end,
/// the received frame, values computed from several numbers, and constants.
const NAMES: &[&str] = &[
    "V(S)",
    "V(A)",
    "V(R)",
    "RC",
    "peer busy",
    "own busy",
    "rejecting",
    "ack pending",
    "L3I",
    "RP",
    "T200",
    "T203",
    "N(S)",
    "N(R)",
    "P",
    "command",
    "long",
    "full",
    "unsent",
    "open",
    "valid",
    "the last again",
    "N200",
    "0",
    "1",
];

const VS: usize = 0;

const VA: usize = 1;

const VR: usize = 2;

const OWN_BUSY: usize = 5;

const ACK_PENDING: usize = 7;

const NS: usize = 12;

const NR: usize = 13;

const P: usize = 14;

const COMMAND: usize = 15;

const LONG: usize = 16;

const FULL: usize = 17;

const UNSENT: usize = 18;

const OPEN: usize = 19;

const VALID: usize = 20;

const LAST_AGAIN: usize = 21;

/// An end of a link, and the frame that it receives. Its messages are numbered, each one more than
/// the one before.
#[derive(Drop)]
pub(super) struct Plain {
    pub(super) network: bool,
    pub(super) state: u8,
    values: [u8; 25],
    /// The received information, in hexadecimal.
    info: &'static str,
    /// The number of the first message in the queue.
    first: u32,
    /// How many are in the queue.
    queued: u16,
    /// How many of them are sent.
    sent: u16,
    /// The line or the frame that was composed last.
    pub(super) line: Text,
    /// The lines that the last step must print.
    pub(super) wanted: Text,
}

/// The steps of one from a number to another.
fn steps(from: u8, to: u8) -> u8 {
    to.wrapping_sub(from) % 128
}

/// The index of the value with this name.
fn place_of(name: &str) -> Option<usize> {
    for (place, known) in NAMES.iter().enumerate() {
        if *known == name {
            return Some(place);
        }
    }
    None
}

/// The text after a name in lines `name | meaning`.
fn meaning(text: &'static str, name: &str) -> Option<&'static str> {
    for line in text.lines() {
        let (known, meaning) = split(line, " | ");
        if known == name {
            return Some(meaning);
        }
    }
    None
}

impl Plain {
    /// An end in state 4.
    pub(super) fn new(network: bool, last_again: bool) -> Plain {
        let mut values = [0; 25];
        values[LAST_AGAIN] = u8::from(last_again);
        values[22] = N200;
        values[24] = 1;
        Plain {
            network,
            state: 4,
            values,
            info: "",
            first: 0,
            queued: 0,
            sent: 0,
            line: Text::new(),
            wanted: Text::new(),
        }
    }

    /// How many I frames are outstanding.
    pub(super) fn outstanding(&self) -> u8 {
        steps(self.values[VA], self.values[VS])
    }

    /// The number this many steps after V(A).
    pub(super) fn behind_va(&self, count: u8) -> u8 {
        self.values[VA].wrapping_add(count) % 128
    }

    /// V(R).
    pub(super) fn vr(&self) -> u8 {
        self.values[VR]
    }

    /// Sets the received N(S), N(R), P, whether the frame is a command and whether it is long, and
    /// its information.
    pub(super) fn receive(&mut self, received: [u8; 5], info: &'static str) {
        let [ns, nr, p, command, long] = received;
        self.values[NS] = ns;
        self.values[NR] = nr;
        self.values[P] = p;
        self.values[COMMAND] = command;
        self.values[LONG] = long;
        self.info = info;
    }

    /// Computes the values that depend on several numbers.
    fn relate(&mut self) {
        let outstanding = self.outstanding();
        let passed = steps(self.values[VA], self.values[NR]);
        self.values[FULL] = u8::from(self.queued == ROOM);
        self.values[UNSENT] = u8::from(self.sent < self.queued);
        self.values[OPEN] = u8::from(outstanding < K);
        self.values[VALID] = u8::from(passed <= outstanding);
    }

    /// Whether its state is one of these digits.
    pub(super) fn is_in(&self, states: &str) -> bool {
        states.as_bytes().contains(&b'0'.wrapping_add(self.state))
    }

    /// Whether all of these conditions hold, separated by `, `, or `-` for none.
    pub(super) fn meets(&self, conditions: &str) -> bool {
        let mut rest = conditions;
        for _ in 0..8 {
            let (condition, behind) = split(rest, ", ");
            if condition != "-" && !self.holds(condition) {
                return false;
            }
            if behind.is_empty() {
                return true;
            }
            rest = behind;
        }
        false
    }

    /// Whether a condition holds.
    fn holds(&self, condition: &str) -> bool {
        match condition.strip_prefix("not ") {
            Some(condition) => self.is_so(condition) == Some(false),
            None => self.is_so(condition) == Some(true),
        }
    }

    /// Whether a condition holds; `None` if the table has no such condition.
    fn is_so(&self, condition: &str) -> Option<bool> {
        let (one, other) = condition.split_once("=").unwrap_or((condition, "1"));
        match (self.value(one), self.value(other)) {
            (Some(one), Some(other)) => Some(one == other),
            _ => None,
        }
    }

    /// The value of this name.
    fn value(&self, name: &str) -> Option<u8> {
        match place_of(name) {
            Some(place) => self.values.get(place).copied(),
            None => None,
        }
    }

    /// Sets the value with this name.
    fn set(&mut self, name: &str, value: u8) {
        if let Some(place) = place_of(name) {
            if let Some(old) = self.values.get_mut(place) {
                *old = value;
            }
        }
    }

    /// Makes a step for an event, and for the event that follows it, if the table has rows for
    /// them.
    pub(super) fn step(&mut self, table: &mut Table, event: &str, then: &str) {
        self.wanted.clear();
        let _ = self.does(table, event);
        let _ = self.does(table, then);
        for _ in 0..u16::from(K) + 1 {
            if !self.does(table, "end") {
                break;
            }
        }
    }

    /// Executes the row for this event, and returns whether there is one.
    fn does(&mut self, table: &mut Table, event: &str) -> bool {
        self.relate();
        match table.taken(event, self) {
            Some(row) => {
                self.act_all(row.actions);
                self.state = row.leads_to(self.state);
                true
            }
            None => false,
        }
    }

    /// Executes actions and procedures, separated by `, `.
    fn act_all(&mut self, actions: &str) {
        let mut rest = actions;
        for _ in 0..8 {
            let (action, behind) = split(rest, ", ");
            self.act_several(meaning(PROCEDURES, action).unwrap_or(action));
            if behind.is_empty() {
                return;
            }
            rest = behind;
        }
    }

    /// Executes actions, separated by `, `.
    fn act_several(&mut self, actions: &str) {
        let mut rest = actions;
        for _ in 0..12 {
            let (action, behind) = split(rest, ", ");
            self.act(action);
            if behind.is_empty() {
                return;
            }
            rest = behind;
        }
    }

    /// Executes an action, or nothing for `-`.
    fn act(&mut self, action: &str) {
        let (word, rest) = split(action, " ");
        match word {
            "-" => {}
            "set" => self.set(rest, 1),
            "clear" => self.set(rest, 0),
            "RC:=0" => self.set("RC", 0),
            "RC:=1" => self.set("RC", 1),
            "START" => self.start(rest),
            "STOP" => self.stop(rest),
            _ => self.act_on_numbers(action),
        }
    }

    /// Starts a timer.
    fn start(&mut self, timer: &str) {
        self.set(timer, 1);
        self.put_line("start ", timer);
    }

    /// Stops a timer, if it runs.
    fn stop(&mut self, timer: &str) {
        if self.value(timer) == Some(1) {
            self.set(timer, 0);
            self.put_line("stop ", timer);
        }
    }

    /// Increments a number, or executes another action.
    fn act_on_numbers(&mut self, action: &str) {
        match action.strip_suffix("+1") {
            Some(name) => {
                let value = self.value(name).unwrap_or(255);
                self.set(name, value.wrapping_add(1) % 128);
            }
            None => self.act_on_messages(action),
        }
    }

    /// Queues or removes messages, or executes another action.
    fn act_on_messages(&mut self, action: &str) {
        match action {
            "QUEUE" => self.queued = self.queued.wrapping_add(1),
            "ACK" => self.acknowledge(),
            "BACK" => self.go_back(),
            "DISCARD" => self.discard(),
            "UP" => self.put_information("data"),
            "UNIT UP" => self.put_information("unit"),
            _ => self.print(action),
        }
    }

    /// Drops all messages.
    fn discard(&mut self) {
        self.put_count("dropped ", self.queued);
        self.sent = 0;
    }

    /// Removes this many messages from the queue, and prints the count if it is not 0.
    fn put_count(&mut self, word: &str, count: u16) {
        self.wanted.named(word, count);
        self.wanted.mark("\n", count > 0);
        self.first = self.first.wrapping_add(u32::from(count));
        self.queued = self.queued.wrapping_sub(count);
    }

    /// V(A) = N(R); the acknowledged messages are removed from the queue.
    fn acknowledge(&mut self) {
        let count = u16::from(steps(self.values[VA], self.values[NR]));
        self.values[VA] = self.values[NR];
        self.sent = self.sent.wrapping_sub(count);
        self.put_count("acknowledged ", count);
    }

    /// The same; then V(S) = N(R), and all remaining messages are unsent.
    fn go_back(&mut self) {
        self.acknowledge();
        self.values[VS] = self.values[NR];
        self.sent = 0;
    }

    /// Sends a frame; any other action is a line to print.
    fn print(&mut self, action: &str) {
        match meaning(FRAMES, action) {
            Some(words) => {
                self.put_words(words);
                self.wanted.put("send ");
                self.wanted.put_octets(self.line.as_bytes());
                self.wanted.put("\n");
            }
            None => self.put_line("", action),
        }
    }

    /// Prints a line of two parts.
    fn put_line(&mut self, word: &str, rest: &str) {
        self.wanted.put(word);
        self.wanted.put(rest);
        self.wanted.put("\n");
    }

    /// Delivers the received information to layer 3.
    fn put_information(&mut self, word: &str) {
        self.wanted.put(word);
        self.wanted.mark(" ", !self.info.is_empty());
        self.wanted.put(self.info);
        self.wanted.put("\n");
    }

    /// Composes the line of an event, or a frame to send, from words: octets, to which `+` adds P,
    /// and letters.
    ///
    /// - `C` and `R` are the address of a command and a response; `c`, `r` and `e` are the peer's,
    ///   `e` for either of both.
    /// - `V0`, `V1` and `V+` are N(R)=V(R) with this P or F.
    /// - `?` is RR, or RNR if own receiver busy is set.
    /// - `S` and `s` are V(S) and the number before it as N(S); `n` is the drawn N(S), and `N` the
    ///   drawn N(R) with P.
    /// - `M`, `m` and `G` are the message that is sent next, the one that was sent last, and the
    ///   one that layer 3 submits next.
    /// - `I` is information, `J` the same after a space, `L` 261 octets, and `_` a space.
    pub(super) fn put_words(&mut self, words: &str) {
        self.line.clear();
        let mut rest = words;
        for _ in 0..8 {
            let (word, behind) = split(rest, " ");
            self.put_word(word);
            if behind.is_empty() {
                return;
            }
            rest = behind;
        }
    }

    /// Appends a word.
    fn put_word(&mut self, word: &str) {
        match word.as_bytes() {
            [b'V', pf] => self.put_nr(*pf),
            [letter] => self.put_letter(*letter),
            [first, second, b'+'] => {
                let octet = first.wrapping_add(self.values[P]);
                self.line.put_octets(&[octet, *second]);
            }
            octets => self.line.put_octets(octets),
        }
    }

    /// Appends N(R)=V(R) with P or F, which acknowledges the received frames.
    fn put_nr(&mut self, pf: u8) {
        let pf = if pf == b'+' {
            self.values[P]
        } else {
            pf.wrapping_sub(b'0')
        };
        self.line.octet(self.values[VR].wrapping_mul(2) | pf);
        self.values[ACK_PENDING] = 0;
    }

    /// Appends the meaning of a letter.
    fn put_letter(&mut self, letter: u8) {
        match letter {
            b'C' | b'r' => self.put_address(self.network),
            b'R' | b'c' => self.put_address(!self.network),
            b'e' => self.put_address((self.values[COMMAND] == 1) != self.network),
            b'?' => self.line.octet(1 | self.values[OWN_BUSY].wrapping_mul(4)),
            b'S' => self.put_doubled(self.values[VS]),
            b's' => self.put_doubled(self.values[VS].wrapping_sub(1)),
            b'n' => self.put_doubled(self.values[NS]),
            b'N' => self
                .line
                .octet(self.values[NR].wrapping_mul(2) | self.values[P]),
            b'M' => self.put_next_message(),
            b'm' => self.put_message(self.sent.wrapping_sub(1)),
            b'G' => self.put_message(self.queued),
            b'J' => {
                self.line.mark(" ", !self.info.is_empty());
                self.line.put(self.info);
            }
            b'L' => self.put_long(),
            b'_' => self.line.put(" "),
            _ => self.line.put(self.info),
        }
    }

    /// Appends the address of a frame with this C/R bit.
    fn put_address(&mut self, is_set: bool) {
        self.line.put(if is_set { "0281" } else { "0081" });
    }

    /// Appends an octet with a number in its high seven bits; the low bit, which may be P, is 0.
    fn put_doubled(&mut self, number: u8) {
        self.line.octet(number.wrapping_mul(2));
    }

    /// Appends 261 octets.
    fn put_long(&mut self) {
        for _ in 0..261u16 {
            self.line.put("aa");
        }
    }

    /// Appends the message at a place of the queue.
    fn put_message(&mut self, place: u16) {
        let number = self.first.wrapping_add(u32::from(place));
        self.line.hex(&number.to_be_bytes());
    }

    /// Appends the message that is sent next.
    fn put_next_message(&mut self) {
        self.put_message(self.sent);
        self.sent = self.sent.wrapping_add(1);
    }

    /// Whether a link shows the values of this end.
    pub(super) fn is_of(&self, link: &Link) -> bool {
        let window = link.window();
        let shown = [
            window.vs().value(),
            window.va().value(),
            window.vr().value(),
            link.rc(),
            u8::from(window.peer_busy()),
            u8::from(window.own_busy()),
            u8::from(window.rejecting()),
            u8::from(window.ack_pending()),
            u8::from(link.layer3_initiated()),
            u8::from(link.release_pending()),
            u8::from(link.running(Timer::T200)),
            u8::from(link.running(Timer::T203)),
        ];
        self.values.starts_with(&shown)
            && link.state() == self.state
            && link.queue().len() == self.queued
            && link.queue().sent() == self.sent
    }
}
