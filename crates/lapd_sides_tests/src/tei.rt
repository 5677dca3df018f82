//! Timers and TEI management (Q.921 5.3), driven by words.

use crate::shows::{
    name_of, put_assigner, put_tei_message, put_tei_outs, put_terminal, put_timers,
};
use crate::talk::{octets_of, tei};
use crate::text::{number_of, numbers_of};
use lapd_frame::Side;
use lapd_tei::{Assigner, AssignerEvent, Tei, TeiKind, TeiMessage, Terminal, TerminalEvent};
use lapd_test_text::{Text, split};
use lapd_timers::{Durations, Timer, TimerSet};
use std::alloc::Global;

/// The timer with this name.
fn timer_of(name: &str) -> Option<Timer> {
    match name {
        "T200" => Some(Timer::T200),
        "T201" => Some(Timer::T201),
        "T202" => Some(Timer::T202),
        "T203" => Some(Timer::T203),
        _ => None,
    }
}

/// Resets the timers, starts or stops one of them, or writes the due timer, or which durations are
/// accepted.
pub(crate) fn step_of_timers(timers: &mut TimerSet, words: &str, text: &mut Text) {
    let (word, behind) = split(words, " ");
    match word {
        "new" => *timers = TimerSet::new(Durations::standard()),
        "due" => text.item_if("", timers.due(number_of(behind))),
        "durations" => put_durations(behind, text),
        _ => put_timed(timers, word, behind, text),
    }
}

/// Starts or stops a timer, and writes which timers run then.
fn put_timed(timers: &mut TimerSet, word: &str, behind: &str, text: &mut Text) {
    let (name, now) = split(behind, " ");
    match timer_of(name) {
        Some(timer) if word == "start" => timers.start(timer, number_of(now)),
        Some(timer) => timers.stop(timer),
        None => text.put("no timer"),
    }
    put_timers(text, Some(timers));
}

/// Writes the durations with these values.
fn put_durations(words: &str, text: &mut Text) {
    let [t200, t201, t202, t203] = numbers_of(words);
    match Durations::new(t200, t201, t202, t203) {
        Some(durations) => {
            for timer in [Timer::T200, Timer::T201, Timer::T202, Timer::T203] {
                text.put(timer.name());
                text.item(" ", &durations.of(timer));
            }
        }
        None => text.put("refused"),
    }
}

/// The kind with this name.
fn kind_of(name: &str) -> Option<TeiKind> {
    for number in 1..8 {
        match TeiKind::new(number) {
            Some(kind) if name_of(kind) == name => return Some(kind),
            _ => {}
        }
    }
    None
}

/// The message that these words describe: its kind, Ri and Ai.
fn message_of(words: &str) -> Option<TeiMessage> {
    let (name, behind) = split(words, " ");
    let [ri, ai, _, _] = numbers_of(behind);
    Some(TeiMessage {
        ri: (ri & 0xffff) as u16,
        kind: kind_of(name)?,
        ai: (ai & 0xff) as u8,
    })
}

/// Writes the message that is read from the information of a frame; or the octets of a message that
/// a side sends, and the message that is read from them.
pub(crate) fn step_of_messages(alloc: Global, words: &str, text: &mut Text) {
    let (word, behind) = split(words, " ");
    match word {
        "user" => put_sent(behind, Side::User, text),
        "net" => put_sent(behind, Side::Network, text),
        _ => match octets_of(alloc, behind) {
            Some(octets) => put_read(octets.as_slice(), text),
            None => text.put("no memory"),
        },
    }
}

fn put_read(info: &[u8], text: &mut Text) {
    match TeiMessage::read(info) {
        Ok(message) => put_tei_message(text, &message),
        Err(fault) => text.put(fault.name()),
    }
}

fn put_sent(words: &str, from: Side, text: &mut Text) {
    if let Some(message) = message_of(words) {
        if message.ai <= 127 {
            let octets = message.frame(from);
            text.hex(&octets);
            text.put(" ");
            put_read(&octets[3..], text);
        }
    }
}

/// The reference in a word, or 0.
fn reference_of(word: &str) -> u16 {
    word.parse::<u16>().unwrap_or(0)
}

/// The event of a terminal that these words describe. A response to a received message has the
/// reference 7.
fn terminal_event(words: &str) -> Option<TerminalEvent> {
    let (word, behind) = split(words, " ");
    match word {
        "ask" => Some(TerminalEvent::Ask(reference_of(behind))),
        "want" => Some(TerminalEvent::Want(reference_of(behind))),
        "T202" => Some(TerminalEvent::T202(reference_of(behind))),
        "leave" => Some(TerminalEvent::Leave),
        _ => Some(TerminalEvent::Heard(message_of(words)?, 7)),
    }
}

/// Creates a terminal, with TEI 64 or without a TEI, or passes it an event. Writes its outputs and
/// its state.
pub(crate) fn step_of_terminal(terminal: &mut Terminal, words: &str, text: &mut Text) {
    match words {
        "begins" => *terminal = Terminal::new(None),
        "begins 64" => *terminal = Terminal::new(Some(tei(64))),
        _ => match terminal_event(words) {
            Some(event) => put_tei_outs(text, terminal.handle(event).as_slice()),
            None => text.put("no event"),
        },
    }
    put_terminal(text, terminal);
}

/// An assigner that knows these TEIs.
fn begun(known: &str) -> Assigner {
    match known {
        "64" => Assigner::new(&[tei(64)]),
        "64 3 64" => Assigner::new(&[tei(64), tei(3), tei(64)]),
        _ => Assigner::new(&[]),
    }
}

/// The event of an assigner that these words describe.
fn assigner_event(words: &str) -> Option<AssignerEvent> {
    let (word, behind) = split(words, " ");
    match word {
        "check" => Some(AssignerEvent::Check(Tei::new((number_of(behind) & 0xff) as u8)?)),
        "remove" => Some(AssignerEvent::Remove(Tei::new((number_of(behind) & 0xff) as u8)?)),
        "T201" => Some(AssignerEvent::T201),
        _ => Some(AssignerEvent::Heard(message_of(words)?)),
    }
}

/// Creates an assigner that knows some TEIs, or passes it an event. Writes its outputs and its
/// state.
pub(crate) fn step_of_assigner(assigner: &mut Assigner, words: &str, text: &mut Text) {
    if let Some(known) = words.strip_prefix("begins") {
        *assigner = begun(known.trim_start());
    } else if let Some(event) = assigner_event(words) {
        put_tei_outs(text, assigner.handle(event).as_slice());
    }
    put_assigner(text, assigner);
}
