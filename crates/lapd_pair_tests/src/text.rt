//! The state of a pair as text.
//!
//! A side prints as ` state 7, V 3 2 0, RC 1, T200, sent 1 of 03, begun [0], gave 01 02 03, in 1
//! acked 1 acked 1, line 00810106`, in this order:
//!
//! - its state, V(S), V(A) and V(R), each condition that is set, RC, and each timer that runs;
//! - how many messages of its I queue are sent;
//! - for each establishment, how many messages it had received before;
//! - the messages that it submitted, and for each the establishment in which it was last sent (0 if
//!   never) and its fate;
//! - the messages that it `got`, each with the establishment in which it arrived;
//! - the unit data that it received, and the frames in transit to it.

use arrayvec::ArrayVec;
use lapd_frame::Side;
use lapd_link::{IQueue, Link, Timer, Window};
use lapd_pair::{Ending, Fate, Pair, Received};
use lapd_test_text::Text;

/// Appends a space and the octets in hexadecimal digits.
fn put_hex(text: &mut Text, octets: &[u8]) {
    text.put(" ");
    text.hex(octets);
}

/// Appends a word and the frames, if there are any.
pub(crate) fn put_frames(text: &mut Text, word: &str, frames: &[ArrayVec<u8, 264>]) {
    text.mark(word, !frames.is_empty());
    for frame in frames {
        put_hex(text, frame.as_slice());
    }
}

/// Appends the state of both sides.
pub(crate) fn put_pair(text: &mut Text, pair: &Pair) {
    put_side(text, pair, Side::User);
    put_side(text, pair, Side::Network);
}

/// Appends the state of one side.
pub(crate) fn put_side(text: &mut Text, pair: &Pair, side: Side) {
    put_link(text, pair.link(side));
    text.made(", begun ", pair.begun(side));
    put_messages(text, ", gave", pair.given(side));
    put_fates(text, pair.fates(side));
    put_received(text, pair.received(side));
    put_messages(text, ", units", pair.units(side));
    put_frames(text, ", line", pair.line(side));
}

fn put_link(text: &mut Text, link: &Link) {
    text.shown(" state ", &link.state());
    put_window(text, &link.window());
    text.shown(", RC ", &link.rc());
    text.mark(", T200", link.running(Timer::T200));
    text.mark(", T203", link.running(Timer::T203));
    text.mark(", layer 3 initiated", link.layer3_initiated());
    text.mark(", release pending", link.release_pending());
    put_queue(text, link.queue());
}

fn put_window(text: &mut Text, window: &Window) {
    text.shown(", V ", &window.vs().value());
    text.shown(" ", &window.va().value());
    text.shown(" ", &window.vr().value());
    text.mark(", other busy", window.peer_busy());
    text.mark(", busy", window.own_busy());
    text.mark(", rejecting", window.rejecting());
    text.mark(", acknowledge pending", window.ack_pending());
}

fn put_queue(text: &mut Text, queue: &IQueue) {
    if !queue.is_empty() {
        text.shown(", sent ", &queue.sent());
        text.put(" of");
    }
    for place in 0..queue.len() {
        put_hex(text, queue.at(place));
    }
}

fn put_messages(text: &mut Text, word: &str, messages: &[Vec<u8>]) {
    text.mark(word, !messages.is_empty());
    for message in messages {
        put_hex(text, message.as_slice());
    }
}

fn put_fates(text: &mut Text, fates: &[Fate]) {
    text.mark(", in", !fates.is_empty());
    for fate in fates {
        text.shown(" ", &fate.sent_in.unwrap_or(0));
        text.mark(" acked", fate.end == Ending::Acked);
        text.mark(" dropped", fate.end == Ending::Dropped);
    }
}

fn put_received(text: &mut Text, received: &[Received]) {
    text.mark(", got", !received.is_empty());
    for message in received {
        put_hex(text, message.octets.as_slice());
        text.shown(" in ", &message.establishment);
    }
}
