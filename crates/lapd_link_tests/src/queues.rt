//! The I queue (Q.921 5.5, 5.6).

use crate::rows::put_queue;
use crate::text::number_of;
use lapd_queue::IQueue;
use lapd_test_text::Text;
use std::alloc::Global;

/// Operations on a queue; their results; and its messages, the sent ones first.
pub(crate) const ROWS: &str = "\
# Two messages fill a queue with room for two, and go out of it: the third of two is handed back.
queue room 2 | 2
queue put 61 | unsent 61
queue put 62 | unsent 61 62
queue put 63 | back 63 unsent 61 62
queue send | sent 61 unsent 62
queue acknowledge 1 | unsent 62
queue discard | 1

# Three messages are taken and two sent, and then all are unsent again, in their order.
queue room 3 | 3
queue put 01 | unsent 01
queue put 02 | unsent 01 02
queue put 03 | unsent 01 02 03
queue send | sent 01 unsent 02 03
queue send | sent 01 02 unsent 03
queue back | unsent 01 02 03

# Two messages go out of a queue with room for three, and two more take their places.
queue send | sent 01 unsent 02 03
queue send | sent 01 02 unsent 03
queue acknowledge 2 | unsent 03
queue put 0405 | unsent 03 0405
queue put 06 | unsent 03 0405 06
queue put 07 | back 07 unsent 03 0405 06
queue send | sent 03 unsent 0405 06
queue send | sent 03 0405 unsent 06
queue send | sent 03 0405 06
queue send | none sent 03 0405 06
queue acknowledge 3 |

# A message in the room of an acknowledged one has its own octets alone, and so have a longer one,
# one beside it, and one after all are discarded.
queue room 2 | 2
queue new 616263 | unsent 616263
queue send | sent 616263
queue acknowledge 1 |
queue new 64 | unsent 64
queue send | sent 64
queue acknowledge 1 |
queue new 000102030405060708090a0b0c0d0e0f1011 | unsent 000102030405060708090a0b0c0d0e0f1011
queue new 6566 | unsent 000102030405060708090a0b0c0d0e0f1011 6566
queue send | sent 000102030405060708090a0b0c0d0e0f1011 unsent 6566
queue acknowledge 1 | unsent 6566
queue discard | 1
queue new 6768 | unsent 6768
# The largest queue takes 1,024 messages, and hands one more back.
queue room 1024 | 1024
queue fill | 1024 1024

# A thousand messages go through a queue with room for three, each at the first place in turn.
queue room 3 | 3
queue pass | 1000
";

/// Executes an operation on a queue.
pub(crate) fn put(text: &mut Text, alloc: Global, queue: &mut IQueue, action: &str, word: &str) {
    match action {
        "room" => renew(text, alloc, queue, number_of(word)),
        "put" => put_message(text, queue, hex::decode(alloc, word).ok()),
        "new" => {
            let message = new_message(alloc, queue, word);
            put_message(text, queue, message);
        }
        "send" => text.mark(" none", !sends(queue)),
        "acknowledge" => text.mark(" none", !acknowledges(queue, number_of(word))),
        "back" => queue.go_back(),
        "discard" => text.shown(" ", &queue.discard()),
        "pass" => pass(text, queue),
        _ => fill(text, alloc, queue),
    }
    put_queue(text, queue);
    text.mark(" otherwise", !agrees(queue));
}

/// Makes a new queue with this room, and appends its room.
fn renew(text: &mut Text, alloc: Global, queue: &mut IQueue, room: u16) {
    if 1 <= room && room <= 1024 {
        if let Ok(made) = IQueue::new(alloc, room) {
            *queue = made;
        }
    }
    text.shown(" ", &queue.room());
}

/// Queues a message, and appends the message that is returned, if any.
fn put_message(text: &mut Text, queue: &mut IQueue, message: Option<Vec<u8>>) {
    match message {
        Some(message) => match queue.put(message) {
            Ok(()) => {}
            Err(back) => {
                text.put(" back ");
                text.hex(back.as_slice());
            }
        },
        None => text.put(" no octets"),
    }
}

/// A message with these octets, in a room that the queue keeps, if it keeps one.
fn new_message(alloc: Global, queue: &mut IQueue, digits: &str) -> Option<Vec<u8>> {
    match hex::decode(alloc, digits) {
        Ok(octets) => queue.new_message(octets.as_slice()).ok(),
        Err(_) => None,
    }
}

/// Marks the first unsent message as sent, if there is one.
fn sends(queue: &mut IQueue) -> bool {
    if queue.unsent() == 0 {
        return false;
    }
    queue.sent_one();
    true
}

/// Removes the first `n` messages, if as many are sent.
fn acknowledges(queue: &mut IQueue, n: u16) -> bool {
    if n > queue.sent() {
        return false;
    }
    queue.acknowledge(n);
    true
}

/// Whether the functions of a queue agree with each other.
fn agrees(queue: &IQueue) -> bool {
    for place in 0..queue.len() {
        if queue.get(place) != Some(queue.at(place)) {
            return false;
        }
    }
    queue.get(queue.len()).is_none()
        && queue.unsent() == queue.len().wrapping_sub(queue.sent())
        && queue.is_empty() == (queue.len() == 0)
}

/// Queues empty messages until one is returned, and drops all: appends how many were queued and
/// dropped.
fn fill(text: &mut Text, alloc: Global, queue: &mut IQueue) {
    let mut taken = 0u16;
    for _ in 0..2000u16 {
        match queue.put(Vec::new(alloc)) {
            Ok(()) => taken = taken.wrapping_add(1),
            Err(_) => break,
        }
    }
    text.shown(" ", &taken);
    text.shown(" ", &queue.discard());
}

/// Queues, sends and acknowledges a thousand messages one by one: appends how many succeeded.
fn pass(text: &mut Text, queue: &mut IQueue) {
    let mut passed = 0u16;
    for number in 0..1000u16 {
        if passes(queue, &number.to_be_bytes()) {
            passed = passed.wrapping_add(1);
        }
    }
    text.shown(" ", &passed);
}

/// Whether a message can be queued, sent and acknowledged, at the first place.
fn passes(queue: &mut IQueue, octets: &[u8]) -> bool {
    match queue.new_message(octets) {
        Ok(message) => {
            queue.put(message).is_ok()
                && queue.get(0) == Some(octets)
                && sends(queue)
                && acknowledges(queue, 1)
        }
        Err(_) => false,
    }
}
