ghost use Rattle.std.specs.Prelude.{◌≡◌, ◌+◌, ◌-◌, ◌<◌, ◌≤◌, ◌==◌, length, map, drop, slice_get, option_copied, Some, IfOk, IfErr, OnOk, OnErr, is_err};
ghost use Rattle.circular_buffer.specs.Buffer.{buffer};
ghost use Rattle.lapd_queue.specs.Waiting.{with_room, with_message, one_more_sent, without_first, all_unsent, emptied};

use arrayvec::ArrayVec;
use circular_buffer::HeapCircularBuffer;
use std::alloc::{AllocError, Global};
use std::marker::Model;

/// Messages of layer 3 in the order of their requests; some at the front are sent.
///
/// The queue is a ring of a fixed size: no call but `new` and `new_message` allocates. It keeps the
/// rooms of up to eight acknowledged messages, for the next ones.
#[derive(Drop)]
pub struct IQueue {
    messages: HeapCircularBuffer<Vec<u8>>,
    sent: u16,
    /// The rooms of acknowledged messages, with the octets that were in them.
    kept: ArrayVec<Vec<u8>, 8, Global>,
}

impl Model for IQueue {
    ghost use Rattle.std.specs.Prelude.{length, map};
    ghost use Rattle.lapd_queue.specs.Waiting.{Waiting, IsSound};

    ghost Value = { Waiting };

    ghost view = { λ q. record {
      messages = map (λ m. m.items) q.messages.items;
      sent = q.sent;
      room = q.messages.capacity;
    } };

    ghost invariant = { λ q. IsSound q.sent (length q.messages.items) q.messages.capacity };
}

#[tactic(auto, using(crate::proofs::Messages::messages), unfolding(crate::specs::Waiting::with_room, crate::specs::Waiting::with_message, crate::specs::Waiting::one_more_sent, crate::specs::Waiting::without_first, crate::specs::Waiting::all_unsent, crate::specs::Waiting::emptied))]
impl IQueue {
    /// Makes an empty queue with room for `room` messages, from 1 to 1,024, or fails if it can't be
    /// allocated.
    pub fn new(alloc: Global, room: u16) -> Result<IQueue, AllocError>
        requires positive { 1 ≤ room }
        requires at_most { room ≤ 1024 }
        ensures { IfOk result (λ q. q ≡ with_room room) }
    {
        Ok(IQueue {
            messages: HeapCircularBuffer::with_capacity(alloc, usize::from(room))?,
            sent: 0,
            kept: ArrayVec::new_in(alloc),
        })
    }

    /// How many messages there is room for, at most 1,024.
    pub fn room(&self) -> u16
        ensures count { result ≡ self.now.room }
        ensures at_most { result ≤ 1024 }
    {
        self.messages.capacity() as u16
    }

    /// How many messages it holds, sent or not.
    pub fn len(&self) -> u16
        ensures count { result ≡ length self.now.messages }
        ensures at_most { result ≤ self.now.room }
    {
        self.messages.len() as u16
    }

    /// Whether it holds no message.
    pub fn is_empty(&self) -> bool
        ensures { result ≡ (length self.now.messages == 0) }
    {
        self.messages.is_empty()
    }

    /// How many messages at the front are sent.
    pub fn sent(&self) -> u16
        ensures count { result ≡ self.now.sent }
        ensures at_most { result ≤ length self.now.messages }
    {
        self.sent
    }

    /// How many messages are not sent.
    pub fn unsent(&self) -> u16
        ensures count { result ≡ length self.now.messages - self.now.sent }
        ensures rest { self.now.sent + result ≡ length self.now.messages }
    {
        self.len() - self.sent
    }

    /// The octets of the message at place `i`, counted from 0 at the front and below `len`.
    pub fn at(&self, i: u16) -> &[u8]
        requires { i < length self.now.messages }
        ensures { slice_get self.now.messages i ≡ Some result.now }
    {
        let Some(message) = self.messages.get(usize::from(i)) else {
            unreachable!()
        };
        message.as_slice()
    }

    /// The octets of the message at place `i`, counted from 0 at the front; `None` if `i` is not
    /// below `len`.
    pub fn get(&self, i: u16) -> Option<&[u8]>
        ensures { option_copied result ≡ slice_get self.now.messages i }
    {
        self.messages.get(usize::from(i)).map(Vec::as_slice)
    }

    /// A message with these octets, to be passed to `put`. Uses the room of an acknowledged message
    /// if one is kept, so it allocates only if none is kept or the room is too small.
    ///
    /// # Errors
    ///
    /// `AllocError` if the allocation fails.
    #[inline(always)]
    pub fn new_message(&mut self, octets: &[u8]) -> Result<Vec<u8>, AllocError>
        ensures octets { IfOk result (λ message. message.items ≡ octets.now) }
        ensures unchanged { self.new ≡ self.old }
    {
        let alloc = *self.kept.allocator();
        let mut message = self.kept.pop().unwrap_or(Vec::new(alloc));
        message.clear();
        message.extend_from_slice(octets)?;
        Ok(message)
    }

    /// Appends a message, unsent (Q.921 5.6.1). If the queue is full, the message is returned and
    /// the queue is unchanged.
    #[inline(always)]
    pub fn put(&mut self, message: Vec<u8>) -> Result<(), Vec<u8>>
        ensures full { is_err result ≡ (length self.old.messages == self.old.room) }
        ensures ok { OnOk result (self.new ≡ with_message message.items self.old) }
        ensures returned { IfErr result (λ back. back ≡ message) }
        ensures unchanged { OnErr result (self.new ≡ self.old) }
    {
        self.messages.try_push_back(message)
    }

    /// Marks the first unsent message as sent (Q.921 5.6.1). At least one message must be unsent.
    pub fn sent_one(&mut self)
        requires { self.old.sent < length self.old.messages }
        ensures { self.new ≡ one_more_sent self.old }
    {
        self.sent += 1;
    }

    /// Removes the `n` messages at the front, at most `sent`, which are now acknowledged (Q.921
    /// 5.6.3.2). Keeps their rooms, until it has eight. The cost grows with `n` and not with the
    /// length of the queue.
    #[inline(always)]
    pub fn acknowledge(&mut self, n: u16)
        requires { n ≤ self.old.sent }
        ensures left { self.new ≡ without_first n self.old }
        ensures were_there { n ≤ length self.old.messages }
    {
        for _ in 0..n {
            let Some(message) = pop_first(&mut self.messages) else {
                unreachable!()
            };
            keep(&mut self.kept, message);
        }
        self.sent -= n;
    }

    /// Marks all messages as unsent, to be retransmitted (Q.921 5.6.4).
    pub fn go_back(&mut self)
        ensures { self.new ≡ all_unsent self.old }
    {
        self.sent = 0;
    }

    /// Drops all messages, sent or not, and returns how many there were (Q.921 5.5.1, 5.5.3).
    pub fn discard(&mut self) -> u16
        ensures dropped { result ≡ length self.old.messages }
        ensures empty { self.new ≡ emptied self.old }
    {
        let dropped = self.len();
        self.go_back();
        self.messages.clear();
        dropped
    }
}

/// Removes the first message. The only one is removed from the back, so that the next message gets
/// its place: a link that sends one message at a time touches one place of the ring.
#[inline(always)]
fn pop_first(messages: &mut HeapCircularBuffer<Vec<u8>>) -> Option<Vec<u8>>
    ensures value { result ≡ slice_get messages.old.items 0 }
    ensures items { messages.new ≡ buffer (drop 1 messages.old.items) messages.old.capacity }
{
    if messages.len() == 1 {
        messages.pop_back()
    } else {
        messages.pop_front()
    }
}

/// Keeps the room of this message for a later one, unless eight are kept.
#[inline(always)]
#[tactic(auto)]
fn keep(kept: &mut ArrayVec<Vec<u8>, 8, Global>, message: Vec<u8>) {
    if !kept.is_full() {
        kept.push(message);
    }
}
