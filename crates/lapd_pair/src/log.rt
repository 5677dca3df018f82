ghost use Rattle.std.specs.Prelude.{◌≡◌, ◌+◌, ◌-◌, ◌≤◌, ℕ, List, [], ◌∷◌, ◌++◌, map, length, Option, None, OnOk};
ghost use Rattle.std.specs.Vec.{vec_len};
ghost use Rattle.lapd_pair_laws.specs.Histories as world;
ghost use Rattle.lapd_pair_laws.specs.Histories.{new_history, with_sending, with_acked, with_dropped, with_others_dropped, with_receipt, with_unit};
ghost use Rattle.lapd_pair_laws.specs.Consistent.{AreSettled};
ghost use Rattle.lapd_pair.specs.Establishments.{AreNumbered};
ghost use Rattle.lapd_pair.specs.Fates.{ended, with_endings};

use crate::fate::{Ending, Fate};
use crate::received::Received;
use std::alloc::{AllocError, Global};

/// The history of one side of a running pair: the messages that it submitted with their fates, and
/// the messages and unit data that it received. It has no access to a link; callers record the
/// outputs of each step.
#[derive(Drop)]
pub struct Log {
    given: Vec<Vec<u8>>,
    received: Vec<Received>,
    units: Vec<Vec<u8>>,
    fates: Vec<Fate>,
    begun: Vec<u64>,
    acknowledged: u64,
    dropped: u64,
    ghost within: { acknowledged + dropped ≤ vec_len fates },
    ghost numbered: { AreNumbered received.items begun.items },
}

impl Log {
    ghost use Rattle.lapd_pair.specs.Histories.{IsHistory, AreSame, AreSameButFates, HasHistoryRoom, TakesRoom, no_room, message_room, receipt_room, unit_room, beginning_room, step_room};

    /// Creates an empty history. Does not allocate.
    pub(crate) fn new(alloc: Global) -> Log
        ensures { IsHistory result [] new_history }
    {
        Log {
            given: Vec::new(alloc),
            received: Vec::new(alloc),
            units: Vec::new(alloc),
            fates: Vec::new(alloc),
            begun: Vec::new(alloc),
            acknowledged: 0,
            dropped: 0,
        }
    }

    /// Allocates space for the most that one step may record besides a submitted message: one
    /// message received, one unit data and one establishment.
    pub(crate) fn reserve(&mut self) -> Result<(), AllocError>
        ensures ok { OnOk result (HasHistoryRoom step_room self.new) }
        ensures room { TakesRoom no_room self.old self.new }
        ensures same { AreSame self.old self.new }
        ensures history { (messages : List (List ℕ)) (h : world.History)
            → IsHistory self.old messages h → IsHistory self.new messages h }
    {
        self.received.try_reserve(1)?;
        self.units.try_reserve(1)?;
        self.begun.try_reserve(1)
    }

    /// Allocates space for one more submitted message.
    pub(crate) fn reserve_given(&mut self) -> Result<(), AllocError>
        ensures ok { OnOk result (HasHistoryRoom message_room self.new) }
        ensures room { TakesRoom no_room self.old self.new }
        ensures same { AreSame self.old self.new }
        ensures history { (messages : List (List ℕ)) (h : world.History)
            → IsHistory self.old messages h → IsHistory self.new messages h }
    {
        self.given.try_reserve(1)?;
        self.fates.try_reserve(1)
    }

    /// Records a submitted message.
    pub(crate) fn give(&mut self, message: Vec<u8>)
        requires { HasHistoryRoom message_room self.old }
        ensures room { TakesRoom message_room self.old self.new }
        ensures history { (messages : List (List ℕ)) (h : world.History) → AreSettled h
            → h.sent_in (length messages) ≡ None → IsHistory self.old messages h
            → IsHistory self.new (messages ++ message.items ∷ []) h }
    {
        let Ok(()) = self.given.push(message) else {
            unreachable!()
        };
        let Ok(()) = self.fates.push(Fate::NEW) else {
            unreachable!()
        };
    }

    /// Records the beginning of an establishment.
    pub(crate) fn begin(&mut self)
        requires { HasHistoryRoom beginning_room self.old }
        ensures room { TakesRoom beginning_room self.old self.new }
        ensures history { (messages : List (List ℕ)) (h : world.History)
            → IsHistory self.old messages h
            → IsHistory self.new messages (record h { begun = h.begun ++ length h.received ∷ [] }) }
    {
        let before = self.received.len() as u64;
        let Ok(()) = self.begun.push(before) else {
            unreachable!()
        };
    }

    /// Records a message received in the present establishment.
    pub(crate) fn receive(&mut self, octets: Vec<u8>)
        requires { HasHistoryRoom receipt_room self.old }
        ensures room { TakesRoom receipt_room self.old self.new }
        ensures history { (messages : List (List ℕ)) (h : world.History) (establishment place : ℕ)
            → length h.begun ≡ establishment → IsHistory self.old messages h
            → IsHistory self.new messages (with_receipt
            (record { octets = octets.items; establishment = establishment; place = place }) h) }
    {
        let establishment = self.establishment();
        let Ok(()) = self.received.push(Received {
            octets,
            establishment,
        })
        else {
            unreachable!()
        };
    }

    /// Records received unit data.
    pub(crate) fn receive_unit(&mut self, octets: Vec<u8>)
        requires { HasHistoryRoom unit_room self.old }
        ensures room { TakesRoom unit_room self.old self.new }
        ensures history { (messages : List (List ℕ)) (h : world.History)
            → IsHistory self.old messages h → IsHistory self.new messages
            (with_unit octets.items h) }
    {
        let Ok(()) = self.units.push(octets) else {
            unreachable!()
        };
    }

    /// Records that the message at this index is sent in the present establishment. Indices start
    /// from 0 at the first waiting message. If no message waits at this index, nothing is recorded.
    pub(crate) fn send(&mut self, place: u16)
        ensures room { TakesRoom no_room self.old self.new }
        ensures history { (messages : List (List ℕ)) (h : world.History) (establishment : ℕ)
            → length h.begun ≡ establishment → AreSettled h → IsHistory self.old messages h
            → IsHistory self.new messages (with_sending (h.passed + place) establishment h) }
    {
        let place = usize::from(place);
        if place >= self.waiting() {
            return;
        }
        let place = self.settled() + place;
        let establishment = self.establishment();
        self.fates[place].sent_in = Some(establishment);
    }

    /// Records that the first `n` waiting messages are acknowledged, or all if fewer wait. The cost
    /// grows only with `n`.
    pub(crate) fn acknowledge(&mut self, n: u16)
        ensures room { TakesRoom no_room self.old self.new }
        ensures history { (messages : List (List ℕ)) (h : world.History) → AreSettled h
            → h.passed + n ≤ length messages → IsHistory self.old messages h
            → IsHistory self.new messages (with_acked n h) }
    {
        self.acknowledge_first(usize::from(n).min(self.waiting()));
    }

    /// Records that the first `n` waiting messages are dropped, or all if fewer wait. The cost
    /// grows only with `n`.
    pub(crate) fn discard(&mut self, n: u16)
        ensures room { TakesRoom no_room self.old self.new }
        ensures history { (messages : List (List ℕ)) (h : world.History) → AreSettled h
            → h.passed + n ≤ length messages → IsHistory self.old messages h
            → IsHistory self.new messages (with_dropped n h) }
    {
        self.drop_first(usize::from(n).min(self.waiting()));
    }

    /// Records that all waiting messages are dropped.
    pub(crate) fn discard_rest(&mut self)
        ensures room { TakesRoom no_room self.old self.new }
        ensures history { (messages : List (List ℕ)) (h : world.History) → AreSettled h
            → IsHistory self.old messages h
            → IsHistory self.new messages (with_others_dropped (length messages) h) }
    {
        self.drop_first(self.waiting());
    }

    /// How many messages are acknowledged or dropped. This is the index of the first waiting
    /// message.
    pub(crate) fn settled(&self) -> usize
        ensures counted { result ≡ self.now.acknowledged + self.now.dropped }
        ensures history { (messages : List (List ℕ)) (h : world.History) → AreSettled h
            → IsHistory self.now messages h → result ≡ h.passed }
    {
        (self.acknowledged + self.dropped) as usize
    }

    /// How many messages wait: submitted, and neither acknowledged nor dropped.
    pub(crate) fn waiting(&self) -> usize
        ensures counted { self.now.acknowledged + self.now.dropped + result
            ≡ vec_len self.now.fates }
        ensures history { (messages : List (List ℕ)) (h : world.History) → AreSettled h
            → IsHistory self.now messages h → result ≡ length messages - h.passed }
    {
        self.fates.len() - self.settled()
    }

    // The number of the present establishment, from 1, or 0 before the first.
    fn establishment(&self) -> u64
        ensures { result ≡ vec_len self.now.begun }
    {
        self.begun.len() as u64
    }

    // Marks the first `n` waiting messages as acknowledged, and counts them.
    fn acknowledge_first(&mut self, n: usize)
        requires { self.old.acknowledged + self.old.dropped + n ≤ vec_len self.old.fates }
        ensures room { TakesRoom no_room self.old self.new }
        ensures history { (messages : List (List ℕ)) (h : world.History) → AreSettled h
            → IsHistory self.old messages h → IsHistory self.new messages (with_acked n h) }
    {
        self.end_first(n, Ending::Acked);
        self.acknowledged += n as u64;
    }

    // Marks the first `n` waiting messages as dropped, and counts them.
    fn drop_first(&mut self, n: usize)
        requires { self.old.acknowledged + self.old.dropped + n ≤ vec_len self.old.fates }
        ensures room { TakesRoom no_room self.old self.new }
        ensures history { (messages : List (List ℕ)) (h : world.History) → AreSettled h
            → IsHistory self.old messages h → IsHistory self.new messages (with_dropped n h) }
    {
        self.end_first(n, Ending::Dropped);
        self.dropped += n as u64;
    }

    // Sets the ending of the first `n` waiting messages, without counting them.
    fn end_first(&mut self, n: usize, ending: Ending)
        requires { self.old.acknowledged + self.old.dropped + n ≤ vec_len self.old.fates }
        ensures fates { self.new.fates.items ≡ with_endings ending
            (self.old.acknowledged + self.old.dropped) n self.old.fates.items }
        ensures room { TakesRoom no_room self.old self.new }
        ensures rest { AreSameButFates self.old self.new }
    {
        let first = self.settled();
        end_all(&mut self.fates[first..first + n], ending);
    }

    /// The submitted messages, in order.
    pub(crate) fn given(&self) -> &[Vec<u8>]
        ensures { result.now ≡ self.now.given.items }
    {
        &self.given
    }

    /// The messages received from the other side, in order.
    pub(crate) fn received(&self) -> &[Received]
        ensures { result.now ≡ self.now.received.items }
    {
        &self.received
    }

    /// The unit data received from the other side, in order.
    pub(crate) fn units(&self) -> &[Vec<u8>]
        ensures { result.now ≡ self.now.units.items }
    {
        &self.units
    }

    /// The fate of each submitted message.
    pub(crate) fn fates(&self) -> &[Fate]
        ensures { result.now ≡ self.now.fates.items }
    {
        &self.fates
    }

    /// For each establishment, how many messages were received before it began.
    pub(crate) fn begun(&self) -> &[u64]
        ensures { result.now ≡ self.now.begun.items }
    {
        &self.begun
    }

    /// How many submitted messages are acknowledged.
    pub(crate) fn acknowledged(&self) -> u64
        ensures { result ≡ self.now.acknowledged }
    {
        self.acknowledged
    }

    /// How many submitted messages are dropped.
    pub(crate) fn dropped(&self) -> u64
        ensures { result ≡ self.now.dropped }
    {
        self.dropped
    }
}

// Sets the ending of all these fates.
fn end_all(fates: &mut [Fate], ending: Ending)
    ensures { fates.new ≡ map (ended ending) fates.old }
{
    for fate in fates {
        fate.end = ending;
    }
}
