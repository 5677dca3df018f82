ghost use Rattle.std.specs.Prelude.{◌≡◌, ◌≢◌, ◌<◌, ℕ, List, ◌++◌, take, Some, map, length, slice_get, option_copied, Ok, Err, IsOk, IfOk, IfErr, OnOk, OnErr};
ghost use Rattle.std.specs.List.{All};
ghost use Rattle.lapd_tei.specs.Out.{sent, IsInRange};
ghost use Rattle.lapd_tei.specs.Bus.{new_bus, broadcast, bus_step, to_terminal, expire_t202, hear, drop_down, drop_up, hear_up, expire_t201, to_assigner, run, refusals};
ghost use Rattle.lapd_tei.specs.Single.{Single, MeetsPremises};
ghost use Rattle.lapd_tei.specs.Service.{BusEvent, Move, in_service, after_events, IsInOrder, MeetsInService};
ghost use Rattle.lapd_tei.specs.declared.bus_move.BusMove.{BusMove};
ghost use Rattle.lapd_tei.specs.declared.bus_move.BusFault.TheVariants as fault;

use crate::broadcast::Broadcast;
use crate::out::{no_outs, sent};
use crate::{
    Assigner, AssignerEvent, BusFault, BusMove, TeiMessage, TeiOuts, Terminal, TerminalEvent,
};
use std::alloc::{AllocError, Global};
use std::collections::VecDeque;
use std::marker::Model;

/// Several terminals without a fixed TEI, the assigner of the network side, and the messages in
/// transit between them.
#[derive(Drop)]
pub struct Bus {
    alloc: Global,
    terminals: Vec<Terminal>,
    assigner: Assigner,
    down: VecDeque<Broadcast>,
    up: VecDeque<TeiMessage>,
}

impl Model for Bus {
    ghost use Rattle.lapd_tei.specs.Bus.{BusState};

    ghost Value = { BusState };

    ghost view = { λ b. record {
      terminals = b.terminals.items;
      assigner = b.assigner;
      down = b.down.items;
      up = b.up.items;
    } };
}

impl Bus {
    /// Creates a bus of this many terminals without a TEI. No TEI is held and no message is in
    /// transit.
    ///
    /// # Errors
    ///
    /// `AllocError` if the terminals cannot be allocated.
    pub fn new(alloc: Global, terminals: usize) -> Result<Bus, AllocError>
        ensures { IfOk result (λ bus. bus ≡ new_bus terminals) }
    {
        let mut all = vec![in alloc]?;
        all.resize(terminals, Terminal::new(None))?;
        Ok(Bus {
            alloc,
            terminals: all,
            assigner: Assigner::new(&[]),
            down: VecDeque::new(alloc),
            up: VecDeque::new(alloc),
        })
    }

    /// The terminal at this index, from 0.
    pub fn terminal(&self, t: usize) -> Option<&Terminal>
        ensures { option_copied result ≡ slice_get self.now.terminals t }
    {
        self.terminals.get(t)
    }

    /// The assigner of the network side.
    pub fn assigner(&self) -> &Assigner
        ensures { result.now ≡ self.now.assigner }
    {
        &self.assigner
    }

    /// Makes one move and returns the outputs of the terminal or assigner that it concerns, in
    /// order.
    ///
    /// # Errors
    ///
    /// U1 if the message or terminal does not exist or the timer does not run. U2 if the terminal
    /// has received the message before. Otherwise U3 if an allocation failed. On error the bus is
    /// unchanged.
    pub fn apply(&mut self, m: BusMove) -> Result<TeiOuts, BusFault>
        ensures done { IfOk result (λ outs. bus_step self.old m
            ≡ Ok (record { now = self.new; outs = outs.items })) }
        ensures in_range { IfOk result (λ outs. All IsInRange outs.items) }
        ensures refused { IfErr result (λ f. f ≢ fault.Memory → bus_step self.old m ≡ Err f) }
        ensures memory { IfErr result (λ f. f ≡ fault.Memory → IsOk (bus_step self.old m)) }
        ensures unchanged { OnErr result (self.new ≡ self.old) }
    {
        match m {
            BusMove::Ask(t, ri) => self.to_terminal(t, TerminalEvent::Ask(ri)),
            BusMove::T202(t, ri) => self.expire_t202(t, ri),
            BusMove::Hear(i, t, ri) => self.hear(i, t, ri),
            BusMove::Drop(i) => self.drop_down(i),
            BusMove::HearUp(i) => self.hear_up(i),
            BusMove::DropUp(i) => self.drop_up(i),
            BusMove::Check(tei) => self.to_assigner(AssignerEvent::Check(tei)),
            BusMove::Remove(tei) => self.to_assigner(AssignerEvent::Remove(tei)),
            BusMove::T201 => self.expire_t201(),
            BusMove::Leave(t) => self.to_terminal(t, TerminalEvent::Leave),
        }
    }

    /// Makes the moves in order, and returns how many were refused with U1 or U2 and skipped.
    ///
    /// Afterwards no two terminals hold the same TEI, under either of two conditions on the whole
    /// history of the bus, these moves included:
    ///
    /// - It began in service (`in_service`), and since then no terminal requested a TEI by another
    ///   terminal's last reference, and no TEI in use was lost. In this case the assigner also
    ///   holds each TEI of 64 to 126 that a terminal holds.
    /// - It began as a new bus, and since then each reference was used once, and a TEI was freed
    ///   only while no terminal held it and no assignment of it was in transit.
    ///
    /// # Errors
    ///
    /// The index, from 0, of the move at which an allocation failed (U3). The moves before it
    /// remain done.
    pub fn run(&mut self, moves: &[BusMove]) -> Result<u64, usize>
        ensures done { IfOk result (λ refused. (self.new ≡ run self.old moves.now)
            × (refused ≡ refusals self.old moves.now)) }
        ensures memory { IfErr result (λ place. (place < length moves.now)
            × (self.new ≡ run self.old (take place moves.now))) }
        ensures stopped { IfErr result (λ place. (m : BusMove) → slice_get moves.now place ≡ Some m
            → IsOk (bus_step self.new m)) }

        // No two terminals hold the same TEI.
        ensures single { (terminals : ℕ) (before : List BusMove)
            → self.old ≡ run (new_bus terminals) before
            → MeetsPremises terminals (before ++ moves.now) → Single self.new }
        ensures in_order { (terminals : ℕ) (known : List ℕ) (before : List BusEvent)
            → self.old ≡ after_events (in_service terminals known) before
            → MeetsInService (in_service terminals known) (before ++ map Move moves.now)
            → IsInOrder self.new }
    {
        let mut refused: u64 = 0;
        for (place, m) in moves.iter().enumerate() {
            match self.apply(*m) {
                Ok(_) => {}
                Err(BusFault::Memory) => return Err(place),
                Err(BusFault::NothingThere) => refused += 1,
                Err(BusFault::HeardBefore) => refused += 1,
            }
        }
        Ok(refused)
    }

    /// Passes an event to a terminal.
    fn to_terminal(&mut self, t: usize, event: TerminalEvent) -> Result<TeiOuts, BusFault>
        ensures done { IfOk result (λ outs. to_terminal self.old t event
            ≡ Ok (record { now = self.new; outs = outs.items })) }
        ensures in_range { IfOk result (λ outs. All IsInRange outs.items) }
        ensures refused { IfErr result (λ f. f ≢ fault.Memory
            → to_terminal self.old t event ≡ Err f) }
        ensures memory { IfErr result (λ f. f ≡ fault.Memory
            → IsOk (to_terminal self.old t event)) }
        ensures unchanged { OnErr result (self.new ≡ self.old) }
    {
        let Some(there) = self.terminals.get(t) else {
            return Err(BusFault::NothingThere);
        };
        let mut terminal = *there;
        let outs = terminal.handle(event);
        self.put_up(&outs)?;
        self.terminals[t] = terminal;
        Ok(outs)
    }

    /// Puts the messages among these outputs of a terminal in transit.
    fn put_up(&mut self, outs: &TeiOuts) -> Result<(), BusFault>
        ensures done { OnOk result
            (self.new ≡ record self.old { up = self.old.up ++ sent outs.now.items }) }
        ensures memory { IfErr result (λ f. f ≡ fault.Memory) }
        ensures unchanged { OnErr result (self.new ≡ self.old) }
    {
        match append_all(&mut self.up, sent(outs).as_slice()) {
            Ok(()) => Ok(()),
            Err(_) => Err(BusFault::Memory),
        }
    }

    /// Expires T202 of a terminal, which runs in states 2 and 3.
    fn expire_t202(&mut self, t: usize, ri: u16) -> Result<TeiOuts, BusFault>
        ensures done { IfOk result (λ outs. expire_t202 self.old t ri
            ≡ Ok (record { now = self.new; outs = outs.items })) }
        ensures in_range { IfOk result (λ outs. All IsInRange outs.items) }
        ensures refused { IfErr result (λ f. f ≢ fault.Memory → expire_t202 self.old t ri ≡ Err f) }
        ensures memory { IfErr result (λ f. f ≡ fault.Memory → IsOk (expire_t202 self.old t ri)) }
        ensures unchanged { OnErr result (self.new ≡ self.old) }
    {
        match self.terminals.get(t) {
            Some(terminal) if terminal.is_awaiting() => {
                self.to_terminal(t, TerminalEvent::T202(ri))
            }
            _ => Err(BusFault::NothingThere),
        }
    }

    /// Delivers a message from the network side to a terminal.
    fn hear(&mut self, i: usize, t: usize, ri: u16) -> Result<TeiOuts, BusFault>
        ensures done { IfOk result (λ outs. hear self.old i t ri
            ≡ Ok (record { now = self.new; outs = outs.items })) }
        ensures in_range { IfOk result (λ outs. All IsInRange outs.items) }
        ensures refused { IfErr result (λ f. f ≢ fault.Memory → hear self.old i t ri ≡ Err f) }
        ensures memory { IfErr result (λ f. f ≡ fault.Memory → IsOk (hear self.old i t ri)) }
        ensures unchanged { OnErr result (self.new ≡ self.old) }
    {
        let (Some(broadcast), Some(there)) = (self.down.get(i), self.terminals.get(t)) else {
            return Err(BusFault::NothingThere);
        };
        if broadcast.is_received_by(t) {
            return Err(BusFault::HeardBefore);
        }
        let mut terminal = *there;
        let outs = terminal.handle(TerminalEvent::Heard(broadcast.message(), ri));
        self.put_up(&outs)?;
        self.terminals[t] = terminal;
        self.down[i].mark(t);
        Ok(outs)
    }

    /// Loses a message from the network side.
    fn drop_down(&mut self, i: usize) -> Result<TeiOuts, BusFault>
        ensures done { IfOk result (λ outs. drop_down self.old i
            ≡ Ok (record { now = self.new; outs = outs.items })) }
        ensures in_range { IfOk result (λ outs. All IsInRange outs.items) }
        ensures refused { IfErr result (λ f. drop_down self.old i ≡ Err f) }
        ensures unchanged { OnErr result (self.new ≡ self.old) }
    {
        match self.down.remove(i) {
            Some(_) => Ok(no_outs()),
            None => Err(BusFault::NothingThere),
        }
    }

    /// Loses a message from a terminal.
    fn drop_up(&mut self, i: usize) -> Result<TeiOuts, BusFault>
        ensures done { IfOk result (λ outs. drop_up self.old i
            ≡ Ok (record { now = self.new; outs = outs.items })) }
        ensures in_range { IfOk result (λ outs. All IsInRange outs.items) }
        ensures refused { IfErr result (λ f. drop_up self.old i ≡ Err f) }
        ensures unchanged { OnErr result (self.new ≡ self.old) }
    {
        match self.up.remove(i) {
            Some(_) => Ok(no_outs()),
            None => Err(BusFault::NothingThere),
        }
    }

    /// Delivers a message from a terminal to the assigner.
    fn hear_up(&mut self, i: usize) -> Result<TeiOuts, BusFault>
        ensures done { IfOk result (λ outs. hear_up self.old i
            ≡ Ok (record { now = self.new; outs = outs.items })) }
        ensures in_range { IfOk result (λ outs. All IsInRange outs.items) }
        ensures refused { IfErr result (λ f. f ≢ fault.Memory → hear_up self.old i ≡ Err f) }
        ensures memory { IfErr result (λ f. f ≡ fault.Memory → IsOk (hear_up self.old i)) }
        ensures unchanged { OnErr result (self.new ≡ self.old) }
    {
        let Some(there) = self.up.get(i) else {
            return Err(BusFault::NothingThere);
        };
        let message = *there;
        let outs = self.to_assigner(AssignerEvent::Heard(message))?;
        self.up.remove(i);
        Ok(outs)
    }

    /// Expires T201, which runs during a check.
    fn expire_t201(&mut self) -> Result<TeiOuts, BusFault>
        ensures done { IfOk result (λ outs. expire_t201 self.old
            ≡ Ok (record { now = self.new; outs = outs.items })) }
        ensures in_range { IfOk result (λ outs. All IsInRange outs.items) }
        ensures refused { IfErr result (λ f. f ≢ fault.Memory → expire_t201 self.old ≡ Err f) }
        ensures memory { IfErr result (λ f. f ≡ fault.Memory → IsOk (expire_t201 self.old)) }
        ensures unchanged { OnErr result (self.new ≡ self.old) }
    {
        match self.assigner.check() {
            Some(_) => self.to_assigner(AssignerEvent::T201),
            None => Err(BusFault::NothingThere),
        }
    }

    /// Passes an event to the assigner.
    fn to_assigner(&mut self, event: AssignerEvent) -> Result<TeiOuts, BusFault>
        ensures done { IfOk result (λ outs. to_assigner self.old event ≡ record {
          now = self.new;
          outs = outs.items;
        }) }
        ensures in_range { IfOk result (λ outs. All IsInRange outs.items) }
        ensures memory { IfErr result (λ f. f ≡ fault.Memory) }
        ensures unchanged { OnErr result (self.new ≡ self.old) }
    {
        let mut assigner = self.assigner;
        let outs = assigner.handle(event);
        self.put_down(&outs)?;
        self.assigner = assigner;
        Ok(outs)
    }

    /// Puts the messages among these outputs of the assigner in transit to every terminal.
    fn put_down(&mut self, outs: &TeiOuts) -> Result<(), BusFault>
        ensures done { OnOk result
            (self.new ≡ record self.old {
              down = self.old.down
                  ++ map (broadcast (length self.old.terminals)) (sent outs.now.items);
            }) }
        ensures memory { IfErr result (λ f. f ≡ fault.Memory) }
        ensures unchanged { OnErr result (self.new ≡ self.old) }
    {
        let terminals = self.terminals.len();
        let Ok(mut fresh) = broadcasts(self.alloc, terminals, sent(outs).as_slice()) else {
            return Err(BusFault::Memory);
        };
        match self.down.append(&mut fresh) {
            Ok(()) => Ok(()),
            Err(_) => Err(BusFault::Memory),
        }
    }
}

/// Creates broadcasts of these messages to this many terminals; no terminal has received them yet.
fn broadcasts(
    alloc: Global,
    terminals: usize,
    messages: &[TeiMessage],
) -> Result<VecDeque<Broadcast>, AllocError>
    ensures { IfOk result (λ all. all.items ≡ map (broadcast terminals) messages.now) }
{
    let mut all = VecDeque::new(alloc);
    for message in messages {
        all.push_back(Broadcast::new(alloc, terminals, *message)?)?;
    }
    Ok(all)
}

/// Appends these messages, or none of them if an allocation fails.
fn append_all(up: &mut VecDeque<TeiMessage>, messages: &[TeiMessage]) -> Result<(), AllocError>
    ensures done { OnOk result (up.new.items ≡ up.old.items ++ messages.now) }
    ensures unchanged { OnErr result (up.new.items ≡ up.old.items) }
{
    up.reserve(messages.len())?;
    for message in messages {
        up.push_back_reserved(*message);
    }
    Ok(())
}
