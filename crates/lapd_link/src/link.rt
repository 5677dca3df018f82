ghost use Rattle.std.specs.Prelude.{◌≡◌, ◌<◌, ◌≢◌, [], false, IfOk, IfErr, IfNone, IfSome, OnOk, OnErr};
ghost use Rattle.lapd_link_machine.specs.Sent.{IsBetweenSteps};

use lapd_frame::{Address, Number, PredictedKind, Sapi, Side, Tei};
use lapd_link_definition::{Event, LinkFault, Params, Refused, State};
use lapd_link_machine::{GivenOuts, Machine, Outs, PredictedOuts};
use lapd_queue::IQueue;
use lapd_supervision::Window;
use lapd_timers::Timer;
use std::alloc::{AllocError, Global};

/// One end of a data link (Q.921 clause 5, Annex B).
///
/// ```text
///                             4 TEI assigned
///       Establish |   ^ DM, N200      ^ UA, DM, N200     | SABME
///                 v   |               |                  v
///   5 awaiting establishment   6 awaiting release   7 multiple frame established
///                 | UA                ^ Release          | T200, T203   ^ final
///                 v                   |                  v              |
///   7 multiple frame established -----+             8 timer recovery ---+
/// ```
///
/// In states 7 and 8 a SABME re-establishes the link and a DISC releases it. A violation of the
/// procedures leads back to state 5.
#[derive(Drop)]
pub struct Link {
    side: Side,
    sapi: Sapi,
    tei: Tei,
    machine: Machine,
    ghost between: { IsBetweenSteps machine },
}

impl Link {
    ghost use Rattle.std.specs.Prelude.{ℕ, List, length};
    ghost use Rattle.lapd_link_definition.specs.Begins.{begins};
    ghost use Rattle.lapd_link_definition.specs.End.{End, new_end};
    ghost use Rattle.lapd_link_definition.specs.Input.{input_of, Give, Heard};
    ghost use Rattle.lapd_link_definition.specs.Refusal.{refused};
    ghost use Rattle.lapd_link.specs.Link.{LinkRepresents, Setup, setup_of, Steps, Refuses, IsForLink, is_address_of};
    ghost use Rattle.lapd_link.specs.SentFrame.{HasFramesOf};
    ghost use Rattle.lapd_link_machine.specs.Bounds.{IsBounded};
    ghost use Rattle.lapd_link_machine.specs.Given.{given_outs, is_sent_at_once};
    ghost use Rattle.lapd_link_machine.specs.Predicted.{is_predicted, predicted_outs};
    ghost use Rattle.lapd_frame.specs.PredictedFrame.{predicted_control, predicted_role};

    /// Makes a link in state 4, of this side, for `sapi` (not management) and `tei` (not the group
    /// TEI). It allocates its I queue.
    ///
    /// # Errors
    ///
    /// `AllocError` if the queue cannot be allocated.
    pub fn new(
        alloc: Global,
        side: Side,
        sapi: Sapi,
        tei: Tei,
        params: Params,
    ) -> Result<Link, AllocError>
        requires sapi { sapi ≢ Sapi.Management }
        requires tei { tei < 127 }
        ensures end { IfOk result (λ link. LinkRepresents link (new_end params)) }
        ensures setup { IfOk result
            (λ link. setup_of link ≡ record { side = side; sapi = sapi; tei = tei }) }
    {
        let machine = Machine::new(alloc, params)?;
        Ok(Link {
            side,
            sapi,
            tei,
            machine,
        })
    }

    /// Handles an event, and returns what to do for it, in order. Does not allocate. If speed
    /// matters, lend the outputs: [`Link::handle_into`].
    ///
    /// A frame must have the link's SAPI and TEI ([`Link::is_for`]) and be sent by the other side.
    /// A fault must be one of F4 to F7 ([`FaultKind::is_for_link`]).
    ///
    /// # Errors
    ///
    /// L3 for unit data of more than 260 octets; L4 for an `Establish` in state 6, or in state 5
    /// with a release pending. The link is unchanged.
    pub fn handle(&mut self, event: Event) -> Result<Outs, LinkFault>
        requires for_link { IsForLink self.old event }
        ensures ok { IfOk result (λ outs.
            Steps self.old self.new (input_of event.entry) outs.items) }
        ensures frames { IfOk result (λ outs. HasFramesOf self.new outs.items) }
        ensures err { IfErr result (Refuses self.old (input_of event.entry)) }
        ensures unchanged { OnErr result (self.new ≡ self.old) }
        ensures setup { setup_of self.new ≡ setup_of self.old }
    {
        let mut outs = Outs::new();
        self.handle_into(event, &mut outs)?;
        Ok(outs)
    }

    /// As [`Link::handle`], but returns the outputs in `outs`, which it empties first.
    ///
    /// # Errors
    ///
    /// As [`Link::handle`].
    #[inline(always)]
    pub fn handle_into(&mut self, event: Event, outs: &mut Outs) -> Result<(), LinkFault>
        requires for_link { IsForLink self.old event }
        ensures ok { OnOk result (Steps self.old self.new (input_of event.entry) outs.new.items) }
        ensures frames { OnOk result (HasFramesOf self.new outs.new.items) }
        ensures bounded { OnOk result (IsBounded (input_of event.entry) outs.new.items) }
        ensures err { IfErr result (Refuses self.old (input_of event.entry)) }
        ensures unchanged { OnErr result (self.new ≡ self.old) }
        ensures empty { OnErr result (outs.new.items ≡ []) }
        ensures setup { setup_of self.new ≡ setup_of self.old }
    {
        outs.clear();
        match self.machine.refuses(&event) {
            Some(fault) => Err(fault),
            None => {
                self.machine.step(event, outs);
                Ok(())
            }
        }
    }

    /// Handles a frame of this kind with this N(R), if the link predicts it ([`Machine::predicted_step`]).
    /// The step is that of [`Link::handle`], and its outputs are returned as values. For any other
    /// frame it returns `None`, and the link is unchanged.
    #[inline(always)]
    pub fn predicted_step(&mut self, kind: PredictedKind, nr: Number) -> Option<PredictedOuts>
        ensures ok { IfSome result (λ outs. Steps self.old self.new
            (Heard (predicted_control kind nr) (predicted_role kind)) (predicted_outs outs)) }
        ensures declined { IfNone result ((e : End) → LinkRepresents self.old e
            → is_predicted (predicted_control kind nr) (predicted_role kind) e ≡ false) }
        ensures unchanged { IfNone result (self.new ≡ self.old) }
        ensures setup { setup_of self.new ≡ setup_of self.old }
    {
        self.machine.predicted_step(kind, nr)
    }

    /// A message with these octets, to be passed to [`Link::give`]. Uses the room of an acknowledged
    /// message if the link keeps one, so it allocates only if none is kept or the room is too small.
    /// The link keeps the rooms of up to eight messages.
    ///
    /// # Errors
    ///
    /// `AllocError` if the allocation fails.
    #[inline(always)]
    pub fn new_message(&mut self, octets: &[u8]) -> Result<Vec<u8>, AllocError>
        ensures octets { IfOk result (λ message. message.items ≡ octets.now) }
        ensures unchanged { self.new ≡ self.old }
    {
        self.machine.queue.new_message(octets)
    }

    /// Queues a message of layer 3 (DL-DATA request), and returns what to do for it, in order. Does
    /// not allocate. If speed matters, lend the outputs: [`Link::give_into`].
    ///
    /// # Errors
    ///
    /// In this order: L3 for a message of more than 260 octets, L1 in state 4, L4 in state 6 and in
    /// state 5 with a release pending, L5 in state 5 if layer 3 establishes, L2 if the queue is
    /// full. The error contains the message, and the link is unchanged.
    pub fn give(&mut self, message: Vec<u8>) -> Result<Outs, Refused>
        ensures ok { IfOk result (λ outs. Steps self.old self.new (Give message.items) outs.items) }
        ensures frames { IfOk result (λ outs. HasFramesOf self.new outs.items) }
        ensures err { IfErr result
            (λ refused. (refused.message ≡ message)
            × Refuses self.old (Give message.items) refused.fault) }
        ensures unchanged { OnErr result (self.new ≡ self.old) }
        ensures setup { setup_of self.new ≡ setup_of self.old }
    {
        let mut outs = Outs::new();
        self.give_into(message, &mut outs)?;
        Ok(outs)
    }

    /// As [`Link::give`], but returns the outputs in `outs`, which it empties first.
    ///
    /// # Errors
    ///
    /// As [`Link::give`].
    #[inline(always)]
    pub fn give_into(&mut self, message: Vec<u8>, outs: &mut Outs) -> Result<(), Refused>
        ensures ok { OnOk result (Steps self.old self.new (Give message.items) outs.new.items) }
        ensures frames { OnOk result (HasFramesOf self.new outs.new.items) }
        ensures bounded { OnOk result (IsBounded (Give message.items) outs.new.items) }
        ensures err { IfErr result
            (λ refused. (refused.message ≡ message)
            × Refuses self.old (Give message.items) refused.fault) }
        ensures unchanged { OnErr result (self.new ≡ self.old) }
        ensures empty { OnErr result (outs.new.items ≡ []) }
        ensures setup { setup_of self.new ≡ setup_of self.old }
    {
        outs.clear();
        if let Some(fault) = self.machine.refuses_message(message.len()) {
            return Err(Refused { fault, message });
        }
        match self.machine.queue_up(message) {
            Ok(()) => {
                self.machine.end_step(outs);
                Ok(())
            }
            Err(message) => Err(Refused {
                fault: LinkFault::QueueFull,
                message,
            }),
        }
    }

    /// Queues a message of layer 3, if it is sent at once ([`Machine::give_at_once`]). The step is
    /// that of [`Link::give`], and its outputs are returned as values. A message that waits or is
    /// refused is returned, and the link is unchanged.
    #[inline(always)]
    pub fn give_at_once(&mut self, message: Vec<u8>) -> Result<GivenOuts, Vec<u8>>
        ensures ok { IfOk result (λ outs. Steps self.old self.new (Give message.items)
            (given_outs outs)) }
        ensures declined { OnErr result ((e : End) → LinkRepresents self.old e
            → is_sent_at_once message.items e ≡ false) }
        ensures returned { IfErr result (λ back. back ≡ message) }
        ensures unchanged { OnErr result (self.new ≡ self.old) }
        ensures setup { setup_of self.new ≡ setup_of self.old }
    {
        match self.machine.refuses_message(message.len()) {
            Some(_) => Err(message),
            None => self.machine.give_at_once(message),
        }
    }

    /// Why [`Link::handle`] would refuse this event; `None` if it would accept it.
    pub fn refusal(&self, event: &Event) -> Option<LinkFault>
        ensures { (e : End) → LinkRepresents self.now e → result ≡ refused (input_of event.now) e }
    {
        self.machine.refuses(event)
    }

    /// Why [`Link::give`] would refuse a message of this many octets; `None` if it would accept it.
    pub fn give_refusal(&self, len: usize) -> Option<LinkFault>
        ensures { (message : List ℕ) (e : End) → length message ≡ len → LinkRepresents self.now e
            → result ≡ refused (Give message) e }
    {
        match self.machine.refuses_message(len) {
            Some(fault) => Some(fault),
            None if self.queue().len() == self.room() => Some(LinkFault::QueueFull),
            None => None,
        }
    }

    /// Whether an establishment begins with this event: with a SABME in states 4, 7 and 8, and with
    /// the UA to this end's own SABME in state 5 if no release is pending (Q.921 5.5.1.2).
    pub fn begins(&self, event: &Event) -> bool
        ensures { (e : End) → LinkRepresents self.now e
            → result ≡ begins e.state e.release_pending (input_of event.now) }
    {
        self.machine.begins(event)
    }

    /// Whether the link receives frames with this address.
    pub fn is_for(&self, address: &Address) -> bool
        ensures { result ≡ is_address_of (setup_of self.now) address.now }
    {
        self.sapi.value() == address.sapi.value() && self.tei.value() == address.tei.value()
    }
}

/// The values that a link shows.
#[tactic(auto, unfolding(lapd_link_definition::specs::End::begin))]
impl Link {
    ghost use Rattle.std.specs.Prelude.{◌-◌, length};
    ghost use Rattle.lapd_link_definition.specs.End.{End, runs};
    ghost use Rattle.lapd_link_definition.specs.State.{state_number};
    ghost use Rattle.lapd_link.specs.Link.{LinkRepresents, setup_of};
    ghost use Rattle.lapd_link_machine.specs.Tail.{IsTail};

    /// The number of its state, 4 to 8.
    pub fn state(&self) -> u8
        ensures { (e : End) → LinkRepresents self.now e → result ≡ state_number e.state }
    {
        self.machine.state.number()
    }

    /// Its state, by its name in the standard.
    pub fn named_state(&self) -> State
        ensures { (e : End) → LinkRepresents self.now e → result ≡ e.state }
    {
        self.machine.state
    }

    /// V(S), V(A), V(R) and the conditions.
    pub fn window(&self) -> Window
        ensures { (e : End) → LinkRepresents self.now e → result ≡ e.window }
    {
        self.machine.window
    }

    /// RC, 0 to N200. In states 5 and 6 it counts the retransmissions of the SABME or DISC. In
    /// state 8 it counts how often T200 has expired since the last response; each time an enquiry
    /// was sent.
    pub fn rc(&self) -> u8
        ensures { (e : End) → LinkRepresents self.now e → result ≡ e.rc }
    {
        self.machine.rc
    }

    /// Whether this timer of the link runs.
    pub fn running(&self, timer: Timer) -> bool
        ensures { (e : End) → LinkRepresents self.now e → result ≡ runs timer e }
    {
        match timer {
            Timer::T200 => self.machine.t200,
            Timer::T203 => self.machine.t203,
            Timer::T201 | Timer::T202 => false,
        }
    }

    /// Whether layer 3 requested the establishment, in state 5.
    pub fn layer3_initiated(&self) -> bool
        ensures { (e : End) → LinkRepresents self.now e → result ≡ e.layer3_initiated }
    {
        self.machine.layer3_initiated
    }

    /// Whether a release is pending until the response to the SABME, in state 5.
    pub fn release_pending(&self) -> bool
        ensures { (e : End) → LinkRepresents self.now e → result ≡ e.release_pending }
    {
        self.machine.release_pending
    }

    /// The messages that are neither acknowledged nor dropped.
    pub fn queue(&self) -> &IQueue
        ensures { (e : End) → LinkRepresents self.now e → IsTail e.given e.first e.next result.now }
    {
        &self.machine.queue
    }

    /// How many messages are neither acknowledged nor dropped, 0 to 1,024.
    pub fn waiting(&self) -> u16
        ensures { (e : End) → LinkRepresents self.now e → result ≡ length e.given - e.first }
    {
        self.machine.queue.len()
    }

    /// The parameters that it was made with.
    pub fn params(&self) -> Params
        ensures { (e : End) → LinkRepresents self.now e → result ≡ e.parameters }
    {
        self.machine.params
    }

    /// How many messages its queue has room for, 1 to 1,024.
    pub fn room(&self) -> u16
        ensures { (e : End) → LinkRepresents self.now e → result ≡ e.parameters.room }
    {
        self.machine.queue.room()
    }

    /// The side that this end belongs to.
    pub fn side(&self) -> Side
        ensures { result ≡ (setup_of self.now).side }
    {
        self.side
    }

    /// Its service access point.
    pub fn sapi(&self) -> Sapi
        ensures { result ≡ (setup_of self.now).sapi }
    {
        self.sapi
    }

    /// Its terminal endpoint.
    pub fn tei(&self) -> Tei
        ensures { result ≡ (setup_of self.now).tei }
    {
        self.tei
    }
}
