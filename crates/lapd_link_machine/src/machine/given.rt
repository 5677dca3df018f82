//! A message of layer 3 that is sent at once: in state 7, with no other message unsent and the
//! window open. Its outputs are returned as values, which costs less than a list.

ghost use Rattle.std.specs.Prelude.{◌≡◌, ◌+◌, ◌++◌, ◌==◌, ◌&&◌, List, [], length, true, false, IfErr, IfOk, OnErr};
ghost use Rattle.lapd_mod128.specs.Counting.{Tagged};
ghost use Rattle.lapd_supervision.specs.StateVariables.{AreTags, may_send};
ghost use Rattle.lapd_link_definition.specs.declared.state.State.TheVariants.{MultipleFrameEstablished};
ghost use Rattle.lapd_link_definition.specs.EndOfStep.{end_step};
ghost use Rattle.lapd_link_definition.specs.End.{End, StepState, begin};
ghost use Rattle.lapd_link_definition.specs.Procedures.{ensure_t200, queue_up};
ghost use Rattle.lapd_link_definition.specs.declared.out.Out.{Out};
ghost use Rattle.lapd_link_machine.specs.Given.{given_outs, send_outs, sends_at_once};
ghost use Rattle.lapd_link_machine.specs.Predicted.{is_idle_machine, IsIdle};

use crate::machine::Machine;
use lapd_frame::MessageField;

/// The effect of a sent I frame on the timers (Q.921 5.6.1).
#[derive(Clone, Copy)]
pub enum SendEffect {
    /// T200 runs already: the timers keep running.
    Nothing,
    /// T203 is stopped if it runs, and T200 started.
    Starts { stops: bool },
}

/// The outputs of a message that is sent at once, in the order of the fields.
#[derive(Clone, Copy)]
pub struct GivenOuts {
    /// The place of the message in the queue.
    pub place: u16,
    /// The control field of its I frame.
    pub field: MessageField,
    /// The effect on the timers.
    pub effect: SendEffect,
}

impl Machine {
    ghost use Rattle.lapd_link_machine.specs.Sent.{IsBetweenSteps};
    ghost use Rattle.lapd_link_machine.specs.Represents.{Represents};

    /// Queues a message and ends the step, if the message is sent at once: in state 7 with no
    /// message unsent, the peer not busy and fewer than k I frames outstanding. Otherwise the
    /// message is returned, and the machine is unchanged.
    #[inline(always)]
    pub fn give_at_once(&mut self, message: Vec<u8>) -> Result<GivenOuts, Vec<u8>>
        requires between { IsBetweenSteps self.old }
        ensures step { IfOk result (λ outs. (e : End) → Represents self.old [] (begin e)
            → Represents self.new (given_outs outs) (end_step Tagged
            (queue_up message.items (begin e)))) }
        ensures room { IfOk result (λ outs.
            (length self.old.queue.messages == self.old.queue.room) ≡ false) }
        ensures declined { OnErr result ((e : End) → Represents self.old [] (begin e)
            → sends_at_once e ≡ false) }
        ensures numbers { AreTags self.new.window }
        ensures returned { IfErr result (λ back. back ≡ message) }
        ensures unchanged { OnErr result (self.new ≡ self.old) }
    {
        let given = self.queue_and_send(message);
        prove!(self.window.vs().value() < 128);
        prove!(self.window.va().value() < 128);
        prove!(self.window.vr().value() < 128);
        given
    }

    /// Queues a message and ends the step, if the message is sent at once.
    #[inline(always)]
    fn queue_and_send(&mut self, message: Vec<u8>) -> Result<GivenOuts, Vec<u8>>
        requires between { IsBetweenSteps self.old }
        ensures step { IfOk result (λ outs. (e : End) → Represents self.old [] (begin e)
            → Represents self.new (given_outs outs) (end_step Tagged
            (queue_up message.items (begin e)))) }
        ensures room { IfOk result (λ outs.
            (length self.old.queue.messages == self.old.queue.room) ≡ false) }
        ensures declined { OnErr result ((e : End) → Represents self.old [] (begin e)
            → sends_at_once e ≡ false) }
        ensures returned { IfErr result (λ back. back ≡ message) }
        ensures unchanged { OnErr result (self.new ≡ self.old) }
    {
        if !self.is_open() {
            return Err(message);
        }
        match self.queue_up(message) {
            Ok(()) => Ok(self.send_at_once()),
            Err(message) => Err(message),
        }
    }

    /// Whether a message is sent at once if it is queued.
    #[inline(always)]
    fn is_open(&self) -> bool
        ensures exactly { result ≡ (is_idle_machine self.now
            && may_send Tagged self.now.params.k self.now.window) }
        ensures idle { result ≡ true → IsIdle self.now }
        ensures window_open { result ≡ true → may_send Tagged self.now.params.k self.now.window ≡ true }
    {
        self.is_idle() && self.window.may_send(self.params.k())
    }

    /// Sends the only unsent message, and ends the step.
    #[inline(always)]
    fn send_at_once(&mut self) -> GivenOuts
        requires state { self.old.state ≡ MultipleFrameEstablished }
        requires one { self.old.queue.sent + 1 ≡ length self.old.queue.messages }
        requires window_open { may_send Tagged self.old.params.k self.old.window ≡ true }
        ensures step { (s : StepState) → Represents self.old [] s
            → Represents self.new (given_outs result) (end_step Tagged s) }
    {
        let place = self.queue.sent();
        let (window, field) = self.window.send_message();
        self.window = window;
        self.queue.sent_one();
        let effect = self.ensure_t200_returning();
        GivenOuts {
            place,
            field,
            effect,
        }
    }

    /// If T200 does not run, stops T203 and starts T200.
    #[inline(always)]
    fn ensure_t200_returning(&mut self) -> SendEffect
        ensures step { (s : StepState) (outs : List Out) → Represents self.old outs s
            → Represents self.new (outs ++ send_outs result) (ensure_t200 s) }
    {
        if self.t200 {
            SendEffect::Nothing
        } else {
            let stops = self.stop_t203_returning();
            self.start_t200_returning();
            SendEffect::Starts { stops }
        }
    }
}
