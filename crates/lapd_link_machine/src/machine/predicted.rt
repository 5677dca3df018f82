//! The frames that are predicted in state 7: an I frame in sequence, an RR, and a poll. Their
//! outputs are returned as values, which costs less than a list.

ghost use Rattle.std.specs.Prelude.{◌≡◌, ◌++◌, ◌∷◌, [], List, true, false, IfNone, IfSome};
ghost use Rattle.lapd_frame.specs.PredictedFrame.{predicted_control, predicted_role};
ghost use Rattle.lapd_frame.specs.declared.Role.TheVariants.{Command, Answer};
ghost use Rattle.lapd_frame.specs.declared.Control.TheVariants.{I, Rr};
ghost use Rattle.lapd_timers.specs.declared.timer.Timer.TheVariants.{T200, T203};
ghost use Rattle.lapd_mod128.specs.Counting.{Tagged};
ghost use Rattle.lapd_supervision.specs.StateVariables.{AreTags, is_valid_nr, outstanding};
ghost use Rattle.lapd_link_definition.specs.EndOfStep.{end_step};
ghost use Rattle.lapd_link_definition.specs.End.{End, StepState, begin};
ghost use Rattle.lapd_link_definition.specs.Input.{Heard};
ghost use Rattle.lapd_link_definition.specs.Table.{row};
ghost use Rattle.lapd_link_definition.specs.declared.out.Out.{Out};
ghost use Rattle.lapd_link_definition.specs.declared.out.Out.TheVariants.{Up, Start, Stop};
ghost use Rattle.lapd_link_definition.specs.Procedures.{stop, start, out_where};
ghost use Rattle.lapd_link_definition.specs.Established.{acknowledge_with_timers, multiple_frame_established};
ghost use Rattle.lapd_link_machine.specs.Predicted.{is_idle_machine, is_predicted, is_predicted_frame, nr_outs, response_outs, predicted_outs, IsIdle};

use crate::machine::Machine;
use lapd_frame::{Number, PredictedKind, Response};
use lapd_link_definition::State;
use lapd_supervision::{Advance, Window};

/// The messages that an N(R) acknowledges, and its effect on the timers (Q.921 Figure B.7).
#[derive(Clone, Copy)]
pub enum NrEffect {
    /// This many messages, and none is outstanding: T200 is stopped if it runs, and T203 started.
    All { count: u16, stops: bool },
    /// This many messages, and others are outstanding: T200 is restarted.
    Part { count: u16 },
    /// Nothing new, and messages are outstanding: the timers keep running.
    Nothing,
}

/// The outputs of a predicted step, in the order of the fields.
#[derive(Clone, Copy)]
pub struct PredictedOuts {
    /// The response to a poll.
    pub response: Option<Response>,
    /// Whether the information of the frame is delivered to layer 3.
    pub is_up: bool,
    /// The effect of the N(R).
    pub nr: NrEffect,
    /// The RR that acknowledges an I frame.
    pub acknowledgement: Option<Response>,
}

/// Actions that return their output.
#[tactic(auto, unfolding(lapd_link_definition::specs::Procedures::stop, lapd_link_definition::specs::Procedures::start))]
impl Machine {
    ghost use Rattle.lapd_link_machine.specs.Represents.{Represents};

    /// STOP T200. Returns whether it ran.
    #[inline(always)]
    fn stop_t200_returning(&mut self) -> bool
        ensures step { (s : StepState) (outs : List Out) → Represents self.old outs s
            → Represents self.new (outs ++ out_where result (Stop T200)) (stop T200 s) }
        ensures idle { IsIdle self.old → IsIdle self.new }
    {
        let ran = self.t200;
        self.t200 = false;
        ran
    }

    /// STOP T203. Returns whether it ran.
    #[inline(always)]
    pub(crate) fn stop_t203_returning(&mut self) -> bool
        ensures step { (s : StepState) (outs : List Out) → Represents self.old outs s
            → Represents self.new (outs ++ out_where result (Stop T203)) (stop T203 s) }
    {
        let ran = self.t203;
        self.t203 = false;
        ran
    }

    /// START T203.
    #[inline(always)]
    fn start_t203_returning(&mut self)
        ensures step { (s : StepState) (outs : List Out) → Represents self.old outs s
            → Represents self.new (outs ++ Start T203 ∷ []) (start T203 s) }
        ensures idle { IsIdle self.old → IsIdle self.new }
    {
        self.t203 = true;
    }

    /// START T200.
    #[inline(always)]
    pub(crate) fn start_t200_returning(&mut self)
        ensures step { (s : StepState) (outs : List Out) → Represents self.old outs s
            → Represents self.new (outs ++ Start T200 ∷ []) (start T200 s) }
        ensures idle { IsIdle self.old → IsIdle self.new }
    {
        self.t200 = true;
    }
}

/// The predicted frames.
#[tactic(auto, using(crate::proofs::Rows::then_row, crate::proofs::Rows::else_row), unfolding(lapd_link_definition::specs::Established::acknowledge_with_timers, lapd_link_definition::specs::Established::multiple_frame_established))]
impl Machine {
    ghost use Rattle.lapd_link_machine.specs.Sent.{SentAreOutstanding, IsBetweenSteps, IsTaken};
    ghost use Rattle.lapd_link_machine.specs.Represents.{Represents};

    /// Processes a valid N(R), and T200 and T203 by whether it acknowledges all, nothing new, or
    /// some.
    #[inline(always)]
    fn take_nr_returning(&mut self, nr: Number, taken: (Window, Advance)) -> NrEffect
        requires taken { IsTaken nr self.old.window taken }
        requires counted { SentAreOutstanding self.old }
        ensures step { (s : StepState) (outs : List Out) → Represents self.old outs s
            → Represents self.new (outs ++ nr_outs result) (acknowledge_with_timers Tagged nr s) }
        ensures idle { IsIdle self.old → IsIdle self.new }
    {
        if taken.1.all {
            let count = self.acknowledge_returning(nr, taken);
            let stops = self.stop_t200_returning();
            self.start_t203_returning();
            NrEffect::All { count, stops }
        } else if self.acknowledges_nothing_new(nr) {
            NrEffect::Nothing
        } else {
            let count = self.acknowledge_returning(nr, taken);
            self.start_t200_returning();
            NrEffect::Part { count }
        }
    }

    /// Ends the step: no message is unsent, so at most the pending acknowledgement is sent.
    #[inline(always)]
    fn end_returning(&mut self) -> Option<Response>
        requires idle { IsIdle self.old }
        ensures step { (s : StepState) (outs : List Out) → Represents self.old outs s
            → Represents self.new (outs ++ response_outs result) (end_step Tagged s) }
    {
        if self.window.ack_pending() {
            let (window, response) = self.window.acknowledge_response();
            self.window = window;
            Some(response)
        } else {
            None
        }
    }

    /// Ends a step that has these variables and outputs before its N(R): processes the N(R), if it
    /// is valid, and sends the pending acknowledgement.
    #[inline(always)]
    fn acknowledge_and_end(
        &mut self,
        window: Window,
        nr: Number,
        response: Option<Response>,
        is_up: bool,
    ) -> Option<PredictedOuts>
        requires idle { IsIdle self.old }
        requires counted { self.old.queue.sent ≡ outstanding Tagged window }
        ensures step { IfSome result (λ outs. (is_valid_nr Tagged nr window ≡ true)
            × ((s : StepState) → Represents (record (self.old) { window = window })
            (response_outs response ++ out_where is_up Up) s
            → Represents self.new (predicted_outs outs)
            (end_step Tagged (acknowledge_with_timers Tagged nr s)))) }
        ensures declined { IfNone result (is_valid_nr Tagged nr window ≡ false) }
        ensures unchanged { IfNone result (self.new ≡ self.old) }
    {
        match window.take_nr(nr) {
            Some(taken) => {
                self.window = window;
                let nr = self.take_nr_returning(nr, taken);
                let acknowledgement = self.end_returning();
                Some(PredictedOuts {
                    response,
                    is_up,
                    nr,
                    acknowledgement,
                })
            }
            None => None,
        }
    }

    /// Receives an I command with P=0 that is in sequence, while both ends are ready.
    #[inline(always)]
    fn predicted_i_frame(&mut self, ns: Number, nr: Number) -> Option<PredictedOuts>
        requires idle { IsIdle self.old }
        requires counted { SentAreOutstanding self.old }
        ensures step { IfSome result (λ outs. (s : StepState) → Represents self.old [] s
            → Represents self.new (predicted_outs outs) (end_step Tagged
            (multiple_frame_established Tagged (Heard (I ns nr false) Command) s))) }
        ensures declined { IfNone result
            (is_predicted_frame (I ns nr false) Command self.old.window ≡ false) }
        ensures unchanged { IfNone result (self.new ≡ self.old) }
    {
        if self.window.peer_busy() {
            return None;
        }
        let (window, receipt) = self.window.take_ns(ns, false);
        if !receipt.accepted {
            return None;
        }
        self.acknowledge_and_end(window, nr, None, true)
    }

    /// Receives an RR response with F=0.
    #[inline(always)]
    fn predicted_response(&mut self, nr: Number) -> Option<PredictedOuts>
        requires idle { IsIdle self.old }
        requires counted { SentAreOutstanding self.old }
        ensures step { IfSome result (λ outs. (s : StepState) → Represents self.old [] s
            → Represents self.new (predicted_outs outs) (end_step Tagged
            (multiple_frame_established Tagged (Heard (Rr nr false) Answer) s))) }
        ensures declined { IfNone result
            (is_predicted_frame (Rr nr false) Answer self.old.window ≡ false) }
        ensures unchanged { IfNone result (self.new ≡ self.old) }
    {
        let window = self.window.peer(false);
        self.acknowledge_and_end(window, nr, None, false)
    }

    /// Receives an RR command with P=1, which is answered first.
    #[inline(always)]
    fn predicted_poll(&mut self, nr: Number) -> Option<PredictedOuts>
        requires idle { IsIdle self.old }
        requires counted { SentAreOutstanding self.old }
        ensures step { IfSome result (λ outs. (s : StepState) → Represents self.old [] s
            → Represents self.new (predicted_outs outs) (end_step Tagged
            (multiple_frame_established Tagged (Heard (Rr nr true) Command) s))) }
        ensures declined { IfNone result
            (is_predicted_frame (Rr nr true) Command self.old.window ≡ false) }
        ensures unchanged { IfNone result (self.new ≡ self.old) }
    {
        let (window, response) = self.window.peer(false).answer_poll_response();
        self.acknowledge_and_end(window, nr, Some(response), false)
    }

    /// Makes the step of a received frame of this kind with this N(R), if it is predicted: in state
    /// 7 with no message unsent, an I command with P=0 that is in sequence while both ends are ready,
    /// an RR response with F=0, or an RR command with P=1, each with a valid N(R). Otherwise it
    /// returns `None`, and the machine is unchanged.
    #[inline(always)]
    pub fn predicted_step(&mut self, kind: PredictedKind, nr: Number) -> Option<PredictedOuts>
        requires between { IsBetweenSteps self.old }
        ensures step { IfSome result (λ outs. (e : End) → Represents self.old [] (begin e)
            → Represents self.new (predicted_outs outs) (end_step Tagged (row Tagged e.state
            (Heard (predicted_control kind nr) (predicted_role kind)) (begin e)))) }
        ensures declined { IfNone result ((e : End) → Represents self.old [] (begin e)
            → is_predicted (predicted_control kind nr) (predicted_role kind) e ≡ false) }
        ensures numbers { AreTags self.new.window }
        ensures unchanged { IfNone result (self.new ≡ self.old) }
    {
        let outs = self.predicted_row(kind, nr);
        prove!(self.window.vs().value() < 128);
        prove!(self.window.va().value() < 128);
        prove!(self.window.vr().value() < 128);
        outs
    }

    /// Makes the step, by the kind.
    #[inline(always)]
    fn predicted_row(&mut self, kind: PredictedKind, nr: Number) -> Option<PredictedOuts>
        requires between { IsBetweenSteps self.old }
        ensures step { IfSome result (λ outs. (e : End) → Represents self.old [] (begin e)
            → Represents self.new (predicted_outs outs) (end_step Tagged (row Tagged e.state
            (Heard (predicted_control kind nr) (predicted_role kind)) (begin e)))) }
        ensures declined { IfNone result ((e : End) → Represents self.old [] (begin e)
            → is_predicted (predicted_control kind nr) (predicted_role kind) e ≡ false) }
        ensures unchanged { IfNone result (self.new ≡ self.old) }
    {
        if !self.is_idle() {
            return None;
        }
        match kind {
            PredictedKind::Message(ns) => self.predicted_i_frame(ns, nr),
            PredictedKind::Acknowledgement => self.predicted_response(nr),
            PredictedKind::Poll => self.predicted_poll(nr),
        }
    }

    /// Whether the state is 7, and no message is unsent.
    #[inline(always)]
    pub(crate) fn is_idle(&self) -> bool
        ensures exactly { result ≡ is_idle_machine self.now }
        ensures idle { result ≡ true → IsIdle self.now }
    {
        match self.state {
            State::MultipleFrameEstablished => self.queue.sent() == self.queue.len(),
            State::TeiAssigned
            | State::AwaitingEstablishment
            | State::AwaitingRelease
            | State::TimerRecovery => false,
        }
    }
}
