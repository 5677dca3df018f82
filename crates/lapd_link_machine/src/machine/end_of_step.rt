//! The end of a step: messages are sent while the window is open, and then the acknowledgement that
//! is still pending.

ghost use Rattle.std.specs.Prelude.{◌≡◌, ◌≤◌, ◌<◌, ◌+◌, List, true, length, false};
ghost use Rattle.arrayvec.specs.ArrayVec.{array_vec_len};
ghost use Rattle.lapd_mod128.specs.Counting.{Tagged};
ghost use Rattle.lapd_supervision.specs.StateVariables.{outstanding, AreTags};
ghost use Rattle.lapd_link_definition.specs.declared.out.Out.{Out};
ghost use Rattle.lapd_link_definition.specs.EndOfStep.{may_send_next, is_established, is_7_or_8, acknowledge_pending, end_step};
ghost use Rattle.lapd_link_definition.specs.End.{StepState, unsent};

use crate::machine::Machine;
use crate::{MOST_OUTPUTS, Outs};
use lapd_link_definition::State;

#[tactic(auto, using(crate::proofs::Rows::rows), unfolding(lapd_link_definition::specs::EndOfStep::acknowledge_pending, lapd_link_definition::specs::EndOfStep::end_step))]
impl Machine {
    ghost use Rattle.lapd_link_definition.specs.EndOfStep.{send_all};
    ghost use Rattle.lapd_link_machine.specs.Bounds.{primitive_count};
    ghost use Rattle.lapd_link_machine.specs.Represents.{Represents, MachineDoes, Grows};

    /// Ends a step.
    #[inline(always)]
    pub fn end_step(&mut self, outs: &mut Outs)
        requires room { array_vec_len outs.old ≤ 6 }
        ensures step { MachineDoes self.old outs.old self.new outs.new (end_step Tagged) }
        ensures numbers { AreTags self.new.window }
        ensures len { length outs.new.items ≤ MOST_OUTPUTS }
        ensures few { is_established self.old.state ≡ false → Grows 1 outs.old outs.new }
        ensures untold { primitive_count outs.new.items ≡ primitive_count outs.old.items }
    {
        self.send_all(outs);
        self.acknowledge_pending(outs);
        prove!(self.window.vs().value() < 128);
        prove!(self.window.va().value() < 128);
        prove!(self.window.vr().value() < 128);
    }

    /// Sends messages, in state 7, while the window is open.
    #[inline(always)]
    fn send_all(&mut self, outs: &mut Outs)
        requires room { array_vec_len outs.old ≤ 6 }
        ensures step { (s : StepState) → Represents self.old outs.old.items s
            → Represents self.new outs.new.items (send_all Tagged (unsent s.end) s) }
        ensures len { array_vec_len outs.new < MOST_OUTPUTS }
        ensures none { is_established self.old.state ≡ false
            → array_vec_len outs.new ≡ array_vec_len outs.old }
        ensures untold { primitive_count outs.new.items ≡ primitive_count outs.old.items }
    {
        while self.may_send_next() {
            self.transmit_i_frame(outs);
            self.ensure_t200(outs);
        }
    }

    /// Whether one more message is sent.
    fn may_send_next(&self) -> bool
        ensures shown { (s : StepState) (outs : List Out) → Represents self.now outs s
            → result ≡ may_send_next Tagged s }
        ensures few { result ≡ true → outstanding Tagged self.now.window < 127 }
        ensures established { result ≡ true → is_established self.now.state ≡ true }
        ensures unsent { result ≡ true → self.now.queue.sent < length self.now.queue.messages }
    {
        self.queue.sent() < self.queue.len()
            && self.is_established()
            && self.window.may_send(self.params.k())
    }

    /// Sends the pending acknowledgement.
    fn acknowledge_pending(&mut self, outs: &mut Outs)
        requires room { array_vec_len outs.old ≤ 135 }
        ensures step { MachineDoes self.old outs.old self.new outs.new acknowledge_pending }
        ensures len { Grows 1 outs.old outs.new }
        ensures untold { primitive_count outs.new.items ≡ primitive_count outs.old.items }
    {
        if self.is_7_or_8() && self.window.ack_pending() {
            self.transmit_rr(outs);
        }
    }

    fn is_established(&self) -> bool
        ensures { result ≡ is_established self.now.state }
    {
        match self.state {
            State::MultipleFrameEstablished => true,
            State::TeiAssigned
            | State::AwaitingEstablishment
            | State::AwaitingRelease
            | State::TimerRecovery => false,
        }
    }

    fn is_7_or_8(&self) -> bool
        ensures { result ≡ is_7_or_8 self.now.state }
    {
        match self.state {
            State::MultipleFrameEstablished | State::TimerRecovery => true,
            State::TeiAssigned | State::AwaitingEstablishment | State::AwaitingRelease => false,
        }
    }
}
