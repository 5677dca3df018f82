//! The actions of the state table, and the procedures of Q.921 Figure B.9. Each is a method with
//! the effect of the action on an end.

ghost use Rattle.std.specs.Prelude.{◌≡◌, ◌≤◌, ◌<◌, ◌+◌, ◌==◌, ◌++◌, List, length, if◌then◌else◌, true, OnOk, OnErr, IfErr, is_err};
ghost use Rattle.arrayvec.specs.ArrayVec.{array_vec_len};
ghost use Rattle.lapd_mod128.specs.Counting.{Tagged};
ghost use Rattle.lapd_supervision.specs.StateVariables.{without_exceptions, with_zero_counters, status_frame, acknowledgement, without_ack_pending, is_accepted, after_i_frame, i_frame_response, with_va, acknowledged_count, is_valid_nr, with_vs, next_i_frame, last_i_frame, after_sending, with_own_busy, with_peer_busy};
ghost use Rattle.lapd_queue.specs.Waiting.{with_message, one_more_sent, without_first, all_unsent, emptied};
ghost use Rattle.lapd_link_definition.specs.End.{StepState};
ghost use Rattle.lapd_link_definition.specs.declared.out.Out.{Out};
ghost use Rattle.lapd_link_definition.specs.declared.out.Out.TheVariants.{Acknowledged};
ghost use Rattle.lapd_link_definition.specs.Procedures.{counted, put, state_to, rc_to, increment_rc, layer3_initiated_to, release_pending_to, start, stop, expired, clear_exception_conditions, zero_state_variables, set_peer_busy, set_own_busy, enquiry_response, transmit_enquiry, queue_up, discard_i_queue, acknowledge, invoke_retransmission, i_frame_ns, discard_unacknowledged, transmit_i_frame, retransmit_last_i_frame, ensure_t200, transmit_rr, establish_data_link, reestablish_data_link, nr_error_recovery};

use crate::machine::{Machine, push};
use crate::{MOST_OUTPUTS, Outs};
use lapd_frame::{Control, Number, Role};
use lapd_link_definition::{Letter, Out, State};
use lapd_supervision::{Advance, Window};
use lapd_timers::Timer;

/// Actions that set one value.
impl Machine {
    ghost use Rattle.lapd_link_machine.specs.Sent.{SentAreOutstanding, IsTaken};
    ghost use Rattle.lapd_link_machine.specs.Bounds.{primitive_count};
    ghost use Rattle.lapd_link_machine.specs.Represents.{MachineDoes, DoesQuietly, HasOutputRoom, Grows};

    /// Adds an output.
    #[tactic(auto, unfolding(lapd_link_definition::specs::Procedures::put))]
    pub(crate) fn put(&mut self, out: Out, outs: &mut Outs)
        requires room { HasOutputRoom 1 outs.old }
        ensures step { MachineDoes self.old outs.old self.new outs.new (put out) }
        ensures len { Grows 1 outs.old outs.new }
        ensures counted { SentAreOutstanding self.old → SentAreOutstanding self.new }
    {
        push(outs, out);
    }

    /// Sets the state.
    #[tactic(auto, unfolding(lapd_link_definition::specs::Procedures::state_to))]
    pub(crate) fn state_to(&mut self, state: State)
        ensures step { DoesQuietly self.old self.new (state_to state) }
        ensures state { self.new.state ≡ state }
    {
        self.state = state;
    }

    /// Sets RC.
    #[tactic(auto, unfolding(lapd_link_definition::specs::Procedures::rc_to))]
    pub(crate) fn rc_to(&mut self, rc: u8)
        ensures step { DoesQuietly self.old self.new (rc_to rc) }
    {
        self.rc = rc;
    }

    /// Increments RC.
    #[tactic(auto, unfolding(lapd_link_definition::specs::Procedures::increment_rc))]
    pub(crate) fn increment_rc(&mut self)
        requires { self.old.rc < 255 }
        ensures step { DoesQuietly self.old self.new increment_rc }
    {
        self.rc += 1;
    }

    /// Sets whether layer 3 initiated the establishment.
    #[tactic(auto, unfolding(lapd_link_definition::specs::Procedures::layer3_initiated_to))]
    pub(crate) fn layer3_initiated_to(&mut self, on: bool)
        ensures step { DoesQuietly self.old self.new (layer3_initiated_to on) }
        ensures state { self.new.state ≡ self.old.state }
    {
        self.layer3_initiated = on;
    }

    /// Sets whether a release is pending.
    #[tactic(auto, unfolding(lapd_link_definition::specs::Procedures::release_pending_to))]
    pub(crate) fn release_pending_to(&mut self, on: bool)
        ensures step { DoesQuietly self.old self.new (release_pending_to on) }
    {
        self.release_pending = on;
    }

    /// START T200: it is started or restarted.
    #[tactic(auto, unfolding(lapd_link_definition::specs::Procedures::start))]
    pub(crate) fn start_t200(&mut self, outs: &mut Outs)
        requires room { HasOutputRoom 1 outs.old }
        ensures step { MachineDoes self.old outs.old self.new outs.new (start Timer.T200) }
        ensures len { Grows 1 outs.old outs.new }
        ensures untold { primitive_count outs.new.items ≡ primitive_count outs.old.items }
        ensures window { self.new.window ≡ self.old.window }
        ensures t200 { self.new.t200 ≡ true }
    {
        self.t200 = true;
        push(outs, Out::Start(Timer::T200));
    }

    /// STOP T200: it is stopped if it runs.
    #[tactic(auto, unfolding(lapd_link_definition::specs::Procedures::stop))]
    pub(crate) fn stop_t200(&mut self, outs: &mut Outs)
        requires room { HasOutputRoom 1 outs.old }
        ensures step { MachineDoes self.old outs.old self.new outs.new (stop Timer.T200) }
        ensures len { Grows 1 outs.old outs.new }
    {
        if self.t200 {
            self.t200 = false;
            push(outs, Out::Stop(Timer::T200));
        }
    }

    /// T200 has expired, so it no longer runs.
    #[tactic(auto, unfolding(lapd_link_definition::specs::Procedures::expired))]
    pub(crate) fn expired_t200(&mut self)
        ensures queue { self.new.queue ≡ self.old.queue }
        ensures step { DoesQuietly self.old self.new (expired Timer.T200) }
    {
        self.t200 = false;
    }

    /// START T203: it is started or restarted.
    #[tactic(auto, unfolding(lapd_link_definition::specs::Procedures::start))]
    pub(crate) fn start_t203(&mut self, outs: &mut Outs)
        requires room { HasOutputRoom 1 outs.old }
        ensures step { MachineDoes self.old outs.old self.new outs.new (start Timer.T203) }
        ensures len { Grows 1 outs.old outs.new }
    {
        self.t203 = true;
        push(outs, Out::Start(Timer::T203));
    }

    /// STOP T203: it is stopped if it runs.
    #[tactic(auto, unfolding(lapd_link_definition::specs::Procedures::stop))]
    pub(crate) fn stop_t203(&mut self, outs: &mut Outs)
        requires room { HasOutputRoom 1 outs.old }
        ensures step { MachineDoes self.old outs.old self.new outs.new (stop Timer.T203) }
        ensures len { Grows 1 outs.old outs.new }
        ensures untold { primitive_count outs.new.items ≡ primitive_count outs.old.items }
        ensures window { self.new.window ≡ self.old.window }
    {
        if self.t203 {
            self.t203 = false;
            push(outs, Out::Stop(Timer::T203));
        }
    }

    /// T203 has expired, so it no longer runs.
    #[tactic(auto, unfolding(lapd_link_definition::specs::Procedures::expired))]
    pub(crate) fn expired_t203(&mut self)
        ensures step { DoesQuietly self.old self.new (expired Timer.T203) }
    {
        self.t203 = false;
    }
}

/// Actions of the state variables and conditions.
impl Machine {
    ghost use Rattle.lapd_link_machine.specs.Sent.{SentAreOutstanding, IsTaken};
    ghost use Rattle.lapd_link_machine.specs.Bounds.{primitive_count};
    ghost use Rattle.lapd_link_machine.specs.Represents.{MachineDoes, DoesQuietly, HasOutputRoom, Grows};

    /// CLEAR EXCEPTION CONDITIONS: clears busy, rejecting and a pending acknowledgement.
    #[tactic(auto, unfolding(lapd_link_definition::specs::Procedures::clear_exception_conditions))]
    pub(crate) fn clear_exception_conditions(&mut self)
        ensures step { DoesQuietly self.old self.new clear_exception_conditions }
    {
        self.window = self.window.clear();
    }

    /// V(S), V(A) and V(R) become 0, and an establishment begins.
    #[tactic(auto, unfolding(lapd_link_definition::specs::Procedures::zero_state_variables))]
    pub(crate) fn zero_state_variables(&mut self)
        ensures step { DoesQuietly self.old self.new zero_state_variables }
    {
        self.window = self.window.zero();
    }

    /// SET or CLEAR PEER RECEIVER BUSY.
    #[tactic(auto, unfolding(lapd_link_definition::specs::Procedures::set_peer_busy))]
    pub(crate) fn set_peer_busy(&mut self, on: bool)
        ensures step { DoesQuietly self.old self.new (set_peer_busy on) }
        ensures counted { SentAreOutstanding self.old → SentAreOutstanding self.new }
    {
        self.window = self.window.peer(on);
    }

    /// SET or CLEAR OWN RECEIVER BUSY, and report it to the peer.
    #[tactic(auto, unfolding(lapd_link_definition::specs::Procedures::set_own_busy))]
    pub(crate) fn set_own_busy(&mut self, on: bool, outs: &mut Outs)
        requires room { HasOutputRoom 1 outs.old }
        ensures step { MachineDoes self.old outs.old self.new outs.new (set_own_busy on) }
        ensures len { Grows 1 outs.old outs.new }
    {
        let (window, control) = self.window.own(on);
        self.window = window;
        push(outs, Out::Send(Role::Answer, control));
    }

    /// ENQUIRY RESPONSE: a poll is answered.
    #[tactic(auto, unfolding(lapd_link_definition::specs::Procedures::enquiry_response))]
    pub(crate) fn enquiry_response(&mut self, outs: &mut Outs)
        requires room { HasOutputRoom 1 outs.old }
        ensures step { MachineDoes self.old outs.old self.new outs.new enquiry_response }
        ensures len { Grows 1 outs.old outs.new }
        ensures counted { SentAreOutstanding self.old → SentAreOutstanding self.new }
    {
        let (window, control) = self.window.answer_poll();
        self.window = window;
        push(outs, Out::Send(Role::Answer, control));
    }

    /// TRANSMIT ENQUIRY: polls the peer, and starts T200.
    #[tactic(auto, unfolding(lapd_link_definition::specs::Procedures::transmit_enquiry))]
    pub(crate) fn transmit_enquiry(&mut self, outs: &mut Outs)
        requires room { HasOutputRoom 2 outs.old }
        ensures step { MachineDoes self.old outs.old self.new outs.new transmit_enquiry }
        ensures len { Grows 2 outs.old outs.new }
    {
        let (window, control) = self.window.enquiry();
        self.window = window;
        self.t200 = true;
        push(outs, Out::Send(Role::Command, control));
        push(outs, Out::Start(Timer::T200));
    }

    /// Sends the pending acknowledgement.
    #[tactic(auto, unfolding(lapd_link_definition::specs::Procedures::transmit_rr))]
    pub(crate) fn transmit_rr(&mut self, outs: &mut Outs)
        requires room { HasOutputRoom 1 outs.old }
        ensures step { MachineDoes self.old outs.old self.new outs.new transmit_rr }
        ensures len { Grows 1 outs.old outs.new }
        ensures untold { primitive_count outs.new.items ≡ primitive_count outs.old.items }
    {
        let (window, control) = self.window.acknowledge();
        self.window = window;
        push(outs, Out::Send(Role::Answer, control));
    }

    /// Processes the N(S) and P of an I frame.
    #[tactic(auto, unfolding(lapd_link_definition::specs::Procedures::i_frame_ns))]
    #[inline(always)]
    pub(crate) fn i_frame_ns(&mut self, ns: Number, p: bool, outs: &mut Outs)
        requires room { HasOutputRoom 2 outs.old }
        ensures step { MachineDoes self.old outs.old self.new outs.new (i_frame_ns Tagged ns p) }
        ensures len { Grows 2 outs.old outs.new }
        ensures counted { SentAreOutstanding self.old → SentAreOutstanding self.new }
    {
        let (window, receipt) = self.window.take_ns(ns, p);
        self.window = window;
        if receipt.accepted {
            push(outs, Out::Up);
        }
        if let Some(control) = receipt.answer {
            push(outs, Out::Send(Role::Answer, control));
        }
    }
}

/// Actions of the I queue.
impl Machine {
    ghost use Rattle.lapd_link_machine.specs.Sent.{SentAreOutstanding, IsTaken};
    ghost use Rattle.lapd_link_machine.specs.Bounds.{primitive_count};
    ghost use Rattle.lapd_link_machine.specs.Represents.{Represents, MachineDoes, DoesQuietly, HasOutputRoom, Grows};
    ghost use Rattle.lapd_link_machine.specs.Predicted.{IsIdle};

    /// Queues a message, or returns it if the queue is full.
    #[tactic(auto, using(crate::proofs::Tails::tails), unfolding(lapd_link_definition::specs::Procedures::queue_up))]
    #[inline(always)]
    pub fn queue_up(&mut self, message: Vec<u8>) -> Result<(), Vec<u8>>
        ensures full { is_err result ≡ (length self.old.queue.messages == self.old.queue.room) }
        ensures ok { OnOk result (DoesQuietly self.old self.new (queue_up message.items)) }
        ensures returned { IfErr result (λ back. back ≡ message) }
        ensures unchanged { OnErr result (self.new ≡ self.old) }
    {
        self.queue.put(message)
    }

    /// DISCARD I QUEUE: the whole queue is dropped.
    #[tactic(auto, using(crate::proofs::Tails::tails), unfolding(lapd_link_definition::specs::Procedures::discard_i_queue))]
    pub(crate) fn discard_i_queue(&mut self, outs: &mut Outs)
        requires room { HasOutputRoom 1 outs.old }
        ensures step { MachineDoes self.old outs.old self.new outs.new discard_i_queue }
        ensures len { Grows 1 outs.old outs.new }
        ensures state { self.new.state ≡ self.old.state }
    {
        let dropped = self.queue.discard();
        if dropped > 0 {
            push(outs, Out::Dropped(dropped));
        }
    }

    /// V(A) = N(R): the messages before a valid N(R) are acknowledged and removed from the queue.
    /// Returns how many.
    #[tactic(auto, using(crate::proofs::Tails::tails), unfolding(lapd_link_definition::specs::Procedures::acknowledge))]
    #[inline(always)]
    pub(crate) fn acknowledge_returning(&mut self, nr: Number, taken: (Window, Advance)) -> u16
        requires taken { IsTaken nr self.old.window taken }
        requires counted { SentAreOutstanding self.old }
        ensures step { (s : StepState) (outs : List Out) → Represents self.old outs s
            → Represents self.new (outs ++ counted result Acknowledged)
            (acknowledge Tagged nr s) }
        ensures idle { IsIdle self.old → IsIdle self.new }
    {
        let count = u16::from(taken.1.count);
        self.window = taken.0;
        self.queue.acknowledge(count);
        count
    }

    /// V(A) = N(R), with the number of messages as an output.
    #[tactic(auto)]
    #[inline(always)]
    pub(crate) fn acknowledge(&mut self, nr: Number, taken: (Window, Advance), outs: &mut Outs)
        requires room { HasOutputRoom 1 outs.old }
        requires taken { IsTaken nr self.old.window taken }
        requires counted { SentAreOutstanding self.old }
        ensures step { MachineDoes self.old outs.old self.new outs.new (acknowledge Tagged nr) }
        ensures len { Grows 1 outs.old outs.new }
    {
        let count = self.acknowledge_returning(nr, taken);
        if count > 0 {
            push(outs, Out::Acknowledged(count));
        }
    }

    /// INVOKE RETRANSMISSION: the remaining messages are to be retransmitted, from this number on.
    #[tactic(auto, using(crate::proofs::Tails::tails), unfolding(lapd_link_definition::specs::Procedures::invoke_retransmission))]
    pub(crate) fn invoke_retransmission(&mut self, nr: Number)
        ensures step { DoesQuietly self.old self.new (invoke_retransmission nr) }
    {
        self.window = self.window.go_back(nr);
        self.queue.go_back();
    }

    /// DISCARD I QUEUE and an indication of the establishment, if messages were sent and not
    /// acknowledged.
    #[tactic(auto, using(crate::proofs::Tails::tails), unfolding(lapd_link_definition::specs::Procedures::discard_unacknowledged, lapd_link_definition::specs::Procedures::discard_i_queue))]
    pub(crate) fn discard_unacknowledged(&mut self, outs: &mut Outs)
        requires room { HasOutputRoom 2 outs.old }
        ensures step { MachineDoes self.old outs.old self.new outs.new discard_unacknowledged }
        ensures len { Grows 2 outs.old outs.new }
    {
        if self.window.vs().value() != self.window.va().value() {
            self.discard_i_queue(outs);
            push(outs, Out::Established);
        }
    }

    /// Sends the first unsent message.
    #[tactic(auto, using(crate::proofs::Tails::tails), unfolding(lapd_link_definition::specs::Procedures::transmit_i_frame))]
    pub(crate) fn transmit_i_frame(&mut self, outs: &mut Outs)
        requires room { HasOutputRoom 1 outs.old }
        requires unsent { self.old.queue.sent < length self.old.queue.messages }
        ensures step { MachineDoes self.old outs.old self.new outs.new (transmit_i_frame Tagged) }
        ensures len { Grows 1 outs.old outs.new }
        ensures untold { primitive_count outs.new.items ≡ primitive_count outs.old.items }
        ensures window { self.new.window ≡ after_sending Tagged self.old.window }
        ensures t200 { self.new.t200 ≡ self.old.t200 }
    {
        let place = self.queue.sent();
        let (window, control) = self.window.send();
        self.window = window;
        self.queue.sent_one();
        push(outs, Out::SendMessage(place, control));
    }
}

/// The last sent message is retransmitted.
#[tactic(auto, using(crate::proofs::Tails::tail_last_place), unfolding(lapd_link_definition::specs::Procedures::retransmit_last_i_frame))]
impl Machine {
    ghost use Rattle.lapd_link_machine.specs.Represents.{MachineDoes, HasOutputRoom, Grows};

    /// Retransmits it with P=1, and starts T200.
    pub(crate) fn retransmit_last_i_frame(&mut self, outs: &mut Outs)
        requires room { HasOutputRoom 2 outs.old }
        requires sent { 0 < self.old.queue.sent }
        ensures step { MachineDoes self.old outs.old self.new outs.new
            (retransmit_last_i_frame Tagged) }
        ensures len { Grows 2 outs.old outs.new }
    {
        let place = self.queue.sent() - 1;
        let (window, control) = self.window.send_last();
        self.window = window;
        self.t200 = true;
        push(outs, Out::SendMessage(place, control));
        push(outs, Out::Start(Timer::T200));
    }
}

/// T200 runs while sent frames are outstanding.
#[tactic(auto, using(crate::proofs::Guards::guard_starts, crate::proofs::Guards::guard_runs))]
impl Machine {
    ghost use Rattle.lapd_link_machine.specs.Sent.{SentAreOutstanding, IsTaken};
    ghost use Rattle.lapd_link_machine.specs.Bounds.{primitive_count};
    ghost use Rattle.lapd_link_machine.specs.Represents.{MachineDoes, DoesQuietly, HasOutputRoom, Grows};

    /// If T200 does not run, stops T203 and starts T200.
    pub(crate) fn ensure_t200(&mut self, outs: &mut Outs)
        requires room { array_vec_len outs.old + (if self.old.t200 then 0 else 2) ≤ MOST_OUTPUTS }
        ensures step { MachineDoes self.old outs.old self.new outs.new ensure_t200 }
        ensures len { array_vec_len outs.new ≤ array_vec_len outs.old
            + (if self.old.t200 then 0 else 2) }
        ensures untold { primitive_count outs.new.items ≡ primitive_count outs.old.items }
        ensures window { self.new.window ≡ self.old.window }
        ensures t200 { self.new.t200 ≡ true }
    {
        if !self.t200 {
            self.stop_t203(outs);
            self.start_t200(outs);
        }
    }
}

/// Procedures made of these actions.
#[tactic(auto, unfolding(lapd_link_definition::specs::Procedures::establish_data_link, lapd_link_definition::specs::Procedures::reestablish_data_link, lapd_link_definition::specs::Procedures::nr_error_recovery))]
impl Machine {
    ghost use Rattle.lapd_link_machine.specs.Represents.{MachineDoes, HasOutputRoom, Grows};

    /// ESTABLISH DATA LINK: sends a SABME, whose response is then awaited.
    pub(crate) fn establish_data_link(&mut self, outs: &mut Outs)
        requires room { HasOutputRoom 3 outs.old }
        ensures step { MachineDoes self.old outs.old self.new outs.new establish_data_link }
        ensures len { Grows 3 outs.old outs.new }
        ensures state { self.new.state ≡ State.AwaitingEstablishment }
    {
        self.clear_exception_conditions();
        self.release_pending_to(false);
        self.rc_to(0);
        self.put(Out::Send(Role::Command, Control::Sabme { p: true }), outs);
        self.stop_t203(outs);
        self.start_t200(outs);
        self.state_to(State::AwaitingEstablishment);
    }

    /// The data link initiates the establishment itself.
    pub(crate) fn reestablish_data_link(&mut self, outs: &mut Outs)
        requires room { HasOutputRoom 3 outs.old }
        ensures step { MachineDoes self.old outs.old self.new outs.new reestablish_data_link }
        ensures len { Grows 3 outs.old outs.new }
    {
        self.layer3_initiated_to(false);
        self.establish_data_link(outs);
    }

    /// N(R) ERROR RECOVERY: the response to an N(R) that is not valid.
    pub(crate) fn nr_error_recovery(&mut self, outs: &mut Outs)
        requires room { HasOutputRoom 4 outs.old }
        ensures step { MachineDoes self.old outs.old self.new outs.new nr_error_recovery }
        ensures len { Grows 4 outs.old outs.new }
    {
        self.put(Out::Report(Letter::J), outs);
        self.reestablish_data_link(outs);
    }
}
