//! The rows of state 7, multiple frame established (Q.921 Figure B.7), and the rows that it shares
//! with state 8.

ghost use Rattle.std.specs.Prelude.{◌≡◌, ◌<◌, ◌==◌, true, false, IfSome, IfNone};
ghost use Rattle.lapd_mod128.specs.Counting.{Tagged};
ghost use Rattle.lapd_supervision.specs.StateVariables.{is_valid_nr};
ghost use Rattle.lapd_link_definition.specs.Established.{busy_on, busy_off, in_7_and_8, poll_or_final, acknowledge_with_timers, i_frame_nr, rr_nr, rej_nr, rnr_nr, sends_last, established_t200, multiple_frame_established};
ghost use Rattle.lapd_link_definition.specs.Input.{Heard, Expiry, Establish, Release};

use crate::Outs;
use crate::machine::Machine;
use crate::machine::tei_assigned::unsolicited_ua;
use lapd_frame::{Control, Number, Role};
use lapd_link_definition::{Letter, Out, Recovery, State};
use lapd_supervision::{Advance, Window};
use lapd_timers::Timer;

/// The rows that states 7 and 8 share.
#[tactic(auto, using(crate::proofs::Rows::rows), unfolding(lapd_link_definition::specs::Established::in_7_and_8, lapd_link_definition::specs::Established::busy_on, lapd_link_definition::specs::Established::busy_off))]
impl Machine {
    ghost use Rattle.lapd_link_machine.specs.Represents.{MachineDoes, HasOutputRoom, Grows};

    /// DL-ESTABLISH request (Figures B.7 and B.8).
    pub(crate) fn established_establish(&mut self, outs: &mut Outs)
        requires room { HasOutputRoom 4 outs.old }
        ensures step { MachineDoes self.old outs.old self.new outs.new (in_7_and_8 Establish) }
        ensures len { Grows 4 outs.old outs.new }
        ensures state { self.new.state ≡ State.AwaitingEstablishment }
    {
        self.discard_i_queue(outs);
        self.layer3_initiated_to(true);
        self.establish_data_link(outs);
    }

    /// DL-RELEASE request (Figures B.7 and B.8).
    pub(crate) fn established_release(&mut self, outs: &mut Outs)
        requires room { HasOutputRoom 4 outs.old }
        ensures step { MachineDoes self.old outs.old self.new outs.new (in_7_and_8 Release) }
        ensures len { Grows 4 outs.old outs.new }
    {
        self.discard_i_queue(outs);
        self.rc_to(0);
        self.put(Out::Send(Role::Command, Control::Disc { p: true }), outs);
        self.stop_t203(outs);
        self.start_t200(outs);
        self.state_to(State::AwaitingRelease);
    }

    /// Own receiver busy begins, if it was not set (Figures B.7 and B.8).
    pub(crate) fn busy_on(&mut self, outs: &mut Outs)
        requires room { HasOutputRoom 1 outs.old }
        ensures step { MachineDoes self.old outs.old self.new outs.new busy_on }
        ensures len { Grows 1 outs.old outs.new }
    {
        if !self.window.own_busy() {
            self.set_own_busy(true, outs);
        }
    }

    /// Own receiver busy ends (Figures B.7 and B.8).
    pub(crate) fn busy_off(&mut self, outs: &mut Outs)
        requires room { HasOutputRoom 1 outs.old }
        ensures step { MachineDoes self.old outs.old self.new outs.new busy_off }
        ensures len { Grows 1 outs.old outs.new }
    {
        if self.window.own_busy() {
            self.set_own_busy(false, outs);
        }
    }

    /// Receives a frame that both states handle alike (Figures B.7 and B.8).
    pub(crate) fn in_7_and_8_frame(&mut self, control: Control, role: Role, outs: &mut Outs)
        requires room { HasOutputRoom 6 outs.old }
        ensures step { MachineDoes self.old outs.old self.new outs.new
            (in_7_and_8 (Heard control role)) }
        ensures len { Grows 6 outs.old outs.new }
    {
        match (control, role) {
            (Control::Sabme { p }, Role::Command) => self.established_sabme(p, outs),
            (Control::Disc { p }, Role::Command) => self.established_disc(p, outs),
            (Control::Ua { f }, Role::Answer) => self.put(Out::Report(unsolicited_ua(f)), outs),
            (Control::Dm { f: false }, Role::Answer) => {
                self.put(Out::Report(Letter::E), outs);
                self.reestablish_data_link(outs);
            }
            (Control::Frmr { .. }, Role::Answer) => {
                self.put(Out::Report(Letter::K), outs);
                self.reestablish_data_link(outs);
            }
            _ => {}
        }
    }

    /// SABME: the peer re-establishes the link (Figures B.7 and B.8).
    fn established_sabme(&mut self, p: bool, outs: &mut Outs)
        requires room { HasOutputRoom 6 outs.old }
        ensures step { MachineDoes self.old outs.old self.new outs.new
            (in_7_and_8 (Heard (Control.Sabme p) Role.Command)) }
        ensures len { Grows 6 outs.old outs.new }
    {
        self.put(Out::Send(Role::Answer, Control::Ua { f: p }), outs);
        self.clear_exception_conditions();
        self.put(Out::Report(Letter::F), outs);
        self.discard_unacknowledged(outs);
        self.stop_t200(outs);
        self.start_t203(outs);
        self.zero_state_variables();
        self.state_to(State::MultipleFrameEstablished);
    }

    /// DISC: the peer releases the link (Figures B.7 and B.8).
    fn established_disc(&mut self, p: bool, outs: &mut Outs)
        requires room { HasOutputRoom 5 outs.old }
        ensures step { MachineDoes self.old outs.old self.new outs.new
            (in_7_and_8 (Heard (Control.Disc p) Role.Command)) }
        ensures len { Grows 5 outs.old outs.new }
    {
        self.discard_i_queue(outs);
        self.put(Out::Send(Role::Answer, Control::Ua { f: p }), outs);
        self.put(Out::Released, outs);
        self.stop_t200(outs);
        self.stop_t203(outs);
        self.state_to(State::TeiAssigned);
    }
}

/// State 7, a frame or an expired timer.
impl Machine {
    ghost use Rattle.lapd_link_machine.specs.Sent.{SentAreOutstanding};
    ghost use Rattle.lapd_link_machine.specs.Represents.{MachineDoes, HasOutputRoom, Grows};

    /// Receives a frame (Figure B.7).
    #[tactic(auto, using(crate::proofs::Rows::rows), unfolding(lapd_link_definition::specs::Established::multiple_frame_established))]
    #[inline(always)]
    pub(crate) fn established_frame(&mut self, control: Control, role: Role, outs: &mut Outs)
        requires room { HasOutputRoom 6 outs.old }
        requires counted { SentAreOutstanding self.old }
        ensures step { MachineDoes self.old outs.old self.new outs.new
            (multiple_frame_established Tagged (Heard control role)) }
        ensures len { Grows 6 outs.old outs.new }
    {
        match control {
            Control::I { ns, nr, p } => self.established_i_frame(ns, nr, p, role, outs),
            Control::Rr { nr, pf } => {
                self.set_peer_busy(false);
                self.poll_or_final(role, pf, outs);
                self.rr_nr(nr, outs);
            }
            Control::Rej { nr, pf } => {
                self.set_peer_busy(false);
                self.poll_or_final(role, pf, outs);
                self.rej_nr(nr, outs);
            }
            Control::Rnr { nr, pf } => {
                self.set_peer_busy(true);
                self.poll_or_final(role, pf, outs);
                self.rnr_nr(nr, outs);
            }
            Control::Dm { f } => self.established_dm(f, role, outs),
            Control::Sabme { .. }
            | Control::Ui { .. }
            | Control::Disc { .. }
            | Control::Ua { .. }
            | Control::Frmr { .. }
            | Control::Xid { .. } => self.in_7_and_8_frame(control, role, outs),
        }
    }

    /// Receives an I frame (Figure B.7).
    #[tactic(auto, using(crate::proofs::Rows::rows), unfolding(lapd_link_definition::specs::Established::multiple_frame_established, lapd_link_definition::specs::Established::in_7_and_8))]
    #[inline(always)]
    fn established_i_frame(&mut self, ns: Number, nr: Number, p: bool, role: Role, outs: &mut Outs)
        requires room { HasOutputRoom 6 outs.old }
        requires counted { SentAreOutstanding self.old }
        ensures step { MachineDoes self.old outs.old self.new outs.new
            (multiple_frame_established Tagged (Heard (Control.I ns nr p) role)) }
        ensures len { Grows 6 outs.old outs.new }
    {
        match role {
            Role::Command => {
                self.i_frame_ns(ns, p, outs);
                self.i_frame_nr(nr, outs);
            }
            Role::Answer => {}
        }
    }

    /// Receives a DM (Figure B.7).
    #[tactic(auto, using(crate::proofs::Rows::rows), unfolding(lapd_link_definition::specs::Established::multiple_frame_established, lapd_link_definition::specs::Established::in_7_and_8))]
    fn established_dm(&mut self, f: bool, role: Role, outs: &mut Outs)
        requires room { HasOutputRoom 4 outs.old }
        ensures step { MachineDoes self.old outs.old self.new outs.new
            (multiple_frame_established Tagged (Heard (Control.Dm f) role)) }
        ensures len { Grows 4 outs.old outs.new }
    {
        match (f, role) {
            (true, Role::Answer) => self.put(Out::Report(Letter::B), outs),
            (false, Role::Answer) => {
                self.put(Out::Report(Letter::E), outs);
                self.reestablish_data_link(outs);
            }
            (true, Role::Command) | (false, Role::Command) => {}
        }
    }

    /// A command with P=1 is answered, and a response with F=1 is unsolicited (Figure B.7).
    #[tactic(auto, using(crate::proofs::Rows::rows), unfolding(lapd_link_definition::specs::Established::poll_or_final))]
    fn poll_or_final(&mut self, role: Role, pf: bool, outs: &mut Outs)
        requires room { HasOutputRoom 1 outs.old }
        ensures step { MachineDoes self.old outs.old self.new outs.new (poll_or_final role pf) }
        ensures len { Grows 1 outs.old outs.new }
        ensures counted { SentAreOutstanding self.old → SentAreOutstanding self.new }
    {
        match (role, pf) {
            (Role::Command, true) => self.enquiry_response(outs),
            (Role::Answer, true) => self.put(Out::Report(Letter::A), outs),
            _ => {}
        }
    }

    /// T203 expires: an enquiry is sent (Figure B.7).
    #[tactic(auto, using(crate::proofs::Rows::rows), unfolding(lapd_link_definition::specs::Established::multiple_frame_established))]
    pub(crate) fn established_t203(&mut self, outs: &mut Outs)
        requires room { HasOutputRoom 2 outs.old }
        ensures step { MachineDoes self.old outs.old self.new outs.new
            (multiple_frame_established Tagged (Expiry Timer.T203)) }
        ensures len { Grows 2 outs.old outs.new }
    {
        self.expired_t203();
        self.rc_to(0);
        self.transmit_enquiry(outs);
        self.state_to(State::TimerRecovery);
    }

    /// T200 expires: the last I frame is retransmitted, or an enquiry is sent (Figure B.7).
    #[tactic(auto, using(crate::proofs::Rows::rows), unfolding(lapd_link_definition::specs::Established::established_t200))]
    pub(crate) fn established_t200(&mut self, outs: &mut Outs)
        requires room { HasOutputRoom 2 outs.old }
        requires counted { SentAreOutstanding self.old }
        ensures step { MachineDoes self.old outs.old self.new outs.new (established_t200 Tagged) }
        ensures len { Grows 2 outs.old outs.new }
    {
        if self.sends_last() {
            self.expired_t200();
            self.retransmit_last_i_frame(outs);
            self.rc_to(1);
            self.state_to(State::TimerRecovery);
        } else {
            self.expired_t200();
            self.transmit_enquiry(outs);
            self.rc_to(1);
            self.state_to(State::TimerRecovery);
        }
    }

    /// Whether T200 retransmits the last message: the recovery is `LastMessage`, the peer is not
    /// busy, and a message is outstanding.
    #[tactic(auto, using(crate::proofs::Outstanding::some_are_sent))]
    fn sends_last(&self) -> bool
        requires counted { SentAreOutstanding self.now }
        ensures exact { result ≡ sends_last self.now.params.recovery self.now.window }
        ensures sent { result ≡ true → 0 < self.now.queue.sent }
    {
        match self.params.recovery() {
            Recovery::Enquiry => false,
            Recovery::LastMessage => {
                let outstanding = self.window.vs().value() != self.window.va().value();
                let ready = !self.window.peer_busy();
                ready && outstanding
            }
        }
    }
}

/// State 7, the effect of an N(R).
impl Machine {
    ghost use Rattle.lapd_link_machine.specs.Sent.{SentAreOutstanding, IsTaken};
    ghost use Rattle.lapd_link_machine.specs.Represents.{MachineDoes, HasOutputRoom, Grows};

    /// The window after a valid N(R), and what it acknowledges. The machine is unchanged.
    #[inline(always)]
    pub(crate) fn acknowledged_by(&self, nr: Number) -> Option<(Window, Advance)>
        ensures valid { IfSome result (λ taken. IsTaken nr self.now.window taken) }
        ensures wrong { IfNone result (is_valid_nr Tagged nr self.now.window ≡ false) }
    {
        self.window.take_nr(nr)
    }

    /// Whether this N(R) acknowledges nothing new.
    pub(crate) fn acknowledges_nothing_new(&self, nr: Number) -> bool
        ensures { result ≡ (nr == self.now.window.va) }
    {
        nr.value() == self.window.va().value()
    }

    /// Processes the N(R) of an I frame; while the peer is busy, T200 keeps running (Figure B.7).
    #[tactic(auto, using(crate::proofs::Rows::rows), unfolding(lapd_link_definition::specs::Established::i_frame_nr))]
    #[inline(always)]
    fn i_frame_nr(&mut self, nr: Number, outs: &mut Outs)
        requires room { HasOutputRoom 4 outs.old }
        requires counted { SentAreOutstanding self.old }
        ensures step { MachineDoes self.old outs.old self.new outs.new (i_frame_nr Tagged nr) }
        ensures len { Grows 4 outs.old outs.new }
    {
        match self.acknowledged_by(nr) {
            Some(taken) => {
                if self.window.peer_busy() {
                    self.acknowledge(nr, taken, outs);
                } else {
                    self.acknowledge_with_timers(nr, taken, outs);
                }
            }
            None => self.nr_error_recovery(outs),
        }
    }

    /// Processes the N(R) of an RR frame (Figure B.7).
    #[tactic(auto, using(crate::proofs::Rows::rows), unfolding(lapd_link_definition::specs::Established::rr_nr))]
    #[inline(always)]
    fn rr_nr(&mut self, nr: Number, outs: &mut Outs)
        requires room { HasOutputRoom 4 outs.old }
        requires counted { SentAreOutstanding self.old }
        ensures step { MachineDoes self.old outs.old self.new outs.new (rr_nr Tagged nr) }
        ensures len { Grows 4 outs.old outs.new }
    {
        match self.acknowledged_by(nr) {
            Some(taken) => self.acknowledge_with_timers(nr, taken, outs),
            None => self.nr_error_recovery(outs),
        }
    }

    /// Processes a valid N(R), and T200 and T203 by whether it acknowledges all, nothing new, or
    /// some (Figure B.7).
    #[tactic(auto, using(crate::proofs::Rows::rows), unfolding(lapd_link_definition::specs::Established::acknowledge_with_timers))]
    #[inline(always)]
    fn acknowledge_with_timers(&mut self, nr: Number, taken: (Window, Advance), outs: &mut Outs)
        requires room { HasOutputRoom 3 outs.old }
        requires taken { IsTaken nr self.old.window taken }
        requires counted { SentAreOutstanding self.old }
        ensures step { MachineDoes self.old outs.old self.new outs.new
            (acknowledge_with_timers Tagged nr) }
        ensures len { Grows 3 outs.old outs.new }
    {
        if taken.1.all {
            self.acknowledge(nr, taken, outs);
            self.stop_t200(outs);
            self.start_t203(outs);
        } else if !self.acknowledges_nothing_new(nr) {
            self.acknowledge(nr, taken, outs);
            self.start_t200(outs);
        }
    }

    /// Processes the N(R) of a REJ frame (Figure B.7).
    #[tactic(auto, using(crate::proofs::Rows::rows), unfolding(lapd_link_definition::specs::Established::rej_nr))]
    fn rej_nr(&mut self, nr: Number, outs: &mut Outs)
        requires room { HasOutputRoom 4 outs.old }
        requires counted { SentAreOutstanding self.old }
        ensures step { MachineDoes self.old outs.old self.new outs.new (rej_nr Tagged nr) }
        ensures len { Grows 4 outs.old outs.new }
    {
        match self.acknowledged_by(nr) {
            Some(taken) => {
                self.acknowledge(nr, taken, outs);
                self.invoke_retransmission(nr);
                self.stop_t200(outs);
                self.start_t203(outs);
            }
            None => self.nr_error_recovery(outs),
        }
    }

    /// Processes the N(R) of an RNR frame (Figure B.7).
    #[tactic(auto, using(crate::proofs::Rows::rows), unfolding(lapd_link_definition::specs::Established::rnr_nr))]
    fn rnr_nr(&mut self, nr: Number, outs: &mut Outs)
        requires room { HasOutputRoom 4 outs.old }
        requires counted { SentAreOutstanding self.old }
        ensures step { MachineDoes self.old outs.old self.new outs.new (rnr_nr Tagged nr) }
        ensures len { Grows 4 outs.old outs.new }
    {
        match self.acknowledged_by(nr) {
            Some(taken) => {
                self.acknowledge(nr, taken, outs);
                self.stop_t203(outs);
                self.start_t200(outs);
            }
            None => self.nr_error_recovery(outs),
        }
    }
}
