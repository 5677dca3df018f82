//! The rows of state 8, timer recovery (Q.921 Figure B.8), that differ from state 7.

ghost use Rattle.std.specs.Prelude.{◌≡◌};
ghost use Rattle.lapd_mod128.specs.Counting.{Tagged};
ghost use Rattle.lapd_link_definition.specs.Input.{Heard};
ghost use Rattle.lapd_link_definition.specs.TimerRecovery.{poll, is_final, i_frame_nr_in_recovery, rr_nr_in_recovery, rnr_nr_in_recovery, timer_recovery_t200, timer_recovery};

use crate::Outs;
use crate::machine::Machine;
use lapd_frame::{Control, Number, Role};
use lapd_link_definition::{Letter, Out, State};

/// Whether a frame is a response with F=1, which answers the enquiry.
fn is_final(role: Role, pf: bool) -> bool
    ensures { result ≡ is_final role pf }
{
    match role {
        Role::Answer => pf,
        Role::Command => false,
    }
}

impl Machine {
    ghost use Rattle.lapd_link_machine.specs.Sent.{SentAreOutstanding};
    ghost use Rattle.lapd_link_machine.specs.Represents.{MachineDoes, HasOutputRoom, Grows};

    /// Receives a frame (Figure B.8).
    #[tactic(auto, using(crate::proofs::Rows::rows), unfolding(lapd_link_definition::specs::TimerRecovery::timer_recovery))]
    pub(crate) fn timer_recovery_frame(&mut self, control: Control, role: Role, outs: &mut Outs)
        requires room { HasOutputRoom 6 outs.old }
        requires counted { SentAreOutstanding self.old }
        ensures step { MachineDoes self.old outs.old self.new outs.new
            (timer_recovery Tagged (Heard control role)) }
        ensures len { Grows 6 outs.old outs.new }
    {
        match control {
            Control::I { ns, nr, p } => self.timer_recovery_i_frame(ns, nr, p, role, outs),
            Control::Rr { nr, pf } | Control::Rej { nr, pf } => {
                self.set_peer_busy(false);
                self.poll(role, pf, outs);
                self.rr_nr_in_recovery(is_final(role, pf), nr, outs);
            }
            Control::Rnr { nr, pf } => {
                self.set_peer_busy(true);
                self.poll(role, pf, outs);
                self.rnr_nr_in_recovery(is_final(role, pf), nr, outs);
            }
            Control::Dm { f } => self.timer_recovery_dm(f, role, outs),
            Control::Sabme { .. }
            | Control::Ui { .. }
            | Control::Disc { .. }
            | Control::Ua { .. }
            | Control::Frmr { .. }
            | Control::Xid { .. } => self.in_7_and_8_frame(control, role, outs),
        }
    }

    /// Receives an I frame (Figure B.8).
    #[tactic(auto, using(crate::proofs::Rows::rows), unfolding(lapd_link_definition::specs::TimerRecovery::timer_recovery, lapd_link_definition::specs::Established::in_7_and_8))]
    fn timer_recovery_i_frame(
        &mut self,
        ns: Number,
        nr: Number,
        p: bool,
        role: Role,
        outs: &mut Outs,
    )
        requires room { HasOutputRoom 6 outs.old }
        requires counted { SentAreOutstanding self.old }
        ensures step { MachineDoes self.old outs.old self.new outs.new
            (timer_recovery Tagged (Heard (Control.I ns nr p) role)) }
        ensures len { Grows 6 outs.old outs.new }
    {
        match role {
            Role::Command => {
                self.i_frame_ns(ns, p, outs);
                self.i_frame_nr_in_recovery(nr, outs);
            }
            Role::Answer => {}
        }
    }

    /// Receives a DM (Figure B.8).
    #[tactic(auto, using(crate::proofs::Rows::rows), unfolding(lapd_link_definition::specs::TimerRecovery::timer_recovery, lapd_link_definition::specs::Established::in_7_and_8))]
    fn timer_recovery_dm(&mut self, f: bool, role: Role, outs: &mut Outs)
        requires room { HasOutputRoom 4 outs.old }
        ensures step { MachineDoes self.old outs.old self.new outs.new
            (timer_recovery Tagged (Heard (Control.Dm f) role)) }
        ensures len { Grows 4 outs.old outs.new }
    {
        match (f, role) {
            (true, Role::Answer) => {
                self.put(Out::Report(Letter::B), outs);
                self.reestablish_data_link(outs);
            }
            (false, Role::Answer) => {
                self.put(Out::Report(Letter::E), outs);
                self.reestablish_data_link(outs);
            }
            (true, Role::Command) | (false, Role::Command) => {}
        }
    }

    /// Answers a command with P=1 (Figure B.8).
    #[tactic(auto, using(crate::proofs::Rows::rows), unfolding(lapd_link_definition::specs::TimerRecovery::poll))]
    fn poll(&mut self, role: Role, pf: bool, outs: &mut Outs)
        requires room { HasOutputRoom 1 outs.old }
        ensures step { MachineDoes self.old outs.old self.new outs.new (poll role pf) }
        ensures len { Grows 1 outs.old outs.new }
        ensures counted { SentAreOutstanding self.old → SentAreOutstanding self.new }
    {
        match (role, pf) {
            (Role::Command, true) => self.enquiry_response(outs),
            _ => {}
        }
    }

    /// Processes the N(R) of an I frame (Figure B.8).
    #[tactic(auto, using(crate::proofs::Rows::rows), unfolding(lapd_link_definition::specs::TimerRecovery::i_frame_nr_in_recovery))]
    fn i_frame_nr_in_recovery(&mut self, nr: Number, outs: &mut Outs)
        requires room { HasOutputRoom 4 outs.old }
        requires counted { SentAreOutstanding self.old }
        ensures step { MachineDoes self.old outs.old self.new outs.new
            (i_frame_nr_in_recovery Tagged nr) }
        ensures len { Grows 4 outs.old outs.new }
    {
        match self.acknowledged_by(nr) {
            Some(taken) => self.acknowledge(nr, taken, outs),
            None => self.nr_error_recovery(outs),
        }
    }

    /// Processes the N(R) of an RR or REJ frame; a final ends the recovery (Figure B.8).
    #[tactic(auto, using(crate::proofs::Rows::rows), unfolding(lapd_link_definition::specs::TimerRecovery::rr_nr_in_recovery))]
    fn rr_nr_in_recovery(&mut self, last: bool, nr: Number, outs: &mut Outs)
        requires room { HasOutputRoom 4 outs.old }
        requires counted { SentAreOutstanding self.old }
        ensures step { MachineDoes self.old outs.old self.new outs.new
            (rr_nr_in_recovery Tagged last nr) }
        ensures len { Grows 4 outs.old outs.new }
    {
        match self.acknowledged_by(nr) {
            Some(taken) => {
                if last {
                    self.acknowledge(nr, taken, outs);
                    // I frames that the final does not acknowledge are sent again (Q.921 5.6.7).
                    self.invoke_retransmission(nr);
                    self.stop_t200(outs);
                    self.start_t203(outs);
                    self.state_to(State::MultipleFrameEstablished);
                } else {
                    self.acknowledge(nr, taken, outs);
                }
            }
            None => self.nr_error_recovery(outs),
        }
    }

    /// Processes the N(R) of an RNR frame; a final ends the recovery (Figure B.8).
    #[tactic(auto, using(crate::proofs::Rows::rows), unfolding(lapd_link_definition::specs::TimerRecovery::rnr_nr_in_recovery))]
    fn rnr_nr_in_recovery(&mut self, last: bool, nr: Number, outs: &mut Outs)
        requires room { HasOutputRoom 4 outs.old }
        requires counted { SentAreOutstanding self.old }
        ensures step { MachineDoes self.old outs.old self.new outs.new
            (rnr_nr_in_recovery Tagged last nr) }
        ensures len { Grows 4 outs.old outs.new }
    {
        match self.acknowledged_by(nr) {
            Some(taken) => {
                if last {
                    self.acknowledge(nr, taken, outs);
                    self.invoke_retransmission(nr);
                    self.start_t200(outs);
                    self.state_to(State::MultipleFrameEstablished);
                } else {
                    self.acknowledge(nr, taken, outs);
                }
            }
            None => self.nr_error_recovery(outs),
        }
    }

    /// T200 expires: the enquiry is retransmitted, N200 times at most (Figure B.8).
    #[tactic(auto, using(crate::proofs::Rows::rows), unfolding(lapd_link_definition::specs::TimerRecovery::timer_recovery_t200))]
    pub(crate) fn timer_recovery_t200(&mut self, outs: &mut Outs)
        requires room { HasOutputRoom 4 outs.old }
        ensures step { MachineDoes self.old outs.old self.new outs.new timer_recovery_t200 }
        ensures len { Grows 4 outs.old outs.new }
    {
        if self.rc < self.params.n200() {
            self.increment_rc();
            self.expired_t200();
            self.transmit_enquiry(outs);
        } else {
            self.expired_t200();
            self.put(Out::Report(Letter::I), outs);
            self.reestablish_data_link(outs);
        }
    }
}
