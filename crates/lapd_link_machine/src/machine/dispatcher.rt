//! The row of the state table for each event, in any state of the link.

ghost use Rattle.std.specs.Prelude.{◌≡◌, false};
ghost use Rattle.lapd_mod128.specs.Counting.{Tagged};
ghost use Rattle.lapd_link_definition.specs.EndOfStep.{is_established};
ghost use Rattle.lapd_link_definition.specs.Input.{Heard, Faulty, Expiry, Establish, Release, BusyOn, BusyOff, input_of};
ghost use Rattle.lapd_link_definition.specs.Table.{fault_letter, is_unit_data, by_state, row};

use crate::Outs;
use crate::machine::Machine;
use lapd_frame::{Control, FaultKind, Role};
use lapd_link_definition::{Event, Letter, Out, State};
use lapd_timers::Timer;

/// The report of a fault in a frame (Q.921 Appendix II).
fn fault_letter(kind: FaultKind) -> Letter
    ensures { result ≡ fault_letter kind }
{
    match kind {
        FaultKind::Undefined => Letter::L,
        FaultKind::InfoNotPermitted => Letter::M,
        FaultKind::WrongSize => Letter::N,
        _ => Letter::O,
    }
}

/// Whether a frame is a UI command.
fn is_unit_data(control: &Control, role: Role) -> bool
    ensures { result ≡ is_unit_data control.now role }
{
    match (control, role) {
        (Control::Ui { p: _ }, Role::Command) => true,
        _ => false,
    }
}

#[tactic(auto, using(crate::proofs::Rows::rows), unfolding(lapd_link_definition::specs::TeiAssigned::tei_assigned, lapd_link_definition::specs::AwaitingEstablishment::awaiting_establishment, lapd_link_definition::specs::AwaitingRelease::awaiting_release, lapd_link_definition::specs::Established::multiple_frame_established, lapd_link_definition::specs::TimerRecovery::timer_recovery, lapd_link_definition::specs::Established::in_7_and_8, lapd_link_definition::specs::Table::report_fault, lapd_link_definition::specs::Table::by_state, lapd_link_definition::specs::Table::row))]
impl Machine {
    ghost use Rattle.lapd_link_machine.specs.Sent.{IsBetweenSteps};
    ghost use Rattle.lapd_link_machine.specs.Represents.{MachineDoes, HasOutputRoom, Grows};

    /// Makes the row of an event.
    #[inline(always)]
    pub(crate) fn row(&mut self, event: Event, outs: &mut Outs)
        requires room { HasOutputRoom 6 outs.old }
        requires between { IsBetweenSteps self.old }
        ensures step { MachineDoes self.old outs.old self.new outs.new
            (row Tagged self.old.state (input_of event.entry)) }
        ensures len { Grows 6 outs.old outs.new }
        ensures state { input_of event.entry ≡ Establish → is_established self.new.state ≡ false }
    {
        match event {
            Event::Heard(frame) => self.frame_received(frame.control(), frame.address().role, outs),
            Event::Fault(kind) => self.fault(kind, outs),
            Event::T200 => self.t200_expiry(outs),
            Event::T203 => self.t203_expiry(outs),
            Event::Establish => self.establish(outs),
            Event::Release => self.release(outs),
            Event::BusyOn => self.busy_begins(outs),
            Event::BusyOff => self.busy_ends(outs),
            Event::Unit(_) => self.put(Out::SendUnit, outs),
        }
    }

    /// Makes the row of a received frame.
    #[inline(always)]
    fn frame_received(&mut self, control: Control, role: Role, outs: &mut Outs)
        requires room { HasOutputRoom 6 outs.old }
        requires between { IsBetweenSteps self.old }
        ensures step { MachineDoes self.old outs.old self.new outs.new
            (row Tagged self.old.state (Heard control role)) }
        ensures len { Grows 6 outs.old outs.new }
    {
        if is_unit_data(&control, role) {
            self.put(Out::UnitUp, outs);
        } else {
            self.frame_by_state(control, role, outs);
        }
    }

    /// Makes the row of a received frame other than a UI command.
    fn frame_by_state(&mut self, control: Control, role: Role, outs: &mut Outs)
        requires room { HasOutputRoom 6 outs.old }
        requires between { IsBetweenSteps self.old }
        ensures step { MachineDoes self.old outs.old self.new outs.new
            (by_state Tagged self.old.state (Heard control role)) }
        ensures len { Grows 6 outs.old outs.new }
    {
        match self.state {
            State::TeiAssigned => self.tei_assigned_frame(control, role, outs),
            State::AwaitingEstablishment => self.awaiting_establishment_frame(control, role, outs),
            State::AwaitingRelease => self.awaiting_release_frame(control, role, outs),
            State::MultipleFrameEstablished => self.established_frame(control, role, outs),
            State::TimerRecovery => self.timer_recovery_frame(control, role, outs),
        }
    }

    /// Reports a fault in a frame, which breaks an established link.
    fn fault(&mut self, kind: FaultKind, outs: &mut Outs)
        requires room { HasOutputRoom 6 outs.old }
        ensures step { MachineDoes self.old outs.old self.new outs.new
            (row Tagged self.old.state (Faulty kind)) }
        ensures len { Grows 6 outs.old outs.new }
    {
        let letter = fault_letter(kind);
        match self.state {
            State::MultipleFrameEstablished | State::TimerRecovery => {
                self.put(Out::Report(letter), outs);
                self.reestablish_data_link(outs);
            }
            State::TeiAssigned | State::AwaitingEstablishment | State::AwaitingRelease => {
                self.put(Out::Report(letter), outs);
            }
        }
    }

    /// T200 expires, if it runs.
    fn t200_expiry(&mut self, outs: &mut Outs)
        requires room { HasOutputRoom 6 outs.old }
        requires between { IsBetweenSteps self.old }
        ensures step { MachineDoes self.old outs.old self.new outs.new
            (row Tagged self.old.state (Expiry Timer.T200)) }
        ensures len { Grows 6 outs.old outs.new }
    {
        if self.t200 {
            self.t200_expiry_by_state(outs);
        }
    }

    /// T200, which was running, expires.
    fn t200_expiry_by_state(&mut self, outs: &mut Outs)
        requires room { HasOutputRoom 6 outs.old }
        requires between { IsBetweenSteps self.old }
        ensures step { MachineDoes self.old outs.old self.new outs.new
            (by_state Tagged self.old.state (Expiry Timer.T200)) }
        ensures len { Grows 6 outs.old outs.new }
    {
        match self.state {
            State::TeiAssigned => {}
            State::AwaitingEstablishment => self.awaiting_establishment_t200(outs),
            State::AwaitingRelease => self.awaiting_release_t200(outs),
            State::MultipleFrameEstablished => self.established_t200(outs),
            State::TimerRecovery => self.timer_recovery_t200(outs),
        }
    }

    /// T203 expires, if it runs.
    fn t203_expiry(&mut self, outs: &mut Outs)
        requires room { HasOutputRoom 6 outs.old }
        ensures step { MachineDoes self.old outs.old self.new outs.new
            (row Tagged self.old.state (Expiry Timer.T203)) }
        ensures len { Grows 6 outs.old outs.new }
    {
        if self.t203 {
            self.t203_expiry_by_state(outs);
        }
    }

    /// T203, which was running, expires.
    fn t203_expiry_by_state(&mut self, outs: &mut Outs)
        requires room { HasOutputRoom 6 outs.old }
        ensures step { MachineDoes self.old outs.old self.new outs.new
            (by_state Tagged self.old.state (Expiry Timer.T203)) }
        ensures len { Grows 6 outs.old outs.new }
    {
        match self.state {
            State::MultipleFrameEstablished => self.established_t203(outs),
            State::TeiAssigned
            | State::AwaitingEstablishment
            | State::AwaitingRelease
            | State::TimerRecovery => {}
        }
    }

    /// DL-ESTABLISH request, not refused.
    fn establish(&mut self, outs: &mut Outs)
        requires room { HasOutputRoom 6 outs.old }
        ensures step { MachineDoes self.old outs.old self.new outs.new
            (row Tagged self.old.state Establish) }
        ensures len { Grows 6 outs.old outs.new }
        ensures state { is_established self.new.state ≡ false }
    {
        match self.state {
            State::TeiAssigned => self.tei_assigned_establish(outs),
            State::AwaitingEstablishment => self.awaiting_establishment_establish(outs),
            State::AwaitingRelease => {}
            State::MultipleFrameEstablished | State::TimerRecovery => {
                self.established_establish(outs);
            }
        }
    }

    /// DL-RELEASE request.
    fn release(&mut self, outs: &mut Outs)
        requires room { HasOutputRoom 6 outs.old }
        ensures step { MachineDoes self.old outs.old self.new outs.new
            (row Tagged self.old.state Release) }
        ensures len { Grows 6 outs.old outs.new }
    {
        match self.state {
            State::TeiAssigned => self.put(Out::ReleaseConfirm, outs),
            State::AwaitingEstablishment => self.awaiting_establishment_release(outs),
            State::AwaitingRelease => {}
            State::MultipleFrameEstablished | State::TimerRecovery => {
                self.established_release(outs);
            }
        }
    }

    /// Own receiver busy begins.
    fn busy_begins(&mut self, outs: &mut Outs)
        requires room { HasOutputRoom 6 outs.old }
        ensures step { MachineDoes self.old outs.old self.new outs.new
            (row Tagged self.old.state BusyOn) }
        ensures len { Grows 6 outs.old outs.new }
    {
        match self.state {
            State::MultipleFrameEstablished | State::TimerRecovery => self.busy_on(outs),
            State::TeiAssigned | State::AwaitingEstablishment | State::AwaitingRelease => {}
        }
    }

    /// Own receiver busy ends.
    fn busy_ends(&mut self, outs: &mut Outs)
        requires room { HasOutputRoom 6 outs.old }
        ensures step { MachineDoes self.old outs.old self.new outs.new
            (row Tagged self.old.state BusyOff) }
        ensures len { Grows 6 outs.old outs.new }
    {
        match self.state {
            State::MultipleFrameEstablished | State::TimerRecovery => self.busy_off(outs),
            State::TeiAssigned | State::AwaitingEstablishment | State::AwaitingRelease => {}
        }
    }
}
