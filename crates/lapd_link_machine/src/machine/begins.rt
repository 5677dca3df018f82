//! The steps in which an establishment begins (Q.921 5.5.1.2).

ghost use Rattle.std.specs.Prelude.{◌≡◌, []};
ghost use Rattle.lapd_link_definition.specs.Begins.{is_sabme, is_final_ua, begins};
ghost use Rattle.lapd_link_definition.specs.End.{End, begin};
ghost use Rattle.lapd_link_definition.specs.Input.{Heard, input_of};
ghost use Rattle.lapd_link_machine.specs.Represents.{Represents};

use crate::machine::Machine;
use lapd_frame::{Control, Role};
use lapd_link_definition::{Event, State};

/// Whether a frame is a SABME command.
fn is_sabme(control: &Control, role: Role) -> bool
    ensures { result ≡ is_sabme (Heard control.now role) }
{
    match (control, role) {
        (Control::Sabme { p: _ }, Role::Command) => true,
        _ => false,
    }
}

/// Whether a frame is a UA with F=1, the response to a SABME.
fn is_final_ua(control: &Control, role: Role) -> bool
    ensures { result ≡ is_final_ua (Heard control.now role) }
{
    match (control, role) {
        (Control::Ua { f: true }, Role::Answer) => true,
        _ => false,
    }
}

#[tactic(auto, unfolding(lapd_link_definition::specs::End::begin))]
impl Machine {
    /// Whether an establishment begins with this event.
    pub fn begins(&self, event: &Event) -> bool
        ensures { (e : End) → Represents self.now [] (begin e)
            → result ≡ begins e.state e.release_pending (input_of event.now) }
    {
        match event {
            Event::Heard(frame) => self.begins_with(&frame.control(), frame.address().role),
            Event::Fault(_)
            | Event::T200
            | Event::T203
            | Event::Establish
            | Event::Release
            | Event::BusyOn
            | Event::BusyOff
            | Event::Unit(_) => false,
        }
    }

    /// Whether an establishment begins with this frame.
    fn begins_with(&self, control: &Control, role: Role) -> bool
        ensures { (e : End) → Represents self.now [] (begin e)
            → result ≡ begins e.state e.release_pending (Heard control.now role) }
    {
        match self.state {
            State::TeiAssigned | State::MultipleFrameEstablished | State::TimerRecovery => {
                is_sabme(control, role)
            }
            State::AwaitingEstablishment => { is_final_ua(control, role) && !self.release_pending }
            State::AwaitingRelease => false,
        }
    }
}
