//! The rows of state 4, TEI assigned (Q.921 Figure B.4).

ghost use Rattle.std.specs.Prelude.{◌≡◌};
ghost use Rattle.lapd_link_definition.specs.Input.{Heard, Establish};
ghost use Rattle.lapd_link_definition.specs.TeiAssigned.{unsolicited_ua, tei_assigned};

use crate::Outs;
use crate::machine::Machine;
use lapd_frame::{Control, Role};
use lapd_link_definition::{Letter, Out, State};

/// The report of an unsolicited UA (Q.921 Appendix II).
pub fn unsolicited_ua(f: bool) -> Letter
    ensures { result ≡ unsolicited_ua f }
{
    if f { Letter::C } else { Letter::D }
}

#[tactic(auto, unfolding(lapd_link_definition::specs::TeiAssigned::tei_assigned))]
impl Machine {
    ghost use Rattle.lapd_link_machine.specs.Represents.{MachineDoes, HasOutputRoom, Grows};

    /// Receives a frame (Figure B.4).
    pub(crate) fn tei_assigned_frame(&mut self, control: Control, role: Role, outs: &mut Outs)
        requires room { HasOutputRoom 6 outs.old }
        ensures step { MachineDoes self.old outs.old self.new outs.new
            (tei_assigned (Heard control role)) }
        ensures len { Grows 6 outs.old outs.new }
    {
        match (control, role) {
            (Control::Sabme { p }, Role::Command) => {
                self.put(Out::Send(Role::Answer, Control::Ua { f: p }), outs);
                self.clear_exception_conditions();
                self.zero_state_variables();
                self.put(Out::Established, outs);
                self.start_t203(outs);
                self.state_to(State::MultipleFrameEstablished);
            }
            (Control::Disc { p }, Role::Command) => {
                self.put(Out::Send(Role::Answer, Control::Dm { f: p }), outs);
            }
            (Control::Ua { f }, Role::Answer) => self.put(Out::Report(unsolicited_ua(f)), outs),
            _ => {}
        }
    }

    /// DL-ESTABLISH request (Figure B.4).
    pub(crate) fn tei_assigned_establish(&mut self, outs: &mut Outs)
        requires room { HasOutputRoom 4 outs.old }
        ensures step { MachineDoes self.old outs.old self.new outs.new (tei_assigned Establish) }
        ensures len { Grows 4 outs.old outs.new }
        ensures state { self.new.state ≡ State.AwaitingEstablishment }
    {
        self.discard_i_queue(outs);
        self.layer3_initiated_to(true);
        self.establish_data_link(outs);
    }
}
