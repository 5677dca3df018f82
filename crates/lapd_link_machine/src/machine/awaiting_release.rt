//! The rows of state 6, awaiting release (Q.921 Figure B.6).

ghost use Rattle.lapd_link_definition.specs.AwaitingRelease.{confirm_release, awaiting_release_t200, awaiting_release};
ghost use Rattle.lapd_link_definition.specs.Input.{Heard};

use crate::Outs;
use crate::machine::Machine;
use lapd_frame::{Control, Role};
use lapd_link_definition::{Letter, Out, State};

#[tactic(auto, using(crate::proofs::Rows::rows), unfolding(lapd_link_definition::specs::AwaitingRelease::confirm_release, lapd_link_definition::specs::AwaitingRelease::awaiting_release_t200, lapd_link_definition::specs::AwaitingRelease::awaiting_release))]
impl Machine {
    ghost use Rattle.lapd_link_machine.specs.Represents.{MachineDoes, HasOutputRoom, Grows};

    /// Receives a frame (Figure B.6).
    pub(crate) fn awaiting_release_frame(&mut self, control: Control, role: Role, outs: &mut Outs)
        requires room { HasOutputRoom 6 outs.old }
        ensures step { MachineDoes self.old outs.old self.new outs.new
            (awaiting_release (Heard control role)) }
        ensures len { Grows 6 outs.old outs.new }
    {
        match (control, role) {
            (Control::Sabme { p }, Role::Command) => {
                self.put(Out::Send(Role::Answer, Control::Dm { f: p }), outs);
            }
            (Control::Disc { p }, Role::Command) => {
                self.put(Out::Send(Role::Answer, Control::Ua { f: p }), outs);
            }
            (Control::Ua { f: true }, Role::Answer) => self.confirm_release(outs),
            (Control::Dm { f: true }, Role::Answer) => self.confirm_release(outs),
            (Control::Ua { f: false }, Role::Answer) => self.put(Out::Report(Letter::D), outs),
            _ => {}
        }
    }

    /// The DISC is answered (Figure B.6).
    fn confirm_release(&mut self, outs: &mut Outs)
        requires room { HasOutputRoom 2 outs.old }
        ensures step { MachineDoes self.old outs.old self.new outs.new confirm_release }
        ensures len { Grows 2 outs.old outs.new }
    {
        self.stop_t200(outs);
        self.put(Out::ReleaseConfirm, outs);
        self.state_to(State::TeiAssigned);
    }

    /// T200 expires: the DISC is retransmitted, N200 times at most (Figure B.6).
    pub(crate) fn awaiting_release_t200(&mut self, outs: &mut Outs)
        requires room { HasOutputRoom 2 outs.old }
        ensures step { MachineDoes self.old outs.old self.new outs.new awaiting_release_t200 }
        ensures len { Grows 2 outs.old outs.new }
    {
        if self.rc < self.params.n200() {
            self.increment_rc();
            self.expired_t200();
            self.put(Out::Send(Role::Command, Control::Disc { p: true }), outs);
            self.start_t200(outs);
        } else {
            self.expired_t200();
            self.put(Out::Report(Letter::H), outs);
            self.put(Out::ReleaseConfirm, outs);
            self.state_to(State::TeiAssigned);
        }
    }
}
