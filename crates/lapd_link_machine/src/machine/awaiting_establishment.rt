//! The rows of state 5, awaiting establishment (Q.921 Figure B.5).

ghost use Rattle.std.specs.Prelude.{◌≡◌};
ghost use Rattle.lapd_link_definition.specs.AwaitingEstablishment.{release_primitive, end_establishment, confirm_or_indicate, ua_final, awaiting_establishment_t200, awaiting_establishment};
ghost use Rattle.lapd_link_definition.specs.Input.{Heard, Establish, Release};

use crate::Outs;
use crate::machine::Machine;
use lapd_frame::{Control, Role};
use lapd_link_definition::{Letter, Out, State};

/// The primitive for the end of a link: a release that layer 3 requested is confirmed, any other is
/// indicated.
fn release_primitive(asked: bool) -> Out
    ensures { result ≡ release_primitive asked }
{
    if asked {
        Out::ReleaseConfirm
    } else {
        Out::Released
    }
}

impl Machine {
    ghost use Rattle.lapd_link_machine.specs.Represents.{MachineDoes, HasOutputRoom, Grows};

    /// Receives a frame (Figure B.5).
    #[tactic(auto, using(crate::proofs::Rows::rows), unfolding(lapd_link_definition::specs::AwaitingEstablishment::awaiting_establishment))]
    pub(crate) fn awaiting_establishment_frame(
        &mut self,
        control: Control,
        role: Role,
        outs: &mut Outs,
    )
        requires room { HasOutputRoom 6 outs.old }
        ensures step { MachineDoes self.old outs.old self.new outs.new
            (awaiting_establishment (Heard control role)) }
        ensures len { Grows 6 outs.old outs.new }
    {
        match (control, role) {
            (Control::Sabme { p }, Role::Command) => {
                self.put(Out::Send(Role::Answer, Control::Ua { f: p }), outs);
            }
            (Control::Disc { p }, Role::Command) => {
                self.put(Out::Send(Role::Answer, Control::Dm { f: p }), outs);
            }
            (Control::Ua { f: true }, Role::Answer) => self.ua_final(outs),
            (Control::Ua { f: false }, Role::Answer) => self.put(Out::Report(Letter::D), outs),
            (Control::Dm { f: true }, Role::Answer) => {
                self.discard_i_queue(outs);
                self.stop_t200(outs);
                self.end_establishment(outs);
            }
            _ => {}
        }
    }

    /// DL-ESTABLISH request, not refused: layer 3 establishes, instead of the data link itself
    /// (Figure B.5).
    #[tactic(auto, using(crate::proofs::Rows::rows), unfolding(lapd_link_definition::specs::AwaitingEstablishment::awaiting_establishment))]
    pub(crate) fn awaiting_establishment_establish(&mut self, outs: &mut Outs)
        requires room { HasOutputRoom 1 outs.old }
        ensures step { MachineDoes self.old outs.old self.new outs.new
            (awaiting_establishment Establish) }
        ensures len { Grows 1 outs.old outs.new }
        ensures state { self.new.state ≡ self.old.state }
    {
        self.discard_i_queue(outs);
        self.layer3_initiated_to(true);
    }

    /// DL-RELEASE request: the release is pending until the response to the SABME (Figure B.5).
    #[tactic(auto, using(crate::proofs::Rows::rows), unfolding(lapd_link_definition::specs::AwaitingEstablishment::awaiting_establishment))]
    pub(crate) fn awaiting_establishment_release(&mut self, outs: &mut Outs)
        requires room { HasOutputRoom 1 outs.old }
        ensures step { MachineDoes self.old outs.old self.new outs.new
            (awaiting_establishment Release) }
        ensures len { Grows 1 outs.old outs.new }
    {
        self.discard_i_queue(outs);
        self.release_pending_to(true);
    }

    /// Receives a UA with F=1 (Figure B.5).
    #[tactic(auto, using(crate::proofs::Rows::rows), unfolding(lapd_link_definition::specs::AwaitingEstablishment::ua_final))]
    fn ua_final(&mut self, outs: &mut Outs)
        requires room { HasOutputRoom 4 outs.old }
        ensures step { MachineDoes self.old outs.old self.new outs.new ua_final }
        ensures len { Grows 4 outs.old outs.new }
    {
        if self.release_pending {
            self.release_pending_to(false);
            self.rc_to(0);
            self.put(Out::Send(Role::Command, Control::Disc { p: true }), outs);
            self.start_t200(outs);
            self.state_to(State::AwaitingRelease);
        } else {
            self.confirm_or_indicate(outs);
            self.zero_state_variables();
            self.stop_t200(outs);
            self.start_t203(outs);
            self.state_to(State::MultipleFrameEstablished);
        }
    }

    /// Confirms to layer 3 the establishment that it requested. Otherwise, if messages are lost,
    /// indicates to it that the link was re-established (Figure B.5).
    #[tactic(auto, using(crate::proofs::Rows::rows), unfolding(lapd_link_definition::specs::AwaitingEstablishment::confirm_or_indicate))]
    fn confirm_or_indicate(&mut self, outs: &mut Outs)
        requires room { HasOutputRoom 2 outs.old }
        ensures step { MachineDoes self.old outs.old self.new outs.new confirm_or_indicate }
        ensures len { Grows 2 outs.old outs.new }
    {
        if self.layer3_initiated {
            self.put(Out::Confirmed, outs);
        } else {
            self.discard_unacknowledged(outs);
        }
    }

    /// T200 expires: the SABME is retransmitted, N200 times at most (Figure B.5).
    #[tactic(auto, using(crate::proofs::Rows::rows), unfolding(lapd_link_definition::specs::AwaitingEstablishment::awaiting_establishment_t200))]
    pub(crate) fn awaiting_establishment_t200(&mut self, outs: &mut Outs)
        requires room { HasOutputRoom 3 outs.old }
        ensures step { MachineDoes self.old outs.old self.new outs.new awaiting_establishment_t200 }
        ensures len { Grows 3 outs.old outs.new }
    {
        if self.rc < self.params.n200() {
            self.increment_rc();
            self.expired_t200();
            self.put(Out::Send(Role::Command, Control::Sabme { p: true }), outs);
            self.start_t200(outs);
        } else {
            self.expired_t200();
            self.discard_i_queue(outs);
            self.put(Out::Report(Letter::G), outs);
            self.end_establishment(outs);
        }
    }

    /// The SABME was refused, or never answered (Figure B.5).
    #[tactic(auto, using(crate::proofs::Rows::rows), unfolding(lapd_link_definition::specs::AwaitingEstablishment::end_establishment))]
    fn end_establishment(&mut self, outs: &mut Outs)
        requires room { HasOutputRoom 1 outs.old }
        ensures step { MachineDoes self.old outs.old self.new outs.new end_establishment }
        ensures len { Grows 1 outs.old outs.new }
    {
        let out = release_primitive(self.release_pending);
        self.put(out, outs);
        self.release_pending_to(false);
        self.state_to(State::TeiAssigned);
    }
}
