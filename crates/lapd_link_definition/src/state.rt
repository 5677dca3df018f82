ghost use Rattle.std.specs.Prelude.{◌≡◌};
ghost use Rattle.lapd_link_definition.specs.State.{state_number};

/// A state of the data link (Q.921 Annex B).
#[derive(Clone, Copy, Debug, PartialEq, Eq)]
pub enum State {
    /// 4: a terminal endpoint identifier is assigned, and no link is established.
    TeiAssigned,
    /// 5: a SABME was sent and its response is awaited.
    AwaitingEstablishment,
    /// 6: a DISC was sent and its response is awaited.
    AwaitingRelease,
    /// 7: the link is established.
    MultipleFrameEstablished,
    /// 8: the link is established, and the response to an enquiry is awaited.
    TimerRecovery,
}

impl State {
    /// Its number, 4 to 8.
    pub fn number(self) -> u8
        ensures { result ≡ state_number self }
    {
        match self {
            State::TeiAssigned => 4,
            State::AwaitingEstablishment => 5,
            State::AwaitingRelease => 6,
            State::MultipleFrameEstablished => 7,
            State::TimerRecovery => 8,
        }
    }
}
