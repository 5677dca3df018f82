//! The requests that are refused, in the order in which they are checked.

ghost use Rattle.std.specs.Prelude.{◌≡◌, [], ℕ, List, Bool, Some, None, length, MatchOption, ◌==◌};
ghost use Rattle.lapd_link_definition.specs.End.{End, begin};
ghost use Rattle.lapd_link_definition.specs.Input.{Give, input_of};
ghost use Rattle.lapd_link_definition.specs.Refusal.{give_refused, refused_when_full, refused_when_long, establish_refused, refused};

use crate::machine::Machine;
use lapd_frame::N201;
use lapd_link_definition::{Event, LinkFault, State};

/// Why a message is refused whether or not the queue is full, by the state, whether a release is
/// pending, and whether layer 3 initiated the establishment.
fn give_refused(state: State, release_pending: bool, layer3_initiated: bool) -> Option<LinkFault>
    ensures { (full : Bool) → MatchOption result
        (give_refused state release_pending layer3_initiated full ≡ refused_when_full full)
        (λ fault. give_refused state release_pending layer3_initiated full ≡ Some fault) }
{
    match state {
        State::TeiAssigned => Some(LinkFault::NotEstablished),
        State::AwaitingRelease => Some(LinkFault::Releasing),
        State::AwaitingEstablishment => {
            if release_pending {
                Some(LinkFault::Releasing)
            } else if layer3_initiated {
                Some(LinkFault::LayerThreeEstablishing)
            } else {
                None
            }
        }
        State::MultipleFrameEstablished | State::TimerRecovery => None,
    }
}

/// Why an establishment is refused.
fn establish_refused(state: State, release_pending: bool) -> Option<LinkFault>
    ensures { result ≡ establish_refused state release_pending }
{
    match (state, release_pending) {
        (State::AwaitingEstablishment, true) | (State::AwaitingRelease, _) => {
            Some(LinkFault::Releasing)
        }
        (State::AwaitingEstablishment, false)
        | (State::TeiAssigned, _)
        | (State::MultipleFrameEstablished, _)
        | (State::TimerRecovery, _) => None,
    }
}

/// Why this many octets of information are refused: more than a frame carries.
fn refused_when_long(len: usize) -> Option<LinkFault>
    ensures { result ≡ refused_when_long len }
{
    if len > N201 {
        Some(LinkFault::TooLong)
    } else {
        None
    }
}

#[tactic(auto, unfolding(lapd_link_definition::specs::End::begin))]
impl Machine {
    ghost use Rattle.lapd_link_machine.specs.Represents.{Represents};

    /// Why an event is refused.
    pub fn refuses(&self, event: &Event) -> Option<LinkFault>
        ensures { (e : End) → Represents self.now [] (begin e)
            → result ≡ refused (input_of event.now) e }
    {
        match event {
            Event::Unit(len) => refused_when_long(*len),
            Event::Establish => establish_refused(self.state, self.release_pending),
            Event::Heard(_)
            | Event::Fault(_)
            | Event::T200
            | Event::T203
            | Event::Release
            | Event::BusyOn
            | Event::BusyOff => None,
        }
    }

    /// Why a message of this many octets is refused, whether or not the queue is full.
    #[inline(always)]
    pub fn refuses_message(&self, len: usize) -> Option<LinkFault>
        ensures { (message : List ℕ) (e : End) → length message ≡ len
            → Represents self.now [] (begin e) → MatchOption result
            (refused (Give message) e ≡ refused_when_full
            (length self.now.queue.messages == self.now.queue.room))
            (λ fault. refused (Give message) e ≡ Some fault) }
    {
        if len > N201 {
            Some(LinkFault::TooLong)
        } else {
            give_refused(self.state, self.release_pending, self.layer3_initiated)
        }
    }
}
