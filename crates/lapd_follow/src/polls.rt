ghost use Rattle.std.specs.Prelude.{◌≡◌};
ghost use Rattle.lapd_follow.specs.Ends.{unseen_polls, no_polls, with_poll, with_answer};
ghost use Rattle.lapd_follow.specs.Exchange.{is_only_poll};

use crate::Packet;

/// The commands of one kind by which an end polled, and their answers (Q.921 3.5.1).
#[derive(Clone, Copy, Debug, PartialEq, Eq)]
pub struct Polls {
    /// The packet of the last one, if it is not answered.
    pub last: Option<Packet>,
    /// How many may still be answered; the count stops at 2^64 - 1.
    pub unanswered: u64,
    /// Whether all that may still be answered were seen.
    pub complete: bool,
}

impl Polls {
    /// Polls at the beginning of a capture: earlier ones may still be answered.
    pub(crate) fn unseen() -> Polls
        ensures { result ≡ unseen_polls }
    {
        Polls {
            last: None,
            unanswered: 0,
            complete: false,
        }
    }

    /// No poll that may still be answered.
    pub(crate) fn ended() -> Polls
        ensures { result ≡ no_polls }
    {
        Polls {
            last: None,
            unanswered: 0,
            complete: true,
        }
    }

    /// The polls, with one more in this packet.
    pub(crate) fn sent(self, packet: Packet) -> Polls
        ensures { result ≡ with_poll packet self }
    {
        Polls {
            last: Some(packet),
            unanswered: self.unanswered.saturating_add(1),
            complete: true,
        }
    }

    /// The polls, with one answered.
    pub(crate) fn answered(self) -> Polls
        ensures { result ≡ with_answer self }
    {
        Polls {
            last: None,
            unanswered: self.unanswered.saturating_sub(1),
            complete: self.complete,
        }
    }

    /// Whether the last poll is the only one that may still be answered.
    pub(crate) fn is_only_one(self) -> bool
        ensures { result ≡ is_only_poll self }
    {
        self.last.is_some() && self.unanswered == 1
    }
}
