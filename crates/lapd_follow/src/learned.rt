ghost use Rattle.std.specs.Prelude.{◌≡◌};
ghost use Rattle.lapd_mod128.specs.Counting.{Tagged, after, lies_within};
ghost use Rattle.lapd_follow.specs.Learning.{after_ns, after_nr, after_response, learned_numbering, numbering_from};

use crate::Numbering;
use lapd_mod128::Seq;

/// The numbers of one end that its frames have shown so far, while those of its link are unknown.
#[derive(Clone, Copy, Debug, PartialEq, Eq)]
pub(crate) enum Learned {
    /// Nothing.
    Nothing,
    /// The N(S) after its last I frame, which no N(R) of its peer has acknowledged since.
    Sent(Seq),
    /// Its numbers.
    Fixed {
        /// The next N(S), counted as a receiver of all frames counts it.
        next: Seq,
        /// The last N(R) of its peer.
        nr: Seq,
    },
}

#[tactic(auto, unfolding(lapd_mod128::specs::Counting::after))]
impl Learned {
    /// After an I frame of this end.
    pub(crate) fn with_ns(self, ns: Seq, p: bool) -> Learned
        ensures { result ≡ after_ns ns p self }
    {
        match self {
            Learned::Nothing | Learned::Sent(_) => {
                if p {
                    Learned::Nothing
                } else {
                    Learned::Sent(ns.next())
                }
            }
            Learned::Fixed { next, nr } => Learned::Fixed {
                next: if ns.value() == next.value() {
                    next.next()
                } else {
                    next
                },
                nr,
            },
        }
    }

    /// After an N(R) of its peer.
    fn with_nr(self, nr: Seq) -> Learned
        ensures { result ≡ after_nr nr self }
    {
        match self {
            Learned::Nothing => Learned::Nothing,
            Learned::Sent(next) => {
                if nr.value() == next.value() {
                    Learned::Fixed { next, nr }
                } else {
                    Learned::Sent(next)
                }
            }
            Learned::Fixed { next, nr: last } => {
                if Seq::within(last, nr, next) {
                    Learned::Fixed { next, nr }
                } else {
                    Learned::Nothing
                }
            }
        }
    }

    /// After an N(R) of its peer, in a frame that answers its only open poll or not.
    pub(crate) fn with_response(self, is_answer: bool, nr: Seq) -> Learned
        ensures { result ≡ after_response is_answer nr self }
    {
        if is_answer {
            Learned::Fixed { next: nr, nr }
        } else {
            self.with_nr(nr)
        }
    }

    /// The numbers of this end, if both directions are fixed.
    pub(crate) fn numbering(self, peer: Learned) -> Option<Numbering>
        ensures { result ≡ learned_numbering self peer }
    {
        match self {
            Learned::Nothing | Learned::Sent(_) => None,
            Learned::Fixed { next, .. } => numbering_from(next, peer),
        }
    }
}

/// The numbers of an end with this next N(S), if the direction of its peer is fixed.
fn numbering_from(next: Seq, peer: Learned) -> Option<Numbering>
    ensures { result ≡ numbering_from next peer }
{
    match peer {
        Learned::Nothing | Learned::Sent(_) => None,
        Learned::Fixed { nr, .. } => Some(Numbering {
            is_first: false,
            next,
            nr,
        }),
    }
}
