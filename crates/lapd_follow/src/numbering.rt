ghost use Rattle.std.specs.Prelude.{◌≡◌, ◌<◌};
ghost use Rattle.lapd_mod128.specs.Counting.{Tagged, after, steps, lies_within};
ghost use Rattle.lapd_follow.specs.Ends.{first_numbering, with_ns, with_nr, is_next, is_valid_nr, left_after};

use lapd_frame::Number;
use lapd_mod128::Seq;

/// The numbers of an end's I and S frames since its establishment began (Q.921 3.5.2).
#[derive(Clone, Copy, Debug, PartialEq, Eq)]
pub struct Numbering {
    /// Whether no I frame was seen yet.
    pub is_first: bool,
    /// The next N(S), counted as a receiver of all frames counts it.
    pub next: Seq,
    /// The last valid N(R) that the end sent.
    pub nr: Seq,
}

/// The numbers when multiple frame operation begins.
pub(crate) fn first_numbering() -> Numbering
    ensures { result ≡ first_numbering }
{
    Numbering {
        is_first: true,
        next: Seq::default(),
        nr: Seq::default(),
    }
}

/// The numbers after an I frame with this N(S).
#[tactic(auto, unfolding(lapd_mod128::specs::Counting::after))]
pub(crate) fn with_ns(ns: Seq, own: Option<Numbering>) -> Option<Numbering>
    ensures { result ≡ with_ns ns own }
{
    let own = own?;
    Some(Numbering {
        is_first: false,
        next: if ns.value() == own.next.value() {
            own.next.next()
        } else {
            own.next
        },
        nr: own.nr,
    })
}

/// The numbers after a valid N(R).
pub(crate) fn with_nr(nr: Seq, own: Option<Numbering>) -> Option<Numbering>
    ensures { result ≡ with_nr nr own }
{
    let own = own?;
    Some(Numbering {
        is_first: own.is_first,
        next: own.next,
        nr,
    })
}

/// Whether this is the next N(S) that the peer expects.
pub(crate) fn is_next(ns: Seq, own: Option<Numbering>) -> bool
    ensures { result ≡ is_next ns own }
{
    match own {
        None => false,
        Some(own) => ns.value() == own.next.value(),
    }
}

/// Whether an N(R) lies from the last one of the end to the next N(S) of its peer (Q.921 3.5.2.3).
pub(crate) fn is_valid_nr(nr: Seq, own: Option<Numbering>, peer: Option<Numbering>) -> bool
    ensures { result ≡ is_valid_nr nr own peer }
{
    match (own, peer) {
        (Some(own), Some(peer)) => Seq::within(own.nr, nr, peer.next),
        _ => false,
    }
}

/// How many I frames of the end follow an N(R) of its peer, 0 to 127.
pub(crate) fn left_after(nr: Seq, own: Option<Numbering>) -> usize
    ensures { result ≡ left_after nr own }
{
    match own {
        None => 0,
        Some(own) => usize::from(Seq::distance(nr, own.next)),
    }
}

/// The counter with a sequence number.
pub(crate) fn counter(number: Number) -> Seq
    ensures same { result ≡ number }
    ensures in_range { result < 128 }
{
    match Seq::new(number.value()) {
        Some(counter) => counter,
        None => unreachable!(),
    }
}
