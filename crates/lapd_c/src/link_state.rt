//! The state of a link in the form that C reads.

ghost use Rattle.std.specs.Prelude.{◌≡◌};
ghost use Rattle.lapd_link.specs.Link.{LinkRepresents};
ghost use Rattle.lapd_link_definition.specs.End.{End};
ghost use Rattle.lapd_c.specs.LinkStates.{flag, state_of, no_state};

use lapd_link::Link;

/// The state of a link, as numbers (Q.921 3.5.2 and Annex B).
#[repr(C)]
#[derive(Clone, Copy)]
pub struct LinkState {
    /// 4 to 8; 0 if the link does not exist.
    pub state: u8,
    /// RC, 0 to N200.
    pub rc: u8,
    /// V(S), 0 to 127.
    pub vs: u8,
    /// V(A), 0 to 127.
    pub va: u8,
    /// V(R), 0 to 127.
    pub vr: u8,
    /// 1 if the peer is in a receiver busy condition, else 0.
    pub peer_busy: u8,
    /// 1 if this end is in a receiver busy condition, else 0.
    pub own_busy: u8,
    /// 1 if a message is missing whose retransmission REJ has requested, else 0.
    pub rejecting: u8,
    /// The number of messages that are neither acknowledged nor dropped, 0 to 1,024.
    pub waiting: u16,
    /// Room for fields of later versions, each 0.
    pub reserved: [u64; 2],
}

impl LinkState {
    /// The value for a link that does not exist.
    pub(crate) fn nothing() -> LinkState
        ensures { result ≡ no_state }
    {
        LinkState {
            state: 0,
            rc: 0,
            vs: 0,
            va: 0,
            vr: 0,
            peer_busy: 0,
            own_busy: 0,
            rejecting: 0,
            waiting: 0,
            reserved: [0; 2],
        }
    }

    /// The state of a link.
    pub(crate) fn of(link: &Link) -> LinkState
        ensures { (e : End) → LinkRepresents link.now e → result ≡ state_of e }
    {
        let window = link.window();
        LinkState {
            state: link.state(),
            rc: link.rc(),
            vs: window.vs().value(),
            va: window.va().value(),
            vr: window.vr().value(),
            peer_busy: flag(window.peer_busy()),
            own_busy: flag(window.own_busy()),
            rejecting: flag(window.rejecting()),
            waiting: link.waiting(),
            reserved: [0; 2],
        }
    }
}

/// 1 for `true`, and 0 for `false`.
fn flag(is_set: bool) -> u8
    ensures { result ≡ flag is_set }
{
    if is_set { 1 } else { 0 }
}
