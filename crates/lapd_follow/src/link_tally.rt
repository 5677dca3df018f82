ghost use Rattle.std.specs.Prelude.{◌≡◌};
ghost use Rattle.lapd_follow.specs.Listening.{establishments_after, followed_after, link_tallied, new_tally};

use crate::{Packet, Remark, Remarks, Tally};
use lapd_frame::{Address, Frame, Sapi, Side, Tei};

/// The frames that both ends of one link sent.
#[derive(Clone, Copy, Debug, PartialEq, Eq)]
pub struct LinkTally {
    /// The SAPI of the link.
    pub sapi: Sapi,
    /// The TEI of the link.
    pub tei: Tei,
    /// How many establishments began.
    pub establishments: u64,
    /// The packet from which the link was followed, if its establishment was not seen and its
    /// numbers were learned.
    pub followed: Option<u64>,
    /// The frames that the user side sent.
    pub user: Tally,
    /// The frames that the network side sent.
    pub network: Tally,
}

impl LinkTally {
    /// A link of which no frame was seen.
    pub(crate) fn new(address: &Address) -> LinkTally
        ensures { result ≡ new_tally address.now }
    {
        LinkTally {
            sapi: address.sapi,
            tei: address.tei,
            establishments: 0,
            followed: None,
            user: Tally::new(),
            network: Tally::new(),
        }
    }

    /// Counts one more frame, with the remarks on it; its link is followed or not.
    pub(crate) fn add(
        &mut self,
        packet: Packet,
        sender: Side,
        frame: &Frame<'_>,
        said: &Remarks,
        is_followed: bool,
    )
        ensures { self.new ≡ link_tallied sender packet frame.now said.now is_followed self.old }
    {
        self.followed = followed_after(packet, &said.establishment, self.followed);
        self.establishments = establishments_after(&said.establishment, self.establishments);
        match sender {
            Side::User => self.user.add(packet, frame, said, is_followed),
            Side::Network => self.network.add(packet, frame, said, is_followed),
        }
    }
}

/// The packet from which the link was followed, after a frame in this packet with this remark on
/// establishment.
fn followed_after(packet: Packet, remark: &Option<Remark>, before: Option<u64>) -> Option<u64>
    ensures { result ≡ followed_after packet remark.now before }
{
    match (remark, before) {
        (Some(Remark::NumbersKnown), None) => Some(packet.number),
        _ => before,
    }
}

/// How many establishments began, after a frame with this remark on establishment.
fn establishments_after(remark: &Option<Remark>, before: u64) -> u64
    ensures { result ≡ establishments_after remark.now before }
{
    match remark {
        Some(Remark::Begins(_)) => before.saturating_add(1),
        _ => before,
    }
}
