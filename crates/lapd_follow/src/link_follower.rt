ghost use Rattle.std.specs.Prelude.{◌≡◌, IfOk, OnOk, OnErr};
ghost use Rattle.lapd_follow.specs.Exchange.{kept_octets};
ghost use Rattle.lapd_follow.specs.Link.{sighting, new_link, end_of, is_followed, said_of, link_after};

use crate::dialogue::Dialogue;
use crate::end::End;
use crate::remarks::put_remarks;
use crate::{Busy, Numbering, Packet, Remarks};
use lapd_frame::{Control, Frame, Side};
use std::alloc::{AllocError, Global};
use std::marker::Model;

/// Follows both ends of one data link by the frames on the line alone.
#[derive(Drop)]
pub struct LinkFollower {
    alloc: Global,
    k: Option<u8>,
    dialogue: Dialogue,
    /// The sender of the last frame, which `dialogue` calls `from`.
    sender: Side,
}

impl Model for LinkFollower {
    ghost use Rattle.lapd_follow.specs.Link.{LinkKnown, with_exchange};

    ghost Value = { LinkKnown };

    ghost view = { λ l. with_exchange l.k l.sender l.dialogue };
}

#[tactic(auto, using(crate::proofs::Turned::seen_is_turned, crate::proofs::Kept::kept_is_enough))]
impl LinkFollower {
    /// A link of which nothing was seen. `k` is its window, 1 to 127, if it is known; otherwise the
    /// greatest, 127, is checked. It allocates the places for 127 I frames of each end.
    pub fn new(alloc: Global, k: Option<u8>) -> Result<LinkFollower, AllocError>
        ensures { IfOk result (λ l. l ≡ new_link k) }
    {
        Ok(LinkFollower {
            alloc,
            k,
            dialogue: Dialogue {
                from: Box::new(alloc, End::new(alloc)?)?,
                to: Box::new(alloc, End::new(alloc)?)?,
                establishments: 0,
                is_established: false,
            },
            sender: Side::User,
        })
    }

    /// Takes the next frame of the link, and returns the remarks on it. Pass in the frames of each
    /// end in the order in which it sent them.
    ///
    /// It keeps the octets of an I frame, and fails if they can't be allocated.
    pub fn frame(
        &mut self,
        packet: Packet,
        sender: Side,
        frame: &Frame<'_>,
    ) -> Result<Remarks, AllocError>
        ensures remarks { IfOk result (λ said.
            said ≡ said_of (sighting packet sender frame.now) self.old) }
        ensures after { OnOk result
            (self.new ≡ link_after (sighting packet sender frame.now) self.old) }
        ensures unchanged { OnErr result (self.new ≡ self.old) }
    {
        let mut said = Remarks::none();
        self.frame_into(packet, sender, frame, &mut said)?;
        Ok(said)
    }

    /// Like [`LinkFollower::frame`], but replaces `said` with the remarks. On error nothing
    /// changes.
    pub fn frame_into(
        &mut self,
        packet: Packet,
        sender: Side,
        frame: &Frame<'_>,
        said: &mut Remarks,
    ) -> Result<(), AllocError>
        ensures remarks { OnOk result
            (said.new ≡ said_of (sighting packet sender frame.now) self.old) }
        ensures after { OnOk result
            (self.new ≡ link_after (sighting packet sender frame.now) self.old) }
        ensures unchanged { OnErr result (self.new ≡ self.old) }
        ensures no_remarks { OnErr result (said.new ≡ said.old) }
    {
        let octets = kept_octets(self.alloc, frame)?;
        self.dialogue.turn(self.sender, sender);
        self.sender = sender;
        self.dialogue.learn(&frame.control(), frame.address().role);
        put_remarks(self.k, packet, frame, &self.dialogue, said);
        self.dialogue
            .take(&frame.control(), frame.address().role, octets, packet);
        Ok(())
    }

    /// How many establishments began.
    pub fn establishments(&self) -> u64
        ensures { result ≡ self.now.establishments }
    {
        self.dialogue.establishments
    }

    /// The last I or S command with P=1 of this side, if it is not answered.
    pub fn unanswered_poll(&self, side: Side) -> Option<Packet>
        ensures { result ≡ (end_of side self.now).polls.last }
    {
        self.end(side).polls.last
    }

    /// The last SABME or DISC of this side, if it is not answered.
    pub fn unanswered_command(&self, side: Side) -> Option<Packet>
        ensures { result ≡ (end_of side self.now).commands.last }
    {
        self.end(side).commands.last
    }

    /// The numbers of this side's frames, if they are known.
    pub fn numbering(&self, side: Side) -> Option<Numbering>
        ensures { result ≡ (end_of side self.now).numbering }
    {
        self.end(side).numbering
    }

    /// Whether the numbers of both sides are known.
    pub fn is_followed(&self) -> bool
        ensures { result ≡ is_followed self.now }
    {
        self.numbering(Side::User).is_some() && self.numbering(Side::Network).is_some()
    }

    /// Whether this side has released the link, and sends no I or S frame.
    pub fn is_released(&self, side: Side) -> bool
        ensures { result ≡ (end_of side self.now).is_released }
    {
        self.end(side).is_released
    }

    /// The busy condition of this side, as it reported it.
    pub fn busy(&self, side: Side) -> Busy
        ensures { result ≡ (end_of side self.now).busy }
    {
        self.end(side).busy
    }

    /// Whether the last SABME or DISC of this side is a SABME.
    pub fn is_establishing(&self, side: Side) -> bool
        ensures { result ≡ (end_of side self.now).is_establishing }
    {
        self.end(side).is_establishing
    }

    /// The end of this side.
    fn end(&self, side: Side) -> &End
        ensures { result.now ≡ end_of side self.now }
    {
        match (self.sender, side) {
            (Side::User, Side::User) | (Side::Network, Side::Network) => &self.dialogue.from,
            _ => &self.dialogue.to,
        }
    }
}

/// The octets that are kept of a frame: the information of an I frame.
fn kept_octets(alloc: Global, frame: &Frame<'_>) -> Result<Vec<u8>, AllocError>
    ensures { IfOk result (λ octets.
        octets.items ≡ kept_octets frame.now.control frame.now.info) }
{
    match frame.control() {
        Control::I { .. } => Vec::from_slice(alloc, frame.info()),
        _ => Ok(Vec::new(alloc)),
    }
}
