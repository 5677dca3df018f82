ghost use Rattle.std.specs.Prelude.{◌≡◌, IfOk, OnOk, OnErr, option_copied, slice_get};
ghost use Rattle.lapd_follow.specs.Link.{sighting};
ghost use Rattle.lapd_follow.specs.Follower.{is_followed_on, line_after, line_anew, line_with_message, managed, new_line, place_of, said_on_line, seen_link};

use crate::identity::identity_of;
use crate::link_table::LinkTable;
use crate::teis::Teis;
use crate::{Identity, LinkFollower, Packet, Remark, Remarks};
use lapd_frame::{Address, Frame, Side};
use std::alloc::{AllocError, Global};
use std::marker::Model;

/// Follows all data links of a line, and the assignment of TEIs, by its frames alone.
///
/// It allocates for a link when the first frame of the link is seen, and for the octets of at most
/// 127 I frames of each end. Of requests for a TEI that are not answered it knows the last 16.
#[derive(Drop)]
pub struct Follower {
    links: LinkTable,
    teis: Teis,
}

impl Model for Follower {
    ghost use Rattle.lapd_follow.specs.Follower.{LineKnown};

    ghost Value = { LineKnown };

    ghost view = { λ f. record { links = f.links; teis = f.teis } };
}

impl Follower {
    /// A line of which nothing was seen. `k` is the window of all links, 1 to 127, if it is known;
    /// otherwise the greatest, 127, is checked.
    pub fn new(alloc: Global, k: Option<u8>) -> Result<Follower, AllocError>
        ensures { IfOk result (λ line. line ≡ new_line k) }
    {
        Ok(Follower {
            teis: Teis::new(),
            links: LinkTable::new(alloc, k)?,
        })
    }

    /// Takes the next frame on the line, and returns the remarks on it. Pass in the frames of each
    /// end in the order in which it sent them.
    ///
    /// It fails if an allocation fails, and then nothing changes.
    pub fn frame(
        &mut self,
        packet: Packet,
        sender: Side,
        frame: &Frame<'_>,
    ) -> Result<Remarks, AllocError>
        ensures remarks { IfOk result (λ said.
            said ≡ said_on_line (sighting packet sender frame.now) self.old) }
        ensures after { OnOk result
            (self.new ≡ line_after (sighting packet sender frame.now) self.old) }
        ensures unchanged { OnErr result (self.new ≡ self.old) }
    {
        let mut said = Remarks::none();
        self.frame_into(packet, sender, frame, &mut said)?;
        Ok(said)
    }

    /// Like [`Follower::frame`], but replaces `said` with the remarks. On error nothing changes.
    pub fn frame_into(
        &mut self,
        packet: Packet,
        sender: Side,
        frame: &Frame<'_>,
        said: &mut Remarks,
    ) -> Result<(), AllocError>
        ensures remarks { OnOk result
            (said.new ≡ said_on_line (sighting packet sender frame.now) self.old) }
        ensures after { OnOk result
            (self.new ≡ line_after (sighting packet sender frame.now) self.old) }
        ensures unchanged { OnErr result (self.new ≡ self.old) }
        ensures no_remarks { OnErr result (said.new ≡ said.old) }
    {
        self.links.frame_into(packet, sender, frame, said)?;
        match identity_of(sender, frame) {
            None => Ok(()),
            Some(message) => {
                self.manage(&message, said);
                Ok(())
            }
        }
    }

    /// Takes a message of TEI management, and adds the remarks on it to those on its frame.
    fn manage(&mut self, message: &Identity, said: &mut Remarks)
        ensures remarks { said.new ≡ managed message.now self.old.teis said.old }
        ensures after { self.new ≡ line_with_message message.now self.old }
    {
        said.identity = Some(Remark::Manages(*message));
        said.conflict = self.teis.conflict(message);
        self.teis.take(message);
        self.links.forget(message.renewed());
    }

    /// Frames were not seen here. The links and the assignment of TEIs are followed as on a line of
    /// which nothing was seen, so no remark depends on what the missing frames were.
    pub fn begin_anew(&mut self)
        ensures { self.new ≡ line_anew self.old }
    {
        self.links.forget_all();
        self.teis = Teis::new();
    }

    /// Whether the numbers of both ends of the link with this address are known.
    pub(crate) fn is_followed(&self, address: &Address) -> bool
        ensures { result ≡ is_followed_on address.now self.now }
    {
        match self.links.link(address) {
            None => false,
            Some(link) => link.is_followed(),
        }
    }

    /// The link of frames with this address, if one was seen. A link whose TEI was assigned or
    /// removed since its last frame is not known.
    pub fn link(&self, address: &Address) -> Option<&LinkFollower>
        ensures { option_copied result ≡ seen_link
            (slice_get self.now.links.links (place_of address.now)) }
    {
        self.links.link(address)
    }
}
