ghost use Rattle.std.specs.Prelude.{◌≡◌, replicate, None, IfOk, OnOk, OnErr, option_copied, slice_get};
ghost use Rattle.lapd_follow.specs.Follower.{place_of, said_on_line, seen_link};
ghost use Rattle.lapd_follow.specs.Link.{sighting};
ghost use Rattle.lapd_follow.specs.Listening.{listening_after, listening_anew, after_fault, new_listening, said_of_fault, said_of_octets, tallied_on_line, with_frame};

use crate::link_table::{LINKS, place_of};
use crate::senders::is_of_other_side;
use crate::{Follower, LinkFollower, LinkTally, Packet, Remark, Remarks};
use lapd_frame::{Address, Frame, Side, read};
use std::alloc::{AllocError, Global};
use std::marker::Model;

/// The frames that the ends of each link sent.
#[derive(Drop)]
struct Tallies {
    links: Vec<Option<LinkTally>>,
}

impl Model for Tallies {
    ghost use Rattle.std.specs.Prelude.{◌≡◌, List, Option, length};
    ghost use Rattle.lapd_follow.specs.declared.link_tally.LinkTally.{LinkTally};

    ghost Value = { List (Option LinkTally) };

    ghost view = { λ t. t.links.items };

    ghost invariant = { λ t. length t.links.items ≡ 384 };
}

impl Tallies {
    /// No link, at each place.
    fn new(alloc: Global) -> Result<Tallies, AllocError>
        ensures { IfOk result (λ t. t ≡ replicate 384 None) }
    {
        Ok(Tallies {
            links: no_tallies(alloc)?,
        })
    }

    /// Counts a frame of its link, which is followed or not.
    fn add(
        &mut self,
        packet: Packet,
        sender: Side,
        frame: &Frame<'_>,
        said: &Remarks,
        is_followed: bool,
    )
        ensures { self.new ≡ tallied_on_line (sighting packet sender frame.now) said.now is_followed
            self.old }
    {
        let address = frame.address();
        let Some(slot) = self.links.get_mut(place_of(&address)) else {
            unreachable!()
        };
        match slot {
            Some(link) => link.add(packet, sender, frame, said, is_followed),
            None => {
                let mut link = LinkTally::new(&address);
                link.add(packet, sender, frame, said, is_followed);
                *slot = Some(link);
            }
        }
    }
}

/// Follows all data links of a line by its frames, and counts the frames of each.
#[derive(Drop)]
pub struct Listener {
    follower: Follower,
    tallies: Tallies,
    is_violated: bool,
}

impl Model for Listener {
    ghost use Rattle.lapd_follow.specs.Listening.{Listening};

    ghost Value = { Listening };

    ghost view = { λ l. record {
      line = l.follower;
      tallies = l.tallies;
      is_violated = l.is_violated;
    } };
}

impl Listener {
    /// A line of which nothing was seen. `k` is the window of all links, 1 to 127, if it is known;
    /// otherwise the greatest, 127, is checked.
    pub fn new(alloc: Global, k: Option<u8>) -> Result<Listener, AllocError>
        ensures { IfOk result (λ l. l ≡ new_listening k) }
    {
        Ok(Listener {
            follower: Follower::new(alloc, k)?,
            tallies: Tallies::new(alloc)?,
            is_violated: false,
        })
    }

    /// Takes the octets that a side sent next, and returns the remarks on their frame. Octets that
    /// do not form a valid frame are not followed. The only remark on them is that they have the C/R
    /// bit of the other side (Q.921 3.3.2).
    ///
    /// It fails if an allocation fails, and then nothing changes.
    pub fn octets(
        &mut self,
        packet: Packet,
        sender: Side,
        octets: &[u8],
    ) -> Result<Remarks, AllocError>
        ensures remarks { IfOk result (λ said.
            said ≡ said_of_octets packet sender octets.now self.old) }
        ensures after { OnOk result
            (self.new ≡ listening_after packet sender octets.now self.old) }
        ensures unchanged { OnErr result (self.new ≡ self.old) }
    {
        let mut said = Remarks::none();
        self.octets_into(packet, sender, octets, &mut said)?;
        Ok(said)
    }

    /// Takes octets that do not form a valid frame of their sender, and replaces `said` with the
    /// remark on them.
    fn see_fault(&mut self, sender: Side, octets: &[u8], said: &mut Remarks)
        ensures remarks { said.new ≡ said_of_fault sender octets.now }
        ensures after { self.new ≡ after_fault sender octets.now self.old }
    {
        *said = Remarks::none();
        if is_of_other_side(sender, octets) {
            said.bit = Some(Remark::OtherSidesBit);
            self.is_violated = true;
        }
    }

    /// Like [`Listener::octets`], but replaces `said` with the remarks. On error nothing changes.
    pub fn octets_into(
        &mut self,
        packet: Packet,
        sender: Side,
        octets: &[u8],
        said: &mut Remarks,
    ) -> Result<(), AllocError>
        ensures remarks { OnOk result
            (said.new ≡ said_of_octets packet sender octets.now self.old) }
        ensures after { OnOk result
            (self.new ≡ listening_after packet sender octets.now self.old) }
        ensures unchanged { OnErr result (self.new ≡ self.old) }
        ensures no_remarks { OnErr result (said.new ≡ said.old) }
    {
        match read(octets, sender) {
            Ok(frame) => self.frame_into(packet, sender, &frame, said),
            Err(_) => {
                self.see_fault(sender, octets, said);
                Ok(())
            }
        }
    }

    /// Takes the next frame, and replaces `said` with the remarks on it.
    fn frame_into(
        &mut self,
        packet: Packet,
        sender: Side,
        frame: &Frame<'_>,
        said: &mut Remarks,
    ) -> Result<(), AllocError>
        ensures remarks { OnOk result
            (said.new ≡ said_on_line (sighting packet sender frame.now) self.old.line) }
        ensures after { OnOk result
            (self.new ≡ with_frame (sighting packet sender frame.now) self.old) }
        ensures unchanged { OnErr result (self.new ≡ self.old) }
        ensures no_remarks { OnErr result (said.new ≡ said.old) }
    {
        let is_followed = self.follower.is_followed(&frame.address());
        self.follower.frame_into(packet, sender, frame, said)?;
        self.tallies.add(packet, sender, frame, said, is_followed);
        self.is_violated = self.is_violated || said.has_violation();
        Ok(())
    }

    /// Frames were not seen here: the links are followed anew, as [`Follower::begin_anew`] says. The
    /// frames and violations so far stay counted.
    pub fn begin_anew(&mut self)
        ensures { self.new ≡ listening_anew self.old }
    {
        self.follower.begin_anew();
    }

    /// Whether one of the remarks so far is a violation.
    pub fn has_violation(&self) -> bool
        ensures { result ≡ self.now.is_violated }
    {
        self.is_violated
    }

    /// The link of frames with this address, as [`Follower::link`] returns it.
    pub fn link(&self, address: &Address) -> Option<&LinkFollower>
        ensures { option_copied result ≡ seen_link
            (slice_get self.now.line.links.links (place_of address.now)) }
    {
        self.follower.link(address)
    }

    /// The frames of each link, by SAPI and then by TEI; `None` if no frame of the link was seen.
    pub fn links(&self) -> &[Option<LinkTally>]
        ensures { result.now ≡ self.now.tallies }
    {
        self.tallies.links.as_slice()
    }
}

/// No link, at each place.
fn no_tallies(alloc: Global) -> Result<Vec<Option<LinkTally>>, AllocError>
    ensures { IfOk result (λ links. links.items ≡ replicate 384 None) }
{
    let mut links = Vec::with_capacity(alloc, LINKS)?;
    for _ in 0..LINKS {
        links.push(None)?;
    }
    Ok(links)
}
