ghost use Rattle.std.specs.Prelude.{◌≡◌, ◌<◌, ◌+◌, IfOk, OnOk, OnErr, replicate, None, Some, length, map, option_copied, set, slice_get};
ghost use Rattle.lapd_follow.specs.Link.{link_after, new_link, said_of, sighting};
ghost use Rattle.lapd_follow.specs.Follower.{forgotten, new_links, no_link, place_of, said_on_links, links_after, seen_link, without_tei};

use crate::{LinkFollower, Packet, Remarks};
use lapd_frame::{Address, Frame, Sapi, Side, Tei};
use std::alloc::{AllocError, Global};
use std::marker::Model;

/// How many links there may be: 128 TEIs for each of three SAPIs.
pub(crate) const LINKS: usize = 384;

/// All data links of a line, each by its own frames.
#[derive(Drop)]
pub(crate) struct LinkTable {
    alloc: Global,
    k: Option<u8>,
    links: Vec<Option<LinkFollower>>,
}

impl Model for LinkTable {
    ghost use Rattle.std.specs.Prelude.{◌≡◌, length};
    ghost use Rattle.lapd_follow.specs.Follower.{LinksKnown};

    ghost Value = { LinksKnown };

    ghost view = { λ l. record { k = l.k; links = l.links.items } };

    ghost invariant = { λ l. length l.links.items ≡ 384 };
}

impl LinkTable {
    /// A line of which nothing was seen.
    pub(crate) fn new(alloc: Global, k: Option<u8>) -> Result<LinkTable, AllocError>
        ensures { IfOk result (λ table. table ≡ new_links k) }
    {
        Ok(LinkTable {
            alloc,
            k,
            links: no_links(alloc)?,
        })
    }

    /// Takes the next frame on the line, and replaces `said` with the remarks of its link.
    ///
    /// It fails if an allocation fails, and then nothing changes.
    pub(crate) fn frame_into(
        &mut self,
        packet: Packet,
        sender: Side,
        frame: &Frame<'_>,
        said: &mut Remarks,
    ) -> Result<(), AllocError>
        ensures remarks { OnOk result
            (said.new ≡ said_on_links (sighting packet sender frame.now) self.old) }
        ensures after { OnOk result
            (self.new ≡ links_after (sighting packet sender frame.now) self.old) }
        ensures unchanged { OnErr result (self.new ≡ self.old) }
        ensures no_remarks { OnErr result (said.new ≡ said.old) }
    {
        let place = place_of(&frame.address());
        let Some(slot) = self.links.get_mut(place) else {
            unreachable!()
        };
        match slot {
            Some(link) => link.frame_into(packet, sender, frame, said),
            None => begin_link(self.alloc, self.k, slot, packet, sender, frame, said),
        }
    }

    /// The link of frames with this address, if one was seen.
    pub(crate) fn link(&self, address: &Address) -> Option<&LinkFollower>
        ensures { option_copied result ≡ seen_link
            (slice_get self.now.links (place_of address.now)) }
    {
        match self.links.get(place_of(address)) {
            Some(Some(link)) => Some(link),
            _ => None,
        }
    }

    /// Forgets the links of this TEI; for the group TEI all links, for `None` none.
    pub(crate) fn forget(&mut self, tei: Option<Tei>)
        ensures { self.new ≡ record self.old { links = forgotten tei self.old.links } }
    {
        match tei {
            None => {}
            Some(tei) => self.forget_tei(tei),
        }
    }

    /// Forgets all links.
    pub(crate) fn forget_all(&mut self)
        ensures { self.new ≡ record self.old { links = map no_link self.old.links } }
    {
        forget_all(&mut self.links);
    }

    fn forget_tei(&mut self, tei: Tei)
        ensures { self.new ≡ record self.old { links = without_tei tei self.old.links } }
    {
        if tei.value() == 127 {
            self.forget_all();
        } else {
            forget_three(&mut self.links, usize::from(tei.value()));
        }
    }
}

/// Puts a new link into its place, and takes its first frame. On error nothing changes.
///
/// It is not inlined, so that its place for a link takes no time at later frames.
#[inline(never)]
fn begin_link(
    alloc: Global,
    k: Option<u8>,
    slot: &mut Option<LinkFollower>,
    packet: Packet,
    sender: Side,
    frame: &Frame<'_>,
    said: &mut Remarks,
) -> Result<(), AllocError>
    ensures remarks { OnOk result
        (said.new ≡ said_of (sighting packet sender frame.now) (new_link k)) }
    ensures after { OnOk result
        (slot.new ≡ Some (link_after (sighting packet sender frame.now) (new_link k))) }
    ensures unchanged { OnErr result (slot.new ≡ slot.old) }
    ensures no_remarks { OnErr result (said.new ≡ said.old) }
{
    let mut link = LinkFollower::new(alloc, k)?;
    link.frame_into(packet, sender, frame, said)?;
    *slot = Some(link);
    Ok(())
}

/// Forgets all links.
fn forget_all(links: &mut Vec<Option<LinkFollower>>)
    ensures { links.new.items ≡ map no_link links.old.items }
{
    forget_each(links.as_mut_slice());
}

/// Forgets each of these links.
fn forget_each(links: &mut [Option<LinkFollower>])
    ensures { links.new ≡ map no_link links.old }
{
    for link in links.iter_mut() {
        *link = None;
    }
}

/// Forgets the link of each SAPI with this TEI.
fn forget_three(links: &mut Vec<Option<LinkFollower>>, tei: usize)
    requires tei { tei < 128 }
    requires all { length links.old.items ≡ 384 }
    ensures { links.new.items ≡ set (set (set links.old.items tei None) (tei + 128) None)
        (tei + 256) None }
{
    links[tei] = None;
    links[tei + 128] = None;
    links[tei + 256] = None;
}

/// No link, at each place.
fn no_links(alloc: Global) -> Result<Vec<Option<LinkFollower>>, AllocError>
    ensures { IfOk result (λ links. links.items ≡ replicate 384 None) }
{
    let mut links = Vec::with_capacity(alloc, LINKS)?;
    for _ in 0..LINKS {
        links.push(None)?;
    }
    Ok(links)
}

/// The place of the link with this address.
pub(crate) fn place_of(address: &Address) -> usize
    ensures value { result ≡ place_of address.now }
    ensures in_range { result < 384 }
{
    let first = match address.sapi {
        Sapi::Call => 0,
        Sapi::Packet => 128,
        Sapi::Management => 256,
    };
    first + usize::from(address.tei.value())
}
