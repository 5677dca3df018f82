ghost use Rattle.std.specs.Prelude.{◌≡◌, ℕ, suc, None, Some, Ok, Err, [], IsSome, IfNone, IfSome, IfOk, IfErr, OnOk, OnErr, option_copied, ◌↔◌, Contains};
ghost use Rattle.std.specs.List.Sorted.{IsStrictlySortedBy};
ghost use Rattle.std.proofs.Props.{props};
ghost use Rattle.lapd_frame.specs.PredictedFrame.{predicted_control, predicted_role};
ghost use Rattle.lapd_link_definition.specs.End.{End};
ghost use Rattle.lapd_link_definition.specs.Input.{input_of, Give, Heard};
ghost use Rattle.lapd_link_definition.specs.Refusal.{refused};
ghost use Rattle.lapd_link.specs.Link.{setup_of};
ghost use Rattle.lapd_link_machine.specs.Bounds.{IsBounded};
ghost use Rattle.lapd_link_machine.specs.Given.{given_outs};
ghost use Rattle.lapd_link_machine.specs.Predicted.{predicted_outs};
ghost use Rattle.lapd_table.specs.LinkId.{id_cmp, id_of_setup, setup_for};
ghost use Rattle.lapd_table.specs.Index.{IsIndex, ArePlaces, key_of};

use crate::{LinkId, LinkKey, TableFault};
use lapd_frame::{FrameFault, Number, PredictedKind, Side, read};
use lapd_link::{Event, GivenOuts, Link, LinkFault, Outs, PredictedOuts, Refused};
use slab::Slab;
use std::alloc::{AllocError, Global};
use std::collections::BTreeMap;

/// The links of one side of the interface, each under its SAPI and TEI.
#[derive(Drop)]
pub struct LinkTable {
    alloc: Global,
    side: Side,
    links: Slab<Link>,
    /// At the rank of each id, one more than the slab key of its link. 0 if there is no link, or the
    /// key does not fit, as none of 254 links does.
    places: [u8; 384],
    /// The slab key of each link.
    keys: BTreeMap<LinkId, usize>,
    ghost places_fit: { ArePlaces places keys } by { Prim.hlevel props },
    ghost index: { IsIndex side links keys } by { Prim.hlevel props },
}

impl LinkTable {
    ghost use Rattle.lapd_table.specs.declared.link_id.LinkId.{LinkId};
    ghost use Rattle.lapd_table.specs.LinkTable.{side_of, link_at, Changes, IsUnchanged, StepsAt, RefusesAt, IsFor, IsKey, NotPredictedAt, NotAtOnceAt, HasDispatched, IsForNoLink, IsNotAdded};

    /// Creates an empty table for links of this side. It allocates nothing until a link is added;
    /// `alloc` is used then.
    pub fn new(alloc: Global, side: Side) -> LinkTable
        ensures empty { (id : LinkId) → link_at result id ≡ None }
        ensures side { side_of result ≡ side }
    {
        LinkTable {
            alloc,
            side,
            links: Slab::new(alloc),
            keys: BTreeMap::new(alloc),
            places: [0; 384],
        }
    }

    /// The side of the interface that the links belong to.
    #[tactic(auto, unfolding(crate::specs::LinkTable::side_of))]
    pub fn side(&self) -> Side
        ensures { result ≡ side_of self.now }
    {
        self.side
    }

    /// Adds a link. The link must belong to the table's side ([`LinkTable::side`]).
    ///
    /// # Errors
    ///
    /// B2 if a link with this SAPI and TEI exists, otherwise B3 if an allocation failed. The link
    /// is returned in the error, and the table is unchanged.
    pub fn add(&mut self, link: Link) -> Result<(), (TableFault, Link)>
        requires side { (setup_of link).side ≡ side_of self.old }
        ensures new { OnOk result (link_at self.old (id_of_setup (setup_of link)) ≡ None) }
        ensures ok { OnOk result (Changes self.old self.new (id_of_setup (setup_of link))
            (Some link)) }
        ensures err { IfErr result (λ refused. IsNotAdded self.old
            (id_of_setup (setup_of link)) refused.0) }
        ensures returned { IfErr result (λ refused. refused.1 ≡ link) }
        ensures unchanged { OnErr result (IsUnchanged self.old self.new) }
    {
        let id = LinkId::of_link(&link);
        if self.keys.contains_key(&id) {
            return Err((TableFault::AlreadyThere, link));
        }
        match self.store(id, link) {
            Ok(()) => Ok(()),
            Err(link) => Err((TableFault::Memory, link)),
        }
    }

    /// Stores a link with this id, which no other link has. Returns the link if an allocation
    /// failed; then the table is unchanged.
    fn store(&mut self, id: LinkId, link: Link) -> Result<(), Link>
        requires side { (setup_of link).side ≡ side_of self.old }
        requires its { id ≡ id_of_setup (setup_of link) }
        requires absent { key_of self.old.keys id ≡ None }
        ensures ok { OnOk result (Changes self.old self.new id (Some link)) }
        ensures returned { IfErr result (λ returned. returned ≡ link) }
        ensures unchanged { OnErr result (IsUnchanged self.old self.new) }
    {
        if self.links.reserve(1).is_err() {
            return Err(link);
        }
        let key = self.links.insert_reserved(link);
        match self.keys.insert(id, key) {
            Ok(_) => {
                self.places[usize::from(id.place())] = place_for(key);
                Ok(())
            }
            Err(_) => Err(self.links.remove(key)),
        }
    }

    /// Removes a link from the table and returns it. Does not allocate.
    pub fn remove(&mut self, id: LinkId) -> Option<Link>
        ensures value { result ≡ link_at self.old id }
        ensures changes { Changes self.old self.new id None }
    {
        self.places[usize::from(id.place())] = 0;
        match self.keys.remove(&id) {
            Some(key) => self.links.try_remove(key),
            None => None,
        }
    }

    /// The link with this SAPI and TEI, if it exists.
    pub fn link(&self, id: LinkId) -> Option<&Link>
        ensures value { option_copied result ≡ link_at self.now id }
        ensures setup { IfSome result (λ link. setup_of link.now
            ≡ setup_for (side_of self.now) id) }
    {
        match self.keys.get(&id) {
            Some(key) => self.links.get(*key),
            None => None,
        }
    }

    /// Finds the link with this SAPI and TEI, and returns its key. A link is found without a search;
    /// the map is searched only if there is none.
    #[inline(always)]
    pub fn find(&self, id: &LinkId) -> Option<LinkKey>
        ensures found { IfSome result (λ key. (key.id ≡ id.now) × IsKey self.now key) }
        ensures none { result ≡ None → link_at self.now id.now ≡ None }
    {
        match self.slot(id) {
            Some(place) => Some(LinkKey { id: *id, place }),
            None => None,
        }
    }

    /// The slot of the link with this SAPI and TEI.
    // It returns a number, so that the key is made in registers.
    #[inline(always)]
    fn slot(&self, id: &LinkId) -> Option<usize>
        ensures found { IfSome result (λ place. IsKey self.now (record {
          id = id.now;
          place = place;
        })) }
        ensures none { result ≡ None → link_at self.now id.now ≡ None }
    {
        let place = self.places[usize::from(id.place())];
        if place > 0 {
            Some(usize::from(place) - 1)
        } else {
            self.search(*id)
        }
    }

    /// As [`LinkTable::slot`], by the map.
    // The id is passed by value, so that no caller has to write it to memory.
    #[inline(never)]
    fn search(&self, id: LinkId) -> Option<usize>
        ensures found { IfSome result (λ place. IsKey self.now (record {
          id = id;
          place = place;
        })) }
        ensures none { result ≡ None → link_at self.now id ≡ None }
    {
        match self.keys.get(&id) {
            Some(place) => Some(*place),
            None => None,
        }
    }

    /// The link with this key.
    pub fn link_at(&self, key: &LinkKey) -> &Link
        requires { IsKey self.now key.now }
        ensures value { link_at self.now key.now.id ≡ Some result.now }
        ensures setup { setup_of result.now ≡ setup_for (side_of self.now) key.now.id }
    {
        &self.links[key.place]
    }

    /// The ids of all links, by ascending SAPI, then TEI.
    ///
    /// # Errors
    ///
    /// `AllocError` if the list cannot be allocated.
    pub fn ids(&self) -> Result<Vec<LinkId>, AllocError>
        ensures rising { IfOk result (λ ids. IsStrictlySortedBy id_cmp ids.items) }
        ensures all { IfOk result (λ ids. (id : LinkId) → Contains ids.items id
            ↔ IsSome (link_at self.now id)) }
    {
        self.keys.keys().copied().collect(self.alloc)
    }

    /// Processes received octets in the link that they are addressed to, as [`Link::handle`] does.
    /// Does not allocate. Octets with one of the faults F4 to F7 are reported, as a fault, to the
    /// link whose address they carry. For speed, pass the outputs to [`LinkTable::dispatch_into`].
    ///
    /// # Errors
    ///
    /// B4 if the octets have one of the faults F1 to F3, so that they are for no link. B1 if the
    /// link does not exist. The table is unchanged.
    pub fn dispatch(&mut self, bytes: &[u8]) -> Result<(LinkId, Outs), TableFault>
        ensures ok { IfOk result (λ done. HasDispatched self.old self.new bytes.now done.0
            done.1.items) }
        ensures err { IfErr result (IsForNoLink self.old bytes.now) }
        ensures unchanged { OnErr result (IsUnchanged self.old self.new) }
    {
        let mut outs = Outs::new();
        let id = self.dispatch_into(bytes, &mut outs)?;
        Ok((id, outs))
    }

    /// Like [`LinkTable::dispatch`], but writes to the caller's outputs, which are emptied first.
    ///
    /// # Errors
    ///
    /// As [`LinkTable::dispatch`].
    pub fn dispatch_into(&mut self, bytes: &[u8], outs: &mut Outs) -> Result<LinkId, TableFault>
        ensures ok { IfOk result (λ id. HasDispatched self.old self.new bytes.now id
            outs.new.items) }
        ensures err { IfErr result (IsForNoLink self.old bytes.now) }
        ensures unchanged { OnErr result (IsUnchanged self.old self.new) }
        ensures empty { OnErr result (outs.new.items ≡ []) }
    {
        match read(bytes, self.side.other()) {
            Ok(frame) => {
                let id = LinkId::of_address(&frame.address());
                self.handle_event(id, Event::Heard(&frame), outs)
            }
            Err(FrameFault { kind, address }) => match address {
                Some(address) => self.handle_event(
                    LinkId::of_address(&address),
                    Event::Fault(kind),
                    outs,
                ),
                None => {
                    outs.clear();
                    Err(TableFault::Discarded(kind))
                }
            },
        }
    }

    /// Passes a frame or a fault to the link with this SAPI and TEI, if it exists. No link refuses
    /// one.
    fn handle_event(
        &mut self,
        id: LinkId,
        event: Event,
        outs: &mut Outs,
    ) -> Result<LinkId, TableFault>
        requires for_link { IsFor id event }
        requires reception { (e : End) → refused (input_of event) e ≡ None }
        ensures ok { IfOk result (λ done. (done ≡ id)
            × StepsAt self.old self.new id (input_of event.entry) outs.new.items) }
        ensures err { IfErr result (λ fault. (fault ≡ TableFault.NoLink)
            × (link_at self.old id ≡ None)) }
        ensures unchanged { OnErr result (IsUnchanged self.old self.new) }
        ensures empty { OnErr result (outs.new.items ≡ []) }
    {
        let Some(key) = self.keys.get(&id).copied() else {
            outs.clear();
            return Err(TableFault::NoLink);
        };
        match self.handle_under(key, id, event, outs) {
            Ok(()) => Ok(id),
            Err(_) => unreachable!(),
        }
    }

    /// Like [`LinkTable::handle_into`], for the link with this slab key.
    fn handle_under(
        &mut self,
        key: usize,
        id: LinkId,
        event: Event,
        outs: &mut Outs,
    ) -> Result<(), LinkFault>
        requires named { key_of self.old.keys id ≡ Some key }
        requires for_link { IsFor id event }
        ensures ok { OnOk result (StepsAt self.old self.new id
            (input_of event.entry) outs.new.items) }
        ensures err { IfErr result (RefusesAt self.old id (input_of event.entry)) }
        ensures bounded { OnOk result (IsBounded (input_of event.entry) outs.new.items) }
        ensures unchanged { OnErr result (IsUnchanged self.old self.new) }
        ensures empty { OnErr result (outs.new.items ≡ []) }
        ensures keys { self.new.keys ≡ self.old.keys }
    {
        self.links[key].handle_into(event, outs)
    }

    /// Processes an event in an existing link. Does not allocate. For speed, pass the outputs to
    /// [`LinkTable::handle_into`].
    ///
    /// The caller ensures that the link exists ([`LinkTable::link`]) and that the event is for it,
    /// as in [`Link::handle`].
    ///
    /// # Errors
    ///
    /// As [`Link::handle`]. The table is unchanged.
    pub fn handle(&mut self, id: LinkId, event: Event) -> Result<Outs, LinkFault>
        requires there { IsSome (link_at self.old id) }
        requires for_link { IsFor id event }
        ensures ok { IfOk result (λ outs. StepsAt self.old self.new id
            (input_of event.entry) outs.items) }
        ensures err { IfErr result (RefusesAt self.old id (input_of event.entry)) }
        ensures unchanged { OnErr result (IsUnchanged self.old self.new) }
    {
        let mut outs = Outs::new();
        self.handle_into(id, event, &mut outs)?;
        Ok(outs)
    }

    /// Like [`LinkTable::handle`], but writes to the caller's outputs, which are emptied first.
    ///
    /// # Errors
    ///
    /// As [`LinkTable::handle`].
    pub fn handle_into(
        &mut self,
        id: LinkId,
        event: Event,
        outs: &mut Outs,
    ) -> Result<(), LinkFault>
        requires there { IsSome (link_at self.old id) }
        requires for_link { IsFor id event }
        ensures ok { OnOk result (StepsAt self.old self.new id
            (input_of event.entry) outs.new.items) }
        ensures err { IfErr result (RefusesAt self.old id (input_of event.entry)) }
        ensures unchanged { OnErr result (IsUnchanged self.old self.new) }
        ensures empty { OnErr result (outs.new.items ≡ []) }
    {
        let key = self.keys[&id];
        self.handle_under(key, id, event, outs)
    }

    /// Like [`LinkTable::handle_into`], for the link with this key.
    ///
    /// # Errors
    ///
    /// As [`Link::handle`]. The table is unchanged.
    pub fn handle_at(
        &mut self,
        key: &LinkKey,
        event: Event,
        outs: &mut Outs,
    ) -> Result<(), LinkFault>
        requires key { IsKey self.old key.now }
        requires for_link { IsFor key.now.id event }
        ensures ok { OnOk result (StepsAt self.old self.new key.now.id
            (input_of event.entry) outs.new.items) }
        ensures err { IfErr result (RefusesAt self.old key.now.id (input_of event.entry)) }
        ensures bounded { OnOk result (IsBounded (input_of event.entry) outs.new.items) }
        ensures unchanged { OnErr result (IsUnchanged self.old self.new) }
        ensures empty { OnErr result (outs.new.items ≡ []) }
        ensures key { IsKey self.new key.now }
    {
        self.handle_under(key.place, key.id, event, outs)
    }

    /// Handles a frame of this kind with this N(R) for the link with this key, if the link predicts it
    /// ([`Link::predicted_step`]). For any other frame it returns `None`, and the table is unchanged.
    #[inline(always)]
    pub fn predicted_step_at(
        &mut self,
        key: &LinkKey,
        kind: PredictedKind,
        nr: Number,
    ) -> Option<PredictedOuts>
        requires key { IsKey self.old key.now }
        ensures ok { IfSome result (λ outs. StepsAt self.old self.new key.now.id
            (Heard (predicted_control kind nr) (predicted_role kind)) (predicted_outs outs)) }
        ensures declined { IfNone result (NotPredictedAt self.old key.now.id
            (predicted_control kind nr) (predicted_role kind)) }
        ensures unchanged { IfNone result (self.new ≡ self.old) }
        ensures key { IsKey self.new key.now }
    {
        self.links[key.place].predicted_step(kind, nr)
    }

    /// A message with these octets, to be submitted to the link with this key. Uses the room of an
    /// acknowledged message of the link, if one is kept ([`Link::new_message`]).
    ///
    /// # Errors
    ///
    /// `AllocError` if no room is kept, or the kept one is too small, and the allocation fails.
    #[inline(always)]
    pub fn new_message_at(&mut self, key: &LinkKey, octets: &[u8]) -> Result<Vec<u8>, AllocError>
        requires key { IsKey self.old key.now }
        ensures octets { IfOk result (λ message. message.items ≡ octets.now) }
        ensures unchanged { self.new ≡ self.old }
        ensures key { IsKey self.new key.now }
    {
        self.links[key.place].new_message(octets)
    }

    /// Submits a layer 3 message to an existing link. Does not allocate. For speed, pass the
    /// outputs to [`LinkTable::give_into`].
    ///
    /// The caller ensures that the link exists ([`LinkTable::link`]).
    ///
    /// # Errors
    ///
    /// As [`Link::give`]. The message is returned in the error, and the table is unchanged.
    pub fn give(&mut self, id: LinkId, message: Vec<u8>) -> Result<Outs, Refused>
        requires { IsSome (link_at self.old id) }
        ensures ok { IfOk result (λ outs. StepsAt self.old self.new id
            (Give message.items) outs.items) }
        ensures err { IfErr result (λ refused. RefusesAt self.old id
            (Give message.items) refused.fault) }
        ensures returned { IfErr result (λ refused. refused.message ≡ message) }
        ensures unchanged { OnErr result (IsUnchanged self.old self.new) }
    {
        let mut outs = Outs::new();
        self.give_into(id, message, &mut outs)?;
        Ok(outs)
    }

    /// Like [`LinkTable::give`], but writes to the caller's outputs, which are emptied first.
    ///
    /// # Errors
    ///
    /// As [`LinkTable::give`].
    pub fn give_into(
        &mut self,
        id: LinkId,
        message: Vec<u8>,
        outs: &mut Outs,
    ) -> Result<(), Refused>
        requires { IsSome (link_at self.old id) }
        ensures ok { OnOk result (StepsAt self.old self.new id
            (Give message.items) outs.new.items) }
        ensures err { IfErr result (λ refused. RefusesAt self.old id
            (Give message.items) refused.fault) }
        ensures returned { IfErr result (λ refused. refused.message ≡ message) }
        ensures unchanged { OnErr result (IsUnchanged self.old self.new) }
        ensures empty { OnErr result (outs.new.items ≡ []) }
    {
        let key = self.keys[&id];
        self.give_under(key, id, message, outs)
    }

    /// Like [`LinkTable::give_into`], for the link with this key.
    ///
    /// # Errors
    ///
    /// As [`Link::give`]. The message is returned in the error, and the table is unchanged.
    pub fn give_at(
        &mut self,
        key: &LinkKey,
        message: Vec<u8>,
        outs: &mut Outs,
    ) -> Result<(), Refused>
        requires { IsKey self.old key.now }
        ensures ok { OnOk result (StepsAt self.old self.new key.now.id
            (Give message.items) outs.new.items) }
        ensures err { IfErr result (λ refused. RefusesAt self.old key.now.id
            (Give message.items) refused.fault) }
        ensures returned { IfErr result (λ refused. refused.message ≡ message) }
        ensures bounded { OnOk result (IsBounded (Give message.items) outs.new.items) }
        ensures unchanged { OnErr result (IsUnchanged self.old self.new) }
        ensures empty { OnErr result (outs.new.items ≡ []) }
        ensures key { IsKey self.new key.now }
    {
        self.give_under(key.place, key.id, message, outs)
    }

    /// Submits a message to the link with this key, if it is sent at once ([`Link::give_at_once`]).
    /// A message that waits or is refused is returned, and the table is unchanged.
    #[inline(always)]
    pub fn give_at_once_at(&mut self, key: &LinkKey, message: Vec<u8>) -> Result<GivenOuts, Vec<u8>>
        requires key { IsKey self.old key.now }
        ensures ok { IfOk result (λ outs. StepsAt self.old self.new key.now.id
            (Give message.items) (given_outs outs)) }
        ensures declined { OnErr result (NotAtOnceAt self.old key.now.id message.items) }
        ensures returned { IfErr result (λ back. back ≡ message) }
        ensures unchanged { OnErr result (self.new ≡ self.old) }
        ensures key { IsKey self.new key.now }
    {
        self.links[key.place].give_at_once(message)
    }

    /// Like [`LinkTable::give_into`], for the link with this slab key.
    fn give_under(
        &mut self,
        key: usize,
        id: LinkId,
        message: Vec<u8>,
        outs: &mut Outs,
    ) -> Result<(), Refused>
        requires { key_of self.old.keys id ≡ Some key }
        ensures ok { OnOk result (StepsAt self.old self.new id
            (Give message.items) outs.new.items) }
        ensures err { IfErr result (λ refused. RefusesAt self.old id
            (Give message.items) refused.fault) }
        ensures returned { IfErr result (λ refused. refused.message ≡ message) }
        ensures bounded { OnOk result (IsBounded (Give message.items) outs.new.items) }
        ensures unchanged { OnErr result (IsUnchanged self.old self.new) }
        ensures empty { OnErr result (outs.new.items ≡ []) }
        ensures keys { self.new.keys ≡ self.old.keys }
    {
        self.links[key].give_into(message, outs)
    }
}

/// The place of an id whose link has this slab key.
fn place_for(key: usize) -> u8
    ensures { (n : ℕ) → result ≡ suc n → n ≡ key }
{
    if key < 255 { key as u8 + 1 } else { 0 }
}
