//! The network side.

ghost use Rattle.std.specs.Prelude.{◌≡◌, ◌<◌, [], Some, None, Ok, Err, OnOk, OnErr, IfOk, IfErr, refl};
ghost use Rattle.std.specs.List.{All};
ghost use Rattle.lapd_link_definition.specs.Input.{Give};
ghost use Rattle.lapd_tei.specs.Assigner.{AssignerState, assigner_step};
ghost use Rattle.lapd_tei.specs.Out.{tei_given};
ghost use Rattle.lapd_sides_links.specs.Effects.{no_effects};
ghost use Rattle.lapd_sides_links.specs.Rooms.{IsEmpty};
ghost use Rattle.lapd_sides.specs.Calls.{Answers, EachShown, Grants, SideDoes, SideRefusesAs, ShowsSideAsBefore};
ghost use Rattle.lapd_sides.specs.Meant.{gives_to_link};
ghost use Rattle.lapd_sides.specs.SideState.{link_of};
ghost use Rattle.lapd_sides.specs.Network.{Network, new_network, assigner_acts, network_requested, network_rules, unit_requested, unit_to_group};
ghost use Rattle.lapd_sides.specs.ShowsNetwork.{ShowNetwork, is_assigner};

use crate::all_teis::{put_check_of_all, put_removal_of_all};
use crate::links_and_timer::LinksAndTimer;
use crate::{Acts, Config, ManagedSide, Management, Represented, Request, SideFault, SideKind};
use lapd_frame::{Address, Control, Frame, Role, Sapi, Side, Tei};
use lapd_link::{Event, LinkFault};
use lapd_sides_links::refused;
use lapd_table::LinkId;
use lapd_tei::{Assigner, AssignerEvent, TeiMessage};
use std::alloc::{AllocError, Global};

/// The network side of an interface: its links, the assigner of its TEIs, and their timers.
pub type NetSide = ManagedSide<Assigner>;

impl Represented for Assigner {
    ghost State = { AssignerState };

    ghost represents = { is_assigner };

    ghost rules = { network_rules };
}

impl Management for Assigner {
    ghost predicted_is_for_link = { λ config p. refl };

    ghost gives_to_meant = { gives_to_link };

    #[inline(always)]
    fn side() -> Side {
        Side::Network
    }

    fn is_for_layer_3(_: &Config, _: &Frame<'_>) -> bool {
        false
    }

    #[inline(always)]
    fn link_of_call(&self, id: &LinkId) -> Option<LinkId> {
        Some(*id)
    }

    fn receive_message(
        side: &mut NetSide,
        message: TeiMessage,
        now: u64,
        acts: &mut Acts,
    ) -> Result<(), AllocError> {
        let mut assigner = side.management;
        let outs = assigner.handle(AssignerEvent::Heard(message));
        side.served
            .admit(side.alloc, &side.config, outs.as_slice())?;
        side.management = assigner;
        side.served
            .carry_out(Side::Network, outs.as_slice(), now, acts);
        Ok(())
    }

    fn expire_timer(side: &mut NetSide, now: u64, acts: &mut Acts) {
        side.manage(AssignerEvent::T201, now, acts);
    }

    #[tactic(auto, unfolding(crate::specs::Network::network_requested, crate::specs::SideState::link_of))]
    fn execute(
        side: &mut NetSide,
        request: Request,
        now: u64,
        acts: &mut Acts,
    ) -> Result<(), SideFault> {
        if let Request::Check(tei) = &request {
            side.manage(AssignerEvent::Check(*tei), now, acts);
            return Ok(());
        }
        if let Request::Remove(tei) = &request {
            side.manage(AssignerEvent::Remove(*tei), now, acts);
            return Ok(());
        }
        if let Request::CheckAll = &request {
            put_check_of_all(&side.management, acts);
            return Ok(());
        }
        if let Request::RemoveAll = &request {
            put_removal_of_all(&side.management, acts);
            return Ok(());
        }
        match request {
            Request::Establish(id) => side.act(id, Event::Establish, now, acts),
            Request::Release(id) => side.act(id, Event::Release, now, acts),
            Request::Busy(id, true) => side.act(id, Event::BusyOn, now, acts),
            Request::Busy(id, false) => side.act(id, Event::BusyOff, now, acts),
            Request::Unit(id, octets) => side.send_unit(id, octets, now, acts),
            Request::Give(id, message) => side.give_message(id, message, now, acts),
            Request::AskTei
            | Request::Check(_)
            | Request::CheckAll
            | Request::Remove(_)
            | Request::RemoveAll => Ok(()),
        }
    }
}

impl NetSide {
    /// Creates a network side that holds these TEIs, each 0 to 126. Their links exist, in state 4.
    ///
    /// # Errors
    ///
    /// `AllocError` if an allocation failed.
    pub fn new(alloc: Global, config: Config, known: &[Tei]) -> Result<NetSide, AllocError>
        requires { All (λ tei. tei < 127) known.now }
        ensures { IfOk result (λ side. ShowNetwork side config (new_network config known.now)) }
    {
        let assigner = Assigner::new(known);
        let mut served = LinksAndTimer::new(alloc, Side::Network, config.durations)?;
        served.links.add_held(alloc, &config, &assigner)?;
        Ok(ManagedSide {
            alloc,
            config,
            served,
            management: assigner,
        })
    }

    /// The assigner of TEIs.
    pub fn assigner(&self) -> &Assigner
        ensures { EachShown ShowNetwork self.now (λ s. result.now ≡ s.management) }
    {
        &self.management
    }

    /// Passes the assigner an event that assigns no TEI.
    fn manage(&mut self, event: AssignerEvent, now: u64, acts: &mut Acts)
        requires empty { IsEmpty acts.old }
        requires gives_none { (a : AssignerState) → tei_given (assigner_step a event).outs ≡ None }
        ensures { SideDoes ShowNetwork self.old self.new acts.new
            (λ config. assigner_acts config now event) }
    {
        let outs = self.management.handle(event);
        self.served
            .carry_out(Side::Network, outs.as_slice(), now, acts);
    }

    /// Sends unit data on a link, or to all terminals.
    fn send_unit(
        &mut self,
        id: LinkId,
        octets: Vec<u8>,
        now: u64,
        acts: &mut Acts,
    ) -> Result<(), SideFault>
        requires empty { IsEmpty acts.old }
        ensures { Answers ShowNetwork result self.old self.new acts.new (Some octets)
            (λ config. unit_requested config now id octets.items) }
    {
        match self.put_unit(id, octets.as_slice(), now, acts) {
            Ok(()) => Ok(()),
            Err(kind) => Err(refused(kind, octets)),
        }
    }

    /// Sends these octets as unit data on a link, or to all terminals.
    fn put_unit(
        &mut self,
        id: LinkId,
        octets: &[u8],
        now: u64,
        acts: &mut Acts,
    ) -> Result<(), SideKind>
        requires empty { IsEmpty acts.old }
        ensures ok { OnOk result (Grants ShowNetwork self.old self.new acts.new
            (λ config. unit_requested config now id octets.now)) }
        ensures err { IfErr result (λ kind. SideRefusesAs ShowNetwork self.old kind
            (λ config. unit_requested config now id octets.now)) }
        ensures unchanged { OnErr result (ShowsSideAsBefore ShowNetwork self.old self.new) }
        ensures nothing { OnErr result (acts.new ≡ no_effects) }
    {
        if self.config.serves_group(&id) {
            put_group_unit(id.sapi, octets, acts)
        } else {
            self.served.links.send_unit(&id, octets, now, acts)
        }
    }

    /// Submits a message to a link.
    fn give_message(
        &mut self,
        id: LinkId,
        message: Vec<u8>,
        now: u64,
        acts: &mut Acts,
    ) -> Result<(), SideFault>
        requires empty { IsEmpty acts.old }
        ensures { Answers ShowNetwork result self.old self.new acts.new (Some message)
            (λ _. link_of Side.Network now id (Give message.items) []) }
    {
        self.served.links.give(&id, message, now, acts)
    }
}

/// Appends a frame with unit data to all terminals of a SAPI (Q.921 5.2).
///
/// # Errors
///
/// L3 for more than 260 octets.
fn put_group_unit(sapi: Sapi, octets: &[u8], acts: &mut Acts) -> Result<(), SideKind>
    requires empty { IsEmpty acts.old }
    ensures ok { OnOk result ((s : Network)
        → unit_to_group sapi octets.now s ≡ Ok (record { after = s; effects = acts.new })) }
    ensures err { IfErr result (λ kind. (s : Network)
        → unit_to_group sapi octets.now s ≡ Err kind) }
    ensures nothing { OnErr result (acts.new ≡ no_effects) }
{
    let address = Address {
        sapi,
        tei: Tei::group(),
        role: Role::Command,
    };
    match Frame::new(address, Control::Ui { p: false }, octets) {
        Ok(frame) => {
            acts.put(Side::Network, &frame);
            Ok(())
        }
        Err(_) => Err(SideKind::Link(LinkFault::TooLong)),
    }
}
