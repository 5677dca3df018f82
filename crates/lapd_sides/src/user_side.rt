//! The user side.

ghost use Rattle.std.specs.Prelude.{◌≡◌, ◌≤◌, ◌<◌, ◌+◌, ◌++◌, length, [], Some, None, Err, IfOk, IfSome};
ghost use Rattle.std.specs.List.{All};
ghost use Rattle.lapd_link_definition.specs.Input.{input_of, Establish, Release, UnitData, Give};
ghost use Rattle.lapd_link_definition.specs.declared.event.LinkFault.TheVariants.{NotEstablished};
ghost use Rattle.lapd_tei.specs.Out.{IsInRange, tei_given};
ghost use Rattle.lapd_tei.specs.Terminal.{terminal_step};
ghost use Rattle.lapd_tei.specs.declared.phase.Phase.{Phase};
ghost use Rattle.lapd_table.specs.LinkTable.{IsFor};
ghost use Rattle.lapd_sides_links.specs.declared.side_fault.SideKind.TheVariants.{NoLink, Link};
ghost use Rattle.lapd_sides_links.specs.declared.acts.TheConstants.{MOST_PRIMITIVES};
ghost use Rattle.lapd_sides_links.specs.Links.{of_sapi};
ghost use Rattle.lapd_sides_links.specs.Rooms.{HasRoomFor, AddsAtMost, IsEmpty};
ghost use Rattle.lapd_sides.specs.Calls.{Answers, EachShown, Follows, SideDoes};
ghost use Rattle.lapd_sides.specs.Meant.{gives_to_own_link, predicted_is_not_for_layer_3};
ghost use Rattle.lapd_sides.specs.ShowsUser.{CarriesOut, ShowTerminal, ShowUser};
ghost use Rattle.lapd_sides.specs.User.{TerminalState, seeded, sends_message, new_user, user_requested, user_rules, terminal_acts, assigned, pending_after, establishes_pending, establishes, gives_up_pending, primitive_of_sapi, wants, forgets, gives_up, has_tei, with_tei_or};

use crate::links_and_timer::{LinksAndTimer, MOST_TEI_OUTPUTS, is_unit_to_group, without_message};
use crate::managed_side::deliver_for_sapi;
use crate::pending_establishments::PendingEstablishments;
use crate::references::References;
use crate::terminal_management::TerminalManagement;
use crate::{
    Acts, Config, ManagedSide, Management, Represented, Request, SideFault, SideKind, What,
};
use lapd_frame::{Frame, Sapi, Side, Tei};
use lapd_link::{Event, LinkFault};
use lapd_sides_links::refused;
use lapd_table::LinkId;
use lapd_tei::{TeiMessage, TeiOut, Terminal, TerminalEvent};
use std::alloc::{AllocError, Global};

/// The user side of an interface: a terminal, the links of its TEI, and their timers.
pub type UserSide = ManagedSide<TerminalManagement>;

impl Represented for TerminalManagement {
    ghost State = { TerminalState };

    ghost represents = { ShowTerminal };

    ghost rules = { user_rules };
}

impl Management for TerminalManagement {
    ghost predicted_is_for_link = { predicted_is_not_for_layer_3 };

    ghost gives_to_meant = { gives_to_own_link };

    #[inline(always)]
    fn side() -> Side {
        Side::User
    }

    fn is_for_layer_3(config: &Config, frame: &Frame<'_>) -> bool {
        config.serves(frame.address().sapi) && is_unit_to_group(frame)
    }

    #[inline(always)]
    fn link_of_call(&self, id: &LinkId) -> Option<LinkId> {
        self.own_link(id)
    }

    fn receive_message(
        side: &mut UserSide,
        message: TeiMessage,
        now: u64,
        acts: &mut Acts,
    ) -> Result<(), AllocError> {
        let event = TerminalEvent::Heard(message, side.management.references.next());
        let mut terminal = side.management.terminal;
        let outs = terminal.handle(event);
        side.served
            .admit(side.alloc, &side.config, outs.as_slice())?;
        side.management.terminal = terminal;
        side.carry_out(outs.as_slice(), now, acts);
        Ok(())
    }

    /// Stops T202, which has expired, and processes its expiry.
    fn expire_timer(side: &mut UserSide, now: u64, acts: &mut Acts) {
        let event = TerminalEvent::T202(side.management.references.next());
        side.manage(event, now, acts);
    }

    #[tactic(auto, unfolding(crate::specs::User::user_requested))]
    fn execute(
        side: &mut UserSide,
        request: Request,
        now: u64,
        acts: &mut Acts,
    ) -> Result<(), SideFault> {
        if let Request::AskTei = &request {
            side.request_tei(now, acts);
            return Ok(());
        }
        if let Request::Remove(tei) = &request {
            return side.return_tei(*tei, now, acts);
        }
        match request {
            Request::Establish(id) => side.establish(id.sapi, now, acts),
            Request::Release(id) => side.release(id.sapi, now, acts),
            Request::Busy(id, true) => side.set_own_busy(id.sapi, Event::BusyOn, now, acts),
            Request::Busy(id, false) => side.set_own_busy(id.sapi, Event::BusyOff, now, acts),
            Request::Unit(id, octets) => side.send_unit(id.sapi, octets, now, acts),
            Request::Give(id, message) => side.give_message(id.sapi, message, now, acts),
            Request::AskTei
            | Request::Check(_)
            | Request::CheckAll
            | Request::Remove(_)
            | Request::RemoveAll => Ok(()),
        }
    }
}

impl UserSide {
    /// Creates a user side. With a fixed TEI, 0 to 126, its links exist, in state 4; without one it
    /// has no links yet.
    ///
    /// # Errors
    ///
    /// `AllocError` if an allocation failed.
    pub fn new(alloc: Global, config: Config, fixed: Option<Tei>) -> Result<UserSide, AllocError>
        requires { IfSome fixed (λ tei. tei < 127) }
        ensures { IfOk result (λ side. ShowUser side config
            (new_user config fixed (seeded config.seed))) }
    {
        let seed = config.seed;
        UserSide::with_seed(alloc, config, fixed, seed)
    }

    /// Creates a user side like [`UserSide::new`], with this seed instead of [`Config::seed`]. So the
    /// terminals of a bus share a configuration, and each has its own references.
    ///
    /// # Errors
    ///
    /// `AllocError` if an allocation failed.
    pub fn with_seed(
        alloc: Global,
        config: Config,
        fixed: Option<Tei>,
        seed: u64,
    ) -> Result<UserSide, AllocError>
        requires { IfSome fixed (λ tei. tei < 127) }
        ensures { IfOk result (λ side. ShowUser side config
            (new_user config fixed (seeded seed))) }
    {
        let mut served = LinksAndTimer::new(alloc, Side::User, config.durations)?;
        if let Some(tei) = fixed {
            served.links.add_tei(alloc, &config, tei)?;
        }
        Ok(ManagedSide {
            alloc,
            config,
            served,
            management: TerminalManagement {
                terminal: Terminal::new(fixed),
                pending: PendingEstablishments::nothing(),
                references: References::new(seed),
            },
        })
    }

    /// The terminal's TEI management.
    pub fn terminal(&self) -> &Terminal
        ensures { EachShown ShowUser self.now (λ s. result.now ≡ s.management.terminal) }
    {
        &self.management.terminal
    }
}

/// Requests.
impl UserSide {
    /// Establishes the link of this SAPI; without a TEI, the request is kept.
    fn establish(&mut self, sapi: Sapi, now: u64, acts: &mut Acts) -> Result<(), SideFault>
        requires empty { IsEmpty acts.old }
        ensures { Answers ShowUser result self.old self.new acts.new None
            (λ config s. with_tei_or now s.management.terminal sapi Establish []
            (wants config now sapi s) s) }
    {
        match self.management.terminal.tei() {
            Some(tei) => self.act(link_id(sapi, tei), Event::Establish, now, acts),
            None => self.keep_pending(sapi, now, acts),
        }
    }

    /// Keeps an establishment without a TEI for its SAPI, if that is served, and requests a TEI.
    fn keep_pending(&mut self, sapi: Sapi, now: u64, acts: &mut Acts) -> Result<(), SideFault>
        requires empty { IsEmpty acts.old }
        ensures { Answers ShowUser result self.old self.new acts.new None (λ config. wants config now sapi) }
    {
        if !self.config.serves(sapi) {
            return Err(without_message(SideKind::NoLink));
        }
        self.management.pending.set(sapi, true);
        let event = TerminalEvent::Want(self.management.references.next());
        self.manage(event, now, acts);
        Ok(())
    }

    /// Releases the link of this SAPI; without a TEI, forgets a kept establishment.
    fn release(&mut self, sapi: Sapi, now: u64, acts: &mut Acts) -> Result<(), SideFault>
        requires empty { IsEmpty acts.old }
        ensures { Answers ShowUser result self.old self.new acts.new None
            (λ _ s. with_tei_or now s.management.terminal sapi Release [] (forgets sapi s) s) }
    {
        match self.management.terminal.tei() {
            Some(tei) => self.act(link_id(sapi, tei), Event::Release, now, acts),
            None => self.drop_pending(sapi, acts),
        }
    }

    /// Forgets a kept establishment. The terminal continues to request a TEI.
    fn drop_pending(&mut self, sapi: Sapi, acts: &mut Acts) -> Result<(), SideFault>
        requires empty { IsEmpty acts.old }
        ensures { Answers ShowUser result self.old self.new acts.new None (λ _. forgets sapi) }
    {
        if !self.management.pending.has(sapi) {
            return Err(without_message(SideKind::NoLink));
        }
        self.management.pending.set(sapi, false);
        deliver_for_sapi(sapi, What::ReleaseConfirm, acts);
        Ok(())
    }

    /// Sets or clears own receiver busy on the link of this SAPI.
    fn set_own_busy(
        &mut self,
        sapi: Sapi,
        event: Event,
        now: u64,
        acts: &mut Acts,
    ) -> Result<(), SideFault>
        requires empty { IsEmpty acts.old }
        requires for_link { (id : LinkId) → IsFor id event }
        ensures { Answers ShowUser result self.old self.new acts.new None
            (λ _ s. with_tei_or now s.management.terminal sapi (input_of event.entry) [] (Err NoLink) s) }
    {
        match self.management.terminal.tei() {
            Some(tei) => self.act(link_id(sapi, tei), event, now, acts),
            None => Err(without_message(SideKind::NoLink)),
        }
    }

    /// Sends unit data on the link of this SAPI.
    fn send_unit(
        &mut self,
        sapi: Sapi,
        octets: Vec<u8>,
        now: u64,
        acts: &mut Acts,
    ) -> Result<(), SideFault>
        requires empty { IsEmpty acts.old }
        ensures { Answers ShowUser result self.old self.new acts.new (Some octets)
            (λ _ s. with_tei_or now s.management.terminal sapi (UnitData (length octets.items)) octets.items
            (Err NoLink) s) }
    {
        let Some(tei) = self.management.terminal.tei() else {
            return Err(refused(SideKind::NoLink, octets));
        };
        let sent = self
            .served
            .links
            .send_unit(&link_id(sapi, tei), octets.as_slice(), now, acts);
        match sent {
            Ok(()) => Ok(()),
            Err(kind) => Err(refused(kind, octets)),
        }
    }

    /// Submits a layer 3 message to the link of this SAPI.
    fn give_message(
        &mut self,
        sapi: Sapi,
        message: Vec<u8>,
        now: u64,
        acts: &mut Acts,
    ) -> Result<(), SideFault>
        requires empty { IsEmpty acts.old }
        ensures { Answers ShowUser result self.old self.new acts.new (Some message)
            (λ _ s. with_tei_or now s.management.terminal sapi (Give message.items) []
            (Err (Link NotEstablished)) s) }
    {
        match self.management.terminal.tei() {
            Some(tei) => self
                .served
                .links
                .give(&link_id(sapi, tei), message, now, acts),
            None => Err(refused(SideKind::Link(LinkFault::NotEstablished), message)),
        }
    }

    /// Gives up the terminal's TEI, if it is this one (Q.921 5.3.4).
    fn return_tei(&mut self, tei: Tei, now: u64, acts: &mut Acts) -> Result<(), SideFault>
        requires empty { IsEmpty acts.old }
        ensures { Answers ShowUser result self.old self.new acts.new None
            (λ config. gives_up config now tei) }
    {
        if !has_tei(self.management.terminal.tei(), tei) {
            return Err(without_message(SideKind::NoLink));
        }
        self.release_tei(now, acts);
        Ok(())
    }
}

/// TEI management.
impl UserSide {
    /// Requests a TEI.
    fn request_tei(&mut self, now: u64, acts: &mut Acts)
        requires { IsEmpty acts.old }
        ensures { SideDoes ShowUser self.old self.new acts.new
            (λ config. terminal_acts config now TerminalEvent.Ask) }
    {
        let event = TerminalEvent::Ask(self.management.references.next());
        self.manage(event, now, acts);
    }

    /// Gives up the terminal's TEI.
    fn release_tei(&mut self, now: u64, acts: &mut Acts)
        requires { IsEmpty acts.old }
        ensures { SideDoes ShowUser self.old self.new acts.new
            (λ config. terminal_acts config now (λ _. TerminalEvent.Leave)) }
    {
        self.manage(TerminalEvent::Leave, now, acts);
    }

    /// Passes the terminal an event by which it obtains no TEI.
    fn manage(&mut self, event: TerminalEvent, now: u64, acts: &mut Acts)
        requires empty { IsEmpty acts.old }
        requires gets_none { (phase : Phase) → tei_given (terminal_step phase event).outs ≡ None }
        ensures { SideDoes ShowUser self.old self.new acts.new
            (λ config s. assigned config now (terminal_step s.management.terminal event) s) }
    {
        let outs = self.management.terminal.handle(event);
        self.carry_out(outs.as_slice(), now, acts);
    }

    /// Carries out these outputs of the terminal. The links of a TEI that it obtained have already
    /// been added.
    fn carry_out(&mut self, outs: &[TeiOut], now: u64, acts: &mut Acts)
        requires in_range { All IsInRange outs.now }
        requires at_most { length outs.now ≤ MOST_TEI_OUTPUTS }
        requires empty { IsEmpty acts.old }
        ensures { CarriesOut self.old self.new acts.new now outs.now }
    {
        self.management.references.advance_if(sends_message(outs));
        self.served.carry_out(Side::User, outs, now, acts);
        self.resolve_pending(outs, now, acts);
    }

    /// Settles the kept establishments after these outputs: executes them if a TEI was obtained,
    /// and releases them if none was.
    fn resolve_pending(&mut self, outs: &[TeiOut], now: u64, acts: &mut Acts)
        requires frame_room { length acts.old.frames ≤ MOST_TEI_OUTPUTS + 2 }
        requires primitive_room { length acts.old.primitives ≤ MOST_TEI_OUTPUTS + 2 }
        ensures { Follows ShowUser self.old self.new acts.old acts.new (λ _. pending_after now outs.now) }
    {
        for out in outs {
            match out {
                TeiOut::Got(tei) => return self.establish_pending(*tei, now, acts),
                TeiOut::Failed => return self.give_up_pending(acts),
                _ => {}
            }
        }
    }

    /// Executes the kept establishments with this new TEI, SAPI 0 first.
    fn establish_pending(&mut self, tei: Tei, now: u64, acts: &mut Acts)
        requires frame_room { length acts.old.frames ≤ MOST_TEI_OUTPUTS + 2 }
        requires primitive_room { length acts.old.primitives ≤ MOST_TEI_OUTPUTS + 2 }
        ensures { Follows ShowUser self.old self.new acts.old acts.new (λ _. establishes_pending now tei) }
    {
        let pending = self.management.pending;
        self.management.pending = PendingEstablishments::nothing();
        self.establish_if(pending.has(Sapi::Call), link_id(Sapi::Call, tei), now, acts);
        self.establish_if(
            pending.has(Sapi::Packet),
            link_id(Sapi::Packet, tei),
            now,
            acts,
        );
    }

    /// Establishes the link with this id if its establishment was kept. The results are appended to
    /// `acts`.
    fn establish_if(&mut self, pending: bool, id: LinkId, now: u64, acts: &mut Acts)
        requires room { HasRoomFor Establish acts.old }
        ensures done { Follows ShowUser self.old self.new acts.old acts.new
            (λ _. establishes pending now id) }
        ensures most { AddsAtMost Establish acts.old acts.new }
    {
        if pending {
            let _ = self.served.links.act(&id, Event::Establish, &[], now, acts);
        }
    }

    /// Releases the kept establishments, SAPI 0 first, because the terminal obtained no TEI.
    fn give_up_pending(&mut self, acts: &mut Acts)
        requires { length acts.old.primitives ≤ MOST_TEI_OUTPUTS + 2 }
        ensures { Follows ShowUser self.old self.new acts.old acts.new (λ _. gives_up_pending) }
    {
        let pending = self.management.pending;
        self.management.pending = PendingEstablishments::nothing();
        release_if(pending.has(Sapi::Call), Sapi::Call, acts);
        release_if(pending.has(Sapi::Packet), Sapi::Packet, acts);
    }
}

/// Whether this is the TEI of a terminal that has `own`, if any.
fn has_tei(own: Option<Tei>, tei: Tei) -> bool
    ensures { result ≡ has_tei tei own }
{
    match own {
        Some(own) => own == tei,
        None => false,
    }
}

/// Whether these outputs send a message.
fn sends_message(outs: &[TeiOut]) -> bool
    ensures { result ≡ sends_message outs.now }
{
    for out in outs {
        if let TeiOut::Send(_) = out {
            return true;
        }
    }
    false
}

/// Reports to layer 3 that a SAPI without a TEI is released, if its establishment was kept.
fn release_if(pending: bool, sapi: Sapi, acts: &mut Acts)
    requires { length acts.old.primitives < MOST_PRIMITIVES }
    ensures { acts.new ≡ record acts.old {
      primitives = acts.old.primitives ++ primitive_of_sapi pending sapi What.Released;
    } }
{
    if pending {
        deliver_for_sapi(sapi, What::Released, acts);
    }
}

/// The id of a link.
fn link_id(sapi: Sapi, tei: Tei) -> LinkId
    ensures { result ≡ of_sapi sapi tei }
{
    LinkId { sapi, tei }
}
