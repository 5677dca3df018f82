//! The differences between the network side and a user side.

ghost use Rattle.std.specs.Prelude.{◌≡◌, ℕ, false, [], Some};
ghost use Rattle.lapd_frame.specs.declared.predicted_frame.PredictedFrame.{PredictedFrame};
ghost use Rattle.lapd_frame.specs.PredictedFrame.{predicted_fields};
ghost use Rattle.lapd_link_definition.specs.Input.{Give};
ghost use Rattle.lapd_table.specs.declared.link_id.LinkId.{LinkId};
ghost use Rattle.lapd_sides_links.specs.declared.config.Config.{Config};
ghost use Rattle.lapd_sides_links.specs.Messages.{Message};
ghost use Rattle.lapd_sides_links.specs.Rooms.{IsEmpty};
ghost use Rattle.lapd_sides.specs.declared.request.Request.TheVariants as request;
ghost use Rattle.lapd_sides.specs.Calls.{Answers, Receives, SideDoes};
ghost use Rattle.lapd_sides.specs.Requests.{message_of};
ghost use Rattle.lapd_sides.specs.ShowsSide.{Shows};
ghost use Rattle.lapd_sides.specs.SideState.{Rules, SideState, link_of};

use crate::{Acts, Config, ManagedSide, Request, SideFault};
use lapd_frame::{Frame, Side};
use lapd_table::LinkId;
use lapd_tei::TeiMessage;
use std::alloc::AllocError;

/// The state that a side's TEI management represents, and the rules of that side.
pub trait Represented: Drop {
    ghost State: { Type 0 };

    ghost represents: { Self → State → Type 0 };

    ghost rules: { Rules State };
}

/// The TEI management of a side (Q.921 5.3), and what else differs between the network side and a
/// user side. [`ManagedSide`] calls it.
pub trait Management: Represented {
    /// The side that has this management.
    fn side() -> Side
        ensures { result ≡ Self.rules.side };

    /// Whether a frame is unit data to all terminals, which is for layer 3 and not for a link.
    fn is_for_layer_3(config: &Config, frame: &Frame<'_>) -> bool
        ensures { result ≡ Self.rules.is_for_layer_3 config.now frame.now };

    /// The link that a caller means who names this one. `None` without a TEI.
    fn link_of_call(&self, id: &LinkId) -> Option<LinkId>
        ensures { (m : Self.State) → Self.represents self.now m
            → result ≡ Self.rules.link_of_call m id.now };

    /// Processes a TEI message. The links of a TEI that is assigned or obtained are added before
    /// anything else is changed.
    ///
    /// # Errors
    ///
    /// `AllocError` if an allocation failed. The side is unchanged.
    fn receive_message(
        side: &mut ManagedSide<Self>,
        message: TeiMessage,
        now: u64,
        acts: &mut Acts,
    ) -> Result<(), AllocError>
        requires empty { IsEmpty acts.old }
        ensures { Receives (Shows Self.represents Self.rules) result side.old side.new acts.new
            (λ s. Self.rules.given s.management message) (λ config. Self.rules.hears config now message) };

    /// Processes the expiry of its timer, which is stopped.
    fn expire_timer(side: &mut ManagedSide<Self>, now: u64, acts: &mut Acts)
        requires empty { IsEmpty acts.old }
        ensures { SideDoes (Shows Self.represents Self.rules) side.old side.new acts.new
            (λ config. Self.rules.times_out config now) };

    /// Executes a request.
    ///
    /// # Errors
    ///
    /// B1 if the link does not exist, and L1 to L5 if it refuses.
    fn execute(
        side: &mut ManagedSide<Self>,
        request: Request,
        now: u64,
        acts: &mut Acts,
    ) -> Result<(), SideFault>
        requires empty { IsEmpty acts.old }
        ensures { Answers (Shows Self.represents Self.rules) result side.old side.new acts.new
            (message_of request) (λ config. Self.rules.requested config request now) };

    // no link predicts a frame for layer 3
    ghost predicted_is_for_link: { (config : Config) (p : PredictedFrame)
        → Self.rules.is_for_layer_3 config (predicted_fields p) ≡ false };

    // a message is for the link that is meant
    ghost gives_to_meant: { (config : Config) (id own : LinkId) (message : Message) (now : ℕ)
        (s : SideState Self.State) → Self.rules.link_of_call s.management id ≡ Some own
        → Self.rules.requested config (request.Give id message) now s
        ≡ link_of Self.rules.side now own (Give message.items) [] s };
}
