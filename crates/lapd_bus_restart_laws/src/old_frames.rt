//! Laws of a holding of a TEI that begins while old frames of its link are in transit to the
//! terminal. A call of a law does nothing.

ghost use Rattle.std.specs.Prelude.{◌≡◌, ◌<◌, ◌≤◌, ℕ, List, slice_get, Some};
ghost use Rattle.lapd_table.specs.declared.link_id.LinkId.{LinkId};
ghost use Rattle.lapd_sides.specs.User.{User};
ghost use Rattle.lapd_sides_links.specs.Links.{parameters_for};
ghost use Rattle.lapd_side_events.specs.Interface.{Configs, from_here};
ghost use Rattle.lapd_side_events.specs.SideView.{SideView};
ghost use Rattle.lapd_side_events.specs.Bus.{Bus, BusEvent, bus_step, from_now, interface_of, moves_along};
ghost use Rattle.lapd_two_side_laws.specs.Primitives.{link_primitives, AreExpectedOfLink};
ghost use Rattle.lapd_two_side_laws.specs.Projects.{IsRight};
ghost use Rattle.lapd_two_side_laws.specs.Schedule.{configs, call};
ghost use Rattle.lapd_bus_laws.specs.Holdings.{KeepsTeisApart, IsReached, Assigns, IsOnlyClaimant, IsClearToNetwork, KeepsHolding};
ghost use Rattle.lapd_bus_laws.specs.Links.{Throughout};
ghost use Rattle.lapd_bus_laws.specs.Runs.{assigns_first};
ghost use Rattle.lapd_restart_laws.specs.Restarts.{records_across, run_across};
ghost use Rattle.lapd_restart_laws.specs.SafeAcross.{IsRightNow};
ghost use Rattle.lapd_bus_restart_laws.specs.BusAcross.{step_across, after_across, ThroughoutAcross, changes_along};
ghost use Rattle.lapd_bus_restart_laws.specs.HoldingsAcross.{IsReachedAcross, KeepsHoldingAcross};
ghost use Rattle.lapd_bus_restart_laws.specs.OldFrames.{RestartsClear, with_old_frame, from_old_frame, answers_old_frame};

/// From the assignment of its TEI on, all primitives of a link are right, even if frames of an
/// earlier holding of the TEI are still in transit to the terminal.
///
/// The premises are those of `every_holding_is_safe` of `lapd_bus_laws`, with one exception. At the
/// assignment no octets of the link are in transit to the network (`IsClearToNetwork`), but they
/// may be in transit to the terminal. The terminal discards these old frames. They precede the
/// assignment on its line, and it has no link of the TEI before it takes the assignment. If the
/// assignment is lost, it has none at all.
///
/// - `right`: messages are received in order and once each, and none is skipped within an
///   establishment. Each message that counts as acknowledged was received. No error but F, G, H and
///   I is reported (`IsRight` of `lapd_two_side_laws`). Primitives and messages count from the
///   assignment on.
///
/// `IsSafeAt` also says that the octets of the link on the line are the frames of a world of two
/// ends. That is not true while old frames are in transit, so it is left out here.
pub fn every_holding_is_safe_behind_old_frames()
    ensures right { (c : Configs) (id : LinkId) (i : ℕ) (b : Bus) (e : BusEvent)
        (after : List BusEvent) (t : SideView User) → id.tei < 127
        → (parameters_for c.user id.sapi).k ≤ 127 → (parameters_for c.network id.sapi).k ≤ 127
        → IsReached c b → KeepsTeisApart c e b → Assigns c id.tei e b
        → slice_get (bus_step c e b).terminals i ≡ Some t
        → IsOnlyClaimant id.tei i (bus_step c e b)
        → IsClearToNetwork id (bus_step c e b)
        → Throughout c (KeepsHolding c id i) after (from_now (bus_step c e b))
        → IsRight c id (moves_along c i after (from_now (bus_step c e b)))
        (from_here (interface_of t (bus_step c e b))) }
{}

/// The same, if the network and the terminals also restart.
///
/// The premises are those of [`every_holding_is_safe_across_restarts`], but octets of the link may
/// be in transit to the terminal at the assignment. One premise is added (`RestartsClear`): if the
/// terminal restarts with the link's TEI as its fixed one and did not have the link, no octets of
/// the link are in transit to it. Otherwise its new link would receive the old frames.
///
/// - `right`: the primitives of the link are right over all lives of both sides (`IsRightNow` of
///   `lapd_restart_laws`). They count from the assignment on.
///
/// [`every_holding_is_safe_across_restarts`]: crate::every_holding_is_safe_across_restarts
pub fn every_holding_is_safe_behind_old_frames_across_restarts()
    ensures right { (c : Configs) (id : LinkId) (i : ℕ) (b : Bus) (e : BusEvent)
        (after : List BusEvent) (t : SideView User) → id.tei < 127
        → (parameters_for c.user id.sapi).k ≤ 127 → (parameters_for c.network id.sapi).k ≤ 127
        → IsReachedAcross c b → KeepsTeisApart c e b → Assigns c id.tei e b
        → slice_get (step_across c e b).terminals i ≡ Some t
        → IsOnlyClaimant id.tei i (step_across c e b)
        → IsClearToNetwork id (step_across c e b)
        → ThroughoutAcross c (KeepsHoldingAcross c id i) after (from_now (step_across c e b))
        → ThroughoutAcross c (RestartsClear id i) after (from_now (step_across c e b))
        → IsRightNow id
        (run_across c (changes_along c i after (from_now (step_across c e b)))
        (from_here (interface_of t (step_across c e b))))
        (records_across c id (changes_along c i after (from_now (step_across c e b)))
        (from_here (interface_of t (step_across c e b)))) }
{}

/// The premise on restarts with old frames in transit (`RestartsClear`) can't be dropped.
///
/// A terminal gives up TEI 64 while a SABME is in transit to it, and the network assigns the TEI
/// again. The terminal restarts with it as its fixed TEI, and answers the old SABME. The network
/// reports an unsolicited UA (C). All other premises of
/// [`every_holding_is_safe_behind_old_frames_across_restarts`] hold.
pub fn old_frame_premise_is_needed()
    ensures reached { IsReachedAcross configs with_old_frame }
    ensures apart { KeepsTeisApart configs assigns_first with_old_frame }
    ensures assigns { Assigns configs 64 assigns_first with_old_frame }
    ensures only { IsOnlyClaimant 64 0 (bus_step configs assigns_first with_old_frame) }
    ensures clear { IsClearToNetwork call (bus_step configs assigns_first with_old_frame) }
    ensures keeps { ThroughoutAcross configs (KeepsHoldingAcross configs call 0)
        answers_old_frame from_old_frame }
    ensures unexpected { AreExpectedOfLink (link_primitives call
        (after_across configs answers_old_frame from_old_frame).delivered) → ⊥ }
{}
