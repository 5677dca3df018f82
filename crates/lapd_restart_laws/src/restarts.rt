//! Laws of restarts of a side. They are proofs; their functions do nothing.

ghost use Rattle.std.specs.Prelude.{◌≡◌, ◌<◌, ◌≤◌, [], ◌∷◌, ℕ, List, Option, Some, Vec};
ghost use Rattle.std.specs.declared.alloc.Global.{Global};
ghost use Rattle.rand_pcg.specs.Lcg.{Lcg};
ghost use Rattle.lapd_frame.specs.declared.Side.TheVariants as side;
ghost use Rattle.lapd_link_definition.specs.declared.out.Letter.TheVariants as letter;
ghost use Rattle.lapd_table.specs.declared.link_id.LinkId.{LinkId};
ghost use Rattle.lapd_sides_links.specs.declared.config.Config.{Config};
ghost use Rattle.lapd_sides_links.specs.declared.primitive.What.TheVariants as what;
ghost use Rattle.lapd_sides_links.specs.Links.{parameters_for};
ghost use Rattle.lapd_sides.specs.ShowsNetwork.{NetSide};
ghost use Rattle.lapd_sides.specs.ShowsUser.{UserSide};
ghost use Rattle.lapd_sides.specs.Network.{Network, new_network};
ghost use Rattle.lapd_sides.specs.ShowsNetwork.{ShowNetwork};
ghost use Rattle.lapd_sides.specs.ShowsUser.{ShowUser};
ghost use Rattle.lapd_sides.specs.User.{User, new_user};
ghost use Rattle.lapd_two_side_laws.specs.Addressed.{those_for};
ghost use Rattle.lapd_side_events.specs.Interface.{Configs, Interface, Move, fresh_link, new_interface, from_here, run};
ghost use Rattle.lapd_two_side_laws.specs.Primitives.{link_primitives, AreExpectedOfLink};
ghost use Rattle.lapd_two_side_laws.specs.Projects.{IsReceivedByNetwork};
ghost use Rattle.lapd_two_side_laws.specs.Schedule.{configs, call, at_first, unassigned, IsMessage};
ghost use Rattle.lapd_restart_laws.specs.RestartPremises.{KeepPremises, KeepPremisesAsMade};
ghost use Rattle.lapd_restart_laws.specs.RestartRuns.{moved, user_restarts, network_restarts, across_both, tei_lost, next_call, with_restart, KeepInPart, command_sent, command_answered, answer_sent, answer_taken, BringsNoCallBack, HasNoAnswer, HasNoCommand, given_up, comes_back, IsQuietForUser};
ghost use Rattle.lapd_restart_laws.specs.Restarts.{Change, network_after, user_after, run_across};
ghost use Rattle.lapd_restart_laws.specs.SafeAcross.{IsSafeAcross};

/// Every link between two sides is safe after every run in which sides also restart, and the octets
/// in transit stay there.
///
/// A network side restarts with a list of TEIs, a user side with a fixed TEI or none. All its links
/// are new, and the messages that waited are gone. If the side has a link again, layer 3 counts
/// them as dropped. If not, its TEI is gone. The premises of a link on a restart are:
///
/// - if the side has the link before and after it, no SABME or DISC of the link from this side is
///   in transit, and no UA or DM of it to this side; other frames of the link may be, and may
///   arrive after the restart;
/// - the side does not have the link again after its TEI was removed, or was gone after a restart.
///
/// The premises on moves are those of `each_link_is_safe`. Safe means what it means there, over the
/// messages of all lives of a side: each message is received at most once, in order, although the
/// side that submitted it, or the one that receives, has restarted. Establishments are counted on
/// across restarts.
///
/// - `as_made`: any link of two newly created sides.
/// - `from_here`: a link that is new on both sides at some moment of an interface, while no octets
///   for it are in transit.
/// - `without`: a run without restarts is one of `lapd_two_side_laws`.
pub fn each_link_is_safe_across_restarts()
    ensures as_made { (c : Configs) (id : LinkId) (fixed : Option ℕ) (known : List ℕ)
        (random : Lcg) → id.tei < 127
        → (parameters_for c.user id.sapi).k ≤ 127 → (parameters_for c.network id.sapi).k ≤ 127
        → (all : List Change)
        → KeepPremisesAsMade c id all
        (new_interface (new_user c.user fixed random) (new_network c.network known))
        → IsSafeAcross c id all
        (new_interface (new_user c.user fixed random) (new_network c.network known)) }
    ensures from_here { (c : Configs) (id : LinkId) (i : Interface) → id.tei < 127
        → (parameters_for c.user id.sapi).k ≤ 127 → (parameters_for c.network id.sapi).k ≤ 127
        → i.user.served.links id ≡ Some (fresh_link c.user id)
        → i.network.served.links id ≡ Some (fresh_link c.network id)
        → those_for side.Network id i.to_user ≡ [] → those_for side.User id i.to_network ≡ []
        → (all : List Change) → KeepPremises c id all (from_here i)
        → IsSafeAcross c id all (from_here i) }
    ensures without { (c : Configs) (moves : List Move) (i : Interface)
        → run_across c (moved moves) i ≡ run c moves i }
{}

/// Code that represents a newly created side represents that side after a restart too, whatever the
/// side was before.
///
/// So a program that drops a side and makes another one by [`NetSide::new`] or [`UserSide::new`]
/// restarts it. The definition differs from a newly created side in what code does not store: how
/// many establishments a link has had, and the messages of layer 3 before those that wait.
///
/// [`NetSide::new`]: lapd_sides::NetSide::new
/// [`UserSide::new`]: lapd_sides::UserSide::new
pub fn new_sides_restart()
    ensures network { (code : NetSide) (config : Config) (known : List ℕ) (before : Network)
        → ShowNetwork code config (new_network config known)
        → ShowNetwork code config (network_after config known before) }
    ensures user { (code : UserSide) (config : Config) (fixed : Option ℕ) (random : Lcg)
        (before : User) → ShowUser code config (new_user config fixed random)
        → ShowUser code config (user_after config fixed random before) }
{}

/// Worked runs with restarts meet the premises.
///
/// In the first both sides restart: the user while a message is in transit in each direction, and
/// the network while a message is in transit to it. Of the user's three messages the network
/// receives the first, sent before the restart of the user, and the second, once each. The third
/// arrives after the restart of the network, which ignores it, and is dropped when the user
/// establishes again. In the second run a user restarts without its TEI, and obtains another one:
/// both the link that is gone (`lost`) and the one that joins (`next`) keep the premises.
pub fn restarts_are_computed()
    ensures premises { (first answer second third : Vec ℕ Global) → IsMessage 1 first
        → IsMessage 2 answer → IsMessage 3 second → IsMessage 4 third
        → KeepPremises configs call (across_both first answer second third) at_first }
    ensures to_user { (first answer second third : Vec ℕ Global) → IsMessage 1 first
        → IsMessage 2 answer → IsMessage 3 second → IsMessage 4 third
        → link_primitives call
        (run_across configs (across_both first answer second third) at_first).delivered_to_user
        ≡ what.Confirmed ∷ what.Dropped 1 ∷ what.Confirmed ∷ what.Acknowledged 1
        ∷ what.Dropped 1 ∷ what.Confirmed ∷ [] }
    ensures to_network { (first answer second third : Vec ℕ Global) → IsMessage 1 first
        → IsMessage 2 answer → IsMessage 3 second → IsMessage 4 third
        → link_primitives call
        (run_across configs (across_both first answer second third) at_first).delivered_to_network
        ≡ what.Established ∷ what.Up (1 ∷ []) ∷ what.Report letter.F ∷ what.Dropped 1
        ∷ what.Established ∷ what.Up (3 ∷ []) ∷ what.Established ∷ [] }
    ensures lost_premises { (message : Vec ℕ Global) → IsMessage 1 message
        → KeepPremises configs call (tei_lost message) unassigned }
    ensures next_premises { (message : Vec ℕ Global) → IsMessage 1 message
        → KeepPremises configs next_call (tei_lost message) unassigned }
    ensures lost_to_user { (message : Vec ℕ Global) → IsMessage 1 message
        → link_primitives call (run_across configs (tei_lost message) unassigned).delivered_to_user
        ≡ what.Confirmed ∷ what.Acknowledged 1 ∷ [] }
    ensures next_to_user { (message : Vec ℕ Global) → IsMessage 1 message
        → link_primitives next_call
        (run_across configs (tei_lost message) unassigned).delivered_to_user
        ≡ what.Confirmed ∷ [] }
    ensures next_to_network { (message : Vec ℕ Global) → IsMessage 1 message
        → link_primitives next_call
        (run_across configs (tei_lost message) unassigned).delivered_to_network
        ≡ what.Established ∷ [] }
{}

/// Each premise on restarts is needed. Each run has one restart, which violates one premise, and
/// keeps all others.
///
/// - `command`: the network's SABME is in transit when the network restarts. It reports an
///   unsolicited UA (C) at the fourth change.
/// - `answer`: the UA that answers it is in transit, with the same end.
/// - `link`: the user gave up its TEI, and restarts with it, so the link exists again. Its second
///   message counts as the first, which was never received, as acknowledged.
pub fn each_restart_premise_is_needed()
    ensures command { KeepInPart (BringsNoCallBack (run configs command_sent at_first)
        × HasNoAnswer (run configs command_sent at_first))
        command_sent network_restarts command_answered
        × (AreExpectedOfLink (link_primitives call (run_across configs
        (with_restart command_sent network_restarts command_answered)
        at_first).delivered_to_network) → ⊥) }
    ensures answer { KeepInPart (BringsNoCallBack (run configs answer_sent at_first)
        × HasNoCommand (run configs answer_sent at_first))
        answer_sent network_restarts answer_taken
        × (AreExpectedOfLink (link_primitives call (run_across configs
        (with_restart answer_sent network_restarts answer_taken)
        at_first).delivered_to_network) → ⊥) }
    ensures link { (first second : Vec ℕ Global) → IsMessage 1 first → IsMessage 2 second
        → KeepInPart (IsQuietForUser (run configs (given_up first) at_first))
        (given_up first) user_restarts (comes_back second)
        × (IsReceivedByNetwork call (run_across configs
        (with_restart (given_up first) user_restarts (comes_back second)) at_first) → ⊥) }
{}
