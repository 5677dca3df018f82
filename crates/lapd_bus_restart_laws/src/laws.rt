//! Laws of a bus whose sides also restart. A call of a law does nothing.

ghost use Rattle.std.specs.Prelude.{◌≡◌, ◌<◌, ◌≤◌, ℕ, List, slice_get, Some};
ghost use Rattle.std.specs.List.{AllByRecursion};
ghost use Rattle.lapd_table.specs.declared.link_id.LinkId.{LinkId};
ghost use Rattle.lapd_sides_links.specs.Links.{parameters_for};
ghost use Rattle.lapd_sides.specs.Network.{new_network};
ghost use Rattle.lapd_sides.specs.ShowsNetwork.{NetSide, ShowNetwork};
ghost use Rattle.lapd_sides.specs.ShowsUser.{UserSide, ShowUser};
ghost use Rattle.lapd_sides.specs.User.{User, new_user};
ghost use Rattle.lapd_side_events.specs.Interface.{Configs, from_here};
ghost use Rattle.lapd_side_events.specs.SideView.{SideView};
ghost use Rattle.lapd_side_events.specs.Bus.{Bus, BusEvent, Restart, NewTerminal, interface_of, moves_along, from_now, after_events};
ghost use Rattle.lapd_bus_laws.specs.Holdings.{IsOfBus};
ghost use Rattle.lapd_bus_laws.specs.Links.{IsSole, IsNewHere, IsNobodyElses};
ghost use Rattle.lapd_restart_laws.specs.RestartRuns.{moved};
ghost use Rattle.lapd_restart_laws.specs.SafeAcross.{IsSafeAcross};
ghost use Rattle.lapd_bus_restart_laws.specs.BusAcross.{step_across, after_across, RestartsNone, ThroughoutAcross, changes_along, FollowsAcross, IsRestartedBy};
ghost use Rattle.lapd_bus_restart_laws.specs.LinksAcross.{KeepsLink};

/// Each run of a bus with restarts is a run with restarts of the network and one terminal, for each
/// of the terminals.
///
/// - `runs`: after any events the interface of the terminal at any index is the one that its changes
///   lead to. A restart of the network is one of the network side, and a new terminal at this index
///   is a restart of the user side. A new terminal at another index is nothing.
/// - `without`: if no side restarts, the events lead to the bus that they lead to in
///   `lapd_side_events`, and the changes are the moves that they are there.
pub fn each_run_across_restarts_is_one_of_two_sides()
    ensures runs { (c : Configs) (i : ℕ) (events : List BusEvent) (t : SideView User) (b : Bus)
        → AllByRecursion IsOfBus events → slice_get b.terminals i ≡ Some t
        → FollowsAcross c i events t b }
    ensures without { (c : Configs) (i : ℕ) (events : List BusEvent) (b : Bus)
        → AllByRecursion RestartsNone events
        → (after_across c events b ≡ after_events c events b)
        × (changes_along c i events b ≡ moved (moves_along c i events b)) }
{}

/// Code that represents a newly created side represents the network or a terminal of a bus after its
/// restart too, whatever it was before.
///
/// So a program that drops a side of a bus and makes another one by [`NetSide::new`],
/// [`UserSide::new`] or [`UserSide::with_seed`] restarts it there. What the calls of the new side
/// are, `calls_are_bus_events` of `lapd_side_events` says.
///
/// [`NetSide::new`]: lapd_sides::NetSide::new
/// [`UserSide::new`]: lapd_sides::UserSide::new
/// [`UserSide::with_seed`]: lapd_sides::UserSide::with_seed
pub fn new_sides_restart_on_a_bus()
    ensures network { (c : Configs) (code : NetSide) (known : List ℕ) (b : Bus)
        → ShowNetwork code c.network (new_network c.network known)
        → ShowNetwork code c.network (step_across c (Restart known) b).network }
    ensures terminal { (c : Configs) (i : ℕ) (code : UserSide) (new : NewTerminal)
        (t : SideView User) (b : Bus) → slice_get b.terminals i ≡ Some t
        → ShowUser code c.user (new_user c.user new.fixed new.random)
        → IsRestartedBy c i code new b }
{}

/// The link between the network and one terminal of a bus is safe from any moment at which it is
/// new, whatever all terminals do, if the network and the terminals also restart.
///
/// At that moment no octets of the link are on the terminal's lines (`IsNewHere`), and no other
/// terminal holds the TEI, has the link, or has octets of it on its line to the network (`IsSole`).
/// The premises of each event are (`KeepsLink`):
///
/// - T200 of the link never expires while an awaited answer is in transit;
/// - the network does not assign the TEI while it has the link, nor after the TEI was removed, and
///   this terminal does not obtain it so;
/// - no other terminal obtains the TEI or restarts with it;
/// - if the network or this terminal has the link before and after it restarts, no SABME or DISC of
///   the link from it is in transit on this terminal's lines, and no UA or DM to it;
/// - it does not have the link again after its TEI was removed, or was gone after a restart.
///
/// Other terminals restart at any moment, without a TEI or with another one.
///
/// - `safe`: safe is said as for two sides (`each_link_is_safe_across_restarts` of
///   `lapd_restart_laws`), over the messages of all lives of both sides from that moment on.
/// - `nobody_elses`: no other terminal delivers anything about the link.
pub fn each_link_of_a_bus_is_safe_across_restarts()
    ensures safe { (c : Configs) (id : LinkId) (i : ℕ) (events : List BusEvent)
        (t : SideView User) (b : Bus) → id.tei < 127
        → (parameters_for c.user id.sapi).k ≤ 127 → (parameters_for c.network id.sapi).k ≤ 127
        → slice_get b.terminals i ≡ Some t
        → IsNewHere c id (parameters_for c.user id.sapi) (parameters_for c.network id.sapi) t b
        → IsSole id i b → ThroughoutAcross c (KeepsLink c id i) events (from_now b)
        → IsSafeAcross c id (changes_along c i events (from_now b))
        (from_here (interface_of t b)) }
    ensures nobody_elses { (c : Configs) (id : LinkId) (i : ℕ) (events : List BusEvent) (b : Bus)
        → id.tei < 127 → IsSole id i b
        → ThroughoutAcross c (KeepsLink c id i) events (from_now b)
        → IsNobodyElses id i (after_across c events (from_now b)) }
{}
