//! Laws of holdings of a TEI on a bus whose sides also restart. A call of a law does nothing.

ghost use Rattle.std.specs.Prelude.{◌≡◌, ◌<◌, ◌≤◌, ℕ, List, slice_get, Some, true};
ghost use Rattle.lapd_table.specs.declared.link_id.LinkId.{LinkId};
ghost use Rattle.lapd_sides.specs.User.{User};
ghost use Rattle.lapd_sides_links.specs.Links.{parameters_for};
ghost use Rattle.lapd_side_events.specs.Interface.{Configs, from_here};
ghost use Rattle.lapd_side_events.specs.SideView.{SideView};
ghost use Rattle.lapd_bus_laws.specs.Assignments.{claims, IsSingle};
ghost use Rattle.lapd_side_events.specs.Bus.{Bus, BusEvent, NewTerminal, new_bus, from_now, interface_of};
ghost use Rattle.lapd_bus_laws.specs.Holdings.{KeepsTeisApart, Assigns, IsOnlyClaimant, IsClear, IsClearToNetwork};
ghost use Rattle.lapd_bus_laws.specs.Links.{IsNobodyElses};
ghost use Rattle.lapd_restart_laws.specs.SafeAcross.{IsSafeAcross};
ghost use Rattle.lapd_bus_restart_laws.specs.BusAcross.{step_across, after_across, ThroughoutAcross, changes_along};
ghost use Rattle.lapd_bus_restart_laws.specs.HoldingsAcross.{IsReachedAcross, KeepsHoldingAcross};

/// Each holding of a TEI is safe, if the network and the terminals also restart: from the moment at
/// which the network assigns the TEI, for as long as it does not assign it again.
///
/// Take a bus that is reached with restarts, by events that keep the premises of
/// `every_bus_is_single` of `lapd_bus_laws` (`IsReachedAcross`), and an event in which the network
/// assigns the TEI. At that moment no octets of the link are in transit to the network, nor to the
/// terminal that may take the TEI (`IsClear`). Then, for any events in which T200 of the link waits
/// for its answer, the network does not assign the TEI again, no other terminal restarts with it,
/// no terminal requests by a reference of which an assignment is in transit to it, and restarts of
/// the network and of the terminal keep the premises of
/// `each_link_of_a_bus_is_safe_across_restarts` (`KeepsHoldingAcross`):
///
/// - `single`: no two terminals hold the same TEI.
/// - `one`: at most one terminal holds the TEI or may still take it.
/// - `safe`: the link between the network and that terminal is safe, in both directions, over the
///   messages of all lives of both sides. They count from the assignment on.
/// - `nobody_elses`: no other terminal delivers anything about the link.
///
/// The terminal may restart without the TEI, and so lose it. If it restarts with the TEI as its
/// fixed one, it has the link again.
pub fn every_holding_is_safe_across_restarts()
    ensures single { (c : Configs) (b : Bus) → IsReachedAcross c b → IsSingle b }
    ensures one { (c : Configs) (b : Bus) (e : BusEvent) (tei i : ℕ) (t : SideView User)
        → IsReachedAcross c b → KeepsTeisApart c e b
        → slice_get (step_across c e b).terminals i ≡ Some t → claims tei t ≡ true
        → IsOnlyClaimant tei i (step_across c e b) }
    ensures safe { (c : Configs) (id : LinkId) (i : ℕ) (b : Bus) (e : BusEvent)
        (after : List BusEvent) (t : SideView User) → id.tei < 127
        → (parameters_for c.user id.sapi).k ≤ 127 → (parameters_for c.network id.sapi).k ≤ 127
        → IsReachedAcross c b → KeepsTeisApart c e b → Assigns c id.tei e b
        → slice_get (step_across c e b).terminals i ≡ Some t
        → IsOnlyClaimant id.tei i (step_across c e b) → IsClear id i (step_across c e b)
        → ThroughoutAcross c (KeepsHoldingAcross c id i) after (from_now (step_across c e b))
        → IsSafeAcross c id (changes_along c i after (from_now (step_across c e b)))
        (from_here (interface_of t (step_across c e b))) }
    ensures nobody_elses { (c : Configs) (id : LinkId) (i : ℕ) (b : Bus) (e : BusEvent)
        (after : List BusEvent) → id.tei < 127 → IsReachedAcross c b → KeepsTeisApart c e b
        → IsOnlyClaimant id.tei i (step_across c e b)
        → IsClearToNetwork id (step_across c e b)
        → ThroughoutAcross c (KeepsHoldingAcross c id i) after (from_now (step_across c e b))
        → IsNobodyElses id i (after_across c after (from_now (step_across c e b))) }
{}

/// The same from the first event of a bus on, for a TEI that no other terminal holds then: a fixed
/// TEI, which the network knows or not.
///
/// The premises of each event are those of a holding (`KeepsHoldingAcross`).
///
/// - `safe`: the link between the network and this terminal is safe, in both directions.
/// - `nobody_elses`: no other terminal delivers anything about the link.
pub fn each_fixed_tei_is_safe_across_restarts()
    ensures safe { (c : Configs) (id : LinkId) (i : ℕ) (known : List ℕ)
        (terminals : List NewTerminal) (after : List BusEvent) (t : SideView User)
        → id.tei < 127 → (parameters_for c.user id.sapi).k ≤ 127
        → (parameters_for c.network id.sapi).k ≤ 127
        → slice_get (new_bus c known terminals).terminals i ≡ Some t
        → IsOnlyClaimant id.tei i (new_bus c known terminals)
        → ThroughoutAcross c (KeepsHoldingAcross c id i) after
        (from_now (new_bus c known terminals))
        → IsSafeAcross c id (changes_along c i after (from_now (new_bus c known terminals)))
        (from_here (interface_of t (new_bus c known terminals))) }
    ensures nobody_elses { (c : Configs) (id : LinkId) (i : ℕ) (known : List ℕ)
        (terminals : List NewTerminal) (after : List BusEvent) → id.tei < 127
        → IsOnlyClaimant id.tei i (new_bus c known terminals)
        → ThroughoutAcross c (KeepsHoldingAcross c id i) after
        (from_now (new_bus c known terminals))
        → IsNobodyElses id i
        (after_across c after (from_now (new_bus c known terminals))) }
{}
