//! Laws of the TEIs of a bus. A call of a law does nothing.

ghost use Rattle.std.specs.Prelude.{◌≡◌, ◌<◌, ◌≤◌, ℕ, List, slice_get, Some, true};
ghost use Rattle.lapd_table.specs.declared.link_id.LinkId.{LinkId};
ghost use Rattle.lapd_sides.specs.User.{User};
ghost use Rattle.lapd_sides_links.specs.Links.{parameters_for};
ghost use Rattle.lapd_side_events.specs.Interface.{Configs, from_here};
ghost use Rattle.lapd_two_side_laws.specs.Projects.{IsSafeAt};
ghost use Rattle.lapd_side_events.specs.SideView.{SideView};
ghost use Rattle.lapd_bus_laws.specs.Assignments.{claims, IsSingle};
ghost use Rattle.lapd_side_events.specs.Bus.{Bus, BusEvent, NewTerminal, new_bus, bus_step, after_events, from_now, interface_of, moves_along};
ghost use Rattle.lapd_bus_laws.specs.Freeing.{KnowsTeisInUse, LosesNone};
ghost use Rattle.lapd_bus_laws.specs.Holdings.{AssignsFree, KeepsTeisApart, IsReached, Assigns, IsOnlyClaimant, IsClear, IsClearToNetwork, KeepsHolding};
ghost use Rattle.lapd_bus_laws.specs.Links.{Throughout, IsNobodyElses};

/// On a bus no two terminals ever hold the same TEI.
///
/// The premises are of each event (`KeepsTeisApart`):
///
/// - The network assigns a TEI only while no terminal holds it and no assignment of it is in
///   transit.
/// - A terminal requests a TEI only by a reference by which no other terminal awaits one, and of
///   which no assignment is in transit to this terminal.
/// - A terminal joins with a fixed TEI only if no other terminal holds it, and no assignment of it
///   is in transit to another terminal.
///
/// Nothing is said of when a TEI is freed, nor of what a network side knows that restarts.
/// Terminals may join and give up their TEIs at any moment, octets may be lost for each terminal,
/// and timers may expire at any moment.
///
/// `reached`: the premises may also begin later, on any bus whose terminals are apart
/// (`IsReached`), as after checks of all TEIs ([`each_check_heals_its_tei`]).
///
/// [`each_check_heals_its_tei`]: crate::each_check_heals_its_tei
pub fn every_bus_is_single()
    ensures single { (c : Configs) (known : List ℕ) (terminals : List NewTerminal)
        (events : List BusEvent) → IsSingle (new_bus c known terminals)
        → Throughout c (KeepsTeisApart c) events (new_bus c known terminals)
        → IsSingle (after_events c events (new_bus c known terminals)) }
    ensures reached { (c : Configs) (b : Bus) → IsReached c b → IsSingle b }
{}

/// Each holding of a TEI is safe: from the moment at which the network assigns the TEI, for as long
/// as it does not assign it again.
///
/// Take a bus that is reached while the premises of [`every_bus_is_single`] hold, from a new one or
/// from one whose terminals are apart, and an event in which the network assigns the TEI. At that
/// moment no octets of the link are in transit to the network, nor to the terminal that may take
/// the TEI (`IsClear`). Then, for any events in which T200 of the link waits for its answer, the
/// network neither restarts nor assigns the TEI again, the terminal is not replaced, no other one
/// joins with the TEI, and no terminal requests by a reference of which an assignment is in transit
/// to it (`KeepsHolding`):
///
/// - `one`: at most one terminal holds the TEI or may still take it.
/// - `safe`: the link between the network and that terminal is safe, in both directions, as for two
///   sides (`each_link_is_safe` of `lapd_two_side_laws`). Primitives and messages count from the
///   assignment on.
/// - `nobody_elses`: no other terminal delivers anything about the link, with octets of it in
///   transit to the terminal or not.
///
/// The TEI may be freed, checked and removed meanwhile, and given up by its terminal. Other TEIs
/// may be assigned.
pub fn every_holding_is_safe()
    ensures one { (c : Configs) (b : Bus) (e : BusEvent) (tei i : ℕ) (t : SideView User)
        → IsReached c b → KeepsTeisApart c e b
        → slice_get (bus_step c e b).terminals i ≡ Some t → claims tei t ≡ true
        → IsOnlyClaimant tei i (bus_step c e b) }
    ensures safe { (c : Configs) (id : LinkId) (i : ℕ) (b : Bus) (e : BusEvent)
        (after : List BusEvent) (t : SideView User) → id.tei < 127
        → (parameters_for c.user id.sapi).k ≤ 127 → (parameters_for c.network id.sapi).k ≤ 127
        → IsReached c b → KeepsTeisApart c e b → Assigns c id.tei e b
        → slice_get (bus_step c e b).terminals i ≡ Some t
        → IsOnlyClaimant id.tei i (bus_step c e b) → IsClear id i (bus_step c e b)
        → Throughout c (KeepsHolding c id i) after (from_now (bus_step c e b))
        → IsSafeAt c id (moves_along c i after (from_now (bus_step c e b)))
        (from_here (interface_of t (bus_step c e b))) }
    ensures nobody_elses { (c : Configs) (id : LinkId) (i : ℕ) (b : Bus) (e : BusEvent)
        (after : List BusEvent) → id.tei < 127 → IsReached c b → KeepsTeisApart c e b
        → Assigns c id.tei e b → IsOnlyClaimant id.tei i (bus_step c e b)
        → IsClearToNetwork id (bus_step c e b)
        → Throughout c (KeepsHolding c id i) after (from_now (bus_step c e b))
        → IsNobodyElses id i (after_events c after (from_now (bus_step c e b))) }
{}

/// The same from the first event of a bus on, for a TEI that no other terminal holds then: a fixed
/// TEI, which the network knows or not.
///
/// The premises of each event are those of a holding (`KeepsHolding`).
///
/// - `safe`: the link between the network and this terminal is safe, in both directions.
/// - `nobody_elses`: no other terminal delivers anything about the link.
pub fn each_fixed_tei_is_safe()
    ensures safe { (c : Configs) (id : LinkId) (i : ℕ) (known : List ℕ)
        (terminals : List NewTerminal) (after : List BusEvent) (t : SideView User)
        → id.tei < 127 → (parameters_for c.user id.sapi).k ≤ 127
        → (parameters_for c.network id.sapi).k ≤ 127
        → slice_get (new_bus c known terminals).terminals i ≡ Some t
        → IsOnlyClaimant id.tei i (new_bus c known terminals)
        → Throughout c (KeepsHolding c id i) after (from_now (new_bus c known terminals))
        → IsSafeAt c id (moves_along c i after (from_now (new_bus c known terminals)))
        (from_here (interface_of t (new_bus c known terminals))) }
    ensures nobody_elses { (c : Configs) (id : LinkId) (i : ℕ) (known : List ℕ)
        (terminals : List NewTerminal) (after : List BusEvent) → id.tei < 127
        → IsOnlyClaimant id.tei i (new_bus c known terminals)
        → Throughout c (KeepsHolding c id i) after (from_now (new_bus c known terminals))
        → IsNobodyElses id i
        (after_events c after (from_now (new_bus c known terminals))) }
{}

/// One way to keep the premise on assignments: a TEI is freed only while it is not in use, a
/// network that restarts knows the TEIs in use, and the network knows the fixed TEI of a terminal
/// that joins (`LosesNone`).
///
/// A TEI is in use while a terminal holds it or an assignment of it is in transit. The premises are
/// of TEIs from 64 on, which the network assigns. They exclude each removal that takes its TEI from
/// a terminal, since the terminal still holds the TEI when it is freed; the premise on assignments
/// does not.
pub fn freeing_keeps_assignments()
    ensures assigns { (c : Configs) (known : List ℕ) (terminals : List NewTerminal)
        (events : List BusEvent) → KnowsTeisInUse (new_bus c known terminals)
        → Throughout c (LosesNone c) events (new_bus c known terminals)
        → Throughout c (AssignsFree c) events (new_bus c known terminals) }
{}
