//! Laws of a bus. A call of a law does nothing.

ghost use Rattle.std.specs.Prelude.{◌≡◌, ◌<◌, ◌≤◌, ℕ, List, slice_get, Some};
ghost use Rattle.std.specs.List.{AllByRecursion};
ghost use Rattle.lapd_link_definition.specs.Parameters.{Parameters};
ghost use Rattle.lapd_table.specs.declared.link_id.LinkId.{LinkId};
ghost use Rattle.lapd_sides.specs.User.{User};
ghost use Rattle.lapd_side_events.specs.Interface.{Configs, from_here};
ghost use Rattle.lapd_two_side_laws.specs.Projects.{IsSafeAt};
ghost use Rattle.lapd_side_events.specs.SideView.{SideView, SideEvent};
ghost use Rattle.lapd_side_events.specs.Bus.{Bus, BusEvent, KeepsTerminal, IsOverheard, Follows, interface_of, moves_along, from_now, after_events};
ghost use Rattle.lapd_bus_laws.specs.Links.{Throughout, IsTimelyFor, AssignsOthers, ObtainsOnce, IsSole, IsNewHere, IsNobodyElses};

/// Each run of a bus is a run of the network and one terminal, for each of the terminals.
///
/// - `one`: an event of the network with the line of another terminal is nothing for this one, or
///   the network overhears octets, or expires a timer or executes a request as with this one.
/// - `runs`: after any events of terminals and of the network, of any number, the interface of the
///   terminal at any index is the one that its moves lead to. Other terminals may also join.
pub fn each_run_is_a_run_of_two_sides()
    ensures one { (c : Configs) (event : SideEvent) (t other : SideView User) (b : Bus)
        → IsOverheard c event t other b }
    ensures runs { (c : Configs) (i : ℕ) (events : List BusEvent) (t : SideView User) (b : Bus)
        → AllByRecursion (KeepsTerminal i) events → slice_get b.terminals i ≡ Some t
        → Follows c i events t b }
{}

/// The link between the network and one terminal of a bus is safe from any moment at which it is
/// new, whatever all terminals do, if
///
/// - no other terminal then holds the TEI, has the link, or has octets of it on its line to the
///   network (`IsSole`),
/// - T200 of the link never expires while an awaited answer is in transit (`IsTimelyFor`),
/// - the network does not assign the TEI (`AssignsOthers`), and
/// - this terminal obtains it once at most, and no other obtains it or joins with it
///   (`ObtainsOnce`).
///
/// The network does not restart, and this terminal is not replaced (`KeepsTerminal`).
///
/// `safe`: safe is said as for two sides (`each_link_is_safe` of `lapd_two_side_laws`), of primitives
/// and messages from that moment on. `nobody_elses`: no other terminal delivers anything about the
/// link.
pub fn each_terminals_link_is_safe()
    ensures safe { (c : Configs) (id : LinkId) (i : ℕ) (p q : Parameters) (events : List BusEvent)
        (t : SideView User) (b : Bus) → id.tei < 127 → p.k ≤ 127 → q.k ≤ 127
        → AllByRecursion (KeepsTerminal i) events → slice_get b.terminals i ≡ Some t
        → IsNewHere c id p q t b → IsSole id i b
        → Throughout c (IsTimelyFor id i) events (from_now b)
        → Throughout c (AssignsOthers c id.tei) events (from_now b)
        → Throughout c (ObtainsOnce c id i) events (from_now b)
        → IsSafeAt c id (moves_along c i events (from_now b)) (from_here (interface_of t b)) }
    ensures nobody_elses { (c : Configs) (id : LinkId) (i : ℕ) (events : List BusEvent) (b : Bus)
        → id.tei < 127 → AllByRecursion (KeepsTerminal i) events → IsSole id i b
        → Throughout c (ObtainsOnce c id i) events (from_now b)
        → IsNobodyElses id i (after_events c events (from_now b)) }
{}
