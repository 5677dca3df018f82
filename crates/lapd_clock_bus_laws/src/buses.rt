//! Laws of the links of a bus by the clock. A call of a law does nothing.

ghost use Rattle.std.specs.Prelude.{◌≡◌, ◌<◌, ◌≤◌, [], ◌∷◌, ℕ, List, slice_get, Some, Vec};
ghost use Rattle.std.specs.declared.alloc.Global.{Global};
ghost use Rattle.std.specs.List.{AllByRecursion};
ghost use Rattle.lapd_link_definition.specs.Parameters.{Parameters};
ghost use Rattle.lapd_table.specs.declared.link_id.LinkId.{LinkId};
ghost use Rattle.lapd_sides.specs.User.{User};
ghost use Rattle.lapd_sides_links.specs.declared.primitive.What.TheVariants as what;
ghost use Rattle.lapd_sides_links.specs.Links.{parameters_for};
ghost use Rattle.lapd_side_events.specs.Bus.{Bus, BusEvent, KeepsTerminal, NewTerminal, after_events, bus_step, from_now, interface_of, moves_along, new_bus};
ghost use Rattle.lapd_side_events.specs.Interface.{Configs, from_here};
ghost use Rattle.lapd_side_events.specs.SideView.{SideView};
ghost use Rattle.lapd_two_side_laws.specs.Primitives.{link_primitives};
ghost use Rattle.lapd_two_side_laws.specs.Projects.{IsSafeAt};
ghost use Rattle.lapd_two_side_laws.specs.Schedule.{configs, IsMessage};
ghost use Rattle.lapd_bus_laws.specs.Holdings.{Assigns, IsClear, IsOnlyClaimant, IsReached, KeepsTeisApart};
ghost use Rattle.lapd_bus_laws.specs.Links.{AssignsOthers, IsNewHere, IsSole, ObtainsOnce, Throughout};
ghost use Rattle.lapd_bus_laws.specs.Runs.{fixed_call, two_fixed};
ghost use Rattle.lapd_clock_laws.specs.Clock.{Clock, Shows, new_clock};
ghost use Rattle.lapd_clock_laws.specs.InTime.{AreInTime, HasLongT200, IsLongEnough, OverhearOthers};
ghost use Rattle.lapd_clock_laws.specs.Runs.{half_of_t200};
ghost use Rattle.lapd_clock_bus_laws.specs.Buses.{HasLine, KeepsTei, bus_at_half, first_terminal};

/// The link between the network and one terminal of a bus is safe if its frames are in transit for
/// at most half of T200.
///
/// These are `each_terminals_link_is_safe`, `every_holding_is_safe` and `each_fixed_tei_is_safe` of
/// `lapd_bus_laws`, whose premise on T200 follows from the clock. The clock is that of the network
/// and this terminal alone: the premises of `every_run_in_time_is_timely` of `lapd_clock_laws` are
/// about the moves of the terminal's interface that the events of the bus are (`moves_along`). So
/// the network overhears no octets of the link from other terminals, and each event of the network
/// is with the line of a terminal that exists.
///
/// - `terminal`: from any moment at which the link is new, if no other terminal has the TEI.
/// - `holding`: from the assignment of the TEI to the next.
/// - `fixed`: from the first event on, for a fixed TEI.
pub fn each_link_of_a_bus_in_time_is_safe()
    ensures terminal { (c : Configs) (id : LinkId) (longest i : ℕ) (p q : Parameters)
        (events : List BusEvent) (t : SideView User) (b : Bus) (k : Clock)
        → id.tei < 127 → 0 < longest
        → IsLongEnough longest c.user.durations → IsLongEnough longest c.network.durations
        → HasLongT200 longest (t.now.served.links id)
        → HasLongT200 longest (b.network.served.links id) → p.k ≤ 127 → q.k ≤ 127
        → AllByRecursion (KeepsTerminal i) events → slice_get b.terminals i ≡ Some t
        → IsNewHere c id p q t b → IsSole id i b
        → Throughout c HasLine events (from_now b)
        → Throughout c (AssignsOthers c id.tei) events (from_now b)
        → Throughout c (ObtainsOnce c id i) events (from_now b)
        → Shows k (interface_of t b)
        → OverhearOthers id (moves_along c i events (from_now b))
        → AreInTime longest c id (moves_along c i events (from_now b))
        (from_here (interface_of t b)) k
        → IsSafeAt c id (moves_along c i events (from_now b)) (from_here (interface_of t b)) }
    ensures holding { (c : Configs) (id : LinkId) (longest i : ℕ) (b : Bus) (e : BusEvent)
        (after : List BusEvent) (t : SideView User) (k : Clock)
        → id.tei < 127 → 0 < longest
        → IsLongEnough longest c.user.durations → IsLongEnough longest c.network.durations
        → HasLongT200 longest (t.now.served.links id)
        → HasLongT200 longest ((bus_step c e b).network.served.links id)
        → (parameters_for c.user id.sapi).k ≤ 127 → (parameters_for c.network id.sapi).k ≤ 127
        → IsReached c b → KeepsTeisApart c e b → Assigns c id.tei e b
        → slice_get (bus_step c e b).terminals i ≡ Some t
        → IsOnlyClaimant id.tei i (bus_step c e b) → IsClear id i (bus_step c e b)
        → Throughout c (KeepsTei c id i) after (from_now (bus_step c e b))
        → Shows k (interface_of t (bus_step c e b))
        → OverhearOthers id (moves_along c i after (from_now (bus_step c e b)))
        → AreInTime longest c id (moves_along c i after (from_now (bus_step c e b)))
        (from_here (interface_of t (bus_step c e b))) k
        → IsSafeAt c id (moves_along c i after (from_now (bus_step c e b)))
        (from_here (interface_of t (bus_step c e b))) }
    ensures fixed { (c : Configs) (id : LinkId) (longest start i : ℕ) (known : List ℕ)
        (terminals : List NewTerminal) (after : List BusEvent) (t : SideView User)
        → id.tei < 127 → 0 < longest
        → IsLongEnough longest c.user.durations → IsLongEnough longest c.network.durations
        → (parameters_for c.user id.sapi).k ≤ 127 → (parameters_for c.network id.sapi).k ≤ 127
        → slice_get (new_bus c known terminals).terminals i ≡ Some t
        → IsOnlyClaimant id.tei i (new_bus c known terminals)
        → Throughout c (KeepsTei c id i) after (from_now (new_bus c known terminals))
        → OverhearOthers id (moves_along c i after (from_now (new_bus c known terminals)))
        → AreInTime longest c id (moves_along c i after (from_now (new_bus c known terminals)))
        (from_here (interface_of t (new_bus c known terminals))) (new_clock start)
        → IsSafeAt c id (moves_along c i after (from_now (new_bus c known terminals)))
        (from_here (interface_of t (new_bus c known terminals))) }
{}

/// The premises of a bus by the clock can be met, with T200 of 1 s and frames that are in transit
/// for 500 ms.
///
/// Two terminals have fixed TEIs. The first establishes its link and submits a message, which is
/// received and acknowledged. The network overhears the SABME of the second terminal meanwhile.
pub fn bus_premises_in_time_can_be_met()
    ensures terminal { slice_get two_fixed.terminals 0 ≡ Some first_terminal }
    ensures keeps { (message : Vec ℕ Global) → IsMessage 1 message
        → Throughout configs (KeepsTei configs fixed_call 0) (bus_at_half message)
        (from_now two_fixed) }
    ensures others { (message : Vec ℕ Global) → IsMessage 1 message
        → OverhearOthers fixed_call
        (moves_along configs 0 (bus_at_half message) (from_now two_fixed)) }
    ensures in_time { (message : Vec ℕ Global) → IsMessage 1 message
        → AreInTime half_of_t200 configs fixed_call
        (moves_along configs 0 (bus_at_half message) (from_now two_fixed))
        (from_here (interface_of first_terminal two_fixed)) (new_clock 0) }
    ensures to_network { (message : Vec ℕ Global) → IsMessage 1 message
        → link_primitives fixed_call
        (after_events configs (bus_at_half message) (from_now two_fixed)).delivered
        ≡ what.Established ∷ what.Up (1 ∷ []) ∷ [] }
{}
