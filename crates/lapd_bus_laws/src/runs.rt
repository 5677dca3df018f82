//! Worked runs of a bus. A call of a law does nothing.

ghost use Rattle.std.specs.Prelude.{◌≡◌, ℕ, List, [], ◌∷◌, Vec, map, slice_get, Some, true, false};
ghost use Rattle.std.specs.declared.alloc.Global.{Global};
ghost use Rattle.lapd_sides.specs.User.{User};
ghost use Rattle.lapd_sides_links.specs.declared.primitive.What.TheVariants as what;
ghost use Rattle.lapd_two_side_laws.specs.Primitives.{link_primitives, AreExpectedOfLink};
ghost use Rattle.lapd_two_side_laws.specs.Schedule.{configs, call, IsMessage};
ghost use Rattle.lapd_side_events.specs.SideView.{SideView};
ghost use Rattle.lapd_bus_laws.specs.Assignments.{holds, IsSingle};
ghost use Rattle.lapd_side_events.specs.Bus.{Bus, BusEvent, bus_step, from_now, after_events};
ghost use Rattle.lapd_bus_laws.specs.HoldingRuns.{IsReceivedByTerminal, IsReceivedByNetwork, KeepsAllButT200, KeepsAllButAssigning, KeepsAllButRequesting, KeepsAllButLeaving, joined, replaced, restarted, from_first, hasty, regained, assigns_second, with_old_sabme, answers_old, from_twins, taken_twice};
ghost use Rattle.lapd_bus_laws.specs.Holdings.{KeepsTeisApart, IsReached, Assigns, IsOnlyClaimant, IsClear, KeepsHolding};
ghost use Rattle.lapd_bus_laws.specs.Links.{Throughout, IsNobodyElses};
ghost use Rattle.lapd_bus_laws.specs.Runs.{two_fixed, fixed_call, fixed_talks, two_terminals, second_call, assigns_first, requested_bus, from_assignment, talking, moved, KeepsAllButAssignment, KeepsAllButReference, KeepsAllButJoining, assigned_while_held, assigned_in_transit, twins, same_reference, answered_before, joins_with_held, same_fixed};

/// The premises of a bus can be met.
///
/// In the first run two terminals request a TEI, come up and talk. The network assigns TEI 64 to
/// the first: then all premises of its holding are met, and the messages of both terminals are
/// received and acknowledged. In the second run the network removes the TEI of the first terminal,
/// and the second obtains the same TEI. In the third run both terminals have fixed TEIs, and one
/// of them talks.
pub fn bus_premises_can_be_met()
    ensures reached { IsReached configs requested_bus }
    ensures apart { KeepsTeisApart configs assigns_first requested_bus }
    ensures assigns { Assigns configs 64 assigns_first requested_bus }
    ensures only { IsOnlyClaimant 64 0 (bus_step configs assigns_first requested_bus) }
    ensures clear { IsClear call 0 (bus_step configs assigns_first requested_bus) }
    ensures keeps { (message other : Vec ℕ Global) → IsMessage 1 message → IsMessage 2 other
        → Throughout configs (KeepsHolding configs call 0) (talking message other)
        from_assignment }
    ensures to_network { (message other : Vec ℕ Global) → IsMessage 1 message → IsMessage 2 other
        → link_primitives call (after_events configs (talking message other)
        from_assignment).delivered ≡ what.Established ∷ what.Up (1 ∷ []) ∷ [] }
    ensures second_to_network { (message other : Vec ℕ Global) → IsMessage 1 message
        → IsMessage 2 other
        → link_primitives second_call (after_events configs (talking message other)
        from_assignment).delivered ≡ what.Established ∷ what.Up (2 ∷ []) ∷ [] }
    ensures to_terminals { (message other : Vec ℕ Global) → IsMessage 1 message
        → IsMessage 2 other
        → map (λ (t : SideView User). link_primitives call t.delivered)
        (after_events configs (talking message other) from_assignment).terminals
        ≡ (what.Confirmed ∷ what.Acknowledged 1 ∷ []) ∷ [] ∷ [] }
    ensures moved_apart { Throughout configs (KeepsTeisApart configs) moved two_terminals }
    ensures moved_holders { map (holds 64) (after_events configs moved two_terminals).terminals
        ≡ false ∷ true ∷ [] }
    ensures fixed_only { IsOnlyClaimant 0 0 two_fixed }
    ensures fixed_keeps { (message : Vec ℕ Global) → IsMessage 1 message
        → Throughout configs (KeepsHolding configs fixed_call 0) (fixed_talks message)
        (from_now two_fixed) }
    ensures fixed_to_network { (message : Vec ℕ Global) → IsMessage 1 message
        → link_primitives fixed_call
        (after_events configs (fixed_talks message) (from_now two_fixed)).delivered
        ≡ what.Established ∷ what.Up (1 ∷ []) ∷ [] }
{}

/// No premise on TEIs can be dropped. Each run keeps all others, and ends with two terminals that
/// hold the same TEI.
///
/// - `while_held`: the network removes a TEI, and both removals are lost at the terminal that holds
///   it. The network assigns it to another terminal.
/// - `in_transit`: the same, while the first assignment is still in transit.
/// - `references`: two terminals request by the same reference, and both take the assignment.
/// - `answered`: a terminal requests by a reference of which an assignment is in transit to it.
/// - `joining`: a terminal joins with a fixed TEI that another one holds.
/// - `fixed`: two terminals begin with the same fixed TEI.
pub fn each_bus_premise_is_needed()
    ensures while_held { KeepsAllButAssignment assigned_while_held two_terminals
        × (IsSingle (after_events configs assigned_while_held two_terminals) → ⊥) }
    ensures in_transit { KeepsAllButAssignment assigned_in_transit two_terminals
        × (IsSingle (after_events configs assigned_in_transit two_terminals) → ⊥) }
    ensures references { KeepsAllButReference same_reference twins
        × (IsSingle (after_events configs same_reference twins) → ⊥) }
    ensures answered { KeepsAllButReference answered_before twins
        × (IsSingle (after_events configs answered_before twins) → ⊥) }
    ensures joining { KeepsAllButJoining joins_with_held two_terminals
        × (IsSingle (after_events configs joins_with_held two_terminals) → ⊥) }
    ensures fixed { IsSingle same_fixed → ⊥ }
{}

/// No premise of a holding can be dropped, but that no octets of the link are in transit to the
/// terminal: no run is known that needs it. Each run keeps all others.
///
/// - `t200`: T200 of the link expires while the answer to a SABME is in transit. A message counts
///   as acknowledged but never arrived.
/// - `again`: the TEI is removed and assigned again. A message counts as acknowledged but never
///   arrived.
/// - `line`: a SABME of the TEI's former terminal is in transit to the network. The new one
///   receives its answer, and reports error C.
/// - `references`: a second terminal requests by the reference of the assignment, and takes it. It
///   receives the answer to the first one's SABME.
/// - `joining`: another terminal joins with the TEI as a fixed one, and receives that answer.
/// - `replacing`, `restarting`: the terminal is replaced, or the network restarts, after a message
///   is lost. The next message is acknowledged, and counts as the lost one.
pub fn each_holding_premise_is_needed()
    ensures t200 { (first second : Vec ℕ Global) → IsMessage 1 first → IsMessage 2 second
        → KeepsAllButT200 call 0 (hasty first second) from_first
        × (IsReceivedByTerminal call 0 (after_events configs (hasty first second) from_first)
        → ⊥) }
    ensures again { (first second : Vec ℕ Global) → IsMessage 1 first → IsMessage 2 second
        → KeepsAllButAssigning call 0 (regained first second) from_first
        × (IsReceivedByNetwork call 0 (after_events configs (regained first second) from_first)
        → ⊥) }
    ensures line_reached { IsReached configs with_old_sabme }
    ensures line_apart { KeepsTeisApart configs assigns_second with_old_sabme }
    ensures line_assigns { Assigns configs 64 assigns_second with_old_sabme }
    ensures line_only { IsOnlyClaimant 64 1 (bus_step configs assigns_second with_old_sabme) }
    ensures line_keeps { Throughout configs (KeepsHolding configs call 1) answers_old
        (from_now (bus_step configs assigns_second with_old_sabme)) }
    ensures line { (t : SideView User) → slice_get (after_events configs answers_old
        (from_now (bus_step configs assigns_second with_old_sabme))).terminals 1 ≡ Some t
        → AreExpectedOfLink (link_primitives call t.delivered) → ⊥ }
    ensures references { KeepsAllButRequesting call 0 taken_twice from_twins
        × (IsNobodyElses call 0 (after_events configs taken_twice from_twins) → ⊥) }
    ensures joining { KeepsAllButLeaving call 0 joined from_first
        × (IsNobodyElses call 0 (after_events configs joined from_first) → ⊥) }
    ensures replacing { (first second : Vec ℕ Global) → IsMessage 1 first → IsMessage 2 second
        → KeepsAllButLeaving call 0 (replaced first second) from_first
        × (IsReceivedByNetwork call 0 (after_events configs (replaced first second) from_first)
        → ⊥) }
    ensures restarting { (first second : Vec ℕ Global) → IsMessage 1 first → IsMessage 2 second
        → KeepsAllButLeaving call 0 (restarted first second) from_first
        × (IsReceivedByTerminal call 0 (after_events configs (restarted first second) from_first)
        → ⊥) }
{}
