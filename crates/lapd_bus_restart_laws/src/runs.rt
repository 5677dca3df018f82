//! Worked runs of a bus with restarts. A call of a law does nothing.

ghost use Rattle.std.specs.Prelude.{◌≡◌, ℕ, [], ◌∷◌, Vec, map};
ghost use Rattle.std.specs.declared.alloc.Global.{Global};
ghost use Rattle.lapd_link_definition.specs.declared.out.Letter.TheVariants as letter;
ghost use Rattle.lapd_sides.specs.User.{User};
ghost use Rattle.lapd_sides_links.specs.declared.primitive.What.TheVariants as what;
ghost use Rattle.lapd_two_side_laws.specs.Primitives.{link_primitives, AreExpectedOfLink};
ghost use Rattle.lapd_two_side_laws.specs.Schedule.{configs, IsMessage};
ghost use Rattle.lapd_side_events.specs.SideView.{SideView};
ghost use Rattle.lapd_side_events.specs.Bus.{from_now};
ghost use Rattle.lapd_bus_laws.specs.HoldingRuns.{IsReceivedByNetwork};
ghost use Rattle.lapd_bus_laws.specs.Holdings.{IsOnlyClaimant};
ghost use Rattle.lapd_bus_laws.specs.Runs.{two_fixed, fixed_call};
ghost use Rattle.lapd_bus_restart_laws.specs.BusAcross.{after_across, ThroughoutAcross};
ghost use Rattle.lapd_bus_restart_laws.specs.HoldingsAcross.{KeepsHoldingAcross};
ghost use Rattle.lapd_bus_restart_laws.specs.RunsAcross.{across_both, alone, KeepsAllButRestarting, command_outlasts, comes_back};

/// The premises of a bus with restarts can be met.
///
/// Two terminals have fixed TEIs. The first one restarts while a message is in transit in each
/// direction, then the second one restarts with another TEI, and later the network restarts while a
/// message is in transit to it. Of the first terminal's three messages the network receives the
/// first, sent before the terminal restarted, and the second, once each. The third arrives after
/// the network restarted, which ignores it, and is dropped when the terminal establishes again. The
/// second terminal delivers nothing about the link.
pub fn restarts_on_a_bus_are_computed()
    ensures only { IsOnlyClaimant 0 0 two_fixed }
    ensures keeps { (first answer second third : Vec ℕ Global) → IsMessage 1 first
        → IsMessage 2 answer → IsMessage 3 second → IsMessage 4 third
        → ThroughoutAcross configs (KeepsHoldingAcross configs fixed_call 0)
        (across_both first answer second third) (from_now two_fixed) }
    ensures to_network { (first answer second third : Vec ℕ Global) → IsMessage 1 first
        → IsMessage 2 answer → IsMessage 3 second → IsMessage 4 third
        → link_primitives fixed_call (after_across configs
        (across_both first answer second third) (from_now two_fixed)).delivered
        ≡ what.Established ∷ what.Up (1 ∷ []) ∷ what.Report letter.F ∷ what.Dropped 1
        ∷ what.Established ∷ what.Up (3 ∷ []) ∷ what.Established ∷ [] }
    ensures to_terminals { (first answer second third : Vec ℕ Global) → IsMessage 1 first
        → IsMessage 2 answer → IsMessage 3 second → IsMessage 4 third
        → map (λ (t : SideView User). link_primitives fixed_call t.delivered)
        (after_across configs (across_both first answer second third)
        (from_now two_fixed)).terminals
        ≡ (what.Confirmed ∷ what.Dropped 1 ∷ what.Confirmed ∷ what.Acknowledged 1
        ∷ what.Dropped 1 ∷ what.Confirmed ∷ []) ∷ [] ∷ [] }
{}

/// The premises on restarts can't be dropped. Each run has one terminal and one restart, and keeps
/// all other premises.
///
/// - `command`: the network's SABME is in transit when the network restarts. The terminal answers
///   it, and the network reports an unsolicited UA (C).
/// - `link`: the terminal gave up its TEI, and restarts with it, so the link exists again. Its
///   second message counts as the first, which was never received, as acknowledged.
pub fn each_restart_premise_is_needed_on_a_bus()
    ensures command { KeepsAllButRestarting fixed_call 0 command_outlasts alone
        × (AreExpectedOfLink (link_primitives fixed_call
        (after_across configs command_outlasts alone).delivered) → ⊥) }
    ensures link { (first second : Vec ℕ Global) → IsMessage 1 first → IsMessage 2 second
        → KeepsAllButRestarting fixed_call 0 (comes_back first second) alone
        × (IsReceivedByNetwork fixed_call 0
        (after_across configs (comes_back first second) alone) → ⊥) }
{}
