//! Laws of a check of a TEI. A call of a law does nothing.

ghost use Rattle.std.specs.Prelude.{◌≡◌, ◌<◌, ℕ, List, ◌∷◌, [], map, true, false};
ghost use Rattle.lapd_sides.specs.User.{User};
ghost use Rattle.lapd_side_events.specs.Interface.{Configs};
ghost use Rattle.lapd_two_side_laws.specs.Schedule.{configs};
ghost use Rattle.lapd_side_events.specs.SideView.{SideView};
ghost use Rattle.lapd_bus_laws.specs.Assignments.{holds, IsSingle, IsHeldOnce};
ghost use Rattle.lapd_side_events.specs.Bus.{Bus, BusEvent, NewTerminal, new_bus, after_events};
ghost use Rattle.lapd_bus_laws.specs.Healing.{Heals, HasNoManagementLink, IsChecked, IsAtRest, ReferencesDiffer, HoldTeis};
ghost use Rattle.lapd_bus_laws.specs.HealingRuns.{doubled, unknown, healed, assigned_anew, IsNotHealed, HealsButDelivery, HealsButCheck, HealsButJoining, request_lost, too_early, given_up, joins_during, same_then, begun, before_removals, before_rest};
ghost use Rattle.lapd_bus_laws.specs.Holdings.{AreApart, IsOfBus, IsReached};
ghost use Rattle.lapd_bus_laws.specs.Links.{Throughout};
ghost use Rattle.lapd_bus_laws.specs.Runs.{twins};

/// One check of a TEI heals it, whatever the bus holds before: after the check at most one terminal
/// holds the TEI, and later assignments keep this so.
///
/// The bus may begin with a TEI that several terminals hold, with TEIs that the network does not
/// know, and with any octets in transit. No link of the network has the address of TEI management
/// (`no_management`: no bus that is reached from a new one has such a link). From then on, in each
/// event (`Heals`):
///
/// - No TEI message that names the TEI is lost. Other octets may be.
/// - While the network checks the TEI, T201 expires only after all terminals took the check
///   request, and the network all responses. The network does not restart.
/// - A terminal joins with a fixed TEI only if no other terminal holds it, and no assignment of it
///   is in transit to another terminal.
///
/// In these events a check of the TEI begins and is over after some of them: the network no longer
/// checks the TEI, and no Identity remove of it is in transit (`IsChecked`).
///
/// `heals`: at each later moment no two terminals hold the TEI, if no assignment of it is in
/// transit and the last references of terminals differ. `all`: if each TEI is checked, no two
/// terminals hold the same TEI. `apart`: if besides no assignment is in transit, all that is proved
/// of a bus from the start, as [`every_holding_is_safe`], holds again from then on (`IsReached`).
///
/// Meanwhile TEIs may be assigned, this one too, removed and given up, and other TEIs checked. A
/// terminal that holds a TEI gives it up if it takes an assignment of it to another one (Q.921
/// 5.3.4), so the network need not know the TEIs in use.
///
/// TEI messages to all terminals (TEI 127) name no TEI: they may be sent meanwhile, and lost. A
/// response to such a check request names the TEI of its terminal, and counts as any other.
///
/// [`every_holding_is_safe`]: crate::every_holding_is_safe
pub fn each_check_heals_its_tei()
    ensures heals { (c : Configs) (tei : ℕ) (b : Bus) (events : List BusEvent) → tei < 127
        → HasNoManagementLink b.network → Throughout c (Heals tei) events b
        → IsChecked c tei events b → IsAtRest tei (after_events c events b)
        → ReferencesDiffer (after_events c events b)
        → IsHeldOnce tei (after_events c events b) }
    ensures all { (c : Configs) (b : Bus) (events : List BusEvent)
        → HasNoManagementLink b.network
        → ((tei : ℕ) → tei < 127 → Throughout c (Heals tei) events b
        × IsChecked c tei events b × IsAtRest tei (after_events c events b))
        → ReferencesDiffer (after_events c events b) → HoldTeis (after_events c events b)
        → IsSingle (after_events c events b) }
    ensures apart { (c : Configs) (b : Bus) (events : List BusEvent)
        → HasNoManagementLink b.network
        → ((tei : ℕ) → tei < 127 → Throughout c (Heals tei) events b
        × IsChecked c tei events b)
        → ((tei : ℕ) → IsAtRest tei (after_events c events b))
        → ReferencesDiffer (after_events c events b) → HoldTeis (after_events c events b)
        → AreApart (after_events c events b) }
    ensures no_management { (c : Configs) (known : List ℕ) (terminals : List NewTerminal)
        (events : List BusEvent)
        → Throughout c (λ (e : BusEvent) (b : Bus). IsOfBus e) events
        (new_bus c known terminals)
        → HasNoManagementLink (after_events c events (new_bus c known terminals)).network }
{}

/// The premises of a check can be met.
///
/// In the first run two terminals hold TEI 64, which the network does not know. Both respond to the
/// check, and both lose the TEI. Then the first one requests a TEI, and obtains 64. From then on
/// all that is proved of a bus holds (`again`). In the second run one terminal holds TEI 64, and
/// the network does not know it. The check finds it in use. Then the network assigns it to another
/// terminal, and the first one gives it up.
pub fn healing_premises_can_be_met()
    ensures doubled { map (holds 64) doubled.terminals ≡ true ∷ true ∷ [] }
    ensures healed { Throughout configs (Heals 64) healed doubled
        × IsChecked configs 64 healed doubled
        × IsAtRest 64 (after_events configs healed doubled)
        × ReferencesDiffer (after_events configs healed doubled)
        × (map (holds 64) (after_events configs healed doubled).terminals
        ≡ true ∷ false ∷ []) }
    ensures again { IsReached configs (after_events configs healed doubled) }
    ensures anew { Throughout configs (Heals 64) assigned_anew unknown
        × IsChecked configs 64 assigned_anew unknown
        × IsAtRest 64 (after_events configs assigned_anew unknown)
        × ReferencesDiffer (after_events configs assigned_anew unknown)
        × (map (holds 64) (after_events configs assigned_anew unknown).terminals
        ≡ false ∷ true ∷ []) }
{}

/// No premise of a check can be dropped, but that no link of the network has the address of TEI
/// management: no bus that is reached has one. Each run keeps all others, and ends with two
/// terminals that hold TEI 64.
///
/// - `delivery`: the check request is lost at a terminal that holds the TEI. One response counts.
/// - `time`: T201 expires while a response is in transit. One response counts.
/// - `restart`: the network restarts during the check.
/// - `joining`: a terminal joins with the TEI after its predecessor took the check request.
/// - `references`: after the check, two terminals request by the same reference and take the same
///   assignment.
/// - `in_progress`, `removals`: the check is not over, or the removals are in transit.
/// - `rest`: an assignment is in transit to the terminal that gives the TEI up by it.
pub fn each_healing_premise_is_needed()
    ensures delivery { HealsButDelivery request_lost doubled × IsNotHealed request_lost doubled }
    ensures time { HealsButCheck too_early doubled × IsNotHealed too_early doubled }
    ensures restart { HealsButCheck given_up doubled × IsNotHealed given_up doubled }
    ensures joining { HealsButJoining joins_during unknown × IsNotHealed joins_during unknown }
    ensures references { Throughout configs (Heals 64) same_then twins
        × IsChecked configs 64 same_then twins
        × IsAtRest 64 (after_events configs same_then twins)
        × (IsHeldOnce 64 (after_events configs same_then twins) → ⊥) }
    ensures in_progress { Throughout configs (Heals 64) begun doubled
        × IsAtRest 64 (after_events configs begun doubled)
        × ReferencesDiffer (after_events configs begun doubled)
        × (IsHeldOnce 64 (after_events configs begun doubled) → ⊥) }
    ensures removals { Throughout configs (Heals 64) before_removals doubled
        × IsAtRest 64 (after_events configs before_removals doubled)
        × ReferencesDiffer (after_events configs before_removals doubled)
        × (IsHeldOnce 64 (after_events configs before_removals doubled) → ⊥) }
    ensures rest { Throughout configs (Heals 64) before_rest unknown
        × IsChecked configs 64 before_rest unknown
        × ReferencesDiffer (after_events configs before_rest unknown)
        × (IsHeldOnce 64 (after_events configs before_rest unknown) → ⊥) }
{}
