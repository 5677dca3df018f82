//! Laws of links that restart, by the clock. A call of a law does nothing.

ghost use Rattle.std.specs.Prelude.{◌≡◌, ◌<◌, ◌≤◌, [], ◌∷◌, ℕ, List, Option, Vec};
ghost use Rattle.std.specs.declared.alloc.Global.{Global};
ghost use Rattle.rand_pcg.specs.Lcg.{Lcg};
ghost use Rattle.lapd_table.specs.declared.link_id.LinkId.{LinkId};
ghost use Rattle.lapd_sides_links.specs.Links.{parameters_for};
ghost use Rattle.lapd_sides.specs.Network.{new_network};
ghost use Rattle.lapd_sides.specs.User.{new_user};
ghost use Rattle.lapd_side_events.specs.Interface.{Configs, new_interface};
ghost use Rattle.lapd_link_definition.specs.declared.out.Letter.TheVariants as letter;
ghost use Rattle.lapd_sides_links.specs.declared.primitive.What.TheVariants as what;
ghost use Rattle.lapd_two_side_laws.specs.Primitives.{link_primitives};
ghost use Rattle.lapd_two_side_laws.specs.Schedule.{at_first, call, configs, IsMessage};
ghost use Rattle.lapd_restart_laws.specs.Restarts.{Change, run_across};
ghost use Rattle.lapd_restart_laws.specs.SafeAcross.{IsSafeAcross};
ghost use Rattle.lapd_clock_laws.specs.Clock.{new_clock};
ghost use Rattle.lapd_clock_laws.specs.InTime.{IsLongEnough};
ghost use Rattle.lapd_clock_laws.specs.Runs.{half_of_t200};
ghost use Rattle.lapd_clock_bus_laws.specs.Across.{AreInTimeAcross, KeepTeiAsMade, OverhearOthersAcross, restarts_at_half};

/// Every link between two sides is safe across restarts that leave the octets in transit, if its
/// frames are in transit for at most half of T200.
///
/// This is `each_link_is_safe_across_restarts` of `lapd_restart_laws`, from two newly created
/// sides, whose premise on T200 follows from the clock. A restart takes no time, and the octets in transit
/// keep the moments at which they were sent. The premises on restarts are unchanged
/// (`KeepTeiAsMade`).
pub fn each_link_in_time_is_safe_across_restarts()
    ensures { (c : Configs) (id : LinkId) (longest start : ℕ) (fixed : Option ℕ)
        (known : List ℕ) (random : Lcg) → id.tei < 127 → 0 < longest
        → IsLongEnough longest c.user.durations → IsLongEnough longest c.network.durations
        → (parameters_for c.user id.sapi).k ≤ 127 → (parameters_for c.network id.sapi).k ≤ 127
        → (all : List Change) → OverhearOthersAcross id all
        → AreInTimeAcross longest c id all
        (new_interface (new_user c.user fixed random) (new_network c.network known))
        (new_clock start)
        → KeepTeiAsMade c id all
        (new_interface (new_user c.user fixed random) (new_network c.network known))
        → IsSafeAcross c id all
        (new_interface (new_user c.user fixed random) (new_network c.network known)) }
{}

/// The premises across restarts by the clock can be met, with T200 of 1 s and frames that are in
/// transit for 500 ms.
///
/// The user restarts while its message is in transit. The network receives the message, and the
/// user establishes the link anew.
pub fn restart_premises_in_time_can_be_met()
    ensures in_time { (message : Vec ℕ Global) → IsMessage 1 message
        → AreInTimeAcross half_of_t200 configs call (restarts_at_half message) at_first
        (new_clock 0) }
    ensures others { (message : Vec ℕ Global) → IsMessage 1 message
        → OverhearOthersAcross call (restarts_at_half message) }
    ensures tei { (message : Vec ℕ Global) → IsMessage 1 message
        → KeepTeiAsMade configs call (restarts_at_half message) at_first }
    ensures to_network { (message : Vec ℕ Global) → IsMessage 1 message
        → link_primitives call
        (run_across configs (restarts_at_half message) at_first).delivered_to_network
        ≡ what.Established ∷ what.Up (1 ∷ []) ∷ what.Report letter.F ∷ [] }
{}
