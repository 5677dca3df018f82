//! Worked runs by the clock. A call of a law does nothing.

ghost use Rattle.std.specs.Prelude.{◌≡◌, [], ◌∷◌, ◌+◌, ◌*◌, ℕ, Vec};
ghost use Rattle.std.specs.declared.alloc.Global.{Global};
ghost use Rattle.lapd_sides_links.specs.declared.primitive.What.TheVariants as what;
ghost use Rattle.lapd_side_events.specs.Interface.{run};
ghost use Rattle.lapd_two_side_laws.specs.Premises.{AreTimely, GiveTeiOnce};
ghost use Rattle.lapd_two_side_laws.specs.Primitives.{link_primitives};
ghost use Rattle.lapd_two_side_laws.specs.Projects.{IsReceivedByUser};
ghost use Rattle.lapd_two_side_laws.specs.Schedule.{at_first, call, configs, IsMessage};
ghost use Rattle.lapd_clock_laws.specs.Clock.{new_clock};
ghost use Rattle.lapd_clock_laws.specs.InTime.{AreInTime, Throughout};
ghost use Rattle.lapd_clock_laws.specs.Runs.{AllButInOrder, AllButInRange, AllButPrompt, AllButTakesFirst, AllButWhenDue, at_half, at_the_end, half_of_t200, hasty_at, hurried, hurried_at_first, hurried_configs, turned_back};

/// Half of T200 is reached: in a worked run frames are in transit for 500 ms, and T200 is 1 s.
///
/// The first SABME is lost, and the answer to the second arrives at the moment at which T200 is due
/// again. A message is received, and its acknowledgement is lost. The answer to the enquiry arrives
/// at the moment at which T200 is due again, and acknowledges the message.
pub fn half_of_t200_is_reached()
    ensures in_time { (message : Vec ℕ Global) → IsMessage 1 message
        → AreInTime half_of_t200 configs call (at_half message) at_first (new_clock 0) }
    ensures twice { 2 * half_of_t200 ≡ configs.user.durations.t200 }
    ensures to_user { (message : Vec ℕ Global) → IsMessage 1 message
        → link_primitives call (run configs (at_half message) at_first).delivered_to_user
        ≡ what.Confirmed ∷ what.Acknowledged 1 ∷ [] }
    ensures to_network { (message : Vec ℕ Global) → IsMessage 1 message
        → link_primitives call (run configs (at_half message) at_first).delivered_to_network
        ≡ what.Established ∷ what.Up (1 ∷ []) ∷ [] }
{}

/// Each premise on the clock is needed.
///
/// Each of these runs keeps all premises but one. In the first four the network sends a message in
/// the establishment of the second SABME, and the user takes the message of the first for it: a
/// message counts as acknowledged but never arrived.
///
/// - `half`: T200 is 999 ms, one less than twice the time of a frame, and the answer to the SABME
///   arrives 1 ms after T200 expired.
/// - `when_due`: T200 of 1 s expires after 999 ms.
/// - `takes_first`: T200 is due at the moment at which the answer arrives, and expires first.
/// - `prompt`: the SABME is in transit for 501 ms.
///
/// In the last two T200 expires while a command with P=1 is in transit:
///
/// - `in_order`: after an event at 10 s, events at 0 s and 1 s follow.
/// - `in_range`: T200 is started at the greatest moment, and is due at once.
pub fn each_clock_premise_is_needed()
    ensures twice { 2 * half_of_t200 ≡ hurried.durations.t200 + 1 }
    ensures half { (first second : Vec ℕ Global) → IsMessage 1 first → IsMessage 2 second
        → AreInTime half_of_t200 hurried_configs call (hasty_at 500 999 1000 first second)
        hurried_at_first (new_clock 0)
        × GiveTeiOnce hurried_configs call (hasty_at 500 999 1000 first second) hurried_at_first
        × (IsReceivedByUser call
        (run hurried_configs (hasty_at 500 999 1000 first second) hurried_at_first) → ⊥) }
    ensures when_due { (first second : Vec ℕ Global) → IsMessage 1 first → IsMessage 2 second
        → Throughout configs (AllButWhenDue half_of_t200) (hasty_at 500 999 1000 first second)
        at_first (new_clock 0)
        × GiveTeiOnce configs call (hasty_at 500 999 1000 first second) at_first
        × (IsReceivedByUser call (run configs (hasty_at 500 999 1000 first second) at_first)
        → ⊥) }
    ensures takes_first { (first second : Vec ℕ Global) → IsMessage 1 first → IsMessage 2 second
        → Throughout configs (AllButTakesFirst half_of_t200)
        (hasty_at 500 1000 1000 first second) at_first (new_clock 0)
        × GiveTeiOnce configs call (hasty_at 500 1000 1000 first second) at_first
        × (IsReceivedByUser call (run configs (hasty_at 500 1000 1000 first second) at_first)
        → ⊥) }
    ensures prompt { (first second : Vec ℕ Global) → IsMessage 1 first → IsMessage 2 second
        → Throughout configs (AllButPrompt half_of_t200) (hasty_at 501 1000 1001 first second)
        at_first (new_clock 0)
        × GiveTeiOnce configs call (hasty_at 501 1000 1001 first second) at_first
        × (IsReceivedByUser call (run configs (hasty_at 501 1000 1001 first second) at_first)
        → ⊥) }
    ensures in_order { Throughout configs (AllButInOrder half_of_t200) turned_back at_first
        (new_clock 0)
        × (AreTimely configs call turned_back at_first → ⊥) }
    ensures in_range { Throughout configs (AllButInRange half_of_t200) at_the_end at_first
        (new_clock 0)
        × (AreTimely configs call at_the_end at_first → ⊥) }
{}
