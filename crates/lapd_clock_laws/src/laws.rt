//! Laws of links by the clock. A call of a law does nothing.

ghost use Rattle.std.specs.Prelude.{◌≡◌, ◌<◌, ◌≤◌, ℕ, List, Option, Some};
ghost use Rattle.rand_pcg.specs.Lcg.{Lcg};
ghost use Rattle.lapd_timers.specs.Durations.{Lengths};
ghost use Rattle.lapd_link_definition.specs.Parameters.{Parameters};
ghost use Rattle.lapd_table.specs.declared.link_id.LinkId.{LinkId};
ghost use Rattle.lapd_sides_links.specs.declared.running_timer.RunningTimer.{RunningTimer};
ghost use Rattle.lapd_sides_links.specs.Expiries.{IsDue};
ghost use Rattle.lapd_sides_links.specs.Links.{Served, new_linked, parameters_for};
ghost use Rattle.lapd_sides.specs.Network.{new_network};
ghost use Rattle.lapd_sides.specs.User.{new_user};
ghost use Rattle.lapd_side_events.specs.Interface.{Configs, Move, Interface, new_interface, from_here};
ghost use Rattle.lapd_side_events.specs.SideView.{Expire};
ghost use Rattle.lapd_two_side_laws.specs.Premises.{AreTimely, GiveTeiOnce, LeaveTeiTaken};
ghost use Rattle.lapd_two_side_laws.specs.Projects.{IsSafeAt};
ghost use Rattle.lapd_clock_laws.specs.Clock.{Clock, Shows, new_clock};
ghost use Rattle.lapd_clock_laws.specs.InTime.{AreInTime, HasLongT200, IsClear, IsLongEnough, IsWhenDue, OverhearOthers};

/// If each frame of a link is in transit for at most half of T200, T200 of the link never expires
/// while a command with P=1 or the answer to it is in transit, with losses or without.
///
/// The premises are about one clock that both sides share, in milliseconds (`IsInTime`):
///
/// - The moments of events do not decrease, and end before the greatest moment of a timer.
/// - At each event the link's octets have been in transit for at most `longest`.
/// - A side takes the link's octets that have arrived before it expires a timer at the same moment.
/// - A timer of the link expires only when it is due.
/// - T200 is at least twice `longest`, at both sides, and `longest` is above 0.
///
/// Nothing is assumed of TEIs, of other links, of losses or of the lateness of timers. The network
/// side of a bus overhears no octets of the link from other terminals.
///
/// - `as_made`: from two newly created sides.
/// - `from_here`: from any moment at which no octets of the link are in transit, whatever the state
///   of the link is.
pub fn every_run_in_time_is_timely()
    ensures as_made { (c : Configs) (id : LinkId) (longest start : ℕ) (fixed : Option ℕ)
        (known : List ℕ) (random : Lcg) → id.tei < 127 → 0 < longest
        → IsLongEnough longest c.user.durations → IsLongEnough longest c.network.durations
        → (moves : List Move) → OverhearOthers id moves
        → AreInTime longest c id moves
        (new_interface (new_user c.user fixed random) (new_network c.network known))
        (new_clock start)
        → AreTimely c id moves
        (new_interface (new_user c.user fixed random) (new_network c.network known)) }
    ensures from_here { (c : Configs) (id : LinkId) (longest : ℕ) (i : Interface) (k : Clock)
        → id.tei < 127 → 0 < longest
        → IsLongEnough longest c.user.durations → IsLongEnough longest c.network.durations
        → Shows k i → IsClear id i → HasLongT200 longest (i.user.served.links id)
        → HasLongT200 longest (i.network.served.links id)
        → (moves : List Move) → OverhearOthers id moves → AreInTime longest c id moves i k
        → AreTimely c id moves i }
{}

/// Every link between two sides is safe after every run in which its frames are in transit for at
/// most half of T200, and its TEI is assigned once.
///
/// This is `each_link_is_safe` of `lapd_two_side_laws`, whose premise on T200 follows from the
/// clock ([`every_run_in_time_is_timely`]).
///
/// - `as_made`: any link of two newly created sides. Its TEI is not assigned again after it was
///   removed.
/// - `from_here`: a link that is new on both sides at some moment, while no octets for it are in
///   transit. Primitives and messages count from that moment on.
pub fn each_link_in_time_is_safe()
    ensures as_made { (c : Configs) (id : LinkId) (longest start : ℕ) (fixed : Option ℕ)
        (known : List ℕ) (random : Lcg) → id.tei < 127 → 0 < longest
        → IsLongEnough longest c.user.durations → IsLongEnough longest c.network.durations
        → (parameters_for c.user id.sapi).k ≤ 127 → (parameters_for c.network id.sapi).k ≤ 127
        → (moves : List Move) → OverhearOthers id moves
        → AreInTime longest c id moves
        (new_interface (new_user c.user fixed random) (new_network c.network known))
        (new_clock start)
        → LeaveTeiTaken c id moves
        (new_interface (new_user c.user fixed random) (new_network c.network known))
        → IsSafeAt c id moves
        (new_interface (new_user c.user fixed random) (new_network c.network known)) }
    ensures from_here { (c : Configs) (id : LinkId) (longest : ℕ) (i : Interface) (k : Clock)
        (p q : Parameters) (m n : Lengths) → id.tei < 127 → 0 < longest
        → IsLongEnough longest c.user.durations → IsLongEnough longest c.network.durations
        → IsLongEnough longest m → IsLongEnough longest n → p.k ≤ 127 → q.k ≤ 127
        → i.user.served.links id ≡ Some (new_linked p m)
        → i.network.served.links id ≡ Some (new_linked q n)
        → Shows k i → IsClear id i
        → (moves : List Move) → OverhearOthers id moves
        → AreInTime longest c id moves (from_here i) k → GiveTeiOnce c id moves (from_here i)
        → IsSafeAt c id moves (from_here i) }
{}

/// The timer that `tick` of a side expires is due, so the premise on timers is met by code:
/// `calls_are_events` of `lapd_side_events` says that `tick` expires the timer that is due.
pub fn ticks_are_when_due()
    ensures { (id : LinkId) (s : Served) (now : ℕ) (e : RunningTimer) → IsDue now s (Some e)
        → IsWhenDue id (Expire e.timer e.of now) s }
{}
