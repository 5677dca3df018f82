//! Laws of two sides that recover. A call of a law does nothing.

ghost use Rattle.std.specs.Prelude.{◌≡◌, ◌+◌, ◌<◌, ◌≤◌, false, ℕ, List, Some};
ghost use Rattle.lapd_frame.specs.declared.Side.TheVariants as side;
ghost use Rattle.lapd_tei.specs.Terminal.{tei_of};
ghost use Rattle.lapd_table.specs.declared.link_id.LinkId.{LinkId};
ghost use Rattle.lapd_table.specs.LinkId.{id_eq};
ghost use Rattle.lapd_sides_links.specs.declared.config.Config.{Config};
ghost use Rattle.lapd_sides_links.specs.Links.{of_sapi, parameters_for};
ghost use Rattle.lapd_sides.specs.declared.request.Request.{Request};
ghost use Rattle.lapd_sides.specs.Network.{Network};
ghost use Rattle.lapd_sides.specs.User.{User};
ghost use Rattle.lapd_side_events.specs.Interface.{Configs, Interface, Move, network_behaviour, run, user_behaviour};
ghost use Rattle.lapd_side_events.specs.SideView.{Ask, SideView};
ghost use Rattle.lapd_clock_laws.specs.Clock.{Clock};
ghost use Rattle.lapd_clock_laws.specs.InTime.{IsLongEnough};
ghost use Rattle.lapd_side_recovery_laws.specs.Agreement.{AreInAgreement};
ghost use Rattle.lapd_side_recovery_laws.specs.Counts.{most_time_from, t203s_out_of_step};
ghost use Rattle.lapd_side_recovery_laws.specs.Quiet.{AreQuiet, AsksOther, IsServed, named_by};
ghost use Rattle.lapd_side_recovery_laws.specs.Reached.{AreWithin, HaveReached, HaveFreeLinks, MeetPremises, RunAtMost, clock_of};

/// Every link of two sides recovers by itself in time, whatever happened before.
///
/// Two newly created sides have reached an interface by any moves that meet the premises of
/// `each_link_in_time_is_safe` of `lapd_clock_laws` (`HaveReached`). The link exists on both sides,
/// and neither end is own receiver busy in states 7 and 8. Frames may be in transit. The windows
/// are 1 to 127, and N200 is at most `n200`. From then on:
///
/// - The moves still meet those premises: frames are in transit for at most `longest` milliseconds,
///   and timers expire only when they are due.
/// - No octets of the link are lost, layer 3 requests nothing of it, and it stays on both sides.
///   Other links and TEI management may do anything else.
/// - At each event, and at the moment `now`, no timer of the link has been due for more than `late`
///   milliseconds. At `now` no octets of it have been in transit for more than `longest`.
///
/// If at the moment `now` more time than `most_time_from` has passed since the interface was
/// reached, the ends agree: no message is left, and both are in state 4, or both in states 7 and 8
/// with equal numbers. That time has `longest` for each move that suffices for two ends, T200 and
/// `late` for each T200, and T203 and `late` for each T203. T200 and T203 are those of the side
/// whose timers run longer. T203s count that expire while the ends are not in step.
pub fn links_of_two_sides_come_back_in_time()
    ensures { (c : Configs) (id : LinkId) (longest late t200 t203 n200 now : ℕ)
        → id.tei < 127 → 0 < longest → 1 ≤ n200
        → IsLongEnough longest c.user.durations → IsLongEnough longest c.network.durations
        → RunAtMost t200 t203 c.user.durations → RunAtMost t200 t203 c.network.durations
        → AreWithin n200 (parameters_for c.user id.sapi)
        → AreWithin n200 (parameters_for c.network id.sapi)
        → (i : Interface) (k : Clock) → HaveReached longest c id i k → HaveFreeLinks id i
        → (moves : List Move) → MeetPremises longest c id moves i k → AreQuiet late c id moves i k
        → IsServed longest late now id (run c moves i) (clock_of c moves i k)
        → k.now + most_time_from
        (record { frame = longest; t200 = t200 + late; t203 = t203 + late }) n200
        (t203s_out_of_step c id moves i) id i < now
        → AreInAgreement id (run c moves i) }
{}

/// A request for another link leaves a link unchanged, as the law of recovery requires.
///
/// On a network side another link is one with another SAPI or TEI. A user side has one TEI, so
/// there it is one with another SAPI.
pub fn requests_for_others_leave_a_link()
    ensures network { (config : Config) (id other : LinkId) (v : SideView Network)
        (request : Request) (now : ℕ) → id.tei < 127 → named_by request ≡ Some other
        → id_eq id other ≡ false
        → AsksOther (network_behaviour config) side.Network id (Ask request now) v }
    ensures user { (config : Config) (id other : LinkId) (tei : ℕ) (v : SideView User)
        (request : Request) (now : ℕ) → id.tei < 127 → named_by request ≡ Some other
        → tei_of v.now.management.terminal ≡ Some tei
        → id_eq id (of_sapi other.sapi tei) ≡ false
        → AsksOther (user_behaviour config) side.User id (Ask request now) v }
{}
