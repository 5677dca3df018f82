//! Laws of the invariant over every run. They are proofs; their functions do nothing.

ghost use Rattle.std.specs.Prelude.{◌≡◌, ◌≤◌, ℕ, true, List, ◌++◌, map, Ok, Err};
ghost use Rattle.lapd_frame.specs.declared.Side.{Side};
ghost use Rattle.lapd_frame.specs.declared.Side.TheVariants as side;
ghost use Rattle.lapd_mod128.specs.Counting.{Reading, Whole, Tagged};
ghost use Rattle.lapd_link_definition.specs.Parameters.{Parameters};
ghost use Rattle.lapd_pair_laws.specs.Consistent.{IsConsistentWorld};
ghost use Rattle.lapd_pair_laws.specs.Move.{Expire200, Move, View, ViewStep, NotYet};
ghost use Rattle.lapd_pair_laws.specs.Safe.{AreSafe};
ghost use Rattle.lapd_pair_laws.specs.Schedule as worked;
ghost use Rattle.lapd_pair_laws.specs.Schedule.{figures, of_user};
ghost use Rattle.lapd_pair_laws.specs.Tagged.{tag_world, tag_outcome, AreFirstWithin, AreNearMoves};
ghost use Rattle.lapd_pair_laws.specs.World.{World, Happened, new_world, world_after, happens, run, outcomes};
ghost use Rattle.lapd_pair_laws.specs.Eager.{awaited_in, expires_eagerly, happens_eagerly, run_eagerly, outcomes_eagerly, passed_over, second_enquiry, user_at_end, network_at_end};
ghost use Rattle.lapd_pair_laws.specs.Exchanges.{AskOneAtATime};
ghost use Rattle.lapd_pair_laws.specs.Fresh.{AllAreFresh};
ghost use Rattle.lapd_pair_laws.specs.Invariant.{IsInvariant};
ghost use Rattle.lapd_pair_laws.specs.Premises.{run_freely, hasty, stale, overtaken};
ghost use Rattle.lapd_pair_laws.specs.Reports.{ReportsExpected, AllReportsExpected, AreFirstDue};

/// After every run, a side has received only messages that the other side submitted, in order and
/// once each. A run is a list of moves from a new world, on whole numbers or on tags, with windows
/// of up to 127 and either `Recovery`. Within one establishment no message is skipped, and every
/// message that a sender counts as acknowledged was received. A move reports only F, G, H and I.
/// The next frame to be delivered has a valid N(R), and no response arrives unsolicited.
pub fn every_run_is_safe()
    ensures safe { (r : Reading) (user network : Parameters) → user.k ≤ 127 → network.k ≤ 127
        → (moves : List Move) → AreSafe (run r moves (new_world user network)) }
    ensures reports { (r : Reading) (user network : Parameters) → user.k ≤ 127 → network.k ≤ 127
        → (moves : List Move) → AllReportsExpected (outcomes r moves (new_world user network)) }
    ensures due { (r : Reading) (user network : Parameters) → user.k ≤ 127 → network.k ≤ 127
        → (moves : List Move) → AreFirstDue r (run r moves (new_world user network)) }
{}

/// No message of an earlier establishment arrives after an establishment is confirmed. After every
/// run, each I frame in transit to an end in state 7 or 8 was last sent in its sender's present
/// establishment. This holds on whole numbers and on tags, with windows of up to 127.
pub fn no_old_message_arrives()
    ensures { (r : Reading) (user network : Parameters) → user.k ≤ 127 → network.k ≤ 127
        → (moves : List Move) → AllAreFresh (run r moves (new_world user network)) }
{}

/// A side has at most one SABME or DISC outstanding, so it never takes a response for the answer to
/// another command (Q.921 5.5.1, 5.5.3). After every run, at most one of a side's SABME and DISC
/// commands and the responses to them is in transit, and in states 4, 7 and 8 none. This holds on
/// whole numbers and on tags, with windows of up to 127.
pub fn each_side_asks_one_at_a_time()
    ensures { (r : Reading) (user network : Parameters) → user.k ≤ 127 → network.k ≤ 127
        → (moves : List Move) → AskOneAtATime (run r moves (new_world user network)) }
{}

/// Every run is safe also if T200 waits only for the frames that it guards and their answers. In
/// the moves above, T200 does not expire while any command with P=1 of its side, or any response
/// with F=1 to it, is in transit. Here only the frames that T200 guards and their answers delay it:
/// in states 5 and 6 SABME, DISC, UA and DM; in state 8 polling commands and supervisory responses
/// with F=1; in state 7 none.
pub fn every_eager_run_is_safe()
    ensures safe { (r : Reading) (user network : Parameters) → user.k ≤ 127 → network.k ≤ 127
        → (moves : List Move) → AreSafe (run_eagerly r moves (new_world user network)) }
    ensures reports { (r : Reading) (user network : Parameters) → user.k ≤ 127 → network.k ≤ 127
        → (moves : List Move) → AllReportsExpected
        (outcomes_eagerly r moves (new_world user network)) }
    ensures due { (r : Reading) (user network : Parameters) → user.k ≤ 127 → network.k ≤ 127
        → (moves : List Move) → AreFirstDue r (run_eagerly r moves (new_world user network)) }
    ensures fresh { (r : Reading) (user network : Parameters) → user.k ≤ 127 → network.k ≤ 127
        → (moves : List Move) → AllAreFresh (run_eagerly r moves (new_world user network)) }
{}

/// Every admitted move is an eager move with the same outcome. An eager T200 expires only if it
/// runs and no frame that it waits for is in transit.
pub fn eager_moves_are_admitted()
    ensures same { (r : Reading) (move : Move) (w : World) (happened : Happened)
        → happens r move w ≡ Ok happened → happens_eagerly r move w ≡ Ok happened }
    ensures only { (r : Reading) (side : Side) (v : View) (acted : ViewStep)
        → expires_eagerly r side v ≡ Ok acted → (v.station.end.t200 ≡ true) × (awaited_in v ≡ 0) }
{}

/// In a worked schedule T200 expires as an eager move that the stricter premise refuses. In this
/// schedule an enquiry is in transit that nobody will answer, and the next message is lost. T200
/// guards that message, but may not expire because of the enquiry. Eagerly it expires: the message
/// is retransmitted, received once and acknowledged.
pub fn eager_schedule_is_computed()
    ensures refused { (r : Reading) → happens r (of_user Expire200) (run r passed_over worked.start)
        ≡ Err (NotYet side.Network 0) }
    ensures user { (r : Reading)
        → figures (run_eagerly r (passed_over ++ second_enquiry) worked.start).user ≡ user_at_end }
    ensures network { (r : Reading)
        → figures (run_eagerly r (passed_over ++ second_enquiry) worked.start).network
        ≡ network_at_end }
{}

/// A run on tags equals the run on whole numbers with each number replaced by its tag, in the
/// outcome of each move and in the final world. So with windows of up to 127, tags decide as whole
/// numbers do (Q.921 3.5.2, 5.9.5).
pub fn every_run_is_the_same_on_tags()
    ensures worlds { (user network : Parameters) → user.k ≤ 127 → network.k ≤ 127
        → (moves : List Move)
        → run Tagged moves (new_world user network)
        ≡ tag_world (run Whole moves (new_world user network)) }
    ensures outcomes { (user network : Parameters) → user.k ≤ 127 → network.k ≤ 127
        → (moves : List Move)
        → outcomes Tagged moves (new_world user network)
        ≡ map tag_outcome (outcomes Whole moves (new_world user network)) }
{}

/// A new world satisfies the invariant, and each move and every run keep it.
pub fn the_invariant_is_preserved()
    ensures begins { (user network : Parameters) → user.k ≤ 127 → network.k ≤ 127
        → IsInvariant (new_world user network) }
    ensures stays { (move : Move) (w : World) → IsInvariant w
        → IsInvariant (world_after w (happens Whole move w)) }
    ensures runs { (moves : List Move) (w : World) → IsInvariant w
        → IsInvariant (run Whole moves w) }
{}

/// The invariant implies safe histories, only the reports F to I, and no old message. The histories
/// are safe, a move reports only F, G, H and I, and no old message arrives. The first frame in
/// transit to a side carries numbers near the side's own, so each of a list of moves has the same
/// effect on tags as on whole numbers.
pub fn the_invariant_gives_safe()
    ensures safe { (w : World) → IsInvariant w → AreSafe w }
    ensures reports { (move : Move) (w : World) → IsInvariant w
        → ReportsExpected (happens Whole move w) }
    ensures due { (w : World) → IsInvariant w → AreFirstDue Whole w }
    ensures fresh { (w : World) → IsInvariant w → AllAreFresh w }
    ensures within { (w : World) → IsInvariant w → AreFirstWithin w }
    ensures near { (moves : List Move) (w : World) → IsInvariant w → IsConsistentWorld Whole w
        → AreNearMoves moves w }
{}

/// Each premise on the moves is needed: without it, a run of about ten moves ends in histories that
/// are not safe. `t200`: T200 expires while the answer it waits for is in transit. `restart`:
/// frames in transit survive a restart. `order`: one frame overtakes another.
pub fn each_premise_is_needed()
    ensures t200 { AreSafe (run_freely hasty worked.start) → ⊥ }
    ensures restart { AreSafe (run_freely stale worked.start) → ⊥ }
    ensures order { AreSafe (run_freely overtaken worked.start) → ⊥ }
{}
