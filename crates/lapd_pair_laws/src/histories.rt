//! Laws that try the definitions on worked examples. They are proofs; their functions do nothing.

ghost use Rattle.std.specs.Prelude.{◌≡◌, ◌↔◌, ◌≤◌, ℕ, true, false, List, [], ◌∷◌, ◌++◌, map, length, None, Ok, Err};
ghost use Rattle.lapd_frame.specs.declared.Side.TheVariants as side;
ghost use Rattle.lapd_frame.specs.declared.Role.TheVariants.{Command, Answer};
ghost use Rattle.lapd_frame.specs.declared.Control.TheVariants.{I, Rr, Rnr, Disc};
ghost use Rattle.lapd_mod128.specs.Counting.{Reading, Whole, Tagged};
ghost use Rattle.lapd_link_definition.specs.declared.event.LinkFault.TheVariants.{NotEstablished};
ghost use Rattle.lapd_link_definition.specs.declared.out.Out.{Out};
ghost use Rattle.lapd_link_definition.specs.Counts.{ups};
ghost use Rattle.lapd_link_definition.specs.End.{End, StepState};
ghost use Rattle.lapd_link_definition.specs.Input.{Input};
ghost use Rattle.lapd_link_definition.specs.SentFrames.{AreShort};
ghost use Rattle.lapd_link_definition.specs.Table.{step};
ghost use Rattle.lapd_frame.specs.Frame.{n201};
ghost use Rattle.lapd_link_definition.specs.Parameters.{Parameters};
ghost use Rattle.lapd_pair_laws.specs.Histories.{Occasion, Story, unit_frame, after_output};
ghost use Rattle.lapd_pair_laws.specs.Consistent.{AreSettled, IsConsistent, AreProper, IsConsistentWorld, AreInOrder, is_frame};
ghost use Rattle.lapd_pair_laws.specs.Line.{without_info};
ghost use Rattle.lapd_pair_laws.specs.Move.{Move, Station, PairEvent, Give, Release, Deliver, Lose, Expire200, Expire203, Busy, UnitData, NothingThere, NotRunning, NotYet, Refused};
ghost use Rattle.lapd_pair_laws.specs.Safe.{IsSafe, AreSafe};
ghost use Rattle.lapd_pair_laws.specs.Schedule.{figures, of_user, of_network, start, establishing, losing, schedule, restarting, user_in_recovery, user_at_end, network_at_end, user_restarted, receipt, one_message, two_messages, three_messages, in_first, in_first_but};
ghost use Rattle.lapd_pair_laws.specs.Tagged.{tag_world, tag_outcome, IsNearMove, AreFirstWithin, AreNearMoves};
ghost use Rattle.lapd_pair_laws.specs.World.{World, Happened, swapped, happens, world_after, left, new_world, run, outcomes};

/// A worked schedule ends as Q.921 requires, on whole numbers and on tags. A message is lost, T200
/// expires, the enquiry is answered, and the message is retransmitted. A second message is lost,
/// and dropped by a second establishment; a third is received. The histories and state variables of
/// both ends are the expected ones, and the line is empty. A restart drops waiting messages and
/// frames in transit. Unit data passes in state 4.
pub fn schedule_is_computed()
    ensures recovery { (r : Reading) → figures (run r (establishing ++ losing) start).user
        ≡ user_in_recovery }
    ensures user { (r : Reading) → figures (run r schedule start).user ≡ user_at_end }
    ensures network { (r : Reading) → figures (run r schedule start).network ≡ network_at_end }
    ensures lines { (r : Reading) → (run r schedule start).to_user
        ++ (run r schedule start).to_network ≡ [] }
    ensures nothing_left { (r : Reading) → left (run r schedule start) ≡ 0 }
    ensures one_left { (r : Reading) → left (run r (establishing ++ losing) start) ≡ 1 }
    ensures restarted { (r : Reading) → figures (run r restarting start).user ≡ user_restarted }
    ensures restarted_lines { (r : Reading) → (run r restarting start).to_user
        ++ (run r restarting start).to_network ≡ [] }
    ensures units { (r : Reading)
        → (run r (of_user (UnitData (9 ∷ [])) ∷ of_network Deliver ∷ [])
        start).network.history.units ≡ (9 ∷ []) ∷ [] }
{}

/// Each kind of move sends the expected frame, on whole numbers and on tags. A message is sent in
/// an I frame with its place, and the first of two is lost. A release sends DISC, T203 an enquiry,
/// own busy RNR, its end RR, and unit data UI.
pub fn moves_are_computed()
    ensures given { (r : Reading)
        → (run r (establishing ++ of_user (Give (8 ∷ 1 ∷ [])) ∷ []) start).to_network
        ≡ record { role = Command; control = I 0 0 false; info = 8 ∷ 1 ∷ []; place = 0 } ∷ [] }
    ensures lost { (r : Reading)
        → (run r (establishing ++ of_user (Give (8 ∷ 1 ∷ [])) ∷ of_user (Give (8 ∷ 2 ∷ []))
        ∷ of_network (Lose 0) ∷ []) start).to_network ≡ record {
          role = Command;
          control = I 1 0 false;
          info = 8 ∷ 2 ∷ [];
          place = 1;
        } ∷ [] }
    ensures release { (r : Reading)
        → (run r (establishing ++ of_user Release ∷ []) start).to_network
        ≡ without_info Command (Disc true) ∷ [] }
    ensures t203 { (r : Reading) → (run r (establishing ++ of_user Expire203 ∷ []) start).to_network
        ≡ without_info Command (Rr 0 true) ∷ [] }
    ensures busy { (r : Reading)
        → (run r (establishing ++ of_user (Busy true) ∷ []) start).to_network
        ≡ without_info Answer (Rnr 0 false) ∷ [] }
    ensures busy_no_longer { (r : Reading)
        → (run r (establishing ++ of_user (Busy true) ∷ of_user (Busy false) ∷ []) start).to_network
        ≡ without_info Answer (Rnr 0 false) ∷ without_info Answer (Rr 0 false) ∷ [] }
    ensures unit { (r : Reading) → (run r (of_user (UnitData (9 ∷ [])) ∷ []) start).to_network
        ≡ unit_frame (9 ∷ []) ∷ [] }
{}

/// A move is refused if there is no such frame, if the timer does not run, if the enquiry or its
/// answer is in transit, or if the state table refuses it.
pub fn refusals_are_computed()
    ensures nothing_to_deliver { (r : Reading) → happens r (of_user Deliver) start
        ≡ Err NothingThere }
    ensures nothing_to_lose { (r : Reading) → happens r (of_user (Lose 0)) start
        ≡ Err NothingThere }
    ensures t200_is_stopped { (r : Reading) → happens r (of_user Expire200) start ≡ Err NotRunning }
    ensures t203_is_stopped { (r : Reading) → happens r (of_user Expire203) start ≡ Err NotRunning }
    ensures enquiry_under_way { (r : Reading) → happens r (of_user Expire200)
        (run r (establishing ++ losing) start) ≡ Err (NotYet side.Network 0) }
    ensures enquiry_behind_message { (r : Reading)
        → happens r (of_user Expire200)
        (run r (establishing ++ of_user (Give (8 ∷ 1 ∷ [])) ∷ of_user Expire200 ∷ []) start)
        ≡ Err (NotYet side.Network 1) }
    ensures answer_under_way { (r : Reading) → happens r (of_user Expire200)
        (run r (establishing ++ losing ++ of_network Deliver ∷ []) start)
        ≡ Err (NotYet side.User 0) }
    ensures not_established { (r : Reading) → happens r (of_user (Give (1 ∷ []))) start
        ≡ Err (Refused NotEstablished) }
{}

/// The two sides are alike: a move of the network equals the same move of the user with the sides
/// exchanged before and after.
pub fn sides_are_alike()
    ensures { (r : Reading) (event : PairEvent) (w : World)
        → world_after w (happens r (of_network event) w)
        ≡ swapped (world_after (swapped w) (happens r (of_user event) (swapped w))) }
{}

/// The histories of the worked schedule are safe, on whole numbers and on tags.
pub fn schedule_is_safe()
    ensures { (r : Reading) → AreSafe (run r schedule start) }
{}

/// A new world is safe.
pub fn new_worlds_are_safe()
    ensures { (user network : Parameters) → AreSafe (new_world user network) }
{}

/// `IsSafe` excludes wrong histories. A message is received twice; two are received in the wrong
/// order; one is skipped within a receiver's establishment; one is missing from a sender's
/// establishment; one is acknowledged but not received; one arrives with octets that were not
/// submitted.
pub fn wrong_histories_are_not_safe()
    ensures twice { IsSafe one_message in_first []
        (receipt 0 1 (1 ∷ []) ∷ receipt 0 2 (1 ∷ []) ∷ []) → ⊥ }
    ensures swapped { IsSafe two_messages in_first []
        (receipt 1 1 (2 ∷ []) ∷ receipt 0 2 (1 ∷ []) ∷ []) → ⊥ }
    ensures skipped { IsSafe three_messages (in_first_but 1) []
        (receipt 0 1 (1 ∷ []) ∷ receipt 2 1 (3 ∷ []) ∷ []) → ⊥ }
    ensures missing { IsSafe two_messages in_first [] (receipt 1 1 (2 ∷ []) ∷ []) → ⊥ }
    ensures unreceived { IsSafe one_message in_first (0 ∷ []) [] → ⊥ }
    ensures altered { IsSafe one_message in_first [] (receipt 0 1 (2 ∷ []) ∷ []) → ⊥ }
{}

/// Every run keeps `IsConsistentWorld`, on whole numbers and on tags. A new world with windows of
/// up to 127 satisfies it, and each admitted move keeps it.
pub fn worlds_are_consistent()
    ensures begins { (r : Reading) (user network : Parameters) → user.k ≤ 127 → network.k ≤ 127
        → IsConsistentWorld r (new_world user network) }
    ensures stays { (r : Reading) (move : Move) (w : World) (happened : Happened)
        → IsConsistentWorld r w
        → happens r move w ≡ Ok happened → IsConsistentWorld r happened.world }
    ensures runs { (r : Reading) (moves : List Move) (w : World) → IsConsistentWorld r w
        → IsConsistentWorld r (run r moves w) }
{}

/// The outputs of a step are in order: they lead from the side's history to its end after the step.
/// A step delivers the information of at most one frame to layer 3, and only if it received a
/// frame.
pub fn outputs_are_in_order()
    ensures order { (r : Reading) (input : Input) (station : Station) (s : StepState)
        → IsConsistent r station → step r input station.end ≡ Ok s
        → AreInOrder s.end station.history.passed s.outs }
    ensures up { (r : Reading) (input : Input) (e : End) (s : StepState) → step r input e ≡ Ok s
        → ups s.outs ≤ 1 }
    ensures unheard { (r : Reading) (input : Input) (e : End) (s : StepState)
        → is_frame input ≡ false → step r input e ≡ Ok s → ups s.outs ≡ 0 }
{}

/// Recording one output in the history keeps what holds of a side. The remaining outputs are in
/// order. The places acknowledged or dropped are those before the first waiting message. No
/// establishment begins. No message is sent that was not submitted. Every frame on the line is a
/// frame of the control table.
pub fn outputs_are_recorded()
    ensures rest { (e : End) (o : Occasion) (out : Out) (outs : List Out) (t : Story)
        → AreInOrder e t.history.passed (out ∷ outs)
        → AreInOrder e (after_output o out t).history.passed outs }
    ensures settled { (o : Occasion) (out : Out) (t : Story) → AreSettled t.history
        → AreSettled (after_output o out t).history }
    ensures begun { (o : Occasion) (out : Out) (t : Story)
        → (after_output o out t).history.begun ≡ t.history.begun }
    ensures unsent { (e : End) (o : Occasion) (out : Out) (outs : List Out) (t : Story)
        → AreInOrder e t.history.passed (out ∷ outs)
        → ((place : ℕ) → length e.given ≤ place → t.history.sent_in place ≡ None) → (place : ℕ)
        → length e.given ≤ place → (after_output o out t).history.sent_in place ≡ None }
    ensures proper { (e : End) (o : Occasion) (out : Out) (outs : List Out) (t : Story)
        → AreInOrder e t.history.passed (out ∷ outs) → AreShort o.given → length o.octets ≤ n201
        → AreProper t.line → AreProper (after_output o out t).line }
{}

/// A move has the same effect on tags as on whole numbers: the same refusal, or the same world and
/// outputs with each number replaced by its tag. It needs a world that satisfies
/// `IsConsistentWorld`. A frame delivered in states 7 and 8 must carry numbers near the end's own
/// (Q.921 3.5.2, 5.9.5), as numbers within the window bounds are. The same holds for a run of such
/// moves, in each outcome and in the final world.
pub fn tags_move_as_whole_numbers()
    ensures moves { (move : Move) (w : World) → IsConsistentWorld Whole w → IsNearMove move w
        → happens Tagged move (tag_world w) ≡ tag_outcome (happens Whole move w) }
    ensures near { (move : Move) (w : World) → IsConsistentWorld Whole w → AreFirstWithin w
        → IsNearMove move w }
    ensures runs { (moves : List Move) (w : World) → IsConsistentWorld Whole w
        → AreNearMoves moves w
        → run Tagged moves (tag_world w) ≡ tag_world (run Whole moves w) }
    ensures outcomes { (moves : List Move) (w : World) → IsConsistentWorld Whole w
        → AreNearMoves moves w
        → outcomes Tagged moves (tag_world w) ≡ map tag_outcome (outcomes Whole moves w) }
{}

/// Safety and the number of messages left do not depend on tags. A new world is its own tagged
/// world, since all its counters are 0.
pub fn tags_are_not_read()
    ensures safe { (w : World) → AreSafe (tag_world w) ↔ AreSafe w }
    ensures left { (w : World) → left (tag_world w) ≡ left w }
    ensures begins { (user network : Parameters)
        → tag_world (new_world user network) ≡ new_world user network }
{}
