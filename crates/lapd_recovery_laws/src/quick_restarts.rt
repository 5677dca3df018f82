//! Laws of restarts that the frames in transit outlast. They are proofs; their functions do
//! nothing.

ghost use Rattle.std.specs.Prelude.{◌≡◌, ◌≤◌, ℕ, List};
ghost use Rattle.lapd_frame.specs.declared.Side.{Side};
ghost use Rattle.lapd_mod128.specs.Counting.{Reading, Whole};
ghost use Rattle.lapd_link_definition.specs.End.{End};
ghost use Rattle.lapd_link_definition.specs.Input.{Input};
ghost use Rattle.lapd_link_definition.specs.Parameters.{Parameters};
ghost use Rattle.lapd_pair_laws.specs.Fresh.{AllAreFresh};
ghost use Rattle.lapd_pair_laws.specs.Invariant.{IsInvariant};
ghost use Rattle.lapd_pair_laws.specs.Move.{Deliver, Restart, Move, restarted};
ghost use Rattle.lapd_pair_laws.specs.Premises.{Admitted, freely, run_freely};
ghost use Rattle.lapd_pair_laws.specs.Reports.{ReportsExpected, AllReportsExpected, AreFirstDue};
ghost use Rattle.lapd_pair_laws.specs.Safe.{AreSafe};
ghost use Rattle.lapd_pair_laws.specs.Schedule.{figures, of_network, start};
ghost use Rattle.lapd_pair_laws.specs.World.{World, new_world, view_of, happens, world_after};
ghost use Rattle.lapd_recovery_laws.specs.QuickRestart.{restart_and_losses, restarted_keeping, responses, happens_keeping, run_keeping, run_quickly, outcomes_quickly, across_a_restart, user_at_end, network_at_end, with_a_command, with_an_answer};

/// Every run is safe also if a restart leaves frames in transit, except a SABME or DISC of its side
/// or a UA or DM to it. In the moves of `lapd_pair_laws` a restart drops all frames in transit.
/// Here they stay, and may arrive after the restart, unless a SABME or DISC of the side that
/// restarts, or a UA or DM to it, is among them; then they are dropped. All other moves are eager:
/// T200 waits only for the frames that it guards and their answers. Conclusions and other premises
/// are those of `every_eager_run_is_safe`.
pub fn every_run_with_quick_restarts_is_safe()
    ensures safe { (r : Reading) (user network : Parameters) → user.k ≤ 127 → network.k ≤ 127
        → (moves : List Move) → AreSafe (run_quickly r moves (new_world user network)) }
    ensures reports { (r : Reading) (user network : Parameters) → user.k ≤ 127 → network.k ≤ 127
        → (moves : List Move) → AllReportsExpected
        (outcomes_quickly r moves (new_world user network)) }
    ensures due { (r : Reading) (user network : Parameters) → user.k ≤ 127 → network.k ≤ 127
        → (moves : List Move) → AreFirstDue r (run_quickly r moves (new_world user network)) }
    ensures fresh { (r : Reading) (user network : Parameters) → user.k ≤ 127 → network.k ≤ 127
        → (moves : List Move) → AllAreFresh (run_quickly r moves (new_world user network)) }
{}

/// A restart that drops all frames equals one that leaves them, followed by the loss of each. Both
/// lead to the same world.
pub fn a_restart_may_drop_all_frames()
    ensures { (r : Reading) (side : Side) (w : World)
        → run_quickly r (restart_and_losses side (view_of side w)) w
        ≡ world_after w (happens r (record { side = side; event = Restart }) w) }
{}

/// The invariant of two ends holds after each move with restarts that leave the frames in transit,
/// and after every run of them, if the end that restarts keeps V(S), V(A) and V(R).
pub fn quick_restarts_keep_the_invariant()
    ensures stays { (move : Move) (w : World) → IsInvariant w
        → IsInvariant (world_after w (happens_keeping Whole move w)) }
    ensures runs { (moves : List Move) (w : World) → IsInvariant w
        → IsInvariant (run_keeping Whole moves w) }
{}

/// After a restart an end responds alike whether it kept V(S), V(A) and V(R) or set them to 0.
/// Whatever the inputs after a restart, on whole numbers or on tags, the end that kept them has the
/// same outputs and refusals as the one that set them to 0. No row reads them before an
/// establishment sets them to 0.
pub fn both_restarts_respond_alike()
    ensures { (r : Reading) (inputs : List Input) (e : End)
        → responses r inputs (restarted_keeping e) ≡ responses r inputs (restarted e) }
{}

/// In a worked run a message outlasts a restart and is received once. The user restarts while a
/// message is in transit in each direction. The network receives the user's message, and later the
/// one that the user sends after it has established again, once each. The user ignores the
/// network's message, which is dropped.
pub fn quick_restart_is_computed()
    ensures user { (r : Reading) → figures (run_quickly r across_a_restart start).user
        ≡ user_at_end }
    ensures network { (r : Reading) → figures (run_quickly r across_a_restart start).network
        ≡ network_at_end }
{}

/// If a SABME of the restarting side or the UA to it stays in transit, the side reports C. If the
/// frames stay although the network's SABME, or the UA that answers it, is in transit, then the
/// network reports an unsolicited UA (C) after its restart, at the fourth move. With the UA the
/// histories can become unsafe too (`each_premise_is_needed` of `lapd_pair_laws`).
pub fn quick_restart_premise_is_needed()
    ensures command { ReportsExpected
        (freely (Admitted (of_network Deliver)) (run_freely with_a_command start)) → ⊥ }
    ensures answer { ReportsExpected
        (freely (Admitted (of_network Deliver)) (run_freely with_an_answer start)) → ⊥ }
{}
