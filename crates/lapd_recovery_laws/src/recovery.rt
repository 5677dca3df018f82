//! Laws of a link that recovers by itself. They are proofs; their functions do nothing.

ghost use Rattle.std.specs.Prelude.{◌≡◌, ℕ, ◌≤◌, true, List, None};
ghost use Rattle.lapd_mod128.specs.Counting.{Reading};
ghost use Rattle.lapd_link_definition.specs.declared.recovery.Recovery.TheVariants.{Enquiry, LastMessage};
ghost use Rattle.lapd_link_definition.specs.Parameters.{Parameters};
ghost use Rattle.lapd_pair_laws.specs.Move.{Move};
ghost use Rattle.lapd_pair_laws.specs.Schedule.{establishing};
ghost use Rattle.lapd_pair_laws.specs.Settle.{next_move};
ghost use Rattle.lapd_pair_laws.specs.Worked.{new_pair, sabme_lost, busy};
ghost use Rattle.lapd_pair_laws.specs.World.{new_world, run};
ghost use Rattle.lapd_recovery_laws.specs.EveryWorld.{IsFreeWorld, WorldComesBack};
ghost use Rattle.lapd_recovery_laws.specs.Deliveries.{RunsEmpty};
ghost use Rattle.lapd_recovery_laws.specs.EarlyTimers.{ComesBackDespiteTimers};
ghost use Rattle.lapd_recovery_laws.specs.FewLosses.{t200s, most_t200s, OutlastLosses, KeepsAll};
ghost use Rattle.lapd_recovery_laws.specs.FreeTimers.{ComesBackFreely};
ghost use Rattle.lapd_recovery_laws.specs.InTime.{ComesBackInTime};
ghost use Rattle.lapd_recovery_laws.specs.KeptAgreement.{earlies_out_of_step, KeepsAgreement};
ghost use Rattle.lapd_recovery_laws.specs.LoneLine.{IsLoneLine, ComesUpAnew};
ghost use Rattle.lapd_recovery_laws.specs.Losses.{ComesBackDespite, AreOwnOrLosses};
ghost use Rattle.lapd_recovery_laws.specs.Recovered.{outcome_of, outcome_of_deliveries, first_of_three_lost, poll_meets_sabme, both_sabmes_lost, network_restarts, restarts_with_one_sent, release_waits, sabmes_lost, disc_lost, release_unheard, disc_meets_sabme, dm_sent, longest, both_in_7, both_in_4, held_up, IsBusy, message_lost, three_polls_lost, two_polls_lost, outcome_despite, outcome_of_few, polls_cross, polled_on, agreed_after, least_pair, all_admitted, outcome_of_least, eight_wait, t200_beside_frames, too_many_t200, network_sabme_lost, t203_before_t200, too_many_t203};
ghost use Rattle.lapd_recovery_laws.specs.ReleasedLine.{IsReleasedLine, ComesDown};
ghost use Rattle.lapd_recovery_laws.specs.Rounds.{IsRound, idle_end, message_lost_again, losses_go_on, one_sent, t203_again, t203s_go_on, in_state_5, polled_again, busy_goes_on, one_waits, outcome_of_free, establishes_late, MeetsTime};
ghost use Rattle.lapd_recovery_laws.specs.Timers.{HaveTimersOfStates};
ghost use Rattle.lapd_recovery_laws.specs.Untimely.{untimely, outcome_of_line, t203_counted, message_sent, t200_overtakes, outcome_of_open, eight_given, t200_beside_each, seven_idle_polls};
ghost use Rattle.lapd_recovery_laws.specs.WantedLine.{AreWanting, IsWanted, StaysUp};

/// Worked worlds recover as expected, on whole numbers and on tags, with either `Recovery`: the
/// network restarts, without and with a message in transit; both SABMEs are lost; each DISC of a
/// release is lost, which undoes it; a DISC and a SABME cross; and a world that takes 31 moves.
/// With frames in transit: three messages, of which the first is lost, arrive by deliveries alone,
/// the last two twice; and a poll and a SABME cross while a message waits. While frames are still
/// lost: a message and the three polls for it, so that the link is established anew and the message
/// dropped; and a message and only two polls, so that it is received. Without T203, a network that
/// restarts leaves the ends apart. With a busy end the moves are not few. The premises of the laws
/// below hold: the world is free and wanted after the network's restart, where the poll and the
/// SABME cross, and where the SABME of the user is lost. Without one of the premises of a wanted
/// link both ends are in state 4 in the end: all SABMEs of the user are lost; its release is
/// pending; its DISC is lost; or a DM is in transit.
pub fn recovery_is_computed()
    ensures restart { (r : Reading) → outcome_of r (run r network_restarts (new_pair 1 Enquiry))
        ≡ both_in_7 11 0 0 }
    ensures restart_by_last { (r : Reading)
        → outcome_of r (run r network_restarts (new_pair 1 LastMessage)) ≡ both_in_7 11 0 0 }
    ensures sabmes { (r : Reading) → outcome_of r (run r both_sabmes_lost (new_pair 1 Enquiry))
        ≡ both_in_7 6 0 0 }
    ensures sabmes_by_last { (r : Reading)
        → outcome_of r (run r both_sabmes_lost (new_pair 1 LastMessage)) ≡ both_in_7 6 0 0 }
    ensures one_sent { (r : Reading)
        → outcome_of r (run r restarts_with_one_sent (new_pair 1 Enquiry)) ≡ both_in_7 9 0 1 }
    ensures one_sent_by_last { (r : Reading)
        → outcome_of r (run r restarts_with_one_sent (new_pair 1 LastMessage)) ≡ both_in_7 9 0 1 }
    ensures unheard { (r : Reading) → outcome_of r (run r release_unheard (new_pair 1 Enquiry))
        ≡ both_in_7 12 0 0 }
    ensures unheard_by_last { (r : Reading)
        → outcome_of r (run r release_unheard (new_pair 1 LastMessage)) ≡ both_in_7 12 0 0 }
    ensures crossed { (r : Reading) → outcome_of r (run r disc_meets_sabme (new_pair 1 Enquiry))
        ≡ both_in_4 4 }
    ensures crossed_by_last { (r : Reading)
        → outcome_of r (run r disc_meets_sabme (new_pair 1 LastMessage)) ≡ both_in_4 4 }
    ensures longest { (r : Reading) → outcome_of r (run r longest (new_pair 1 Enquiry))
        ≡ both_in_7 31 0 1 }
    ensures longest_by_last { (r : Reading) → outcome_of r (run r longest (new_pair 1 LastMessage))
        ≡ both_in_7 31 0 1 }
    ensures first_lost { (r : Reading)
        → outcome_of_deliveries r (run r first_of_three_lost (new_pair 3 Enquiry))
        ≡ both_in_7 9 3 0 }
    ensures first_lost_by_last { (r : Reading)
        → outcome_of_deliveries r (run r first_of_three_lost (new_pair 3 LastMessage))
        ≡ both_in_7 9 3 0 }
    ensures poll_meets_sabme { (r : Reading)
        → outcome_of r (run r poll_meets_sabme (new_pair 1 Enquiry)) ≡ both_in_7 5 1 0 }
    ensures poll_meets_sabme_by_last { (r : Reading)
        → outcome_of r (run r poll_meets_sabme (new_pair 1 LastMessage)) ≡ both_in_7 5 1 0 }
    ensures three_polls_lost { (r : Reading)
        → AreOwnOrLosses r three_polls_lost (run r message_lost (new_pair 1 Enquiry))
        × (outcome_despite r three_polls_lost (run r message_lost (new_pair 1 Enquiry))
        ≡ both_in_7 9 0 1) }
    ensures three_polls_lost_by_last { (r : Reading)
        → AreOwnOrLosses r three_polls_lost (run r message_lost (new_pair 1 LastMessage))
        × (outcome_despite r three_polls_lost (run r message_lost (new_pair 1 LastMessage))
        ≡ both_in_7 9 0 1) }
    ensures two_polls_lost { (r : Reading)
        → OutlastLosses 2 (run r message_lost (new_pair 1 Enquiry))
        × AreOwnOrLosses r two_polls_lost (run r message_lost (new_pair 1 Enquiry))
        × (outcome_of_few r two_polls_lost (run r message_lost (new_pair 1 Enquiry))
        ≡ both_in_7 9 1 0) }
    ensures two_polls_lost_by_last { (r : Reading)
        → OutlastLosses 2 (run r message_lost (new_pair 1 LastMessage))
        × AreOwnOrLosses r two_polls_lost (run r message_lost (new_pair 1 LastMessage))
        × (outcome_of_few r two_polls_lost (run r message_lost (new_pair 1 LastMessage))
        ≡ both_in_7 9 1 0) }
    ensures apart_without_t203 { (r : Reading)
        → next_move r (run r network_restarts (new_pair 1 Enquiry)) ≡ None }
    ensures held_up { (r : Reading) → outcome_of r (run r busy (new_pair 1 Enquiry)) ≡ held_up }
    ensures busy { (r : Reading) → IsBusy (run r busy (new_pair 1 Enquiry)) }
    ensures restart_is_wanted { (r : Reading)
        → IsFreeWorld 3 (run r network_restarts (new_pair 1 Enquiry))
        × IsWanted (run r network_restarts (new_pair 1 Enquiry)) }
    ensures sabme_lost { (r : Reading) → outcome_of r (run r sabme_lost (new_pair 1 Enquiry))
        ≡ both_in_7 3 0 0 }
    ensures sabme_is_wanted { (r : Reading)
        → IsFreeWorld 3 (run r sabme_lost (new_pair 1 Enquiry))
        × IsWanted (run r sabme_lost (new_pair 1 Enquiry)) }
    ensures poll_met_is_wanted { (r : Reading)
        → IsWanted (run r poll_meets_sabme (new_pair 1 Enquiry)) }
    ensures last_try_gone { (r : Reading)
        → outcome_of r (run r sabmes_lost (new_pair 1 Enquiry)) ≡ both_in_4 1 }
    ensures waiting_release_gone { (r : Reading)
        → outcome_of r (run r release_waits (new_pair 1 Enquiry)) ≡ both_in_4 5 }
    ensures release_goes_on { (r : Reading)
        → outcome_of r (run r disc_lost (new_pair 1 Enquiry)) ≡ both_in_4 3 }
    ensures dm_gone { (r : Reading)
        → AreWanting (run r dm_sent (new_pair 1 Enquiry)).user.end
        (run r dm_sent (new_pair 1 Enquiry)).network.end
        × (outcome_of r (run r dm_sent (new_pair 1 Enquiry)) ≡ both_in_4 1) }
    ensures crossing_polls { (r : Reading)
        → (all_admitted r polls_cross (run r establishing (new_pair 1 Enquiry)) ≡ true)
        × (earlies_out_of_step r polls_cross (run r establishing (new_pair 1 Enquiry)) ≡ 0)
        × (outcome_despite r polls_cross (run r establishing (new_pair 1 Enquiry))
        ≡ both_in_7 6 0 0) }
    ensures polls_after_restart { (r : Reading)
        → (all_admitted r (polled_on r (run r network_restarts (new_pair 1 Enquiry)))
        (run r network_restarts (new_pair 1 Enquiry)) ≡ true)
        × (earlies_out_of_step r (polled_on r (run r network_restarts (new_pair 1 Enquiry)))
        (run r network_restarts (new_pair 1 Enquiry)) ≡ 0)
        × (outcome_despite r (polled_on r (run r network_restarts (new_pair 1 Enquiry)))
        (run r network_restarts (new_pair 1 Enquiry)) ≡ agreed_after 35) }
    ensures t200_beside_frames { (r : Reading)
        → (all_admitted r t200_beside_frames (run r eight_wait least_pair) ≡ true)
        × (outcome_of_least r t200_beside_frames (run r eight_wait least_pair)
        ≡ too_many_t200) }
    ensures t203_before_t200 { (r : Reading)
        → (all_admitted r t203_before_t200 (run r network_sabme_lost least_pair) ≡ true)
        × (outcome_of_least r t203_before_t200 (run r network_sabme_lost least_pair)
        ≡ too_many_t203) }
    ensures poll_met_is_free { (r : Reading)
        → IsFreeWorld 3 (run r poll_meets_sabme (new_pair 1 Enquiry)) }
{}

/// After every run, on whole numbers and on tags, the timers that run are those of each end's
/// state: T200 alone in states 5, 6 and 8, and T203 in state 7 if T200 does not run (Q.921
/// 5.10.3.1).
pub fn timers_of_states_run()
    ensures { (r : Reading) (user network : Parameters) → user.k ≤ 127 → network.k ≤ 127
        → (moves : List Move) → HaveTimersOfStates (run r moves (new_world user network)) }
{}

/// A line with both ends in states 4 and 6 and no frame in transit is released by itself. Its own
/// moves, in any order, are at most six, whatever N200 is. When none is possible any more, both
/// ends are in state 4, and no message is left. The run starts in a new world, on whole numbers or
/// on tags, with windows of at most 127.
pub fn every_released_line_comes_down()
    ensures { (r : Reading) (user network : Parameters) → user.k ≤ 127 → network.k ≤ 127
        → (moves : List Move) → IsReleasedLine (run r moves (new_world user network))
        → ComesDown r (run r moves (new_world user network)) }
{}

/// A line with one end in state 7 or 8 and the other in state 4, as after a restart, recovers by
/// itself, if no frame is in transit. Its own moves, in any order, are at most three per message
/// left, two per retransmission that N200 allows, and five more. When none is possible any more,
/// both ends are in state 7 with equal numbers, and no message is left: each was received and
/// acknowledged, or dropped. The run starts in a new world, on whole numbers or on tags, with
/// windows of 1 to 127 and either `Recovery`.
pub fn every_lone_line_comes_up()
    ensures { (r : Reading) (n200 : ℕ) (user network : Parameters)
        → user.k ≤ 127 → network.k ≤ 127 → 1 ≤ user.k → 1 ≤ network.k → (moves : List Move)
        → IsLoneLine n200 (run r moves (new_world user network))
        → ComesUpAnew r n200 (run r moves (new_world user network)) }
{}

/// The line runs empty: deliveries alone, in any order of the two directions, are at most two per
/// frame in transit, three per message left, and four more. When none is possible any more, no
/// frame is in transit. An end may be own receiver busy. The run starts in a new world, on whole
/// numbers or on tags, with windows of 1 to 127 and either `Recovery`.
pub fn every_line_runs_empty()
    ensures { (r : Reading) (user network : Parameters)
        → user.k ≤ 127 → network.k ≤ 127 → 1 ≤ user.k → 1 ≤ network.k → (moves : List Move)
        → RunsEmpty r (run r moves (new_world user network)) }
{}

/// Every world recovers by itself. Whatever happened before, with frames in transit or not, if no
/// end in state 7 or 8 is own receiver busy, then the line's own moves, in any order, are at most
/// two per frame in transit, three per message left, six per retransmission that N200 allows, and
/// 15 more. When none is possible any more, both ends agree: both in state 4, or both in state 7
/// with equal numbers, and no message is left. The run starts in a new world, on whole numbers or
/// on tags, with windows of 1 to 127 and either `Recovery`. `n200` is at least 1, and at least
/// N200 of each end.
pub fn every_world_comes_back()
    ensures { (r : Reading) (n200 : ℕ) → 1 ≤ n200 → (user network : Parameters)
        → user.k ≤ 127 → network.k ≤ 127 → 1 ≤ user.k → 1 ≤ network.k → (moves : List Move)
        → IsFreeWorld n200 (run r moves (new_world user network))
        → WorldComesBack r n200 (run r moves (new_world user network)) }
{}

/// Ends that agree stay in agreement whenever timers expire, if no frame is lost. Moves are
/// deliveries, T200 wherever it runs, but not while a command with P=1 of its end, or the response
/// to it, is in transit, and T203 wherever it runs. After as many moves as
/// [`every_world_comes_back_despite_early_timers`] counts at most, or more, in any order, no
/// message is left, and both ends are in state 4, or both in states 7 and 8 with equal numbers. Of
/// the early timers it counts those alone that expire while the ends are not in step: in step no
/// message is left, and both ends are in state 7, or in state 8 with a poll or the response to it
/// in transit. So two ends in state 7 with nothing to do may poll for ever. The same holds after
/// any such moves from ends that agree. The premises are those of that law.
pub fn every_agreement_is_kept()
    ensures { (r : Reading) (n200 : ℕ) → 1 ≤ n200 → (user network : Parameters)
        → user.k ≤ 127 → network.k ≤ 127 → 1 ≤ user.k → 1 ≤ network.k → (moves : List Move)
        → IsFreeWorld n200 (run r moves (new_world user network))
        → KeepsAgreement r n200 (run r moves (new_world user network)) }
{}

/// A link that one end wants and neither end releases comes up, with frames in transit or not, and
/// whenever timers expire: when no own move is possible any more, both ends are in state 7 with
/// equal numbers. An end wants the link in states 7 and 8, and in state 5 with a retransmission
/// left. No end is in state 6 or has a release pending, and no DM is in transit. Moves are
/// deliveries, T200 wherever it runs, but not while a command with P=1 of its end, or the response
/// to it, is in transit, and T203 wherever it runs, in any order; no frame is lost. The other
/// premises are those of [`every_world_comes_back_despite_early_timers`], which bounds the moves.
pub fn every_wanted_line_comes_up()
    ensures { (r : Reading) (n200 : ℕ) → 1 ≤ n200 → (user network : Parameters)
        → user.k ≤ 127 → network.k ≤ 127 → 1 ≤ user.k → 1 ≤ network.k → (moves : List Move)
        → IsFreeWorld n200 (run r moves (new_world user network))
        → IsWanted (run r moves (new_world user network))
        → StaysUp r (run r moves (new_world user network)) }
{}

/// Every world recovers by itself although frames are lost meanwhile, if only so many are. The
/// premises are those of [`every_world_comes_back`], but any frame in transit may be lost at any
/// moment. Own moves and losses, in any order, are at most the moves of that law and, for each
/// frame that may be lost, four per message left at the start, six per retransmission that N200
/// allows, and 18 more. When no own move is possible any more, both ends agree, however many frames
/// were lost.
pub fn every_world_comes_back_despite_losses()
    ensures { (r : Reading) (n200 : ℕ) → 1 ≤ n200 → (user network : Parameters)
        → user.k ≤ 127 → network.k ≤ 127 → 1 ≤ user.k → 1 ≤ network.k → (moves : List Move)
        → IsFreeWorld n200 (run r moves (new_world user network))
        → ComesBackDespite r n200 (run r moves (new_world user network)) }
{}

/// Every world recovers by itself although timers do not wait for each other. The premises are
/// those of [`every_world_comes_back`], but besides own moves and losses a timer may expire early:
/// T200 beside frames in transit wherever it runs, unless a command with P=1 of its end, or the
/// response to it, is in transit; and T203 wherever it runs. The moves, in any order, are at most
/// those of [`every_world_comes_back_despite_losses`] and, for each early timer, six per message
/// left at the start, six per retransmission that N200 allows, and 24 more. If T200 expires in
/// state 8, each message that is still in transit from this end counts one more. When no own move
/// is possible any more, both ends agree, however many timers were early.
pub fn every_world_comes_back_despite_early_timers()
    ensures { (r : Reading) (n200 : ℕ) → 1 ≤ n200 → (user network : Parameters)
        → user.k ≤ 127 → network.k ≤ 127 → 1 ≤ user.k → 1 ≤ network.k → (moves : List Move)
        → IsFreeWorld n200 (run r moves (new_world user network))
        → ComesBackDespiteTimers r n200 (run r moves (new_world user network)) }
{}

/// Every world recovers by itself within a fixed number of moves, whenever T200 expires. Whatever
/// happened before, with frames in transit or not, suppose that no frame is lost from then on, and
/// that no end in state 7 or 8 is own receiver busy. Moves are deliveries, T200 wherever it runs,
/// but not while a command with P=1 of its end, or the response to it, is in transit, and T203
/// wherever it runs, in any order. T203 is early unless no frame is in transit, T200 runs at
/// neither end, and exactly one end is in state 7. Say that m messages are left and f frames are in
/// transit at the start, that n is `n200`, and that T203 expires early j times. Then T200 expires
/// at most T = (3 m + 3 f + 4 j + 17) (2 m + f + n + 3) times, and the moves are at most 2 f + 3 m
/// + 6 n + 15 + (T + j + 1) (6 m + f + 6 n + 24). When no own move of [`every_world_comes_back`] is
/// possible any more, both ends agree: both in state 4, or both in state 7 with equal numbers, and
/// no message is left. After as many moves as with one early T203 more, or after more, the ends are
/// in agreement as [`every_agreement_is_kept`] says; only early T203s count that expire while the
/// ends are not in step. The run starts in a new world, on whole numbers or on tags, with windows
/// of 1 to 127 and either `Recovery`. `n200` is at least 1, and at least N200 of each end.
pub fn every_world_comes_back_whenever_timers_expire()
    ensures { (r : Reading) (n200 : ℕ) → 1 ≤ n200 → (user network : Parameters)
        → user.k ≤ 127 → network.k ≤ 127 → 1 ≤ user.k → 1 ≤ network.k → (moves : List Move)
        → IsFreeWorld n200 (run r moves (new_world user network))
        → ComesBackFreely r n200 (run r moves (new_world user network)) }
{}

/// Every world recovers by itself in time, if frames and timers of both ends are in time. The
/// premises are those of [`every_world_comes_back_whenever_timers_expire`], and each move has a
/// moment, in milliseconds. While an own move is possible, the next move follows within the longest
/// time of a frame if a frame is in transit, else within that of T200 if T200 runs, else within
/// that of T203. If T203 expires early j times while the ends are not in step, the ends are in
/// agreement after the longest time of a frame for each move that suffices, that of T200 for each
/// T200 and T203, and that of T203 for each T203: `most_time` adds them up.
pub fn every_world_comes_back_in_time()
    ensures { (r : Reading) (n200 : ℕ) → 1 ≤ n200 → (user network : Parameters)
        → user.k ≤ 127 → network.k ≤ 127 → 1 ≤ user.k → 1 ≤ network.k → (moves : List Move)
        → IsFreeWorld n200 (run r moves (new_world user network))
        → ComesBackInTime r n200 (run r moves (new_world user network)) }
{}

/// Without a premise of these laws moves go round: they can be repeated for ever, and the ends
/// never agree. On whole numbers and on tags: a message is sent and lost again and again; T203
/// expires early again and again, before T200 of the peer in state 5; and an own busy end answers
/// each poll by an RNR.
pub fn rounds_are_computed()
    ensures losses_go_on { (r : Reading) → IsRound r 1 0 one_sent idle_end message_lost_again
        (run r losses_go_on least_pair) }
    ensures t203s_go_on { (r : Reading) → IsRound r 0 1 idle_end in_state_5 t203_again
        (run r t203s_go_on least_pair) }
    ensures busy_goes_on { (r : Reading) → IsRound r 0 0 one_waits
        (record idle_end { own_busy = true }) polled_again (run r busy_goes_on least_pair) }
{}

/// Runs that meet the premises of these laws are within their bounds, on whole numbers and on tags:
/// T200 expires beside messages in transit 11 times; T203 expires early four times; and a SABME
/// that is lost is sent again after 1,000 ms. With frames that take 20 ms, T200 of 1,000 ms, T203
/// of 10,000 ms and an N200 of one, the bound of that time is 131,840 ms.
pub fn runs_in_any_time_are_computed()
    ensures t200s { (r : Reading) → IsFreeWorld 1 (run r eight_wait least_pair)
        × (all_admitted r t200_beside_frames (run r eight_wait least_pair) ≡ true)
        × (outcome_of_free r t200_beside_frames (run r eight_wait least_pair)
        ≡ record { made = 11; most = 820; early = 0; outcome = both_in_7 48 8 0 }) }
    ensures t203s { (r : Reading) → IsFreeWorld 1 (run r network_sabme_lost least_pair)
        × (all_admitted r t203_before_t200 (run r network_sabme_lost least_pair) ≡ true)
        × (outcome_of_free r t203_before_t200 (run r network_sabme_lost least_pair)
        ≡ record { made = 8; most = 132; early = 4; outcome = t203_counted }) }
    ensures in_time { (r : Reading)
        → MeetsTime r 131841 131840 establishes_late (run r sabme_lost least_pair) }
{}

/// Runs with early timers are bounded as expected, on whole numbers and on tags. The first two pass
/// the bound of own moves, and keep the one that counts early timers: T200 expires beside messages
/// in transit, nine times; and T203 expires before T200 of the peer, four times. In the third a
/// poll is lost, and T200 expires in state 8 while the message before the poll is still in transit.
/// The first begins in a world that is wanted, and brings the link up. In the last two both ends
/// are in states 7 and 8. T200 expires beside each of eight messages in transit, within the bound
/// of few losses, which counts no T200; and T203 expires seven times with nothing to do, which
/// passes that bound unless it counts them.
pub fn early_timers_are_computed()
    ensures t200_counts { (r : Reading)
        → (untimely r t200_beside_frames (run r eight_wait least_pair)
        ≡ record { lost = 0; early = 9; late = 0 })
        × (outcome_of_line r t200_beside_frames (run r eight_wait least_pair)
        ≡ both_in_7 48 8 0) }
    ensures wanted_meanwhile { (r : Reading) → IsWanted (run r eight_wait least_pair) }
    ensures t203_counts { (r : Reading)
        → (untimely r t203_before_t200 (run r network_sabme_lost least_pair)
        ≡ record { lost = 0; early = 4; late = 0 })
        × (outcome_of_line r t203_before_t200 (run r network_sabme_lost least_pair)
        ≡ t203_counted) }
    ensures overtakes { (r : Reading)
        → (all_admitted r t200_overtakes (run r message_sent least_pair) ≡ true)
        × (untimely r t200_overtakes (run r message_sent least_pair)
        ≡ record { lost = 1; early = 2; late = 1 })
        × (outcome_of_line r t200_overtakes (run r message_sent least_pair)
        ≡ both_in_7 7 1 1) }
    ensures t200_beside_each { (r : Reading)
        → OutlastLosses 0 (run r eight_given least_pair)
        × (all_admitted r t200_beside_each (run r eight_given least_pair) ≡ true)
        × (t200s t200_beside_each ≡ 8)
        × (most_t200s 0 (run r eight_given least_pair) ≡ 19)
        × (outcome_of_open r 0 t200_beside_each (run r eight_given least_pair)
        ≡ both_in_7 40 8 0) }
    ensures idle_polls { (r : Reading)
        → OutlastLosses 0 (run r establishing least_pair)
        × (all_admitted r seven_idle_polls (run r establishing least_pair) ≡ true)
        × (outcome_of_open r 0 seven_idle_polls (run r establishing least_pair) ≡ agreed_after 21)
        × (outcome_of_open r 7 seven_idle_polls (run r establishing least_pair)
        ≡ both_in_7 21 0 0) }
{}

/// Few losses drop no message, and T200 expires seldom, beside frames in transit or not. Suppose
/// that both ends are in state 7 or 8 and neither is own receiver busy, with frames in transit or
/// not. Fewer frames are lost than each end retransmits at most, and in state 8 fewer than its
/// retransmissions that are left. T200 may expire wherever it runs, but not while a command with
/// P=1 of its end, or the response to it, is in transit; and T203 wherever it runs. Then, after
/// deliveries, losses and expired timers in any order, both ends are in state 7 or 8, and no
/// message was dropped. T200 expires at most two times per message left, and two more, as often
/// again for each frame that may be lost, and once per frame in transit. The moves are at most two
/// per frame in transit, three per message left, and four more; one per message left, and one more,
/// for each frame that may be lost; and three per message left, and seven more, for each T200 of
/// these and each T203. When no own move is possible any more, both ends are in state 7 with equal
/// numbers, and each message that was not dropped before was received and acknowledged. Own moves
/// and losses are at most two per frame in transit, three per message left, and 12 more, and for
/// each frame that may be lost, four per message left and 15 more, whatever N200 is. The run starts
/// in a new world, on whole numbers or on tags, with windows of 1 to 127 and either `Recovery`.
pub fn few_losses_drop_nothing()
    ensures { (r : Reading) (user network : Parameters)
        → user.k ≤ 127 → network.k ≤ 127 → 1 ≤ user.k → 1 ≤ network.k → (moves : List Move)
        → (lost : ℕ) → OutlastLosses lost (run r moves (new_world user network))
        → KeepsAll r lost (run r moves (new_world user network)) }
{}
