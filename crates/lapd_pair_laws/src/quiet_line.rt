//! Laws of a quiet line. They are proofs; their functions do nothing.

ghost use Rattle.std.specs.Prelude.{◌≡◌, ◌≤◌, List};
ghost use Rattle.lapd_mod128.specs.Counting.{Reading, Whole};
ghost use Rattle.lapd_link_definition.specs.Parameters.{Parameters};
ghost use Rattle.lapd_link_definition.specs.declared.recovery.Recovery.TheVariants.{Enquiry, LastMessage};
ghost use Rattle.lapd_pair_laws.specs.Move.{Move};
ghost use Rattle.lapd_pair_laws.specs.World.{new_world, run};
ghost use Rattle.lapd_pair_laws.specs.Drained.{IsDrained};
ghost use Rattle.lapd_pair_laws.specs.Settle.{IsQuiet};
ghost use Rattle.lapd_pair_laws.specs.Timed.{AreSettledEnds};
ghost use Rattle.lapd_pair_laws.specs.Worked.{outcome_of, new_pair, sabme_lost, three_lost, busy, nothing_to_do, established, recovered, held_up};

/// A line that is quiet after a run drains: its settling moves acknowledge each message that was
/// left, and drop none (Q.921 5.6). So each was received. They are at most three moves per message
/// left, and eight more. The run starts in a new world, on whole numbers or on tags, with windows
/// of 1 to 127 and either `Recovery`.
pub fn every_quiet_line_drains()
    ensures { (r : Reading) (user network : Parameters)
        → user.k ≤ 127 → network.k ≤ 127 → 1 ≤ user.k → 1 ≤ network.k → (moves : List Move)
        → IsQuiet (run r moves (new_world user network))
        → IsDrained r (run r moves (new_world user network)) }
{}

/// Both ends are at rest between two steps, after every run (Q.921 5.6.1, 5.6.2, 5.6.5). In state
/// 7, T200 runs if a message is outstanding or the end takes the peer to be busy. Every message
/// that may be sent has been sent. In states 7 and 8 no acknowledgement is pending.
pub fn ends_settle_between_moves()
    ensures { (user network : Parameters) → 1 ≤ user.k → 1 ≤ network.k → (moves : List Move)
        → AreSettledEnds (run Whole moves (new_world user network)) }
{}

/// Worked worlds settle as expected, on whole numbers and on tags: a new pair; a pair whose SABME
/// was lost; three lost messages, with either recovery; and a busy network, where nothing drains.
pub fn settling_is_computed()
    ensures new_pair { (r : Reading) → outcome_of r (new_pair 3 Enquiry) ≡ nothing_to_do }
    ensures sabme { (r : Reading) → outcome_of r (run r sabme_lost (new_pair 3 Enquiry))
        ≡ established }
    ensures three { (r : Reading) → outcome_of r (run r three_lost (new_pair 3 Enquiry))
        ≡ recovered }
    ensures three_by_last { (r : Reading) → outcome_of r (run r three_lost (new_pair 3 LastMessage))
        ≡ recovered }
    ensures busy { (r : Reading) → outcome_of r (run r busy (new_pair 1 Enquiry)) ≡ held_up }
{}
