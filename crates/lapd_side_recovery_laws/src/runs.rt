//! Worked runs of two sides that recover. A call of a law does nothing.

ghost use Rattle.std.specs.Prelude.{◌≡◌, [], ℕ};
ghost use Rattle.lapd_side_events.specs.Interface.{run};
ghost use Rattle.lapd_two_side_laws.specs.Schedule.{call};
ghost use Rattle.lapd_side_recovery_laws.specs.Agreement.{AreInAgreement};
ghost use Rattle.lapd_side_recovery_laws.specs.Counts.{most_time_from};
ghost use Rattle.lapd_side_recovery_laws.specs.Reached.{HaveReached, HaveFreeLinks};
ghost use Rattle.lapd_side_recovery_laws.specs.Runs.{AllButLosses, AllButRequests, AllButTimers, Meet, Quiet, Served, answer_lost, asks_release, lost, lost_clock, polled_twice, quick_configs, quick_waits};

/// The premises of the law of recovery can be met, with frames that take 1 ms, T200 of 2 ms, T203
/// of 5 s and N200 of one.
///
/// The SABME of the user is lost, T200 expires, and the second SABME is answered. Then T203 expires
/// at the network and at the user, and each poll is answered. The time that suffices is 12,232 ms.
pub fn recovery_of_sides_is_computed()
    ensures come { HaveReached 1 quick_configs call lost lost_clock }
    ensures free { HaveFreeLinks call lost }
    ensures meets { Meet Quiet Served polled_twice 12233 }
    ensures time { most_time_from quick_waits 1 0 call lost ≡ 12232 }
    ensures agrees { AreInAgreement call (run quick_configs polled_twice lost) }
{}

/// Each premise on the moves while a link recovers is needed.
///
/// Each of these runs keeps all premises but one, and at 12,233 ms the ends do not agree:
///
/// - `timers`: T200 is due after 2 ms, and is never expired.
/// - `losses`: the answer to a poll is lost, and then each frame of the user. The user gives up,
///   and the network holds the link.
/// - `requests`: layer 3 requests the release at 12,232 ms, and the DISC is in transit.
pub fn each_premise_of_recovery_is_needed()
    ensures timers { Meet Quiet AllButTimers [] 12233
        × (AreInAgreement call lost → ⊥) }
    ensures losses { Meet AllButLosses Served answer_lost 12233
        × (AreInAgreement call (run quick_configs answer_lost lost) → ⊥) }
    ensures requests { Meet AllButRequests Served asks_release 12233
        × (AreInAgreement call (run quick_configs asks_release lost) → ⊥) }
{}
