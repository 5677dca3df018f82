//! Laws that test the definitions. Calling them does nothing.

ghost use Rattle.std.specs.Prelude.{◌≡◌, ◌<◌, ◌^◌, ℕ, true, false, List, [], ◌∷◌, length, nat_le, nat_lt, Some, None};
ghost use Rattle.std.specs.List.{All};
ghost use Rattle.lapd_follow.specs.declared.identity.Identity.TheVariants.{Request, Assigned, Denied, CheckRequest, CheckResponse, Remove, Verify};
ghost use Rattle.lapd_follow.specs.declared.remark.Remark.TheVariants.{Begins, Ends, NumbersKnown, UaWithoutCommand, SentReleased, NsExpected, Repeated, RepeatedOtherwise, WindowExceeded, SentToBusy, SentToKnownBusy, NrOutside, SabmeWithoutP, DiscWithoutP, UaWithoutF, BeforeAnswer, Answers, ResponseWithoutPoll, NotAnswered, Unrequested, NotAutomatic, AssignedTwice, AssignedInUse, TwoResponses};
ghost use Rattle.lapd_follow.specs.declared.classes.Middle.{Middle};
ghost use Rattle.lapd_follow.specs.Remarks.{k_or_most, window_remark};
ghost use Rattle.lapd_follow.specs.Classes.{Halve, IsNarrow, class_of, middle_class};
ghost use Rattle.lapd_follow.specs.Tallies.{middle_of, no_times, with_times};
ghost use Rattle.lapd_follow.specs.Worked.{told, undisturbed, vr_not_reset, sent_again, without_cause, to_busy, four_messages, to_released, without_bits, before_answers, collision, from_messages, from_polls, from_doubts, from_enquiry, from_messages_to_release};
ghost use Rattle.lapd_follow.specs.WorkedTeis.{notes, said, said_but, assignment, checks, assigned_twice, assigned_below, assigned_anew};

/// Worked dialogues have the expected remarks. They are only establishments and answers on an
/// undisturbed link, recoveries after a loss, and violations if an end has an error.
pub fn remarks_are_computed()
    ensures undisturbed { told undisturbed ≡ [] ∷ (Begins 1 ∷ Answers 1 (Some 1000) ∷ []) ∷ []
        ∷ [] ∷ [] ∷ [] ∷ [] ∷ (Answers 7 (Some 1000) ∷ []) ∷ [] }
    ensures vr_not_reset { told vr_not_reset ≡ [] ∷ (Begins 1 ∷ Answers 1 (Some 1000) ∷ []) ∷ []
        ∷ [] ∷ [] ∷ (Begins 2 ∷ Answers 5 (Some 1000) ∷ []) ∷ [] ∷ (NrOutside 2 0 1 ∷ []) ∷ [] }
    ensures sent_again { told sent_again ≡ [] ∷ (Begins 1 ∷ Answers 1 (Some 1000) ∷ []) ∷ []
        ∷ (NsExpected 2 1 ∷ []) ∷ [] ∷ [] ∷ (Repeated ∷ []) ∷ (RepeatedOtherwise ∷ []) ∷ [] }
    ensures without_cause { told without_cause ≡ [] ∷ (Begins 1 ∷ Answers 1 (Some 1000) ∷ [])
        ∷ (ResponseWithoutPoll ∷ []) ∷ (NrOutside 1 0 0 ∷ []) ∷ (UaWithoutCommand ∷ []) ∷ [] }
    ensures to_busy { told to_busy ≡ [] ∷ (Begins 1 ∷ Answers 1 (Some 1000) ∷ []) ∷ [] ∷ []
        ∷ (Repeated ∷ SentToBusy ∷ []) ∷ [] ∷ (Answers 6 (Some 1000) ∷ [])
        ∷ (Repeated ∷ SentToKnownBusy ∷ []) ∷ [] }
    ensures window { told four_messages ≡ [] ∷ (Begins 1 ∷ Answers 1 (Some 1000) ∷ []) ∷ [] ∷ []
        ∷ [] ∷ (WindowExceeded 3 ∷ []) ∷ [] }
    ensures most { window_remark (k_or_most None) 127
        (Some (record { is_first = false; next = 127; nr = 0 }))
        (Some (record { is_first = true; next = 0; nr = 0 })) ≡ Some (WindowExceeded 127) }
    ensures released { told to_released ≡ [] ∷ (Begins 1 ∷ Answers 1 (Some 1000) ∷ []) ∷ []
        ∷ (Ends 1 ∷ Answers 3 (Some 1000) ∷ []) ∷ (SentReleased ∷ []) ∷ (SentReleased ∷ []) ∷ []
        ∷ (Begins 2 ∷ Answers 7 (Some 1000) ∷ []) ∷ [] ∷ (Ends 2 ∷ []) ∷ (SentReleased ∷ []) ∷ [] }
    ensures bits { told without_bits ≡ (SabmeWithoutP ∷ [])
        ∷ (Begins 1 ∷ Answers 1 (Some 1000) ∷ []) ∷ []
        ∷ (Begins 2 ∷ UaWithoutF ∷ Answers 3 (Some 1000) ∷ []) ∷ (DiscWithoutP ∷ []) ∷ [] }
    ensures before_answer { told before_answers ≡ [] ∷ (Begins 1 ∷ Answers 1 (Some 1000) ∷ [])
        ∷ [] ∷ (BeforeAnswer 3 ∷ []) ∷ (Repeated ∷ NotAnswered 3 ∷ [])
        ∷ (Answers 5 (Some 1000) ∷ []) ∷ [] ∷ [] }
    ensures collision { told collision ≡ [] ∷ (Begins 1 ∷ Answers 1 (Some 1000) ∷ []) ∷ [] ∷ []
        ∷ [] ∷ [] ∷ (Answers 6 (Some 1000) ∷ []) ∷ (Begins 2 ∷ Answers 4 (Some 4000) ∷ []) ∷ []
        ∷ [] ∷ [] }
    ensures from_messages { told from_messages ≡ [] ∷ [] ∷ [] ∷ (NumbersKnown ∷ []) ∷ []
        ∷ (NrOutside 8 6 7 ∷ []) ∷ [] }
    ensures from_polls { told from_polls ≡ [] ∷ (Answers 1 (Some 1000) ∷ []) ∷ []
        ∷ (NumbersKnown ∷ Answers 3 (Some 1000) ∷ []) ∷ [] ∷ (Repeated ∷ []) ∷ [] }
    ensures from_doubts { told from_doubts ≡ [] ∷ [] ∷ [] ∷ [] ∷ [] ∷ [] ∷ [] }
    ensures from_enquiry { told from_enquiry ≡ [] ∷ [] ∷ [] ∷ []
        ∷ (NumbersKnown ∷ Answers 1 (Some 4000) ∷ []) ∷ [] }
    ensures from_messages_to_release { told from_messages_to_release ≡ [] ∷ [] ∷ []
        ∷ (NumbersKnown ∷ []) ∷ [] ∷ (Ends 0 ∷ Answers 5 (Some 1000) ∷ []) ∷ [] ∷ [] }
{}

/// Worked TEI messages have the expected remarks. Each message of an assignment and of a check has
/// its remark, and a TEI that is assigned twice is a violation.
pub fn identities_are_computed()
    ensures assigned { notes assignment ≡ said (Request 1) ∷ said (Assigned 64 1) ∷ said (Request 2)
        ∷ said (Denied 2) ∷ said_but (Assigned 64 1) Unrequested
        ∷ said_but (Denied 2) Unrequested ∷ record { message = None; conflict = None } ∷ [] }
    ensures checked { notes checks ≡ said (Verify 64) ∷ said (CheckRequest 64)
        ∷ said (CheckResponse 64 1) ∷ said (CheckRequest 64) ∷ said (CheckResponse 64 2)
        ∷ said_but (CheckResponse 64 3) (TwoResponses 64 2 3) ∷ said (Request 1)
        ∷ said_but (Assigned 64 1) (AssignedInUse 64) ∷ [] }
    ensures given_twice { notes assigned_twice ≡ said (Request 1) ∷ said (Assigned 64 1)
        ∷ said (Request 2) ∷ said_but (Assigned 64 2) (AssignedTwice 64 1) ∷ [] }
    ensures given_below { notes assigned_below ≡ said (Request 1)
        ∷ said_but (Assigned 63 1) (NotAutomatic 63) ∷ [] }
    ensures given_anew { notes assigned_anew ≡ said (Request 1) ∷ said (Assigned 64 1)
        ∷ said (Remove 64) ∷ said (Request 2) ∷ said (Assigned 64 2) ∷ said (CheckRequest 64)
        ∷ said (CheckRequest 64) ∷ said (Request 3) ∷ said (Assigned 64 3) ∷ said (Remove 127)
        ∷ said (Request 1) ∷ said (Assigned 64 1) ∷ [] }
{}

/// The middle of worked times lies in the class that holds it, and no further than the least time
/// and the greatest.
pub fn middles_are_computed()
    ensures no_time { middle_of (with_times [] no_times) ≡ None }
    ensures one { middle_of (with_times (23000 ∷ []) no_times)
        ≡ Some (record { from = 23000; to = 23000 }) }
    ensures of_two { middle_of (with_times (30000 ∷ 7000 ∷ []) no_times)
        ≡ Some (record { from = 7000; to = 10000 }) }
    ensures of_five { middle_of
        (with_times (5000 ∷ 12000 ∷ 14000 ∷ 19999 ∷ 120000 ∷ []) no_times)
        ≡ Some (record { from = 10000; to = 20000 }) }
    ensures at_a_bound { middle_of (with_times (5000 ∷ 20000 ∷ 20000 ∷ 90000 ∷ []) no_times)
        ≡ Some (record { from = 20000; to = 50000 }) }
    ensures below_all_bounds { middle_of (with_times (3 ∷ 400 ∷ 999 ∷ 2000 ∷ []) no_times)
        ≡ Some (record { from = 3; to = 1000 }) }
    ensures above_all_bounds { middle_of (with_times (100000000 ∷ 700000000 ∷ []) no_times)
        ≡ Some (record { from = 100000000; to = 700000000 }) }
{}

/// The two times that are reported for the middle answer time enclose it. At least half of the
/// times are in its class or in one before, and fewer than half are in one before. So at least half
/// are not above its greater bound, and fewer than half are below its lesser one. The greater is at
/// most 2.5 times the lesser, unless it is at most 1 ms or the lesser at least 100 s.
pub fn middle_is_between()
    ensures by_class { (times : List ℕ) → 0 < length times → length times < 2 ^ 64
        → Halve (λ n. nat_le (class_of n) (middle_class (with_times times no_times).classes))
        (λ n. nat_lt (class_of n) (middle_class (with_times times no_times).classes)) times }
    ensures by_time { (times : List ℕ) → 0 < length times → length times < 2 ^ 64
        → All (λ n. n < 2 ^ 64) times
        → (m : Middle) × (middle_of (with_times times no_times) ≡ Some m)
        × Halve (λ n. nat_le n m.to) (λ n. nat_lt n m.from) times × IsNarrow m }
{}
