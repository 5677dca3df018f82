//! Laws of the numbers that are learned. Calling them does nothing.

ghost use Rattle.std.specs.Prelude.{◌≡◌, ◌+◌, ◌≤◌, ℕ, Bool, true, false, List, Some, None, is_some};
ghost use Rattle.lapd_frame.specs.declared.Control.{Control};
ghost use Rattle.lapd_frame.specs.declared.Role.{Role};
ghost use Rattle.lapd_mod128.specs.Counting.{Tagged, tag, lies_within};
ghost use Rattle.lapd_follow.specs.declared.learned.Learned.TheVariants.{Nothing, Fixed};
ghost use Rattle.lapd_follow.specs.declared.numbering.Numbering.{Numbering};
ghost use Rattle.lapd_follow.specs.Directions.{Acknowledges, Direction, InStep, IsRight, Knows, PassAll, Passing, Sends, learned_after_all};
ghost use Rattle.lapd_follow.specs.Exchange.{Exchange, learns_from, numbered};
ghost use Rattle.lapd_follow.specs.Learning.{learned_numbering};
ghost use Rattle.lapd_follow.specs.declared.remark.Remark.TheVariants.{NrOutside};
ghost use Rattle.lapd_follow.specs.WorkedDirections.{after_exchange, answered_early, before_exchange, exchange, overtaken, sent_twice, six};
ghost use Rattle.lapd_follow.specs.TwoDirections.{BothInStep, Directions, KnowsBoth, SendsRight};
ghost use Rattle.lapd_follow.specs.Remarks.{nr_remark, window_remark};

/// The numbers that are learned are those of the ends, wherever the listener is and whatever frames
/// are lost. The premises are those of `Sends` and `Acknowledges` on what two ends that follow Q.921
/// send: no I frame with P=0 again that its receiver has, and none between a poll and its answer.
#[tactic(auto, using(crate::proofs::Directions::all_learned))]
pub fn learned_numbers_are_those_of_the_ends()
    ensures { (seen : List Passing) (d e : Direction) → IsRight d → PassAll seen d e
        → Knows (learned_after_all seen Nothing) e }
{}

/// Each frame of two ends that follow Q.921 keeps what the follower has learned of them. Once it has
/// learned the numbers of both, they are those of the ends.
pub fn learned_links_are_in_step()
    ensures learns { (control : Control) (role : Role) (x : Exchange) (d e : Directions)
        → IsRight d.sending → IsRight d.receiving → SendsRight control role x d e → KnowsBoth x d
        → KnowsBoth (learns_from control role x) e }
    ensures knows { (x : Exchange) (d : Directions)
        → is_some (learned_numbering x.from.learned x.to.learned) ≡ true → KnowsBoth x d
        → BothInStep (numbered x) d }
{}

/// Nothing that two ends send whose numbers are known is called a violation of N(R) or of the
/// window.
pub fn known_numbers_give_no_violation()
    ensures nr { (own peer : Numbering) (nr : ℕ) (is_answer : Bool) (d e : Direction)
        → IsRight d → InStep peer.next own.nr d → Acknowledges is_answer nr d e
        → nr_remark (tag nr) (Some own) (Some peer) ≡ None }
    ensures window { (own peer : Numbering) (k ns : ℕ) (p : Bool) (d e : Direction)
        → IsRight d → InStep own.next peer.nr d → Sends ns p d e → k ≤ 127
        → d.sent ≤ d.acknowledged + k → d.sent ≤ ns + k
        → window_remark k (tag ns) (Some own) (Some peer) ≡ None }
{}

/// A worked exchange shows the numbers. Without a premise of `Sends` or `Acknowledges` what is learned
/// may be wrong, and the next N(R) is called a violation: if an I frame with P=0 is sent again that
/// its receiver has, or if an answer is older than the poll.
pub fn premises_of_learning_are_needed()
    ensures passes { PassAll exchange before_exchange after_exchange }
    ensures learned { learned_after_all exchange Nothing ≡ Fixed 6 6 }
    ensures sent_twice { learned_after_all sent_twice Nothing ≡ Fixed 6 6 }
    ensures answered_early { learned_after_all answered_early Nothing ≡ Fixed 6 6 }
    ensures right { IsRight overtaken }
    ensures not_in_step { InStep 6 6 overtaken → ⊥ }
    ensures violation { nr_remark 7 (Some six) (Some six) ≡ Some (NrOutside 7 6 6) }
{}
