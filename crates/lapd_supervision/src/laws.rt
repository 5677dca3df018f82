//! Laws of the actions, in both readings. Each is the contract of a function without effect.

ghost use Rattle.std.specs.Prelude.{◌≡◌, ◌≢◌, ℕ, ◌+◌, ◌<◌, ◌≤◌, ◌&&◌, Bool, true, false, not, if◌then◌else◌, Some, None, option_map};
ghost use Rattle.lapd_field.specs.declared.control.Control.TheVariants.{Rr, Rnr, Rej};
ghost use Rattle.lapd_mod128.specs.Counting.{Reading, Whole, Tagged, tag, after, reaches, AreNear};
ghost use Rattle.lapd_supervision.specs.StateVariables.{StateVariables, status_frame, poll_response, is_accepted, after_i_frame, i_frame_response, Receives, is_valid_nr, with_va, acknowledged_count, acknowledges_all, with_vs, outstanding, may_send, after_sending};
ghost use Rattle.lapd_supervision.specs.Tags.{tag_variables, tag_control, IsWindow, IsNearWindow};

/// An I frame has four cases (Q.921 5.6.2, 5.6.6, 5.8.1): this end is busy, the frame is the next
/// one, it is the first out of sequence, or it follows the first out of sequence.
pub fn cases_of_an_i_frame()
    ensures busy { (r : Reading) (ns : ℕ) (p : Bool) (m : StateVariables) →
        m.own_busy ≡ true →
        Receives r ns p m (record m { ack_pending = not p && m.ack_pending }) false
        (poll_response p m) }
    ensures in_sequence { (r : Reading) (ns : ℕ) (p : Bool) (m : StateVariables) →
        m.own_busy ≡ false → ns ≡ m.vr →
        Receives r ns p m (record m { vr = after r m.vr; rejecting = false; ack_pending = not p })
        true
        (if p then Some (Rr (after r m.vr) true) else None) }
    ensures out_of_sequence { (r : Reading) (ns : ℕ) (p : Bool) (m : StateVariables) →
        m.own_busy ≡ false → ns ≢ m.vr → m.rejecting ≡ false →
        Receives r ns p m (record m { rejecting = true; ack_pending = false }) false
        (Some (Rej m.vr p)) }
    ensures rejecting { (r : Reading) (ns : ℕ) (p : Bool) (m : StateVariables) →
        m.own_busy ≡ false → ns ≢ m.vr → m.rejecting ≡ true →
        Receives r ns p m (record m { ack_pending = not p && m.ack_pending }) false
        (poll_response p m) }
{}

/// The status is RNR in the own receiver busy condition, else RR, with N(R) = V(R) (Q.921 5.6.6).
#[tactic(auto, using(crate::proofs::Receiving::status_while_busy, crate::proofs::Receiving::status_while_free))]
pub fn status_by_the_busy_condition()
    ensures busy { (pf : Bool) (m : StateVariables) → m.own_busy ≡ true
        → status_frame pf m ≡ Rnr m.vr pf }
    ensures free { (pf : Bool) (m : StateVariables) → m.own_busy ≡ false
        → status_frame pf m ≡ Rr m.vr pf }
{}

/// A valid N(R) reduces the outstanding I frames by those that it acknowledges. If N(R) is V(S), or
/// V(S) is set back to N(R), no I frame is outstanding (Q.921 5.6.3.2, 5.8.3).
#[tactic(auto, using(crate::proofs::Outstanding::outstanding_with_va, crate::proofs::Outstanding::outstanding_after_all, crate::proofs::Outstanding::outstanding_with_vs))]
pub fn nr_acknowledges()
    ensures part { (r : Reading) (nr : ℕ) (m : StateVariables) → is_valid_nr r nr m ≡ true →
        outstanding r (with_va nr m) + acknowledged_count r nr m ≡ outstanding r m }
    ensures all { (r : Reading) (nr : ℕ) (m : StateVariables) → acknowledges_all nr m ≡ true
        → outstanding r (with_va nr m) ≡ 0 }
    ensures back { (r : Reading) (nr : ℕ) (m : StateVariables)
        → outstanding r (with_vs nr (with_va nr m)) ≡ 0 }
{}

/// If an I frame may be sent, sending it adds one to the outstanding I frames, and at most k are
/// outstanding (Q.921 5.9.5).
#[tactic(auto, using(crate::proofs::Outstanding::outstanding_after_sending, crate::proofs::Outstanding::at_most_k_after_sending))]
pub fn at_most_k_are_outstanding()
    ensures more { (r : Reading) (m : StateVariables) → reaches r m.va m.vs ≡ true
        → outstanding r m < 127 →
        outstanding r (after_sending r m) ≡ outstanding r m + 1 }
    ensures at_most { (r : Reading) (k : ℕ) (m : StateVariables) → reaches r m.va m.vs ≡ true
        → k ≤ 127 →
        may_send r k m ≡ true → outstanding r (after_sending r m) ≤ k }
{}

/// Receiving an I frame has the same effect on tags as on whole numbers, if its N(S) lies within
/// 127 of V(R).
pub fn receiving_on_tags()
    ensures accepted { (ns : ℕ) (m : StateVariables) → AreNear ns m.vr →
        is_accepted (tag ns) (tag_variables m) ≡ is_accepted ns m }
    ensures variables { (ns : ℕ) (p : Bool) (m : StateVariables) → AreNear ns m.vr →
        tag_variables (after_i_frame Whole ns p m)
        ≡ after_i_frame Tagged (tag ns) p (tag_variables m) }
    ensures answer { (ns : ℕ) (p : Bool) (m : StateVariables) → AreNear ns m.vr →
        option_map tag_control (i_frame_response Whole ns p m)
        ≡ i_frame_response Tagged (tag ns) p (tag_variables m) }
{}

/// An N(R) from V(A) to V(S) lies within 127 of both, if at most 127 I frames are outstanding
/// (Q.921 3.5.2.3, 5.9.5).
#[tactic(auto, using(crate::proofs::Tagging::within_is_near))]
pub fn within_is_near()
    ensures { (nr va vs : ℕ) → va ≤ nr → nr ≤ vs → vs ≤ va + 127 → IsNearWindow nr va vs }
{}

/// Receiving an N(R) has the same effect on tags as on whole numbers, if at most 127 I frames are
/// outstanding and it lies within 127 of V(A) and V(S).
pub fn acknowledging_on_tags()
    ensures valid { (nr : ℕ) (m : StateVariables) → IsWindow m.va m.vs → IsNearWindow nr m.va m.vs →
        is_valid_nr Tagged (tag nr) (tag_variables m) ≡ is_valid_nr Whole nr m }
    ensures count { (nr : ℕ) (m : StateVariables) → m.va ≤ nr → nr ≤ m.va + 127 →
        acknowledged_count Tagged (tag nr) (tag_variables m) ≡ acknowledged_count Whole nr m }
    ensures all { (nr : ℕ) (m : StateVariables) → AreNear nr m.vs
        → acknowledges_all (tag nr) (tag_variables m) ≡ acknowledges_all nr m }
{}

/// Sending an I frame has the same effect on tags as on whole numbers, if at most 127 are
/// outstanding.
pub fn sending_on_tags()
    ensures allowed { (k : ℕ) (m : StateVariables) → IsWindow m.va m.vs
        → may_send Tagged k (tag_variables m) ≡ may_send Whole k m }
    ensures variables { (m : StateVariables) → tag_variables (after_sending Whole m)
        ≡ after_sending Tagged (tag_variables m) }
{}
