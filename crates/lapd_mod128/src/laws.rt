//! Laws of counting. Each is the contract of a function without effect.
//!
//! The first laws are about counting itself, in both readings. The others relate whole numbers to
//! their tags, if the numbers lie within 127 of each other, as all numbers of one window do (Q.921
//! 3.5.2.1, 5.9.5).

ghost use Rattle.std.specs.Prelude.{◌≡◌, ℕ, ◌+◌, ◌%◌, ◌<◌, ◌≤◌, ◌↔◌, ◌==◌, true, nat_le};
ghost use Rattle.lapd_mod128.specs.Counting.{Reading, Whole, Tagged, IsNumber, tag, after, number_after, AreSteps, LiesFrom, InFewerSteps, reaches, steps, lies_within, AreNear};

/// The subtraction returns the number of steps of one, which is unique.
#[tactic(auto, using(crate::proofs::Steps::steps_are_counted, crate::proofs::Steps::steps_are_unique))]
pub fn steps_are_counted()
    ensures counted { (r : Reading) (a b : ℕ) → IsNumber r a → IsNumber r b → reaches r a b ≡ true →
        AreSteps r (steps r a b) a b }
    ensures unique { (r : Reading) (n m a b : ℕ) → AreSteps r n a b → AreSteps r m a b → n ≡ m }
{}

/// The comparison decides whether a number lies between two others by counting, as N(R) must lie
/// from V(A) to V(S) (Q.921 3.5.2.3).
#[tactic(auto, using(crate::proofs::Steps::lying_is_counting))]
pub fn lying_is_counting()
    ensures { (r : Reading) (a x b : ℕ) → IsNumber r a → IsNumber r x → IsNumber r b →
        (lies_within r a x b ≡ true) ↔ LiesFrom r a x b }
{}

/// The window of k is open exactly if fewer than k steps of one lead from V(A) to V(S) (Q.921
/// 5.9.5).
pub fn fewer_is_counting()
    ensures { (r : Reading) (k a b : ℕ) → IsNumber r a → IsNumber r b → reaches r a b ≡ true →
        (steps r a b < k) ↔ InFewerSteps r k a b }
{}

/// The steps to a number between and those from it add up.
#[tactic(auto, using(crate::proofs::Steps::steps_add_up))]
pub fn steps_add_up()
    ensures { (r : Reading) (a x b : ℕ) → lies_within r a x b ≡ true
        → steps r a x + steps r x b ≡ steps r a b }
{}

/// No steps lead from a number to itself, and at least one step leads to any other.
#[tactic(auto, using(crate::proofs::Steps::no_steps, crate::proofs::Steps::no_steps_is_same))]
pub fn no_steps()
    ensures none { (r : Reading) (a : ℕ) → steps r a a ≡ 0 }
    ensures same { (r : Reading) (a b : ℕ) → IsNumber r a → IsNumber r b → reaches r a b ≡ true
        → steps r a b ≡ 0 → a ≡ b }
{}

/// If the last number moves one step on, the distance grows by one; if the first does, it shrinks
/// by one; if both do, it stays the same.
#[tactic(auto, using(crate::proofs::Steps::one_more_step, crate::proofs::Steps::one_more_whole_step, crate::proofs::Steps::one_step_less, crate::proofs::Steps::steps_stay))]
pub fn one_step_on()
    ensures more { (r : Reading) (a b : ℕ) → reaches r a b ≡ true → steps r a b < 127 →
        steps r a (after r b) ≡ steps r a b + 1 }
    ensures more_whole { (a b : ℕ) → a ≤ b → steps Whole a (after Whole b) ≡ steps Whole a b + 1 }
    ensures less { (r : Reading) (a b : ℕ) → 0 < steps r a b
        → steps r (after r a) b + 1 ≡ steps r a b }
    ensures stay { (r : Reading) (a b : ℕ) → steps r (after r a) (after r b) ≡ steps r a b }
{}

/// Two numbers lie within each other; within a number and itself lies only this number.
#[tactic(auto, using(crate::proofs::Steps::first_lies_within, crate::proofs::Steps::last_lies_within, crate::proofs::Steps::only_itself_within))]
pub fn bounds_lie_within()
    ensures first { (r : Reading) (a b : ℕ) → reaches r a b ≡ true → lies_within r a a b ≡ true }
    ensures last { (r : Reading) (a b : ℕ) → reaches r a b ≡ true → lies_within r a b b ≡ true }
    ensures alone { (r : Reading) (a x : ℕ) → IsNumber r a → IsNumber r x
        → lies_within r a x a ≡ true → a ≡ x }
{}

/// A number between two others stays between them if the last moves one step on, if the first moves
/// at most up to it, and if the range is widened.
#[tactic(auto, using(crate::proofs::Steps::within_one_more, crate::proofs::Steps::within_the_rest, crate::proofs::Steps::within_the_whole))]
pub fn between_stays()
    ensures one_more { (r : Reading) (a x b : ℕ) → lies_within r a x b ≡ true → steps r a b < 127 →
        lies_within r a x (after r b) ≡ true }
    ensures rest { (r : Reading) (a x y b : ℕ) → lies_within r a y b ≡ true
        → lies_within r a x y ≡ true → lies_within r x y b ≡ true }
    ensures widened { (r : Reading) (a x y b : ℕ) → lies_within r a x b ≡ true
        → lies_within r x y b ≡ true → lies_within r a y b ≡ true }
{}

/// The tag of a number is its remainder modulo 128, and as many steps lead from tag 0 to this tag.
#[tactic(auto, using(crate::proofs::Tags::tag_is_remainder, crate::proofs::Tags::tag_is_counted))]
pub fn tag_is_counted()
    ensures remainder { (n : ℕ) → tag n ≡ n % 128 }
    ensures counted { (n : ℕ) → number_after Tagged n 0 ≡ tag n }
{}

/// Stepping and then taking the tag is the same as taking the tag and then stepping, for any number
/// of steps.
#[tactic(auto, using(crate::proofs::Tags::tag_of_after, crate::proofs::Tags::tag_of_number_after))]
pub fn counting_on_tags()
    ensures one { (n : ℕ) → tag (after Whole n) ≡ after Tagged (tag n) }
    ensures many { (n a : ℕ) → tag (number_after Whole n a) ≡ number_after Tagged n (tag a) }
{}

/// A number at most one below another, and less than k above it, is near it in windows of up to
/// 127. So an N(S) is near V(R) (Q.921 5.6.2, 5.9.5).
#[tactic(auto, using(crate::proofs::Tags::next_is_near))]
pub fn next_is_near()
    ensures { (x y k : ℕ) → k ≤ 127 → y ≤ x + 1 → x < y + k → AreNear x y }
{}

/// Near numbers are equal exactly if their tags are equal.
#[tactic(auto, using(crate::proofs::Tags::near_tags_are_equal, crate::proofs::Tags::equality_on_tags))]
pub fn equality_on_tags()
    ensures equal { (x y : ℕ) → AreNear x y → tag x ≡ tag y → x ≡ y }
    ensures tested { (x y : ℕ) → AreNear x y → (tag x == tag y) ≡ (x == y) }
{}

/// The number of steps between near numbers is the number of steps between their tags.
#[tactic(auto, using(crate::proofs::Tags::steps_on_tags))]
pub fn steps_on_tags()
    ensures { (a b : ℕ) → a ≤ b → b ≤ a + 127 → steps Tagged (tag a) (tag b) ≡ steps Whole a b }
{}

/// For numbers up to 127 above a lower bound, the order of their tags, counted from the bound's
/// tag, is the order of the numbers.
#[tactic(auto, using(crate::proofs::Tags::order_on_tags))]
pub fn order_on_tags()
    ensures { (low x y : ℕ) → low ≤ x → x ≤ low + 127 → low ≤ y → y ≤ low + 127 →
        nat_le (steps Tagged (tag low) (tag x)) (steps Tagged (tag low) (tag y)) ≡ nat_le x y }
{}

/// A near number lies between two others exactly if its tag lies between their tags.
#[tactic(auto, using(crate::proofs::Tags::lies_within_on_tags))]
pub fn lies_within_on_tags()
    ensures { (a x b : ℕ) → a ≤ b → AreNear a b → AreNear a x → AreNear x b →
        lies_within Tagged (tag a) (tag x) (tag b) ≡ lies_within Whole a x b }
{}
