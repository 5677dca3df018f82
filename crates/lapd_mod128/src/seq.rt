ghost use Rattle.std.specs.Prelude.{◌≡◌, ◌<◌, ◌≤◌, ◌↔◌, IsTrue, IfSome, is_some, nat_lt};
ghost use Rattle.lapd_mod128.specs.Counting.{Tagged, after, before, number_after, steps, lies_within, AreSteps, LiesFrom, InFewerSteps};

use std::marker::Model;

/// A state variable or sequence number, from 0 to 127; 0 follows 127 (Q.921 3.5.2.1).
///
/// The default is 0, the value of all three state variables when multiple frame operation begins
/// (Q.921 5.5.1.2).
#[derive(Clone, Copy, Debug, Default, PartialEq, Eq)]
pub struct Seq {
    value: u8,
}

impl Model for Seq {
    ghost use Rattle.std.specs.Prelude.{ℕ, ◌<◌};

    ghost Value = { ℕ };

    ghost view = { λ s. s.value };

    ghost invariant = { λ s. s.value < 128 };

    ghost inverse = { λ n. record { value = n } };
}

#[tactic(auto, using(crate::proofs::Steps::steps_are_counted), unfolding(crate::specs::Counting::after, crate::specs::Counting::before, crate::specs::Counting::steps, crate::specs::Counting::reaches, crate::specs::Counting::lies_within))]
impl Seq {
    /// The counter with this value; `None` above 127.
    pub fn new(value: u8) -> Option<Seq>
        ensures in_range { is_some result ≡ nat_lt value 128 }
        ensures same { IfSome result (λ s. s ≡ value) }
    {
        if value < 128 {
            Some(Seq { value })
        } else {
            None
        }
    }

    /// The value, from 0 to 127.
    pub fn value(self) -> u8
        ensures same { result ≡ self }
        ensures in_range { result < 128 }
    {
        self.value
    }

    /// The counter one step on.
    pub fn next(self) -> Seq
        ensures one_on { result ≡ after Tagged self }
        ensures in_range { result < 128 }
    {
        Seq {
            value: (self.value + 1) % 128,
        }
    }

    /// The counter one step back.
    pub fn back(self) -> Seq
        ensures one_back { result ≡ before Tagged self }
        ensures undone { after Tagged result ≡ self }
        ensures in_range { result < 128 }
    {
        Seq {
            value: (self.value + 127) % 128,
        }
    }

    /// The number of steps of one from `a` to `b`, from 0 to 127.
    pub fn distance(a: Seq, b: Seq) -> u8
        ensures counted { AreSteps Tagged result a b }
        ensures subtracted { result ≡ steps Tagged a b }
        ensures in_range { result < 128 }
    {
        (b.value + 128 - a.value) % 128
    }

    /// Whether `x` is reached from `a` in no more steps than `b`, as a valid N(R) lies from V(A) to
    /// V(S) (Q.921 3.5.2.3).
    pub fn within(a: Seq, x: Seq, b: Seq) -> bool
        ensures counted { IsTrue result ↔ LiesFrom Tagged a x b }
        ensures compared { result ≡ lies_within Tagged a x b }
    {
        Seq::distance(a, x) <= Seq::distance(a, b)
    }

    /// Whether fewer than `k` frames are outstanding, so that one more may be sent (Q.921 5.9.5).
    pub fn window_open(va: Seq, vs: Seq, k: u8) -> bool
        requires positive { 1 ≤ k }
        requires at_most { k ≤ 127 }
        ensures counted { IsTrue result ↔ InFewerSteps Tagged k va vs }
        ensures compared { result ≡ nat_lt (steps Tagged va vs) k }
    {
        Seq::distance(va, vs) < k
    }
}
