//! Laws over the definitions. Calling them has no effect.

ghost use Rattle.std.specs.Prelude.{◌≡◌, ℕ, Option};
ghost use Rattle.lapd_timers.specs.declared.timer.Timer.{Timer};
ghost use Rattle.lapd_timers.specs.Due.{Timers, IsDue};

/// At each moment at most one timer is due, and the definition determines which.
pub fn one_is_due()
    ensures { (now : ℕ) (s : Timers) (first second : Option Timer) → IsDue now s first
        → IsDue now s second → first ≡ second }
{}
