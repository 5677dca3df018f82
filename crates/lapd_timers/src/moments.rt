//! Moments, in milliseconds, each of which may be unset.

ghost use Rattle.std.specs.Prelude.{◌≡◌};
ghost use Rattle.lapd_timers.specs.Moments.{earlier};

/// The earlier of two optional moments; `None` if neither is set.
#[inline(always)]
pub fn earlier(one: Option<u64>, other: Option<u64>) -> Option<u64>
    ensures { result ≡ earlier one other }
{
    match (one, other) {
        (None, other) => other,
        (one, None) => one,
        (Some(one), Some(other)) => Some(one.min(other)),
    }
}
