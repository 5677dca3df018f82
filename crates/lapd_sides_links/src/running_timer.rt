//! A running timer with its deadline, and the order in which timers expire.

ghost use Rattle.std.specs.Prelude.{◌≡◌, option_map, MatchBool};
ghost use Rattle.lapd_timers.specs.Due.{deadline_of, place};
ghost use Rattle.lapd_sides_links.specs.Expiries.{IsFirst, IsNoLater, IsNoLaterLink};
ghost use Rattle.lapd_sides_links.specs.Places.{IsSooner, RunsFor, expiry_at};

use lapd_table::LinkId;
use lapd_timers::{Timer, TimerSet};

/// A running timer of a link or of TEI management, with its deadline.
#[derive(Clone, Copy)]
pub struct RunningTimer {
    /// The moment at which it expires, in milliseconds.
    pub deadline: u64,
    /// The timer; for a link T200 or T203.
    pub timer: Timer,
    /// The link that the timer belongs to; `None` for TEI management.
    pub of: Option<LinkId>,
}

/// The one of two optional timers that expires first.
#[inline(always)]
pub fn sooner(one: Option<RunningTimer>, other: Option<RunningTimer>) -> Option<RunningTimer>
    ensures { IsSooner one other result }
{
    let Some(first) = one else {
        return other;
    };
    let Some(second) = other else {
        return Some(first);
    };
    if is_no_later(&first, &second) {
        Some(first)
    } else {
        Some(second)
    }
}

/// Whether the first expires before the other: by deadline, then by timer, then by link.
#[inline(always)]
pub fn is_no_later(one: &RunningTimer, other: &RunningTimer) -> bool
    ensures { MatchBool result (IsNoLater one.now other.now) (IsNoLater other.now one.now) }
{
    if one.deadline < other.deadline {
        return true;
    }
    if other.deadline < one.deadline {
        return false;
    }
    let first = place(one.timer);
    let second = place(other.timer);
    if first < second {
        return true;
    }
    if second < first {
        return false;
    }
    is_no_later_link(one.of, other.of)
}

/// Whether the first link precedes the other: by SAPI, then by TEI. TEI management precedes all
/// links.
#[inline(always)]
fn is_no_later_link(one: Option<LinkId>, other: Option<LinkId>) -> bool
    ensures { MatchBool result (IsNoLaterLink one other) (IsNoLaterLink other one) }
{
    let Some(one) = one else {
        return true;
    };
    let Some(other) = other else {
        return false;
    };
    let first = one.sapi.value();
    let second = other.sapi.value();
    if first < second {
        return true;
    }
    if second < first {
        return false;
    }
    one.tei.value() <= other.tei.value()
}

/// The rank of a timer in the order T200, T201, T202, T203.
#[inline(always)]
fn place(timer: Timer) -> u8
    ensures { result ≡ place timer }
{
    match timer {
        Timer::T200 => 0,
        Timer::T201 => 1,
        Timer::T202 => 2,
        Timer::T203 => 3,
    }
}

/// The earliest running timer of one link; `None` if none runs.
#[inline(always)]
pub fn first_of_link(id: &LinkId, timers: &TimerSet) -> Option<RunningTimer>
    ensures { IsFirst (RunsFor id.now timers.now) result }
{
    sooner(
        expiry(id, Timer::T200, timers),
        expiry(id, Timer::T203, timers),
    )
}

/// A timer of one link with its deadline, if it runs.
#[inline(always)]
fn expiry(id: &LinkId, timer: Timer, timers: &TimerSet) -> Option<RunningTimer>
    ensures { result ≡ option_map (expiry_at id.now timer) (deadline_of timer timers.now) }
{
    match timers.deadline(timer) {
        Some(deadline) => Some(RunningTimer {
            deadline,
            timer,
            of: Some(*id),
        }),
        None => None,
    }
}
