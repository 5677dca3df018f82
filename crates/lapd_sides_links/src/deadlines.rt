//! Finds the timer of a side that is due, and the next deadline.

ghost use Rattle.std.specs.Prelude.{◌≡◌, IfSome, option_map};
ghost use Rattle.lapd_frame.specs.declared.Side.{Side};
ghost use Rattle.lapd_timers.specs.Moments.{earlier};
ghost use Rattle.lapd_sides_links.specs.Expiries.{IsDue, IsFirst, IsNextDeadline, IsPast, IsTimerOf, of_management};
ghost use Rattle.lapd_sides_links.specs.Links.{Links};
ghost use Rattle.lapd_sides_links.specs.Shown.{ShowLinks};

use crate::RunningTimer;
use crate::link_set::LinkSet;
use crate::running_timer::sooner;
use lapd_timers::{Timer, TimerSet, earlier};

/// Returns the first timer of a side that is due at the moment `now`, if any: a timer of TEI
/// management or of a link.
pub fn due(management: &TimerSet, links: &LinkSet, now: u64) -> Option<RunningTimer>
    ensures due { (side : Side) (shown : Links) → ShowLinks side links.now shown
        → IsDue now (record { links = shown; timers = management.now }) result }
    ensures own { IfSome result (λ e. IsTimerOf e.of e.timer) }
{
    let own = due_of_management(management, now);
    let of_link = links.due(now);
    sooner(own, of_link)
}

/// The next deadline of a side, in milliseconds, of these TEI management timers and those of the
/// links; `None` if no timer runs.
#[inline(always)]
pub fn next_deadline(management: &TimerSet, links: &LinkSet) -> Option<u64>
    ensures { (side : Side) (shown : Links) → ShowLinks side links.now shown
        → IsNextDeadline (record { links = shown; timers = management.now }) result }
{
    earlier(least_deadline(management), deadline_of(links.first()))
}

/// The deadline of a timer, if it runs.
#[inline(always)]
fn deadline_of(expiry: Option<RunningTimer>) -> Option<u64>
    ensures { result ≡ option_map (λ e. e.deadline) expiry }
{
    match expiry {
        Some(expiry) => Some(expiry.deadline),
        None => None,
    }
}

/// The earliest deadline of the running timers.
#[inline(always)]
fn least_deadline(timers: &TimerSet) -> Option<u64>
    ensures { result ≡ earlier (earlier timers.now.t200 timers.now.t201)
        (earlier timers.now.t202 timers.now.t203) }
{
    earlier(
        earlier(timers.deadline(Timer::T200), timers.deadline(Timer::T201)),
        earlier(timers.deadline(Timer::T202), timers.deadline(Timer::T203)),
    )
}

/// The first timer of TEI management that is due.
fn due_of_management(timers: &TimerSet, now: u64) -> Option<RunningTimer>
    ensures first { IsFirst (IsPast now (of_management timers.now)) result }
    ensures own { IfSome result (λ e. IsTimerOf e.of e.timer) }
{
    let timer = timers.due(now)?;
    let deadline = timers.deadline(timer)?;
    Some(RunningTimer {
        deadline,
        timer,
        of: None,
    })
}
