//! Lines with the state of links and timers, and numbers with their names.

ghost use Rattle.std.specs.Prelude.{◌≡◌, ◌++◌, OnOk};
ghost use Rattle.std.specs.Option.{option_copied};
ghost use Rattle.std.specs.String.{string_bytes};
ghost use Rattle.lapd_link.specs.Link.{LinkRepresents};
ghost use Rattle.lapd_link_definition.specs.End.{End};
ghost use Rattle.lapd_sides_links.specs.Texts.{id_text};
ghost use Rattle.lapd_timers.specs.Due.{deadline_of};
ghost use Rattle.lapd_cli_live_text.specs.LinkText.{any_runs, busy_text, end_text, link_text, link_timers_text, management_text, number_text, numbers_text, shown_end, timer_text, timers_text, word_if};

use lapd_link::{Link, Window};
use lapd_sides_links::{LinkId, Timer, TimerSet};
use std::alloc::AllocError;

/// Appends the line of a link, without a line feed: its state, its variables, and its timers that
/// run.
///
/// `now` is the moment in milliseconds; each timer is printed with the milliseconds left until its
/// deadline.
///
/// # Errors
///
/// `AllocError`. A front of the line may have been appended.
#[tactic(auto, unfolding(crate::specs::LinkText::link_text))]
pub fn push_link(
    id: &LinkId,
    link: &Link,
    timers: Option<&TimerSet>,
    now: u64,
    text: &mut String,
) -> Result<(), AllocError>
    // The line of each end that the link stands for, and so of the end that the link shows.
    ensures end { (e : End) → LinkRepresents link.now e → OnOk result (string_bytes text.new
        ≡ string_bytes text.old ++ link_text id.now e (option_copied timers.entry) now) }
    ensures shown { OnOk result (string_bytes text.new ≡ string_bytes text.old
        ++ link_text id.now (shown_end link.now) (option_copied timers.entry) now) }
{
    push_id(id, text)?;
    push_end(link, text)?;
    push_link_timers(timers, now, text)
}

/// Appends each timer that runs, with the milliseconds from the moment `now` to its deadline: 0 if
/// the deadline is past.
///
/// # Errors
///
/// `AllocError`. A front of the text may have been appended.
#[tactic(auto, unfolding(crate::specs::LinkText::timers_text))]
pub fn push_timers(timers: &TimerSet, now: u64, text: &mut String) -> Result<(), AllocError>
    ensures { OnOk result (string_bytes text.new
        ≡ string_bytes text.old ++ timers_text timers.now now) }
{
    push_timer(timers, Timer::T200, now, text)?;
    push_timer(timers, Timer::T201, now, text)?;
    push_timer(timers, Timer::T202, now, text)?;
    push_timer(timers, Timer::T203, now, text)
}

/// Appends the line of the timers of TEI management, without a line feed. Appends nothing if no
/// timer runs.
///
/// # Errors
///
/// `AllocError`. A front of the line may have been appended.
#[tactic(auto, unfolding(crate::specs::LinkText::management_text))]
pub fn push_management(timers: &TimerSet, now: u64, text: &mut String) -> Result<(), AllocError>
    ensures { OnOk result (string_bytes text.new
        ≡ string_bytes text.old ++ management_text timers.now now) }
{
    if !any_runs(timers) {
        return Ok(());
    }
    text.push_str("tei")?;
    push_timers(timers, now, text)
}

/// Appends a space and a number with its name, as in ` RC=0`.
///
/// # Errors
///
/// `AllocError`. A front of the text may have been appended.
#[tactic(auto, unfolding(crate::specs::LinkText::number_text))]
pub fn push_number(name: &str, number: u64, text: &mut String) -> Result<(), AllocError>
    ensures { OnOk result (string_bytes text.new
        ≡ string_bytes text.old ++ number_text name.now number) }
{
    write!(text, " {name}={number}")
}

/// Appends SAPI and TEI of a link, each with a space behind it.
fn push_id(id: &LinkId, text: &mut String) -> Result<(), AllocError>
    ensures { OnOk result (string_bytes text.new ≡ string_bytes text.old ++ id_text id.now) }
{
    let sapi = id.sapi;
    let tei = id.tei;
    write!(text, "{sapi} {tei} ")
}

/// Appends the state of a link, its variables, RC, and the number of messages in its queue.
fn push_end(link: &Link, text: &mut String) -> Result<(), AllocError>
    ensures { (e : End) → LinkRepresents link.now e → OnOk result (string_bytes text.new
        ≡ string_bytes text.old ++ end_text e) }
{
    let state = link.state();
    let window = link.window();
    write!(text, "state {state}")?;
    push_numbers(window, text)?;
    push_number("RC", u64::from(link.rc()), text)?;
    push_number("queue", u64::from(link.waiting()), text)?;
    push_busy(window, text)
}

/// Appends V(S), V(A) and V(R).
fn push_numbers(window: Window, text: &mut String) -> Result<(), AllocError>
    ensures { OnOk result (string_bytes text.new ≡ string_bytes text.old ++ numbers_text window) }
{
    push_number("V(S)", u64::from(window.vs().value()), text)?;
    push_number("V(A)", u64::from(window.va().value()), text)?;
    push_number("V(R)", u64::from(window.vr().value()), text)
}

/// Appends the busy conditions that hold.
fn push_busy(window: Window, text: &mut String) -> Result<(), AllocError>
    ensures { OnOk result (string_bytes text.new ≡ string_bytes text.old ++ busy_text window) }
{
    push_word_if(window.own_busy(), " own-busy", text)?;
    push_word_if(window.peer_busy(), " peer-busy", text)
}

/// Appends a word if its condition holds.
fn push_word_if(holds: bool, word: &str, text: &mut String) -> Result<(), AllocError>
    ensures { OnOk result
        (string_bytes text.new ≡ string_bytes text.old ++ word_if holds word.now) }
{
    if holds { text.push_str(word) } else { Ok(()) }
}

/// Appends the timers of a link that run, if it has any.
fn push_link_timers(
    timers: Option<&TimerSet>,
    now: u64,
    text: &mut String,
) -> Result<(), AllocError>
    ensures { OnOk result (string_bytes text.new
        ≡ string_bytes text.old ++ link_timers_text (option_copied timers.entry) now) }
{
    match timers {
        Some(timers) => push_timers(timers, now, text),
        None => Ok(()),
    }
}

/// Appends a timer and the milliseconds left, if it runs.
fn push_timer(
    timers: &TimerSet,
    timer: Timer,
    now: u64,
    text: &mut String,
) -> Result<(), AllocError>
    ensures { OnOk result (string_bytes text.new
        ≡ string_bytes text.old ++ timer_text now timer (deadline_of timer timers.now)) }
{
    match timers.deadline(timer) {
        Some(deadline) => push_number(timer.name(), deadline.saturating_sub(now), text),
        None => Ok(()),
    }
}

/// Whether one of the timers runs.
fn any_runs(timers: &TimerSet) -> bool
    ensures { result ≡ any_runs timers.now }
{
    timers.running(Timer::T200)
        || timers.running(Timer::T201)
        || timers.running(Timer::T202)
        || timers.running(Timer::T203)
}
