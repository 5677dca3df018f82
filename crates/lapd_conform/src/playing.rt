//! Executing a case, and the verdict on it.

ghost use Rattle.std.specs.Prelude.{◌≡◌, IfOk};
ghost use Rattle.lapd_conform.specs.Outcomes.{HasReasons, IsReasoned, place_refused};

use crate::candidates::judge;
use crate::judgement::{Judgement, Verdict, verdict_on};
use crate::outcome::{Doubt, Outcome, Played};
use crate::setup::Setup;
use lapd_conform_player::{
    Case, Group, Lost, Performance, Preamble, Reason, Stack, Station, lack, perform,
};
use lapd_link::{Params, Side, Tei};
use std::alloc::Global;

/// How late frames may be, in milliseconds, if TEI management is judged: no timer must expire
/// meanwhile.
const MOST_SLACK: u64 = 220;

/// How many messages the I queue of a candidate has room for.
const ROOM: u16 = 256;

/// The state that is kept between the cases of one stack.
#[derive(Clone, Copy)]
pub struct Session {
    /// The TEI of the link in the last case that tested it, if it was reached there.
    tei: Option<u8>,
}

impl Session {
    /// Before the first case.
    pub fn new() -> Session {
        Session { tei: None }
    }
}

/// The judgement on the frames of a case, and why it decides nothing.
#[derive(Clone, Copy)]
struct Judged {
    judgement: Judgement,
    doubt: Doubt,
}

/// Executes a case. If it fails, it is repeated: it fails only if it fails again.
///
/// A case that failed has the frame that is refused. A case that passed reached its purpose, and no
/// frame is refused.
///
/// # Errors
///
/// The stack is out of reach, or an allocation failed.
pub fn play<S: Station>(
    alloc: Global,
    station: &mut S,
    stack: &Stack,
    session: &mut Session,
    case: &Case<'_>,
) -> Result<Outcome, Lost>
    ensures { IfOk result IsReasoned }
{
    if let Some(lacks) = lack(stack, case) {
        return Ok(Outcome::NotApplicable(lacks));
    }
    let first = play_once(alloc, station, stack, session, case)?;
    if first.verdict != Verdict::Fail {
        return Ok(Outcome::Played(first));
    }
    let again = play_once(alloc, station, stack, session, case)?;
    Ok(Outcome::Played(repeated(again)))
}

/// The result of a case that failed before.
fn repeated(played: Played) -> Played
    requires { HasReasons played }
    ensures { HasReasons result }
{
    if played.verdict == Verdict::Fail {
        return played;
    }
    Played {
        verdict: Verdict::Inconclusive,
        doubt: Doubt::NotRepeated,
        ..played
    }
}

fn play_once<S: Station>(
    alloc: Global,
    station: &mut S,
    stack: &Stack,
    session: &mut Session,
    case: &Case<'_>,
) -> Result<Played, Lost>
    ensures { IfOk result HasReasons }
{
    let performance = perform(alloc, station, stack, session.tei, case)?;
    session.tei = kept_tei(stack, session.tei, case, &performance);
    let judged = judged_performance(alloc, stack, case, &performance)?;
    Ok(played(performance, judged))
}

/// The TEI of the link after a case: the one that it had, unless the stack did not answer for it, or
/// the case tested TEI management of a terminal, which may have another one or none then.
fn kept_tei(
    stack: &Stack,
    tei: Option<u8>,
    case: &Case<'_>,
    performance: &Performance,
) -> Option<u8> {
    let is_network = matches!(stack.side, Side::Network);
    match performance.reason {
        Some(Reason::NotReached(Preamble::TeiAssigned)) => None,
        _ if case.tests_link() => performance.tei,
        _ if is_network => tei,
        _ => None,
    }
}

/// The result of a case that was executed once.
fn played(performance: Performance, judged: Judged) -> Played
    ensures { HasReasons result }
{
    Played {
        verdict: verdict_on(performance.reason.is_none(), judged.judgement),
        line: performance.line,
        reason: performance.reason,
        doubt: judged.doubt,
        refused: place_refused(judged.judgement),
        happenings: performance.happenings,
    }
}

fn place_refused(judgement: Judgement) -> Option<usize>
    ensures { result ≡ place_refused judgement }
{
    match judgement {
        Judgement::Refused(place) => Some(place),
        _ => None,
    }
}

/// The judgement on a dialogue: by the table for a link, by the purpose for TEI management.
fn judged_performance(
    alloc: Global,
    stack: &Stack,
    case: &Case<'_>,
    performance: &Performance,
) -> Result<Judged, Lost> {
    if !case.tests_link() {
        return Ok(judged_by_purpose(stack, case, performance));
    }
    let Some(setup) = setup_of(stack, performance) else {
        return Ok(doubted(Doubt::Allowed));
    };
    let happenings = performance.happenings.as_slice();
    match judge(alloc, &setup, happenings, performance.until) {
        Ok(judgement) => Ok(Judged {
            judgement,
            doubt: doubt_of(judgement),
        }),
        Err(_) => Err(Lost::Memory),
    }
}

fn doubt_of(judgement: Judgement) -> Doubt {
    match judgement {
        Judgement::Allowed | Judgement::Refused(_) => Doubt::Allowed,
        Judgement::TooMany => Doubt::TooManyRuns,
        Judgement::LayerThree => Doubt::LayerThree,
    }
}

fn doubted(doubt: Doubt) -> Judged {
    Judged {
        judgement: Judgement::Allowed,
        doubt,
    }
}

/// The setup of the judge. `None` without a TEI, and if k or N200 is out of range.
fn setup_of(stack: &Stack, performance: &Performance) -> Option<Setup> {
    let tei = Tei::new(performance.tei?)?;
    let params = Params::new(stack.k, stack.n200, ROOM)?;
    Some(Setup {
        side: stack.side,
        tei,
        params,
        t200: u64::from(stack.t200),
        t203: stack.idle_time(),
        slack: performance.slack,
        confirmed: stack.confirms,
        active: stack.is_active,
    })
}

/// TEI management: the purpose of the case decides. It decides nothing if the preamble failed, a
/// frame was late or may be, a request may have been without effect, or a network side was not
/// started anew.
fn judged_by_purpose(stack: &Stack, case: &Case<'_>, performance: &Performance) -> Judged {
    let is_slow = performance.slack > MOST_SLACK;
    let is_lost = performance.has_requested && !stack.confirms;
    let is_stale = !performance.is_fresh && matches!(case.name.group, Group::NetworkTei);
    if is_slow || is_lost || is_stale {
        return doubted(Doubt::NotJudged);
    }
    match performance.reason {
        Some(Reason::Unexpected | Reason::Missing | Reason::Early) => Judged {
            judgement: Judgement::Refused(performance.happenings.len()),
            doubt: Doubt::Allowed,
        },
        Some(Reason::Late | Reason::NotReached(_) | Reason::TooManyFrames) => doubted(
            Doubt::NotJudged,
        ),
        None => doubted(Doubt::Allowed),
    }
}
