ghost use Rattle.std.specs.Prelude.{◌≡◌, ◌<◌, [], ◌∷◌, set, false, None, IfSome};
ghost use Rattle.std.specs.List.{All};
ghost use Rattle.lapd_timers.specs.declared.timer.Timer.TheVariants.{T201};
ghost use Rattle.lapd_tei.specs.declared.out.TeiOut.TheVariants.{Send, Start};
ghost use Rattle.lapd_tei.specs.Out.{check_request, IsInRange};
ghost use Rattle.lapd_tei.specs.Assigner.{known_held, is_held, least_free, serves, begins_check, counts_response, one_more, removes, removes_one, round_ends, timer_ends, assigner_step, checked};

use crate::check::{Check, Responses, Round};
use crate::out::{four_outs, no_outs, one_out, three_outs, two_outs};
use crate::{TeiKind, TeiMessage, TeiOut, TeiOuts};
use lapd_frame::Tei;
use lapd_timers::Timer;
use std::marker::Model;

/// An event that the assigner processes.
#[derive(Clone, Copy, Debug, PartialEq, Eq)]
pub enum AssignerEvent {
    /// A message from a terminal was received.
    Heard(TeiMessage),
    /// Start a check of this TEI.
    Check(Tei),
    /// Remove this TEI from the terminals that have it (MDL-REMOVE request).
    Remove(Tei),
    /// T201 expires.
    T201,
}

/// The TEI management of the network side (Q.921 5.3): the held TEIs, which were assigned or known
/// from the start, and the check in progress.
#[derive(Clone, Copy, PartialEq, Eq)]
pub struct Assigner {
    held: [bool; 127],
    check: Option<Check>,
}

impl Model for Assigner {
    ghost use Rattle.lapd_tei.specs.Assigner.{AssignerState, ChecksOne};

    ghost Value = { AssignerState };

    ghost view = { λ a. record { held = a.held; check = a.check } };

    ghost invariant = { λ a. ChecksOne a.check };

    ghost inverse = { λ a. record { held = a.held; check = a.check } };
}

#[tactic(auto, using(crate::proofs::Holding::one_more_held, crate::proofs::Named::one_is_named))]
impl Assigner {
    /// Creates an assigner that holds these TEIs, each 0 to 126, with no check in progress.
    /// Duplicates are harmless.
    pub fn new(known: &[Tei]) -> Assigner
        requires { All (λ tei. tei < 127) known.now }
        ensures { result ≡ known_held known.now }
    {
        let mut held = [false; 127];
        for tei in known {
            held[usize::from(tei.value())] = true;
        }
        Assigner { held, check: None }
    }

    /// Whether the TEI is held. The group TEI never is.
    pub fn holds(&self, tei: Tei) -> bool
        ensures { result ≡ is_held self.now.held tei }
    {
        match self.held.get(usize::from(tei.value())) {
            Some(held) => *held,
            None => false,
        }
    }

    /// The TEI under check, if a check is in progress.
    pub fn check(&self) -> Option<Tei>
        ensures { result ≡ checked self.now.check }
    {
        match self.check {
            Some(check) => Some(check.tei),
            None => None,
        }
    }

    /// Processes an event and returns the resulting outputs, in order. Does not allocate. An event
    /// that does not apply in the current state is ignored.
    pub fn handle(&mut self, event: AssignerEvent) -> TeiOuts
        ensures now { self.new ≡ (assigner_step self.old event).now }
        ensures outs { result.items ≡ (assigner_step self.old event).outs }
        ensures in_range { All IsInRange result.items }
    {
        match event {
            AssignerEvent::Heard(message) => match message.kind {
                TeiKind::Request => self.serve(message.ri),
                TeiKind::CheckResponse => self.count_response(message.ai),
                TeiKind::Verify => self.begin_check(message.ai),
                _ => no_outs(),
            },
            AssignerEvent::Check(tei) => self.begin_check(tei.value()),
            AssignerEvent::Remove(tei) => self.remove(tei),
            AssignerEvent::T201 => self.end_round(),
        }
    }

    /// Serves a request with this reference: assigns the lowest free TEI, or denies the request if
    /// none is left (Q.921 5.3.2).
    fn serve(&mut self, ri: u16) -> TeiOuts
        ensures now { self.new ≡ (serves ri (least_free self.old.held) self.old).now }
        ensures outs { result.items ≡ (serves ri (least_free self.old.held) self.old).outs }
        ensures in_range { All IsInRange result.items }
    {
        match least_free(&self.held) {
            Some(tei) => {
                self.held[usize::from(tei.value())] = true;
                two_outs(message(ri, TeiKind::Assigned, tei), TeiOut::Given(tei))
            }
            None => one_out(message(ri, TeiKind::Denied, Tei::group())),
        }
    }

    /// Starts a check of the TEI if none is in progress (Q.921 5.3.3, 5.3.5). The group TEI is
    /// never checked.
    fn begin_check(&mut self, tei: u8) -> TeiOuts
        ensures now { self.new ≡ (begins_check tei self.old.check self.old).now }
        ensures outs { result.items ≡ (begins_check tei self.old.check self.old).outs }
        ensures in_range { All IsInRange result.items }
    {
        match (self.check, Tei::new(tei)) {
            (None, Some(tei)) if tei != Tei::group() => {
                self.check = Some(Check {
                    tei,
                    round: Round::First,
                    responses: Responses::Nobody,
                });
                ask(tei)
            }
            _ => no_outs(),
        }
    }

    /// Counts a check response if it names the TEI under check.
    fn count_response(&mut self, tei: u8) -> TeiOuts
        ensures now { self.new ≡ (counts_response tei self.old.check self.old).now }
        ensures outs { result.items ≡ (counts_response tei self.old.check self.old).outs }
        ensures in_range { All IsInRange result.items }
    {
        match self.check {
            Some(check) if tei == check.tei.value() => {
                let responses = one_more(check.responses);
                self.check = Some(Check { responses, ..check });
                no_outs()
            }
            _ => no_outs(),
        }
    }

    /// Removes the TEI, held or not, and ends a check of it (Q.921 5.3.4). The group TEI is never
    /// removed.
    fn remove(&mut self, tei: Tei) -> TeiOuts
        ensures now { self.new ≡ (removes tei self.old.check self.old).now }
        ensures outs { result.items ≡ (removes tei self.old.check self.old).outs }
        ensures in_range { All IsInRange result.items }
    {
        if tei == Tei::group() {
            no_outs()
        } else {
            self.remove_one(tei)
        }
    }

    /// Removes a TEI of 0 to 126.
    fn remove_one(&mut self, tei: Tei) -> TeiOuts
        requires { tei < 127 }
        ensures now { self.new ≡ (removes_one tei self.old.check self.old).now }
        ensures outs { result.items ≡ (removes_one tei self.old.check self.old).outs }
        ensures in_range { All IsInRange result.items }
    {
        let once = message(0, TeiKind::Remove, tei);
        let again = message(0, TeiKind::Remove, tei);
        match self.check {
            Some(check) if tei.value() == check.tei.value() => {
                self.free(tei);
                four_outs(TeiOut::Stop(Timer::T201), once, again, TeiOut::Free(tei))
            }
            _ => {
                self.held[usize::from(tei.value())] = false;
                three_outs(once, again, TeiOut::Free(tei))
            }
        }
    }

    /// Ends a round of the check because T201 expired (Q.921 5.3.3.2).
    fn end_round(&mut self) -> TeiOuts
        ensures now { self.new ≡ (timer_ends self.old.check self.old).now }
        ensures outs { result.items ≡ (timer_ends self.old.check self.old).outs }
        ensures in_range { All IsInRange result.items }
    {
        match self.check {
            Some(check) => self.end_round_of(check.tei, check.round, check.responses),
            None => no_outs(),
        }
    }

    fn end_round_of(&mut self, tei: Tei, round: Round, responses: Responses) -> TeiOuts
        requires { tei < 127 }
        ensures now { self.new ≡ (round_ends tei round responses self.old).now }
        ensures outs { result.items ≡ (round_ends tei round responses self.old).outs }
        ensures in_range { All IsInRange result.items }
    {
        match (round, responses) {
            (Round::First, Responses::Nobody) => {
                self.check = Some(Check {
                    tei,
                    round: Round::Second,
                    responses,
                });
                ask(tei)
            }
            (Round::Second, Responses::Nobody) => {
                self.free(tei);
                one_out(TeiOut::Free(tei))
            }
            (_, Responses::One) => {
                self.check = None;
                one_out(TeiOut::InUse(tei))
            }
            (_, Responses::Several) => {
                self.free(tei);
                let first = message(0, TeiKind::Remove, tei);
                let second = message(0, TeiKind::Remove, tei);
                three_outs(first, second, TeiOut::Doubled(tei))
            }
        }
    }

    /// Frees the TEI and ends its check.
    fn free(&mut self, tei: Tei)
        requires { tei < 127 }
        ensures { self.new ≡ record { held = set self.old.held tei false; check = None } }
    {
        self.held[usize::from(tei.value())] = false;
        self.check = None;
    }
}

/// The lowest TEI of 64 to 126 that is not held.
#[tactic(auto, using(crate::proofs::Holding::passed_over, crate::proofs::Holding::found, crate::proofs::Holding::none_left))]
fn least_free(held: &[bool; 127]) -> Option<Tei>
    ensures least { result ≡ least_free held.now }
    ensures in_range { IfSome result (λ tei. tei < 127) }
{
    for tei in 64..127 {
        if !held[usize::from(tei)] {
            return Tei::new(tei);
        }
    }
    None
}

/// Builds the output that sends a message with this reference about this TEI.
fn message(ri: u16, kind: TeiKind, tei: Tei) -> TeiOut
    ensures { result ≡ Send (record { ri = ri; kind = kind; ai = tei }) }
{
    let ai = tei.value();
    TeiOut::Send(TeiMessage { ri, kind, ai })
}

/// Sends a check request for the TEI and starts T201 (Q.921 5.3.3.2).
fn ask(tei: Tei) -> TeiOuts
    ensures in_range { All IsInRange result.items }
    ensures outs { result.items ≡ Send (check_request tei) ∷ Start T201 ∷ [] }
{
    two_outs(
        message(0, TeiKind::CheckRequest, tei),
        TeiOut::Start(Timer::T201),
    )
}

/// Counts one more response, up to `Several`.
fn one_more(responses: Responses) -> Responses
    ensures { result ≡ one_more responses }
{
    match responses {
        Responses::Nobody => Responses::One,
        Responses::One | Responses::Several => Responses::Several,
    }
}
