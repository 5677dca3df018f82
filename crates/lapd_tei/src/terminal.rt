ghost use Rattle.std.specs.Prelude.{◌≡◌, ◌<◌, [], ◌∷◌, IfSome};
ghost use Rattle.lapd_timers.specs.declared.timer.Timer.TheVariants.{T202};
ghost use Rattle.lapd_tei.specs.declared.out.TeiOut.TheVariants.{Send, Start, Gone};
ghost use Rattle.lapd_tei.specs.declared.phase.Phase.TheVariants.{Unassigned, Awaiting, Assigned};
ghost use Rattle.std.specs.List.{All};
ghost use Rattle.lapd_tei.specs.Out.{request, IsInRange};
ghost use Rattle.lapd_tei.specs.Terminal.{state_number, tei_of, count_of, reference_of, is_awaiting, new_terminal, terminal_step, awaiting_receives, assigned_receives, is_automatic, IsTerminal};

use crate::out::{no_outs, one_out, two_outs};
use crate::phase::{Phase, Purpose};
use crate::{TeiKind, TeiMessage, TeiOut, TeiOuts};
use lapd_frame::Tei;
use lapd_timers::Timer;
use std::marker::Model;

/// N202, the maximum number of requests for a TEI (Q.921 5.9.4).
const N202: u8 = 3;

/// An event that the terminal processes.
#[derive(Clone, Copy, Debug, PartialEq, Eq)]
pub enum TerminalEvent {
    /// Request a TEI, with this reference.
    Ask(u16),
    /// Request a TEI in order to establish a link, with this reference.
    Want(u16),
    /// A message from the network side was received. A response uses this reference.
    Heard(TeiMessage, u16),
    /// T202 expired. A repeated request uses this reference.
    T202(u16),
    /// The terminal leaves, and releases its TEI without sending a message.
    Leave,
}

/// The TEI management of a terminal (Q.921 5.3).
///
/// ```text
///   1 TEI unassigned --Ask--> 2 assign awaiting TEI --Want--> 3 establish awaiting TEI
///          |  ^                       | Assigned                      | Assigned
///     Want |  | N202, Leave, removed  v                               v
///          |  +-------------- 4 TEI assigned <------------------------+
///          +----------------------------------------> 3 establish awaiting TEI
/// ```
#[derive(Clone, Copy, PartialEq, Eq)]
pub struct Terminal {
    phase: Phase,
}

impl Model for Terminal {
    ghost use Rattle.lapd_tei.specs.declared.phase.Phase.{Phase};
    ghost use Rattle.lapd_tei.specs.Terminal.{IsTerminal};

    ghost Value = { Phase };

    ghost view = { λ t. t.phase };

    ghost invariant = { λ t. IsTerminal t.phase };

    ghost inverse = { λ p. record { phase = p } };
}

impl Terminal {
    /// Creates a terminal with this fixed TEI, 0 to 126 (state 4), or without a TEI (state 1).
    pub fn new(fixed: Option<Tei>) -> Terminal
        requires { IfSome fixed (λ tei. tei < 127) }
        ensures { result ≡ new_terminal fixed }
    {
        match fixed {
            None => Terminal {
                phase: Phase::Unassigned,
            },
            Some(tei) => Terminal {
                phase: Phase::Assigned { by: None, tei },
            },
        }
    }

    /// The number of the state in Q.921, 1 to 4.
    pub fn state(&self) -> u8
        ensures { result ≡ state_number self.now }
    {
        match self.phase {
            Phase::Unassigned => 1,
            Phase::Awaiting {
                purpose: Purpose::Assignment,
                ..
            } => 2,
            Phase::Awaiting {
                purpose: Purpose::Establishment,
                ..
            } => 3,
            Phase::Assigned { .. } => 4,
        }
    }

    /// The TEI, in state 4.
    pub fn tei(&self) -> Option<Tei>
        ensures { result ≡ tei_of self.now }
    {
        match self.phase {
            Phase::Assigned { tei, .. } => Some(tei),
            Phase::Unassigned | Phase::Awaiting { .. } => None,
        }
    }

    /// How often the terminal requested the TEI that it awaits: 1 to 3 in states 2 and 3; 0 in
    /// states 1 and 4.
    pub fn count(&self) -> u8
        ensures { result ≡ count_of self.now }
    {
        match self.phase {
            Phase::Awaiting { count, .. } => count,
            Phase::Unassigned | Phase::Assigned { .. } => 0,
        }
    }

    /// The reference of the outstanding request in states 2 and 3, or of the request that obtained
    /// the TEI in state 4. `None` in state 1 and for a fixed TEI.
    pub fn reference(&self) -> Option<u16>
        ensures { result ≡ reference_of self.now }
    {
        match self.phase {
            Phase::Unassigned => None,
            Phase::Awaiting { ri, .. } => Some(ri),
            Phase::Assigned { by, .. } => by,
        }
    }

    /// Whether the terminal awaits a TEI (state 2 or 3). T202 runs then.
    pub fn is_awaiting(&self) -> bool
        ensures { result ≡ is_awaiting self.now }
    {
        match self.phase {
            Phase::Awaiting { .. } => true,
            Phase::Unassigned | Phase::Assigned { .. } => false,
        }
    }

    /// Processes an event and returns the resulting outputs, in order. Does not allocate. An event
    /// that does not apply in the current state is ignored.
    pub fn handle(&mut self, event: TerminalEvent) -> TeiOuts
        ensures now { self.new ≡ (terminal_step self.old event).now }
        ensures outs { result.items ≡ (terminal_step self.old event).outs }
        ensures in_range { All IsInRange result.items }
    {
        let (phase, outs) = step(self.phase, event);
        self.phase = phase;
        outs
    }
}

fn step(phase: Phase, event: TerminalEvent) -> (Phase, TeiOuts)
    requires { IsTerminal phase }
    ensures now { result.0 ≡ (terminal_step phase event).now }
    ensures outs { result.1.items ≡ (terminal_step phase event).outs }
    ensures in_range { All IsInRange result.1.items }
{
    match phase {
        Phase::Unassigned => unassigned(event),
        Phase::Awaiting { purpose, count, ri } => awaiting(purpose, count, ri, event),
        Phase::Assigned { by, tei } => assigned(by, tei, event),
    }
}

/// Steps from state 1.
fn unassigned(event: TerminalEvent) -> (Phase, TeiOuts)
    ensures now { result.0 ≡ (terminal_step Unassigned event).now }
    ensures outs { result.1.items ≡ (terminal_step Unassigned event).outs }
    ensures in_range { All IsInRange result.1.items }
{
    match event {
        TerminalEvent::Ask(ri) => ask(Purpose::Assignment, 1, ri),
        TerminalEvent::Want(ri) => ask(Purpose::Establishment, 1, ri),
        _ => (Phase::Unassigned, no_outs()),
    }
}

/// Steps from states 2 and 3.
fn awaiting(purpose: Purpose, count: u8, ri: u16, event: TerminalEvent) -> (Phase, TeiOuts)
    ensures now { result.0 ≡ (terminal_step (Awaiting purpose count ri) event).now }
    ensures outs { result.1.items ≡ (terminal_step (Awaiting purpose count ri) event).outs }
    ensures in_range { All IsInRange result.1.items }
{
    match event {
        TerminalEvent::Ask(_) => (Phase::Awaiting { purpose, count, ri }, no_outs()),
        TerminalEvent::Want(_) => {
            let purpose = Purpose::Establishment;
            (Phase::Awaiting { purpose, count, ri }, no_outs())
        }
        TerminalEvent::Heard(message, _) => awaiting_receives(purpose, count, ri, message),
        TerminalEvent::T202(new) => {
            if count < N202 {
                ask(purpose, count + 1, new)
            } else {
                (Phase::Unassigned, one_out(TeiOut::Failed))
            }
        }
        TerminalEvent::Leave => (Phase::Unassigned, one_out(TeiOut::Stop(Timer::T202))),
    }
}

/// Steps from state 4.
fn assigned(by: Option<u16>, tei: Tei, event: TerminalEvent) -> (Phase, TeiOuts)
    requires { tei < 127 }
    ensures now { result.0 ≡ (terminal_step (Assigned by tei) event).now }
    ensures outs { result.1.items ≡ (terminal_step (Assigned by tei) event).outs }
    ensures in_range { All IsInRange result.1.items }
{
    match event {
        TerminalEvent::Heard(message, ri) => assigned_receives(by, tei, message, ri),
        TerminalEvent::Leave => gone(tei),
        _ => (Phase::Assigned { by, tei }, no_outs()),
    }
}

/// Requests a TEI for the `count`th time (Q.921 5.3.2).
fn ask(purpose: Purpose, count: u8, ri: u16) -> (Phase, TeiOuts)
    ensures now { result.0 ≡ Awaiting purpose count ri }
    ensures outs { result.1.items ≡ Send (request ri) ∷ Start T202 ∷ [] }
    ensures in_range { All IsInRange result.1.items }
{
    let request = TeiMessage {
        ri,
        kind: TeiKind::Request,
        ai: Tei::group().value(),
    };
    let outs = two_outs(TeiOut::Send(request), TeiOut::Start(Timer::T202));
    (Phase::Awaiting { purpose, count, ri }, outs)
}

/// Removes the terminal's TEI.
fn gone(tei: Tei) -> (Phase, TeiOuts)
    ensures now { result.0 ≡ Unassigned }
    ensures outs { result.1.items ≡ Gone tei ∷ [] }
    ensures in_range { All IsInRange result.1.items }
{
    (Phase::Unassigned, one_out(TeiOut::Gone(tei)))
}

/// Processes a message while the terminal awaits a TEI.
fn awaiting_receives(purpose: Purpose, count: u8, ri: u16, message: TeiMessage) -> (Phase, TeiOuts)
    ensures now { result.0 ≡ (awaiting_receives purpose count ri message.kind message.ri
        message.ai).now }
    ensures outs { result.1.items ≡ (awaiting_receives purpose count ri message.kind message.ri
        message.ai).outs }
    ensures in_range { All IsInRange result.1.items }
{
    match (message.kind, Tei::new(message.ai)) {
        (TeiKind::Assigned, Some(tei)) if message.ri == ri && is_automatic(message.ai) => {
            let outs = two_outs(TeiOut::Stop(Timer::T202), TeiOut::Got(tei));
            (Phase::Assigned { by: Some(ri), tei }, outs)
        }
        _ => (Phase::Awaiting { purpose, count, ri }, no_outs()),
    }
}

/// Processes a message while the terminal has a TEI. A response uses the reference `ri`.
#[tactic(auto, using(crate::proofs::Named::one_is_named))]
fn assigned_receives(by: Option<u16>, tei: Tei, message: TeiMessage, ri: u16) -> (Phase, TeiOuts)
    requires { tei < 127 }
    ensures now { result.0 ≡ (assigned_receives by tei message.kind message.ri message.ai ri).now }
    ensures outs { result.1.items ≡ (assigned_receives by tei message.kind message.ri message.ai
        ri).outs }
    ensures in_range { All IsInRange result.1.items }
{
    let own = message.ai == tei.value();
    let named = own || message.ai == Tei::group().value();
    match message.kind {
        TeiKind::Assigned if own && by != Some(message.ri) => gone(tei),
        TeiKind::CheckRequest if named => {
            let response = TeiMessage {
                ri,
                kind: TeiKind::CheckResponse,
                ai: tei.value(),
            };
            (Phase::Assigned { by, tei }, one_out(TeiOut::Send(response)))
        }
        TeiKind::Remove if named => gone(tei),
        _ => (Phase::Assigned { by, tei }, no_outs()),
    }
}

/// Whether the network side may assign this TEI (Q.921 3.3.4.2).
fn is_automatic(tei: u8) -> bool
    ensures { result ≡ is_automatic tei }
{
    64 <= tei && tei <= 126
}
