ghost use Rattle.std.specs.Prelude.{◌≡◌, ◌<◌, ◌≤◌, ◌&&◌, true, false, not, Some, IfSome, is_some};
ghost use Rattle.lapd_field.specs.Control.{field_of_message, field_of_response};
ghost use Rattle.lapd_mod128.specs.Counting.{Tagged, after};
ghost use Rattle.lapd_supervision.specs.StateVariables.{initial_variables, without_exceptions, with_zero_counters, status_frame, acknowledgement, without_ack_pending, is_accepted, is_rejected, poll_response, after_i_frame, i_frame_response, is_valid_nr, with_va, acknowledged_count, acknowledges_all, with_vs, may_send, next_i_frame, last_i_frame, after_sending, with_own_busy, with_peer_busy};

use crate::{Advance, Receipt};
use lapd_field::{Control, MessageField, Number, Response};
use lapd_mod128::Seq;
use std::marker::Model;

/// The counters and conditions of one end in multiple frame operation (Q.921 3.5.2, 5.6, 5.8).
///
/// V(S) is the number of the next I frame to send, V(A) the first one not yet acknowledged, V(R)
/// the next one expected. Each counts from 0 to 127, and 0 follows 127. A call changes only the
/// fields that its text names. Every supervisory frame that it returns has N(R) = V(R).
#[derive(Clone, Copy, Debug, Default, PartialEq, Eq)]
pub struct Window {
    vs: Seq,
    va: Seq,
    vr: Seq,
    peer_busy: bool,
    own_busy: bool,
    rejecting: bool,
    ack_pending: bool,
}

impl Model for Window {
    ghost use Rattle.std.specs.Prelude.{◌<◌};
    ghost use Rattle.lapd_supervision.specs.StateVariables.{StateVariables};

    ghost Value = { StateVariables };

    ghost view = { λ w. record {
      vs = w.vs;
      va = w.va;
      vr = w.vr;
      peer_busy = w.peer_busy;
      own_busy = w.own_busy;
      rejecting = w.rejecting;
      ack_pending = w.ack_pending;
    } };

    ghost invariant = { λ w. (w.vs < 128) × (w.va < 128) × (w.vr < 128) };

    ghost inverse = { λ m. record {
      vs = m.vs;
      va = m.va;
      vr = m.vr;
      peer_busy = m.peer_busy;
      own_busy = m.own_busy;
      rejecting = m.rejecting;
      ack_pending = m.ack_pending;
    } };
}

/// The initial window, and its fields.
#[tactic(auto, unfolding(crate::specs::StateVariables::initial_variables))]
impl Window {
    /// All counters 0 and all conditions false.
    pub fn new() -> Window
        ensures { result ≡ initial_variables }
    {
        Window::default()
    }

    /// V(S), the number of the next I frame to send (Q.921 3.5.2.2).
    pub fn vs(self) -> Seq
        ensures same { result ≡ self.vs }
        ensures in_range { result < 128 }
    {
        self.vs
    }

    /// V(A), the number of the first I frame that the peer has not acknowledged (Q.921 3.5.2.3).
    pub fn va(self) -> Seq
        ensures same { result ≡ self.va }
        ensures in_range { result < 128 }
    {
        self.va
    }

    /// V(R), the number of the next I frame that is expected (Q.921 3.5.2.5).
    pub fn vr(self) -> Seq
        ensures same { result ≡ self.vr }
        ensures in_range { result < 128 }
    {
        self.vr
    }

    /// Whether the peer has reported that it is busy (Q.921 5.6.5).
    pub fn peer_busy(self) -> bool
        ensures { result ≡ self.peer_busy }
    {
        self.peer_busy
    }

    /// Whether this end is in the own receiver busy condition (Q.921 5.6.6).
    pub fn own_busy(self) -> bool
        ensures { result ≡ self.own_busy }
    {
        self.own_busy
    }

    /// Whether a REJ was sent and the I frame that it requests has not been received (Q.921 5.8.1).
    pub fn rejecting(self) -> bool
        ensures { result ≡ self.rejecting }
    {
        self.rejecting
    }

    /// Whether an accepted I frame has not been acknowledged (Q.921 5.6.2.2).
    pub fn ack_pending(self) -> bool
        ensures { result ≡ self.ack_pending }
    {
        self.ack_pending
    }
}

/// Establishment (Q.921 5.5.1.2).
#[tactic(auto, unfolding(crate::specs::StateVariables::without_exceptions, crate::specs::StateVariables::with_zero_counters))]
impl Window {
    /// Sets all four conditions to false.
    pub fn clear(self) -> Window
        ensures { result ≡ without_exceptions self }
    {
        Window {
            peer_busy: false,
            own_busy: false,
            rejecting: false,
            ack_pending: false,
            ..self
        }
    }

    /// Sets V(S), V(A) and V(R) to 0.
    pub fn zero(self) -> Window
        ensures { result ≡ with_zero_counters self }
    {
        let first = Seq::default();
        Window {
            vs: first,
            va: first,
            vr: first,
            ..self
        }
    }
}

/// Supervisory frames.
#[tactic(auto, unfolding(crate::specs::StateVariables::status_frame, crate::specs::StateVariables::acknowledgement, crate::specs::StateVariables::without_ack_pending))]
impl Window {
    /// RR, or RNR if own busy, with this P or F.
    fn status(self, pf: bool) -> Control
        ensures { result ≡ status_frame pf self }
    {
        let nr = number(self.vr);
        if self.own_busy {
            Control::Rnr { nr, pf }
        } else {
            Control::Rr { nr, pf }
        }
    }

    /// Sets ack pending to false.
    fn nothing_pending(self) -> Window
        ensures { result ≡ without_ack_pending self }
    {
        Window {
            ack_pending: false,
            ..self
        }
    }

    /// The RR with F=0 that acknowledges the accepted I frames (Q.921 5.6.2.2); ack pending false.
    pub fn acknowledge(self) -> (Window, Control)
        ensures window { result.0 ≡ without_ack_pending self }
        ensures control { result.1 ≡ acknowledgement self }
    {
        let (window, response) = self.acknowledge_response();
        (window, response.control())
    }

    /// As [`Window::acknowledge`], but the response is returned by its numbers.
    #[inline(always)]
    pub fn acknowledge_response(self) -> (Window, Response)
        ensures window { result.0 ≡ without_ack_pending self }
        ensures response { field_of_response result.1 ≡ acknowledgement self }
    {
        let response = Response {
            is_busy: false,
            nr: number(self.vr),
            f: false,
        };
        (self.nothing_pending(), response)
    }
}

/// Polls, received and sent.
#[tactic(auto)]
impl Window {
    /// The response to a command with P=1: RR with F=1, or RNR if own busy (Q.921 5.6.2.1, 5.6.6);
    /// ack pending false.
    pub fn answer_poll(self) -> (Window, Control)
        ensures window { result.0 ≡ without_ack_pending self }
        ensures control { result.1 ≡ status_frame true self }
    {
        let (window, response) = self.answer_poll_response();
        (window, response.control())
    }

    /// As [`Window::answer_poll`], but the response is returned by its numbers.
    #[inline(always)]
    #[tactic(auto, unfolding(crate::specs::StateVariables::status_frame, crate::specs::StateVariables::without_ack_pending))]
    pub fn answer_poll_response(self) -> (Window, Response)
        ensures window { result.0 ≡ without_ack_pending self }
        ensures response { field_of_response result.1 ≡ status_frame true self }
    {
        let response = Response {
            is_busy: self.own_busy,
            nr: number(self.vr),
            f: true,
        };
        (self.nothing_pending(), response)
    }

    /// The command that requests the peer's status: RR with P=1, or RNR if own busy (Q.921 5.6.7);
    /// ack pending false.
    pub fn enquiry(self) -> (Window, Control)
        ensures window { result.0 ≡ without_ack_pending self }
        ensures control { result.1 ≡ status_frame true self }
    {
        let poll = self.status(true);
        (self.nothing_pending(), poll)
    }

    /// Answers if `p` is a poll.
    #[tactic(auto, unfolding(crate::specs::StateVariables::poll_response, crate::specs::StateVariables::without_ack_pending))]
    fn polled(self, p: bool) -> (Window, Option<Control>)
        ensures window { result.0 ≡ record self { ack_pending = not p && self.ack_pending } }
        ensures answer { result.1 ≡ poll_response p self }
    {
        if p {
            let (window, control) = self.answer_poll();
            (window, Some(control))
        } else {
            (self, None)
        }
    }
}

/// Receiving an I frame, by its N(S).
#[tactic(auto, unfolding(crate::specs::StateVariables::is_accepted, crate::specs::StateVariables::is_rejected, crate::specs::StateVariables::after_i_frame, crate::specs::StateVariables::i_frame_response, crate::specs::StateVariables::poll_response, crate::specs::StateVariables::status_frame))]
impl Window {
    /// Receives an I frame with this N(S) and P.
    ///
    /// - Own busy: it is discarded, and a poll is answered (Q.921 5.6.6).
    /// - N(S) = V(R): it is accepted, V(R) is incremented and rejecting ends; a poll is answered,
    ///   else ack pending is true (5.6.2).
    /// - Otherwise it is discarded. The first such frame is answered by REJ with F=P; rejecting is
    ///   true and ack pending false. For the frames that follow, a poll is answered (5.8.1).
    #[inline(always)]
    pub fn take_ns(self, ns: Number, p: bool) -> (Window, Receipt)
        ensures window { result.0 ≡ after_i_frame Tagged ns p self }
        ensures accepted { result.1.accepted ≡ is_accepted ns self }
        ensures answer { result.1.answer ≡ i_frame_response Tagged ns p self }
    {
        if self.own_busy {
            self.discard(p)
        } else if ns.value() == self.vr.value() {
            self.accept(p)
        } else if self.rejecting {
            self.discard(p)
        } else {
            self.reject(p)
        }
    }

    /// Discards an I frame, and answers a poll.
    fn discard(self, p: bool) -> (Window, Receipt)
        ensures window { result.0 ≡ record self { ack_pending = not p && self.ack_pending } }
        ensures accepted { result.1.accepted ≡ false }
        ensures answer { result.1.answer ≡ poll_response p self }
    {
        let (window, answer) = self.polled(p);
        (
            window,
            Receipt {
                accepted: false,
                answer,
            },
        )
    }

    /// Accepts the I frame, which is the next one.
    fn accept(self, p: bool) -> (Window, Receipt)
        ensures window { result.0 ≡ record self {
          vr = after Tagged self.vr;
          rejecting = false;
          ack_pending = not p;
        } }
        ensures accepted { result.1.accepted ≡ true }
        ensures answer { result.1.answer ≡ poll_response p result.0 }
    {
        let taken = Window {
            vr: self.vr.next(),
            rejecting: false,
            ack_pending: true,
            ..self
        };
        let (window, answer) = taken.polled(p);
        (
            window,
            Receipt {
                accepted: true,
                answer,
            },
        )
    }

    /// Requests the I frames from V(R) on.
    fn reject(self, p: bool) -> (Window, Receipt)
        ensures window { result.0 ≡ record self { rejecting = true; ack_pending = false } }
        ensures accepted { result.1.accepted ≡ false }
        ensures answer { result.1.answer ≡ Some (Control.Rej self.vr p) }
    {
        let answer = Some(Control::Rej {
            nr: number(self.vr),
            pf: p,
        });
        let window = Window {
            rejecting: true,
            ack_pending: false,
            ..self
        };
        (
            window,
            Receipt {
                accepted: false,
                answer,
            },
        )
    }
}

/// Receiving an N(R).
#[tactic(auto, unfolding(crate::specs::StateVariables::is_valid_nr, crate::specs::StateVariables::with_va, crate::specs::StateVariables::acknowledged_count, crate::specs::StateVariables::acknowledges_all, crate::specs::StateVariables::with_vs))]
impl Window {
    /// Sets V(A) to this N(R), and returns what it acknowledges; `None` if it does not lie from
    /// V(A) to V(S), counted modulo 128 (Q.921 3.5.2.3, 5.6.3.2, 5.8.2).
    #[inline(always)]
    pub fn take_nr(self, nr: Number) -> Option<(Window, Advance)>
        ensures valid { is_some result ≡ is_valid_nr Tagged nr self }
        ensures window { IfSome result (λ taken. taken.0 ≡ with_va nr self) }
        ensures count { IfSome result (λ taken. taken.1.count ≡ acknowledged_count Tagged nr self) }
        ensures all { IfSome result (λ taken. taken.1.all ≡ acknowledges_all nr self) }
    {
        let va = counter(nr);
        if Seq::within(self.va, va, self.vs) {
            let count = Seq::distance(self.va, va);
            let all = va.value() == self.vs.value();
            Some((Window { va, ..self }, Advance { count, all }))
        } else {
            None
        }
    }

    /// Sets V(S) to this N(R), so that the I frames from it on are retransmitted (Q.921 5.6.4,
    /// 5.8.3). Call `take_nr` with the same N(R) first.
    pub fn go_back(self, nr: Number) -> Window
        ensures { result ≡ with_vs nr self }
    {
        Window {
            vs: counter(nr),
            ..self
        }
    }
}

/// Sending an I frame.
#[tactic(auto, unfolding(crate::specs::StateVariables::may_send, crate::specs::StateVariables::next_i_frame, crate::specs::StateVariables::after_sending, crate::specs::StateVariables::without_ack_pending))]
impl Window {
    /// Whether one more I frame may be sent: the peer is not busy, and fewer than `k` are
    /// outstanding (Q.921 5.6.1, 5.9.5).
    pub fn may_send(self, k: u8) -> bool
        requires positive { 1 ≤ k }
        requires at_most { k ≤ 127 }
        ensures { result ≡ may_send Tagged k self }
    {
        !self.peer_busy && Seq::window_open(self.va, self.vs, k)
    }

    /// The next I frame, with P=0; V(S) is incremented, ack pending false (Q.921 5.6.1).
    pub fn send(self) -> (Window, Control)
        ensures window { result.0 ≡ after_sending Tagged self }
        ensures control { result.1 ≡ next_i_frame self }
    {
        let (window, field) = self.send_message();
        (window, field.control())
    }

    /// As [`Window::send`], but the control field is returned by its numbers.
    #[inline(always)]
    pub fn send_message(self) -> (Window, MessageField)
        ensures window { result.0 ≡ after_sending Tagged self }
        ensures field { field_of_message result.1 ≡ next_i_frame self }
    {
        let field = MessageField {
            ns: number(self.vs),
            nr: number(self.vr),
        };
        let window = Window {
            vs: self.vs.next(),
            ..self.nothing_pending()
        };
        (window, field)
    }

    /// The last sent I frame again, with P=1: N(S) = V(S) - 1; V(S) is unchanged, ack pending false
    /// (Q.921 5.6.7 b).
    #[tactic(auto, unfolding(crate::specs::StateVariables::last_i_frame, crate::specs::StateVariables::without_ack_pending))]
    pub fn send_last(self) -> (Window, Control)
        ensures window { result.0 ≡ without_ack_pending self }
        ensures control { result.1 ≡ last_i_frame Tagged self }
    {
        let control = Control::I {
            ns: number(self.vs.back()),
            nr: number(self.vr),
            p: true,
        };
        (self.nothing_pending(), control)
    }
}

/// Busy conditions begin and end.
#[tactic(auto, unfolding(crate::specs::StateVariables::with_own_busy, crate::specs::StateVariables::with_peer_busy, crate::specs::StateVariables::without_ack_pending))]
impl Window {
    /// Begins or ends the own receiver busy condition, and returns the RNR or RR with F=0 that
    /// reports it to the peer; ack pending false (Q.921 5.6.6).
    pub fn own(self, busy: bool) -> (Window, Control)
        ensures window { result.0 ≡ with_own_busy busy self }
        ensures control { result.1 ≡ status_frame false (with_own_busy busy self) }
    {
        let window = Window {
            own_busy: busy,
            ..self.nothing_pending()
        };
        (window, window.status(false))
    }

    /// Begins or ends the peer receiver busy condition (Q.921 5.6.5).
    pub fn peer(self, busy: bool) -> Window
        ensures { result ≡ with_peer_busy busy self }
    {
        Window {
            peer_busy: busy,
            ..self
        }
    }
}

/// The sequence number of a counter.
fn number(counter: Seq) -> Number
    ensures { result ≡ counter }
{
    match Number::new(counter.value()) {
        Some(number) => number,
        None => unreachable!(),
    }
}

/// The counter with a sequence number.
fn counter(number: Number) -> Seq
    ensures same { result ≡ number }
    ensures in_range { result < 128 }
{
    match Seq::new(number.value()) {
        Some(counter) => counter,
        None => unreachable!(),
    }
}
