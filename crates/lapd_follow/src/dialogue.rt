ghost use Rattle.std.specs.Prelude.{◌≡◌, IfOk};
ghost use Rattle.lapd_follow.specs.Exchange.{Exchange, turned, sender_begins, commands, disconnects, begins_establishment, accepts, accepts_late, acknowledges_mode, takes_nr, polls, sends, answers, poll_or_final, answers_only_poll, busy_if, busy_after_rnr, reports, supervises, after_control, learns_ns, learns_nr, learns_from, is_unnumbered, learns, is_learned, numbered, numbered_if_learned};

use crate::end::{Busy, End};
use crate::numbering::{counter, is_valid_nr};
use crate::{Packet, Polls};
use lapd_frame::{Control, Number, Role, Side};
use std::marker::Model;
use std::mem;

/// Both ends, as the sender of the next frame sees them.
#[derive(Drop)]
pub(crate) struct Dialogue {
    /// The ends are boxed, so that a change of the sender moves only pointers.
    pub(crate) from: Box<End>,
    pub(crate) to: Box<End>,
    pub(crate) establishments: u64,
    /// Whether the last one is known to last.
    pub(crate) is_established: bool,
}

impl Model for Dialogue {
    ghost use Rattle.lapd_follow.specs.Exchange.{Exchange};

    ghost Value = { Exchange };

    ghost view = { λ d. record {
      from = d.from.value;
      to = d.to.value;
      establishments = d.establishments;
      is_established = d.is_established;
    } };
}

/// A change of the sender.
#[tactic(auto, unfolding(crate::specs::Exchange::turned))]
impl Dialogue {
    /// Turns the view of the sender `before` into that of the sender `now`.
    pub(crate) fn turn(&mut self, before: Side, now: Side)
        ensures { self.new ≡ turned before now self.old }
    {
        match (before, now) {
            (Side::Network, Side::User) | (Side::User, Side::Network) => {
                mem::swap(&mut self.from, &mut self.to);
            }
            _ => {}
        }
    }
}

/// U frames.
#[tactic(auto, unfolding(crate::specs::Exchange::sender_begins, crate::specs::Exchange::commands, crate::specs::Exchange::disconnects, crate::specs::Exchange::accepts, crate::specs::Exchange::accepts_late, crate::specs::Exchange::acknowledges_mode))]
impl Dialogue {
    /// The sender begins anew.
    fn begin(&mut self)
        ensures { self.new ≡ sender_begins self.old }
    {
        self.from.begin();
        self.to.lose_numbers();
        self.to.end_polls();
    }

    /// Takes a SABME or a DISC, with this P bit.
    fn command(&mut self, is_sabme: bool, p: bool, packet: Packet)
        ensures { self.new ≡ commands is_sabme p packet self.old }
    {
        let is_released = self.to.is_released && !is_sabme;
        self.begin();
        self.from.command(is_sabme, p, packet);
        self.to.set_released(is_released);
    }

    /// Takes a DM.
    fn disconnect(&mut self, f: bool)
        ensures { self.new ≡ disconnects f self.old }
    {
        self.begin();
        self.from.set_released(true);
        self.is_established = false;
        if f {
            self.to.take_command_answer();
        }
    }

    /// Whether a UA begins an establishment.
    pub(crate) fn begins_establishment(&self) -> bool
        ensures { result ≡ begins_establishment self.now }
    {
        self.to.awaits_ua() && !self.from.awaits_ua()
    }

    /// Takes a UA that answers the last SABME or DISC.
    fn accept(&mut self)
        ensures { self.new ≡ accepts self.old }
    {
        let is_beginning = self.begins_establishment();
        if is_beginning {
            self.establishments = self.establishments.saturating_add(1);
        }
        let is_release = self.to.awaits_release();
        self.is_established = !is_release && (is_beginning || self.is_established);
        self.from.begin();
        self.from.end_polls();
        self.from.set_released(is_release);
        let is_released = self.to.is_released && is_release;
        self.to.set_released(is_released);
        self.to.report(Busy::Free);
        self.to.end_polls();
        self.to.take_command_answer();
    }

    /// Takes a UA that answers an earlier SABME or DISC, or none.
    fn accept_late(&mut self)
        ensures { self.new ≡ accepts_late self.old }
    {
        self.from.begin();
        self.from.set_released(false);
        self.to.set_released(false);
        self.to.lose_numbers();
        self.to.take_command_answer();
    }

    /// Takes a UA.
    fn acknowledge_mode(&mut self)
        ensures { self.new ≡ acknowledges_mode self.old }
    {
        if self.to.commands.last.is_some() {
            self.accept();
        } else {
            self.accept_late();
        }
    }
}

/// I and S frames.
#[tactic(auto, unfolding(crate::specs::Exchange::takes_nr, crate::specs::Exchange::polls, crate::specs::Exchange::sends, crate::specs::Exchange::answers, crate::specs::Exchange::reports))]
impl Dialogue {
    /// Takes an N(R) of the sender.
    fn take_nr(&mut self, nr: Number)
        ensures { self.new ≡ takes_nr nr self.old }
    {
        let nr = counter(nr);
        if is_valid_nr(nr, self.from.numbering, self.to.numbering) {
            self.from.acknowledge(nr);
            self.to.take_acknowledgement(nr);
        }
    }

    /// Takes the P bit of a command.
    fn poll(&mut self, p: bool, packet: Packet)
        ensures { self.new ≡ polls p packet self.old }
    {
        if p {
            self.from.poll(packet);
        }
    }

    /// Takes an I frame.
    fn send(&mut self, ns: Number, octets: Vec<u8>)
        ensures { self.new ≡ sends ns octets.items self.old }
    {
        self.from.send(counter(ns), octets);
    }

    /// Takes the F bit of an S response.
    fn answer(&mut self, f: bool)
        ensures { self.new ≡ answers f self.old }
    {
        if f {
            self.to.take_response();
        }
    }

    /// Takes the busy condition that the sender reports.
    fn report(&mut self, busy: Busy)
        ensures { self.new ≡ reports busy self.old }
    {
        self.from.report(busy);
    }
}

/// S frames.
#[tactic(auto, unfolding(crate::specs::Exchange::supervises))]
impl Dialogue {
    /// Takes the P or F bit of an S frame.
    fn poll_or_answer(&mut self, role: Role, pf: bool, packet: Packet)
        ensures { self.new ≡ poll_or_final role pf packet self.old }
    {
        match role {
            Role::Command => self.poll(pf, packet),
            Role::Answer => self.answer(pf),
        }
    }

    /// The busy condition of the sender after its RNR.
    fn busy_after_rnr(&self, role: Role, pf: bool) -> Busy
        ensures { result ≡ busy_after_rnr role pf self.now }
    {
        busy_if(self.from.busy, answers_only_poll(role, pf, self.to.polls))
    }

    /// Takes an S frame.
    fn supervise(&mut self, role: Role, pf: bool, nr: Number, busy: Busy, packet: Packet)
        ensures { self.new ≡ supervises role pf nr busy packet self.old }
    {
        self.take_nr(nr);
        self.report(busy);
        self.poll_or_answer(role, pf, packet);
    }
}

/// Numbers that are learned.
#[tactic(auto, unfolding(crate::specs::Exchange::learns_ns, crate::specs::Exchange::learns_nr, crate::specs::Exchange::learns, crate::specs::Exchange::numbered, crate::specs::Exchange::numbered_if_learned))]
impl Dialogue {
    /// Learns from an N(S) and a P bit.
    fn learn_ns(&mut self, ns: Number, p: bool)
        ensures { self.new ≡ learns_ns ns p self.old }
    {
        let learned = self.from.learned.with_ns(counter(ns), p);
        self.from.learn(learned);
    }

    /// Learns from an N(R), in a frame that answers the only open poll or not.
    fn learn_nr(&mut self, is_answer: bool, nr: Number)
        ensures { self.new ≡ learns_nr is_answer nr self.old }
    {
        let learned = self.to.learned.with_response(is_answer, counter(nr));
        self.to.learn(learned);
    }

    fn learn_from(&mut self, control: &Control, role: Role)
        ensures { self.new ≡ learns_from control.now role self.old }
    {
        match *control {
            Control::I { ns, nr, p } => {
                self.learn_nr(false, nr);
                self.learn_ns(ns, p);
            }
            Control::Rr { nr, pf } | Control::Rnr { nr, pf } | Control::Rej { nr, pf } => {
                let is_answer = answers_only_poll(role, pf, self.to.polls);
                self.learn_nr(is_answer, nr);
            }
            _ => {}
        }
    }

    /// Whether the numbers of neither end are known.
    fn is_unnumbered(&self) -> bool
        ensures { result ≡ is_unnumbered self.now }
    {
        !(self.from.numbering.is_some() || self.to.numbering.is_some())
    }

    /// Learns from a frame, while the numbers of neither end are known.
    pub(crate) fn learn(&mut self, control: &Control, role: Role)
        ensures { self.new ≡ learns control.now role self.old }
    {
        if self.is_unnumbered() {
            self.learn_from(control, role);
        }
    }

    /// Whether the numbers of both ends are learned, and are not yet used.
    pub(crate) fn is_learned(&self) -> bool
        ensures { result ≡ is_learned self.now }
    {
        self.is_unnumbered() && self.from.learned.numbering(self.to.learned).is_some()
    }

    /// Follows the link by the numbers that are learned.
    fn number(&mut self)
        ensures { self.new ≡ numbered self.old }
    {
        let from = self.from.learned.numbering(self.to.learned);
        let to = self.to.learned.numbering(self.from.learned);
        self.from.number(from);
        self.to.number(to);
        self.is_established = true;
    }

    fn number_if_learned(&mut self)
        ensures { self.new ≡ numbered_if_learned self.old }
    {
        if self.is_learned() {
            self.number();
        }
    }
}

/// Each frame.
#[tactic(auto)]
impl Dialogue {
    /// Takes a frame from which it has learned. `octets` are the information of an I frame.
    pub(crate) fn take(&mut self, control: &Control, role: Role, octets: Vec<u8>, packet: Packet)
        ensures { self.new ≡ numbered_if_learned
            (after_control control.now role octets.items packet self.old) }
    {
        self.take_control(control, role, octets, packet);
        self.number_if_learned();
    }

    /// Takes a frame with this control field and role.
    fn take_control(&mut self, control: &Control, role: Role, octets: Vec<u8>, packet: Packet)
        ensures { self.new ≡ after_control control.now role octets.items packet self.old }
    {
        match *control {
            Control::I { ns, nr, p } => {
                self.take_nr(nr);
                self.send(ns, octets);
                self.poll(p, packet);
            }
            Control::Rr { nr, pf } | Control::Rej { nr, pf } => {
                self.supervise(role, pf, nr, Busy::Free, packet);
            }
            Control::Rnr { nr, pf } => {
                let busy = self.busy_after_rnr(role, pf);
                self.supervise(role, pf, nr, busy, packet);
            }
            Control::Sabme { p } => self.command(true, p, packet),
            Control::Disc { p } => self.command(false, p, packet),
            Control::Dm { f } => self.disconnect(f),
            Control::Ua { .. } => self.acknowledge_mode(),
            Control::Ui { .. } | Control::Frmr { .. } | Control::Xid { .. } => {}
        }
    }
}

/// Whether an S frame answers the only poll that may still be answered.
fn answers_only_poll(role: Role, pf: bool, polls: Polls) -> bool
    ensures { result ≡ answers_only_poll role pf polls }
{
    match role {
        Role::Command => false,
        Role::Answer => pf && polls.is_only_one(),
    }
}

/// The busy condition after an RNR.
fn busy_if(busy: Busy, is_answer: bool) -> Busy
    ensures { result ≡ busy_if busy is_answer }
{
    match busy {
        Busy::Answered => Busy::Answered,
        Busy::Free | Busy::Reported => {
            if is_answer {
                Busy::Answered
            } else {
                Busy::Reported
            }
        }
    }
}
