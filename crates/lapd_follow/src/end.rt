ghost use Rattle.std.specs.Prelude.{◌≡◌, IfOk};
ghost use Rattle.lapd_follow.specs.Ends.{EndKnown, new_end, begun, unnumbered, with_learned, with_numbering, with_release, with_busy, has_polled, poll_answered, polls_ended, has_commanded, command_answered, commands_ended, has_sent, has_acknowledged, is_acknowledged, keep_last};
ghost use Rattle.lapd_follow.specs.Exchange.{answered, answers_disc, awaits_ua};

use crate::learned::Learned;
use crate::numbering::{first_numbering, is_next, left_after, with_nr, with_ns};
use crate::unacknowledged::Unacknowledged;
use crate::{Numbering, Packet, Polls};
use lapd_mod128::Seq;
use std::alloc::{AllocError, Global};
use std::marker::Model;

/// The busy condition that an end reported (Q.921 5.6.5).
#[derive(Clone, Copy, Debug, PartialEq, Eq)]
pub enum Busy {
    /// It takes I frames.
    Free,
    /// It sent an RNR, which its peer may not have received.
    Reported,
    /// It sent an RNR that answered a poll of its peer.
    Answered,
}

/// The state of one end, as far as the frames so far show it.
#[derive(Drop)]
pub(crate) struct End {
    pub(crate) numbering: Option<Numbering>,
    pub(crate) learned: Learned,
    pub(crate) unacknowledged: Unacknowledged,
    pub(crate) busy: Busy,
    pub(crate) polls: Polls,
    /// Its last poll, if it awaits an answer.
    pub(crate) awaited: Option<Packet>,
    pub(crate) commands: Polls,
    /// Whether its last SABME or DISC is a SABME, and whether that has P=1.
    pub(crate) is_establishing: bool,
    pub(crate) is_polling: bool,
    /// Whether it sends no I or S frame until its link is established again.
    pub(crate) is_released: bool,
}

impl Model for End {
    ghost use Rattle.lapd_follow.specs.Ends.{EndKnown};

    ghost Value = { EndKnown };

    ghost view = { λ e. record {
      numbering = e.numbering;
      learned = e.learned;
      unacknowledged = e.unacknowledged;
      busy = e.busy;
      polls = e.polls;
      awaited = e.awaited;
      commands = e.commands;
      is_establishing = e.is_establishing;
      is_polling = e.is_polling;
      is_released = e.is_released;
    } };
}

/// A new end, and its establishments.
#[tactic(auto, unfolding(crate::specs::Ends::new_end, crate::specs::Ends::begun, crate::specs::Ends::unnumbered, crate::specs::Ends::with_learned, crate::specs::Ends::with_numbering, crate::specs::Ends::with_release, crate::specs::Ends::with_busy))]
impl End {
    /// An end of which nothing was seen.
    pub(crate) fn new(alloc: Global) -> Result<End, AllocError>
        ensures { IfOk result (λ e. e ≡ new_end) }
    {
        Ok(End {
            numbering: None,
            learned: Learned::Nothing,
            unacknowledged: Unacknowledged::new(alloc)?,
            busy: Busy::Free,
            polls: Polls::unseen(),
            awaited: None,
            commands: Polls::unseen(),
            is_establishing: false,
            is_polling: false,
            is_released: false,
        })
    }

    /// The end begins anew: its next I or S frame counts from 0.
    pub(crate) fn begin(&mut self)
        ensures { self.new ≡ begun self.old }
    {
        self.numbering = Some(first_numbering());
        self.unacknowledged.clear();
        self.busy = Busy::Free;
        self.awaited = None;
    }

    /// Its numbers are not known any more.
    pub(crate) fn lose_numbers(&mut self)
        ensures { self.new ≡ unnumbered self.old }
    {
        self.numbering = None;
        self.unacknowledged.clear();
        self.busy = Busy::Free;
        self.awaited = None;
    }

    /// Its numbers are these.
    pub(crate) fn number(&mut self, numbering: Option<Numbering>)
        ensures { self.new ≡ with_numbering numbering self.old }
    {
        self.numbering = numbering;
    }

    /// This is learned of its numbers.
    pub(crate) fn learn(&mut self, learned: Learned)
        ensures { self.new ≡ with_learned learned self.old }
    {
        self.learned = learned;
    }

    /// Its link is released, or not.
    pub(crate) fn set_released(&mut self, is_released: bool)
        ensures { self.new ≡ with_release is_released self.old }
    {
        self.is_released = is_released;
    }

    /// It reported this condition.
    pub(crate) fn report(&mut self, busy: Busy)
        ensures { self.new ≡ with_busy busy self.old }
    {
        self.busy = busy;
    }
}

/// Polls and their answers.
#[tactic(auto, unfolding(crate::specs::Ends::has_polled, crate::specs::Ends::poll_answered, crate::specs::Ends::polls_ended, crate::specs::Ends::has_commanded, crate::specs::Ends::command_answered, crate::specs::Ends::commands_ended))]
impl End {
    /// It sent an I or S command with P=1.
    pub(crate) fn poll(&mut self, packet: Packet)
        ensures { self.new ≡ has_polled packet self.old }
    {
        self.polls = self.polls.sent(packet);
        self.awaited = Some(packet);
    }

    /// Its poll is answered.
    fn take_poll_answer(&mut self)
        ensures { self.new ≡ poll_answered self.old }
    {
        self.polls = self.polls.answered();
        self.awaited = None;
    }

    /// Its polls are not answered any more.
    pub(crate) fn end_polls(&mut self)
        ensures { self.new ≡ polls_ended self.old }
    {
        self.polls = Polls::ended();
        self.awaited = None;
    }

    /// It sent a SABME or a DISC, with this P bit.
    pub(crate) fn command(&mut self, is_sabme: bool, p: bool, packet: Packet)
        ensures { self.new ≡ has_commanded is_sabme p packet self.old }
    {
        self.commands = self.commands.sent(packet);
        self.is_establishing = is_sabme;
        self.is_polling = p;
        self.is_released = self.is_released || !is_sabme;
    }

    /// Its SABME or DISC is answered.
    pub(crate) fn take_command_answer(&mut self)
        ensures { self.new ≡ command_answered self.old }
    {
        self.commands = self.commands.answered();
    }

    /// Its SABMEs and DISCs are not answered any more.
    fn end_commands(&mut self)
        ensures { self.new ≡ commands_ended self.old }
    {
        self.commands = Polls::ended();
    }

    /// Whether it sent a SABME that is not answered.
    pub(crate) fn awaits_ua(&self) -> bool
        ensures { result ≡ awaits_ua self.now }
    {
        self.commands.last.is_some() && self.is_establishing
    }

    /// Whether a UA answers its DISC, and can answer no SABME.
    pub(crate) fn awaits_release(&self) -> bool
        ensures { result ≡ answers_disc self.now }
    {
        !self.is_establishing && self.commands.unanswered == 1
    }
}

/// An S response with F=1 of the peer.
#[tactic(auto, unfolding(crate::specs::Exchange::answered))]
impl End {
    /// An S response of the peer answers a poll.
    pub(crate) fn take_response(&mut self)
        ensures { self.new ≡ answered self.old }
    {
        let is_current = self.polls.last.is_some() && self.commands.last.is_none();
        self.take_poll_answer();
        if is_current {
            self.end_commands();
        }
    }
}

/// I frames and their acknowledgements.
#[tactic(auto, unfolding(crate::specs::Ends::has_sent, crate::specs::Ends::has_acknowledged, crate::specs::Ends::is_acknowledged))]
impl End {
    /// It sent an I frame with these octets.
    pub(crate) fn send(&mut self, ns: Seq, octets: Vec<u8>)
        ensures { self.new ≡ has_sent ns octets.items self.old }
    {
        if is_next(ns, self.numbering) {
            self.unacknowledged.push(octets);
        }
        self.numbering = with_ns(ns, self.numbering);
    }

    /// It sent a valid N(R).
    pub(crate) fn acknowledge(&mut self, nr: Seq)
        ensures { self.new ≡ has_acknowledged nr self.old }
    {
        self.numbering = with_nr(nr, self.numbering);
    }

    /// A valid N(R) of its peer acknowledges its I frames.
    pub(crate) fn take_acknowledgement(&mut self, nr: Seq)
        ensures { self.new ≡ is_acknowledged nr self.old }
    {
        self.unacknowledged
            .keep_last(left_after(nr, self.numbering));
    }
}
