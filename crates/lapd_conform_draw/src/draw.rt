//! Drawing the stimuli of a round.

ghost use Rattle.std.specs.Prelude.{◌≡◌, IfOk, length};

use crate::expected::Expected;
use crate::round::{MOST_PAUSE, Round};
use crate::stimulus::{DrawnFrame, Stimulus};
use lapd_conform_player::{Preamble, Request, Stack, sent_octets};
use lapd_conform_suite::{Kind, read_line};
use lapd_frame::Role;
use lapd_link::{State, Timer};
use rand_core::Rng;
use rand_pcg::Pcg32;
use std::alloc::{AllocError, Global};

/// The TEI of the expected end, on which nothing depends.
const TEI: u8 = 0;

/// The states with which a round begins.
const PREAMBLES: [Preamble; 10] = [
    Preamble::Established,
    Preamble::OneOutstanding,
    Preamble::TeiAssigned,
    Preamble::Established,
    Preamble::AwaitingEstablishment,
    Preamble::TimerRecovery,
    Preamble::Established,
    Preamble::AwaitingRelease,
    Preamble::Established,
    Preamble::LineEstablishes,
];

/// Octets that do not form a valid frame (Q.921 2.9 and 5.8.5), each after the address.
const WRONG: [&str; 8] = [
    "C 3f", "R 7f", "C 73", "R 010000", "C 0d00", "C 01", "R 0000aa", "C 0f",
];

/// How far stimuli are from the expiry of a timer, in milliseconds.
const DISTANCE: u64 = 120;

/// The longest time for which a round waits until T203 expires, in milliseconds.
const MOST_IDLE: u64 = 20_000;

/// The greatest window that is filled.
const MOST_WINDOW: u8 = 16;

/// Draws the stimuli of a round.
#[derive(Drop)]
struct Drawer<'a> {
    alloc: Global,
    stack: &'a Stack,
    random: Pcg32,
    end: Expected,
    /// The last stimulus was a pause.
    has_paused: bool,
}

/// Draws the round with this number, from 1, and this number of stimuli. It depends only on the
/// seed, the number and the stack.
///
/// # Errors
///
/// An allocation failed.
pub fn draw_round(
    alloc: Global,
    stack: &Stack,
    seed: u64,
    number: u64,
    count: usize,
) -> Result<Round, AllocError>
    ensures { IfOk result (λ round. length round.stimuli.items ≡ count) }
{
    let mut drawer = Drawer {
        alloc,
        stack,
        random: Pcg32::new(seed, number),
        end: Expected::new(alloc, stack, TEI)?,
        has_paused: true,
    };
    let preamble = drawer.preamble(number);
    drawer.lead(preamble)?;
    let stimuli = drawer.stimuli(count)?;
    Ok(Round {
        seed,
        number,
        preamble,
        stimuli,
        waits: true,
    })
}

impl Drawer<'_> {
    /// Draws this number of stimuli.
    fn stimuli(&mut self, count: usize) -> Result<Vec<Stimulus>, AllocError>
        ensures { IfOk result (λ stimuli. length stimuli.items ≡ count) }
    {
        let mut stimuli = Vec::new(self.alloc);
        for _turn in 0..count {
            let stimulus = self.stimulus();
            self.take(stimulus)?;
            stimuli.push(stimulus)?;
        }
        Ok(stimuli)
    }

    /// A number below this one, or 0 if this one is 0.
    fn below(&mut self, limit: u32) -> u32 {
        self.random.next_u32().checked_rem(limit).unwrap_or(0)
    }

    /// A number modulo 128.
    fn number(&mut self) -> u8 {
        (self.below(128) % 128) as u8
    }

    /// One of `of` cases happens.
    fn once_in(&mut self, of: u32) -> bool {
        self.below(of) == 0
    }

    /// The state with which the round of this number begins: that of the table, if the stack can
    /// reach it, else state 7.
    fn preamble(&mut self, number: u64) -> Preamble {
        let turn = (number % 10) as usize;
        let preamble = PREAMBLES[turn];
        if self.stack.reaches(preamble) {
            preamble
        } else {
            Preamble::Established
        }
    }

    /// Leads the expected end into this state, as the player leads the stack.
    fn lead(&mut self, preamble: Preamble) -> Result<(), AllocError> {
        match preamble {
            Preamble::AwaitingEstablishment if self.stack.requests.establish => self
                .end
                .request(Request::Establish)?,
            Preamble::AwaitingEstablishment | Preamble::LineEstablishes => {
                self.establish()?;
                self.take(response(Kind::DisconnectedMode, false))?;
            }
            Preamble::AwaitingRelease => {
                self.establish()?;
                self.end.request(Request::Release)?;
            }
            Preamble::Established => self.establish()?,
            Preamble::TimerRecovery => {
                self.establish()?;
                self.take(response(Kind::ReceiveNotReady, false))?;
                self.expire_t200();
                self.take(response(Kind::ReceiveReady, false))?;
            }
            Preamble::OneOutstanding => {
                self.establish()?;
                self.end.request(Request::Give)?;
                self.expire_t200();
            }
            _ => {}
        }
        Ok(())
    }

    fn establish(&mut self) -> Result<(), AllocError> {
        self.take(command(Kind::Sabme, true))
    }

    fn expire_t200(&mut self) {
        if let Some(due) = self.end.due(Timer::T200) {
            let _ = self.end.expire(due);
        }
    }

    /// Does with the expected end what the stimulus does with the stack.
    fn take(&mut self, stimulus: Stimulus) -> Result<(), AllocError> {
        self.has_paused = matches!(stimulus, Stimulus::Pause(_));
        match stimulus {
            Stimulus::Send(_) | Stimulus::SendOctets(_) => self.send(stimulus),
            Stimulus::Request(request, count) => self.request_often(request, count),
            Stimulus::Pause(time) => {
                self.wait(u64::from(time));
                Ok(())
            }
        }
    }

    fn send(&mut self, stimulus: Stimulus) -> Result<(), AllocError> {
        let text = format!(in self.alloc; "{stimulus}")?;
        if let Ok(line) = read_line(text.as_bytes()) {
            let octets = sent_octets(self.alloc, self.stack, TEI, &line)?;
            self.end.receive(octets.as_slice());
        }
        Ok(())
    }

    fn request_often(&mut self, request: Request, count: u16) -> Result<(), AllocError> {
        for _turn in 0..count {
            self.end.request(request)?;
        }
        Ok(())
    }

    fn wait(&mut self, time: u64) {
        let until = self.end.now().saturating_add(time);
        for _turn in 0..MOST_PAUSE {
            if self.end.expire(until).is_none() {
                return;
            }
        }
    }

    /// The next stimulus: after a frame or a request mostly a pause, so that it is processed.
    fn stimulus(&mut self) -> Stimulus {
        if !self.has_paused && !self.once_in(4) {
            return self.pause();
        }
        if !self.has_paused
            && let Some(away) = self.away_from_timers(self.end.now())
        {
            return Stimulus::Pause(away);
        }
        match self.end.link().named_state() {
            State::MultipleFrameEstablished | State::TimerRecovery => self.open(),
            _ => self.closed(),
        }
    }

    /// A pause: a short one, or until a timer has expired.
    fn pause(&mut self) -> Stimulus {
        let now = self.end.now();
        let short = now
            .saturating_add(20)
            .saturating_add(u64::from(self.below(100)));
        let end = match self.below(40) {
            0..=4 => self.end.due(Timer::T200).unwrap_or(short),
            5 => self.idle_end(short),
            _ => short,
        };
        let time = match self.away_from_timers(end) {
            Some(more) => end.saturating_sub(now).saturating_add(u64::from(more)),
            None => end.saturating_sub(now),
        };
        Stimulus::Pause(time.min(MOST_PAUSE) as u32)
    }

    /// The moment at which T203 expires, if that is soon, or at which the judge misses the enquiry
    /// then.
    fn idle_end(&mut self, other: u64) -> u64 {
        let patience = if self.once_in(2) {
            self.stack.duration(Timer::T200).saturating_mul(4)
        } else {
            0
        };
        match self.end.due(Timer::T203) {
            Some(due) if due <= self.end.now().saturating_add(MOST_IDLE) => {
                due.saturating_add(patience)
            }
            _ => other,
        }
    }

    /// How much later a stimulus has to be than at this moment, so that its order to the expiry of
    /// T200 and T203 is known. `None` if it is known.
    fn away_from_timers(&self, moment: u64) -> Option<u32> {
        let first = self.away_from(moment, Timer::T200).unwrap_or(0);
        let second = self.away_from(moment, Timer::T203).unwrap_or(0);
        let more = first.max(second).min(MOST_PAUSE);
        if more == 0 { None } else { Some(more as u32) }
    }

    fn away_from(&self, moment: u64, timer: Timer) -> Option<u64> {
        let due = self.end.due(timer)?;
        let early = self.stack.duration(timer) / 10;
        let transit = u64::from(self.stack.delay).saturating_mul(2);
        let from = due.saturating_sub(early.saturating_add(DISTANCE).saturating_add(20));
        let until = due.saturating_add(transit).saturating_add(DISTANCE);
        if from < moment && moment < until {
            Some(until.saturating_sub(moment))
        } else {
            None
        }
    }

    /// A stimulus in states 7 and 8.
    fn open(&mut self) -> Stimulus {
        match self.below(100) {
            0..=23 => self.next_message(),
            24..=30 => self.other_message(),
            31..=45 => self.supervisory(Kind::ReceiveReady),
            46..=52 => self.supervisory(Kind::ReceiveNotReady),
            53..=60 => self.supervisory(Kind::Reject),
            61..=80 => self.request_open(),
            81..=83 => self.answer(Kind::DisconnectedMode),
            84..=86 => self.answer(Kind::UnnumberedAcknowledgement),
            87..=88 => self.answer(Kind::FrameReject),
            89..=90 => self.order(Kind::Sabme),
            91..=92 => self.order(Kind::Disconnect),
            93..=94 => self.order(Kind::ExchangeIdentification),
            95..=96 => command(Kind::UnnumberedInformation, false),
            _ => self.wrong(),
        }
    }

    /// A stimulus in states 4 to 6.
    fn closed(&mut self) -> Stimulus {
        match self.below(100) {
            0..=13 => self.order(Kind::Sabme),
            14..=21 => self.order(Kind::Disconnect),
            22..=47 => self.answer(Kind::UnnumberedAcknowledgement),
            48..=59 => self.answer(Kind::DisconnectedMode),
            60..=64 => self.other_message(),
            65..=69 => self.supervisory(Kind::ReceiveReady),
            70..=71 => self.supervisory(Kind::ReceiveNotReady),
            72..=73 => self.supervisory(Kind::Reject),
            74..=86 => self.request_closed(),
            87..=89 => self.answer(Kind::FrameReject),
            90..=92 => self.order(Kind::ExchangeIdentification),
            93..=94 => command(Kind::UnnumberedInformation, false),
            _ => self.wrong(),
        }
    }

    /// A U command, mostly with P=1.
    fn order(&mut self, kind: Kind) -> Stimulus {
        let bit = !self.once_in(4);
        command(kind, bit)
    }

    /// A U response, mostly with F=1.
    fn answer(&mut self, kind: Kind) -> Stimulus {
        let bit = !self.once_in(4);
        response(kind, bit)
    }

    fn wrong(&mut self) -> Stimulus {
        let place = (self.below(8) % 8) as usize;
        Stimulus::SendOctets(WRONG[place])
    }

    /// The I frame that the expected end takes next.
    fn next_message(&mut self) -> Stimulus {
        let send_number = self.end.link().window().vr().value();
        self.message(send_number)
    }

    /// An I frame out of sequence.
    fn other_message(&mut self) -> Stimulus {
        let next = self.end.link().window().vr().value();
        let send_number = match self.below(8) {
            0..=3 => next.wrapping_add(127) % 128,
            4..=6 => next.wrapping_add(1) % 128,
            _ => self.number(),
        };
        self.message(send_number)
    }

    fn message(&mut self, send_number: u8) -> Stimulus {
        let receive_number = self.receive_number();
        let bit = self.once_in(4);
        Stimulus::Send(DrawnFrame {
            role: Role::Command,
            kind: Kind::Information,
            send_number,
            receive_number,
            bit,
        })
    }

    /// RR, RNR or REJ: a response or a poll.
    fn supervisory(&mut self, kind: Kind) -> Stimulus {
        let receive_number = self.receive_number();
        let role = if self.once_in(2) {
            Role::Command
        } else {
            Role::Answer
        };
        let bit = self.once_in(2);
        Stimulus::Send(DrawnFrame {
            role,
            kind,
            send_number: 0,
            receive_number,
            bit,
        })
    }

    /// N(R): mostly V(S), or another one from V(A) to V(S); seldom one that is wrong.
    fn receive_number(&mut self) -> u8 {
        let window = self.end.link().window();
        let (first, last) = (window.va().value(), window.vs().value());
        match self.below(32) {
            0..=16 => last,
            17..=22 => first,
            23..=28 => {
                let count = last.wrapping_add(128).wrapping_sub(first) % 128;
                let more = (self.below(u32::from(count) + 1) % 128) as u8;
                first.wrapping_add(more) % 128
            }
            29 => last.wrapping_add(1) % 128,
            30 => first.wrapping_add(127) % 128,
            _ => self.number(),
        }
    }

    /// A request in states 7 and 8: mostly a message.
    fn request_open(&mut self) -> Stimulus {
        let request = match self.below(20) {
            0..=2 => return self.give_many(),
            3..=12 => Request::Give,
            13..=14 => Request::Busy,
            15..=17 => Request::Ready,
            18 => Request::Establish,
            _ => Request::Release,
        };
        self.request(request)
    }

    /// One or more messages over the window.
    fn give_many(&mut self) -> Stimulus {
        let more = (self.below(3) % 3 + 1) as u16;
        let count = u16::from(self.stack.k.min(MOST_WINDOW)).saturating_add(more);
        if self.stack.requests.give {
            Stimulus::Request(Request::Give, count)
        } else {
            self.supervisory(Kind::ReceiveReady)
        }
    }

    /// A request in states 4 to 6: mostly to establish the link.
    fn request_closed(&mut self) -> Stimulus {
        let request = match self.below(12) {
            0..=6 => Request::Establish,
            7..=8 => Request::Release,
            9..=10 => Request::Give,
            _ => Request::Unit,
        };
        self.request(request)
    }

    /// This request; a poll if the upper tester does not take it.
    fn request(&mut self, request: Request) -> Stimulus {
        if self.stack.requests.has(request) {
            Stimulus::Request(request, 1)
        } else {
            self.supervisory(Kind::ReceiveReady)
        }
    }
}

/// A frame without numbers, or with N(R) = 0.
fn plain(role: Role, kind: Kind, bit: bool) -> Stimulus {
    Stimulus::Send(DrawnFrame {
        role,
        kind,
        send_number: 0,
        receive_number: 0,
        bit,
    })
}

fn command(kind: Kind, bit: bool) -> Stimulus {
    plain(Role::Command, kind, bit)
}

fn response(kind: Kind, bit: bool) -> Stimulus {
    plain(Role::Answer, kind, bit)
}
