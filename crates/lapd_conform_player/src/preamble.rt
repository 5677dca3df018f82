//! Leading the stack into a state, by the line alone if that is possible.

use crate::compared::{is_kind, is_link, management};
use crate::player::Player;
use crate::reason::{Reason, Stop};
use crate::spelled::{GROUP, modulo_128};
use crate::station::Station;
use lapd_conform_suite::{Kind, Preamble, Request, TeiKind};
use lapd_frame::{Control, Role, Side};
use lapd_tei::TeiMessage;
use lapd_timers::Timer;

/// The greatest number of times that a preamble tries.
const MOST_TRIES: u16 = 6;

/// The greatest number of frames that one try examines.
const MOST_FRAMES: usize = 100;

const SABME: Control = Control::Sabme { p: true };

const DISC: Control = Control::Disc { p: true };

const UA: Control = Control::Ua { f: true };

const DM: Control = Control::Dm { f: true };

/// The TEI that the tester assigns.
const ASSIGNED: u8 = 64;

impl Player<'_> {
    /// Leads the stack into a state.
    pub fn reach<S: Station>(&mut self, station: &mut S, state: Preamble) -> Result<(), Stop> {
        if self.values.tei == GROUP && !matches!(state, Preamble::TeiUnassigned) {
            self.get_tei(station)?;
        }
        match state {
            Preamble::TeiUnassigned => self.remove_tei(station),
            Preamble::AssignAwaitingTei | Preamble::EstablishAwaitingTei => Err(missed(state)),
            Preamble::TeiAssigned => {
                self.release(station)?;
                Ok(())
            }
            Preamble::AwaitingEstablishment => self.await_establishment(station),
            Preamble::LineEstablishes => self.line_establishes(station),
            Preamble::AwaitingRelease => self.await_release(station),
            Preamble::Established => self.establish(station),
            Preamble::TimerRecovery => self.recover(station),
            Preamble::OneOutstanding => self.recover_with_one(station),
        }
    }

    /// The moment until which an answer is awaited that the stack sends within this time.
    fn until<S: Station>(&self, station: &S, time: u64) -> u64 {
        let wait = time.saturating_add(self.slack(station));
        station.now().saturating_add(wait)
    }

    /// This many times T200.
    fn times_t200(&self, count: u64) -> u64 {
        self.duration(Timer::T200).saturating_mul(count)
    }

    /// Sends a command without information.
    fn order<S: Station>(&mut self, station: &mut S, control: Control) -> Result<(), Stop> {
        self.send(station, Role::Command, control, &[])
    }

    /// Sends a response without information.
    fn respond<S: Station>(&mut self, station: &mut S, control: Control) -> Result<(), Stop> {
        self.send(station, Role::Answer, control, &[])
    }

    /// Begins a dialogue in state 4, whatever happened before.
    pub fn renew<S: Station>(&mut self, station: &mut S) -> Result<(), Stop> {
        if self.values.tei == GROUP {
            self.get_tei(station)?;
        }
        let was_linked = self.release(station)?;
        self.calm(station, was_linked)?;
        self.record.clear();
        Ok(())
    }

    /// State 4: DISC until UA or DM with F=1. Returns `true` after UA: the link was not in state 4.
    fn release<S: Station>(&mut self, station: &mut S) -> Result<bool, Stop> {
        for turn in 0..MOST_TRIES {
            if let Some(was_linked) = self.disconnect(station)? {
                if turn > 0 {
                    self.drain(station)?;
                }
                return Ok(was_linked);
            }
        }
        Err(missed(Preamble::TeiAssigned))
    }

    /// Sends DISC, and returns whether UA (`true`) or DM (`false`) answers it. Answers DISC and SABME
    /// of the stack meanwhile. A SABME crosses the DISC: then the answer does not count.
    fn disconnect<S: Station>(&mut self, station: &mut S) -> Result<Option<bool>, Stop> {
        self.order(station, DISC)?;
        let until = self.until(station, self.times_t200(2).max(1_250));
        let mut crossed = false;
        for _turn in 0..MOST_FRAMES {
            match self.next_control(station, until)? {
                Some((_, Control::Sabme { .. })) => {
                    self.respond(station, DM)?;
                    crossed = true;
                }
                Some((_, Control::Disc { .. })) => self.respond(station, UA)?,
                Some((_, Control::Ua { f: true })) if !crossed => return Ok(Some(true)),
                Some((_, Control::Dm { f: true })) if !crossed => return Ok(Some(false)),
                Some(_) => {}
                None => return Ok(None),
            }
        }
        Ok(None)
    }

    /// State 4 after a DISC was answered, whatever the case before has left. After UA the link may
    /// await its own release (state 6); then the next DISC is answered by UA again. After DM it may
    /// await its establishment (state 5). Its frames are answered until none arrives for T200. If
    /// layer 3 of the stack acts by itself, frames may arrive for ever, and only the first is
    /// answered.
    fn calm<S: Station>(&mut self, station: &mut S, was_linked: bool) -> Result<(), Stop> {
        if self.values.stack.is_active {
            if !was_linked {
                self.answers_request(station)?;
            }
            return Ok(());
        }
        if was_linked && self.disconnect(station)? == Some(false) {
            return Ok(());
        }
        for _turn in 0..MOST_FRAMES {
            if !self.answers_request(station)? {
                return Ok(());
            }
        }
        Err(missed(Preamble::TeiAssigned))
    }

    /// Answers the next SABME by DM, or the next DISC by UA. `false` if none arrives for T200.
    fn answers_request<S: Station>(&mut self, station: &mut S) -> Result<bool, Stop> {
        let until = self.until(station, self.times_t200(1));
        for _turn in 0..MOST_FRAMES {
            match self.next_control(station, until)? {
                Some((_, Control::Sabme { .. })) => {
                    self.respond(station, DM)?;
                    return Ok(true);
                }
                Some((_, Control::Disc { .. })) => {
                    self.respond(station, UA)?;
                    return Ok(true);
                }
                Some(_) => {}
                None => return Ok(false),
            }
        }
        Ok(true)
    }

    /// Waits until no frame of the stack is in transit.
    fn drain<S: Station>(&mut self, station: &mut S) -> Result<(), Stop> {
        let until = self.until(station, 0);
        for _turn in 0..MOST_FRAMES {
            if self.next(station, until)?.is_none() {
                return Ok(());
            }
        }
        Ok(())
    }

    /// The role and the control field of the next valid frame of the link.
    fn next_control<S: Station>(
        &mut self,
        station: &mut S,
        until: u64,
    ) -> Result<Option<(Role, Control)>, Stop> {
        for _turn in 0..MOST_FRAMES {
            match self.next(station, until)? {
                Some(place) => {
                    if let Some(frame) = self.frame(place)
                        && is_link(&self.values, &frame)
                    {
                        return Ok(Some((frame.address().role, frame.control())));
                    }
                }
                None => return Ok(None),
            }
        }
        Ok(None)
    }

    /// State 7: SABME until UA with F=1. A SABME that crosses is answered by UA.
    fn establish<S: Station>(&mut self, station: &mut S) -> Result<(), Stop> {
        for turn in 0..MOST_TRIES {
            self.order(station, SABME)?;
            if self.is_established(station)? {
                return self.settle(station, turn > 0);
            }
        }
        Err(missed(Preamble::Established))
    }

    fn is_established<S: Station>(&mut self, station: &mut S) -> Result<bool, Stop> {
        let until = self.until(station, self.times_t200(1));
        for _turn in 0..MOST_FRAMES {
            match self.next_control(station, until)? {
                Some((_, Control::Sabme { .. } | Control::Disc { .. })) => self.respond(
                    station, UA,
                )?,
                Some((_, Control::Ua { f: true })) => return Ok(true),
                Some(_) => {}
                None => return Ok(false),
            }
        }
        Ok(false)
    }

    /// Answers a SABME that crossed. A message of layer 3 ends the case. If SABME was sent again,
    /// each of them is answered, as late as the first one.
    fn settle<S: Station>(&mut self, station: &mut S, is_repeated: bool) -> Result<(), Stop> {
        let until = if is_repeated {
            self.until(station, 0)
        } else {
            station
                .now()
                .saturating_add(self.transit().saturating_add(60))
        };
        for _turn in 0..MOST_FRAMES {
            match self.next_control(station, until)? {
                Some((_, Control::Sabme { .. })) => self.respond(station, UA)?,
                Some((_, Control::I { .. })) => return Err(missed(Preamble::Established)),
                Some(_) => {}
                None => return Ok(()),
            }
        }
        Ok(())
    }

    /// Whether the next frame of the link is of this kind, and is sent within this many times T200.
    fn sends<S: Station>(&mut self, station: &mut S, kind: Kind, count: u64) -> Result<bool, Stop> {
        let until = self.until(station, self.times_t200(count));
        match self.next_control(station, until)? {
            Some((_, control)) => Ok(is_kind(control, kind)),
            None => Ok(false),
        }
    }

    /// State 5, by a request of layer 3 if that is possible, else by the line.
    fn await_establishment<S: Station>(&mut self, station: &mut S) -> Result<(), Stop> {
        if !self.values.stack.requests.establish {
            return self.line_establishes(station);
        }
        self.release(station)?;
        self.request_of_link(station, Request::Establish)?;
        reached(
            self.sends(station, Kind::Sabme, 2)?,
            Preamble::AwaitingEstablishment,
        )
    }

    /// State 5: DM with F=0 in state 7, else FRMR. Then the data link requests the establishment.
    fn line_establishes<S: Station>(&mut self, station: &mut S) -> Result<(), Stop> {
        let (dm, frmr) = (Control::Dm { f: false }, Control::Frmr { f: false });
        let establishes = self.establishes_after(station, dm, &[])?
            || self.establishes_after(station, frmr, &[0, 0, 0, 0, 1])?;
        reached(establishes, Preamble::LineEstablishes)
    }

    /// Whether the stack sends SABME after this response in state 7. If not, the dialogue begins
    /// anew, since other cases test how the stack processes the response.
    fn establishes_after<S: Station>(
        &mut self,
        station: &mut S,
        control: Control,
        info: &[u8],
    ) -> Result<bool, Stop> {
        self.establish(station)?;
        self.send(station, Role::Answer, control, info)?;
        let establishes = self.sends(station, Kind::Sabme, 2)?;
        if !establishes {
            self.renew(station)?;
        }
        Ok(establishes)
    }

    /// State 6: a release request in state 7.
    fn await_release<S: Station>(&mut self, station: &mut S) -> Result<(), Stop> {
        self.establish(station)?;
        self.request_of_link(station, Request::Release)?;
        reached(
            self.sends(station, Kind::Disconnect, 4)?,
            Preamble::AwaitingRelease,
        )
    }

    /// State 8: RNR, and T200 expires. RR with F=0 then ends the busy condition, not the state.
    fn recover<S: Station>(&mut self, station: &mut S) -> Result<(), Stop> {
        let nr = modulo_128(0);
        self.establish(station)?;
        self.respond(station, Control::Rnr { nr, pf: false })?;
        self.await_poll(station)?;
        self.respond(station, Control::Rr { nr, pf: false })
    }

    /// State 8 with one I frame outstanding: T200 expires.
    fn recover_with_one<S: Station>(&mut self, station: &mut S) -> Result<(), Stop> {
        self.establish(station)?;
        self.request_of_link(station, Request::Give)?;
        reached(
            self.sends(station, Kind::Information, 4)?,
            Preamble::OneOutstanding,
        )?;
        self.await_poll(station)
    }

    /// Waits for a command with P=1: RR, RNR or the last I frame.
    fn await_poll<S: Station>(&mut self, station: &mut S) -> Result<(), Stop> {
        let until = self.until(station, self.times_t200(4));
        match self.next_control(station, until)? {
            Some(
                (
                    Role::Command,
                    Control::Rr { pf: true, .. }
                    | Control::Rnr { pf: true, .. }
                    | Control::I { p: true, .. },
                ),
            ) => Ok(()),
            _ => Err(missed(Preamble::TimerRecovery)),
        }
    }

    /// State 1: the tester removes all TEIs.
    fn remove_tei<S: Station>(&mut self, station: &mut S) -> Result<(), Stop> {
        self.values.tei = GROUP;
        if station.restart()? {
            return Ok(());
        }
        self.remove_all(station)
    }

    /// Removes all TEIs, twice, since a frame may be lost (Q.921 5.3.4).
    fn remove_all<S: Station>(&mut self, station: &mut S) -> Result<(), Stop> {
        self.send_message(station, TeiKind::Remove, 0, GROUP)?;
        self.send_message(station, TeiKind::Remove, 0, GROUP)?;
        self.drain(station)
    }

    /// Gets a TEI of a stack whose TEIs are automatic.
    fn get_tei<S: Station>(&mut self, station: &mut S) -> Result<(), Stop> {
        match self.values.stack.side {
            Side::Network => self.request_tei(station),
            Side::User => self.assign_tei(station),
        }
    }

    /// The network side assigns a TEI.
    fn request_tei<S: Station>(&mut self, station: &mut S) -> Result<(), Stop> {
        for turn in 0..MOST_TRIES {
            let ri = (station.now() % 1_000) as u16 + turn * 1_000;
            self.send_message(station, TeiKind::Request, ri, GROUP)?;
            let until = self.until(station, 2_000);
            if let Some(message) = self.next_message(station, until, TeiKind::Assigned, Some(ri))? {
                self.values.tei = message.ai;
                return Ok(());
            }
        }
        Err(missed(Preamble::TeiAssigned))
    }

    /// The tester assigns a TEI to a terminal that requests one. A terminal that was not started anew
    /// may have one, which is removed first.
    fn assign_tei<S: Station>(&mut self, station: &mut S) -> Result<(), Stop> {
        if !self.is_fresh {
            self.remove_all(station)?;
        }
        if self.values.stack.requests.ask {
            self.request_of_link(station, Request::Ask)?;
        }
        let until = self.until(station, 6_000);
        match self.next_message(station, until, TeiKind::Request, None)? {
            Some(message) => {
                self.send_message(station, TeiKind::Assigned, message.ri, ASSIGNED)?;
                self.values.tei = ASSIGNED;
                Ok(())
            }
            None => Err(missed(Preamble::TeiAssigned)),
        }
    }

    /// The next message of this kind, with this Ri if one is named.
    fn next_message<S: Station>(
        &mut self,
        station: &mut S,
        until: u64,
        kind: TeiKind,
        ri: Option<u16>,
    ) -> Result<Option<TeiMessage>, Stop> {
        for _turn in 0..MOST_FRAMES {
            match self.fetch(station, until)? {
                Some(place) => {
                    if let Some(frame) = self.frame(place)
                        && let Some(message) = management(&frame)
                        && message.kind == kind
                        && ri.unwrap_or(message.ri) == message.ri
                    {
                        return Ok(Some(message));
                    }
                }
                None => return Ok(None),
            }
        }
        Ok(None)
    }

    /// Sends a message of TEI management. `ai` counts modulo 128.
    fn send_message<S: Station>(
        &mut self,
        station: &mut S,
        kind: TeiKind,
        ri: u16,
        ai: u8,
    ) -> Result<(), Stop> {
        let message = TeiMessage {
            ri,
            kind,
            ai: ai % 128,
        };
        let mut octets = Vec::new(self.alloc);
        octets.extend_from_slice(&message.frame(self.values.tester()))?;
        self.put(station, octets)
    }
}

/// Whether the preamble led into this state.
fn reached(is_reached: bool, state: Preamble) -> Result<(), Stop> {
    if is_reached {
        Ok(())
    } else {
        Err(missed(state))
    }
}

/// The preamble did not lead into this state.
fn missed(state: Preamble) -> Stop {
    Stop::Missed(Reason::NotReached(state))
}
