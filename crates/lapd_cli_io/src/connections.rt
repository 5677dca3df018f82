//! The surroundings of a side with the real clock: one TCP connection to the other side, or one to
//! each of several terminals; the clock; and standard input. One wait serves all of them.

ghost use Rattle.std.specs.Prelude.{◌≤◌, IfOk, IfSome};

use crate::acceptor::Acceptor;
use crate::clock::RealClock;
use crate::dialler::Dialler;
use crate::discards::Discards;
use crate::frame_stream::FrameStream;
use crate::input::Input;
use crate::lost::Lost;
use crate::next_connections::{INCOMING, Incoming, NextConnections};
use crate::peers::{LostPeer, Peers};
use crate::shared_bus::{BusSetup, ForeignUse, SharedBus};
use lapd_cli_notes::{Notes, connection};
use lapd_cli_script::port_reason;
use lapd_cli_wire::{
    Impairment, Incident, Lines, MOST_RECEIVED, Outside, Sending, Woken, is_reached,
};
use lapd_frame::Side;
use lapd_port::PortFault;
use lapd_table::{LinkId, LinkTable, Sapi, Tei};
use lapd_tei::{Assigner, TeiKind, TeiMessage};
use lapd_tei_audit::AuditStep;
use lapd_timers::earlier;
use mio::net::{TcpListener, TcpStream};
use mio::{Events, Poll, Token};
use std::io::{self, ErrorKind};
use std::net::SocketAddr;
use std::time::Duration;

/// The token of standard input. The token of a connection is its place, below 127.
const INPUT: Token = Token(1000);

/// The most events per poll.
const EVENTS: usize = 130;

/// The notes of requests without effect, and of a denied request.
const NOT_CHECKED: &str = "check-all without effect: a check is in progress";

const NOT_REMOVED: &str = "remove-all without effect: a TEI is held; `remove TEI` removes it";

const NOT_ASSIGNED: &str = "a request for a TEI was denied: all of 64 to 126 are held";

/// The lowest TEI that a network side assigns. A lower one is fixed at its terminal.
const FIRST_ASSIGNED: u8 = 64;

/// The most frames taken in a row before the next poll, if each is answered to one connection. With
/// more connections fewer are taken, since an answer is sent to all: a terminal that sends without
/// end does not keep the others waiting.
const MOST_IN_A_ROW: u32 = 64;

/// Connections, and a clock that begins when they are created.
#[derive(Drop)]
pub struct Connections<'a> {
    rt: &'a HostRuntime,
    notes: &'a Notes<'a>,
    clock: RealClock<'a>,
    poll: Poll,
    events: Events,
    input: Input,
    peers: Peers,
    next_connections: NextConnections,
    /// How long a connection may go without sending a whole frame, in milliseconds. No limit if
    /// `None`.
    idle_limit: Option<u64>,
    discards: Discards,
    /// The terminals of a network side that serves a bus.
    bus: Option<SharedBus>,
    /// The number of frames taken since the last poll.
    taken: u32,
    /// Whether the only connection is closed and all frames that arrived over it were taken.
    is_closed: bool,
    /// The number of lost connections that no wait has returned yet.
    losses: u64,
}

impl<'a> Connections<'a> {
    /// Room for at most this many connections, 1 to 127, of this side, at primary rate or at basic
    /// access.
    ///
    /// # Errors
    ///
    /// The system's error, or out of memory.
    pub fn new(
        rt: &'a HostRuntime,
        notes: &'a Notes<'a>,
        side: Side,
        most: u8,
        is_primary: bool,
    ) -> io::Result<Connections<'a>> {
        let poll = Poll::new(rt)?;
        Ok(Connections {
            rt,
            notes,
            clock: RealClock::start(rt)?,
            events: Events::with_capacity(rt.alloc(), EVENTS)?,
            input: Input::register(&poll, INPUT)?,
            peers: Peers::new(rt, most),
            next_connections: NextConnections::Nowhere,
            idle_limit: None,
            discards: Discards::new(side, is_primary),
            bus: None,
            taken: 0,
            is_closed: false,
            losses: 0,
            poll,
        })
    }

    /// Adds this connection, which must be non-blocking.
    ///
    /// # Errors
    ///
    /// The system's error, or out of memory.
    pub fn add(&mut self, stream: TcpStream, peer: SocketAddr) -> io::Result<()> {
        let _ = stream.set_nodelay(true);
        let stream = FrameStream::new(self.rt, stream, peer)?;
        self.peers.add(&self.poll, stream, self.clock.latest())?;
        if let Some(bus) = &mut self.bus {
            bus.join();
        }
        Ok(())
    }

    /// Serves the connections as terminals of a bus from now on.
    pub fn serve_bus(&mut self, setup: BusSetup) {
        let mut bus = SharedBus::new(setup);
        bus.join();
        self.bus = Some(bus);
    }

    /// Accepts further connections from this listener from now on, when there is room. The listener
    /// must be non-blocking.
    ///
    /// # Errors
    ///
    /// The system's error.
    pub fn accept_from(&mut self, listener: TcpListener) -> io::Result<()> {
        self.next_connections = NextConnections::Acceptor(Acceptor::new(
            &self.poll, INCOMING, listener,
        )?);
        Ok(())
    }

    /// Connects to this address again when the connection is lost.
    pub fn dial(&mut self, address: SocketAddr) {
        self.next_connections = NextConnections::Dialler(Dialler::new(address));
    }

    /// Sets how long a connection may go without sending a whole frame, in milliseconds, before it
    /// is closed.
    pub fn limit_idle(&mut self, limit: Option<u64>) {
        self.idle_limit = limit;
    }

    /// Notes that the other side has closed the only connection, if it has, everything it sent was
    /// read, and this was not noted when it was seen. For a side that no fault has ended: a fault is
    /// reported by itself.
    pub fn print_closed(&self) {
        if self.next_connections.is_nowhere() && !self.is_closed && self.peers.is_closed() {
            self.notes.print(port_reason(PortFault::End));
        }
    }

    /// Closes the connections. The sending directions are ended first. Then what arrives is read and
    /// dropped until the other sides have closed too, for a second at most: octets that were not
    /// read would make the system reset a connection, and the other side might lose the last frames.
    pub fn close(mut self) {
        self.peers.end_sending();
        let _ = self.linger();
    }

    /// Reads and drops what arrives until the other sides have closed, for a second at most.
    fn linger(&mut self) -> io::Result<()> {
        let end = self.clock.now()?.saturating_add(connection::LINGER);
        for _wait in 0..u64::MAX {
            let is_open = self.peers.drop_arrived();
            let now = self.clock.now()?;
            if !is_open || end <= now {
                break;
            }
            let left = if self.peers.is_ready() { 0 } else { end - now };
            self.poll(Some(left))?;
        }
        Ok(())
    }

    /// The most frames taken in a row before the next poll.
    fn most_in_a_row(&self) -> u32 {
        match u32::try_from(self.peers.count()) {
            Ok(count) if 0 < count => (MOST_IN_A_ROW / count).max(1),
            _ => MOST_IN_A_ROW,
        }
    }

    /// The next frame that has arrived.
    fn next_frame(&mut self, frame: &mut [u8; MOST_RECEIVED]) -> Result<Option<usize>, PortFault>
        ensures { IfOk result (λ count. IfSome count (λ count. count ≤ MOST_RECEIVED)) }
    {
        for _lost in 0..=self.peers.most() {
            match self.peers.next_frame(frame, self.clock.latest()) {
                Ok(Some(count)) => {
                    self.taken = self.taken.saturating_add(1);
                    if self.is_admitted(&frame[..count]) {
                        return Ok(Some(count));
                    }
                }
                Ok(None) => return Ok(None),
                Err(lost) => self.lose(lost)?,
            }
            if self.is_closed {
                return Ok(None);
            }
        }
        Ok(None)
    }

    /// Whether the side may receive this frame, the last one that was taken. A frame whose TEI is
    /// tied to another connection is dropped.
    fn is_admitted(&mut self, frame: &[u8]) -> bool {
        let Some(bus) = &mut self.bus else {
            return true;
        };
        let place = self.peers.last_place();
        match bus.receive(frame, place) {
            Ok(()) => true,
            Err(foreign) => {
                let count = bus.drops.add(self.clock.latest());
                self.refuse(foreign, place, count);
                false
            }
        }
    }

    /// Removes a TEI from the terminal at this place, which is not its own: Identity remove is sent
    /// over this connection alone (Q.921 5.3.4). Notes it, if this is the `count`th frame.
    fn refuse(&mut self, foreign: ForeignUse, place: usize, count: Option<u64>) {
        let ForeignUse { tei, owner } = foreign;
        if FIRST_ASSIGNED <= tei.value() {
            let (ri, kind, ai) = (0, TeiKind::Remove, tei.value());
            let message = TeiMessage { ri, kind, ai };
            self.peers.send_to(place, &message.frame(Side::Network));
        }
        if let (Some(count), Some(owner), Some(other)) = (
            count,
            self.peers.address(owner),
            self.peers.address(place),
        ) {
            self.notes.print(format_args!(
                "TEI {tei} belongs to {owner}: a frame from {other} was dropped; {count} so far"
            ));
        }
    }

    /// Handles a lost connection. If no other connection can take its place, the side ends, and that
    /// is noted at once.
    fn lose(&mut self, lost: LostPeer) -> Result<(), PortFault> {
        match (self.next_connections.is_nowhere(), lost.why.fault()) {
            (true, PortFault::End) => {
                if !self.is_closed {
                    self.is_closed = true;
                    self.add_loss();
                    self.notes.print(port_reason(PortFault::End));
                }
                Ok(())
            }
            (true, fault) => Err(fault),
            (false, _) => {
                self.drop_peer(lost);
                Ok(())
            }
        }
    }

    /// Removes a connection whose place the next one may take, and notes it.
    fn drop_peer(&mut self, lost: LostPeer) {
        let is_alone = self.peers.is_alone();
        if let Some(bus) = &mut self.bus {
            bus.lose(lost.place);
        }
        if let Some(peer) = self.peers.remove(lost.place) {
            self.add_loss();
            let now = self.clock.latest();
            self.next_connections
                .lose(peer, lost.why, is_alone, now, self.notes);
        }
    }

    /// Records a lost connection, which ends a wait.
    fn add_loss(&mut self) {
        self.losses = self.losses.saturating_add(1);
    }

    /// Adds the further connections that exist, while there is room.
    fn connect_further(&mut self) {
        for _connection in 0..self.peers.most() {
            if !self.peers.has_room() {
                return;
            }
            let now = self.clock.latest();
            match self
                .next_connections
                .next(self.rt, &self.poll, self.notes, now)
            {
                Some(incoming) => self.greet(incoming),
                None => return,
            }
        }
    }

    /// Adds a further connection, and notes it.
    fn greet(&mut self, incoming: Incoming) {
        let Incoming {
            stream,
            peer,
            words,
        } = incoming;
        match self.add(stream, peer) {
            Ok(()) => self.notes.print(format_args!("{words} {peer}")),
            Err(error) => {
                let now = self.clock.latest();
                self.next_connections.miss(peer, &error, now, self.notes);
            }
        }
    }

    /// Notes a discarded frame, if it is the first one of its address.
    fn note_discarded(&mut self, id: LinkId) {
        match id.sapi {
            Sapi::Call | Sapi::Packet => self.see_discarded(id.tei),
            Sapi::Management => {}
        }
        if let Some(discard) = self.discards.add(id) {
            self.notes.print(discard);
        }
    }

    /// Records a discarded frame of a link of this TEI.
    fn see_discarded(&mut self, tei: Tei) {
        if let Some(bus) = &mut self.bus {
            bus.discard(tei);
        }
    }

    /// Removes the only connection, if the next one can take its place: its other side does not
    /// answer.
    fn drop_silent(&mut self) {
        if self.peers.is_alone() && !self.next_connections.is_nowhere() {
            self.drop_peer(LostPeer {
                place: 0,
                why: Lost::Unanswered,
            });
        }
    }

    /// Records a frame that the side sends.
    fn record_sent(&mut self, frame: &[u8]) {
        if let Some(bus) = &mut self.bus {
            if bus.send(frame) {
                if let Some(count) = bus.denials.add(self.clock.latest()) {
                    self.notes
                        .print(format_args!("{NOT_ASSIGNED}; {count} so far"));
                }
            }
        }
    }

    /// Removes the connections that have been idle for too long at this moment, in milliseconds. A
    /// poll must have reported what had arrived by then. A closed connection is not idle.
    fn drop_idle(&mut self, now: u64) -> Result<(), PortFault> {
        let (Some(limit), false) = (self.idle_limit, self.is_closed) else {
            return Ok(());
        };
        for _place in 0..self.peers.most() {
            match self.peers.idle_peer(limit, now) {
                Some(lost) => self.lose(lost)?,
                None => return Ok(()),
            }
        }
        Ok(())
    }

    /// Polls until something has arrived, or for at most `left` milliseconds.
    fn poll(&mut self, left: Option<u64>) -> io::Result<()> {
        self.taken = 0;
        let left = left.map(Duration::from_millis);
        self.poll.poll(&mut self.events, left)?;
        for event in self.events.iter() {
            let token = event.token();
            if token == INPUT {
                self.input.wake();
            } else if token == INCOMING {
                self.next_connections.wake();
            } else {
                self.peers.wake(token.0);
            }
        }
        Ok(())
    }

    /// How many milliseconds a wait may last from this moment on. `None` means without limit.
    fn left(&self, until: Option<u64>, now: u64) -> Option<u64> {
        let idle = match self.idle_limit {
            Some(limit) => self.peers.next_idle(limit),
            None => None,
        };
        let next_attempt = if self.peers.has_room() {
            self.next_connections.next_moment()
        } else {
            None
        };
        let audit = match &self.bus {
            Some(bus) => bus.next_moment(),
            None => None,
        };
        let next = earlier(earlier(until, audit), earlier(idle, next_attempt))?;
        Some(next.saturating_sub(now))
    }

    /// Whether a line of input is awaited and can be read.
    fn has_line(&self, lines: Lines) -> bool {
        matches!(lines, Lines::Awaited) && self.input.is_ready()
    }

    /// Whether an audit may have something to do at this moment.
    fn is_audit_ready(&self, now: u64) -> bool {
        match &self.bus {
            Some(bus) => bus.is_ready(now),
            None => false,
        }
    }

    /// Whether there is already a reason to end a wait at this moment.
    fn is_awake(&self, lines: Lines, now: u64) -> bool {
        let has_work = self.peers.is_ready() || self.is_audit_ready(now);
        let is_lost = 0 < self.losses || self.is_closed;
        self.has_line(lines) || has_work || is_lost
    }

    /// The reason to end a wait at this moment, if there is one.
    fn woken(&mut self, lines: Lines, now: u64) -> Option<Woken> {
        if self.has_line(lines) {
            self.input.pass_on();
            Some(Woken::Line)
        } else if 0 < self.losses {
            self.losses -= 1;
            Some(Woken::Lost)
        } else if self.peers.is_ready() || self.is_audit_ready(now) {
            Some(Woken::Arrival)
        } else if self.is_closed {
            Some(Woken::Closed)
        } else {
            None
        }
    }

    /// Waits until the moment `until`, or until there is something to do.
    fn wait_for(&mut self, until: Option<u64>, lines: Lines) -> io::Result<Woken> {
        if matches!(lines, Lines::Awaited) {
            self.input.request(&self.poll, INPUT)?;
        }
        for _sleep in 0..u64::MAX {
            let now = self.clock.now()?;
            self.connect_further();
            let left = if self.is_awake(lines, now) {
                Some(0)
            } else {
                self.left(until, now)
            };
            self.poll(left)?;
            if self.drop_idle(now).is_err() {
                return Err(io::Error::from(ErrorKind::TimedOut));
            }
            let now = self.clock.now()?;
            if let Some(woken) = self.woken(lines, now) {
                return Ok(woken);
            }
            if is_reached(until, now) {
                return Ok(Woken::Due);
            }
        }
        Err(io::Error::from(ErrorKind::TimedOut))
    }
}

impl Outside for Connections<'_> {
    fn moment(&mut self) -> Result<u64, PortFault> {
        self.clock.now().map_err(|_| PortFault::Device)
    }

    fn receive(&mut self, frame: &mut [u8; MOST_RECEIVED]) -> Result<Option<usize>, PortFault> {
        if self.peers.is_alone() {
            // With only one connection, reading it replaces a poll.
            self.peers.wake(0);
            return self.next_frame(frame);
        }
        if self.taken < self.most_in_a_row() {
            if let Some(count) = self.next_frame(frame)? {
                return Ok(Some(count));
            }
        }
        if self.poll(Some(0)).is_err() {
            return Err(PortFault::Device);
        }
        self.connect_further();
        self.next_frame(frame)
    }

    fn wait(&mut self, until: Option<u64>, lines: Lines) -> Result<Woken, PortFault> {
        self.wait_for(until, lines).map_err(|_| PortFault::Device)
    }

    fn send(&mut self, frame: &[u8]) -> Result<Sending, PortFault> {
        if self.is_closed {
            return Ok(Sending::Lost);
        }
        self.record_sent(frame);
        if self.peers.send(frame) {
            return Ok(Sending::Sent);
        }
        if self.next_connections.is_nowhere() {
            Err(PortFault::Device)
        } else {
            Ok(Sending::Lost)
        }
    }

    fn note(&mut self, incident: Incident) {
        match incident {
            Incident::Discarded(id) => self.note_discarded(id),
            Incident::Unanswered(_) => self.drop_silent(),
            Incident::NotChecked => self.notes.print(NOT_CHECKED),
            Incident::NotRemoved => self.notes.print(NOT_REMOVED),
        }
    }

    fn next_audit(&mut self, assigner: &Assigner, links: &LinkTable) -> Option<AuditStep> {
        let now = self.clock.latest();
        match &mut self.bus {
            Some(bus) => bus.next_audit(assigner, links, now),
            None => None,
        }
    }

    fn impair(&mut self, _impairment: Impairment) {}
}
