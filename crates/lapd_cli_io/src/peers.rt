//! The connections of a side: only one, or a place for each of several terminals on a bus.

ghost use Rattle.std.specs.Prelude.{◌≤◌, IfOk, IfSome, length};
ghost use Rattle.lapd_port.specs.SocketText.{IsFrameLength};

use crate::frame_stream::FrameStream;
use crate::lost::Lost;
use lapd_cli_wire::MOST_RECEIVED;
use mio::{Poll, Token};
use slab::Slab;
use std::io::{self, ErrorKind};
use std::net::SocketAddr;

/// Connections at places from 0 on. The place of a connection is also its token.
#[derive(Drop)]
pub struct Peers {
    streams: Slab<Peer>,
    /// The most connections.
    most: usize,
    /// The place to look for the next frame first.
    next_place: usize,
    /// The place of the last frame that was taken.
    last_place: usize,
}

/// A connection.
#[derive(Drop)]
struct Peer {
    stream: FrameStream,
    /// The moment when it was established or last sent a whole frame, in milliseconds.
    last_frame_at: u64,
}

/// A connection that is lost.
#[derive(Clone, Copy)]
pub struct LostPeer {
    /// Its place.
    pub place: usize,
    /// Why it is lost.
    pub why: Lost,
}

impl Peers {
    /// Room for this many connections, 1 to 127.
    pub fn new(rt: &HostRuntime, most: u8) -> Peers {
        Peers {
            streams: Slab::new(rt.alloc()),
            most: usize::from(most),
            next_place: 0,
            last_place: 0,
        }
    }

    /// The most connections.
    pub fn most(&self) -> usize {
        self.most
    }

    /// The number of connections.
    pub fn count(&self) -> usize {
        self.streams.len()
    }

    /// Whether a further connection has room.
    pub fn has_room(&self) -> bool {
        self.streams.len() < self.most
    }

    /// Whether there is one connection and no room for others.
    pub fn is_alone(&self) -> bool {
        self.most == 1 && self.streams.len() == 1
    }

    /// Adds a connection that was established at this moment, in milliseconds, and registers it
    /// with the poll.
    ///
    /// # Errors
    ///
    /// The system's error, or out of memory.
    pub fn add(&mut self, poll: &Poll, stream: FrameStream, now: u64) -> io::Result<()> {
        let Ok(place) = self.streams.insert(Peer {
            stream,
            last_frame_at: now,
        })
        else {
            return Err(io::Error::from(ErrorKind::OutOfMemory));
        };
        let registered = match self.streams.get_mut(place) {
            Some(peer) => peer.stream.register(poll, Token(place)),
            None => Ok(()),
        };
        if registered.is_err() {
            let _ = self.streams.try_remove(place);
        }
        registered
    }

    /// Removes the connection at this place, and returns its peer's address.
    pub fn remove(&mut self, place: usize) -> Option<SocketAddr> {
        let peer = self.streams.try_remove(place)?;
        Some(peer.stream.peer())
    }

    /// The place of the connection over which the last frame was taken.
    pub fn last_place(&self) -> usize {
        self.last_place
    }

    /// The address of the other side of the connection at this place.
    pub fn address(&self, place: usize) -> Option<SocketAddr> {
        Some(self.streams.get(place)?.stream.peer())
    }

    /// Sends a frame of 3 to 264 octets over the connection at this place alone.
    pub fn send_to(&mut self, place: usize, frame: &[u8])
        requires { IsFrameLength (length frame.now) }
    {
        if let Some(peer) = self.streams.get_mut(place) {
            let _ = peer.stream.send(frame);
        }
    }

    /// Records that something may have arrived over the connection at this place.
    pub fn wake(&mut self, place: usize) {
        if let Some(peer) = self.streams.get_mut(place) {
            peer.stream.wake();
        }
    }

    /// Whether [`Peers::next_frame`] may have a new frame or a lost connection to return.
    pub fn is_ready(&self) -> bool {
        (0..self.most).any(|place| self.is_ready_at(place))
    }

    fn is_ready_at(&self, place: usize) -> bool {
        match self.streams.get(place) {
            Some(peer) => peer.stream.is_ready(),
            None => false,
        }
    }

    /// Takes the next frame that has arrived whole, from each connection in turn, at a moment in
    /// milliseconds. Returns `None` when the connections that the poll reported have nothing left
    /// to read.
    ///
    /// # Errors
    ///
    /// A connection is lost. It keeps its place until it is removed.
    pub fn next_frame(
        &mut self,
        frame: &mut [u8; MOST_RECEIVED],
        now: u64,
    ) -> Result<Option<usize>, LostPeer>
        ensures { IfOk result (λ count. IfSome count (λ count. count ≤ MOST_RECEIVED)) }
    {
        for _place in 0..self.most {
            let place = self.next_place;
            self.next_place = place_behind(place, self.most);
            match self.next_frame_at(place, frame, now) {
                Ok(Some(count)) => {
                    self.last_place = place;
                    return Ok(Some(count));
                }
                Ok(None) => {}
                Err(why) => return Err(LostPeer { place, why }),
            }
        }
        Ok(None)
    }

    fn next_frame_at(
        &mut self,
        place: usize,
        frame: &mut [u8; MOST_RECEIVED],
        now: u64,
    ) -> Result<Option<usize>, Lost>
        ensures { IfOk result (λ count. IfSome count (λ count. count ≤ MOST_RECEIVED)) }
    {
        let Some(peer) = self.streams.get_mut(place) else {
            return Ok(None);
        };
        let count = peer.stream.next_frame(frame)?;
        if count.is_some() {
            peer.last_frame_at = now;
        }
        Ok(count)
    }

    /// Sends a frame of 3 to 264 octets over each connection. Returns whether at least one accepted
    /// it.
    pub fn send(&mut self, frame: &[u8]) -> bool
        requires { IsFrameLength (length frame.now) }
    {
        let mut is_taken = false;
        for place in 0..self.most {
            if let Some(peer) = self.streams.get_mut(place) {
                is_taken = peer.stream.send(frame).is_ok() || is_taken;
            }
        }
        is_taken
    }

    /// The first connection that has sent no whole frame for `limit` milliseconds, and has nothing
    /// left to read of what the poll reported.
    pub fn idle_peer(&self, limit: u64, now: u64) -> Option<LostPeer> {
        let place = (0..self.most).find(|place| self.is_idle_at(*place, limit, now))?;
        Some(LostPeer {
            place,
            why: Lost::Idle(limit),
        })
    }

    fn is_idle_at(&self, place: usize, limit: u64, now: u64) -> bool {
        match self.streams.get(place) {
            Some(peer) => peer.idle_moment(limit) <= now && !peer.stream.is_ready(),
            None => false,
        }
    }

    /// The first moment at which a connection may have sent no whole frame for `limit`
    /// milliseconds.
    pub fn next_idle(&self, limit: u64) -> Option<u64> {
        let mut next = None;
        for (_place, peer) in self.streams.iter() {
            let moment = peer.idle_moment(limit);
            next = Some(next.map_or(moment, |next: u64| next.min(moment)));
        }
        next
    }

    /// Ends the sending direction of each connection.
    pub fn end_sending(&mut self) {
        for place in 0..self.most {
            if let Some(peer) = self.streams.get_mut(place) {
                peer.stream.end_sending();
            }
        }
    }

    /// Reads and drops what has arrived over each connection. Returns whether more may arrive.
    pub fn drop_arrived(&mut self) -> bool {
        let mut is_open = false;
        for place in 0..self.most {
            if let Some(peer) = self.streams.get_mut(place) {
                is_open = peer.stream.drop_arrived() || is_open;
            }
        }
        is_open
    }

    /// Whether the other side has closed the only connection and all frames that it sent were
    /// taken.
    pub fn is_closed(&self) -> bool {
        match self.streams.get(0) {
            Some(peer) => self.is_alone() && peer.stream.is_closed(),
            None => false,
        }
    }
}

impl Peer {
    /// The moment at which it will have sent no whole frame for `limit` milliseconds.
    fn idle_moment(&self, limit: u64) -> u64 {
        self.last_frame_at.saturating_add(limit)
    }
}

/// The place after this one, among `most` places. The first place follows the last.
fn place_behind(place: usize, most: usize) -> usize {
    let next = place.saturating_add(1);
    if next < most { next } else { 0 }
}
