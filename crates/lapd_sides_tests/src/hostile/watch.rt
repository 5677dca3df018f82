//! A side under watch: its results for octets, and which of its links they change.

use crate::digest::{PLACES, at_place, id_at};
use crate::hostile::discards::{is_discarded, is_for_management};
use crate::talk::Talk;
use lapd_frame::{Frame, MOST_OCTETS, read, write};
use lapd_sides::{Request, Side};
use lapd_test_text::Text;
use std::alloc::{AllocError, Global};
use std::test::Fail;

/// The index of the link of SAPI 0 and TEI 64.
const PLACE: usize = 64;

/// A side, whether it is a network side, the last digest of each link, the state that its link is
/// set to, and the octets for which a check failed.
#[derive(Drop)]
pub(super) struct Watch {
    pub(super) alloc: Global,
    talk: Talk,
    to_network: bool,
    seen: [u64; PLACES],
    state: u8,
    pub(super) wrong: Text,
}

/// The index of the link with the address of these octets, or an index past all links if there is
/// none.
fn place_of(octets: &[u8]) -> usize {
    match octets {
        [first, second, ..] if *first < 4 => usize::from(*second / 2),
        [first, second, ..] if *first / 4 == 16 => usize::from(*second / 2 + 128),
        _ => PLACES,
    }
}

/// Whether a side may send these octets: they can be read as a frame, and writing the frame
/// produces the same octets.
fn is_sent(octets: &[u8], from: Side) -> bool {
    match read(octets, from) {
        Ok(frame) => is_written(&frame, from, octets),
        Err(_) => false,
    }
}

/// Whether writing a frame produces these octets.
fn is_written(frame: &Frame<'_>, from: Side, octets: &[u8]) -> bool {
    let mut room = [0; MOST_OCTETS];
    let len = write(frame, from, &mut room);
    room.get(..len) == Some(octets)
}

impl Watch {
    /// Watches a new side, with no link seen yet.
    pub(super) fn new(alloc: Global) -> Result<Watch, AllocError> {
        Ok(Watch {
            alloc,
            talk: Talk::of(alloc, "net")?,
            to_network: true,
            seen: [0; PLACES],
            state: 4,
            wrong: Text::new(),
        })
    }

    /// Fails if any check failed.
    pub(super) fn end(&self) -> Result<(), Fail> {
        if self.wrong.is("") {
            return Ok(());
        }
        let wrong = self.wrong.as_str();
        Err(Fail::new(format_args!("received octets: {wrong}")))
    }

    /// Watches a new side, which these words describe, and whose link is set to this state.
    /// Establishes the existing links of even TEIs, and takes the digests of all links.
    pub(super) fn begin(&mut self, links: &str, state: u8) {
        self.renew(links);
        self.to_network = links.starts_with("net");
        self.state = state;
        let command = if self.to_network { 0x00 } else { 0x02 };
        for half in 0..64u8 {
            let second = half.wrapping_mul(4) | 1;
            let _ = self.takes(&[command, second, 0x7f]);
            let _ = self.takes(&[command | 0x40, second, 0x7f]);
        }
        for place in 0..PLACES {
            self.look_at(place);
        }
    }

    /// Watches the side that these words describe.
    fn renew(&mut self, links: &str) {
        match Talk::of(self.alloc, links) {
            Ok(talk) => self.talk = talk,
            Err(_) => self.wrong.put("no memory;"),
        }
    }

    /// Takes the digest of the link at this index, and returns whether it is unchanged.
    fn look_at(&mut self, place: usize) -> bool {
        let now = at_place(&self.talk.side, place);
        match self.seen.get_mut(place) {
            Some(seen) => {
                let same = *seen == now;
                *seen = now;
                same
            }
            None => false,
        }
    }

    /// Passes octets to the side, and returns whether its allocations succeeded.
    fn takes(&mut self, octets: &[u8]) -> bool {
        self.talk.side.take(octets, 0, &mut self.talk.acts).is_ok()
    }

    /// Submits a message to the link of SAPI 0 and TEI 64.
    fn give(&mut self) {
        if let Ok(message) = [0xaa, 0xbb].to_vec(self.alloc) {
            let request = Request::Give(id_at(PLACE), message);
            let _ = self.talk.side.request(request, 0, &mut self.talk.acts);
        }
    }

    /// Brings the link of SAPI 0 and TEI 64, if it exists, to its state. For state 4 the other side
    /// sends UA with F=1, then DISC. For state 7 it sends UA with F=1, then SABME with P=1, and the
    /// link sends one message.
    pub(super) fn lead(&mut self) {
        let command = if self.to_network { 0x00 } else { 0x02 };
        let _ = self.takes(&[command ^ 0x02, 0x81, 0x73]);
        if self.state == 4 {
            let _ = self.takes(&[command, 0x81, 0x53]);
        } else {
            let _ = self.takes(&[command, 0x81, 0x7f]);
            self.give();
        }
        let _ = self.look_at(PLACE);
    }

    /// Brings the link to its state, and passes octets.
    pub(super) fn receive(&mut self, octets: &[u8]) {
        self.lead();
        match self.talk.side.table().link(id_at(PLACE)) {
            Some(link) if link.state() == self.state => self.look(octets),
            _ => self.wrong.put("the link is in another state;"),
        }
    }

    /// Passes octets, and notes them if a check fails.
    pub(super) fn look(&mut self, octets: &[u8]) {
        if !self.receives(octets) {
            self.wrong.hex(octets);
            self.wrong.put(";");
        }
    }

    /// Passes these octets and checks the results: the side sends only valid frames, it counts
    /// discarded octets and has no results for them, and all other links are unchanged.
    fn receives(&mut self, octets: &[u8]) -> bool {
        let place = place_of(octets);
        let discarded = is_discarded(octets, self.to_network, self.is_there(place));
        let wanted = self
            .talk
            .side
            .discarded()
            .wrapping_add(u64::from(discarded));
        self.takes(octets)
            && self.gives_frames()
            && (!discarded || self.talk.acts.frames().is_empty())
            && (!discarded || self.talk.acts.primitives().is_empty())
            && self.talk.side.discarded() == wanted
            && self.leaves_others(place, is_for_management(octets, self.to_network))
    }

    /// Whether a link was seen at this index.
    fn is_there(&self, place: usize) -> bool {
        match self.seen.get(place) {
            Some(seen) => *seen != 0,
            None => false,
        }
    }

    /// Whether all octets that the side sends are valid frames.
    fn gives_frames(&self) -> bool {
        let from = self.talk.side.side();
        let mut all = true;
        for frame in self.talk.acts.frames() {
            all = all && is_sent(frame.as_slice(), from);
        }
        all
    }

    /// Whether all links except the one at this index are unchanged. TEI management may add the
    /// links of a TEI on a network side, and add or remove the links of a user side's own TEI.
    fn leaves_others(&mut self, spared: usize, managed: bool) -> bool {
        let mut all = true;
        for place in 0..PLACES {
            let before = self.is_there(place);
            let alike = self.look_at(place);
            let now = self.is_there(place);
            let moves = managed && before != now && (now || !self.to_network);
            all = all && (alike || moves || place == spared);
        }
        all
    }
}
